#![tactic(auto)]

// Values and answers as the fields of a table have them.
pub mod answers;
pub mod values;
