#![tactic(auto)]

// One partition of a table with its answers, drawn.
pub mod rows;
pub mod sources;
