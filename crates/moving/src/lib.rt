#![tactic(auto)]

// A partition answered row by row, as a node does that is shown some rows at a time.
pub mod moving;
pub mod stop;
