#![tactic(auto)]

// The words by which a line names a window function with its arguments.
pub mod argument;
pub mod frames;
pub mod function;
pub mod name;
pub mod shift;
