#![tactic(auto)]

pub mod cells;
pub mod evaluator;
pub mod mirror;
pub mod numbers;
pub mod utils;
