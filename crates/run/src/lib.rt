#![tactic(auto)]

mod progress;
pub mod rows;
pub mod run;
mod stage;
