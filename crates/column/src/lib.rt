#![tactic(auto)]

pub mod column;
pub mod fault;
pub mod kind;
pub mod output;
