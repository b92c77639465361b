#![tactic(auto)]

pub mod calls;
pub mod replay;
