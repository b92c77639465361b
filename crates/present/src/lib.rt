#![tactic(auto)]

pub mod held;
pub mod scan;
