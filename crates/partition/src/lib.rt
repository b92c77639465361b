#![tactic(auto)]

pub mod peers;
mod walk;
pub mod whole;
