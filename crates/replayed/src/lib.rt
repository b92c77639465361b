#![tactic(auto)]

// A list of calls on a run, in words, and how each ended.
pub mod calls;
pub mod script;
mod told;
pub mod wrong;
