#![tactic(auto)]

// The texts that explain the program's words and the library's refusals.
pub mod functions;
pub mod refusals;
pub mod topics;
