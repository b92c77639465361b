#![tactic(auto)]

pub mod calls;
pub mod function;
pub mod kinds;
pub mod lists;
pub mod output;
mod reads;
pub mod runs;
pub mod stop;
pub mod whole;
