#![tactic(auto)]

// The answer of a window function for each record of a CSV file.
pub mod answer;
mod by_rows;
mod cells;
pub mod drawn;
mod given;
mod job;
pub mod message;
mod parts;
pub mod refusal;
mod text;
pub mod undrawn;
