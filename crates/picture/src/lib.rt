#![tactic(auto)]

// One partition as an SVG picture: its rows, and the row that each answer comes from.
pub mod draw;
mod escape;
pub mod row;
