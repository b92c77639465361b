#![tactic(auto)]

// A CSV file as flat lists of its records and fields, which borrow from its text.
pub mod columns;
pub mod content;
pub mod fault;
mod field;
pub mod names;
pub mod place;
pub mod read;
mod row;
mod stop;
#[cfg(test)]
mod tests;
pub mod write;
