#![tactic(auto)]

// The words of the desk's program: a command, its options, and what is wrong with words that are no command.
pub mod asked;
pub mod command;
pub mod frame;
pub mod frame_text;
pub mod function;
mod given;
pub mod key;
pub mod misuse;
pub mod parse;
mod values;
mod words;
