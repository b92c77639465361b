#![tactic(auto)]

// Lines of text that stand for calls: their words read, and values shown.
pub mod columns;
pub mod cursor;
pub mod kinds;
pub mod list;
pub mod scan;
pub mod stop;
pub mod text;
pub mod values;
