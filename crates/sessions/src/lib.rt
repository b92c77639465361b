#![tactic(auto)]

// The desk's session records: read, answered session by session, and reported.
pub mod answers;
mod cells;
mod columns;
mod header;
mod lag;
mod partitions;
pub mod problem;
mod read;
pub mod record;
pub mod report;
