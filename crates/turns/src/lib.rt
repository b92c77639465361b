#![tactic(auto)]

// The rows of a table, partition by partition and each in its order.
pub mod layout;
pub mod numbers;
pub mod order;
