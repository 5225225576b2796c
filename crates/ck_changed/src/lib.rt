//! What differs between two checkpoints of a table, one key at a time. Generic over the table.
#![tactic(auto)]

mod candidate;
mod compare;
mod difference;

pub use compare::{Compare, Next};
pub use difference::next_difference;
