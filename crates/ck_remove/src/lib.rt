//! Removal of checkpoints in steps: the entries of those that are gone move on one by one.
#![tactic(auto)]

mod gone;
mod older;
mod removal;

pub use gone::{GoneEntry, left, work};
pub use removal::step;
