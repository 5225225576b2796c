//! The answered calls of a volume, and the memory that is kept for those to come.
#![tactic(auto)]

mod history;

pub use history::History;
