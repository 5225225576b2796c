//! The data blocks of a volume: which are free, and which have to wait for the next commit.
#![tactic(auto)]

mod bit_set;
mod blocks;
mod words;

pub use blocks::Blocks;
