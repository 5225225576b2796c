//! Scripts of a kind, made from a seed: files, and rounds of changes with a checkpoint and a backup
//! each.
#![tactic(auto)]

mod draws;
mod generator;

pub use generator::generate;
