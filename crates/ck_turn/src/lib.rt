//! A ticket lock: callers take a value in turn, and each knows a beginning of the list that the value stands for.
#![tactic(auto)]

mod plays;
mod stands;
pub mod tally;
#[cfg(test)]
mod tests;
mod turnstile;
mod view;

pub use stands::Stands;
pub use turnstile::{Pass, Turnstile};
