//! The words of a command line, and the command of `fsckptadm` that they match.
#![tactic(auto)]

mod command;
mod patterns;

pub use command::Command;
pub use patterns::match_words;
