//! The top call of the programs: words, a script, its play, and what is printed of it.
#![tactic(auto)]

mod command;
mod mkfs;
mod print;
mod read;
mod refusal;
mod session;
mod volume;

pub use command::{Ended, top};
