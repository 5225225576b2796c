//! Checkpoints that keep no data give their data blocks back, one by one.
#![tactic(auto)]

mod item;
mod marks;

pub use item::{StripItem, strip_in, strip_work, strip_work_behind};
pub use marks::{strip, strip_one};
