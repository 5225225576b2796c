//! What each checkpoint has at a key: its own entry, or the first of the newer filesets.
#![tactic(auto)]

mod filesets;
mod needless;
mod order;
mod values;

pub use filesets::{is_live, keeps, newest_live};
pub use needless::tidy;
pub use order::{lesser, next_entry, next_in_chain};
pub use values::{is_covered, value};
