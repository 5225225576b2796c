//! The table of a volume in memory, as a `Meta`. It is opened from and committed to a region of a
//! device.
#![tactic(auto)]

mod entries;
mod filesets;
mod maps;
mod opened;
mod order;
mod piece;
mod search;
mod slot;
mod table;
mod written;

pub use opened::OpenSlots;
pub use table::{CommitFault, Slots};
