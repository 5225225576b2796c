//! The region of a device that holds a volume's table: it is committed as a whole, or not at all.
#![tactic(auto)]

mod faults;
mod gate;
mod header;
mod layout;
mod region;
mod setup;
mod writes;

pub use faults::{FormatLog, OpenLog};
pub use layout::device_blocks;
pub use region::Region;
