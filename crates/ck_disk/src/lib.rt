//! Block devices: what reads give, and what a crash may leave of it.
#![tactic(auto)]

mod disk;
mod file_disk;
mod fuse_disk;
mod lost;
mod mem_disk;
mod memory;

pub use disk::{Block, Disk, Failed};
pub use file_disk::FileDisk;
pub use fuse_disk::FuseDisk;
pub use mem_disk::{MemDisk, Torn};
pub use memory::NoMemory;
