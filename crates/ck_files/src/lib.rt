//! Calls over the table of a volume alone: names, mounts, checkpoints, what is told of them, and what
//! a call that changes files comes to. Generic over the table; no device.
#![tactic(auto)]

mod changes;
mod conversion;
mod flag;
mod freeze;
mod given;
mod mounts;
mod names;
mod picks;
mod planned;
mod removal;
mod reports;
mod room;
mod strip;

pub use changes::change_all;
pub use conversion::convert;
pub use flag::make_removable;
pub use freeze::create;
pub use given::Given;
pub use mounts::{mount, mounted_at, umount};
pub use names::{cls, ls, stat};
pub use planned::{Planned, plan_changes};
pub use removal::{drain, remove, step};
pub use reports::{ckpts, info};
pub use room::used;
pub use strip::{before_all, strip_of};
