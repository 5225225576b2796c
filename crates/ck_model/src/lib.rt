//! The model of the file system: its types, and the definitions that every promise is stated in.
#![tactic(auto)]

mod bytes;
mod call;
mod cell;
mod change;
mod checkpoint;
mod child;
mod entry;
mod held;
mod key;
mod limit;
mod memory;
mod meta;
mod mounts;
mod name;
mod path;
mod reply;

pub use bytes::Octets;
pub use call::{Call, Calls};
pub use cell::{Cell, Payload};
pub use change::{Change, Cost, Freed};
pub use checkpoint::{CkptLine, CkptLines, Counters, Fileset, Kind, Limits, State};
pub use child::{Child, Children};
pub use entry::Entry;
pub use held::{Held, Small};
pub use key::Key;
pub use limit::{BLOCK, CHECKPOINT_LIMIT, FILE_LIMIT, SCRIPT_LIMIT};
pub use memory::NoMemory;
pub use meta::Meta;
pub use mounts::Mounts;
pub use name::NameBytes;
pub use path::{Path, WalkFault};
pub use reply::{Reply, SpaceOf};
