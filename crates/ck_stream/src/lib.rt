//! Backup streams: what a checkpoint holds, or what changed between two, as bytes.
#![tactic(auto)]

mod applied;
mod base;
mod fault;
mod fields;
mod header;
mod item;
mod laws;
mod order;
mod parsed;
mod passed;
mod records;
mod seen;
mod stream;
mod summary;
mod tag;
mod written;

pub use applied::apply;
pub use base::Base;
pub use fault::{ApplyFault, StreamFault};
pub use item::{Item, Items};
pub use laws::{backups_apply, none_begins_another};
pub use parsed::read_stream;
pub use stream::{Changed, Full, Stream, Summary};
pub use summary::verify_stream;
pub use tag::Header;
pub use written::{write_changed, write_full};
