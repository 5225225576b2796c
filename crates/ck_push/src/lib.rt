//! Changes of the primary, which push what it held into the newest checkpoint, and what they take.
#![tactic(auto)]

mod copy_on_write;
mod push;
mod room;

pub use copy_on_write::change;
pub use room::cost;
