//! Reads of a checkpoint's files over many turns, a block at each. Generic over the table and the
//! device.
#![tactic(auto)]

mod block;
mod checkpoint;
mod fault;
mod progress;
mod turns;

pub use fault::StartFault;
pub use progress::{ReadProgress, start};
pub use turns::{ReadTurn, turn};
