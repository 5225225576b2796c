//! The volume: its files on a device, and the history of the calls that it answered.
#![tactic(auto)]

mod background;
mod calls;
mod commit;
mod event;
mod log;
mod told;
mod volume;

pub use background::Background;
pub use calls::Closed;
pub use commit::CommitAnswer;
pub use event::{Progress, Turn};
pub use volume::Volume;
