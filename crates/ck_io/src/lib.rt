//! The outside of a program: bytes that come in, bytes that go out, and the time.
#![tactic(auto)]

mod clock;
mod fault;
mod memory;
mod sink;
mod source;
mod standard;
mod whole;

pub use clock::{Clock, FixedClock, SystemClock};
pub use fault::{Failed, InputFault};
pub use memory::{MemSink, MemSource};
pub use sink::Sink;
pub use source::Source;
pub use standard::{StdSink, StdSource};
pub use whole::{read_all, write_all};
