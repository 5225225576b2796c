//! The texts of the programs: calls, replies, transcripts, and the lines on standard error.
#![tactic(auto)]

mod calls;
mod date;
mod history;
mod laws;
mod list;
mod places;
mod put;
mod replies;
mod standard_error;
mod status;

pub use calls::put_call;
pub use history::transcript;
pub use laws::texts_tell;
pub use list::listing;
pub use replies::put_reply;
pub use standard_error::fault_line;
pub use status::Status;
