//! The files of a volume over a device: opening and formatting it, one call at a time, and commits.
#![tactic(auto)]

mod answer;
mod background;
mod engine;
mod format;
mod open;
mod reads;

pub use engine::Engine;
pub use format::FormatFault;
pub use open::OpenFault;
pub use reads::ReadAnswer;
