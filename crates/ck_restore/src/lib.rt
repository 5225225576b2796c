//! A checkpoint's contents become the primary's again, and it leaves together with all newer ones.
#![tactic(auto)]

mod newest;
mod older;
mod primary;
mod restored;
mod size;

pub use restored::restore;
pub use size::restore_size;
