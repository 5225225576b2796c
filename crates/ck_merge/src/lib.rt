//! Changed streams that follow one another, merged into one.
#![tactic(auto)]

mod fault;
mod laws;
mod merged;

pub use fault::MergeFault;
pub use laws::{backups_merge, merged_applies, merged_has_both};
pub use merged::{Merged, merge};
