//! What is given up where space runs out, and whether a call's cost fits.
#![tactic(auto)]

mod cost;
mod removable;

pub use cost::fits;
pub use removable::pick;
