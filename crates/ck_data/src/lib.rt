//! The data blocks of a volume's files over a device: reads of files, and blocks that are stored in
//! free places.
#![tactic(auto)]

mod fault;
mod piece;
mod places;
mod range;
mod reads;
mod store;
mod writes;

pub use fault::Fault;
pub use range::DataArea;
pub use reads::read;
pub use writes::apply_planned;
