//! The slots of a table's blocks: read, checked, and written.
#![tactic(auto)]

mod alone;
mod block;
mod broken;
mod crowd;
mod holder;
mod known;
mod parts;
mod pushes;
mod repeated;
mod repeats;
mod text;
mod whole;

pub use block::{read_block, slot_in};
pub use broken::first_damage;
pub use text::spell_block;
