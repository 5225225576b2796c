//! The list of a volume's checkpoints: a new one, one by its name, those that stand, one whose
//! flags change, and one that leaves. Generic over the table.
#![tactic(auto)]

mod added;
mod flags;
mod gone;
mod lookup;

pub use added::{AddFault, add, new_id};
pub use flags::{set_nodata, set_removable};
pub use gone::{mark_gone, unlink};
pub use lookup::{count_live, find, live};
