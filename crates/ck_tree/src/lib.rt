//! Paths in the primary or in a checkpoint of a table: the node that a path leads to, and the key
//! of its last name. Generic over the table.
#![tactic(auto)]

mod deletions;
mod directory;
mod fault;
mod keys;
mod lookup;
mod nodes;
mod numbers;
mod paths;
mod plans;
mod replies;
mod sizes;
mod value;
mod walks;
mod writes;

pub use directory::{children, has_names};
pub use fault::TreeFault;
pub use nodes::{is_directory_at, size_at};
pub use numbers::draw;
pub use paths::{directory_at, file_at, name_at, new_name_at, node_at};
pub use plans::plan;
pub use value::held_at;
pub use walks::walk;
