//! The plain program: the model's worlds with whole copied maps, and every call as the definitions say it. It is
//! slow and small, and the yardstick of the product's own bodies.
#![tactic(auto)]

mod answer;
mod blocks;
mod cells;
mod changes;
mod counts;
mod created;
mod frozen;
mod given;
mod ids;
mod marks;
mod mounts;
mod names;
mod ordered;
mod reads;
mod reports;
mod retain;
mod room;
mod sizes;
mod space;
mod step;
mod walk;
mod world;
mod writes;

pub use answer::Answer;
pub use cells::PlainMap;
pub use changes::{Next, changed};
pub use reads::{names_listed, range_read, status_of};
pub use step::is_plain_call;
pub use world::{Plain, PlainCheckpoint};
