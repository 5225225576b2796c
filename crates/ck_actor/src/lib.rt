//! Actors: whose call each turn of a script works on, and the play of a script by its turns.
#![tactic(auto)]

mod actor;
mod place;
mod script;

pub use actor::{Actor, ActorTurn};
pub use script::play;
