//! Scripts: their lines, and the calls that the lines stand for.
#![tactic(auto)]

mod arguments;
mod calls;
mod checkpoints;
mod fault;
mod files;
mod form;
mod line;
mod parser;
mod refusal;
mod script;
mod tally;
mod turns;
mod verb;
mod words;

pub use fault::ParseFault;
pub use line::{Line, Lines};
pub use parser::parse;
use refusal::Refusal;
pub use script::Script;
pub use turns::Turns;
