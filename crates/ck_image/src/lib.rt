//! The call behind the program `ckptimage`: streams on its input are looked at, applied, or merged.
#![tactic(auto)]

mod command;
mod images;
mod merges;
mod refusal;
mod texts;
mod top;

pub use top::image_top;
