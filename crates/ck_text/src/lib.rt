//! Words, decimals and hexadecimal: texts in ASCII, read and written exactly.
#![tactic(auto)]

mod blanks;
mod hexadecimal;
mod numbers;

pub use blanks::words;
pub use hexadecimal::{hex_bytes, put_hex};
pub use numbers::{decimal, put_decimal};
