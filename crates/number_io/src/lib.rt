//! Numbers as text, in any base from 2 to 72, and words and texts taken from a stream. The digits past `9` and the
//! ranges are this project's profile of Forth-83. No call takes memory.
#![tactic(auto)]

pub use digits::{convert, digit_char, digit_value};
pub use held::Held;
pub use number::{Number, NumberFault, read_number};
pub use taking::{take_text, take_word};

mod digits;
mod held;
pub mod laws;
mod number;
mod taking;
