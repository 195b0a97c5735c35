//! The system words: a row each, which says what there is to say of a word. Who wants to know something of a word asks
//! here, and looks at its row once.
#![tactic(auto)]

pub use lookup::{mark_of, meaning_of};
pub use table::{COUNT, Row, all};

mod lookup;
mod table;
pub mod words;
