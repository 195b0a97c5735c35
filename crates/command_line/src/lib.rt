//! The words of a command line: what they may be, what they mean, and what is refused.
#![tactic(auto)]

pub use reading::{VERSION, order};

mod arguments;
pub mod laws;
pub mod orders;
mod reading;
