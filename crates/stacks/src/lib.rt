//! The two stacks of a Forth system: cells, and what is left to do. Their limits are this project's profile of
//! Forth-83. No call takes memory.
#![tactic(auto)]

pub use data_stack::{DataStack, roll_in};
pub use fault::StackFault;
pub use return_stack::{Entry, ReturnStack};

mod data_stack;
mod fault;
pub mod laws;
mod return_stack;
