//! Which block each of the four block buffers holds, in the order of their last use.
//!
//! The buffers' bytes lie elsewhere: a buffer is known here by its slot, 0 to 3. The cache of the `lru` crate keeps
//! the order, and the marks of updated buffers are kept by slot.
#![tactic(auto)]

pub use buffers::{Assigned, Buffers, NoMemory, Slot};

mod buffers;
