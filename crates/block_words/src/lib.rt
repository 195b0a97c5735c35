//! The block words of Forth-83 over a store of blocks that a stop can't tear: a block is edited in one of four buffers
//! of data space, and all edits are saved at once.
#![tactic(auto)]

pub use block_buffers::NoMemory;
pub use buffered_blocks::{BlockFault, Blocks, TextPlace};

mod assigning;
mod buffered_blocks;
pub mod laws;
mod saving;
