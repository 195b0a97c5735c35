//! The data space of a Forth system: 65,536 bytes, and the cells and block buffers in them. Where the buffers stand is
//! this project's profile of Forth-83. No call but `DataSpace::new` takes memory.
#![tactic(auto)]

pub use space::{BUFFER_SIZE, DataSpace, FIRST_BUFFER, NoMemory, SIZE};

pub mod lent;
mod moves;
mod space;
