//! Blocks that are saved all or none, and a Forth system over them, for a program that supplies the device and the
//! console.
//!
//! What each call does over any device stands in `promises`. The calls that C makes are those of the crate `embed`.
#![tactic(auto)]

mod arguments;
mod block_calls;
pub mod console;
pub mod disk;
pub mod host;
mod image_sessions;
mod kept_calls;
mod making;
mod memory_console;
mod memory_host;
pub mod open_store;
#[cfg(test)]
mod opening_tests;
pub mod promises;
pub mod refusal;
