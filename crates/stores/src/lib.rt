//! A store of blocks on a device is opened by the layout of its image.
#![tactic(auto)]

pub mod laws;
mod opening;
mod resuming;

pub use journal::Store;
pub use opening::{adopt, open, ready};
pub use resuming::{named, resume};
