//! Images of layout 3: each block has two places, and a gate names one of two records, which tell the current ones.
pub mod layout;
mod reading;
mod saving;
mod spilling;
pub mod tags;

pub use reading::{made_tag, read_tag};
pub(crate) use saving::save;
pub(crate) use spilling::spill;
