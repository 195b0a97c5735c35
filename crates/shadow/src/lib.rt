//! Images of layout 3 are made, looked at, opened after a stop, and made of images of other layouts.
#![tactic(auto)]

mod carrying;
mod checking;
mod formatting;
mod label;
pub mod laws;
mod opening;
mod places;
mod upgrading;

pub use checking::read_record;
pub use formatting::format;
pub use label::read_count;
pub use opening::{Found, look, survey};
pub use places::Places;
pub use upgrading::upgrade;
