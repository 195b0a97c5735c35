//! Where the blocks of images of layout 3 stand.
mod current;
mod finding;
mod gates;
mod standing;

pub use current::read_current;
pub(crate) use finding::find;
pub(crate) use gates::gate_fits;
pub(crate) use standing::take_block;
pub use standing::{Standing, find_standing};
