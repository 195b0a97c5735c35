//! Where the system keeps its cells in data space, by this project's profile.
ghost use Rattle.std.specs.Prelude.{◌≡◌, ◌<◌};
ghost use Rattle.data_space.specs.Space.{cell_at};

use data_space::DataSpace;

/// The base of numbers.
pub(crate) const BASE: u16 = 16;

/// Whether text is compiled.
pub(crate) const STATE: u16 = 18;

/// How far the text was taken.
pub(crate) const TO_IN: u16 = 20;

/// The block that text is taken from: none where it is 0.
pub(crate) const BLK: u16 = 22;

/// How many bytes the line has.
pub(crate) const TIB_COUNT: u16 = 24;

/// How many bytes the last `EXPECT` stored.
pub(crate) const SPAN: u16 = 26;

/// The text input buffer, and how many bytes it has.
pub(crate) const TIB: u16 = 256;

pub(crate) const TIB_SIZE: u16 = 1024;

/// What a system cell holds.
#[inline]
pub(crate) fn cell_of(space: &DataSpace, a: u16) -> u16
    requires { a < 65535 }
    ensures { result ≡ cell_at space.now a }
{
    match space.cell(a) {
        Some(cell) => cell,
        None => 0,
    }
}
