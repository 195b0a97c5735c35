// By which layout an image is written, and in which units its disk is.
ghost use Rattle.std.specs.Prelude.{◌≡◌, ◌⊎◌, ◌↔◌, ◌≤◌, ◌+◌, ◌%◌, IsTrue};

use journal::layout::{self as older, LABEL};
use journal::pages::layout as newer;

/// The layout of an image.
#[derive(Clone, Copy, PartialEq, Eq)]
pub enum Layout {
    /// Layout 2.
    Older,
    /// Layout 3.
    Newer,
}

/// How many sectors a unit of a disk has: a stop may spoil all those around an unsynced write.
#[derive(Clone, Copy, PartialEq, Eq)]
pub enum Unit {
    /// Each sector is a unit of its own.
    One,
    /// Units have eight sectors, each from a multiple of eight on.
    Eight,
}

/// The layout of an image, and the units of its disk.
#[derive(Clone, Copy, PartialEq, Eq)]
pub struct Medium {
    /// By which the image is written.
    pub layout: Layout,
    /// In which the sectors of the disk lie.
    pub unit: Unit,
}

/// Layout 2, on a disk whose sectors are units of their own.
pub const OLDER: Medium = Medium {
    layout: Layout::Older,
    unit: Unit::One,
};

impl Layout {
    // Whether a sector is that of the label or of the gate.
    fn has_name(self, k: u32) -> bool
        ensures older { self ≡ Layout.Older → IsTrue result ↔ ((k ≡ 0) ⊎ (k ≡ 1)) }
        ensures newer { self ≡ Layout.Newer → IsTrue result ↔ ((k ≡ 0) ⊎ (k ≡ 8)) }
    {
        match self {
            Layout::Older => k == LABEL || k == older::GATE,
            Layout::Newer => k == LABEL || k == newer::GATE,
        }
    }
}

impl Unit {
    // The first sector of the unit in which this one lies.
    fn first(self, k: u32) -> u32
        ensures one { self ≡ Unit.One → result ≡ k }
        ensures eight { self ≡ Unit.Eight → result + k % 8 ≡ k }
    {
        match self {
            Unit::One => k,
            Unit::Eight => k - k % 8,
        }
    }
}

impl Medium {
    /// The first sector of the unit in which sector `k` lies.
    pub fn unit_of(&self, k: u32) -> u32
        ensures one { self.now.unit ≡ Unit.One → result ≡ k }
        ensures eight { self.now.unit ≡ Unit.Eight → result + k % 8 ≡ k }
    {
        self.unit.first(k)
    }

    /// The most combinations of lost, kept and torn units that are all tried. By layout 3 they are fewer: an opening computes a tag
    /// of each block.
    pub fn most_stops(&self) -> usize {
        match self.layout {
            Layout::Older => 1_000,
            Layout::Newer => 100,
        }
    }

    /// Whether the unit in which sector `k` lies begins with a name, as those of label and gate do.
    pub fn has_name(&self, k: u32) -> bool {
        self.layout.has_name(self.unit_of(k))
    }
}
