//! What the size of an image tells: its layout, and how many blocks it has.
//! Rule: IMAGE, The bytes; IMAGE, Layout 3.
ghost use Rattle.std.specs.Prelude.{◌≡◌, ◌<◌, ◌≤◌, true, false, IfSome, OnSome, IfNone};
ghost use Rattle.journal.specs.Layout.{fewest_blocks, most_blocks};
ghost use Rattle.journal.specs.Layouts.{has_size, is_journal, sectors_for};
ghost use Rattle.journal.specs.Sizes.{is_known_size, is_pages_size, is_size, known_blocks};

use crate::layout::{BlockCount, MOST_BLOCKS, blocks_of_size};
use crate::pages;
use sector_disk::SectorDevice;

/// How an image keeps its blocks.
#[derive(Clone, Copy, Debug, PartialEq, Eq)]
pub enum Layout {
    /// Layout 2: each block in its home, and in its slot while a save of it is under way.
    Journal,
    /// Layout 3: each block in one of its two places.
    Pages,
}

/// What the number of its sectors tells of an image.
#[derive(Clone, Copy)]
pub struct Size {
    pub layout: Layout,
    pub blocks: BlockCount,
}

/// The layout of images with so many sectors, and how many blocks they have. None where no image of layout 2 or 3 has
/// so many.
pub fn size_of(sectors: u32) -> Option<Size>
    ensures some { OnSome result (is_known_size sectors ≡ true) }
    ensures none { IfNone result (is_known_size sectors ≡ false) }
    ensures layout { IfSome result (λ size. is_journal size.layout ≡ is_size sectors) }
    ensures sectors { IfSome result (λ size. sectors ≡ sectors_for size.layout size.blocks.number) }
    ensures count { IfSome result (λ size. size.blocks.number ≡ known_blocks sectors) }
{
    match size_by(Layout::Journal, sectors) {
        Some(size) => Some(size),
        None => other_size(sectors),
    }
}

// The same of a size that no image of layout 2 has.
fn other_size(sectors: u32) -> Option<Size>
    requires { is_size sectors ≡ false }
    ensures some { OnSome result (is_known_size sectors ≡ true) }
    ensures none { IfNone result (is_known_size sectors ≡ false) }
    ensures layout { IfSome result (λ size. is_journal size.layout ≡ is_size sectors) }
    ensures sectors { IfSome result (λ size. sectors ≡ sectors_for size.layout size.blocks.number) }
    ensures count { IfSome result (λ size. size.blocks.number ≡ known_blocks sectors) }
{
    match size_by(Layout::Pages, sectors) {
        Some(size) => Some(size),
        None => None,
    }
}

/// The size of an image of this layout with so many sectors. None where no image of it has so many.
pub fn size_by(layout: Layout, sectors: u32) -> Option<Size>
    ensures some { OnSome result (has_size layout sectors ≡ true) }
    ensures none { IfNone result (has_size layout sectors ≡ false) }
    ensures layout { IfSome result (λ size. size.layout ≡ layout) }
    ensures sectors { IfSome result (λ size. sectors ≡ sectors_for layout size.blocks.number) }
    ensures count { IfSome result (λ size. size.blocks.number ≡ known_blocks sectors) }
{
    match layout {
        Layout::Journal => journal_size(sectors),
        Layout::Pages => pages_size(sectors),
    }
}

fn journal_size(sectors: u32) -> Option<Size>
    ensures some { OnSome result (is_size sectors ≡ true) }
    ensures none { IfNone result (is_size sectors ≡ false) }
    ensures layout { IfSome result (λ size. size.layout ≡ Layout.Journal) }
    ensures sectors { IfSome result (λ size. sectors ≡ sectors_for Layout.Journal size.blocks.number) }
    ensures count { IfSome result (λ size. size.blocks.number ≡ known_blocks sectors) }
{
    match blocks_of_size(sectors, MOST_BLOCKS) {
        Some(number) => Some(Size {
            layout: Layout::Journal,
            blocks: BlockCount { number },
        }),
        None => None,
    }
}

fn pages_size(sectors: u32) -> Option<Size>
    ensures some { OnSome result (is_pages_size sectors ≡ true) }
    ensures none { IfNone result (is_pages_size sectors ≡ false) }
    ensures layout { IfSome result (λ size. size.layout ≡ Layout.Pages) }
    ensures sectors { IfSome result (λ size. sectors ≡ sectors_for Layout.Pages size.blocks.number) }
    ensures count { IfSome result (λ size. size.blocks.number ≡ known_blocks sectors) }
{
    match pages::layout::blocks_of_size(sectors) {
        Some(number) => Some(Size {
            layout: Layout::Pages,
            blocks: BlockCount { number },
        }),
        None => None,
    }
}

/// How many sectors an image of so many blocks has.
pub fn sectors_of(layout: Layout, blocks: u16) -> u32
    ensures { result ≡ sectors_for layout blocks }
{
    match layout {
        Layout::Journal => 3 + 4 * blocks as u32,
        Layout::Pages => 32 + 16 * blocks as u32,
    }
}

/// How many blocks an image of so many sectors has, from 32 to 3,840. None where no image of layout 2 or 3 has so many.
pub fn known_blocks(sectors: u32) -> Option<u16>
    ensures count { IfSome result (λ n. n ≡ known_blocks sectors) }
    ensures some { OnSome result (is_known_size sectors ≡ true) }
    ensures none { IfNone result (is_known_size sectors ≡ false) }
    ensures sized { OnSome result (0 < sectors) }
    ensures many { IfSome result (λ n. fewest_blocks ≤ n) }
    ensures few { IfSome result (λ n. n ≤ most_blocks) }
{
    match size_of(sectors) {
        Some(size) => Some(size.blocks.number),
        None => None,
    }
}

/// Whether the device has as many sectors as some image of layout 2.
/// Rule: IMAGE, The bytes.
pub fn is_older<D: SectorDevice>(device: &D) -> bool
    ensures { result ≡ is_size (D.sector_count device.now) }
{
    blocks_of_size(device.sectors(), MOST_BLOCKS).is_some()
}

/// Whether an image of layout 1, 2 or 3 has so many sectors.
pub fn is_known_size(sectors: u32) -> bool
    ensures { result ≡ is_known_size sectors }
{
    known_blocks(sectors).is_some()
}
