//! An image is copied into a new file. The old one is opened for reading alone.
//! Rule: MANUAL, forth83 copy OLD NEW [--blocks N].
ghost use Rattle.std.specs.Prelude.{◌≡◌, ◌≢◌, ◌⊎◌, Some, None, IfErr, OnOk, option_map};
ghost use Rattle.recovery.specs.Steps.{WentWell};
ghost use Rattle.journal.specs.Layouts.{sectors_for};
ghost use Rattle.terminal.specs.Copying.{Copies, copied_count, sectors_for_copy};
ghost use Rattle.terminal.specs.Failed.{CopyFails};

use super::failure::Failure;
use image_care::copy;
use journal::layout::MOST_BLOCKS;
use journal::sizes::{Layout, sectors_of, size_of};
use sector_disk::SectorDevice;

/// How many sectors the copy of an image on so many has, where so many blocks are asked for.
pub(super) fn sectors_for_copy(sectors: u32, asked: Option<u16>) -> Option<u32>
    ensures { result ≡ sectors_for_copy sectors asked }
{
    match size_of(sectors) {
        Some(size) => sectors_by(size.layout, copied_count(size.blocks.number, asked)),
        None => None,
    }
}

/// How many sectors an image of so many blocks has, by a layout. None where no number is given.
pub(super) fn sectors_by(layout: Layout, blocks: Option<u16>) -> Option<u32>
    ensures { result ≡ option_map (sectors_for layout) blocks }
{
    match blocks {
        Some(blocks) => Some(sectors_of(layout, blocks)),
        None => None,
    }
}

/// How many blocks the copy of an image of so many has.
fn copied_count(blocks: u16, asked: Option<u16>) -> Option<u16>
    ensures { result ≡ copied_count blocks asked }
{
    match asked {
        None => Some(blocks),
        Some(count) if blocks <= count && count <= MOST_BLOCKS => Some(count),
        Some(_) => None,
    }
}

/// Makes an image of the blocks of the one on another device, by the same layout and of as many sectors or more. Its
/// failures: `BadSize` where the sizes don't fit, then those of an opening, the first that holds, with no call of the
/// new device; and `Device` where a call of either failed.
/// Rule: MANUAL, forth83 copy OLD NEW [--blocks N]; IMAGE, For another writer; IMAGE, Layout 3, A copy.
pub fn copy_over<A: SectorDevice, B: SectorDevice>(old: &mut A, new: &mut B) -> Result<(), Failure>
    ensures copies { OnOk result (Copies A.SectorDevice B.SectorDevice old.old old.new new.old new.new) }
    ensures well { OnOk result (WentWell A.SectorDevice B.SectorDevice old.old old.new new.old new.new) }
    // Where it failed, an image of these blocks is made in part.
    ensures failed { IfErr result (λ failure. CopyFails A.SectorDevice B.SectorDevice failure old.old old.new new.old new.new) }
{
    match copy(old, new) {
        Ok(()) => Ok(()),
        Err(fault) => Err(Failure::from(fault)),
    }
}
