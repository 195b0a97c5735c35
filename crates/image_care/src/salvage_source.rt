// What can be had of the blocks of an image, for a new one, and what is noted of it.
ghost use Rattle.std.specs.Prelude.{◌≡◌, ◌≢◌, ◌<◌, ◌||◌, ℕ, IsTrue, OnOk, IfOk};
ghost use Rattle.sector_disk.specs.Disk.{MayLeave};
ghost use Rattle.journal.specs.Calls.{StopsLeave, BeginsAtMost, ReadsAtMost, Passes};
ghost use Rattle.journal.specs.Layout.{most_blocks, listed};
ghost use Rattle.image_care.specs.Standing.{is_other, is_nowhere};
ghost use Rattle.image_care.specs.Taken.{Notes, reads_by, reads_under, stands_by, stands_under, taken_by, taken_under};
ghost use Rattle.image_care.specs.View.{sectors_of};
ghost use Rattle.image_care.specs.declared.pages.standing.Standing.{Standing};

use crate::one_block::read_found;
use crate::pages::{Standing, take_block};
use crate::view::{Listing, View};
use journal::pages::layout::list;
use recovery::Source;
use sector_disk::{DeviceFault, SectorDevice};

/// The blocks that a salvage didn't take from where they count, as two lists. Each has one bit a block: byte `b / 8`,
/// worth `2^(b mod 8)` in it, as `journal::layout::is_listed` reads it. Of an image of layout 2 they list none.
#[derive(Clone, Copy, Debug, PartialEq, Eq)]
pub struct Taken {
    /// Those that it took from their other places.
    pub others: [u8; 512],
    /// Those that it found in neither place, and that are blank in the new image.
    pub lost: [u8; 512],
}

// No block is noted.
pub(crate) fn nothing_noted() -> Taken
    ensures { (standing : ℕ → Standing) → Notes 0 standing result.others result.lost }
{
    Taken {
        others: [0; 512],
        lost: [0; 512],
    }
}

// Notes that a block was taken from its other place, or was found in neither.
fn note(taken: &mut Taken, b: u16, standing: Standing)
    requires { b < most_blocks }
    ensures other { listed taken.new.others b ≡ (listed taken.old.others b || is_other standing) }
    ensures others { (a : ℕ) → a ≢ b → listed taken.new.others a ≡ listed taken.old.others a }
    ensures nowhere { listed taken.new.lost b ≡ (listed taken.old.lost b || is_nowhere standing) }
    ensures lost { (a : ℕ) → a ≢ b → listed taken.new.lost a ≡ listed taken.old.lost a }
{
    match standing {
        Standing::Current => {}
        Standing::Other => list(&mut taken.others, b),
        Standing::Nowhere => list(&mut taken.lost, b),
    }
}

// The blocks of an image, each as a salvage takes it by this view, with blank ones above them; and where they were taken from.
#[derive(Drop)]
pub(crate) struct TakenBlocks {
    pub view: View,
    pub taken: Taken,
}

impl Source for TakenBlocks {
    ghost sectors_of = { λ s. sectors_of s.view };

    ghost bytes_in = { λ s. taken_by s.view };

    ghost reads_in = { λ s. reads_by s.view };

    ghost has_noted = { λ first now image count. (now.view ≡ first.view)
        × Notes count (stands_by first.view image) now.taken.others now.taken.lost };

    fn fetch<A: SectorDevice>(
        &mut self,
        device: &mut A,
        b: u16,
        bytes: &mut [u8; 1024],
    ) -> Result<(), DeviceFault> {
        let standing = take(device, &self.view, b, bytes)?;
        note(&mut self.taken, b, standing);
        Ok(())
    }
}

// Takes a block, or gives blanks past the image's last one.
fn take<D: SectorDevice>(
    device: &mut D,
    view: &View,
    b: u16,
    bytes: &mut [u8; 1024],
) -> Result<Standing, DeviceFault>
    requires size { D.sector_count device.old ≡ sectors_of view.now }
    ensures standing { IsTrue (D.keeps_model device.old)
        → IfOk result (λ found. found ≡ stands_by view.now (D.disk device.old).content b) }
    ensures bytes { IsTrue (D.keeps_model device.old)
        → OnOk result (bytes.new ≡ taken_by view.now (D.disk device.old).content b) }
    ensures disk { IsTrue (D.keeps_model device.old) → D.disk device.new ≡ D.disk device.old }
    ensures stops { IsTrue (D.keeps_model device.old)
        → StopsLeave D.SectorDevice device.old device.new (MayLeave (D.disk device.old)) }
    ensures passes { Passes D.SectorDevice device.old device.new result }
    ensures begins { BeginsAtMost D.SectorDevice device.old device.new 0 0 }
    ensures reads { IsTrue (D.keeps_model device.old)
        → ReadsAtMost D.SectorDevice device.old device.new (reads_by view.now (D.disk device.old).content b) }
{
    if b < view.blocks.number {
        take_there(device, view, b, bytes)
    } else {
        *bytes = [b' '; 1024];
        Ok(Standing::Current)
    }
}

// Takes a block that the image has.
fn take_there<D: SectorDevice>(
    device: &mut D,
    view: &View,
    b: u16,
    bytes: &mut [u8; 1024],
) -> Result<Standing, DeviceFault>
    requires size { D.sector_count device.old ≡ sectors_of view.now }
    requires below { b < view.now.blocks.number }
    ensures standing { IsTrue (D.keeps_model device.old)
        → IfOk result (λ found. found ≡ stands_under view.now.listing (D.disk device.old).content b) }
    ensures bytes { IsTrue (D.keeps_model device.old)
        → OnOk result (bytes.new ≡ taken_under view.now.listing view.now.blocks.number (D.disk device.old).content b) }
    ensures disk { IsTrue (D.keeps_model device.old) → D.disk device.new ≡ D.disk device.old }
    ensures stops { IsTrue (D.keeps_model device.old)
        → StopsLeave D.SectorDevice device.old device.new (MayLeave (D.disk device.old)) }
    ensures passes { Passes D.SectorDevice device.old device.new result }
    ensures begins { BeginsAtMost D.SectorDevice device.old device.new 0 0 }
    ensures reads { IsTrue (D.keeps_model device.old)
        → ReadsAtMost D.SectorDevice device.old device.new (reads_under view.now.listing (D.disk device.old).content b) }
{
    match &view.listing {
        Listing::Journal(_) => {
            *bytes = read_found(device, view, b)?;
            Ok(Standing::Current)
        }
        Listing::Pages(named) => take_block(device, &named.listing, b, bytes),
    }
}
