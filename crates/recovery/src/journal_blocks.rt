// The blocks of an image of layout 1 or 2, for a new image.
ghost use Rattle.std.specs.Prelude.{◌≡◌, ◌<◌, ◌+◌, ◌^◌, ℕ, Some};
ghost use Rattle.journal.specs.Layout.{sectors_for};
ghost use Rattle.recovery.specs.Found.{place_in, given_in, reads_to_give, HasHalves};

use crate::sources::Source;
use journal::layout::{BlockCount, home_sector, is_listed, slot_sector};
use journal::read_pair;
use sector_disk::{DeviceFault, SectorDevice};

/// The blocks of an image of layout 1 or 2, each from its slot where a record lists it and else from its home, and
/// blank ones above them.
#[derive(Clone, Copy)]
pub struct JournalBlocks {
    /// How many blocks the image has.
    pub blocks: BlockCount,
    /// The record of the save that is under way, where one is.
    pub listing: Option<[u8; 512]>,
}

impl Source for JournalBlocks {
    ghost sectors_of = { λ s. sectors_for s.blocks.number };

    ghost bytes_in = { λ s. given_in s.blocks.number s.listing };

    ghost reads_in = { λ s image. reads_to_give s.blocks.number };

    ghost has_noted = { λ first now image count. (now ≡ first) × HasHalves first.blocks.number first.listing image count };

    fn fetch<A: SectorDevice>(
        &mut self,
        device: &mut A,
        b: u16,
        bytes: &mut [u8; 1024],
    ) -> Result<(), DeviceFault> {
        if b < self.blocks.number {
            read_pair(device, place_of(self.blocks, &self.listing, b), bytes)
        } else {
            *bytes = [b' '; 1024];
            Ok(())
        }
    }
}

/// The first of the two sectors that hold block `b`, which is one of so many: its slot where the record `listing` of a
/// save under way lists it, else its home.
/// Rule: IMAGE, The bytes.
pub fn place_of(blocks: BlockCount, listing: &Option<[u8; 512]>, b: u16) -> u32
    requires below { b < blocks.number }
    ensures place { result ≡ place_in blocks.number listing.now b }
    ensures small { result < 2 ^ 16 }
    ensures within { result + 1 < sectors_for blocks.number }
{
    match listing {
        Some(bytes) => place_by(blocks, bytes, b),
        None => home_sector(blocks, b),
    }
}

fn place_by(blocks: BlockCount, bytes: &[u8; 512], b: u16) -> u32
    requires below { b < blocks.number }
    ensures place { result ≡ place_in blocks.number (Some bytes.now) b }
    ensures small { result < 2 ^ 16 }
    ensures within { result + 1 < sectors_for blocks.number }
{
    if is_listed(bytes, b) {
        slot_sector(b)
    } else {
        home_sector(blocks, b)
    }
}
