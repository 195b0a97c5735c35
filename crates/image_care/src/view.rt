// Where the blocks of an image stand.
ghost use Rattle.std.specs.Prelude.{◌≡◌, ◌<◌, ◌+◌, ◌^◌};
ghost use Rattle.journal.specs.Layout.{count_listed};
ghost use Rattle.image_care.specs.Examined.{count_in};

use journal::NamedRecord;
use journal::layout::{BlockCount, is_listed};
use journal::pages::layout::current_sector;
use recovery::place_of;

/// What a look at an image has found: how many blocks it has, and the record that tells where each stands.
/// Rule: IMAGE, The bytes; IMAGE, Layout 3.
#[derive(Drop)]
pub struct View {
    pub blocks: BlockCount,
    pub listing: Listing,
}

/// The record that tells where the blocks of an image stand.
#[derive(Drop)]
pub enum Listing {
    /// Of layout 2 that of the save which is under way, where one is: the blocks that it lists stand in their slots,
    /// all others in their homes.
    Journal(Option<[u8; 512]>),
    /// Of layout 3 the one that the gate names: each block stands in the place that it tells.
    Pages(NamedRecord),
}

impl View {
    ghost use Rattle.image_care.specs.View.{place_by, save_by, sectors_of};

    /// The first of the two sectors that hold block `b`, which is one of those that the image has.
    pub fn place_of(&self, b: u16) -> u32
        requires below { b < self.now.blocks.number }
        ensures place { result ≡ place_by self.now.listing self.now.blocks.number b }
        ensures small { result < 2 ^ 16 }
        ensures within { result + 1 < sectors_of self.now }
    {
        match &self.listing {
            Listing::Journal(listing) => place_of(self.blocks, listing, b),
            Listing::Pages(named) => current_sector(&named.listing, b),
        }
    }

    /// How many blocks a save has that is under way. None where no save is, and by layout 3, where none ever waits to
    /// be finished.
    pub fn under_way(&self) -> Option<u16>
        ensures { result ≡ save_by self.now.listing self.now.blocks.number }
    {
        match &self.listing {
            Listing::Journal(listing) => count(listing, self.blocks),
            Listing::Pages(_) => None,
        }
    }
}

// How many of the first blocks a record lists, where there is one.
fn count(listing: &Option<[u8; 512]>, blocks: BlockCount) -> Option<u16>
    ensures { result ≡ count_in blocks.number listing.now }
{
    match listing {
        Some(bytes) => Some(count_blocks(bytes, blocks)),
        None => None,
    }
}

fn count_blocks(bytes: &[u8; 512], blocks: BlockCount) -> u16
    ensures { result ≡ count_listed bytes.now blocks.number }
{
    let mut count = 0;
    for b in 0..blocks.number {
        if is_listed(bytes, b) {
            count += 1;
        }
    }
    count
}
