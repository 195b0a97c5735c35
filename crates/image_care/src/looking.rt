// An image is looked at: where its blocks stand is found by reads alone.
ghost use Rattle.std.specs.Prelude.{◌≡◌, ◌≢◌, ◌⊎◌, ◌<◌, ◌+◌, ◌*◌, ℕ, true, false, None, Some, IsTrue, OnOk, IfOk, IfErr, MatchBool, MatchResult};
ghost use Rattle.sector_disk.specs.Counting.{count_up};
ghost use Rattle.sector_disk.specs.Disk.{MayLeave};
ghost use Rattle.journal.specs.Calls.{StopsLeave, BeginsAtMost, ReadsAtMost, Proceeds};
ghost use Rattle.journal.specs.Layouts.{sectors_for};
ghost use Rattle.journal.specs.Maps.{block_in};
ghost use Rattle.recovery.specs.Label.{is_size};
ghost use Rattle.recovery.specs.declared.fault.OpenFault.TheVariants.{BadSize, Device};
ghost use Rattle.shadow.specs.Label.{blocks_in, is_known_size};
ghost use Rattle.shadow.specs.Upgraded.{known_blocks};
ghost use Rattle.stores.specs.Images.{HasMeaning, meaning};
ghost use Rattle.stores.specs.Opened.{image_refusal};
ghost use Rattle.image_care.specs.Looked.{Looks, reads_to_look};
ghost use Rattle.image_care.specs.View.{IsOf, found_by, is_journal, sectors_of};

use crate::listing::find;
use crate::pages::find as find_by_pages;
use crate::view::{Listing, View};
use journal::NamedRecord;
use journal::sizes::{Layout, Size, size_of};
use recovery::OpenFault;
use sector_disk::SectorDevice;
use shadow::Found;

/// Finds where the blocks of an image stand, by reads alone: nothing is written, and nothing synced. How many sectors
/// the device has tells the layout. The blocks are those that an opening would recover. Takes no memory.
///
/// It refuses, in this order, what an opening does: a device of a size that no image has (BadSize, with no device
/// call), one without the name and zeros of a label (NoLabel), a label of another version than that of images of this
/// size (OtherVersion) or of another number of blocks (WrongCount), and a damaged image (Damaged): by layout 2 one with
/// an open gate over a record whose digest isn't that of its bits and slots, by layout 3 one of which a block doesn't
/// fit the tag beside it, or the record's sum isn't that of the tags. Device comes where a read failed.
/// Rule: IMAGE, For another writer; IMAGE, Layout 3.
pub fn look<D: SectorDevice>(device: &mut D) -> Result<View, OpenFault>
    ensures size { IfOk result (λ view. D.sector_count device.old ≡ sectors_of view) }
    ensures count { IfOk result (λ view. view.blocks.number ≡ known_blocks (D.sector_count device.old)) }
    ensures layout { IfOk result (λ view. is_journal view.listing ≡ is_size (D.sector_count device.old)) }
    // The record is that of the image, and so what is found of each block is what the image means.
    ensures listing { IsTrue (D.keeps_model device.old)
        → IfOk result (λ view. IsOf view.listing (D.disk device.old).content) }
    ensures blocks { IsTrue (D.keeps_model device.old) → IfOk result (λ view. (b : ℕ) → b < view.blocks.number
        → found_by view (D.disk device.old).content b ≡ block_in (meaning (D.sector_count device.old) (D.disk device.old).content) b) }
    // What is found has a meaning, and what has one is refused only by a fault of the device.
    ensures meaning { IsTrue (D.keeps_model device.old)
        → OnOk result (HasMeaning (D.sector_count device.old) (D.disk device.old).content) }
    ensures good { IsTrue (D.keeps_model device.old) → is_known_size (D.sector_count device.old) ≡ true
        → HasMeaning (D.sector_count device.old) (D.disk device.old).content → IfErr result (λ e. e ≡ Device) }

    // Each refusal tells the first test that the image fails.
    ensures exact { IsTrue (D.keeps_model device.old) → MatchResult result
        (λ _. image_refusal (D.sector_count device.old) (D.disk device.old).content ≡ None)
        (λ e. (e ≡ Device) ⊎ (image_refusal (D.sector_count device.old) (D.disk device.old).content ≡ Some e)) }
    ensures sized { OnOk result (is_known_size (D.sector_count device.old) ≡ true) }
    ensures bad_size { IfErr result (λ e. MatchBool (is_known_size (D.sector_count device.old)) (e ≢ BadSize) (e ≡ BadSize)) }
    ensures unasked { IfErr result (λ e. e ≡ BadSize → device.new ≡ device.old) }
    ensures device { IfErr result (λ e. e ≡ Device → D.failures device.new ≡ count_up (D.failures device.old)) }
    ensures refused { IfErr result (λ e. e ≢ Device → D.failures device.new ≡ D.failures device.old) }
    ensures well { OnOk result (D.failures device.new ≡ D.failures device.old) }

    // Nothing is written or synced, and a stop at any moment leaves what one before could leave.
    ensures disk { IsTrue (D.keeps_model device.old) → D.disk device.new ≡ D.disk device.old }
    ensures stops { IsTrue (D.keeps_model device.old)
        → StopsLeave D.SectorDevice device.old device.new (MayLeave (D.disk device.old)) }
    ensures passes { Proceeds D.SectorDevice device.old device.new }
    ensures begins { BeginsAtMost D.SectorDevice device.old device.new 0 0 }
    // What an opening looks at is read. Of layout 3 the size alone tells how much that is.
    ensures reads { IsTrue (D.keeps_model device.old)
        → ReadsAtMost D.SectorDevice device.old device.new (reads_to_look (D.sector_count device.old) (D.disk device.old).content) }
    ensures few { is_size (D.sector_count device.old) ≡ false
        → ReadsAtMost D.SectorDevice device.old device.new (3 * blocks_in (D.sector_count device.old) + 3) }
{
    match size_of(device.sectors()) {
        Some(size) => look_by(device, size),
        None => Err(OpenFault::BadSize),
    }
}

// The same of an image of this size.
fn look_by<D: SectorDevice>(device: &mut D, size: Size) -> Result<View, OpenFault>
    requires { D.sector_count device.old ≡ sectors_for size.layout size.blocks.number }
    ensures looks { Looks D.SectorDevice size.layout size.blocks.number device.old device.new result }
{
    let blocks = size.blocks;
    match size.layout {
        Layout::Journal => match find(device, blocks) {
            Ok(listing) => Ok(View {
                blocks,
                listing: Listing::Journal(listing),
            }),
            Err(fault) => Err(fault),
        },
        Layout::Pages => match find_by_pages(device, blocks) {
            Ok(found) => Ok(View {
                blocks,
                listing: Listing::Pages(named(&found)),
            }),
            Err(fault) => Err(fault),
        },
    }
}

fn named(found: &Found) -> NamedRecord
    ensures is_open { result.is_open ≡ found.now.is_open }
    ensures listing { result.listing ≡ found.now.listing }
{
    NamedRecord {
        is_open: found.is_open,
        listing: found.listing,
    }
}
