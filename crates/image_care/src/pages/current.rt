// A block is read from the place that counts, where it stands whole there.
ghost use Rattle.std.specs.Prelude.{◌≡◌, ◌≢◌, ◌⊎◌, ◌<◌, ◌≤◌, ◌+◌, ◌*◌, true, false, IsTrue, OnOk, IfOk, IfErr, IfSome, IfNone, MatchBool, MatchOption};
ghost use Rattle.sector_disk.specs.Counting.{count_up};
ghost use Rattle.sector_disk.specs.Disk.{MayLeave};
ghost use Rattle.journal.specs.Calls.{StopsLeave, BeginsAtMost, ReadsAtMost, Proceeds, Reads};
ghost use Rattle.journal.specs.Layout.{most_blocks};
ghost use Rattle.journal.specs.Maps.{block_in};
ghost use Rattle.journal.specs.PageImages.{block_of, current_of};
ghost use Rattle.journal.specs.PageLayout.{current_at};
ghost use Rattle.recovery.specs.declared.fault.OpenFault.TheVariants.{BadSize, Damaged, Device};
ghost use Rattle.shadow.specs.Label.{is_size, blocks_in};
ghost use Rattle.stores.specs.Images.{HasMeaning, meaning};
ghost use Rattle.image_care.specs.Standing.{holds_whole, stands_whole};

use super::standing::read_place;
use journal::pages::layout::{blocks_of_size, current_sector};
use recovery::OpenFault;
use sector_disk::{DeviceFault, SectorDevice};
use shadow::read_record;

/// Reads the 1,024 bytes of a block of an image of layout 3 from the place that the record names which the gate names,
/// by reads alone: nothing is written, and nothing synced. `None` where the image has no such block. Neither the label
/// nor the record's sum is looked at, nor any other block, so that this can be asked of an image of which a sector
/// can't be read. Takes no memory.
///
/// It refuses a device of a size that no image of layout 3 has (BadSize), with no device call, and a block whose bytes
/// don't fit the tag beside them (Damaged). Device comes where a read failed.
/// Rule: IMAGE, A sector that can't be read.
#[tactic(auto, using(crate::proofs::Currents::meant_block, crate::proofs::Currents::whole_block))]
pub fn read_current<D: SectorDevice>(
    device: &mut D,
    block: u16,
) -> Result<Option<[u8; 1024]>, OpenFault>
    // A block is looked for just where the image has it, and else no call is made.
    ensures there { IfOk result (λ found. MatchOption found
        (blocks_in (D.sector_count device.old) ≤ block) (λ _. block < blocks_in (D.sector_count device.old))) }
    ensures missing { IfOk result (λ found. IfNone found (device.new ≡ device.old)) }
    // It stands whole where it counts, and these are the bytes there.
    ensures whole { IsTrue (D.keeps_model device.old)
        → IfOk result (λ found. IfSome found (λ _. stands_whole (D.disk device.old).content block ≡ true)) }
    ensures bytes { IsTrue (D.keeps_model device.old)
        → IfOk result (λ found. IfSome found (λ bytes. bytes ≡ block_of (D.disk device.old).content block)) }
    // So it is the block that the image means, and of one that has a meaning it is refused only by a fault of the device.
    ensures meant { IsTrue (D.keeps_model device.old) → IfOk result (λ found. IfSome found (λ bytes.
        bytes ≡ block_in (meaning (D.sector_count device.old) (D.disk device.old).content) block)) }
    ensures good { IsTrue (D.keeps_model device.old) → is_size (D.sector_count device.old) ≡ true
        → HasMeaning (D.sector_count device.old) (D.disk device.old).content → IfErr result (λ e. e ≡ Device) }

    // The size alone is refused over any device, and else a block that doesn't stand whole where it counts.
    ensures sized { OnOk result (is_size (D.sector_count device.old) ≡ true) }
    ensures bad_size { IfErr result (λ e. MatchBool (is_size (D.sector_count device.old))
        ((e ≡ Device) ⊎ (e ≡ Damaged)) (e ≡ BadSize)) }
    ensures unasked { IfErr result (λ e. e ≡ BadSize → device.new ≡ device.old) }
    ensures damaged { IsTrue (D.keeps_model device.old)
        → IfErr result (λ e. e ≡ Damaged → stands_whole (D.disk device.old).content block ≡ false) }
    ensures device { IfErr result (λ e. e ≡ Device → D.failures device.new ≡ count_up (D.failures device.old)) }
    ensures refused { IfErr result (λ e. e ≢ Device → D.failures device.new ≡ D.failures device.old) }
    ensures well { OnOk result (D.failures device.new ≡ D.failures device.old) }

    // Nothing is written or synced, and a stop at any moment leaves what one before could leave.
    ensures disk { IsTrue (D.keeps_model device.old) → D.disk device.new ≡ D.disk device.old }
    ensures stops { IsTrue (D.keeps_model device.old)
        → StopsLeave D.SectorDevice device.old device.new (MayLeave (D.disk device.old)) }
    ensures passes { Proceeds D.SectorDevice device.old device.new }
    ensures begins { BeginsAtMost D.SectorDevice device.old device.new 0 0 }
    // Gate and record are read, and of the block its two halves and the tag.
    ensures reads { ReadsAtMost D.SectorDevice device.old device.new 5 }
{
    let Some(blocks) = blocks_of_size(device.sectors()) else {
        return Err(OpenFault::BadSize);
    };
    if block >= blocks {
        return Ok(None);
    }
    match read_named(device, block) {
        Ok(Some(bytes)) => Ok(Some(bytes)),
        Ok(None) => Err(OpenFault::Damaged),
        Err(_) => Err(OpenFault::Device),
    }
}

// The bytes of a block that is there, in the place that counts. None where it doesn't stand whole there.
fn read_named<D: SectorDevice>(device: &mut D, b: u16) -> Result<Option<[u8; 1024]>, DeviceFault>
    requires below { b < most_blocks }
    requires within { 48 + 16 * b ≤ D.sector_count device.old }
    ensures whole { IsTrue (D.keeps_model device.old) → IfOk result (λ found. MatchOption found
        (stands_whole (D.disk device.old).content b ≡ false) (λ _. stands_whole (D.disk device.old).content b ≡ true)) }
    ensures bytes { IsTrue (D.keeps_model device.old)
        → IfOk result (λ found. IfSome found (λ bytes. bytes ≡ block_of (D.disk device.old).content b)) }
    ensures reads { Reads D.SectorDevice device.old device.new 5 result }
{
    let mut listing = [0; 512];
    read_record(device, &mut listing)?;
    read_under(device, &listing, b)
}

// The same in the place that a record names.
fn read_under<D: SectorDevice>(
    device: &mut D,
    listing: &[u8; 512],
    b: u16,
) -> Result<Option<[u8; 1024]>, DeviceFault>
    requires below { b < most_blocks }
    requires within { 48 + 16 * b ≤ D.sector_count device.old }
    ensures whole { IsTrue (D.keeps_model device.old) → IfOk result (λ found. MatchOption found
        (holds_whole (D.disk device.old).content b (current_at listing.now b) ≡ false)
        (λ _. holds_whole (D.disk device.old).content b (current_at listing.now b) ≡ true)) }
    ensures bytes { IsTrue (D.keeps_model device.old)
        → IfOk result (λ found. IfSome found (λ bytes. bytes ≡ current_of listing.now (D.disk device.old).content b)) }
    ensures reads { Reads D.SectorDevice device.old device.new 3 result }
{
    let mut bytes = [0; 1024];
    if read_place(device, b, current_sector(listing, b), &mut bytes)? {
        return Ok(Some(bytes));
    }
    Ok(None)
}
