// Where a block stands whole.
ghost use Rattle.std.specs.Prelude.{◌≡◌, ◌≢◌, ◌<◌, ◌≤◌, ◌+◌, ◌*◌, ◌^◌, true, false, if◌then◌else◌, IsTrue, OnOk, IfOk, IfErr, IfSome, MatchBool, MatchOption};
ghost use Rattle.sector_disk.specs.Counting.{count_up};
ghost use Rattle.sector_disk.specs.Disk.{MayLeave};
ghost use Rattle.journal.specs.Calls.{StopsLeave, BeginsAtMost, ReadsAtMost, Proceeds, Reads};
ghost use Rattle.journal.specs.Images.{pair_at};
ghost use Rattle.journal.specs.Layout.{most_blocks};
ghost use Rattle.recovery.specs.declared.fault.OpenFault.TheVariants.{BadSize, Device};
ghost use Rattle.shadow.specs.Label.{is_size, blocks_in};
ghost use Rattle.journal.specs.PageLayout.{current_at};
ghost use Rattle.image_care.specs.Standing.{holds_whole, is_damaged_under, standing_under, standing_of, salvaged_under};

use journal::pages::layout::{blocks_of_size, current_sector, free_sector};
use journal::pages::read_tag;
use journal::pages::tags::tag_of;
use journal::read_pair;
use recovery::OpenFault;
use sector_disk::{DeviceFault, SectorDevice};
use shadow::read_record;

/// Where a whole save of a block stands, which is one whose bytes fit the tag beside them.
#[derive(Clone, Copy, Debug, PartialEq, Eq)]
pub enum Standing {
    /// In the place that counts.
    Current,
    /// In the other place alone. Where the record is the one that was saved, it is older than what counted, or was
    /// spilled and not saved.
    Other,
    /// In neither place.
    Nowhere,
}

// Reads the place of block `b` that begins with sector `k`, and answers whether it holds a whole save of the block.
pub(super) fn read_place<D: SectorDevice>(
    device: &mut D,
    b: u16,
    k: u32,
    bytes: &mut [u8; 1024],
) -> Result<bool, DeviceFault>
    requires small { k < 2 ^ 16 }
    requires within { k + 2 < D.sector_count device.old }
    ensures whole { IsTrue (D.keeps_model device.old)
        → IfOk result (λ is_whole. is_whole ≡ holds_whole (D.disk device.old).content b k) }
    ensures bytes { IsTrue (D.keeps_model device.old)
        → OnOk result (bytes.new ≡ pair_at (D.disk device.old).content k) }
    ensures reads { Reads D.SectorDevice device.old device.new 3 result }
{
    read_pair(device, k, bytes)?;
    let found = read_tag(device, k + 2)?;
    Ok(found == tag_of(b, bytes))
}

// The same of the place that a record doesn't name, with blanks where it holds no whole save.
fn take_other<D: SectorDevice>(
    device: &mut D,
    listing: &[u8; 512],
    b: u16,
    bytes: &mut [u8; 1024],
) -> Result<Standing, DeviceFault>
    requires below { b < most_blocks }
    requires within { 48 + 16 * b ≤ D.sector_count device.old }
    requires damaged { IsTrue (D.keeps_model device.old)
        → holds_whole (D.disk device.old).content b (current_at listing.now b) ≡ false }
    ensures standing { IsTrue (D.keeps_model device.old)
        → IfOk result (λ found. found ≡ standing_under listing.now (D.disk device.old).content b) }
    ensures bytes { IsTrue (D.keeps_model device.old)
        → OnOk result (bytes.new ≡ salvaged_under listing.now (D.disk device.old).content b) }
    ensures reads { Reads D.SectorDevice device.old device.new 3 result }
{
    if read_place(device, b, free_sector(listing, b), bytes)? {
        return Ok(Standing::Other);
    }
    *bytes = [b' '; 1024];
    Ok(Standing::Nowhere)
}

// Takes block `b` from the place that a record names, if it isn't damaged there; else from the other one, if that holds a whole
// save; and else gives blanks.
pub(crate) fn take_block<D: SectorDevice>(
    device: &mut D,
    listing: &[u8; 512],
    b: u16,
    bytes: &mut [u8; 1024],
) -> Result<Standing, DeviceFault>
    requires below { b < most_blocks }
    requires within { 48 + 16 * b ≤ D.sector_count device.old }
    ensures standing { IsTrue (D.keeps_model device.old)
        → IfOk result (λ found. found ≡ standing_under listing.now (D.disk device.old).content b) }
    ensures bytes { IsTrue (D.keeps_model device.old)
        → OnOk result (bytes.new ≡ salvaged_under listing.now (D.disk device.old).content b) }
    ensures reads { Reads D.SectorDevice device.old device.new 6 result }
    ensures few { IsTrue (D.keeps_model device.old) → ReadsAtMost D.SectorDevice device.old device.new
        (if is_damaged_under listing.now (D.disk device.old).content b then 6 else 3) }
{
    if read_place(device, b, current_sector(listing, b), bytes)? {
        return Ok(Standing::Current);
    }
    take_other(device, listing, b, bytes)
}

/// Tells where a block of an image of layout 3 stands, by the record that the gate names, and by reads alone: nothing
/// is written, and nothing synced. `None` where the image has no such block. Neither the label nor the record's sum is
/// looked at, so that this can be asked of a damaged image. Takes no memory.
///
/// It refuses a device of a size that no image of layout 3 has (BadSize), with no device call. Device comes where a
/// read failed.
/// Rule: IMAGE, Layout 3, What can be had of a damaged image.
pub fn find_standing<D: SectorDevice>(
    device: &mut D,
    block: u16,
) -> Result<Option<Standing>, OpenFault>
    // A block is looked for just where the image has it.
    ensures there { IfOk result (λ found. MatchOption found
        (blocks_in (D.sector_count device.old) ≤ block) (λ _. block < blocks_in (D.sector_count device.old))) }
    // It stands where its bytes fit the tag beside them.
    ensures standing { IsTrue (D.keeps_model device.old) → IfOk result (λ found. IfSome found (λ standing.
        standing ≡ standing_of (D.disk device.old).content block)) }

    // The size alone is refused, over any device.
    ensures sized { OnOk result (is_size (D.sector_count device.old) ≡ true) }
    ensures bad_size { IfErr result (λ e. MatchBool (is_size (D.sector_count device.old)) (e ≡ Device) (e ≡ BadSize)) }
    ensures unasked { IfErr result (λ e. e ≡ BadSize → device.new ≡ device.old) }
    ensures device { IfErr result (λ e. e ≡ Device → D.failures device.new ≡ count_up (D.failures device.old)) }
    ensures well { OnOk result (D.failures device.new ≡ D.failures device.old) }

    // Nothing is written or synced, and a stop at any moment leaves what one before could leave.
    ensures disk { IsTrue (D.keeps_model device.old) → D.disk device.new ≡ D.disk device.old }
    ensures stops { IsTrue (D.keeps_model device.old)
        → StopsLeave D.SectorDevice device.old device.new (MayLeave (D.disk device.old)) }
    ensures passes { Proceeds D.SectorDevice device.old device.new }
    ensures begins { BeginsAtMost D.SectorDevice device.old device.new 0 0 }
    // Gate and record are read, and at most both places of the block.
    ensures reads { ReadsAtMost D.SectorDevice device.old device.new 8 }
{
    let Some(blocks) = blocks_of_size(device.sectors()) else {
        return Err(OpenFault::BadSize);
    };
    if block >= blocks {
        return Ok(None);
    }
    match look_up(device, block) {
        Ok(standing) => Ok(Some(standing)),
        Err(_) => Err(OpenFault::Device),
    }
}

// Where a block that is there stands.
fn look_up<D: SectorDevice>(device: &mut D, b: u16) -> Result<Standing, DeviceFault>
    requires below { b < most_blocks }
    requires within { 48 + 16 * b ≤ D.sector_count device.old }
    ensures standing { IsTrue (D.keeps_model device.old)
        → IfOk result (λ found. found ≡ standing_of (D.disk device.old).content b) }
    ensures reads { Reads D.SectorDevice device.old device.new 8 result }
{
    let mut listing = [0; 512];
    read_record(device, &mut listing)?;
    let mut bytes = [0; 1024];
    take_block(device, &listing, b, &mut bytes)
}
