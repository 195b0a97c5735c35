// A device is made an image of blank blocks.
ghost use Rattle.std.specs.Prelude.{◌≡◌, ◌≢◌, ◌<◌, ◌≤◌, ◌+◌, ◌*◌, ◌%◌, ◌^◌, ◌++◌, ℕ, true, false, take, drop, IsTrue, OnOk, IfOk, IfErr, MatchBool, replicate};
ghost use Rattle.sector_disk.specs.Counting.{count_up};
ghost use Rattle.sector_disk.specs.Disk.{Image, MayLeave, written};
ghost use Rattle.sector_disk.specs.Moments.{Elapses};
ghost use Rattle.journal.specs.Calls.{StopsLeave, BeginsAtMost, ReadsAtMost, CostsAtMost, Passes};
ghost use Rattle.journal.specs.Layout.{most_blocks};
ghost use Rattle.journal.specs.Maps.{fresh};
ghost use Rattle.recovery.specs.Formatted.{blank_blocks};
ghost use Rattle.recovery.specs.declared.fault.OpenFault.TheVariants.{BadSize, Device};
ghost use Rattle.shadow.specs.Formatted.{FormatLeaves, HasFirst, IsBlank, KeepsRest, IsMade, PastLabel, Spoils, placed};
ghost use Rattle.journal.specs.PageImages.{Means};
ghost use Rattle.shadow.specs.Label.{is_size_for};
ghost use Rattle.journal.specs.PageLayout.{sectors_for, label_of, gate_at, gate_bytes, record_at, sum_in};
ghost use Rattle.recovery.specs.Opened.{end_of};
ghost use Rattle.journal.specs.Store.{device_of, disk_of, blocks_of, closed_of, technique_of, is_pending, StandsFor};
ghost use Rattle.journal.specs.Technique.{is_journal};
ghost use Rattle.journal.specs.Tags.{tag_of, xor_bytes};

use crate::places::Places;
use journal::layout::BlockCount;
use journal::pages::layout::{GATE, fits, gate, place_sector, record_sector, sum, tag_sector};
use journal::pages::tags::{add, tag_of};
use journal::{Store, write_pair, write_sector};
use recovery::{Blanks, NullDevice, OpenFault, make};
use sector_disk::{DeviceFault, SectorDevice};

// Writes a block and its tag to the place that begins with sector `k`.
fn write_place<D: SectorDevice>(
    device: &mut D,
    k: u32,
    bytes: &[u8; 1024],
    tag: &[u8; 32],
) -> Result<(), DeviceFault>
    requires past { 32 ≤ k }
    requires small { k < 2 ^ 16 }
    requires within { k + 2 < D.sector_count device.old }
    ensures ok { IsTrue (D.keeps_model device.old) → OnOk result (D.disk device.new
        ≡ written (written (written (D.disk device.old) k (take 512 bytes.now)) (k + 1) (drop 512 bytes.now)) (k + 2) (tag.now ++ replicate 480 0)) }
    ensures spoils { Spoils D.SectorDevice PastLabel device.old device.new }
    ensures passes { Passes D.SectorDevice device.old device.new result }
    ensures costs { CostsAtMost D.SectorDevice device.old device.new 3 0 0 }
{
    write_pair(device, k, bytes)?;
    write_sector(device, k + 2, &tag_sector(tag))
}

// Writes block `b` and its tag to its first place, and clears the tag of its second one.
fn write_places<D: SectorDevice>(
    device: &mut D,
    b: u16,
    bytes: &[u8; 1024],
    tag: &[u8; 32],
) -> Result<(), DeviceFault>
    requires below { b < most_blocks }
    requires within { 48 + 16 * b ≤ D.sector_count device.old }
    ensures ok { IsTrue (D.keeps_model device.old)
        → OnOk result (D.disk device.new ≡ placed b bytes.now (tag.now ++ replicate 480 0) (D.disk device.old)) }
    ensures spoils { Spoils D.SectorDevice PastLabel device.old device.new }
    ensures passes { Passes D.SectorDevice device.old device.new result }
    ensures costs { CostsAtMost D.SectorDevice device.old device.new 4 0 0 }
{
    write_place(device, place_sector(b, false), bytes, tag)?;
    write_sector(device, place_sector(b, true) + 2, &[0; 512])
}

// Writes block `b`, a number below 3,840, to its first place, with its tag, and clears the tag of its second one. The tag is put
// into a sum.
pub(crate) fn write_block<D: SectorDevice>(
    device: &mut D,
    b: u16,
    bytes: &[u8; 1024],
    sum: &mut [u8; 32],
) -> Result<(), DeviceFault>
    requires below { b < most_blocks }
    requires within { 48 + 16 * b ≤ D.sector_count device.old }
    ensures places { IsTrue (D.keeps_model device.old) → OnOk result (HasFirst b bytes.now (D.disk device.new).content) }
    ensures others { IsTrue (D.keeps_model device.old) → OnOk result
        ((k : ℕ) → k < 32 + 16 * b → (D.disk device.new).content k ≡ (D.disk device.old).content k) }
    ensures rest { IsTrue (D.keeps_model device.old)
        → OnOk result (KeepsRest (D.disk device.old).content (D.disk device.new).content) }
    ensures sum { OnOk result (sum.new ≡ xor_bytes sum.old (tag_of b bytes.now)) }
    ensures spoils { Spoils D.SectorDevice PastLabel device.old device.new }
    ensures passes { Passes D.SectorDevice device.old device.new result }
    ensures costs { CostsAtMost D.SectorDevice device.old device.new 4 0 0 }
{
    let tag = tag_of(b, bytes);
    write_places(device, b, bytes, &tag)?;
    add(sum, &tag);
    Ok(())
}

// Closes the gate, with the sum of the record that it names then, clears the other record, and writes this one.
pub(crate) fn fill_head<D: SectorDevice>(
    device: &mut D,
    listing: &[u8; 512],
) -> Result<(), DeviceFault>
    requires { 32 ≤ D.sector_count device.old }
    ensures ok { IsTrue (D.keeps_model device.old) → OnOk result (D.disk device.new
        ≡ written (written (written (D.disk device.old) gate_at (gate_bytes false (sum_in listing.now))) (record_at true) (replicate 512 0))
        (record_at false) listing.now) }
    ensures spoils { Spoils D.SectorDevice PastLabel device.old device.new }
    ensures passes { Passes D.SectorDevice device.old device.new result }
    ensures costs { CostsAtMost D.SectorDevice device.old device.new 3 0 0 }
{
    write_sector(device, GATE, &gate(false, &sum(listing)))?;
    fill_records(device, listing)
}

fn fill_records<D: SectorDevice>(device: &mut D, listing: &[u8; 512]) -> Result<(), DeviceFault>
    requires { 32 ≤ D.sector_count device.old }
    ensures ok { IsTrue (D.keeps_model device.old) → OnOk result (D.disk device.new
        ≡ written (written (D.disk device.old) (record_at true) (replicate 512 0)) (record_at false) listing.now) }
    ensures spoils { Spoils D.SectorDevice PastLabel device.old device.new }
    ensures passes { Passes D.SectorDevice device.old device.new result }
    ensures costs { CostsAtMost D.SectorDevice device.old device.new 2 0 0 }
{
    write_sector(device, record_sector(true), &[0; 512])?;
    write_sector(device, record_sector(false), listing)
}

// Makes the blank image, and gives its record. A stop leaves no good label, or what was there, but for the other sectors in the
// label's unit, or all of the blank image.
fn make_blank<D: SectorDevice>(
    device: &mut D,
    blocks: BlockCount,
    listing: &mut [u8; 512],
) -> Result<(), DeviceFault>
    requires size { D.sector_count device.old ≡ sectors_for blocks.number }
    ensures ok { IsTrue (D.keeps_model device.old)
        → OnOk result (IsMade blocks.number (λ _. replicate 1024 32) (D.disk device.new)) }
    ensures named { IsTrue (D.keeps_model device.old) → OnOk result ((D.disk device.new).content (record_at false) ≡ listing.new) }
    ensures rest { IsTrue (D.keeps_model device.old)
        → OnOk result (KeepsRest (D.disk device.old).content (D.disk device.new).content) }
    ensures stops { IsTrue (D.keeps_model device.old)
        → StopsLeave D.SectorDevice device.old device.new (FormatLeaves blocks.number (D.disk device.old)) }
    ensures passes { Passes D.SectorDevice device.old device.new result }
    ensures costs { CostsAtMost D.SectorDevice device.old device.new (4 * blocks.number + 5) 4 1 }
{
    let mut places = Places::new();
    match make(
        &mut Blanks,
        &mut NullDevice::new(0),
        &mut places,
        device,
        blocks,
    ) {
        Ok(()) => {
            *listing = places.listing;
            Ok(())
        }
        Err(_) => Err(DeviceFault),
    }
}

/// Makes an image of layout 3 of `blocks` blank blocks, 32 to 3,840, on a device of exactly `32 + 16 * blocks` sectors,
/// and answers a store of them. An error hands the device back. Takes no memory.
///
/// The label is written last, and a good label that stood there is taken away first. So a stop leaves no good label, or
/// the blank image, or the old image as it was, but for the other sectors in the label's unit, of which an image says
/// nothing. The second places keep their bytes, and lose their tags.
///
/// It refuses a device of another size, or another number of blocks (BadSize, with no device call). Device comes where
/// a call of the device failed.
/// Rule: IMAGE, Layout 3, A format.
pub fn format<D: SectorDevice>(mut device: D, blocks: u16) -> Result<Store<D>, (OpenFault, D)>
    ensures ok { IsTrue (D.keeps_model device)
        → IfOk result (λ store. StandsFor store (fresh (blank_blocks blocks))) }
    ensures blank { IsTrue (D.keeps_model device) → IfOk result (λ store. IsBlank blocks (disk_of store).content) }
    ensures rest { IsTrue (D.keeps_model device)
        → IfOk result (λ store. KeepsRest (D.disk device).content (disk_of store).content) }
    ensures label { IsTrue (D.keeps_model device) → IfOk result (λ store. (disk_of store).content 0 ≡ label_of blocks) }
    ensures synced { IsTrue (D.keeps_model device) → IfOk result (λ store. (k : ℕ) → (disk_of store).unsynced k ≡ false) }
    ensures blocks { IfOk result (λ store. blocks_of store ≡ blocks) }
    ensures technique { IfOk result (λ store. is_journal (technique_of store) ≡ false) }
    ensures closed { IfOk result (λ store. closed_of store ≡ false) }
    ensures pending { IfOk result (λ store. (b : ℕ) → is_pending store b ≡ false) }

    // BadSize comes exactly where the size is wrong, over any device and with no call of it. Else only the device fails.
    ensures size { IfOk result (λ _. is_size_for blocks (D.sector_count device) ≡ true) }
    ensures refusal { IfErr result (λ e. MatchBool (is_size_for blocks (D.sector_count device)) (e.0 ≡ Device) (e.0 ≡ BadSize)) }
    ensures unasked { IfErr result (λ e. e.0 ≡ BadSize → e.1 ≡ device) }
    ensures device { IfErr result (λ e. e.0 ≡ Device → D.failures e.1 ≡ count_up (D.failures device)) }
    ensures refused { IfErr result (λ e. e.0 ≢ Device → D.failures e.1 ≡ D.failures device) }
    ensures well { IfOk result (λ store. D.failures (device_of store) ≡ D.failures device) }

    // What a stop at any moment leaves, and a stop once it has returned.
    ensures stops { IsTrue (D.keeps_model device) → (n : ℕ) → D.sector_count device ≡ sectors_for n
        → StopsLeave D.SectorDevice device (end_of result) (FormatLeaves n (D.disk device)) }
    ensures after { IsTrue (D.keeps_model device)
        → IfOk result (λ store. (image : Image) → MayLeave (disk_of store) image → Means (blank_blocks blocks) image) }
    // At most zeros over a label, of each block two halves and two tags, gate, two records and label are written.
    ensures begins { BeginsAtMost D.SectorDevice device (end_of result) (4 * blocks + 5) 4 }
    // The label is read.
    ensures reads { ReadsAtMost D.SectorDevice device (end_of result) 1 }
    ensures time { Elapses D.time D.left_since device (end_of result) }
    ensures failures { D.failures device ≤ D.failures (end_of result) }
    ensures sectors { D.sector_count (end_of result) ≡ D.sector_count device }
    ensures model { D.keeps_model (end_of result) ≡ D.keeps_model device }
    ensures units { D.keeps_sectors (end_of result) ≡ D.keeps_sectors device }
{
    if !fits(blocks as u32, device.sectors()) {
        return Err((OpenFault::BadSize, device));
    }
    let mut listing = [0; 512];
    match make_blank(&mut device, BlockCount { number: blocks }, &mut listing) {
        Ok(()) => Ok(Store::adopt_pages(device, blocks, false, &listing)),
        Err(_) => Err((OpenFault::Device, device)),
    }
}
