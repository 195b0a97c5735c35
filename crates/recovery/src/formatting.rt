// A device is made an image of blank blocks.
ghost use Rattle.std.specs.Prelude.{◌≡◌, ◌≢◌, ◌⊎◌, ◌<◌, ◌≤◌, ◌+◌, ◌*◌, ℕ, true, false, IsTrue, OnOk, IfOk, IfErr, MatchBool, replicate};
ghost use Rattle.sector_disk.specs.Counting.{count_up};
ghost use Rattle.sector_disk.specs.Disk.{Image, MayLeave};
ghost use Rattle.sector_disk.specs.Moments.{Elapses};
ghost use Rattle.journal.specs.Calls.{StopsLeave, BeginsAtMost, ReadsAtMost, CostsAtMost, Passes};
ghost use Rattle.journal.specs.Clean.{IsClean};
ghost use Rattle.journal.specs.Images.{Means};
ghost use Rattle.journal.specs.Layout.{sectors_for};
ghost use Rattle.journal.specs.Maps.{fresh};
ghost use Rattle.journal.specs.Store.{device_of, disk_of, blocks_of, closed_of, technique_of, is_pending, StandsFor};
ghost use Rattle.journal.specs.declared.technique.Technique.TheVariants.{Journal};
ghost use Rattle.recovery.specs.Formatted.{FormatLeaves, IsBlank, KeepsSlots, blank_blocks};
ghost use Rattle.recovery.specs.Label.{is_size_for};
ghost use Rattle.recovery.specs.Opened.{end_of};
ghost use Rattle.recovery.specs.Steps.{IsMade};
ghost use Rattle.recovery.specs.declared.fault.OpenFault.TheVariants.{BadSize, Device};

use crate::OpenFault;
use crate::homes::Homes;
use crate::making::make;
use crate::null_device::NullDevice;
use crate::sources::Blanks;
use journal::Store;
use journal::layout::{BlockCount, MOST_BLOCKS, fits};
use sector_disk::{DeviceFault, SectorDevice};

// Makes the blank image. A stop leaves no good label, or what was there, or all of the blank image.
fn make_blank<D: SectorDevice>(device: &mut D, blocks: BlockCount) -> Result<(), DeviceFault>
    requires size { D.sector_count device.old ≡ sectors_for blocks.number }
    ensures ok { IsTrue (D.keeps_sectors device.old)
        → OnOk result (IsMade blocks.number (λ _. replicate 512 32) (D.disk device.new)) }
    ensures slots { IsTrue (D.keeps_sectors device.old)
        → OnOk result (KeepsSlots blocks.number (D.disk device.old).content (D.disk device.new).content) }
    ensures stops { IsTrue (D.keeps_sectors device.old)
        → StopsLeave D.SectorDevice device.old device.new (FormatLeaves blocks.number (D.disk device.old)) }
    ensures passes { Passes D.SectorDevice device.old device.new result }
    ensures costs { CostsAtMost D.SectorDevice device.old device.new (2 * blocks.number + 4) 4 1 }
{
    match make(
        &mut Blanks,
        &mut NullDevice::new(0),
        &mut Homes,
        device,
        blocks,
    ) {
        Ok(()) => Ok(()),
        Err(_) => Err(DeviceFault),
    }
}

/// Makes an image of layout 2 of `blocks` blank blocks, 32 to 3,840, on a device of exactly `3 + 4 * blocks` sectors,
/// and answers a store of them. An error hands the device back. Takes no memory.
///
/// Gate and record become zeros, and the slots are left. The label is written last, and a good label that stood there
/// is taken away first. So a stop leaves no good label, or the blank image, or the old image as it was.
///
/// It refuses a device of another size, or another number of blocks (BadSize, with no device call). Device comes where
/// a call of the device failed.
/// Rule: IMAGE, A format.
pub fn format<D: SectorDevice>(mut device: D, blocks: u16) -> Result<Store<D>, (OpenFault, D)>
    ensures ok { IsTrue (D.keeps_sectors device)
        → IfOk result (λ store. StandsFor store (fresh (blank_blocks blocks))) }
    ensures clean { IsTrue (D.keeps_sectors device) → IfOk result (λ store. IsClean blocks (disk_of store)) }
    ensures blank { IsTrue (D.keeps_sectors device) → IfOk result (λ store. IsBlank blocks (disk_of store).content) }
    ensures slots { IsTrue (D.keeps_sectors device)
        → IfOk result (λ store. KeepsSlots blocks (D.disk device).content (disk_of store).content) }
    ensures blocks { IfOk result (λ store. blocks_of store ≡ blocks) }
    ensures technique { IfOk result (λ store. technique_of store ≡ Journal) }
    ensures closed { IfOk result (λ store. closed_of store ≡ false) }
    ensures pending { IfOk result (λ store. (b : ℕ) → is_pending store b ≡ false) }

    // BadSize comes exactly where the size is wrong, over any device and with no call of it. Else only the device fails.
    ensures size { IfOk result (λ _. is_size_for blocks (D.sector_count device) ≡ true) }
    ensures refusal { IfErr result (λ e. MatchBool (is_size_for blocks (D.sector_count device)) (e.0 ≡ Device) (e.0 ≡ BadSize)) }
    ensures unasked { IfErr result (λ e. e.0 ≡ BadSize → e.1 ≡ device) }
    ensures device { IfErr result (λ e. e.0 ≡ Device → D.failures e.1 ≡ count_up (D.failures device)) }
    ensures refused { IfErr result (λ e. e.0 ≢ Device → D.failures e.1 ≡ D.failures device) }
    ensures well { IfOk result (λ store. D.failures (device_of store) ≡ D.failures device) }

    // What a stop at any moment leaves, and a stop once it has returned.
    ensures stops { IsTrue (D.keeps_sectors device) → (n : ℕ) → D.sector_count device ≡ sectors_for n
        → StopsLeave D.SectorDevice device (end_of result) (FormatLeaves n (D.disk device)) }
    ensures after { IsTrue (D.keeps_sectors device)
        → IfOk result (λ store. (image : Image) → MayLeave (disk_of store) image → Means (blank_blocks blocks) image) }
    // At most zeros over a label, gate, record, homes and label are written.
    ensures begins { BeginsAtMost D.SectorDevice device (end_of result) (2 * blocks + 4) 4 }
    // The label is read.
    ensures reads { ReadsAtMost D.SectorDevice device (end_of result) 1 }
    ensures time { Elapses D.time D.left_since device (end_of result) }
    ensures failures { D.failures device ≤ D.failures (end_of result) }
    ensures sectors { D.sector_count (end_of result) ≡ D.sector_count device }
    ensures model { D.keeps_model (end_of result) ≡ D.keeps_model device }
    ensures units { D.keeps_sectors (end_of result) ≡ D.keeps_sectors device }
{
    if !fits(blocks, MOST_BLOCKS, device.sectors()) {
        return Err((OpenFault::BadSize, device));
    }
    match make_blank(&mut device, BlockCount { number: blocks }) {
        Ok(()) => Ok(Store::adopt(device, blocks)),
        Err(_) => Err((OpenFault::Device, device)),
    }
}
