// An image is opened after a stop.
ghost use Rattle.std.specs.Prelude.{◌≡◌, ◌*◌, ◌+◌, ◌≢◌, ◌⊎◌, ◌<◌, ◌≤◌, ◌-◌, ℕ, true, false, Some, None, IsTrue, OnOk, IfOk, IfErr, MatchBool, MatchResult};
ghost use Rattle.sector_disk.specs.Counting.{count_up};
ghost use Rattle.sector_disk.specs.Disk.{Image, MayLeave};
ghost use Rattle.sector_disk.specs.Moments.{Elapses};
ghost use Rattle.journal.specs.Calls.{StopsLeave, BeginsAtMost, ReadsAtMost, Proceeds};
ghost use Rattle.journal.specs.Chain.{HasMeaning};
ghost use Rattle.journal.specs.Clean.{IsClean};
ghost use Rattle.journal.specs.Images.{meaning, Means};
ghost use Rattle.journal.specs.Layout.{sectors_for};
ghost use Rattle.journal.specs.Maps.{fresh};
ghost use Rattle.journal.specs.Store.{device_of, disk_of, blocks_of, closed_of, technique_of, is_pending, StandsFor};
ghost use Rattle.journal.specs.declared.technique.Technique.TheVariants.{Journal};
ghost use Rattle.recovery.specs.Label.{is_size};
ghost use Rattle.recovery.specs.Opened.{image_refusal, RecoveryLeaves, end_of, gate_after, writes_for, syncs_for, reads_for};
ghost use Rattle.recovery.specs.declared.fault.OpenFault.{OpenFault};
ghost use Rattle.recovery.specs.declared.fault.OpenFault.TheVariants.{BadSize, Device, Damaged};

use crate::OpenFault;
use crate::recovering::recover;
use journal::Store;
use journal::layout::{BlockCount, MOST_BLOCKS, VERSION, blocks_of_size};
use sector_disk::SectorDevice;

/// Opens an image of layout 2 after a stop, and answers a store of its blocks. What an open gate asks for is done, so a
/// stop within this call, however often, loses nothing. An open gate becomes zeros, and a closed one is left as it is.
/// An error hands the device back. Takes no memory.
///
/// It refuses, in this order, a device of a size that no image of layout 2 has (BadSize, with no device call), one
/// without the name and zeros of a label (NoLabel), a label of another version (OtherVersion) or of another number of
/// blocks (WrongCount), and an open gate over a record whose digest isn't that of its bits and slots (Damaged). Device
/// comes where a call of the device failed.
/// Rule: IMAGE, A recovery; IMAGE, The bytes.
pub fn open<D: SectorDevice>(mut device: D) -> Result<Store<D>, (OpenFault, D)>
    // The store has the blocks that the image meant.
    ensures ok { IsTrue (D.keeps_sectors device)
        → IfOk result (λ store. StandsFor store (fresh (meaning (blocks_of store) (D.disk device).content))) }
    ensures clean { IsTrue (D.keeps_sectors device)
        → IfOk result (λ store. IsClean (blocks_of store) (disk_of store)) }
    ensures gate { IsTrue (D.keeps_sectors device)
        → IfOk result (λ store. (disk_of store).content 1 ≡ gate_after ((D.disk device).content 1)) }
    ensures closed { IfOk result (λ store. closed_of store ≡ false) }
    ensures technique { IfOk result (λ store. technique_of store ≡ Journal) }
    ensures pending { IfOk result (λ store. (b : ℕ) → is_pending store b ≡ false) }
    ensures size { IfOk result (λ store. D.sector_count device ≡ sectors_for (blocks_of store)) }

    // BadSize comes exactly where no image has this size, over any device and with no call of it.
    ensures sized { IfOk result (λ _. is_size (D.sector_count device) ≡ true) }
    ensures bad_size { IfErr result (λ e. MatchBool (is_size (D.sector_count device)) (e.0 ≢ BadSize) (e.0 ≡ BadSize)) }
    ensures unasked { IfErr result (λ e. e.0 ≡ BadSize → e.1 ≡ device) }
    // Each refusal tells the first test that the image fails.
    ensures exact { IsTrue (D.keeps_sectors device) → MatchResult result
        (λ _. image_refusal (D.sector_count device) (D.disk device).content ≡ None)
        (λ e. (e.0 ≡ Device) ⊎ (image_refusal (D.sector_count device) (D.disk device).content ≡ Some e.0)) }
    // What is opened has a meaning, and what has one is refused only by a fault of the device.
    ensures meaning { IsTrue (D.keeps_sectors device)
        → IfOk result (λ store. HasMeaning (blocks_of store) (D.disk device).content) }
    ensures good { IsTrue (D.keeps_sectors device) → (n : ℕ) → D.sector_count device ≡ sectors_for n
        → HasMeaning n (D.disk device).content → IfErr result (λ e. e.0 ≡ Device) }
    ensures device { IfErr result (λ e. e.0 ≡ Device → D.failures e.1 ≡ count_up (D.failures device)) }
    ensures refused { IfErr result (λ e. e.0 ≢ Device → D.failures e.1 ≡ D.failures device) }
    ensures well { IfOk result (λ store. D.failures (device_of store) ≡ D.failures device) }
    // Another refusal wrote nothing.
    ensures unwritten { IfErr result (λ e. e.0 ≢ Device → BeginsAtMost D.SectorDevice device e.1 0 1) }
    ensures content { IsTrue (D.keeps_model device)
        → IfErr result (λ e. e.0 ≢ Device → (D.disk e.1).content ≡ (D.disk device).content) }

    // A stop at any moment leaves an image that follows one which a stop before could leave.
    ensures stops { IsTrue (D.keeps_sectors device) → (n : ℕ) → D.sector_count device ≡ sectors_for n
        → StopsLeave D.SectorDevice device (end_of result) (RecoveryLeaves n (D.disk device)) }
    // Once it has returned, a stop leaves the blocks that the image meant.
    ensures after { IsTrue (D.keeps_sectors device) → IfOk result (λ store. (image : Image) → MayLeave (disk_of store) image
        → Means (meaning (blocks_of store) (D.disk device).content) image) }
    ensures time { Elapses D.time D.left_since device (end_of result) }
    ensures failures { D.failures device ≤ D.failures (end_of result) }
    ensures sectors { D.sector_count (end_of result) ≡ D.sector_count device }
    ensures model { D.keeps_model (end_of result) ≡ D.keeps_model device }
    ensures units { D.keeps_sectors (end_of result) ≡ D.keeps_sectors device }
    ensures begins { IsTrue (D.keeps_sectors device) → (n : ℕ) → D.sector_count device ≡ sectors_for n
        → BeginsAtMost D.SectorDevice device (end_of result) (writes_for n (D.disk device).content)
        (syncs_for (D.disk device).content) }
    ensures reads { IsTrue (D.keeps_sectors device) → (n : ℕ) → D.sector_count device ≡ sectors_for n
        → ReadsAtMost D.SectorDevice device (end_of result) (reads_for n (D.disk device).content) }
{
    let Some(number) = blocks_of_size(device.sectors(), MOST_BLOCKS) else {
        return Err((OpenFault::BadSize, device));
    };
    match recover(&mut device, VERSION, BlockCount { number }) {
        Ok(()) => Ok(Store::adopt(device, number)),
        Err(fault) => Err((fault, device)),
    }
}
