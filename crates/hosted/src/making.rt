//! An image of blank blocks is made, by the layout that the device's size tells.
//! Rule: IMAGE, A format; IMAGE, Layout 3, A format.
ghost use Rattle.std.specs.Prelude.{◌≡◌, ◌+◌, ◌*◌, true, IsTrue, IfOk, IfErr, MatchBool};
ghost use Rattle.sector_disk.specs.Counting.{count_up};
ghost use Rattle.journal.specs.Calls.{StopsLeave};
ghost use Rattle.recovery.specs.Formatted.{FormatLeaves as OlderLeaves, blank_blocks};
ghost use Rattle.recovery.specs.Label.{is_size_for as is_older_for};
ghost use Rattle.shadow.specs.Formatted.{FormatLeaves as NewerLeaves};
ghost use Rattle.shadow.specs.Label.{is_size_for as is_newer_for};
ghost use Rattle.journal.specs.Suits.{suits};
ghost use Rattle.sessions.specs.Devices.{Becomes};
ghost use Rattle.hosted.specs.Calls.{LeavesNewer, LeavesOlder, LeavesBlocks, device_after};
ghost use Rattle.hosted.specs.Costs.{Begins};
ghost use Rattle.hosted.specs.Making.{FormattingLeaves, fits_image, writes_to_format};

use crate::refusal::Refusal;
use journal::sizes::is_older;
use sector_disk::SectorDevice;

/// Makes an image of `blocks` blank blocks, 32 to 3,840: of layout 2 on `3 + 4 * blocks` sectors, of layout 3 on
/// `32 + 16 * blocks`. A refusal hands the device back: `BadSize` at another number of blocks or of sectors, with no
/// call of it, and `Device` where a call of it failed.
pub fn make_image<D: SectorDevice>(device: D, blocks: u16) -> Result<D, (Refusal, D)>
    ensures blank { IsTrue (suits D.SectorDevice device)
        → IfOk result (λ after. LeavesBlocks D.SectorDevice after (blank_blocks blocks)) }
    // At any moment a stop leaves no good label, or the blank image, or what was there, by layout 3 but for the other sectors in the
    // label's unit.
    ensures stops { IsTrue (suits D.SectorDevice device) → fits_image blocks (D.sector_count device) ≡ true
        → StopsLeave D.SectorDevice device (device_after result) (FormattingLeaves D.SectorDevice device blocks) }
    ensures sized { IfOk result (λ _. fits_image blocks (D.sector_count device) ≡ true) }
    ensures refusal { IfErr result (λ e. MatchBool (fits_image blocks (D.sector_count device))
        (e.0 ≡ Refusal.Device) (e.0 ≡ Refusal.BadSize)) }
    ensures unasked { IfErr result (λ e. e.0 ≡ Refusal.BadSize → e.1 ≡ device) }
    ensures well { IfOk result (λ after. D.failures after ≡ D.failures device) }
    ensures failed { IfErr result (λ e. e.0 ≡ Refusal.Device → D.failures e.1 ≡ count_up (D.failures device)) }
    ensures goes { Becomes D.SectorDevice device (device_after result) }
    ensures begins { Begins D.SectorDevice device (device_after result) (writes_to_format (D.sector_count device) blocks) 4 1 }
{
    if is_older(&device) {
        make_older(device, blocks)
    } else {
        make_newer(device, blocks)
    }
}

/// Makes an image of blank blocks, of layout 2.
fn make_older<D: SectorDevice>(device: D, blocks: u16) -> Result<D, (Refusal, D)>
    ensures blank { IsTrue (D.keeps_sectors device)
        → IfOk result (λ after. LeavesOlder D.SectorDevice after (blank_blocks blocks)) }
    ensures stops { IsTrue (D.keeps_sectors device) → is_older_for blocks (D.sector_count device) ≡ true
        → StopsLeave D.SectorDevice device (device_after result) (OlderLeaves blocks (D.disk device)) }
    ensures sized { IfOk result (λ _. is_older_for blocks (D.sector_count device) ≡ true) }
    ensures refusal { IfErr result (λ e. MatchBool (is_older_for blocks (D.sector_count device))
        (e.0 ≡ Refusal.Device) (e.0 ≡ Refusal.BadSize)) }
    ensures unasked { IfErr result (λ e. e.0 ≡ Refusal.BadSize → e.1 ≡ device) }
    ensures well { IfOk result (λ after. D.failures after ≡ D.failures device) }
    ensures failed { IfErr result (λ e. e.0 ≡ Refusal.Device → D.failures e.1 ≡ count_up (D.failures device)) }
    ensures sectors { D.sector_count (device_after result) ≡ D.sector_count device }
    ensures goes { Becomes D.SectorDevice device (device_after result) }
    ensures begins { Begins D.SectorDevice device (device_after result) (2 * blocks + 4) 4 1 }
{
    match recovery::format(device, blocks) {
        Ok(store) => Ok(store.into_device()),
        Err((fault, device)) => Err((Refusal::from(fault), device)),
    }
}

/// Makes an image of blank blocks, of layout 3.
fn make_newer<D: SectorDevice>(device: D, blocks: u16) -> Result<D, (Refusal, D)>
    ensures blank { IsTrue (D.keeps_model device)
        → IfOk result (λ after. LeavesNewer D.SectorDevice after (blank_blocks blocks)) }
    ensures stops { IsTrue (D.keeps_model device) → is_newer_for blocks (D.sector_count device) ≡ true
        → StopsLeave D.SectorDevice device (device_after result) (NewerLeaves blocks (D.disk device)) }
    ensures sized { IfOk result (λ _. is_newer_for blocks (D.sector_count device) ≡ true) }
    ensures refusal { IfErr result (λ e. MatchBool (is_newer_for blocks (D.sector_count device))
        (e.0 ≡ Refusal.Device) (e.0 ≡ Refusal.BadSize)) }
    ensures unasked { IfErr result (λ e. e.0 ≡ Refusal.BadSize → e.1 ≡ device) }
    ensures well { IfOk result (λ after. D.failures after ≡ D.failures device) }
    ensures failed { IfErr result (λ e. e.0 ≡ Refusal.Device → D.failures e.1 ≡ count_up (D.failures device)) }
    ensures sectors { D.sector_count (device_after result) ≡ D.sector_count device }
    ensures goes { Becomes D.SectorDevice device (device_after result) }
    ensures begins { Begins D.SectorDevice device (device_after result) (4 * blocks + 5) 4 1 }
{
    match shadow::format(device, blocks) {
        Ok(store) => Ok(store.into_device()),
        Err((fault, device)) => Err((Refusal::from(fault), device)),
    }
}
