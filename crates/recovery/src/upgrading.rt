// An image of layout 1 is recovered, and its blocks are put into an image of layout 2 on another device.
ghost use Rattle.std.specs.Prelude.{◌≡◌, ◌≢◌, ◌⊎◌, ◌<◌, ◌≤◌, ◌+◌, ◌-◌, ◌*◌, ℕ, true, Some, None, IsTrue, OnOk, IfOk, IfErr, MatchResult};
ghost use Rattle.sector_disk.specs.Counting.{count_up};
ghost use Rattle.sector_disk.specs.Disk.{Image, MayLeave};
ghost use Rattle.journal.specs.Calls.{StopsLeave, BeginsAtMost, ReadsAtMost, Proceeds};
ghost use Rattle.journal.specs.Images.{home_of, blocks_below, meaning, Means};
ghost use Rattle.journal.specs.Layout.{most_blocks_1, sectors_for};
ghost use Rattle.recovery.specs.Formatted.{MakingLeaves, IsFilled, KeepsSlots};
ghost use Rattle.recovery.specs.Making.{Carries};
ghost use Rattle.recovery.specs.Opened.{gate_after, writes_for, syncs_for};
ghost use Rattle.recovery.specs.Steps.{IsMade, WentWell};
ghost use Rattle.recovery.specs.Upgraded.{size_refusal, upgrade_refusal, OldLeaves, reads_for_1};
ghost use Rattle.recovery.specs.declared.fault.OpenFault.{OpenFault};
ghost use Rattle.recovery.specs.declared.fault.OpenFault.TheVariants.{BadSize, Device};
ghost use Rattle.recovery.specs.declared.fault.UpgradeFault.{UpgradeFault};
ghost use Rattle.recovery.specs.declared.fault.UpgradeFault.TheVariants.{Old, New};

use crate::homes::Homes;
use crate::journal_blocks::JournalBlocks;
use crate::making::make;
use crate::recovering::recover;
use crate::{OpenFault, UpgradeFault};
use journal::layout::{BlockCount, MOST_BLOCKS_1, VERSION_1, blocks_of_size};
use sector_disk::SectorDevice;

// How many blocks both images have.
fn blocks_of_both(old: u32, new: u32) -> Result<BlockCount, UpgradeFault>
    ensures exact { MatchResult result (λ _. size_refusal old new ≡ None) (λ e. size_refusal old new ≡ Some e) }
    ensures old { IfOk result (λ n. old ≡ sectors_for n.number) }
    ensures new { IfOk result (λ n. new ≡ sectors_for n.number) }
    ensures few { IfOk result (λ n. n.number ≤ most_blocks_1) }
    ensures told { IfErr result (λ e. (e ≡ Old BadSize) ⊎ (e ≡ New BadSize)) }
{
    let Some(number) = blocks_of_size(old, MOST_BLOCKS_1) else {
        return Err(UpgradeFault::Old(OpenFault::BadSize));
    };
    if new != old {
        return Err(UpgradeFault::New(OpenFault::BadSize));
    }
    Ok(BlockCount { number })
}

// Makes an image of the homes of another. A stop leaves no good label, or what was there, or all of the new image.
fn carry<A: SectorDevice, B: SectorDevice>(
    source: &mut A,
    target: &mut B,
    blocks: BlockCount,
) -> Result<(), UpgradeFault>
    requires from { A.sector_count source.old ≡ sectors_for blocks.number }
    requires to { B.sector_count target.old ≡ sectors_for blocks.number }
    ensures ok { IsTrue (A.keeps_model source.old) → IsTrue (B.keeps_sectors target.old)
        → OnOk result (IsMade blocks.number (A.disk source.old).content (B.disk target.new)) }
    ensures slots { IsTrue (B.keeps_sectors target.old)
        → OnOk result (KeepsSlots blocks.number (B.disk target.old).content (B.disk target.new).content) }
    ensures stops { IsTrue (A.keeps_model source.old) → IsTrue (B.keeps_sectors target.old)
        → StopsLeave B.SectorDevice target.old target.new
        (MakingLeaves blocks.number (blocks_below (home_of blocks.number (A.disk source.old).content) blocks.number) (B.disk target.old)) }
    ensures carries { Carries A.SectorDevice B.SectorDevice source.old source.new target.old target.new (2 * blocks.number + 4) 4 1 result }
    ensures reads { IsTrue (A.keeps_model source.old) → ReadsAtMost A.SectorDevice source.old source.new (2 * blocks.number) }
{
    let mut homes = JournalBlocks {
        blocks,
        listing: None,
    };
    make(&mut homes, source, &mut Homes, target, blocks)
}

/// Makes an image of layout 2 of the blocks of one of layout 1, on another device of as many sectors. The old image is
/// recovered first, and is written no further. The label of the new one is written last. Takes no memory.
///
/// It refuses, in this order, an old device of a size that no image of layout 1 has (BadSize), a new one of another
/// size (BadSize), and an old label as `open` does, by layout 1 (NoLabel, OtherVersion, WrongCount). Before these
/// nothing is written. Device comes where a call of that device failed.
/// Rule: IMAGE, Layout 1, and an upgrade.
pub fn upgrade<A: SectorDevice, B: SectorDevice>(
    old: &mut A,
    new: &mut B,
) -> Result<(), UpgradeFault>
    // Each refusal tells the first test that fails.
    ensures exact { IsTrue (A.keeps_sectors old.old) → MatchResult result
        (λ _. upgrade_refusal (A.sector_count old.old) (B.sector_count new.old) ((A.disk old.old).content 0) ≡ None)
        (λ e. (e ≡ Old Device) ⊎ (e ≡ New Device)
        ⊎ (upgrade_refusal (A.sector_count old.old) (B.sector_count new.old) ((A.disk old.old).content 0) ≡ Some e)) }
    // The device that is told as failed failed once, and no call failed else.
    ensures old_device { IfErr result (λ e. e ≡ Old Device → A.failures old.new ≡ count_up (A.failures old.old)) }
    ensures new_device { IfErr result (λ e. e ≡ New Device → B.failures new.new ≡ count_up (B.failures new.old)) }
    ensures old_well { IfErr result (λ e. e ≢ Old Device → A.failures old.new ≡ A.failures old.old) }
    ensures new_well { IfErr result (λ e. e ≢ New Device → B.failures new.new ≡ B.failures new.old) }
    ensures well { OnOk result (WentWell A.SectorDevice B.SectorDevice old.old old.new new.old new.new) }
    // BadSize comes with no call of either device. Another refusal than Device wrote nothing.
    ensures old_unasked { IfErr result (λ e. (e ≡ Old BadSize) ⊎ (e ≡ New BadSize) → old.new ≡ old.old) }
    ensures new_unasked { IfErr result (λ e. (e ≡ Old BadSize) ⊎ (e ≡ New BadSize) → new.new ≡ new.old) }
    ensures old_unwritten { IfErr result
        (λ e. e ≢ Old Device → e ≢ New Device → BeginsAtMost A.SectorDevice old.old old.new 0 1) }
    ensures new_unwritten { IfErr result
        (λ e. e ≢ Old Device → e ≢ New Device → BeginsAtMost B.SectorDevice new.old new.new 0 0) }
    ensures old_content { IsTrue (A.keeps_model old.old)
        → IfErr result (λ e. e ≢ Old Device → e ≢ New Device → (A.disk old.new).content ≡ (A.disk old.old).content) }
    ensures new_same { IfErr result (λ e. e ≢ Old Device → e ≢ New Device → new.new ≡ new.old) }

    // What a stop at any moment leaves of the old image, and of the new one, and what one leaves of that once it has returned.
    ensures old_stops { IsTrue (A.keeps_sectors old.old) → (n : ℕ) → A.sector_count old.old ≡ sectors_for n
        → StopsLeave A.SectorDevice old.old old.new (OldLeaves n (A.disk old.old)) }
    ensures new_stops { IsTrue (A.keeps_sectors old.old) → IsTrue (B.keeps_sectors new.old) → (n : ℕ)
        → B.sector_count new.old ≡ sectors_for n
        → StopsLeave B.SectorDevice new.old new.new (MakingLeaves n (meaning n (A.disk old.old).content) (B.disk new.old)) }
    ensures after { IsTrue (A.keeps_sectors old.old) → IsTrue (B.keeps_sectors new.old)
        → OnOk result ((n : ℕ) → B.sector_count new.old ≡ sectors_for n
        → (image : Image) → MayLeave (B.disk new.new) image → Means (meaning n (A.disk old.old).content) image) }
    // The new image is made as by a format, with the homes of the old one, whose gate is closed then.
    ensures filled { IsTrue (A.keeps_sectors old.old) → IsTrue (B.keeps_sectors new.old)
        → OnOk result ((n : ℕ) → B.sector_count new.old ≡ sectors_for n
        → IsFilled n (A.disk old.new).content (B.disk new.new).content) }
    ensures slots { IsTrue (B.keeps_sectors new.old) → OnOk result ((n : ℕ) → B.sector_count new.old ≡ sectors_for n
        → KeepsSlots n (B.disk new.old).content (B.disk new.new).content) }
    ensures old_gate { IsTrue (A.keeps_sectors old.old)
        → OnOk result ((A.disk old.new).content 1 ≡ gate_after ((A.disk old.old).content 1)) }
    ensures old_passes { Proceeds A.SectorDevice old.old old.new }
    ensures new_passes { Proceeds B.SectorDevice new.old new.new }
    ensures old_begins { IsTrue (A.keeps_sectors old.old) → (n : ℕ) → A.sector_count old.old ≡ sectors_for n
        → BeginsAtMost A.SectorDevice old.old old.new (writes_for n (A.disk old.old).content)
        (syncs_for (A.disk old.old).content) }
    // What a recovery reads, and each home once.
    ensures old_reads { IsTrue (A.keeps_sectors old.old) → (n : ℕ) → A.sector_count old.old ≡ sectors_for n
        → ReadsAtMost A.SectorDevice old.old old.new (reads_for_1 n (A.disk old.old).content + 2 * n) }
    ensures new_begins { (n : ℕ) → B.sector_count new.old ≡ sectors_for n
        → BeginsAtMost B.SectorDevice new.old new.new (2 * n + 4) 4 }
    ensures new_reads { ReadsAtMost B.SectorDevice new.old new.new 1 }
{
    let blocks = blocks_of_both(old.sectors(), new.sectors())?;
    match recover(old, VERSION_1, blocks) {
        Ok(()) => carry(old, new, blocks),
        Err(fault) => Err(UpgradeFault::Old(fault)),
    }
}
