// The blocks of an image are copied to another device, by reads alone of the first.
ghost use Rattle.std.specs.Prelude.{◌≡◌, ◌≢◌, ◌⊎◌, ◌≤◌, ◌+◌, ◌*◌, true, None, Some, IsTrue, OnOk, IfOk, IfErr, MatchResult};
ghost use Rattle.sector_disk.specs.Counting.{count_up};
ghost use Rattle.sector_disk.specs.Disk.{Image, MayLeave};
ghost use Rattle.journal.specs.BySize.{Means};
ghost use Rattle.journal.specs.Calls.{StopsLeave, BeginsAtMost, ReadsAtMost, Proceeds};
ghost use Rattle.journal.specs.Suits.{suits};
ghost use Rattle.recovery.specs.Label.{is_size};
ghost use Rattle.recovery.specs.Steps.{OnlyRead, WentWell};
ghost use Rattle.recovery.specs.declared.fault.OpenFault.TheVariants.{BadSize, Device};
ghost use Rattle.recovery.specs.declared.fault.UpgradeFault.TheVariants.{Old, New};
ghost use Rattle.shadow.specs.Label.{is_known_size};
ghost use Rattle.shadow.specs.Upgraded.{known_blocks};
ghost use Rattle.journal.specs.Layouts.{is_journal, sectors_for};
ghost use Rattle.image_care.specs.Copied.{copied_blocks, copy_size_refusal, copy_refusal};
ghost use Rattle.image_care.specs.Looked.{reads_to_look};
ghost use Rattle.image_care.specs.Made.{IsMade, KeepsRest, MakingLeaves, writes_to_make};

use crate::laying::lay;
use crate::looking::look;
use journal::sizes::{Size, size_by, size_of};
use recovery::{OpenFault, UpgradeFault};
use sector_disk::SectorDevice;

// The size of the new image of a copy between devices of so many sectors.
fn size_of_copy(old: u32, new: u32) -> Result<Size, UpgradeFault>
    ensures exact { MatchResult result (λ _. copy_size_refusal old new ≡ None) (λ e. copy_size_refusal old new ≡ Some e) }
    ensures new { IfOk result (λ size. new ≡ sectors_for size.layout size.blocks.number) }
    ensures count { IfOk result (λ size. size.blocks.number ≡ known_blocks new) }
    ensures grows { OnOk result (known_blocks old ≤ known_blocks new) }
    ensures told { IfErr result (λ e. (e ≡ Old BadSize) ⊎ (e ≡ New BadSize)) }
{
    match size_of(old) {
        Some(from) => size_of_new(from, old, new),
        None => Err(UpgradeFault::Old(OpenFault::BadSize)),
    }
}

// The same where the old image has this size.
fn size_of_new(from: Size, old: u32, new: u32) -> Result<Size, UpgradeFault>
    requires known { is_known_size old ≡ true }
    requires layout { is_journal from.layout ≡ is_size old }
    requires sectors { old ≡ sectors_for from.layout from.blocks.number }
    requires count { from.blocks.number ≡ known_blocks old }
    ensures exact { MatchResult result (λ _. copy_size_refusal old new ≡ None) (λ e. copy_size_refusal old new ≡ Some e) }
    ensures new { IfOk result (λ size. new ≡ sectors_for size.layout size.blocks.number) }
    ensures count { IfOk result (λ size. size.blocks.number ≡ known_blocks new) }
    ensures grows { OnOk result (known_blocks old ≤ known_blocks new) }
    ensures told { IfErr result (λ e. (e ≡ Old BadSize) ⊎ (e ≡ New BadSize)) }
{
    let Some(to) = size_by(from.layout, new) else {
        return Err(UpgradeFault::New(OpenFault::BadSize));
    };
    if new < old {
        Err(UpgradeFault::New(OpenFault::BadSize))
    } else {
        Ok(to)
    }
}

/// Makes an image of the blocks that another one means, by the same layout, on another device of as many sectors or
/// more: the blocks above the old ones are blank. How many sectors the devices have tells the layout. The old image is
/// only read: nothing is written, and nothing synced. By layout 2 a save that was under way there is in the new image
/// as if it were finished. The label of the new one is written last, and a good label that stood there is taken away
/// first. Takes no memory.
///
/// It refuses, in this order, an old device of a size that no image has (BadSize), a new one of a size that no image of
/// the same layout has or a smaller one (BadSize), both with no call of either device; and an old image as `look` does
/// (NoLabel, OtherVersion, WrongCount, Damaged), with no call of the new device. Device comes where a call of that
/// device failed.
/// Rule: MANUAL, forth83 copy OLD NEW [--blocks N]; IMAGE, For another writer; IMAGE, Layout 3, A copy.
pub fn copy<A: SectorDevice, B: SectorDevice>(old: &mut A, new: &mut B) -> Result<(), UpgradeFault>
    // Each refusal tells the first test that fails. The sizes are tested over any device.
    ensures exact { IsTrue (A.keeps_model old.old) → MatchResult result
        (λ _. copy_refusal (A.sector_count old.old) (B.sector_count new.old) (A.disk old.old).content ≡ None)
        (λ e. (e ≡ Old Device) ⊎ (e ≡ New Device)
        ⊎ (copy_refusal (A.sector_count old.old) (B.sector_count new.old) (A.disk old.old).content ≡ Some e)) }
    ensures sized { OnOk result (copy_size_refusal (A.sector_count old.old) (B.sector_count new.old) ≡ None) }
    // The device that is told as failed failed once, and no call failed else.
    ensures old_device { IfErr result (λ e. e ≡ Old Device → A.failures old.new ≡ count_up (A.failures old.old)) }
    ensures new_device { IfErr result (λ e. e ≡ New Device → B.failures new.new ≡ count_up (B.failures new.old)) }
    ensures old_well { IfErr result (λ e. e ≢ Old Device → A.failures old.new ≡ A.failures old.old) }
    ensures new_well { IfErr result (λ e. e ≢ New Device → B.failures new.new ≡ B.failures new.old) }
    ensures well { OnOk result (WentWell A.SectorDevice B.SectorDevice old.old old.new new.old new.new) }
    // BadSize comes with no call of either device. Another refusal than Device made none of the new one.
    ensures old_unasked { IfErr result (λ e. (e ≡ Old BadSize) ⊎ (e ≡ New BadSize) → old.new ≡ old.old) }
    ensures new_unasked { IfErr result (λ e. (e ≡ Old BadSize) ⊎ (e ≡ New BadSize) → new.new ≡ new.old) }
    ensures new_same { IfErr result (λ e. e ≢ Old Device → e ≢ New Device → new.new ≡ new.old) }

    // The old image is only read. A stop at any moment leaves of it what one before could leave.
    ensures old_stops { OnlyRead A.SectorDevice old.old old.new }
    // What a stop at any moment leaves of the new one, and what one leaves of it once it has returned.
    ensures new_stops { IsTrue (A.keeps_model old.old) → IsTrue (suits B.SectorDevice new.old)
        → StopsLeave B.SectorDevice new.old new.new (MakingLeaves (B.sector_count new.old)
        (copied_blocks (A.sector_count old.old) (B.sector_count new.old) (A.disk old.old).content) (B.disk new.old)) }
    ensures after { IsTrue (A.keeps_model old.old) → IsTrue (suits B.SectorDevice new.old)
        → OnOk result ((image : Image) → MayLeave (B.disk new.new) image → Means (B.sector_count new.old)
        (copied_blocks (A.sector_count old.old) (B.sector_count new.old) (A.disk old.old).content) image) }
    // So an opening then gives a store of these blocks, with nothing pending.
    ensures opens { IsTrue (A.keeps_model old.old) → IsTrue (suits B.SectorDevice new.old)
        → OnOk result (Means (B.sector_count new.old)
        (copied_blocks (A.sector_count old.old) (B.sector_count new.old) (A.disk old.old).content) (B.disk new.new).content) }
    // The new image is made as by a format, with these blocks where a format puts blanks.
    ensures made { IsTrue (A.keeps_model old.old) → IsTrue (suits B.SectorDevice new.old)
        → OnOk result (IsMade (B.sector_count new.old)
        (copied_blocks (A.sector_count old.old) (B.sector_count new.old) (A.disk old.old).content) (B.disk new.new)) }
    ensures rest { IsTrue (suits B.SectorDevice new.old) → OnOk result
        (KeepsRest (B.sector_count new.old) (B.disk new.old).content (B.disk new.new).content) }
    ensures new_passes { Proceeds B.SectorDevice new.old new.new }
    ensures new_units { IsTrue (suits B.SectorDevice new.old) → (B.disk new.new).unit ≡ (B.disk new.old).unit }
    // What an opening looks at is read, and each block once.
    ensures old_reads { IsTrue (A.keeps_model old.old) → ReadsAtMost A.SectorDevice old.old old.new
        (reads_to_look (A.sector_count old.old) (A.disk old.old).content + 2 * known_blocks (A.sector_count old.old)) }
    ensures new_begins { BeginsAtMost B.SectorDevice new.old new.new (writes_to_make (B.sector_count new.old)) 4 }
    ensures new_reads { ReadsAtMost B.SectorDevice new.old new.new 1 }
{
    let size = size_of_copy(old.sectors(), new.sectors())?;
    match look(old) {
        Ok(view) => {
            let mut found = view;
            lay(&mut found, old, new, size)
        }
        Err(fault) => Err(UpgradeFault::Old(fault)),
    }
}
