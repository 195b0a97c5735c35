//! An image of an older layout is upgraded, in a new file.
//! Rule: IMAGE, Layout 1, and an upgrade; IMAGE, Layout 3, An upgrade.
ghost use Rattle.std.specs.Prelude.{◌≡◌, ◌≢◌, ◌⊎◌, ℕ, IfErr, OnOk};
ghost use Rattle.journal.specs.Layout as older_layout;
ghost use Rattle.recovery.specs.Steps.{WentWell};
ghost use Rattle.journal.specs.PageLayout.{sectors_for};
ghost use Rattle.terminal.specs.Done.{Upgrades, blocks_on};
ghost use Rattle.terminal.specs.Failed.{NewerUpgradeFails, UpgradeFails};
ghost use Rattle.terminal.specs.Layout3.{UpgradesNewer};

use super::failure::Failure;
use sector_disk::SectorDevice;
use shadow::upgrade;

/// Makes an image of layout 2 of the blocks of the image of layout 1 on another device. Its failures: `BadSize` where
/// the sizes don't fit, then those of an opening of layout 1, and `Device` where a call of either failed.
pub(super) fn upgrade_older<D: SectorDevice>(old: &mut D, new: &mut D) -> Result<(), Failure>
    ensures made { (n : ℕ) → D.sector_count old.old ≡ older_layout.sectors_for n → D.sector_count new.old ≡ D.sector_count old.old
        → OnOk result (Upgrades D.SectorDevice old.old old.new new.old new.new) }
    // Where it failed, a stop leaves of the old image one that means the same, and of the new one no image, or the whole one.
    ensures failed { (n : ℕ) → D.sector_count old.old ≡ older_layout.sectors_for n → D.sector_count new.old ≡ D.sector_count old.old
        → IfErr result (λ failure. UpgradeFails D.SectorDevice failure old.old old.new new.old new.new) }
    ensures well { OnOk result (WentWell D.SectorDevice D.SectorDevice old.old old.new new.old new.new) }
{
    match recovery::upgrade(old, new) {
        Ok(()) => Ok(()),
        Err(fault) => Err(Failure::from(fault)),
    }
}

/// Makes an image of layout 3 of the blocks of the image of layout 1 or 2 on another device. Its failures: `BadSize`
/// where the sizes don't fit, then those of an opening by the old image's layout, the first that holds, with no call of
/// the new device; and `Device` where a call of either failed.
pub fn upgrade_over<A: SectorDevice, B: SectorDevice>(
    old: &mut A,
    new: &mut B,
) -> Result<(), Failure>
    ensures upgrades { OnOk result (UpgradesNewer A.SectorDevice B.SectorDevice old.old old.new new.old new.new) }
    ensures well { OnOk result (WentWell A.SectorDevice B.SectorDevice old.old old.new new.old new.new) }
    // Whatever the answer is, a stop leaves of the other device no image, or the whole one, or what could be left before,
    // but for the other sectors in the label's unit.
    ensures failed { B.sector_count new.old ≡ sectors_for (blocks_on A.SectorDevice old.old)
        → IfErr result (λ failure. NewerUpgradeFails A.SectorDevice B.SectorDevice failure old.old old.new new.old new.new) }
{
    match upgrade(old, new) {
        Ok(()) => Ok(()),
        Err(fault) => Err(Failure::from(fault)),
    }
}
