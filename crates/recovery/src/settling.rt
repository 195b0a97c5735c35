// The first steps on an image, whatever a stop left unsynced.
ghost use Rattle.std.specs.Prelude.{◌≡◌, ◌≢◌, ◌⊎◌, ◌<◌, ◌≤◌, ◌+◌, false, None, Some, IsTrue, OnOk, MatchResult};
ghost use Rattle.sector_disk.specs.Disk.{MayLeave, settled};
ghost use Rattle.journal.specs.Calls.{StopsLeave, CostsAtMost, Passes, Proceeds};
ghost use Rattle.journal.specs.Layout.{label_by};
ghost use Rattle.recovery.specs.Label.{label_refusal_by};
ghost use Rattle.recovery.specs.Recovered.{Tells};
ghost use Rattle.recovery.specs.declared.fault.OpenFault.{OpenFault};
ghost use Rattle.recovery.specs.declared.fault.OpenFault.TheVariants.{Device};

use crate::OpenFault;
use crate::label::check_label;
use journal::layout::LABEL;
use sector_disk::{DeviceFault, SectorDevice};

/// Makes what is there stay, and reads the label. `DeviceFault` comes from the first call that fails.
/// Rule: IMAGE, A recovery; IMAGE, Layout 3, An opening.
pub fn settle<D: SectorDevice>(device: &mut D, found: &mut [u8; 512]) -> Result<(), DeviceFault>
    requires { 0 < D.sector_count device.old }
    ensures ok { IsTrue (D.keeps_model device.old)
        → OnOk result (D.disk device.new ≡ settled (D.disk device.old)) }
    ensures label { IsTrue (D.keeps_model device.old)
        → OnOk result (found.new ≡ (D.disk device.old).content 0) }
    ensures stops { IsTrue (D.keeps_model device.old)
        → StopsLeave D.SectorDevice device.old device.new (MayLeave (D.disk device.old)) }
    ensures passes { Passes D.SectorDevice device.old device.new result }
    ensures costs { CostsAtMost D.SectorDevice device.old device.new 0 1 1 }
{
    device.sync()?;
    device.read(LABEL, found)
}

/// Makes what is there stay, and looks at the label of an image of so many blocks, by the layout of this version. A
/// label that isn't its own is refused; Device comes where a call of the device failed.
/// Rule: IMAGE, A recovery; IMAGE, Layout 3, An opening.
pub fn start<D: SectorDevice>(device: &mut D, version: u16, blocks: u16) -> Result<(), OpenFault>
    requires { 3 ≤ D.sector_count device.old }
    ensures ok { IsTrue (D.keeps_model device.old)
        → OnOk result (D.disk device.new ≡ settled (D.disk device.old)) }
    ensures label { IsTrue (D.keeps_model device.old)
        → OnOk result ((D.disk device.old).content 0 ≡ label_by version blocks) }
    ensures exact { IsTrue (D.keeps_model device.old) → MatchResult result
        (λ _. label_refusal_by version blocks ((D.disk device.old).content 0) ≡ None)
        (λ e. (e ≡ Device) ⊎ (label_refusal_by version blocks ((D.disk device.old).content 0) ≡ Some e)) }
    ensures tells { Tells D.SectorDevice device.old device.new 1 result }
    ensures stops { IsTrue (D.keeps_model device.old)
        → StopsLeave D.SectorDevice device.old device.new (MayLeave (D.disk device.old)) }
    ensures passes { Proceeds D.SectorDevice device.old device.new }
    ensures costs { CostsAtMost D.SectorDevice device.old device.new 0 1 1 }
{
    let mut label = [0; 512];
    settle(device, &mut label)?;
    check_label(&label, version, blocks)
}
