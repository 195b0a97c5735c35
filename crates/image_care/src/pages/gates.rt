// Whether the gate of an image is of the record that it names.
ghost use Rattle.std.specs.Prelude.{◌≡◌, ◌≤◌, IsTrue, OnOk, IfOk, IfErr};
ghost use Rattle.sector_disk.specs.Counting.{count_up};
ghost use Rattle.sector_disk.specs.Disk.{MayLeave};
ghost use Rattle.journal.specs.Calls.{StopsLeave, CostsAtMost, Proceeds};
ghost use Rattle.journal.specs.PageLayout.{gate_at, is_gate_of};
ghost use Rattle.recovery.specs.declared.fault.OpenFault.TheVariants.{Device};

use journal::pages::layout::{GATE, is_gate_of};
use recovery::OpenFault;
use sector_disk::SectorDevice;

// Reads the gate, and answers whether it is of this record: whether it has the record's sum.
pub(crate) fn gate_fits<D: SectorDevice>(
    device: &mut D,
    listing: &[u8; 512],
) -> Result<bool, OpenFault>
    requires { 32 ≤ D.sector_count device.old }
    ensures fits { IsTrue (D.keeps_model device.old)
        → IfOk result (λ fits. fits ≡ is_gate_of ((D.disk device.old).content gate_at) listing.now) }
    ensures fault { IfErr result (λ e. e ≡ Device) }
    ensures device { IfErr result (λ _. D.failures device.new ≡ count_up (D.failures device.old)) }
    ensures well { OnOk result (D.failures device.new ≡ D.failures device.old) }
    ensures disk { IsTrue (D.keeps_model device.old) → D.disk device.new ≡ D.disk device.old }
    ensures stops { IsTrue (D.keeps_model device.old)
        → StopsLeave D.SectorDevice device.old device.new (MayLeave (D.disk device.old)) }
    ensures passes { Proceeds D.SectorDevice device.old device.new }
    ensures costs { CostsAtMost D.SectorDevice device.old device.new 0 0 1 }
{
    let mut gate = [0; 512];
    match device.read(GATE, &mut gate) {
        Ok(()) => Ok(is_gate_of(&gate, listing)),
        Err(_) => Err(OpenFault::Device),
    }
}
