// Bytes on a device are added to a digest, so that no more than one sector of them lies on the stack.
ghost use Rattle.std.specs.Prelude.{◌≡◌, ◌<◌, ◌+◌, ◌^◌, ◌++◌, ℕ, List, IsTrue, OnOk};
ghost use Rattle.sha2.specs.Hashers.{Holds256};
ghost use Rattle.journal.specs.Calls.{Reads};
ghost use Rattle.journal.specs.Images.{pair_at};

use sector_disk::{DeviceFault, SectorDevice};
use sha2::{Digest, Sha256};

// Adds the bytes of a sector.
fn add_sector<D: SectorDevice>(
    device: &mut D,
    k: u32,
    hasher: &mut Sha256,
) -> Result<(), DeviceFault>
    requires { k < D.sector_count device.old }
    ensures ok { IsTrue (D.keeps_model device.old)
        → OnOk result ((m : List ℕ) → Holds256 hasher.old m → Holds256 hasher.new (m ++ (D.disk device.old).content k)) }
    ensures reads { Reads D.SectorDevice device.old device.new 1 result }
{
    let mut bytes = [0; 512];
    device.read(k, &mut bytes)?;
    hasher.update(bytes.as_slice());
    Ok(())
}

/// Adds the 1,024 bytes of a block in sector `k`, below 65,536, and the next one.
pub(crate) fn add_pair<D: SectorDevice>(
    device: &mut D,
    k: u32,
    hasher: &mut Sha256,
) -> Result<(), DeviceFault>
    requires small { k < 2 ^ 16 }
    requires within { k + 1 < D.sector_count device.old }
    ensures ok { IsTrue (D.keeps_model device.old)
        → OnOk result ((m : List ℕ) → Holds256 hasher.old m → Holds256 hasher.new (m ++ pair_at (D.disk device.old).content k)) }
    ensures reads { Reads D.SectorDevice device.old device.new 2 result }
{
    add_sector(device, k, hasher)?;
    add_sector(device, k + 1, hasher)
}
