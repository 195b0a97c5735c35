// Tags are read, and made of the bytes that a device has.
ghost use Rattle.std.specs.Prelude.{◌≡◌, ◌<◌, ◌+◌, ◌^◌, IsTrue, IfOk};
ghost use Rattle.journal.specs.Calls.{Reads};
ghost use Rattle.journal.specs.Images.{pair_at};
ghost use Rattle.journal.specs.PageLayout.{tag_in};
ghost use Rattle.journal.specs.Tags.{tag_of};

use super::layout::tag;
use super::tags::begin_tag;
use crate::hashing::add_pair;
use sector_disk::{DeviceFault, SectorDevice};
use sha2::Digest;

/// The tag in sector `k`, a number below that of the device's sectors. `DeviceFault` where the read failed.
/// Rule: IMAGE, Layout 3.
pub fn read_tag<D: SectorDevice>(device: &mut D, k: u32) -> Result<[u8; 32], DeviceFault>
    requires { k < D.sector_count device.old }
    ensures bytes { IsTrue (D.keeps_model device.old)
        → IfOk result (λ found. found ≡ tag_in ((D.disk device.old).content k)) }
    ensures reads { Reads D.SectorDevice device.old device.new 1 result }
{
    let mut bytes = [0; 512];
    device.read(k, &mut bytes)?;
    Ok(tag(&bytes))
}

/// The tag of block `b` with the 1,024 bytes in the place that begins with sector `k`, which the device has with the
/// next one. `DeviceFault` where a read failed.
/// Rule: IMAGE, Layout 3.
pub fn made_tag<D: SectorDevice>(device: &mut D, b: u16, k: u32) -> Result<[u8; 32], DeviceFault>
    requires small { k < 2 ^ 16 }
    requires within { k + 1 < D.sector_count device.old }
    ensures tag { IsTrue (D.keeps_model device.old)
        → IfOk result (λ made. made ≡ tag_of b (pair_at (D.disk device.old).content k)) }
    ensures reads { Reads D.SectorDevice device.old device.new 2 result }
{
    let mut hasher = begin_tag(b);
    add_pair(device, k, &mut hasher)?;
    Ok(hasher.finalize())
}
