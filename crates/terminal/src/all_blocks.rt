//! All blocks of an image are read.
//! Rule: MANUAL, forth83 check IMAGE.
ghost use Rattle.std.specs.Prelude.{◌≡◌, ◌≢◌, ◌⊎◌, ◌*◌, None, Some, Ok, Err, IsTrue, IfErr, IfOk, MatchResult, OnOk, option_map, vec_len};
ghost use Rattle.sector_disk.specs.Counting.{count_up};
ghost use Rattle.recovery.specs.Steps.{OnlyRead};
ghost use Rattle.shadow.specs.Upgraded.{known_blocks};
ghost use Rattle.stores.specs.Opened.{image_refusal};
ghost use Rattle.terminal.specs.Compared.{Reads, bytes_on};
ghost use Rattle.terminal.specs.Failures.{of_image, of_reading};

use super::failure::Failure;
use image_care::{ReadFault, read_blocks};
use sector_disk::SectorDevice;
use std::alloc::Global;

/// The bytes of all blocks of the image on a device, block 0 first, 1,024 each, by reads alone. Its failures are those
/// of an opening: `BadSize`, `NoLabel`, `OtherVersion`, `WrongCount`, `Damaged`, the first that holds; `Device` where a
/// call of the device failed, and `NoMemory`.
pub fn read_all<D: SectorDevice>(alloc: Global, device: &mut D) -> Result<Vec<u8>, Failure>
    ensures read { OnOk result (Reads D.SectorDevice device.old device.new) }
    ensures bytes { IsTrue (D.keeps_model device.old) → IfOk result (λ bytes. bytes.items ≡ bytes_on D.SectorDevice device.old) }
    ensures length { IfOk result (λ bytes. vec_len bytes ≡ 1024 * known_blocks (D.sector_count device.old)) }
    // Each refusal tells the first test that the image fails.
    ensures exact { IsTrue (D.keeps_model device.old) → MatchResult result
        (λ _. image_refusal (D.sector_count device.old) (D.disk device.old).content ≡ None)
        (λ e. (e ≡ Failure.NoMemory) ⊎ (e ≡ Failure.Device) ⊎ (Some e ≡ option_map of_image
        (image_refusal (D.sector_count device.old) (D.disk device.old).content))) }
    // Whatever the answer is, nothing was written or synced.
    ensures only_read { OnlyRead D.SectorDevice device.old device.new }
    ensures readable { IfErr result (λ e. e ≢ Failure.CannotWrite) }
    // A fault of the device is told just where one of its calls failed.
    ensures device { IfErr result (λ e. e ≡ Failure.Device → D.failures device.new ≡ count_up (D.failures device.old)) }
    ensures refused { IfErr result (λ e. e ≢ Failure.Device → D.failures device.new ≡ D.failures device.old) }
    ensures well { OnOk result (D.failures device.new ≡ D.failures device.old) }
{
    given(read_blocks(alloc, device))
}

/// The blocks, or the failure that their fault is told as.
fn given(blocks: Result<Vec<u8>, ReadFault>) -> Result<Vec<u8>, Failure>
    ensures { MatchResult blocks (λ bytes. result ≡ Ok bytes) (λ fault. result ≡ Err (of_reading fault)) }
{
    match blocks {
        Ok(bytes) => Ok(bytes),
        Err(ReadFault::Refused(fault)) => Err(Failure::from(fault)),
        Err(ReadFault::NoMemory) => Err(Failure::NoMemory),
    }
}
