// The blocks of an image, read where a look at it has found them.
ghost use Rattle.std.specs.Prelude.{◌≡◌, ◌<◌, ◌+◌, ◌*◌, ◌++◌, ℕ, List, IsTrue, OnOk, IfOk};
ghost use Rattle.sha2.specs.Hashers.{Holds256};
ghost use Rattle.sha2.specs.Sha256.{sha256};
ghost use Rattle.journal.specs.Calls.{Reads};
ghost use Rattle.image_care.specs.Examined.{joined_below};
ghost use Rattle.image_care.specs.View.{found_by, sectors_of};

use crate::view::View;
use journal::read_pair;
use sector_disk::{DeviceFault, SectorDevice};
use sha2::{Digest, Sha256};

fn add_block<D: SectorDevice>(
    device: &mut D,
    view: &View,
    b: u16,
    hasher: &mut Sha256,
) -> Result<(), DeviceFault>
    requires size { D.sector_count device.old ≡ sectors_of view.now }
    requires below { b < view.now.blocks.number }
    ensures ok { IsTrue (D.keeps_model device.old)
        → OnOk result ((m : List ℕ) → Holds256 hasher.old m
        → Holds256 hasher.new (m ++ found_by view.now (D.disk device.old).content b)) }
    ensures reads { Reads D.SectorDevice device.old device.new 2 result }
{
    let mut bytes = [0; 1024];
    read_pair(device, view.place_of(b), &mut bytes)?;
    hasher.update(bytes.as_slice());
    Ok(())
}

// Adds the blocks, in rising order.
fn add_blocks<D: SectorDevice>(
    device: &mut D,
    view: &View,
    hasher: &mut Sha256,
) -> Result<(), DeviceFault>
    requires size { D.sector_count device.old ≡ sectors_of view.now }
    ensures ok { IsTrue (D.keeps_model device.old)
        → OnOk result ((m : List ℕ) → Holds256 hasher.old m
        → Holds256 hasher.new (m ++ joined_below (found_by view.now (D.disk device.old).content) view.now.blocks.number)) }
    ensures reads { Reads D.SectorDevice device.old device.new (2 * view.now.blocks.number) result }
{
    for b in 0..view.blocks.number {
        add_block(device, view, b, hasher)?;
    }
    Ok(())
}

// The digest of all blocks, one after another. Takes no memory.
pub(crate) fn digest_of_blocks<D: SectorDevice>(
    device: &mut D,
    view: &View,
) -> Result<[u8; 32], DeviceFault>
    requires size { D.sector_count device.old ≡ sectors_of view.now }
    ensures ok { IsTrue (D.keeps_model device.old) → IfOk result (λ digest.
        digest ≡ sha256 (joined_below (found_by view.now (D.disk device.old).content) view.now.blocks.number)) }
    ensures reads { Reads D.SectorDevice device.old device.new (2 * view.now.blocks.number) result }
{
    let mut hasher = Sha256::new();
    add_blocks(device, view, &mut hasher)?;
    Ok(hasher.finalize())
}
