// A block of an image is read, by reads alone.
ghost use Rattle.std.specs.Prelude.{◌≡◌, ◌≢◌, ◌⊎◌, ◌<◌, ◌≤◌, ◌+◌, ◌*◌, true, false, None, Some, IsTrue, OnOk, IfOk, IfErr, IfSome, MatchBool, MatchOption, MatchResult};
ghost use Rattle.sector_disk.specs.Counting.{count_up};
ghost use Rattle.sector_disk.specs.Disk.{MayLeave};
ghost use Rattle.journal.specs.Calls.{StopsLeave, BeginsAtMost, ReadsAtMost, CostsAtMost, Proceeds, Reads};
ghost use Rattle.journal.specs.Maps.{block_in};
ghost use Rattle.recovery.specs.Label.{is_size};
ghost use Rattle.recovery.specs.declared.fault.OpenFault.TheVariants.{BadSize, Device};
ghost use Rattle.shadow.specs.Label.{blocks_in, is_known_size};
ghost use Rattle.shadow.specs.Upgraded.{known_blocks};
ghost use Rattle.stores.specs.Images.{HasMeaning, meaning};
ghost use Rattle.stores.specs.Opened.{image_refusal};
ghost use Rattle.image_care.specs.Looked.{reads_to_look};
ghost use Rattle.image_care.specs.View.{found_by, sectors_of};

use crate::looking::look;
use crate::view::View;
use journal::read_pair;
use recovery::OpenFault;
use sector_disk::{DeviceFault, SectorDevice};

/// Reads the 1,024 bytes of a block of an image as an opening would recover it, by reads alone: nothing is written, and
/// nothing synced. `None` where the image has no such block. Takes no memory.
///
/// It refuses, in this order, what `look` does, and does so before it looks at the block's number: BadSize with no
/// device call, NoLabel, OtherVersion, WrongCount and Damaged. Device comes where a read failed.
/// Rule: DECISIONS, Lines and the program; IMAGE, For another writer; IMAGE, Layout 3.
pub fn read_block<D: SectorDevice>(
    device: &mut D,
    block: u16,
) -> Result<Option<[u8; 1024]>, OpenFault>
    // A block is had just where the image has it.
    ensures there { IfOk result (λ found. MatchOption found
        (known_blocks (D.sector_count device.old) ≤ block) (λ _. block < known_blocks (D.sector_count device.old))) }
    // Its bytes are those that the image means.
    ensures bytes { IsTrue (D.keeps_model device.old) → IfOk result (λ found. IfSome found (λ bytes.
        bytes ≡ block_in (meaning (D.sector_count device.old) (D.disk device.old).content) block)) }
    // What is read of has a meaning, and what has one is refused only by a fault of the device.
    ensures meaning { IsTrue (D.keeps_model device.old)
        → OnOk result (HasMeaning (D.sector_count device.old) (D.disk device.old).content) }
    ensures good { IsTrue (D.keeps_model device.old) → is_known_size (D.sector_count device.old) ≡ true
        → HasMeaning (D.sector_count device.old) (D.disk device.old).content → IfErr result (λ e. e ≡ Device) }

    // Each refusal tells the first test that the image fails.
    ensures exact { IsTrue (D.keeps_model device.old) → MatchResult result
        (λ _. image_refusal (D.sector_count device.old) (D.disk device.old).content ≡ None)
        (λ e. (e ≡ Device) ⊎ (image_refusal (D.sector_count device.old) (D.disk device.old).content ≡ Some e)) }
    ensures sized { OnOk result (is_known_size (D.sector_count device.old) ≡ true) }
    ensures bad_size { IfErr result (λ e. MatchBool (is_known_size (D.sector_count device.old)) (e ≢ BadSize) (e ≡ BadSize)) }
    ensures unasked { IfErr result (λ e. e ≡ BadSize → device.new ≡ device.old) }
    ensures device { IfErr result (λ e. e ≡ Device → D.failures device.new ≡ count_up (D.failures device.old)) }
    ensures refused { IfErr result (λ e. e ≢ Device → D.failures device.new ≡ D.failures device.old) }
    ensures well { OnOk result (D.failures device.new ≡ D.failures device.old) }

    // Nothing is written or synced, and a stop at any moment leaves what one before could leave.
    ensures disk { IsTrue (D.keeps_model device.old) → D.disk device.new ≡ D.disk device.old }
    ensures stops { IsTrue (D.keeps_model device.old)
        → StopsLeave D.SectorDevice device.old device.new (MayLeave (D.disk device.old)) }
    ensures passes { Proceeds D.SectorDevice device.old device.new }
    ensures begins { BeginsAtMost D.SectorDevice device.old device.new 0 0 }
    // What an opening looks at is read, and the block. Of layout 3 the size alone tells how much that is.
    ensures reads { IsTrue (D.keeps_model device.old)
        → ReadsAtMost D.SectorDevice device.old device.new
        (reads_to_look (D.sector_count device.old) (D.disk device.old).content + 2) }
    ensures few { is_size (D.sector_count device.old) ≡ false
        → ReadsAtMost D.SectorDevice device.old device.new (3 * blocks_in (D.sector_count device.old) + 5) }
{
    let view = look(device)?;
    take_block(device, &view, block)
}

// A block of an image whose blocks stand there, where the image has it.
fn take_block<D: SectorDevice>(
    device: &mut D,
    view: &View,
    b: u16,
) -> Result<Option<[u8; 1024]>, OpenFault>
    requires size { D.sector_count device.old ≡ sectors_of view.now }
    ensures there { IfOk result (λ found. MatchOption found (view.now.blocks.number ≤ b) (λ _. b < view.now.blocks.number)) }
    ensures bytes { IsTrue (D.keeps_model device.old) → IfOk result (λ found. IfSome found (λ bytes.
        bytes ≡ found_by view.now (D.disk device.old).content b)) }
    ensures fault { IfErr result (λ e. e ≡ Device) }
    ensures device { IfErr result (λ _. D.failures device.new ≡ count_up (D.failures device.old)) }
    ensures well { OnOk result (D.failures device.new ≡ D.failures device.old) }
    ensures disk { IsTrue (D.keeps_model device.old) → D.disk device.new ≡ D.disk device.old }
    ensures stops { IsTrue (D.keeps_model device.old)
        → StopsLeave D.SectorDevice device.old device.new (MayLeave (D.disk device.old)) }
    ensures passes { Proceeds D.SectorDevice device.old device.new }
    ensures costs { CostsAtMost D.SectorDevice device.old device.new 0 0 2 }
{
    if b >= view.blocks.number {
        return Ok(None);
    }
    match read_found(device, view, b) {
        Ok(bytes) => Ok(Some(bytes)),
        Err(_) => Err(OpenFault::Device),
    }
}

/// Reads the 1,024 bytes of a block that is there, where a look at the image has found it, by two reads: nothing is
/// written, and nothing synced. An error where a read failed. Takes no memory.
/// Rule: IMAGE, For another writer; IMAGE, Layout 3.
pub fn read_found<D: SectorDevice>(
    device: &mut D,
    view: &View,
    b: u16,
) -> Result<[u8; 1024], DeviceFault>
    requires size { D.sector_count device.old ≡ sectors_of view.now }
    requires below { b < view.now.blocks.number }
    ensures bytes { IsTrue (D.keeps_model device.old)
        → IfOk result (λ bytes. bytes ≡ found_by view.now (D.disk device.old).content b) }
    ensures reads { Reads D.SectorDevice device.old device.new 2 result }
{
    let mut bytes = [0; 1024];
    read_pair(device, view.place_of(b), &mut bytes)?;
    Ok(bytes)
}
