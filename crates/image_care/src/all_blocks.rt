// All blocks of an image are read, by reads alone.
ghost use Rattle.std.specs.Prelude.{◌≡◌, ◌≢◌, ◌⊎◌, ◌<◌, ◌+◌, ◌*◌, ◌^◌, ◌++◌, true, false, None, Some, IsTrue, OnOk, IfOk, IfErr, MatchBool, MatchResult, option_map, vec_len};
ghost use Rattle.std.specs.List.{concat};
ghost use Rattle.sector_disk.specs.Counting.{count_up};
ghost use Rattle.journal.specs.Calls.{ReadsAtMost};
ghost use Rattle.journal.specs.Images.{pair_at};
ghost use Rattle.recovery.specs.Label.{is_size};
ghost use Rattle.recovery.specs.Steps.{OnlyRead};
ghost use Rattle.recovery.specs.declared.fault.OpenFault.TheVariants.{BadSize, Device};
ghost use Rattle.shadow.specs.Label.{blocks_in, is_known_size};
ghost use Rattle.shadow.specs.Upgraded.{known_blocks};
ghost use Rattle.stores.specs.Images.{HasMeaning, meaning};
ghost use Rattle.stores.specs.Opened.{image_refusal};
ghost use Rattle.image_care.specs.Examined.{joined_below};
ghost use Rattle.image_care.specs.Looked.{reads_to_look};
ghost use Rattle.image_care.specs.View.{found_by, sectors_of};
ghost use Rattle.image_care.specs.declared.all_blocks.ReadFault.TheVariants.{Refused, NoMemory};

use crate::looking::look;
use crate::view::View;
use journal::read_pair;
use recovery::OpenFault;
use sector_disk::SectorDevice;
use std::alloc::Global;

/// Why the blocks of an image aren't had.
#[derive(Clone, Copy, Debug, PartialEq, Eq)]
pub enum ReadFault {
    /// The image is refused, or a read of it failed.
    Refused(OpenFault),
    /// There is no memory for them.
    NoMemory,
}

/// The bytes of all blocks of an image, 1,024 each, as an opening would recover them, block 0 first, by reads alone:
/// nothing is written, and nothing synced.
///
/// It refuses, in this order, what `look` does: BadSize with no device call, NoLabel, OtherVersion, WrongCount and
/// Damaged. Device comes where a read failed, and NoMemory where there is none for the bytes.
/// Rule: IMAGE, For another writer; IMAGE, Layout 3.
pub fn read_blocks<D: SectorDevice>(alloc: Global, device: &mut D) -> Result<Vec<u8>, ReadFault>
    // The bytes are those that the image means.
    ensures bytes { IsTrue (D.keeps_model device.old) → IfOk result (λ bytes.
        bytes.items ≡ concat (meaning (D.sector_count device.old) (D.disk device.old).content)) }
    ensures length { IfOk result (λ bytes. vec_len bytes ≡ 1024 * known_blocks (D.sector_count device.old)) }
    ensures meaning { IsTrue (D.keeps_model device.old)
        → OnOk result (HasMeaning (D.sector_count device.old) (D.disk device.old).content) }

    // Each refusal tells the first test that the image fails.
    ensures exact { IsTrue (D.keeps_model device.old) → MatchResult result
        (λ _. image_refusal (D.sector_count device.old) (D.disk device.old).content ≡ None)
        (λ e. (e ≡ NoMemory) ⊎ (e ≡ Refused Device)
        ⊎ (option_map Refused (image_refusal (D.sector_count device.old) (D.disk device.old).content) ≡ Some e)) }
    ensures sized { OnOk result (is_known_size (D.sector_count device.old) ≡ true) }
    ensures bad_size { IfErr result (λ e. MatchBool (is_known_size (D.sector_count device.old))
        (e ≢ Refused BadSize) (e ≡ Refused BadSize)) }
    ensures unasked { IfErr result (λ e. e ≡ Refused BadSize → device.new ≡ device.old) }
    ensures device { IfErr result (λ e. e ≡ Refused Device → D.failures device.new ≡ count_up (D.failures device.old)) }
    ensures refused { IfErr result (λ e. e ≢ Refused Device → D.failures device.new ≡ D.failures device.old) }
    ensures well { OnOk result (D.failures device.new ≡ D.failures device.old) }

    // Nothing is written or synced, and a stop at any moment leaves what one before could leave.
    ensures only_read { OnlyRead D.SectorDevice device.old device.new }
    // What an opening looks at is read, and each block once more. Of layout 3 the size alone tells how much that is.
    ensures reads { IsTrue (D.keeps_model device.old)
        → ReadsAtMost D.SectorDevice device.old device.new
        (reads_to_look (D.sector_count device.old) (D.disk device.old).content + 2 * known_blocks (D.sector_count device.old)) }
    ensures few { is_size (D.sector_count device.old) ≡ false
        → ReadsAtMost D.SectorDevice device.old device.new (5 * blocks_in (D.sector_count device.old) + 3) }
{
    match look(device) {
        Ok(view) => collect(alloc, device, &view),
        Err(fault) => Err(ReadFault::Refused(fault)),
    }
}

// The blocks of an image that stand there, one after another.
fn collect<D: SectorDevice>(
    alloc: Global,
    device: &mut D,
    view: &View,
) -> Result<Vec<u8>, ReadFault>
    requires size { D.sector_count device.old ≡ sectors_of view.now }
    ensures bytes { IsTrue (D.keeps_model device.old) → IfOk result (λ bytes.
        bytes.items ≡ joined_below (found_by view.now (D.disk device.old).content) view.now.blocks.number) }
    ensures length { IfOk result (λ bytes. vec_len bytes ≡ 1024 * view.now.blocks.number) }
    ensures only { IfErr result (λ e. (e ≡ NoMemory) ⊎ (e ≡ Refused Device)) }
    ensures device { IfErr result (λ e. e ≡ Refused Device → D.failures device.new ≡ count_up (D.failures device.old)) }
    ensures refused { IfErr result (λ e. e ≢ Refused Device → D.failures device.new ≡ D.failures device.old) }
    ensures well { OnOk result (D.failures device.new ≡ D.failures device.old) }
    ensures only_read { OnlyRead D.SectorDevice device.old device.new }
    ensures reads { ReadsAtMost D.SectorDevice device.old device.new (2 * view.now.blocks.number) }
{
    let mut bytes = Vec::new(alloc);
    for b in 0..view.blocks.number {
        append_pair(device, view.place_of(b), &mut bytes)?;
    }
    Ok(bytes)
}

// Reads two sectors in a row, the bytes of a block, and appends them.
fn append_pair<D: SectorDevice>(
    device: &mut D,
    k: u32,
    bytes: &mut Vec<u8>,
) -> Result<(), ReadFault>
    requires small { k < 2 ^ 16 }
    requires within { k + 1 < D.sector_count device.old }
    ensures bytes { IsTrue (D.keeps_model device.old)
        → OnOk result (bytes.new.items ≡ bytes.old.items ++ pair_at (D.disk device.old).content k) }
    ensures length { OnOk result (vec_len bytes.new ≡ vec_len bytes.old + 1024) }
    ensures only { IfErr result (λ e. (e ≡ NoMemory) ⊎ (e ≡ Refused Device)) }
    ensures device { IfErr result (λ e. e ≡ Refused Device → D.failures device.new ≡ count_up (D.failures device.old)) }
    ensures refused { IfErr result (λ e. e ≢ Refused Device → D.failures device.new ≡ D.failures device.old) }
    ensures well { OnOk result (D.failures device.new ≡ D.failures device.old) }
    ensures only_read { OnlyRead D.SectorDevice device.old device.new }
    ensures reads { ReadsAtMost D.SectorDevice device.old device.new 2 }
{
    let mut pair = [0; 1024];
    match read_pair(device, k, &mut pair) {
        Ok(()) => append(bytes, &pair),
        Err(_) => Err(ReadFault::Refused(OpenFault::Device)),
    }
}

// Appends the bytes of a block.
fn append(bytes: &mut Vec<u8>, block: &[u8; 1024]) -> Result<(), ReadFault>
    ensures bytes { OnOk result (bytes.new.items ≡ bytes.old.items ++ block.now) }
    ensures length { OnOk result (vec_len bytes.new ≡ vec_len bytes.old + 1024) }
    ensures only { IfErr result (λ e. e ≡ NoMemory) }
{
    match bytes.extend_from_slice(block.as_slice()) {
        Ok(()) => Ok(()),
        Err(_) => Err(ReadFault::NoMemory),
    }
}
