//! Blocks of an image of layout 3 are printed from where they stand, although a call of its device failed: no other
//! block has to be read for them.
//! Rule: MANUAL, forth83 list IMAGE BLOCK; IMAGE, A sector that can't be read.
ghost use Rattle.std.specs.Prelude.{◌≡◌, ◌≢◌, ◌⊎◌, ◌<◌, ◌≤◌, ◌-◌, ◌+◌, ◌*◌, ◌&&◌, nat_le, nat_lt, true, false, IsTrue, IfErr, OnOk, IfSome, OnSome, IfNone};
ghost use Rattle.std.specs.Io.KnownBytes.{Appends};
ghost use Rattle.journal.specs.Calls.{ReadsAtMost};
ghost use Rattle.journal.specs.Maps.{contents};
ghost use Rattle.recovery.specs.Steps.{OnlyRead};
ghost use Rattle.shadow.specs.Label.{blocks_in, is_size};
ghost use Rattle.image_care.specs.Standing.{stands_whole};
ghost use Rattle.terminal.specs.Done.{maps_on};
ghost use Rattle.terminal.specs.Failed.{NotHad, NotHadOf, NotStanding, StandingFails};
ghost use Rattle.terminal.specs.Standing.{AllStand, ExportsStanding, OneIsDamaged, ShowsStanding, has_pages};
ghost use Rattle.terminal.specs.Transfer.{exported, exports};

use super::checking::print;
use super::exporting::print_bytes;
use super::failure::Failure;
use super::screen::listing;
use super::unread_sectors::is_of_device;
use command_line::orders::Form;
use image_care::pages::read_current;
use journal::pages::layout::blocks_of_size;
use sector_disk::SectorDevice;
use sessions::streams::flush;
use std::io::Write;

/// Prints a block of an image that wasn't opened, or of which a look failed: where that was by a call of its device,
/// from where the block stands. Else nothing is done, and the failure is told again. `Device` where the block isn't had
/// so, and then nothing is printed; `CannotWrite` where the output failed.
/// Rule: MANUAL, forth83 list IMAGE BLOCK.
pub(super) fn list_anyway<D: SectorDevice, W: Write>(
    failure: Failure,
    device: &mut D,
    block: u16,
    output: &mut W,
) -> Result<(), Failure>
    ensures of_device { OnOk result (failure ≡ Failure.Device) }
    ensures listed { OnOk result (ShowsStanding D.SectorDevice block (W.contents output.old) (W.contents output.new)
        device.old device.new) }
    ensures failed { IfErr result (λ e. NotStanding D.SectorDevice block block failure e device.old device.new) }
    // Nothing was printed, but where the output failed.
    ensures unprinted { IfErr result (λ e. e ≢ Failure.CannotWrite → output.new ≡ output.old) }
    // Whatever the answer is, nothing was written or synced.
    ensures only_read { OnlyRead D.SectorDevice device.old device.new }
{
    // of an image that is refused nothing is printed
    if is_of_device(failure) {
        list_standing(device, block, output)
    } else {
        Err(failure)
    }
}

/// Prints a block from where it stands.
fn list_standing<D: SectorDevice, W: Write>(
    device: &mut D,
    block: u16,
    output: &mut W,
) -> Result<(), Failure>
    ensures listed { OnOk result (ShowsStanding D.SectorDevice block (W.contents output.old) (W.contents output.new)
        device.old device.new) }
    ensures failed { IfErr result (λ e. StandingFails D.SectorDevice block block e device.old device.new) }
    ensures unprinted { IfErr result (λ e. e ≢ Failure.CannotWrite → output.new ≡ output.old) }
    ensures only_read { OnlyRead D.SectorDevice device.old device.new }
{
    match read_current(device, block) {
        Ok(Some(bytes)) => print(listing(&bytes).as_slice(), output),
        // the failure that came first is told again
        Ok(None) => Err(Failure::Device),
        Err(_) => Err(Failure::Device),
    }
}

/// Prints the blocks from the one to the other of an image that wasn't opened, or of which a look failed: where that
/// was by a call of its device, from where they stand. Else nothing is done, and the failure is told again. `Device`
/// where one of them isn't had so, and `CannotWrite` where the output failed: then those before it may be printed.
/// Rule: MANUAL, forth83 export IMAGE FIRST LAST [--raw].
pub(super) fn export_anyway<D: SectorDevice, W: Write>(
    failure: Failure,
    device: &mut D,
    first: u16,
    last: u16,
    form: Form,
    output: &mut W,
) -> Result<(), Failure>
    ensures of_device { OnOk result (failure ≡ Failure.Device) }
    ensures printed { OnOk result (ExportsStanding D.SectorDevice form first last (W.contents output.old) (W.contents output.new)
        device.old device.new) }
    ensures failed { IfErr result (λ e. NotStanding D.SectorDevice first last failure e device.old device.new) }
    // Some blocks may be printed only where one of them wasn't had, or the output failed.
    ensures unprinted { IfErr result (λ e. e ≢ Failure.Device → e ≢ Failure.CannotWrite → output.new ≡ output.old) }
    // Whatever the answer is, nothing was written or synced.
    ensures only_read { OnlyRead D.SectorDevice device.old device.new }
{
    // of an image that is refused no block is printed
    if is_of_device(failure) {
        export_standing(device, first, last, form, output)
    } else {
        Err(failure)
    }
}

/// Prints the blocks from the one to the other from where they stand. Where the image is of another layout, or one of
/// them isn't there, no call of the device is made.
fn export_standing<D: SectorDevice, W: Write>(
    device: &mut D,
    first: u16,
    last: u16,
    form: Form,
    output: &mut W,
) -> Result<(), Failure>
    ensures sized { OnOk result (is_size (D.sector_count device.old) ≡ true) }
    ensures ordered { OnOk result (first ≤ last) }
    ensures there { OnOk result (last < blocks_in (D.sector_count device.old)) }
    ensures printed { IsTrue (D.keeps_model device.old) → OnOk result (Appends (W.contents output.old) (W.contents output.new)
        (exports form (maps_on D.SectorDevice device.old) first (last + 1 - first))) }
    ensures whole { IsTrue (D.keeps_model device.old) → OnOk result (AllStand first (last + 1) (D.disk device.old).content) }
    ensures only { IfErr result (λ e. (e ≡ Failure.Device) ⊎ (e ≡ Failure.CannotWrite)) }
    ensures unhad { IfErr result (λ e. e ≡ Failure.Device
        → NotHadOf D.SectorDevice first last device.old device.new) }
    ensures refused { IfErr result (λ e. e ≢ Failure.Device → D.failures device.new ≡ D.failures device.old) }
    ensures well { OnOk result (D.failures device.new ≡ D.failures device.old) }
    ensures only_read { OnlyRead D.SectorDevice device.old device.new }
    ensures reads { ReadsAtMost D.SectorDevice device.old device.new (5 * (last + 1 - first)) }
{
    match past_last(device.sectors(), first, last) {
        Some(past) => print_standing(device, first, past, form, output),
        None => Err(Failure::Device),
    }
}

/// The number past the last block, where an image on so many sectors is one of layout 3 that has the blocks from the
/// first to the last.
#[tactic(auto, using(crate::proofs::Standings::no_such_size, crate::proofs::Standings::no_such_blocks))]
fn past_last(sectors: u32, first: u16, last: u16) -> Option<u16>
    ensures past { IfSome result (λ past. past ≡ last + 1) }
    ensures sized { OnSome result (is_size sectors ≡ true) }
    ensures ordered { OnSome result (first ≤ last) }
    ensures there { OnSome result (last < blocks_in sectors) }
    ensures none { IfNone result (has_pages first last sectors ≡ false) }
{
    match blocks_of_size(sectors) {
        Some(blocks) => past_below(blocks, first, last),
        None => None,
    }
}

/// The number past the last block, where so many blocks have those from the first to the last.
fn past_below(blocks: u16, first: u16, last: u16) -> Option<u16>
    ensures past { IfSome result (λ past. past ≡ last + 1) }
    ensures ordered { OnSome result (first ≤ last) }
    ensures there { OnSome result (last < blocks) }
    ensures none { IfNone result ((nat_le first last && nat_lt last blocks) ≡ false) }
{
    if first <= last && last < blocks {
        Some(last + 1)
    } else {
        None
    }
}

/// Prints the blocks from `first` on that stand before `past`, which are there, and passes them on.
fn print_standing<D: SectorDevice, W: Write>(
    device: &mut D,
    first: u16,
    past: u16,
    form: Form,
    output: &mut W,
) -> Result<(), Failure>
    requires sized { is_size (D.sector_count device.old) ≡ true }
    requires ordered { first < past }
    requires there { past ≤ blocks_in (D.sector_count device.old) }
    ensures printed { IsTrue (D.keeps_model device.old) → OnOk result (Appends (W.contents output.old) (W.contents output.new)
        (exports form (maps_on D.SectorDevice device.old) first (past - first))) }
    ensures whole { IsTrue (D.keeps_model device.old) → OnOk result (AllStand first past (D.disk device.old).content) }
    ensures only { IfErr result (λ e. (e ≡ Failure.Device) ⊎ (e ≡ Failure.CannotWrite)) }
    ensures unhad { IfErr result (λ e. e ≡ Failure.Device
        → NotHad D.SectorDevice (OneIsDamaged first past) device.old device.new) }
    ensures refused { IfErr result (λ e. e ≢ Failure.Device → D.failures device.new ≡ D.failures device.old) }
    ensures well { OnOk result (D.failures device.new ≡ D.failures device.old) }
    ensures only_read { OnlyRead D.SectorDevice device.old device.new }
    ensures reads { ReadsAtMost D.SectorDevice device.old device.new (5 * (past - first)) }
{
    print_each(device, first, past, form, output)?;
    flush(output).map_err(|_| Failure::CannotWrite)
}

/// Prints the blocks from `first` on that stand before `past`, which are there.
fn print_each<D: SectorDevice, W: Write>(
    device: &mut D,
    first: u16,
    past: u16,
    form: Form,
    output: &mut W,
) -> Result<(), Failure>
    requires sized { is_size (D.sector_count device.old) ≡ true }
    requires ordered { first < past }
    requires there { past ≤ blocks_in (D.sector_count device.old) }
    ensures printed { IsTrue (D.keeps_model device.old) → OnOk result (Appends (W.contents output.old) (W.contents output.new)
        (exports form (maps_on D.SectorDevice device.old) first (past - first))) }
    ensures whole { IsTrue (D.keeps_model device.old) → OnOk result (AllStand first past (D.disk device.old).content) }
    ensures only { IfErr result (λ e. (e ≡ Failure.Device) ⊎ (e ≡ Failure.CannotWrite)) }
    ensures unhad { IfErr result (λ e. e ≡ Failure.Device
        → NotHad D.SectorDevice (OneIsDamaged first past) device.old device.new) }
    ensures refused { IfErr result (λ e. e ≢ Failure.Device → D.failures device.new ≡ D.failures device.old) }
    ensures well { OnOk result (D.failures device.new ≡ D.failures device.old) }
    ensures only_read { OnlyRead D.SectorDevice device.old device.new }
    ensures reads { ReadsAtMost D.SectorDevice device.old device.new (5 * (past - first)) }
{
    for block in first..past {
        print_current(device, block, form, output)?;
    }
    Ok(())
}

/// Prints a block that is there from where it stands.
fn print_current<D: SectorDevice, W: Write>(
    device: &mut D,
    block: u16,
    form: Form,
    output: &mut W,
) -> Result<(), Failure>
    requires sized { is_size (D.sector_count device.old) ≡ true }
    requires there { block < blocks_in (D.sector_count device.old) }
    ensures printed { IsTrue (D.keeps_model device.old) → OnOk result (Appends (W.contents output.old) (W.contents output.new)
        (exported form (contents (maps_on D.SectorDevice device.old) block))) }
    ensures whole { IsTrue (D.keeps_model device.old) → OnOk result (stands_whole (D.disk device.old).content block ≡ true) }
    ensures only { IfErr result (λ e. (e ≡ Failure.Device) ⊎ (e ≡ Failure.CannotWrite)) }
    ensures unhad { IfErr result (λ e. e ≡ Failure.Device
        → NotHad D.SectorDevice (λ image. stands_whole image block ≡ false) device.old device.new) }
    ensures refused { IfErr result (λ e. e ≢ Failure.Device → D.failures device.new ≡ D.failures device.old) }
    ensures well { OnOk result (D.failures device.new ≡ D.failures device.old) }
    ensures only_read { OnlyRead D.SectorDevice device.old device.new }
    ensures reads { ReadsAtMost D.SectorDevice device.old device.new 5 }
{
    match read_current(device, block) {
        Ok(Some(bytes)) => print_bytes(&bytes, form, output),
        // the failure that came first is told again (that there is no such block can't come: it is there)
        Ok(None) => Err(Failure::Device),
        Err(_) => Err(Failure::Device),
    }
}
