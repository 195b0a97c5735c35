//! Many blocks of an image are printed: of one whose file can't be opened for writing, or is in use, by reads alone.
//! Rule: MANUAL, forth83 export IMAGE FIRST LAST [--raw].
ghost use Rattle.std.specs.Prelude.{◌≡◌, ◌≢◌, ◌⊎◌, ◌<◌, ◌≤◌, ◌-◌, ◌+◌, ◌*◌, Err, IsTrue, IfErr, OnOk};
ghost use Rattle.std.specs.Io.KnownBytes.{Appends};
ghost use Rattle.sector_disk.specs.Counting.{count_up};
ghost use Rattle.journal.specs.Calls.{ReadsAtMost};
ghost use Rattle.journal.specs.Maps.{Maps};
ghost use Rattle.recovery.specs.Steps.{OnlyRead};
ghost use Rattle.image_care.specs.View.{found_by, sectors_of};
ghost use Rattle.terminal.specs.Care.{AreShown};
ghost use Rattle.terminal.specs.Failed.{ShowingFails};
ghost use Rattle.terminal.specs.Shown.{blocks_refusal};
ghost use Rattle.terminal.specs.Transfer.{IsFound, exported, exports};

use super::exporting::print_bytes;
use super::failure::Failure;
use super::standing::export_anyway;
use command_line::orders::Form;
use image_care::{View, look, read_found};
use sector_disk::SectorDevice;
use sessions::streams::flush;
use std::io::Write;

/// Prints the blocks of the image on a device from the one to the other, by reads alone. Where a look at an image of
/// layout 3 fails by a read they are printed from where they stand. Its failures are those of an opening, the first
/// that holds, then `NoBlock` where one of the blocks isn't there, or `last` comes before `first`: nothing is printed
/// then. `Device` where a read failed and one of the blocks isn't had, and `CannotWrite` where the output failed: then
/// some may be printed.
pub fn show_blocks_over<D: SectorDevice, W: Write>(
    device: &mut D,
    first: u16,
    last: u16,
    form: Form,
    output: &mut W,
) -> Result<(), Failure>
    ensures shows { OnOk result (AreShown D.SectorDevice form first last (W.contents output.old) (W.contents output.new)
        device.old device.new) }
    // Each refusal tells the first test that fails: those of an opening, and then whether the blocks are there. A fault of
    // the device is told only where one of its calls failed; where one did, and blocks were printed from where they stand,
    // a failure of the output is told.
    ensures failed { IfErr result (λ failure. ShowingFails D.SectorDevice (blocks_refusal first last) first last failure
        device.old device.new) }
    // Where the image is refused, or a block isn't there, nothing was printed.
    ensures unprinted { IfErr result (λ e. e ≢ Failure.Device → e ≢ Failure.CannotWrite → output.new ≡ output.old) }
{
    match look(device) {
        Ok(view) => show_found(device, &view, first, last, form, output),
        Err(fault) => export_anyway(Failure::from(fault), device, first, last, form, output),
    }
}

/// Prints the blocks from the one to the other, of an image whose blocks stand there.
fn show_found<D: SectorDevice, W: Write>(
    device: &mut D,
    view: &View,
    first: u16,
    last: u16,
    form: Form,
    output: &mut W,
) -> Result<(), Failure>
    requires size { D.sector_count device.old ≡ sectors_of view.now }
    ensures ok { IsTrue (D.keeps_model device.old) → (m : Maps) → IsFound view.now (D.disk device.old).content m
        → OnOk result (Appends (W.contents output.old) (W.contents output.new) (exports form m first (last + 1 - first))) }
    ensures ordered { OnOk result (first ≤ last) }
    ensures there { OnOk result (last < view.now.blocks.number) }
    ensures only { IfErr result (λ e. (e ≡ Failure.Device) ⊎ (e ≡ Failure.CannotWrite) ⊎ (e ≡ Failure.NoBlock)) }
    ensures no_block { IfErr result (λ e. e ≡ Failure.NoBlock → (last < first) ⊎ (view.now.blocks.number ≤ last)) }
    ensures unprinted { IfErr result (λ e. e ≡ Failure.NoBlock → output.new ≡ output.old) }
    ensures device { IfErr result (λ e. e ≡ Failure.Device → D.failures device.new ≡ count_up (D.failures device.old)) }
    ensures refused { IfErr result (λ e. e ≢ Failure.Device → D.failures device.new ≡ D.failures device.old) }
    ensures well { OnOk result (D.failures device.new ≡ D.failures device.old) }
    ensures only_read { OnlyRead D.SectorDevice device.old device.new }
    ensures reads { ReadsAtMost D.SectorDevice device.old device.new (2 * (last + 1 - first)) }
{
    if last < first {
        return Err(Failure::NoBlock);
    }
    if last >= view.blocks.number {
        return Err(Failure::NoBlock);
    }
    print_found(device, view, first, last + 1, form, output)?;
    flush(output).map_err(|_| Failure::CannotWrite)
}

/// Prints the blocks from `first` on that stand before `past`.
fn print_found<D: SectorDevice, W: Write>(
    device: &mut D,
    view: &View,
    first: u16,
    past: u16,
    form: Form,
    output: &mut W,
) -> Result<(), Failure>
    requires size { D.sector_count device.old ≡ sectors_of view.now }
    requires ordered { first ≤ past }
    requires there { past ≤ view.now.blocks.number }
    ensures ok { IsTrue (D.keeps_model device.old) → (m : Maps) → IsFound view.now (D.disk device.old).content m
        → OnOk result (Appends (W.contents output.old) (W.contents output.new) (exports form m first (past - first))) }
    ensures only { IfErr result (λ e. (e ≡ Failure.Device) ⊎ (e ≡ Failure.CannotWrite)) }
    ensures device { IfErr result (λ e. e ≡ Failure.Device → D.failures device.new ≡ count_up (D.failures device.old)) }
    ensures refused { IfErr result (λ e. e ≢ Failure.Device → D.failures device.new ≡ D.failures device.old) }
    ensures well { OnOk result (D.failures device.new ≡ D.failures device.old) }
    ensures only_read { OnlyRead D.SectorDevice device.old device.new }
    ensures reads { ReadsAtMost D.SectorDevice device.old device.new (2 * (past - first)) }
{
    for block in first..past {
        print_block(device, view, block, form, output)?;
    }
    Ok(())
}

/// Prints a block that is there.
fn print_block<D: SectorDevice, W: Write>(
    device: &mut D,
    view: &View,
    block: u16,
    form: Form,
    output: &mut W,
) -> Result<(), Failure>
    requires size { D.sector_count device.old ≡ sectors_of view.now }
    requires below { block < view.now.blocks.number }
    ensures ok { IsTrue (D.keeps_model device.old) → OnOk result (Appends
        (W.contents output.old) (W.contents output.new) (exported form (found_by view.now (D.disk device.old).content block))) }
    ensures only { IfErr result (λ e. (e ≡ Failure.Device) ⊎ (e ≡ Failure.CannotWrite)) }
    ensures device { IfErr result (λ e. e ≡ Failure.Device → D.failures device.new ≡ count_up (D.failures device.old)) }
    ensures refused { IfErr result (λ e. e ≢ Failure.Device → D.failures device.new ≡ D.failures device.old) }
    ensures well { OnOk result (D.failures device.new ≡ D.failures device.old) }
    ensures only_read { OnlyRead D.SectorDevice device.old device.new }
    ensures reads { ReadsAtMost D.SectorDevice device.old device.new 2 }
{
    match read_found(device, view, block) {
        Ok(bytes) => print_bytes(&bytes, form, output),
        Err(_) => Err(Failure::Device),
    }
}
