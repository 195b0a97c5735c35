//! A block of an image is printed: of one whose file can't be opened for writing, or is in use, by reads alone.
//! Rule: MANUAL, forth83 list IMAGE BLOCK.
ghost use Rattle.std.specs.Prelude.{◌≡◌, ◌≢◌, ◌⊎◌, ◌<◌, ◌≤◌, ◌+◌, Some, None, IsTrue, IfErr, MatchResult, OnOk, Err};
ghost use Rattle.sector_disk.specs.Counting.{count_up};
ghost use Rattle.terminal.specs.Care.{IsShown};
ghost use Rattle.terminal.specs.Failed.{ListShowingFails};
ghost use Rattle.recovery.specs.Steps.{OnlyRead};
ghost use Rattle.terminal.specs.Shown.{ShowsImage, block_refusal};

use super::checking::print;
use super::failure::Failure;
use super::screen::listing;
use super::standing::list_anyway;
use image_care::read_block;
use sector_disk::SectorDevice;
use std::io::Write;

/// Prints a block of the image on a device, by reads alone, as `show_over`; and where a read of an image of layout 3
/// failed, from where the block stands. Its failures are those of `show_over`; `Device` only where the block isn't had
/// from there either.
/// Rule: MANUAL, forth83 list IMAGE BLOCK; IMAGE, A sector that can't be read.
pub fn show_through<D: SectorDevice, W: Write>(
    device: &mut D,
    block: u16,
    output: &mut W,
) -> Result<(), Failure>
    ensures shows { OnOk result (IsShown D.SectorDevice block (W.contents output.old) (W.contents output.new)
        device.old device.new) }
    ensures failed { IfErr result (λ failure. ListShowingFails D.SectorDevice block failure device.old device.new) }
    // Where nothing is told of the block, nothing was printed.
    ensures unprinted { IfErr result (λ e. e ≢ Failure.CannotWrite → output.new ≡ output.old) }
{
    match show_over(device, block, output) {
        Ok(()) => Ok(()),
        Err(failure) => list_anyway(failure, device, block, output),
    }
}

/// Prints a block of the image on a device, by reads alone. Where it is refused nothing is printed. Its failures are
/// those of an opening, the first that holds, then `NoBlock` where there is no such block; `Device` where a call
/// failed, and `CannotWrite` where the output failed.
pub fn show_over<D: SectorDevice, W: Write>(
    device: &mut D,
    block: u16,
    output: &mut W,
) -> Result<(), Failure>
    ensures shows { OnOk result (ShowsImage D.SectorDevice block (W.contents output.old) (W.contents output.new)
        device.old device.new) }
    // Each refusal tells the first test that fails: those of an opening, and then whether the block is there.
    ensures exact { IsTrue (D.keeps_model device.old) → MatchResult result
        (λ _. block_refusal block (D.sector_count device.old) (D.disk device.old).content ≡ None)
        (λ e. (e ≡ Failure.Device) ⊎ (e ≡ Failure.CannotWrite)
        ⊎ (block_refusal block (D.sector_count device.old) (D.disk device.old).content ≡ Some e)) }
    // A fault of the device is told just where one of its calls failed.
    ensures device { IfErr result (λ e. e ≡ Failure.Device → D.failures device.new ≡ count_up (D.failures device.old)) }
    ensures refused { IfErr result (λ e. e ≢ Failure.Device → D.failures device.new ≡ D.failures device.old) }
    // Where nothing is told of the block, nothing was printed.
    ensures unprinted { IfErr result (λ e. e ≢ Failure.CannotWrite → output.new ≡ output.old) }
    ensures only_read { OnlyRead D.SectorDevice device.old device.new }
{
    match read_block(device, block) {
        Ok(Some(bytes)) => print(listing(&bytes).as_slice(), output),
        Ok(None) => Err(Failure::NoBlock),
        Err(fault) => Err(Failure::from(fault)),
    }
}
