//! Which blocks of a damaged image are damaged is told, and nothing of it is changed.
ghost use Rattle.std.specs.Prelude.{◌≡◌, ◌≢◌, ◌⊎◌, ◌<◌, ◌++◌, Some, None, string_bytes, true};
ghost use Rattle.std.specs.Prelude.{IsTrue, IfErr, IfOk, OnOk};
ghost use Rattle.std.specs.Io.KnownBytes.{Appends};
ghost use Rattle.sector_disk.specs.Counting.{count_up};
ghost use Rattle.recovery.specs.Steps.{OnlyRead};
ghost use Rattle.shadow.specs.Label.{blocks_in, is_size};
ghost use Rattle.image_care.specs.Standing.{standing_of};
ghost use Rattle.terminal.specs.Damage.{damage_line, damage_report};
ghost use Rattle.command_line.specs.declared.orders.Layout.TheVariants.{Two, Three};

use super::checking::print;
use super::failure::Failure;
use command_line::orders::Layout;
use image_care::pages::{Standing, find_standing};
use journal::pages::layout::blocks_of_size;
use sector_disk::SectorDevice;
use std::alloc::{AllocError, Global};
use std::io::Write;

/// Prints which blocks of a damaged image are damaged, where its layout tells.
pub(super) fn tell_damage<D: SectorDevice, W: Write>(
    alloc: Global,
    device: &mut D,
    layout: Layout,
    output: &mut W,
) -> Result<(), Failure>
    ensures ok { IsTrue (D.keeps_model device.old) → layout ≡ Three
        → OnOk result (Appends (W.contents output.old) (W.contents output.new)
        (damage_report (D.sector_count device.old) (D.disk device.old).content)) }
    ensures silent { layout ≡ Two → output.new ≡ output.old }
    ensures only { IfErr result (λ e. (e ≡ Failure.Device) ⊎ (e ≡ Failure.NoMemory) ⊎ (e ≡ Failure.CannotWrite)) }
    ensures device { IfErr result (λ e. e ≡ Failure.Device → D.failures device.new ≡ count_up (D.failures device.old)) }
    ensures refused { IfErr result (λ e. e ≢ Failure.Device → D.failures device.new ≡ D.failures device.old) }
    ensures well { OnOk result (D.failures device.new ≡ D.failures device.old) }
    ensures unprinted { IfErr result (λ e. e ≢ Failure.CannotWrite → output.new ≡ output.old) }
    ensures only_read { OnlyRead D.SectorDevice device.old device.new }
{
    match layout {
        Layout::Two => Ok(()),
        Layout::Three => print_damage(alloc, device, output),
    }
}

/// Prints which blocks of a damaged image of layout 3 are damaged.
fn print_damage<D: SectorDevice, W: Write>(
    alloc: Global,
    device: &mut D,
    output: &mut W,
) -> Result<(), Failure>
    ensures ok { IsTrue (D.keeps_model device.old) → OnOk result (Appends (W.contents output.old) (W.contents output.new)
        (damage_report (D.sector_count device.old) (D.disk device.old).content)) }
    ensures only { IfErr result (λ e. (e ≡ Failure.Device) ⊎ (e ≡ Failure.NoMemory) ⊎ (e ≡ Failure.CannotWrite)) }
    ensures device { IfErr result (λ e. e ≡ Failure.Device → D.failures device.new ≡ count_up (D.failures device.old)) }
    ensures refused { IfErr result (λ e. e ≢ Failure.Device → D.failures device.new ≡ D.failures device.old) }
    ensures well { OnOk result (D.failures device.new ≡ D.failures device.old) }
    ensures unprinted { IfErr result (λ e. e ≢ Failure.CannotWrite → output.new ≡ output.old) }
    ensures only_read { OnlyRead D.SectorDevice device.old device.new }
{
    match damage_of(alloc, device) {
        Ok(text) => print(text.as_bytes(), output),
        Err(failure) => Err(failure),
    }
}

/// What is told of the blocks of a damaged image, as lines.
fn damage_of<D: SectorDevice>(alloc: Global, device: &mut D) -> Result<String, Failure>
    ensures ok { IsTrue (D.keeps_model device.old) → IfOk result (λ text. string_bytes text
        ≡ damage_report (D.sector_count device.old) (D.disk device.old).content) }
    ensures only { IfErr result (λ e. (e ≡ Failure.Device) ⊎ (e ≡ Failure.NoMemory)) }
    ensures device { IfErr result (λ e. e ≡ Failure.Device → D.failures device.new ≡ count_up (D.failures device.old)) }
    ensures refused { IfErr result (λ e. e ≢ Failure.Device → D.failures device.new ≡ D.failures device.old) }
    ensures well { OnOk result (D.failures device.new ≡ D.failures device.old) }
    ensures only_read { OnlyRead D.SectorDevice device.old device.new }
{
    let mut text = String::new(alloc);
    let Some(blocks) = blocks_of_size(device.sectors()) else {
        return Ok(text);
    };
    for b in 0..blocks {
        add_damage(device, b, &mut text)?;
    }
    Ok(text)
}

/// Adds what is told of a block that is there.
fn add_damage<D: SectorDevice>(device: &mut D, b: u16, text: &mut String) -> Result<(), Failure>
    requires size { is_size (D.sector_count device.old) ≡ true }
    requires there { b < blocks_in (D.sector_count device.old) }
    ensures ok { IsTrue (D.keeps_model device.old) → OnOk result (string_bytes text.new
        ≡ string_bytes text.old ++ damage_line b (standing_of (D.disk device.old).content b)) }
    ensures only { IfErr result (λ e. (e ≡ Failure.Device) ⊎ (e ≡ Failure.NoMemory)) }
    ensures device { IfErr result (λ e. e ≡ Failure.Device → D.failures device.new ≡ count_up (D.failures device.old)) }
    ensures refused { IfErr result (λ e. e ≢ Failure.Device → D.failures device.new ≡ D.failures device.old) }
    ensures well { OnOk result (D.failures device.new ≡ D.failures device.old) }
    ensures only_read { OnlyRead D.SectorDevice device.old device.new }
{
    match find_standing(device, b) {
        Ok(Some(standing)) => add_damage_line(text, b, standing).map_err(|_| Failure::NoMemory),
        Ok(None) => Ok(()),
        Err(fault) => Err(Failure::from(fault)),
    }
}

/// Adds what is told of a block that stands there.
pub(super) fn add_damage_line(
    text: &mut String,
    b: u16,
    standing: Standing,
) -> Result<(), AllocError>
    ensures { OnOk result (string_bytes text.new ≡ string_bytes text.old ++ damage_line b standing) }
{
    match standing {
        Standing::Current => Ok(()),
        Standing::Other => writeln!(text, "block {b}: damaged, whole in its other place"),
        Standing::Nowhere => writeln!(text, "block {b}: damaged in both places"),
    }
}
