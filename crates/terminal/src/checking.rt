//! An image is checked: what it holds is told, and nothing of it is changed.
//! Rule: MANUAL, forth83 check IMAGE.
ghost use Rattle.std.specs.Prelude.{◌≡◌, ◌≢◌, ◌⊎◌, ◌+◌, ◌*◌, ◌++◌, Some, None, string_bytes};
ghost use Rattle.std.specs.Prelude.{IsTrue, IfErr, IfOk, MatchBool, MatchResult, OnOk, option_map};
ghost use Rattle.std.specs.Io.KnownBytes.{Appends};
ghost use Rattle.sector_disk.specs.Counting.{count_up};
ghost use Rattle.sector_disk.specs.Disk.{MayLeave};
ghost use Rattle.journal.specs.Calls.{BeginsAtMost, StopsLeave};
ghost use Rattle.shadow.specs.Label.{is_known_size};
ghost use Rattle.stores.specs.Opened.{image_refusal};
ghost use Rattle.terminal.specs.Checked.{ChecksImage, gate_line, layout_by_size, report, save_text, version_of};
ghost use Rattle.terminal.specs.Damage.{damage_report};
ghost use Rattle.terminal.specs.Failed.{CheckFails};
ghost use Rattle.recovery.specs.Steps.{OnlyRead};
ghost use Rattle.terminal.specs.Failures.{of_image};
ghost use Rattle.command_line.specs.declared.orders.Layout.TheVariants.{Two, Three};

use super::damage::tell_damage;
use super::failure::Failure;
use super::unread_sectors::tell_more;
use command_line::orders::Layout;
use image_care::examine;
use journal::layout::{MOST_BLOCKS, blocks_of_size};
use recovery::OpenFault;
use sector_disk::SectorDevice;
use sessions::streams::{flush, write_bytes};
use std::alloc::{AllocError, Global};
use std::io::Write;

/// Prints what the image on a device holds, as `check_over`; and where a call of the device failed, which of its
/// sectors can't be read. Its failures are those of `check_over`; `NoMemory` and `CannotWrite` also where those sectors
/// couldn't be told.
/// Rule: MANUAL, forth83 check IMAGE; IMAGE, A sector that can't be read.
pub fn check_through<D: SectorDevice, W: Write>(
    alloc: Global,
    device: &mut D,
    output: &mut W,
) -> Result<(), Failure>
    ensures checks { OnOk result (ChecksImage D.SectorDevice (W.contents output.old) (W.contents output.new) device.old device.new) }
    ensures failed { IfErr result (λ failure. CheckFails D.SectorDevice (W.contents output.old) (W.contents output.new) failure
        device.old device.new) }
    // Where nothing is told of the image, nothing was printed.
    ensures unprinted { IfErr result (λ e. e ≢ Failure.Damaged → e ≢ Failure.Device → e ≢ Failure.CannotWrite
        → output.new ≡ output.old) }
{
    match check_over(alloc, device, output) {
        Ok(()) => Ok(()),
        Err(failure) => tell_more(alloc, failure, device, output),
    }
}

/// What is told of an image.
#[derive(Clone, Copy)]
struct ImageReport {
    /// The length of its file, in bytes.
    bytes: u64,
    layout: Layout,
    blocks: u16,
    /// How many blocks a save has that is under way, where one is.
    under_way: Option<u16>,
    /// Whether the gate is of the record that it names.
    gate_fits: bool,
    /// The SHA-256 of its blocks.
    digest: [u8; 32],
}

/// Prints what the image on a device holds. Of a damaged one of layout 3 it prints which blocks are damaged; where an
/// image is refused for something else, or a damaged one is of layout 2, nothing is printed. Its failures are those of
/// an opening, the first that holds; `Device` where a call of the device failed, `NoMemory`, and `CannotWrite` where
/// the output failed.
pub fn check_over<D: SectorDevice, W: Write>(
    alloc: Global,
    device: &mut D,
    output: &mut W,
) -> Result<(), Failure>
    ensures checks { OnOk result (ChecksImage D.SectorDevice (W.contents output.old) (W.contents output.new) device.old device.new) }
    // Each refusal tells the first test that the image fails.
    ensures exact { IsTrue (D.keeps_model device.old) → MatchResult result
        (λ _. image_refusal (D.sector_count device.old) (D.disk device.old).content ≡ None)
        (λ e. (e ≡ Failure.Device) ⊎ (e ≡ Failure.NoMemory) ⊎ (e ≡ Failure.CannotWrite) ⊎ (Some e ≡ option_map of_image
        (image_refusal (D.sector_count device.old) (D.disk device.old).content))) }
    ensures bad_size { IfErr result (λ e. MatchBool (is_known_size (D.sector_count device.old))
        (e ≢ Failure.BadSize) (e ≡ Failure.BadSize)) }
    // Of a damaged image of layout 3 the damaged blocks are told.
    ensures damaged { IsTrue (D.keeps_model device.old) → layout_by_size (D.sector_count device.old) ≡ Three
        → IfErr result (λ e. e ≡ Failure.Damaged → Appends (W.contents output.old) (W.contents output.new)
        (damage_report (D.sector_count device.old) (D.disk device.old).content)) }
    // A fault of the device is told just where one of its calls failed.
    ensures device { IfErr result (λ e. e ≡ Failure.Device → D.failures device.new ≡ count_up (D.failures device.old)) }
    ensures refused { IfErr result (λ e. e ≢ Failure.Device → D.failures device.new ≡ D.failures device.old) }
    ensures well { OnOk result (D.failures device.new ≡ D.failures device.old) }
    // Where nothing is told of the image, nothing was printed. Of layout 2 that is so of a damaged one too.
    ensures unprinted { IfErr result (λ e. e ≢ Failure.CannotWrite → e ≢ Failure.Damaged → output.new ≡ output.old) }
    ensures silent { layout_by_size (D.sector_count device.old) ≡ Two
        → IfErr result (λ e. e ≢ Failure.CannotWrite → output.new ≡ output.old) }
    // Whatever the answer is, nothing was written or synced.
    ensures same { IsTrue (D.keeps_model device.old) → D.disk device.new ≡ D.disk device.old }
    ensures stops { IsTrue (D.keeps_model device.old)
        → StopsLeave D.SectorDevice device.old device.new (MayLeave (D.disk device.old)) }
    ensures begins { BeginsAtMost D.SectorDevice device.old device.new 0 0 }
    ensures only_read { OnlyRead D.SectorDevice device.old device.new }
{
    let sectors = device.sectors();
    let layout = layout_by_size(sectors);
    match examine(device) {
        Ok(found) => {
            let digest = found.digest;
            let told = ImageReport {
                bytes: 512 * sectors as u64,
                layout,
                blocks: found.blocks,
                under_way: found.under_way,
                gate_fits: found.gate_fits,
                digest,
            };
            print_report(alloc, &told, output)
        }
        Err(OpenFault::Damaged) => match tell_damage(alloc, device, layout, output) {
            Ok(()) => Err(Failure::Damaged),
            Err(untold) => Err(untold),
        },
        Err(fault) => Err(Failure::from(fault)),
    }
}

/// Prints what is told of an image.
fn print_report<W: Write>(alloc: Global, told: &ImageReport, output: &mut W) -> Result<(), Failure>
    ensures ok { OnOk result (Appends (W.contents output.old) (W.contents output.new)
        (report told.now.bytes told.now.layout told.now.blocks told.now.under_way told.now.gate_fits told.now.digest)) }
    ensures only { IfErr result (λ e. (e ≡ Failure.NoMemory) ⊎ (e ≡ Failure.CannotWrite)) }
    ensures unprinted { IfErr result (λ e. e ≢ Failure.CannotWrite → output.new ≡ output.old) }
{
    match report(alloc, told) {
        Ok(text) => print(text.as_bytes(), output),
        Err(_) => Err(Failure::NoMemory),
    }
}

/// Writes all bytes, and passes them on.
pub(super) fn print<W: Write>(text: &[u8], output: &mut W) -> Result<(), Failure>
    ensures ok { OnOk result (Appends (W.contents output.old) (W.contents output.new) text.now) }
    ensures only { IfErr result (λ e. e ≡ Failure.CannotWrite) }
{
    write_bytes(output, text).map_err(|_| Failure::CannotWrite)?;
    flush(output).map_err(|_| Failure::CannotWrite)
}

/// What is told of an image, as lines.
fn report(alloc: Global, told: &ImageReport) -> Result<String, AllocError>
    ensures { IfOk result (λ text. string_bytes text
        ≡ report told.now.bytes told.now.layout told.now.blocks told.now.under_way told.now.gate_fits told.now.digest) }
{
    let save = save_text(alloc, told.under_way)?;
    let digest = hex::encode(alloc, told.digest)?;
    let mut text = String::new(alloc);
    writeln!(text, "bytes: {}", told.bytes)?;
    writeln!(text, "layout: {}", version_of(told.layout))?;
    writeln!(text, "blocks: {}", told.blocks)?;
    writeln!(text, "save under way: {save}")?;
    add_gate_line(&mut text, told.gate_fits)?;
    writeln!(text, "sha256: {digest}")?;
    Ok(text)
}

/// Adds what is told of the gate, where it isn't of the record that it names.
fn add_gate_line(text: &mut String, gate_fits: bool) -> Result<(), AllocError>
    ensures { OnOk result (string_bytes text.new ≡ string_bytes text.old ++ gate_line gate_fits) }
{
    if gate_fits {
        Ok(())
    } else {
        writeln!(text, "gate: not of its record, a save may be lost")
    }
}

/// Whether a save is under way, and of how many blocks.
fn save_text(alloc: Global, under_way: Option<u16>) -> Result<String, AllocError>
    ensures { IfOk result (λ text. string_bytes text ≡ save_text under_way) }
{
    match under_way {
        Some(blocks) => format!(in alloc; "{blocks} blocks, digest true"),
        None => format!(in alloc; "none"),
    }
}

/// The layout of images with so many sectors. What has the size of no image counts as layout 3, by which it is refused.
fn layout_by_size(sectors: u32) -> Layout
    ensures { result ≡ layout_by_size sectors }
{
    match blocks_of_size(sectors, MOST_BLOCKS) {
        Some(_) => Layout::Two,
        None => Layout::Three,
    }
}

/// The number of a layout, as labels have it: 2 or 3.
fn version_of(layout: Layout) -> u8
    ensures { result ≡ version_of layout }
{
    match layout {
        Layout::Two => 2,
        Layout::Three => 3,
    }
}
