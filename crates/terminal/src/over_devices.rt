//! The commands over the image on any device: each opens it, which is a recovery, and gives the device back as it is
//! then.
//! Rule: MANUAL, Commands; IMAGE, A recovery.
ghost use Rattle.std.specs.Prelude.{◌≡◌, ◌≢◌, ◌<◌, ◌≤◌, Err, IsOk, OnOk, IfErr, IfOk, Some};
ghost use Rattle.journal.specs.Store.{device_of};
ghost use Rattle.recovery.specs.Steps.{WentWell};
ghost use Rattle.terminal.specs.Care.{AreExported, IsListed, Prints, Shows};
ghost use Rattle.terminal.specs.Done.{ImportsBlocks, PutsBlock, allowing};
ghost use Rattle.terminal.specs.Failed.{ExportFails, FailsAfter, FailsToPrint, ImportFails, ListFails, MakingFailsBy, NotBegun, NotPrinted, NotShown, NotTold, PrintsNone, PutFails, TellsNone, UpgradeFailsBy};
ghost use Rattle.terminal.specs.Layout3.{MakesBlankBy, UpgradesBy, sectors_by, sectors_for_upgrade};
ghost use Rattle.terminal.specs.Scripts.{EndsSession};
ghost use Rattle.terminal.specs.Shapes.{FailsBy, MakesBy, NotWritten, Tells, Writes};
ghost use Rattle.terminal.specs.Texts.{AreTexts, OneIsUnread};

use super::checking::check_through;
use super::copying::copy_over;
use super::deeds::{Looking, Making, Printing, Writing};
use super::digests::digest_over;
use super::ending::Ended;
use super::exporting::export_blocks;
use super::exporting_images::show_blocks_over;
use super::failure::Failure;
use super::images::{list_block, make_newer_over, make_over, open_over, put_file};
use super::importing::{check_files, import_files};
use super::salvaging_through::salvage_through;
use super::scripts::run_until_end;
use super::showing::show_through;
use super::standing::{export_anyway, list_anyway};
use super::upgrading::{upgrade_older, upgrade_over};
use super::world::World;
use command_line::orders::{Form, Layout};
use interpreter::promise::Lines;
use sector_disk::SectorDevice;
use sessions::{Strictness, Tracer};
use std::alloc::Global;
use std::io::{Read, Write};
use stores::Store;

/// Runs the input over the image on a device, with at most `steps` steps a line, 1 or more, and tells how that ended. A
/// line that fails ends the session only where it is strict. With `undoes` each line is an event, as by
/// `sessions::run_over_until`. Its failures, where no session begins: those of `open_over`, then `NoMemory`.
/// Rule: MANUAL, forth83 run IMAGE [FILE ..].
pub fn run_over<D: SectorDevice, F: Lines<D>, R: Read, W: Write, T: Tracer>(
    alloc: Global,
    device: D,
    steps: u32,
    strictness: Strictness,
    undoes: bool,
    input: &mut R,
    output: &mut W,
    tracer: &mut T,
) -> (D, Result<Ended, Failure>)
    requires { 0 < steps }
    // However the session ended, what it had saved is kept.
    ensures ends { IfOk result.1 (λ ended. EndsSession D.SectorDevice T.hears (allowing steps undoes) strictness ended.end ended.is_unsaved
        (R.remaining input.old) (R.remaining input.new) (W.contents output.old) (W.contents output.new) tracer.old tracer.new
        device result.0) }
    ensures failed { IfErr result.1 (λ failure. FailsAfter D.SectorDevice (NotBegun D.SectorDevice (R.remaining input.old)
        (R.remaining input.new) (W.contents output.old) (W.contents output.new)) failure device result.0) }
{
    match open_over(device) {
        Ok(store) => {
            let (store, session) = run_until_end::<D, F, R, W, T>(
                alloc, store, steps, strictness, undoes, input, output, tracer,
            );
            (store.into_device(), session)
        }
        Err((failure, device)) => (device, Err(failure)),
    }
}

/// Prints a block of the image on a device. Nothing is written to it, but by its recovery. Where a call of the device
/// failed in that, and the image is one of layout 3, the block is printed from where it stands. Its failures: those of
/// `open_over`, then those of `list_block`; `Device` of `open_over` only where the block isn't had so.
/// Rule: MANUAL, forth83 list IMAGE BLOCK.
pub fn list_over<D: SectorDevice, W: Write>(
    device: D,
    block: u16,
    output: &mut W,
) -> (D, Result<(), Failure>)
    ensures listed { OnOk result.1 (IsListed D.SectorDevice block (W.contents output.old) (W.contents output.new)
        device result.0) }
    ensures failed { IfErr result.1 (λ failure.
        FailsToPrint D.SectorDevice block block (ListFails D.SectorDevice block) failure device result.0) }
    // Nothing was printed, but where the output failed.
    ensures unprinted { IfErr result.1 (λ e. e ≢ Failure.CannotWrite → output.new ≡ output.old) }
{
    match open_over(device) {
        Ok(mut store) => {
            let outcome = list_block(&mut store, block, output);
            (store.into_device(), outcome)
        }
        // a block of an image that can't be opened may stand all the same
        Err((failure, mut device)) => {
            let outcome = list_anyway(failure, &mut device, block, output);
            (device, outcome)
        }
    }
}

/// Prints the blocks of the image on a device from the one to the other. Nothing is written to it, but by its recovery.
/// Where a call of the device failed in that, and the image is one of layout 3, the blocks are printed from where they
/// stand. Its failures: those of `open_over`, then those of `export_blocks`; `Device` of `open_over` only where one of
/// the blocks isn't had so, and then some may be printed.
/// Rule: MANUAL, forth83 export IMAGE FIRST LAST [--raw].
pub fn export_over<D: SectorDevice, W: Write>(
    device: D,
    first: u16,
    last: u16,
    form: Form,
    output: &mut W,
) -> (D, Result<(), Failure>)
    ensures exported { OnOk result.1 (AreExported D.SectorDevice form first last (W.contents output.old) (W.contents output.new)
        device result.0) }
    ensures failed { IfErr result.1 (λ failure.
        FailsToPrint D.SectorDevice first last (ExportFails D.SectorDevice first last) failure device result.0) }
    // Some blocks may be printed only where a call or the output failed.
    ensures unprinted { IfErr result.1 (λ e. e ≢ Failure.Device → e ≢ Failure.CannotWrite → output.new ≡ output.old) }
{
    match open_over(device) {
        Ok(mut store) => {
            let outcome = export_blocks(&mut store, first, last, form, output);
            (store.into_device(), outcome)
        }
        // blocks of an image that can't be opened may stand all the same
        Err((failure, mut device)) => {
            let outcome = export_anyway(failure, &mut device, first, last, form, output);
            (device, outcome)
        }
    }
}

/// Makes the lines of a text file a block of the image on a device, in one save. Its failures: those of `open_over`,
/// `NoBlock` where there is no such block, `CannotRead` where the text can't be read, `NoMemory`, `NotAScreen` where it
/// has more than 16 lines or one of more than 64 bytes, and `Device` where the save failed: at any other one nothing is
/// written, but by the recovery.
/// Rule: MANUAL, forth83 put IMAGE BLOCK FILE.
pub fn put_over<X: World, D: SectorDevice>(
    world: &X,
    device: D,
    block: u16,
    text: &str,
) -> (D, Result<(), Failure>)
    ensures put { OnOk result.1 (PutsBlock D.SectorDevice block ((X.gives world.now).is_text text.now) device result.0) }
    ensures failed { IfErr result.1 (λ failure. FailsAfter D.SectorDevice (PutFails D.SectorDevice block
        ((X.gives world.now).is_text text.now) ((X.gives world.now).is_unread text.now))
        failure device result.0) }
{
    match open_over(device) {
        Ok(mut store) => {
            let outcome = put_file(world, &mut store, block, text);
            (store.into_device(), outcome)
        }
        Err((failure, device)) => (device, Err(failure)),
    }
}

/// Makes the blocks that files say those of the image on a device from `first` on, in one save. Each file begins a
/// block. The refusals of the first file that is refused are told in lines of `errors`; then nothing is written, but by
/// its recovery. Its failures: those of `open_over`, then those of `import_files`.
/// Rule: MANUAL, forth83 import IMAGE FIRST FILE .. [--raw] [--check].
pub fn import_over<X: World, D: SectorDevice, E: Write>(
    alloc: Global,
    world: &X,
    device: D,
    first: u16,
    sources: &[&str],
    form: Form,
    errors: &mut E,
) -> (D, Result<(), Failure>)
    ensures imported { OnOk result.1 (ImportsBlocks D.SectorDevice form first
        (AreTexts (X.gives world.now).is_text sources.now) device result.0) }
    ensures failed { IfErr result.1 (λ failure. FailsAfter D.SectorDevice (ImportFails D.SectorDevice form first
        (AreTexts (X.gives world.now).is_text sources.now)
        (OneIsUnread (X.gives world.now).is_unread sources.now)) failure device result.0) }
{
    match open_over(device) {
        Ok(mut store) => {
            let outcome = import_files(alloc, world, &mut store, first, sources, form, errors);
            (store.into_device(), outcome)
        }
        Err((failure, device)) => (device, Err(failure)),
    }
}

/// Writes to the image on a device what is asked for, or looks at what would be imported: by `put_over`, `import_over`
/// or `check_files`. Its failures are those of that one.
pub fn write_over<X: World, D: SectorDevice, E: Write>(
    world: &X,
    device: D,
    deed: Writing<'_>,
    errors: &mut E,
) -> (D, Result<(), Failure>)
    ensures written { OnOk result.1 (Writes D.SectorDevice (X.gives world.now).is_text deed.entry device result.0) }
    ensures failed { IfErr result.1 (λ failure. NotWritten D.SectorDevice (X.gives world.now).is_text (X.gives world.now).is_unread
        deed.entry failure device result.0) }
{
    match deed {
        Writing::Put(block, text) => put_over(world, device, block, text),
        Writing::Import(first, sources, form) => {
            import_over(world.alloc(), world, device, first, sources, form, errors)
        }
        Writing::CheckImport(first, sources, form) => {
            let outcome = check_files(world.alloc(), world, &device, first, sources, form, errors);
            (device, outcome)
        }
    }
}

/// Prints blocks of the image on a device, after its recovery: by `list_over` or `export_over`. Its failures are those
/// of that one.
pub fn print_over<D: SectorDevice, W: Write>(
    device: D,
    asked: Printing,
    output: &mut W,
) -> (D, Result<(), Failure>)
    ensures printed { OnOk result.1 (Prints D.SectorDevice asked (W.contents output.old) (W.contents output.new) device result.0) }
    ensures failed { IfErr result.1 (λ failure. NotPrinted D.SectorDevice asked failure device result.0) }
    ensures unprinted { IfErr result.1 (λ e. PrintsNone asked e → output.new ≡ output.old) }
{
    match asked {
        Printing::List(block) => list_over(device, block, output),
        Printing::Export(first, last, form) => export_over(device, first, last, form, output),
    }
}

/// Prints blocks of the image on a device, by reads alone: by `show_through` or `show_blocks_over`. Its failures are
/// those of that one.
pub fn show<D: SectorDevice, W: Write>(
    device: &mut D,
    asked: Printing,
    output: &mut W,
) -> Result<(), Failure>
    ensures shown { OnOk result (Shows D.SectorDevice asked (W.contents output.old) (W.contents output.new) device.old device.new) }
    ensures failed { IfErr result (λ failure. NotShown D.SectorDevice asked failure device.old device.new) }
    ensures unprinted { IfErr result (λ e. PrintsNone asked e → output.new ≡ output.old) }
{
    match asked {
        Printing::List(block) => show_through(device, block, output),
        Printing::Export(first, last, form) => show_blocks_over(device, first, last, form, output),
    }
}

/// Tells of the image on a device, by reads alone: by `check_through` or `digest_over`. Its failures are those of that
/// one.
pub fn tell<D: SectorDevice, W: Write>(
    alloc: Global,
    device: &mut D,
    asked: Looking,
    output: &mut W,
) -> Result<(), Failure>
    ensures told { OnOk result (Tells D.SectorDevice asked (W.contents output.old) (W.contents output.new) device.old device.new) }
    ensures failed { IfErr result (λ failure. NotTold D.SectorDevice asked (W.contents output.old) (W.contents output.new)
        failure device.old device.new) }
    ensures unprinted { IfErr result (λ e. TellsNone asked e → output.new ≡ output.old) }
{
    match asked {
        Looking::Check => check_through(alloc, device, output),
        Looking::Digests => digest_over(alloc, device, output),
    }
}

/// Makes an image of the one on another device, by the same layout: by `copy_over` or `salvage_through`. Its failures
/// are those of that one.
pub fn make_of<A: SectorDevice, B: SectorDevice, W: Write>(
    alloc: Global,
    old: &mut A,
    new: &mut B,
    by: Making,
    output: &mut W,
) -> Result<(), Failure>
    ensures made { OnOk result (MakesBy A.SectorDevice B.SectorDevice by (W.contents output.old) (W.contents output.new)
        old.old old.new new.old new.new) }
    ensures failed { IfErr result (λ failure. FailsBy A.SectorDevice B.SectorDevice by failure old.old old.new new.old new.new) }
    ensures unprinted { IfErr result (λ e. e ≢ Failure.CannotWrite → output.new ≡ output.old) }
    ensures silent { by ≡ Making.Copy → output.new ≡ output.old }
    // No call of the new device failed, nor of one that is copied.
    ensures well { OnOk result (B.failures new.new ≡ B.failures new.old) }
    ensures old_well { by ≡ Making.Copy → OnOk result (A.failures old.new ≡ A.failures old.old) }
{
    match by {
        Making::Copy => copy_over(old, new),
        Making::Salvage => salvage_through(alloc, old, new, output),
    }
}

/// Makes an image of blank blocks on a device, by a layout: by `make_over` or `make_newer_over`. Its failures are those
/// of that one.
pub fn make_by<D: SectorDevice>(device: D, blocks: u16, layout: Layout) -> (D, Result<(), Failure>)
    requires many { 32 ≤ blocks }
    requires few { blocks ≤ 3840 }
    requires size { D.sector_count device ≡ sectors_by layout blocks }
    ensures made { OnOk result.1 (MakesBlankBy D.SectorDevice layout blocks device result.0) }
    ensures failed { IfErr result.1 (λ failure. MakingFailsBy D.SectorDevice layout blocks failure device result.0) }
    ensures well { OnOk result.1 (D.failures result.0 ≡ D.failures device) }
{
    match layout {
        Layout::Two => given_back(make_over(device, blocks)),
        Layout::Three => given_back(make_newer_over(device, blocks)),
    }
}

/// The device of an image that was to be made, and how that ended.
fn given_back<D: SectorDevice>(outcome: Result<Store<D>, (Failure, D)>) -> (D, Result<(), Failure>)
    ensures made { IfOk outcome (λ store. result.0 ≡ device_of store) }
    ensures well { OnOk outcome (IsOk result.1) }
    ensures unmade { IfErr outcome (λ e. result.0 ≡ e.1) }
    ensures failed { IfErr outcome (λ e. result.1 ≡ Err e.0) }
{
    match outcome {
        Ok(store) => (store.into_device(), Ok(())),
        Err((failure, device)) => (device, Err(failure)),
    }
}

/// Makes an image of a layout of the blocks of the one on another device: by `upgrade_older` or `upgrade_over`. Its
/// failures are those of that one.
pub fn upgrade_by<D: SectorDevice>(old: &mut D, new: &mut D, layout: Layout) -> Result<(), Failure>
    requires size { sectors_for_upgrade layout (D.sector_count old.old) ≡ Some (D.sector_count new.old) }
    ensures made { OnOk result (UpgradesBy D.SectorDevice layout old.old old.new new.old new.new) }
    ensures failed { IfErr result (λ failure. UpgradeFailsBy D.SectorDevice layout failure old.old old.new new.old new.new) }
    ensures well { OnOk result (WentWell D.SectorDevice D.SectorDevice old.old old.new new.old new.new) }
{
    match layout {
        Layout::Two => upgrade_older(old, new),
        Layout::Three => upgrade_over(old, new),
    }
}
