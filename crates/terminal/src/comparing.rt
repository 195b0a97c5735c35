//! Two images are compared: what differs between their blocks is printed, and nothing of them is changed.
//! Rule: MANUAL, forth83 diff OLD NEW.
ghost use Rattle.std.specs.Prelude.{◌≡◌, ◌≢◌, ◌⊎◌, ◌≤◌, ◌*◌, ◌/◌, ◌++◌, length, max, None, Some, IsTrue, IfErr, IfOk, MatchResult, OnOk, option_map};
ghost use Rattle.std.specs.Io.KnownBytes.{Appends};
ghost use Rattle.sector_disk.specs.Counting.{count_up};
ghost use Rattle.recovery.specs.Steps.{OnlyRead, WentWell};
ghost use Rattle.terminal.specs.Compared.{Compares, OneFailed, Reads, bytes_on, change, changes, counts, differences, marked, refusal_of_either, refusal_on};
ghost use Rattle.terminal.specs.Failures.{of_image};

use super::all_blocks::read_all;
use super::checking::print;
use super::exporting::without_blanks;
use super::failure::Failure;
use super::screen::{BLOCK, COLUMNS, LISTING, ROWS, add_line};
use arrayvec::ArrayVec;
use sector_disk::SectorDevice;
use std::alloc::{AllocError, Global};
use std::io::Write;

/// Prints what differs between the blocks of the images on two devices. Where one is refused nothing is printed. Its
/// failures are those of an opening, of the old image and then of the new one; `Device` where a call of a device
/// failed, `NoMemory`, and `CannotWrite` where the output failed.
pub fn compare_over<D: SectorDevice, W: Write>(
    alloc: Global,
    old: &mut D,
    new: &mut D,
    output: &mut W,
) -> Result<(), Failure>
    ensures compares { OnOk result (Compares D.SectorDevice (W.contents output.old) (W.contents output.new)
        old.old old.new new.old new.new) }
    // The refusal is that of the old image, and where that isn't refused that of the new one.
    ensures exact { IsTrue (D.keeps_model old.old) → IsTrue (D.keeps_model new.old) → MatchResult result
        (λ _. refusal_of_either D.SectorDevice old.old new.old ≡ None)
        (λ e. (e ≡ Failure.NoMemory) ⊎ (e ≡ Failure.Device) ⊎ (e ≡ Failure.CannotWrite)
        ⊎ (Some e ≡ option_map of_image (refusal_of_either D.SectorDevice old.old new.old))) }
    // A fault of a device is told just where a call of one of them failed.
    ensures device { IfErr result (λ e. e ≡ Failure.Device → OneFailed D.SectorDevice old.old old.new new.old new.new) }
    ensures refused { IfErr result (λ e. e ≢ Failure.Device
        → WentWell D.SectorDevice D.SectorDevice old.old old.new new.old new.new) }
    ensures well { OnOk result (WentWell D.SectorDevice D.SectorDevice old.old old.new new.old new.new) }
    // Where the old image is refused, no call of the other device was made.
    ensures unasked { IsTrue (D.keeps_model old.old) → refusal_on D.SectorDevice old.old ≢ None → new.new ≡ new.old }
    // Whatever the answer is, nothing was written or synced.
    ensures old_kept { OnlyRead D.SectorDevice old.old old.new }
    ensures new_kept { OnlyRead D.SectorDevice new.old new.new }
    // Where nothing is told of the images, nothing was printed.
    ensures unprinted { IfErr result (λ e. e ≢ Failure.CannotWrite → output.new ≡ output.old) }
{
    match read_all(alloc, old) {
        Ok(bytes) => compare_with(alloc, bytes, new, output),
        Err(failure) => Err(failure),
    }
}

/// Prints what differs from the blocks of an old image, which were read, to those of the image on a device.
fn compare_with<D: SectorDevice, W: Write>(
    alloc: Global,
    old: Vec<u8>,
    new: &mut D,
    output: &mut W,
) -> Result<(), Failure>
    ensures read { OnOk result (Reads D.SectorDevice new.old new.new) }
    ensures ok { IsTrue (D.keeps_model new.old) → OnOk result (Appends (W.contents output.old) (W.contents output.new)
        (differences old.items (bytes_on D.SectorDevice new.old))) }
    ensures exact { IsTrue (D.keeps_model new.old) → MatchResult result
        (λ _. refusal_on D.SectorDevice new.old ≡ None)
        (λ e. (e ≡ Failure.NoMemory) ⊎ (e ≡ Failure.Device) ⊎ (e ≡ Failure.CannotWrite)
        ⊎ (Some e ≡ option_map of_image (refusal_on D.SectorDevice new.old))) }
    ensures device { IfErr result (λ e. e ≡ Failure.Device → D.failures new.new ≡ count_up (D.failures new.old)) }
    ensures refused { IfErr result (λ e. e ≢ Failure.Device → D.failures new.new ≡ D.failures new.old) }
    ensures well { OnOk result (D.failures new.new ≡ D.failures new.old) }
    ensures only_read { OnlyRead D.SectorDevice new.old new.new }
    ensures unprinted { IfErr result (λ e. e ≢ Failure.CannotWrite → output.new ≡ output.old) }
{
    match read_all(alloc, new) {
        Ok(bytes) => print_differences(alloc, old, bytes, output),
        Err(failure) => Err(failure),
    }
}

/// Prints what differs between blocks with these bytes.
fn print_differences<W: Write>(
    alloc: Global,
    old: Vec<u8>,
    new: Vec<u8>,
    output: &mut W,
) -> Result<(), Failure>
    ensures ok { OnOk result (Appends (W.contents output.old) (W.contents output.new) (differences old.items new.items)) }
    ensures only { IfErr result (λ e. (e ≡ Failure.NoMemory) ⊎ (e ≡ Failure.CannotWrite)) }
    ensures unprinted { IfErr result (λ e. e ≢ Failure.CannotWrite → output.new ≡ output.old) }
{
    match differences(alloc, old, new) {
        Ok(text) => print(text.as_slice(), output),
        Err(_) => Err(Failure::NoMemory),
    }
}

/// What differs between blocks with these bytes, as lines.
fn differences(alloc: Global, mut old: Vec<u8>, mut new: Vec<u8>) -> Result<Vec<u8>, AllocError>
    ensures { IfOk result (λ text. text.items ≡ differences old.items new.items) }
{
    let mut text = counts(alloc, old.len() / BLOCK, new.len() / BLOCK)?;
    let most = old.len().max(new.len());
    old.resize(most, b' ')?;
    new.resize(most, b' ')?;
    add_changes(alloc, &mut text, old.as_slice(), new.as_slice())?;
    Ok(text)
}

/// How many blocks there are, as a line, where that differs.
fn counts(alloc: Global, old: usize, new: usize) -> Result<Vec<u8>, AllocError>
    ensures { IfOk result (λ text. text.items ≡ counts old new) }
{
    let mut text = Vec::new(alloc);
    if old != new {
        let line = format!(in alloc; "blocks: {old} and {new}\n")?;
        text.extend_from_slice(line.as_bytes())?;
    }
    Ok(text)
}

/// Adds what differs between the rows of as many bytes.
fn add_changes(alloc: Global, text: &mut Vec<u8>, old: &[u8], new: &[u8]) -> Result<(), AllocError>
    requires { length old.now ≡ length new.now }
    ensures { OnOk result (text.new.items ≡ text.old.items ++ changes 0 (length old.now / 64) old.now new.now) }
{
    let mut old_rest = old;
    let mut new_rest = new;
    for row in 0..old.len() / COLUMNS {
        let (before, old_below) = old_rest.split_at(COLUMNS);
        let (after, new_below) = new_rest.split_at(COLUMNS);
        add_change(alloc, text, row, before, after)?;
        old_rest = old_below;
        new_rest = new_below;
    }
    Ok(())
}

/// Adds what is told of a row, where it differs.
fn add_change(
    alloc: Global,
    text: &mut Vec<u8>,
    row: usize,
    old: &[u8],
    new: &[u8],
) -> Result<(), AllocError>
    requires old { length old.now ≤ 64 }
    requires new { length new.now ≤ 64 }
    ensures { OnOk result (text.new.items ≡ text.old.items ++ change row old.now new.now) }
{
    if old == new {
        return Ok(());
    }
    let place = format!(in alloc; "block {} line {}\n", row / ROWS, row % ROWS + 1)?;
    text.extend_from_slice(place.as_bytes())?;
    add_marked(text, "- ", old)?;
    add_marked(text, "+ ", new)
}

/// Adds a row after a mark, without the blanks at its end.
fn add_marked(text: &mut Vec<u8>, mark: &str, row: &[u8]) -> Result<(), AllocError>
    requires { length row.now ≤ 64 }
    ensures { OnOk result (text.new.items ≡ text.old.items ++ marked mark.now row.now) }
{
    let mut line: ArrayVec<u8, LISTING> = ArrayVec::new();
    add_line(&mut line, without_blanks(row));
    text.extend_from_slice(mark.as_bytes())?;
    text.extend_from_slice(line.as_slice())
}
