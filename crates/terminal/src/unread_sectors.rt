//! Which sectors of an image can't be read is told, with the block that each is of.
//! Rule: MANUAL, forth83 check IMAGE; IMAGE, A sector that can't be read.
ghost use Rattle.std.specs.Prelude.{◌≡◌, ◌≢◌, ◌⊎◌, ◌++◌, string_bytes, IsErr, IfErr, IfOk, OnOk};
ghost use Rattle.std.specs.Io.KnownBytes.{Appends};
ghost use Rattle.recovery.specs.Steps.{OnlyRead};
ghost use Rattle.terminal.specs.Failed.{MoreTold, UnreadTold};
ghost use Rattle.terminal.specs.Failures.{is_device};
ghost use Rattle.terminal.specs.Through.{TellsUnread, newer_owner, older_owner, owner_of, unread_line, unread_told};

use super::checking::print;
use super::failure::Failure;
use image_care::read_through;
use journal::layout::{MOST_BLOCKS, blocks_of_size};
use sector_disk::SectorDevice;
use std::alloc::{AllocError, Global};
use std::io::Write;

/// Tells of an image of which a look failed: where that was by a call of its device, which of its sectors can't be
/// read. The failure is told again; `NoMemory` and `CannotWrite` come where those sectors couldn't be told.
pub(super) fn tell_more<D: SectorDevice, W: Write>(
    alloc: Global,
    failure: Failure,
    device: &mut D,
    output: &mut W,
) -> Result<(), Failure>
    ensures never { IsErr result }
    ensures told { IfErr result (λ e. MoreTold D.SectorDevice (W.contents output.old) (W.contents output.new) failure e
        device.old device.new) }
    ensures only_read { OnlyRead D.SectorDevice device.old device.new }
    ensures unprinted { IfErr result (λ e. e ≢ Failure.Device → e ≢ Failure.CannotWrite → output.new ≡ output.old) }
{
    if is_of_device(failure) {
        tell_sectors(alloc, device, output)
    } else {
        Err(failure)
    }
}

/// Whether a call of the image's device failed.
pub(super) fn is_of_device(failure: Failure) -> bool
    ensures { result ≡ is_device failure }
{
    matches!(failure, Failure::Device)
}

/// Tells which sectors can't be read, and then the fault of the device.
fn tell_sectors<D: SectorDevice, W: Write>(
    alloc: Global,
    device: &mut D,
    output: &mut W,
) -> Result<(), Failure>
    ensures never { IsErr result }
    ensures told { IfErr result (λ e. UnreadTold D.SectorDevice (W.contents output.old) (W.contents output.new) e device.old device.new) }
    ensures only_read { OnlyRead D.SectorDevice device.old device.new }
    ensures unprinted { IfErr result (λ e. e ≢ Failure.Device → e ≢ Failure.CannotWrite → output.new ≡ output.old) }
{
    match tell_unread(alloc, device, output) {
        Ok(()) => Err(Failure::Device),
        Err(untold) => Err(untold),
    }
}

/// Reads an image through, of which a read has failed, and prints which of its sectors can't be read.
fn tell_unread<D: SectorDevice, W: Write>(
    alloc: Global,
    device: &mut D,
    output: &mut W,
) -> Result<(), Failure>
    ensures told { OnOk result (TellsUnread D.SectorDevice (W.contents output.old) (W.contents output.new) device.old device.new) }
    ensures only { IfErr result (λ e. (e ≡ Failure.NoMemory) ⊎ (e ≡ Failure.CannotWrite)) }
    ensures only_read { OnlyRead D.SectorDevice device.old device.new }
    ensures unprinted { IfErr result (λ e. e ≢ Failure.CannotWrite → output.new ≡ output.old) }
{
    let sectors = device.sectors();
    match read_through(alloc, device) {
        Ok(read) => print_unread(alloc, sectors, read.1.as_slice(), output),
        Err(_) => Err(Failure::NoMemory),
    }
}

/// Prints which sectors of an image on so many can't be read.
fn print_unread<W: Write>(
    alloc: Global,
    sectors: u32,
    unread: &[u32],
    output: &mut W,
) -> Result<(), Failure>
    ensures ok { OnOk result (Appends (W.contents output.old) (W.contents output.new) (unread_told sectors unread.now)) }
    ensures only { IfErr result (λ e. (e ≡ Failure.NoMemory) ⊎ (e ≡ Failure.CannotWrite)) }
    ensures unprinted { IfErr result (λ e. e ≢ Failure.CannotWrite → output.new ≡ output.old) }
{
    match unread_text(alloc, sectors, unread) {
        Ok(text) => print(text.as_bytes(), output),
        Err(_) => Err(Failure::NoMemory),
    }
}

/// What is told of the sectors of an image on so many that can't be read, as lines.
pub(super) fn unread_text(alloc: Global, sectors: u32, unread: &[u32]) -> Result<String, AllocError>
    ensures { IfOk result (λ text. string_bytes text ≡ unread_told sectors unread.now) }
{
    let mut text = String::new(alloc);
    let mut rest = unread;
    while let [k, others @ ..] = rest {
        add_unread_line(&mut text, owner_of(sectors, *k), *k)?;
        rest = others;
    }
    Ok(text)
}

/// Adds what is told of a sector that can't be read, which is of this block, if it is of one.
fn add_unread_line(text: &mut String, owner: Option<u32>, k: u32) -> Result<(), AllocError>
    ensures { OnOk result (string_bytes text.new ≡ string_bytes text.old ++ unread_line owner k) }
{
    match owner {
        Some(b) => writeln!(text, "block {b}: sector {k} can't be read"),
        None => writeln!(text, "sector {k}: can't be read"),
    }
}

/// The block that sector `k` of an image on so many sectors is of. None where it is of none.
fn owner_of(sectors: u32, k: u32) -> Option<u32>
    ensures { result ≡ owner_of sectors k }
{
    match blocks_of_size(sectors, MOST_BLOCKS) {
        Some(blocks) => older_owner(blocks, k),
        None => newer_owner(k),
    }
}

/// The block that a sector of an image of so many blocks is of, by layout 2. None where it is of none.
fn older_owner(blocks: u16, k: u32) -> Option<u32>
    ensures { result ≡ older_owner blocks k }
{
    let homes = 3 + 2 * blocks as u32;
    if k < 3 {
        None
    } else if k < homes {
        Some((k - 3) / 2)
    } else {
        Some((k - homes) / 2)
    }
}

/// The block that a sector is of by layout 3. None where it is of none.
fn newer_owner(k: u32) -> Option<u32>
    ensures { result ≡ newer_owner k }
{
    if k < 32 { None } else { Some((k - 32) / 16) }
}
