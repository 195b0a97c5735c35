//! Of an image whose gate isn't of the record that it names it is told, before it is opened, that a save may be lost;
//! and of one that is salvaged, and whose gate can't be read, which blocks the last save wrote. It goes to the standard
//! error, so that a log has it too.
//! Rule: IMAGE, Layout 3; PROGRAM, Exit status and messages.
ghost use Rattle.std.specs.Prelude.{◌≤◌, IfSome};
ghost use Rattle.journal.specs.Layout.{most_blocks};

use command_line::order;
use command_line::orders::Order;
use journal::layout::is_listed;
use journal::pages::layout::{
    GATE, blocks_of_size, gate_is_open, is_gate_of, label, record_sector,
};
use std::convert::AsStr;
use std::fs::{self, File, Files};
use std::io::Write;
use std::os::unix::fs::FileExt;

/// Tells of the image that `run`, `list` or `copy` opens that a save may be lost, where its gate shows it.
pub(super) fn warn<S: AsStr, E: Write>(
    rt: &(impl Files<File = File> + AllocGlobal),
    words: &[S],
    errors: &mut E,
) {
    match order(rt.alloc(), words) {
        Ok(asked) => warn_of(rt, &asked, errors),
        Err(_) => {}
    }
}

/// The same of the image of an order.
fn warn_of<E: Write>(rt: &impl Files<File = File>, asked: &Order<'_>, errors: &mut E) {
    match asked {
        Order::Run(path, _, _) | Order::List(path, _) | Order::Copy(path, _, _) => {
            tell_lost_save(rt, *path, errors)
        }
        Order::Salvage(path, _, _) => {
            tell_lost_gate(rt, *path, errors);
        }
        _ => {}
    }
}

/// Tells that a save of an image may be lost, where its gate shows it.
fn tell_lost_save<E: Write>(rt: &impl Files<File = File>, path: &str, errors: &mut E) {
    if shows_a_lost_save(rt, path).unwrap_or(false) {
        let _ = writeln!(
            errors,
            "forth83: {path}: gate: not of its record, a save may be lost"
        );
    }
}

/// Whether the gate of an image of layout 3 isn't of the record that it names. None where the file is no such image, or
/// can't be read.
fn shows_a_lost_save(rt: &impl Files<File = File>, path: &str) -> Option<bool> {
    let (file, blocks) = file_of(rt, path)?;
    if sector_of(&file, 0)? != label(blocks) {
        return None;
    }
    let gate = sector_of(&file, GATE)?;
    let named = sector_of(&file, record_sector(gate_is_open(&gate)))?;
    // Where a save went on meanwhile, the gate is another one now.
    Some(!is_gate_of(&gate, &named) && sector_of(&file, GATE)? == gate)
}

/// Tells of an image whose gate can't be read the blocks that the last save wrote: the two records name different places
/// of these, and which is the last one only the gate told. None where there is nothing to tell.
fn tell_lost_gate<E: Write>(
    rt: &impl Files<File = File>,
    path: &str,
    errors: &mut E,
) -> Option<()> {
    let (file, blocks) = file_of(rt, path)?;
    if sector_of(&file, GATE).is_some() {
        return None;
    }
    let one = sector_of(&file, record_sector(true))?;
    let other = sector_of(&file, record_sector(false))?;
    for b in 0..blocks {
        if is_listed(&one, b) != is_listed(&other, b) {
            let _ = writeln!(
                errors,
                "forth83: {path}: block {b}: without the gate it may be that of the save before the last one"
            );
        }
    }
    Some(())
}

/// The file of an image of layout 3, and how many blocks such an image has, where a file has the length of one.
fn file_of(rt: &impl Files<File = File>, path: &str) -> Option<(File, u16)>
    ensures few { IfSome result (λ found. found.1 ≤ most_blocks) }
{
    let of = fs::metadata(rt, path).ok()?;
    if !of.is_file() {
        return None; // (an opening of a pipe could wait for its other end)
    }
    let blocks = blocks_of_size(u32::try_from(of.len() / 512).ok()?)?;
    let file = File::open(rt, path).ok()?;
    Some((file, blocks))
}

/// The bytes of a sector, where they can be read.
fn sector_of(file: &File, k: u32) -> Option<[u8; 512]> {
    let mut sector = [0; 512];
    file.read_exact_at(&mut sector, 512 * k as u64).ok()?;
    Some(sector)
}
