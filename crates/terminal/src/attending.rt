//! What a person at a terminal is told besides: how a session is left, which file a failure is about, and which layout
//! a new image has. It goes to standard error, and only where that is a terminal, so a script reads nothing of it.
ghost use Rattle.std.specs.Prelude.{◌<◌, IfSome};

use super::failure::Failure;
use super::importing::MOST_BYTES;
use command_line::orders::{Order, Script};
use command_line::{VERSION, order};
use journal::sizes::known_blocks;
use std::convert::AsStr;
use std::fs::{self, File, Files, OpenOptions};
use std::io::{ErrorKind, Read, Write};

/// How many bytes of a file are looked at to tell whether it is a text.
const BEGINNING: usize = 512;

/// The smallest image: 32 blocks by layout 1 or 2.
const SMALLEST_IMAGE: u64 = 131 * 512;

/// What a file is, as it is just after a failure.
#[derive(Clone, Copy, PartialEq, Eq)]
enum Cause {
    Missing,
    Folder,
    NotReadable,
    NotWritable,
    /// It is there, and begins as a text does.
    Text,
    /// It is there, and no image has so few bytes.
    Short(u64),
    /// It is there, and no text for an image has so many bytes.
    Long(u64),
}

/// Tells once, before a session that these words ask for, over what it runs and how it is left: where its lines are
/// those of the input, and nothing that can be seen keeps its image from being run. Answers whether it told.
pub(super) fn greet<S: AsStr, E: Write>(
    rt: &(impl Files<File = File> + AllocGlobal),
    words: &[S],
    errors: &mut E,
) -> bool {
    match order(rt.alloc(), words) {
        Ok(asked) => greet_over(rt, &asked, errors),
        Err(_) => false,
    }
}

/// Tells over what an order runs the lines of the input, and how the session is left. Answers whether it told: it
/// doesn't where the order runs none of them, or where it can be seen that its image can't be run.
fn greet_over<E: Write>(rt: &impl Files<File = File>, asked: &Order<'_>, errors: &mut E) -> bool {
    let over = match asked {
        Order::Memory => "32 blocks in memory, which are not kept",
        Order::Run(path, _, script) if script.goes_on && may_be_run(rt, *path) => *path,
        _ => return false,
    };
    let _ = writeln!(
        errors,
        "forth83 {VERSION} over {over}. Words are in capital letters; Ctrl-D ends the session."
    );
    true
}

/// Tells after an order of this status what a person may want to know of the files that these words name: after a
/// failure which one it was about, and what is wrong with that; after `new` without a layout which one the image has.
pub(super) fn advise<S: AsStr, E: Write>(
    rt: &(impl Files<File = File> + AllocGlobal),
    words: &[S],
    status: u8,
    errors: &mut E,
) {
    match order(rt.alloc(), words) {
        Ok(asked) => {
            if status == 0 {
                tell_of_layout(words, &asked, errors);
            } else {
                advise_on(rt, &asked, status, errors);
            }
        }
        Err(_) => {}
    }
}

/// Tells which layout an image has that was made, where no word asked for one, and which one a file wants.
fn tell_of_layout<S: AsStr, E: Write>(words: &[S], asked: &Order<'_>, errors: &mut E) {
    let Order::New(path, _, _) = asked else {
        return;
    };
    if words
        .iter()
        .any(|word| word.as_str().starts_with("--layout"))
    {
        return;
    }
    let _ = writeln!(
        errors,
        "  {path}: of layout 2, for cards, boards and raw disks; an image that stays in a file wants --layout 3"
    );
}

/// Tells after a failure of an order which file it was about, by the status, and what is wrong with that.
fn advise_on<E: Write>(
    rt: &impl Files<File = File>,
    asked: &Order<'_>,
    status: u8,
    errors: &mut E,
) {
    if status == Failure::CannotOpen.status() {
        tell_of_images(rt, asked, errors);
    } else if status == Failure::CannotRead.status() {
        tell_of_texts(rt, asked, errors);
    }
}

/// Tells of the images of an order.
fn tell_of_images<E: Write>(rt: &impl Files<File = File>, asked: &Order<'_>, errors: &mut E) {
    match asked {
        Order::Memory => {}
        Order::New(path, _, _) => tell_of_new(rt, *path, errors),
        Order::Run(path, _, _) | Order::Check(path) | Order::Digests(path) => {
            tell_of_old(rt, *path, is_written(asked), errors)
        }
        Order::List(path, block)
        | Order::Put(path, block, _)
        | Order::Export(path, _, block, _)
        | Order::Import(path, block, _, _)
        | Order::CheckImport(path, block, _, _) => {
            tell_of_block(rt, *path, *block, is_written(asked), errors)
        }
        Order::Diff(old, new) => tell_of_two(rt, *old, *new, errors),
        Order::Upgrade(old, new, _) | Order::Copy(old, new, _) | Order::Salvage(old, new, _) => {
            tell_of_both(rt, *old, *new, is_written(asked), errors)
        }
    }
}

/// Whether the image of an order is opened for writing too: one that is listed or exported may be read alone.
fn is_written(asked: &Order<'_>) -> bool {
    !matches!(
        asked,
        Order::List(..)
            | Order::Export(..)
            | Order::Check(_)
            | Order::Digests(_)
            | Order::Diff(..)
            | Order::Copy(..)
            | Order::Salvage(..)
    )
}

/// Tells of two images that were to be read: of the first that can be seen not to be one.
fn tell_of_two<E: Write>(rt: &impl Files<File = File>, old: &str, new: &str, errors: &mut E) {
    if cause_of_image(rt, old, false).is_some() {
        tell_of_old(rt, old, false, errors)
    } else if cause_of_image(rt, new, false).is_some() {
        tell_of_old(rt, new, false, errors)
    } else {
        let _ = writeln!(errors, "  {old}, {new}");
    }
}

/// Tells of an image and of the one that was to be made of it. The first is looked at first, as the order does.
fn tell_of_both<E: Write>(
    rt: &impl Files<File = File>,
    old: &str,
    new: &str,
    is_written: bool,
    errors: &mut E,
) {
    if cause_of_image(rt, old, is_written).is_some() {
        tell_of_old(rt, old, is_written, errors)
    } else if fs::metadata(rt, new).is_ok() {
        tell_of_new(rt, new, errors)
    } else {
        let _ = writeln!(errors, "  {old}, {new}");
    }
}

/// Tells of the file of an image of which this block was asked for: where it hasn't that, which blocks it has.
fn tell_of_block<E: Write>(
    rt: &impl Files<File = File>,
    path: &str,
    block: u16,
    is_written: bool,
    errors: &mut E,
) {
    match blocks_of_file(rt, path) {
        Some(blocks) if blocks <= block && cause_of_image(rt, path, is_written).is_none() => {
            let _ = writeln!(errors, "  {path}: its blocks are 0 to {}", blocks - 1);
        }
        _ => tell_of_old(rt, path, is_written, errors),
    }
}

/// How many blocks an image has that is as long as a file.
fn blocks_of_file(rt: &impl Files<File = File>, path: &str) -> Option<u16>
    ensures { IfSome result (λ blocks. 0 < blocks) }
{
    let of = fs::metadata(rt, path).ok()?;
    let sectors = u32::try_from(of.len() / 512).ok()?;
    known_blocks(sectors)
}

/// Tells of the file of an image that was to be opened, for writing too or for reading alone.
fn tell_of_old<E: Write>(
    rt: &impl Files<File = File>,
    path: &str,
    is_written: bool,
    errors: &mut E,
) {
    let _ = match cause_of_image(rt, path, is_written) {
        Some(Cause::Missing) => writeln!(errors, "  {path}: no such file"),
        Some(Cause::Folder) => writeln!(errors, "  {path}: a folder"),
        Some(Cause::NotReadable) => writeln!(errors, "  {path}: no right to read it"),
        Some(Cause::NotWritable) => writeln!(errors, "  {path}: no right to write it"),
        Some(Cause::Text) => writeln!(
            errors,
            "  {path}: it begins as a text does; the image comes first"
        ),
        Some(Cause::Short(bytes)) => {
            writeln!(errors, "  {path}: {bytes} bytes, fewer than an image has")
        }
        Some(Cause::Long(_)) | None => writeln!(errors, "  {path}"),
    };
}

/// Tells of the file of an image that was to be made.
fn tell_of_new<E: Write>(rt: &impl Files<File = File>, path: &str, errors: &mut E) {
    let _ = if fs::metadata(rt, path).is_ok() {
        writeln!(errors, "  {path}: there is a file of this name")
    } else {
        writeln!(
            errors,
            "  {path}: it can't be made there, there is no room, or it is being made"
        )
    };
}

/// Tells of the texts of an order: of the first that can be seen not to be readable, or of the only one.
fn tell_of_texts<E: Write>(rt: &impl Files<File = File>, asked: &Order<'_>, errors: &mut E) {
    match asked {
        Order::Put(_, _, path) => tell_of_text(rt, *path, errors),
        // (the status of a session is that of its output too)
        Order::Run(_, _, Script { files, .. }) => tell_of_unreadable(rt, files.as_slice(), errors),
        Order::Import(_, _, files, _) | Order::CheckImport(_, _, files, _) => {
            tell_of_first(rt, files.as_slice(), errors)
        }
        _ => {}
    }
}

/// Tells of the first of these files that can be seen not to be readable, or of the only one.
fn tell_of_first<E: Write>(rt: &impl Files<File = File>, files: &[&str], errors: &mut E) {
    match files {
        [path] => tell_of_text(rt, *path, errors),
        _ => tell_of_unreadable(rt, files, errors),
    }
}

/// Tells of the first of these files that can be seen not to be readable.
fn tell_of_unreadable<E: Write>(rt: &impl Files<File = File>, files: &[&str], errors: &mut E) {
    for path in files {
        if cause_of_text(rt, *path).is_some() {
            return tell_of_text(rt, *path, errors);
        }
    }
}

/// Tells of a text.
fn tell_of_text<E: Write>(rt: &impl Files<File = File>, path: &str, errors: &mut E) {
    let _ = match cause_of_text(rt, path) {
        Some(Cause::Missing) => writeln!(errors, "  {path}: no such file"),
        Some(Cause::Folder) => writeln!(errors, "  {path}: a folder"),
        Some(Cause::NotReadable) => writeln!(errors, "  {path}: no right to read it"),
        Some(Cause::Long(bytes)) => {
            writeln!(errors, "  {path}: {bytes} bytes, more than a text may have")
        }
        _ => writeln!(errors, "  {path}"),
    };
}

/// What keeps a file from being read as a text, if anything that can be seen does.
fn cause_of_text(rt: &impl Files<File = File>, path: &str) -> Option<Cause> {
    if let Some(cause) = cause_of_file(rt, path) {
        return Some(cause);
    }
    match fs::metadata(rt, path) {
        Ok(of) if of.is_file() && of.len() > MOST_BYTES as u64 => Some(Cause::Long(of.len())),
        _ => None,
    }
}

/// What keeps a file from being read, if anything does.
fn cause_of_file(rt: &impl Files<File = File>, path: &str) -> Option<Cause> {
    match fs::metadata(rt, path) {
        Ok(of) if of.is_dir() => Some(Cause::Folder),
        // (an opening of a pipe could wait for its other end)
        Ok(of) if !of.is_file() => None,
        Ok(_) => match File::open(rt, path) {
            Err(error) if error.kind() == ErrorKind::PermissionDenied => Some(Cause::NotReadable),
            _ => None,
        },
        Err(error) if error.kind() == ErrorKind::NotFound => Some(Cause::Missing),
        Err(error) if error.kind() == ErrorKind::PermissionDenied => Some(Cause::NotReadable),
        Err(_) => None,
    }
}

/// What keeps a file from being an image that can be opened, if anything of that can be seen.
fn cause_of_image(rt: &impl Files<File = File>, path: &str, is_written: bool) -> Option<Cause> {
    if let Some(cause) = cause_of_file(rt, path) {
        return Some(cause);
    }
    if !is_file(rt, path) {
        return None;
    }
    if is_written && !is_writable(rt, path) {
        return Some(Cause::NotWritable);
    }
    if begins_as_a_text(rt, path) {
        return Some(Cause::Text);
    }
    match fs::metadata(rt, path) {
        Ok(of) if of.is_file() && of.len() < SMALLEST_IMAGE => Some(Cause::Short(of.len())),
        _ => None,
    }
}

/// Whether nothing that can be seen keeps a file from being an image that is run.
fn may_be_run(rt: &impl Files<File = File>, path: &str) -> bool {
    is_file(rt, path) && cause_of_image(rt, path, true).is_none()
}

fn is_file(rt: &impl Files<File = File>, path: &str) -> bool {
    match fs::metadata(rt, path) {
        Ok(of) => of.is_file(),
        Err(_) => false,
    }
}

/// Whether a file may be written: it is opened for that, and nothing is.
fn is_writable(rt: &impl Files<File = File>, path: &str) -> bool {
    match OpenOptions::new().write(true).open(rt, path) {
        Err(error) => error.kind() != ErrorKind::PermissionDenied,
        Ok(_) => true,
    }
}

/// Whether a file has bytes, and no byte below a tab at its beginning. An image's label has zeros.
fn begins_as_a_text(rt: &impl Files<File = File>, path: &str) -> bool {
    let Ok(mut file) = File::open(rt, path) else {
        return false;
    };
    let mut bytes = [0; BEGINNING];
    match file.read(&mut bytes) {
        Ok(count) => 0 < count && bytes[..count].iter().all(|byte| *byte >= b'\t'),
        Err(_) => false,
    }
}
