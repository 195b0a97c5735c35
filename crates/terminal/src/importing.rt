//! Many blocks at once, saved.
//! Rule: MANUAL, forth83 import IMAGE FIRST FILE .. [--raw] [--check].
ghost use Rattle.std.specs.Prelude.{◌≡◌, ◌≢◌, ◌⊎◌, ◌<◌, ◌≤◌, ◌+◌, ◌-◌, ◌*◌, ◌++◌, ℕ, List, Some, None, length, take, drop, replicate, true, false, OnOk, IfErr, IfOk, IfSome, MatchBool, vec_len};
ghost use Rattle.std.specs.Io.KnownBytes.{Consumes, IsAtEnd};
ghost use Rattle.journal.specs.Calls.{StopsLeave};
ghost use Rattle.journal.specs.Maps.{Maps, latest};
ghost use Rattle.journal.specs.Costs.{spill_reads, spill_writes};
ghost use Rattle.journal.specs.Store.{Continues, DeviceBegins, DeviceFailed, DeviceReads, DeviceWentWell, KeepsSaved, MeansBy, StandsFor, blocks_of, by_older, closed_of, device_of, pending_count};
ghost use Rattle.shadow.specs.Label.{is_known_size};
ghost use Rattle.terminal.specs.Done.{LooksAt};
ghost use Rattle.terminal.specs.Failed.{IsOfTexts};
ghost use Rattle.terminal.specs.Findings.{AreSound, blocks_for, in_blocks, refusal, said, said_all, told};
ghost use Rattle.terminal.specs.Imported.{Imports, ImportsSome, LeavesImported, Spills, SpillsNext};
ghost use Rattle.terminal.specs.Texts.{AreTexts, OneIsUnread};
ghost use Rattle.terminal.specs.Transfer.{as_blocks, block_of, spilled_from};

use super::failure::Failure;
use super::findings::{
    Finding, Screens, add_blanks as add_more_blanks, blocks_for, read_screens, refusal,
};
use super::screen::{BLOCK, add_blanks};
use super::world::World;
use arrayvec::ArrayVec;
use command_line::orders::Form;
use journal::sizes::known_blocks;
use sector_disk::SectorDevice;
use sessions::streams::read_byte;
use std::alloc::{AllocError, Global};
use std::io::{Read, Write};
use stores::Store;

/// The bytes of the longest text for an image: 61,440 lines of 64 bytes, a carriage return and a line feed.
pub(super) const MOST_BYTES: usize = 4_055_040;

/// Makes the blocks that files say those of a store from `first` on, in one save. Each file begins a block. The
/// refusals of the first file that is refused are told in lines of `errors`. Its failures: those of `read_blocks`, at
/// which nothing is written, and then `Device` where a call of the device failed, or the store is closed.
pub fn import_files<X: World, D: SectorDevice, E: Write>(
    alloc: Global,
    world: &X,
    store: &mut Store<D>,
    first: u16,
    paths: &[&str],
    form: Form,
    errors: &mut E,
) -> Result<(), Failure>
    ensures imported { OnOk result (ImportsSome form first
        (AreTexts (X.gives world.now).is_text paths.now) store.old store.new) }
    ensures kept { LeavesImported form first
        (AreTexts (X.gives world.now).is_text paths.now) store.old store.new }
    ensures cannot { IfErr result (λ e. e ≡ Failure.CannotRead
        → OneIsUnread (X.gives world.now).is_unread paths.now) }
    ensures unread { IfErr result (λ e. e ≢ Failure.Device → store.new ≡ store.old) }
    ensures device { IfErr result (λ e. e ≡ Failure.Device
        → (closed_of store.old ≡ true) ⊎ DeviceFailed store.old store.new) }
    // Whatever the answer is, no more is written and read than for all blocks from `first` on.
    ensures begins { DeviceBegins store.old store.new (2 * pending_count store.old + 4 * (blocks_of store.old - first) + 3) 4 }
    ensures reads { DeviceReads store.old store.new (4 * pending_count store.old + 4 * (blocks_of store.old - first)) }
    ensures continues { Continues store.old store.new }
    ensures only { IfErr result (λ e. (e ≡ Failure.Device) ⊎ IsOfTexts e) }
{
    match read_blocks(
        alloc,
        world,
        store.blocks(),
        first,
        paths,
        form,
        false,
        errors,
    ) {
        Ok(bytes) => import_bytes(store, first, bytes.as_slice()),
        Err(failure) => Err(failure),
    }
}

/// The bytes of the blocks that files say, each file from the beginning of one on, where there are blocks for them
/// from `first` on, of `blocks` in all. The files are read one after another, up to the first of which a failure comes.
/// The refusals of one that is refused are told in lines of `errors`, and with `all` whatever else is told of each. Its
/// failures: `NoBlock` where `first` isn't there; then of each file in turn `CannotRead` where it can't be read,
/// `NoMemory`, and that of its first refusal: `NotAScreen` or `NoBlock`.
pub fn read_blocks<X: World, E: Write>(
    alloc: Global,
    world: &X,
    blocks: u16,
    first: u16,
    paths: &[&str],
    form: Form,
    all: bool,
    errors: &mut E,
) -> Result<Vec<u8>, Failure>
    ensures said { IfOk result (λ bytes. (files : List (List ℕ)) × AreTexts (X.gives world.now).is_text paths.now
        files × AreSound form (blocks - first) files × (bytes.items ≡ said_all form files)) }
    ensures cannot { IfErr result (λ e. e ≡ Failure.CannotRead
        → OneIsUnread (X.gives world.now).is_unread paths.now) }
    ensures below { OnOk result (first < blocks) }
    ensures there { IfOk result (λ bytes. first + blocks_for (length bytes.items) ≤ blocks) }
    ensures only { IfErr result (λ e. IsOfTexts e) }
{
    if first >= blocks {
        return Err(Failure::NoBlock);
    }
    let mut bytes = Vec::new(alloc);
    match add_files(
        alloc,
        world,
        &mut bytes,
        blocks - first,
        paths,
        form,
        all,
        errors,
    ) {
        Ok(()) => Ok(bytes),
        Err(reason) => Err(reason),
    }
}

/// Adds the bytes of the blocks that files say, for which so many blocks are there.
fn add_files<X: World, E: Write>(
    alloc: Global,
    world: &X,
    bytes: &mut Vec<u8>,
    room: u16,
    paths: &[&str],
    form: Form,
    all: bool,
    errors: &mut E,
) -> Result<(), Failure>
    ensures added { OnOk result ((files : List (List ℕ)) × AreTexts (X.gives world.now).is_text paths.now files
        × AreSound form room files × (bytes.new.items ≡ bytes.old.items ++ said_all form files)) }
    ensures cannot { IfErr result (λ e. e ≡ Failure.CannotRead
        → OneIsUnread (X.gives world.now).is_unread paths.now) }
    ensures only { IfErr result (λ e. IsOfTexts e) }
{
    let mut left = room;
    let mut rest = paths;
    while let [path, others @ ..] = rest {
        left = match add_file(alloc, world, bytes, left, *path, form, all, errors) {
            Ok(more) => more,
            Err(failure) => return Err(failure),
        };
        rest = others;
    }
    Ok(())
}

/// Adds the bytes of the blocks that a file says, for which so many blocks are there, and answers how many are left.
fn add_file<X: World, E: Write>(
    alloc: Global,
    world: &X,
    bytes: &mut Vec<u8>,
    room: u16,
    path: &str,
    form: Form,
    all: bool,
    errors: &mut E,
) -> Result<u16, Failure>
    ensures added { IfOk result (λ left. (file : List ℕ) × (X.gives world.now).is_text path.now file
        × (refusal (told form room file) ≡ None) × (left ≡ room - blocks_for (length (said form file))) × (bytes.new.items ≡ bytes.old.items ++ in_blocks (said form file))) }
    ensures cannot { IfErr result (λ e. e ≡ Failure.CannotRead
        → (X.gives world.now).is_unread path.now) }
    ensures only { IfErr result (λ e. IsOfTexts e) }
{
    let said = read_file(alloc, world, room, path, form, all, errors)?;
    match add_in_blocks(bytes, said.as_slice()) {
        Ok(()) => Ok(room - blocks_for(said.as_slice()) as u16),
        Err(AllocError) => Err(Failure::NoMemory),
    }
}

/// Adds bytes, and blanks up to the end of their last block.
fn add_in_blocks(bytes: &mut Vec<u8>, said: &[u8]) -> Result<(), AllocError>
    ensures { OnOk result (bytes.new.items ≡ bytes.old.items ++ in_blocks said.now) }
{
    bytes.extend_from_slice(said)?;
    add_more_blanks(bytes, (BLOCK - said.len() % BLOCK) % BLOCK)
}

/// The bytes that the text of a name says, where nothing of it is refused. Its refusals are told, and with `all`
/// whatever is told of it, also where nothing is refused.
fn read_file<X: World, E: Write>(
    alloc: Global,
    world: &X,
    room: u16,
    path: &str,
    form: Form,
    all: bool,
    errors: &mut E,
) -> Result<Vec<u8>, Failure>
    ensures said { IfOk result (λ bytes. (file : List ℕ) × (X.gives world.now).is_text path.now file
        × (refusal (told form room file) ≡ None) × (bytes.items ≡ said form file)) }
    ensures cannot { IfErr result (λ e. e ≡ Failure.CannotRead
        → (X.gives world.now).is_unread path.now) }
    ensures there { IfOk result (λ bytes. blocks_for (length bytes.items) ≤ room) }
    ensures only { IfErr result (λ e. IsOfTexts e) }
{
    match world.text(path) {
        Ok(mut reader) => read_said(alloc, room, path, form, all, &mut reader, errors),
        Err(unread) => Err(unread),
    }
}

/// The bytes that the text says which a reader has left: the same.
fn read_said<R: Read, E: Write>(
    alloc: Global,
    room: u16,
    path: &str,
    form: Form,
    all: bool,
    reader: &mut R,
    errors: &mut E,
) -> Result<Vec<u8>, Failure>
    ensures said { IfOk result (λ bytes. (file : List ℕ) × IfSome (R.remaining reader.old) (λ left. file ≡ left)
        × (refusal (told form room file) ≡ None) × (bytes.items ≡ said form file)) }
    ensures there { IfOk result (λ bytes. blocks_for (length bytes.items) ≤ room) }
    ensures only { IfErr result (λ e. IsOfTexts e) }
{
    let file = read_all(alloc, reader)?;
    let bytes = take_said(alloc, room, path, form, all, file.as_slice(), errors)?;
    // Something of a longer text was refused, since no image has blocks for it.
    if file.len() > MOST_BYTES {
        return Err(Failure::NoBlock);
    }
    Ok(bytes)
}

/// The bytes that a file says, where nothing of it is refused. Its refusals are told, and with `all` whatever is told
/// of it, also where nothing is refused.
fn take_said<E: Write>(
    alloc: Global,
    room: u16,
    path: &str,
    form: Form,
    all: bool,
    file: &[u8],
    errors: &mut E,
) -> Result<Vec<u8>, Failure>
    ensures sound { OnOk result (refusal (told form room file.now) ≡ None) }
    ensures said { IfOk result (λ bytes. bytes.items ≡ said form file.now) }
    ensures there { IfOk result (λ bytes. blocks_for (length bytes.items) ≤ room) }
    ensures only { IfErr result (λ e. IsOfTexts e) }
{
    let Ok(screens) = read_screens(alloc, form, room, file) else {
        return Err(Failure::NoMemory);
    };
    tell(path, screens.found.as_slice(), all, errors);
    refusal(screens.found.as_slice())?;
    let Screens { bytes, .. } = screens;
    Ok(bytes)
}

/// Reads to the end, or one byte more than the longest text for an image. Bytes are read one by one.
pub(super) fn read_all<R: Read>(alloc: Global, reader: &mut R) -> Result<Vec<u8>, Failure>
    ensures given { IfOk result (λ file. Consumes (R.remaining reader.old) (R.remaining reader.new) file.items) }
    ensures whole { IfOk result (λ file. vec_len file ≤ 4055040 → IsAtEnd (R.remaining reader.new)) }
    ensures only { IfErr result (λ e. (e ≡ Failure.CannotRead) ⊎ (e ≡ Failure.NoMemory)) }
{
    let mut file = Vec::new(alloc);
    while file.len() <= MOST_BYTES {
        match read_byte(reader) {
            Ok(Some(byte)) => file.push(byte).map_err(|_| Failure::NoMemory)?,
            Ok(None) => return Ok(file),
            Err(_) => return Err(Failure::CannotRead),
        }
    }
    Ok(file)
}

/// Tells what was found in a file: its refusals, or all of it.
fn tell<E: Write>(path: &str, found: &[Finding], all: bool, errors: &mut E) {
    for finding in found {
        if all || finding.refusal().is_err() {
            let _ = writeln!(errors, "{path}:{finding}");
        }
    }
}

/// Makes bytes the blocks from `first` on, in one save. Blanks fill up the last one.
fn import_bytes<D: SectorDevice>(
    store: &mut Store<D>,
    first: u16,
    bytes: &[u8],
) -> Result<(), Failure>
    requires there { first + blocks_for (length bytes.now) ≤ blocks_of store.old }
    ensures imported { OnOk result (Imports first (as_blocks bytes.now) store.old store.new) }
    ensures kept { (m : Maps) → StandsFor store.old m → m.closed ≡ false
        → StopsLeave D.SectorDevice (device_of store.old) (device_of store.new) (λ image. MeansBy store.old m.saved image
        ⊎ MeansBy store.old (latest (spilled_from m first (as_blocks bytes.now))) image) }
    ensures only { IfErr result (λ e. e ≡ Failure.Device) }
    ensures device { IfErr result (λ e. (closed_of store.old ≡ true) ⊎ DeviceFailed store.old store.new) }
    ensures begins { DeviceBegins store.old store.new (2 * pending_count store.old + 4 * blocks_for (length bytes.now) + 3) 4 }
    ensures reads { DeviceReads store.old store.new (4 * pending_count store.old + 4 * blocks_for (length bytes.now)) }
    ensures continues { Continues store.old store.new }
{
    spill_blocks(store, first, bytes)?;
    match store.commit() {
        Ok(()) => Ok(()),
        Err(_) => Err(Failure::Device),
    }
}

/// Spills bytes as the blocks from `first` on.
fn spill_blocks<D: SectorDevice>(
    store: &mut Store<D>,
    first: u16,
    bytes: &[u8],
) -> Result<(), Failure>
    requires there { first + blocks_for (length bytes.now) ≤ blocks_of store.old }
    ensures spilled { OnOk result (Spills first (as_blocks bytes.now) store.old store.new) }
    ensures stops { KeepsSaved store.old store.new }
    ensures only { IfErr result (λ e. e ≡ Failure.Device) }
    ensures device { IfErr result (λ e. (closed_of store.old ≡ true) ⊎ DeviceFailed store.old store.new) }
    ensures begins { DeviceBegins store.old store.new (spill_writes (by_older store.old) * blocks_for (length bytes.now)) 0 }
    ensures reads { DeviceReads store.old store.new (spill_reads (by_older store.old) * blocks_for (length bytes.now)) }
    ensures continues { Continues store.old store.new }
{
    let mut left = bytes;
    for block in first..store.blocks() {
        if left.is_empty() {
            return Ok(());
        }
        left = spill_next(store, block, left)?;
    }
    Ok(())
}

/// Spills the first of these bytes as a block, and gives the bytes after it.
fn spill_next<'a, D: SectorDevice>(
    store: &mut Store<D>,
    block: u16,
    bytes: &'a [u8],
) -> Result<&'a [u8], Failure>
    requires below { block < blocks_of store.old }
    ensures spilled { OnOk result (SpillsNext block (block_of bytes.now) store.old store.new) }
    ensures left { IfOk result (λ left. left.now ≡ drop 1024 bytes.now) }
    ensures stops { KeepsSaved store.old store.new }
    ensures only { IfErr result (λ e. e ≡ Failure.Device) }
    ensures device { IfErr result (λ e. (closed_of store.old ≡ true) ⊎ DeviceFailed store.old store.new) }
    ensures well { OnOk result (DeviceWentWell store.old store.new) }
    ensures continues { Continues store.old store.new }
    ensures begins { DeviceBegins store.old store.new (spill_writes (by_older store.old)) 0 }
    ensures reads { DeviceReads store.old store.new (spill_reads (by_older store.old)) }
{
    let (piece, left) = cut_block(bytes);
    match store.spill(block, filled(piece).as_slice()) {
        Ok(()) => Ok(left),
        Err(_) => Err(Failure::Device),
    }
}

/// The bytes of the first block, and those after it.
fn cut_block(bytes: &[u8]) -> (&[u8], &[u8])
    ensures piece { result.0.now ≡ take 1024 bytes.now }
    ensures left { result.1.now ≡ drop 1024 bytes.now }
    ensures short { length result.0.now ≤ 1024 }
{
    if bytes.len() < BLOCK {
        return (bytes, &[]);
    }
    bytes.split_at(BLOCK)
}

/// A block that begins with these bytes. Blanks fill it up.
fn filled(bytes: &[u8]) -> ArrayVec<u8, BLOCK>
    requires { length bytes.now ≤ 1024 }
    ensures { result.items ≡ bytes.now ++ replicate (1024 - length bytes.now) 32 }
{
    let mut block = ArrayVec::new();
    let mut rest = bytes;
    while let [byte, others @ ..] = rest {
        block.push(*byte);
        rest = others;
    }
    add_blanks(&mut block, BLOCK - bytes.len());
    block
}

/// Tells in lines of `errors` whatever is told of files that would be imported into the image on a device, up to the
/// first that is refused. Only its size is looked at, and no call of it is made. Its failures: `BadSize` where it has
/// the size of none, then those of `read_blocks`.
/// Rule: MANUAL, forth83 import IMAGE FIRST FILE .. [--raw] [--check].
pub(super) fn check_files<X: World, D: SectorDevice, W: Write>(
    alloc: Global,
    world: &X,
    device: &D,
    first: u16,
    sources: &[&str],
    form: Form,
    errors: &mut W,
) -> Result<(), Failure>
    ensures looked { OnOk result (LooksAt D.SectorDevice form first
        (AreTexts (X.gives world.now).is_text sources.now) device.now device.now) }
    ensures cannot { IfErr result (λ e. e ≡ Failure.CannotRead
        → OneIsUnread (X.gives world.now).is_unread sources.now) }
    ensures told { IfErr result (λ e. MatchBool (is_known_size (D.sector_count device.now)) (IsOfTexts e) (e ≡ Failure.BadSize)) }
{
    let Some(blocks) = known_blocks(device.sectors()) else {
        return Err(Failure::BadSize);
    };
    let _bytes = match read_blocks(alloc, world, blocks, first, sources, form, true, errors) {
        Ok(bytes) => bytes,
        Err(failure) => return Err(failure),
    };
    Ok(())
}
