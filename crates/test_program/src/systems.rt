//! The program over images that are files in memory, whose calls are short, interrupted or fail.
use super::support::{
    DEVICE_FAULT, Left, call_over, call_over_both, make_over, run_over_files, told_of_making,
    transcript,
};
use crate::assertions::{Assert, assert_same};
use sector_disk::{FileFault, HostFault, HostFile, HostFiles};
use std::cell::{Cell, RefCell};
use std::fs;
use std::fs::File;
use std::process::Abort;
use std::rt::Files;
use std::test::Fail;
use test_devices::{MemoryFile, Script};

/// How many sectors an image of 32 blocks has by layout 2.
const SECTORS: u32 = 131;

/// How many calls fill the file of one: a write of each sector, since a call of a file in memory moves no more, and a sync.
const FILLED: u64 = SECTORS as u64 + 1;

/// What the calls of a system's files do, and how many there were.
#[derive(Drop)]
struct Calls {
    most: Cell<usize>,
    interrupted: Cell<u64>,
    fails_at: Cell<u64>,
    made: Cell<u64>,
    writes: Cell<u64>,
    openings: Cell<u64>,
}

impl Calls {
    fn new() -> Calls {
        Calls {
            most: Cell::new(usize::MAX),
            interrupted: Cell::new(0),
            fails_at: Cell::new(u64::MAX),
            made: Cell::new(0),
            writes: Cell::new(0),
            openings: Cell::new(0),
        }
    }

    /// Counts anew, and fails the call of this number, counted from 0.
    fn begin(&self, fails_at: u64) {
        self.made.set(0);
        self.writes.set(0);
        self.openings.set(0);
        self.fails_at.set(fails_at);
    }

    fn next(&self) -> Result<(), HostFault> {
        let made = self.made.get();
        self.made.set(made.saturating_add(1));
        if made == self.fails_at.get() {
            return Err(HostFault::Failed);
        }
        Ok(())
    }

    /// A read or a write, which may be interrupted.
    fn next_moved(&self) -> Result<(), HostFault> {
        let each = self.interrupted.get();
        if each != 0 && self.made.get() % each == 0 {
            self.made.set(self.made.get().saturating_add(1));
            return Err(HostFault::Interrupted);
        }
        self.next()
    }
}

/// A file in memory that was opened.
#[derive(Drop)]
struct Opened<'a> {
    file: &'a RefCell<MemoryFile>,
    calls: &'a Calls,
}

impl HostFile for Opened<'_> {
    ghost use Rattle.std.specs.Prelude.{false, true};

    ghost keeps_model = { λ f. false };

    ghost keeps_sectors = { λ f. false };

    ghost bytes = { λ f. record { content = λ _. 0; synced = λ _. 0; unsynced = λ _. true; unit = λ k. k } };

    ghost extent = { λ f. 0 };

    ghost syncs_settle = { λ f. true };

    ghost time = { λ f. 0 };

    ghost left_since = { λ f t c. Unit {0} };

    ghost present = { λ f keeps k synced. Prim.cc };

    ghost keeps_both = { λ f keeps. keeps };

    ghost by_pages = { λ f keeps. Prim.cc };

    ghost by_sectors = { λ f k keeps. Prim.cc };

    ghost counts_now = { λ f t c le now. tt };

    ghost only_now = { λ f c since k synced. Prim.cc };

    ghost widens = { λ f s t c le since. since };

    fn len(&self) -> u64 {
        match self.file.try_borrow() {
            Ok(file) => file.len(),
            Err(_) => 0,
        }
    }

    fn read_at(&mut self, position: u64, buffer: &mut [u8]) -> Result<usize, HostFault> {
        self.calls.next_moved()?;
        let n = buffer.len().min(self.calls.most.get());
        let (first, _) = buffer.split_at_mut(n);
        match self.file.try_borrow_mut() {
            Ok(mut file) => file.read_at(position, first),
            Err(_) => Err(HostFault::Failed),
        }
    }

    fn write_at(&mut self, position: u64, buffer: &[u8]) -> Result<usize, HostFault> {
        self.calls
            .writes
            .set(self.calls.writes.get().saturating_add(1));
        self.calls.next_moved()?;
        let n = buffer.len().min(self.calls.most.get());
        let (first, _) = buffer.split_at(n);
        match self.file.try_borrow_mut() {
            Ok(mut file) => file.write_at(position, first),
            Err(_) => Err(HostFault::Failed),
        }
    }

    fn sync(&mut self) -> Result<(), HostFault> {
        self.calls.next()?;
        match self.file.try_borrow_mut() {
            Ok(mut file) => file.sync(),
            Err(_) => Err(HostFault::Failed),
        }
    }
}

/// A system of one file, of the name `A`, which is there once it was made.
#[derive(Drop)]
struct OneFile<'a> {
    file: &'a RefCell<MemoryFile>,
    calls: &'a Calls,
    is_there: Cell<bool>,
    // It is being made: it has no name yet, and wasn't let go of.
    is_begun: Cell<bool>,
}

impl<'a> OneFile<'a> {
    /// The file isn't there yet.
    fn new(file: &'a RefCell<MemoryFile>, calls: &'a Calls) -> OneFile<'a> {
        OneFile {
            file,
            calls,
            is_there: Cell::new(false),
            is_begun: Cell::new(false),
        }
    }
}

impl<'a> HostFiles<Opened<'a>> for OneFile<'a> {
    ghost opens = { λ files path file. Unit {0} };

    ghost makes = { λ files path file. Unit {0} };

    ghost named = { λ files path file. Unit {0} };

    fn open(&self, path: &str) -> Result<Opened<'a>, FileFault> {
        self.calls
            .openings
            .set(self.calls.openings.get().saturating_add(1));
        if path != "A" || !self.is_there.get() {
            return Err(FileFault::Cannot);
        }
        Ok(Opened {
            file: self.file,
            calls: self.calls,
        })
    }

    fn make(&self, path: &str) -> Result<Opened<'a>, FileFault> {
        if path != "A" {
            return Err(FileFault::Cannot);
        }
        if self.is_there.get() {
            return Err(FileFault::Exists);
        }
        if self.is_begun.replace(true) {
            return Err(FileFault::InUse);
        }
        Ok(Opened {
            file: self.file,
            calls: self.calls,
        })
    }

    fn keep_name(&self, path: &str, _file: &Opened<'a>) -> Result<(), FileFault> {
        self.calls.next().map_err(|_| FileFault::Cannot)?;
        if path != "A" || !self.is_begun.get() {
            return Err(FileFault::Cannot);
        }
        if self.is_there.replace(true) {
            return Err(FileFault::Exists);
        }
        self.is_begun.set(false);
        Ok(())
    }

    fn drop_made(&self, path: &str, _file: &Opened<'a>) {
        if path == "A" {
            self.is_begun.set(false);
        }
    }
}

/// A file of zeros for an image of 32 blocks.
fn empty(rt: &impl AllocGlobal) -> Result<RefCell<MemoryFile>, Fail> {
    let script = Script {
        most: usize::MAX,
        interrupted: 0,
        fails_after: u64::MAX,
        calls: 0,
    };
    match MemoryFile::new(rt.alloc(), SECTORS, script) {
        Ok(file) => Ok(RefCell::new(file)),
        Err(_) => Err("no memory")?,
    }
}

/// Prints the first cell of both blocks, and what comes of it before the save and after it.
pub(crate) const BOTH: &str = "1 BLOCK @ . 2 BLOCK @ .\n";

pub(crate) const BLANK: &str = "8224 8224  ok\n";

pub(crate) const SEVENS: &str = "7 7  ok\n";

/// Saves 7 in two blocks at once.
pub(crate) const SAVED: &str = "\
> : PUT ( n block -- )  BLOCK ! UPDATE ;
 ok
> : GET ( block -- )  BLOCK @ . ;
 ok
> 7 1 PUT 7 2 PUT SAVE-BUFFERS
 ok
> 1 GET 2 GET
7 7  ok
";

/// A text of two blocks whose first cells are 7.
pub(crate) const SEVENS_FILE: &[u8] = b"\x07\x00\n\n\n\n\n\n\n\n\n\n\n\n\n\n\n\n\x07\x00";

/// What a session saves is there, whatever number of bytes a call moves, and where each third one is interrupted.
#[test]
fn sessions_over_short_calls(rt: HostRuntime) -> Result<(), Fail> {
    for most in [1, 7, 100, 511, 512] {
        let file = empty(&rt)?;
        let calls = Calls::new();
        let files = OneFile::new(&file, &calls);
        calls.most.set(most);
        calls.interrupted.set(3);
        make_over(&rt, &files);
        run_over_files(&rt, &files, SAVED)?;
        run_over_files(&rt, &files, "> 1 BLOCK @ . 2 BLOCK @ .\n7 7  ok\n")?;
    }
    Ok(())
}

/// A session that saves two blocks of a new image, of which call `k` fails.
fn save_failing_at(
    rt: &(impl Files<File = File> + AllocGlobal + Abort),
    files: &OneFile<'_>,
    k: u64,
) -> Result<Left, Fail> {
    make_over(rt, files);
    files.calls.begin(k);
    let (input, _) = transcript(rt, SAVED)?;
    Ok(call_over(rt, files, &["forth83", "run", "A"], input.as_slice()))
}

/// How many calls open an image of which no save is under way: a sync, and two reads, of the label and the gate.
const OPENING: u64 = 3;

/// Each call of a session fails once: it is opened once and no more, and afterwards both blocks are as before, or both as saved. Where the
/// opening fails that is told, and no line is read; a session that was begun goes on to its end.
#[test]
fn sessions_whose_calls_fail(rt: HostRuntime) -> Result<(), Fail> {
    for k in 0..60 {
        let file = empty(&rt)?;
        let calls = Calls::new();
        let files = OneFile::new(&file, &calls);
        let left = save_failing_at(&rt, &files, k)?;
        assert_same!(rt; calls.openings.get(), 1, "at {k}");
        let (status, told) = if k < OPENING {
            (3, DEVICE_FAULT)
        } else {
            (0, "")
        };
        assert_same!(rt;
            (left.status, left.output.is_empty()),
            (status, k < OPENING),
            "at {k}"
        );
        assert_same!(rt; left.errors.as_slice(), told.as_bytes(), "at {k}");
        calls.begin(u64::MAX);
        let left = call_over(&rt, &files, &["forth83", "run", "A"], BOTH.as_bytes());
        let is_so = left.output.as_slice() == BLANK.as_bytes()
            || left.output.as_slice() == SEVENS.as_bytes();
        assert!(rt; is_so, "at {k}");
    }
    Ok(())
}

/// Each call of an import fails once: it is told, and afterwards both blocks are as before, or both as the file has them. A check makes no
/// call.
#[test]
fn imports_whose_calls_fail(rt: HostRuntime) -> Result<(), Fail> {
    fs::write(&rt, "program_import", SEVENS_FILE)?;
    let words = ["forth83", "import", "A", "1", "program_import", "--check"].as_slice();
    let (import, _) = words.split_at(5);
    assert_same!(rt; saving_fails(&rt, words, SEVENS, u64::MAX)?, 0);
    each_call_of_a_save_fails(&rt, import, SEVENS)?;
    fs::remove_file(&rt, "program_import")?;
    Ok(())
}

/// And so does each call of a `put`, of one block.
#[test]
fn puts_whose_calls_fail(rt: HostRuntime) -> Result<(), Fail> {
    fs::write(&rt, "program_put_fails", b"\x07\x00")?;
    let words = ["forth83", "put", "A", "1", "program_put_fails"];
    each_call_of_a_save_fails(&rt, &words, "7 8224  ok\n")?;
    fs::remove_file(&rt, "program_put_fails")?;
    Ok(())
}

/// Each call of a command that saves fails once.
fn each_call_of_a_save_fails(
    rt: &(impl Files<File = File> + AllocGlobal + Abort),
    words: &[&str],
    saved: &str,
) -> Result<(), Fail> {
    let calls = saving_fails(rt, words, saved, u64::MAX)?;
    assert!(rt; calls > OPENING, "{calls}");
    for k in 0..calls {
        let _ = saving_fails(rt, words, saved, k)?;
    }
    Ok(())
}

/// Saves blocks, where the call of this number fails, which is told. Both blocks are blank then, or as saved. Gives how many calls there
/// were.
fn saving_fails(
    rt: &(impl Files<File = File> + AllocGlobal + Abort),
    words: &[&str],
    saved: &str,
    fails_at: u64,
) -> Result<u64, Fail> {
    let file = empty(rt)?;
    let calls = Calls::new();
    let files = OneFile::new(&file, &calls);
    make_over(rt, &files);
    calls.begin(fails_at);
    let left = call_over(rt, &files, words, b"");
    assert_same!(rt;
        (left.output.len(), calls.openings.get()),
        (0, 1),
        "at {fails_at}"
    );
    if fails_at == u64::MAX {
        assert_same!(rt; left.status, 0);
    } else {
        assert_same!(rt;
            (left.status, left.errors.as_slice()),
            (3, DEVICE_FAULT.as_bytes()),
            "at {fails_at}"
        );
    }
    let made = calls.made.get();
    calls.begin(u64::MAX);
    let left = call_over(rt, &files, &["forth83", "run", "A"], BOTH.as_bytes());
    let is_blank = left.output.as_slice() == BLANK.as_bytes();
    let is_saved = left.output.as_slice() == saved.as_bytes();
    assert!(rt; is_blank || is_saved, "at {fails_at}");
    Ok(made)
}

/// Each sixteenth call of `new` fails once, the last one too, which gives the name, and those where the file was just filled: it is told, and nothing has the
/// name.
#[test]
fn images_whose_making_fails(rt: HostRuntime) -> Result<(), Fail> {
    let file = empty(&rt)?;
    let calls = Calls::new();
    let files = OneFile::new(&file, &calls);
    make_over(&rt, &files);
    let made = calls.made.get();
    // After the file is filled: a sync and a read of the label, gate and record, both sectors of each home, a sync, the label and a sync, and its name.
    assert_same!(rt; made, FILLED + 2 + 2 + 2 * 32 + 1 + 2 + 1);
    for k in (0..made).rev().step_by(16) {
        making_fails(&rt, k, made)?;
    }
    making_fails(&rt, FILLED - 1, made)?;
    making_fails(&rt, FILLED, made)
}

/// Makes an image, of which the call of this number fails, of so many. Nothing has its name then, and the next making goes well.
fn making_fails(
    rt: &(impl Files<File = File> + AllocGlobal + Abort),
    k: u64,
    made: u64,
) -> Result<(), Fail> {
    let file = empty(rt)?;
    let calls = Calls::new();
    let files = OneFile::new(&file, &calls);
    calls.begin(k);
    let words = ["forth83", "new", "A", "--blocks", "32"].as_slice();
    let left = call_over(rt, &files, words, b"");
    assert_same!(rt; (left.status, left.output.is_empty()), (3, true), "at {k}");
    assert_same!(rt;
        left.errors.as_slice(),
        told_of_making(k, FILLED, made).as_bytes(),
        "at {k}"
    );
    assert!(rt; !files.is_there.get(), "at {k}");
    let left = call_over(rt, &files, words, b"");
    assert_same!(rt;
        (left.status, left.errors.as_slice()),
        (0, b"".as_slice()),
        "at {k}"
    );
    Ok(())
}

/// A block that was put aside for a fifth one and never saved is given up; and what only reads writes nothing.
#[test]
fn what_is_put_aside_is_given_up(rt: HostRuntime) -> Result<(), Fail> {
    let file = empty(&rt)?;
    let calls = Calls::new();
    let files = OneFile::new(&file, &calls);
    make_over(&rt, &files);
    run_over_files(&rt, &files, SAVED)?;
    let aside = "> 9 1 BLOCK ! UPDATE 3 BLOCK 4 BLOCK 5 BLOCK 6 BLOCK 1 BLOCK @ .\n9  ok\n";
    run_over_files(&rt, &files, aside)?;
    calls.begin(u64::MAX);
    run_over_files(&rt, &files, "> 1 BLOCK @ . 2 BLOCK @ .\n7 7  ok\n")?;
    let left = call_over(&rt, &files, &["forth83", "list", "A", "1"], b"");
    assert_same!(rt; (left.status, calls.writes.get()), (0, 0));
    run_over_files(&rt, &files, "> 1 BLOCK @ . 2 BLOCK @ .\n7 7  ok\n")
}

/// What is told of an image of 32 blocks, of which no save is under way, with blank blocks, and with 7 in two of them.
const CHECKED_BLANK: &str = "\
bytes: 67072
layout: 2
blocks: 32
save under way: none
sha256: e8ff7e9b520474a6f067f1c6c8a6ba49ec191b9b7ae24ce74ccc1bf7543d250a
";

const CHECKED_SEVENS: &str = "\
bytes: 67072
layout: 2
blocks: 32
save under way: none
sha256: 79f7d73a213219cf214e37c633a0810ff10fe19dfe22cd4696e217b3c6d6192a
";

const CHECK: [&str; 3] = ["forth83", "check", "A"];

/// The digests are those of all blocks. Each call of a check fails once: it is told, nothing is printed, and nothing written.
#[test]
fn checks_whose_calls_fail(rt: HostRuntime) -> Result<(), Fail> {
    let file = empty(&rt)?;
    let calls = Calls::new();
    let files = OneFile::new(&file, &calls);
    make_over(&rt, &files);
    let left = call_over(&rt, &files, CHECK.as_slice(), b"");
    assert_same!(rt; left.status, 0);
    assert_same!(rt; left.output.as_slice(), CHECKED_BLANK.as_bytes());
    run_over_files(&rt, &files, SAVED)?;
    calls.begin(u64::MAX);
    let left = call_over(&rt, &files, CHECK.as_slice(), b"");
    assert_same!(rt; left.status, 0);
    assert_same!(rt; left.output.as_slice(), CHECKED_SEVENS.as_bytes());
    assert_same!(rt;
        (calls.openings.get(), calls.writes.get(), calls.made.get()),
        (1, 0, 66)
    );
    for k in 0..66 {
        calls.begin(k);
        let left = call_over(&rt, &files, CHECK.as_slice(), b"");
        assert_same!(rt; (left.status, left.output.is_empty()), (3, true), "at {k}");
        assert_same!(rt; left.errors.as_slice(), DEVICE_FAULT.as_bytes(), "at {k}");
        assert_same!(rt; calls.writes.get(), 0, "at {k}");
    }
    Ok(())
}

/// Each of so many calls of a command fails once: it is told, nothing is printed, and nothing written.
fn check_each_call(
    rt: &(impl Files<File = File> + AllocGlobal + Abort),
    files: &OneFile,
    words: &[&str],
    count: u64,
) -> Result<(), Fail> {
    files.calls.begin(u64::MAX);
    let left = call_over(rt, files, words, b"");
    assert_same!(rt; (left.status, files.calls.made.get()), (0, count));
    for k in 0..count {
        files.calls.begin(k);
        let left = call_over(rt, files, words, b"");
        assert_same!(rt; (left.status, left.output.is_empty()), (3, true), "at {k}");
        assert_same!(rt; left.errors.as_slice(), DEVICE_FAULT.as_bytes(), "at {k}");
        assert_same!(rt; files.calls.writes.get(), 0, "at {k}");
    }
    Ok(())
}

/// An opening syncs, and reads label and gate; then both sectors of the block are read.
#[test]
fn listings_whose_calls_fail(rt: HostRuntime) -> Result<(), Fail> {
    let file = empty(&rt)?;
    let calls = Calls::new();
    let files = OneFile::new(&file, &calls);
    make_over(&rt, &files);
    check_each_call(&rt, &files, &["forth83", "list", "A", "1"], 5)?;
    check_each_call(&rt, &files, &["forth83", "export", "A", "1", "1"], 5)
}

/// Each call of a session fails once, and the digest that is told then is the one after the recovery. Where a save is under way, it is
/// told that it has two blocks.
#[test]
fn checks_before_a_recovery(rt: HostRuntime) -> Result<(), Fail> {
    let mut under_way: u32 = 0;
    for k in 0..60 {
        let file = empty(&rt)?;
        let calls = Calls::new();
        let files = OneFile::new(&file, &calls);
        let _ = save_failing_at(&rt, &files, k)?;
        calls.begin(u64::MAX);
        let before = call_over(&rt, &files, CHECK.as_slice(), b"");
        assert_same!(rt; (before.status, calls.writes.get()), (0, 0), "at {k}");
        let _ = call_over(&rt, &files, &["forth83", "run", "A"], b"");
        let after = call_over(&rt, &files, CHECK.as_slice(), b"");
        let before = str::from_utf8(before.output.as_slice()).unwrap_or("?");
        let after = str::from_utf8(after.output.as_slice()).unwrap_or("!");
        if before.contains(": 2 blocks, digest true\n") {
            under_way = under_way.saturating_add(1);
        }
        assert!(rt; after.contains(": none\n"), "at {k}");
        assert_same!(rt; digest_in(before), digest_in(after), "at {k}");
    }
    assert!(rt; under_way > 4, "{under_way}");
    Ok(())
}

/// The digest that a check told.
fn digest_in(text: &str) -> &str {
    match text.split_once("sha256: ") {
        Some((_, digest)) => digest,
        None => text,
    }
}

/// A system whose files can't be opened for writing, and why.
#[derive(Drop)]
struct Unwritable<'a, 'b> {
    files: &'b OneFile<'a>,
    fault: FileFault,
}

impl<'a> HostFiles<Opened<'a>> for Unwritable<'a, '_> {
    ghost opens = { λ files path file. Unit {0} };

    ghost makes = { λ files path file. Unit {0} };

    ghost named = { λ files path file. Unit {0} };

    fn open(&self, _path: &str) -> Result<Opened<'a>, FileFault> {
        match self.fault {
            FileFault::InUse => Err(FileFault::InUse),
            _ => Err(FileFault::Cannot),
        }
    }

    fn make(&self, path: &str) -> Result<Opened<'a>, FileFault> {
        self.files.make(path)
    }

    fn keep_name(&self, path: &str, file: &Opened<'a>) -> Result<(), FileFault> {
        self.files.keep_name(path, file)
    }

    fn drop_made(&self, path: &str, file: &Opened<'a>) {
        self.files.drop_made(path, file)
    }
}

/// The system whose files may only be read.
fn for_reading<'a, 'b>(files: &'b OneFile<'a>) -> Unwritable<'a, 'b> {
    Unwritable {
        files,
        fault: FileFault::Cannot,
    }
}

/// Lists a block of an image that may only be read.
fn list_unwritable(
    rt: &(impl Files<File = File> + AllocGlobal),
    files: &OneFile,
    block: &str,
) -> Left {
    call_over_both(
        rt,
        &for_reading(files),
        files,
        &["forth83", "list", "A", block],
        b"",
    )
}

/// What a listing of an image that may only be read tells, and that nothing was printed and written.
fn check_unlisted(
    rt: &(impl Files<File = File> + AllocGlobal + Abort),
    files: &OneFile,
    block: &str,
    text: &str,
) -> Result<(), Fail> {
    let left = list_unwritable(rt, files, block);
    let wanted = format!(in rt.alloc(); "forth83: image: {text}\n")?;
    assert_same!(rt; (left.status, left.output.is_empty()), (3, true), "{text}");
    assert_same!(rt; left.errors.as_slice(), wanted.as_bytes(), "{text}");
    assert_same!(rt; files.calls.writes.get(), 0, "{text}");
    Ok(())
}

/// Each call of a session fails once. What is listed then of the image that may only be read is what is listed after the recovery, of a
/// save that is under way too; nothing is written, and the image stays as it was.
#[test]
fn listings_before_a_recovery(rt: HostRuntime) -> Result<(), Fail> {
    let mut under_way: u32 = 0;
    for k in 0..60 {
        let file = empty(&rt)?;
        let calls = Calls::new();
        let files = OneFile::new(&file, &calls);
        let _ = save_failing_at(&rt, &files, k)?;
        calls.begin(u64::MAX);
        let before = list_unwritable(&rt, &files, "2");
        assert_same!(rt; (before.status, calls.openings.get()), (0, 1), "at {k}");
        // The gate, the record and the two slots that it lists are read besides the label and the block.
        let made = calls.made.get();
        assert!(rt; made == 4 || made == 9, "at {k}");
        let told = call_over(&rt, &files, CHECK.as_slice(), b"");
        assert_same!(rt; calls.writes.get(), 0, "at {k}");
        let told = str::from_utf8(told.output.as_slice()).unwrap_or("?");
        assert_same!(rt;
            told.contains(": 2 blocks, digest true\n"),
            made == 9,
            "at {k}"
        );
        if made == 9 {
            under_way = under_way.saturating_add(1);
            assert!(rt; before.output.as_slice().starts_with(b".. "), "at {k}");
        }
        let after = call_over(&rt, &files, &["forth83", "list", "A", "2"], b"");
        assert_same!(rt; after.status, 0, "at {k}");
        assert_same!(rt; before.output.as_slice(), after.output.as_slice(), "at {k}");
    }
    assert!(rt; under_way > 4, "{under_way}");
    Ok(())
}

/// An image that may only be read is refused as by an opening, and then for its block.
#[test]
fn listings_that_are_refused(rt: HostRuntime) -> Result<(), Fail> {
    let file = empty(&rt)?;
    let calls = Calls::new();
    let files = OneFile::new(&file, &calls);
    check_unlisted(&rt, &files, "1", "cannot open")?;
    make_over(&rt, &files);
    run_over_files(&rt, &files, SAVED)?;
    calls.begin(u64::MAX);
    check_unlisted(&rt, &files, "32", "no block")?;
    check_unlisted(&rt, &files, "65535", "no block")?;
    for k in 0..4 {
        calls.begin(k);
        check_unlisted(&rt, &files, "1", "device fault")?;
    }
    calls.begin(u64::MAX);
    let in_use = Unwritable {
        files: &files,
        fault: FileFault::InUse,
    };
    // In use where it is opened for writing, it is opened for reading.
    let left = call_over_both(&rt, &in_use, &files, &["forth83", "list", "A", "1"], b"");
    assert_same!(rt; (left.status, calls.openings.get()), (0, 1));
    assert!(rt; left.errors.is_empty());
    // It may not be written, and is in use where it is opened for reading.
    let left = call_over_both(
        &rt,
        &for_reading(&files),
        &in_use,
        &["forth83", "list", "A", "1"],
        b"",
    );
    assert_same!(rt;
        left.errors.as_slice(),
        b"forth83: image: in use\n".as_slice()
    );
    // An open gate over a record whose digest isn't that of its bits; and before it the label.
    overwrite_file(&rt, &files, 512, b"COMMIT83")?;
    overwrite_file(&rt, &files, 1024, b"\xff")?;
    calls.begin(u64::MAX);
    check_unlisted(&rt, &files, "1", "damaged")?;
    check_unlisted(&rt, &files, "32", "damaged")?;
    overwrite_file(&rt, &files, 0, b"f")?;
    calls.begin(u64::MAX);
    check_unlisted(&rt, &files, "1", "no label")
}

/// Puts bytes into the file.
fn overwrite_file(rt: &impl Abort, files: &OneFile, at: u64, bytes: &[u8]) -> Result<(), Fail> {
    match files.file.try_borrow_mut() {
        Ok(mut file) => match file.write_at(at, bytes) {
            Ok(n) => assert_same!(rt; n, bytes.len()),
            Err(_) => return Err(Fail::from("it can't be written")),
        },
        Err(_) => return Err(Fail::from("it is open")),
    }
    Ok(())
}
