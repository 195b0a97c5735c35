//! The standard streams of the program: outputs that fail, inputs that fail, and how many calls reach them.
use super::layout_3_images_in_memory::PAGES_NO_RECOVERY;
use super::streams::{Failing, Narrow};
use super::support::{call, check, command, fresh_folder, overwrite};
use crate::assertions::{Assert, assert_same};
use sessions::ByteReader;
use std::cell::Cell;
use std::fs::{File, OpenOptions};
use std::io::{BufReader, BufWriter, Read, Write};
use std::process::Abort;
use std::rt::Files;
use std::test::Fail;
use std::{fs, io};
use terminal::Failure;

/// Calls the program with an output of so much room.
fn check_narrow(
    rt: &(impl Files<File = File> + AllocGlobal + Abort),
    words: &[&str],
    room: usize,
    failing: Failing,
) {
    let mut output = Narrow::new(rt.alloc(), room, failing);
    let mut errors: Vec<u8> = Vec::new(rt.alloc());
    let status = command(
        rt,
        words,
        &mut b"1 2 + .\n".as_slice(),
        &mut output,
        &mut errors,
    );
    assert_same!(rt; status, 4, "{words:?}");
    let text = b"forth83: output: cannot write\n".as_slice();
    assert_same!(rt; errors.as_slice(), text, "{words:?}");
    assert_same!(rt; output.written().len(), room, "{words:?}");
}

#[test]
fn outputs_that_fail(rt: HostRuntime) -> Result<(), Fail> {
    fresh_folder(&rt, "program_outputs")?;
    let path = "program_outputs/A";
    call(&rt, &["forth83", "new", path, "--blocks", "32"], b"");
    for failing in [Failing::Refuses, Failing::TakesNone] {
        check_narrow(&rt, &["forth83"], 3, failing);
        check_narrow(&rt, &["forth83", "run", path], 0, failing);
        check_narrow(&rt, &["forth83", "list", path, "1"], 1000, failing);
        check_narrow(&rt, &["forth83", "export", path, "1", "2"], 20, failing);
        check_narrow(&rt, &["forth83", "--help"], 10, failing);
        let salvage = ["forth83", "salvage", path, "program_outputs/B"];
        check_narrow(&rt, &salvage, 20, failing);
        assert!(rt; fs::metadata(&rt, "program_outputs/B").is_err());
        assert!(rt; fs::metadata(&rt, "program_outputs/B.part").is_err());
    }
    fs::remove_dir_all(&rt, "program_outputs")?;
    Ok(())
}

/// Where traces can't be written, the session goes on without them.
#[test]
fn traces_that_fail(rt: HostRuntime) -> Result<(), Fail> {
    fresh_folder(&rt, "program_untold")?;
    let path = "program_untold/A";
    call(&rt, &["forth83", "new", path, "--blocks", "32"], b"");
    for failing in [Failing::Refuses, Failing::TakesNone] {
        let mut output: Vec<u8> = Vec::new(rt.alloc());
        let mut errors = Narrow::new(rt.alloc(), 50, failing);
        let status = command(
            &rt,
            &["forth83", "run", path, "--trace"],
            &mut b"FOO\nBAR\nBAZ\n7 .\n".as_slice(),
            &mut output,
            &mut errors,
        );
        assert_same!(rt; status, 0);
        assert_same!(rt;
            output.as_slice(),
            b" ? UNDEFINED\n ? UNDEFINED\n ? UNDEFINED\n7  ok\n".as_slice()
        );
        assert_same!(rt;
            errors.written(),
            b"line 1: UNDEFINED at column 1: FOO\nline 2: UNDEFIN".as_slice()
        );
    }
    fs::remove_dir_all(&rt, "program_untold")?;
    Ok(())
}

/// Lines that save block 5 twice. The first save stands in its other place in the end.
const SAVES: [&[u8]; 2] = [b"1 5 BLOCK ! UPDATE FLUSH\n", b"2 5 BLOCK ! UPDATE FLUSH\n"];

/// Prints what was saved there.
const FIFTH: &[u8] = b"5 BLOCK @ .\n";

/// What can't be printed is told, and nothing has the name of what was to be salvaged: the next salvage makes it.
#[test]
fn outputs_of_checks_and_salvages_that_fail(rt: HostRuntime) -> Result<(), Fail> {
    fresh_folder(&rt, "program_newer_outputs")?;
    let (old, new) = ("program_newer_outputs/A", "program_newer_outputs/NEW");
    let words = ["forth83", "new", old, "--blocks", "32", "--layout", "3"];
    check(&rt, &words, b"", 0, b"", b"");
    for line in SAVES {
        check(&rt, &["forth83", "run", old], line, 0, b" ok\n", b"");
    }
    let whole = fs::read(&rt, old)?;
    // The first place of block 5, which counts.
    let mut damaged = whole.clone()?;
    overwrite(damaged.as_mut_slice(), 57_344, b"x");
    for failing in [Failing::Refuses, Failing::TakesNone] {
        for (bytes, damage, fifth) in [
            (&whole, "", b"2  ok\n".as_slice()),
            (
                &damaged,
                "block 5: damaged, whole in its other place\n",
                b"1  ok\n",
            ),
        ] {
            fs::write(&rt, old, bytes.as_slice())?;
            check_narrow(&rt, &["forth83", "check", old], 0, failing);
            check_narrow(&rt, &["forth83", "check", old], 20, failing);
            let salvage = ["forth83", "salvage", old, new];
            check_narrow(&rt, &salvage, 20, failing);
            assert!(rt; fs::metadata(&rt, new).is_err());
            assert!(rt; fs::metadata(&rt, "program_newer_outputs/NEW.part").is_err());
            let told = format!(in rt.alloc(); "{damage}{PAGES_NO_RECOVERY}")?;
            check(&rt, &salvage, b"", 0, told.as_bytes(), b"");
            check(&rt, &["forth83", "run", new], FIFTH, 0, fifth, b"");
            fs::remove_file(&rt, new)?;
        }
    }
    fs::remove_dir_all(&rt, "program_newer_outputs")?;
    Ok(())
}

/// A device that is always full takes bytes into the buffer, and refuses them at the flush.
#[test]
fn a_full_device(rt: HostRuntime) -> Result<(), Fail> {
    let full = OpenOptions::new().write(true).open(&rt, "/dev/full")?;
    let mut output = BufWriter::new(rt.alloc(), full)?;
    let mut errors: Vec<u8> = Vec::new(rt.alloc());
    let status = command(
        &rt,
        &["forth83"],
        &mut b"1 .\n2 .\n".as_slice(),
        &mut output,
        &mut errors,
    );
    assert_same!(rt; status, 4);
    assert_same!(rt;
        errors.as_slice(),
        b"forth83: output: cannot write\n".as_slice()
    );
    Ok(())
}

/// An input that is a folder can be opened and not read.
#[test]
fn an_input_that_fails(rt: HostRuntime) -> Result<(), Fail> {
    let mut input = BufReader::new(rt.alloc(), File::open(&rt, "/")?)?;
    let mut output: Vec<u8> = Vec::new(rt.alloc());
    let mut errors: Vec<u8> = Vec::new(rt.alloc());
    let status = command(&rt, &["forth83"], &mut input, &mut output, &mut errors);
    assert_same!(rt; status, 4);
    assert_same!(rt;
        errors.as_slice(),
        b"forth83: input: cannot read\n".as_slice()
    );
    assert!(rt; output.is_empty());
    Ok(())
}

/// A stream, with the calls counted.
#[derive(Drop)]
struct Counted<'a> {
    bytes: &'a [u8],
    calls: &'a Cell<u32>,
}

impl Counted<'_> {
    fn count(&self) {
        self.calls.set(self.calls.get().wrapping_add(1));
    }
}

impl Read for Counted<'_> {
    fn read(&mut self, buf: &mut [u8]) -> io::Result<usize> {
        self.count();
        self.bytes.read(buf)
    }
}

impl Write for Counted<'_> {
    fn write(&mut self, buf: &[u8]) -> io::Result<usize> {
        self.count();
        Ok(buf.len())
    }

    fn flush(&mut self) -> io::Result<()> {
        Ok(())
    }
}

/// Calls the program with buffers on both streams, as it is started with them, and tells how many calls reach them.
fn calls_of(
    rt: &(impl Files<File = File> + AllocGlobal),
    words: &[&str],
    bytes: &[u8],
) -> io::Result<(u32, u32)> {
    let (reads, writes) = (Cell::new(0), Cell::new(0));
    let mut input = ByteReader::new(Counted {
        bytes,
        calls: &reads,
    });
    let taken = Counted {
        bytes: b"",
        calls: &writes,
    };
    let mut output = BufWriter::new(rt.alloc(), taken)?;
    let mut errors: Vec<u8> = Vec::new(rt.alloc());
    command(rt, words, &mut input, &mut output, &mut errors);
    Ok((reads.get(), writes.get()))
}

/// A piece of the input is one read, and one more finds its end. A reply is one write, and so is a listing.
#[test]
fn calls_are_few(rt: HostRuntime) -> Result<(), Fail> {
    fresh_folder(&rt, "program_calls")?;
    let path = "program_calls/A";
    call(&rt, &["forth83", "new", path, "--blocks", "32"], b"");
    let lines = b"1 2 + . 65 EMIT CR .\n1 . 2 . 3 .\n\n".as_slice();
    assert_same!(rt; calls_of(&rt, &["forth83"], lines)?, (2, 3));
    assert_same!(rt; calls_of(&rt, &["forth83", "run", path], lines)?, (2, 3));
    assert_same!(rt;
        calls_of(&rt, &["forth83", "list", path, "0"], lines)?,
        (0, 1)
    );
    assert_same!(rt;
        calls_of(&rt, &["forth83", "export", path, "0", "31"], lines)?,
        (0, 1)
    );
    fs::remove_dir_all(&rt, "program_calls")?;
    Ok(())
}

#[test]
fn without_words(rt: HostRuntime) {
    check(&rt, &[], b"1 2 + .", 0, b"3  ok\n", b"");
}

#[test]
fn texts_and_statuses(rt: HostRuntime) -> Result<(), Fail> {
    let rows = [
        (Failure::BadSize, "image: bad size 3"),
        (Failure::NoLabel, "image: no label 3"),
        (Failure::OtherVersion, "image: other version 3"),
        (Failure::WrongCount, "image: wrong count 3"),
        (Failure::Damaged, "image: damaged 3"),
        (Failure::Device, "image: device fault 3"),
        (Failure::Exists, "image: exists 3"),
        (Failure::CannotOpen, "image: cannot open 3"),
        (Failure::InUse, "image: in use 3"),
        (Failure::NoBlock, "image: no block 3"),
        (Failure::CannotRead, "input: cannot read 4"),
        (Failure::NotAScreen, "input: not a screen 4"),
        (Failure::CannotWrite, "output: cannot write 4"),
        (Failure::NoMemory, "no memory 5"),
    ];
    for (failure, text) in rows {
        let shown = format!(in rt.alloc(); "{failure} {}", failure.status())?;
        assert_same!(rt; shown.as_str(), text);
    }
    Ok(())
}
