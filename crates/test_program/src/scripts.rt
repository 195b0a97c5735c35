//! Sessions of files, behind a block that is loaded, and up to the first line that a fault ended.
use super::streams::{Failing, Fitful, Narrow};
use super::support::{call, check, command, fresh_folder};
use crate::assertions::{Assert, assert_same};
use std::fs::File;
use std::io::{Read, Write};
use std::process::Abort;
use std::rt::Files;
use std::test::Fail;
use std::{fs, io};
use terminal::{Input, Led};

/// What a reader gives up to its end.
fn rest<R: Read>(rt: &impl AllocGlobal, reader: &mut R) -> io::Result<Vec<u8>> {
    let mut bytes = Vec::new(rt.alloc());
    reader.read_to_end(&mut bytes)?;
    Ok(bytes)
}

/// Bytes as a text for a reader.
fn text(rt: &impl AllocGlobal, bytes: &[u8]) -> Result<Vec<u8>, Fail> {
    let mut text = Vec::new(rt.alloc());
    text.extend_from_slice(bytes)?;
    Ok(text)
}

#[test]
fn a_reader_that_is_led(rt: HostRuntime) -> Result<(), Fail> {
    let mut led = Led::new(rt.alloc(), b"EF".as_slice());
    led.begin_with(text(&rt, b"CD")?)?;
    led.begin_with(text(&rt, b"AB")?)?;
    let mut first = [0; 3];
    let count = led.read(&mut first)?;
    assert_same!(rt; (count, first), (1, [b'A', 0, 0]));
    assert_same!(rt; rest(&rt, &mut led)?.as_slice(), b"BCDEF".as_slice());
    let mut led = Led::new(rt.alloc(), b"EF".as_slice());
    led.begin_with(text(&rt, b"CD")?)?;
    led.replace_by(text(&rt, b"AB")?);
    assert_same!(rt; rest(&rt, &mut led)?.as_slice(), b"AB".as_slice());
    assert_same!(rt; rest(&rt, &mut led)?.as_slice(), b"".as_slice());
    led.begin_with(text(&rt, b"GH")?)?;
    assert_same!(rt; rest(&rt, &mut led)?.as_slice(), b"GH".as_slice());
    Ok(())
}

/// Calls the program, and compares its status, what it printed and what it left of the input.
fn check_left(
    rt: &(impl Files<File = File> + AllocGlobal + Abort),
    words: &[&str],
    input: &[u8],
    status: u8,
    output: &[u8],
    left: &[u8],
) {
    let mut unread = input;
    let mut written: Vec<u8> = Vec::new(rt.alloc());
    let mut errors: Vec<u8> = Vec::new(rt.alloc());
    let told = command(rt, words, &mut unread, &mut written, &mut errors);
    assert_same!(rt; told, status, "{words:?}");
    assert_same!(rt; written.as_slice(), output, "{words:?}");
    assert_same!(rt; unread, left, "{words:?}");
}

/// Nothing is read behind the line that a fault ended, and nothing of an input in whose place files are.
#[test]
fn what_is_left_of_the_input(rt: HostRuntime) -> Result<(), Fail> {
    fresh_folder(&rt, "program_scripts")?;
    let path = "program_scripts/A";
    let file = "program_scripts/F";
    call(&rt, &["forth83", "new", path, "--blocks", "32"], b"");
    fs::write(&rt, file, b"3 .")?;
    let lines = b"1 .\nFOO\n2 .\n";
    let strict = ["forth83", "run", path, "--strict"];
    check_left(&rt, &strict, lines, 1, b"1  ok\n ? UNDEFINED\n", b"2 .\n");
    let run = ["forth83", "run", path];
    let all = b"1  ok\n ? UNDEFINED\n2  ok\n".as_slice();
    check_left(&rt, &run, lines, 0, all, b"");
    let files = ["forth83", "run", path, file, file, "--strict"];
    check_left(&rt, &files, lines, 0, b"3  ok\n3  ok\n", lines);
    let load = ["forth83", "run", path, "--load", "32", "--strict"];
    check_left(&rt, &load, lines, 1, b" ? NO BLOCK\n", lines);
    fs::remove_dir_all(&rt, "program_scripts")?;
    Ok(())
}

/// A file that can't be read: the image isn't opened, though that alone would tell another failure.
#[test]
fn files_that_fail(rt: HostRuntime) -> Result<(), Fail> {
    fresh_folder(&rt, "program_no_scripts")?;
    let folder = "program_no_scripts";
    let path = "program_no_scripts/A";
    let told = b"forth83: input: cannot read\n";
    for words in [
        ["forth83", "run", path, folder],
        ["forth83", "run", path, "program_no_scripts/F"],
    ] {
        check(&rt, &words, b"1 .\n", 4, b"", told);
    }
    fs::remove_dir_all(&rt, "program_no_scripts")?;
    Ok(())
}

/// Changes a block, and compares what is told where the input or the output fails then.
fn check_broken<R: Read, W: Write>(
    rt: &(impl Files<File = File> + AllocGlobal + Abort),
    words: &[&str],
    input: &mut R,
    output: &mut W,
    told: &[u8],
) {
    let mut errors: Vec<u8> = Vec::new(rt.alloc());
    let status = command(rt, words, input, output, &mut errors);
    assert_same!(rt; status, 4, "{words:?}");
    assert_same!(rt; errors.as_slice(), told, "{words:?}");
}

/// Changed blocks that weren't saved are told of before the stream that failed, and of the input alone they are not.
#[test]
fn changed_blocks_where_a_stream_fails(rt: HostRuntime) -> Result<(), Fail> {
    fresh_folder(&rt, "program_unsaved")?;
    let path = "program_unsaved/A";
    call(&rt, &["forth83", "new", path, "--blocks", "32"], b"");
    let strict: &[&str] = &["forth83", "run", path, "--strict"];
    let plain: &[&str] = &["forth83", "run", path];
    let lines = b"2 BLOCK DROP UPDATE\n".as_slice();
    let unread = b"forth83: image: changed blocks were not saved\nforth83: input: cannot read\n";
    let unwritten =
        b"forth83: image: changed blocks were not saved\nforth83: output: cannot write\n";
    for (words, unread, unwritten) in [
        (strict, unread.as_slice(), unwritten.as_slice()),
        (
            plain,
            b"forth83: input: cannot read\n".as_slice(),
            b"forth83: output: cannot write\n".as_slice(),
        ),
    ] {
        let mut written: Vec<u8> = Vec::new(rt.alloc());
        let mut failing = Fitful::new(lines, true);
        check_broken(&rt, words, &mut failing, &mut written, unread);
        let mut full = Narrow::new(rt.alloc(), 0, Failing::Refuses);
        check_broken(&rt, words, &mut &*lines, &mut full, unwritten);
    }
    fs::remove_dir_all(&rt, "program_unsaved")?;
    Ok(())
}
