//! Sessions over blocks in memory: streams that fail, and when the replies come.
use super::streams::{Ended, Failing, Fitful, Listener, Narrow, Patient};
use super::support::run;
use crate::assertions::{Assert, assert_same};
use sessions::{RunFault, laws};
use std::cell::Cell;
use std::test::Fail;

/// Three lines, and their replies.
const LINES: [(&[u8], &[u8]); 3] = [
    (b"7 .\n", b"7  ok\n"),
    (b"1 . FOO\n", b"1  ? UNDEFINED\n"),
    (b"\n", b" ok\n"),
];

/// The lines in one text.
const INPUT: &[u8] = b"7 .\n1 . FOO\n\n";

/// The replies in one text.
const OUTPUT: &[u8] = b"7  ok\n1  ? UNDEFINED\n ok\n";

/// How many bytes the replies to the lines have that the input holds whole.
fn replied_length(input: &[u8]) -> usize {
    let mut rest = input.len();
    let mut length = 0usize;
    for (line, reply) in LINES {
        if rest < line.len() {
            break;
        }
        rest -= line.len();
        length = length.wrapping_add(reply.len());
    }
    length
}

/// A reader that gives a byte a call, and one that fails after each byte in turn.
#[test]
fn readers(rt: HostRuntime) -> Result<(), Fail> {
    let mut written: Vec<u8> = Vec::new(rt.alloc());
    run(&rt, 100, &mut Fitful::new(INPUT, false), &mut written)??;
    assert_same!(rt; written.as_slice(), OUTPUT);
    for length in 0..=INPUT.len() {
        let mut reader = Fitful::new(&INPUT[..length], true);
        let mut written: Vec<u8> = Vec::new(rt.alloc());
        let end = run(&rt, 100, &mut reader, &mut written)?;
        assert_same!(rt; end, Err(RunFault::Read), "after {length} bytes");
        assert_same!(rt; written.len(), replied_length(&INPUT[..length]));
        assert!(rt; OUTPUT.starts_with(written.as_slice()));
    }
    Ok(())
}

#[test]
fn a_writer_that_fails(rt: HostRuntime) -> Result<(), Fail> {
    for failing in [Failing::TakesNone, Failing::Refuses] {
        for room in 0..=OUTPUT.len() {
            let mut writer = Narrow::new(rt.alloc(), room, failing);
            let end = run(&rt, 100, &mut &*INPUT, &mut writer)?;
            assert_same!(rt;
                end.is_ok(),
                room == OUTPUT.len(),
                "with room for {room} bytes"
            );
            assert!(rt; end != Err(RunFault::Read));
            assert_same!(rt; writer.written(), &OUTPUT[..room]);
        }
    }
    Ok(())
}

#[test]
fn a_writer_that_is_not_flushed(rt: HostRuntime) -> Result<(), Fail> {
    for (flushes, length) in [(0, 6), (1, 21), (2, 25), (3, 25)] {
        let mut writer = Narrow::new(rt.alloc(), 1000, Failing::Flushes(flushes));
        let end = run(&rt, 100, &mut &*INPUT, &mut writer)?;
        assert_same!(rt; end.is_ok(), flushes == 3);
        assert!(rt; end != Err(RunFault::Read));
        assert_same!(rt; writer.written(), &OUTPUT[..length]);
    }
    Ok(())
}

/// Each reply stands written and flushed before the next line is read.
#[test]
fn replies_come_before_the_next_line(rt: HostRuntime) -> Result<(), Fail> {
    let flushed = Cell::new(0usize);
    let mut reader = Patient::new(&LINES, &flushed);
    let mut writer = Listener::new(&flushed);
    assert_same!(rt; run(&rt, 100, &mut reader, &mut writer)?, Ok(()));
    assert_same!(rt; flushed.get(), OUTPUT.len());
    Ok(())
}

/// A reader that gives more after its end is not asked again: the end is final.
#[test]
fn the_end_is_final(rt: HostRuntime) -> Result<(), Fail> {
    let mut reader = Ended::new(b"7 .\n8 .", b"9 .\n");
    let mut written: Vec<u8> = Vec::new(rt.alloc());
    run(&rt, 100, &mut reader, &mut written)??;
    assert_same!(rt; written.as_slice(), b"7  ok\n8  ok\n".as_slice());
    Ok(())
}

#[test]
fn laws_are_calls(_rt: HostRuntime) {
    laws::played();
    laws::one_session();
    command_line::laws::commands_are_read();
}
