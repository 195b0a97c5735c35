// Readers and writers that fail at each of their calls, or end in the middle of a line.
use crate::forth_lines::{between, heard, lines_and_replies};
use sessions::RunFault;
use std::io;
use std::io::{Error, ErrorKind, Read, Write};
use std::test::Fail;
use test_stops::disks::formatted_by;
use test_stops::fillings::{Fillings, left_in, shown};
use test_stops::report::Report;
use test_stops::scenario::Scenario;
use test_stops::trials::Calls;

/// Gives at each second call as many bytes as it asks for, which is one in a session, and is interrupted at the others. Where the bytes end, it
/// ends or fails.
#[derive(Drop)]
struct Trickle<'a> {
    bytes: &'a [u8],
    fails: bool,
    is_due: bool,
}

impl Read for Trickle<'_> {
    fn read(&mut self, buf: &mut [u8]) -> io::Result<usize> {
        self.is_due = !self.is_due;
        if self.is_due {
            return Err(Error::from(ErrorKind::Interrupted));
        }
        if self.bytes.is_empty() && self.fails {
            return Err(Error::from(ErrorKind::BrokenPipe));
        }
        self.bytes.read(buf)
    }
}

/// Takes a byte at each second call and is interrupted at the others, until it is full. It is flushed so many times.
#[derive(Drop)]
struct Narrow {
    bytes: Vec<u8>,
    room: usize,
    flushes: usize,
    is_due: bool,
}

impl Write for Narrow {
    fn write(&mut self, buf: &[u8]) -> io::Result<usize> {
        self.is_due = !self.is_due;
        if self.is_due {
            return Err(Error::from(ErrorKind::Interrupted));
        }
        match buf.first() {
            Some(byte) if self.bytes.len() < self.room => {
                self.bytes.push(*byte)?;
                Ok(1)
            }
            _ => Err(Error::from(ErrorKind::BrokenPipe)),
        }
    }

    fn flush(&mut self) -> io::Result<()> {
        if self.flushes == 0 {
            return Err(Error::from(ErrorKind::BrokenPipe));
        }
        self.flushes -= 1;
        Ok(())
    }
}

/// Streams that fail: the reader after its input, or the writer after so many bytes or flushes. What is written then, and how the
/// run ends.
#[derive(Clone, Copy)]
struct Broken<'a> {
    input: &'a str,
    fails: bool,
    room: usize,
    flushes: usize,
    written: &'a str,
    end: Result<(), RunFault>,
}

/// Fails the reader after each byte of the lines, the writer at each byte of the replies, or each flush. Replies are written as far
/// as the lines go, nothing is done after a byte that is refused, and no line is begun after a flush that is. No more bytes are
/// written than the replies have, and there is one flush a line.
pub fn each_fails(
    rt: &HostRuntime,
    calls: &Calls,
    line: &str,
    report: &mut Report,
) -> Result<(), Fail> {
    let (lines, replies) = lines_and_replies(rt.alloc(), calls.rows)?;
    let whole = Broken {
        input: &lines,
        fails: false,
        room: usize::MAX,
        flushes: usize::MAX,
        written: &replies,
        end: Ok(()),
    };
    match line {
        "each read fails" => {
            for length in 0..=lines.len() {
                let input = lines.get(..length).unwrap_or("");
                let written = first_lines(
                    &replies,
                    input.bytes().filter(|byte| *byte == b'\n').count(),
                );
                try_streams(
                    rt,
                    calls,
                    &Broken {
                        input,
                        fails: true,
                        written,
                        end: Err(RunFault::Read),
                        ..whole
                    },
                    report,
                )?;
            }
        }
        "each write fails" => {
            for room in 0..replies.len() {
                let written = replies.get(..room).unwrap_or("");
                try_streams(
                    rt,
                    calls,
                    &Broken {
                        room,
                        written,
                        end: Err(RunFault::Write),
                        ..whole
                    },
                    report,
                )?;
            }
            let room = replies.len();
            try_streams(rt, calls, &Broken { room, ..whole }, report)?;
        }
        "each flush fails" => {
            for flushes in 0..lines.lines().count() {
                let written = first_lines(&replies, flushes.saturating_add(1));
                try_streams(
                    rt,
                    calls,
                    &Broken {
                        flushes,
                        written,
                        end: Err(RunFault::Write),
                        ..whole
                    },
                    report,
                )?;
            }
            let flushes = lines.lines().count();
            try_streams(rt, calls, &Broken { flushes, ..whole }, report)?;
        }
        _ => report.tell("a line that says nothing")?,
    }
    Ok(())
}

/// The first so many lines of a text.
fn first_lines(text: &str, count: usize) -> &str {
    let mut rest = text;
    for _ in 0..count {
        rest = rest.split_once("\n").unwrap_or(("", "")).1;
    }
    text.strip_suffix(rest).unwrap_or(text)
}

/// Runs lines between such streams. What is left in the image is what the bytes that were written tell: a save whose beginning was
/// told has returned before the next byte is written.
fn try_streams(
    rt: &HostRuntime,
    calls: &Calls,
    streams: &Broken,
    report: &mut Report,
) -> Result<(), Fail> {
    let mut reader = Trickle {
        bytes: streams.input.as_bytes(),
        fails: streams.fails,
        is_due: false,
    };
    let mut writer = Narrow {
        bytes: Vec::new(rt.alloc()),
        room: streams.room,
        flushes: streams.flushes,
        is_due: false,
    };
    let disk = calls.disk.try_clone(rt.alloc())?;
    let (disk, end) = between(rt.alloc(), disk, false, &mut reader, &mut writer)?;
    let left = left_in(disk)?;
    report.runs = report.runs.saturating_add(1);
    report.images = report.images.saturating_add(1);
    let came = str::from_utf8(writer.bytes.as_slice())?;
    let told = heard(came, calls.start);
    let wanted = told.begun.unwrap_or(told.saved);
    if end != streams.end || came != streams.written || left != Ok(wanted) {
        let Broken {
            input,
            fails,
            room,
            flushes,
            ..
        } = streams;
        let left = shown(rt.alloc(), left)?;
        report.tell(&format!(in rt.alloc();
            "{input}\n(fails: {fails}, room {room}, flushes {flushes}): came {end:?}, left {left}, wrote\n{came}"
        )?)?;
    }
    Ok(())
}

/// Inputs that break off. A row is an input, what is written where the reader fails there, and what where the input ends there. In
/// these `~` stands for a line feed, and `^` for byte 13.
pub fn inputs_break_off(
    rt: &HostRuntime,
    scenario: &Scenario,
    report: &mut Report,
) -> Result<(), Fail> {
    let calls = Calls {
        rows: "",
        disk: formatted_by(rt, scenario.medium.layout, scenario.blocks)?,
        medium: scenario.medium,
        start: Fillings::blank(),
        opening: 0,
    };
    for text in scenario.rows.lines() {
        let text = text.replace(rt.alloc(), "~", "\n")?;
        let text = text.replace(rt.alloc(), "^", "\r")?;
        let (input, replies) = text.split_once(" | ").unwrap_or((&text, ""));
        let (broken, ended) = replies.split_once(" | ").unwrap_or((replies, ""));
        for fails in [true, false] {
            let streams = Broken {
                input,
                fails,
                room: usize::MAX,
                flushes: usize::MAX,
                written: if fails { broken } else { ended },
                end: if fails { Err(RunFault::Read) } else { Ok(()) },
            };
            try_streams(rt, &calls, &streams, report)?;
        }
    }
    Ok(())
}
