//! A text of sessions, as one reads them on a terminal, one after another.
//!
//! A line that begins with `> ` is input, one with `# ` a title, and one without a mark is what has to be written. Before its first line
//! of input a session may say how it begins:
//!
//! - `| TEXT`: the next block holds this text, from block 1 on. Other blocks are blank.
//! - `@steps N`: each line may take N steps; 1,000,000 where nothing is said.
//! - `@once K` and `@from K`: call K of the device fails, alone or with all calls after it.
//!
//! `@times N` gives the next line of input N times, and the line of its reply. With `@calls READS WRITES SYNCS` at its end, the session's
//! calls of the device are compared too. A line `----` stands between two sessions over images of their own, and a line `====`
//! between two over one image, which is opened again.
//!
//! `+ N B1 B2 .. | LINE | REPLY` is a line that takes N steps, in sessions of its own: with N steps, with N - 1, of which it prints B1 bytes
//! before they are used up, with N - 2, of which it prints B2, and so on. In the reply `~` stands for a line feed.
use crate::image::blank;
use crate::report::Report;
use crate::session::{Session, number};
use sector_disk::MemoryDisk;
use std::alloc::Global;
use std::{fmt, io};

/// What was done of a text of sessions, and found.
#[derive(Drop)]
pub struct Sessions {
    sessions: usize,
    /// The lines of input.
    lines: usize,
    /// The lines with their steps.
    rows: usize,
    /// How often these were played.
    runs: usize,
    report: Report,
}

impl Sessions {
    pub fn new(alloc: Global) -> Self {
        Sessions {
            sessions: 0,
            lines: 0,
            rows: 0,
            runs: 0,
            report: Report::new(alloc),
        }
    }

    pub fn differences(&self) -> usize {
        self.report.differences()
    }

    /// Plays the sessions of a text.
    pub fn follow(&mut self, alloc: Global, text: &str) -> io::Result<()> {
        let mut image = blank(alloc)?;
        let mut session = Session::new(alloc);
        for (before, line) in text.split_inclusive('\n').enumerate() {
            match line {
                "----\n" => {
                    self.play(alloc, &session, image)?;
                    image = blank(alloc)?;
                    session = Session::new(alloc);
                }
                "====\n" => {
                    image = self.play(alloc, &session, image)?;
                    session = Session::new(alloc);
                }
                _ => self.add(alloc, &mut session, line, before.saturating_add(1))?,
            }
        }
        self.play(alloc, &session, image)?;
        Ok(())
    }

    /// Plays a session over an image, if there is anything in it, and gives the image back.
    fn play(
        &mut self,
        alloc: Global,
        session: &Session,
        image: MemoryDisk,
    ) -> io::Result<MemoryDisk> {
        if session.is_empty() {
            return Ok(image);
        }
        self.sessions = self.sessions.saturating_add(1);
        session.play(alloc, image, &mut self.report)
    }

    /// Adds a line of the text to a session, or plays it where it has sessions of its own.
    fn add(
        &mut self,
        alloc: Global,
        session: &mut Session,
        line: &str,
        place: usize,
    ) -> io::Result<()> {
        if let Some(row) = line.strip_prefix("+ ") {
            return self.row(alloc, row.trim_end_matches('\n'), place);
        }
        if line.starts_with("> ") {
            self.lines = self.lines.saturating_add(1);
        }
        session.add(line, place)
    }

    /// Plays a line with the steps that it takes, and with ever fewer.
    fn row(&mut self, alloc: Global, row: &str, place: usize) -> io::Result<()> {
        let (numbers, row) = row.split_once(" | ").unwrap_or(("", row));
        let (line, reply) = row.split_once(" | ").unwrap_or((row, ""));
        let reply = reply.replace(alloc, "~", "\n")?;
        let mut numbers = numbers.split_whitespace();
        let mut steps: u32 = number(numbers.next().unwrap_or(""))?;
        self.rows = self.rows.saturating_add(1);
        self.run(alloc, Session::of_line(alloc, steps, line, &reply, place)?)?;
        for count in numbers {
            steps = steps.saturating_sub(1);
            let printed = reply.get(..number(count)? as usize).unwrap_or("");
            let reply = format!(in alloc; "{printed} ? STEPS\n")?;
            self.run(alloc, Session::of_line(alloc, steps, line, &reply, place)?)?;
        }
        Ok(())
    }

    /// Plays a session of one line over an image of its own.
    fn run(&mut self, alloc: Global, session: Session) -> io::Result<()> {
        self.runs = self.runs.saturating_add(1);
        session.play(alloc, blank(alloc)?, &mut self.report)?;
        Ok(())
    }
}

impl fmt::Display for Sessions {
    fn fmt<W: fmt::Write>(&self, f: &mut fmt::Formatter<W>) -> fmt::Result {
        let Sessions {
            sessions,
            lines,
            rows,
            runs,
            report,
        } = self;
        write!(
            f,
            "sessions {sessions}, lines {lines}, rows {rows}, runs {runs}, {report}"
        )
    }
}
