//! A page: its transcripts, and the examples in its tables.
use crate::report::Report;
use crate::shell::Shell;
use std::alloc::{AllocError, Global};
use std::cell::Cell;
use std::fs::{File, Files};
use std::{fmt, io, mem};

/// A block of a page.
enum Block {
    /// `forth`: a session of the program without a command.
    Session,
    /// `forth more`: the session goes on.
    More,
    /// `console`: lines of the shell, each after `$ `, with what comes.
    Console,
    /// `console by-hand`: what only a reader can do.
    ByHand,
    /// Anything else, which shows nothing that can be compared.
    Other,
}

impl Block {
    fn new(kind: &str) -> Self {
        match kind {
            "forth" => Block::Session,
            "forth more" => Block::More,
            "console" => Block::Console,
            "console by-hand" => Block::ByHand,
            _ => Block::Other,
        }
    }
}

/// What was found on a page.
#[derive(Drop)]
pub struct Page {
    shell: Shell,
    /// The session in Forth that a next block may go on with.
    session: String,
    sessions: usize,
    commands: usize,
    examples: usize,
    lines: usize,
    by_hand: usize,
    report: Report,
}

impl Page {
    pub fn new(alloc: Global) -> Self {
        Page {
            shell: Shell::new(alloc),
            session: String::new(alloc),
            sessions: 0,
            commands: 0,
            examples: 0,
            lines: 0,
            by_hand: 0,
            report: Report::new(alloc),
        }
    }

    pub fn differences(&self) -> usize {
        self.report.differences()
    }

    /// Does what the page shows.
    pub fn follow(
        &mut self,
        rt: &(impl Files<File = File> + AllocGlobal),
        text: &str,
    ) -> io::Result<()> {
        for (i, part) in text.split("```").enumerate() {
            match part.split_once("\n") {
                Some((kind, text)) if i % 2 == 1 => self.block(rt, kind, text)?,
                _ => self.table(rt, part)?,
            }
        }
        self.end_session(rt)
    }

    /// Does what a block shows, by its kind.
    fn block(
        &mut self,
        rt: &(impl Files<File = File> + AllocGlobal),
        kind: &str,
        text: &str,
    ) -> io::Result<()> {
        match Block::new(kind) {
            Block::Session => {
                self.end_session(rt)?;
                self.session.push_str(text)?;
            }
            Block::More => self.session.push_str(text)?,
            Block::Console => self.console(rt, text)?,
            Block::ByHand => self.by_hand = self.by_hand.saturating_add(1),
            Block::Other => {}
        }
        Ok(())
    }

    /// Compares the session in Forth that has come to its end, if there is one.
    fn end_session(&mut self, rt: &(impl Files<File = File> + AllocGlobal)) -> io::Result<()> {
        if self.session.is_empty() {
            return Ok(());
        }
        let text = mem::replace(&mut self.session, String::new(rt.alloc()));
        self.sessions = self.sessions.saturating_add(1);
        self.line(rt, "forth83", &text)
    }

    /// Does the lines of the shell of a block.
    fn console(
        &mut self,
        rt: &(impl Files<File = File> + AllocGlobal),
        text: &str,
    ) -> io::Result<()> {
        let mut command = "";
        let mut shown = String::new(rt.alloc());
        for line in text.split_inclusive('\n') {
            match line.strip_prefix("$ ") {
                Some(next) => {
                    self.console_line(rt, command, &shown)?;
                    command = next.trim_end();
                    shown.clear();
                }
                None => shown.push_str(line)?,
            }
        }
        self.console_line(rt, command, &shown)
    }

    fn console_line(
        &mut self,
        rt: &(impl Files<File = File> + AllocGlobal),
        command: &str,
        shown: &str,
    ) -> io::Result<()> {
        if command.is_empty() {
            return Ok(());
        }
        self.commands = self.commands.saturating_add(1);
        self.line(rt, command, shown)
    }

    /// Does a line of the shell, and compares what comes with what is shown.
    fn line(
        &mut self,
        rt: &(impl Files<File = File> + AllocGlobal),
        line: &str,
        shown: &str,
    ) -> io::Result<()> {
        self.lines = self.lines.saturating_add(shown.lines().count());
        let rest = Cell::new(shown.as_bytes());
        match self.shell.line(rt, line, &rest) {
            Ok(came) => self
                .report
                .compare(rt.alloc(), line, rest.get(), came.as_slice())?,
            Err(error) => self
                .report
                .add(&format!(in rt.alloc(); "{line}\nfailed: {error}\n")?)?,
        }
        Ok(())
    }

    /// Does the examples of a table.
    fn table(
        &mut self,
        rt: &(impl Files<File = File> + AllocGlobal),
        text: &str,
    ) -> io::Result<()> {
        for row in text.lines() {
            if let Some((given, shown)) = example(row) {
                let given = lines_of(rt.alloc(), given)?;
                let shown = lines_of(rt.alloc(), shown)?;
                let came = self.shell.run(rt, "forth83", given.as_bytes())?;
                self.examples = self.examples.saturating_add(1);
                self.lines = self.lines.saturating_add(shown.lines().count());
                self.report
                    .compare(rt.alloc(), &given, shown.as_bytes(), came.as_slice())?;
            }
        }
        Ok(())
    }
}

impl fmt::Display for Page {
    fn fmt<W: fmt::Write>(&self, f: &mut fmt::Formatter<W>) -> fmt::Result {
        let Page {
            sessions,
            commands,
            examples,
            lines,
            by_hand,
            report,
            ..
        } = self;
        write!(
            f,
            "sessions {sessions}, commands {commands}, examples {examples}, lines {lines}, by hand {by_hand}, {report}"
        )
    }
}

/// The example in the last cell of a row, if there is one: its lines, and after ` → ` the replies.
fn example(row: &str) -> Option<(&str, &str)> {
    row.strip_suffix(" |")?
        .rsplit_once(" | ")?
        .1
        .split_once(" → ")
}

/// The lines that a cell shows, divided by ` ⏎ `, each in quotes, or `(a line feed)` for an empty one.
fn lines_of(alloc: Global, cell: &str) -> Result<String, AllocError> {
    let mut lines = String::new(alloc);
    for line in cell.split(" ⏎ ") {
        if line != "(a line feed)" {
            lines.push_str(line.trim_matches('`'))?;
        }
        lines.push_str("\n")?;
    }
    Ok(lines)
}
