//! What a page shows of the shell: few commands, in few forms. All others are refused.
use crate::dialogue::{Keyboard, Screen, is_next};
use crate::tools::Tool;
use interpreter::Forth;
use sector_disk::{FileDisk, MemoryDisk};
use std::alloc::Global;
use std::cell::Cell;
use std::fs::{File, Files};
use std::io::{Error, ErrorKind, Read, Write};
use std::{fs, io, mem};
use terminal::{Led, StdWorld, Streams, command_over};

/// A command of a line; commands are divided by `; `.
enum Command<'a> {
    /// `echo $?`: the status of the last call of the program.
    Status,
    /// `cat > FILE <<'END'`: a file of the lines after it, up to one that is `END`.
    Write(&'a str),
    /// `forth83 ..`: the program at the terminal.
    Talk(&'a str),
    /// Stages that are joined by ` | `.
    Pipe(&'a str),
    /// Stages, and after ` > ` the file that what they write goes into.
    PipeTo(&'a str, &'a str),
}

impl<'a> Command<'a> {
    fn new(text: &'a str) -> Self {
        if text == "echo $?" {
            return Command::Status;
        }
        if let Some(path) = written(text) {
            return Command::Write(path);
        }
        match text.split_once(" > ") {
            Some((stages, path)) => Command::PipeTo(stages, path),
            None if is_talk(text) => Command::Talk(text),
            None => Command::Pipe(text),
        }
    }
}

/// The file that the lines after a command are written to.
fn written(text: &str) -> Option<&str> {
    text.strip_prefix("cat > ")?.strip_suffix(" <<'END'")
}

/// Whether the program is called with the terminal as each of its streams.
fn is_talk(text: &str) -> bool {
    text.starts_with("forth83") && !text.contains(" | ") && !text.contains(" 2>")
}

/// Where what the program tells as an error goes.
#[derive(Clone, Copy)]
enum Errors<'a> {
    /// To the terminal, after what the pipe writes.
    Shown,
    /// `2>&1`: where what it writes goes.
    Joined,
    /// `2> FILE`
    To(&'a str),
}

impl<'a> Errors<'a> {
    /// The words of a call of the program, and where its errors go.
    fn of(text: &'a str) -> (&'a str, Self) {
        if let Some(words) = text.strip_suffix(" 2>&1") {
            return (words, Errors::Joined);
        }
        match text.split_once(" 2> ") {
            Some((words, path)) => (words, Errors::To(path)),
            None => (text, Errors::Shown),
        }
    }
}

/// A shell, which knows the exit status of the last call of the program.
#[derive(Drop)]
pub struct Shell {
    status: u8,
    /// What the program told as an error, and isn't shown yet.
    told: Vec<u8>,
}

impl Shell {
    pub fn new(alloc: Global) -> Self {
        Shell {
            status: 0,
            told: Vec::new(alloc),
        }
    }

    /// Does the commands of a line as long as what they write is shown, and gives what came and isn't shown.
    pub fn line(
        &mut self,
        rt: &(impl Files<File = File> + AllocGlobal),
        line: &str,
        shown: &Cell<&[u8]>,
    ) -> io::Result<Vec<u8>> {
        for command in line.split("; ") {
            let came = self.command(rt, Command::new(command), shown)?;
            if !is_next(shown, came.as_slice()) {
                return Ok(came);
            }
        }
        Ok(Vec::new(rt.alloc()))
    }

    /// Does a command, and gives what it wrote, but for what was compared.
    fn command(
        &mut self,
        rt: &(impl Files<File = File> + AllocGlobal),
        command: Command<'_>,
        shown: &Cell<&[u8]>,
    ) -> io::Result<Vec<u8>> {
        match command {
            Command::Status => Ok(format!(in rt.alloc(); "{}\n", self.status)?.into_bytes()),
            Command::Write(path) => write_lines(rt, path, shown),
            Command::Talk(words) => self.talk(rt, words, shown),
            Command::Pipe(stages) => {
                let mut came = self.pipe(rt, stages)?;
                self.show_told(rt.alloc(), &mut came)?;
                Ok(came)
            }
            Command::PipeTo(stages, path) => self.pipe_to(rt, stages, path),
        }
    }

    /// Moves what the program told as an error to what came.
    fn show_told(&mut self, alloc: Global, came: &mut Vec<u8>) -> io::Result<()> {
        let told = mem::replace(&mut self.told, Vec::new(alloc));
        Ok(came.extend_from_slice(told.as_slice())?)
    }

    /// Writes what the stages write to a file, and with ` 2>&1` after its name what the program tells as an error too.
    fn pipe_to(
        &mut self,
        rt: &(impl Files<File = File> + AllocGlobal),
        stages: &str,
        path: &str,
    ) -> io::Result<Vec<u8>> {
        let mut written = self.pipe(rt, stages)?;
        let mut shown: Vec<u8> = Vec::new(rt.alloc());
        let path = if let Some(path) = path.strip_suffix(" 2>&1") {
            self.show_told(rt.alloc(), &mut written)?;
            path
        } else {
            self.show_told(rt.alloc(), &mut shown)?;
            path
        };
        fs::write(rt, path, written.as_slice())?;
        Ok(shown)
    }

    /// Calls the program at the terminal.
    pub fn talk(
        &mut self,
        rt: &(impl Files<File = File> + AllocGlobal),
        words: &str,
        shown: &Cell<&[u8]>,
    ) -> io::Result<Vec<u8>> {
        let screen = Screen::new(rt.alloc(), shown);
        let (screen, errors) = self.call(rt, words, Keyboard::new(shown), screen)?;
        let mut came = screen.into_rest();
        came.extend_from_slice(errors.as_slice())?;
        Ok(came)
    }

    /// What the program writes of this input, and after it what it tells as an error.
    pub fn run(
        &mut self,
        rt: &(impl Files<File = File> + AllocGlobal),
        words: &str,
        input: &[u8],
    ) -> io::Result<Vec<u8>> {
        let (mut output, errors) = self.call(rt, words, input, Vec::new(rt.alloc()))?;
        output.extend_from_slice(errors.as_slice())?;
        Ok(output)
    }

    /// Calls the program, and gives its output back, and what it wrote to the standard error.
    fn call<R: Read + Drop, W: Write + Drop>(
        &mut self,
        rt: &(impl Files<File = File> + AllocGlobal),
        words: &str,
        input: R,
        output: W,
    ) -> io::Result<(W, Vec<u8>)> {
        let words: Vec<&str> = words.split_whitespace().collect(rt.alloc())?;
        let mut streams = Streams {
            input: Led::new(rt.alloc(), input),
            output,
            errors: Vec::new(rt.alloc()),
        };
        let here = StdWorld::new(rt, words.as_slice());
        let (_, status) = command_over(
            &here.reached::<Forth<FileDisk>, Forth<MemoryDisk>>(),
            words.as_slice(),
            &mut streams,
        );
        self.status = status;
        let Streams { output, errors, .. } = streams;
        Ok((output, errors))
    }

    /// What the program writes as a stage of a pipe. What it tells as an error is shown later, or goes where the words say.
    fn stage(
        &mut self,
        rt: &(impl Files<File = File> + AllocGlobal),
        text: &str,
        input: &[u8],
    ) -> io::Result<Vec<u8>> {
        let (words, errors) = Errors::of(text);
        let (mut output, told) = self.call(rt, words, input, Vec::new(rt.alloc()))?;
        match errors {
            Errors::Shown => self.told.extend_from_slice(told.as_slice())?,
            Errors::Joined => output.extend_from_slice(told.as_slice())?,
            Errors::To(path) => fs::write(rt, path, told.as_slice())?,
        }
        Ok(output)
    }

    /// Does stages of which each one gives the next its input, and gives what the last one writes.
    fn pipe(
        &mut self,
        rt: &(impl Files<File = File> + AllocGlobal),
        stages: &str,
    ) -> io::Result<Vec<u8>> {
        let mut flow: Vec<u8> = Vec::new(rt.alloc());
        for text in stages.split(" | ") {
            flow = if text.starts_with("forth83") {
                self.stage(rt, text, flow.as_slice())?
            } else {
                match Tool::new(text) {
                    Some(tool) => tool.run(rt, flow.as_slice())?,
                    None => return Err(Error::from(ErrorKind::Unsupported)),
                }
            };
        }
        Ok(flow)
    }
}

/// Writes a file of the lines that are shown next, up to `END`.
fn write_lines(
    rt: &(impl Files<File = File> + AllocGlobal),
    path: &str,
    shown: &Cell<&[u8]>,
) -> io::Result<Vec<u8>> {
    match shown.get().strip_suffix(b"END\n") {
        Some(text) => {
            fs::write(rt, path, text)?;
            shown.set(b"");
            Ok(Vec::new(rt.alloc()))
        }
        None => Err(Error::from(ErrorKind::InvalidInput)),
    }
}
