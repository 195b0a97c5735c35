//! The program as it is started: its words, its streams, its status.
//! Rule: PROGRAM, Exit status and messages.
ghost use Rattle.std.specs.Prelude.{◌↔◌, ◌≤ℤ◌, pos, IsTrue};

use super::attending::{advise, greet};
use super::failure::Failure;
use super::hints::hint;
use super::input::{Input, Led};
use super::lost_saves::warn;
use super::program::{command_over, told, traced_in_memory};
use super::std_world::StdWorld;
use super::streams::Streams;
use interpreter::promise::Lines;
use sector_disk::{FileDisk, MemoryDisk};
use sessions::ByteReader;
use std::alloc::Global;
use std::fs::{File, Files};
use std::io::{BufWriter, ErrorKind, IsTerminal, Read, Write};
use std::os::fd::AsRawFd;
use std::os::unix::fs::MetadataExt;
use std::rt::Env;
use std::{env, fs, io};

/// The number of the standard error, the last of the standard streams.
const LAST_STREAM: i32 = 2;

/// Does what the words ask for that the program was started with, between these streams, and answers the exit status, 0
/// to 5. Where the standard error is a terminal, a person is told more there: how a session is left, where each
/// fault came, and of which file a failure is.
pub fn start<
    F: Lines<FileDisk>,
    M: Lines<MemoryDisk>,
    R: Read + IsTerminal + Drop,
    W: Write + Drop,
    E: Write + IsTerminal,
>(rt: &(impl Files<File = File> + Env + AllocGlobal), input: R, output: W, errors: &mut E) -> u8 {
    match call_program::<F, M, R, W, E>(rt, input, output, errors) {
        Ok(status) => status,
        Err(error) if error.kind() == ErrorKind::OutOfMemory => told(
            Err(Failure::NoMemory),
            errors,
        ),
        Err(error) if error.kind() == ErrorKind::InvalidData => {
            let _ = writeln!(errors, "error: a word of the command line is not UTF-8");
            2
        }
        Err(_) => {
            let _ = writeln!(errors, "forth83: folder: cannot open");
            4
        }
    }
}

/// Calls the program, with a buffer on each of both streams: so a piece of the input is one read, and a reply one
/// write, as long as it fits the buffer. The numbers of closed streams are taken all the while.
fn call_program<
    F: Lines<FileDisk>,
    M: Lines<MemoryDisk>,
    R: Read + IsTerminal + Drop,
    W: Write + Drop,
    E: Write + IsTerminal,
>(
    rt: &(impl Files<File = File> + Env + AllocGlobal),
    input: R,
    output: W,
    errors: &mut E,
) -> io::Result<u8> {
    let _taken = taken_streams(rt)?;
    let mut words: Vec<String> = env::args(rt)?.collect(rt.alloc())?;
    let is_attended = errors.is_terminal();
    let is_terminal = input.is_terminal();
    if is_attended {
        ask_for_traces(rt.alloc(), &mut words)?;
    }
    let input = Led::new(rt.alloc(), ByteReader::new(input));
    let output = BufWriter::new(rt.alloc(), output)?;
    let words = words.as_slice();
    if !are_errors_named(rt, words) {
        warn(rt, words, errors);
    }
    let is_typed = is_attended && is_terminal && greet(rt, words, errors);
    let messages = Messages {
        rt,
        words,
        is_typed,
        errors,
    };
    let streams = Streams {
        input,
        output,
        errors: messages,
    };
    let status = called::<F, M, _, _, _>(rt, words, is_attended, streams);
    if is_attended {
        advise(rt, words, status, errors);
    }
    Ok(status)
}

/// Does what the words ask for. A person is told where faults come in a session in memory too, which has no option for
/// that.
fn called<
    F: Lines<FileDisk>,
    M: Lines<MemoryDisk>,
    R: Input + Drop,
    W: Write + Drop,
    E: Write + Drop,
>(
    rt: &(impl Files<File = File> + AllocGlobal),
    words: &[String],
    is_attended: bool,
    mut streams: Streams<R, W, E>,
) -> u8 {
    if is_attended && words.len() < 2 {
        return traced_in_memory::<M, _, _, _>(
            rt,
            &mut streams.input,
            &mut streams.output,
            &mut streams.errors,
        );
    }
    let here = StdWorld::new(rt, words);
    let (_, status) = command_over(&here.reached::<F, M>(), words, &mut streams);
    status
}

/// Has `run` tell where faults come, as with `--trace`, where it isn't asked for that already.
fn ask_for_traces(alloc: Global, words: &mut Vec<String>) -> io::Result<()> {
    if words.len() < 2 {
        return Ok(());
    }
    if words[1].as_str() != "run" {
        return Ok(());
    }
    if words
        .iter()
        .any(|word| word.as_str().starts_with("--trace"))
    {
        return Ok(());
    }
    words.insert(2, String::from_str(alloc, "--trace")?)?;
    Ok(())
}

/// The standard error, but where it is a file that one of the words names: an image that is refused for that has to
/// stay as it is, so no message is written over it, and the status alone tells. Where lines are typed, hints come
/// behind it.
#[derive(Drop)]
struct Messages<'a, R, E> {
    rt: &'a R,
    words: &'a [String],
    is_typed: bool,
    errors: &'a mut E,
}

impl<R: Files<File = File>, E: Write> Write for Messages<'_, R, E> {
    fn write(&mut self, bytes: &[u8]) -> io::Result<usize> {
        if are_errors_named(self.rt, self.words) {
            return Ok(bytes.len());
        }
        let count = self.errors.write(bytes)?;
        if self.is_typed && count == bytes.len() {
            hint(bytes, self.errors);
        }
        Ok(count)
    }

    fn flush(&mut self) -> io::Result<()> {
        self.errors.flush()
    }
}

/// Whether the standard error is a file that one of the words names, by its device and number.
fn are_errors_named(rt: &impl Files<File = File>, words: &[String]) -> bool {
    let Ok(errors) = fs::metadata(rt, "/dev/stderr") else {
        return false;
    };
    errors.is_file()
        && words.iter().any(|word| match fs::metadata(rt, word.as_str()) {
            Ok(named) => named.dev() == errors.dev() && named.ino() == errors.ino(),
            Err(_) => false,
        })
}

/// Takes the numbers of the standard streams that were closed when the program began. A file that is opened gets the
/// lowest free number: without this an image would be what is read as the input, or what the replies are written over.
/// What is taken can be neither read nor written. Where one number is free no more, none is: so mostly one folder is
/// opened.
fn taken_streams(rt: &impl Files<File = File>) -> io::Result<[Option<File>; 3]> {
    let first = taken_stream(rt)?;
    if first.is_none() {
        return Ok([None, None, None]);
    }
    Ok([first, taken_stream(rt)?, taken_stream(rt)?])
}

/// Takes the number of a standard stream that was closed, if there is one left.
fn taken_stream(rt: &impl Files<File = File>) -> io::Result<Option<File>> {
    let folder = open_folder(rt)?;
    if is_standard(folder.as_raw_fd()) {
        return Ok(Some(folder));
    }
    Ok(None)
}

/// Whether this is the number of a standard stream.
fn is_standard(number: i32) -> bool
    ensures { IsTrue result ↔ (number ≤ℤ pos 2) }
{
    number <= LAST_STREAM
}

/// Opens a folder, for its number alone: the root, or where that can't be read the current one.
fn open_folder(rt: &impl Files<File = File>) -> io::Result<File> {
    match File::open(rt, "/") {
        Ok(folder) => Ok(folder),
        Err(_) => File::open(rt, "."),
    }
}
