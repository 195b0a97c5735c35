//! The texts of a system, by their names: each is opened to be read from its beginning.
//! Rule: MANUAL, Commands; PROGRAM, Exit status and messages.
ghost use Rattle.std.specs.Prelude.{◌≡◌, ◌≢◌, ℕ, List, IfOk, IfErr};

use std::fs::{File, Files};
use std::io::{BufReader, Read};

/// Why a text isn't opened.
#[derive(Clone, Copy, Debug, PartialEq, Eq)]
pub enum TextFault {
    /// The system refused.
    Cannot = 1,
    /// There was no memory for its reader.
    NoMemory = 2,
}

/// The texts of a system by their names, as it opens them to be read. It gives no way to write one.
/// Rule: PROGRAM, Exit status and messages.
pub trait TextFiles<B: Read> {
    /// What `open` gives under a name.
    ghost opens: { Self → List ℕ → B → Type 0 };

    /// Under which names it may refuse.
    ghost refuses: { Self → List ℕ → Type 0 };

    /// Opens a text, to be read from its beginning. It is read byte by byte, so the reader should be buffered. `Cannot`
    /// where the system refuses, and `NoMemory` where there is none for the reader.
    fn open(&self, path: &str) -> Result<B, TextFault>
        ensures opens { IfOk result (λ reader. opens self.now path.now reader) }
        ensures refuses { IfErr result (λ fault. fault ≡ TextFault.Cannot → refuses self.now path.now) };
}

/// The texts of this system: files, each read through a buffer.
#[derive(Drop)]
pub struct StdTexts<'a, R> {
    rt: &'a R,
}

impl<'a, R: Files<File = File> + AllocGlobal> StdTexts<'a, R> {
    /// The files that this runtime reaches.
    pub fn new(rt: &'a R) -> StdTexts<'a, R> {
        StdTexts { rt }
    }
}

impl<R: Files<File = File> + AllocGlobal> TextFiles<BufReader<File>> for StdTexts<'_, R> {
    ghost opens = { λ texts path reader. Unit {0} };

    ghost refuses = { λ texts path. Unit {0} };

    // With another file it would meet its clauses all the same. What sees it are `what_is_left_of_the_input` of
    // `test_program`, whose script is a file, and the pages of `test_transcripts` that put and import some.
    fn open(&self, path: &str) -> Result<BufReader<File>, TextFault> {
        let file = File::open(self.rt, path).map_err(|_| TextFault::Cannot)?;
        BufReader::new(self.rt.alloc(), file).map_err(|_| TextFault::NoMemory)
    }
}

/// A system of one text in memory, which has a name. Under any other it refuses.
///
/// What its readers have left is known, so what is said of a text with that premise is said of it.
#[derive(Clone, Copy)]
pub struct MemoryTexts<'a> {
    name: &'a str,
    text: &'a [u8],
}

impl<'a> MemoryTexts<'a> {
    /// The system of this text under this name.
    pub fn new(name: &'a str, text: &'a [u8]) -> MemoryTexts<'a>
        ensures name { result.name.now ≡ name.now }
        ensures text { result.text.now ≡ text.now }
    {
        MemoryTexts { name, text }
    }
}

impl<'a> TextFiles<&'a [u8]> for MemoryTexts<'a> {
    ghost opens = { λ texts path reader. (path ≡ texts.name.now) × (reader.now ≡ texts.text.now) };

    ghost refuses = { λ texts path. path ≢ texts.name.now };

    fn open(&self, path: &str) -> Result<&'a [u8], TextFault> {
        if path == self.name {
            Ok(self.text)
        } else {
            Err(TextFault::Cannot)
        }
    }
}
