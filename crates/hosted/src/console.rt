//! The host's end of a console, and its two sides as a reader and a writer.
//! Rule: EMBEDDING, What the host owes; EMBEDDING, The protocol.
ghost use Rattle.std.specs.Prelude.{◌≡◌, ◌≢◌, ℕ, ◌∷◌, [], List, None, Option, slice_index};
ghost use Rattle.std.specs.Bool.{OnTrue, OnFalse};
ghost use Rattle.std.specs.Io.KnownBytes.{Appends, Consumes, IsAtEnd, Keeps};

use crate::host::Numbered;
use io::{read_full, write_all};
use std::io::{Error, ErrorKind, Read, Result, Write};

/// What the host says before each byte of its input: that one follows.
pub const FOLLOWS: u8 = 1;

/// The host's end of a console, which moves bytes and says whether it did.
///
/// The clauses are what has to be assumed of a host whose bytes are known. No console is asked for anything else.
/// Rule: EMBEDDING, What the host owes; EMBEDDING, The protocol.
pub trait Console {
    /// The bytes of the input that it hasn't given yet, where they are known.
    ghost left: { Self → Option (List ℕ) };

    /// The bytes that it said to have taken, where they are known.
    ghost taken: { Self → Option (List ℕ) };

    /// Gives the next byte of the input behind a 1, and at the end of the input no 1. Where it says no, no byte is
    /// lost.
    fn key(&mut self, pair: &mut [u8; 2]) -> bool
        ensures byte { OnTrue result (slice_index pair.new 0 ≡ 1
            → Consumes (left self.old) (left self.new) (slice_index pair.new 1 ∷ [])) }
        ensures end { OnTrue result (slice_index pair.new 0 ≢ 1 → IsAtEnd (left self.new)) }
        ensures none { OnTrue result (slice_index pair.new 0 ≢ 1 → Keeps (left self.old) (left self.new)) }
        ensures failed { OnFalse result (Keeps (left self.old) (left self.new)) };

    /// Takes bytes of the output. Where it says no, some of them may have come through, and none is counted as taken.
    fn emit(&mut self, bytes: &[u8]) -> bool
        ensures done { OnTrue result (Appends (taken self.old) (taken self.new) bytes.now) }
        ensures failed { OnFalse result (Keeps (taken self.old) (taken self.new)) };
}

/// The console that C gives under a number. What its functions give and take isn't known.
impl Console for Numbered {
    ghost left = { λ c. None };

    ghost taken = { λ c. None };

    // Too few bytes, or those of another number, would meet the clauses all the same: `embed/forth.c` sees it.
    fn key(&mut self, pair: &mut [u8; 2]) -> bool {
        read_full(self.number(), pair) == 2
    }

    fn emit(&mut self, bytes: &[u8]) -> bool {
        write_all(self.number(), bytes)
    }
}

/// The input of a console, as a reader. It is asked for a byte at a time, and for none before it is wanted.
/// Rule: EMBEDDING, What is proved.
#[derive(Drop)]
pub struct HostInput<C: Console> {
    console: C,
}

impl<C: Console> HostInput<C> {
    /// A reader of the console's input.
    pub fn new(console: C) -> HostInput<C>
        ensures { result.console ≡ console }
    {
        HostInput { console }
    }
}

impl<C: Console> Read for HostInput<C> {
    ghost remaining = { λ r. C.left r.console };

    fn read(&mut self, bytes: &mut [u8]) -> Result<usize> {
        if bytes.is_empty() {
            return Ok(0);
        }
        let mut pair = [0; 2];
        if !self.console.key(&mut pair) {
            return Err(Error::from(ErrorKind::Other));
        }
        if pair[0] != FOLLOWS {
            return Ok(0);
        }
        bytes[0] = pair[1];
        Ok(1)
    }
}

/// The output of a console, as a writer.
/// Rule: EMBEDDING, What is proved.
#[derive(Drop)]
pub struct HostOutput<C: Console> {
    console: C,
}

impl<C: Console> HostOutput<C> {
    /// A writer of the console's output.
    pub fn new(console: C) -> HostOutput<C>
        ensures { result.console ≡ console }
    {
        HostOutput { console }
    }
}

impl<C: Console> Write for HostOutput<C> {
    ghost contents = { λ w. C.taken w.console };

    fn write(&mut self, bytes: &[u8]) -> Result<usize> {
        if self.console.emit(bytes) {
            Ok(bytes.len())
        } else {
            Err(Error::from(ErrorKind::Other))
        }
    }

    // The host holds nothing back.
    fn flush(&mut self) -> Result<()> {
        Ok(())
    }
}
