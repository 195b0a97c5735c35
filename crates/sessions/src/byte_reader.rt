//! A reader that is asked for its bytes one by one.
//! Rule: LANGUAGE, Lines and replies.
ghost use Rattle.std.specs.Prelude.{◌≡◌, ◌++◌, ◌<◌, ◌≤◌, [], length, take, OnOk, OnErr};
ghost use Rattle.std.specs.Io.KnownBytes.{Keeps, IsAtEnd, prepend_known};
ghost use Rattle.sessions.specs.Held.{held};

use std::io::{Read, Result};

/// How many bytes the reader below is asked for at once.
const PIECE: usize = 8192;

/// Gives the bytes of the reader below, one in a call, so that a byte costs little. The reader below is asked for as
/// many as there is room for, and only where no byte is held: so what it gave is used up before it is waited for.
#[derive(Drop)]
pub struct ByteReader<R> {
    reader: R,
    bytes: [u8; PIECE],
    // The bytes from here to the end are held.
    next: usize,
    end: usize,
    ghost in_bounds: { end ≤ 8192 },
}

impl<R: Read> ByteReader<R> {
    /// A reader that holds no byte yet. It has room for 8,192.
    pub fn new(reader: R) -> Self
        ensures reader { result.reader ≡ reader }
        ensures empty { held result.bytes result.next result.end ≡ [] }
    {
        ByteReader {
            reader,
            bytes: [0; PIECE],
            next: 0,
            end: 0,
        }
    }

    /// Where no byte is held, asks the reader below once.
    fn hold(&mut self) -> Result<()>
        ensures bytes { Keeps (prepend_known (held self.old.bytes self.old.next self.old.end) (R.remaining self.old.reader))
            (prepend_known (held self.new.bytes self.new.next self.new.end) (R.remaining self.new.reader)) }
        ensures at_end { OnOk result (self.new.end ≤ self.new.next → IsAtEnd (R.remaining self.new.reader)) }
    {
        if self.next < self.end {
            return Ok(());
        }
        self.next = 0;
        self.end = 0;
        match self.reader.read(&mut self.bytes) {
            Ok(count) => {
                self.end = count;
                Ok(())
            }
            Err(error) => Err(error),
        }
    }

    /// Gives a byte that is held, where there is one and room for it, and answers how many bytes it gave.
    fn give(&mut self, out: &mut [u8]) -> usize
        ensures count { result ≤ length out.new }
        ensures given { held self.old.bytes self.old.next self.old.end
            ≡ take result out.new ++ held self.new.bytes self.new.next self.new.end }
        ensures none { result ≡ 0 → 0 < length out.new → self.old.end ≤ self.old.next }
        ensures still_none { result ≡ 0 → 0 < length out.new → self.new.end ≤ self.new.next }
        ensures reader { self.new.reader ≡ self.old.reader }
    {
        if self.next >= self.end {
            return 0;
        }
        let Some(first) = out.first_mut() else {
            return 0;
        };
        *first = self.bytes[self.next];
        self.next += 1;
        1
    }
}

impl<R: Read> Read for ByteReader<R> {
    ghost remaining = { λ r. prepend_known (held r.bytes r.next r.end) (R.remaining r.reader) };

    #[inline]
    fn read(&mut self, out: &mut [u8]) -> Result<usize> {
        match self.hold() {
            Ok(()) => Ok(self.give(out)),
            Err(error) => Err(error),
        }
    }
}
