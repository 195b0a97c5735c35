//! The input of a session, before which a text may be put, or in whose place one may come.
//! Rule: MANUAL, forth83 run IMAGE [FILE ..].
ghost use Rattle.std.specs.Prelude.{◌≡◌, ◌++◌, ◌<◌, ◌≤◌, [], Some, drop, length, take, vec_len, false, OnErr, OnOk};
ghost use Rattle.std.specs.Io.{ReadsAtMost};
ghost use Rattle.std.specs.Io.KnownBytes.{ReadConsumes, prepend_known};
ghost use Rattle.sessions.specs.Streams.{left_of};

use std::alloc::{AllocError, Global};
use std::io::{self, Read};

/// A reader that can be given a text to begin with.
pub trait Input: Read {
    /// The text comes first, and then what is left. Nothing changes where memory is refused.
    fn begin_with(&mut self, text: Vec<u8>) -> Result<(), AllocError>
        ensures ok { OnOk result (Self.remaining self.new ≡ prepend_known text.items (Self.remaining self.old)) }
        ensures err { OnErr result (self.new ≡ self.old) };

    /// The text is all that comes: of what was left nothing is read any more.
    fn replace_by(&mut self, text: Vec<u8>)
        ensures { Self.remaining self.new ≡ Some text.items };
}

/// A reader behind a text. A byte of the text is given in a call, as `ByteReader` gives one.
#[derive(Drop)]
pub struct Led<R> {
    reader: R,
    text: Vec<u8>,
    // The text from here on comes first.
    next: usize,
    // Nothing comes behind the text.
    is_cut: bool,
}

impl<R: Read> Led<R> {
    /// The reader, as it is. Takes no memory.
    pub fn new(alloc: Global, reader: R) -> Self
        ensures reader { result.reader ≡ reader }
        ensures none { drop result.next result.text.items ≡ [] }
        ensures goes_on { result.is_cut ≡ false }
    {
        Led {
            reader,
            text: Vec::new(alloc),
            next: 0,
            is_cut: false,
        }
    }

    /// What comes before the reader.
    fn text_left(&self) -> &[u8]
        ensures { result.now ≡ drop self.now.next self.now.text.items }
    {
        if self.next >= self.text.len() {
            return &[];
        }
        let (_, left) = self.text.as_slice().split_at(self.next);
        left
    }

    /// Gives a byte of the text, where one is left and there is room for it, and answers how many bytes it gave.
    fn give(&mut self, out: &mut [u8]) -> usize
        ensures count { result ≤ length out.new }
        ensures given { drop self.old.next self.old.text.items ≡ take result out.new ++ drop self.new.next self.new.text.items }
        ensures some { self.old.next < vec_len self.old.text → 0 < length out.new → 0 < result }
        ensures reader { self.new.reader ≡ self.old.reader }
        ensures is_cut { self.new.is_cut ≡ self.old.is_cut }
    {
        if self.next >= self.text.len() {
            return 0;
        }
        let Some(first) = out.first_mut() else {
            return 0;
        };
        *first = self.text[self.next];
        self.next += 1;
        1
    }

    /// Reads what comes behind the text.
    fn read_behind(&mut self, out: &mut [u8]) -> io::Result<usize>
        ensures bound { ReadsAtMost result out.new }
        ensures bytes { ReadConsumes (left_of self.old.is_cut (R.remaining self.old.reader))
            (left_of self.new.is_cut (R.remaining self.new.reader)) result out.new }
        ensures text { self.new.text ≡ self.old.text }
        ensures next { self.new.next ≡ self.old.next }
    {
        if self.is_cut {
            return Ok(0);
        }
        self.reader.read(out)
    }
}

impl<R: Read> Read for Led<R> {
    ghost remaining = { λ r. prepend_known (drop r.next r.text.items) (left_of r.is_cut (R.remaining r.reader)) };

    #[inline]
    fn read(&mut self, out: &mut [u8]) -> io::Result<usize> {
        if self.next < self.text.len() {
            return Ok(self.give(out));
        }
        self.read_behind(out)
    }
}

impl<R: Read> Input for Led<R> {
    fn begin_with(&mut self, mut text: Vec<u8>) -> Result<(), AllocError> {
        text.extend_from_slice(self.text_left())?;
        self.text = text;
        self.next = 0;
        Ok(())
    }

    fn replace_by(&mut self, text: Vec<u8>) {
        self.text = text;
        self.next = 0;
        self.is_cut = true;
    }
}
