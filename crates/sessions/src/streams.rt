//! A reader and a writer as a terminal.
//! Rule: SEMANTICS, Sessions; LANGUAGE, Lines and replies.
ghost use Rattle.std.specs.Prelude.{if◌then◌else◌, false, ◌^◌, ◌-◌, ◌≡◌, ◌<◌, ◌≤◌, [], ◌∷◌, IfOk, OnOk, OnErr, Some, None, OnSome};
ghost use Rattle.std.specs.Bool.{OnTrue, OnFalse};
ghost use Rattle.std.specs.Io.KnownBytes.{Keeps, Appends, Consumes, IsAtEnd};
ghost use Rattle.sector_disk.specs.Counting.{count_up};
ghost use Rattle.interpreter.specs.Terminal.{AppendsSome, given_bytes};
ghost use Rattle.sessions.specs.Streams.{left_of, bound};

use super::run_fault::RunFault;
use interpreter::{IoFault, Terminal};
use std::io::{ErrorKind, Read, Write};

/// The next byte, or `None` at the end. A call that a signal interrupts is made again; `IoFault` where one fails for
/// another reason.
pub fn read_byte<R: Read>(reader: &mut R) -> Result<Option<u8>, IoFault>
    ensures given { IfOk result (λ byte.
        Consumes (R.remaining reader.old) (R.remaining reader.new) (given_bytes byte)) }
    ensures at_end { IfOk result (λ byte. byte ≡ None → IsAtEnd (R.remaining reader.new)) }
    ensures err { OnErr result (Keeps (R.remaining reader.old) (R.remaining reader.new)) }
{
    let mut byte = [0u8; 1];
    'tries: for _ in 0..u64::MAX {
        match reader.read(&mut byte) {
            Ok(0) => return Ok(None),
            Ok(_) => return Ok(Some(byte[0])),
            Err(e) if e.kind() == ErrorKind::Interrupted => {}
            Err(_) => return Err(IoFault),
        }
    }
    Err(IoFault)
}

/// Writes all the bytes. A call that a signal interrupts is made again; `IoFault` where one fails for another reason,
/// or takes no byte. Then a beginning of them was written.
pub fn write_bytes<W: Write>(writer: &mut W, bytes: &[u8]) -> Result<(), IoFault>
    ensures ok { OnOk result (Appends (W.contents writer.old) (W.contents writer.new) bytes.now) }
    ensures err { OnErr result
        (AppendsSome (W.contents writer.old) (W.contents writer.new) bytes.now) }
{
    let mut rest = bytes;
    'tries: for _ in 0..u64::MAX {
        if rest.is_empty() {
            return Ok(());
        }
        match writer.write(rest) {
            Ok(0) => return Err(IoFault),
            Ok(n) => rest = &rest[n..],
            Err(e) if e.kind() == ErrorKind::Interrupted => {}
            Err(_) => return Err(IoFault),
        }
    }
    Err(IoFault)
}

/// Passes on what the writer holds back. A call that a signal interrupts is made again; `IoFault` where one fails for
/// another reason.
pub fn flush<W: Write>(writer: &mut W) -> Result<(), IoFault>
    ensures { Keeps (W.contents writer.old) (W.contents writer.new) }
{
    'tries: for _ in 0..u64::MAX {
        match writer.flush() {
            Ok(()) => return Ok(()),
            Err(e) if e.kind() == ErrorKind::Interrupted => {}
            Err(_) => return Err(IoFault),
        }
    }
    Err(IoFault)
}

/// The terminal of a run. The end of the input is final: a reader that would give more after it is not asked again.
#[derive(Drop)]
pub struct Streams<'a, R, W> {
    reader: &'a mut R,
    writer: &'a mut W,
    may_give: u64,
    calls: u64,
    failures: u64,
    read_failed: bool,
    ended: bool,
}

impl<R: Read, W: Write> Terminal for Streams<'_, R, W> {
    ghost use Rattle.std.specs.Borrow.{GName};

    ghost Identity = { GName × GName };

    ghost identity = { λ s. (s.reader.ghost_name, s.writer.ghost_name) };

    ghost input = { λ s. left_of s.ended (R.remaining s.reader.now) };

    ghost output = { λ s. W.contents s.writer.now };

    ghost may_give = { λ s. bound s.ended (R.remaining s.reader.now) s.may_give };

    ghost calls = { λ s. s.calls };

    ghost failures = { λ s. s.failures };

    fn key(&mut self) -> Result<Option<u8>, IoFault> {
        self.calls = self.calls.saturating_add(1);
        if self.ended {
            return Ok(None);
        }
        if self.may_give == 0 {
            return Err(self.read_fault());
        }
        match read_byte(self.reader) {
            Ok(None) => {
                self.ended = true;
                Ok(None)
            }
            Ok(Some(byte)) => {
                self.may_give -= 1;
                Ok(Some(byte))
            }
            Err(IoFault) => Err(self.read_fault()),
        }
    }

    fn ask(&mut self) -> Result<Option<u8>, IoFault> {
        match flush(self.writer) {
            Ok(()) => self.key(),
            Err(IoFault) => {
                self.calls = self.calls.saturating_add(1);
                self.failures = self.failures.saturating_add(1);
                Err(IoFault)
            }
        }
    }

    fn emit(&mut self, bytes: &[u8]) -> Result<(), IoFault> {
        self.calls = self.calls.saturating_add(1);
        let result = write_bytes(self.writer, bytes);
        if result.is_err() {
            self.failures = self.failures.saturating_add(1);
        }
        result
    }
}

impl<'a, R: Read, W: Write> Streams<'a, R, W> {
    /// Streams of which no call has failed, and which may give 2^64 - 1 bytes.
    pub fn new(reader: &'a mut R, writer: &'a mut W) -> Self
        ensures reader { result.reader ≡ reader.entry }
        ensures writer { result.writer ≡ writer.entry }
        ensures none_failed { result.failures ≡ 0 }
        ensures may_give { result.may_give ≡ 2 ^ 64 - 1 }
        ensures goes_on { result.ended ≡ false }
    {
        Streams {
            reader,
            writer,
            may_give: u64::MAX,
            calls: 0,
            failures: 0,
            read_failed: false,
            ended: false,
        }
    }

    /// Passes on what the writer holds back. `IoFault` where it failed.
    pub fn flush(&mut self) -> Result<(), IoFault>
        ensures input { left_of self.new.ended (R.remaining self.new.reader.now)
            ≡ left_of self.old.ended (R.remaining self.old.reader.now) }
        ensures output { Keeps (W.contents self.old.writer.now) (W.contents self.new.writer.now) }
        ensures reader { self.new.reader.ghost_name ≡ self.old.reader.ghost_name }
        ensures writer { self.new.writer.ghost_name ≡ self.old.writer.ghost_name }
        ensures may_give { bound self.new.ended (R.remaining self.new.reader.now) self.new.may_give
            ≡ bound self.old.ended (R.remaining self.old.reader.now) self.old.may_give }
        ensures failures { self.new.failures ≡ self.old.failures }
    {
        flush(self.writer)
    }

    /// Whether a call has failed.
    pub fn has_failed(&self) -> bool
        ensures yes { OnTrue result (0 < self.now.failures) }
        ensures no_call { OnFalse result (self.now.failures ≡ 0) }
    {
        self.failures > 0
    }

    /// The fault of a run that ends here: `Read` where the reader has failed.
    pub fn fault(&self) -> RunFault
        ensures { result ≡ (if self.now.read_failed then RunFault.Read else RunFault.Write) }
    {
        if self.read_failed {
            RunFault::Read
        } else {
            RunFault::Write
        }
    }

    /// Counts a failure of the reader.
    fn read_fault(&mut self) -> IoFault
        ensures counted { self.new.failures ≡ count_up self.old.failures }
        ensures reader { self.new.reader ≡ self.old.reader }
        ensures writer { self.new.writer ≡ self.old.writer }
        ensures may_give { self.new.may_give ≡ self.old.may_give }
        ensures calls { self.new.calls ≡ self.old.calls }
        ensures ended { self.new.ended ≡ self.old.ended }
    {
        self.failures = self.failures.saturating_add(1);
        self.read_failed = true;
        IoFault
    }
}
