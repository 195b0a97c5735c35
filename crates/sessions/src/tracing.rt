//! What is told, beside the replies, of lines that faults ended or `ABORT` left.
//! Rule: MANUAL, Where a fault came; SEMANTICS, Sessions.
ghost use Rattle.std.specs.Prelude.{◌≡◌, ◌<◌, ℕ, List, [], MatchBool, Option, false, if◌then◌else◌};
ghost use Rattle.std.specs.Io.KnownBytes.{Appends};
ghost use Rattle.interpreter.specs.Lines.{LineEnd, changed_below};
ghost use Rattle.interpreter.specs.declared.place.LeftAt.{LeftAt as AbstractLeft};
ghost use Rattle.interpreter.specs.declared.place.Place.{Place as AbstractPlace};
ghost use Rattle.sessions.specs.Traces.{Writes, WritesFailure, abort_line, next_number, undone_line, undone_text};

use super::streams::write_bytes;
use super::trace_text::{abort_line, trace_text, undone_line};
use interpreter::promise::Lines;
use sector_disk::SectorDevice;
use std::io::Write;

/// Who is told of each line whose reply was written and passed on.
pub trait Tracer {
    // What it makes of a line, by how that ended, where it was left, where the word before its fault begins, that word, the loads
    // that led there, and the blocks whose changes are taken back.
    ghost hears: { (old new : Self) → LineEnd → Option AbstractLeft → Option AbstractPlace → List ℕ → List AbstractPlace → List ℕ → Type 0 };

    /// A line has ended so. The system stands as the line left it, before it is settled. It is told of no line that the
    /// reader or the writer cut short.
    fn line_ended<D: SectorDevice, F: Lines<D>>(&mut self, forth: &F, end: &F::End)
        ensures { hears self.old self.new (F.ending end.now) (F.placed forth.now) (F.told_start forth.now) (F.told_word forth.now) (F.told_loads forth.now)
            (changed_below (F.undone forth.now end.now) (F.blocks forth.now)) };
}

/// Nobody is told.
#[derive(Clone, Copy, Debug)]
pub struct Untraced;

impl Tracer for Untraced {
    ghost hears = { λ old new ending left place word loads undone. new ≡ old };

    #[inline]
    fn line_ended<D: SectorDevice, F: Lines<D>>(&mut self, forth: &F, end: &F::End) {
        let _ = forth;
        let _ = end;
    }
}

/// A writer is told of each line that a fault ended: in which line of the input which fault came, and where; of each
/// line that `ABORT` or a true `ABORT"` left; and of each block whose changes are taken back with the line. Each trace
/// is one line, which the writer is offered whole, and again what it left of it. Once the writer has failed it is told
/// no more.
#[derive(Drop)]
pub struct Traces<'a, W> {
    writer: &'a mut W,
    // the number of the next line: the largest one stays
    next: u32,
    failed: bool,
}

impl<W: Write> Tracer for Traces<'_, W> {
    ghost hears = { λ old new ending left place word loads undone. (new.next ≡ next_number old.next) × (new.failed ≡ false
        → (old.failed ≡ false) × Writes old.next ending left place word loads undone (W.contents old.writer.now) (W.contents new.writer.now)) };

    fn line_ended<D: SectorDevice, F: Lines<D>>(&mut self, forth: &F, end: &F::End) {
        let number = self.count();
        self.tell_failure::<D, F>(number, forth, end);
        self.tell_undone::<D, F>(number, forth, end);
    }
}

impl<'a, W: Write> Traces<'a, W> {
    /// Traces of a session of which no line has ended yet. Its lines count from 1.
    pub fn new(writer: &'a mut W) -> Self
        ensures writer { result.writer ≡ writer.entry }
        ensures next { result.next ≡ 1 }
        ensures failed { result.failed ≡ false }
    {
        Traces::from_line(writer, 1)
    }

    /// Traces of a session of which no line has ended yet. Its first line has this number.
    pub fn from_line(writer: &'a mut W, first: u32) -> Self
        ensures writer { result.writer ≡ writer.entry }
        ensures next { result.next ≡ first }
        ensures failed { result.failed ≡ false }
    {
        Traces {
            writer,
            next: first,
            failed: false,
        }
    }

    /// Tells the fault that ended a line, or that it was aborted, if one of both is so.
    fn tell_failure<D: SectorDevice, F: Lines<D>>(&mut self, number: u32, forth: &F, end: &F::End)
        ensures next { self.new.next ≡ self.old.next }
        ensures told { self.new.failed ≡ false → (self.old.failed ≡ false)
            × WritesFailure number (F.ending end.now) (F.placed forth.now) (F.told_start forth.now) (F.told_word forth.now) (F.told_loads forth.now)
            (W.contents self.old.writer.now) (W.contents self.new.writer.now) }
    {
        match F::fault(end) {
            Some(fault) => {
                let word = forth.last_word();
                let loads = forth.loads();
                let trace = trace_text(number, fault, forth.start_of_word(), word, loads);
                self.write(trace.as_slice())
            }
            None => self.tell_abort(number, forth.has_aborted()),
        }
    }

    /// Tells that a line was aborted, if it was.
    fn tell_abort(&mut self, number: u32, has_aborted: bool)
        ensures next { self.new.next ≡ self.old.next }
        ensures told { self.new.failed ≡ false → (self.old.failed ≡ false)
            × MatchBool has_aborted (Appends (W.contents self.old.writer.now) (W.contents self.new.writer.now) (abort_line number))
            (W.contents self.new.writer.now ≡ W.contents self.old.writer.now) }
    {
        if has_aborted {
            let text = abort_line(number);
            self.write(text.as_slice())
        }
    }

    /// Tells of each block whose changes are taken back.
    fn tell_undone<D: SectorDevice, F: Lines<D>>(&mut self, number: u32, forth: &F, end: &F::End)
        ensures next { self.new.next ≡ self.old.next }
        ensures told { self.new.failed ≡ false → (self.old.failed ≡ false)
            × Appends (W.contents self.old.writer.now) (W.contents self.new.writer.now)
            (undone_text number (changed_below (F.undone forth.now end.now) (F.blocks forth.now))) }
    {
        for b in 0..forth.block_count() {
            self.tell_block::<D, F>(number, forth, end, b);
        }
    }

    /// Tells of a block, if its changes are taken back.
    fn tell_block<D: SectorDevice, F: Lines<D>>(
        &mut self,
        number: u32,
        forth: &F,
        end: &F::End,
        b: u16,
    )
        requires { b < F.blocks forth.now }
        ensures next { self.new.next ≡ self.old.next }
        ensures told { self.new.failed ≡ false → (self.old.failed ≡ false)
            × Appends (W.contents self.old.writer.now) (W.contents self.new.writer.now)
            (if F.undone forth.now end.now b then undone_line number b else []) }
    {
        if forth.is_undone(end, b) {
            let text = undone_line(number, b);
            self.write(text.as_slice())
        }
    }

    /// Counts a line, and answers its number.
    fn count(&mut self) -> u32
        ensures number { result ≡ self.old.next }
        ensures next { self.new.next ≡ next_number self.old.next }
        ensures rest { self.new ≡ record self.old { next = self.new.next } }
    {
        let number = self.next;
        if number == u32::MAX {
            return number;
        }
        self.next = number + 1;
        number
    }

    /// Writes a trace, unless the writer has failed.
    fn write(&mut self, bytes: &[u8])
        ensures next { self.new.next ≡ self.old.next }
        ensures well { self.new.failed ≡ false → self.old.failed ≡ false }
        ensures told { self.new.failed ≡ false
            → Appends (W.contents self.old.writer.now) (W.contents self.new.writer.now) bytes.now }
    {
        if self.failed {
            return;
        }
        if write_bytes(self.writer, bytes).is_err() {
            self.failed = true;
        }
    }
}
