//! Words that read the input after the line.
ghost use Rattle.std.specs.Prelude.{◌≡◌, ◌≤◌, ◌<◌, ◌+◌, ◌-◌, ◌∷◌, [], ◌++◌, length, List, ℕ, Some, None, Ok, Err, if◌then◌else◌};
ghost use Rattle.data_space.specs.Space.{with_cell};

use crate::fault::{Fault, Stop};
use crate::forth::Forth;
use crate::system_cells::SPAN;
use crate::terminal::{IoFault, Terminal};
use sector_disk::SectorDevice;

/// A reading: how many bytes were stored, and how many more may be.
#[derive(Clone, Copy)]
pub(crate) struct Room {
    count: u16,
    left: u16,
}

impl<D: SectorDevice> Forth<D> {
    ghost use Rattle.interpreter.specs.Terminals.{expect_of, on_terminal};
    ghost use Rattle.system_words.specs.declared.words.TerminalWord.TheVariants.{Expect, Key};
    ghost use Rattle.interpreter.specs.Representation.{device};
    ghost use Rattle.interpreter.specs.ServiceContract.{Serves, Continues, Lasts, Tells};
    ghost use Rattle.interpreter.specs.Stops.{stop_count};
    ghost use Rattle.interpreter.specs.Reading.{io_of, StepOf};

    /// The next step of a reading of `left` bytes to `a`: how many bytes it stored, and how many more may be. `None` at
    /// the end of the input.
    fn read_byte<T: Terminal>(
        &mut self,
        a: u16,
        left: u16,
        terminal: &mut T,
    ) -> Result<Option<Room>, IoFault>
        requires some { 0 < left }
        requires within { a + left ≤ 65536 }
        ensures step { StepOf T.Terminal a left result self.old self.new terminal.old terminal.new }
        ensures lasts { Lasts D.SectorDevice T.Terminal (io_of result) (device self.old) (device self.new)
            terminal.old terminal.new }
        ensures tells { D.failures (device self.new) ≡ D.failures (device self.old) }
        ensures budget { self.new.budget ≡ self.old.budget }
    {
        match terminal.ask() {
            Ok(Some(b'\n')) => Ok(Some(Room { count: 0, left: 0 })),
            Ok(Some(b'\r')) => Ok(Some(Room { count: 0, left })),
            Ok(Some(byte)) => {
                self.space.set_byte(a, byte);
                Ok(Some(Room {
                    count: 1,
                    left: left - 1,
                }))
            }
            Ok(None) => Ok(None),
            Err(IoFault) => Err(IoFault),
        }
    }

    /// Ends a reading of so many bytes, or finds that there was none.
    fn end_reading(&mut self, count: u16, some: bool) -> Result<(), Stop>
        ensures result { result ≡ (if some then Ok tt else Err (Stop.Fault Fault.EndOfInput)) }
        ensures after { self.new ≡ (if some then record self.old { space = with_cell self.old.space 26 count } else self.old) }
        ensures tells { Tells stop_count result self.old self.new }
    {
        if some {
            self.space.set_cell(SPAN, count);
            Ok(())
        } else {
            Err(Stop::Fault(Fault::EndOfInput))
        }
    }

    /// Reads up to `u` bytes to `a`.
    fn fill<T: Terminal>(&mut self, a: u16, u: u16, terminal: &mut T) -> Result<(), Stop>
        requires within { a + u ≤ 65536 }
        ensures serves { Serves T.Terminal (λ _ c x. expect_of x.run.terminal a u c x)
            result self.old self.new terminal.old terminal.new }
        ensures continues { Continues T.Terminal result self.old self.new terminal.old terminal.new }
    {
        let mut room = Room { count: 0, left: u };
        let mut some = false;
        'bytes: while room.left > 0 {
            match self.read_byte(a + room.count, room.left, terminal) {
                Ok(Some(step)) => {
                    room = Room {
                        count: room.count + step.count,
                        left: step.left,
                    };
                    some = true;
                }
                Ok(None) => return self.end_reading(room.count, some),
                Err(IoFault) => return Err(Stop::Io),
            }
        }
        self.end_reading(room.count, true)
    }

    /// `EXPECT`.
    pub(crate) fn expect<T: Terminal>(&mut self, terminal: &mut T) -> Result<(), Stop>
        ensures serves { Serves T.Terminal (λ a c x. on_terminal Expect c x) result self.old self.new terminal.old terminal.new }
        ensures continues { Continues T.Terminal result self.old self.new terminal.old terminal.new }
    {
        match self.pop_two() {
            Ok((u, a)) => {
                if u32::from(a) + u32::from(u) > 65536 {
                    return Err(Stop::Fault(Fault::Address));
                }
                self.fill(a, u, terminal)
            }
            Err(fault) => Err(Stop::Fault(fault)),
        }
    }

    /// `KEY`.
    pub(crate) fn key<T: Terminal>(&mut self, terminal: &mut T) -> Result<(), Stop>
        ensures serves { Serves T.Terminal (λ a c x. on_terminal Key c x) result self.old self.new terminal.old terminal.new }
        ensures continues { Continues T.Terminal result self.old self.new terminal.old terminal.new }
    {
        if self.stack.depth() >= 256 {
            return Err(Stop::Fault(Fault::StackFull));
        }
        match terminal.ask() {
            Ok(Some(byte)) => {
                self.leave(u16::from(byte));
                Ok(())
            }
            Ok(None) => Err(Stop::Fault(Fault::EndOfInput)),
            Err(IoFault) => Err(Stop::Io),
        }
    }
}
