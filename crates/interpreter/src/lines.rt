//! A line and its reply.
ghost use Rattle.std.specs.Prelude.{◌≡◌, ◌++◌, ◌∷◌, [], ◌≤◌, ◌+◌, None, Some, length, codes};
ghost use Rattle.arrayvec.specs.ArrayVec.{array_vec_len};
ghost use Rattle.interpreter.specs.FaultNames.{fault_name};
ghost use Rattle.interpreter.specs.LineContract.{line_end};
ghost use Rattle.interpreter.specs.Lines.{has_failed};
ghost use Rattle.interpreter.specs.Told.{has_aborted};
ghost use Rattle.interpreter.specs.Stops.{fault_of, fault_count};

use crate::fault::{Fault, Stop};
use crate::forth::Forth;
use crate::place::{LeftAt, Place};
use crate::system_cells::{BLK, STATE, TIB, TIB_COUNT, TO_IN, cell_of};
use crate::terminal::{IoFault, Terminal};
use arrayvec::ArrayVec;
use cell_machine::machine::Machine;
use sector_disk::SectorDevice;

/// The most bytes of a line.
const LINE_LIMIT: usize = 1024;

/// How a reply ends after a fault.
fn fault_text(fault: Fault) -> ArrayVec<u8, 32>
    ensures { result.items ≡ codes " ? " ++ (fault_name (fault_of fault) ++ 10 ∷ []) }
{
    let mut text = ArrayVec::new();
    append(&mut text, b" ? ");
    append(&mut text, fault.name().as_bytes());
    append(&mut text, b"\n");
    text
}

fn append(text: &mut ArrayVec<u8, 32>, bytes: &[u8])
    requires { array_vec_len text.old + length bytes.now ≤ 32 }
    ensures { text.new.items ≡ text.old.items ++ bytes.now }
{
    let _ = text.try_extend_from_slice(bytes);
}

/// How a line ends.
#[derive(Clone, Copy, Debug, PartialEq, Eq)]
pub enum LineEnd {
    /// The reply ended in ` ok`.
    Interpreting,
    /// `STATE` isn't 0: the reply ended in a line feed.
    Compiling,
    /// `QUIT`, `ABORT` or a true `ABORT"`: which of them is told beside it.
    Quit,
    /// The reply ended in the fault's name.
    Fault(Fault),
    /// The terminal failed. Any beginning of the reply may be all that it took.
    Io,
}

impl LineEnd {
    /// Whether a line that was left there failed: a fault, `ABORT`, a true `ABORT"` or a terminal that failed ended it.
    pub(crate) fn has_failed(&self, place: Option<LeftAt>) -> bool
        ensures { result ≡ has_failed (line_end self.now) place }
    {
        match self {
            LineEnd::Interpreting => false,
            LineEnd::Compiling => false,
            LineEnd::Quit => is_aborted(place),
            LineEnd::Fault(_) => true,
            LineEnd::Io => true,
        }
    }
}

/// Whether `ABORT` or a true `ABORT"` left a line there.
pub(crate) fn is_aborted(place: Option<LeftAt>) -> bool
    ensures { result ≡ has_aborted place }
{
    match place {
        Some(LeftAt::Fault(_)) => false,
        Some(LeftAt::Abort) => true,
        None => false,
    }
}

impl<D: SectorDevice> Forth<D> {
    ghost use Rattle.std.specs.Prelude.{ℕ, List, [], false, ◌&&◌};
    ghost use Rattle.cell_machine.specs.Frames.{Core};
    ghost use Rattle.cell_machine.specs.Fault.{Quits, Aborts};
    ghost use Rattle.cell_machine.specs.Value.{Ends};
    ghost use Rattle.interpreter.specs.Terminals.{print};
    ghost use Rattle.interpreter.specs.Text.{compiling};
    ghost use Rattle.interpreter.specs.Lines.{replied, ended, after_fault, end_of_line, at_rest, dropped, with_empty_stack, with_line, line, place_in, settled, settled_by, undone_by};
    ghost use Rattle.interpreter.specs.State.{World, Forth as Abstract, with_run, without_loads};
    ghost use Rattle.interpreter.specs.Representation.{core, device, RepresentsWorld, IsSoundBetweenLines, Represents};
    ghost use Rattle.interpreter.specs.LineContract.{RanLine, LastsLine, SameStackAndSpace, SameSpace, RepresentsForth, IsSystem, Cleared, Clears, is_broken, Counts};
    ghost use Rattle.block_words.specs.Words.{Save};
    ghost use Rattle.interpreter.specs.Promise.{Answers, Keeps, IsPlaced};
    ghost use Rattle.interpreter.specs.ServiceContract.{SparesAll};

    /// STATE and BLK are 0, and no definition is open.
    fn close(&mut self)
        ensures closes { (x : World) → RepresentsWorld self.old x → RepresentsWorld self.new (dropped x) }
        ensures space { (c : Core) → SameSpace c self.old → SameSpace (at_rest c) self.new }
        ensures size { length self.new.space ≡ 65536 }
        ensures stack { self.new.stack ≡ self.old.stack }
        ensures steps { self.new.steps ≡ self.old.steps }
        ensures spares { SparesAll self.old self.new }
        ensures budget { self.new.budget ≡ self.old.budget }
    {
        self.space.set_cell(STATE, 0);
        self.space.set_cell(BLK, 0);
        self.lexicon.abandon();
    }

    /// The line has ended, and the data stack is empty too.
    fn abandon(&mut self)
        ensures closes { (x : World) → RepresentsWorld self.old x → RepresentsWorld self.new (dropped x) }
        ensures same_core { (c : Core) → SameSpace c self.old → SameStackAndSpace (with_empty_stack (at_rest c)) self.new }
        ensures clears { (x : World) → RepresentsWorld self.old x → Cleared self.new }
        ensures steps { self.new.steps ≡ self.old.steps }
        ensures spares { SparesAll self.old self.new }
        ensures budget { self.new.budget ≡ self.old.budget }
    {
        self.close();
        self.stack.clear();
    }

    /// What a terminal that failed leaves: the same, and no place.
    fn break_off(&mut self)
        ensures closes { (x : World) → RepresentsWorld self.old x → RepresentsWorld self.new (dropped x) }
        ensures same_core { (c : Core) → SameSpace c self.old → SameStackAndSpace (with_empty_stack (at_rest c)) self.new }
        ensures clears { (x : World) → RepresentsWorld self.old x → Cleared self.new }
        ensures steps { self.new.steps ≡ self.old.steps }
        ensures spares { SparesAll self.old self.new }
        ensures budget { self.new.budget ≡ self.old.budget }
        ensures placed { self.new.place ≡ None }
    {
        self.abandon();
        self.place = None;
    }

    /// Prints the end of the reply. Where the terminal fails there is no place.
    fn say<T: Terminal>(
        &mut self,
        bytes: &[u8],
        end: LineEnd,
        place: Option<LeftAt>,
        terminal: &mut T,
    ) -> LineEnd
        requires { is_broken end ≡ false }
        ensures lined { (c : Core) (x : World) → SameStackAndSpace c self.old → RepresentsWorld self.old x
            → RanLine T.Terminal (λ r. replied (line_end end) place (print bytes.now c (with_run r x)))
            result self.old self.new terminal.old terminal.new x }
        ensures lasts { LastsLine D.SectorDevice T.Terminal result (device self.old) (device self.new) terminal.old terminal.new }
        ensures tells { D.failures (device self.new) ≡ D.failures (device self.old) }
        ensures counts { (before after : ℕ) → Counts end before after → Counts result before after }
        ensures clears { Clears end self.old → (x : World) → RepresentsWorld self.old x → Clears result self.new }
        ensures placed { IsPlaced (line_end end) place → IsPlaced (line_end result) self.new.place }
        ensures steps { self.new.steps ≡ self.old.steps }
        ensures budget { self.new.budget ≡ self.old.budget }
    {
        match terminal.emit(bytes) {
            Ok(()) => {
                self.place = place;
                end
            }
            Err(IoFault) => {
                self.break_off();
                LineEnd::Io
            }
        }
    }

    /// Where the stream stands.
    pub(crate) fn here_in_stream(&self) -> Place
        ensures { result ≡ place_in self.now.space }
    {
        Place {
            block: cell_of(&self.space, BLK),
            to_in: cell_of(&self.space, TO_IN),
        }
    }

    /// The end of a line that a fault stopped at this place, if it was at any.
    fn fail<T: Terminal>(
        &mut self,
        fault: Fault,
        place: Option<LeftAt>,
        terminal: &mut T,
    ) -> LineEnd
        requires { has_aborted place ≡ false }
        ensures lined { (c : Core) (x : World) → SameSpace c self.old → RepresentsWorld self.old x
            → RanLine T.Terminal (λ r. after_fault place (fault_of fault) c (with_run r x))
            result self.old self.new terminal.old terminal.new x }
        ensures lasts { LastsLine D.SectorDevice T.Terminal result (device self.old) (device self.new) terminal.old terminal.new }
        ensures tells { D.failures (device self.new) ≡ D.failures (device self.old) }
        ensures counts { (count : ℕ) → Counts result count (fault_count fault count) }
        ensures clears { (x : World) → RepresentsWorld self.old x → Clears result self.new }
        ensures placed { IsPlaced (line_end result) self.new.place }
        ensures steps { self.new.steps ≡ self.old.steps }
        ensures budget { self.new.budget ≡ self.old.budget }
    {
        self.abandon();
        let text = fault_text(fault);
        self.say(text.as_slice(), LineEnd::Fault(fault), place, terminal)
    }

    /// The end of a line that `QUIT` left: the data stack stays.
    fn quit<T: Terminal>(&mut self, terminal: &mut T) -> LineEnd
        ensures lined { (c : Core) (x : World) → SameStackAndSpace c self.old → RepresentsWorld self.old x
            → RanLine T.Terminal (λ r. ended (Ends Quits c (with_run r x)))
            result self.old self.new terminal.old terminal.new x }
        ensures lasts { LastsLine D.SectorDevice T.Terminal result (device self.old) (device self.new) terminal.old terminal.new }
        ensures tells { D.failures (device self.new) ≡ D.failures (device self.old) }
        ensures counts { (count : ℕ) → Counts result count count }
        ensures clears { (x : World) → RepresentsWorld self.old x → Clears result self.new }
        ensures placed { IsPlaced (line_end result) self.new.place }
        ensures steps { self.new.steps ≡ self.old.steps }
        ensures budget { self.new.budget ≡ self.old.budget }
    {
        self.close();
        self.say(b"\n", LineEnd::Quit, None, terminal)
    }

    /// The end of a line that `ABORT` left.
    fn abort<T: Terminal>(&mut self, terminal: &mut T) -> LineEnd
        ensures lined { (c : Core) (x : World) → SameSpace c self.old → RepresentsWorld self.old x
            → RanLine T.Terminal (λ r. ended (Ends Aborts c (with_run r x)))
            result self.old self.new terminal.old terminal.new x }
        ensures lasts { LastsLine D.SectorDevice T.Terminal result (device self.old) (device self.new) terminal.old terminal.new }
        ensures tells { D.failures (device self.new) ≡ D.failures (device self.old) }
        ensures counts { (count : ℕ) → Counts result count count }
        ensures clears { (x : World) → RepresentsWorld self.old x → Clears result self.new }
        ensures placed { IsPlaced (line_end result) self.new.place }
        ensures steps { self.new.steps ≡ self.old.steps }
        ensures budget { self.new.budget ≡ self.old.budget }
    {
        self.abandon();
        self.say(b"\n", LineEnd::Quit, Some(LeftAt::Abort), terminal)
    }

    /// Are words compiled: is `STATE` not 0?
    pub(crate) fn is_compiling(&self) -> bool
        ensures { result ≡ compiling (core self.now) }
    {
        self.space.cell(STATE) != Some(0)
    }

    /// The end of a line whose text came to its end.
    fn finish<T: Terminal>(&mut self, terminal: &mut T) -> LineEnd
        ensures lined { (c : Core) (x : World) → SameStackAndSpace c self.old → RepresentsWorld self.old x
            → RanLine T.Terminal (λ r. end_of_line (compiling c) c (with_run r x))
            result self.old self.new terminal.old terminal.new x }
        ensures lasts { LastsLine D.SectorDevice T.Terminal result (device self.old) (device self.new) terminal.old terminal.new }
        ensures tells { D.failures (device self.new) ≡ D.failures (device self.old) }
        ensures counts { (count : ℕ) → Counts result count count }
        ensures clears { (x : World) → RepresentsWorld self.old x → Clears result self.new }
        ensures placed { IsPlaced (line_end result) self.new.place }
        ensures steps { self.new.steps ≡ self.old.steps }
        ensures budget { self.new.budget ≡ self.old.budget }
    {
        if self.is_compiling() {
            self.say(b"\n", LineEnd::Compiling, None, terminal)
        } else {
            self.say(b" ok\n", LineEnd::Interpreting, None, terminal)
        }
    }

    /// Puts the line into the text input buffer. No load is under way.
    fn take_line(&mut self, text: &[u8])
        requires short { length text.now ≤ 1024 }
        requires whole { self.old.steps ≡ self.old.budget.steps }
        ensures stands { (x : World) → RepresentsWorld self.old x → Represents self.new [] (without_loads x) }
        ensures taken { (c : Core) → SameStackAndSpace c self.old → core self.new ≡ with_line text.now self.old.budget.steps c }
        ensures steps { self.new.steps ≡ self.old.budget.steps }
        ensures device { self.new.blocks ≡ self.old.blocks }
        ensures budget { self.new.budget ≡ self.old.budget }
    {
        self.machine = Machine::new();
        self.returns.lend().clear();
        self.loads.clear();
        self.space.set_bytes(TIB, text);
        self.space.set_cell(TIB_COUNT, text.len() as u16);
        self.space.set_cell(TO_IN, 0);
        self.space.set_cell(BLK, 0);
    }

    /// Where lines are events, takes back what was changed since the last save, if the line failed.
    pub(crate) fn take_back(&mut self, end: LineEnd)
        ensures settles { (x : World) → RepresentsWorld self.old x
            → RepresentsWorld self.new (settled (self.old.budget.undoes && has_failed (line_end end) self.old.place) x) }
        ensures rest { self.new ≡ record self.old { blocks = self.new.blocks } }
        ensures device { device self.new ≡ device self.old }
    {
        if !self.budget.undoes {
            return;
        }
        if !end.has_failed(self.place) {
            return;
        }
        self.blocks.discard_changes();
    }

    /// A line as the trait promises it: as a turn. It adds no instruction.
    pub(crate) fn line_as_turn<T: Terminal>(&mut self, text: &[u8], terminal: &mut T) -> LineEnd
        requires sound { IsSoundBetweenLines self.old }
        ensures sound { IsSoundBetweenLines self.new }
        ensures runs { (opening : Abstract) → IsSystem self.old opening
            → (over : Abstract) × (made : List Save) × IsSystem self.new over
            × Answers D.SectorDevice (line_end result) self.new.place (undone_by (line_end result) self.new.place over) opening text.now (settled_by (line_end result) self.new.place over)
            (T.input terminal.old) (T.input terminal.new) (T.output terminal.old) (T.output terminal.new)
            (T.calls terminal.old) (T.calls terminal.new) (device self.old) (device self.new) made
            × Keeps D.SectorDevice opening over (device self.old) (device self.new) made }
        ensures lasts { LastsLine D.SectorDevice T.Terminal result (device self.old) (device self.new) terminal.old terminal.new }
        ensures tells { Counts result (D.failures (device self.old)) (D.failures (device self.new)) }
        ensures clears { Clears result self.new }
        ensures placed { IsPlaced (line_end result) self.new.place }
        ensures budget { self.new.budget ≡ self.old.budget }
        ensures spends { self.new.steps ≤ self.new.budget.steps }
    {
        self.run_line(text, terminal)
    }

    /// Interprets a line of text, and writes the whole reply to the terminal: what comes of it, run by run.
    fn run_line<T: Terminal>(&mut self, text: &[u8], terminal: &mut T) -> LineEnd
        requires sound { IsSoundBetweenLines self.old }
        ensures lined { (opening : Abstract) → RepresentsForth opening self.old
            → RanLine T.Terminal (λ r. line opening text.now r)
            result self.old self.new terminal.old terminal.new opening.world }
        ensures lasts { LastsLine D.SectorDevice T.Terminal result (device self.old) (device self.new) terminal.old terminal.new }
        ensures tells { Counts result (D.failures (device self.old)) (D.failures (device self.new)) }
        ensures clears { Clears result self.new }
        ensures placed { IsPlaced (line_end result) self.new.place }
        ensures budget { self.new.budget ≡ self.old.budget }
        ensures spends { self.new.steps ≤ self.new.budget.steps }
    {
        self.steps = self.budget.steps;
        if text.len() > LINE_LIMIT {
            return self.fail(Fault::LineLength, None, terminal);
        }
        self.take_line(text);
        match self.interpret(terminal) {
            Ok(()) => self.finish(terminal),
            Err(Stop::Fault(fault)) => {
                let place = self.here_in_stream();
                self.fail(fault, Some(LeftAt::Fault(place)), terminal)
            }
            Err(Stop::Quit) => self.quit(terminal),
            Err(Stop::Abort) => self.abort(terminal),
            Err(Stop::Io) => {
                self.break_off();
                LineEnd::Io
            }
        }
    }
}
