//! The text interpreter: a line's loop over what the machine asks for and what the stream holds.
ghost use Rattle.std.specs.Prelude.{◌≡◌, ℕ};
ghost use Rattle.cell_machine.specs.Events.{fault_of as machine_fault_of};
ghost use Rattle.interpreter.specs.Stops.{fault_of, fault_count};
ghost use Rattle.interpreter.specs.ServiceContract.{stopped};

use crate::fault::{Fault, Stop};
use crate::forth::Forth;
use crate::terminal::Terminal;
use cell_machine::event::{Event, MachineFault};
use lexicon::laws::system_words;
use sector_disk::SectorDevice;

/// What a round of the loop leaves to do.
#[derive(Clone, Copy)]
pub enum Round {
    /// What the machine's place and the return stack say, and then the text.
    GoesOn,
    /// The line's text is at its end.
    Over,
}

/// The fault that the machine found.
fn machine_fault(fault: MachineFault) -> Fault
    ensures fault { fault_of result ≡ machine_fault_of fault }
    ensures tells { (count : ℕ) → fault_count result count ≡ count }
{
    match fault {
        MachineFault::StackEmpty => Fault::StackEmpty,
        MachineFault::StackFull => Fault::StackFull,
        MachineFault::ReturnStack => Fault::ReturnStack,
        MachineFault::Address => Fault::Address,
        MachineFault::Division => Fault::Division,
        MachineFault::Steps => Fault::Steps,
    }
}

/// What a round at the text comes to: it reaches no terminal.
fn round_of_text(done: Result<Round, Fault>) -> Result<Round, Stop>
    ensures { result ≡ stopped done }
{
    match done {
        Ok(round) => Ok(round),
        Err(fault) => Err(Stop::Fault(fault)),
    }
}

impl<D: SectorDevice> Forth<D> {
    ghost use Rattle.std.specs.Prelude.{◌≡◌, ◌<◌, ◌≤◌, ℕ, List, []};
    ghost use Rattle.cell_machine.specs.Frames.{Level};
    ghost use Rattle.interpreter.specs.Law.{left};
    ghost use Rattle.interpreter.specs.State.{World, with_run};
    ghost use Rattle.interpreter.specs.Representation.{core, Represents, IsSound};
    ghost use Rattle.interpreter.specs.ServiceContract.{Ran, Continues};
    ghost use Rattle.interpreter.specs.RoundContract.{RanRound, ContinuesRound, measure, Decreases};

    /// What is left to do in the machine, up to what it asks for; and that, or a word of the text.
    pub(crate) fn round<T: Terminal>(&mut self, terminal: &mut T) -> Result<Round, Stop>
        requires sound { IsSound self.old }
        ensures round { (n : ℕ) (levels : List Level) (x : World) → self.old.steps < n → Represents self.old levels x
            → RanRound T.Terminal n (λ r. left n levels (core self.old) (with_run r x))
            result self.old self.new terminal.old terminal.new x }
        ensures down { Decreases result (measure self.old) (measure self.new) }
        ensures continues { ContinuesRound T.Terminal result self.old self.new terminal.old terminal.new }
    {
        system_words();
        let event = self.lexicon.resume(
            &mut self.machine,
            &mut self.stack,
            self.returns.lend(),
            &mut self.space,
            &mut self.steps,
        );
        match event {
            Event::Done => round_of_text(self.advance()),
            Event::Service(op) => self.serve(op, terminal),
            Event::Fault(fault) => Err(Stop::Fault(machine_fault(fault))),
            Event::Quit => Err(Stop::Quit),
            Event::Abort => Err(Stop::Abort),
        }
    }

    /// All that is left to do, and the text to its end.
    pub(crate) fn interpret<T: Terminal>(&mut self, terminal: &mut T) -> Result<(), Stop>
        requires sound { IsSound self.old }
        ensures ran { (n : ℕ) (levels : List Level) (x : World) → self.old.steps < n → Represents self.old levels x
            → Ran T.Terminal (λ r. left n levels (core self.old) (with_run r x))
            result self.old self.new terminal.old terminal.new [] x }
        ensures continues { Continues T.Terminal result self.old self.new terminal.old terminal.new }
    {
        'rounds: loop {
            match self.round(terminal) {
                Ok(Round::GoesOn) => {}
                Ok(Round::Over) => return Ok(()),
                Err(stop) => return Err(stop),
            }
        }
    }
}
