//! The data stack, as services use it.
ghost use Rattle.std.specs.Prelude.{◌≡◌, ◌<◌, ◌≤◌, [], ◌∷◌, length, IfOk, IfErr, OnErr};

use crate::fault::Fault;
use crate::forth::Forth;
use sector_disk::SectorDevice;

impl<D: SectorDevice> Forth<D> {
    ghost use Rattle.interpreter.specs.State.{pushing};
    ghost use Rattle.interpreter.specs.ServiceContract.{Alters, Spares, Tells};
    ghost use Rattle.interpreter.specs.Stops.{fault_count};

    /// Pushes a cell, or STACK FULL.
    pub(crate) fn push(&mut self, cell: u16) -> Result<(), Fault>
        ensures alters { Alters (λ a c x. pushing cell c x) result self.old self.new }
        ensures spares { Spares result self.old self.new }
    {
        match self.stack.push(cell) {
            Ok(()) => Ok(()),
            Err(_) => Err(Fault::StackFull),
        }
    }

    /// The two cells on top of the data stack, the upper one first, or STACK EMPTY.
    pub(crate) fn pop_two(&mut self) -> Result<(u16, u16), Fault>
        ensures popped { IfOk result (λ cells. self.old.stack ≡ cells.0 ∷ cells.1 ∷ self.new.stack) }
        ensures few { OnErr result (length self.old.stack < 2) }
        ensures rest { self.new ≡ record self.old { stack = self.new.stack } }
        ensures fault { IfErr result (λ f. f ≡ Fault.StackEmpty) }
        ensures bound { length self.old.stack ≤ 256 }
        ensures tells { Tells fault_count result self.old self.new }
    {
        match self.stack.pop() {
            Ok(upper) => match self.stack.pop() {
                Ok(lower) => Ok((upper, lower)),
                Err(_) => Err(Fault::StackEmpty),
            },
            Err(_) => Err(Fault::StackEmpty),
        }
    }

    /// The three cells on top of the data stack, the uppermost first, or STACK EMPTY.
    pub(crate) fn pop_three(&mut self) -> Result<(u16, u16, u16), Fault>
        ensures popped { IfOk result (λ cells. self.old.stack ≡ cells.0 ∷ cells.1 ∷ cells.2 ∷ self.new.stack) }
        ensures few { OnErr result (length self.old.stack < 3) }
        ensures rest { self.new ≡ record self.old { stack = self.new.stack } }
        ensures fault { IfErr result (λ f. f ≡ Fault.StackEmpty) }
        ensures bound { length self.old.stack ≤ 256 }
        ensures tells { Tells fault_count result self.old self.new }
    {
        match self.stack.pop() {
            Ok(first) => match self.pop_two() {
                Ok((second, third)) => Ok((first, second, third)),
                Err(fault) => Err(fault),
            },
            Err(_) => Err(Fault::StackEmpty),
        }
    }

    /// Leaves a cell on the data stack, where there is room.
    #[inline]
    pub(crate) fn leave(&mut self, cell: u16)
        requires room { length self.old.stack < 256 }
        ensures left { self.new ≡ record self.old { stack = cell ∷ self.old.stack } }
    {
        let _ = self.stack.push(cell);
    }
}
