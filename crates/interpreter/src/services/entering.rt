//! Words that run further words.
ghost use Rattle.std.specs.Prelude.{◌≡◌, ◌≤◌, ◌<◌, ◌∷◌, ℕ, suc, List, None, OnOk};
ghost use Rattle.data_space.specs.Space.{cell_at};

use crate::fault::Fault;
use crate::forth::Forth;
use crate::place::MOST_LOADS;
use crate::system_cells::{BLK, TO_IN, cell_of};
use cell_machine::event::Work;
use data_space::DataSpace;
use dictionary::is_compile_only;
use sector_disk::SectorDevice;
use stacks::Entry;

impl<D: SectorDevice> Forth<D> {
    ghost use Rattle.cell_machine.specs.Frames.{Level, around_of};
    ghost use Rattle.cell_machine.specs.Value.{and_then};
    ghost use Rattle.system_words.specs.declared.words.Service.TheVariants.{Execute, Load};
    ghost use Rattle.interpreter.specs.LoadStart.{start_now};
    ghost use Rattle.interpreter.specs.State.{World, place_in, with_run};
    ghost use Rattle.interpreter.specs.Law.{left};
    ghost use Rattle.interpreter.specs.Text.{serve, on_service, may_execute};
    ghost use Rattle.interpreter.specs.Representation.{core, RepresentsWorld, Represents};
    ghost use Rattle.interpreter.specs.ServiceContract.{Spares};
    ghost use Rattle.interpreter.specs.RoundContract.{Entered};

    /// May `EXECUTE` run the word of this token?
    fn may_execute(&self, token: u16) -> bool
        ensures { (x : World) → RepresentsWorld self.now x → result ≡ may_execute token x }
    {
        if token == 0 {
            return false;
        }
        if usize::from(token) > self.lexicon.len() {
            return false;
        }
        !is_compile_only(token)
    }

    /// `EXECUTE`.
    pub(crate) fn execute(&mut self) -> Result<(), Fault>
        requires idle { self.old.machine.pending ≡ None }
        ensures entered { (m : ℕ) (levels : List Level) (x : World) → self.old.steps ≤ m → Represents self.old levels x
            → Entered (suc m) (λ r. and_then
            (on_service (suc m) (λ a due c x. serve m a due c x) Execute (around_of levels) (core self.old) (with_run r x))
            (λ c x. left (suc m) levels c x)) result self.old self.new x }
        ensures spares { Spares result self.old self.new }
    {
        let Ok(token) = self.stack.pop() else {
            return Err(Fault::StackEmpty);
        };
        if !self.may_execute(token) {
            return Err(Fault::Token);
        }
        let _ = self.machine.enter(&mut self.stack, self.returns.lend(), Work::Primitive(token));
        Ok(())
    }

    /// `LOAD`: the text of the block comes next, and what was read goes on after it.
    pub(crate) fn load(&mut self) -> Result<(), Fault>
        requires idle { self.old.machine.pending ≡ None }
        ensures entered { (m : ℕ) (levels : List Level) (x : World) → self.old.steps ≤ m → Represents self.old levels x
            → Entered (suc m) (λ r. and_then
            (on_service (suc m) (λ a due c x. serve m a due c x) Load (around_of levels) (core self.old) (with_run r x))
            (λ c x. left (suc m) levels c x)) result self.old self.new x }
        // Its start is where its word begins in the text in which that stands now.
        ensures begun { OnOk result (self.new.loads
            ≡ start_now (place_in self.old.space) self.old.blocks self.old.space ∷ self.old.loads) }
        ensures spares { Spares result self.old self.new }
    {
        let Ok(block) = self.stack.pop() else {
            return Err(Fault::StackEmpty);
        };
        if block == 0 {
            return Err(Fault::NoBlock);
        }
        let depth = self.loads.count();
        if depth >= MOST_LOADS {
            return Err(Fault::LoadDepth);
        }
        let start = self.start_before(self.here_in_stream());
        let back = Entry::Load {
            block: cell_of(&self.space, BLK),
            to_in: cell_of(&self.space, TO_IN),
        };
        let Ok(()) = self.returns.lend().push(back) else {
            return Err(Fault::ReturnStack);
        };
        self.loads.begin(start);
        self.space.set_cell(BLK, block);
        self.space.set_cell(TO_IN, 0);
        Ok(())
    }
}
