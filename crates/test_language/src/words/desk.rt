//! A lexicon with a machine and all that it works on.

ghost use Rattle.std.specs.Prelude.{◌≡◌, ◌<◌, ◌≤◌, None, IfOk, length};
ghost use Rattle.cell_machine.specs.Layout.{most_tokens};
ghost use Rattle.lexicon.specs.Running.{IsReady};
ghost use Rattle.test_language.specs.Going.{GoesOn};
ghost use Rattle.lexicon.specs.Stands.{IsHere};

use cell_machine::event::{Event, Work};
use cell_machine::machine::Machine;
use data_space::DataSpace;
use lexicon::{CompileRefusal, Lexicon, LexiconRefusal, TextKind};
use stacks::{DataStack, ReturnStack};
use std::alloc::Global;
use std::test::Fail;
use system_words::words::Structure;

/// What a test works on.
#[derive(Drop)]
pub(super) struct Desk {
    pub(super) lexicon: Lexicon,
    pub(super) machine: Machine,
    stack: DataStack,
    pub(super) returns: ReturnStack,
    space: DataSpace,
    budget: u32,
}

impl Desk {
    pub(super) fn new(alloc: Global, budget: u32) -> Result<Desk, Fail>
        ensures ready { IfOk result (λ desk. IsReady desk.lexicon desk.machine desk.returns) }
        ensures idle { IfOk result (λ desk. desk.machine.pending ≡ None) }
    {
        let lexicon = Lexicon::new(alloc)?;
        let space = DataSpace::new(alloc)?;
        Ok(Desk {
            lexicon,
            machine: Machine::new(),
            stack: DataStack::new(),
            returns: ReturnStack::new(),
            space,
            budget,
        })
    }

    pub(super) fn begin(&mut self, name: &[u8]) -> Result<(), LexiconRefusal>
        requires { IsReady self.old.lexicon self.old.machine self.old.returns }
        ensures ready { IsReady self.new.lexicon self.new.machine self.new.returns }
        ensures idle { self.new.machine ≡ self.old.machine }
    {
        self.lexicon.begin(name)
    }

    pub(super) fn finish(&mut self) -> Result<(), CompileRefusal>
        requires { IsReady self.old.lexicon self.old.machine self.old.returns }
        ensures ready { IsReady self.new.lexicon self.new.machine self.new.returns }
        ensures idle { self.new.machine ≡ self.old.machine }
    {
        self.lexicon.finish()
    }

    pub(super) fn compile(&mut self, token: u16) -> Result<(), CompileRefusal>
        requires ready { IsReady self.old.lexicon self.old.machine self.old.returns }
        requires from { 0 < token }
        requires most { token ≤ most_tokens }
        ensures ready { IsReady self.new.lexicon self.new.machine self.new.returns }
        ensures idle { self.new.machine ≡ self.old.machine }
    {
        self.lexicon.compile(token)
    }

    pub(super) fn literal(&mut self, cell: u16) -> Result<(), CompileRefusal>
        requires { IsReady self.old.lexicon self.old.machine self.old.returns }
        ensures ready { IsReady self.new.lexicon self.new.machine self.new.returns }
        ensures idle { self.new.machine ≡ self.old.machine }
    {
        self.lexicon.literal(cell)
    }

    pub(super) fn text(&mut self, kind: TextKind, bytes: &[u8]) -> Result<(), CompileRefusal>
        requires ready { IsReady self.old.lexicon self.old.machine self.old.returns }
        requires most { length bytes.now ≤ 1024 }
        ensures ready { IsReady self.new.lexicon self.new.machine self.new.returns }
        ensures idle { self.new.machine ≡ self.old.machine }
    {
        self.lexicon.add_text(kind, bytes)
    }

    pub(super) fn structure(&mut self, structure: Structure) -> Result<(), CompileRefusal>
        requires { IsReady self.old.lexicon self.old.machine self.old.returns }
        ensures ready { IsReady self.new.lexicon self.new.machine self.new.returns }
        ensures idle { self.new.machine ≡ self.old.machine }
    {
        self.lexicon.add_structure(structure)
    }

    pub(super) fn create(&mut self, name: &[u8]) -> Result<(), LexiconRefusal>
        requires { IsReady self.old.lexicon self.old.machine self.old.returns }
        ensures ready { IsReady self.new.lexicon self.new.machine self.new.returns }
        ensures idle { self.new.machine ≡ self.old.machine }
    {
        self.lexicon.create(name)
    }

    pub(super) fn constant(&mut self, name: &[u8], cell: u16) -> Result<(), LexiconRefusal>
        requires { IsReady self.old.lexicon self.old.machine self.old.returns }
        ensures ready { IsReady self.new.lexicon self.new.machine self.new.returns }
        ensures idle { self.new.machine ≡ self.old.machine }
    {
        self.lexicon.add_constant(name, cell)
    }

    pub(super) fn vocabulary(&mut self, name: &[u8]) -> Result<(), LexiconRefusal>
        requires { IsReady self.old.lexicon self.old.machine self.old.returns }
        ensures ready { IsReady self.new.lexicon self.new.machine self.new.returns }
        ensures idle { self.new.machine ≡ self.old.machine }
    {
        self.lexicon.add_vocabulary(name)
    }

    pub(super) fn immediate(&mut self) -> Result<(), LexiconRefusal>
        requires { IsReady self.old.lexicon self.old.machine self.old.returns }
        ensures ready { IsReady self.new.lexicon self.new.machine self.new.returns }
        ensures idle { self.new.machine ≡ self.old.machine }
    {
        self.lexicon.set_immediate()
    }

    /// Enters a word by itself, and does what is left to do up to the first event.
    pub(super) fn run(&mut self, token: u16) -> Event
        requires ready { IsReady self.old.lexicon self.old.machine self.old.returns }
        requires idle { self.old.machine.pending ≡ None }
        ensures ready { GoesOn self.new.lexicon result self.new.machine self.new.returns }
        ensures idle { self.new.machine.pending ≡ None }
    {
        let _ = self
            .machine
            .enter(&mut self.stack, &mut self.returns, Work::Primitive(token));
        self.resume()
    }

    /// Does what is left to do up to the first event.
    pub(super) fn resume(&mut self) -> Event
        requires { IsReady self.old.lexicon self.old.machine self.old.returns }
        ensures ready { GoesOn self.new.lexicon result self.new.machine self.new.returns }
        ensures idle { self.new.machine.pending ≡ None }
    {
        self.lexicon.resume(
            &mut self.machine,
            &mut self.stack,
            &mut self.returns,
            &mut self.space,
            &mut self.budget,
        )
    }

    /// A cell more on the data stack.
    pub(super) fn push(&mut self, cell: u16)
        ensures lexicon { self.new.lexicon ≡ self.old.lexicon }
        ensures machine { self.new.machine ≡ self.old.machine }
        ensures returns { self.new.returns ≡ self.old.returns }
    {
        let _ = self.stack.push(cell);
    }

    /// The top of the data stack, or 65,535 where it is empty.
    pub(super) fn pop(&mut self) -> u16
        ensures lexicon { self.new.lexicon ≡ self.old.lexicon }
        ensures machine { self.new.machine ≡ self.old.machine }
        ensures returns { self.new.returns ≡ self.old.returns }
    {
        self.stack.pop().unwrap_or(65535)
    }

    /// `HERE` is at this address.
    pub(super) fn here(&mut self, here: u16)
        requires ready { IsReady self.old.lexicon self.old.machine self.old.returns }
        requires space { IsHere here }
        ensures ready { IsReady self.new.lexicon self.new.machine self.new.returns }
        ensures idle { self.new.machine ≡ self.old.machine }
    {
        self.lexicon.set_here(here);
    }

    /// New words go to the first vocabulary.
    pub(super) fn definitions(&mut self)
        requires { IsReady self.old.lexicon self.old.machine self.old.returns }
        ensures ready { IsReady self.new.lexicon self.new.machine self.new.returns }
        ensures idle { self.new.machine ≡ self.old.machine }
    {
        self.lexicon.set_current_to_first();
    }

    /// `FORTH` is the first vocabulary.
    pub(super) fn forth(&mut self)
        requires { IsReady self.old.lexicon self.old.machine self.old.returns }
        ensures ready { IsReady self.new.lexicon self.new.machine self.new.returns }
        ensures idle { self.new.machine ≡ self.old.machine }
    {
        self.lexicon.set_first_to_forth();
    }
    /// Drops the open definition.
    pub(super) fn abandon(&mut self)
        requires { IsReady self.old.lexicon self.old.machine self.old.returns }
        ensures ready { IsReady self.new.lexicon self.new.machine self.new.returns }
        ensures idle { self.new.machine ≡ self.old.machine }
    {
        self.lexicon.abandon();
    }
}
