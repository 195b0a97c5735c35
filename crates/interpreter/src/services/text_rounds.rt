//! A round of the loop at the text: the next word of the stream, done or compiled, or the end of the text.
ghost use Rattle.std.specs.Prelude.{◌≡◌, ◌≤◌, ◌<◌, ℕ, List, ◌∷◌, None, Ok, length, take};

use crate::fault::Fault;
use crate::forth::Forth;
use crate::interpreting::Round;
use crate::services::lookahead::{Cut, Look};
use crate::system_cells::{BASE, BLK, TO_IN, cell_of};
use cell_machine::event::Work;
use dictionary::is_compile_only;
use lexicon::laws::levels;
use number_io::{Number, NumberFault, read_number};
use sector_disk::SectorDevice;
use stacks::Entry;

impl<D: SectorDevice> Forth<D> {
    ghost use Rattle.cell_machine.specs.Frames.{Level, Once, around_of};
    ghost use Rattle.cell_machine.specs.Value.{and_then};
    ghost use Rattle.number_io.specs.Number.{number};
    ghost use Rattle.lexicon.specs.Stands.{IsWord, IsSound as IsSoundLexicon};
    ghost use Rattle.interpreter.specs.State.{World, with_run, without_load, system_cell, base_cell};
    ghost use Rattle.interpreter.specs.Law.{left};
    ghost use Rattle.interpreter.specs.Lexicon.{language_of};
    ghost use Rattle.interpreter.specs.Text.{serve, found_word, with_number, number_value};
    ghost use Rattle.interpreter.specs.Pictures.{with_base};
    ghost use Rattle.interpreter.specs.Representation.{core, RepresentsWorld, Represents, IsSound};
    ghost use Rattle.interpreter.specs.ServiceContract.{Alters, Spares, SparesAll, ContinuesAlone, stopped};
    ghost use Rattle.interpreter.specs.RoundContract.{Entered, IsAtText, Decreases, measure};
    ghost use Rattle.interpreter.specs.Looking.{seen_in};
    ghost use Rattle.interpreter.specs.TextRounds.{Passed, Advanced, after_text, treated, seen_round, found_compiling, with_double};

    /// A word of the text, or its end.
    pub(crate) fn advance(&mut self) -> Result<Round, Fault>
        requires sound { IsSound self.old }
        requires idle { self.old.machine.pending ≡ None }
        ensures advanced { (n : ℕ) (levels : List Level) (x : World) → self.old.steps < n → Represents self.old levels x
            → IsAtText levels
            → Advanced n (λ r. left n levels (core self.old) (with_run r x)) result self.old self.new x }
        ensures down { Decreases (stopped result) (measure self.old) (measure self.new) }
        ensures continues { ContinuesAlone result self.old self.new }
    {
        match self.look(Cut::Word, b' ') {
            Ok(look) => self.pass(look),
            Err(fault) => Err(fault),
        }
    }

    /// The word that was looked at is taken and done. Where there is none, the text is at its end.
    fn pass(&mut self, look: Look) -> Result<Round, Fault>
        requires sound { IsSound self.old }
        requires idle { self.old.machine.pending ≡ None }
        requires within { look.count ≤ 1024 }
        requires whole { length (take look.count self.old.text) ≡ look.count }
        ensures passed { (n : ℕ) (levels : List Level) (x : World) → self.old.steps < n → Represents self.old levels x
            → IsAtText levels
            → Passed n (λ r. seen_round n levels (seen_in look self.old.text) (core self.old) (with_run r x))
            result self.old self.new x }
        ensures down { Decreases (stopped result) (measure self.old) (measure self.new) }
        ensures spares { Spares result self.old self.new }
    {
        if look.count == 0 {
            self.space.set_cell(TO_IN, look.behind);
            return Ok(self.leave_text());
        }
        if self.steps == 0 {
            return Err(Fault::Steps);
        }
        self.steps -= 1;
        self.space.set_cell(TO_IN, look.behind);
        match self.treat(look.count) {
            Ok(()) => Ok(Round::GoesOn),
            Err(fault) => Err(fault),
        }
    }

    /// The end of the text: of a load, and what stood around it goes on; or of the line.
    fn leave_text(&mut self) -> Round
        requires idle { self.old.machine.pending ≡ None }
        ensures passed { (n : ℕ) (levels : List Level) (x : World) → Represents self.old levels x → IsAtText levels
            → Passed n (λ r. after_text n levels (core self.old) (with_run r (without_load x))) (Ok result) self.old self.new x }
        ensures down { Decreases (Ok result) (measure self.old) (measure self.new) }
        ensures spares { SparesAll self.old self.new }
    {
        levels();
        self.loads.end();
        let Ok(entry) = self.returns.lend().pop() else {
            return Round::Over;
        };
        let Entry::Load { block, to_in } = entry else {
            return Round::Over;
        };
        self.space.set_cell(BLK, block);
        self.space.set_cell(TO_IN, to_in);
        Round::GoesOn
    }

    /// A word of the text: one that the search finds, or a number.
    fn treat(&mut self, count: usize) -> Result<(), Fault>
        requires sound { IsSound self.old }
        requires idle { self.old.machine.pending ≡ None }
        requires within { count ≤ 1024 }
        ensures entered { (n : ℕ) (levels : List Level) (x : World) → Represents self.old levels x
            → Entered n (λ r. treated n levels (take count self.old.text) (core self.old) (with_run r x))
            result self.old self.new x }
        ensures spares { Spares result self.old self.new }
    {
        match self.lexicon.find(&self.text[..count]) {
            Some(token) => self.found(token),
            None => self.number(count),
        }
    }

    /// A word that the search found: it is run, or added to the open definition.
    fn found(&mut self, token: u16) -> Result<(), Fault>
        requires sound { IsSound self.old }
        requires idle { self.old.machine.pending ≡ None }
        requires word { (x : World) → RepresentsWorld self.old x → IsWord (language_of x) token }
        ensures entered { (n : ℕ) (levels : List Level) (x : World) → Represents self.old levels x
            → Entered n (λ r. and_then
            (found_word n (λ a due c x. serve n a due c x) token (around_of levels) (core self.old) (with_run r x))
            (λ c x. left n levels c x)) result self.old self.new x }
        ensures spares { Spares result self.old self.new }
    {
        if self.is_compiling() {
            return self.found_in_definition(token);
        }
        if is_compile_only(token) {
            return Err(Fault::CompileOnly);
        }
        self.run_next(token);
        Ok(())
    }

    /// A word that is found while words are compiled: it is added, and an immediate one is run.
    fn found_in_definition(&mut self, token: u16) -> Result<(), Fault>
        requires sound { IsSound self.old }
        requires idle { self.old.machine.pending ≡ None }
        requires word { (x : World) → RepresentsWorld self.old x → IsWord (language_of x) token }
        ensures entered { (n : ℕ) (levels : List Level) (x : World) → Represents self.old levels x
            → Entered n (λ r. and_then
            (found_compiling n token (around_of levels) (core self.old) (with_run r x))
            (λ c x. left n levels c x)) result self.old self.new x }
        ensures spares { Spares result self.old self.new }
    {
        if !self.lexicon.is_immediate(token) {
            return self.add_word(token);
        }
        self.run_next(token);
        Ok(())
    }

    /// Makes this word what is done next.
    fn run_next(&mut self, token: u16)
        requires idle { self.old.machine.pending ≡ None }
        ensures entered { (n : ℕ) (levels : List Level) (x : World) → Represents self.old levels x
            → Entered n (λ r. left n (Once token ∷ levels) (core self.old) (with_run r x)) (Ok tt) self.old self.new x }
        ensures spares { SparesAll self.old self.new }
    {
        let _ = self.machine.enter(&mut self.stack, self.returns.lend(), Work::Primitive(token));
    }

    /// A number of the text, in `BASE`.
    fn number(&mut self, count: usize) -> Result<(), Fault>
        requires sound { IsSound self.old }
        requires within { count ≤ 1024 }
        ensures alters { Alters
            (λ a c x. with_base c x (λ c. number_value (number (system_cell base_cell c) (take count self.old.text)) c x))
            result self.old self.new }
        ensures spares { Spares result self.old self.new }
    {
        let base = cell_of(&self.space, BASE);
        if base < 2 {
            return Err(Fault::Base);
        }
        if base > 72 {
            return Err(Fault::Base);
        }
        match read_number(&self.text[..count], base) {
            Ok(Number::Single(cell)) => self.number_cell(cell),
            Ok(Number::Double(double)) => self.number_cells(double),
            Err(NumberFault::NotANumber) => Err(Fault::Undefined),
            Err(NumberFault::OutOfRange) => Err(Fault::Number),
        }
    }

    /// A cell of a number: pushed, or added to the open definition.
    fn number_cell(&mut self, cell: u16) -> Result<(), Fault>
        requires sound { IsSoundLexicon self.old.lexicon }
        ensures alters { Alters (λ a c x. with_number cell c x) result self.old self.new }
        ensures spares { Spares result self.old self.new }
    {
        if self.is_compiling() {
            return self.add_literal(cell);
        }
        self.push(cell)
    }

    /// Both cells of a double number, the low one first.
    fn number_cells(&mut self, double: u32) -> Result<(), Fault>
        requires sound { IsSound self.old }
        ensures alters { Alters (λ a c x. with_double double c x) result self.old self.new }
        ensures spares { Spares result self.old self.new }
    {
        match self.number_cell((double % 65536) as u16) {
            Ok(()) => self.number_cell((double / 65536) as u16),
            Err(fault) => Err(fault),
        }
    }
}
