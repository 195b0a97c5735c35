//! Words on the open definition.
ghost use Rattle.std.specs.Prelude.{◌≡◌, ◌≤◌, ◌<◌, ℕ, List, take};
ghost use Rattle.interpreter.specs.Stops.{fault_of, fault_count};
ghost use Rattle.compiler.specs.Promise.{fault_of as compile_fault_of};
ghost use Rattle.lexicon.specs.Promise.{fault_of as refusal_fault_of};

use crate::fault::Fault;
use crate::forth::Forth;
use crate::system_cells::STATE;
use lexicon::{CompileRefusal, LexiconRefusal, TextKind};
use sector_disk::SectorDevice;
use system_words::words::{DefinitionWord, Structure};

/// Why the open definition refused something, as the line says it.
pub(crate) fn compile_fault(refusal: CompileRefusal) -> Fault
    ensures fault { fault_of result ≡ compile_fault_of refusal }
    ensures tells { (count : ℕ) → fault_count result count ≡ count }
{
    match refusal {
        CompileRefusal::NoDefinition => Fault::NoDefinition,
        CompileRefusal::DefinitionOpen => Fault::DefinitionOpen,
        CompileRefusal::Unbalanced => Fault::Unbalanced,
        CompileRefusal::CodeFull => Fault::CodeFull,
    }
}

/// Why the lexicon refused something, as the line says it.
pub(crate) fn lexicon_fault(refusal: LexiconRefusal) -> Fault
    ensures fault { fault_of result ≡ refusal_fault_of refusal }
    ensures tells { (count : ℕ) → fault_count result count ≡ count }
{
    match refusal {
        LexiconRefusal::DefinitionOpen => Fault::DefinitionOpen,
        LexiconRefusal::Name => Fault::Name,
        LexiconRefusal::DictionaryFull => Fault::DictionaryFull,
        LexiconRefusal::Protected => Fault::Protected,
        LexiconRefusal::Token => Fault::Token,
    }
}

impl<D: SectorDevice> Forth<D> {
    ghost use Rattle.system_words.specs.declared.words.DefinitionWord.TheVariants.{Semicolon, Literal, Build};
    ghost use Rattle.cell_machine.specs.Layout.{most_tokens};
    ghost use Rattle.compiler.specs.Definition.{add_literal, add_text};
    ghost use Rattle.compiler.specs.Promise.{kind_of};
    ghost use Rattle.interpreter.specs.Compiling.{on_definition, changing, compile_word, compile_text};
    ghost use Rattle.cell_machine.specs.Tree.{Trees};
    ghost use Rattle.cell_machine.specs.Frames.{Level};
    ghost use Rattle.interpreter.specs.State.{World, with_run};
    ghost use Rattle.interpreter.specs.Lexicon.{language_of};
    ghost use Rattle.interpreter.specs.Naming.{give_part};
    ghost use Rattle.interpreter.specs.Representation.{core, Represents};
    ghost use Rattle.interpreter.specs.ServiceContract.{Alters, Altered, Spares, Consults, ContinuesAlone};
    ghost use Rattle.lexicon.specs.Stands.{IsSound, IsPart};

    /// A word on the open definition.
    pub(crate) fn on_definition(&mut self, word: DefinitionWord) -> Result<(), Fault>
        requires sound { IsSound self.old.lexicon }
        ensures alters { Alters (λ a c x. on_definition word c x) result self.old self.new }
        ensures spares { Spares result self.old self.new }
    {
        match word {
            DefinitionWord::Semicolon => self.semicolon(),
            DefinitionWord::Literal => self.literal(),
            DefinitionWord::Build(structure) => self.structure(structure),
        }
    }

    /// A structure word, or `DOES>`.
    fn structure(&mut self, structure: Structure) -> Result<(), Fault>
        requires sound { IsSound self.old.lexicon }
        ensures alters { Alters (λ a c x. on_definition (Build structure) c x) result self.old self.new }
        ensures spares { Spares result self.old self.new }
    {
        match self.lexicon.add_structure(structure) {
            Ok(()) => Ok(()),
            Err(refusal) => Err(compile_fault(refusal)),
        }
    }

    /// A literal in the open definition.
    pub(crate) fn add_literal(&mut self, cell: u16) -> Result<(), Fault>
        requires sound { IsSound self.old.lexicon }
        ensures alters { Alters (λ a c x. changing (λ used. add_literal used cell) c x) result self.old self.new }
        ensures spares { Spares result self.old self.new }
    {
        match self.lexicon.literal(cell) {
            Ok(()) => Ok(()),
            Err(refusal) => Err(compile_fault(refusal)),
        }
    }

    /// A word in the open definition, as `COMPILE` adds it when it runs.
    pub(crate) fn add_word(&mut self, token: u16) -> Result<(), Fault>
        requires sound { IsSound self.old.lexicon }
        requires from { 0 < token }
        requires most { token ≤ most_tokens }
        ensures alters { Alters (λ a c x. compile_word token c x) result self.old self.new }
        ensures spares { Spares result self.old self.new }
    {
        match self.lexicon.compile(token) {
            Ok(()) => Ok(()),
            Err(refusal) => Err(compile_fault(refusal)),
        }
    }

    /// `LITERAL`.
    fn literal(&mut self) -> Result<(), Fault>
        requires sound { IsSound self.old.lexicon }
        ensures alters { Alters (λ a c x. on_definition Literal c x) result self.old self.new }
        ensures spares { Spares result self.old self.new }
    {
        if !self.lexicon.is_open() {
            return Err(Fault::NoDefinition);
        }
        match self.stack.pop() {
            Ok(cell) => self.add_literal(cell),
            Err(_) => Err(Fault::StackEmpty),
        }
    }

    /// `;`.
    fn semicolon(&mut self) -> Result<(), Fault>
        requires sound { IsSound self.old.lexicon }
        ensures alters { Alters (λ a c x. on_definition Semicolon c x) result self.old self.new }
        ensures spares { Spares result self.old self.new }
    {
        match self.lexicon.finish() {
            Ok(()) => {
                self.space.set_cell(STATE, 0);
                Ok(())
            }
            Err(refusal) => Err(compile_fault(refusal)),
        }
    }

    /// Gives the most recent word the part at a place, as `DOES>` does where its word runs.
    pub(crate) fn give_part(&mut self, place: u16) -> Result<(), Fault>
        requires sound { IsSound self.old.lexicon }
        ensures alters { (owner : ℕ) (parts : List Trees) (levels : List Level) (x : World) → Represents self.old levels x
            → IsPart self.old.lexicon (language_of x) place owner parts
            → Altered (λ r. give_part (record { owner = owner; parts = parts }) (core self.old) (with_run r x))
            result self.old self.new levels x }
        ensures spares { Spares result self.old self.new }
        ensures steps { self.new.steps ≡ self.old.steps }
        ensures returns { self.new.returns ≡ self.old.returns }
    {
        match self.lexicon.give_part(place) {
            Ok(()) => Ok(()),
            Err(refusal) => Err(lexicon_fault(refusal)),
        }
    }

    /// The text that was taken, in the open definition.
    fn add_text(&mut self, kind: TextKind, count: usize) -> Result<(), Fault>
        requires sound { IsSound self.old.lexicon }
        requires within { count ≤ 1024 }
        ensures alters { Alters (λ a c x. changing (λ used. add_text used (kind_of kind) (take count self.old.text)) c x)
            result self.old self.new }
        ensures spares { Spares result self.old self.new }
    {
        match self.lexicon.add_text(kind, &self.text[..count]) {
            Ok(()) => Ok(()),
            Err(refusal) => Err(compile_fault(refusal)),
        }
    }

    /// `."` and `ABORT"`, which take their texts up to a quotation mark.
    pub(crate) fn compile_text(&mut self, kind: TextKind) -> Result<(), Fault>
        requires sound { IsSound self.old.lexicon }
        ensures consults { Consults (λ a c x. compile_text (kind_of kind) c x) result self.old self.new }
        ensures continues { ContinuesAlone result self.old self.new }
    {
        if !self.lexicon.is_open() {
            return Err(Fault::NoDefinition);
        }
        match self.take_text(b'"') {
            Ok(count) => self.add_text(kind, count),
            Err(fault) => Err(fault),
        }
    }
}
