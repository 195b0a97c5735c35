//! Words that take a name from the stream.

ghost use Rattle.std.specs.Prelude.{◌≡◌, ◌≤◌, ℕ, take, Ok, None};

use crate::fault::Fault;
use crate::forth::Forth;
use crate::services::compiling_words::lexicon_fault;
use crate::services::lexicon_words::LAST_HERE;
use crate::system_cells::STATE;
use sector_disk::SectorDevice;
use system_words::words::NameWord;

impl<D: SectorDevice> Forth<D> {
    ghost use Rattle.system_words.specs.declared.words.NameWord.TheVariants.{Tick, Forget, Colon, MakeConstant, Create, Variable, MakeVocabulary, CompileTick, BracketCompile};
    ghost use Rattle.cell_machine.specs.Value.{Did};
    ghost use Rattle.dictionary.specs.Words.{Created, Constant, Vocabulary};
    ghost use Rattle.lexicon.specs.Adding.{MayBeAdded};
    ghost use Rattle.lexicon.specs.Language.{Language, forgetting};
    ghost use Rattle.lexicon.specs.Stands.{Stands as Means, IsSound, IsWord};
    ghost use Rattle.interpreter.specs.Lexicon.{language_of, stepped};
    ghost use Rattle.interpreter.specs.Naming.{adding, variable};
    ghost use Rattle.interpreter.specs.NameWords.{on_name};
    ghost use Rattle.interpreter.specs.Compiling.{begun};
    ghost use Rattle.interpreter.specs.ServiceContract.{Alters, Spares, SparesAll, Consults, ContinuesAlone};

    /// A word that takes a name from the stream.
    pub(crate) fn on_name(&mut self, word: NameWord) -> Result<(), Fault>
        requires sound { IsSound self.old.lexicon }
        ensures consults { Consults (λ a c x. on_name word a c x) result self.old self.new }
        ensures continues { ContinuesAlone result self.old self.new }
    {
        match word {
            NameWord::Tick => self.tick(),
            NameWord::Forget => self.forget(),
            NameWord::Colon => self.colon(),
            NameWord::MakeConstant => self.constant(),
            NameWord::Create => self.create(),
            NameWord::Variable => self.variable(),
            NameWord::MakeVocabulary => self.vocabulary(),
            NameWord::CompileTick => self.compile_tick(),
            NameWord::BracketCompile => self.bracket_compile(),
        }
    }

    /// A word with a data field, of the name that was taken.
    fn add_created(&mut self, count: usize)
        requires sound { IsSound self.old.lexicon }
        requires within { count ≤ 1024 }
        requires fits { MayBeAdded self.old.lexicon (take count self.old.text) }
        ensures alters { Alters (λ a c x. Did c (adding (take count self.old.text) (Created x.here None) x)) (Ok tt)
            self.old self.new }
        ensures spares { SparesAll self.old self.new }
    {
        let _ = self.lexicon.create(&self.text[..count]);
    }

    /// `CREATE`.
    fn create(&mut self) -> Result<(), Fault>
        requires sound { IsSound self.old.lexicon }
        ensures consults { Consults (λ a c x. on_name Create a c x) result self.old self.new }
        ensures continues { ContinuesAlone result self.old self.new }
    {
        match self.take_new_word() {
            Ok(count) => {
                self.add_created(count);
                Ok(())
            }
            Err(fault) => Err(fault),
        }
    }

    /// A constant of the name that was taken.
    fn add_constant(&mut self, count: usize, cell: u16)
        requires sound { IsSound self.old.lexicon }
        requires within { count ≤ 1024 }
        requires fits { MayBeAdded self.old.lexicon (take count self.old.text) }
        ensures alters { Alters (λ a c x. Did c (adding (take count self.old.text) (Constant cell) x)) (Ok tt) self.old self.new }
        ensures spares { SparesAll self.old self.new }
    {
        let _ = self.lexicon.add_constant(&self.text[..count], cell);
    }

    /// `CONSTANT`.
    fn constant(&mut self) -> Result<(), Fault>
        requires sound { IsSound self.old.lexicon }
        ensures consults { Consults (λ a c x. on_name MakeConstant a c x) result self.old self.new }
        ensures continues { ContinuesAlone result self.old self.new }
    {
        let Ok(cell) = self.stack.pop() else {
            return Err(Fault::StackEmpty);
        };
        match self.take_new_word() {
            Ok(count) => {
                self.add_constant(count, cell);
                Ok(())
            }
            Err(fault) => Err(fault),
        }
    }

    /// A vocabulary of the name that was taken.
    fn add_vocabulary(&mut self, count: usize)
        requires sound { IsSound self.old.lexicon }
        requires within { count ≤ 1024 }
        requires fits { MayBeAdded self.old.lexicon (take count self.old.text) }
        ensures alters { Alters (λ a c x. Did c (adding (take count self.old.text) Vocabulary x)) (Ok tt) self.old self.new }
        ensures spares { SparesAll self.old self.new }
    {
        let _ = self.lexicon.add_vocabulary(&self.text[..count]);
    }

    /// `VOCABULARY`.
    fn vocabulary(&mut self) -> Result<(), Fault>
        requires sound { IsSound self.old.lexicon }
        ensures consults { Consults (λ a c x. on_name MakeVocabulary a c x) result self.old self.new }
        ensures continues { ContinuesAlone result self.old self.new }
    {
        match self.take_new_word() {
            Ok(count) => {
                self.add_vocabulary(count);
                Ok(())
            }
            Err(fault) => Err(fault),
        }
    }

    /// A variable of the name that was taken.
    fn add_variable(&mut self, count: usize) -> Result<(), Fault>
        requires sound { IsSound self.old.lexicon }
        requires within { count ≤ 1024 }
        requires fits { MayBeAdded self.old.lexicon (take count self.old.text) }
        ensures alters { Alters (λ a c x. variable (take count self.old.text) c x) result self.old self.new }
        ensures spares { Spares result self.old self.new }
    {
        let here = self.lexicon.here();
        if here > LAST_HERE - 2 {
            return Err(Fault::DataSpace);
        }
        let _ = self.lexicon.create(&self.text[..count]);
        self.lexicon.set_here(here + 2);
        self.space.set_cell(here, 0);
        Ok(())
    }

    /// `VARIABLE`.
    fn variable(&mut self) -> Result<(), Fault>
        requires sound { IsSound self.old.lexicon }
        ensures consults { Consults (λ a c x. on_name Variable a c x) result self.old self.new }
        ensures continues { ContinuesAlone result self.old self.new }
    {
        match self.take_new_word() {
            Ok(count) => self.add_variable(count),
            Err(fault) => Err(fault),
        }
    }

    /// `'`.
    fn tick(&mut self) -> Result<(), Fault>
        ensures consults { Consults (λ a c x. on_name Tick a c x) result self.old self.new }
        ensures continues { ContinuesAlone result self.old self.new }
    {
        match self.take_token() {
            Ok(token) => self.push(token),
            Err(fault) => Err(fault),
        }
    }

    /// Forgets this word and all newer ones.
    fn forget_from(&mut self, token: u16) -> Result<(), Fault>
        requires word { (x : Language) × (Means self.old.lexicon x × IsWord x token) }
        ensures alters { Alters (λ a c x. stepped (forgetting token a.running (language_of x)) (λ c. c) c x)
            result self.old self.new }
        ensures spares { Spares result self.old self.new }
    {
        match self
            .lexicon
            .forget(token, &self.machine, self.returns.stack())
        {
            Ok(()) => Ok(()),
            Err(refusal) => Err(lexicon_fault(refusal)),
        }
    }

    /// `FORGET`.
    fn forget(&mut self) -> Result<(), Fault>
        requires sound { IsSound self.old.lexicon }
        ensures consults { Consults (λ a c x. on_name Forget a c x) result self.old self.new }
        ensures continues { ContinuesAlone result self.old self.new }
    {
        if self.lexicon.is_open() {
            return Err(Fault::DefinitionOpen);
        }
        match self.take_current() {
            Ok(token) => self.forget_from(token),
            Err(fault) => Err(fault),
        }
    }

    /// Begins a definition of the name that was taken.
    fn begin(&mut self, count: usize)
        requires sound { IsSound self.old.lexicon }
        requires within { count ≤ 1024 }
        requires fits { MayBeAdded self.old.lexicon (take count self.old.text) }
        ensures alters { Alters (λ a c x. begun (take count self.old.text) c x) (Ok tt) self.old self.new }
        ensures spares { SparesAll self.old self.new }
    {
        let _ = self.lexicon.begin(&self.text[..count]);
        self.space.set_cell(STATE, 65535);
    }

    /// `:`.
    fn colon(&mut self) -> Result<(), Fault>
        requires sound { IsSound self.old.lexicon }
        ensures consults { Consults (λ a c x. on_name Colon a c x) result self.old self.new }
        ensures continues { ContinuesAlone result self.old self.new }
    {
        match self.take_new_word() {
            Ok(count) => {
                self.begin(count);
                Ok(())
            }
            Err(fault) => Err(fault),
        }
    }

    /// `[']`.
    fn compile_tick(&mut self) -> Result<(), Fault>
        requires sound { IsSound self.old.lexicon }
        ensures consults { Consults (λ a c x. on_name CompileTick a c x) result self.old self.new }
        ensures continues { ContinuesAlone result self.old self.new }
    {
        if !self.lexicon.is_open() {
            return Err(Fault::NoDefinition);
        }
        match self.take_token() {
            Ok(token) => self.add_literal(token),
            Err(fault) => Err(fault),
        }
    }

    /// `[COMPILE]`.
    fn bracket_compile(&mut self) -> Result<(), Fault>
        requires sound { IsSound self.old.lexicon }
        ensures consults { Consults (λ a c x. on_name BracketCompile a c x) result self.old self.new }
        ensures continues { ContinuesAlone result self.old self.new }
    {
        if !self.lexicon.is_open() {
            return Err(Fault::NoDefinition);
        }
        match self.take_token() {
            Ok(token) => self.add_word(token),
            Err(fault) => Err(fault),
        }
    }
}
