//! The words of a Forth system: looking at them and changing them.
//! Rule: LANGUAGE, Dictionary and search.
ghost use Rattle.std.specs.Prelude.{◌≡◌, ◌≤◌, Some, None, IfOk, IfErr, IfSome, OnOk, length, is_some};
ghost use Rattle.dictionary.specs.Words.{Created, Constant, Vocabulary, find, find_in, entry, forth_token, system_count};
ghost use Rattle.lexicon.specs.Language.{Language, new_language, adding_word, marking};
ghost use Rattle.lexicon.specs.Stands.{Stands, IsSound, IsHere, IsWord};
ghost use Rattle.lexicon.specs.Promise.{fault_of, Becomes, Goes, Stops, GivesPart, StopsPart, Forgets, Protects};
ghost use Rattle.lexicon.specs.Adding.{MayBeAdded, MayNotBeAdded, AddsData, RefusesData};
ghost use Rattle.lexicon.specs.Kinds.{is_vocabulary, data_address, is_immediate, makes_vocabulary, data_field};

use crate::kinds::{data_field, makes_vocabulary, name_refusal};
use cell_machine::code::Code;
use cell_machine::machine::Machine;
use compiler::Compiler;
use dictionary::{Dictionary, FORTH, Kind};
use stacks::ReturnStack;
use std::alloc::{AllocError, Global};

/// Memory for the lexicon was refused.
pub type NoMemory = AllocError;

/// The number of a word, 1 to 4,096.
pub type Token = u16;

/// Where data fields begin.
pub const FIRST_HERE: u16 = 1280;

/// How far `PAD` is from `HERE`, and so how far behind it a picture ends.
pub const PAD_OFFSET: u16 = 324;

/// Why a call was refused that is no addition to the open definition. Nothing is changed then.
#[derive(Clone, Copy, Debug, PartialEq, Eq)]
pub enum LexiconRefusal {
    /// A definition is open.
    DefinitionOpen,
    /// The name of a new word has no byte, or more than 31.
    Name,
    /// There are 4,096 words.
    DictionaryFull,
    /// It would change a system word, or delete the compilation vocabulary or a word whose body runs.
    Protected,
    /// The most recent word has no data field.
    Token,
}

/// The words of a Forth system, the bodies that they run, and what is open among them.
///
/// A refused call has changed nothing. A new word is refused as `DefinitionOpen` where a definition is open, as `Name`
/// where its name has no byte or more than 31, or as `DictionaryFull` where there are 4,096 words, in this order; an
/// addition to the open definition as `NoDefinition`, `Unbalanced` or `CodeFull`, in this order.
/// Rule: LANGUAGE, Dictionary and search.
#[derive(Drop)]
pub struct Lexicon {
    pub(crate) dictionary: Dictionary,
    pub(crate) code: Code,
    pub(crate) compiler: Compiler,
    /// `HERE`: where the next data field begins
    pub(crate) here: u16,
    /// `HERE` when the open definition was begun
    pub(crate) begun_at: u16,
}

impl Lexicon {
    /// The system words alone. All memory is taken here: `NoMemory` where it is refused.
    /// Rule: LANGUAGE, Limits.
    pub fn new(alloc: Global) -> Result<Lexicon, NoMemory>
        ensures { IfOk result (λ lexicon. Stands lexicon new_language) }
    {
        Ok(Lexicon {
            dictionary: Dictionary::new(alloc)?,
            code: Code::new(alloc)?,
            compiler: Compiler::new(alloc)?,
            here: FIRST_HERE,
            begun_at: FIRST_HERE,
        })
    }

    /// How many words there are, 132 to 4,096, which is the token of the most recent one.
    #[inline]
    pub fn len(&self) -> usize
        ensures len { (x : Language) → Stands self.now x → result ≡ length x.words }
        ensures some { system_count ≤ result }
        ensures most { result ≤ 4096 }
    {
        self.dictionary.len()
    }

    /// The token of the word that the text interpreter finds: in the first vocabulary, else in `FORTH`. None where
    /// neither has the name.
    /// Rule: LANGUAGE, Dictionary and search; Forth-83 Standard, FIND.
    pub fn find(&self, name: &[u8]) -> Option<Token>
        ensures found { (x : Language) → Stands self.now x → result ≡ find x.words x.first name.now }
        ensures word { IfSome result (λ token. (x : Language) → Stands self.now x → IsWord x token) }
    {
        self.dictionary.find(name)
    }

    /// The token of the newest word of the name in the compilation vocabulary, where `FORGET` looks. None where it has
    /// none.
    /// Rule: Forth-83 Standard, FORGET.
    pub fn find_in_current(&self, name: &[u8]) -> Option<Token>
        ensures found { (x : Language) → Stands self.now x → result ≡ find_in x.words x.current name.now }
        ensures word { IfSome result (λ token. (x : Language) → Stands self.now x → IsWord x token) }
    {
        self.dictionary.find_in(self.dictionary.current(), name)
    }

    /// Whether the text interpreter runs the word even while it compiles. False where no word has the token.
    /// Rule: Forth-83 Standard, IMMEDIATE.
    pub fn is_immediate(&self, token: Token) -> bool
        ensures { (x : Language) → Stands self.now x → result ≡ is_immediate (entry x.words token) }
    {
        match self.dictionary.entry(token) {
            Some(word) => word.immediate,
            None => false,
        }
    }

    /// Whether `VOCABULARY` made the word: so what it does is to become the first vocabulary. False where no word has
    /// the token.
    /// Rule: Forth-83 Standard, VOCABULARY.
    pub fn is_vocabulary(&self, token: Token) -> bool
        ensures { (x : Language) → Stands self.now x → result ≡ is_vocabulary (entry x.words token) }
    {
        match self.dictionary.entry(token) {
            Some(word) => makes_vocabulary(word.kind),
            None => false,
        }
    }

    /// The data address of a word that `CREATE` or `VARIABLE` made. None for any other, and where no word has the
    /// token.
    /// Rule: Forth-83 Standard, >BODY.
    pub fn data_address(&self, token: Token) -> Option<u16>
        ensures { (x : Language) → Stands self.now x → result ≡ data_address (entry x.words token) }
    {
        match self.dictionary.entry(token) {
            Some(word) => data_field(word.kind),
            None => None,
        }
    }

    /// Whether a definition is open.
    /// Rule: LANGUAGE, Definitions and structures.
    #[inline]
    pub fn is_open(&self) -> bool
        ensures { (x : Language) → Stands self.now x → result ≡ is_some x.definition }
    {
        self.compiler.is_open()
    }

    /// `HERE`, the address of the next free byte for data: 1,280 to 60,928.
    /// Rule: Forth-83 Standard, HERE; LANGUAGE, Memory.
    #[inline]
    pub fn here(&self) -> u16
        ensures here { (x : Language) → Stands self.now x → result ≡ x.here }
        ensures in_space { IsSound self.now → IsHere result }
    {
        self.here
    }

    /// Whether a word of this name may be added. So a caller can refuse it for a reason of its own before it is added.
    /// `DefinitionOpen` where a definition is open, then `Name` where the name has no byte or more than 31, then
    /// `DictionaryFull` where there are 4,096 words.
    /// Rule: LANGUAGE, Limits; Forth-83 Standard, CREATE.
    pub fn check_new(&self, name: &[u8]) -> Result<(), LexiconRefusal>
        requires { IsSound self.now }
        ensures fits { OnOk result (MayBeAdded self.now name.now) }
        ensures refused { IfErr result (λ e. MayNotBeAdded self.now name.now (fault_of e)) }
    {
        // An open definition is told first, whatever the name is.
        if self.compiler.is_open() {
            return Err(LexiconRefusal::DefinitionOpen);
        }
        match self.dictionary.check_name(name) {
            Ok(()) => Ok(()),
            Err(fault) => Err(name_refusal(fault)),
        }
    }

    /// Sets `HERE`, to 1,280 or more and 60,928 or less.
    /// Rule: LANGUAGE, Memory; Forth-83 Standard, ALLOT.
    pub fn set_here(&mut self, address: u16)
        requires { IsHere address }
        ensures { (x : Language) → Stands self.old x → Becomes self.old self.new x (record x { here = address }) }
    {
        self.here = address;
    }

    /// Makes a vocabulary, by the token of its word, the first of the search.
    /// Rule: Forth-83 Standard, VOCABULARY.
    pub fn set_first(&mut self, vocabulary: Token)
        requires { (x : Language) × (Stands self.old x × IsWord x vocabulary) }
        ensures { (x : Language) → Stands self.old x → Becomes self.old self.new x (record x { first = vocabulary }) }
    {
        self.dictionary.set_context(vocabulary);
    }

    /// Makes `FORTH` the first vocabulary of the search.
    /// Rule: Forth-83 Standard, FORTH.
    pub fn set_first_to_forth(&mut self)
        ensures { (x : Language) → Stands self.old x → Becomes self.old self.new x (record x { first = forth_token }) }
    {
        self.dictionary.set_context(FORTH);
    }

    /// `DEFINITIONS`: new words go to the first vocabulary of the search.
    /// Rule: Forth-83 Standard, DEFINITIONS.
    pub fn set_current_to_first(&mut self)
        ensures { (x : Language) → Stands self.old x → Becomes self.old self.new x (record x { current = x.first }) }
    {
        self.dictionary.set_current(self.dictionary.context());
    }

    /// `CREATE`: adds a word with a data field at `HERE`. Refused as any new word.
    /// Rule: Forth-83 Standard, CREATE.
    pub fn create(&mut self, name: &[u8]) -> Result<(), LexiconRefusal>
        requires { IsSound self.old }
        ensures created { OnOk result (Goes self.old self.new (λ x. adding_word name.now (Created x.here None) x)) }
        ensures refused { IfErr result
            (λ e. Stops self.old self.new (λ x. adding_word name.now (Created x.here None) x) (fault_of e)) }
    {
        let here = self.here;
        self.add(name, Kind::Created(here, None))
    }

    /// `CONSTANT`: adds a word that leaves a cell. Refused as any new word.
    /// Rule: Forth-83 Standard, CONSTANT.
    pub fn add_constant(&mut self, name: &[u8], cell: u16) -> Result<(), LexiconRefusal>
        requires { IsSound self.old }
        ensures created { OnOk result (Goes self.old self.new (λ x. adding_word name.now (Constant cell) x)) }
        ensures refused { IfErr result (λ e. Stops self.old self.new (λ x. adding_word name.now (Constant cell) x) (fault_of e)) }
    {
        self.add(name, Kind::Constant(cell))
    }

    /// `VOCABULARY`: adds a word that makes itself the first vocabulary. Refused as any new word.
    /// Rule: Forth-83 Standard, VOCABULARY.
    pub fn add_vocabulary(&mut self, name: &[u8]) -> Result<(), LexiconRefusal>
        requires { IsSound self.old }
        ensures created { OnOk result (Goes self.old self.new (λ x. adding_word name.now Vocabulary x)) }
        ensures refused { IfErr result (λ e. Stops self.old self.new (λ x. adding_word name.now Vocabulary x) (fault_of e)) }
    {
        self.add(name, Kind::Vocabulary)
    }

    /// `IMMEDIATE`: the text interpreter runs the most recent word even while it compiles. `DefinitionOpen` where a
    /// definition is open, then `Protected` for a system word.
    /// Rule: Forth-83 Standard, IMMEDIATE.
    pub fn set_immediate(&mut self) -> Result<(), LexiconRefusal>
        requires { IsSound self.old }
        ensures marked { OnOk result (Goes self.old self.new marking) }
        ensures refused { IfErr result (λ e. Stops self.old self.new marking (fault_of e)) }
    {
        // An open definition is told first, also after a system word.
        if self.compiler.is_open() {
            return Err(LexiconRefusal::DefinitionOpen);
        }
        match self.dictionary.set_immediate() {
            Ok(()) => Ok(()),
            Err(_) => Err(LexiconRefusal::Protected),
        }
    }

    /// Gives the most recent word the part at a place, as `DOES>` does when it runs. `DefinitionOpen` where a
    /// definition is open, then `Token` where that word wasn't made by `CREATE` or `VARIABLE`.
    /// Rule: Forth-83 Standard, DOES>.
    pub fn give_part(&mut self, place: u16) -> Result<(), LexiconRefusal>
        requires { IsSound self.old }
        ensures given { OnOk result (GivesPart self.old self.new place) }
        ensures refused { IfErr result (λ e. StopsPart self.old self.new place (fault_of e)) }
    {
        // An open definition is told first, whatever the most recent word is.
        if self.compiler.is_open() {
            return Err(LexiconRefusal::DefinitionOpen);
        }
        match self.dictionary.set_does(place) {
            Ok(()) => Ok(()),
            Err(_) => Err(LexiconRefusal::Token),
        }
    }

    /// `FORGET`: the word and all newer ones go, and `HERE` goes back to where it was when the word was begun. Where
    /// the first vocabulary goes too, `FORTH` takes its place. `DefinitionOpen` where a definition is open, then
    /// `Protected` for a system word, or where the compilation vocabulary or a word whose body runs would go. So what
    /// is left to do stands.
    /// Rule: LANGUAGE, Dictionary and search; Forth-83 Standard, FORGET.
    pub fn forget(
        &mut self,
        token: Token,
        machine: &Machine,
        returns: &ReturnStack,
    ) -> Result<(), LexiconRefusal>
        requires word { (x : Language) × (Stands self.old x × IsWord x token) }
        ensures forgotten { OnOk result (Forgets self.old self.new token machine.now returns.now) }
        ensures refused { IfErr result (λ e. Protects self.old self.new token machine.now returns.now (fault_of e)) }
    {
        // An open definition is told first, also of a word that may not go.
        if self.compiler.is_open() {
            return Err(LexiconRefusal::DefinitionOpen);
        }
        let end = self.end_before(token);
        if !machine.runs_below(returns, end) {
            return Err(LexiconRefusal::Protected);
        }
        match self.dictionary.forget_from(token) {
            Ok(here) => {
                self.compiler.cut(end);
                self.here = here;
                Ok(())
            }
            Err(_) => Err(LexiconRefusal::Protected),
        }
    }

    /// A new word that has no code.
    fn add(&mut self, name: &[u8], kind: Kind) -> Result<(), LexiconRefusal>
        requires { IsSound self.old }
        ensures added { OnOk result (AddsData self.old self.new name.now kind) }
        ensures refused { IfErr result (λ e. RefusesData self.old self.new name.now kind (fault_of e)) }
    {
        match self.check_new(name) {
            Ok(()) => {
                // The name and the room were looked at.
                let _ = self.dictionary.add(name, kind, self.here);
                Ok(())
            }
            Err(refusal) => Err(refusal),
        }
    }
}
