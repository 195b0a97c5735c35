//! The words with both vocabularies: adding, search and forgetting.
ghost use Rattle.std.specs.Prelude.{◌≡◌, ◌≤◌, ◌+◌, Some, length, option_map, IfOk, IfSome, OnOk, OnErr, IsSome, IsTrue};
ghost use Rattle.std.specs.Result.{result_err};
ghost use Rattle.dictionary.specs.Words.{find, find_in, entry, with_immediate, with_part};
ghost use Rattle.dictionary.specs.Callees.{callee_of};
ghost use Rattle.dictionary.specs.Dictionary.{first_dictionary, word_of, kind_of, kind_of_word, is_token, may_be_vocabulary, add_refusal, with_word, immediate_refusal, does_refusal, forget_refusal, forgotten, IsValid};

use crate::chains::{Chains, mixed};
use crate::system::first_words;
use std::alloc::{AllocError, Global};
use std::marker::Model;

/// Memory for the dictionary was refused.
pub type NoMemory = AllocError;

/// The number of a word, 1 to 4,096.
pub type Token = u16;

/// Where the body of a colon definition, or a part of one, begins among the compiled code.
pub type Place = u16;

/// The most words that there may be, with the system words.
pub const WORD_LIMIT: usize = 4096;

/// The most bytes that a name may have.
pub const NAME_LIMIT: usize = 31;

/// The number of system words, which is the token of the last one.
pub const SYSTEM_WORD_COUNT: usize = system_words::COUNT as usize;

/// The token of the word `FORTH`, whose vocabulary holds the system words.
pub const FORTH: Token = 91;

/// What a word is, and what it needs to run.
#[derive(Clone, Copy, Debug, PartialEq, Eq)]
pub enum Kind {
    /// A system word, `FORTH` among them.
    Primitive,
    /// A colon definition, with the place of its body.
    Colon(Place),
    /// A word made by `CREATE` or `VARIABLE`, with its data address and the part that `DOES>` gave it.
    Created(u16, Option<Place>),
    /// A word made by `CONSTANT`, with the cell that it leaves.
    Constant(u16),
    /// A word made by `VOCABULARY`.
    Vocabulary,
}

/// What a call of a word comes to.
#[derive(Clone, Copy)]
pub enum Callee {
    /// What its kind says, which is neither of these; or no word has the token.
    Other,
    /// A run of its body, which begins at this place.
    Body(Place),
    /// This cell, which it leaves and does nothing else.
    Cell(u16),
}

/// A word as it stands in the dictionary.
#[derive(Clone, Copy, Debug, PartialEq, Eq)]
pub struct Word<'a> {
    /// 1 to 31 bytes of any value.
    pub name: &'a [u8],
    /// The token of the vocabulary that it was added to.
    pub vocabulary: Token,
    /// Whether the text interpreter runs it even while it compiles.
    pub immediate: bool,
    /// `HERE` when the word was begun. Forgetting the word sets `HERE` back to it.
    pub here: u16,
    /// What the word is.
    pub kind: Kind,
}

/// Why a call was refused. A refused call has changed nothing.
#[derive(Clone, Copy, Debug, PartialEq, Eq)]
pub enum DictionaryFault {
    /// The name of a new word has no byte, or more than 31.
    NameLength,
    /// There are 4,096 words.
    Full,
    /// The change would touch a system word, or delete the compilation vocabulary.
    Protected,
    /// The newest word has no data field that a part could belong to (only `CREATE` and `VARIABLE` give one).
    NotCreated,
}

/// The words, the first vocabulary of the search, and the compilation vocabulary. A refused call has changed nothing.
/// Rule: LANGUAGE, Dictionary and search.
#[derive(Drop)]
pub struct Dictionary {
    words: Chains,
    context: Token,
    current: Token,
}

impl Model for Dictionary {
    ghost use Rattle.dictionary.specs.Dictionary.{Dictionary as View, IsValid};

    ghost Value = { View };

    ghost view = { λ d. record { words = d.words; context = d.context; current = d.current } };

    ghost invariant = { λ d. IsValid (record { words = d.words; context = d.context; current = d.current }) };
}

impl Dictionary {
    /// The system words alone, with `FORTH` as both vocabularies.
    ///
    /// Takes the memory for 4,096 words and their names, and fails only where it is refused. No other call takes any.
    /// Rule: LANGUAGE, Limits.
    pub fn new(alloc: Global) -> Result<Dictionary, NoMemory>
        ensures { IfOk result (λ dictionary. dictionary ≡ first_dictionary) }
    {
        Ok(Dictionary {
            words: first_words(alloc)?,
            context: FORTH,
            current: FORTH,
        })
    }

    /// How many words there are, 132 to 4,096, which is the token of the most recent one.
    #[inline]
    pub fn len(&self) -> usize
        ensures len { result ≡ length self.now.words }
        ensures valid { IsValid self.now }
    {
        let Dictionary { words, .. } = self;
        words.len()
    }

    /// Whether `add` would take a word of this name: `NameLength` where it has no byte or more than 31, then `Full`
    /// where there are 4,096 words.
    /// Rule: LANGUAGE, Limits.
    pub fn check_name(&self, name: &[u8]) -> Result<(), DictionaryFault>
        ensures refused { result_err result ≡ add_refusal self.now name.now }
    {
        if name.is_empty() || name.len() > NAME_LIMIT {
            return Err(DictionaryFault::NameLength);
        }
        if self.words.len() == WORD_LIMIT {
            return Err(DictionaryFault::Full);
        }
        Ok(())
    }

    /// Adds a word to the compilation vocabulary, not immediate, and gives its token, which is the new `len`.
    ///
    /// `here` is `HERE` when the word was begun. `NameLength` where the name has no byte or more than 31, then `Full`
    /// where there are 4,096 words.
    pub fn add(&mut self, name: &[u8], kind: Kind, here: u16) -> Result<Token, DictionaryFault>
        ensures refused { result_err result ≡ add_refusal self.old name.now }
        ensures token { IfOk result (λ token. token ≡ length self.old.words + 1) }
        ensures ok { OnOk result (self.new ≡ with_word self.old name.now kind here) }
        ensures err { OnErr result (self.new ≡ self.old) }
    {
        self.check_name(name)?;
        self.words.push(Word {
            name,
            vocabulary: self.current,
            immediate: false,
            here,
            kind,
        });
        Ok(self.words.len() as Token)
    }

    /// Looks the name up as the text interpreter does: the newest word of that name in the first vocabulary, and
    /// failing that the newest in `FORTH`. Names are compared byte by byte. None where neither has it.
    /// Rule: LANGUAGE, Dictionary and search; Forth-83 Standard, FIND.
    pub fn find(&self, name: &[u8]) -> Option<Token>
        ensures found { result ≡ find self.now.words self.now.context name.now }
        ensures token { IfSome result (λ token. IsTrue (is_token self.now token)) }
    {
        let mix = mixed(name);
        match self.words.find_in(self.context, name, mix) {
            None if self.context != FORTH => self.words.find_in(FORTH, name, mix),
            found => found,
        }
    }

    /// The newest word of the name in one vocabulary, which is named by its word's token. None where no word in it has
    /// the name.
    pub fn find_in(&self, vocabulary: Token, name: &[u8]) -> Option<Token>
        ensures found { result ≡ find_in self.now.words vocabulary name.now }
        ensures token { IfSome result (λ token. IsTrue (is_token self.now token)) }
    {
        self.words.find_in(vocabulary, name, mixed(name))
    }

    /// The word with the token. None where no word has it: at 0, and above `len`.
    #[inline]
    pub fn entry(&self, token: Token) -> Option<Word<'_>>
        ensures entry { option_map word_of result ≡ entry self.now.words token }
        ensures token { IsSome result → IsTrue (is_token self.now token) }
    {
        self.words.get(token)
    }

    /// What a call of the word comes to, where the token is 4,096 at most.
    /// Rule: LANGUAGE, Dictionary.
    #[inline(always)]
    pub fn callee(&self, token: Token) -> Callee
        requires { token ≤ 4096 }
        ensures { result ≡ callee_of (entry self.now.words token) }
    {
        self.words.callee(token)
    }

    /// What a call of the word comes to, for any number: `Other` where no word has the token.
    /// Rule: LANGUAGE, Dictionary.
    #[inline(always)]
    pub fn callee_of_any(&self, token: Token) -> Callee
        ensures { result ≡ callee_of (entry self.now.words token) }
    {
        self.words.callee_of_any(token)
    }

    /// What the word with the token is. None where no word has it: at 0, and above `len`.
    #[inline(always)]
    pub fn kind(&self, token: Token) -> Option<Kind>
        ensures { option_map kind_of result ≡ kind_of_word (entry self.now.words token) }
    {
        self.words.kind(token)
    }

    /// Makes the most recent word immediate. `Protected` where that is a system word.
    /// Rule: Forth-83 Standard, IMMEDIATE.
    pub fn set_immediate(&mut self) -> Result<(), DictionaryFault>
        ensures refused { result_err result ≡ immediate_refusal self.old }
        ensures ok { OnOk result (self.new ≡ record self.old { words = with_immediate self.old.words }) }
        ensures err { OnErr result (self.new ≡ self.old) }
    {
        if self.words.len() == SYSTEM_WORD_COUNT {
            return Err(DictionaryFault::Protected);
        }
        self.words.set_immediate();
        Ok(())
    }

    /// Gives the most recent word the part that is run with its data address; `part` is the place of its first cell.
    /// `NotCreated` where the word wasn't made by `CREATE` or `VARIABLE`.
    /// Rule: Forth-83 Standard, DOES>.
    pub fn set_does(&mut self, part: Place) -> Result<(), DictionaryFault>
        ensures refused { result_err result ≡ does_refusal self.old part }
        ensures words { OnOk result (with_part self.old.words part ≡ Some self.new.words) }
        ensures ok { OnOk result (self.new ≡ record self.old { words = self.new.words }) }
        ensures err { OnErr result (self.new ≡ self.old) }
    {
        if self.words.set_part(part) {
            Ok(())
        } else {
            Err(DictionaryFault::NotCreated)
        }
    }

    /// Forgets the word and everything newer, whatever its vocabulary. The answer is the `HERE` that was kept for the
    /// word. Where the first vocabulary goes too, `FORTH` takes its place.
    ///
    /// `Protected` where the word is a system word, or where the compilation vocabulary is one of those to be deleted.
    /// Rule: LANGUAGE, Dictionary and search; Forth-83 Standard, FORGET.
    pub fn forget_from(&mut self, token: Token) -> Result<u16, DictionaryFault>
        requires { IsTrue (is_token self.old token) }
        ensures refused { result_err result ≡ forget_refusal self.old token }
        ensures here { IfOk result (λ here. Some here ≡ option_map (λ word. word.here) (entry self.old.words token)) }
        ensures ok { OnOk result (self.new ≡ forgotten self.old token) }
        ensures err { OnErr result (self.new ≡ self.old) }
    {
        if token as usize <= SYSTEM_WORD_COUNT || token <= self.current {
            return Err(DictionaryFault::Protected);
        }
        let here = self.words.get(token).unwrap().here;
        self.words.truncate(token as usize - 1);
        if self.context >= token {
            self.context = FORTH;
        }
        Ok(here)
    }

    /// The token of the first vocabulary of the search.
    #[inline]
    pub fn context(&self) -> Token
        ensures context { result ≡ self.now.context }
        ensures token { IsTrue (is_token self.now result) }
    {
        self.context
    }

    /// The token of the compilation vocabulary, which new words are added to.
    #[inline]
    pub fn current(&self) -> Token
        ensures current { result ≡ self.now.current }
        ensures token { IsTrue (is_token self.now result) }
    {
        self.current
    }

    /// Makes this the first vocabulary of the search: `FORTH`, or the token of another word.
    pub fn set_context(&mut self, vocabulary: Token)
        requires { IsTrue (may_be_vocabulary self.old vocabulary) }
        ensures { self.new ≡ record self.old { context = vocabulary } }
    {
        self.context = vocabulary;
    }

    /// Makes this the compilation vocabulary: `FORTH`, or the token of another word.
    pub fn set_current(&mut self, vocabulary: Token)
        requires { IsTrue (may_be_vocabulary self.old vocabulary) }
        ensures { self.new ≡ record self.old { current = vocabulary } }
    {
        self.current = vocabulary;
    }
}
