//! The dictionary: names, marks, vocabularies, and what is forgotten.

use crate::rows::{Caller, Row, follow};
use dictionary::{Dictionary, DictionaryFault, FORTH, Kind, Token, is_compile_only};
use std::alloc::Global;
use std::process::Abort;
use std::test::Fail;
use system_words::COUNT;

/// Calls over a dictionary.
#[derive(Drop)]
struct Names {
    dictionary: Dictionary,
}

impl Caller for Names {
    fn call(&mut self, row: Row<'_>) -> bool {
        match row.word {
            "find" => gives(row, self.dictionary.find(row.text())),
            "find_in" => gives(row, self.dictionary.find_in(row.cell(0), row.text())),
            "forget" => self.forget(row),
            "forget_from" => self.forget_from(row, row.cell(0)),
            "search" => self.search(row.cell(0)),
            "define_there" => self.define_there(),
            _ => self.add(row),
        }
    }
}

impl Names {
    /// A definition whose place is its token, or another word.
    fn add(&mut self, row: Row<'_>) -> bool {
        let token = u16::try_from(self.dictionary.len())
            .unwrap_or(0)
            .wrapping_add(1);
        match row.word {
            "define" => self.define(row, token),
            "vocabulary" => is_added(row, self.dictionary.add(row.text(), Kind::Vocabulary, 1280)),
            "add" => is_added(row, self.dictionary.add(row.text(), Kind::Colon(0), 1280)),
            "check" => is_done(row, self.dictionary.check_name(row.text())),
            _ => self.look(row),
        }
    }

    fn define(&mut self, row: Row<'_>, token: Token) -> bool {
        self.dictionary.check_name(row.text()).is_ok()
            && is_added(
                row,
                self.dictionary
                    .add(row.text(), Kind::Colon(token), row.cell(0)),
            )
    }

    fn look(&mut self, row: Row<'_>) -> bool {
        match row.word {
            "len" => row.gives(u32::try_from(self.dictionary.len()).ok()),
            "entry" => row.is(self.dictionary.entry(row.cell(0)).is_some()),
            "compile_only" => row.is(is_compile_only(row.cell(0))),
            "searched" => row.gives(Some(u32::from(self.dictionary.context()))),
            "defined_in" => row.gives(Some(u32::from(self.dictionary.current()))),
            "immediate" => is_done(row, self.dictionary.set_immediate()),
            "does" => is_done(row, self.dictionary.set_does(row.cell(0))),
            _ => self.long(row),
        }
    }

    /// Names of so many bytes.
    fn long(&mut self, row: Row<'_>) -> bool {
        let bytes = [200; 32];
        let Some(name) = bytes.get(..usize::from(row.cell(0))) else {
            return false;
        };
        match row.word {
            "find_long" => gives(row, self.dictionary.find(name)),
            "constant_long" => is_added(row, self.dictionary.add(name, Kind::Constant(1), 0)),
            "fill" => self.fill(name, row.cell(1)),
            _ => false,
        }
    }

    /// Adds words of this name until there are so many words.
    fn fill(&mut self, name: &[u8], count: u16) -> bool {
        for _ in self.dictionary.len()..usize::from(count) {
            if self.dictionary.add(name, Kind::Colon(0), 1280).is_err() {
                return false;
            }
        }
        true
    }

    /// What a vocabulary's word does when it is run.
    fn search(&mut self, vocabulary: Token) -> bool {
        if vocabulary != FORTH && self.dictionary.entry(vocabulary).is_none() {
            return false;
        }
        self.dictionary.set_context(vocabulary);
        true
    }

    /// What `DEFINITIONS` does.
    fn define_there(&mut self) -> bool {
        let vocabulary = self.dictionary.context();
        self.dictionary.set_current(vocabulary);
        true
    }

    /// What `FORGET` does, at a name that is there.
    fn forget(&mut self, row: Row<'_>) -> bool {
        match self
            .dictionary
            .find_in(self.dictionary.current(), row.text())
        {
            Some(token) => is_here(row, self.dictionary.forget_from(token)),
            None => false,
        }
    }

    fn forget_from(&mut self, row: Row<'_>, token: Token) -> bool {
        self.dictionary.entry(token).is_some() && is_here(row, self.dictionary.forget_from(token))
    }

    /// Adds a word of this kind, and gives it a part: whether it is of the other kind then, and takes the mark `IMMEDIATE`.
    fn is_changed(&mut self, kind: Kind, changed: Kind) -> bool {
        let Ok(token) = self.dictionary.add(b"X", kind, 1280) else {
            return false;
        };
        let refused = self.dictionary.set_does(7);
        let is_told = if changed == kind {
            refused == Err(DictionaryFault::NotCreated)
        } else {
            refused == Ok(())
        };
        is_told
            && self.is_of(token, changed, false)
            && self.dictionary.set_immediate() == Ok(())
            && self.is_of(token, changed, true)
    }

    fn is_of(&self, token: Token, kind: Kind, is_immediate: bool) -> bool {
        match self.dictionary.entry(token) {
            Some(word) => word.kind == kind && word.immediate == is_immediate,
            None => false,
        }
    }
}

fn gives(row: Row<'_>, token: Option<Token>) -> bool {
    row.gives(token.map(u32::from))
}

fn is_fault(row: Row<'_>, fault: DictionaryFault) -> bool {
    row.answer
        == match fault {
            DictionaryFault::NameLength => "name length",
            DictionaryFault::Full => "full",
            DictionaryFault::Protected => "protected",
            DictionaryFault::NotCreated => "not created",
        }
}

fn is_done(row: Row<'_>, done: Result<(), DictionaryFault>) -> bool {
    match done {
        Ok(()) => row.answer == "ok",
        Err(fault) => is_fault(row, fault),
    }
}

fn is_added(row: Row<'_>, token: Result<Token, DictionaryFault>) -> bool {
    match token {
        Ok(token) => gives(row, Some(token)),
        Err(fault) => is_fault(row, fault),
    }
}

/// `HERE` goes back to where the forgotten word was begun.
fn is_here(row: Row<'_>, here: Result<u16, DictionaryFault>) -> bool {
    is_added(row, here)
}

/// Does the calls of a text over a new dictionary.
fn follow_new(rt: &impl Abort, alloc: Global, text: &str) -> Result<(), Fail> {
    let dictionary = Dictionary::new(alloc)?;
    follow(rt, &mut Names { dictionary }, text);
    Ok(())
}

// Their names and marks are in the texts that `test_transcripts` follows.
#[test]
fn the_system_words_are_primitives_of_forth(rt: HostRuntime) -> Result<(), Fail> {
    let dictionary = Dictionary::new(rt.alloc())?;
    for token in 1..=COUNT {
        assert!(rt; is_primitive(&dictionary, token), "{token}");
    }
    Ok(())
}

fn is_primitive(dictionary: &Dictionary, token: Token) -> bool {
    match dictionary.entry(token) {
        Some(word) => {
            word.vocabulary == FORTH
                && word.here == 1280
                && word.kind == Kind::Primitive
                && dictionary.find(word.name) == Some(token)
        }
        None => false,
    }
}

#[test]
fn no_other_system_word_is_there(rt: HostRuntime) -> Result<(), Fail> {
    let text = "len | #0
entry 0 | false
compile_only 0 | false
entry #1 | false
compile_only #1 | false
entry 4096 | false
compile_only 4096 | false
entry 65535 | false
compile_only 65535 | false";
    follow_new(&rt, rt.alloc(), text)
}

// A new definition hides an older one, and a forgotten one brings it back.
#[test]
fn the_last_word_of_a_name_is_found(rt: HostRuntime) -> Result<(), Fail> {
    let text = "define 1280 [A] | #1
define 1280 [B] | #2
define 1300 [A] | #3
define 1310 [AA] | #4
define 1320 [AB] | #5
find [A] | #3
find [B] | #2
find [AA] | #4
find [AB] | #5
find [AC] | none
find [a] | none
find [dup] | none
find [] | none
find [DUP] | 36
forget [A] | 1300
find [A] | #1
find [AB] | none
forget [A] | 1280
find [B] | none
len | #0";
    follow_new(&rt, rt.alloc(), text)
}

// VOCABULARY V : A 1 ; V DEFINITIONS : A 2 ; FORTH DEFINITIONS : A 3 ; V A . FORTH A . FORGET A A . V A . prints
// 2 3 1 2, and after a second FORGET A there is none in FORTH.
#[test]
fn forget_gives_each_vocabulary_its_last_word_back(rt: HostRuntime) -> Result<(), Fail> {
    let text = "vocabulary [V] | #1
define 1280 [A] | #2
search #1
define_there
define 1280 [A] | #3
search 91
define_there
define 1280 [A] | #4
search #1
find [A] | #3
search 91
find [A] | #4
forget [A] | 1280
find [A] | #2
search #1
find [A] | #3
forget [A] | 1280
len | #1
find [A] | none
define 1280 [A] | #2
find [A] | #2
find_in #1 [A] | none";
    follow_new(&rt, rt.alloc(), text)
}

// VOCABULARY V V DEFINITIONS : X 1 ; FORTH DEFINITIONS: X is found through V alone. Where the first vocabulary is forgotten,
// FORTH is in its place.
#[test]
fn a_vocabulary_hides_its_words(rt: HostRuntime) -> Result<(), Fail> {
    let text = "vocabulary [V] | #1
search #1
define_there
searched | #1
defined_in | #1
define 1290 [X] | #2
forget [X] | 1290
define 1290 [X] | #2
search 91
define_there
find_in 91 [X] | none
find_in #1 [X] | #2
find_in #2 [X] | none
find_in 65535 [X] | none
find [X] | none
search #1
find [X] | #2
find [DUP] | 36
forget [V] | 1280
searched | 91";
    follow_new(&rt, rt.alloc(), text)
}

#[test]
fn system_words_and_the_compilation_vocabulary_stay(rt: HostRuntime) -> Result<(), Fail> {
    let text = "forget [!] | protected
forget [DUP] | protected
forget [FORTH] | protected
forget []] | protected
immediate | protected
does 7 | not created
define 1280 [A] | #1
vocabulary [V] | #2
define 1280 [B] | #3
search #2
define_there
forget_from #1 | protected
forget_from #2 | protected
len | #3
forget_from #3 | 1280
searched | #2
defined_in | #2";
    follow_new(&rt, rt.alloc(), text)
}

#[test]
fn the_most_recent_word_is_changed(rt: HostRuntime) -> Result<(), Fail> {
    let dictionary = Dictionary::new(rt.alloc())?;
    let mut names = Names { dictionary };
    let kinds = [
        (Kind::Colon(5), Kind::Colon(5)),
        (Kind::Created(1280, None), Kind::Created(1280, Some(7))),
        (Kind::Created(1282, Some(3)), Kind::Created(1282, Some(7))),
        (Kind::Constant(9), Kind::Constant(9)),
        (Kind::Vocabulary, Kind::Vocabulary),
    ];
    for (kind, changed) in kinds {
        assert!(rt; names.is_changed(kind, changed), "{kind:?}");
    }
    Ok(())
}

// Words of the longest name can be added until there are 4,096, and no more.
#[test]
fn a_full_dictionary_refuses(rt: HostRuntime) -> Result<(), Fail> {
    let text = "constant_long 32 | name length
constant_long 0 | name length
fill 31 4096
len | 4096
check [A] | full
add [A] | full
add [] | name length
find_long 31 | 4096
find_long 30 | none
find_long 32 | none
find [!] | 1";
    follow_new(&rt, rt.alloc(), text)
}
