//! The dictionary: the words of a Forth system, their vocabularies and the search.
//!
//! Words are kept in the order of their adding. A word's token is its place in that order, counted from 1, and the
//! system words come first. Each word is in one vocabulary, which is named by the token of its own word; the system
//! words are in `FORTH`. A search finds the last word of a name, so a new word hides an older one of its name and
//! vocabulary until it is forgotten.
//!
//! All memory is taken by `Dictionary::new`. Contracts see a dictionary as a list of words with the tokens of the
//! first vocabulary and of the compilation vocabulary.
#![tactic(auto)]

pub use system::is_compile_only;
pub use words::{
    Callee, Dictionary, DictionaryFault, FORTH, Kind, NAME_LIMIT, NoMemory, Place,
    SYSTEM_WORD_COUNT, Token, WORD_LIMIT, Word,
};

mod callees;
mod chains;
mod system;
mod words;
