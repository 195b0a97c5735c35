//! The services that the machine asks for, by families.
mod compiling_words;
mod entering;
mod lexicon_words;
pub(crate) mod lookahead;
mod naming_words;
mod operands;
mod parse_words;
mod picture_words;
mod reading_words;
mod serving;
pub(crate) mod taking;
mod terminal_words;
mod text_rounds;
mod words_on_blocks;
