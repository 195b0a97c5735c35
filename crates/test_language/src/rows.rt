//! Tests as texts: a call and what it answers a line, as `digit 1234 10 | 123`. A text that is given or answered stands in brackets, as in
//! `text 41 [) 1] | 1 []`. `#1` is the token of the first word that is made, `#2` of the second, and `#0` of the last system word.

use std::process::Abort;
use system_words::COUNT;

/// Does the calls of rows, over what it has made of those before.
pub(crate) trait Caller {
    /// Does a row's call: whether it answers what the row says.
    fn call(&mut self, row: Row<'_>) -> bool;
}

/// Does the calls of a text in turn. The first row that is answered otherwise ends the test, and is told.
pub(crate) fn follow<C: Caller>(rt: &impl Abort, caller: &mut C, text: &str) {
    for line in text.lines() {
        assert!(rt; caller.call(Row::parse(line)), "{line}");
    }
}

/// A row: a word, what it is given, and what has to be answered.
#[derive(Clone, Copy)]
pub(crate) struct Row<'a> {
    pub(crate) word: &'a str,
    pub(crate) given: &'a str,
    /// Empty where nothing is answered.
    pub(crate) answer: &'a str,
}

impl<'a> Row<'a> {
    pub(crate) fn parse(line: &'a str) -> Self {
        let (call, answer) = line.rsplit_once(" | ").unwrap_or((line, ""));
        let (word, given) = call.split_once(" ").unwrap_or((call, ""));
        Row {
            word,
            given,
            answer,
        }
    }

    /// What is given, as a row with the same answer.
    pub(crate) fn inner(&self) -> Row<'a> {
        let (word, given) = self.given.split_once(" ").unwrap_or((self.given, ""));
        Row {
            word,
            given,
            answer: self.answer,
        }
    }

    /// The first, second or third number that is given, or 0 where it isn't there.
    pub(crate) fn number(&self, place: usize) -> u32 {
        number_in(self.given, place)
    }

    /// The first, second or third number that is given, as a cell, or 0 where it isn't there or is no cell.
    pub(crate) fn cell(&self, place: usize) -> u16 {
        u16::try_from(self.number(place)).unwrap_or(0)
    }

    /// The first, second or third number that is given, as a byte, or 0 where it isn't there or is no byte.
    pub(crate) fn byte(&self, place: usize) -> u8 {
        u8::try_from(self.number(place)).unwrap_or(0)
    }

    /// The text that is given.
    pub(crate) fn text(&self) -> &'a [u8] {
        text_in(self.given).as_bytes()
    }

    /// Whether the answer is this truth.
    pub(crate) fn is(&self, truth: bool) -> bool {
        self.answer == if truth { "true" } else { "false" }
    }

    /// Whether the answer begins with this number, or, where there is none, is `none`.
    pub(crate) fn gives(&self, number: Option<u32>) -> bool {
        match number {
            Some(number) => {
                let (first, _) = self.answer.split_once(" ").unwrap_or((self.answer, ""));
                parsed(first) == Some(number)
            }
            None => self.answer == "none",
        }
    }

    /// Whether the answer ends in this text, in brackets.
    pub(crate) fn shows(&self, text: &[u8]) -> bool {
        self.answer.ends_with("]") && text_in(self.answer).as_bytes() == text
    }
}

/// The first, second or third number of a text, or 0 where it isn't there.
pub(crate) fn number_in(text: &str, place: usize) -> u32 {
    match text.split(" ").nth(place) {
        Some(word) => parsed(word).unwrap_or(0),
        None => 0,
    }
}

/// A number as a row writes it, or None where it is none.
fn parsed(word: &str) -> Option<u32> {
    match word.strip_prefix("#") {
        Some(made) => made.parse::<u32>().ok()?.checked_add(u32::from(COUNT)),
        None => word.parse().ok(),
    }
}

/// What stands between the first bracket and the last.
fn text_in(text: &str) -> &str {
    let (_, rest) = text.split_once("[").unwrap_or(("", ""));
    let (inner, _) = rest.rsplit_once("]").unwrap_or((rest, ""));
    inner
}
