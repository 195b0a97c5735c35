// Calls as rows write them.
use crate::fillings::Fillings;
use crate::told::Told;
use std::alloc::Global;
use std::test::Fail;

/// A call: a word, the number before it and what stands after it, as in `1 spill A`, `61440 C@` and `commit`.
#[derive(Clone, Copy)]
pub struct Call<'a> {
    /// 0 where there is none.
    pub number: u16,
    /// What is to be done.
    pub word: &'a str,
    /// Empty where there is nothing.
    pub rest: &'a str,
}

impl<'a> Call<'a> {
    /// Reads a call.
    pub fn parse(text: &'a str) -> Self {
        let (number, text) = match text.split_once(" ") {
            Some((number, rest)) => (number.parse().unwrap_or(0), rest),
            None => (0, text),
        };
        let (word, rest) = text.split_once(" ").unwrap_or((text, ""));
        Call { number, word, rest }
    }

    /// The first byte after the word.
    pub fn byte(&self) -> u8 {
        *self.rest.as_bytes().first().unwrap_or(&b' ')
    }
}

/// Does calls one by one.
pub trait Caller {
    /// Does a call: what it answers.
    fn call(&mut self, alloc: Global, call: Call) -> Result<String, Fail>;
}

/// Does the calls of rows over blocks that hold this at first: what they answered, a line each, and what they told.
pub fn follow<C: Caller>(
    alloc: Global,
    rows: &str,
    caller: &mut C,
    start: Fillings,
) -> Result<(String, Told), Fail> {
    let mut told = Told::new(start);
    let mut answers = String::new(alloc);
    for text in rows.lines() {
        let (text, _) = row(text);
        let call = Call::parse(text);
        let answer = caller.call(alloc, call)?;
        told.hear(call, &answer);
        answers.push_str(&answer)?;
        answers.push_str("\n")?;
    }
    Ok((answers, told))
}

/// The call of a row, and what it answers where no call of the device fails. A row is `CALL | ANSWER`; before a call that answers so
/// whatever has failed stands `!`.
pub fn row(text: &str) -> (&str, &str) {
    text.strip_prefix("!")
        .unwrap_or(text)
        .split_once(" | ")
        .unwrap_or((text, ""))
}
