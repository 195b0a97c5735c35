//! The calls of rows over a desk.

ghost use Rattle.std.specs.Prelude.{◌≡◌, None, OnOk};
ghost use Rattle.lexicon.specs.Running.{IsReady};

use crate::rows::{Row, number_in};
use crate::words::desk::Desk;
use cell_machine::event::{Event, Op};
use dictionary::WORD_LIMIT;
use lexicon::{CompileRefusal, FIRST_HERE, LexiconRefusal, TextKind};
use std::alloc::Global;
use std::process::Abort;
use std::test::Fail;
use system_words::words::Structure;

/// The last address at which `HERE` may stand.
const LAST_HERE: u16 = 60928;

/// Does the calls of a text in turn, over a new desk. The first row that is answered otherwise ends the test, and is told.
pub(super) fn follow_new(rt: &impl Abort, alloc: Global, text: &str) -> Result<(), Fail> {
    let mut desk = Desk::new(alloc, 1000)?;
    follow(rt, &mut desk, text);
    Ok(())
}

fn follow(rt: &impl Abort, desk: &mut Desk, text: &str)
    requires ready { IsReady desk.old.lexicon desk.old.machine desk.old.returns }
    requires idle { desk.old.machine.pending ≡ None }
{
    for line in text.lines() {
        match desk.call(Row::parse(line)) {
            Ok(true) => {}
            Ok(false) => panic!(rt; "{line}"),
            Err(event) => panic!(rt; "{line}: {event:?}"),
        }
    }
}

impl Desk {
    /// Does a row's call: whether it answers what the row says, or the event after which there is nothing to go on with.
    fn call(&mut self, row: Row<'_>) -> Result<bool, Event>
        requires ready { IsReady self.old.lexicon self.old.machine self.old.returns }
        requires idle { self.old.machine.pending ≡ None }
        ensures ready { OnOk result (IsReady self.new.lexicon self.new.machine self.new.returns) }
        ensures idle { self.new.machine.pending ≡ None }
    {
        match row.word {
            "does" => self.does(row),
            "asks" => self.asks(row),
            "print" => self.print(row),
            "ends" => self.ends(row),
            "give" => self.give(row),
            _ => Ok(self.define(row)),
        }
    }

    /// Runs a word to its end.
    fn does(&mut self, row: Row<'_>) -> Result<bool, Event>
        requires ready { IsReady self.old.lexicon self.old.machine self.old.returns }
        requires idle { self.old.machine.pending ≡ None }
        ensures ready { OnOk result (IsReady self.new.lexicon self.new.machine self.new.returns) }
        ensures idle { self.new.machine.pending ≡ None }
    {
        match self.run(row.cell(0)) {
            Event::Done => Ok(row.answer.is_empty()),
            event => Err(event),
        }
    }

    /// Runs a word up to a service that it asks for.
    fn asks(&mut self, row: Row<'_>) -> Result<bool, Event>
        requires ready { IsReady self.old.lexicon self.old.machine self.old.returns }
        requires idle { self.old.machine.pending ≡ None }
        ensures ready { OnOk result (IsReady self.new.lexicon self.new.machine self.new.returns) }
        ensures idle { self.new.machine.pending ≡ None }
    {
        match self.run(row.cell(0)) {
            Event::Service(op) => Ok(is_service(row, op)),
            event => Err(event),
        }
    }

    /// Runs a word up to a text, and copies that out.
    fn print(&mut self, row: Row<'_>) -> Result<bool, Event>
        requires ready { IsReady self.old.lexicon self.old.machine self.old.returns }
        requires idle { self.old.machine.pending ≡ None }
        ensures ready { OnOk result (IsReady self.new.lexicon self.new.machine self.new.returns) }
        ensures idle { self.new.machine.pending ≡ None }
    {
        let mut out = [0; 1024];
        match self.run(row.cell(0)) {
            Event::Service(Op::Text(place)) => {
                let count = self.lexicon.text(place, &mut out);
                Ok(is_text(row, &out, count))
            }
            event => Err(event),
        }
    }

    /// Goes on to the end.
    fn ends(&mut self, row: Row<'_>) -> Result<bool, Event>
        requires { IsReady self.old.lexicon self.old.machine self.old.returns }
        ensures ready { OnOk result (IsReady self.new.lexicon self.new.machine self.new.returns) }
        ensures idle { self.new.machine.pending ≡ None }
    {
        match self.resume() {
            Event::Done => Ok(row.answer.is_empty()),
            event => Err(event),
        }
    }

    /// Goes on to a part that is given, and gives it.
    fn give(&mut self, row: Row<'_>) -> Result<bool, Event>
        requires { IsReady self.old.lexicon self.old.machine self.old.returns }
        ensures ready { OnOk result (IsReady self.new.lexicon self.new.machine self.new.returns) }
        ensures idle { self.new.machine.pending ≡ None }
    {
        match self.resume() {
            Event::Service(Op::Does(place)) => Ok(is_done(row, self.lexicon.give_part(place))),
            event => Err(event),
        }
    }

    /// A word that is made, marked or forgotten, or another call.
    fn define(&mut self, row: Row<'_>) -> bool
        requires { IsReady self.old.lexicon self.old.machine self.old.returns }
        ensures ready { IsReady self.new.lexicon self.new.machine self.new.returns }
        ensures idle { self.new.machine ≡ self.old.machine }
    {
        match row.word {
            "begin" => is_done(row, self.begin(row.text())),
            "create" => is_done(row, self.create(row.text())),
            "constant" => is_done(row, self.constant(row.text(), row.cell(0))),
            "vocabulary" => is_done(row, self.vocabulary(row.text())),
            "immediate" => is_done(row, self.immediate()),
            "forget" => self.forget(row),
            _ => self.add(row),
        }
    }

    /// Forgets a word, while what is left to do is left.
    fn forget(&mut self, row: Row<'_>) -> bool
        requires { IsReady self.old.lexicon self.old.machine self.old.returns }
        ensures ready { IsReady self.new.lexicon self.new.machine self.new.returns }
        ensures idle { self.new.machine ≡ self.old.machine }
    {
        let token = row.cell(0);
        if token == 0 || usize::from(token) > self.lexicon.len() {
            return false;
        }
        is_done(
            row,
            self.lexicon.forget(token, &self.machine, &self.returns),
        )
    }

    /// What is added to the open definition, and its end, or another call.
    fn add(&mut self, row: Row<'_>) -> bool
        requires { IsReady self.old.lexicon self.old.machine self.old.returns }
        ensures ready { IsReady self.new.lexicon self.new.machine self.new.returns }
        ensures idle { self.new.machine ≡ self.old.machine }
    {
        match row.word {
            "compile" => self.add_token(row),
            "literal" => is_added(row, self.literal(row.cell(0))),
            "structure" => self.add_structure(row),
            "text" => self.add_text(row),
            "finish" => is_added(row, self.finish()),
            _ => self.change(row),
        }
    }

    fn add_token(&mut self, row: Row<'_>) -> bool
        requires { IsReady self.old.lexicon self.old.machine self.old.returns }
        ensures ready { IsReady self.new.lexicon self.new.machine self.new.returns }
        ensures idle { self.new.machine ≡ self.old.machine }
    {
        let token = row.cell(0);
        if token == 0 || usize::from(token) > WORD_LIMIT {
            return false;
        }
        is_added(row, self.compile(token))
    }

    fn add_structure(&mut self, row: Row<'_>) -> bool
        requires { IsReady self.old.lexicon self.old.machine self.old.returns }
        ensures ready { IsReady self.new.lexicon self.new.machine self.new.returns }
        ensures idle { self.new.machine ≡ self.old.machine }
    {
        match structure_in(row.given) {
            Some(structure) => is_added(row, self.structure(structure)),
            None => false,
        }
    }

    fn add_text(&mut self, row: Row<'_>) -> bool
        requires { IsReady self.old.lexicon self.old.machine self.old.returns }
        ensures ready { IsReady self.new.lexicon self.new.machine self.new.returns }
        ensures idle { self.new.machine ≡ self.old.machine }
    {
        let bytes = row.text();
        if bytes.len() > 1024 {
            return false;
        }
        is_added(row, self.text(TextKind::Prints, bytes))
    }

    /// A call that answers nothing, or another one.
    fn change(&mut self, row: Row<'_>) -> bool
        requires { IsReady self.old.lexicon self.old.machine self.old.returns }
        ensures ready { IsReady self.new.lexicon self.new.machine self.new.returns }
        ensures idle { self.new.machine ≡ self.old.machine }
    {
        match row.word {
            "abandon" => self.abandon(),
            "definitions" => self.definitions(),
            "forth" => self.forth(),
            "push" => self.push(row.cell(0)),
            _ => return self.other(row),
        }
        row.answer.is_empty()
    }

    fn other(&mut self, row: Row<'_>) -> bool
        requires { IsReady self.old.lexicon self.old.machine self.old.returns }
        ensures ready { IsReady self.new.lexicon self.new.machine self.new.returns }
        ensures idle { self.new.machine ≡ self.old.machine }
    {
        match row.word {
            "first" => self.set_first(row),
            "set_here" => self.set_here(row),
            "pop" => row.gives(Some(u32::from(self.pop()))),
            _ => self.is_there(row),
        }
    }

    /// Makes a vocabulary the first one.
    fn set_first(&mut self, row: Row<'_>) -> bool
        requires { IsReady self.old.lexicon self.old.machine self.old.returns }
        ensures ready { IsReady self.new.lexicon self.new.machine self.new.returns }
        ensures idle { self.new.machine ≡ self.old.machine }
    {
        let vocabulary = row.cell(0);
        if vocabulary == 0 || usize::from(vocabulary) > self.lexicon.len() {
            return false;
        }
        self.lexicon.set_first(vocabulary);
        row.answer.is_empty()
    }

    fn set_here(&mut self, row: Row<'_>) -> bool
        requires { IsReady self.old.lexicon self.old.machine self.old.returns }
        ensures ready { IsReady self.new.lexicon self.new.machine self.new.returns }
        ensures idle { self.new.machine ≡ self.old.machine }
    {
        let here = row.cell(0);
        if here < FIRST_HERE || here > LAST_HERE {
            return false;
        }
        self.here(here);
        row.answer.is_empty()
    }

    /// What is there.
    fn is_there(&self, row: Row<'_>) -> bool {
        let token = row.cell(0);
        match row.word {
            "len" => row.gives(u32::try_from(self.lexicon.len()).ok()),
            "find" => row.gives(self.lexicon.find(row.text()).map(u32::from)),
            "find_in_current" => row.gives(self.lexicon.find_in_current(row.text()).map(u32::from)),
            "is_immediate" => row.is(self.lexicon.is_immediate(token)),
            "is_vocabulary" => row.is(self.lexicon.is_vocabulary(token)),
            "data_address" => row.gives(self.lexicon.data_address(token).map(u32::from)),
            "here" => row.gives(Some(u32::from(self.lexicon.here()))),
            "is_open" => row.is(self.lexicon.is_open()),
            _ => false,
        }
    }
}

fn structure_in(name: &str) -> Option<Structure> {
    match name {
        "DO" => Some(Structure::Do),
        "DOES>" => Some(Structure::Does),
        "IF" => Some(Structure::If),
        "THEN" => Some(Structure::Then),
        _ => None,
    }
}

fn is_done(row: Row<'_>, done: Result<(), LexiconRefusal>) -> bool {
    row.answer
        == match done {
            Ok(()) => "",
            Err(LexiconRefusal::DefinitionOpen) => "DefinitionOpen",
            Err(LexiconRefusal::Name) => "Name",
            Err(LexiconRefusal::DictionaryFull) => "DictionaryFull",
            Err(LexiconRefusal::Protected) => "Protected",
            Err(LexiconRefusal::Token) => "Token",
        }
}

fn is_added(row: Row<'_>, added: Result<(), CompileRefusal>) -> bool {
    row.answer
        == match added {
            Ok(()) => "",
            Err(CompileRefusal::NoDefinition) => "NoDefinition",
            Err(CompileRefusal::DefinitionOpen) => "DefinitionOpen",
            Err(CompileRefusal::Unbalanced) => "Unbalanced",
            Err(CompileRefusal::CodeFull) => "CodeFull",
        }
}

/// Whether the answer is this service, with its token or place.
fn is_service(row: Row<'_>, op: Op) -> bool {
    let (name, number) = match op {
        Op::Word(token) => ("Word", token),
        Op::Text(place) => ("Text", place),
        Op::AbortText(place) => ("AbortText", place),
        Op::Compile(token) => ("Compile", token),
        Op::Does(place) => ("Does", place),
    };
    let (first, _) = row.answer.split_once(" ").unwrap_or((row.answer, ""));
    first == name && number_in(row.answer, 1) == u32::from(number)
}

/// Whether the answer is this count, and so many of the bytes.
fn is_text(row: Row<'_>, bytes: &[u8], count: usize) -> bool {
    match bytes.get(..count) {
        Some(text) => row.gives(u32::try_from(count).ok()) && row.shows(text),
        None => false,
    }
}
