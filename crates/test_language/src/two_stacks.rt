//! The data stack and the return stack.

ghost use Rattle.std.specs.Prelude.{◌≡◌, ◌<◌, ◌∷◌, length};

use crate::rows::{Caller, Row, follow, number_in};
use stacks::{DataStack, Entry, ReturnStack, StackFault, laws};

/// Pushes a cell by a loan of the places.
fn push_by_loan(stack: &mut DataStack, cell: u16)
    requires { length stack.old < 256 }
    ensures { stack.new ≡ cell ∷ stack.old }
{
    let depth = stack.depth() + 1;
    let places = stack.lend();
    places[depth] = cell;
    stack.keep(depth);
    laws::lent_places();
}

/// Calls over a data stack.
#[derive(Drop)]
struct Cells {
    stack: DataStack,
}

impl Caller for Cells {
    fn call(&mut self, row: Row<'_>) -> bool {
        let depth = usize::from(row.cell(0));
        match row.word {
            "push" => is_done(row, self.stack.push(row.cell(0))),
            "fill" => self.fill(row),
            "pop" => gives_cell(row, self.stack.pop()),
            "pick" => gives_cell(row, self.stack.pick(depth)),
            "roll" => is_done(row, self.stack.roll(depth)),
            _ => self.other(row, depth),
        }
    }
}

impl Cells {
    fn new() -> Self {
        Cells {
            stack: DataStack::new(),
        }
    }

    fn other(&mut self, row: Row<'_>, depth: usize) -> bool {
        match row.word {
            "depth" => row.gives(u32::try_from(self.stack.depth()).ok()),
            "clear" => self.clear(),
            "keep" => self.keep(depth),
            "loan" => self.loan(row),
            "lend" => self.lend(row),
            _ => false,
        }
    }

    /// So many times a cell.
    fn fill(&mut self, row: Row<'_>) -> bool {
        for _ in 0..row.cell(0) {
            if self.stack.push(row.cell(1)).is_err() {
                return false;
            }
        }
        true
    }

    fn clear(&mut self) -> bool {
        self.stack.clear();
        true
    }

    fn keep(&mut self, depth: usize) -> bool {
        self.stack.keep(depth);
        true
    }

    fn loan(&mut self, row: Row<'_>) -> bool {
        if self.stack.depth() >= 256 {
            return false;
        }
        push_by_loan(&mut self.stack, row.cell(0));
        true
    }

    /// A cell by a loan, in the place of this number.
    fn lend(&mut self, row: Row<'_>) -> bool {
        let place = usize::from(row.byte(0));
        let places = self.stack.lend();
        places[place] = row.cell(1);
        true
    }
}

fn is_fault(row: Row<'_>, fault: StackFault) -> bool {
    row.answer
        == match fault {
            StackFault::Empty => "empty",
            StackFault::Full => "full",
        }
}

fn is_done(row: Row<'_>, done: Result<(), StackFault>) -> bool {
    match done {
        Ok(()) => row.answer == "ok",
        Err(fault) => is_fault(row, fault),
    }
}

fn gives_cell(row: Row<'_>, cell: Result<u16, StackFault>) -> bool {
    match cell {
        Ok(cell) => row.gives(Some(u32::from(cell))),
        Err(fault) => is_fault(row, fault),
    }
}

/// Calls over a return stack.
#[derive(Drop)]
struct Entries {
    stack: ReturnStack,
}

impl Caller for Entries {
    fn call(&mut self, row: Row<'_>) -> bool {
        match row.word {
            "push" => is_done(row, self.stack.push(entry_in(row.given))),
            "loops" => self.loops(row),
            "pop" => gives_entry(row, self.stack.pop()),
            "top" => gives_entry(row, self.stack.top()),
            "second" => gives_entry(row, self.stack.second()),
            "peek" => gives_entry(row, Ok(self.stack.peek())),
            _ => self.other(row),
        }
    }
}

impl Entries {
    fn new() -> Self {
        Entries {
            stack: ReturnStack::new(),
        }
    }

    fn other(&mut self, row: Row<'_>) -> bool {
        match row.word {
            "index" => row.is(self.stack.set_index(row.cell(0))),
            "end" => row.gives(self.stack.end_call()),
            "inner" => row.is(self.stack.is_inner_call()),
            "units" => row.gives(u32::try_from(self.stack.units()).ok()),
            "clear" => self.clear(),
            _ => false,
        }
    }

    /// So many times a loop.
    fn loops(&mut self, row: Row<'_>) -> bool {
        for _ in 0..row.cell(0) {
            if self.stack.push(entry_in("loop 3 0")).is_err() {
                return false;
            }
        }
        true
    }

    fn clear(&mut self) -> bool {
        self.stack.clear();
        true
    }
}

/// `loop LIMIT INDEX`, `value CELL`, `load BLOCK TO-IN`, or `call PLACE`.
fn entry_in(text: &str) -> Entry {
    let first = u16::try_from(number_in(text, 1)).unwrap_or(0);
    let second = u16::try_from(number_in(text, 2)).unwrap_or(0);
    let (kind, _) = text.split_once(" ").unwrap_or((text, ""));
    match kind {
        "loop" => Entry::Loop {
            limit: first,
            index: second,
        },
        "value" => Entry::Value(first),
        "load" => Entry::Load {
            block: first,
            to_in: second,
        },
        _ => Entry::Call(u32::from(first)),
    }
}

fn gives_entry(row: Row<'_>, entry: Result<Entry, StackFault>) -> bool {
    match entry {
        Ok(entry) => row.answer.contains(" ") && entry == entry_in(row.answer),
        Err(fault) => is_fault(row, fault),
    }
}

#[test]
fn cells_come_back_in_reverse(rt: HostRuntime) {
    let text = "push 1 | ok
push 2 | ok
push 3 | ok
depth | 3
pop | 3
pop | 2
pop | 1
pop | empty";
    follow(&rt, &mut Cells::new(), text);
}

#[test]
fn a_roll_brings_a_cell_to_the_top(rt: HostRuntime) {
    let text = "push 1 | ok
push 2 | ok
push 3 | ok
pick 2 | 1
pick 3 | empty
roll 2 | ok
pop | 1
pop | 3
pop | 2
roll 0 | empty";
    follow(&rt, &mut Cells::new(), text);
}

#[test]
fn a_full_stack_refuses(rt: HostRuntime) {
    let text = "fill 256 7
push 8 | full
depth | 256
clear
depth | 0";
    follow(&rt, &mut Cells::new(), text);
}

#[test]
fn a_loan_leaves_its_cells(rt: HostRuntime) {
    let text = "push 1 | ok
loan 2
depth | 2
lend 1 3
depth | 256
keep 2
keep 300
pop | 2
pop | 3
depth | 0";
    follow(&rt, &mut Cells::new(), text);
}

#[test]
fn the_loop_on_top_gets_another_index(rt: HostRuntime) {
    let text = "index 1 | false
second | empty
push loop 3 0 | ok
second | empty
push loop 5 4 | ok
index 2 | true
second | loop 3 0
top | loop 5 2
push value 7 | ok
index 1 | false
pop | value 7
units | 6";
    follow(&rt, &mut Entries::new(), text);
}

#[test]
fn entries_take_their_units(rt: HostRuntime) {
    let text = "loops 84
push call 5 | ok
push load 1 64 | ok
units | 255
push loop 3 0 | full
units | 255
push value 4 | ok
top | value 4
pop | value 4
units | 255
clear
pop | empty
top | empty";
    follow(&rt, &mut Entries::new(), text);
}

#[test]
fn a_call_on_top_is_ended(rt: HostRuntime) {
    let text = "peek | load 0 0
end | none
inner | false
push call 9 | ok
inner | false
push value 7 | ok
inner | false
push call 8 | ok
inner | true
end | 8
peek | value 7
end | none
pop | value 7
end | 9
push load 1 64 | ok
push call 6 | ok
inner | false
end | 6
units | 2";
    follow(&rt, &mut Entries::new(), text);
}
