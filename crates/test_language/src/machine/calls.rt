//! Words whose bodies call constants, bodies and parts.

ghost use Rattle.std.specs.Prelude.{◌≡◌, ◌==◌, if◌then◌else◌, slice_index};
ghost use Rattle.cell_machine.specs.declared.calls.Called.{Called as GivenCalled};

use cell_machine::calls::{Called, Calls};
use cell_machine::code::Code;
use cell_machine::event::{Event, MachineFault, Op, Work};
use cell_machine::machine::Machine;
use data_space::DataSpace;
use stacks::{DataStack, ReturnStack};
use std::alloc::Global;
use std::process::Abort;
use std::test::Fail;

const STEPS: Event = Event::Fault(MachineFault::Steps);

const STACK_FULL: Event = Event::Fault(MachineFault::StackFull);

const RETURN_STACK: Event = Event::Fault(MachineFault::ReturnStack);

/// What the words 1001 to 1006 are.
struct Table;

impl Calls for Table {
    ghost calls = { λ table token.
        if token == 1001 then GivenCalled.Body 0 else
        if token == 1002 then GivenCalled.Cell 7 else
        if token == 1003 then GivenCalled.Part 3 1280 else
        if token == 1004 then GivenCalled.Body 5 else
        if token == 1005 then GivenCalled.Body 8 else
        if token == 1006 then GivenCalled.Part 10 1280 else GivenCalled.Outside };

    fn called(&self, token: u16) -> Called {
        if token == 1001 {
            return Called::Body(0);
        }
        if token == 1002 {
            return Called::Cell(7);
        }
        if token == 1003 {
            return Called::Part {
                place: 3,
                data_address: 1280,
            };
        }
        if token == 1004 {
            return Called::Body(5);
        }
        if token == 1005 {
            return Called::Body(8);
        }
        if token == 1006 {
            return Called::Part {
                place: 10,
                data_address: 1280,
            };
        }
        Called::Outside
    }

    fn called_here(&self, token: u16) -> Called {
        self.called(token)
    }
}

/// The bodies of the words: 1001 calls the constant 1002 and the part of 1003, which adds 1; 1004 calls a word that isn't
/// known, and 1001; 1005 and 1006 call themselves.
fn lay(code: &mut Code)
    ensures constant { slice_index code.new 0 ≡ 1002 }
    ensures part { slice_index code.new 1 ≡ 1003 }
    ensures end { slice_index code.new 2 ≡ 4108 }
    ensures one_more { slice_index code.new 3 ≡ 13 }
    ensures part_end { slice_index code.new 4 ≡ 4108 }
    ensures outside { slice_index code.new 5 ≡ 1008 }
    ensures body { slice_index code.new 6 ≡ 1001 }
    ensures outer_end { slice_index code.new 7 ≡ 4108 }
    ensures itself { slice_index code.new 8 ≡ 1005 }
    ensures itself_end { slice_index code.new 9 ≡ 4108 }
    ensures own_part { slice_index code.new 10 ≡ 1006 }
    ensures own_part_end { slice_index code.new 11 ≡ 4108 }
{
    code.set(0, 1002);
    code.set(1, 1003);
    code.set(2, 4108);
    code.set(3, 13);
    code.set(4, 4108);
    code.set(5, 1008);
    code.set(6, 1001);
    code.set(7, 4108);
    code.set(8, 1005);
    code.set(9, 4108);
    code.set(10, 1006);
    code.set(11, 4108);
}

/// Runs a word by itself, and goes on once where it asks for a service: the first event and the last one.
fn run(
    code: &Code,
    word: u16,
    stack: &mut DataStack,
    space: &mut DataSpace,
    budget: &mut u32,
) -> (Event, Event)
    requires constant { slice_index code.now 0 ≡ 1002 }
    requires part { slice_index code.now 1 ≡ 1003 }
    requires end { slice_index code.now 2 ≡ 4108 }
    requires one_more { slice_index code.now 3 ≡ 13 }
    requires part_end { slice_index code.now 4 ≡ 4108 }
    requires outside { slice_index code.now 5 ≡ 1008 }
    requires body { slice_index code.now 6 ≡ 1001 }
    requires outer_end { slice_index code.now 7 ≡ 4108 }
    requires itself { slice_index code.now 8 ≡ 1005 }
    requires itself_end { slice_index code.now 9 ≡ 4108 }
    requires own_part { slice_index code.now 10 ≡ 1006 }
    requires own_part_end { slice_index code.now 11 ≡ 4108 }
{
    let mut machine = Machine::new();
    let mut returns = ReturnStack::new();
    match machine.enter(stack, &mut returns, Work::Primitive(word)) {
        Ok(()) => {
            let first = machine.resume_calling(code, &Table, stack, &mut returns, space, budget);
            match first {
                Event::Service(_) => {
                    let last = machine.resume_calling(
                        code,
                        &Table,
                        stack,
                        &mut returns,
                        space,
                        budget,
                    );
                    (first, last)
                }
                _ => (first, first),
            }
        }
        Err(fault) => (Event::Fault(fault), Event::Fault(fault)),
    }
}

/// How a word by itself ends first, where so many cells are on the stack and so many steps are left.
fn event_on(alloc: Global, word: u16, depth: usize, steps: u32) -> Result<Event, Fail> {
    let mut code = Code::new(alloc)?;
    let mut space = DataSpace::new(alloc)?;
    lay(&mut code);
    let mut stack = DataStack::new();
    for _ in 0..depth {
        stack.push(9)?;
    }
    let mut budget = steps;
    Ok(run(&code, word, &mut stack, &mut space, &mut budget).0)
}

// words, the cells on the stack, the steps that are left, and how they end
const ENDS: [(u16, usize, u32, Event); 13] = [
    // a call costs one step, the end of a body none
    (1001, 0, 3, STEPS),
    // a word that calls itself takes the 256 units with as many calls, and a step comes before a unit
    (1005, 0, 257, RETURN_STACK),
    (1005, 0, 256, STEPS),
    // a part that calls itself takes a cell with each unit: a step comes before a unit, and a unit before a cell
    (1006, 0, 257, RETURN_STACK),
    (1006, 0, 256, STEPS),
    (1006, 1, 256, STACK_FULL),
    (1006, 1, 255, STEPS),
    // a constant wants a cell
    (1002, 255, 1, Event::Done),
    (1002, 256, 1, STACK_FULL),
    (1002, 256, 0, STEPS),
    (1001, 256, 2, STACK_FULL),
    (1001, 256, 1, STEPS),
    (1001, 254, 4, Event::Done),
];

/// Compares how a word ended, where so many steps were left.
fn ended(rt: &impl Abort, word: u16, steps: u32, found: Event, wanted: Event) {
    assert_eq!(rt; found, wanted, "{word} with {steps} steps");
}

#[test]
fn calls_want_steps_units_and_cells(rt: HostRuntime) -> Result<(), Fail> {
    for (word, depth, steps, event) in ENDS {
        let found = event_on(rt.alloc(), word, depth, steps)?;
        ended(&rt, word, steps, found, event);
    }
    Ok(())
}

/// What a word by itself leaves, and how it ends.
#[derive(Drop)]
struct Ran {
    first: Event,
    last: Event,
    stack: DataStack,
    budget: u32,
}

fn run_whole(alloc: Global, word: u16, steps: u32) -> Result<Ran, Fail> {
    let mut code = Code::new(alloc)?;
    let mut space = DataSpace::new(alloc)?;
    lay(&mut code);
    let mut stack = DataStack::new();
    let mut budget = steps;
    let (first, last) = run(&code, word, &mut stack, &mut space, &mut budget);
    Ok(Ran {
        first,
        last,
        stack,
        budget,
    })
}

/// Whether a word takes just these steps, ends so at first and is done at last, and leaves these cells, the top first.
fn leaves(alloc: Global, word: u16, steps: u32, first: Event, cells: &str) -> Result<bool, Fail> {
    let mut ran = run_whole(alloc, word, steps)?;
    for cell in cells.split(" ") {
        if ran.stack.pop()? != cell.parse::<u16>()? {
            return Ok(false);
        }
    }
    Ok(ran.first == first && ran.last == Event::Done && ran.budget == 0 && ran.stack.depth() == 0)
}

// words with their steps, how they end at first, and what they leave; a part finds its data address, and a word that isn't
// known is left to the caller, and what is left of the body is done after it
const LEAVES: [(u16, u32, Event, &str); 3] = [
    (1001, 4, Event::Done, "1281 7"),
    (1003, 2, Event::Done, "1281"),
    (1004, 6, Event::Service(Op::Word(1008)), "1281 7"),
];

#[test]
fn calls_are_done_inside(rt: HostRuntime) -> Result<(), Fail> {
    for (word, steps, first, cells) in LEAVES {
        assert!(rt; leaves(rt.alloc(), word, steps, first, cells)?, "{word}");
    }
    Ok(())
}
