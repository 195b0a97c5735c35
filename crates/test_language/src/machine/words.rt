//! Words by themselves: those that the machine leaves to others, and the longest ranges of bytes.

use cell_machine::code::Code;
use cell_machine::event::{Event, MachineFault, Op, Work};
use cell_machine::machine::Machine;
use data_space::DataSpace;
use stacks::{DataStack, ReturnStack};
use std::alloc::Global;
use std::process::Abort;
use std::test::Fail;
use system_words::COUNT;

const STEPS: Event = Event::Fault(MachineFault::Steps);

/// Runs a word by itself.
fn run_word(
    code: &Code,
    stack: &mut DataStack,
    space: &mut DataSpace,
    word: u16,
    budget: &mut u32,
) -> Event {
    let mut machine = Machine::new();
    let mut returns = ReturnStack::new();
    match machine.enter(stack, &mut returns, Work::Primitive(word)) {
        Ok(()) => machine.resume(code, stack, &mut returns, space, budget),
        Err(_) => Event::Done,
    }
}

/// What came of a word.
#[derive(Drop)]
struct Ran {
    event: Event,
    stack: DataStack,
    space: DataSpace,
    budget: u32,
}

/// Runs a word on these cells, the top last, where so many steps are left.
fn run(alloc: Global, word: u16, cells: &[u16], steps: u32) -> Result<Ran, Fail> {
    let code = Code::new(alloc)?;
    let mut space = DataSpace::new(alloc)?;
    let mut stack = DataStack::new();
    for cell in cells {
        stack.push(*cell)?;
    }
    let mut budget = steps;
    let event = run_word(&code, &mut stack, &mut space, word, &mut budget);
    Ok(Ran {
        event,
        stack,
        space,
        budget,
    })
}

/// Whether these cells, the top last, are all that is on the stack.
fn holds(stack: &mut DataStack, cells: &[u16]) -> Result<bool, Fail> {
    for cell in cells.iter().rev() {
        if stack.pop()? != *cell {
            return Ok(false);
        }
    }
    Ok(stack.depth() == 0)
}

/// Whether a word ends so for one step, and changes nothing.
fn changes_nothing(alloc: Global, word: u16, cells: &[u16], event: Event) -> Result<bool, Fail> {
    let unpaid = run(alloc, word, cells, 0)?;
    let mut paid = run(alloc, word, cells, 10)?;
    Ok(
        unpaid.event == STEPS
            && run(alloc, word, cells, 1)?.event == event
            && paid.event == event
            && paid.budget == 9
            && paid.space.bytes() == DataSpace::new(alloc)?.bytes()
            && holds(&mut paid.stack, cells)?,
    )
}

/// Tests that a word ends so and changes nothing, for one step.
fn check(rt: &(impl Abort + AllocGlobal), word: u16, event: Event) -> Result<(), Fail> {
    assert!(rt; changes_nothing(rt.alloc(), word, &[], event)?, "{word}");
    assert!(rt;
        changes_nothing(rt.alloc(), word, &[7, 8], event)?,
        "{word}"
    );
    Ok(())
}

// the tokens, first and last, of the words that others do: terminal, numbers, texts, dictionary, compiler, blocks, and some that are
// no system words
const SERVICES: [(u16, u16); 15] = [
    (37, 37),
    (59, 73),
    (75, 76),
    (78, 81),
    (86, 86),
    (88, 91),
    (93, 96),
    (98, 98),
    (101, 110),
    (112, 122),
    (124, 128),
    (130, 131),
    (COUNT + 1, COUNT + 2),
    (4095, 4095),
    (4096, 4096),
];

const ABORT: u16 = 83;

const QUIT: u16 = 97;

#[test]
fn other_words_are_asked_for(rt: HostRuntime) -> Result<(), Fail> {
    for (first, last) in SERVICES {
        for word in first..=last {
            check(&rt, word, Event::Service(Op::Word(word)))?;
        }
    }
    check(&rt, QUIT, Event::Quit)?;
    check(&rt, ABORT, Event::Abort)
}

const CMOVE: u16 = 28;

const CMOVE_UP: u16 = 29;

const FILL: u16 = 39;

// the longest ranges that end with the last byte
const TO_THE_END: [(u16, [u16; 3]); 4] = [
    (CMOVE, [1, 0, 65535]),
    (CMOVE, [0, 1, 65535]),
    (CMOVE_UP, [1, 1, 65535]),
    (FILL, [1, 65535, 7]),
];

#[test]
fn ranges_end_within_data_space(rt: HostRuntime) -> Result<(), Fail> {
    for (word, cells) in TO_THE_END {
        let short = run(rt.alloc(), word, &cells, 65535)?.event;
        let whole = run(rt.alloc(), word, &cells, 65536)?.event;
        assert_eq!(rt; (short, whole), (STEPS, Event::Done), "{word} on {cells:?}");
    }
    Ok(())
}
