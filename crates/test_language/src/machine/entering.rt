//! A body and a part want a unit of the return stack.

use cell_machine::event::{MachineFault, Work};
use cell_machine::machine::Machine;
use stacks::{DataStack, Entry, ReturnStack};
use std::test::Fail;

#[test]
fn a_body_wants_a_unit(rt: HostRuntime) -> Result<(), Fail> {
    let mut machine = Machine::new();
    let mut returns = ReturnStack::new();
    let mut stack = DataStack::new();
    machine
        .enter(&mut stack, &mut returns, Work::Part(9, 1280))
        .ok()
        .ok_or("room")?;
    let address = stack.pop()?;
    for _ in 0..255 {
        returns.push(Entry::Value(0))?;
    }
    let mut other = Machine::new();
    let body = other.enter(&mut stack, &mut returns, Work::Body(9));
    let mut third = Machine::new();
    let part = third.enter(&mut stack, &mut returns, Work::Part(9, 1280));
    assert_eq!(rt; [body, part], [Err(MachineFault::ReturnStack); 2]);
    assert_eq!(rt; (address, stack.depth()), (1280, 0));
    Ok(())
}

// with a unit left, and no cell for the data address
#[test]
fn a_part_wants_a_cell(rt: HostRuntime) -> Result<(), Fail> {
    let mut returns = ReturnStack::new();
    let mut stack = DataStack::new();
    for _ in 0..256 {
        stack.push(7)?;
    }
    let mut machine = Machine::new();
    assert_eq!(rt;
        machine.enter(&mut stack, &mut returns, Work::Part(9, 1280)),
        Err(MachineFault::StackFull)
    );
    let (cells, before) = (stack.depth(), returns.units());
    let body = machine.enter(&mut stack, &mut returns, Work::Body(9));
    let after = returns.units();
    for _ in 0..255 {
        returns.push(Entry::Value(0))?;
    }
    let mut other = Machine::new();
    assert_eq!(rt;
        other.enter(&mut stack, &mut returns, Work::Part(9, 1280)),
        Err(MachineFault::ReturnStack),
        "a unit comes before a cell"
    );
    let word = other.enter(&mut stack, &mut returns, Work::Primitive(36));
    assert_eq!(rt; (cells, before, after), (256, 0, 1));
    assert_eq!(rt; [body, word], [Ok(()); 2]);
    Ok(())
}
