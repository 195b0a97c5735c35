// Four buffers in the order of their use.
use crate::assertions::{Assert, assert_same};
use block_buffers::{Buffers, NoMemory, Slot};
use std::process::Abort;
use std::test::Fail;

// Gives the slot of a block that is used, as the word `BLOCK` does. A refusal of memory is met once: it changes
// nothing, and the second try goes well.
fn used(rt: &impl Abort, buffers: &mut Buffers, block: u16) -> Result<Slot, NoMemory> {
    if let Some(slot) = buffers.touch(block) {
        return Ok(slot);
    }
    let oldest = buffers.oldest();
    if let Ok(slot) = buffers.place(block) {
        return Ok(slot);
    }
    assert!(rt; buffers.peek(block).is_none() && buffers.oldest() == oldest);
    buffers.place(block)
}

// Blocks that are used in turn, each with its slot. What a screen shows is 61,440 + 1,024 for each slot, so 62,464 is slot 1.
const IN_USE: &str = "\
0:0 1:1 2:2 3:3 0:0 4:1
1:0 2:1 3:2 4:3 5:0 1:1
7:0 7:0 8:1 7:0 9:2
3:0 2:1 1:2 0:3 3:0 2:1 1:2 9:3 8:0";

#[test]
fn the_least_recently_used_buffer_is_reused(rt: HostRuntime) -> Result<(), Fail> {
    for row in IN_USE.lines() {
        let mut buffers = Buffers::new(rt.alloc())?;
        for pair in row.split(" ") {
            let (block, slot) = pair.split_once(":").ok_or("a block and its slot")?;
            let (block, slot) = (block.parse::<u16>()?, slot.parse::<Slot>()?);
            let found = used(&rt, &mut buffers, block)?;
            let known = buffers.peek(block);
            assert_same!(rt;
                (found, known),
                (slot, Some(slot)),
                "block {block} in {row}"
            );
        }
    }
    Ok(())
}

#[test]
fn the_fourth_buffer_is_the_last_free_one(rt: HostRuntime) -> Result<(), Fail> {
    let mut buffers = Buffers::new(rt.alloc())?;
    for block in 10..14 {
        assert!(rt; buffers.oldest().is_none(), "before block {block}");
        used(&rt, &mut buffers, block)?;
    }
    assert!(rt; buffers.mark());
    used(&rt, &mut buffers, 10)?;
    let oldest = buffers.oldest().ok_or("four are assigned")?;
    assert_same!(rt; (oldest.block, oldest.slot, oldest.updated), (11, 1, false));
    used(&rt, &mut buffers, 15)?;
    assert_same!(rt; buffers.peek(11), None);
    Ok(())
}

// The buffers of blocks 1, 2 and 3 are marked, and then block 1 is used again.
#[test]
fn a_save_begins_with_the_most_recently_used(rt: HostRuntime) -> Result<(), Fail> {
    let mut buffers = Buffers::new(rt.alloc())?;
    assert!(rt; !buffers.mark());
    for block in [1, 2, 3, 4] {
        used(&rt, &mut buffers, block)?;
        assert!(rt; block == 4 || buffers.mark());
    }
    used(&rt, &mut buffers, 1)?;
    let updated = buffers.updated();
    let want = [(1, 0), (3, 2), (2, 1)];
    assert_same!(rt; updated.len(), want.len());
    for (row, (block, slot)) in updated.iter().zip(want) {
        assert_same!(rt; (row.block, row.slot, row.updated), (block, slot, true));
    }
    buffers.unmark_all();
    assert_same!(rt; (buffers.updated().len(), buffers.peek(3)), (0, Some(2)));
    Ok(())
}

// A buffer that another block takes is not updated, and after all are given back none is current.
#[test]
fn a_mark_ends_with_its_block(rt: HostRuntime) -> Result<(), Fail> {
    let mut buffers = Buffers::new(rt.alloc())?;
    used(&rt, &mut buffers, 1)?;
    assert!(rt; buffers.mark());
    for block in [2, 3, 4, 5] {
        used(&rt, &mut buffers, block)?;
    }
    let taken = (buffers.peek(5), buffers.updated().len(), buffers.mark());
    assert_same!(rt; taken, (Some(0), 0, true));
    buffers.unassign_all();
    let empty = (buffers.mark(), buffers.updated().len());
    assert_same!(rt; empty, (false, 0));
    let again = (used(&rt, &mut buffers, 1)?, buffers.updated().len());
    assert_same!(rt; again, (0, 0));
    Ok(())
}
