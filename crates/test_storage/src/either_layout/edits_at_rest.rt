// What a change of an image at rest does: which bits are told when it is opened again or examined, which change nothing, and which change a block that nobody
// tells.
// What is wanted follows from what an image means and from when it is damaged.
use crate::assertions::{Assert, assert_same};
use crate::either_layout::saves::made;
use crate::sectors::{put, sector};
use image_care::{Examined, examine};
use journal::Store;
use recovery::OpenFault;
use sector_disk::MemoryDisk;
use std::alloc::Global;
use std::process::Abort;
use std::test::Fail;

fn spill(store: &mut Store<MemoryDisk>, b: u16, byte: u8) -> Result<(), &'static str> {
    if b >= store.blocks() {
        return Err("no such block");
    }
    store.spill(b, &[byte; 1024]).map_err(|_| "spill failed")
}

fn save(store: &mut Store<MemoryDisk>, b: u16, byte: u8) -> Result<(), &'static str> {
    spill(store, b, byte)?;
    store.commit().map_err(|_| "commit failed")
}

// An image of 32 blocks of which the first so many of these were saved, each in a save of its own and full of its byte, as in `1A 1B`.
fn saved(alloc: Global, newer: bool, saves: &str, count: usize) -> Result<MemoryDisk, Fail> {
    let mut store = made(alloc, newer)?;
    for one in saves.split(" ").take(count) {
        let bytes = one.as_bytes();
        if bytes.len() != 2 {
            return Err("a save is a digit and a byte")?;
        }
        save(&mut store, u16::from(bytes[0].wrapping_sub(b'0')), bytes[1])?;
    }
    Ok(store.into_device())
}

// What an examination tells, or why the image isn't opened.
fn look_at(disk: &mut MemoryDisk) -> Result<Examined, &'static str> {
    match examine(disk) {
        Ok(held) => Ok(held),
        Err(OpenFault::BadSize) => Err("bad size"),
        Err(OpenFault::NoLabel) => Err("no label"),
        Err(OpenFault::OtherVersion) => Err("other version"),
        Err(OpenFault::WrongCount) => Err("wrong count"),
        Err(OpenFault::Damaged) => Err("damaged"),
        Err(OpenFault::Device) => Err("device"),
    }
}

fn digest_of(disk: &mut MemoryDisk) -> Result<[u8; 32], &'static str> {
    let held = look_at(disk)?;
    Ok(held.digest)
}

// What an opening finds: why it refuses the image, or whether its blocks are those of this digest; and then whether an examination tells that a save may be
// lost.
fn found(disk: &mut MemoryDisk, digest: &[u8; 32]) -> &'static str {
    match look_at(disk) {
        Ok(held) => match (held.digest == *digest, held.gate_fits) {
            (true, true) => "same",
            (true, false) => "same, told",
            (false, true) => "other",
            (false, false) => "other, told",
        },
        Err(told) => told,
    }
}

// Turns these bits of a sector. Twice the same leaves it as it was.
fn turn(disk: &mut MemoryDisk, k: u32, first: u16, past: u16) -> Result<(), &'static str> {
    let mut bytes = sector(disk, k)?;
    for bit in first..past {
        bytes[bit as usize / 8 % 512] ^= 1 << (bit % 8);
    }
    put(disk, k, &bytes)
}

// What a row wants, behind its first bar; a remark may stand behind another.
fn wanted(row: &str) -> &str {
    row.split(" | ").nth(1).unwrap_or("")
}

// The number at this place of a row.
fn number(row: &str, place: usize) -> Result<u32, &'static str> {
    let word = row.split(" ").nth(place).unwrap_or("");
    word.parse().map_err(|_| "a row lacks a number")
}

// Turns bits of an image. A row has a sector, its bits from one on to the one before another, and what is found: `each` of them is turned alone, or, where none
// is looked at or each is one of a block, `all` together.
fn turn_bits(rt: &impl Abort, disk: &mut MemoryDisk, rows: &str) -> Result<(), Fail> {
    let digest = digest_of(disk)?;
    for row in rows.lines() {
        let k = number(row, 1)?;
        let first = bit_in(row, 2)?;
        let past = bit_in(row, 3)?;
        let count = if row.starts_with("each") {
            1
        } else {
            past.saturating_sub(first).max(1)
        };
        for bit in (first..past).step_by(usize::from(count)) {
            turn(disk, k, bit, bit.saturating_add(count))?;
            assert_same!(rt; found(disk, &digest), wanted(row), "{row}: bit {bit}");
            turn(disk, k, bit, bit.saturating_add(count))?;
        }
    }
    Ok(())
}

fn bit_in(row: &str, place: usize) -> Result<u16, &'static str> {
    let bit = number(row, place)?;
    u16::try_from(bit).map_err(|_| "a sector has no such bit")
}

// Each bit of a label is told. Of the 32 blocks block 1 was saved: it has the slot in sectors 5 and 6, and the home in 69 and 70.
#[test]
fn by_layout_2_each_bit_of_the_label_is_told(rt: HostRuntime) -> Result<(), Fail> {
    let mut disk = saved(rt.alloc(), false, "1A", 1)?;
    let rows = "each 0 0 64 | no label
each 0 64 80 | other version
each 0 80 96 | wrong count
each 0 96 4096 | no label";
    turn_bits(&rt, &mut disk, rows)
}

// Between saves no bit of a home is told, and gate, record and slots don't count.
#[test]
fn by_layout_2_no_bit_of_a_home_is_told(rt: HostRuntime) -> Result<(), Fail> {
    let mut disk = saved(rt.alloc(), false, "1A", 1)?;
    let rows = "each 1 0 64 | same
each 69 0 4096 | other
all 1 64 4096 | same
all 2 0 4096 | same
all 5 0 4096 | same
all 6 0 4096 | same
all 7 0 4096 | same
all 70 0 4096 | other";
    turn_bits(&rt, &mut disk, rows)
}

fn open_gate() -> [u8; 512] {
    let mut gate = [0; 512];
    gate[..8].copy_from_slice(b"COMMIT83");
    gate
}

// A save that was stopped once its gate was open, and before a home was written. A bit of the gate takes it away.
#[test]
fn by_layout_2_record_and_slots_of_a_save_under_way_are_told(rt: HostRuntime) -> Result<(), Fail> {
    let mut disk = saved(rt.alloc(), false, "1A", 1)?;
    put(&mut disk, 1, &open_gate())?;
    put(&mut disk, 69, &[b' '; 512])?;
    put(&mut disk, 70, &[b' '; 512])?;
    let rows = "each 1 0 64 | other
each 2 0 4096 | damaged
each 5 0 4096 | damaged
each 6 0 4096 | damaged
all 1 64 4096 | same
all 3 0 4096 | same | the slot of a block that isn't listed
all 67 0 4096 | other | its home
all 69 0 4096 | same
all 70 0 4096 | same";
    turn_bits(&rt, &mut disk, rows)
}

// Block 0 was saved once, and so counts in its second place, in sectors 40 to 42. Block 1 has blanks in its first place, and nothing in the other.
#[test]
fn by_layout_3_each_bit_of_label_and_record_is_told(rt: HostRuntime) -> Result<(), Fail> {
    let mut disk = saved(rt.alloc(), true, "0A", 1)?;
    let rows = "each 0 0 64 | no label
each 0 64 80 | other version
each 0 80 96 | wrong count
each 0 96 4096 | no label
each 8 0 64 | same
each 8 64 320 | same, told
each 16 0 32 | damaged
each 16 3840 4096 | damaged";
    turn_bits(&rt, &mut disk, rows)
}

#[test]
fn by_layout_3_each_bit_of_a_block_and_its_tag_is_told(rt: HostRuntime) -> Result<(), Fail> {
    let mut disk = saved(rt.alloc(), true, "0A", 1)?;
    let rows = "each 40 0 4096 | damaged
each 41 0 4096 | damaged
each 42 0 256 | damaged
each 48 0 4096 | damaged
each 49 0 4096 | damaged
each 50 0 256 | damaged";
    turn_bits(&rt, &mut disk, rows)
}

// The rest of what is read, the other record, the other places, and the other sectors of the pages.
#[test]
fn by_layout_3_no_other_bit_counts(rt: HostRuntime) -> Result<(), Fail> {
    let mut disk = saved(rt.alloc(), true, "0A", 1)?;
    let rows = "all 8 320 4096 | same
all 9 0 4096 | same
all 16 32 3840 | same
all 17 0 4096 | same
all 24 0 4096 | same
all 32 0 4096 | same
all 33 0 4096 | same
all 34 0 4096 | same
all 42 256 4096 | same
all 43 0 4096 | same
all 50 256 4096 | same
all 56 0 4096 | same
all 57 0 4096 | same
all 58 0 4096 | same";
    turn_bits(&rt, &mut disk, rows)
}

// Puts sectors of the image with all these saves back as they were when fewer were done. A row has how many were, the sectors from one on to the one before
// another, the number of saves of the image that is wanted, and what is found.
fn each_put_back(
    rt: &(impl AllocGlobal + Abort),
    newer: bool,
    saves: &str,
    rows: &str,
) -> Result<(), Fail> {
    for row in rows.lines() {
        let before = number(row, 0)? as usize;
        let first = number(row, 1)?;
        let past = number(row, 2)?;
        let like = number(row, 3)? as usize;
        let mut disk = saved(rt.alloc(), newer, saves, saves.len())?;
        let mut old = saved(rt.alloc(), newer, saves, before)?;
        let digest = digest_of(&mut saved(rt.alloc(), newer, saves, like)?)?;
        for k in first..past {
            put(&mut disk, k, &sector(&mut old, k)?)?;
        }
        assert_same!(rt; found(&mut disk, &digest), wanted(row), "{row}");
    }
    Ok(())
}

// By layout 2 a home that comes back isn't told, and nothing else of an image at rest counts.
#[test]
fn by_layout_2_what_comes_back_is_not_told(rt: HostRuntime) -> Result<(), Fail> {
    let rows = "1 0 3 2 | same | label, gate and record
1 5 7 2 | same | the slot
1 69 71 1 | same | the home
1 69 70 1 | other | a half of it, so that the block is of two saves
1 0 131 1 | same";
    each_put_back(&rt, false, "1A 1B", rows)
}

// A gate whose closing was lost, over the slots of its record: the recovery does the save again. Over another text in one of them it is told.
#[test]
fn by_layout_2_an_open_gate_that_comes_back_is_harmless_or_told(
    rt: HostRuntime,
) -> Result<(), Fail> {
    let mut disk = saved(rt.alloc(), false, "1A", 1)?;
    let digest = digest_of(&mut disk)?;
    put(&mut disk, 1, &open_gate())?;
    assert_same!(rt; found(&mut disk, &digest), "same");
    put(&mut disk, 5, &[b'B'; 512])?;
    assert_same!(rt; found(&mut disk, &digest), "damaged");
    Ok(())
}

// By layout 3 a gate that comes back takes a save away, and a record two, where each of their blocks still stands in the place that it had. The record is told
// then: it is what stands there where the disk lost its write. A place that counts is told where it comes back.
#[test]
fn by_layout_3_a_gate_that_comes_back_is_not_told_and_a_record_is(
    rt: HostRuntime,
) -> Result<(), Fail> {
    let rows = "2 0 8 3 | same | the label
2 8 16 2 | same | the gate
1 8 16 3 | same, told | the gate of two saves before
2 16 24 1 | same, told | the record that counts
2 8 24 2 | same | both
1 24 32 3 | same | the other record
2 72 80 3 | damaged | the place of block 2
1 0 544 1 | same";
    each_put_back(&rt, true, "0A 1B 2C", rows)
}

// The same where one block was saved each time.
#[test]
fn by_layout_3_a_record_over_a_later_text_is_told(rt: HostRuntime) -> Result<(), Fail> {
    let rows = "2 8 16 2 | same | the gate
2 16 24 1 | damaged | the record: the place that it names has a later text
2 40 48 3 | damaged | an older text with its true tag
2 32 40 3 | same | the other place";
    each_put_back(&rt, true, "0A 0B 0C", rows)
}

// And where a block was spilled since, over the place that it had by that gate.
#[test]
fn by_layout_3_a_gate_over_a_later_spill_is_told(rt: HostRuntime) -> Result<(), Fail> {
    let mut store = made(rt.alloc(), true)?;
    save(&mut store, 0, b'A')?;
    save(&mut store, 0, b'B')?;
    spill(&mut store, 0, b'C')?;
    let mut disk = store.into_device();
    let digest = digest_of(&mut disk)?;
    let mut old = saved(rt.alloc(), true, "0A", 1)?;
    put(&mut disk, 8, &sector(&mut old, 8)?)?;
    assert_same!(rt; found(&mut disk, &digest), "damaged");
    Ok(())
}

// A gate of which so many bytes were written when a stop came, over the one before. With four of them it is nearer to an open one, and names the new record: it
// has this record's sum once all 40 are there, and before that the old one's, or a part of each.
#[test]
fn by_layout_3_a_gate_that_was_half_written_is_told(rt: HostRuntime) -> Result<(), Fail> {
    let saves = "0A 1B 2C";
    let mut disk = saved(rt.alloc(), true, saves, 3)?;
    let mut old = saved(rt.alloc(), true, saves, 2)?;
    let (new_gate, old_gate) = (sector(&mut disk, 8)?, sector(&mut old, 8)?);
    for (written, like, want) in [
        (0, 2, "same"),
        (3, 2, "same"),
        (4, 3, "same, told"),
        (8, 3, "same, told"),
        (39, 3, "same, told"),
        (40, 3, "same"),
        (512, 3, "same"),
    ] {
        let mut gate = old_gate;
        for at in 0..written {
            gate[at % 512] = new_gate[at % 512];
        }
        put(&mut disk, 8, &gate)?;
        let digest = digest_of(&mut saved(rt.alloc(), true, saves, like)?)?;
        assert_same!(rt; found(&mut disk, &digest), want, "{written} bytes");
    }
    Ok(())
}
