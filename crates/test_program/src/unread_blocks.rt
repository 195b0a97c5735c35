//! Blocks of an image of layout 3 that are listed and exported although one of its sectors can't be read. What is wanted follows from where the parts of the
//! image stand: block b has its places at 32 + 16b and 40 + 16b, of three sectors each, the gate is 8 and the record that counts 16.
use super::layout_3_images_in_memory::{call_unwritable, change, with_sevens};
use super::stopping::{Disk, OneDisk};
use super::support::{DEVICE_FAULT, Left, call_over};
use crate::assertions::{Assert, assert_same};
use std::fs::File;
use std::process::Abort;
use std::rt::Files;
use std::test::Fail;

/// Calls the program over an image that is opened for writing, or over one that may only be read.
fn call(
    rt: &(impl Files<File = File> + AllocGlobal),
    disk: &Disk,
    is_writable: bool,
    words: &[&str],
) -> Left {
    disk.begin(u64::MAX);
    if is_writable {
        call_over(rt, &OneDisk::new(disk), words, b"")
    } else {
        call_unwritable(rt, disk, false, words)
    }
}

/// How many calls of the image so many reads are, with the sync of an opening.
fn calls(reads: u64, is_writable: bool) -> u64 {
    if is_writable {
        reads.saturating_add(1)
    } else {
        reads
    }
}

/// It is told that a call of the image failed.
fn check_fault(rt: &impl Abort, left: &Left, case: &str) {
    assert_same!(rt; (left.status, left.errors.as_slice()), (3, DEVICE_FAULT.as_bytes()), "{case}");
}

/// One sector can't be read. Each block is listed whose own sectors, with gate and record, can be read. An opening makes a sync, and a look none; either reads
/// label, gate, record and each block with its tag, up to that sector; and then gate, record and the block with its tag are read.
#[test]
fn blocks_are_listed_beside_a_sector_that_cannot_be_read(rt: HostRuntime) -> Result<(), Fail> {
    let disk = with_sevens(&rt)?;
    let before = disk.copy(&rt)?;
    // Both blocks that were saved count in their second places, from 56 and 72 on, and all others in their first.
    for (scar, block, reads) in [
        (0, "1", 1 + 5),
        (0, "2", 1 + 5),
        (32, "1", 4 + 5),
        (32, "0", 4 + 3),
        (34, "1", 6 + 5),
        (34, "0", 6 + 5),
        (56, "0", 7 + 5),
        (56, "2", 7 + 5),
        (56, "31", 7 + 5),
        (56, "1", 7 + 3),
        (57, "1", 8 + 4),
        (58, "1", 9 + 5),
        (530, "1", 99 + 5),
        (530, "31", 99 + 5),
        (8, "1", 2 + 1),
        (16, "1", 3 + 2),
    ] {
        for is_writable in [true, false] {
            let case = format!(in rt.alloc(); "{block} beside {scar}, {is_writable}")?;
            let words = ["forth83", "list", "A", block];
            disk.scar(u64::MAX);
            let whole = call(&rt, &disk, is_writable, &words);
            assert_same!(rt; whole.status, 0, "{case}");
            disk.scar(scar);
            let left = call(&rt, &disk, is_writable, &words);
            assert_same!(rt; disk.calls(), calls(reads, is_writable), "{case}");
            if is_own(scar, block) {
                check_fault(&rt, &left, case.as_str());
                assert!(rt; left.output.is_empty(), "{case}");
            } else {
                assert_same!(rt; (left.status, left.output.as_slice()), (0, whole.output.as_slice()), "{case}");
                assert!(rt; left.errors.is_empty(), "{case}");
            }
        }
    }
    assert!(rt; disk.copy(&rt)? == before);
    Ok(())
}

/// Whether a sector is the gate, the record that counts, or one of the block's three where it counts.
fn is_own(sector: u64, block: &str) -> bool {
    let first = match block {
        "0" => 32,
        "1" => 56,
        "2" => 72,
        _ => 528,
    };
    sector == 8 || sector == 16 || (first <= sector && sector.saturating_sub(first) < 3)
}

/// So many blocks are exported as stand before the first one of which a sector can't be read, in either form; each takes five reads.
#[test]
fn blocks_are_exported_beside_a_sector_that_cannot_be_read(rt: HostRuntime) -> Result<(), Fail> {
    let disk = with_sevens(&rt)?;
    let before = disk.copy(&rt)?;
    for (scar, first, last, had, reads) in [
        (56, "2", "31", "31", 7 + 5 * 30),
        (56, "0", "0", "0", 7 + 5),
        (56, "0", "31", "0", 7 + 5 + 3),
        (58, "0", "2", "0", 9 + 5 + 5),
        (530, "1", "31", "30", 99 + 5 * 31),
        (0, "0", "31", "31", 1 + 5 * 32),
    ] {
        for (is_writable, is_raw) in [(true, false), (false, false), (true, true), (false, true)] {
            let form = if is_raw { "--raw" } else { "" };
            let case = format!(in rt.alloc();
                "{reads} reads beside {scar}, {is_writable} {is_raw}"
            )?;
            disk.scar(u64::MAX);
            let wanted = call(&rt, &disk, is_writable, &words(&[first, had], form));
            assert_same!(rt; wanted.status, 0, "{case}");
            disk.scar(scar);
            let left = call(&rt, &disk, is_writable, &words(&[first, last], form));
            assert_same!(rt; left.output.as_slice(), wanted.output.as_slice(), "{case}");
            assert_same!(rt; disk.calls(), calls(reads, is_writable), "{case}");
            if had == last {
                assert_same!(rt; (left.status, left.errors.is_empty()), (0, true), "{case}");
            } else {
                check_fault(&rt, &left, case.as_str());
            }
        }
    }
    assert!(rt; disk.copy(&rt)? == before);
    Ok(())
}

/// The words of an export, in this form.
fn words<'a>(range: &[&'a str; 2], form: &'a str) -> [&'a str; 6] {
    let [first, last] = *range;
    let form = if form.is_empty() { "--" } else { form };
    ["forth83", "export", form, "A", first, last]
}

/// Where a block isn't there the fault of the opening is told, as before, with no more reads; and it is told where a block doesn't fit its tag.
#[test]
fn what_is_not_had_is_told_as_the_fault(rt: HostRuntime) -> Result<(), Fail> {
    let disk = with_sevens(&rt)?;
    let whole = disk.copy(&rt)?;
    disk.scar(56);
    for words in [
        ["forth83", "list", "A", "32"].as_slice(),
        ["forth83", "list", "A", "65535"].as_slice(),
        ["forth83", "export", "A", "31", "32"].as_slice(),
        ["forth83", "export", "A", "3", "2"].as_slice(),
    ] {
        for is_writable in [true, false] {
            let left = call(&rt, &disk, is_writable, words);
            let case = format!(in rt.alloc(); "{words:?}, {is_writable}")?;
            check_fault(&rt, &left, case.as_str());
            assert!(rt; left.output.is_empty(), "{case}");
            assert_same!(rt; disk.calls(), calls(7, is_writable), "{case}");
        }
    }
    // A byte of block 2 where it counts, and one of the place of block 3 that doesn't count.
    let mut bytes = whole;
    change(bytes.as_mut_slice(), 73, 0);
    change(bytes.as_mut_slice(), 88, 0);
    disk.set(bytes.as_slice());
    for (block, status) in [("2", 3), ("3", 0), ("4", 0)] {
        for is_writable in [true, false] {
            let left = call(&rt, &disk, is_writable, &["forth83", "list", "A", block]);
            assert_same!(rt; (left.status, left.output.is_empty()), (status, status == 3), "{block}");
            assert_same!(rt; left.errors.is_empty(), status == 0, "{block}");
        }
    }
    assert!(rt; disk.copy(&rt)? == bytes);
    Ok(())
}
