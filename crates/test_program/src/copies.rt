//! Copies and salvages of an image of which a save is under way: what becomes of its blocks, and what a stop leaves of both images.
use super::stopping::{Disk, FATES, FILLED, Fate, LENGTH, Making, OneDisk, copying_is_stopped};
use super::support::{call_over, call_over_both, make_over, transcript};
use super::systems::{BOTH, SAVED, SEVENS};
use crate::assertions::{Assert, assert_same};
use std::fs::File;
use std::process::Abort;
use std::rt::Files;
use std::test::Fail;

/// What each salvage tells.
const NO_RECOVERY: &str =
    "salvaged, not recovered: of a save that was under way some blocks may be old and some new\n";

const COPY: Making = Making {
    words: &["forth83", "copy", "A", "A"],
    length: LENGTH,
    filled: FILLED,
};

const SALVAGE: Making = Making {
    words: &["forth83", "salvage", "A", "A"],
    ..COPY
};

/// An image of which a save of two blocks is under way: its gate is open, and their homes are blank.
fn half_saved(rt: &(impl Files<File = File> + AllocGlobal + Abort)) -> Result<Disk, Fail> {
    let disk = Disk::new(rt)?;
    let files = OneDisk::new(&disk);
    make_over(rt, &files);
    let made = disk.copy(rt)?;
    let (input, _) = transcript(rt, SAVED)?;
    for k in 0..100 {
        disk.set(made.as_slice());
        disk.begin(k);
        let _ = call_over(rt, &files, &["forth83", "run", "A"], input.as_slice());
        disk.restart(Fate::Kept);
        let bytes = disk.copy(rt)?;
        if bytes.as_slice().get(512..520) == Some(b"COMMIT83".as_slice()) {
            return Ok(disk);
        }
    }
    Err(Fail::from("no open gate"))
}

/// Both read the old image, and have the blocks of the save that is under way in it, which stays under way there.
#[test]
fn saves_that_are_under_way(rt: HostRuntime) -> Result<(), Fail> {
    for (name, told) in [("copy", ""), ("salvage", NO_RECOVERY)] {
        let old = half_saved(&rt)?;
        let before = old.copy(&rt)?;
        let new = Disk::new(&rt)?;
        let (looking, files) = (OneDisk::new(&old), OneDisk::new(&new));
        let left = call_over_both(&rt, &files, &looking, &["forth83", name, "A", "A"], b"");
        assert_same!(rt;
            (left.status, left.output.as_slice()),
            (0, told.as_bytes()),
            "{name}"
        );
        assert!(rt; left.errors.is_empty(), "{name}");
        assert!(rt; old.copy(&rt)? == before, "{name}");
        let left = call_over(&rt, &files, &["forth83", "run", "A"], BOTH.as_bytes());
        assert_same!(rt; left.output.as_slice(), SEVENS.as_bytes(), "{name}");
    }
    Ok(())
}

/// A copy is stopped at each call of either device, with one fate after another, and at the last ones with each: the old image stays
/// byte for byte as it was, and nothing has the new name.
#[test]
fn copies_that_are_stopped(rt: HostRuntime) -> Result<(), Fail> {
    copyings_are_stopped(&rt, COPY)
}

/// And so is a salvage.
#[test]
fn salvages_that_are_stopped(rt: HostRuntime) -> Result<(), Fail> {
    copyings_are_stopped(&rt, SALVAGE)
}

fn copyings_are_stopped(
    rt: &(impl Files<File = File> + AllocGlobal + Abort),
    making: Making,
) -> Result<(), Fail> {
    let old = half_saved(rt)?;
    let before = old.copy(rt)?;
    let new = Disk::new(rt)?;
    let (looking, files) = (OneDisk::beside(&old, &new), OneDisk::new(&new));
    new.begin(u64::MAX);
    let left = call_over_both(rt, &files, &looking, making.words, b"");
    let calls = new.calls();
    assert!(rt; left.status == 0 && (130..400).contains(&calls), "{calls}");
    for (k, fate) in (0..calls).zip(FATES.iter().cycle()) {
        copying_is_stopped(rt, making, &old, (k, calls), *fate)?;
    }
    for k in calls.saturating_sub(6)..calls {
        for fate in FATES {
            copying_is_stopped(rt, making, &old, (k, calls), fate)?;
        }
    }
    assert!(rt; old.copy(rt)? == before, "{making:?}");
    Ok(())
}

/// One sector can't be read: the gate, the record, or one of a home or of a slot. What is left of the image is salvaged all the same, and the sector is
/// told; a check that reads it tells it too.
#[test]
fn images_with_a_sector_that_cannot_be_read(rt: HostRuntime) -> Result<(), Fail> {
    let old = Disk::new(&rt)?;
    let files = OneDisk::new(&old);
    make_over(&rt, &files);
    let (input, _) = transcript(&rt, SAVED)?;
    let _ = call_over(&rt, &files, &["forth83", "run", "A"], input.as_slice());
    let before = old.copy(&rt)?;
    for (scar, line, replies) in [
        (1, "sector 1: can't be read\n", SEVENS),
        (2, "sector 2: can't be read\n", SEVENS),
        (69, "block 1: sector 69 can't be read\n", "8224 7  ok\n"),
        (70, "block 1: sector 70 can't be read\n", SEVENS),
        (5, "block 1: sector 5 can't be read\n", SEVENS),
        (130, "block 31: sector 130 can't be read\n", SEVENS),
    ] {
        old.scar(scar);
        let new = Disk::new(&rt)?;
        let (looking, files) = (OneDisk::new(&old), OneDisk::new(&new));
        let words = ["forth83", "salvage", "A", "A"];
        let left = call_over_both(&rt, &files, &looking, &words, b"");
        let told = format!(in rt.alloc(); "{NO_RECOVERY}{line}")?;
        assert_same!(rt; (left.status, left.output.as_slice()), (0, told.as_bytes()), "{scar}");
        assert!(rt; left.errors.is_empty(), "{scar}");
        let left = call_over(&rt, &files, &["forth83", "run", "A"], BOTH.as_bytes());
        assert_same!(rt; left.output.as_slice(), replies.as_bytes(), "{scar}");
        // A check reads neither the record of a closed gate nor a slot.
        let left = call_over(&rt, &looking, &["forth83", "check", "A"], b"");
        let is_read = scar != 2 && scar != 5;
        assert_same!(rt; left.status, if is_read { 3 } else { 0 }, "{scar}");
        assert!(rt;
            !is_read || left.output.as_slice() == line.as_bytes(),
            "{scar}"
        );
    }
    assert!(rt; old.copy(&rt)? == before);
    Ok(())
}
