//! A disk whose sectors lie in larger units: what a write touches, and what a stop leaves of a save there.
use crate::assertions::{Assert, assert_same};
use crate::contents::holds;
use sector_disk::{Fate, Fused, MemoryDisk, SectorDevice};
use std::alloc::{AllocError, Global};
use std::test::Fail;
use test_devices::Coarse;
use test_stops::disks::{formatted, opened, put, spill};
use test_stops::fates::unsynced_sectors;
use test_stops::fillings::{left_in, shown};
use test_stops::medium::OLDER;

#[test]
fn a_write_touches_the_sectors_of_its_unit(rt: HostRuntime) -> Result<(), Fail> {
    for (k, first, last) in [
        (0, 0, 7),
        (9, 8, 15),
        (15, 8, 15),
        (16, 16, 18),
        (18, 16, 18),
    ] {
        let mut disk = Coarse::new(MemoryDisk::new(rt.alloc(), 19)?);
        put(&mut disk, k, &[7; 512])?;
        let mut disk = disk.into_device().stop(&[Fate::Torn([9; 512]); 19]);
        for j in 0..19 {
            let byte = if first <= j && j <= last { 9 } else { 0 };
            holds(&rt, &mut disk, j, &[byte; 512])?;
        }
    }
    Ok(())
}

#[test]
fn a_write_leaves_the_bytes_of_its_unit(rt: HostRuntime) -> Result<(), Fail> {
    let mut disk = Coarse::new(MemoryDisk::new(rt.alloc(), 19)?);
    for k in 0..19 {
        put(&mut disk, k, &[k as u8; 512])?;
    }
    for k in 0..19 {
        holds(&rt, &mut disk, k, &[k as u8; 512])?;
    }
    disk.sync()?;
    put(&mut disk, 10, &[99; 512])?;
    let mut disk = disk.into_device().stop(&[]);
    for k in 0..19 {
        holds(&rt, &mut disk, k, &[k as u8; 512])?;
    }
    Ok(())
}

// Spills block 5 of a blank image and saves it, over a device of which the calls from this one on fail. Opening it makes 3 calls,
// and all together are 18.
fn save_until<D: SectorDevice + Drop>(device: D, call: u64) -> Result<D, Fail> {
    let mut store = opened(Fused::from(device, call.max(1)))?;
    if spill(&mut store, 5, b'A').is_ok() {
        let _ = store.commit();
    }
    Ok(store.into_device().into_device())
}

// Tells what a stop leaves that tears one sector and keeps all others, where that is neither the old blocks nor the new ones.
fn neither(rt: &HostRuntime, disk: &MemoryDisk) -> Result<String, Fail> {
    let alloc = rt.alloc();
    let mut told = String::new(alloc);
    let sectors = unsynced_sectors(rt, disk, OLDER)?;
    for (i, sector) in sectors.iter().enumerate() {
        let mut fates = vec![in alloc; Fate::Kept; sectors.len()]?;
        if let Some(fate) = fates.get_mut(i) {
            *fate = Fate::Torn([b'?'; 512]);
        }
        let left = shown(alloc, left_in(disk.try_clone(alloc)?.stop(&fates))?)?;
        if !["blank", "5A"].contains(&left.as_str()) {
            let k = sector.k;
            told.push_str(&format!(in alloc; " | {k} torn: {left}")?)?;
        }
    }
    Ok(told)
}

// Adds a line of what is left before this call, if anything is told.
fn add_line(alloc: Global, lines: &mut String, call: u64, told: &str) -> Result<(), AllocError> {
    if !told.is_empty() {
        lines.push_str(&format!(in alloc; "before call {call}{told}\n")?)?;
    }
    Ok(())
}

#[test]
fn a_save_is_all_or_nothing_where_units_are_sectors(rt: HostRuntime) -> Result<(), Fail> {
    let mut lines = String::new(rt.alloc());
    for call in 4..=19 {
        let disk = save_until(formatted(&rt)?, call)?;
        add_line(rt.alloc(), &mut lines, call, &neither(&rt, &disk)?)?;
    }
    assert_same!(rt; lines.as_str(), "");
    Ok(())
}

// Label, gate and record lie in one unit, and the homes of the blocks 2 to 6 in another. So the label or the record may be lost
// while the gate is written, and then no block is read any more. And while the homes of block 5 are written a block may be lost
// that isn't saved at all: the opening answers Ok, and the block has other bytes (`3?`).
const LEFT: &str = "\
before call 9 | 0 torn: NoLabel
before call 11 | 0 torn: NoLabel | 2 torn: Damaged
before call 14 | 72 torn: 2? 5A | 73 torn: 3? 5A | 74 torn: 3? 5A | 75 torn: 4? 5A | 76 torn: 4? 5A | 79 torn: 5A 6?
before call 15 | 72 torn: 2? 5A | 73 torn: 3? 5A | 74 torn: 3? 5A | 75 torn: 4? 5A | 76 torn: 4? 5A | 79 torn: 5A 6?
before call 16 | 72 torn: 2? 5A | 73 torn: 3? 5A | 74 torn: 3? 5A | 75 torn: 4? 5A | 76 torn: 4? 5A | 79 torn: 5A 6?
before call 18 | 0 torn: NoLabel
";

#[test]
fn a_save_may_leave_neither_where_units_are_larger(rt: HostRuntime) -> Result<(), Fail> {
    let mut lines = String::new(rt.alloc());
    for call in 4..=19 {
        let disk = save_until(Coarse::new(formatted(&rt)?), call)?.into_device();
        add_line(rt.alloc(), &mut lines, call, &neither(&rt, &disk)?)?;
    }
    assert_same!(rt; lines.as_str(), LEFT);
    Ok(())
}
