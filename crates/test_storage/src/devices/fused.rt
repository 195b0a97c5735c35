use crate::assertions::{Assert, assert_same};
use crate::contents::are_full;
use sector_disk::{Counts, Fused, MemoryDisk, SectorDevice};
use std::process::Abort;
use std::test::Fail;
use test_stops::disks::{put, sector};

// Six calls, and whether each of them failed.
fn outcomes<D: SectorDevice>(disk: &mut D) -> [bool; 6] {
    [
        put(disk, 0, &[1; 512]).is_err(),
        sector(disk, 0).is_err(),
        disk.sync().is_err(),
        put(disk, 1, &[2; 512]).is_err(),
        sector(disk, 1).is_err(),
        disk.sync().is_err(),
    ]
}

// How many of these calls reached the device.
fn passed(failed: [bool; 6], calls: [usize; 2]) -> u64 {
    calls
        .iter()
        .filter(|call| failed.get(**call) == Some(&false))
        .count() as u64
}

fn passed_counts(failed: [bool; 6]) -> Counts {
    Counts {
        reads: passed(failed, [1, 4]),
        writes: passed(failed, [0, 3]),
        syncs: passed(failed, [2, 5]),
    }
}

/// Makes six calls, of which these have to fail, and compares what the device was asked for and what its two sectors
/// are full of.
fn compare(
    rt: &impl Abort,
    device: Fused<MemoryDisk>,
    want: [bool; 6],
    bytes: [u8; 2],
) -> Result<(), Fail> {
    let mut fused = device;
    assert_same!(rt; fused.sectors(), 2);
    assert_same!(rt; outcomes(&mut fused), want);
    let mut disk = fused.into_device();
    assert_same!(rt; disk.counts(), passed_counts(want), "{want:?}");
    are_full(rt, &mut disk, &[(0, 0, bytes[0]), (1, 1, bytes[1])])
}

#[test]
fn one_call_fails(rt: HostRuntime) -> Result<(), Fail> {
    for k in 1..8 {
        let fused = Fused::once(MemoryDisk::new(rt.alloc(), 2)?, k);
        let want = [1, 2, 3, 4, 5, 6].map(|call: u64| call == k);
        let first = if k == 1 { 0 } else { 1 };
        let second = if k == 4 { 0 } else { 2 };
        compare(&rt, fused, want, [first, second])?;
    }
    Ok(())
}

#[test]
fn all_calls_fail_from_one_on(rt: HostRuntime) -> Result<(), Fail> {
    for k in 1..8 {
        let fused = Fused::from(MemoryDisk::new(rt.alloc(), 2)?, k);
        let want = [1, 2, 3, 4, 5, 6].map(|call: u64| call >= k);
        let first = if k == 1 { 0 } else { 1 };
        let second = if k <= 4 { 0 } else { 2 };
        compare(&rt, fused, want, [first, second])?;
    }
    Ok(())
}

#[test]
fn the_contract_says_which_call_fails(rt: HostRuntime) -> Result<(), Fail> {
    let mut fused = Fused::once(MemoryDisk::new(rt.alloc(), 1)?, 2);
    let first = fused.sync();
    let second = fused.sync();
    let third = fused.sync();
    prove!(first.is_ok());
    prove!(second.is_err());
    prove!(third.is_ok());
    Ok(())
}
