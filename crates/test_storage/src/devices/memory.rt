use crate::assertions::{Assert, assert_same};
use crate::contents::{are_full, holds};
use sector_disk::{Counts, Fate, MemoryDisk, SectorDevice};
use std::test::Fail;
use test_stops::disks::put;

// The first 256 bytes are new and the rest old.
fn half_torn(new: u8, old: u8) -> [u8; 512] {
    let mut bytes = [old; 512];
    for byte in bytes.iter_mut().take(256) {
        *byte = new;
    }
    bytes
}

// Six sectors that were synced as 10 to 15, of which 1, 3 and 4 were written since as 21, 23 and 24, in another order.
fn unsynced_disk(rt: &HostRuntime) -> Result<MemoryDisk, Fail> {
    let mut disk = MemoryDisk::new(rt.alloc(), 6)?;
    for k in 0..6 {
        put(&mut disk, k, &[10 + k as u8; 512])?;
    }
    disk.sync()?;
    put(&mut disk, 4, &[9; 512])?;
    put(&mut disk, 1, &[21; 512])?;
    put(&mut disk, 4, &[24; 512])?;
    put(&mut disk, 3, &[23; 512])?;
    Ok(disk)
}

// What a sector holds after this fate.
fn left(fate: Fate, lost: u8, kept: u8) -> [u8; 512] {
    match fate {
        Fate::Lost => [lost; 512],
        Fate::Kept => [kept; 512],
        Fate::Torn(bytes) => bytes,
    }
}

#[test]
fn a_new_disk_is_blank(rt: HostRuntime) -> Result<(), Fail> {
    let mut disk = MemoryDisk::new(rt.alloc(), 131)?;
    assert_same!(rt; disk.sectors(), 131);
    assert_same!(rt;
        disk.counts(),
        Counts {
            reads: 0,
            writes: 0,
            syncs: 0
        }
    );
    are_full(&rt, &mut disk, &[(0, 130, 0)])?;
    assert_same!(rt; MemoryDisk::new(rt.alloc(), 0)?.sectors(), 0);
    Ok(())
}

#[test]
fn calls_are_counted_as_begun(rt: HostRuntime) -> Result<(), Fail> {
    let mut disk = unsynced_disk(&rt)?;
    are_full(&rt, &mut disk, &[(4, 4, 24), (5, 5, 15)])?;
    let wanted = Counts {
        reads: 2,
        writes: 10,
        syncs: 1,
    };
    let before = disk.counts();
    assert_same!(rt; [before, disk.stop(&[]).counts()], [wanted; 2]);
    Ok(())
}

#[test]
fn each_unsynced_sector_meets_its_fate(rt: HostRuntime) -> Result<(), Fail> {
    let disk = unsynced_disk(&rt)?;
    for first in [Fate::Lost, Fate::Kept, Fate::Torn(half_torn(21, 11))] {
        for second in [Fate::Lost, Fate::Kept, Fate::Torn(half_torn(23, 13))] {
            for third in [Fate::Lost, Fate::Kept, Fate::Torn(half_torn(24, 14))] {
                let copy = disk.try_clone(rt.alloc())?;
                let mut stopped = copy.stop(&[first, second, third, Fate::Torn([99; 512])]);
                are_full(&rt, &mut stopped, &[(0, 0, 10), (2, 2, 12), (5, 5, 15)])?;
                holds(&rt, &mut stopped, 1, &left(first, 11, 21))?;
                holds(&rt, &mut stopped, 3, &left(second, 13, 23))?;
                holds(&rt, &mut stopped, 4, &left(third, 14, 24))?;
            }
        }
    }
    Ok(())
}

#[test]
fn sectors_past_the_end_of_the_fates_are_lost(rt: HostRuntime) -> Result<(), Fail> {
    let disk = unsynced_disk(&rt)?;
    for (fates, kept) in [
        ([].as_slice(), 0),
        ([Fate::Kept].as_slice(), 1),
        ([Fate::Kept; 2].as_slice(), 2),
        ([Fate::Kept; 3].as_slice(), 3),
    ] {
        let mut stopped = disk.try_clone(rt.alloc())?.stop(fates);
        for (place, k, old, new) in [(0, 1, 11, 21), (1, 3, 13, 23), (2, 4, 14, 24)] {
            let byte = if place < kept { new } else { old };
            holds(&rt, &mut stopped, k, &[byte; 512])?;
        }
    }
    Ok(())
}

#[test]
fn nothing_is_unsynced_after_a_stop(rt: HostRuntime) -> Result<(), Fail> {
    let mut disk = unsynced_disk(&rt)?
        .stop(&[Fate::Kept])
        .stop(&[Fate::Torn([99; 512]); 6]);
    let rows = [
        (0, 0, 10),
        (1, 1, 21),
        (2, 2, 12),
        (3, 3, 13),
        (4, 4, 14),
        (5, 5, 15),
    ];
    are_full(&rt, &mut disk, &rows)
}

#[test]
fn a_sync_leaves_nothing_to_a_stop(rt: HostRuntime) -> Result<(), Fail> {
    let mut disk = unsynced_disk(&rt)?;
    disk.sync()?;
    let mut disk = disk.stop(&[Fate::Torn([99; 512]); 6]);
    let rows = [
        (0, 0, 10),
        (1, 1, 21),
        (2, 2, 12),
        (3, 3, 23),
        (4, 4, 24),
        (5, 5, 15),
    ];
    are_full(&rt, &mut disk, &rows)
}
