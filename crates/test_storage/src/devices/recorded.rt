use crate::assertions::{Assert, assert_same};
use crate::contents::are_full;
use sector_disk::{Fate, MemoryDisk, SectorDevice};
use std::test::Fail;
use test_devices::Recorded;
use test_stops::disks::{put, sector};

#[test]
fn each_moment_is_told(rt: HostRuntime) -> Result<(), Fail> {
    let mut recorded = Recorded::new(rt.alloc(), MemoryDisk::new(rt.alloc(), 2)?);
    put(&mut recorded, 1, &[7; 512])?;
    put(&mut recorded, 1, &[8; 512])?;
    are_full(&rt, &mut recorded, &[(1, 1, 8)])?;
    recorded.sync()?;
    put(&mut recorded, 1, &[9; 512])?;
    assert_same!(rt; recorded.past().len(), 5);
    // before each call: where all is kept, and where all is lost
    for (moment, kept, lost) in [(0, 0, 0), (1, 7, 0), (2, 8, 0), (3, 8, 0), (4, 8, 8)] {
        let disk = recorded.past().get(moment).ok_or("no such moment")?;
        let mut disk = disk.try_clone(rt.alloc())?.stop(&[Fate::Kept]);
        assert_same!(rt; sector(&mut disk, 1)?, [kept; 512], "at {moment}");
        let disk = recorded.past().get(moment).ok_or("no such moment")?;
        let mut disk = disk.try_clone(rt.alloc())?.stop(&[]);
        assert_same!(rt; sector(&mut disk, 1)?, [lost; 512], "at {moment}");
    }
    let mut disk = recorded.into_device();
    are_full(&rt, &mut disk, &[(1, 1, 9)])
}
