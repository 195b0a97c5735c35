//! A file whose calls move few bytes, are interrupted and fail, as a device.
use crate::sectors::{put, sector};
use sector_disk::{SectorDevice, SectorFile};
use std::test::Fail;
use test_devices::{MemoryFile, Script};

const NEVER: u64 = u64::MAX;

/// Four sectors on a file whose calls move at most so many bytes; each so many-th one is interrupted, and after so many
/// the next one fails.
fn device(
    rt: &HostRuntime,
    most: usize,
    interrupted: u64,
    fails_after: u64,
) -> Result<SectorFile<MemoryFile>, Fail> {
    let script = Script {
        most,
        interrupted,
        fails_after,
        calls: 0,
    };
    let file = MemoryFile::new(rt.alloc(), 4, script).map_err(|_| "no memory")?;
    Ok(SectorFile::new(file, 4))
}

#[test]
fn sectors_are_whole_whatever_a_call_moves(rt: HostRuntime) -> Result<(), Fail> {
    for most in [1, 7, 511, 512, 4096] {
        for interrupted in [0, 2, 3] {
            let mut disk = device(&rt, most, interrupted, NEVER)?;
            put(&mut disk, 1, &[1; 512])?;
            put(&mut disk, 3, &[3; 512])?;
            put(&mut disk, 1, &[9; 512])?;
            assert!(rt; sector(&mut disk, 0)? == [0; 512]);
            assert!(rt; sector(&mut disk, 1)? == [9; 512]);
            assert!(rt; sector(&mut disk, 2)? == [0; 512]);
            assert!(rt; sector(&mut disk, 3)? == [3; 512]);
        }
    }
    Ok(())
}

#[test]
fn calls_that_move_nothing_fail(rt: HostRuntime) -> Result<(), Fail> {
    let mut disk = device(&rt, 0, 0, NEVER)?;
    assert!(rt; put(&mut disk, 0, &[1; 512]).is_err());
    assert!(rt; sector(&mut disk, 0).is_err());
    Ok(())
}

/// Calls of 100 bytes: six a sector.
#[test]
fn a_failed_call_is_told_and_spoils_its_sector_alone(rt: HostRuntime) -> Result<(), Fail> {
    for k in 0..12 {
        let mut disk = device(&rt, 100, 0, k)?;
        let first = put(&mut disk, 0, &[5; 512]).is_ok();
        let second = put(&mut disk, 1, &[5; 512]).is_ok();
        assert_eq!(rt; (first, second), (k >= 6, k < 6));
        let (done, other) = if first { (0, 2) } else { (1, 3) };
        assert!(rt; sector(&mut disk, done)? == [5; 512]);
        assert!(rt; sector(&mut disk, other)? == [0; 512]);
    }
    Ok(())
}

/// The file would answer the later ones with success, and the bytes are lost.
#[test]
fn after_a_failed_sync_all_syncs_fail(rt: HostRuntime) -> Result<(), Fail> {
    let mut disk = device(&rt, 512, 0, 1)?;
    put(&mut disk, 2, &[7; 512])?;
    assert!(rt; disk.sync().is_err());
    assert!(rt; disk.sync().is_err());
    assert!(rt; sector(&mut disk, 2)? == [0; 512]);
    Ok(())
}
