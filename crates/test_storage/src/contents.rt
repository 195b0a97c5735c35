//! Compares what disks and blocks hold with what is wanted.
use crate::assertions::{Assert, assert_same};
use sector_disk::SectorDevice;
use std::process::Abort;
use std::test::Fail;
use stores::Store;
use test_stops::disks::{block, sector};

/// Compares a sector.
pub(crate) fn holds<D: SectorDevice>(
    rt: &impl Abort,
    disk: &mut D,
    k: u32,
    bytes: &[u8; 512],
) -> Result<(), Fail> {
    assert_same!(rt; &sector(disk, k)?, bytes, "sector {k}");
    Ok(())
}

/// Compares sectors that are full of one byte. A row is the first of them, the last one, and the byte.
pub(crate) fn are_full<D: SectorDevice>(
    rt: &impl Abort,
    disk: &mut D,
    rows: &[(u32, u32, u8)],
) -> Result<(), Fail> {
    for (first, last, byte) in rows {
        for k in *first..=*last {
            holds(rt, disk, k, &[*byte; 512])?;
        }
    }
    Ok(())
}

/// Compares a block that is full of one byte.
pub(crate) fn block_is_full<D: SectorDevice>(
    rt: &impl Abort,
    store: &mut Store<D>,
    b: u16,
    byte: u8,
) -> Result<(), Fail> {
    assert_same!(rt; block(store, b)?, [byte; 1024], "block {b}");
    Ok(())
}
