// Images that the tests make by saves, and what they hold.
use crate::sectors::{put, sector};
use journal::Store;
use sector_disk::{Counts, Fate, MemoryDisk, SectorDevice};
use shadow::format;
use std::alloc::Global;
use std::test::Fail;

/// How many sectors an image of 32 blocks has.
pub(crate) const SECTORS: u32 = 544;

/// Changes one byte of a sector.
pub(crate) fn change(
    disk: &mut MemoryDisk,
    k: u32,
    at: usize,
    byte: u8,
) -> Result<(), &'static str> {
    let mut bytes = sector(disk, k)?;
    bytes[at % 512] = byte;
    put(disk, k, &bytes)
}

/// Saves a block that is full of this byte.
fn save(store: &mut Store<MemoryDisk>, b: u16, byte: u8) -> Result<(), &'static str> {
    if b >= store.blocks() {
        return Err("no such block");
    }
    store.spill(b, &[byte; 1024]).map_err(|_| "spill failed")?;
    store.commit().map_err(|_| "commit failed")
}

/// An image of so many blocks, of which these were saved one after another, each in a save of its own.
pub(crate) fn saved(alloc: Global, blocks: u16, saves: &[(u16, u8)]) -> Result<MemoryDisk, Fail> {
    let Ok(mut store) = format(MemoryDisk::new(alloc, 32 + 16 * blocks as u32)?, blocks) else {
        return Err("not made")?;
    };
    for (b, byte) in saves {
        save(&mut store, *b, *byte)?;
    }
    Ok(store.into_device())
}

/// The disk of an image of 32 blocks after a stop that keeps all that was written, with nothing unsynced.
pub(crate) fn stopped(disk: MemoryDisk) -> MemoryDisk {
    disk.stop(&[Fate::Kept; SECTORS as usize])
}

/// The reads, writes and syncs since.
pub(crate) fn since(now: Counts, then: Counts) -> [u64; 3] {
    [
        now.reads.saturating_sub(then.reads),
        now.writes.saturating_sub(then.writes),
        now.syncs.saturating_sub(then.syncs),
    ]
}

/// Whether two disks hold the same.
pub(crate) fn are_same(one: &mut MemoryDisk, two: &mut MemoryDisk) -> Result<bool, Fail> {
    for k in 0..one.sectors() {
        if sector(one, k)? != sector(two, k)? {
            return Ok(false);
        }
    }
    Ok(one.sectors() == two.sectors())
}
