// Images of 32 blocks that the tests put together, and what they mean.
ghost use Rattle.std.specs.Prelude.{◌<◌};
ghost use Rattle.journal.specs.Layout.{most_blocks};

use crate::sectors::{put, sector};
use journal::Store;
use journal::pages::layout::{current_sector, sum, tag, tag_sector, with_sum};
use journal::pages::tags::{add, tag_of};
use sector_disk::{Fused, MemoryDisk, SectorDevice};
use std::alloc::{AllocError, Global};
use std::test::Fail;
use stores::open;
use test_devices::Coarse;

pub(crate) const BLOCKS: u16 = 32;

/// Bytes in hexadecimal digits.
pub(crate) fn hex(alloc: Global, bytes: &[u8]) -> Result<String, AllocError> {
    let mut text = String::new(alloc);
    for byte in bytes {
        text.push_str(&format!(in alloc; "{byte:02x}")?)?;
    }
    Ok(text)
}

// The sum of the tags of blank blocks.
fn blank_sum() -> [u8; 32] {
    let mut sum = [0; 32];
    for b in 0..BLOCKS {
        add(&mut sum, &tag_of(b, &[b' '; 1024]));
    }
    sum
}

/// The record of an image of blank blocks.
pub(crate) fn blank_record() -> [u8; 512] {
    with_sum(&[0; 512], &blank_sum())
}

// Its gate: closed, with the record's sum.
fn blank_gate() -> [u8; 512] {
    let mut gate = [0; 512];
    gate[8..40].copy_from_slice(&blank_sum());
    gate
}

fn put_blank(disk: &mut MemoryDisk, b: u16) -> Result<(), &'static str> {
    let k = 32 + 16 * b as u32;
    put(disk, k, &[b' '; 512])?;
    put(disk, k + 1, &[b' '; 512])?;
    put(disk, k + 2, &tag_sector(&tag_of(b, &[b' '; 1024])))
}

/// An image of blank blocks, of which nothing is unsynced.
pub(crate) fn blank(alloc: Global) -> Result<MemoryDisk, Fail> {
    let mut disk = MemoryDisk::new(alloc, 544)?;
    let mut label = [0; 512];
    label[..12].copy_from_slice(b"F83BLOCK\x03\x00\x20\x00");
    put(&mut disk, 0, &label)?;
    put(&mut disk, 8, &blank_gate())?;
    put(&mut disk, 24, &blank_record())?;
    for b in 0..BLOCKS {
        put_blank(&mut disk, b)?;
    }
    disk.sync().map_err(|_| "sync failed")?;
    Ok(disk)
}

/// The calls of an opening of 32 blocks: a sync, three sectors of each block, and beside them label, gate and record.
const OPENING: u64 = 100;

/// The store of an image of which each unit has eight sectors. Its calls from this one on fail, counted from behind the opening.
pub(crate) fn opened(disk: MemoryDisk, call: u64) -> Result<Store<Fused<Coarse>>, Fail> {
    let disk = Fused::from(Coarse::new(disk), OPENING.saturating_add(call));
    match open(disk) {
        Ok(store) => Ok(store),
        Err(_) => Err("not opened")?,
    }
}

/// Spills a block that is full of this byte.
pub(crate) fn spill<D: SectorDevice>(
    store: &mut Store<D>,
    b: u16,
    byte: u8,
) -> Result<(), &'static str> {
    if b >= store.blocks() {
        return Err("no such block");
    }
    store.spill(b, &[byte; 1024]).map_err(|_| "spill failed")
}

fn block_at(disk: &mut MemoryDisk, listing: &[u8; 512], b: u16) -> Result<[u8; 1024], &'static str>
    requires { b < most_blocks }
{
    let k = current_sector(listing, b);
    let mut bytes = [0; 1024];
    let (first, second) = bytes.split_at_mut(512);
    first.copy_from_slice(&sector(disk, k)?);
    second.copy_from_slice(&sector(disk, k + 1)?);
    Ok(bytes)
}

// Whether a gate is nearer to an open one than to a closed one.
fn is_open(gate: &[u8; 512]) -> bool {
    let [a, b, c, d, e, f, g, h, ..] = *gate;
    let word = u64::from_le_bytes([a, b, c, d, e, f, g, h]);
    let open = u64::from_le_bytes(*b"COMMIT83");
    (word ^ open).count_ones() < word.count_ones()
}

/// The blocks of an image that aren't blank, as `5A` where block 5 begins so, and `5?` where its tag isn't that of its bytes; and
/// `sum` where the record's sum isn't that of the tags.
pub(crate) fn told(alloc: Global, disk: &mut MemoryDisk) -> Result<String, Fail> {
    let gate = sector(disk, 8)?;
    let listing = sector(disk, if is_open(&gate) { 16 } else { 24 })?;
    let mut text = String::new(alloc);
    let mut total = [0; 32];
    for b in 0..BLOCKS {
        let bytes = block_at(disk, &listing, b)?;
        let kept = tag(&sector(disk, current_sector(&listing, b) + 2)?);
        add(&mut total, &kept);
        let letter = if kept == tag_of(b, &bytes) {
            bytes[0]
        } else {
            b'?'
        };
        if letter != b' ' {
            let letter = letter as char;
            text.push_str(&format!(in alloc; " {b}{letter}")?)?;
        }
    }
    if total != sum(&listing) {
        text.push_str(" sum")?;
    }
    Ok(text)
}
