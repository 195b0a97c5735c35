// Openings: which images are refused, and what an opening does.
use crate::assertions::{Assert, assert_same};
use crate::layout_3::images::{blank, opened, spill, told};
use crate::sectors::{put, sector};
use recovery::OpenFault;
use sector_disk::{Fate, MemoryDisk};
use std::alloc::Global;
use std::test::Fail;
use stores::open;
use test_devices::Coarse;

/// Why an image isn't opened, or `opened`.
pub(crate) fn refusal(disk: MemoryDisk) -> &'static str {
    match open(Coarse::new(disk)) {
        Ok(_) => "opened",
        Err((OpenFault::BadSize, _)) => "bad size",
        Err((OpenFault::NoLabel, _)) => "no label",
        Err((OpenFault::OtherVersion, _)) => "other version",
        Err((OpenFault::WrongCount, _)) => "wrong count",
        Err((OpenFault::Damaged, _)) => "damaged",
        Err((OpenFault::Device, _)) => "device",
    }
}

// A blank image of which one byte is another.
fn changed(alloc: Global, k: u32, at: usize, byte: u8) -> Result<MemoryDisk, Fail> {
    let mut disk = blank(alloc)?;
    let mut bytes = sector(&mut disk, k)?;
    bytes[at % 512] = byte;
    put(&mut disk, k, &bytes)?;
    Ok(disk)
}

#[test]
fn each_image_is_opened_or_refused(rt: HostRuntime) -> Result<(), Fail> {
    for (k, at, byte, want) in [
        (0, 0, b'G', "no label"),
        (0, 511, 1, "no label"),
        (0, 8, 2, "other version"),
        (0, 10, 33, "wrong count"),
        (8, 0, b'?', "opened"), // a torn gate
        (16, 0, 1, "opened"), // the record that doesn't count
        (24, 480, 0, "damaged"),
        (24, 0, 1, "damaged"),
        (112, 0, b'A', "damaged"),
        (113, 511, b'A', "damaged"),
        (114, 31, 0, "damaged"),
        (114, 32, 1, "opened"),
        (120, 0, b'A', "opened"), // a free place
    ] {
        let said = refusal(changed(rt.alloc(), k, at, byte)?);
        assert_same!(rt; said, want, "sector {k} byte {at}");
    }
    Ok(())
}

// A size that no image has is refused.
#[test]
fn sizes_of_no_image_are_refused(rt: HostRuntime) -> Result<(), Fail> {
    assert_same!(rt; refusal(MemoryDisk::new(rt.alloc(), 546)?), "bad size");
    Ok(())
}

// A block in whose place an older one came back, with its true tag.
#[test]
fn a_stale_block_is_damage(rt: HostRuntime) -> Result<(), Fail> {
    let mut store = opened(blank(rt.alloc())?, u64::MAX)?;
    spill(&mut store, 5, b'A')?;
    store.commit().map_err(|_| "commit failed")?;
    let mut disk = store.into_device().into_device().into_device();
    for k in 112..115 {
        let bytes = sector(&mut disk, k)?;
        put(&mut disk, k + 8, &bytes)?;
    }
    assert_same!(rt; refusal(disk), "damaged");
    Ok(())
}

// The image whose block 5 was saved once, with other bits in its gate.
fn with_gate(alloc: Global, change: u64) -> Result<MemoryDisk, Fail> {
    let mut store = opened(blank(alloc)?, u64::MAX)?;
    spill(&mut store, 5, b'A')?;
    store.commit().map_err(|_| "commit failed")?;
    let mut disk = store.into_device().into_device().into_device();
    let mut gate = sector(&mut disk, 8)?;
    for (byte, other) in gate.iter_mut().zip(change.to_le_bytes()) {
        *byte ^= other;
    }
    put(&mut disk, 8, &gate)?;
    Ok(disk)
}

// The first letter of block 5, as a store reads it that is opened over the disk.
fn letter(disk: MemoryDisk) -> Result<u8, &'static str> {
    let Ok(mut store) = open(Coarse::new(disk)) else {
        return Err("not opened");
    };
    if store.blocks() <= 5 {
        return Err("no block 5");
    }
    let mut bytes = [0; 1024];
    store.read_block(5, &mut bytes).map_err(|_| "not read")?;
    Ok(bytes[0])
}

// An open gate of which one bit changed, any of them, or 14 of its ones. With 16 of these gone it is read as closed.
#[test]
fn a_gate_that_changed_a_little_takes_no_save_away(rt: HostRuntime) -> Result<(), Fail> {
    for bit in 0..64_u32 {
        assert_same!(rt; letter(with_gate(rt.alloc(), 1 << bit)?)?, b'A', "bit {bit}");
    }
    assert_same!(rt; letter(with_gate(rt.alloc(), 0x0C4D_4F43)?)?, b'A');
    assert_same!(rt; letter(with_gate(rt.alloc(), 0x4D4D_4F43)?)?, b' ');
    Ok(())
}

#[test]
fn an_opening_syncs_once_and_writes_nothing(rt: HostRuntime) -> Result<(), Fail> {
    let disk = changed(rt.alloc(), 120, 0, b'A')?;
    let before = disk.counts();
    let Ok(store) = open(Coarse::new(disk)) else {
        return Err("not opened")?;
    };
    let disk = store.into_device().into_device();
    let after = disk.counts();
    assert_same!(rt; after.reads.saturating_sub(before.reads), 99);
    assert_same!(rt; after.writes, before.writes);
    assert_same!(rt; after.syncs.saturating_sub(before.syncs), 1);
    let mut disk = disk.stop(&[Fate::Lost; 8]);
    assert_same!(rt; sector(&mut disk, 120)?[0], b'A');
    Ok(())
}

#[test]
fn what_was_saved_is_opened(rt: HostRuntime) -> Result<(), Fail> {
    let Ok(mut store) = open(Coarse::new(blank(rt.alloc())?)) else {
        return Err("not opened")?;
    };
    spill(&mut store, 5, b'A')?;
    store.commit().map_err(|_| "commit failed")?;
    let Ok(store) = open(store.into_device()) else {
        return Err("not opened again")?;
    };
    let mut disk = store.into_device().into_device();
    assert_same!(rt; told(rt.alloc(), &mut disk)?.as_str(), " 5A");
    Ok(())
}
