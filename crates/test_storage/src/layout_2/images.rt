// The bytes of an image, and which images are refused.
use crate::assertions::{Assert, assert_same};
use crate::contents::{are_full, block_is_full, holds};
use journal::layout;
use recovery::{OpenFault, format, open};
use sector_disk::{Fused, MemoryDisk, SectorDevice};
use sha2::{Digest, Sha256};
use std::process::Abort;
use std::test::Fail;
use test_stops::disks::{BLOCKS, SECTORS, formatted, opened, put, sector, spill};

/// A commit record with these first bytes, and the digest that belongs to it over slots that are full of these bytes.
pub(crate) fn record(bits: &[u8], slots: &[u8]) -> [u8; 512] {
    let mut bytes = [0; 512];
    for (byte, bit) in bytes.iter_mut().zip(bits.iter()).take(480) {
        *byte = *bit;
    }
    let (listed, _) = bytes.split_at(480);
    let mut hasher = Sha256::new_with_prefix(listed);
    for byte in slots {
        hasher.update([*byte; 1024]);
    }
    let digest = hasher.finalize();
    for (byte, new) in bytes.iter_mut().skip(480).zip(digest.iter()) {
        *byte = *new;
    }
    bytes
}

#[test]
fn a_formatted_image_is_blank(rt: HostRuntime) -> Result<(), Fail> {
    let mut label = [0; 512];
    label[..12].copy_from_slice(b"F83BLOCK\x02\x00\x20\x00");
    let mut disk = formatted(&rt)?;
    holds(&rt, &mut disk, 0, &label)?;
    are_full(&rt, &mut disk, &[(1, 2, 0), (67, 130, b' ')])
}

#[test]
fn a_format_leaves_the_slots(rt: HostRuntime) -> Result<(), Fail> {
    let mut disk = MemoryDisk::new(rt.alloc(), SECTORS)?;
    for k in 0..SECTORS {
        put(&mut disk, k, &[7; 512])?;
    }
    let Ok(store) = format(disk, BLOCKS) else {
        return Err("not formatted")?;
    };
    let mut disk = store.into_device();
    are_full(&rt, &mut disk, &[(3, 66, 7), (67, 130, b' ')])
}

#[test]
fn a_spill_writes_its_slot_alone(rt: HostRuntime) -> Result<(), Fail> {
    let mut store = opened(formatted(&rt)?)?;
    spill(&mut store, 1, 65)?;
    block_is_full(&rt, &mut store, 1, 65)?;
    let mut disk = store.into_device();
    holds(&rt, &mut disk, 0, &layout::label(BLOCKS))?;
    let rows = [(1, 4, 0), (5, 6, 65), (7, 66, 0), (67, 130, b' ')];
    are_full(&rt, &mut disk, &rows)
}

#[test]
fn a_commit_writes_record_and_homes(rt: HostRuntime) -> Result<(), Fail> {
    let mut store = opened(formatted(&rt)?)?;
    spill(&mut store, 1, 65)?;
    spill(&mut store, 2, 66)?;
    store.commit()?;
    let mut disk = store.into_device();
    holds(&rt, &mut disk, 2, &record(&[6], &[65, 66]))?;
    let rows = [
        (1, 1, 0),
        (67, 68, b' '),
        (69, 70, 65),
        (71, 72, 66),
        (73, 130, b' '),
    ];
    are_full(&rt, &mut disk, &rows)
}

// SHA-256 of a byte 2, 479 zeros, and 1,024 bytes 65.
const DIGEST: [u8; 32] = [
    0xb8, 0xa4, 0xe9, 0xa9, 0x79, 0xa6, 0x82, 0xc5, 0x92, 0xbd, 0x59, 0x46, 0x03, 0xdf, 0xb1, 0xcb,
    0xcf, 0x50, 0xb2, 0xc5, 0x8f, 0x19, 0xb3, 0xce, 0x77, 0x7d, 0x09, 0x40, 0x60, 0xd2, 0x16, 0xbc,
];

// An image whose save of block 1 has been done.
fn saved(rt: &HostRuntime) -> Result<MemoryDisk, Fail> {
    let mut store = opened(formatted(rt)?)?;
    spill(&mut store, 1, 65)?;
    store.commit()?;
    Ok(store.into_device())
}

#[test]
fn a_record_ends_with_its_digest(rt: HostRuntime) -> Result<(), Fail> {
    let mut listed = [0; 512];
    listed[0] = 2;
    listed[480..].copy_from_slice(&DIGEST);
    let mut disk = saved(&rt)?;
    holds(&rt, &mut disk, 2, &listed)
}

// The opening makes three calls and two spills four; then come the four reads of the digest, the record, a sync, the gate and a
// sync.
#[test]
fn a_gate_is_opened_with_zeros_after_its_name(rt: HostRuntime) -> Result<(), Fail> {
    let mut store = opened(Fused::from(formatted(&rt)?, 16))?;
    spill(&mut store, 1, 65)?;
    spill(&mut store, 2, 66)?;
    assert!(rt; store.commit().is_err());
    let mut disk = store.into_device().into_device().stop(&[]);
    holds(&rt, &mut disk, 1, &open_gate())?;
    assert_same!(rt; sector(&mut disk, 2)?[0], 6);
    are_full(&rt, &mut disk, &[(69, 69, b' ')])
}

/// Compares why an image isn't opened.
fn is_refused(rt: &impl Abort, disk: MemoryDisk, fault: OpenFault) -> Result<(), Fail> {
    let sectors = disk.sectors();
    assert_same!(rt; opened(disk).err(), Some(fault), "{sectors} sectors");
    Ok(())
}

#[test]
fn other_images_are_refused(rt: HostRuntime) -> Result<(), Fail> {
    let alloc = rt.alloc();
    for (sectors, blocks) in [(130, 32), (127, 31)] {
        let refused = format(MemoryDisk::new(alloc, sectors)?, blocks).map_err(|e| e.0);
        assert_same!(rt;
            refused.err(),
            Some(OpenFault::BadSize),
            "{sectors} sectors"
        );
    }
    for (sectors, fault) in [
        (0, OpenFault::BadSize),
        (127, OpenFault::BadSize),
        (130, OpenFault::BadSize),
        (131, OpenFault::NoLabel),
        (15_363, OpenFault::NoLabel),
        (15_367, OpenFault::BadSize),
    ] {
        is_refused(&rt, MemoryDisk::new(alloc, sectors)?, fault)?;
    }
    let good = layout::label(32);
    for (at, byte, fault) in [
        (0, b'f', OpenFault::NoLabel),
        (8, 1, OpenFault::OtherVersion),
        (9, 1, OpenFault::OtherVersion),
        (10, 33, OpenFault::WrongCount),
        (11, 1, OpenFault::WrongCount),
        (12, 1, OpenFault::NoLabel),
        (511, 1, OpenFault::NoLabel),
    ] {
        let mut label = good;
        if at < 512 {
            label[at] = byte;
        }
        let mut disk = MemoryDisk::new(alloc, SECTORS)?;
        put(&mut disk, 0, &label)?;
        is_refused(&rt, disk, fault)?;
    }
    Ok(())
}

#[test]
fn the_largest_image_is_formatted_and_opened(rt: HostRuntime) -> Result<(), Fail> {
    let Ok(store) = format(MemoryDisk::new(rt.alloc(), 15_363)?, 3_840) else {
        return Err("not formatted")?;
    };
    let mut store = opened(store.into_device())?;
    assert_same!(rt; store.blocks(), 3_840);
    spill(&mut store, 3_839, 65)?;
    store.commit()?;
    block_is_full(&rt, &mut store, 3_839, 65)?;
    let mut disk = store.into_device();
    assert_same!(rt; sector(&mut disk, 2)?[479], 128);
    are_full(&rt, &mut disk, &[(15_362, 15_362, 65)])
}

fn open_gate() -> [u8; 512] {
    let mut gate = [0; 512];
    gate[..8].copy_from_slice(b"COMMIT83");
    gate
}

#[test]
fn an_open_gate_is_obeyed(rt: HostRuntime) -> Result<(), Fail> {
    let mut disk = formatted(&rt)?;
    put(&mut disk, 1, &open_gate())?;
    put(&mut disk, 2, &record(&[2], &[65]))?;
    put(&mut disk, 5, &[65; 512])?;
    put(&mut disk, 6, &[65; 512])?;
    let mut store = opened(disk)?;
    block_is_full(&rt, &mut store, 1, 65)?;
    let mut disk = store.into_device();
    are_full(&rt, &mut disk, &[(69, 70, 65), (1, 1, 0)])
}

// Whether these two disks hold the same.
fn is_same(one: &mut MemoryDisk, two: &mut MemoryDisk) -> Result<bool, Fail> {
    let mut same = one.sectors() == two.sectors();
    for k in 0..one.sectors().min(two.sectors()) {
        same = same && sector(one, k)? == sector(two, k)?;
    }
    Ok(same)
}

// The image is refused as damaged, with no write and with all sectors as they were.
fn is_damaged(rt: &HostRuntime, disk: MemoryDisk) -> Result<bool, Fail> {
    let mut before = disk.try_clone(rt.alloc())?;
    let writes = disk.counts().writes;
    match open(disk) {
        Ok(_) => Ok(false),
        Err((fault, mut after)) => Ok(
            fault == OpenFault::Damaged
                && after.counts().writes == writes
                && is_same(&mut before, &mut after)?,
        ),
    }
}

#[test]
fn a_record_of_other_slots_is_refused(rt: HostRuntime) -> Result<(), Fail> {
    for k in [5, 6] {
        let mut disk = saved(&rt)?;
        put(&mut disk, 1, &open_gate())?;
        let mut half = sector(&mut disk, k)?;
        half[0] = 66;
        put(&mut disk, k, &half)?;
        assert!(rt; is_damaged(&rt, disk)?);
    }
    Ok(())
}

#[test]
fn a_record_with_another_bit_is_refused(rt: HostRuntime) -> Result<(), Fail> {
    // Another block, none, a bit past the last block, and two bytes of the digest.
    for (at, byte) in [(0, 4), (0, 0), (479, 128), (480, 0), (511, 0)] {
        let mut disk = saved(&rt)?;
        put(&mut disk, 1, &open_gate())?;
        let mut listed = sector(&mut disk, 2)?;
        if at < 512 {
            listed[at] = byte;
        }
        put(&mut disk, 2, &listed)?;
        assert!(rt; is_damaged(&rt, disk)?);
    }
    Ok(())
}

// Under a closed gate neither slots nor record count.
#[test]
fn under_a_closed_gate_other_slots_are_harmless(rt: HostRuntime) -> Result<(), Fail> {
    let mut disk = saved(&rt)?;
    put(&mut disk, 5, &[66; 512])?;
    put(&mut disk, 2, &[255; 512])?;
    let mut store = opened(disk)?;
    block_is_full(&rt, &mut store, 1, 65)
}

#[test]
fn a_record_of_all_bits_and_no_digest_is_refused(rt: HostRuntime) -> Result<(), Fail> {
    let mut disk = formatted(&rt)?;
    put(&mut disk, 1, &open_gate())?;
    put(&mut disk, 2, &[255; 512])?;
    for k in 3..67 {
        put(&mut disk, k, &[65; 512])?;
    }
    assert!(rt; is_damaged(&rt, disk)?);
    Ok(())
}

#[test]
fn a_record_of_all_bits_lists_every_block_and_no_more(rt: HostRuntime) -> Result<(), Fail> {
    let mut disk = formatted(&rt)?;
    put(&mut disk, 1, &open_gate())?;
    put(&mut disk, 2, &record(&[255; 480], &[65; 32]))?;
    for k in 3..67 {
        put(&mut disk, k, &[65; 512])?;
    }
    let before = disk.counts();
    let mut store = opened(disk)?;
    for b in 0..BLOCKS {
        block_is_full(&rt, &mut store, b, 65)?;
    }
    let after = store.into_device().counts();
    let writes = after.writes.saturating_sub(before.writes);
    let syncs = after.syncs.saturating_sub(before.syncs);
    assert!(rt;
        writes <= 65 && syncs <= 3,
        "{writes} writes and {syncs} syncs"
    );
    Ok(())
}

// A gate that isn't open is closed, whatever it holds, and isn't written: the opening syncs once.
#[test]
fn a_closed_gate_is_left_as_it_is(rt: HostRuntime) -> Result<(), Fail> {
    let mut disk = formatted(&rt)?;
    let mut gate = open_gate();
    gate[7] = b'4';
    put(&mut disk, 1, &gate)?;
    put(&mut disk, 2, &[255; 512])?;
    let before = disk.counts();
    let mut store = opened(disk)?;
    block_is_full(&rt, &mut store, 1, b' ')?;
    let mut disk = store.into_device();
    let after = disk.counts();
    let calls = (after.writes, after.syncs);
    assert_same!(rt; calls, (before.writes, before.syncs.saturating_add(1)));
    holds(&rt, &mut disk, 1, &gate)
}

// What is there is synced before anything is read of it: where the second call fails, one sync was made, and no read.
#[test]
fn an_opening_begins_with_a_sync(rt: HostRuntime) -> Result<(), Fail> {
    let disk = formatted(&rt)?;
    let before = disk.counts();
    let Err((fault, fused)) = open(Fused::once(disk, 2)) else {
        return Err("opened")?;
    };
    let after = fused.into_device().counts();
    let calls = (after.reads, after.syncs);
    assert_same!(rt; fault, OpenFault::Device);
    assert_same!(rt; calls, (before.reads, before.syncs.saturating_add(1)));
    Ok(())
}

// 32 blocks: a record, an open gate, 64 sectors of homes and a closed gate.
#[test]
fn a_commit_counts_its_calls(rt: HostRuntime) -> Result<(), Fail> {
    let mut store = opened(formatted(&rt)?)?;
    for b in 0..BLOCKS {
        spill(&mut store, b, 65)?;
    }
    let before = store.into_device().counts();
    let mut store = opened(formatted(&rt)?)?;
    for b in 0..BLOCKS {
        spill(&mut store, b, 65)?;
    }
    store.commit()?;
    store.commit()?;
    let after = store.into_device().counts();
    let writes = after.writes.saturating_sub(before.writes);
    let syncs = after.syncs.saturating_sub(before.syncs);
    assert_same!(rt; (writes, syncs), (67, 4));
    Ok(())
}
