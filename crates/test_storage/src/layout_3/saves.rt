// A save on a disk whose sectors lie in units of eight: what it writes, and what a stop leaves of it.
use crate::assertions::{Assert, assert_same};
use crate::layout_3::images::{blank, hex, opened, spill, told};
use crate::sectors::sector;
use journal::Store;
use sector_disk::{Fate, Fused, MemoryDisk, SectorDevice};
use std::alloc::Global;
use std::process::Abort;
use std::test::Fail;
use test_devices::Coarse;

// The sums of the tags, all blank, with block 5 of A, and then with block 5 of B and block 31 of C.
const BLANK: &str = "b0ca587f36db23d7f163c27ba2fcf5c2fb4c453a57baae81777a9b27a1016e78";

const WITH_A: &str = "c5cea15dc496691a9f2f5f534166b89eb2018ffcffd763222bd96af840a95a33";

const WITH_B_AND_C: &str = "e552702657e332aa580641f220634276a977721f6a9b3253cb93a17219db1050";

// A record with these first bytes, zeros, and this sum.
fn is_record(
    rt: &impl Abort,
    alloc: Global,
    disk: &mut MemoryDisk,
    k: u32,
    bits: &[u8; 4],
    sum: &str,
) -> Result<(), Fail> {
    let record = sector(disk, k)?;
    let (front, rest) = record.split_at(4);
    let (zeros, end) = rest.split_at(476);
    assert_same!(rt; front, bits.as_slice(), "record {k}");
    assert_same!(rt; zeros, [0; 476].as_slice(), "record {k}");
    assert_same!(rt; hex(alloc, end)?.as_str(), sum, "record {k}");
    Ok(())
}

// A gate that begins with these eight bytes, and has this sum and zeros behind it.
fn is_gate(
    rt: &impl Abort,
    alloc: Global,
    disk: &mut MemoryDisk,
    word: &[u8; 8],
    sum: &str,
) -> Result<(), Fail> {
    let gate = sector(disk, 8)?;
    let (front, rest) = gate.split_at(8);
    let (named, zeros) = rest.split_at(32);
    assert_same!(rt; front, word.as_slice());
    assert_same!(rt; hex(alloc, named)?.as_str(), sum);
    assert_same!(rt; zeros, [0; 472].as_slice());
    Ok(())
}

fn saved(store: &mut Store<Fused<Coarse>>) -> Result<(), &'static str> {
    store.commit().map_err(|_| "commit failed")
}

fn disk_of(store: Store<Fused<Coarse>>) -> MemoryDisk {
    store.into_device().into_device().into_device()
}

#[test]
fn a_blank_image_is_whole(rt: HostRuntime) -> Result<(), Fail> {
    let mut disk = blank(rt.alloc())?;
    is_record(&rt, rt.alloc(), &mut disk, 24, &[0; 4], BLANK)?;
    assert_same!(rt; told(rt.alloc(), &mut disk)?.as_str(), "");
    Ok(())
}

#[test]
fn a_save_writes_free_places_the_other_record_and_the_gate(rt: HostRuntime) -> Result<(), Fail> {
    let mut store = opened(blank(rt.alloc())?, u64::MAX)?;
    spill(&mut store, 5, b'A')?;
    saved(&mut store)?;
    let mut disk = disk_of(store);
    assert_same!(rt; sector(&mut disk, 120)?, [b'A'; 512]);
    assert_same!(rt; sector(&mut disk, 121)?, [b'A'; 512]);
    let tagged = sector(&mut disk, 122)?;
    let (tag, _) = tagged.split_at(34);
    assert_same!(rt;
        hex(rt.alloc(), tag)?.as_str(),
        "80de12f98d73883f97fc8008980545085be0be5b15c150c8ebb20d8218cc91820000"
    );
    assert_same!(rt; sector(&mut disk, 112)?, [b' '; 512]);
    is_gate(&rt, rt.alloc(), &mut disk, b"COMMIT83", WITH_A)?;
    is_record(&rt, rt.alloc(), &mut disk, 16, &[0x20, 0, 0, 0], WITH_A)?;
    is_record(&rt, rt.alloc(), &mut disk, 24, &[0; 4], BLANK)?;
    assert_same!(rt; told(rt.alloc(), &mut disk)?.as_str(), " 5A");
    Ok(())
}

// The tag stands beside the halves before the save, and so does that of a second spill; what counts is as it was.
#[test]
fn a_spill_writes_its_tag(rt: HostRuntime) -> Result<(), Fail> {
    let mut store = opened(blank(rt.alloc())?, u64::MAX)?;
    spill(&mut store, 5, b'B')?;
    spill(&mut store, 5, b'A')?;
    let mut disk = disk_of(store);
    assert_same!(rt; sector(&mut disk, 120)?, [b'A'; 512]);
    let tagged = sector(&mut disk, 122)?;
    let (tag, _) = tagged.split_at(34);
    assert_same!(rt;
        hex(rt.alloc(), tag)?.as_str(),
        "80de12f98d73883f97fc8008980545085be0be5b15c150c8ebb20d8218cc91820000"
    );
    is_gate(&rt, rt.alloc(), &mut disk, &[0; 8], BLANK)?;
    is_record(&rt, rt.alloc(), &mut disk, 24, &[0; 4], BLANK)?;
    assert_same!(rt; told(rt.alloc(), &mut disk)?.as_str(), "");
    Ok(())
}

// A block that is spilled twice is exchanged twice in the sum.
#[test]
fn a_block_spilled_again_is_saved_with_its_last_tag(rt: HostRuntime) -> Result<(), Fail> {
    let mut store = opened(blank(rt.alloc())?, u64::MAX)?;
    spill(&mut store, 5, b'B')?;
    spill(&mut store, 5, b'A')?;
    saved(&mut store)?;
    let mut disk = disk_of(store);
    is_record(&rt, rt.alloc(), &mut disk, 16, &[0x20, 0, 0, 0], WITH_A)?;
    assert_same!(rt; told(rt.alloc(), &mut disk)?.as_str(), " 5A");
    Ok(())
}

#[test]
fn the_next_save_goes_back(rt: HostRuntime) -> Result<(), Fail> {
    let mut store = opened(blank(rt.alloc())?, u64::MAX)?;
    spill(&mut store, 5, b'A')?;
    saved(&mut store)?;
    spill(&mut store, 31, b'C')?;
    spill(&mut store, 5, b'B')?;
    saved(&mut store)?;
    let mut disk = disk_of(store);
    assert_same!(rt; sector(&mut disk, 112)?, [b'B'; 512]);
    assert_same!(rt; sector(&mut disk, 536)?, [b'C'; 512]);
    is_gate(&rt, rt.alloc(), &mut disk, &[0; 8], WITH_B_AND_C)?;
    is_record(
        &rt,
        rt.alloc(),
        &mut disk,
        24,
        &[0, 0, 0, 0x80],
        WITH_B_AND_C,
    )?;
    assert_same!(rt; told(rt.alloc(), &mut disk)?.as_str(), " 5B 31C");
    Ok(())
}

// What a stop leaves that tears one of the unsynced sectors, and keeps the others or loses them.
fn left(alloc: Global, disk: &MemoryDisk, torn: usize, others: Fate) -> Result<String, Fail> {
    let mut fates = [others; 16];
    fates[torn % 16] = Fate::Torn([b'?'; 512]);
    told(alloc, &mut disk.try_clone(alloc)?.stop(&fates))
}

// Begins a save of block 5, of which the calls from this one on fail.
fn save_until(alloc: Global, call: u64) -> Result<MemoryDisk, Fail> {
    let mut store = opened(blank(alloc)?, call)?;
    if spill(&mut store, 5, b'A').is_ok() {
        let _ = store.commit();
    }
    Ok(disk_of(store))
}

// Call 7 writes the gate, and call 8 syncs it.
fn is_allowed(call: u64, text: &str) -> bool {
    match text {
        "" => call <= 8,
        " 5A" => call >= 8,
        _ => false,
    }
}

// A spill and a save of one block make 8 calls: a read and 3 writes, and then 2 writes and 2 syncs.
#[test]
fn a_stop_leaves_all_or_nothing(rt: HostRuntime) -> Result<(), Fail> {
    for call in 1..=9 {
        let disk = save_until(rt.alloc(), call)?;
        for torn in [0, 1, 2, 7, 8, 15] {
            for others in [Fate::Kept, Fate::Lost] {
                let text = left(rt.alloc(), &disk, torn, others)?;
                assert!(rt;
                    is_allowed(call, text.as_str()),
                    "before call {call}:{text}"
                );
            }
        }
    }
    Ok(())
}
