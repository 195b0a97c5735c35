// Images are copied and salvaged, stopped at each call of either device.
use crate::assertions::{Assert, assert_same};
use crate::layout_2::images::record;
use image_care::{copy, salvage};
use journal::layout;
use recovery::{OpenFault, UpgradeFault};
use sector_disk::{Counts, Fate, Fused, MemoryDisk, SectorDevice};
use std::test::Fail;
use test_stops::disks::{SECTORS, check, formatted, formatted_with, opened, put, sector, spill};
use test_stops::fates::{count_of_stops, stopped, unsynced_sectors};
use test_stops::fillings::{left_in, shown};
use test_stops::medium::OLDER;

// An open gate.
fn gate() -> [u8; 512] {
    let mut gate = [0; 512];
    gate[..8].copy_from_slice(b"COMMIT83");
    gate
}

// An image whose save of blocks 1 and 2, with bytes 65 and 66, has its gate open and synced. In the homes they are blank, or
// torn. Block 5 was saved before, with bytes 69.
fn under_way(rt: &HostRuntime) -> Result<MemoryDisk, Fail> {
    let mut disk = formatted(rt)?;
    put(&mut disk, 1, &gate())?;
    put(&mut disk, 2, &record(&[6], &[65, 66]))?;
    for (k, byte) in [
        (5, 65),
        (6, 65),
        (7, 66),
        (8, 66),
        (70, 1),
        (71, 2),
        (77, 69),
        (78, 69),
    ] {
        put(&mut disk, k, &[byte; 512])?;
    }
    Ok(disk.stop(&[Fate::Kept; SECTORS as usize]))
}

// An image of so many blocks with 67 in block 1, or zeros.
fn before(rt: &HostRuntime, is_image: bool, blocks: u16) -> Result<MemoryDisk, Fail> {
    if !is_image {
        return Ok(MemoryDisk::new(rt.alloc(), 3 + 4 * blocks as u32)?);
    }
    let mut store = opened(formatted_with(rt, blocks)?)?;
    spill(&mut store, 1, 67)?;
    store.commit()?;
    Ok(store.into_device())
}

// A copy, or a salvage.
fn make<A: SectorDevice, B: SectorDevice>(
    is_salvage: bool,
    old: &mut A,
    new: &mut B,
) -> Result<(), UpgradeFault> {
    if is_salvage {
        match salvage(old, new) {
            Ok(_) => Ok(()),
            Err(fault) => Err(fault),
        }
    } else {
        copy(old, new)
    }
}

// What an image holds, as `1A 2B`, or why it is refused.
fn held(rt: &HostRuntime, disk: MemoryDisk) -> Result<String, Fail> {
    Ok(shown(rt.alloc(), left_in(disk)?)?)
}

// Whether two disks hold the same.
fn are_same(one: &mut MemoryDisk, two: &mut MemoryDisk) -> Result<bool, Fail> {
    for k in 0..one.sectors() {
        if sector(one, k)? != sector(two, k)? {
            return Ok(false);
        }
    }
    Ok(one.sectors() == two.sectors())
}

// The reads, writes and syncs since.
fn since(now: Counts, then: Counts) -> [u64; 3] {
    [
        now.reads.saturating_sub(then.reads),
        now.writes.saturating_sub(then.writes),
        now.syncs.saturating_sub(then.syncs),
    ]
}

// Of the old image a copy reads the label, the gate, the record, the two slots that it lists, and 32 blocks; a salvage all of
// these but the label. On the new one the label is read; gate, record, each home and the label are written; and a sync comes
// before the first write, before the label and after it. A good label that stands there is cleared first and synced.
#[test]
fn a_copy_has_the_blocks_of_a_save_that_was_under_way(rt: HostRuntime) -> Result<(), Fail> {
    for (is_salvage, is_image, blocks, reads, writes, syncs) in [
        (false, false, 32, 71, 67, 3),
        (false, true, 32, 71, 68, 4),
        (false, false, 40, 71, 83, 3),
        (false, true, 40, 71, 84, 4),
        (true, false, 32, 70, 67, 3),
        (true, true, 32, 70, 68, 4),
    ] {
        let mut old = under_way(&rt)?;
        let mut new = before(&rt, is_image, blocks)?;
        let (old_before, new_before) = (old.counts(), new.counts());
        make(is_salvage, &mut old, &mut new)?;
        assert_same!(rt; since(old.counts(), old_before), [reads, 0, 0]);
        assert_same!(rt; since(new.counts(), new_before), [1, writes, syncs]);
        assert_same!(rt; sector(&mut new, 0)?, layout::label(blocks));
        assert_same!(rt; held(&rt, new)?.as_str(), "1A 2B 5E");
        check(are_same(&mut old, &mut under_way(&rt)?)?, "the old image")?;
    }
    Ok(())
}

// The refusal of a copy or a salvage from so many sectors with this label and record under an open gate to so many sectors.
fn refusal(
    rt: &HostRuntime,
    is_salvage: bool,
    sectors: u32,
    head: (&[u8; 512], &[u8; 512]),
    new_sectors: u32,
) -> Result<Option<UpgradeFault>, Fail> {
    let (label, listed) = head;
    let mut old = MemoryDisk::new(rt.alloc(), sectors)?;
    put(&mut old, 0, label)?;
    put(&mut old, 1, &gate())?;
    put(&mut old, 2, listed)?;
    let mut new = MemoryDisk::new(rt.alloc(), new_sectors)?;
    let old_before = old.counts();
    let outcome = make(is_salvage, &mut old, &mut new);
    let [_, writes, syncs] = since(old.counts(), old_before);
    check(
        writes == 0 && syncs == 0 && new.counts() == Counts::default(),
        "nothing written before a refusal",
    )?;
    Ok(outcome.err())
}

#[test]
fn other_images_are_not_copied(rt: HostRuntime) -> Result<(), Fail> {
    let good = layout::label(32);
    let listed = record(&[], &[]);
    for (old, label, listed, new, fault) in [
        (
            130,
            good,
            listed,
            131,
            UpgradeFault::Old(OpenFault::BadSize),
        ),
        (
            130,
            good,
            listed,
            130,
            UpgradeFault::Old(OpenFault::BadSize),
        ),
        (
            131,
            good,
            listed,
            134,
            UpgradeFault::New(OpenFault::BadSize),
        ),
        (
            131,
            good,
            listed,
            127,
            UpgradeFault::New(OpenFault::BadSize),
        ),
        (
            135,
            good,
            listed,
            131,
            UpgradeFault::New(OpenFault::BadSize),
        ),
        (
            131,
            [0; 512],
            listed,
            135,
            UpgradeFault::Old(OpenFault::NoLabel),
        ),
        (
            131,
            layout::label_1(32),
            listed,
            135,
            UpgradeFault::Old(OpenFault::OtherVersion),
        ),
        (
            131,
            layout::label(33),
            listed,
            135,
            UpgradeFault::Old(OpenFault::WrongCount),
        ),
        (
            131,
            good,
            [0; 512],
            135,
            UpgradeFault::Old(OpenFault::Damaged),
        ),
    ] {
        assert_same!(rt;
            refusal(&rt, false, old, (&label, &listed), new)?,
            Some(fault)
        );
    }
    Ok(())
}

#[test]
fn a_salvage_is_refused_by_the_sizes_alone(rt: HostRuntime) -> Result<(), Fail> {
    for (old, new, fault) in [
        (130, 130, UpgradeFault::Old(OpenFault::BadSize)),
        (131, 135, UpgradeFault::New(OpenFault::BadSize)),
        (135, 131, UpgradeFault::New(OpenFault::BadSize)),
    ] {
        assert_same!(rt;
            refusal(&rt, true, old, (&[0; 512], &[0; 512]), new)?,
            Some(fault)
        );
    }
    Ok(())
}

// The homes of blocks 1 and 2 hold two bytes each, which is shown as `?`.
#[test]
fn a_damaged_image_is_salvaged(rt: HostRuntime) -> Result<(), Fail> {
    let bad = record(&[6], &[65, 67]);
    let other = record(&[4], &[66]);
    for (k, bytes, found) in [
        (0, [0; 512], "1A 2B 5E"),
        (0, layout::label_1(32), "1A 2B 5E"),
        (2, bad, "1? 2? 5E"),
        (2, [0; 512], "1? 2? 5E"),
        (2, other, "1? 2B 5E"),
        (1, [0; 512], "1? 2? 5E"),
    ] {
        let mut old = under_way(&rt)?;
        put(&mut old, k, &bytes)?;
        let mut new = before(&rt, true, 32)?;
        salvage(&mut old, &mut new)?;
        assert_same!(rt; held(&rt, new)?.as_str(), found, "another sector {k}");
    }
    Ok(())
}

// Makes an image of 32 blocks by a salvage, or one of 40 by a copy, over devices that fail from call `k` or `m` on: whether it
// was done, and the disks.
fn make_until(
    rt: &HostRuntime,
    is_salvage: bool,
    is_image: bool,
    k: u64,
    m: u64,
) -> Result<(bool, MemoryDisk, MemoryDisk), Fail> {
    let blocks = if is_salvage { 32 } else { 40 };
    let mut old = Fused::from(under_way(rt)?, k.max(1));
    let mut new = Fused::from(before(rt, is_image, blocks)?, m.max(1));
    let done = match make(is_salvage, &mut old, &mut new) {
        Ok(()) => true,
        Err(UpgradeFault::Old(fault)) => {
            check(fault == OpenFault::Device && k < 1_000, "the old one fails")?;
            false
        }
        Err(UpgradeFault::New(fault)) => {
            check(fault == OpenFault::Device && m < 1_000, "the new one fails")?;
            false
        }
    };
    Ok((done, old.into_device(), new.into_device()))
}

// What stops leave where the old device fails from call `k` on, or the new one from call `m` on: whether it was done.
fn stops_at(
    rt: &HostRuntime,
    is_salvage: bool,
    is_image: bool,
    k: u64,
    m: u64,
) -> Result<bool, Fail> {
    let (done, mut old, new) = make_until(rt, is_salvage, is_image, k, m)?;
    check(
        unsynced_sectors(rt, &old, OLDER)?.is_empty() && are_same(&mut old, &mut under_way(rt)?)?,
        "the old image stays",
    )?;
    let sectors = unsynced_sectors(rt, &new, OLDER)?;
    for n in 0..count_of_stops(&sectors) {
        let new = stopped(rt, &new, &sectors, n)?;
        match held(rt, new)?.as_str() {
            "1A 2B 5E" => {}
            "1C" => check(is_image && !done, "the image before")?,
            "NoLabel" => check(!done, "a label at the end")?,
            _ => return Err("half an image")?,
        }
    }
    Ok(done)
}

// Stops before each of so many calls of the old device, and after them.
fn stops_of_the_old_device(rt: &HostRuntime, is_salvage: bool, calls: u64) -> Result<(), Fail> {
    for k in 1..=calls.saturating_add(1) {
        let done = stops_at(rt, is_salvage, false, k, 1_000)?;
        check(done == (k > calls), "done at last")?;
    }
    Ok(())
}

// Stops before each of so many calls of the new device, and after them.
fn stops_of_the_new_device(
    rt: &HostRuntime,
    is_salvage: bool,
    is_image: bool,
    calls: u64,
) -> Result<(), Fail> {
    for m in 1..=calls.saturating_add(1) {
        let done = stops_at(rt, is_salvage, is_image, 1_000, m)?;
        check(done == (m > calls), "done at last")?;
    }
    Ok(())
}

#[test]
fn a_copy_stopped_at_a_read_of_the_old_image(rt: HostRuntime) -> Result<(), Fail> {
    stops_of_the_old_device(&rt, false, 71)
}

#[test]
fn a_salvage_stopped_at_a_read_of_the_old_image(rt: HostRuntime) -> Result<(), Fail> {
    stops_of_the_old_device(&rt, true, 70)
}

// A read, 83 writes of 40 blocks and 3 syncs.
#[test]
fn a_copy_stopped_over_zeros(rt: HostRuntime) -> Result<(), Fail> {
    stops_of_the_new_device(&rt, false, false, 87)
}

#[test]
fn a_copy_stopped_over_an_image(rt: HostRuntime) -> Result<(), Fail> {
    stops_of_the_new_device(&rt, false, true, 89)
}

// A read, 68 writes of 32 blocks and 4 syncs.
#[test]
fn a_salvage_stopped_over_an_image(rt: HostRuntime) -> Result<(), Fail> {
    stops_of_the_new_device(&rt, true, true, 73)
}
