// Images of layout 1, written sector by sector, are upgraded.
use crate::assertions::{Assert, assert_same};
use crate::contents::holds;
use journal::layout;
use recovery::{OpenFault, UpgradeFault, format, upgrade};
use sector_disk::{Fate, Fused, MemoryDisk};
use std::test::Fail;
use test_stops::disks::{BLOCKS, SECTORS, block, check, formatted, opened, put, sector, spill};
use test_stops::fates::{count_of_stops, stopped, unsynced_sectors};
use test_stops::fillings::{left_in, shown};
use test_stops::medium::OLDER;

// An image of layout 1 whose save of blocks 1 and 2, with bytes 65 and 66, has its gate open and synced. In the homes they
// are blank, or torn.
fn old_image(rt: &HostRuntime) -> Result<MemoryDisk, Fail> {
    let mut disk = MemoryDisk::new(rt.alloc(), SECTORS)?;
    for k in 67..SECTORS {
        put(&mut disk, k, &[b' '; 512])?;
    }
    let mut listed = [0; 512];
    listed[0] = 6;
    let mut gate = [0; 512];
    gate[..8].copy_from_slice(b"COMMIT83");
    put(&mut disk, 0, &layout::label_1(BLOCKS))?;
    put(&mut disk, 1, &gate)?;
    put(&mut disk, 2, &listed)?;
    for (k, byte) in [(5, 65), (6, 65), (7, 66), (8, 66), (70, 1), (71, 2)] {
        put(&mut disk, k, &[byte; 512])?;
    }
    Ok(disk.stop(&[Fate::Kept; SECTORS as usize]))
}

// An image of layout 2 with 67 in block 1, or zeros.
fn before(rt: &HostRuntime, is_image: bool) -> Result<MemoryDisk, Fail> {
    if !is_image {
        return Ok(MemoryDisk::new(rt.alloc(), SECTORS)?);
    }
    let mut store = opened(formatted(rt)?)?;
    spill(&mut store, 1, 67)?;
    store.commit()?;
    Ok(store.into_device())
}

// What an image holds, as `1A 2B`, or why it is refused.
fn held(rt: &HostRuntime, disk: MemoryDisk) -> Result<String, Fail> {
    Ok(shown(rt.alloc(), left_in(disk)?)?)
}

// What an image of layout 1 holds.
fn old_held(rt: &HostRuntime, mut old: MemoryDisk) -> Result<String, Fail> {
    let mut new = before(rt, false)?;
    upgrade(&mut old, &mut new)?;
    held(rt, new)
}

#[test]
fn an_old_image_is_upgraded(rt: HostRuntime) -> Result<(), Fail> {
    let mut old = old_image(&rt)?;
    let mut new = before(&rt, false)?;
    let (old_before, new_before) = (old.counts(), new.counts());
    upgrade(&mut old, &mut new)?;
    let (old_after, new_after) = (old.counts(), new.counts());
    // The writes and syncs of the old image, and those of the new one.
    let calls = [
        old_after.writes.saturating_sub(old_before.writes),
        old_after.syncs.saturating_sub(old_before.syncs),
        new_after.writes.saturating_sub(new_before.writes),
        new_after.syncs.saturating_sub(new_before.syncs),
    ];
    assert_same!(rt; calls, [5, 3, 67, 3]);
    holds(&rt, &mut new, 0, &layout::label(BLOCKS))?;
    holds(&rt, &mut old, 0, &layout::label_1(BLOCKS))?;
    assert_same!(rt; held(&rt, new)?.as_str(), "1A 2B");
    assert_same!(rt; old_held(&rt, old)?.as_str(), "1A 2B");
    Ok(())
}

#[test]
fn the_largest_old_image_is_upgraded(rt: HostRuntime) -> Result<(), Fail> {
    let mut old = MemoryDisk::new(rt.alloc(), 8_195)?;
    put(&mut old, 0, &layout::label_1(2_048))?;
    put(&mut old, 8_194, &[65; 512])?;
    let mut new = MemoryDisk::new(rt.alloc(), 8_195)?;
    upgrade(&mut old, &mut new)?;
    let mut store = opened(new)?;
    assert_same!(rt; store.blocks(), 2_048);
    let bytes = block(&mut store, 2_047)?;
    assert_same!(rt;
        (bytes[0], bytes[511], bytes[512], bytes[1023]),
        (0, 0, 65, 65)
    );
    Ok(())
}

// The refusal of an upgrade from so many sectors with this label to so many sectors.
fn refusal(
    rt: &HostRuntime,
    old_sectors: u32,
    label: &[u8; 512],
    new_sectors: u32,
) -> Result<Option<UpgradeFault>, Fail> {
    let mut old = MemoryDisk::new(rt.alloc(), old_sectors)?;
    put(&mut old, 0, label)?;
    let mut new = MemoryDisk::new(rt.alloc(), new_sectors)?;
    let old_writes = old.counts().writes;
    let outcome = upgrade(&mut old, &mut new);
    check(
        old.counts().writes == old_writes && new.counts().writes == 0,
        "no write before a refusal",
    )?;
    Ok(outcome.err())
}

#[test]
fn other_old_images_are_refused(rt: HostRuntime) -> Result<(), Fail> {
    let good = layout::label_1(32);
    for (old, label, new, fault) in [
        (130, good, 131, UpgradeFault::Old(OpenFault::BadSize)),
        (8_199, good, 8_199, UpgradeFault::Old(OpenFault::BadSize)),
        (131, good, 135, UpgradeFault::New(OpenFault::BadSize)),
        (131, [0; 512], 127, UpgradeFault::New(OpenFault::BadSize)),
        (131, [0; 512], 131, UpgradeFault::Old(OpenFault::NoLabel)),
        (
            131,
            layout::label(32),
            131,
            UpgradeFault::Old(OpenFault::OtherVersion),
        ),
        (
            131,
            layout::label_1(33),
            131,
            UpgradeFault::Old(OpenFault::WrongCount),
        ),
    ] {
        assert_same!(rt; refusal(&rt, old, &label, new)?, Some(fault));
    }
    Ok(())
}

// Upgrades over devices that fail from call `k` or `m` on: whether it was done, and the disks.
fn upgrade_until(
    rt: &HostRuntime,
    is_image: bool,
    k: u64,
    m: u64,
) -> Result<(bool, MemoryDisk, MemoryDisk), Fail> {
    let mut old = Fused::from(old_image(rt)?, k.max(1));
    let mut new = Fused::from(before(rt, is_image)?, m.max(1));
    let done = match upgrade(&mut old, &mut new) {
        Ok(()) => true,
        Err(UpgradeFault::Old(fault)) => {
            check(fault == OpenFault::Device && k < 1_000, "the old one fails")?;
            false
        }
        Err(UpgradeFault::New(fault)) => {
            check(fault == OpenFault::Device && m < 1_000, "the new one fails")?;
            false
        }
    };
    Ok((done, old.into_device(), new.into_device()))
}

// What stops leave where the old device fails from call `k` on, or the new one from call `m` on: whether it was done.
fn stops_at(rt: &HostRuntime, is_image: bool, k: u64, m: u64) -> Result<bool, Fail> {
    let (done, old, new) = upgrade_until(rt, is_image, k, m)?;
    let sectors = unsynced_sectors(rt, &old, OLDER)?;
    for n in 0..count_of_stops(&sectors) {
        let old = stopped(rt, &old, &sectors, n)?;
        check(
            old_held(rt, old)?.as_str() == "1A 2B",
            "the old image means the same",
        )?;
    }
    let sectors = unsynced_sectors(rt, &new, OLDER)?;
    for n in 0..count_of_stops(&sectors) {
        let new = stopped(rt, &new, &sectors, n)?;
        match held(rt, new)?.as_str() {
            "1A 2B" => {}
            "1C" => check(is_image && !done, "the image before")?,
            "NoLabel" => check(!done, "a label at the end")?,
            _ => return Err("half an image")?,
        }
    }
    Ok(done)
}

#[test]
fn an_upgrade_stopped_at_a_call_of_the_old_device(rt: HostRuntime) -> Result<(), Fail> {
    let mut done = false;
    for k in 1..90 {
        done = done || stops_at(&rt, false, k, 1_000)?;
    }
    check(done, "done at last")
}

#[test]
fn an_upgrade_stopped_at_a_call_of_the_new_device(rt: HostRuntime) -> Result<(), Fail> {
    for is_image in [false, true] {
        let mut done = false;
        for m in 1..90 {
            done = done || stops_at(&rt, is_image, 1_000, m)?;
        }
        check(done, "done at last")?;
    }
    Ok(())
}

// Formats an image of layout 1 over a device that fails from call `k` on: whether it was formatted, and the disk.
fn format_until(rt: &HostRuntime, k: u64) -> Result<(bool, MemoryDisk), Fail> {
    match format(Fused::from(old_image(rt)?, k.max(1)), BLOCKS) {
        Ok(store) => Ok((true, store.into_device().into_device())),
        Err((fault, fused)) => {
            check(fault == OpenFault::Device, "the device fails")?;
            Ok((false, fused.into_device()))
        }
    }
}

// The old label stays until the last write, and no other good one stands over homes that aren't blank.
#[test]
fn a_format_over_an_old_image_leaves_its_label_to_the_last(rt: HostRuntime) -> Result<(), Fail> {
    let mut is_formatted = false;
    for k in 1..90 {
        let (done, disk) = format_until(&rt, k)?;
        let sectors = unsynced_sectors(&rt, &disk, OLDER)?;
        let is_last = sectors.iter().any(|unsynced| unsynced.k == 0);
        for n in 0..count_of_stops(&sectors) {
            match held(&rt, stopped(&rt, &disk, &sectors, n)?)?.as_str() {
                "blank" => check(done || is_last, "a label before the end")?,
                "OtherVersion" => check(!done, "a label at the end")?,
                _ => return Err("half a format")?,
            }
        }
        is_formatted = is_formatted || done;
    }
    check(is_formatted, "formatted at last")
}
