// Images are copied, stopped at each call of either device.
use crate::assertions::{Assert, assert_same};
use crate::layout_3::saved_images::{are_same, change, saved, since, stopped};
use crate::sectors::sector;
use image_care::{copy, examine};
use journal::pages::layout::label;
use recovery::{OpenFault, UpgradeFault};
use sector_disk::{Counts, Fate, Fused, MemoryDisk, SectorDevice};
use std::alloc::Global;
use std::test::Fail;
use stores::open;
use test_devices::Coarse;

const SAVES: [(u16, u8); 3] = [(5, b'A'), (5, b'B'), (31, b'C')];

// The digest of what an image means.
fn digest(disk: &mut MemoryDisk) -> Result<[u8; 32], &'static str> {
    match examine(disk) {
        Ok(found) => Ok(found.digest),
        Err(_) => Err("refused"),
    }
}

// Of 32 blocks label, gate, record and three sectors each are read to find no damage, and two of the three once more. On the new device
// the label is read, of each block four sectors are written, and gate, two records and label; a sync comes before the first write,
// before the label and after it. A good label that stands there is cleared first and synced.
#[test]
fn a_copy_has_the_same_blocks(rt: HostRuntime) -> Result<(), Fail> {
    for (is_image, writes, syncs) in [(false, 132, 3), (true, 133, 4)] {
        let mut old = saved(rt.alloc(), 32, &SAVES)?;
        let mut new = if is_image {
            saved(rt.alloc(), 32, &[(1, b'D')])?
        } else {
            MemoryDisk::new(rt.alloc(), 544)?
        };
        let (old_before, new_before) = (old.counts(), new.counts());
        copy(&mut old, &mut new).map_err(|_| "not copied")?;
        assert_same!(rt; since(old.counts(), old_before), [163, 0, 0]);
        assert_same!(rt; since(new.counts(), new_before), [1, writes, syncs]);
        assert_same!(rt; sector(&mut new, 0)?, label(32));
        assert_same!(rt; digest(&mut new)?, digest(&mut old)?);
        assert!(rt; are_same(&mut old, &mut saved(rt.alloc(), 32, &SAVES)?)?);
        assert!(rt; open(stopped(new)).is_ok());
    }
    Ok(())
}

#[test]
fn a_larger_copy_has_blank_blocks_above(rt: HostRuntime) -> Result<(), Fail> {
    let mut old = saved(rt.alloc(), 32, &SAVES)?;
    let mut new = MemoryDisk::new(rt.alloc(), 672)?;
    let before = old.counts();
    copy(&mut old, &mut new).map_err(|_| "not copied")?;
    assert_same!(rt; since(old.counts(), before), [163, 0, 0]);
    assert_same!(rt;
        digest(&mut new)?,
        digest(&mut saved(rt.alloc(), 40, &SAVES)?)?
    );
    Ok(())
}

// The refusal of a copy from so many sectors, with this byte changed in an image of 32 blocks, to so many sectors.
fn refusal(
    alloc: Global,
    sectors: u32,
    changed: Option<(u32, usize)>,
    new_sectors: u32,
) -> Result<Option<UpgradeFault>, Fail> {
    let mut old = if sectors == 544 {
        saved(alloc, 32, &SAVES)?
    } else {
        MemoryDisk::new(alloc, sectors)?
    };
    if let Some((k, at)) = changed {
        change(&mut old, k, at, b'?')?;
    }
    let mut new = MemoryDisk::new(alloc, new_sectors)?;
    let before = old.counts();
    let outcome = copy(&mut old, &mut new);
    let [_, writes, syncs] = since(old.counts(), before);
    if writes > 0 || syncs > 0 || new.counts() != Counts::default() {
        return Err("a call before a refusal")?;
    }
    Ok(outcome.err())
}

#[test]
fn other_images_are_not_copied(rt: HostRuntime) -> Result<(), Fail> {
    for (old, changed, new, fault) in [
        (131, None, 544, UpgradeFault::New(OpenFault::BadSize)),
        (542, None, 0, UpgradeFault::Old(OpenFault::BadSize)),
        (544, None, 131, UpgradeFault::New(OpenFault::BadSize)),
        (544, None, 543, UpgradeFault::New(OpenFault::BadSize)),
        (560, None, 544, UpgradeFault::New(OpenFault::BadSize)),
        (560, None, 560, UpgradeFault::Old(OpenFault::NoLabel)),
        (
            544,
            Some((0, 0)),
            544,
            UpgradeFault::Old(OpenFault::NoLabel),
        ),
        (
            544,
            Some((0, 8)),
            544,
            UpgradeFault::Old(OpenFault::OtherVersion),
        ),
        (
            544,
            Some((0, 10)),
            544,
            UpgradeFault::Old(OpenFault::WrongCount),
        ),
        (
            544,
            Some((32, 0)),
            544,
            UpgradeFault::Old(OpenFault::Damaged),
        ),
    ] {
        assert_same!(rt;
            refusal(rt.alloc(), old, changed, new)?,
            Some(fault),
            "{old} to {new}"
        );
    }
    Ok(())
}

// What is left, after a stop, of a new image of whose copy the calls from this one on fail, over an image with block 1 of D.
fn left(alloc: Global, call: u64, others: Fate) -> Result<&'static str, Fail> {
    let mut old = saved(alloc, 32, &SAVES)?;
    let mut was = saved(alloc, 32, &[(1, b'D')])?;
    let mut target = Fused::from(Coarse::new(was.try_clone(alloc)?), call.max(1));
    let outcome = copy(&mut old, &mut target);
    if outcome.is_ok() != (call > 138) {
        return Err("another count of calls")?;
    }
    let mut fates = [others; 16];
    fates[0] = Fate::Torn([b'?'; 512]);
    let mut new = target.into_device().into_device().stop(&fates);
    let found = match examine(&mut new) {
        Err(OpenFault::NoLabel) => return Ok("no label"),
        Err(_) => return Ok("refused"),
        Ok(found) => found,
    };
    let stands = found.digest;
    if stands == digest(&mut was)? {
        return Ok("the old one");
    }
    if stands == digest(&mut old)? {
        return Ok("the new one");
    }
    Ok("another")
}

// Call 3 clears the label, calls 5 to 135 fill the image, call 137 writes the label, and call 138 syncs it.
fn is_allowed(call: u64, text: &str) -> bool {
    match text {
        "the old one" => call <= 4,
        "no label" => 4 <= call && call <= 138,
        "the new one" => call >= 138,
        _ => false,
    }
}

#[test]
fn a_stop_leaves_the_old_image_none_or_the_copy(rt: HostRuntime) -> Result<(), Fail> {
    for call in [1, 2, 3, 4, 5, 6, 40, 135, 136, 137, 138, 139] {
        for others in [Fate::Kept, Fate::Lost] {
            let text = left(rt.alloc(), call, others)?;
            assert!(rt; is_allowed(call, text), "before call {call}: {text}");
        }
    }
    Ok(())
}

// A read of the old image that fails is told as its own.
#[test]
fn a_fault_is_told_of_its_device(rt: HostRuntime) -> Result<(), Fail> {
    for call in [1, 99, 100, 163] {
        let mut old = Fused::from(saved(rt.alloc(), 32, &SAVES)?, call);
        let mut new = MemoryDisk::new(rt.alloc(), 544)?;
        assert_same!(rt;
            copy(&mut old, &mut new),
            Err(UpgradeFault::Old(OpenFault::Device))
        );
    }
    for call in [1, 2, 3, 136] {
        let mut old = saved(rt.alloc(), 32, &SAVES)?;
        let mut new = Fused::from(MemoryDisk::new(rt.alloc(), 544)?, call);
        assert_same!(rt;
            copy(&mut old, &mut new),
            Err(UpgradeFault::New(OpenFault::Device))
        );
    }
    Ok(())
}
