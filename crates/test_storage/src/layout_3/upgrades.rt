// Upgrades of images of layout 1 and 2: what is refused, what is written, and what a stop leaves of both images.
use crate::assertions::{Assert, assert_same};
use crate::layout_3::images::{blank, opened, spill, told};
use crate::layout_3::openings::refusal;
use crate::sectors::{put, sector};
use recovery::{OpenFault, UpgradeFault};
use sector_disk::{Fate, Fused, MemoryDisk, SectorDevice};
use shadow::upgrade;
use std::alloc::Global;
use std::test::Fail;
use test_devices::Coarse;

// SHA-256 of a byte 6, 479 zeros, 1,024 bytes of A and 1,024 of B.
const DIGEST: [u8; 32] = [
    0x4f, 0x7f, 0xe6, 0x41, 0xc2, 0x53, 0x64, 0xef, 0x85, 0x32, 0xa9, 0xe0, 0x53, 0xfa, 0x7e, 0x29,
    0x1b, 0x6b, 0x69, 0xf4, 0x27, 0x05, 0xd5, 0x81, 0x1c, 0xeb, 0xa2, 0x26, 0x4d, 0x61, 0xda, 0xbe,
];

// An image of an older layout whose save of blocks 1 and 2, of A and B, has its gate open. In the homes they are blank, or torn.
fn older(alloc: Global, version: u8) -> Result<MemoryDisk, Fail> {
    let mut disk = MemoryDisk::new(alloc, 131)?;
    for k in 67..131 {
        put(&mut disk, k, &[b' '; 512])?;
    }
    let mut label = [0; 512];
    label[..12].copy_from_slice(b"F83BLOCK\x02\x00\x20\x00");
    label[8] = version;
    put(&mut disk, 0, &label)?;
    let mut gate = [0; 512];
    gate[..8].copy_from_slice(b"COMMIT83");
    put(&mut disk, 1, &gate)?;
    let mut record = [0; 512];
    record[0] = 6;
    record[480..].copy_from_slice(&DIGEST);
    put(&mut disk, 2, &record)?;
    for (k, byte) in [(5, b'A'), (6, b'A'), (7, b'B'), (8, b'B'), (70, 1)] {
        put(&mut disk, k, &[byte; 512])?;
    }
    disk.sync().map_err(|_| "sync failed")?;
    Ok(disk)
}

// The image with block 5 of C, or zeros.
fn before(alloc: Global, is_image: bool) -> Result<MemoryDisk, Fail> {
    if !is_image {
        return Ok(MemoryDisk::new(alloc, 544)?);
    }
    let mut store = opened(blank(alloc)?, u64::MAX)?;
    spill(&mut store, 5, b'C')?;
    store.commit().map_err(|_| "commit failed")?;
    Ok(store.into_device().into_device().into_device())
}

fn fault(fault: OpenFault) -> &'static str {
    match fault {
        OpenFault::BadSize => "bad size",
        OpenFault::NoLabel => "no label",
        OpenFault::OtherVersion => "other version",
        OpenFault::WrongCount => "wrong count",
        OpenFault::Damaged => "damaged",
        OpenFault::Device => "device",
    }
}

// Why an upgrade is refused, or `upgraded`.
fn outcome(old: &mut MemoryDisk, new: &mut MemoryDisk) -> (&'static str, &'static str) {
    match upgrade(old, new) {
        Ok(()) => ("both", "upgraded"),
        Err(UpgradeFault::Old(refused)) => ("old", fault(refused)),
        Err(UpgradeFault::New(refused)) => ("new", fault(refused)),
    }
}

#[test]
fn an_older_image_is_upgraded_by_reads_alone(rt: HostRuntime) -> Result<(), Fail> {
    for (version, reads) in [(1, 67), (2, 71)] {
        let mut old = older(rt.alloc(), version)?;
        let mut new = before(rt.alloc(), false)?;
        let (from, to) = (old.counts(), new.counts());
        assert_same!(rt; outcome(&mut old, &mut new).1, "upgraded", "{version}");
        assert_same!(rt; old.counts().reads.saturating_sub(from.reads), reads);
        assert_same!(rt; old.counts().writes, from.writes);
        assert_same!(rt; old.counts().syncs.saturating_sub(from.syncs), 1);
        assert_same!(rt; new.counts().reads.saturating_sub(to.reads), 1);
        assert_same!(rt; new.counts().writes.saturating_sub(to.writes), 132);
        assert_same!(rt; new.counts().syncs.saturating_sub(to.syncs), 3);
        assert_same!(rt; told(rt.alloc(), &mut new)?.as_str(), " 1A 2B");
        assert_same!(rt; refusal(new), "opened");
    }
    Ok(())
}

// But for blocks 1 and 2, the record and the sum in the gate, the image is the blank one.
#[test]
fn the_new_image_is_made_as_by_a_format(rt: HostRuntime) -> Result<(), Fail> {
    let mut old = older(rt.alloc(), 2)?;
    let mut new = before(rt.alloc(), false)?;
    assert_same!(rt; outcome(&mut old, &mut new).1, "upgraded");
    let mut want = blank(rt.alloc())?;
    for k in 0..544 {
        let is_other = matches!(k, 8 | 24 | 48..=50 | 64..=66);
        let is_blank = sector(&mut new, k)? == sector(&mut want, k)?;
        assert!(rt; is_blank != is_other, "sector {k}");
    }
    Ok(())
}

#[test]
fn the_largest_image_of_layout_1_is_upgraded(rt: HostRuntime) -> Result<(), Fail> {
    let mut old = MemoryDisk::new(rt.alloc(), 8_195)?;
    let mut label = [0; 512];
    label[..12].copy_from_slice(b"F83BLOCK\x01\x00\x00\x08");
    put(&mut old, 0, &label)?;
    put(&mut old, 8_194, &[b'Z'; 512])?;
    let mut new = MemoryDisk::new(rt.alloc(), 32_800)?;
    assert_same!(rt; outcome(&mut old, &mut new).1, "upgraded");
    assert_same!(rt; sector(&mut new, 32_785)?, [b'Z'; 512]);
    assert_same!(rt; sector(&mut new, 32_784)?, [0; 512]);
    assert_same!(rt; refusal(new), "opened");
    Ok(())
}

// A zeroed disk of so many sectors under a label of this version and number of blocks, or under no label.
fn labelled(
    alloc: Global,
    sectors: u32,
    version: u8,
    low: u8,
    high: u8,
) -> Result<MemoryDisk, Fail> {
    let mut disk = MemoryDisk::new(alloc, sectors)?;
    if version == 0 {
        return Ok(disk);
    }
    let mut label = [0; 512];
    label[..8].copy_from_slice(b"F83BLOCK");
    label[8] = version;
    label[10] = low;
    label[11] = high;
    put(&mut disk, 0, &label)?;
    Ok(disk)
}

#[test]
fn other_images_are_refused(rt: HostRuntime) -> Result<(), Fail> {
    for (sectors, version, low, high, new_sectors, want) in [
        (130, 2, 32, 0, 544, ("old", "bad size")),
        (15_367, 2, 1, 15, 544, ("old", "bad size")), // 3,841 blocks
        (131, 2, 32, 0, 131, ("new", "bad size")),
        (131, 0, 0, 0, 560, ("new", "bad size")),
        (131, 0, 0, 0, 544, ("old", "no label")),
        (131, 3, 32, 0, 544, ("old", "other version")),
        (544, 3, 32, 0, 544, ("old", "other version")), // an image of this layout
        (544, 2, 32, 0, 544, ("old", "wrong count")),
        (131, 2, 33, 0, 544, ("old", "wrong count")),
        (8_199, 1, 1, 8, 32_816, ("old", "wrong count")), // 2,049 blocks
        (8_199, 2, 1, 8, 32_816, ("both", "upgraded")),
    ] {
        let mut old = labelled(rt.alloc(), sectors, version, low, high)?;
        let mut new = MemoryDisk::new(rt.alloc(), new_sectors)?;
        let said = outcome(&mut old, &mut new);
        assert_same!(rt; said, want, "{sectors} of version {version}");
    }
    Ok(())
}

// A record by layout 2 has the digest of its slots; by layout 1 it has none.
#[test]
fn a_false_record_is_damage_by_layout_2(rt: HostRuntime) -> Result<(), Fail> {
    for (version, want) in [(1, "upgraded"), (2, "damaged")] {
        let mut old = older(rt.alloc(), version)?;
        put(&mut old, 6, &[b'?'; 512])?;
        let mut new = before(rt.alloc(), false)?;
        let said = outcome(&mut old, &mut new);
        assert_same!(rt; said.1, want, "version {version}");
    }
    Ok(())
}

// What a stop leaves of a disk, one of whose unsynced sectors is torn.
fn left(alloc: Global, disk: &MemoryDisk, torn: usize, others: Fate) -> Result<MemoryDisk, Fail> {
    let mut fates = [others; 16];
    fates[torn % 16] = Fate::Torn([b'?'; 512]);
    Ok(disk.try_clone(alloc)?.stop(&fates))
}

// What an image means, or why it isn't opened.
fn meant(alloc: Global, mut disk: MemoryDisk) -> Result<String, Fail> {
    let said = refusal(disk.try_clone(alloc)?);
    if said == "opened" {
        return told(alloc, &mut disk);
    }
    let mut text = String::new(alloc);
    text.push_str(said)?;
    Ok(text)
}

// What an older image means.
fn older_meant(alloc: Global, mut old: MemoryDisk) -> Result<String, Fail> {
    let mut new = before(alloc, false)?;
    if outcome(&mut old, &mut new).1 == "upgraded" {
        return told(alloc, &mut new);
    }
    Err("an old image that isn't upgraded")?
}

// Upgrades over devices that fail from call `k` of the old one on, or from call `m` of the new one.
fn upgrade_until(
    alloc: Global,
    is_image: bool,
    k: u64,
    m: u64,
) -> Result<(MemoryDisk, MemoryDisk), Fail> {
    let mut old = Fused::from(older(alloc, 2)?, k.max(1));
    let mut new = Fused::from(Coarse::new(before(alloc, is_image)?), m.max(1));
    let done = upgrade(&mut old, &mut new).is_ok();
    if done != (k > 72 && m > if is_image { 138 } else { 136 }) {
        return Err("done with a fault, or not without one")?;
    }
    Ok((old.into_device(), new.into_device().into_device()))
}

// Of an image call 3 clears the label. Calls 5 to 135 fill the new one, and call 137 writes its label.
fn is_allowed(is_image: bool, m: u64, text: &str) -> bool {
    match text {
        " 5C" => is_image && m <= 4,
        "no label" => (!is_image || 4 <= m) && m <= 138,
        " 1A 2B" => m >= 138,
        _ => false,
    }
}

// Of a disk of zeros there is no label to clear, so two calls fewer are made.
fn as_of_an_image(is_image: bool, m: u64) -> u64 {
    if is_image || m <= 2 {
        m
    } else {
        m.saturating_sub(2)
    }
}

#[test]
fn a_stop_at_a_call_of_the_new_device(rt: HostRuntime) -> Result<(), Fail> {
    for is_image in [false, true] {
        for m in 1..=139 {
            let (old, new) = upgrade_until(rt.alloc(), is_image, 100, as_of_an_image(is_image, m))?;
            assert_same!(rt; older_meant(rt.alloc(), old)?.as_str(), " 1A 2B");
            for torn in [0, 7] {
                for others in [Fate::Kept, Fate::Lost] {
                    let text = meant(rt.alloc(), left(rt.alloc(), &new, torn, others)?)?;
                    let text = text.as_str();
                    assert!(rt; is_allowed(is_image, m, text), "before call {m}: {text}");
                }
            }
        }
    }
    Ok(())
}

// Nothing is unsynced of the old device, so nothing of it is torn.
#[test]
fn a_stop_at_a_call_of_the_old_device(rt: HostRuntime) -> Result<(), Fail> {
    for k in 1..=73 {
        let (old, new) = upgrade_until(rt.alloc(), true, k, 1_000)?;
        let text = meant(rt.alloc(), left(rt.alloc(), &new, 0, Fate::Kept)?)?;
        let want = if k <= 8 {
            " 5C"
        } else if k <= 72 {
            "no label"
        } else {
            " 1A 2B"
        };
        assert_same!(rt; text.as_str(), want, "before call {k}");
        let old = left(rt.alloc(), &old, 0, Fate::Lost)?;
        assert_same!(rt; older_meant(rt.alloc(), old)?.as_str(), " 1A 2B");
    }
    Ok(())
}
