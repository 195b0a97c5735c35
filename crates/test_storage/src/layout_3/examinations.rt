// Images are examined, and their blocks looked at, without a change of them.
use crate::assertions::{Assert, assert_same};
use crate::layout_3::saved_images::{are_same, change, saved, since};
use crate::sectors::sector;
use image_care::pages::{Standing, find_standing};
use image_care::{Listing, View, examine, look, read_block};
use recovery::OpenFault;
use sector_disk::{Fused, MemoryDisk, SectorDevice};
use std::alloc::{AllocError, Global};
use std::test::Fail;

// Bytes in hexadecimal digits.
fn hex(alloc: Global, bytes: &[u8]) -> Result<String, AllocError> {
    let mut text = String::new(alloc);
    for byte in bytes {
        text.push_str(&format!(in alloc; "{byte:02x}")?)?;
    }
    Ok(text)
}

// The reason for which an image is refused.
fn name_of(fault: OpenFault) -> &'static str {
    match fault {
        OpenFault::BadSize => "bad size",
        OpenFault::NoLabel => "no label",
        OpenFault::OtherVersion => "other version",
        OpenFault::WrongCount => "wrong count",
        OpenFault::Damaged => "damaged",
        OpenFault::Device => "device",
    }
}

// Why an image isn't examined, or `examined`.
fn refusal<D: SectorDevice>(disk: &mut D) -> &'static str {
    match examine(disk) {
        Ok(_) => "examined",
        Err(fault) => name_of(fault),
    }
}

// Whether the gate of an image of layout 3 is open.
fn is_open_by(view: &View) -> Option<bool> {
    match &view.listing {
        Listing::Journal(_) => None,
        Listing::Pages(named) => Some(named.is_open),
    }
}

// Of 32 blocks three sectors each are read for damage, and two for the digest, beside label, gate and record, and the gate once more.
#[test]
fn an_image_is_told_by_reads_alone(rt: HostRuntime) -> Result<(), Fail> {
    for (saves, is_open, digest) in [
        (
            [].as_slice(),
            false,
            "e8ff7e9b520474a6f067f1c6c8a6ba49ec191b9b7ae24ce74ccc1bf7543d250a",
        ),
        (
            [(5, b'A')].as_slice(),
            true,
            "8fcb7b6aa2932c4d6ab17d3d609b817357521e4722b16f60cf374e009202676f",
        ),
        (
            [(5, b'A'), (5, b'B'), (31, b'C')].as_slice(),
            true,
            "dd20b4accaed75cb23a75e61aba5968fc12872b5e10cd392050b0e5cb82d1af8",
        ),
    ] {
        let mut disk = saved(rt.alloc(), 32, saves)?;
        let before = disk.counts();
        let found = examine(&mut disk).map_err(name_of)?;
        assert_same!(rt; since(disk.counts(), before), [164, 0, 0]);
        assert_same!(rt; found.blocks, 32);
        assert_same!(rt; found.under_way, None);
        assert!(rt; found.gate_fits);
        assert_same!(rt; hex(rt.alloc(), &found.digest)?.as_str(), digest);
        let view = look(&mut disk).map_err(name_of)?;
        assert_same!(rt; view.blocks.number, 32);
        assert_same!(rt; is_open_by(&view), Some(is_open));
        assert!(rt; are_same(&mut disk, &mut saved(rt.alloc(), 32, saves)?)?);
    }
    Ok(())
}

// Block 5 was saved once, and so counts in its second place, in sectors 120 to 122.
#[test]
fn each_image_is_examined_or_refused(rt: HostRuntime) -> Result<(), Fail> {
    for (k, at, byte, want) in [
        (0, 0, b'G', "no label"),
        (0, 511, 1, "no label"),
        (0, 8, 2, "other version"),
        (0, 10, 33, "wrong count"),
        (8, 8, b'?', "examined"), // a gate that isn't of its record
        (8, 0, b'?', "examined"), // a gate that names the record before
        (16, 480, 0, "damaged"),
        (16, 0, 1, "damaged"),
        (24, 0, 1, "examined"), // the record that doesn't count
        (121, 511, b'?', "damaged"),
        (122, 31, 0, "damaged"),
        (112, 0, b'?', "examined"), // a free place
    ] {
        let mut disk = saved(rt.alloc(), 32, &[(5, b'A')])?;
        change(&mut disk, k, at, byte)?;
        assert_same!(rt; refusal(&mut disk), want, "sector {k} byte {at}");
    }
    Ok(())
}

// The label of an image of layout 2 is looked at, and that of no image isn't.
#[test]
fn other_sizes_are_refused(rt: HostRuntime) -> Result<(), Fail> {
    for (sectors, reads, want, looked) in [
        (131, 1, "no label", "bad size"),
        (544, 1, "no label", "stands"),
        (546, 0, "bad size", "bad size"),
        (0, 0, "bad size", "bad size"),
    ] {
        let mut disk = MemoryDisk::new(rt.alloc(), sectors)?;
        assert_same!(rt; refusal(&mut disk), want, "{sectors} sectors");
        assert_same!(rt; disk.counts().reads, reads, "{sectors} sectors");
        let said = match find_standing(&mut disk, 5) {
            Ok(_) => "stands",
            Err(fault) => name_of(fault),
        };
        assert_same!(rt; said, looked, "{sectors} sectors");
    }
    Ok(())
}

// Where block 5 stands, after it was saved twice: it counts in its first place, in sectors 112 to 114.
#[test]
fn a_damaged_block_is_found_in_its_other_place(rt: HostRuntime) -> Result<(), Fail> {
    let saves = [(5, b'A'), (5, b'B')];
    for (changes, reads, want) in [
        ([].as_slice(), 5, Standing::Current),
        ([(120, 0)].as_slice(), 5, Standing::Current),
        ([(112, 0)].as_slice(), 8, Standing::Other),
        ([(113, 511)].as_slice(), 8, Standing::Other),
        ([(114, 31)].as_slice(), 8, Standing::Other),
        ([(112, 0), (122, 0)].as_slice(), 8, Standing::Nowhere),
        ([(0, 0), (24, 500)].as_slice(), 5, Standing::Current), // label and sum
    ] {
        let mut disk = saved(rt.alloc(), 32, &saves)?;
        for (k, at) in changes {
            change(&mut disk, *k, *at, b'?')?;
        }
        let before = disk.counts();
        let found = find_standing(&mut disk, 5).map_err(name_of)?;
        assert_same!(rt; found, Some(want));
        assert_same!(rt; since(disk.counts(), before), [reads, 0, 0]);
    }
    Ok(())
}

// A block that was never saved has no other place.
#[test]
fn blocks_are_looked_for_where_the_image_has_them(rt: HostRuntime) -> Result<(), Fail> {
    let mut disk = saved(rt.alloc(), 32, &[])?;
    change(&mut disk, 32 + 16 * 31, 0, b'?')?;
    for (b, want) in [
        (0, Some(Standing::Current)),
        (31, Some(Standing::Nowhere)),
        (32, None),
    ] {
        let found = find_standing(&mut disk, b).map_err(name_of)?;
        assert_same!(rt; found, want, "block {b}");
    }
    Ok(())
}

#[test]
fn one_block_is_read(rt: HostRuntime) -> Result<(), Fail> {
    let mut disk = saved(rt.alloc(), 32, &[(5, b'A'), (5, b'B'), (31, b'C')])?;
    for (b, want) in [
        (0, Some(b' ')),
        (5, Some(b'B')),
        (31, Some(b'C')),
        (32, None),
    ] {
        let before = disk.counts();
        let found = read_block(&mut disk, b).map_err(name_of)?;
        let [reads, writes, syncs] = since(disk.counts(), before);
        assert_same!(rt; reads, if b < 32 { 101 } else { 99 }, "block {b}");
        assert_same!(rt; [writes, syncs], [0, 0], "block {b}");
        assert_same!(rt; found, want.map(|byte| [byte; 1024]), "block {b}");
    }
    change(&mut disk, 32, 0, b'?')?;
    assert_same!(rt; read_block(&mut disk, 5), Err(OpenFault::Damaged));
    Ok(())
}

// Each read that fails is told.
#[test]
fn a_fault_is_told(rt: HostRuntime) -> Result<(), Fail> {
    for call in [1, 2, 3, 4, 99, 100, 163, 164] {
        let disk = saved(rt.alloc(), 32, &[(5, b'A')])?;
        assert_same!(rt;
            refusal(&mut Fused::from(disk, call)),
            "device",
            "call {call}"
        );
    }
    for call in 1..=5 {
        let disk = saved(rt.alloc(), 32, &[(5, b'A')])?;
        let found = find_standing(&mut Fused::from(disk, call), 5);
        assert_same!(rt; found, Err(OpenFault::Device), "call {call}");
    }
    let mut disk = saved(rt.alloc(), 32, &[(5, b'A')])?;
    assert_same!(rt; sector(&mut disk, 120)?, [b'A'; 512]);
    Ok(())
}
