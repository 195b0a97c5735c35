// What can be had of damaged images is salvaged.
use crate::assertions::{Assert, assert_same};
use crate::layout_3::saved_images::{change, saved, since, stopped};
use crate::sectors::{put, sector};
use image_care::{Taken, read_block, salvage};
use journal::layout::is_listed;
use recovery::{OpenFault, UpgradeFault};
use sector_disk::{Counts, Fused, MemoryDisk, SectorDevice};
use std::alloc::Global;
use std::test::Fail;
use stores::open;

// Block 5 counts in its first place, over an older one of A in its second; and block 31 in its second, over a blank one.
pub(crate) const SAVES: [(u16, u8); 3] = [(5, b'A'), (5, b'B'), (31, b'C')];

// The blocks that aren't blank, as ` 5B` where block 5 begins so, and then the blocks that were taken from other places and those
// that were lost.
pub(crate) fn told(alloc: Global, disk: &mut MemoryDisk, taken: &Taken) -> Result<String, Fail> {
    let mut text = String::new(alloc);
    for b in 0..32 {
        let Ok(Some(bytes)) = read_block(disk, b) else {
            return Err("not read")?;
        };
        if bytes[0] != b' ' {
            text.push_str(&format!(in alloc; " {b}{}", bytes[0] as char)?)?;
        }
    }
    for b in 0..3840 {
        if is_listed(&taken.others, b) {
            text.push_str(&format!(in alloc; ", other {b}")?)?;
        }
        if is_listed(&taken.lost, b) {
            text.push_str(&format!(in alloc; ", lost {b}")?)?;
        }
    }
    Ok(text)
}

// Gate and record are read, of each block three sectors, and three more of each damaged one.
#[test]
fn damaged_blocks_are_taken_from_their_other_places(rt: HostRuntime) -> Result<(), Fail> {
    for (changes, reads, want) in [
        ([].as_slice(), 98, " 5B 31C"),
        ([(112, 0)].as_slice(), 101, " 5A 31C, other 5"),
        ([(114, 0)].as_slice(), 101, " 5A 31C, other 5"),
        ([(112, 0), (121, 511)].as_slice(), 101, " 31C, lost 5"),
        ([(536, 0)].as_slice(), 101, " 5B, other 31"),
        ([(32, 0)].as_slice(), 101, " 5B 31C, lost 0"),
        ([(0, 0), (16, 500)].as_slice(), 98, " 5B 31C"), // neither label nor sum
        (
            [(112, 0), (537, 0), (48, 0)].as_slice(),
            107,
            " 5A, lost 1, other 5, other 31",
        ),
    ] {
        let mut old = saved(rt.alloc(), 32, &SAVES)?;
        for (k, at) in changes {
            change(&mut old, *k, *at, b'?')?;
        }
        let mut new = MemoryDisk::new(rt.alloc(), 544)?;
        let before = old.counts();
        let taken = salvage(&mut old, &mut new).map_err(|_| "not salvaged")?;
        assert_same!(rt;
            since(old.counts(), before),
            [reads, 0, 0],
            "{} changes",
            changes.len()
        );
        assert_same!(rt;
            since(new.counts(), Counts::default()),
            [1, 132, 3],
            "{} changes",
            changes.len()
        );
        assert_same!(rt; told(rt.alloc(), &mut new, &taken)?.as_str(), want);
        assert!(rt; open(stopped(new)).is_ok(), "{} changes", changes.len());
    }
    Ok(())
}

// A block in whose place the bytes of another one came, with their tag, isn't whole.
#[test]
fn a_block_of_another_number_is_damaged(rt: HostRuntime) -> Result<(), Fail> {
    let mut old = saved(rt.alloc(), 32, &SAVES)?;
    for h in 0..3 {
        let bytes = sector(&mut old, 112 + h)?;
        put(&mut old, 32 + h, &bytes)?;
    }
    let mut new = MemoryDisk::new(rt.alloc(), 544)?;
    let taken = salvage(&mut old, &mut new).map_err(|_| "not salvaged")?;
    assert_same!(rt;
        told(rt.alloc(), &mut new, &taken)?.as_str(),
        " 5B 31C, lost 0"
    );
    Ok(())
}

#[test]
fn other_sizes_are_not_salvaged(rt: HostRuntime) -> Result<(), Fail> {
    for (old, new, fault) in [
        (131, 544, UpgradeFault::New(OpenFault::BadSize)),
        (542, 542, UpgradeFault::Old(OpenFault::BadSize)),
        (544, 560, UpgradeFault::New(OpenFault::BadSize)),
        (560, 544, UpgradeFault::New(OpenFault::BadSize)),
    ] {
        let mut from = MemoryDisk::new(rt.alloc(), old)?;
        let mut to = MemoryDisk::new(rt.alloc(), new)?;
        assert_same!(rt; salvage(&mut from, &mut to), Err(fault), "{old} to {new}");
        assert_same!(rt; from.counts(), Counts::default(), "{old} to {new}");
        assert_same!(rt; to.counts(), Counts::default(), "{old} to {new}");
    }
    Ok(())
}

// A device that holds nothing gives an image of blank blocks.
#[test]
fn nothing_is_salvaged_of_nothing(rt: HostRuntime) -> Result<(), Fail> {
    let mut old = MemoryDisk::new(rt.alloc(), 544)?;
    let mut new = MemoryDisk::new(rt.alloc(), 544)?;
    let taken = salvage(&mut old, &mut new).map_err(|_| "not salvaged")?;
    for b in 0..32 {
        assert!(rt; is_listed(&taken.lost, b), "block {b}");
        assert_same!(rt;
            read_block(&mut new, b),
            Ok(Some([b' '; 1024])),
            "block {b}"
        );
    }
    assert!(rt; !is_listed(&taken.lost, 32));
    Ok(())
}

#[test]
fn a_fault_is_told_of_its_device(rt: HostRuntime) -> Result<(), Fail> {
    for call in [1, 2, 3, 98] {
        let mut old = Fused::from(saved(rt.alloc(), 32, &SAVES)?, call);
        let mut new = MemoryDisk::new(rt.alloc(), 544)?;
        assert_same!(rt;
            salvage(&mut old, &mut new),
            Err(UpgradeFault::Old(OpenFault::Device))
        );
    }
    for call in [1, 2, 3, 136] {
        let mut old = saved(rt.alloc(), 32, &SAVES)?;
        let mut new = Fused::from(MemoryDisk::new(rt.alloc(), 544)?, call);
        assert_same!(rt;
            salvage(&mut old, &mut new),
            Err(UpgradeFault::New(OpenFault::Device))
        );
    }
    Ok(())
}
