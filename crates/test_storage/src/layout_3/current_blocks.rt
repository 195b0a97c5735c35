// Blocks that are read from the place that counts. What is wanted follows from where the parts of an image stand: block b has its places at 32 + 16b and
// 40 + 16b, of three sectors each, the gate is 8 and the records 16 and 24.
use crate::assertions::{Assert, assert_same};
use crate::devices::scarred::{NONE, Scarred};
use crate::layout_3::salvages::SAVES;
use crate::layout_3::saved_images::{SECTORS, change, saved, since};
use crate::sectors::{put, sector};
use image_care::pages::read_current;
use recovery::OpenFault;
use sector_disk::{Counts, Fused, MemoryDisk, SectorDevice, SectorFile};
use std::alloc::Global;
use std::test::Fail;

/// What is read of a block: 1,024 times this byte, or none where there is no such block.
type Had = Result<Option<u8>, OpenFault>;

/// Reads a block that is full of one byte.
fn had<D: SectorDevice>(device: &mut D, block: u16) -> Result<Had, Fail> {
    match read_current(device, block) {
        Ok(Some(bytes)) => {
            let first = bytes[0];
            if bytes != [first; 1024] {
                return Err("the block is another")?;
            }
            Ok(Ok(Some(first)))
        }
        Ok(None) => Ok(Ok(None)),
        Err(fault) => Ok(Err(fault)),
    }
}

/// Three saves: block 5 counts in its first place, over an older one of A in its second, and block 31 in its second; the gate is open over the record in 16.
fn scarred(alloc: Global, scars: [u32; 3]) -> Result<SectorFile<Scarred>, Fail> {
    Ok(SectorFile::new(Scarred::new(saved(alloc, 32, &SAVES)?, scars), SECTORS))
}

// Only gate, record and the place that counts have to be read.
#[test]
fn a_block_is_had_beside_sectors_that_cannot_be_read(rt: HostRuntime) -> Result<(), Fail> {
    for (scars, block, want) in [
        ([NONE; 3], 5, Ok(Some(b'B'))),
        ([NONE; 3], 31, Ok(Some(b'C'))),
        ([NONE; 3], 0, Ok(Some(b' '))),
        ([0, 1, 24], 5, Ok(Some(b'B'))),
        ([32, 48, 536], 5, Ok(Some(b'B'))),
        ([120, 121, 122], 5, Ok(Some(b'B'))),
        ([115, 119, 123], 5, Ok(Some(b'B'))),
        ([112, 113, 114], 31, Ok(Some(b'C'))),
        ([112, NONE, NONE], 5, Err(OpenFault::Device)),
        ([113, NONE, NONE], 5, Err(OpenFault::Device)),
        ([114, NONE, NONE], 5, Err(OpenFault::Device)),
        ([528, 529, 530], 31, Ok(Some(b'C'))),
        ([538, NONE, NONE], 31, Err(OpenFault::Device)),
        ([8, NONE, NONE], 5, Err(OpenFault::Device)),
        ([16, NONE, NONE], 5, Err(OpenFault::Device)),
        ([8, 16, 24], 32, Ok(None)),
        ([8, 16, 24], 65535, Ok(None)),
    ] {
        let mut image = scarred(rt.alloc(), scars)?;
        assert_same!(rt; had(&mut image, block)?, want, "{block}");
    }
    Ok(())
}

// Of a damaged image each block is had that fits its tag where it counts, whatever label and sum are. Five reads take it.
#[test]
fn a_block_is_had_where_it_stands_whole(rt: HostRuntime) -> Result<(), Fail> {
    for (changes, block, want) in [
        ([].as_slice(), 5, Ok(Some(b'B'))),
        ([(0, 0), (16, 500), (24, 0)].as_slice(), 5, Ok(Some(b'B'))),
        ([(120, 0), (122, 0), (536, 0)].as_slice(), 5, Ok(Some(b'B'))),
        ([(112, 0)].as_slice(), 5, Err(OpenFault::Damaged)),
        ([(113, 511)].as_slice(), 5, Err(OpenFault::Damaged)),
        ([(114, 31)].as_slice(), 5, Err(OpenFault::Damaged)),
        ([(114, 32)].as_slice(), 5, Ok(Some(b'B'))),
        ([(112, 0)].as_slice(), 31, Ok(Some(b'C'))),
        ([(537, 0)].as_slice(), 31, Err(OpenFault::Damaged)),
        // Bits of a record that tell the other place of block 5, which holds what was saved there before, and no place of block 40.
        ([(16, 0)].as_slice(), 5, Ok(Some(b'A'))),
        ([(16, 5)].as_slice(), 5, Ok(Some(b'B'))),
    ] {
        let mut disk = saved(rt.alloc(), 32, &SAVES)?;
        for (k, at) in changes {
            change(&mut disk, *k, *at, b'?')?;
        }
        let before = disk.counts();
        assert_same!(rt; had(&mut disk, block)?, want, "{block}");
        assert_same!(rt; since(disk.counts(), before), [5, 0, 0], "{block}");
    }
    Ok(())
}

// A block in whose place the bytes of another one came, with their tag, isn't whole.
#[test]
fn a_block_of_another_number_is_not_had(rt: HostRuntime) -> Result<(), Fail> {
    let mut disk = saved(rt.alloc(), 32, &SAVES)?;
    for h in 0..3 {
        let bytes = sector(&mut disk, 112 + h)?;
        put(&mut disk, 32 + h, &bytes)?;
    }
    assert_same!(rt; had(&mut disk, 0)?, Err(OpenFault::Damaged));
    assert_same!(rt; had(&mut disk, 5)?, Ok(Some(b'B')));
    Ok(())
}

// A block that no image of layout 3 with so many sectors has takes no call.
#[test]
fn what_is_no_block_is_not_looked_for(rt: HostRuntime) -> Result<(), Fail> {
    for (sectors, block, want) in [
        (544, 32, Ok(None)),
        (544, 65535, Ok(None)),
        (560, 33, Ok(None)),
        (131, 5, Err(OpenFault::BadSize)),
        (542, 5, Err(OpenFault::BadSize)),
        (0, 0, Err(OpenFault::BadSize)),
    ] {
        let mut disk = MemoryDisk::new(rt.alloc(), sectors)?;
        assert_same!(rt; had(&mut disk, block)?, want, "{block} of {sectors}");
        assert_same!(rt; disk.counts(), Counts::default(), "{block} of {sectors}");
    }
    Ok(())
}

// Each of the five reads fails.
#[test]
fn a_fault_of_each_read_is_told(rt: HostRuntime) -> Result<(), Fail> {
    for call in 1..7 {
        let want = if call < 6 {
            Err(OpenFault::Device)
        } else {
            Ok(Some(b'B'))
        };
        let image = saved(rt.alloc(), 32, &SAVES)?;
        let before = image.counts();
        let mut disk = Fused::once(image, call);
        assert_same!(rt; had(&mut disk, 5)?, want, "once at {call}");
        let passed = disk.into_device().counts();
        assert_same!(rt; since(passed, before), [call.saturating_sub(1), 0, 0], "once at {call}");
        let mut disk = Fused::from(saved(rt.alloc(), 32, &SAVES)?, call);
        assert_same!(rt; had(&mut disk, 5)?, want, "from {call}");
    }
    Ok(())
}
