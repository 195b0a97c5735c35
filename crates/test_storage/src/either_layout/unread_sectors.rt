// What is had of an image of which some sectors can't be read. What is wanted follows from where the parts of an image stand: by layout 2 block b has its
// home at 67 + 2b, by layout 3 its places at 32 + 16b and 40 + 16b, of three sectors each.
use crate::assertions::{Assert, assert_same};
use crate::devices::scarred::{NONE, Scarred};
use crate::either_layout::saves::made;
use crate::layout_3::salvages::{SAVES, told};
use crate::sectors::sector;
use image_care::{Taken, copy, examine, mend, read_block, read_through, salvage};
use journal::Store;
use recovery::OpenFault;
use sector_disk::{MemoryDisk, SectorDevice, SectorFile};
use std::alloc::Global;
use std::test::Fail;

fn save(store: &mut Store<MemoryDisk>, b: u16, byte: u8) -> Result<(), &'static str> {
    if b >= store.blocks() {
        return Err("no such block");
    }
    store.spill(b, &[byte; 1024]).map_err(|_| "spill failed")?;
    store.commit().map_err(|_| "commit failed")
}

// Block 5 was saved full of A and then of B, and then block 31 full of C. By layout 3 the second of block 5 lies in its first place, over the first in the
// second; and that of block 31 in its second.
fn saved(alloc: Global, newer: bool) -> Result<MemoryDisk, Fail> {
    let mut store = made(alloc, newer)?;
    for (b, byte) in SAVES {
        save(&mut store, b, byte)?;
    }
    Ok(store.into_device())
}

// The image is read through, and what was had of it is salvaged: the new image, what was told of it, and the sectors that couldn't be read.
fn salvaged(
    alloc: Global,
    newer: bool,
    scars: [u32; 3],
) -> Result<(MemoryDisk, Taken, Vec<u32>), Fail> {
    salvaged_of(alloc, saved(alloc, newer)?, scars)
}

// The same of the image on a disk.
fn salvaged_of(
    alloc: Global,
    disk: MemoryDisk,
    scars: [u32; 3],
) -> Result<(MemoryDisk, Taken, Vec<u32>), Fail> {
    let sectors = disk.sectors();
    let mut old = SectorFile::new(Scarred::new(disk, scars), sectors);
    let (bytes, unread) = read_through(alloc, &mut old)?;
    let mut seen = mend(&bytes, sectors);
    let mut new = MemoryDisk::new(alloc, sectors)?;
    let taken = salvage(&mut seen, &mut new).map_err(|_| "not salvaged")?;
    Ok((new, taken, unread))
}

// By layout 3 a block is taken from its other place. Without the record that the gate names the gate's sum tells the places; without the gate, of the two
// records, that under which fewer blocks are blank; without both, the record that is left.
#[test]
fn what_can_be_read_is_salvaged(rt: HostRuntime) -> Result<(), Fail> {
    for (newer, scars, want) in [
        (false, [NONE; 3], " 5B 31C"),
        (false, [77, NONE, NONE], " 31C"),
        (false, [78, NONE, NONE], " 5B 31C"),
        (false, [0, 1, 2], " 5B 31C"),
        (false, [13, 14, 65], " 5B 31C"),
        (false, [77, 78, 129], ""),
        (true, [NONE; 3], " 5B 31C"),
        (true, [112, NONE, NONE], " 5A 31C, other 5"),
        (true, [113, NONE, NONE], " 5A 31C, other 5"),
        (true, [114, NONE, NONE], " 5A 31C, other 5"),
        (true, [115, 119, 123], " 5B 31C"),
        (true, [112, 121, NONE], " 31C, lost 5"),
        (true, [120, 121, 122], " 5B 31C"),
        (true, [114, 538, NONE], " 5A, other 5, other 31"),
        (true, [0, 24, NONE], " 5B 31C"),
        (true, [8, NONE, NONE], " 5B 31C"),
        (true, [16, NONE, NONE], " 5B 31C"),
        (true, [16, 24, NONE], " 5B 31C"),
        (true, [8, 16, NONE], " 5B"),
        // A record of blanks names the second place of each block b of which b mod 8 is 5. A gate of blanks is of it, by its sum: so no other one is looked for.
        (true, [8, 24, NONE], " 5A, other 13, other 21, other 29"),
        // Without a place of block 5 no places have the sum, so the other record is taken, or a record of blanks.
        (true, [16, 112, NONE], " 5A, other 13, other 21, other 29"),
        (true, [8, 16, 112], " 5A, other 5"),
    ] {
        let (mut new, taken, unread) = salvaged(rt.alloc(), newer, scars)?;
        let many = scars.iter().filter(|scar| **scar != NONE).count();
        let (told_of, _) = scars.split_at(many);
        let [one, other, _] = scars;
        assert!(rt; unread.as_slice() == told_of, "{newer} {one} {other}");
        assert_same!(rt; told(rt.alloc(), &mut new, &taken)?.as_str(), want, "{newer} {one} {other}");
    }
    Ok(())
}

// Blocks 0 to 31 of a new image were saved at once, each full of another byte.
fn filled(alloc: Global) -> Result<MemoryDisk, Fail> {
    let mut store = made(alloc, true)?;
    for b in 0..32 {
        if b < store.blocks() {
            store
                .spill(b, &[b'@' + b as u8; 1024])
                .map_err(|_| "spill failed")?;
        }
    }
    store.commit().map_err(|_| "commit failed")?;
    Ok(store.into_device())
}

// Each block stands over a blank one, which the record of before names.
#[test]
fn a_lost_gate_or_record_costs_no_block(rt: HostRuntime) -> Result<(), Fail> {
    for scar in [8, 16, 24] {
        let (mut new, _, _) = salvaged_of(rt.alloc(), filled(rt.alloc())?, [scar, NONE, NONE])?;
        for b in 0..32 {
            assert_same!(rt; read_block(&mut new, b), Ok(Some([b'@' + b as u8; 1024])), "{scar} {b}");
        }
    }
    Ok(())
}

// Of an image of layout 3 the sectors that are tried: label, gate and records with one beside each, and the pages of blocks 0, 5 and 31.
const TRIED: [(u32, u32); 7] = [
    (0, 2),
    (8, 2),
    (16, 2),
    (24, 2),
    (32, 16),
    (112, 16),
    (528, 16),
];

// Whether a sector lies in a place that counts: of block 31 in the second one, of each other block in the first.
fn counts(k: u32) -> bool {
    match k {
        0..32 => false,
        528.. => 536 <= k && k < 539,
        _ => k % 16 < 3,
    }
}

// Whichever sector can't be read, all blocks are had, but for one that counts there: of that what stands whole in its other place.
#[test]
fn one_sector_costs_at_most_its_block(rt: HostRuntime) -> Result<(), Fail> {
    for (first, many) in TRIED {
        for k in first..first + many {
            let (mut new, taken, unread) = salvaged(rt.alloc(), true, [k, NONE, NONE])?;
            let want = match k {
                _ if !counts(k) => " 5B 31C",
                // (its bytes are blanks, which stand for a sector that can't be read too)
                32 | 33 => " 5B 31C",
                34 => " 5B 31C, lost 0",
                112..115 => " 5A 31C, other 5",
                _ => " 5B, other 31",
            };
            assert!(rt; unread.as_slice() == [k].as_slice(), "{k}");
            assert_same!(rt; told(rt.alloc(), &mut new, &taken)?.as_str(), want, "{k}");
        }
    }
    Ok(())
}

// A sector that nobody uses, or one of a free place, stops no copy and no examination; each other one does.
#[test]
fn what_does_not_count_stops_no_copy(rt: HostRuntime) -> Result<(), Fail> {
    for (first, many) in TRIED {
        for k in first..first + many {
            let mut old = SectorFile::new(
                Scarred::new(saved(rt.alloc(), true)?, [k, NONE, NONE]),
                544,
            );
            let mut new = MemoryDisk::new(rt.alloc(), 544)?;
            let stops = matches!(k, 0 | 8 | 16) || counts(k);
            assert_same!(rt; examine(&mut old).is_err(), stops, "{k}");
            assert_same!(rt; copy(&mut old, &mut new).is_err(), stops, "{k}");
        }
    }
    Ok(())
}

// By layout 2 the half of a home that can be read is kept.
#[test]
fn the_other_half_of_a_home_is_kept(rt: HostRuntime) -> Result<(), Fail> {
    for (scar, first, second) in [(77, b' ', b'B'), (78, b'B', b' ')] {
        let (mut new, _, _) = salvaged(rt.alloc(), false, [scar, NONE, NONE])?;
        let Ok(Some(bytes)) = read_block(&mut new, 5) else {
            return Err("not read")?;
        };
        let (one, other) = bytes.split_at(512);
        assert!(rt; one.iter().all(|byte| *byte == first), "{scar}");
        assert!(rt; other.iter().all(|byte| *byte == second), "{scar}");
    }
    Ok(())
}

// Each sector that can be read is had as it is, and blanks stand for the others.
#[test]
fn blanks_stand_for_what_cannot_be_read(rt: HostRuntime) -> Result<(), Fail> {
    let scars = [0, 77, 130];
    let mut disk = saved(rt.alloc(), false)?;
    let sectors = disk.sectors();
    let mut old = SectorFile::new(Scarred::new(saved(rt.alloc(), false)?, scars), sectors);
    let (bytes, unread) = read_through(rt.alloc(), &mut old)?;
    assert!(rt; unread.as_slice() == scars.as_slice());
    assert_same!(rt; bytes.len(), 512 * 131);
    for k in 0..sectors {
        let want = if scars.iter().any(|scar| *scar == k) {
            [b' '; 512]
        } else {
            sector(&mut disk, k)?
        };
        let at = 512 * k as usize;
        assert!(rt;
            bytes.as_slice().get(at..at + 512) == Some(want.as_slice()),
            "sector {k}"
        );
    }
    Ok(())
}

// An examination of such an image ends at a sector that can't be read, be it of the label, of the gate or of a block.
#[test]
fn a_look_ends_at_a_sector_that_cannot_be_read(rt: HostRuntime) -> Result<(), Fail> {
    for (newer, scar) in [
        (false, 0),
        (false, 1),
        (false, 130),
        (true, 0),
        (true, 8),
        (true, 114),
    ] {
        let disk = saved(rt.alloc(), newer)?;
        let sectors = disk.sectors();
        let mut old = SectorFile::new(Scarred::new(disk, [scar, NONE, NONE]), sectors);
        assert!(rt;
            matches!(examine(&mut old), Err(OpenFault::Device)),
            "{newer} {scar}"
        );
    }
    Ok(())
}
