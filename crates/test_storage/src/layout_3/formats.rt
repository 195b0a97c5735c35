// Formats: what is written, and what a stop leaves of it.
use crate::assertions::{Assert, assert_same};
use crate::layout_3::images::{blank, opened, spill, told};
use crate::layout_3::openings::refusal;
use crate::sectors::sector;
use sector_disk::{Fate, Fused, MemoryDisk};
use shadow::format;
use std::alloc::Global;
use std::test::Fail;
use test_devices::Coarse;

#[test]
fn a_format_makes_the_blank_image(rt: HostRuntime) -> Result<(), Fail> {
    let Ok(store) = format(Coarse::new(MemoryDisk::new(rt.alloc(), 544)?), 32) else {
        return Err("not made")?;
    };
    let mut disk = store.into_device().into_device();
    assert_same!(rt; disk.counts().syncs, 3);
    let mut want = blank(rt.alloc())?;
    for k in 0..544 {
        assert_same!(rt; sector(&mut disk, k)?, sector(&mut want, k)?, "sector {k}");
    }
    Ok(())
}

#[test]
fn another_size_is_refused(rt: HostRuntime) -> Result<(), Fail> {
    for sectors in [0, 131, 543, 545] {
        let disk = MemoryDisk::new(rt.alloc(), sectors)?;
        assert!(rt; format(disk, 32).is_err(), "{sectors}");
    }
    Ok(())
}

// An image with block 5 of A, of whose format the calls from this one on fail.
fn format_until(alloc: Global, call: u64) -> Result<MemoryDisk, Fail> {
    let mut store = opened(blank(alloc)?, u64::MAX)?;
    spill(&mut store, 5, b'A')?;
    store.commit().map_err(|_| "commit failed")?;
    let disk = store.into_device().into_device().into_device();
    match format(Fused::from(Coarse::new(disk), call.max(1)), 32) {
        Ok(store) => Ok(store.into_device().into_device().into_device()),
        Err((_, device)) => Ok(device.into_device().into_device()),
    }
}

// Call 3 clears the label, calls 5 to 135 fill the image, and call 137 writes the label.
fn is_allowed(call: u64, text: &str) -> bool {
    match text {
        " 5A" => call <= 4,
        "no label" => 4 <= call && call <= 138,
        "" => call >= 138,
        _ => false,
    }
}

#[test]
fn a_stop_leaves_the_old_image_none_or_the_new_one(rt: HostRuntime) -> Result<(), Fail> {
    for call in [1, 3, 4, 5, 7, 40, 134, 136, 137, 138, 139] {
        let disk = format_until(rt.alloc(), call)?;
        for others in [Fate::Kept, Fate::Lost] {
            let mut fates = [others; 16];
            fates[0] = Fate::Torn([b'?'; 512]);
            let mut left = disk.try_clone(rt.alloc())?.stop(&fates);
            let said = refusal(left.try_clone(rt.alloc())?);
            let text = told(rt.alloc(), &mut left)?;
            let text = if said == "opened" {
                text.as_str()
            } else {
                said
            };
            assert!(rt; is_allowed(call, text), "before call {call}: {text}");
        }
    }
    Ok(())
}
