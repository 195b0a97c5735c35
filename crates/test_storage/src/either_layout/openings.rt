// Which images are opened: of each layout those of its own size.
use crate::either_layout::saves::made;
use journal::sizes::known_blocks;
use recovery::OpenFault;
use sector_disk::{MemoryDisk, SectorDevice};
use std::alloc::Global;
use std::test::Fail;
use stores::open;

fn refusal(disk: MemoryDisk) -> &'static str {
    match open(disk) {
        Ok(_) => "opened",
        Err((OpenFault::BadSize, _)) => "bad size",
        Err((OpenFault::NoLabel, _)) => "no label",
        Err((OpenFault::OtherVersion, _)) => "other version",
        Err((OpenFault::WrongCount, _)) => "wrong count",
        Err((OpenFault::Damaged, _)) => "damaged",
        Err((OpenFault::Device, _)) => "device",
    }
}

// Sectors of zeros, under the label of an image of layout 2 or 3.
fn labelled(alloc: Global, sectors: u32, newer: bool) -> Result<MemoryDisk, Fail> {
    let mut from = made(alloc, newer)?.into_device();
    let mut disk = MemoryDisk::new(alloc, sectors)?;
    if from.sectors() == 0 || disk.sectors() == 0 {
        return Err("no label")?;
    }
    let mut label = [0; 512];
    from.read(0, &mut label).map_err(|_| "no label read")?;
    disk.write(0, &label).map_err(|_| "no label written")?;
    Ok(disk)
}

#[test]
fn an_image_of_either_layout_is_opened(rt: HostRuntime) -> Result<(), Fail> {
    for newer in [false, true] {
        assert_eq!(rt; refusal(made(rt.alloc(), newer)?.into_device()), "opened");
    }
    Ok(())
}

#[test]
fn each_size_has_its_layout(rt: HostRuntime) -> Result<(), Fail> {
    for (sectors, newer, want) in [
        (131, true, "other version"),
        (544, false, "other version"),
        (135, false, "wrong count"),
        (560, true, "wrong count"),
        (544, true, "damaged"), // no tag is that of zeros
        (131, false, "opened"), // blocks of zeros
        (132, false, "bad size"),
        (545, true, "bad size"),
        (528, true, "bad size"),
        (61488, true, "bad size"),
        (1, false, "bad size"),
    ] {
        let disk = labelled(rt.alloc(), sectors, newer)?;
        assert_eq!(rt; refusal(disk), want, "{sectors} sectors");
    }
    Ok(())
}

#[test]
fn a_disk_of_zeros_has_no_label(rt: HostRuntime) -> Result<(), Fail> {
    for sectors in [131, 544] {
        let disk = MemoryDisk::new(rt.alloc(), sectors)?;
        assert_eq!(rt; refusal(disk), "no label", "{sectors} sectors");
    }
    Ok(())
}

#[test]
fn a_size_has_its_blocks(rt: HostRuntime) -> Result<(), Fail> {
    for (sectors, want) in [
        (131, Some(32)),
        (15363, Some(3840)),
        (544, Some(32)),
        (61472, Some(3840)),
        (0, None),
        (127, None),
        (132, None),
        (528, None),
        (545, None),
        (15367, None),
        (61488, None),
        (1048608, None), // as many as 65,536 blocks would have
        (u32::MAX, None),
    ] {
        assert_eq!(rt; known_blocks(sectors), want, "{sectors} sectors");
    }
    Ok(())
}
