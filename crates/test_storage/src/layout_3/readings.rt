// What is read whole of an image, by readings that all give the same.
use crate::assertions::{Assert, assert_same};
use crate::layout_3::images::blank;
use crate::sectors::sector;
use image_care::{StillReadings, read_whole};
use sector_disk::FileFault;
use std::alloc::Global;
use std::test::Fail;

// The bytes of an image of blank blocks.
fn image_bytes(alloc: Global) -> Result<Vec<u8>, Fail> {
    let mut disk = blank(alloc)?;
    let mut bytes = Vec::new(alloc);
    for k in 0..544 {
        bytes.extend_from_slice(&sector(&mut disk, k)?)?;
    }
    Ok(bytes)
}

// Whether the bytes are read whole, and are the same then.
fn are_read(alloc: Global, bytes: &[u8]) -> Result<bool, FileFault> {
    match read_whole(alloc, &mut StillReadings::new(bytes), 544) {
        Ok(read) => Ok(read.as_slice() == bytes),
        Err(fault) => Err(fault),
    }
}

#[test]
fn an_image_is_in_use_where_no_reading_gives_one(rt: HostRuntime) -> Result<(), Fail> {
    let mut bytes = image_bytes(rt.alloc())?;
    assert_same!(rt; are_read(rt.alloc(), &bytes), Ok(true));
    assert_same!(rt; are_read(rt.alloc(), &[]), Err(FileFault::InUse));
    if let Some(byte) = bytes.get_mut(512 * 32) {
        *byte = b'?';
    }
    assert_same!(rt; are_read(rt.alloc(), &bytes), Err(FileFault::InUse));
    Ok(())
}
