//! Bytes in memory as a device that is only read, and as a file.
use crate::assertions::{Assert, assert_same};
use crate::contents::holds;
use image_care::{ReadOnlyFile, StillDisk};
use sector_disk::{DeviceFault, SectorDevice, SectorFile};
use std::test::Fail;

#[test]
fn bytes_in_memory_are_only_read(rt: HostRuntime) -> Result<(), Fail> {
    let bytes = [7; 513];
    let mut end = [0; 512];
    end[0] = 7;
    let mut disk = StillDisk::new(&bytes, 3);
    assert_same!(rt; disk.sectors(), 3);
    assert_same!(rt; disk.write(0, &[9; 512]), Err(DeviceFault));
    assert_same!(rt; disk.sync(), Err(DeviceFault));
    holds(&rt, &mut disk, 0, &[7; 512])?;
    holds(&rt, &mut disk, 1, &end)?;
    holds(&rt, &mut disk, 2, &[0; 512])
}

#[test]
fn a_copy_in_memory_is_read_to_its_end(rt: HostRuntime) -> Result<(), Fail> {
    let bytes = vec![in rt.alloc(); 7; 1024]?;
    let mut disk = SectorFile::new(ReadOnlyFile::Still(bytes), 3);
    assert_same!(rt; disk.read(2, &mut [0; 512]), Err(DeviceFault));
    holds(&rt, &mut disk, 1, &[7; 512])
}
