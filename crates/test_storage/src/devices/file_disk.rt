use crate::assertions::{Assert, assert_same};
use crate::contents::are_full;
use sector_disk::{FileDisk, FileFault, SectorDevice};
use std::fs;
use std::test::Fail;
use test_stops::disks::{put, sector};

#[test]
fn a_file_keeps_what_is_written(rt: HostRuntime) -> Result<(), Fail> {
    let folder = "sector_disk_kept";
    let path = "sector_disk_kept/image";
    let _ = fs::remove_dir_all(&rt, folder);
    fs::create_dir(&rt, folder)?;
    let mut disk = FileDisk::create(&rt, path, 131)?;
    assert_same!(rt; disk.sectors(), 131);
    are_full(&rt, &mut disk, &[(0, 130, 0)])?;
    put(&mut disk, 0, &[1; 512])?;
    put(&mut disk, 130, &[2; 512])?;
    disk.sync()?;
    drop(disk);
    assert_same!(rt; fs::metadata(&rt, path)?.len(), 67_072);
    let mut disk = FileDisk::open(&rt, path)?;
    assert_same!(rt; disk.sectors(), 131);
    let rows = [(0, 0, 1), (1, 1, 0), (129, 129, 0), (130, 130, 2)];
    are_full(&rt, &mut disk, &rows)?;
    fs::remove_dir_all(&rt, folder)?;
    Ok(())
}

// Other programs read an image by these places.
#[test]
fn each_sector_stands_at_its_place(rt: HostRuntime) -> Result<(), Fail> {
    let folder = "sector_disk_places";
    let path = "sector_disk_places/image";
    let _ = fs::remove_dir_all(&rt, folder);
    fs::create_dir(&rt, folder)?;
    let mut disk = FileDisk::create(&rt, path, 131)?;
    for k in 0..131 {
        put(&mut disk, k, &[k as u8; 512])?;
    }
    disk.sync()?;
    drop(disk);
    let bytes = fs::read(&rt, path)?;
    let is_so = bytes
        .iter()
        .enumerate()
        .all(|(at, byte)| *byte as usize == at / 512);
    assert!(rt; bytes.len() == 67_072 && is_so);
    fs::remove_dir_all(&rt, folder)?;
    Ok(())
}

#[test]
fn files_are_refused(rt: HostRuntime) -> Result<(), Fail> {
    let folder = "sector_disk_refused";
    let path = "sector_disk_refused/image";
    let _ = fs::remove_dir_all(&rt, folder);
    assert_same!(rt;
        FileDisk::create(&rt, path, 1).err(),
        Some(FileFault::Cannot)
    );
    fs::create_dir(&rt, folder)?;
    assert_same!(rt; FileDisk::open(&rt, path).err(), Some(FileFault::Cannot));
    assert_same!(rt; FileDisk::open(&rt, folder).err(), Some(FileFault::Cannot));
    assert!(rt; FileDisk::create(&rt, path, 1).is_ok());
    assert_same!(rt;
        FileDisk::create(&rt, path, 1).err(),
        Some(FileFault::Exists)
    );
    assert_same!(rt;
        FileDisk::create(&rt, folder, 1).err(),
        Some(FileFault::Exists)
    );
    fs::remove_dir_all(&rt, folder)?;
    Ok(())
}

#[test]
fn a_length_of_no_sectors_has_none(rt: HostRuntime) -> Result<(), Fail> {
    let folder = "sector_disk_lengths";
    let path = "sector_disk_lengths/image";
    let _ = fs::remove_dir_all(&rt, folder);
    fs::create_dir(&rt, folder)?;
    fs::write(&rt, path, b"".as_slice())?;
    for (len, sectors) in [
        (0, 0),
        (511, 0),
        (512, 1),
        (67_071, 0),
        (67_072, 131),
        ((1 << 41) - 512, u32::MAX),
        (1 << 41, 0),
        ((1 << 41) + 512, 0),
    ] {
        fs::OpenOptions::new()
            .write(true)
            .open(&rt, path)?
            .set_len(len)?;
        assert_same!(rt; FileDisk::open(&rt, path)?.sectors(), sectors, "at {len}");
    }
    fs::remove_dir_all(&rt, folder)?;
    Ok(())
}

#[test]
fn calls_of_a_file_that_was_cut_fail(rt: HostRuntime) -> Result<(), Fail> {
    let folder = "sector_disk_cut";
    let path = "sector_disk_cut/image";
    let _ = fs::remove_dir_all(&rt, folder);
    fs::create_dir(&rt, folder)?;
    let mut disk = FileDisk::create(&rt, path, 2)?;
    fs::OpenOptions::new()
        .write(true)
        .open(&rt, path)?
        .set_len(700)?;
    are_full(&rt, &mut disk, &[(0, 0, 0)])?;
    assert!(rt; sector(&mut disk, 1).is_err());
    fs::remove_dir_all(&rt, folder)?;
    Ok(())
}

// The null device has no length, and can't be synced. (That one failed sync makes all later ones fail, a clause says.)
#[test]
fn a_sync_that_fails_is_told(rt: HostRuntime) -> Result<(), Fail> {
    let mut disk = FileDisk::open(&rt, "/dev/null")?;
    assert_same!(rt; disk.sectors(), 0);
    assert!(rt; disk.sync().is_err());
    assert!(rt; disk.sync().is_err());
    Ok(())
}
