//! Files of this system as devices: locks, places, calls that fail, and what a save leaves in one.
use crate::sectors::{put, sector};
use recovery::format;
use sector_disk::{FileDisk, FileFault, HostFiles, SectorDevice, SectorFile, StdFiles};
use std::fs;
use std::fs::Permissions;
use std::os::unix::fs::{MetadataExt, PermissionsExt, symlink};
use std::test::Fail;

/// How many sectors an image of 32 blocks has by layout 2.
const SECTORS: u32 = 131;

/// How many sectors an image of 3,840 blocks has by layout 2, the largest.
const MOST_SECTORS: u32 = 15_363;

#[test]
fn a_file_is_opened_once(rt: HostRuntime) -> Result<(), Fail> {
    let folder = "files_locked";
    let path = "files_locked/image";
    let _ = fs::remove_dir_all(&rt, folder);
    fs::create_dir(&rt, folder)?;
    let made = FileDisk::create(&rt, path, SECTORS)?;
    assert_eq!(rt; FileDisk::open(&rt, path).err(), Some(FileFault::InUse));
    drop(made);
    let opened = FileDisk::open(&rt, path)?;
    fs::hard_link(&rt, path, "files_locked/link")?;
    symlink(&rt, "image", "files_locked/name")?;
    for other in ["files_locked/link", "files_locked/name"] {
        assert_eq!(rt;
            FileDisk::open(&rt, other).err(),
            Some(FileFault::InUse),
            "{other}"
        );
    }
    drop(opened);
    assert!(rt; FileDisk::open(&rt, path).is_ok());
    fs::remove_dir_all(&rt, folder)?;
    Ok(())
}

/// A file that is made has its name once that was kept, and not before, unless something else has got it: that stays. What is let go of is gone.
#[test]
fn a_file_has_its_name_once_it_is_kept(rt: HostRuntime) -> Result<(), Fail> {
    let (folder, path, part) = ("files_kept", "files_kept/image", "files_kept/image.part");
    let _ = fs::remove_dir_all(&rt, folder);
    fs::create_dir(&rt, folder)?;
    let files = StdFiles::new(&rt);
    let file = files.make(path)?;
    assert!(rt; fs::metadata(&rt, path).is_err());
    assert_eq!(rt;
        files.keep_name("files_nowhere/image", &file),
        Err(FileFault::Cannot)
    );
    assert_eq!(rt; files.keep_name(path, &file), Ok(()));
    assert!(rt; fs::metadata(&rt, path).is_ok() && fs::metadata(&rt, part).is_err());
    drop(file);
    assert_eq!(rt; files.make(path).err(), Some(FileFault::Exists));
    fs::remove_file(&rt, path)?;
    let file = files.make(path)?;
    fs::write(&rt, path, b"other".as_slice())?;
    assert_eq!(rt; files.keep_name(path, &file), Err(FileFault::Exists));
    files.drop_made(path, &file);
    assert!(rt; fs::metadata(&rt, part).is_err());
    assert!(rt; fs::read(&rt, path)?.as_slice() == b"other".as_slice());
    fs::remove_dir_all(&rt, folder)?;
    Ok(())
}

/// Of two makings of one name the second is refused. What one that was cut has left goes, but what is no file stays, and so does an image that has
/// its own name and that of its making.
#[test]
fn a_making_that_was_cut_is_begun_anew(rt: HostRuntime) -> Result<(), Fail> {
    let (folder, path, part) = ("files_cut", "files_cut/image", "files_cut/image.part");
    let _ = fs::remove_dir_all(&rt, folder);
    fs::create_dir(&rt, folder)?;
    let files = StdFiles::new(&rt);
    let first = files.make(path)?;
    assert_eq!(rt; files.make(path).err(), Some(FileFault::InUse));
    files.keep_name(path, &first)?;
    drop(first);
    fs::rename(&rt, path, part)?;
    drop(FileDisk::create(&rt, path, SECTORS)?);
    assert!(rt; fs::metadata(&rt, part).is_err());
    let other = "files_cut/other";
    fs::rename(&rt, path, other)?;
    fs::hard_link(&rt, other, part)?;
    drop(FileDisk::create(&rt, path, SECTORS)?);
    assert_eq!(rt; fs::metadata(&rt, other)?.nlink(), 1);
    fs::remove_file(&rt, path)?;
    fs::create_dir(&rt, part)?;
    assert_eq!(rt;
        FileDisk::create(&rt, path, SECTORS).err(),
        Some(FileFault::Cannot)
    );
    assert!(rt; fs::metadata(&rt, path).is_err());
    fs::remove_dir_all(&rt, folder)?;
    Ok(())
}

/// A file that is made has the rights of the one that it is to be like, whatever the mask takes away; and where that one's can't be seen, it is its owner's.
#[test]
fn a_file_has_the_rights_of_another(rt: HostRuntime) -> Result<(), Fail> {
    let folder = "files_rights";
    let (old, new) = ("files_rights/old", "files_rights/new");
    let _ = fs::remove_dir_all(&rt, folder);
    fs::create_dir(&rt, folder)?;
    fs::write(&rt, old, b"".as_slice())?;
    for rights in [0o600, 0o640, 0o664, 0o666, 0o755, 0o400] {
        fs::set_permissions(&rt, old, Permissions::from_mode(rights))?;
        let files = StdFiles::with_rights_of(&rt, Some(old));
        files.keep_name(new, &files.make(new)?)?;
        assert_eq!(rt; fs::metadata(&rt, new)?.mode() & 0o777, rights);
        fs::remove_file(&rt, new)?;
    }
    let files = StdFiles::with_rights_of(&rt, Some("files_rights/none"));
    files.keep_name(new, &files.make(new)?)?;
    assert_eq!(rt; fs::metadata(&rt, new)?.mode() & 0o177, 0);
    fs::remove_dir_all(&rt, folder)?;
    Ok(())
}

/// Each sector of the largest image of layout 2 stands at its place, and the whole file has its room from the beginning.
#[test]
fn the_largest_image_has_each_sector_at_its_place(rt: HostRuntime) -> Result<(), Fail> {
    let folder = "files_places";
    let path = "files_places/image";
    let _ = fs::remove_dir_all(&rt, folder);
    fs::create_dir(&rt, folder)?;
    let mut disk = FileDisk::create(&rt, path, MOST_SECTORS)?;
    let made = fs::metadata(&rt, path)?;
    assert_eq!(rt; made.len(), 7_865_856);
    assert!(rt; made.blocks() >= 15_363);
    assert!(rt; fs::read(&rt, path)?.iter().all(|byte| *byte == 0));
    for k in 0..MOST_SECTORS {
        put(&mut disk, k, &numbered(k))?;
    }
    for k in 0..MOST_SECTORS {
        assert!(rt; sector(&mut disk, k)? == numbered(k), "sector {k}");
    }
    disk.sync()?;
    drop(disk);
    let bytes = fs::read(&rt, path)?;
    assert_eq!(rt; bytes.len(), 7_865_856);
    let mut k = 0;
    for piece in bytes.as_slice().chunks(512) {
        assert!(rt; piece == numbered(k).as_slice(), "sector {k}");
        k = k.saturating_add(1);
    }
    fs::remove_dir_all(&rt, folder)?;
    Ok(())
}

/// A sector full of its number's low byte, with the number in front.
fn numbered(k: u32) -> [u8; 512] {
    let mut bytes = [(k % 256) as u8; 512];
    bytes[0] = (k / 256 % 256) as u8;
    bytes
}

/// The system takes no byte here, and gives none back.
#[test]
fn writes_that_the_system_refuses_are_told(rt: HostRuntime) -> Result<(), Fail> {
    let file = StdFiles::new(&rt).open("/dev/full")?;
    let mut disk = SectorFile::new(file, 2);
    assert!(rt; put(&mut disk, 1, &[1; 512]).is_err());
    let file = StdFiles::new(&rt).open("/dev/null")?;
    let mut disk = SectorFile::new(file, 2);
    assert!(rt; sector(&mut disk, 1).is_err());
    Ok(())
}

/// The bytes from `first` on, up to before `last`; none where there are fewer.
fn part(bytes: &[u8], first: usize, last: usize) -> &[u8] {
    match bytes.get(first..last) {
        Some(part) => part,
        None => &[],
    }
}

/// A save of one block, by the bytes of the file: label, a closed gate, the record, slot and home.
#[test]
fn a_save_stands_in_the_file(rt: HostRuntime) -> Result<(), Fail> {
    let folder = "files_saved";
    let path = "files_saved/image";
    let _ = fs::remove_dir_all(&rt, folder);
    fs::create_dir(&rt, folder)?;
    let Ok(mut store) = format(FileDisk::create(&rt, path, SECTORS)?, 32) else {
        return Err("no format")?;
    };
    if store.blocks() <= 1 {
        return Err("no block")?;
    }
    store.spill(1, &[65; 1024])?;
    store.commit()?;
    drop(store);
    let file = fs::read(&rt, path)?;
    let bytes = file.as_slice();
    assert_eq!(rt; bytes.len(), 67_072);
    assert!(rt; part(bytes, 0, 8) == b"F83BLOCK".as_slice());
    assert!(rt; part(bytes, 512, 1024) == [0; 512].as_slice());
    assert!(rt; part(bytes, 1024, 1025) == [2].as_slice());
    assert!(rt; part(bytes, 2560, 3584) == [65; 1024].as_slice());
    assert!(rt; part(bytes, 3584, 34_304).iter().all(|byte| *byte == 0));
    assert!(rt; part(bytes, 35_328, 36_352) == [65; 1024].as_slice());
    assert!(rt; part(bytes, 36_352, 67_072).iter().all(|byte| *byte == 32));
    fs::remove_dir_all(&rt, folder)?;
    Ok(())
}
