//! Images of layout 3 on disks in memory, whose calls fail and are stopped, that are checked, copied, salvaged, and listed and exported by reads alone.
use super::layout_3_images::{FILLED, LENGTH};
use super::stopping::{Disk, FATES, Fate, Making, OneDisk, Opened, copying_is_stopped};
use super::support::{
    DEVICE_FAULT, Left, call_over, call_over_both, check, overwrite, run_over_files, told_of_making,
};
use super::systems::{BOTH, SAVED, SEVENS};
use crate::assertions::{Assert, assert_same};
use sector_disk::{FileFault, HostFault, HostFiles};
use sha2::{Digest, Sha256};
use std::alloc::Global;
use std::fs::File;
use std::process::Abort;
use std::rt::Files;
use std::test::Fail;

/// What the blocks begin with once 7 was saved in two of them.
const BOTH_SEVENS: &[(u16, &str)] = &[(1, "\x07\x00"), (2, "\x07\x00")];

/// What each salvage tells.
pub(crate) const PAGES_NO_RECOVERY: &str =
    "salvaged, not recovered: a damaged block may be older, or written and not saved, or blank\n";

const COPY: Making = Making {
    words: &["forth83", "copy", "A", "A"],
    length: LENGTH,
    filled: FILLED,
};

const SALVAGE: Making = Making {
    words: &["forth83", "salvage", "A", "A"],
    ..COPY
};

/// Prints the first characters of both blocks.
const FIRST_CHARACTERS: &[u8] = b"1 BLOCK C@ . 2 BLOCK C@ .\n";

/// What `check` prints of an image of so many blocks, which are blank but for these, of which each begins so.
fn report(alloc: Global, blocks: u16, starts: &[(u16, &str)]) -> Result<String, Fail> {
    let mut hasher = Sha256::new();
    for b in 0..blocks {
        let mut bytes = [b' '; 1024];
        for (block, start) in starts {
            if *block == b {
                overwrite(&mut bytes, 0, start.as_bytes());
            }
        }
        hasher.update(bytes.as_slice());
    }
    let digest: [u8; 32] = hasher.finalize();
    let length = 512 * (32 + 16 * blocks as u32);
    let mut text = format!(in alloc;
        "bytes: {length}\nlayout: 3\nblocks: {blocks}\nsave under way: none\nsha256: "
    )?;
    for byte in digest {
        let digits = format!(in alloc; "{byte:02x}")?;
        text.push_str(&digits)?;
    }
    text.push_str("\n")?;
    Ok(text)
}

/// Changes a byte of a sector.
pub(crate) fn change(bytes: &mut [u8], sector: usize, at: usize) {
    let place = sector.saturating_mul(512).saturating_add(at);
    if let Some(byte) = bytes.get_mut(place) {
        *byte ^= 255;
    }
}

/// A disk with an image of 32 blocks, of which two were saved at once.
pub(crate) fn with_sevens(
    rt: &(impl Files<File = File> + AllocGlobal + Abort),
) -> Result<Disk, Fail> {
    let disk = Disk::of_length(rt, LENGTH)?;
    let files = OneDisk::new(&disk);
    let words = ["forth83", "new", "A", "--blocks", "32", "--layout", "3"];
    let left = call_over(rt, &files, &words, b"");
    assert_same!(rt; (left.status, left.errors.as_slice()), (0, b"".as_slice()));
    run_over_files(rt, &files, SAVED)?;
    disk.begin(u64::MAX);
    Ok(disk)
}

/// Saves 8 in both blocks at once.
const EIGHTS: &[u8] = b"8 1 BLOCK ! UPDATE 8 2 BLOCK ! UPDATE SAVE-BUFFERS\n";

/// A session that saves is stopped at each call of the save, and at the last one with each fate: in what a check tells no save is under way, and
/// the blocks are those before it, or as saved.
#[test]
fn saves_that_were_stopped_are_checked(rt: HostRuntime) -> Result<(), Fail> {
    let disk = with_sevens(&rt)?;
    let made = disk.copy(&rt)?;
    let before = report(rt.alloc(), 32, BOTH_SEVENS)?;
    let after = report(rt.alloc(), 32, &[(1, "\x08\x00"), (2, "\x08\x00")])?;
    let known = [before.as_str(), after.as_str()];
    let _ = call_over(&rt, &OneDisk::new(&disk), &["forth83", "run", "A"], EIGHTS);
    // An opening makes a sync and 99 reads, and four sectors are read; two spills make a read and three writes each, and a save 2 writes and 2 syncs.
    assert_same!(rt; disk.calls(), 100 + 4 + 8 + 4);
    for (k, fate) in (104..116).zip(FATES.iter().cycle()) {
        save_is_stopped(&rt, &disk, made.as_slice(), k, *fate, known)?;
    }
    for fate in FATES {
        save_is_stopped(&rt, &disk, made.as_slice(), 115, fate, known)?;
    }
    Ok(())
}

/// What is told of the image then is one of what is known, and the same is told of a copy and of a salvage, which are made now and then.
fn save_is_stopped(
    rt: &(impl Files<File = File> + AllocGlobal + Abort),
    disk: &Disk,
    made: &[u8],
    k: u64,
    fate: Fate,
    known: [&str; 2],
) -> Result<(), Fail> {
    let files = OneDisk::new(disk);
    disk.set(made);
    disk.begin(k);
    let _ = call_over(rt, &files, &["forth83", "run", "A"], EIGHTS);
    disk.restart(fate);
    let left = call_over(rt, &files, &["forth83", "check", "A"], b"");
    assert_same!(rt; left.status, 0, "{fate:?} at {k}");
    let told = str::from_utf8(left.output.as_slice()).unwrap_or("?");
    assert!(rt; known.contains(&told), "{fate:?} at {k}");
    if k % 5 == 4 {
        check_copies(rt, disk, left.output.as_slice())?;
    }
    Ok(())
}

/// A copy and a salvage of the image on this disk are told so.
fn check_copies(
    rt: &(impl Files<File = File> + AllocGlobal + Abort),
    old: &Disk,
    told: &[u8],
) -> Result<(), Fail> {
    for name in ["copy", "salvage"] {
        let new = Disk::of_length(rt, LENGTH)?;
        let (looking, files) = (OneDisk::new(old), OneDisk::new(&new));
        let left = call_over_both(rt, &files, &looking, &["forth83", name, "A", "A"], b"");
        assert_same!(rt; left.status, 0, "{name}");
        let left = call_over(rt, &files, &["forth83", "check", "A"], b"");
        assert_same!(rt; left.output.as_slice(), told, "{name}");
    }
    Ok(())
}

/// Of 32 blocks label, gate, record and three sectors each are read, two for the digest, and the gate once more. From each sixth of these reads on all
/// fail, and from the last: that is told, and each sector as one that can't be read.
#[test]
fn checks_whose_reads_fail(rt: HostRuntime) -> Result<(), Fail> {
    let disk = with_sevens(&rt)?;
    let files = OneDisk::new(&disk);
    let before = disk.copy(&rt)?;
    let words = ["forth83", "check", "A"];
    let left = call_over(&rt, &files, &words, b"");
    let wanted = report(rt.alloc(), 32, BOTH_SEVENS)?;
    assert_same!(rt; left.output.as_slice(), wanted.as_bytes());
    assert_same!(rt; disk.calls(), 164);
    let unread = all_unread(rt.alloc())?;
    for k in (1..164).step_by(6) {
        disk.begin(k);
        let left = call_over(&rt, &files, &words, b"");
        check_fault(&rt, &left, k);
        assert!(rt; left.output.as_slice() == unread.as_bytes(), "at {k}");
    }
    assert!(rt; disk.copy(&rt)? == before);
    Ok(())
}

/// What is told where no sector of an image of 32 blocks can be read any more.
fn all_unread(alloc: Global) -> Result<String, Fail> {
    let mut text = String::new(alloc);
    for k in 0..32 {
        text.push_str(&format!(in alloc; "sector {k}: can't be read\n")?)?;
    }
    for k in 32_u32..544 {
        let b = k.saturating_sub(32) / 16;
        text.push_str(&format!(in alloc; "block {b}: sector {k} can't be read\n")?)?;
    }
    Ok(text)
}

/// And so do those of a check of a damaged image, which told nothing of damage before that.
#[test]
fn checks_of_damage_whose_reads_fail(rt: HostRuntime) -> Result<(), Fail> {
    let disk = with_sevens(&rt)?;
    let files = OneDisk::new(&disk);
    let mut bytes = disk.copy(&rt)?;
    // Both blocks count in their second places.
    change(bytes.as_mut_slice(), 56, 0);
    change(bytes.as_mut_slice(), 73, 0);
    disk.set(bytes.as_slice());
    let words = ["forth83", "check", "A"];
    disk.begin(u64::MAX);
    let left = call_over(&rt, &files, &words, b"");
    let told =
        b"block 1: damaged, whole in its other place\nblock 2: damaged, whole in its other place\n".as_slice();
    assert_same!(rt; (left.status, left.output.as_slice()), (3, told));
    let calls = disk.calls();
    let unread = all_unread(rt.alloc())?;
    for k in (0..calls).step_by(7) {
        disk.begin(k);
        let left = call_over(&rt, &files, &words, b"");
        check_fault(&rt, &left, k);
        assert!(rt; left.output.as_slice() == unread.as_bytes(), "at {k}");
    }
    assert!(rt; disk.copy(&rt)? == bytes);
    Ok(())
}

/// A call of the device failed, and that was told.
fn check_fault(rt: &impl Abort, left: &Left, k: u64) {
    assert_same!(rt;
        (left.status, left.errors.as_slice()),
        (3, DEVICE_FAULT.as_bytes()),
        "at {k}"
    );
}

/// One sector can't be read. A check that reads it tells it, with the block that it is of; a salvage passes it over, and takes the other place of a block
/// that doesn't fit its tag without it.
#[test]
fn images_of_layout_3_with_a_sector_that_cannot_be_read(rt: HostRuntime) -> Result<(), Fail> {
    let old = with_sevens(&rt)?;
    let before = old.copy(&rt)?;
    // Both blocks count in their second places, and a blank one lies in the first. Blanks are what the second half of block 1 has.
    for (scar, damage, line, replies) in [
        (
            56,
            "block 1: damaged, whole in its other place\n",
            "block 1: sector 56 can't be read\n",
            "32 7  ok\n",
        ),
        (
            74,
            "block 2: damaged, whole in its other place\n",
            "block 2: sector 74 can't be read\n",
            "7 32  ok\n",
        ),
        (57, "", "block 1: sector 57 can't be read\n", "7 7  ok\n"),
        (48, "", "block 1: sector 48 can't be read\n", "7 7  ok\n"),
        (0, "", "sector 0: can't be read\n", "7 7  ok\n"),
    ] {
        old.scar(scar);
        let new = Disk::of_length(&rt, LENGTH)?;
        let (looking, files) = (OneDisk::new(&old), OneDisk::new(&new));
        let words = ["forth83", "salvage", "A", "A"];
        let left = call_over_both(&rt, &files, &looking, &words, b"");
        let told = format!(in rt.alloc(); "{damage}{PAGES_NO_RECOVERY}{line}")?;
        assert_same!(rt; (left.status, left.output.as_slice()), (0, told.as_bytes()), "{scar}");
        assert!(rt; left.errors.is_empty(), "{scar}");
        let left = call_over(&rt, &files, &["forth83", "run", "A"], FIRST_CHARACTERS);
        assert_same!(rt; left.output.as_slice(), replies.as_bytes(), "{scar}");
        // A check doesn't read the places that don't count.
        let left = call_over(&rt, &looking, &["forth83", "check", "A"], b"");
        let is_read = scar != 48;
        assert_same!(rt; left.status, if is_read { 3 } else { 0 }, "{scar}");
        assert!(rt;
            !is_read || left.output.as_slice() == line.as_bytes(),
            "{scar}"
        );
    }
    assert!(rt; old.copy(&rt)? == before);
    Ok(())
}

/// A copy is stopped at each eleventh call of either device, and at the last ones with each fate: the old image stays byte for byte as it was, and
/// nothing has the new name.
#[test]
fn copies_of_layout_3_that_are_stopped(rt: HostRuntime) -> Result<(), Fail> {
    // Of the old image label, gate, record and each block with its tag, and then the two sectors of each block.
    copyings_are_stopped(&rt, COPY, 163)
}

/// And so is a salvage.
#[test]
fn salvages_of_layout_3_that_are_stopped(rt: HostRuntime) -> Result<(), Fail> {
    // Of the old image each sector, and then gate, record and each block with its tag.
    copyings_are_stopped(&rt, SALVAGE, 544 + 98)
}

fn copyings_are_stopped(
    rt: &(impl Files<File = File> + AllocGlobal + Abort),
    making: Making,
    reads: u32,
) -> Result<(), Fail> {
    let old = with_sevens(rt)?;
    let before = old.copy(rt)?;
    let new = Disk::of_length(rt, LENGTH)?;
    let (looking, files) = (OneDisk::beside(&old, &new), OneDisk::new(&new));
    let left = call_over_both(rt, &files, &looking, making.words, b"");
    let calls = new.calls();
    assert_same!(rt; left.status, 0, "{making:?}");
    // The file is filled first; then come a sync and a read of the label, four sectors of each block, gate and records, a sync, the label and a sync, and its
    // name.
    assert_same!(rt;
        calls,
        FILLED + reads as u64 + 2 + 4 * 32 + 3 + 1 + 2 + 1,
        "{making:?}"
    );
    for (k, fate) in (0..calls).step_by(11).zip(FATES.iter().cycle()) {
        copying_is_stopped(rt, making, &old, (k, calls), *fate)?;
    }
    for k in calls.saturating_sub(6)..calls {
        for fate in FATES {
            copying_is_stopped(rt, making, &old, (k, calls), fate)?;
        }
    }
    assert!(rt; old.copy(rt)? == before, "{making:?}");
    Ok(())
}

/// The disk, as a system of files of which none is opened for writing.
#[derive(Drop)]
struct Unwritable<'a> {
    files: OneDisk<'a>,
    // Another program has it open. Else it is the right to write it that lacks.
    is_in_use: bool,
}

impl<'a> HostFiles<Opened<'a>> for Unwritable<'a> {
    ghost opens = { λ files path file. Unit {0} };

    ghost makes = { λ files path file. Unit {0} };

    ghost named = { λ files path file. Unit {0} };

    fn open(&self, _path: &str) -> Result<Opened<'a>, FileFault> {
        Err(if self.is_in_use {
            FileFault::InUse
        } else {
            FileFault::Cannot
        })
    }

    fn make(&self, path: &str) -> Result<Opened<'a>, FileFault> {
        self.files.make(path)
    }

    fn keep_name(&self, path: &str, file: &Opened<'a>) -> Result<(), FileFault> {
        self.files.keep_name(path, file)
    }

    fn drop_made(&self, path: &str, file: &Opened<'a>) {
        self.files.drop_made(path, file)
    }
}

/// Lists a block of the image on a disk that may only be read.
fn list_unwritable(rt: &(impl Files<File = File> + AllocGlobal), disk: &Disk, block: &str) -> Left {
    call_unwritable(rt, disk, false, &["forth83", "list", "A", block])
}

/// Calls the program over the image on a disk that isn't opened for writing, since it is in use or may only be read.
pub(crate) fn call_unwritable(
    rt: &(impl Files<File = File> + AllocGlobal),
    disk: &Disk,
    is_in_use: bool,
    words: &[&str],
) -> Left {
    let files = Unwritable {
        files: OneDisk::new(disk),
        is_in_use,
    };
    call_over_both(rt, &files, &OneDisk::new(disk), words, b"")
}

/// A block of an image that may only be read is listed as after an opening, and nothing is written.
#[test]
fn listings_by_reads_alone(rt: HostRuntime) -> Result<(), Fail> {
    let disk = with_sevens(&rt)?;
    let before = disk.copy(&rt)?;
    for block in ["0", "1", "2", "31"] {
        disk.begin(u64::MAX);
        let left = list_unwritable(&rt, &disk, block);
        // Label, gate, record, each block with its tag, and the block once more.
        assert_same!(rt; (left.status, disk.calls()), (0, 101), "{block}");
        assert!(rt; left.errors.is_empty(), "{block}");
        assert!(rt; disk.copy(&rt)? == before);
        let files = OneDisk::new(&disk);
        let opened = call_over(&rt, &files, &["forth83", "list", "A", block], b"");
        assert_same!(rt; left.output.as_slice(), opened.output.as_slice(), "{block}");
        let is_seven = left.output.as_slice().starts_with(b".. ");
        assert_same!(rt; is_seven, block == "1" || block == "2");
    }
    assert!(rt; disk.copy(&rt)? == before);
    Ok(())
}

/// Such an image is refused as by an opening, a damaged one whichever block is asked for, and then for its block. Nothing is printed.
#[test]
fn listings_by_reads_alone_that_are_refused(rt: HostRuntime) -> Result<(), Fail> {
    let disk = with_sevens(&rt)?;
    let whole = disk.copy(&rt)?;
    check_unlisted(&rt, &disk, "32", "no block")?;
    check_unlisted(&rt, &disk, "65535", "no block")?;
    for k in [0, 1, 2, 3, 50, 98, 99, 100] {
        disk.begin(k);
        check_unlisted(&rt, &disk, "1", "device fault")?;
    }
    disk.begin(u64::MAX);
    for (sector, at, text) in [
        (56, 0, "damaged"),
        (58, 0, "damaged"),
        (16, 480, "damaged"),
        (0, 0, "no label"),
        (0, 8, "other version"),
        (0, 10, "wrong count"),
    ] {
        let mut bytes = whole.clone()?;
        change(bytes.as_mut_slice(), sector, at);
        disk.set(bytes.as_slice());
        for block in ["0", "1", "32"] {
            check_unlisted(&rt, &disk, block, text)?;
        }
        assert!(rt; disk.copy(&rt)? == bytes, "{text}");
    }
    // So many sectors no image has: 542.
    let cut = Disk::of_length(&rt, 277_504)?;
    let files = OneDisk::new(&cut);
    files.keep_name("A", &files.make("A")?)?;
    cut.set(whole.as_slice());
    cut.begin(u64::MAX);
    check_unlisted(&rt, &cut, "1", "bad size")?;
    assert_same!(rt; cut.calls(), 0);
    Ok(())
}

/// What a listing of an image that may only be read tells, and that nothing was printed.
fn check_unlisted(
    rt: &(impl Files<File = File> + AllocGlobal + Abort),
    disk: &Disk,
    block: &str,
    text: &str,
) -> Result<(), Fail> {
    let left = list_unwritable(rt, disk, block);
    let wanted = format!(in rt.alloc(); "forth83: image: {text}\n")?;
    assert_same!(rt; (left.status, left.output.is_empty()), (3, true), "{text}");
    assert_same!(rt; left.errors.as_slice(), wanted.as_bytes(), "{text}");
    Ok(())
}

/// Blocks of an image that can't be opened for writing, or is in use, are exported as after an opening, and nothing is
/// written.
#[test]
fn exports_by_reads_alone(rt: HostRuntime) -> Result<(), Fail> {
    let disk = with_sevens(&rt)?;
    let before = disk.copy(&rt)?;
    // Label, gate, record, each block with its tag, and each block that is asked for once more.
    for (first, last, calls) in [("0", "31", 163), ("2", "2", 101), ("1", "3", 105)] {
        let words = ["forth83", "export", "A", first, last];
        check_exported(&rt, &disk, &words, calls)?;
        let words = ["forth83", "export", "A", first, last, "--raw"];
        check_exported(&rt, &disk, &words, calls)?;
    }
    assert!(rt; disk.copy(&rt)? == before);
    Ok(())
}

/// What is exported by reads alone, and by so many calls.
fn check_exported(
    rt: &(impl Files<File = File> + AllocGlobal + Abort),
    disk: &Disk,
    words: &[&str],
    calls: u64,
) -> Result<(), Fail> {
    for is_in_use in [false, true] {
        disk.begin(u64::MAX);
        let left = call_unwritable(rt, disk, is_in_use, words);
        assert_same!(rt; (left.status, disk.calls()), (0, calls), "{words:?}");
        assert!(rt; left.errors.is_empty(), "{words:?}");
        let opened = call_over(rt, &OneDisk::new(disk), words, b"");
        assert_same!(rt; left.output.as_slice(), opened.output.as_slice(), "{words:?}");
    }
    Ok(())
}

/// Such an export is refused as by an opening, and then where a block isn't there; a fault of a read ends it.
#[test]
fn exports_by_reads_alone_that_are_refused(rt: HostRuntime) -> Result<(), Fail> {
    let disk = with_sevens(&rt)?;
    for (first, last) in [("31", "32"), ("2", "1"), ("32", "65535")] {
        let words = ["forth83", "export", "A", first, last];
        let left = call_unwritable(&rt, &disk, true, &words);
        assert_same!(rt; (left.status, left.output.is_empty()), (3, true), "{first}");
        assert_same!(rt; left.errors.as_slice(), b"forth83: image: no block\n".as_slice(), "{first}");
    }
    for k in [0, 1, 2, 3, 98, 99, 100, 104] {
        disk.begin(k);
        let words = ["forth83", "export", "A", "1", "3"];
        let left = call_unwritable(&rt, &disk, true, &words);
        assert_same!(rt; left.status, 3, "{k}");
        assert_same!(rt; left.errors.as_slice(), DEVICE_FAULT.as_bytes(), "{k}");
    }
    let mut bytes = disk.copy(&rt)?;
    change(bytes.as_mut_slice(), 56, 0);
    disk.begin(u64::MAX);
    disk.set(bytes.as_slice());
    let words = ["forth83", "export", "A", "31", "32"];
    let left = call_unwritable(&rt, &disk, true, &words);
    assert_same!(rt; (left.status, left.output.is_empty()), (3, true));
    assert_same!(rt; left.errors.as_slice(), b"forth83: image: damaged\n".as_slice());
    Ok(())
}
