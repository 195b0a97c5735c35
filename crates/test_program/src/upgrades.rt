//! Upgrades whose calls fail or are stopped, over an old image of which a save is under way: what is told, and what stays of both images.
use super::stopping::{Disk, FATES, FILLED, Fate, LENGTH, OneDisk, Opened};
use super::support::{DEVICE_FAULT, call_over, overwrite, told_of_making};
use super::systems::{BOTH, SEVENS};
use crate::assertions::{Assert, assert_same};
use journal::layout;
use sector_disk::{FileFault, HostFault, HostFiles};
use std::fs::File;
use std::process::Abort;
use std::rt::Files;
use std::test::Fail;

/// An upgrade of an image of 32 blocks.
#[derive(Clone, Copy, Debug)]
pub(crate) struct Upgrade {
    pub(crate) words: &'static [&'static str],
    /// How many bytes the new file has.
    pub(crate) length: usize,
    /// How many calls fill it.
    pub(crate) filled: u64,
    /// Of the calls after these, those are tried whose number this divides.
    pub(crate) each: u64,
}

impl Upgrade {
    /// Whether it is tried with a failure of this call.
    fn fails_at(self, k: u64) -> bool {
        k < self.filled || k.checked_rem(self.each).unwrap_or(0) == 0
    }
}

const UPGRADE: Upgrade = Upgrade {
    words: &["forth83", "upgrade", "OLD", "NEW"],
    length: LENGTH,
    filled: FILLED,
    each: 1,
};

/// A system of two files: `OLD`, and `NEW`, which is there once it was made.
#[derive(Drop)]
struct TwoDisks<'a> {
    old: OneDisk<'a>,
    new: OneDisk<'a>,
}

impl<'a> TwoDisks<'a> {
    fn of(old: &'a Disk, new: &'a Disk) -> TwoDisks<'a> {
        TwoDisks {
            old: OneDisk::new(old),
            new: OneDisk::new(new),
        }
    }
}

impl<'a> HostFiles<Opened<'a>> for TwoDisks<'a> {
    ghost opens = { λ files path file. Unit {0} };

    ghost makes = { λ files path file. Unit {0} };

    ghost named = { λ files path file. Unit {0} };

    fn open(&self, path: &str) -> Result<Opened<'a>, FileFault> {
        match path {
            "OLD" => self.old.open("A"),
            "NEW" => self.new.open("A"),
            _ => Err(FileFault::Cannot),
        }
    }

    fn make(&self, path: &str) -> Result<Opened<'a>, FileFault> {
        match path {
            "OLD" => self.old.make("A"),
            "NEW" => self.new.make("A"),
            _ => Err(FileFault::Cannot),
        }
    }

    fn keep_name(&self, path: &str, file: &Opened<'a>) -> Result<(), FileFault> {
        match path {
            "NEW" => self.new.keep_name("A", file),
            _ => Err(FileFault::Cannot),
        }
    }

    fn drop_made(&self, path: &str, file: &Opened<'a>) {
        if path == "NEW" {
            self.new.drop_made("A", file);
        }
    }
}

/// Makes of the bytes of an image of blank blocks those of one of layout 1, of which a save is under way: its gate is open over blocks 1 and 2,
/// which begin with these bytes there.
fn make_old(image: &mut [u8], first: u8, second: u8) {
    overwrite(image, 0, layout::label_1(32).as_slice());
    overwrite(image, 512, b"COMMIT83");
    overwrite(image, 1024, &[6]);
    for (block, byte) in [(1, first), (2, second)] {
        let at = 512 * layout::slot_sector(block) as usize;
        overwrite(image, at, &[byte]);
    }
}

/// An image of layout 1 of which a save is under way: its gate is open over two blocks that begin with 7, and their homes are blank.
fn old_image(rt: &impl AllocGlobal) -> Result<Disk, Fail> {
    let disk = Disk::new(rt)?;
    let files = OneDisk::new(&disk);
    files.keep_name("A", &files.make("A")?)?;
    let mut bytes = disk.copy(rt)?;
    for home in 67..131_usize {
        overwrite(bytes.as_mut_slice(), 512 * home, &[b' '; 512]);
    }
    make_old(bytes.as_mut_slice(), 7, 7);
    disk.set(bytes.as_slice());
    Ok(disk)
}

/// How many calls of the old image an upgrade makes, and how many of the new one.
fn calls_of_both(
    rt: &(impl Files<File = File> + AllocGlobal + Abort),
    upgrade: Upgrade,
) -> Result<(u64, u64), Fail> {
    let (old, new) = (old_image(rt)?, Disk::of_length(rt, upgrade.length)?);
    old.begin(u64::MAX);
    let left = call_over(rt, &TwoDisks::of(&old, &new), upgrade.words, b"");
    assert_same!(rt; left.status, 0);
    Ok((old.calls(), new.calls()))
}

/// Upgrades the old image, and finds its blocks in the new one.
fn check_upgrade(
    rt: &(impl Files<File = File> + AllocGlobal + Abort),
    upgrade: Upgrade,
    files: &TwoDisks<'_>,
) {
    let left = call_over(rt, files, upgrade.words, b"");
    assert_same!(rt; (left.status, left.output.is_empty()), (0, true));
    assert!(rt; left.errors.is_empty());
    assert!(rt; is_whole(rt, files));
}

/// Whether the new file is the whole image; else nothing has its name.
fn is_whole(rt: &(impl Files<File = File> + AllocGlobal + Abort), files: &TwoDisks<'_>) -> bool {
    let left = call_over(rt, files, &["forth83", "run", "NEW"], BOTH.as_bytes());
    if left.status == 0 {
        assert_same!(rt; left.output.as_slice(), SEVENS.as_bytes());
        return true;
    }
    assert_same!(rt;
        (left.status, left.errors.as_slice()),
        (3, b"forth83: image: cannot open\n".as_slice())
    );
    false
}

/// Where the calls of either image fail from these on, that is told, nothing is printed, and nothing has the new name. The power comes back: the
/// old image still has its blocks, and the next upgrade makes the new one, which stays from then on.
fn upgrade_fails(
    rt: &(impl Files<File = File> + AllocGlobal + Abort),
    upgrade: Upgrade,
    at: (u64, u64),
    fate: Fate,
    told: &str,
) -> Result<(), Fail> {
    let (old, new) = (old_image(rt)?, Disk::of_length(rt, upgrade.length)?);
    let files = TwoDisks::of(&old, &new);
    old.begin(at.0);
    new.begin(at.1);
    let left = call_over(rt, &files, upgrade.words, b"");
    assert_same!(rt; (left.status, left.output.is_empty()), (3, true), "{at:?}");
    assert_same!(rt; left.errors.as_slice(), told.as_bytes(), "{at:?}");
    old.restart(fate);
    new.restart(fate);
    assert!(rt; !is_whole(rt, &files), "{at:?}");
    check_upgrade(rt, upgrade, &files);
    new_file_stays(rt, upgrade, &files, &old, &new)
}

/// A second upgrade to the new name is refused, with no call of either image.
fn new_file_stays(
    rt: &(impl Files<File = File> + AllocGlobal + Abort),
    upgrade: Upgrade,
    files: &TwoDisks<'_>,
    old: &Disk,
    new: &Disk,
) -> Result<(), Fail> {
    let before = new.copy(rt)?;
    old.begin(u64::MAX);
    new.begin(u64::MAX);
    let left = call_over(rt, files, upgrade.words, b"");
    assert_same!(rt;
        (left.status, left.errors.as_slice()),
        (3, b"forth83: image: exists\n".as_slice())
    );
    assert_same!(rt; (old.calls(), new.calls()), (0, 0));
    assert!(rt; new.copy(rt)? == before);
    Ok(())
}

/// Each call of the old image fails, with one fate after another of what wasn't synced.
#[test]
fn upgrades_whose_old_image_fails(rt: HostRuntime) -> Result<(), Fail> {
    // A recovery of two blocks, and then both sectors of each home.
    old_image_fails(&rt, UPGRADE, 15 + 64)
}

/// Each call of the new one fails, the last ones with each fate.
#[test]
fn upgrades_whose_new_image_fails(rt: HostRuntime) -> Result<(), Fail> {
    new_image_fails(&rt, UPGRADE, FILLED + 71 + 1)
}

/// Calls of the old image fail, of which there are so many.
pub(crate) fn old_image_fails(
    rt: &(impl Files<File = File> + AllocGlobal + Abort),
    upgrade: Upgrade,
    wanted: u64,
) -> Result<(), Fail> {
    let (calls, _) = calls_of_both(rt, upgrade)?;
    assert_same!(rt; calls, wanted);
    for (k, fate) in (0..calls).zip(FATES.iter().cycle()) {
        if upgrade.fails_at(k) {
            upgrade_fails(rt, upgrade, (k, u64::MAX), *fate, DEVICE_FAULT)?;
        }
    }
    Ok(())
}

/// Calls of the new one fail, of which there are so many.
pub(crate) fn new_image_fails(
    rt: &(impl Files<File = File> + AllocGlobal + Abort),
    upgrade: Upgrade,
    wanted: u64,
) -> Result<(), Fail> {
    let (_, calls) = calls_of_both(rt, upgrade)?;
    assert_same!(rt; calls, wanted);
    let label = calls.saturating_sub(3);
    for (k, fate) in (0..label).zip(FATES.iter().cycle()) {
        if upgrade.fails_at(k) {
            let told = told_of_making(k, upgrade.filled, calls);
            upgrade_fails(rt, upgrade, (u64::MAX, k), *fate, told)?;
        }
    }
    for k in label..calls {
        for fate in FATES {
            let told = told_of_making(k, upgrade.filled, calls);
            upgrade_fails(rt, upgrade, (u64::MAX, k), fate, told)?;
        }
    }
    Ok(())
}
