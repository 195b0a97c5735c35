//! The program over an image on a disk that loses its power at each call: what wasn't synced is lost or kept, sector by sector.
use super::support::{call_over, call_over_both, make_over, told_of_making, transcript};
use super::systems::{BLANK, BOTH, SAVED, SEVENS, SEVENS_FILE};
use crate::assertions::{Assert, assert_same};
use sector_disk::{FileFault, HostFault, HostFile, HostFiles};
use std::cell::{Cell, RefCell};
use std::fs;
use std::fs::File;
use std::process::Abort;
use std::rt::Files;
use std::test::Fail;

/// The bytes of an image of 32 blocks by layout 2.
pub(crate) const LENGTH: usize = 67_072;

/// How many calls fill such a file: two writes of zeros and a sync.
pub(crate) const FILLED: u64 = 3;

/// What becomes of the sectors that weren't synced.
#[derive(Clone, Copy, Debug, PartialEq, Eq)]
pub(crate) enum Fate {
    Lost,
    Kept,
    /// Of even number kept, of odd number lost.
    EvenKept,
    OddKept,
}

pub(crate) const FATES: [Fate; 4] = [Fate::Lost, Fate::Kept, Fate::EvenKept, Fate::OddKept];

impl Fate {
    fn keeps(self, sector: usize) -> bool {
        match self {
            Fate::Lost => false,
            Fate::Kept => true,
            Fate::EvenKept => sector % 2 == 0,
            Fate::OddKept => sector % 2 == 1,
        }
    }
}

/// An image's bytes: as they are read, as the last sync left them, and which sectors were written since.
#[derive(Drop)]
struct Bytes {
    content: Vec<u8>,
    synced: Vec<u8>,
    unsynced: Vec<bool>,
}

/// Copies as many bytes as there is room for, and tells how many.
fn copy(from: &[u8], to: &mut [u8]) -> usize {
    let count = from.len().min(to.len());
    to[..count].copy_from_slice(&from[..count]);
    count
}

impl Bytes {
    /// Writes these bytes, up to the end.
    fn put(&mut self, position: usize, bytes: &[u8]) -> usize {
        let at = position.min(self.content.len());
        let count = copy(bytes, &mut self.content[at..]);
        for k in at / 512..at.saturating_add(count).div_ceil(512) {
            if let Some(unsynced) = self.unsynced.get_mut(k) {
                *unsynced = true;
            }
        }
        count
    }

    /// Reads from there, up to the end.
    fn get(&self, position: usize, buffer: &mut [u8]) -> usize {
        let at = position.min(self.content.len());
        copy(&self.content[at..], buffer)
    }

    fn sync(&mut self) {
        let _ = copy(&self.content, &mut self.synced);
        self.unsynced.fill(false);
    }

    /// The power comes back.
    fn restart(&mut self, fate: Fate) {
        for k in 0..self.unsynced.len() {
            if self.unsynced.get(k) == Some(&true) && !fate.keeps(k) {
                self.lose(k);
            }
        }
        self.sync();
    }

    fn lose(&mut self, sector: usize) {
        let at = sector
            .saturating_mul(512)
            .min(self.content.len())
            .min(self.synced.len());
        let (synced, _) = self.synced[at..].split_at((self.synced.len() - at).min(512));
        let _ = copy(synced, &mut self.content[at..]);
    }
}

/// A disk with one file, `A`. From the call `stops_at` on, counted from 0, each fails; if that call is a write, the first half of its
/// bytes arrives. And each read of one sector may fail, by its number.
#[derive(Drop)]
pub(crate) struct Disk {
    bytes: RefCell<Bytes>,
    is_there: Cell<bool>,
    // It is being made: it has no name yet, and wasn't let go of.
    is_begun: Cell<bool>,
    made: Cell<u64>,
    stops_at: Cell<u64>,
    scar: Cell<u64>,
}

impl Disk {
    pub(crate) fn new(rt: &impl AllocGlobal) -> Result<Disk, Fail> {
        Disk::of_length(rt, LENGTH)
    }

    /// A disk whose file has so many bytes.
    pub(crate) fn of_length(rt: &impl AllocGlobal, length: usize) -> Result<Disk, Fail> {
        let content = vec![in rt.alloc(); 0u8; length]?;
        let synced = vec![in rt.alloc(); 0u8; length]?;
        let unsynced = vec![in rt.alloc(); false; length / 512]?;
        Ok(Disk {
            bytes: RefCell::new(Bytes {
                content,
                synced,
                unsynced,
            }),
            is_there: Cell::new(false),
            is_begun: Cell::new(false),
            made: Cell::new(0),
            stops_at: Cell::new(u64::MAX),
            scar: Cell::new(u64::MAX),
        })
    }

    /// How many calls there were since `begin`.
    pub(crate) fn calls(&self) -> u64 {
        self.made.get()
    }

    /// Counts anew, and stops at the call of this number.
    pub(crate) fn begin(&self, stops_at: u64) {
        self.made.set(0);
        self.stops_at.set(stops_at);
    }

    /// The sector of this number can't be read from now on.
    pub(crate) fn scar(&self, sector: u64) {
        self.scar.set(sector);
    }

    /// How many bytes of a call arrive, and whether it goes well.
    fn next(&self, count: usize) -> (usize, Result<(), HostFault>) {
        let made = self.made.get();
        self.made.set(made.saturating_add(1));
        if made < self.stops_at.get() {
            return (count, Ok(()));
        }
        let arrives = if made == self.stops_at.get() {
            count / 2
        } else {
            0
        };
        (arrives, Err(HostFault::Failed))
    }

    pub(crate) fn restart(&self, fate: Fate) {
        if let Ok(mut bytes) = self.bytes.try_borrow_mut() {
            bytes.restart(fate);
        }
        self.begin(u64::MAX);
    }

    /// The bytes as they are now.
    pub(crate) fn copy(&self, rt: &impl AllocGlobal) -> Result<Vec<u8>, Fail> {
        let mut copy: Vec<u8> = Vec::new(rt.alloc());
        if let Ok(bytes) = self.bytes.try_borrow() {
            copy.extend_from_slice(bytes.content.as_slice())?;
        }
        Ok(copy)
    }

    /// Puts these bytes there, all of them synced.
    pub(crate) fn set(&self, copy: &[u8]) {
        if let Ok(mut bytes) = self.bytes.try_borrow_mut() {
            let _ = bytes.put(0, copy);
            bytes.sync();
        }
    }
}

/// The file, opened. Its calls are those of the disk `power`, and stop with it.
#[derive(Drop)]
pub(crate) struct Opened<'a> {
    disk: &'a Disk,
    power: &'a Disk,
}

impl HostFile for Opened<'_> {
    ghost use Rattle.std.specs.Prelude.{false, true};

    ghost keeps_model = { λ f. false };

    ghost keeps_sectors = { λ f. false };

    ghost bytes = { λ f. record { content = λ _. 0; synced = λ _. 0; unsynced = λ _. true; unit = λ k. k } };

    ghost extent = { λ f. 0 };

    ghost syncs_settle = { λ f. true };

    ghost time = { λ f. 0 };

    ghost left_since = { λ f t c. Unit {0} };

    ghost present = { λ f keeps k synced. Prim.cc };

    ghost keeps_both = { λ f keeps. keeps };

    ghost by_pages = { λ f keeps. Prim.cc };

    ghost by_sectors = { λ f k keeps. Prim.cc };

    ghost counts_now = { λ f t c le now. tt };

    ghost only_now = { λ f c since k synced. Prim.cc };

    ghost widens = { λ f s t c le since. since };

    fn len(&self) -> u64 {
        match self.disk.bytes.try_borrow() {
            Ok(bytes) => bytes.content.len() as u64,
            Err(_) => 0,
        }
    }

    fn read_at(&mut self, position: u64, buffer: &mut [u8]) -> Result<usize, HostFault> {
        let room = buffer.len();
        let (_, outcome) = self.power.next(0);
        outcome?;
        if position / 512 == self.disk.scar.get() {
            return Err(HostFault::Failed);
        }
        match self.disk.bytes.try_borrow() {
            Ok(bytes) => Ok(bytes.get(position as usize, buffer).min(room)),
            Err(_) => Err(HostFault::Failed),
        }
    }

    fn write_at(&mut self, position: u64, buffer: &[u8]) -> Result<usize, HostFault> {
        let (arrives, outcome) = self.power.next(buffer.len());
        let (first, _) = buffer.split_at(arrives.min(buffer.len()));
        let count = match self.disk.bytes.try_borrow_mut() {
            Ok(mut bytes) => bytes.put(position as usize, first),
            Err(_) => 0,
        };
        outcome?;
        Ok(count.min(buffer.len()))
    }

    fn sync(&mut self) -> Result<(), HostFault> {
        let (_, outcome) = self.power.next(0);
        outcome?;
        match self.disk.bytes.try_borrow_mut() {
            Ok(mut bytes) => {
                bytes.sync();
                Ok(())
            }
            Err(_) => Err(HostFault::Failed),
        }
    }
}

/// The disk, as the system of files that the program is given.
#[derive(Drop)]
pub(crate) struct OneDisk<'a> {
    disk: &'a Disk,
    power: &'a Disk,
}

impl<'a> OneDisk<'a> {
    pub(crate) fn new(disk: &'a Disk) -> OneDisk<'a> {
        OneDisk { disk, power: disk }
    }

    /// A disk that counts its calls, and stops, with another one.
    pub(crate) fn beside(disk: &'a Disk, power: &'a Disk) -> OneDisk<'a> {
        OneDisk { disk, power }
    }
}

impl<'a> HostFiles<Opened<'a>> for OneDisk<'a> {
    ghost opens = { λ files path file. Unit {0} };

    ghost makes = { λ files path file. Unit {0} };

    ghost named = { λ files path file. Unit {0} };

    fn open(&self, path: &str) -> Result<Opened<'a>, FileFault> {
        if path != "A" || !self.disk.is_there.get() {
            return Err(FileFault::Cannot);
        }
        Ok(Opened {
            disk: self.disk,
            power: self.power,
        })
    }

    fn make(&self, path: &str) -> Result<Opened<'a>, FileFault> {
        if path != "A" {
            return Err(FileFault::Cannot);
        }
        if self.disk.is_there.get() {
            return Err(FileFault::Exists);
        }
        if self.disk.is_begun.replace(true) {
            return Err(FileFault::InUse);
        }
        Ok(Opened {
            disk: self.disk,
            power: self.power,
        })
    }

    fn keep_name(&self, path: &str, _file: &Opened<'a>) -> Result<(), FileFault> {
        let (_, outcome) = self.power.next(0);
        outcome.map_err(|_| FileFault::Cannot)?;
        if path != "A" || !self.disk.is_begun.get() {
            return Err(FileFault::Cannot);
        }
        if self.disk.is_there.replace(true) {
            return Err(FileFault::Exists);
        }
        self.disk.is_begun.set(false);
        Ok(())
    }

    fn drop_made(&self, path: &str, _file: &Opened<'a>) {
        if path == "A" {
            self.disk.is_begun.set(false);
        }
    }
}

/// Whether both blocks are blank, or both as saved.
fn is_whole(rt: &(impl Files<File = File> + AllocGlobal), files: &OneDisk<'_>) -> bool {
    let left = call_over(rt, files, &["forth83", "run", "A"], BOTH.as_bytes());
    left.output.as_slice() == BLANK.as_bytes() || left.output.as_slice() == SEVENS.as_bytes()
}

/// A session that saves two blocks is stopped at each call, with each fate, and with one of them the start after it is stopped too: both blocks are as
/// before, or both as saved.
#[test]
fn sessions_that_are_stopped(rt: HostRuntime) -> Result<(), Fail> {
    let (input, _) = transcript(&rt, SAVED)?;
    saves_are_stopped(&rt, &["forth83", "run", "A"], input.as_slice())
}

/// And so is an import of two blocks.
#[test]
fn imports_that_are_stopped(rt: HostRuntime) -> Result<(), Fail> {
    fs::write(&rt, "program_stopped", SEVENS_FILE)?;
    let words = ["forth83", "import", "A", "1", "program_stopped"];
    saves_are_stopped(&rt, &words, b"")?;
    fs::remove_file(&rt, "program_stopped")?;
    Ok(())
}

/// Stops a command that saves 7 in two blocks at once.
fn saves_are_stopped(
    rt: &(impl Files<File = File> + AllocGlobal + Abort),
    words: &[&str],
    input: &[u8],
) -> Result<(), Fail> {
    let disk = Disk::new(rt)?;
    let files = OneDisk::new(&disk);
    make_over(rt, &files);
    let made = disk.copy(rt)?;
    disk.begin(u64::MAX);
    let _ = call_over(rt, &files, words, input);
    let calls = disk.made.get();
    assert!(rt; (20..100).contains(&calls), "{calls}");
    for k in 0..calls {
        for fate in FATES {
            disk.set(made.as_slice());
            disk.begin(k);
            let _ = call_over(rt, &files, words, input);
            disk.restart(fate);
            if fate == Fate::EvenKept {
                recovery_is_stopped(rt, &files, fate)?;
            }
            assert!(rt; is_whole(rt, &files), "{fate:?} at {k}");
        }
    }
    Ok(())
}

/// The next start is stopped at each sixth call, each time from the same bytes.
fn recovery_is_stopped(
    rt: &(impl Files<File = File> + AllocGlobal + Abort),
    files: &OneDisk<'_>,
    fate: Fate,
) -> Result<(), Fail> {
    let left = files.disk.copy(rt)?;
    for k in (0..18).step_by(6) {
        files.disk.set(left.as_slice());
        files.disk.begin(k);
        let _ = call_over(rt, files, &["forth83", "run", "A"], b"");
        files.disk.restart(fate);
        assert!(rt; is_whole(rt, files), "{fate:?}, recovery at {k}");
    }
    files.disk.set(left.as_slice());
    Ok(())
}

/// How an image of 32 blocks is made.
#[derive(Clone, Copy, Debug)]
pub(crate) struct Making {
    pub(crate) words: &'static [&'static str],
    /// How many bytes its file has.
    pub(crate) length: usize,
    /// How many calls fill the file.
    pub(crate) filled: u64,
}

const MAKING: Making = Making {
    words: &["forth83", "new", "A", "--blocks", "32"],
    length: LENGTH,
    filled: FILLED,
};

/// `new` is stopped at each sixteenth call, and at the last ones: nothing has the name.
#[test]
fn makings_that_are_stopped(rt: HostRuntime) -> Result<(), Fail> {
    let calls = making_is_stopped_now_and_then(&rt, MAKING)?;
    assert_same!(rt; calls, FILLED + 71 + 1);
    Ok(())
}

/// Gives how many calls there are.
pub(crate) fn making_is_stopped_now_and_then(
    rt: &(impl Files<File = File> + AllocGlobal + Abort),
    making: Making,
) -> Result<u64, Fail> {
    let disk = Disk::of_length(rt, making.length)?;
    let left = call_over(rt, &OneDisk::new(&disk), making.words, b"");
    assert_same!(rt; (left.status, left.errors.as_slice()), (0, b"".as_slice()));
    let calls = disk.made.get();
    for k in (0..calls).rev().step_by(16) {
        for fate in FATES {
            making_is_stopped(rt, making, (k, calls), fate)?;
        }
    }
    for k in calls.saturating_sub(8)..calls {
        making_is_stopped(rt, making, (k, calls), Fate::EvenKept)?;
    }
    Ok(calls)
}

/// It is stopped at a call, of so many. Nothing has the name then, and the next making gives a whole image.
fn making_is_stopped(
    rt: &(impl Files<File = File> + AllocGlobal + Abort),
    making: Making,
    (k, calls): (u64, u64),
    fate: Fate,
) -> Result<(), Fail> {
    let disk = Disk::of_length(rt, making.length)?;
    let files = OneDisk::new(&disk);
    disk.begin(k);
    let left = call_over(rt, &files, making.words, b"");
    assert_same!(rt; left.status, 3, "at {k}");
    let told = told_of_making(k, making.filled, calls).as_bytes();
    assert_same!(rt; left.errors.as_slice(), told, "at {k}");
    disk.restart(fate);
    is_not_there(rt, &files, k);
    let left = call_over(rt, &files, making.words, b"");
    assert_same!(rt; (left.status, left.errors.as_slice()), (0, b"".as_slice()), "at {k}");
    is_there(rt, &files, BLANK, k);
    Ok(())
}

/// A copy or a salvage of an image with sevens in both blocks is stopped at a call, of so many: nothing has the new name then, and the next one makes a whole
/// image.
pub(crate) fn copying_is_stopped(
    rt: &(impl Files<File = File> + AllocGlobal + Abort),
    making: Making,
    old: &Disk,
    (k, calls): (u64, u64),
    fate: Fate,
) -> Result<(), Fail> {
    let new = Disk::of_length(rt, making.length)?;
    let (looking, files) = (OneDisk::beside(old, &new), OneDisk::new(&new));
    new.begin(k);
    let left = call_over_both(rt, &files, &looking, making.words, b"");
    let told = told_of_making(k, making.filled, calls).as_bytes();
    assert_same!(rt; left.status, 3, "at {k}");
    assert_same!(rt; left.errors.as_slice(), told, "at {k}");
    new.restart(fate);
    is_not_there(rt, &files, k);
    let left = call_over_both(rt, &files, &looking, making.words, b"");
    assert_same!(rt; (left.status, left.errors.as_slice()), (0, b"".as_slice()), "at {k}");
    is_there(rt, &files, SEVENS, k);
    Ok(())
}

/// Nothing has the name.
fn is_not_there(rt: &(impl Files<File = File> + AllocGlobal + Abort), files: &OneDisk<'_>, k: u64) {
    let left = call_over(rt, files, &["forth83", "run", "A"], BOTH.as_bytes());
    assert_same!(rt; left.status, 3, "at {k}");
    assert_same!(rt; left.errors.as_slice(), b"forth83: image: cannot open\n".as_slice(), "at {k}");
}

/// It is the name of an image of which a session prints this of both blocks.
fn is_there(
    rt: &(impl Files<File = File> + AllocGlobal + Abort),
    files: &OneDisk<'_>,
    printed: &str,
    k: u64,
) {
    let left = call_over(rt, files, &["forth83", "run", "A"], BOTH.as_bytes());
    assert_same!(rt; (left.status, left.output.as_slice()), (0, printed.as_bytes()), "at {k}");
}
