// What a stop leaves of a disk.
ghost use Rattle.std.specs.Prelude.{◌≡◌, ◌≤◌, IfOk};
ghost use Rattle.sector_disk.specs.Disk.{MayLeave};
ghost use Rattle.sector_disk.specs.MemoryDisk.{held, size};

use crate::disks::sector;
use crate::medium::{Medium, Unit};
use sector_disk::{Fate, MemoryDisk, SectorDevice};
use std::alloc::{AllocError, Global};
use std::test::Fail;

/// A sector that is unsynced, by a write of it or of another one of its unit: what it held at the last sync, and what it holds.
#[derive(Clone, Copy)]
pub struct Unsynced {
    /// Its number.
    pub k: u32,
    /// The layout, and the units of the disk.
    pub medium: Medium,
    /// Its bytes at the last sync.
    pub old: [u8; 512],
    /// Its bytes now.
    pub new: [u8; 512],
}

// Bytes that no call writes. A write that fails, and is torn with the `wild` bytes of `trials.rt`, leaves the same.
const MARK: [u8; 512] = [0xee; 512];

/// The unsynced sectors, in rising order: those in which a stop may leave a mark.
pub fn unsynced_sectors(
    rt: &HostRuntime,
    disk: &MemoryDisk,
    medium: Medium,
) -> Result<Vec<Unsynced>, Fail> {
    let alloc = rt.alloc();
    let mut present = disk.try_clone(alloc)?;
    let marks = vec![in alloc; Fate::Torn(MARK); present.sectors() as usize]?;
    let mut marked = disk.try_clone(alloc)?.stop(&marks);
    let mut lost = disk.try_clone(alloc)?.stop(&[]);
    let mut found = Vec::new(alloc);
    for k in 0..present.sectors() {
        if sector(&mut marked, k)? == MARK {
            found.push(Unsynced {
                k,
                medium,
                old: sector(&mut lost, k)?,
                new: sector(&mut present, k)?,
            })?;
        }
    }
    Ok(found)
}

// Whether these are more combinations than are all tried.
fn are_too_many(sectors: &[Unsynced], all: usize) -> bool {
    match sectors.first() {
        Some(sector) => all > sector.medium.most_stops(),
        None => false,
    }
}

// Its first `n` bytes are new, and the rest is old.
fn torn(sector: &Unsynced, n: usize) -> Fate {
    let mut bytes = sector.old;
    for (byte, new) in bytes.iter_mut().zip(sector.new.iter()).take(n) {
        *byte = *new;
    }
    Fate::Torn(bytes)
}

// How many ways there are to leave a unit: lost, kept, torn in the middle, and for label and gate also torn in their names. One
// of eight sectors isn't torn in the middle: it is spoiled, so that each of its sectors holds other bytes.
fn ways(sector: &Unsynced) -> usize
    ensures { 3 ≤ result }
{
    let has_name = sector.medium.has_name(sector.k);
    if has_name { 4 } else { 3 }
}

// The unit of a sector, unless it is that of the one before.
fn next_unit(sector: &Unsynced, before: Option<u32>) -> Option<u32> {
    let unit = sector.medium.unit_of(sector.k);
    if before == Some(unit) {
        None
    } else {
        Some(unit)
    }
}

fn combinations(sectors: &[Unsynced]) -> usize {
    let mut all = 1_usize;
    let mut unit = None;
    for sector in sectors {
        if let Some(next) = next_unit(sector, unit) {
            unit = Some(next);
            all = all.saturating_mul(ways(sector));
        }
    }
    all
}

/// How many stops are tried: one for each way to leave all units with unsynced sectors, or five where these are too many. By the five
/// all are lost, kept, torn in the middle (or spoiled), or torn in their names, or one is kept and the next one lost, in turn.
pub fn count_of_stops(sectors: &[Unsynced]) -> usize {
    let all = combinations(sectors);
    if are_too_many(sectors, all) { 5 } else { all }
}

// How the n-th stop leaves each sector.
fn numbers(alloc: Global, sectors: &[Unsynced], n: usize) -> Result<Vec<usize>, AllocError> {
    let are_many = are_too_many(sectors, combinations(sectors));
    let mut numbers = Vec::new(alloc);
    let mut rest = n;
    let mut in_turn = 0;
    let mut unit = None;
    let mut number = 0;
    for sector in sectors {
        if let Some(next) = next_unit(sector, unit) {
            unit = Some(next);
            in_turn = if in_turn == 0 { 1 } else { 0 };
            let alike = if n < 4 { n } else { in_turn };
            number = if are_many { alike } else { rest % ways(sector) };
            rest /= ways(sector);
        }
        numbers.push(number)?;
    }
    Ok(numbers)
}

// What becomes of a sector by the number of its unit. Where a name is torn, the other sectors of its unit are spoiled.
fn fate(sector: &Unsynced, number: usize) -> (&'static str, Fate) {
    let is_first = sector.medium.unit_of(sector.k) == sector.k;
    match (number, sector.medium.unit) {
        (0, _) => ("lost", Fate::Lost),
        (1, _) => ("kept", Fate::Kept),
        (2, Unit::One) => ("torn in the middle", torn(sector, 256)),
        (2, Unit::Eight) => ("spoiled", Fate::Torn(MARK)),
        _ if is_first => ("torn in its name", torn(sector, 4)),
        _ => ("spoiled", Fate::Torn(MARK)),
    }
}

// What a stop leaves of the disk where its unsynced sectors meet these fates.
fn after_stop(rt: &HostRuntime, disk: &MemoryDisk, fates: &[Fate]) -> Result<MemoryDisk, Fail>
    ensures size { IfOk result (λ d. size d ≡ size disk.now) }
    ensures left { IfOk result (λ d. MayLeave (held disk.now) (held d).content) }
{
    Ok(disk.try_clone(rt.alloc())?.stop(fates))
}

/// What the n-th stop leaves of the disk.
pub fn stopped(
    rt: &HostRuntime,
    disk: &MemoryDisk,
    sectors: &[Unsynced],
    n: usize,
) -> Result<MemoryDisk, Fail>
    ensures size { IfOk result (λ d. size d ≡ size disk.now) }
    ensures left { IfOk result (λ d. MayLeave (held disk.now) (held d).content) }
{
    let mut fates = Vec::new(rt.alloc());
    for (sector, number) in sectors.iter().zip(numbers(rt.alloc(), sectors, n)?.iter()) {
        let (_, fate) = fate(sector, *number);
        fates.push(fate)?;
    }
    after_stop(rt, disk, &fates)
}

/// The n-th stop in words, as ` 5 lost, 6 kept,`.
pub fn in_words(alloc: Global, sectors: &[Unsynced], n: usize) -> Result<String, AllocError> {
    let mut words = String::new(alloc);
    for (sector, number) in sectors.iter().zip(numbers(alloc, sectors, n)?.iter()) {
        let (word, _) = fate(sector, *number);
        let k = sector.k;
        words.push_str(&format!(in alloc; " {k} {word},")?)?;
    }
    Ok(words)
}
