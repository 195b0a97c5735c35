// A disk in memory, which can be stopped.
ghost use Rattle.std.specs.Prelude.{◌≡◌, ◌⊎◌, ℕ, ◌<◌, ◌≤◌, ◌^◌, Bool, true, false, IsTrue, IsOk, OnOk, OnErr, IfOk, length, replicate};
ghost use Rattle.std.proofs.Common.{inl, inr};
ghost use Rattle.sector_disk.specs.Disk.{Disk, Image, MayLeave};
ghost use Rattle.sector_disk.specs.Memory.{zeros, sector_at, touched_sector, settled_sector, stopped_sector, disk_of};
ghost use Rattle.sector_disk.specs.Stop.{stopped, IsSector, CanLeave};

use crate::{Counts, DeviceFault, SectorDevice};
use std::alloc::{AllocError, Global};

/// There is no memory for a disk of this size.
#[derive(Clone, Copy, Debug, PartialEq, Eq)]
pub struct NoMemory;

/// What becomes of an unsynced sector at a stop.
#[derive(Clone, Copy, Debug, PartialEq, Eq)]
pub enum Fate {
    /// It is as at the last sync.
    Lost,
    /// It is as it was last written.
    Kept,
    /// It holds these bytes.
    Torn([u8; 512]),
}

#[derive(Clone, Copy)]
struct Sector {
    synced: [u8; 512],
    // the bytes that it holds, where it was written or touched since the last sync
    unsynced: Option<[u8; 512]>,
}

/// A disk in memory. It keeps the disk model by sectors, and no call of it fails.
/// Rule: IMAGE, The device; SEMANTICS, From the definitions to the code.
#[derive(Drop)]
pub struct MemoryDisk {
    sectors: Vec<Sector>,
    counts: Counts,
    ghost few: { length sectors.items < 2 ^ 32 },
}

impl MemoryDisk {
    ghost use Rattle.sector_disk.specs.MemoryDisk.{held, size, begun};

    /// A disk of zeros with this number of sectors, all of them synced. Each sector takes about 1,026 bytes of memory.
    /// `NoMemory` where there is none for it.
    pub fn new(alloc: Global, sectors: u32) -> Result<MemoryDisk, NoMemory>
        ensures sectors { IfOk result (λ d. size d ≡ sectors) }
        ensures zeros { IfOk result (λ d. (k : ℕ) → k < sectors → (held d).content k ≡ replicate 512 0) }
        ensures synced { IfOk result (λ d. (k : ℕ) → (held d).unsynced k ≡ false) }
        ensures model { IfOk result (λ d. IsTrue (⟦<MemoryDisk as SectorDevice>⟧.keeps_model d)) }
        ensures units { IfOk result (λ d. IsTrue (⟦<MemoryDisk as SectorDevice>⟧.keeps_sectors d)) }
        ensures counts { IfOk result (λ d. begun d ≡ record { reads = 0; writes = 0; syncs = 0 }) }
        ensures failures { IfOk result (λ d. ⟦<MemoryDisk as SectorDevice>⟧.failures d ≡ 0) }
    {
        let sectors = sectors_of_zeros(alloc, sectors as usize).map_err(|_| NoMemory)?;
        Ok(MemoryDisk {
            sectors,
            counts: Counts::default(),
        })
    }

    /// A disk that holds the same bytes, synced and unsynced, with the same counts. `NoMemory` where there is none for
    /// it.
    pub fn try_clone(&self, alloc: Global) -> Result<MemoryDisk, NoMemory>
        ensures sectors { IfOk result (λ d. size d ≡ size self.now) }
        ensures disk { IfOk result (λ d. held d ≡ held self.now) }
        ensures counts { IfOk result (λ d. begun d ≡ begun self.now) }
    {
        let sectors = Vec::from_slice(alloc, &self.sectors).map_err(|_| NoMemory)?;
        Ok(MemoryDisk {
            sectors,
            counts: self.counts,
        })
    }

    /// How many reads, writes and syncs were begun. Each count stays at 2^64 - 1.
    pub fn counts(&self) -> Counts
        ensures { result ≡ begun self.now }
    {
        self.counts
    }

    /// The disk after a stop. The unsynced sectors meet the fates in rising order, and those past the
    /// end of the list are lost. Nothing is unsynced afterwards, and the counts go on.
    pub fn stop(mut self, fates: &[Fate]) -> MemoryDisk
        ensures sectors { size result ≡ size self }
        ensures image { (k : ℕ) → (held result).content k ≡ stopped (held self) fates.now k }
        ensures synced { (k : ℕ) → (held result).unsynced k ≡ false }
        ensures counts { begun result ≡ begun self }

        // It is one of the images that a stop may leave, and each of them is left by some fates.
        ensures left { MayLeave (held self) (held result).content }
        ensures every { (c : Image) → ((k : ℕ) → k < size self → IsSector (c k))
            → MayLeave (held self) c
            → CanLeave (held self) (size self) c }
    {
        meet_fates(&mut self.sectors, fates);
        self
    }

    /// Makes the sectors from `first` on, up to and without `end`, unsynced, with the bytes that they hold, as a write
    /// does to the others of its unit where that is larger. `first` is at most `end`, and `end` at most `sectors()`. No
    /// call is counted.
    pub fn touch(&mut self, first: u32, end: u32)
        requires order { first ≤ end }
        requires within { end ≤ size self.old }
        ensures sectors { size self.new ≡ size self.old }
        ensures content { (k : ℕ) → (held self.new).content k ≡ (held self.old).content k }
        ensures synced { (k : ℕ) → (held self.new).synced k ≡ (held self.old).synced k }
        ensures touched { (k : ℕ) → first ≤ k → k < end → (held self.new).unsynced k ≡ true }
        ensures others { (k : ℕ) → (k < first) ⊎ (end ≤ k) → (held self.new).unsynced k ≡ (held self.old).unsynced k }
        ensures counts { begun self.new ≡ begun self.old }
    {
        touch_sectors(&mut self.sectors, first as usize, end as usize);
    }
}

// So many sectors of zeros, all of them synced. Each is made in its place and not copied, so that of what isn't written yet
// nothing is filled.
fn sectors_of_zeros(alloc: Global, count: usize) -> Result<Vec<Sector>, AllocError>
    ensures { IfOk result (λ made. made.items ≡ replicate count zeros) }
{
    let mut made = Vec::with_capacity(alloc, count)?;
    for _ in 0..count {
        made.push(Sector {
            synced: [0; 512],
            unsynced: None,
        })?;
    }
    Ok(made)
}

// Gives the unsynced sectors their fates.
fn meet_fates(sectors: &mut [Sector], fates: &[Fate])
    ensures length { length sectors.new ≡ length sectors.old }
    ensures each { (k : ℕ) → sector_at sectors.new k ≡ stopped_sector (disk_of sectors.old) fates.now k }
{
    let mut met = 0;
    for sector in sectors.iter_mut() {
        if let Some(bytes) = &sector.unsynced {
            match fates.get(met) {
                Some(Fate::Kept) => sector.synced = *bytes,
                Some(Fate::Torn(torn)) => sector.synced = *torn,
                Some(Fate::Lost) | None => {}
            }
            sector.unsynced = None;
            met += 1;
        }
    }
}

// Makes the sectors from `first` to `end` unsynced, with the bytes that they hold.
fn touch_sectors(sectors: &mut [Sector], first: usize, end: usize)
    requires order { first ≤ end }
    requires within { end ≤ length sectors.old }
    ensures length { length sectors.new ≡ length sectors.old }
    ensures touched { (k : ℕ) → first ≤ k → k < end → sector_at sectors.new k ≡ touched_sector (sector_at sectors.old k) }
    ensures others { (k : ℕ) → (k < first) ⊎ (end ≤ k) → sector_at sectors.new k ≡ sector_at sectors.old k }
{
    for k in first..end {
        touch_sector(&mut sectors[k]);
    }
}

fn touch_sector(sector: &mut Sector)
    ensures { sector.new ≡ touched_sector sector.old }
{
    if sector.unsynced.is_none() {
        sector.unsynced = Some(sector.synced);
    }
}

// Makes what was written stay.
fn settle(sectors: &mut [Sector])
    ensures { (k : ℕ) → sector_at sectors.new k ≡ settled_sector (sector_at sectors.old k) }
{
    for sector in sectors.iter_mut() {
        if let Some(bytes) = &sector.unsynced {
            sector.synced = *bytes;
            sector.unsynced = None;
        }
    }
}

impl SectorDevice for MemoryDisk {
    ghost use Rattle.sector_disk.specs.MemoryDisk.{held, size, begun};
    ghost use Rattle.sector_disk.specs.Laws.{present_of};
    ghost use Rattle.sector_disk.specs.Pages.{IsPaged, paged_by_sectors};

    ghost sector_count = { λ d. size d };

    ghost keeps_model = { λ d. true };

    ghost keeps_sectors = { λ d. true };

    ghost disk = { λ d. held d };

    // It knows the present alone.
    ghost time = { λ d. 0 };

    ghost left_since = { λ d t c. MayLeave (held d) c };

    ghost failures = { λ d. 0 };

    ghost counts = { λ d. begun d };

    ghost present = { λ d _. present_of d };

    ghost keeps_both = { λ d keeps. keeps };

    ghost by_pages = { λ d keeps. paged_by_sectors (held d) (λ k. Prim.cc) };

    ghost by_sectors = { λ d k keeps. Prim.cc };

    ghost counts_now = { λ d t c le now. now };

    ghost only_now = { λ d c now. now };

    ghost widens = { λ d s t c le since. since };

    fn sectors(&self) -> u32 {
        self.sectors.len() as u32
    }

    fn read(&mut self, k: u32, out: &mut [u8; 512]) -> Result<(), DeviceFault> {
        self.counts.count_read();
        let sector = &self.sectors[k as usize];
        *out = match &sector.unsynced {
            Some(bytes) => *bytes,
            None => sector.synced,
        };
        Ok(())
    }

    fn write(&mut self, k: u32, bytes: &[u8; 512]) -> Result<(), DeviceFault> {
        self.counts.count_write();
        self.sectors[k as usize].unsynced = Some(*bytes);
        Ok(())
    }

    fn sync(&mut self) -> Result<(), DeviceFault> {
        self.counts.count_sync();
        settle(&mut self.sectors);
        Ok(())
    }
}
