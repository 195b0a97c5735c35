// A disk in memory with its whole history.
ghost use Rattle.std.specs.Prelude.{◌≡◌, ◌⊎◌, ◌↔◌, ℕ, ◌<◌, ◌≤◌, Bool, true, length, OnOk, OnErr};
ghost use Rattle.std.proofs.Common.{inr};
ghost use Rattle.sector_disk.specs.Disk.{Disk, Image, MayLeave};
ghost use Rattle.sector_disk.specs.Counting.{CountsFailure};
ghost use Rattle.sector_disk.specs.MemoryDisk.{held, size};
ghost use Rattle.test_devices.specs.Recorded.{LeftSince, AddsMoment};
ghost use Rattle.test_devices.specs.RecordedDisk.{recorded_device_of};
ghost use Rattle.sector_disk.specs.Laws.{present_of};
ghost use Rattle.test_devices.specs.Laws.{now_alone, since_earlier};
ghost use Rattle.sector_disk.specs.Pages.{IsPaged, paged_by_sectors};

use sector_disk::{Counts, DeviceFault, MemoryDisk, NoMemory, SectorDevice, count_failure};
use std::alloc::Global;

/// A disk in memory that keeps a copy of itself from before each call, so that what a stop at any moment of its
/// life might have left can still be told. A call fails where there is no memory for the copy, and leaves the disk as it was.
/// Rule: IMAGE, The device; SEMANTICS, From the definitions to the code.
#[derive(Drop)]
pub struct Recorded {
    alloc: Global,
    device: MemoryDisk,
    past: Vec<MemoryDisk>,
    failures: u64,
    counts: Counts,
}

impl Recorded {
    /// A history of this disk that begins now, without a past moment.
    pub fn new(alloc: Global, device: MemoryDisk) -> Recorded
        ensures device { recorded_device_of result ≡ device }
        ensures sectors { ⟦<Recorded as SectorDevice>⟧.sector_count result ≡ size device }
        ensures disk { ⟦<Recorded as SectorDevice>⟧.disk result ≡ held device }
        ensures time { ⟦<Recorded as SectorDevice>⟧.time result ≡ 0 }
        ensures failures { ⟦<Recorded as SectorDevice>⟧.failures result ≡ 0 }
        ensures counts { ⟦<Recorded as SectorDevice>⟧.counts result ≡ record { reads = 0; writes = 0; syncs = 0 } }
    {
        Recorded {
            alloc,
            device,
            past: Vec::new(alloc),
            failures: 0,
            counts: Counts::default(),
        }
    }

    /// The disk as it was before each call that reached it, oldest first: its past moments, numbered from 0.
    pub fn past(&self) -> &[MemoryDisk]
        ensures moments { length result.now ≡ ⟦<Recorded as SectorDevice>⟧.time self.now }

        // What a stop since a moment might have left is what it may leave now, and what it might have left at the past moments.
        ensures history { (t : ℕ) (c : Image)
            → ⟦<Recorded as SectorDevice>⟧.left_since self.now t c
            ↔ LeftSince result.now (⟦<Recorded as SectorDevice>⟧.disk self.now) t c }
    {
        &self.past
    }

    /// The disk as it is now. Nothing is asked of it.
    pub fn into_device(self) -> MemoryDisk
        ensures device { result ≡ recorded_device_of self }
        ensures sectors { size result ≡ ⟦<Recorded as SectorDevice>⟧.sector_count self }
        ensures disk { held result ≡ ⟦<Recorded as SectorDevice>⟧.disk self }
    {
        let Recorded { device, .. } = self;
        device
    }

    // Keeps a copy of the disk as it is.
    fn remember(&mut self) -> Result<(), DeviceFault>
        ensures device { self.new.device ≡ self.old.device }
        ensures counts { self.new.counts ≡ self.old.counts }
        ensures ok { OnOk result (AddsMoment self.old.past.items (held self.old.device) self.new.past.items) }
        ensures err { OnErr result (self.new.past.items ≡ self.old.past.items) }
        ensures failures { CountsFailure self.old.failures self.new.failures result }
    {
        let outcome = add_moment(&mut self.past, &self.device, self.alloc);
        count_failure(&mut self.failures, outcome)
    }
}

// Adds a copy of the disk to the past ones.
fn add_moment(
    past: &mut Vec<MemoryDisk>,
    device: &MemoryDisk,
    alloc: Global,
) -> Result<(), NoMemory>
    ensures ok { OnOk result (AddsMoment past.old.items (held device.now) past.new.items) }
    ensures err { OnErr result (past.new.items ≡ past.old.items) }
{
    let copy = device.try_clone(alloc)?;
    if past.push(copy).is_err() {
        return Err(NoMemory);
    }
    Ok(())
}

impl SectorDevice for Recorded {
    ghost sector_count = { λ d. size d.device };

    ghost keeps_model = { λ d. true };

    ghost keeps_sectors = { λ d. true };

    ghost disk = { λ d. held d.device };

    ghost time = { λ d. length d.past.items };

    ghost left_since = { λ d. LeftSince d.past.items (held d.device) };

    ghost failures = { λ d. d.failures };

    ghost counts = { λ d. d.counts };

    ghost present = { λ d keeps. present_of d.device };

    ghost keeps_both = { λ d keeps. keeps };

    ghost by_pages = { λ d keeps. paged_by_sectors (held d.device) (λ k. Prim.cc) };

    ghost by_sectors = { λ d k keeps. Prim.cc };

    ghost counts_now = { λ d t c le now. inr now };

    ghost only_now = { λ d c since. now_alone d.past.items (held d.device) c since };

    ghost widens = { λ d s t c le since. since_earlier d.past.items (held d.device) s t c le since };

    fn sectors(&self) -> u32 {
        self.device.sectors()
    }

    fn read(&mut self, k: u32, out: &mut [u8; 512]) -> Result<(), DeviceFault> {
        self.counts.count_read();
        self.remember()?;
        self.device.read(k, out)
    }

    fn write(&mut self, k: u32, bytes: &[u8; 512]) -> Result<(), DeviceFault> {
        self.counts.count_write();
        self.remember()?;
        self.device.write(k, bytes)
    }

    fn sync(&mut self) -> Result<(), DeviceFault> {
        self.counts.count_sync();
        self.remember()?;
        self.device.sync()
    }
}
