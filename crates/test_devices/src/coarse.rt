// A disk in memory whose sectors lie in larger units.
ghost use Rattle.std.specs.Prelude.{◌≡◌, ◌↔◌, ◌⊎◌, ℕ, ◌+◌, ◌%◌, ◌<◌, ◌≤◌, Bool, true, false, IsOk, IsTrue, OnOk, OnErr};
ghost use Rattle.test_devices.specs.Coarse.{coarse_device_of, held_in_eights, in_eights};
ghost use Rattle.sector_disk.specs.Disk.{Disk, Image, MayLeave, settled, written};
ghost use Rattle.sector_disk.specs.MemoryDisk.{held, size, begun};

use sector_disk::{Counts, DeviceFault, MemoryDisk, SectorDevice};

/// How many sectors a unit has.
const UNIT: u32 = 8;

/// A disk in memory whose sectors lie in units of eight, each from a multiple of eight on. A write touches each sector
/// of its unit: until a sync, a stop may leave any bytes in them. No call fails.
///
/// So it keeps the disk model, and not by sectors: a write spoils more than its own sector.
/// Rule: IMAGE, The device.
#[derive(Drop)]
pub struct Coarse {
    device: MemoryDisk,
}

impl Coarse {
    /// The disk, with its sectors in units of eight. Nothing is asked of it.
    pub fn new(device: MemoryDisk) -> Coarse
        ensures device { coarse_device_of result ≡ device }
        ensures sectors { ⟦<Coarse as SectorDevice>⟧.sector_count result ≡ size device }
        ensures disk { ⟦<Coarse as SectorDevice>⟧.disk result ≡ in_eights (size device) (held device) }
        ensures model { IsTrue (⟦<Coarse as SectorDevice>⟧.keeps_model result) }
        ensures counts { ⟦<Coarse as SectorDevice>⟧.counts result ≡ begun device }
    {
        Coarse { device }
    }

    /// The disk within, as it is. A stop may leave of it what it may leave of this one.
    pub fn into_device(self) -> MemoryDisk
        ensures device { result ≡ coarse_device_of self }
        ensures left { (c : Image) → MayLeave (held result) c ↔ MayLeave (⟦<Coarse as SectorDevice>⟧.disk self) c }
    {
        let Coarse { device } = self;
        device
    }
}

impl SectorDevice for Coarse {
    ghost use Rattle.sector_disk.specs.Counting.{with_read, with_write, with_sync};
    ghost use Rattle.test_devices.specs.Coarse.{paged_in_eights};
    ghost use Rattle.sector_disk.specs.Fused.{GoesOn};
    ghost use Rattle.sector_disk.specs.Laws.{present_of};
    ghost use Rattle.sector_disk.specs.Pages.{IsPaged};

    ghost sector_count = { λ d. size d.device };

    ghost keeps_model = { λ d. true };

    ghost keeps_sectors = { λ d. false };

    ghost disk = { λ d. held_in_eights d };

    // It knows the present alone.
    ghost time = { λ d. 0 };

    ghost left_since = { λ d t c. MayLeave (held_in_eights d) c };

    ghost failures = { λ d. 0 };

    ghost counts = { λ d. begun d.device };

    ghost present = { λ d keeps. present_of d.device };

    ghost keeps_both = { λ d keeps. Prim.cc };

    ghost by_pages = { λ d keeps. paged_in_eights (size d.device) (held d.device) };

    ghost by_sectors = { λ d k keeps. Prim.cc };

    ghost counts_now = { λ d t c le now. now };

    ghost only_now = { λ d c now. now };

    ghost widens = { λ d s t c le since. since };

    fn sectors(&self) -> u32 {
        self.device.sectors()
    }

    fn read(&mut self, k: u32, out: &mut [u8; 512]) -> Result<(), DeviceFault>
        requires { k < size (coarse_device_of self.old) }
        ensures well { IsOk result }
        ensures bytes { out.new ≡ (held_in_eights self.old).content k }
        ensures disk { held_in_eights self.new ≡ held_in_eights self.old }

        // As for every device.
        ensures goes_on { GoesOn ⟦<Coarse as SectorDevice>⟧ self.old self.new result }
        ensures counts { begun (coarse_device_of self.new) ≡ with_read (begun (coarse_device_of self.old)) }
    {
        self.device.read(k, out)
    }

    fn write(&mut self, k: u32, bytes: &[u8; 512]) -> Result<(), DeviceFault>
        requires { k < size (coarse_device_of self.old) }
        ensures well { IsOk result }
        ensures disk { held_in_eights self.new ≡ written (held_in_eights self.old) k bytes.now }

        // As for every device.
        ensures goes_on { GoesOn ⟦<Coarse as SectorDevice>⟧ self.old self.new result }
        ensures counts { begun (coarse_device_of self.new) ≡ with_write (begun (coarse_device_of self.old)) }
    {
        let first = start_of_unit(k);
        let end = end_of_unit(first, self.device.sectors());
        self.device.touch(first, end);
        self.device.write(k, bytes)
    }

    fn sync(&mut self) -> Result<(), DeviceFault>
        ensures well { IsOk result }
        ensures disk { held_in_eights self.new ≡ settled (held_in_eights self.old) }

        // As for every device.
        ensures goes_on { GoesOn ⟦<Coarse as SectorDevice>⟧ self.old self.new result }
        ensures counts { begun (coarse_device_of self.new) ≡ with_sync (begun (coarse_device_of self.old)) }
    {
        self.device.sync()
    }
}

// The first sector of the unit in which this one lies.
fn start_of_unit(k: u32) -> u32
    ensures { result + k % 8 ≡ k }
{
    k - k % UNIT
}

// Where the unit ends that begins with this sector.
fn end_of_unit(first: u32, sectors: u32) -> u32
    requires { first < sectors }
    ensures within { result ≤ sectors }
    ensures unit { result ≤ first + 8 }
    ensures all { (j : ℕ) → j < sectors → j < first + 8 → j < result }
{
    if sectors - first < UNIT {
        sectors
    } else {
        first + UNIT
    }
}
