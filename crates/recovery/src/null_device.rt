// A device that keeps nothing.
ghost use Rattle.std.specs.Prelude.{◌≡◌, ◌<◌, ◌==◌, ℕ, Bool};
ghost use Rattle.sector_disk.specs.Disk.{MayLeave};
ghost use Rattle.recovery.specs.NullDevice.{nothing, nothing_left, nothing_paged};

use sector_disk::{Counts, DeviceFault, SectorDevice};

/// A device that takes each write and keeps none. No call of it fails. One of no sectors keeps the disk model, and
/// serves a source that reads no device.
/// Rule: DECISIONS, The device and the image.
#[derive(Drop)]
pub struct NullDevice {
    sectors: u32,
    counts: Counts,
}

impl NullDevice {
    /// A device of so many sectors.
    pub fn new(sectors: u32) -> NullDevice
        ensures sectors { ⟦<NullDevice as SectorDevice>⟧.sector_count result ≡ sectors }
        ensures model { ⟦<NullDevice as SectorDevice>⟧.keeps_model result ≡ (sectors == 0) }
    {
        NullDevice {
            sectors,
            counts: Counts::default(),
        }
    }
}

impl SectorDevice for NullDevice {
    ghost sector_count = { λ d. d.sectors };

    ghost keeps_model = { λ d. d.sectors == 0 };

    ghost keeps_sectors = { λ d. d.sectors == 0 };

    ghost disk = { λ d. nothing };

    ghost time = { λ d. 0 };

    ghost left_since = { λ d t c. MayLeave nothing c };

    ghost failures = { λ d. 0 };

    ghost counts = { λ d. d.counts };

    ghost present = { λ d keeps. nothing_left };

    ghost keeps_both = { λ d keeps. keeps };

    ghost by_pages = { λ d keeps. nothing_paged };

    ghost by_sectors = { λ d k keeps. Prim.cc };

    ghost counts_now = { λ d t c le now. now };

    ghost only_now = { λ d c now. now };

    ghost widens = { λ d s t c le since. since };

    fn sectors(&self) -> u32 {
        self.sectors
    }

    fn read(&mut self, _k: u32, _out: &mut [u8; 512]) -> Result<(), DeviceFault> {
        self.counts.reads = self.counts.reads.saturating_add(1);
        Ok(())
    }

    fn write(&mut self, _k: u32, _bytes: &[u8; 512]) -> Result<(), DeviceFault> {
        self.counts.writes = self.counts.writes.saturating_add(1);
        Ok(())
    }

    fn sync(&mut self) -> Result<(), DeviceFault> {
        self.counts.syncs = self.counts.syncs.saturating_add(1);
        Ok(())
    }
}
