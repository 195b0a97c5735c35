// Bytes in memory, as a device that is only read.
ghost use Rattle.std.specs.Prelude.{◌≡◌, ◌<◌, ◌≤◌, ◌+◌, ℕ, if◌then◌else◌, ◌==◌, IsTrue, length, slice_index};
ghost use Rattle.sector_disk.specs.FileBytes.{Gives, disk_of_file, sector_of};
ghost use Rattle.image_care.specs.Seen.{still};
ghost use Rattle.image_care.specs.StillDisk.{ReadsWell, replaced, replaced_disk};
ghost use Rattle.image_care.specs.Through.{image_of};

use sector_disk::{Counts, DeviceFault, SectorDevice};

/// The 512 bytes that stand in the place of those of sector `at`.
#[derive(Clone, Copy)]
pub struct Replacement {
    pub at: u32,
    pub bytes: [u8; 512],
}

/// Bytes in memory, as a device of sectors that nobody writes: past their end there are zeros, and one sector may be
/// replaced. It keeps the disk model, by sectors. No read of it fails; each write and each sync does, and changes no
/// byte.
/// Rule: IMAGE, A look while it runs; IMAGE, A sector that can't be read.
#[derive(Drop)]
pub struct StillDisk<'a> {
    bytes: &'a [u8],
    sectors: u32,
    replacement: Option<Replacement>,
    counts: Counts,
}

impl<'a> StillDisk<'a> {
    /// These bytes, as a device of this many sectors.
    pub fn new(bytes: &'a [u8], sectors: u32) -> StillDisk<'a>
        ensures sectors { ⟦<StillDisk<'a> as SectorDevice>⟧.sector_count result ≡ sectors }
        ensures disk { ⟦<StillDisk<'a> as SectorDevice>⟧.disk result ≡ disk_of_file (still bytes.now) }
        ensures model { IsTrue (⟦<StillDisk<'a> as SectorDevice>⟧.keeps_model result) }
        ensures units { IsTrue (⟦<StillDisk<'a> as SectorDevice>⟧.keeps_sectors result) }
        ensures failures { ⟦<StillDisk<'a> as SectorDevice>⟧.failures result ≡ 0 }
        // Whatever is read of it, no read fails.
        ensures reads { ReadsWell ⟦<StillDisk<'a> as SectorDevice>⟧ result }
    {
        StillDisk::with(bytes, sectors, None)
    }

    /// These bytes, as a device of this many sectors, with one of them replaced, if any is.
    pub(crate) fn with(
        bytes: &'a [u8],
        sectors: u32,
        replacement: Option<Replacement>,
    ) -> StillDisk<'a>
        ensures sectors { ⟦<StillDisk<'a> as SectorDevice>⟧.sector_count result ≡ sectors }
        ensures disk { ⟦<StillDisk<'a> as SectorDevice>⟧.disk result ≡ replaced_disk replacement bytes.now }
        ensures model { IsTrue (⟦<StillDisk<'a> as SectorDevice>⟧.keeps_model result) }
        ensures units { IsTrue (⟦<StillDisk<'a> as SectorDevice>⟧.keeps_sectors result) }
        ensures failures { ⟦<StillDisk<'a> as SectorDevice>⟧.failures result ≡ 0 }
        ensures reads { ReadsWell ⟦<StillDisk<'a> as SectorDevice>⟧ result }
    {
        StillDisk {
            bytes,
            sectors,
            replacement,
            counts: Counts::default(),
        }
    }

    // The bytes of sector `k`.
    fn sector(&self, k: u32) -> [u8; 512]
        ensures { result ≡ replaced self.now.replacement (image_of self.now.bytes.now) k }
    {
        match &self.replacement {
            Some(one) => one.or_read(self.bytes, k),
            None => sector_in(self.bytes, k),
        }
    }
}

impl Replacement {
    // The bytes that stand for sector `k`, and else those that are there.
    fn or_read(&self, bytes: &[u8], k: u32) -> [u8; 512]
        ensures { result ≡ (if k == self.now.at then self.now.bytes else image_of bytes.now k) }
    {
        if k == self.at {
            self.bytes
        } else {
            sector_in(bytes, k)
        }
    }
}

impl SectorDevice for StillDisk<'_> {
    ghost use Rattle.std.specs.Prelude.{true, refl};
    ghost use Rattle.sector_disk.specs.Disk.{MayLeave};
    ghost use Rattle.sector_disk.specs.Pages.{paged_by_sectors};
    ghost use Rattle.image_care.specs.StillDisk.{refused, replaced_disk};

    ghost sector_count = { λ d. d.sectors };

    ghost keeps_model = { λ d. true };

    ghost keeps_sectors = { λ d. true };

    ghost disk = { λ d. replaced_disk d.replacement d.bytes.now };

    ghost time = { λ d. 0 };

    ghost left_since = { λ d t c. MayLeave (replaced_disk d.replacement d.bytes.now) c };

    ghost failures = { λ d. refused d.counts };

    ghost counts = { λ d. d.counts };

    ghost present = { λ d keeps k synced. refl };

    ghost keeps_both = { λ d keeps. keeps };

    ghost by_pages = { λ d keeps. paged_by_sectors (replaced_disk d.replacement d.bytes.now) (λ k. refl) };

    ghost by_sectors = { λ d k keeps. refl };

    ghost counts_now = { λ d t c le now. now };

    ghost only_now = { λ d c now. now };

    ghost widens = { λ d s t c le since. since };

    fn sectors(&self) -> u32 {
        self.sectors
    }

    fn read(&mut self, k: u32, out: &mut [u8; 512]) -> Result<(), DeviceFault> {
        self.counts.count_read();
        *out = self.sector(k);
        Ok(())
    }

    fn write(&mut self, _k: u32, _bytes: &[u8; 512]) -> Result<(), DeviceFault> {
        self.counts.count_write();
        Err(DeviceFault)
    }

    fn sync(&mut self) -> Result<(), DeviceFault> {
        self.counts.count_sync();
        Err(DeviceFault)
    }
}

// The bytes of sector `k`, with zeros past the end.
pub(crate) fn sector_in(bytes: &[u8], k: u32) -> [u8; 512]
    ensures { result ≡ sector_of (λ p. slice_index bytes.now p) k }
{
    let mut sector = [0; 512];
    let _ = copied(bytes, 512 * k as u64, &mut sector);
    sector
}

// How many of so many bytes are had from a place on, where there is room for so many.
fn count(len: usize, position: u64, room: usize) -> usize
    ensures room { result ≤ room }
    ensures within { 0 < result → position + result ≤ len }
    ensures all { result < room → len ≤ position + result }
{
    if position >= len as u64 {
        return 0;
    }
    room.min(len - position as usize)
}

// Copies the bytes from a place on, as many as there are and there is room for, and answers how many. The rest of the
// buffer stays.
pub(crate) fn copied(bytes: &[u8], position: u64, buffer: &mut [u8]) -> usize
    ensures count { result ≤ length buffer.old }
    ensures gives { Gives (still bytes.now) position buffer.new result }
    ensures all { result < length buffer.old → length bytes.now ≤ position + result }
    ensures rest { (i : ℕ) → result ≤ i → slice_index buffer.new i ≡ slice_index buffer.old i }
{
    let n = count(bytes.len(), position, buffer.len());
    if n > 0 {
        let at = position as usize;
        buffer[..n].copy_from_slice(&bytes[at..at + n]);
    }
    n
}
