// A file as a device.
ghost use Rattle.std.specs.Prelude.{◌≡◌, ◌⊎◌, IsTrue, OnOk, OnErr, ◌+◌, ℕ, ◌<◌, ◌≤◌, ◌%◌, ◌/◌, ◌^◌, ◌==◌, ◌&&◌, nat_lt, if◌then◌else◌, Bool, true, false, List, [], IfOk, IfErr};
ghost use Rattle.sector_disk.specs.Disk.{Disk, Image, MayWrite, written};
ghost use Rattle.sector_disk.specs.FileBytes.{disk_of_file};
ghost use Rattle.sector_disk.specs.Whole.{Goes};

use crate::device::count_failure;
use crate::whole::{read_whole, write_whole};
use crate::{Counts, DeviceFault, HostFile, SectorDevice};

/// The bytes of a sector.
pub(crate) const SECTOR: u64 = 512;

/// A file of sectors. Each read and write moves the sector's bytes at its place, and a sync asks that all bytes written
/// reach the disk. Once a sync has failed each later one fails too, with no call of the file.
///
/// Over a file that keeps the model of a file it keeps the disk model, and by sectors over one that keeps it so.
/// Rule: IMAGE, The file.
#[derive(Drop)]
pub struct SectorFile<H: HostFile> {
    file: H,
    sectors: u32,
    sync_failed: bool,
    failures: u64,
    counts: Counts,
    // As long as no sync failed, one that succeeds settles.
    ghost settle: { sync_failed ≡ false → IsTrue (H.HostFile.syncs_settle file) },
}

impl<H: HostFile> SectorFile<H> {
    ghost use Rattle.sector_disk.specs.SectorFile.{file_of, has_failed_sync, sectors_of};
    ghost use Rattle.sector_disk.specs.FileBytes.{disk_of_file};

    /// The file as a device of this many sectors. Its syncs settle (`syncs_settle`), as those of one that was just
    /// opened do. What is synced then, and what isn't, is as the file has it. Asks nothing of the file.
    pub fn new(file: H, sectors: u32) -> SectorFile<H>
        requires { IsTrue (H.syncs_settle file) }
        ensures file { file_of result ≡ file }
        ensures model { ⟦<SectorFile<H> as SectorDevice>⟧.keeps_model result ≡ H.keeps_model file }
        ensures units { ⟦<SectorFile<H> as SectorDevice>⟧.keeps_sectors result ≡ H.keeps_sectors file }
        ensures disk { ⟦<SectorFile<H> as SectorDevice>⟧.disk result ≡ disk_of_file (H.bytes file) }
        ensures sectors { sectors_of result ≡ sectors }
        ensures failures { ⟦<SectorFile<H> as SectorDevice>⟧.failures result ≡ 0 }
        ensures sync { has_failed_sync result ≡ false }
        ensures counts { ⟦<SectorFile<H> as SectorDevice>⟧.counts result ≡ record { reads = 0; writes = 0; syncs = 0 } }
    {
        SectorFile {
            file,
            sectors,
            sync_failed: false,
            failures: 0,
            counts: Counts::default(),
        }
    }

    /// The file within.
    pub fn file(&self) -> &H
        ensures { result.now ≡ file_of self.now }
    {
        &self.file
    }

    /// A file that was made and not finished, as a device without sectors. It isn't written or synced.
    pub(crate) fn unfinished(file: H) -> SectorFile<H>
        ensures file { file_of result ≡ file }
        ensures sectors { sectors_of result ≡ 0 }
        ensures failures { ⟦<SectorFile<H> as SectorDevice>⟧.failures result ≡ 0 }
        ensures counts { ⟦<SectorFile<H> as SectorDevice>⟧.counts result ≡ record { reads = 0; writes = 0; syncs = 0 } }
    {
        SectorFile {
            file,
            sectors: 0,
            sync_failed: true,
            failures: 0,
            counts: Counts::default(),
        }
    }
}

impl<H: HostFile> SectorDevice for SectorFile<H> {
    ghost use Rattle.std.specs.Prelude.{IsErr, ◌↔◌, OnOk, OnErr};
    ghost use Rattle.sector_disk.specs.Counting.{with_read, with_write, with_sync};
    ghost use Rattle.sector_disk.specs.Disk.{MayWrite, SettlesNothing, settled, written};
    ghost use Rattle.sector_disk.specs.FileBytes.{disk_of_file};
    ghost use Rattle.sector_disk.specs.SectorFile.{sectors_of, has_failed_sync, file_of};
    ghost use Rattle.sector_disk.specs.Fused.{GoesOn};
    ghost use Rattle.sector_disk.specs.Pages.{IsPaged};

    ghost sector_count = { λ f. f.sectors };

    ghost keeps_model = { λ f. H.keeps_model f.file };

    ghost keeps_sectors = { λ f. H.keeps_sectors f.file };

    ghost disk = { λ f. disk_of_file (H.bytes f.file) };

    ghost time = { λ f. H.time f.file };

    ghost left_since = { λ f t c. H.left_since f.file t c };

    ghost failures = { λ f. f.failures };

    ghost counts = { λ f. f.counts };

    ghost present = { λ f keeps. H.present f.file keeps };

    ghost keeps_both = { λ f keeps. H.keeps_both f.file keeps };

    ghost by_pages = { λ f keeps. H.by_pages f.file keeps };

    ghost by_sectors = { λ f k keeps. H.by_sectors f.file k keeps };

    ghost counts_now = { λ f t c le now. H.counts_now f.file t c le now };

    ghost only_now = { λ f c since. H.only_now f.file c since };

    ghost widens = { λ f s t c le since. H.widens f.file s t c le since };

    fn sectors(&self) -> u32 {
        self.sectors
    }

    fn read(&mut self, k: u32, out: &mut [u8; 512]) -> Result<(), DeviceFault>
        requires { k < sectors_of self.old }
        ensures sync { has_failed_sync self.new ≡ has_failed_sync self.old }
        ensures bytes { IsTrue (H.keeps_model (file_of self.old))
            → OnOk result (out.new ≡ (disk_of_file (H.bytes (file_of self.old))).content k) }
        ensures disk { IsTrue (H.keeps_model (file_of self.old)) → disk_of_file (H.bytes (file_of self.new)) ≡ disk_of_file (H.bytes (file_of self.old)) }
        ensures goes_on { GoesOn ⟦<SectorFile<H> as SectorDevice>⟧ self.old self.new result }
        ensures counts { let n = ⟦<SectorFile<H> as SectorDevice>⟧.counts in n self.new ≡ with_read (n self.old) }
    {
        self.counts.count_read();
        let outcome = read_sector(&mut self.file, k, out);
        count_failure(&mut self.failures, outcome)
    }

    fn write(&mut self, k: u32, bytes: &[u8; 512]) -> Result<(), DeviceFault>
        requires { k < sectors_of self.old }
        ensures sync { has_failed_sync self.new ≡ has_failed_sync self.old }
        ensures ok { IsTrue (H.keeps_model (file_of self.old))
            → OnOk result (disk_of_file (H.bytes (file_of self.new)) ≡ written (disk_of_file (H.bytes (file_of self.old))) k bytes.now) }
        ensures err { IsTrue (H.keeps_model (file_of self.old))
            → OnErr result (MayWrite k (disk_of_file (H.bytes (file_of self.old))) (disk_of_file (H.bytes (file_of self.new)))) }
        ensures goes_on { GoesOn ⟦<SectorFile<H> as SectorDevice>⟧ self.old self.new result }
        ensures counts { let n = ⟦<SectorFile<H> as SectorDevice>⟧.counts in n self.new ≡ with_write (n self.old) }
    {
        self.counts.count_write();
        let outcome = write_sector(&mut self.file, k, bytes);
        count_failure(&mut self.failures, outcome)
    }

    // After a sync that failed the system may have given up the bytes, and would answer the next one with success.
    // So each later one fails too.
    fn sync(&mut self) -> Result<(), DeviceFault>
        ensures fails { has_failed_sync self.old ≡ true → IsErr result }
        ensures sync { IsErr result ↔ (has_failed_sync self.new ≡ true) }
        ensures ok { IsTrue (H.keeps_model (file_of self.old))
            → OnOk result (disk_of_file (H.bytes (file_of self.new)) ≡ settled (disk_of_file (H.bytes (file_of self.old)))) }
        ensures err { IsTrue (H.keeps_model (file_of self.old))
            → OnErr result (SettlesNothing (disk_of_file (H.bytes (file_of self.old))) (disk_of_file (H.bytes (file_of self.new)))) }
        ensures goes_on { GoesOn ⟦<SectorFile<H> as SectorDevice>⟧ self.old self.new result }
        ensures counts { let n = ⟦<SectorFile<H> as SectorDevice>⟧.counts in n self.new ≡ with_sync (n self.old) }
    {
        self.counts.count_sync();
        if self.sync_failed {
            return count_failure(&mut self.failures, Err(DeviceFault));
        }
        match self.file.sync() {
            Ok(()) => Ok(()),
            Err(fault) => {
                self.sync_failed = true;
                count_failure(&mut self.failures, Err(fault))
            }
        }
    }
}

fn read_sector<H: HostFile>(file: &mut H, k: u32, out: &mut [u8; 512]) -> Result<(), DeviceFault>
    ensures bytes { IsTrue (H.keeps_model file.old) → OnOk result (out.new ≡ (disk_of_file (H.bytes file.old)).content k) }
    ensures disk { H.bytes file.new ≡ H.bytes file.old }
    ensures goes { Goes H.HostFile file.old file.new }
{
    read_whole(file, SECTOR * k as u64, out)
}

fn write_sector<H: HostFile>(file: &mut H, k: u32, bytes: &[u8; 512]) -> Result<(), DeviceFault>
    ensures ok { IsTrue (H.keeps_model file.old)
        → OnOk result (disk_of_file (H.bytes file.new) ≡ written (disk_of_file (H.bytes file.old)) k bytes.now) }
    ensures err { OnErr result (MayWrite k (disk_of_file (H.bytes file.old)) (disk_of_file (H.bytes file.new))) }
    ensures goes { Goes H.HostFile file.old file.new }
{
    write_whole(file, SECTOR * k as u64, bytes)
}
