//! A device of the host's.
ghost use Rattle.std.specs.Prelude.{◌≡◌, ◌<◌, IsTrue, IsOk, IsErr};
ghost use Rattle.std.specs.Bool.{OnTrue, OnFalse};
ghost use Rattle.sector_disk.specs.Counting.{CountsFailure};
ghost use Rattle.sector_disk.specs.Disk.{MayLeaveEither, MayWrite, SettlesNothing, settled, written};
ghost use Rattle.sector_disk.specs.Moments.{Elapses, LeavesOnly};

use crate::host::{Host, Request};
use sector_disk::{Counts, DeviceFault, SectorDevice};

/// A device of sectors at whose other end a host is: a sector is asked for, and then its bytes are moved.
///
/// Over a host that keeps the disk model it keeps it too, and by sectors over one that keeps it so.
/// Rule: EMBEDDING, The protocol; EMBEDDING, What is proved.
#[derive(Drop)]
pub struct HostDisk<H: Host> {
    host: H,
    sectors: u32,
    failures: u64,
    counts: Counts,
}

impl<H: Host> HostDisk<H> {
    /// The host's device, which has that many sectors of 512 bytes.
    pub fn new(host: H, sectors: u32) -> HostDisk<H>
        ensures sectors { result.sectors ≡ sectors }
        ensures host { result.host ≡ host }
    {
        HostDisk {
            host,
            sectors,
            failures: 0,
            counts: Counts::default(),
        }
    }
}

impl<H: Host> SectorDevice for HostDisk<H> {
    ghost sector_count = { λ d. d.sectors };

    ghost keeps_model = { λ d. H.keeps_model d.host };

    ghost keeps_sectors = { λ d. H.keeps_sectors d.host };

    ghost disk = { λ d. H.disk d.host };

    ghost time = { λ d. H.time d.host };

    ghost left_since = { λ d t c. H.left_since d.host t c };

    ghost failures = { λ d. d.failures };

    ghost counts = { λ d. d.counts };

    ghost present = { λ d keeps. H.present d.host keeps };

    ghost keeps_both = { λ d keeps. H.keeps_both d.host keeps };

    ghost by_pages = { λ d keeps. H.by_pages d.host keeps };

    ghost by_sectors = { λ d k keeps. H.by_sectors d.host k keeps };

    ghost counts_now = { λ d t c le now. H.counts_now d.host t c le now };

    ghost only_now = { λ d c since. H.only_now d.host c since };

    ghost widens = { λ d s t c le since. H.widens d.host s t c le since };

    fn sectors(&self) -> u32 {
        self.sectors
    }

    fn read(&mut self, k: u32, out: &mut [u8; 512]) -> Result<(), DeviceFault> {
        self.counts.reads = self.counts.reads.saturating_add(1);
        let is_done = read_sector(&mut self.host, k, out);
        count(&mut self.failures, is_done)
    }

    fn write(&mut self, k: u32, bytes: &[u8; 512]) -> Result<(), DeviceFault> {
        self.counts.writes = self.counts.writes.saturating_add(1);
        let is_done = write_sector(&mut self.host, k, bytes);
        count(&mut self.failures, is_done)
    }

    fn sync(&mut self) -> Result<(), DeviceFault> {
        self.counts.syncs = self.counts.syncs.saturating_add(1);
        let is_done = self.host.ask(&Request::Sync.bytes());
        count(&mut self.failures, is_done)
    }
}

/// Reads a sector.
fn read_sector<H: Host>(host: &mut H, k: u32, out: &mut [u8; 512]) -> bool
    ensures bytes { IsTrue (H.keeps_model host.old) → OnTrue result (out.new ≡ (H.disk host.old).content k) }
    ensures disk { H.disk host.new ≡ H.disk host.old }
    ensures model { H.keeps_model host.new ≡ H.keeps_model host.old }
    ensures units { H.keeps_sectors host.new ≡ H.keeps_sectors host.old }
    ensures time { Elapses H.time H.left_since host.old host.new }
    ensures stops { LeavesOnly H.time H.left_since host.old host.new
        (MayLeaveEither (H.disk host.old) (H.disk host.new)) }
{
    host.ask(&Request::Read(k).bytes()) && host.take(out)
}

/// Writes a sector.
fn write_sector<H: Host>(host: &mut H, k: u32, bytes: &[u8; 512]) -> bool
    ensures done { IsTrue (H.keeps_model host.old)
        → OnTrue result (H.disk host.new ≡ written (H.disk host.old) k bytes.now) }
    ensures undone { IsTrue (H.keeps_model host.old)
        → OnFalse result (MayWrite k (H.disk host.old) (H.disk host.new)) }
    ensures model { H.keeps_model host.new ≡ H.keeps_model host.old }
    ensures units { H.keeps_sectors host.new ≡ H.keeps_sectors host.old }
    ensures time { Elapses H.time H.left_since host.old host.new }
    ensures stops { LeavesOnly H.time H.left_since host.old host.new
        (MayLeaveEither (H.disk host.old) (H.disk host.new)) }
{
    host.ask(&Request::Write(k).bytes()) && host.give(bytes)
}

/// Counts a failure where the call wasn't done.
fn count(failures: &mut u64, is_done: bool) -> Result<(), DeviceFault>
    ensures failures { CountsFailure failures.old failures.new result }
    ensures ok { OnTrue is_done (IsOk result) }
    ensures err { OnFalse is_done (IsErr result) }
{
    if is_done {
        Ok(())
    } else {
        *failures = failures.saturating_add(1);
        Err(DeviceFault)
    }
}
