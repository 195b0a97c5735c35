//! A disk in memory as a file of which some sectors can't be read.
ghost use Rattle.std.specs.Prelude.{IsTrue};

use sector_disk::{HostFault, HostFile, MemoryDisk, SectorDevice};

/// No sector, among those that can't be read.
pub(crate) const NONE: u32 = u32::MAX;

/// A file of which each read of some sectors fails, and each write and each sync. Nothing is known of what it holds.
#[derive(Drop)]
pub(crate) struct Scarred {
    disk: MemoryDisk,
    scars: [u32; 3],
}

impl Scarred {
    /// The file with the sectors of a disk, of which these can't be read.
    pub(crate) fn new(disk: MemoryDisk, scars: [u32; 3]) -> Scarred
        ensures { IsTrue (⟦<Scarred as HostFile>⟧.syncs_settle result) }
    {
        Scarred { disk, scars }
    }
}

impl HostFile for Scarred {
    ghost use Rattle.std.specs.Prelude.{false, true};

    ghost keeps_model = { λ f. false };

    ghost keeps_sectors = { λ f. false };

    ghost bytes = { λ f. record { content = λ _. 0; synced = λ _. 0; unsynced = λ _. true; unit = λ k. k } };

    ghost extent = { λ f. 0 };

    ghost syncs_settle = { λ f. true };

    ghost time = { λ f. 0 };

    ghost left_since = { λ f t c. Unit {0} };

    ghost present = { λ f keeps k synced. Prim.cc };

    ghost keeps_both = { λ f keeps. keeps };

    ghost by_pages = { λ f keeps. Prim.cc };

    ghost by_sectors = { λ f k keeps. Prim.cc };

    ghost counts_now = { λ f t c le now. tt };

    ghost only_now = { λ f c since k synced. Prim.cc };

    ghost widens = { λ f s t c le since. since };

    fn len(&self) -> u64 {
        512 * self.disk.sectors() as u64
    }

    fn read_at(&mut self, position: u64, buffer: &mut [u8]) -> Result<usize, HostFault> {
        let k = u32::try_from(position / 512).unwrap_or(NONE);
        if k >= self.disk.sectors() || buffer.len() != 512 {
            return Err(HostFault::Failed);
        }
        if self.scars.iter().any(|scar| *scar == k) {
            return Err(HostFault::Failed);
        }
        let mut sector = [0; 512];
        match self.disk.read(k, &mut sector) {
            Ok(()) => {
                buffer.copy_from_slice(&sector);
                Ok(512)
            }
            Err(_) => Err(HostFault::Failed),
        }
    }

    fn write_at(&mut self, _position: u64, _buffer: &[u8]) -> Result<usize, HostFault> {
        Err(HostFault::Failed)
    }

    fn sync(&mut self) -> Result<(), HostFault> {
        Err(HostFault::Failed)
    }
}
