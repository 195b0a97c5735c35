//! A host that keeps what is assumed of a host.
//! Rule: EMBEDDING, What is proved.
ghost use Rattle.std.specs.Prelude.{◌≡◌, ℕ, ◌<◌, ◌^◌, ◌∷◌, IfSome, IsTrue};
ghost use Rattle.std.specs.Int.{to_le_bytes, w32};
ghost use Rattle.sector_disk.specs.Disk.{MayLeave};
ghost use Rattle.sector_disk.specs.MemoryDisk.{held, size};

use crate::host::Host;
use sector_disk::{MemoryDisk, SectorDevice};

/// A host in memory. It is an example: all that is assumed of a host is proved of it, so it can be kept.
#[derive(Drop)]
pub struct MemoryHost {
    disk: MemoryDisk,
    asked: [u8; 8],
}

impl MemoryHost {
    /// A host that holds this disk, and was asked for nothing yet.
    pub fn new(disk: MemoryDisk) -> MemoryHost
        ensures model { IsTrue (⟦<MemoryHost as Host>⟧.keeps_model result) }
        ensures units { IsTrue (⟦<MemoryHost as Host>⟧.keeps_sectors result) }
        ensures disk { ⟦<MemoryHost as Host>⟧.disk result ≡ held disk }
    {
        MemoryHost {
            disk,
            asked: [0; 8],
        }
    }

    // The sector of the request that was taken last, where it has this letter and the disk has the sector.
    fn sector_asked(&self, letter: u8) -> Option<u32>
        ensures within { IfSome result (λ k. k < size self.now.disk) }
        ensures asked { IfSome result (λ found. (k : ℕ) → k < 2 ^ 32
            → self.now.asked ≡ letter ∷ 0 ∷ 0 ∷ 0 ∷ to_le_bytes w32 k → found ≡ k) }
    {
        let [first, _, _, _, a, b, c, d] = self.asked;
        let k = u32::from_le_bytes([a, b, c, d]);
        if first == letter && k < self.disk.sectors() {
            Some(k)
        } else {
            None
        }
    }
}

impl Host for MemoryHost {
    ghost use Rattle.std.specs.Prelude.{true};
    ghost use Rattle.sector_disk.specs.Laws.{present_of};
    ghost use Rattle.sector_disk.specs.Pages.{IsPaged, paged_by_sectors};

    ghost keeps_model = { λ h. true };

    ghost keeps_sectors = { λ h. true };

    ghost disk = { λ h. held h.disk };

    ghost asked = { λ h. h.asked };

    // It knows the present alone.
    ghost time = { λ h. 0 };

    ghost left_since = { λ h t c. MayLeave (held h.disk) c };

    ghost present = { λ h keeps. present_of h.disk };

    ghost keeps_both = { λ h keeps. keeps };

    ghost by_pages = { λ h keeps. paged_by_sectors (held h.disk) (λ k. Prim.cc) };

    ghost by_sectors = { λ h k keeps. Prim.cc };

    ghost counts_now = { λ h t c le now. now };

    ghost only_now = { λ h c now. now };

    ghost widens = { λ h s t c le since. since };

    fn ask(&mut self, request: &[u8; 8]) -> bool {
        self.asked = *request;
        if request[0] != b's' {
            return true;
        }
        self.disk.sync().is_ok()
    }

    fn take(&mut self, out: &mut [u8; 512]) -> bool {
        match self.sector_asked(b'r') {
            Some(k) => self.disk.read(k, out).is_ok(),
            None => false,
        }
    }

    fn give(&mut self, bytes: &[u8; 512]) -> bool {
        match self.sector_asked(b'w') {
            Some(k) => self.disk.write(k, bytes).is_ok(),
            None => false,
        }
    }
}
