// A file in memory whose sectors lie in pages, which gives as little as a system may.
ghost use Rattle.std.specs.Prelude.{◌≡◌, ◌≢◌, ◌+◌, ◌*◌, ◌/◌, ℕ, ◌<◌, ◌≤◌, Bool, true, false, IsTrue, IfOk, OnOk, OnErr, length, slice_index, slice_index_or};
ghost use Rattle.sector_disk.specs.Disk.{Image, MayLeave};
ghost use Rattle.sector_disk.specs.FileBytes.{FileBytes, disk_of_file, settled_file, Spoils, Puts, Gives};
ghost use Rattle.test_devices.specs.MemoryFile.{IsAsSyncedElsewhere};
ghost use Rattle.test_devices.specs.PagedFile.{bytes_in_pages};

use crate::Script;
use crate::memory_file::{copied, count};
use sector_disk::{HostFault, HostFile, NoMemory};
use std::alloc::Global;

/// How many sectors a page has.
const PAGE: usize = 8;

/// A file in memory, whose units are pages of eight sectors. A write touches each sector of its page: until a sync, a
/// stop may leave any bytes in them. Else it does as little as a `MemoryFile` does.
///
/// So it keeps the model of a file, and not by sectors.
/// Rule: IMAGE, The file.
#[derive(Drop)]
pub struct PagedFile {
    content: Vec<u8>,
    synced: Vec<u8>,
    // by pages
    unsynced: Vec<bool>,
    script: Script,
    settles: bool,
    ghost marks: { length content.items ≤ 4096 * length unsynced.items },
    ghost long: { length synced.items ≡ length content.items },
    ghost same: { IsAsSyncedElsewhere (bytes_in_pages content.items synced.items unsynced.items) },
}

impl PagedFile {
    /// A file of zeros with this number of sectors of 512 bytes, all of them synced, whose calls answer by this script.
    /// `NoMemory` where there is none for it.
    pub fn new(alloc: Global, sectors: u32, script: Script) -> Result<PagedFile, NoMemory>
        ensures settle { IfOk result (λ f. IsTrue (⟦<PagedFile as HostFile>⟧.syncs_settle f)) }
        ensures model { IfOk result (λ f. IsTrue (⟦<PagedFile as HostFile>⟧.keeps_model f)) }
        ensures unit { IfOk result (λ f. (k : ℕ) → (⟦<PagedFile as HostFile>⟧.bytes f).unit k ≡ k / 8) }
        ensures synced { IfOk result (λ f. (k : ℕ) → (⟦<PagedFile as HostFile>⟧.bytes f).unsynced k ≡ false) }
        ensures zeros { IfOk result (λ f. (p : ℕ) → (⟦<PagedFile as HostFile>⟧.bytes f).content p ≡ 0) }
    {
        let len = 512 * sectors as usize;
        let content = vec![in alloc; 0; len].map_err(|_| NoMemory)?;
        let synced = vec![in alloc; 0; len].map_err(|_| NoMemory)?;
        let unsynced = vec![in alloc; false; (sectors as usize).div_ceil(PAGE)].map_err(
            |_| NoMemory,
        )?;
        Ok(PagedFile {
            content,
            synced,
            unsynced,
            script,
            settles: true,
        })
    }

    // Writes the first bytes, and says how many.
    fn put(&mut self, position: u64, buffer: &[u8]) -> usize
        ensures count { result ≤ length buffer.now }
        ensures puts { Puts position buffer.now result
            (bytes_in_pages self.old.content.items self.old.synced.items self.old.unsynced.items)
            (bytes_in_pages self.new.content.items self.new.synced.items self.new.unsynced.items) }
        ensures spoils { Spoils position (length buffer.now)
            (bytes_in_pages self.old.content.items self.old.synced.items self.old.unsynced.items)
            (bytes_in_pages self.new.content.items self.new.synced.items self.new.unsynced.items) }
        ensures settle { self.new.settles ≡ self.old.settles }
    {
        let n = count(self.content.len(), position, self.script.most, buffer.len());
        if n > 0 {
            let at = position as usize;
            mark(&mut self.unsynced, at / 512 / PAGE);
            place(&mut self.content, at, buffer, n);
        }
        n
    }
}

// Marks a page.
fn mark(unsynced: &mut Vec<bool>, page: usize)
    requires { page < length unsynced.old.items }
    ensures length { length unsynced.new.items ≡ length unsynced.old.items }
    ensures marked { slice_index_or unsynced.new.items page false ≡ true }
    ensures others { (k : ℕ) → k ≢ page
        → slice_index_or unsynced.new.items k false ≡ slice_index_or unsynced.old.items k false }
{
    unsynced[page] = true;
}

// Puts the first `n` bytes at this place.
fn place(content: &mut Vec<u8>, at: usize, bytes: &[u8], n: usize)
    requires within { at + n ≤ length content.old.items }
    requires room { n ≤ length bytes.now }
    ensures length { length content.new.items ≡ length content.old.items }
    ensures put { (i : ℕ) → i < n → slice_index content.new.items (at + i) ≡ slice_index bytes.now i }
    ensures before { (p : ℕ) → p < at → slice_index content.new.items p ≡ slice_index content.old.items p }
    ensures after { (p : ℕ) → at + n ≤ p → slice_index content.new.items p ≡ slice_index content.old.items p }
{
    content[at..at + n].copy_from_slice(&bytes[..n]);
}

impl HostFile for PagedFile {
    ghost use Rattle.test_devices.specs.FileLaws.{as_synced};
    ghost use Rattle.sector_disk.specs.Pages.{IsPaged};

    ghost keeps_model = { λ f. true };

    ghost keeps_sectors = { λ f. false };

    ghost bytes = { λ f. bytes_in_pages f.content.items f.synced.items f.unsynced.items };

    ghost extent = { λ f. length f.content.items };

    ghost syncs_settle = { λ f. f.settles };

    ghost time = { λ f. 0 };

    ghost left_since = { λ f t c. MayLeave (disk_of_file (bytes_in_pages f.content.items f.synced.items f.unsynced.items)) c };

    ghost present = { λ f keeps. as_synced (bytes_in_pages f.content.items f.synced.items f.unsynced.items) f.same };

    ghost keeps_both = { λ f keeps. Prim.cc };

    ghost by_pages = { λ f keeps j k same. same };

    ghost by_sectors = { λ f k keeps. Prim.cc };

    ghost counts_now = { λ f t c le now. now };

    ghost only_now = { λ f c now. now };

    ghost widens = { λ f s t c le since. since };

    fn len(&self) -> u64 {
        self.content.len() as u64
    }

    fn read_at(&mut self, position: u64, buffer: &mut [u8]) -> Result<usize, HostFault> {
        self.script.next()?;
        Ok(copied(&self.content, position, self.script.most, buffer))
    }

    fn write_at(&mut self, position: u64, buffer: &[u8]) -> Result<usize, HostFault> {
        match self.script.next() {
            Err(HostFault::Interrupted) => Err(HostFault::Interrupted),
            Err(HostFault::Failed) => {
                let _ = self.put(position, buffer);
                Err(HostFault::Failed)
            }
            Ok(()) => Ok(self.put(position, buffer)),
        }
    }

    fn sync(&mut self) -> Result<(), HostFault> {
        match self.script.next() {
            Err(fault) => {
                self.settles = false;
                self.content.copy_from_slice(&self.synced);
                Err(fault)
            }
            Ok(()) => {
                if self.settles {
                    self.synced.copy_from_slice(&self.content);
                    self.unsynced.fill(false);
                }
                Ok(())
            }
        }
    }
}
