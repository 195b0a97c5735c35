// A file in memory that gives as little as a system may.
ghost use Rattle.std.specs.Prelude.{◌≡◌, ◌+◌, ◌*◌, ◌/◌, ℕ, ◌<◌, ◌≤◌, Bool, true, false, IsTrue, IfOk, OnOk, OnErr, length, slice_index};
ghost use Rattle.sector_disk.specs.Disk.{Image, MayLeave};
ghost use Rattle.sector_disk.specs.FileBytes.{FileBytes, disk_of_file, settled_file, Spoils, Puts, Gives};
ghost use Rattle.test_devices.specs.MemoryFile.{bytes_in, IsAsSyncedElsewhere};

use sector_disk::{HostFault, HostFile, NoMemory};
use std::alloc::Global;

/// A file in memory. It keeps the model of a file by sectors, and does no more than that promises: a call moves few
/// bytes, some are interrupted, one fails, a write that fails has written, and after a sync that failed the bytes since
/// the last good one are lost and later syncs succeed and do nothing.
/// Rule: IMAGE, The file; SEMANTICS, From the definitions to the code.
#[derive(Drop)]
pub struct MemoryFile {
    content: Vec<u8>,
    synced: Vec<u8>,
    unsynced: Vec<bool>,
    script: Script,
    settles: bool,
    ghost marks: { length content.items ≡ 512 * length unsynced.items },
    ghost long: { length synced.items ≡ length content.items },
    ghost same: { IsAsSyncedElsewhere (bytes_in content.items synced.items unsynced.items) },
}

/// What the calls of a file in memory answer.
#[derive(Clone, Copy, Debug, PartialEq, Eq)]
pub struct Script {
    /// How many bytes a call moves at most.
    pub most: usize,
    /// A call is interrupted where this divides its number, counted from 0: so the first one is. 0 is none.
    pub interrupted: u64,
    /// After so many calls, the next one fails.
    pub fails_after: u64,
    /// How many calls were made.
    pub calls: u64,
}

impl Script {
    // What the next call does before anything else.
    pub(crate) fn next(&mut self) -> Result<(), HostFault> {
        let calls = self.calls;
        self.calls = calls.saturating_add(1);
        if calls == self.fails_after {
            return Err(HostFault::Failed);
        }
        if self.interrupted != 0 && calls % self.interrupted == 0 {
            return Err(HostFault::Interrupted);
        }
        Ok(())
    }
}

impl MemoryFile {
    /// A file of zeros with this number of sectors of 512 bytes, all of them synced, whose calls answer by this script.
    /// `NoMemory` where there is none for it.
    pub fn new(alloc: Global, sectors: u32, script: Script) -> Result<MemoryFile, NoMemory>
        ensures settle { IfOk result (λ f. IsTrue (⟦<MemoryFile as HostFile>⟧.syncs_settle f)) }
        ensures model { IfOk result (λ f. IsTrue (⟦<MemoryFile as HostFile>⟧.keeps_model f)) }
        ensures units { IfOk result (λ f. IsTrue (⟦<MemoryFile as HostFile>⟧.keeps_sectors f)) }
        ensures synced { IfOk result (λ f. (k : ℕ) → (⟦<MemoryFile as HostFile>⟧.bytes f).unsynced k ≡ false) }
        ensures zeros { IfOk result (λ f. (p : ℕ) → (⟦<MemoryFile as HostFile>⟧.bytes f).content p ≡ 0) }
    {
        let len = 512 * sectors as usize;
        let content = vec![in alloc; 0; len].map_err(|_| NoMemory)?;
        let synced = vec![in alloc; 0; len].map_err(|_| NoMemory)?;
        let unsynced = vec![in alloc; false; sectors as usize].map_err(|_| NoMemory)?;
        Ok(MemoryFile {
            content,
            synced,
            unsynced,
            script,
            settles: true,
        })
    }

    /// A file with the bytes of this one, synced and unsynced, as an opening gives them: no sync of it has failed, and
    /// its calls answer by this script. `NoMemory` where there is none for it.
    pub fn reopened(&self, alloc: Global, script: Script) -> Result<MemoryFile, NoMemory>
        ensures bytes { IfOk result (λ f. ⟦<MemoryFile as HostFile>⟧.bytes f ≡ ⟦<MemoryFile as HostFile>⟧.bytes self.now) }
        ensures extent { IfOk result (λ f. ⟦<MemoryFile as HostFile>⟧.extent f ≡ ⟦<MemoryFile as HostFile>⟧.extent self.now) }
        ensures settle { IfOk result (λ f. IsTrue (⟦<MemoryFile as HostFile>⟧.syncs_settle f)) }
    {
        let content = Vec::from_slice(alloc, &self.content).map_err(|_| NoMemory)?;
        let synced = Vec::from_slice(alloc, &self.synced).map_err(|_| NoMemory)?;
        let unsynced = Vec::from_slice(alloc, &self.unsynced).map_err(|_| NoMemory)?;
        Ok(MemoryFile {
            content,
            synced,
            unsynced,
            script,
            settles: true,
        })
    }
}

impl HostFile for MemoryFile {
    ghost use Rattle.test_devices.specs.FileLaws.{as_synced};
    ghost use Rattle.sector_disk.specs.Pages.{IsPaged, paged_by_sectors};

    ghost keeps_model = { λ f. true };

    ghost keeps_sectors = { λ f. true };

    ghost bytes = { λ f. bytes_in f.content.items f.synced.items f.unsynced.items };

    ghost extent = { λ f. length f.content.items };

    ghost syncs_settle = { λ f. f.settles };

    ghost time = { λ f. 0 };

    ghost left_since = { λ f t c. MayLeave (disk_of_file (bytes_in f.content.items f.synced.items f.unsynced.items)) c };

    ghost present = { λ f keeps. as_synced (bytes_in f.content.items f.synced.items f.unsynced.items) f.same };

    ghost keeps_both = { λ f keeps. keeps };

    ghost by_pages = { λ f keeps. paged_by_sectors (disk_of_file (bytes_in f.content.items f.synced.items f.unsynced.items)) (λ k. Prim.cc) };

    ghost by_sectors = { λ f k keeps. Prim.cc };

    ghost counts_now = { λ f t c le now. now };

    ghost only_now = { λ f c now. now };

    ghost widens = { λ f s t c le since. since };

    fn len(&self) -> u64 {
        self.content.len() as u64
    }

    fn read_at(&mut self, position: u64, buffer: &mut [u8]) -> Result<usize, HostFault> {
        self.script.next()?;
        Ok(copied(&self.content, position, self.script.most, buffer))
    }

    fn write_at(&mut self, position: u64, buffer: &[u8]) -> Result<usize, HostFault> {
        match self.script.next() {
            Err(HostFault::Interrupted) => Err(HostFault::Interrupted),
            Err(HostFault::Failed) => {
                let _ = self.put(position, buffer);
                Err(HostFault::Failed)
            }
            Ok(()) => Ok(self.put(position, buffer)),
        }
    }

    fn sync(&mut self) -> Result<(), HostFault> {
        match self.script.next() {
            Err(fault) => {
                self.settles = false;
                self.content.copy_from_slice(&self.synced);
                Err(fault)
            }
            Ok(()) => {
                if self.settles {
                    self.synced.copy_from_slice(&self.content);
                    self.unsynced.fill(false);
                }
                Ok(())
            }
        }
    }
}

// How many bytes a call at this place moves.
pub(crate) fn count(len: usize, position: u64, most: usize, room: usize) -> usize
    ensures room { result ≤ room }
    ensures within { 0 < result → position + result ≤ len }
    ensures sector { 0 < result → position + result ≤ 512 * (position / 512) + 512 }
{
    if position >= len as u64 {
        return 0;
    }
    let at = position as usize;
    room.min(most).min(len - at).min(512 - at % 512)
}

pub(crate) fn copied(content: &[u8], position: u64, most: usize, buffer: &mut [u8]) -> usize
    ensures count { result ≤ length buffer.old }
    ensures long { length buffer.new ≡ length buffer.old }
    ensures gives { (i : ℕ) → i < result → slice_index buffer.new i ≡ slice_index content.now (position + i) }
{
    let n = count(content.len(), position, most, buffer.len());
    if n > 0 {
        let at = position as usize;
        buffer[..n].copy_from_slice(&content[at..at + n]);
    }
    n
}

impl MemoryFile {
    // Writes the first bytes, and says how many.
    fn put(&mut self, position: u64, buffer: &[u8]) -> usize
        ensures count { result ≤ length buffer.now }
        ensures puts { Puts position buffer.now result
            (bytes_in self.old.content.items self.old.synced.items self.old.unsynced.items)
            (bytes_in self.new.content.items self.new.synced.items self.new.unsynced.items) }
        ensures spoils { Spoils position (length buffer.now)
            (bytes_in self.old.content.items self.old.synced.items self.old.unsynced.items)
            (bytes_in self.new.content.items self.new.synced.items self.new.unsynced.items) }
        ensures settle { self.new.settles ≡ self.old.settles }
    {
        let n = count(self.content.len(), position, self.script.most, buffer.len());
        if n > 0 {
            let at = position as usize;
            self.content[at..at + n].copy_from_slice(&buffer[..n]);
            self.unsynced[at / 512] = true;
        }
        n
    }
}
