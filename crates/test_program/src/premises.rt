//! Laws: the premises on files that are opened again are met.
ghost use Rattle.std.specs.Prelude.{◌≡◌, ℕ};
ghost use Rattle.sector_disk.specs.Opening.{sectors_in};
ghost use Rattle.sector_disk.specs.SectorFile.{file_of, sectors_of};
ghost use Rattle.terminal.specs.Again.{GivesAgain};
ghost use Rattle.terminal.specs.Files.{IsOpened};
ghost use Rattle.test_devices.specs.MemoryFiles.{IsReopened, file_in};

use sector_disk::{HostFile, SectorDevice, SectorFile};
use test_devices::{MemoryFile, MemoryFiles};

/// Does nothing. Its contract is a law: there is a system that gives files again. One in memory, made of the file that
/// was left, gives it as a device of as many sectors as it had, where those are all of the file's.
pub fn files_in_memory(files: &MemoryFiles, left: &SectorFile<MemoryFile>)
    ensures { file_in files.now ≡ file_of left.now
        → sectors_of left.now ≡ sectors_in (⟦<MemoryFile as HostFile>⟧.extent (file_of left.now))
        → (since : ℕ) → GivesAgain ⟦<SectorFile<MemoryFile> as SectorDevice>⟧
        (IsOpened ⟦<MemoryFile as HostFile>⟧ (IsReopened ⟦<MemoryFile as HostFile>⟧ (file_in files.now))) since left.now }
{}
