// A system of files in memory.
ghost use Rattle.std.specs.Prelude.{◌≡◌, ◌≢◌, IsTrue, IfOk, IfErr};
ghost use Rattle.test_devices.specs.MemoryFiles.{IsReopened, file_in};

use crate::{MemoryFile, Script};
use sector_disk::{FileFault, HostFile, HostFiles};
use std::alloc::Global;

/// A system of files in memory. Each name is that of one file: an opening gives it as it was when the system was made,
/// and so does a making, where the file is one of zeros.
///
/// Its files keep the model of a file, so what is said with that premise is said of it. Whether an opening goes well
/// depends on the memory alone.
/// Rule: IMAGE, The file.
#[derive(Drop)]
pub struct MemoryFiles {
    alloc: Global,
    file: MemoryFile,
    script: Script,
}

impl MemoryFiles {
    /// The system of this file. The calls of each file that is opened answer by this script.
    pub fn new(alloc: Global, file: MemoryFile, script: Script) -> MemoryFiles
        ensures { file_in result ≡ file }
    {
        MemoryFiles {
            alloc,
            file,
            script,
        }
    }

    fn opened(&self) -> Result<MemoryFile, FileFault>
        ensures refusal { IfErr result (λ fault. fault ≢ FileFault.Exists) }
        ensures settle { IfOk result (λ file. IsTrue (⟦<MemoryFile as HostFile>⟧.syncs_settle file)) }
        ensures opens { IfOk result (λ file. IsReopened ⟦<MemoryFile as HostFile>⟧ (file_in self.now) file) }
    {
        match self.file.reopened(self.alloc, self.script) {
            Ok(file) => Ok(file),
            Err(_) => Err(FileFault::Cannot),
        }
    }
}

impl HostFiles<MemoryFile> for MemoryFiles {
    ghost opens = { λ files path file. IsReopened ⟦<MemoryFile as HostFile>⟧ (file_in files) file };

    ghost makes = { λ files path file. IsReopened ⟦<MemoryFile as HostFile>⟧ (file_in files) file };

    ghost named = { λ files path file. IsTrue (⟦<MemoryFile as HostFile>⟧.keeps_model file) };

    fn open(&self, _path: &str) -> Result<MemoryFile, FileFault> {
        self.opened()
    }

    fn make(&self, _path: &str) -> Result<MemoryFile, FileFault> {
        self.opened()
    }

    fn keep_name(&self, _path: &str, _file: &MemoryFile) -> Result<(), FileFault> {
        Ok(())
    }

    fn drop_made(&self, _path: &str, _file: &MemoryFile) {}
}
