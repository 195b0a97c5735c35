// The files of this system, opened for reading alone.
ghost use Rattle.std.specs.Prelude.{◌≡◌, ◌≢◌, false, IsTrue, IfErr};

use crate::still_disk::copied;
use crate::whole_copies::{FileReadings, read_whole_file};
use sector_disk::{FileFault, HostFault, HostFile, HostFiles};
use std::fs::{File, Files, Metadata, OpenOptions, TryLockError};
use std::io::ErrorKind;
use std::os::unix::fs::{FileExt, MetadataExt};
use std::{fs, io};

/// The names of this program's standard streams.
const STREAMS: [&str; 3] = ["/dev/stdin", "/dev/stdout", "/dev/stderr"];

/// A file that is only read. Its `write_at` and `sync` fail without a call of the system.
#[derive(Drop)]
pub enum ReadOnlyFile {
    /// A file of this system. It is safe whatever the file holds; that it keeps the model of a file is assumed, not
    /// proved.
    Live {
        /// The file, locked as long as it is open.
        file: File,
        /// How many bytes it had when it was opened.
        len: u64,
    },
    /// The bytes that were read of one. They keep the model of a file: nobody writes them.
    Still(Vec<u8>),
}

fn fault_of(error: io::Error) -> HostFault {
    match error.kind() {
        ErrorKind::Interrupted => HostFault::Interrupted,
        _ => HostFault::Failed,
    }
}

impl HostFile for ReadOnlyFile {
    ghost use Rattle.std.specs.Prelude.{true, length, refl};
    ghost use Rattle.sector_disk.specs.Disk.{MayLeave};
    ghost use Rattle.sector_disk.specs.FileBytes.{disk_of_file};
    ghost use Rattle.sector_disk.specs.Pages.{paged_by_sectors};
    ghost use Rattle.image_care.specs.Seen.{bytes_of, is_still, items_of};

    ghost keeps_model = { λ f. is_still f };

    ghost keeps_sectors = { λ f. is_still f };

    ghost bytes = { λ f. bytes_of f };

    ghost extent = { λ f. length (items_of f) };

    ghost syncs_settle = { λ f. true };

    ghost time = { λ f. 0 };

    ghost left_since = { λ f t c. MayLeave (disk_of_file (bytes_of f)) c };

    ghost present = { λ f keeps k synced. refl };

    ghost keeps_both = { λ f keeps. keeps };

    ghost by_pages = { λ f keeps. paged_by_sectors (disk_of_file (bytes_of f)) (λ k. refl) };

    ghost by_sectors = { λ f k keeps. refl };

    ghost counts_now = { λ f t c le now. now };

    ghost only_now = { λ f c now. now };

    ghost widens = { λ f s t c le since. since };

    // One place off, length and reads of a file of this system would meet their clauses all the same: what `check`
    // prints of files sees it, on the pages of `test_transcripts`.
    fn len(&self) -> u64 {
        match self {
            ReadOnlyFile::Live { len, .. } => *len,
            ReadOnlyFile::Still(bytes) => bytes.len() as u64,
        }
    }

    fn read_at(&mut self, position: u64, buffer: &mut [u8]) -> Result<usize, HostFault> {
        match self {
            ReadOnlyFile::Live { file, .. } => file.read_at(buffer, position).map_err(fault_of),
            ReadOnlyFile::Still(bytes) => Ok(copied(bytes, position, buffer)),
        }
    }

    fn write_at(&mut self, _position: u64, _buffer: &[u8]) -> Result<usize, HostFault> {
        Err(HostFault::Failed)
    }

    fn sync(&mut self) -> Result<(), HostFault> {
        Err(HostFault::Failed)
    }
}

/// The files of this system, to be read alone. Each is locked as long as it is open, beside others that only read it,
/// but for one of which a copy is given: programs that ask for the lock and would write are kept out. None is made.
/// Rule: MANUAL, All commands; DECISIONS, Lines and the program.
#[derive(Drop)]
pub struct ReadingFiles<'a, R> {
    rt: &'a R,
    takes_copies: bool,
}

impl<'a, R: Files<File = File>> ReadingFiles<'a, R> {
    /// The files that this runtime reaches. One that another program has open for writing is in use.
    pub fn new(rt: &'a R) -> ReadingFiles<'a, R>
        ensures { result.takes_copies ≡ false }
    {
        ReadingFiles {
            rt,
            takes_copies: false,
        }
    }

    /// Those too, but of an image of layout 3 that another program has open for writing a copy in memory is given: the
    /// blocks of the last save that had returned before, or of a later one. That program waits for nothing. Where 64
    /// readings gave no whole image it is in use; where there is no memory for the copy it can't be opened.
    /// Rule: IMAGE, Layout 3, A look while it runs.
    pub fn with_copies(rt: &'a R) -> ReadingFiles<'a, R>
        ensures { IsTrue result.takes_copies }
    {
        ReadingFiles {
            rt,
            takes_copies: true,
        }
    }
}

impl<R: Files<File = File> + AllocGlobal> HostFiles<ReadOnlyFile> for ReadingFiles<'_, R> {
    ghost use Rattle.image_care.specs.Seen.{IsGiven};

    ghost opens = { λ files path file. IsGiven files.takes_copies file };

    ghost makes = { λ files path file. Unit {0} };

    ghost named = { λ files path file. Unit {0} };

    // What is no file isn't opened: a folder can be, and a pipe would wait for its other end.
    fn open(&self, path: &str) -> Result<ReadOnlyFile, FileFault> {
        let named = fs::metadata(self.rt, path).map_err(|_| FileFault::Cannot)?;
        if !named.is_file() {
            return Err(FileFault::Cannot);
        }
        let file = OpenOptions::new()
            .read(true)
            .open(self.rt, path)
            .map_err(|_| FileFault::Cannot)?;
        match lock(&file) {
            Ok(()) => {
                let len = length_of(self.rt, &file)?;
                Ok(ReadOnlyFile::Live { file, len })
            }
            Err(FileFault::InUse) if self.takes_copies => {
                let len = length_of(self.rt, &file)?;
                let bytes = read_whole_file(
                    self.rt.alloc(),
                    &mut FileReadings { file: &file },
                    len,
                )?;
                Ok(ReadOnlyFile::Still(bytes))
            }
            Err(fault) => Err(fault),
        }
    }

    fn make(&self, _path: &str) -> Result<ReadOnlyFile, FileFault> {
        Err(FileFault::Cannot)
    }

    fn keep_name(&self, _path: &str, _file: &ReadOnlyFile) -> Result<(), FileFault> {
        Err(FileFault::Cannot)
    }

    fn drop_made(&self, _path: &str, _file: &ReadOnlyFile) {}
}

// How many bytes a file has. One of this program's standard streams is in use.
fn length_of(rt: &impl Files, file: &File) -> Result<u64, FileFault>
    ensures { IfErr result (λ fault. fault ≢ FileFault.Exists) }
{
    let of = file.metadata().map_err(|_| FileFault::Cannot)?;
    if is_a_stream(rt, &of) {
        return Err(FileFault::InUse);
    }
    Ok(of.len())
}

// Locks a file until it is closed, beside others that only read it.
fn lock(file: &File) -> Result<(), FileFault>
    ensures { IfErr result (λ fault. fault ≢ FileFault.Exists) }
{
    match file.try_lock_shared() {
        Ok(()) => Ok(()),
        Err(TryLockError::WouldBlock) => Err(FileFault::InUse),
        Err(TryLockError::Error(_)) => Err(FileFault::Cannot),
    }
}

// Whether a file is what one of the standard streams reads or writes, by its device and number.
fn is_a_stream(rt: &impl Files, of: &Metadata) -> bool {
    of.is_file()
        && STREAMS.iter().any(|name| match fs::metadata(rt, *name) {
            Ok(stream) => stream.dev() == of.dev() && stream.ino() == of.ino(),
            Err(_) => false,
        })
}
