// The files of this system.
ghost use Rattle.std.specs.Prelude.{◌≡◌, ◌≢◌, IfOk, IfErr, false};
ghost use Rattle.sector_disk.specs.SectorFile.{has_failed_sync};

use crate::{FileFault, HostFiles, SectorDevice, SectorFile, StdFile, create_disk, open_disk};
use std::alloc::Global;
use std::fs::{File, Files, Metadata, OpenOptions, Permissions, TryLockError};
use std::io::ErrorKind;
use std::os::unix::fs::{MetadataExt, OpenOptionsExt, PermissionsExt};
use std::path::Path;
use std::{fs, io};

/// A file of this system as a device. That such a file keeps the model of a file is assumed, not proved.
pub type FileDisk = SectorFile<StdFile>;

/// The names of this program's standard streams.
const STREAMS: [&str; 3] = ["/dev/stdin", "/dev/stdout", "/dev/stderr"];

/// The rights that a new file has, of which the system takes those away that the user doesn't give.
const ANY_RIGHTS: u32 = 0o666;

/// Those of a file that is to be as another one, whose rights can't be seen: to read and write it is its owner's.
const FEWEST_RIGHTS: u32 = 0o600;

/// The files of this system, for reading and writing. Each is locked as long as it is open, before anything of it is
/// read or written: only programs that ask for the lock are kept out.
/// Rule: IMAGE, The file; DECISIONS, The device and the image.
#[derive(Drop)]
pub struct StdFiles<'a, R> {
    rt: &'a R,
    like: Option<&'a str>,
}

impl<'a, R: Files<File = File>> StdFiles<'a, R> {
    /// The files that this runtime reaches.
    pub fn new(rt: &'a R) -> StdFiles<'a, R> {
        StdFiles { rt, like: None }
    }

    /// Those too, but each that is made has the rights of the file of this name, where one is given: who may read it,
    /// write it and run it. At no time has it more. Where the system doesn't let them be set it may have fewer, and
    /// where those of that file can't be seen it is its owner's alone, to read and write.
    /// Rule: DECISIONS, The device and the image.
    pub fn with_rights_of(rt: &'a R, like: Option<&'a str>) -> StdFiles<'a, R> {
        StdFiles { rt, like }
    }

    // The rights that a file which is made is to have, where it is to have those of another one.
    fn rights(&self) -> Option<u32> {
        match self.like {
            Some(path) => match fs::metadata(self.rt, path) {
                Ok(of) => Some(of.mode() & 0o777),
                Err(_) => Some(FEWEST_RIGHTS),
            },
            None => None,
        }
    }
}

impl<R: Files<File = File> + AllocGlobal> HostFiles<StdFile> for StdFiles<'_, R> {
    ghost opens = { λ files path file. Unit {0} };

    ghost makes = { λ files path file. Unit {0} };

    ghost named = { λ files path file. Unit {0} };

    fn open(&self, path: &str) -> Result<StdFile, FileFault> {
        let file = OpenOptions::new()
            .read(true)
            .write(true)
            .open(self.rt, path)
            .map_err(|_| FileFault::Cannot)?;
        lock(&file)?;
        let of = file.metadata().map_err(|_| FileFault::Cannot)?;
        if is_a_stream(self.rt, &of) {
            return Err(FileFault::InUse);
        }
        Ok(StdFile::new(file, of.len()))
    }

    // As long as the file is locked, another making of this name ends as in use.
    fn make(&self, path: &str) -> Result<StdFile, FileFault> {
        if fs::symlink_metadata(self.rt, path).is_ok() {
            return Err(FileFault::Exists);
        }
        let part = part_of(self.rt.alloc(), path)?;
        clear(self.rt, part.as_str())?;
        let rights = self.rights();
        let file = new_file(self.rt, part.as_str(), rights.unwrap_or(ANY_RIGHTS))?;
        // Those that the system took away when it made the file come back.
        if let Some(rights) = rights {
            let _ = file.set_permissions(Permissions::from_mode(rights));
        }
        lock(&file)?;
        if !is_named(self.rt, part.as_str(), &file) {
            return Err(FileFault::InUse);
        }
        Ok(StdFile::new(file, 0))
    }

    fn keep_name(&self, path: &str, file: &StdFile) -> Result<(), FileFault> {
        let part = part_of(self.rt.alloc(), path)?;
        if !is_named(self.rt, part.as_str(), file.file()) {
            return Err(FileFault::Cannot);
        }
        give_name(self.rt, part.as_str(), path)?;
        sync_folder(self.rt, path).map_err(|_| FileFault::Cannot)
    }

    fn drop_made(&self, path: &str, file: &StdFile) {
        if let Ok(part) = part_of(self.rt.alloc(), path)
            && is_named(self.rt, part.as_str(), file.file())
        {
            let _ = fs::remove_file(self.rt, part.as_str());
        }
    }
}

impl SectorFile<StdFile> {
    /// Opens a file of this system that is there. One whose length isn't a multiple of 512 bytes, or is 2^32 sectors or
    /// more, has no sectors. `InUse` where another program has it locked, this one has by another opening, or it is a
    /// standard stream of this one, and `Cannot` where it can't be opened for reading and writing, or its file system
    /// has no locks. Nothing of it is read then.
    /// Rule: IMAGE, The file; DECISIONS, The device and the image.
    pub fn open(
        rt: &(impl Files<File = File> + AllocGlobal),
        path: &str,
    ) -> Result<FileDisk, FileFault>
        ensures refusal { IfErr result (λ fault. fault ≢ FileFault.Exists) }
        ensures counts { IfOk result (λ d. ⟦<SectorFile<StdFile> as SectorDevice>⟧.counts d
            ≡ record { reads = 0; writes = 0; syncs = 0 }) }
        ensures failures { IfOk result (λ d. ⟦<SectorFile<StdFile> as SectorDevice>⟧.failures d ≡ 0) }
        ensures sync { IfOk result (λ d. has_failed_sync d ≡ false) }
    {
        open_disk(&StdFiles::new(rt), path)
    }

    /// Makes a file of this many sectors of zeros. `Exists` where something has that name, `InUse` where another
    /// program is making a file of it, and `Cannot` where it can't be made, locked, filled or synced, or its name can't
    /// be given or its folder synced. When it answers Ok file and folder were synced; that both are on the disk then is
    /// assumed. Until its bytes were synced nothing has the name.
    /// Rule: IMAGE, The file; DECISIONS, The device and the image.
    pub fn create(
        rt: &(impl Files<File = File> + AllocGlobal),
        path: &str,
        sectors: u32,
    ) -> Result<FileDisk, FileFault>
        ensures sectors { IfOk result (λ d. ⟦<SectorFile<StdFile> as SectorDevice>⟧.sector_count d ≡ sectors) }
        ensures counts { IfOk result (λ d. ⟦<SectorFile<StdFile> as SectorDevice>⟧.counts d
            ≡ record { reads = 0; writes = 0; syncs = 0 }) }
        ensures failures { IfOk result (λ d. ⟦<SectorFile<StdFile> as SectorDevice>⟧.failures d ≡ 0) }
        ensures sync { IfOk result (λ d. has_failed_sync d ≡ false) }
    {
        let files = StdFiles::new(rt);
        match create_disk(&files, path, sectors) {
            Ok(disk) => match kept(&files, path, &disk) {
                Ok(()) => Ok(disk),
                Err(fault) => Err(fault),
            },
            Err((fault, unfinished)) => {
                if let Some(disk) = unfinished {
                    files.drop_made(path, disk.file());
                }
                Err(fault)
            }
        }
    }
}

// Gives a file that was made its name, or lets go of it.
fn kept<R: Files<File = File> + AllocGlobal>(
    files: &StdFiles<'_, R>,
    path: &str,
    disk: &FileDisk,
) -> Result<(), FileFault> {
    match files.keep_name(path, disk.file()) {
        Ok(()) => Ok(()),
        Err(fault) => {
            files.drop_made(path, disk.file());
            Err(fault)
        }
    }
}

// The name that a file has as long as it is being made.
fn part_of(alloc: Global, path: &str) -> Result<String, FileFault> {
    format!(in alloc; "{path}.part").map_err(|_| FileFault::Cannot)
}

// Makes a file of a name that nothing has. Where something got it just now another program makes one too.
fn new_file(rt: &impl Files<File = File>, part: &str, rights: u32) -> Result<File, FileFault> {
    OpenOptions::new()
        .read(true)
        .write(true)
        .create_new(true)
        .mode(rights)
        .open(rt, part)
        .map_err(|error| match error.kind() {
            ErrorKind::AlreadyExists => FileFault::InUse,
            _ => FileFault::Cannot,
        })
}

// Removes what a making that was cut has left: a file that no program has locked. Of one that has another name too, as
// where its image has been given its own, this name alone goes. What is no file stays.
fn clear(rt: &impl Files<File = File>, part: &str) -> Result<(), FileFault> {
    let Ok(of) = fs::symlink_metadata(rt, part) else {
        return Ok(());
    };
    if !of.is_file() {
        return Err(FileFault::Cannot);
    }
    // (its lock holds until the name is gone)
    let _left = if of.nlink() == 1 {
        Some(left_of(rt, part)?)
    } else {
        None
    };
    fs::remove_file(rt, part).map_err(|_| FileFault::Cannot)
}

// What a making that was cut has left, locked.
fn left_of(rt: &impl Files<File = File>, part: &str) -> Result<File, FileFault> {
    let left = OpenOptions::new()
        .read(true)
        .write(true)
        .open(rt, part)
        .map_err(|_| FileFault::Cannot)?;
    lock(&left)?;
    if !is_named(rt, part, &left) {
        return Err(FileFault::InUse);
    }
    Ok(left)
}

// Whether a name is that of a file, by its device and number.
fn is_named(rt: &impl Files, path: &str, file: &File) -> bool {
    match (file.metadata(), fs::symlink_metadata(rt, path)) {
        (Ok(of), Ok(named)) => of.dev() == named.dev() && of.ino() == named.ino(),
        _ => false,
    }
}

// Gives a file a second name in one step, which nothing has, and takes the first one away. A file system without such
// names has it renamed: what gets the name at that very moment is replaced there.
fn give_name(rt: &impl Files, part: &str, path: &str) -> Result<(), FileFault> {
    match fs::hard_link(rt, part, path) {
        Ok(()) => {
            let _ = fs::remove_file(rt, part);
            Ok(())
        }
        Err(_) if fs::symlink_metadata(rt, path).is_ok() => Err(FileFault::Exists),
        Err(_) => fs::rename(rt, part, path).map_err(|_| FileFault::Cannot),
    }
}

// Locks a file until it is closed. The lock is the system's advice: only programs that ask for it are kept out.
fn lock(file: &File) -> Result<(), FileFault>
    ensures { IfErr result (λ fault. fault ≢ FileFault.Exists) }
{
    match file.try_lock() {
        Ok(()) => Ok(()),
        Err(TryLockError::WouldBlock) => Err(FileFault::InUse),
        Err(TryLockError::Error(_)) => Err(FileFault::Cannot),
    }
}

// Whether a file is what one of the standard streams reads or writes, by its device and number.
fn is_a_stream(rt: &impl Files, of: &Metadata) -> bool {
    of.is_file()
        && STREAMS.iter().any(|name| match fs::metadata(rt, *name) {
            Ok(stream) => stream.dev() == of.dev() && stream.ino() == of.ino(),
            Err(_) => false,
        })
}

// Syncs the folder of a file, so that its name is on the disk.
fn sync_folder(rt: &impl Files<File = File>, path: &str) -> io::Result<()> {
    File::open(rt, folder_of(path))?.sync_all()
}

// The folder that a path names a file in.
fn folder_of(path: &str) -> &str {
    match Path::new(path).parent() {
        Some(folder) if !folder.as_str().is_empty() => folder.as_str(),
        _ => ".",
    }
}
