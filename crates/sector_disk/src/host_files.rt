// The files of a system, opened and made as devices.
ghost use Rattle.std.specs.Prelude.{◌≡◌, ◌≢◌, ◌⊎◌, ℕ, ◌<◌, ◌*◌, ◌^◌, List, false, IsTrue, IfOk, IfErr, IfSome, MatchOption, OnOk};
ghost use Rattle.sector_disk.specs.Moments.{Elapses};
ghost use Rattle.sector_disk.specs.Opening.{AreZeros, KeepsGoing, WentOn, sectors_in};
ghost use Rattle.sector_disk.specs.SectorFile.{file_of, has_failed_sync, sectors_of};

use crate::sector_file::SECTOR;
use crate::whole::write_whole;
use crate::{DeviceFault, HostFile, SectorDevice, SectorFile};

/// How many zeros a call writes into a new file, at most.
const PIECE: usize = 65_536;

/// Why a file isn't opened or made.
#[derive(Clone, Copy, Debug, PartialEq, Eq)]
pub enum FileFault {
    /// Something has the name of the file that was to be made.
    Exists = 1,
    /// The system refused.
    Cannot = 2,
    /// Another program has it locked, this one has by another opening, or it is one of this program's standard streams.
    InUse = 3,
}

/// The files of a system by their names. Those of `StdFiles` are for reading and writing, each the program's alone
/// until it is closed. Those of `ReadingFiles` in `image_care` are for reading: others may read one too, and of one
/// that another program writes a copy may be given. That a file is the one of its name, that one that was made is new,
/// and that no other program writes it no clause here says: it is assumed.
/// Rule: IMAGE, The file; DECISIONS, The device and the image.
pub trait HostFiles<H: HostFile> {
    /// What `open` gives under a name.
    ghost opens: { Self → List ℕ → H → Type 0 };

    /// What `make` gives under a name.
    ghost makes: { Self → List ℕ → H → Type 0 };

    /// What `keep_name` has given a name, and as it was then.
    ghost named: { Self → List ℕ → H → Type 0 };

    /// Opens a file that is there. `InUse` where it isn't given since another has it, or since it is one of this
    /// program's standard streams, and `Cannot` where the system refuses.
    fn open(&self, path: &str) -> Result<H, FileFault>
        ensures refusal { IfErr result (λ fault. fault ≢ FileFault.Exists) }
        ensures settle { IfOk result (λ file. IsTrue (H.syncs_settle file)) }
        ensures opens { IfOk result (λ file. opens self.now path.now file) };

    /// Makes a file, without bytes, for reading and writing, which is to have this name: until `keep_name` has given it
    /// the name it has another one. `Exists` where something has the name already, `InUse` where another program is
    /// making a file of this name, and `Cannot` where the system refuses. Nothing has the name afterwards that hadn't.
    fn make(&self, path: &str) -> Result<H, FileFault>
        ensures settle { IfOk result (λ file. IsTrue (H.syncs_settle file)) }
        ensures makes { IfOk result (λ file. makes self.now path.now file) };

    /// Gives a file that `make` made for this name its name, in one step, and asks that it stays. That it does once this
    /// answers Ok is assumed, and no clause says it. `Exists` where something else has got the name meanwhile, which
    /// stays as it is, and `Cannot` where the system refuses; the file may have its name then.
    fn keep_name(&self, path: &str, file: &H) -> Result<(), FileFault>
        ensures named { OnOk result (named self.now path.now file.now) };

    /// Lets go of a file that `make` made for this name, and that isn't to have it.
    fn drop_made(&self, path: &str, file: &H);
}

/// Opens a file that is there. One whose length isn't a multiple of 512 bytes, or is 2^32 sectors or more, has no
/// sectors. `Cannot` and `InUse` as the system says, and then it gave no file.
/// Rule: IMAGE, The file.
pub fn open_disk<H: HostFile, O: HostFiles<H>>(
    files: &O,
    path: &str,
) -> Result<SectorFile<H>, FileFault>
    ensures refusal { IfErr result (λ fault. fault ≢ FileFault.Exists) }
    ensures file { IfOk result (λ d. O.opens files.now path.now (file_of d)) }
    ensures sectors { IfOk result (λ d. IsTrue (H.keeps_model (file_of d))
        → sectors_of d ≡ sectors_in (H.extent (file_of d))) }
    ensures counts { IfOk result (λ d. ⟦<SectorFile<H> as SectorDevice>⟧.counts d
        ≡ record { reads = 0; writes = 0; syncs = 0 }) }
    ensures failures { IfOk result (λ d. ⟦<SectorFile<H> as SectorDevice>⟧.failures d ≡ 0) }
    ensures sync { IfOk result (λ d. has_failed_sync d ≡ false) }
{
    let file = files.open(path)?;
    let sectors = sectors_in(file.len());
    Ok(SectorFile::new(file, sectors))
}

/// Makes a file of this many sectors of zeros, which has its name once `keep_name` has given it. `Exists` where something
/// has that name, `InUse` where another program is making a file of it, and `Cannot` where it can't be made, filled or
/// synced. Its bytes are on the disk when it answers Ok, so there is room for each later write. A file that `make` gave
/// and that can't be finished is handed back with `Cannot`, as a device without sectors, to be let go of by `drop_made`.
/// Rule: IMAGE, The file; DECISIONS, The device and the image.
pub fn create_disk<H: HostFile, O: HostFiles<H>>(
    files: &O,
    path: &str,
    sectors: u32,
) -> Result<SectorFile<H>, (FileFault, Option<SectorFile<H>>)>
    ensures made { IfOk result (λ d. (file : H) × O.makes files.now path.now file
        × KeepsGoing H.HostFile file (file_of d)) }
    ensures zeros { IfOk result (λ d. IsTrue (H.keeps_model (file_of d)) → AreZeros sectors (H.bytes (file_of d))) }
    ensures sectors { IfOk result (λ d. sectors_of d ≡ sectors) }
    ensures counts { IfOk result (λ d. ⟦<SectorFile<H> as SectorDevice>⟧.counts d
        ≡ record { reads = 0; writes = 0; syncs = 0 }) }
    ensures failures { IfOk result (λ d. ⟦<SectorFile<H> as SectorDevice>⟧.failures d ≡ 0) }
    ensures sync { IfOk result (λ d. has_failed_sync d ≡ false) }
    // A file that was made and not finished is what the system made, later. It has no sectors, so it isn't written; and no call
    // of the device was counted yet, and none has failed.
    ensures unfinished { IfErr result (λ e. IfSome e.1 (λ d. (file : H) × O.makes files.now path.now file
        × WentOn H.HostFile file (file_of d))) }
    ensures empty { IfErr result (λ e. IfSome e.1 (λ d. sectors_of d ≡ 0)) }
    ensures uncounted { IfErr result (λ e. IfSome e.1 (λ d. ⟦<SectorFile<H> as SectorDevice>⟧.counts d
        ≡ record { reads = 0; writes = 0; syncs = 0 })) }
    ensures unfailed { IfErr result (λ e. IfSome e.1 (λ d. ⟦<SectorFile<H> as SectorDevice>⟧.failures d ≡ 0)) }
    ensures refused { IfErr result (λ e. IfSome e.1 (λ _. e.0 ≡ FileFault.Cannot)) }
{
    match files.make(path) {
        Ok(file) => finish(file, sectors),
        Err(fault) => Err((fault, None)),
    }
}

// Fills a file that was made with zeros, and makes them stay.
fn finish<H: HostFile>(
    mut file: H,
    sectors: u32,
) -> Result<SectorFile<H>, (FileFault, Option<SectorFile<H>>)>
    requires { IsTrue (H.syncs_settle file) }
    ensures goes { IfOk result (λ d. KeepsGoing H.HostFile file (file_of d)) }
    ensures zeros { IfOk result (λ d. IsTrue (H.keeps_model (file_of d)) → AreZeros sectors (H.bytes (file_of d))) }
    ensures sectors { IfOk result (λ d. sectors_of d ≡ sectors) }
    ensures counts { IfOk result (λ d. ⟦<SectorFile<H> as SectorDevice>⟧.counts d
        ≡ record { reads = 0; writes = 0; syncs = 0 }) }
    ensures failures { IfOk result (λ d. ⟦<SectorFile<H> as SectorDevice>⟧.failures d ≡ 0) }
    ensures sync { IfOk result (λ d. has_failed_sync d ≡ false) }
    // It is handed back where it wasn't finished.
    ensures unfinished { IfErr result (λ e. MatchOption e.1 ⊥ (λ d. WentOn H.HostFile file (file_of d))) }
    ensures empty { IfErr result (λ e. IfSome e.1 (λ d. sectors_of d ≡ 0)) }
    ensures uncounted { IfErr result (λ e. IfSome e.1 (λ d. ⟦<SectorFile<H> as SectorDevice>⟧.counts d
        ≡ record { reads = 0; writes = 0; syncs = 0 })) }
    ensures unfailed { IfErr result (λ e. IfSome e.1 (λ d. ⟦<SectorFile<H> as SectorDevice>⟧.failures d ≡ 0)) }
    ensures cannot { IfErr result (λ e. e.0 ≡ FileFault.Cannot) }
{
    match fill_and_sync(&mut file, sectors) {
        Ok(()) => Ok(SectorFile::new(file, sectors)),
        Err(_) => Err((FileFault::Cannot, Some(SectorFile::unfinished(file)))),
    }
}

// How many sectors a file of this length has.
fn sectors_in(len: u64) -> u32
    ensures { result ≡ sectors_in len }
{
    if len % SECTOR != 0 {
        return 0;
    }
    u32::try_from(len / SECTOR).unwrap_or(0)
}

// Fills a new file with zeros, and makes them stay.
fn fill_and_sync<H: HostFile>(file: &mut H, sectors: u32) -> Result<(), DeviceFault>
    ensures zeros { IsTrue (H.keeps_model file.old) → IsTrue (H.syncs_settle file.old)
        → OnOk result (AreZeros sectors (H.bytes file.new)) }
    ensures goes { OnOk result (KeepsGoing H.HostFile file.old file.new) }
    ensures went { WentOn H.HostFile file.old file.new }
{
    fill(file, SECTOR * sectors as u64)?;
    match file.sync() {
        Ok(()) => Ok(()),
        Err(_) => Err(DeviceFault),
    }
}

// Writes so many zeros from the beginning on.
fn fill<H: HostFile>(file: &mut H, len: u64) -> Result<(), DeviceFault>
    requires { len < 2 ^ 48 }
    ensures zeros { IsTrue (H.keeps_model file.old) → OnOk result ((p : ℕ) → p < len → (H.bytes file.new).content p ≡ 0) }
    ensures goes { KeepsGoing H.HostFile file.old file.new }
{
    let zeros = [0; PIECE];
    let mut at = 0;
    while at < len {
        let n = (len - at).min(PIECE as u64);
        let (piece, _) = zeros.split_at(n as usize);
        write_whole(file, at, piece)?;
        at += n;
    }
    Ok(())
}
