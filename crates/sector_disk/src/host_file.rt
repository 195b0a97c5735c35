// A file of the system, by what its calls promise.
ghost use Rattle.std.specs.Prelude.{◌≡◌, ℕ, ◌<◌, ◌≤◌, Bool, true, IsTrue, IsOk, Err, IfOk, OnOk, OnErr, length};
ghost use Rattle.sector_disk.specs.Disk.{Image, MayLeave, MayLeaveEither};
ghost use Rattle.sector_disk.specs.FileBytes.{FileBytes, disk_of_file, settled_file, Spoils, Puts, Gives};
ghost use Rattle.sector_disk.specs.Moments.{Elapses, LeavesOnly};
ghost use Rattle.sector_disk.specs.Pages.{IsPaged};

use std::fs::File;
use std::io;
use std::io::ErrorKind;
use std::os::unix::fs::FileExt;

/// Why a call of a file gave nothing.
#[derive(Clone, Copy, Debug, PartialEq, Eq)]
pub enum HostFault {
    /// A signal came before anything was done.
    Interrupted = 1,
    /// The system refused.
    Failed = 2,
}

/// A file as a system gives it. A call may do a part of what it was asked for. Each call is one step, before, within or
/// after which the system may stop.
///
/// The clauses are what has to be assumed of a system's file. Those without the premise `keeps_model` each file meets:
/// `count`, by what the system's call promises, and `bytes`, `spoils` and `stops` where nothing is said of what it
/// holds. No file is asked for anything else.
/// Rule: IMAGE, The file.
pub trait HostFile {
    /// Whether it keeps the model of a file. A write touches the units in which it writes, and each lies in a page of
    /// eight sectors, of 4,096 bytes.
    ghost keeps_model: { Self → Bool };

    /// Whether it keeps the model of a file by sectors: a write touches those alone in which it writes.
    ghost keeps_sectors: { Self → Bool };

    /// What it holds.
    ghost bytes: { Self → FileBytes };

    /// How many bytes it had when it was opened.
    ghost extent: { Self → ℕ };

    /// Whether a sync that succeeds makes all stay. One that failed may end that.
    ghost syncs_settle: { Self → Bool };

    /// The present, as a number that never falls.
    ghost time: { Self → ℕ };

    /// What a stop at some moment from that time on might have left, by sectors of 512 bytes.
    ghost left_since: { Self → ℕ → Image → Type 0 };

    /// How many bytes it had when it was opened: who opens it asks the system.
    fn len(&self) -> u64
        ensures { IsTrue (keeps_model self.now) → result ≡ extent self.now };

    /// Reads the first bytes from place `position` on, counted in bytes from 0, and answers how many: at most as many
    /// as there is room for. After an error the file is as it was, and what is in the buffer isn't said. `Interrupted`
    /// where a signal came before anything was done.
    fn read_at(&mut self, position: u64, buffer: &mut [u8]) -> Result<usize, HostFault>
        ensures count { IfOk result (λ n. n ≤ length buffer.old) }
        ensures gives { IsTrue (keeps_model self.old) → IfOk result (λ n. Gives (bytes self.old) position buffer.new n) }
        ensures bytes { bytes self.new ≡ bytes self.old }
        ensures model { keeps_model self.new ≡ keeps_model self.old }
        ensures units { keeps_sectors self.new ≡ keeps_sectors self.old }
        ensures settle { syncs_settle self.new ≡ syncs_settle self.old }
        ensures time { Elapses time left_since self.old self.new }
        ensures stops { LeavesOnly time left_since self.old self.new (MayLeaveEither (disk_of_file (bytes self.old)) (disk_of_file (bytes self.new))) };

    /// Writes the first bytes of the buffer from place `position` on, counted in bytes from 0, and answers how many.
    /// Where it was `Interrupted` it has written none. After any other error the sectors of these bytes may hold any
    /// bytes, and their units may be unsynced.
    fn write_at(&mut self, position: u64, buffer: &[u8]) -> Result<usize, HostFault>
        ensures count { IfOk result (λ n. n ≤ length buffer.now) }
        ensures puts { IsTrue (keeps_model self.old) → IfOk result (λ n. Puts position buffer.now n (bytes self.old) (bytes self.new)) }
        ensures interrupted { IsTrue (keeps_model self.old) → result ≡ Err HostFault.Interrupted → bytes self.new ≡ bytes self.old }
        ensures spoils { Spoils position (length buffer.now) (bytes self.old) (bytes self.new) }
        ensures model { keeps_model self.new ≡ keeps_model self.old }
        ensures units { keeps_sectors self.new ≡ keeps_sectors self.old }
        ensures settle { syncs_settle self.new ≡ syncs_settle self.old }
        ensures time { Elapses time left_since self.old self.new }
        ensures stops { LeavesOnly time left_since self.old self.new (MayLeaveEither (disk_of_file (bytes self.old)) (disk_of_file (bytes self.new))) };

    /// Makes all that was written stay, where `syncs_settle`: once one has failed nothing is said of what a later one
    /// that answers Ok has done. After an error nothing is settled, and a read may give other bytes of what isn't.
    fn sync(&mut self) -> Result<(), HostFault>
        ensures ok { IsTrue (keeps_model self.old) → IsTrue (syncs_settle self.old) → OnOk result (bytes self.new ≡ settled_file (bytes self.old)) }
        ensures synced { IsTrue (keeps_model self.old) → OnErr result ((bytes self.new).synced ≡ (bytes self.old).synced) }
        ensures unsynced { IsTrue (keeps_model self.old) → OnErr result ((bytes self.new).unsynced ≡ (bytes self.old).unsynced) }
        ensures unit { IsTrue (keeps_model self.old) → OnErr result ((bytes self.new).unit ≡ (bytes self.old).unit) }
        ensures model { keeps_model self.new ≡ keeps_model self.old }
        ensures units { keeps_sectors self.new ≡ keeps_sectors self.old }
        ensures settle { OnOk result (syncs_settle self.new ≡ syncs_settle self.old) }
        ensures time { Elapses time left_since self.old self.new }
        ensures stops { LeavesOnly time left_since self.old self.new (MayLeaveEither (disk_of_file (bytes self.old)) (disk_of_file (bytes self.new))) };

    /// A stop now may leave the present content.
    ghost present: { (f : Self) → IsTrue (keeps_model f) → MayLeave (disk_of_file (bytes f)) (disk_of_file (bytes f)).content };

    /// Which keeps the model by sectors keeps it.
    ghost keeps_both: { (f : Self) → IsTrue (keeps_sectors f) → IsTrue (keeps_model f) };

    /// Sectors of one unit lie in one page: a write touches no sector of a page in which it doesn't write.
    ghost by_pages: { (f : Self) → IsTrue (keeps_model f) → IsPaged (disk_of_file (bytes f)) };

    /// By sectors each one is a unit of its own.
    ghost by_sectors: { (f : Self) (k : ℕ) → IsTrue (keeps_sectors f) → (bytes f).unit k ≡ k };

    /// A stop now counts since any time until now.
    ghost counts_now: { (f : Self) (t : ℕ) (c : Image) → t ≤ time f → MayLeave (disk_of_file (bytes f)) c → left_since f t c };

    /// Since the present time, only a stop now counts.
    ghost only_now: { (f : Self) (c : Image) → left_since f (time f) c → MayLeave (disk_of_file (bytes f)) c };

    /// What counts since a time counts since each earlier one.
    ghost widens: { (f : Self) (s t : ℕ) (c : Image) → s ≤ t → left_since f t c → left_since f s c };
}

/// A file of this system. Each call is one of the system's: `pread`, `pwrite`, `fdatasync`. Its length is asked for
/// once, by who opens it. After an `fdatasync` that failed what was written last is written again.
///
/// It is safe whatever the file holds. That it keeps the model of a file is assumed, not proved.
/// Rule: IMAGE, After a failed sync.
#[derive(Drop)]
pub struct StdFile {
    file: File,
    len: u64,
    // Where the sector begins that was written last, if no sync has made it stay.
    unsynced: Option<u64>,
}

impl StdFile {
    pub(crate) fn new(file: File, len: u64) -> StdFile
        ensures { IsTrue (⟦<StdFile as HostFile>⟧.syncs_settle result) }
    {
        StdFile {
            file,
            len,
            unsynced: None,
        }
    }

    pub(crate) fn file(&self) -> &File {
        &self.file
    }

    // After a failed sync the system may hold what wasn't written as written. Written again it is held as unwritten: so a
    // sync of the next opening writes it, or fails. The one sector that decides what an image means, its gate or its label,
    // is written alone between two syncs: it is the last one.
    fn write_last_again(&mut self) {
        if let Some(position) = self.unsynced {
            let mut bytes = [0; 512];
            if self.file.read_exact_at(&mut bytes, position).is_ok() {
                let _ = self.file.write_all_at(&bytes, position);
            }
        }
    }
}

fn fault_of(error: io::Error) -> HostFault {
    match error.kind() {
        ErrorKind::Interrupted => HostFault::Interrupted,
        _ => HostFault::Failed,
    }
}

impl HostFile for StdFile {
    ghost use Rattle.std.specs.Prelude.{false};

    ghost keeps_model = { λ f. false };

    ghost keeps_sectors = { λ f. false };

    ghost bytes = { λ f. record { content = λ _. 0; synced = λ _. 0; unsynced = λ _. true; unit = λ k. k } };

    ghost extent = { λ f. 0 };

    ghost syncs_settle = { λ f. true };

    ghost time = { λ f. 0 };

    ghost left_since = { λ f t c. Unit {0} };

    ghost present = { λ f keeps k synced. Prim.cc };

    ghost keeps_both = { λ f keeps. keeps };

    ghost by_pages = { λ f keeps. Prim.cc };

    ghost by_sectors = { λ f k keeps. Prim.cc };

    ghost counts_now = { λ f t c le now. tt };

    ghost only_now = { λ f c since k synced. Prim.cc };

    ghost widens = { λ f s t c le since. since };

    // One place off, each of these would meet its clauses all the same. Tests over a file of the system see it: of a read
    // `a_file_keeps_what_is_written`, of a write `each_sector_stands_at_its_place`, of the length
    // `a_length_of_no_sectors_has_none`, all in `test_storage`.
    fn len(&self) -> u64 {
        self.len
    }

    fn read_at(&mut self, position: u64, buffer: &mut [u8]) -> Result<usize, HostFault> {
        self.file.read_at(buffer, position).map_err(fault_of)
    }

    fn write_at(&mut self, position: u64, buffer: &[u8]) -> Result<usize, HostFault> {
        self.unsynced = Some(position - position % 512);
        self.file.write_at(buffer, position).map_err(fault_of)
    }

    fn sync(&mut self) -> Result<(), HostFault> {
        match self.file.sync_data() {
            Ok(()) => {
                self.unsynced = None;
                Ok(())
            }
            Err(error) => {
                self.write_last_again();
                Err(fault_of(error))
            }
        }
    }
}
