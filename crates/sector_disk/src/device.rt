// A device of sectors, by what a read gives, what a stop may leave, and what was counted.
ghost use Rattle.std.specs.Prelude.{◌≡◌, ℕ, ◌<◌, ◌≤◌, Bool, IsTrue, IsErr, OnOk, OnErr, ◌↔◌};
ghost use Rattle.sector_disk.specs.declared.device.Counts.{Counts};
ghost use Rattle.sector_disk.specs.Disk.{Disk, Image, MayLeave, MayLeaveEither, written, settled, MayWrite, SettlesNothing};
ghost use Rattle.sector_disk.specs.Moments.{Elapses, LeavesOnly};
ghost use Rattle.sector_disk.specs.Pages.{IsPaged};
ghost use Rattle.sector_disk.specs.Counting.{CountsFailure, with_read, with_write, with_sync};

/// A call of the device failed.
#[derive(Clone, Copy, Debug, PartialEq, Eq)]
pub struct DeviceFault;

/// How many calls were begun, those that failed included. Each count has 64 bits and stays at its last value.
/// Rule: SEMANTICS, From the definitions to the code.
#[derive(Clone, Copy, Debug, Default, PartialEq, Eq)]
pub struct Counts {
    pub reads: u64,
    pub writes: u64,
    pub syncs: u64,
}

impl Counts {
    /// One read more was begun.
    #[inline]
    pub fn count_read(&mut self)
        ensures { self.new ≡ with_read self.old }
    {
        self.reads = self.reads.saturating_add(1);
    }

    /// One write more was begun.
    #[inline]
    pub fn count_write(&mut self)
        ensures { self.new ≡ with_write self.old }
    {
        self.writes = self.writes.saturating_add(1);
    }

    /// One sync more was begun.
    #[inline]
    pub fn count_sync(&mut self)
        ensures { self.new ≡ with_sync self.old }
    {
        self.syncs = self.syncs.saturating_add(1);
    }
}

/// Counts a failure of a device where the outcome of its call is one, and tells it as `DeviceFault`. The count has 64
/// bits and stays at its last value.
/// Rule: SEMANTICS, From the definitions to the code.
pub fn count_failure<E: Drop>(failures: &mut u64, outcome: Result<(), E>) -> Result<(), DeviceFault>
    ensures failures { CountsFailure failures.old failures.new result }
    ensures variant { IsErr result ↔ IsErr outcome }
{
    match outcome {
        Ok(()) => Ok(()),
        Err(_) => {
            *failures = failures.saturating_add(1);
            Err(DeviceFault)
        }
    }
}

/// A device of sectors of 512 bytes, numbered from 0. Each call is one step, before, within or after which the
/// device may stop, as at a loss of power.
///
/// The clauses with the premise `keeps_model` say what a call does to the disk, and bind only a device that keeps the
/// disk model. All others bind every device: sectors, model and units never change, time goes on, a stop within a call
/// leaves what one before it or after it may leave, each call is counted, and each that fails is counted as a failure.
///
/// A device may know its whole history, as `Recorded` of `test_devices` does, or the present alone, as `MemoryDisk`
/// does: both meet all clauses, so what is proved over any device speaks of each moment within a call.
/// Rule: IMAGE, The device.
pub trait SectorDevice {
    /// How many sectors it has.
    ghost sector_count: { Self → ℕ };

    /// Whether it keeps the disk model, which is known of a disk in memory, and of a file whose bytes lie in memory. Of
    /// a file of a system no contract can know it: such a one says false, and nothing is said of its bytes. A write may
    /// spoil its unit, which lies in a page of eight sectors.
    ghost keeps_model: { Self → Bool };

    /// Whether it keeps the disk model by sectors: a write spoils its own sector alone.
    ghost keeps_sectors: { Self → Bool };

    /// What it holds.
    ghost disk: { Self → Disk };

    /// The present, as a number that never falls.
    ghost time: { Self → ℕ };

    /// What a stop at some moment from that time on might have left, within a call or between two.
    ghost left_since: { Self → ℕ → Image → Type 0 };

    /// How often a call has failed.
    ghost failures: { Self → ℕ };

    /// How many calls were begun.
    ghost counts: { Self → Counts };

    /// How many sectors of 512 bytes it has, from 0 to 2^32 - 1. The number never changes.
    fn sectors(&self) -> u32
        ensures { result ≡ sector_count self.now };

    /// Reads the 512 bytes of sector `k`, which is below `sectors()`. `DeviceFault` where the device failed: it is as
    /// it was then, and `out` holds any bytes.
    fn read(&mut self, k: u32, out: &mut [u8; 512]) -> Result<(), DeviceFault>
        requires { k < sector_count self.old }
        ensures bytes { IsTrue (keeps_model self.old) → OnOk result (out.new ≡ (disk self.old).content k) }
        ensures disk { IsTrue (keeps_model self.old) → disk self.new ≡ disk self.old }
        ensures sectors { sector_count self.new ≡ sector_count self.old }
        ensures model { keeps_model self.new ≡ keeps_model self.old }
        ensures units { keeps_sectors self.new ≡ keeps_sectors self.old }
        ensures time { Elapses time left_since self.old self.new }
        ensures stops { LeavesOnly time left_since self.old self.new (MayLeaveEither (disk self.old) (disk self.new)) }
        ensures failures { CountsFailure (failures self.old) (failures self.new) result }
        ensures counts { counts self.new ≡ with_read (counts self.old) };

    /// Writes the 512 bytes of sector `k`, which is below `sectors()`. Until a sync succeeds, a stop may leave any
    /// bytes in its unit. `DeviceFault` where the device failed: the write may have been done, with any bytes, or not
    /// at all.
    fn write(&mut self, k: u32, bytes: &[u8; 512]) -> Result<(), DeviceFault>
        requires { k < sector_count self.old }
        ensures ok { IsTrue (keeps_model self.old) → OnOk result (disk self.new ≡ written (disk self.old) k bytes.now) }
        ensures err { IsTrue (keeps_model self.old) → OnErr result (MayWrite k (disk self.old) (disk self.new)) }
        ensures sectors { sector_count self.new ≡ sector_count self.old }
        ensures model { keeps_model self.new ≡ keeps_model self.old }
        ensures units { keeps_sectors self.new ≡ keeps_sectors self.old }
        ensures time { Elapses time left_since self.old self.new }
        ensures stops { LeavesOnly time left_since self.old self.new (MayLeaveEither (disk self.old) (disk self.new)) }
        ensures failures { CountsFailure (failures self.old) (failures self.new) result }
        ensures counts { counts self.new ≡ with_write (counts self.old) };

    /// Makes all that was written stay. `DeviceFault` where the device failed: nothing is settled, a stop may leave
    /// what it might have left before, and a read may give other bytes of a sector that isn't settled.
    fn sync(&mut self) -> Result<(), DeviceFault>
        ensures ok { IsTrue (keeps_model self.old) → OnOk result (disk self.new ≡ settled (disk self.old)) }
        ensures err { IsTrue (keeps_model self.old) → OnErr result (SettlesNothing (disk self.old) (disk self.new)) }
        ensures sectors { sector_count self.new ≡ sector_count self.old }
        ensures model { keeps_model self.new ≡ keeps_model self.old }
        ensures units { keeps_sectors self.new ≡ keeps_sectors self.old }
        ensures time { Elapses time left_since self.old self.new }
        ensures stops { LeavesOnly time left_since self.old self.new (MayLeaveEither (disk self.old) (disk self.new)) }
        ensures failures { CountsFailure (failures self.old) (failures self.new) result }
        ensures counts { counts self.new ≡ with_sync (counts self.old) };

    /// A stop now may leave the present content.
    ghost present: { (d : Self) → IsTrue (keeps_model d) → MayLeave (disk d) (disk d).content };

    /// Which keeps the disk model by sectors keeps it.
    ghost keeps_both: { (d : Self) → IsTrue (keeps_sectors d) → IsTrue (keeps_model d) };

    /// Sectors of one unit lie in one page: a write spoils no sector of another page.
    ghost by_pages: { (d : Self) → IsTrue (keeps_model d) → IsPaged (disk d) };

    /// By sectors each one is a unit of its own: a write spoils no other one.
    ghost by_sectors: { (d : Self) (k : ℕ) → IsTrue (keeps_sectors d) → (disk d).unit k ≡ k };

    /// A stop now counts since any time until now.
    ghost counts_now: { (d : Self) (t : ℕ) (c : Image) → t ≤ time d → MayLeave (disk d) c → left_since d t c };

    /// Since the present time, only a stop now counts.
    ghost only_now: { (d : Self) (c : Image) → left_since d (time d) c → MayLeave (disk d) c };

    /// What counts since a time counts since each earlier one.
    ghost widens: { (d : Self) (s t : ℕ) (c : Image) → s ≤ t → left_since d t c → left_since d s c };
}
