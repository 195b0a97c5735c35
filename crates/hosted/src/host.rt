//! The host's end of a device: what it is asked for, and what it promises.
//! Rule: EMBEDDING, The protocol; EMBEDDING, What the host owes.
ghost use Rattle.std.specs.Prelude.{◌≡◌, ℕ, ◌<◌, ◌≤◌, ◌^◌, Bool, IsTrue, List, ◌∷◌};
ghost use Rattle.std.specs.Int.{to_le_bytes, w32};
ghost use Rattle.std.specs.Bool.{OnTrue, OnFalse};
ghost use Rattle.sector_disk.specs.Disk.{Disk, Image, MayLeave, MayLeaveEither, MayWrite, SettlesNothing, settled, written};
ghost use Rattle.sector_disk.specs.Moments.{Elapses, LeavesOnly};
ghost use Rattle.sector_disk.specs.Pages.{IsPaged};
ghost use Rattle.hosted.specs.Requests.{request_bytes};
ghost use Rattle.hosted.specs.declared.host.Request.TheVariants.{Read, Write, Sync};

use io::{read_full, write_all};

/// What a host is asked for.
#[derive(Clone, Copy, Debug, PartialEq, Eq)]
pub enum Request {
    /// To read a sector, whose bytes are then taken from the host.
    Read(u32),
    /// To write a sector, whose bytes are then given to the host.
    Write(u32),
    /// To make all that was written stay. It is done once the host has taken the request.
    Sync,
}

impl Request {
    /// The eight bytes of a request: a letter, three zeros, and the sector's number, low byte first.
    /// Rule: EMBEDDING, The protocol.
    pub fn bytes(self) -> [u8; 8]
        ensures { result ≡ request_bytes self }
    {
        match self {
            Request::Read(k) => in_bytes(b'r', k),
            Request::Write(k) => in_bytes(b'w', k),
            Request::Sync => in_bytes(b's', 0),
        }
    }
}

fn in_bytes(letter: u8, sector: u32) -> [u8; 8]
    ensures { result ≡ letter ∷ 0 ∷ 0 ∷ 0 ∷ to_le_bytes w32 sector }
{
    let [a, b, c, d] = sector.to_le_bytes();
    [letter, 0, 0, 0, a, b, c, d]
}

/// The host's end of a device of sectors of 512 bytes, which moves bytes and says whether it did. Each call is one
/// step, before, within or after which the host may stop, as at a loss of power.
///
/// The clauses are what has to be assumed of a host. Those on what it did have the premise `keeps_model`. Those without
/// it each host meets of which nothing is said: that a request to read or to write, and a read, leave the disk as it is
/// (`reading`, `writing`, `disk`), and what a stop leaves (`stops`). No device is asked for anything else.
pub trait Host {
    /// Whether it keeps the disk model: a write may spoil its unit, which lies in a page of eight sectors.
    ghost keeps_model: { Self → Bool };

    /// Whether it keeps the disk model by sectors: a write spoils its own sector alone.
    ghost keeps_sectors: { Self → Bool };

    /// What it holds.
    ghost disk: { Self → Disk };

    /// The request that it took last.
    ghost asked: { Self → List ℕ };

    /// The present, as a number that never falls.
    ghost time: { Self → ℕ };

    /// What a stop at some moment from that time on might have left.
    ghost left_since: { Self → ℕ → Image → Type 0 };

    /// Takes the bytes of a request. It changes the disk only where that is a sync, which is done where they were
    /// taken. `false` is a fault of the device.
    fn ask(&mut self, request: &[u8; 8]) -> bool
        ensures asked { IsTrue (keeps_model self.old) → OnTrue result (asked self.new ≡ request.now) }
        ensures synced { IsTrue (keeps_model self.old) → request.now ≡ request_bytes Sync
            → OnTrue result (disk self.new ≡ settled (disk self.old)) }
        ensures unsynced { IsTrue (keeps_model self.old) → request.now ≡ request_bytes Sync
            → OnFalse result (SettlesNothing (disk self.old) (disk self.new)) }
        ensures reading { (k : ℕ) → request.now ≡ request_bytes (Read k) → disk self.new ≡ disk self.old }
        ensures writing { (k : ℕ) → request.now ≡ request_bytes (Write k) → disk self.new ≡ disk self.old }
        ensures model { keeps_model self.new ≡ keeps_model self.old }
        ensures units { keeps_sectors self.new ≡ keeps_sectors self.old }
        ensures time { Elapses time left_since self.old self.new }
        ensures stops { LeavesOnly time left_since self.old self.new (MayLeaveEither (disk self.old) (disk self.new)) };

    /// Gives the bytes of the sector that it was asked to read. `false` is a fault of the device.
    fn take(&mut self, out: &mut [u8; 512]) -> bool
        ensures bytes { IsTrue (keeps_model self.old) → (k : ℕ) → k < 2 ^ 32 → asked self.old ≡ request_bytes (Read k)
            → OnTrue result (out.new ≡ (disk self.old).content k) }
        ensures disk { disk self.new ≡ disk self.old }
        ensures model { keeps_model self.new ≡ keeps_model self.old }
        ensures units { keeps_sectors self.new ≡ keeps_sectors self.old }
        ensures time { Elapses time left_since self.old self.new }
        ensures stops { LeavesOnly time left_since self.old self.new (MayLeaveEither (disk self.old) (disk self.new)) };

    /// Takes the bytes of the sector that it was asked to write. After `false` the sector may hold any bytes.
    fn give(&mut self, bytes: &[u8; 512]) -> bool
        ensures done { IsTrue (keeps_model self.old) → (k : ℕ) → k < 2 ^ 32 → asked self.old ≡ request_bytes (Write k)
            → OnTrue result (disk self.new ≡ written (disk self.old) k bytes.now) }
        ensures undone { IsTrue (keeps_model self.old) → (k : ℕ) → k < 2 ^ 32 → asked self.old ≡ request_bytes (Write k)
            → OnFalse result (MayWrite k (disk self.old) (disk self.new)) }
        ensures model { keeps_model self.new ≡ keeps_model self.old }
        ensures units { keeps_sectors self.new ≡ keeps_sectors self.old }
        ensures time { Elapses time left_since self.old self.new }
        ensures stops { LeavesOnly time left_since self.old self.new (MayLeaveEither (disk self.old) (disk self.new)) };

    /// A stop now may leave the present content.
    ghost present: { (h : Self) → IsTrue (keeps_model h) → MayLeave (disk h) (disk h).content };

    /// Which keeps the disk model by sectors keeps it.
    ghost keeps_both: { (h : Self) → IsTrue (keeps_sectors h) → IsTrue (keeps_model h) };

    /// Sectors of one unit lie in one page: a write spoils no sector of another page.
    ghost by_pages: { (h : Self) → IsTrue (keeps_model h) → IsPaged (disk h) };

    /// By sectors each one is a unit of its own: a write spoils no other one.
    ghost by_sectors: { (h : Self) (k : ℕ) → IsTrue (keeps_sectors h) → (disk h).unit k ≡ k };

    /// A stop now counts since any time until now.
    ghost counts_now: { (h : Self) (t : ℕ) (c : Image) → t ≤ time h → MayLeave (disk h) c → left_since h t c };

    /// Since the present time, only a stop now counts.
    ghost only_now: { (h : Self) (c : Image) → left_since h (time h) c → MayLeave (disk h) c };

    /// What counts since a time counts since each earlier one.
    ghost widens: { (h : Self) (s t : ℕ) (c : Image) → s ≤ t → left_since h t c → left_since h s c };
}

/// The host's end of a device or a console that C gives under a number: its functions `write` and `read` on that
/// number.
///
/// It is safe whatever they do. That they keep the disk model, or a console's protocol, is assumed, not proved.
#[derive(Drop)]
pub struct Numbered {
    number: i32,
}

impl Numbered {
    /// The host's end under that number.
    pub fn new(number: i32) -> Numbered {
        Numbered { number }
    }

    /// The number under which C gives it.
    pub fn number(&self) -> i32
        ensures { result ≡ self.now.number }
    {
        self.number
    }
}

impl Host for Numbered {
    ghost use Rattle.std.specs.Prelude.{false, true, []};

    ghost keeps_model = { λ h. false };

    ghost keeps_sectors = { λ h. false };

    ghost disk = { λ h. record { content = λ k. []; synced = λ k. []; unsynced = λ k. true; unit = λ k. k } };

    ghost asked = { λ h. [] };

    ghost time = { λ h. 0 };

    ghost left_since = { λ h t c. Unit {0} };

    ghost present = { λ h keeps k synced. Prim.cc };

    ghost keeps_both = { λ h keeps. keeps };

    ghost by_pages = { λ h keeps. Prim.cc };

    ghost by_sectors = { λ h k keeps. Prim.cc };

    ghost counts_now = { λ h t c le now. tt };

    ghost only_now = { λ h c since k synced. Prim.cc };

    ghost widens = { λ h s t c le since. since };

    // Too few bytes, or those of another number, would meet the clauses all the same: `embed/blocks.c` sees it.
    fn ask(&mut self, request: &[u8; 8]) -> bool {
        write_all(self.number, request)
    }

    fn take(&mut self, out: &mut [u8; 512]) -> bool {
        read_full(self.number, out) == 512
    }

    fn give(&mut self, bytes: &[u8; 512]) -> bool {
        write_all(self.number, bytes)
    }
}
