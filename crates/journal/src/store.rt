// Blocks on a device, spilled one by one and saved all at once.
ghost use Rattle.std.specs.Prelude.{◌≡◌, ◌≢◌, ◌==◌, ◌||◌, ◌<◌, ◌≤◌, ◌+◌, ◌*◌, ◌↔◌, ℕ, true, false, Some, length, replicate, IsTrue, OnOk, OnErr, IsOk, IsErr, IsErrOf, MatchResult, nat_lt};
ghost use Rattle.sector_disk.specs.Disk.{Image, MayLeave};
ghost use Rattle.journal.specs.Clean.{IsClean};
ghost use Rattle.journal.specs.Costs.{each_reads, each_writes, more_writes, save_syncs, spill_reads, spill_writes};
ghost use Rattle.journal.specs.Images.{meaning};
ghost use Rattle.journal.specs.Layout as journal_layout;
ghost use Rattle.journal.specs.Layout.{fewest_blocks, most_blocks, listed, count_listed};
ghost use Rattle.journal.specs.Maps.{Maps, contents, latest, fresh, spilled, committed, discarded, shut};
ghost use Rattle.journal.specs.PageClean as pages_clean;
ghost use Rattle.journal.specs.PageImages as pages_images;
ghost use Rattle.journal.specs.PageLayout as pages_layout;
ghost use Rattle.journal.specs.Suits.{suits};
ghost use Rattle.journal.specs.Technique.{sectors_for, latest_of, IsSound, IsTagged};
ghost use Rattle.journal.specs.declared.technique.NamedRecord.{NamedRecord};
ghost use Rattle.journal.specs.declared.technique.Technique.TheVariants.{Journal, Pages};

use crate::layout::{BlockCount, is_listed};
use crate::listed::count_blocks;
use crate::pages::layout::{list, sum};
use crate::technique::{NamedRecord, Technique};
use sector_disk::SectorDevice;
use thiserror::Error;

/// Why a store didn't do what it was asked.
#[derive(Clone, Copy, Debug, PartialEq, Eq, Error)]
pub enum StoreFault {
    #[error("the device failed")]
    Device = 1,
    #[error("the store was closed by a fault")]
    Closed = 2,
}

/// Blocks of 1,024 bytes on a device, by layout 2 or 3. A block is spilled to a place of its own, and a commit makes
/// all spilled blocks the saved ones at once: over a device that keeps the disk model, for layout 2 by sectors, a stop
/// at any moment leaves either all of them or none.
/// Rule: IMAGE, A save; IMAGE, Layout 3, A save.
#[derive(Drop)]
pub struct Store<D: SectorDevice> {
    device: D,
    blocks: BlockCount,
    technique: Technique,
    // the bits of the blocks spilled since the last save, with zeros where a record has its digest or sum
    pending: [u8; 512],
    // by layout 3 the sum of the record that the next save writes
    next_sum: [u8; 32],
    closed: bool,
    // the block whose text was read last, as long as nothing was written since and no block read but as a text; and the
    // bytes that were read last as a text
    kept: Option<u16>,
    text: [u8; 1024],
    ghost size: { D.sector_count device ≡ sectors_for technique blocks.number },
    ghost clear: { (b : ℕ) → blocks.number ≤ b → listed pending b ≡ false },
    ghost sound: { IsTrue (suits D.SectorDevice device) → closed ≡ false
        → IsSound technique blocks.number (D.disk device) },
    ghost tagged: { IsTrue (suits D.SectorDevice device) → closed ≡ false
        → IsTagged technique blocks.number pending next_sum (D.disk device).content },
    ghost keeps: { IsTrue (suits D.SectorDevice device) → closed ≡ false
        → (b : ℕ) → kept ≡ Some b → text ≡ latest_of technique blocks.number pending (D.disk device).content b },
}

impl<D: SectorDevice> Store<D> {
    ghost use Rattle.journal.specs.Resting.{HasRested, StandsAsRested};
    ghost use Rattle.journal.specs.Store.{device_of, disk_of, blocks_of, technique_of, sectors_of, closed_of, text_of, kept_of, is_text_of, is_pending, by_older, pending_count, SamePending, MeansBy, HasRecordOf, NamesLatest, StandsFor, Continues, KeepsModel, DeviceFailed, DeviceWentWell, DeviceBegins, DeviceReads, KeepsSaved, SavesAllOrNone, OpensGateWhole, AddsNothing};

    /// A store of `blocks` blocks, 32 to 3,840, over an image of layout 2 with a good label and a closed gate, of which
    /// nothing is unsynced. Makes no device call.
    pub fn adopt(device: D, blocks: u16) -> Self
        requires many { fewest_blocks ≤ blocks }
        requires few { blocks ≤ most_blocks }
        requires size { D.sector_count device ≡ journal_layout.sectors_for blocks }
        requires clean { IsTrue (D.keeps_sectors device) → IsClean blocks (D.disk device) }
        ensures device { device_of result ≡ device }
        ensures blocks { blocks_of result ≡ blocks }
        ensures technique { technique_of result ≡ Journal }
        ensures closed { closed_of result ≡ false }
        ensures pending { (b : ℕ) → is_pending result b ≡ false }
        ensures state { IsTrue (D.keeps_sectors device)
            → StandsFor result (fresh (meaning blocks (D.disk device).content)) }
    {
        Store {
            device,
            blocks: BlockCount { number: blocks },
            technique: Technique::Journal,
            pending: empty_record(), // nothing is spilled yet
            next_sum: [0; 32], // no record of layout 2 has one
            closed: false,
            kept: None,
            text: [0; 1024],
        }
    }

    /// A store of `blocks` blocks, 32 to 3,840, over an image of layout 3 with a good label that isn't damaged, of
    /// which nothing is unsynced. Its gate is open or not, as is told, and names the record `listing`. Makes no device
    /// call.
    /// Rule: IMAGE, Layout 3.
    pub fn adopt_pages(device: D, blocks: u16, is_open: bool, listing: &[u8; 512]) -> Self
        requires many { fewest_blocks ≤ blocks }
        requires few { blocks ≤ most_blocks }
        requires size { D.sector_count device ≡ pages_layout.sectors_for blocks }
        requires clean { IsTrue (D.keeps_model device) → pages_clean.IsClean blocks is_open listing.now (D.disk device) }
        ensures device { device_of result ≡ device }
        ensures blocks { blocks_of result ≡ blocks }
        ensures technique { technique_of result ≡ Pages (record { is_open = is_open; listing = listing.now }) }
        ensures closed { closed_of result ≡ false }
        ensures pending { (b : ℕ) → is_pending result b ≡ false }
        ensures state { IsTrue (D.keeps_model device)
            → StandsFor result (fresh (pages_images.meaning blocks (D.disk device).content)) }
    {
        Store {
            device,
            blocks: BlockCount { number: blocks },
            technique: Technique::Pages(NamedRecord {
                is_open,
                listing: *listing,
            }),
            pending: empty_record(), // as over layout 2
            next_sum: sum(listing),
            closed: false,
            kept: None,
            text: [0; 1024],
        }
    }

    /// A store of `blocks` blocks, 32 to 3,840, over a device that an open store of so many blocks gave back, with the
    /// technique that it had then and nothing spilled since its last commit. It goes on as that one would have. Makes
    /// no device call.
    pub fn resume(device: D, blocks: u16, technique: Technique) -> Self
        requires many { fewest_blocks ≤ blocks }
        requires few { blocks ≤ most_blocks }
        requires size { D.sector_count device ≡ sectors_for technique blocks }
        requires rested { IsTrue (suits D.SectorDevice device) → HasRested D.SectorDevice device blocks technique }
        ensures device { device_of result ≡ device }
        ensures blocks { blocks_of result ≡ blocks }
        ensures technique { technique_of result ≡ technique }
        ensures closed { closed_of result ≡ false }
        ensures pending { (b : ℕ) → is_pending result b ≡ false }
        ensures state { StandsAsRested D.SectorDevice device blocks technique result }
    {
        Store {
            device,
            blocks: BlockCount { number: blocks },
            next_sum: technique.record_sum(),
            technique,
            pending: empty_record(), // a store that rests has nothing pending
            closed: false,
            kept: None,
            text: [0; 1024],
        }
    }

    /// How its blocks are saved: by layout 2, or by layout 3 with the record that the gate names. Of a closed store
    /// gate and record needn't be those of the image: a save that failed may have left another gate there.
    pub fn technique(&self) -> &Technique
        ensures { result.now ≡ technique_of self.now }
    {
        &self.technique
    }

    /// How many blocks there are, from 32 to 3,840.
    #[inline]
    pub fn blocks(&self) -> u16
        ensures value { result ≡ blocks_of self.now }
        ensures many { fewest_blocks ≤ result }
        ensures few { result ≤ most_blocks }
        // No other block is ever pending.
        ensures pending { (b : ℕ) → result ≤ b → is_pending self.now b ≡ false }
    {
        self.blocks.number
    }

    /// Whether a fault has closed the store. It stays closed until the device is opened again.
    #[inline]
    pub fn is_closed(&self) -> bool
        ensures { result ≡ closed_of self.now }
    {
        self.closed // as a failed spill or commit left it
    }

    /// Whether a block was spilled since the last save. Makes no device call.
    pub fn has_pending(&self) -> bool
        ensures { result ≡ nat_lt 0 (pending_count self.now) }
    {
        0 < count_blocks(&self.pending, self.blocks)
    }

    /// Whether block `b`, below `blocks()`, was spilled since the last save. Makes no device call.
    pub fn is_pending(&self, b: u16) -> bool
        requires below { b < blocks_of self.now }
        ensures { result ≡ is_pending self.now b }
    {
        is_listed(&self.pending, b)
    }

    /// The device, as it is. What was spilled and not committed is given up.
    pub fn into_device(self) -> D
        ensures device { result ≡ device_of self }
        ensures sectors { D.sector_count result ≡ sectors_of self }
    {
        let Store { device, .. } = self;
        device
    }

    /// Reads the 1,024 bytes of block `b`, below `blocks()`, as it was spilled last, or else as it was saved. `Closed`
    /// where the store is closed, with no device call, and `Device` where the device failed. At either neither the
    /// blocks nor `out` change.
    pub fn read_block(&mut self, b: u16, out: &mut [u8]) -> Result<(), StoreFault>
        requires below { b < blocks_of self.old }
        requires room { length out.old ≡ 1024 }

        ensures ok { (m : Maps) → StandsFor self.old m → OnOk result (out.new ≡ contents m b) }
        ensures err { OnErr result (out.new ≡ out.old) }
        ensures state { (m : Maps) → StandsFor self.old m → StandsFor self.new m }

        ensures closed { IsErrOf result StoreFault.Closed ↔ (closed_of self.old ≡ true) }
        ensures closed_same { closed_of self.old ≡ true → self.new ≡ self.old }
        ensures shuts { closed_of self.new ≡ closed_of self.old }
        ensures device { IsErrOf result StoreFault.Device → DeviceFailed self.old self.new }
        ensures well { OnOk result (DeviceWentWell self.old self.new) }

        ensures stops { KeepsSaved self.old self.new }
        ensures closed_stops { AddsNothing self.old self.new }
        ensures continues { Continues self.old self.new }
        ensures model { KeepsModel self.old self.new }
        ensures pending { SamePending self.old self.new }
        ensures begins { DeviceBegins self.old self.new 0 0 }
        ensures reads { DeviceReads self.old self.new 2 }
    {
        // The device of a closed store may hold a save half done, so it isn't read.
        if self.closed {
            return Err(StoreFault::Closed);
        }
        self.kept = None; // a block that is edited has no second copy here
        match self
            .technique
            .read(&mut self.device, self.blocks, &self.pending, b, out)
        {
            Ok(()) => Ok(()),
            Err(_) => Err(StoreFault::Device),
        }
    }

    /// Reads block `b` as `read_block` does, and keeps its bytes, which `text` lends. While they are kept no call of
    /// the device is made for them: until another text is read, a block by `read_block`, or anything is written.
    /// `Closed` and `Device` come as there; a closed store gives no text that it kept.
    /// Rule: DECISIONS, The device and the image; LANGUAGE, Blocks.
    pub fn read_text(&mut self, b: u16) -> Result<(), StoreFault>
        requires below { b < blocks_of self.old }

        ensures ok { (m : Maps) → StandsFor self.old m → OnOk result (text_of self.new ≡ contents m b) }
        ensures state { (m : Maps) → StandsFor self.old m → StandsFor self.new m }

        ensures closed { IsErrOf result StoreFault.Closed ↔ (closed_of self.old ≡ true) }
        ensures closed_same { closed_of self.old ≡ true → self.new ≡ self.old }
        ensures shuts { closed_of self.new ≡ closed_of self.old }
        ensures device { IsErrOf result StoreFault.Device → DeviceFailed self.old self.new }
        ensures well { OnOk result (DeviceWentWell self.old self.new) }

        ensures stops { KeepsSaved self.old self.new }
        ensures closed_stops { AddsNothing self.old self.new }
        ensures continues { Continues self.old self.new }
        ensures model { KeepsModel self.old self.new }
        ensures pending { SamePending self.old self.new }
        ensures begins { DeviceBegins self.old self.new 0 0 }
        ensures reads { DeviceReads self.old self.new 2 }
        // A text that is kept is given with no call of the device.
        ensures kept { kept_of self.old ≡ Some b → self.new ≡ self.old }
        ensures keeps { OnOk result (kept_of self.new ≡ Some b) }
    {
        // The device of a closed store may hold a save half done, so what was read of it isn't given either.
        if self.closed {
            return Err(StoreFault::Closed);
        }
        if self.kept == Some(b) {
            return Ok(());
        }
        match self.technique.read(
            &mut self.device,
            self.blocks,
            &self.pending,
            b,
            &mut self.text,
        ) {
            Ok(()) => {
                self.kept = Some(b);
                Ok(())
            }
            Err(_) => Err(StoreFault::Device),
        }
    }

    /// The bytes that `read_text` read last: those of its block until the next call that reads or writes.
    /// Rule: DECISIONS, The device and the image.
    #[inline]
    pub fn text(&self) -> &[u8; 1024]
        ensures { result.now ≡ text_of self.now }
    {
        &self.text
    }

    /// Whether the bytes that `text` lends are kept as those of block `b`, so that `read_text` of it makes no device
    /// call.
    /// Rule: DECISIONS, The device and the image.
    #[inline]
    pub fn keeps_text_of(&self, b: u16) -> bool
        ensures { result ≡ is_text_of (kept_of self.now) b }
    {
        match self.kept {
            Some(kept) => kept == b,
            None => false,
        }
    }

    /// Writes the 1,024 bytes of block `b`, below `blocks()`, where no save has it; the next commit saves it. `Closed`
    /// where the store is closed, with no device call. `Device` where the device failed: that closes the store.
    pub fn spill(&mut self, b: u16, bytes: &[u8]) -> Result<(), StoreFault>
        requires below { b < blocks_of self.old }
        requires whole { length bytes.now ≡ 1024 }

        ensures ok { (m : Maps) → StandsFor self.old m
            → OnOk result (StandsFor self.new (spilled m b bytes.now)) }
        ensures fault { (m : Maps) → StandsFor self.old m
            → IsErrOf result StoreFault.Device → StandsFor self.new (shut m) }

        ensures closed { IsErrOf result StoreFault.Closed ↔ (closed_of self.old ≡ true) }
        ensures closed_same { closed_of self.old ≡ true → self.new ≡ self.old }
        ensures shuts { IsErr result ↔ (closed_of self.new ≡ true) }
        ensures device { IsErrOf result StoreFault.Device → DeviceFailed self.old self.new }
        ensures well { OnOk result (DeviceWentWell self.old self.new) }

        ensures stops { KeepsSaved self.old self.new }
        ensures closed_stops { AddsNothing self.old self.new }
        ensures continues { Continues self.old self.new }
        ensures model { KeepsModel self.old self.new }
        ensures pending { MatchResult result
            (λ _. (a : ℕ) → is_pending self.new a ≡ ((a == b) || is_pending self.old a))
            (λ _. SamePending self.old self.new) }
        // By layout 3 the tag is written too, and the one that it takes the place of is read.
        ensures begins { DeviceBegins self.old self.new (spill_writes (by_older self.old)) 0 }
        ensures reads { DeviceReads self.old self.new (spill_reads (by_older self.old)) }
    {
        // After a fault nothing more is written until the image is opened again.
        if self.closed {
            return Err(StoreFault::Closed);
        }
        self.kept = None; // it may be this block's text
        match self.technique.write(
            &mut self.device,
            self.blocks,
            &self.pending,
            &mut self.next_sum,
            b,
            bytes,
        ) {
            Ok(()) => {
                list(&mut self.pending, b);
                Ok(())
            }
            Err(_) => {
                self.closed = true;
                Err(StoreFault::Device)
            }
        }
    }

    /// Saves all blocks spilled since the last commit, or none of them. With nothing spilled it makes no device call.
    /// `Closed` where the store is closed, also with nothing spilled. `Device` where the device failed: that closes the
    /// store, and the saved blocks are then all the new ones or all the old ones.
    pub fn commit(&mut self) -> Result<(), StoreFault>
        ensures ok { (m : Maps) → StandsFor self.old m → OnOk result (StandsFor self.new (committed m)) }
        ensures fault { (m : Maps) → StandsFor self.old m
            → IsErrOf result StoreFault.Device → StandsFor self.new (shut m) }

        ensures closed { IsErrOf result StoreFault.Closed ↔ (closed_of self.old ≡ true) }
        ensures closed_same { closed_of self.old ≡ true → self.new ≡ self.old }
        ensures shuts { IsErr result ↔ (closed_of self.new ≡ true) }
        ensures device { IsErrOf result StoreFault.Device → DeviceFailed self.old self.new }
        ensures well { OnOk result (DeviceWentWell self.old self.new) }
        ensures nothing { closed_of self.old ≡ false → pending_count self.old ≡ 0 → IsOk result }
        ensures unasked { closed_of self.old ≡ false
            → pending_count self.old ≡ 0 → device_of self.new ≡ device_of self.old }

        ensures stops { SavesAllOrNone self.old self.new }
        // Once it has returned, a stop leaves the new blocks alone.
        ensures after { (m : Maps) → StandsFor self.old m
            → OnOk result ((image : Image) → MayLeave (disk_of self.new) image → MeansBy self.new (latest m) image) }
        ensures closed_stops { AddsNothing self.old self.new }
        ensures continues { Continues self.old self.new }
        ensures model { KeepsModel self.old self.new }
        ensures pending { MatchResult result (λ _. (a : ℕ)
            → is_pending self.new a ≡ false) (λ _. SamePending self.old self.new) }
        // By layout 2 the gate is open and whole wherever homes are half done.
        ensures gate { technique_of self.old ≡ Journal → OpensGateWhole self.old self.new }
        // The record on the device lists then the blocks that were pending, and no bit past the last block, and its digest is that of
        // these bits and their slots.
        ensures recorded { technique_of self.old ≡ Journal → IsTrue (D.keeps_sectors (device_of self.old)) → pending_count self.old ≢ 0
            → OnOk result (HasRecordOf (blocks_of self.old) (is_pending self.old) (disk_of self.new).content) }
        // The gate is closed by zeros.
        ensures shut_gate { technique_of self.old ≡ Journal → IsTrue (D.keeps_sectors (device_of self.old)) → pending_count self.old ≢ 0
            → OnOk result ((disk_of self.new).content 1 ≡ replicate 512 0) }
        // By layout 3 the gate names the other record, which lists the other place of each block that was pending.
        ensures named { (named : NamedRecord) → technique_of self.old ≡ Pages named
            → IsTrue (D.keeps_model (device_of self.old)) → pending_count self.old ≢ 0
            → OnOk result (NamesLatest (blocks_of self.old) named.is_open named.listing self.old.pending (disk_of self.new).content) }
        // So many are what its layout takes: by layout 2 two writes for each block and 3 more, 4 syncs, and 4 reads for each; by layout 3
        // 2 writes, 2 syncs and no read, however many blocks there are.
        ensures begins { DeviceBegins self.old self.new
            (each_writes (by_older self.old) * pending_count self.old + more_writes (by_older self.old)) (save_syncs (by_older self.old)) }
        ensures reads { DeviceReads self.old self.new (each_reads (by_older self.old) * pending_count self.old) }
    {
        if self.closed {
            return Err(StoreFault::Closed); // even where nothing is pending
        }
        if count_blocks(&self.pending, self.blocks) == 0 {
            return Ok(());
        }
        self.kept = None; // its bytes go to another place
        match self.technique.save(&mut self.device, self.blocks, &self.pending, &self.next_sum) {
            Ok(()) => {
                self.next_sum = self.technique.record_sum();
                self.pending = empty_record();
                Ok(())
            }
            Err(_) => {
                self.closed = true; // whether the new blocks are saved is told by the next opening
                Err(StoreFault::Device)
            }
        }
    }

    /// Forgets what was spilled since the last commit: the blocks are again as they were saved last. Makes no device
    /// call. A store that a fault has closed stays closed: which blocks are saved is told by its next opening.
    /// Rule: MANUAL, Lines that are undone.
    pub fn discard(&mut self)
        ensures state { (m : Maps) → StandsFor self.old m → StandsFor self.new (discarded m) }
        // A commit would save what is saved.
        ensures latest { (m : Maps) → latest (discarded m) ≡ m.saved }
        ensures pending { (b : ℕ) → is_pending self.new b ≡ false }
        // A text that is kept stays at hand, unless its block was spilled.
        ensures kept { (b : ℕ) → kept_of self.old ≡ Some b → b < blocks_of self.old
            → is_pending self.old b ≡ false → kept_of self.new ≡ Some b }
        ensures device { device_of self.new ≡ device_of self.old }
        ensures blocks { blocks_of self.new ≡ blocks_of self.old }
        ensures technique { technique_of self.new ≡ technique_of self.old }
        ensures shuts { closed_of self.new ≡ closed_of self.old }
    {
        self.kept = self.saved_text();
        self.next_sum = self.technique.record_sum();
        self.pending = empty_record();
    }

    // The block whose text is kept, where that is its text as it was saved.
    fn saved_text(&self) -> Option<u16>
        ensures kept { (b : ℕ) → result ≡ Some b → kept_of self.now ≡ Some b }
        ensures saved { (b : ℕ) → result ≡ Some b → is_pending self.now b ≡ false }
        ensures stays { (b : ℕ) → kept_of self.now ≡ Some b → b < blocks_of self.now
            → is_pending self.now b ≡ false → result ≡ Some b }
    {
        let b = self.kept?;
        if b >= self.blocks.number {
            return None;
        }
        if is_listed(&self.pending, b) {
            return None;
        }
        Some(b)
    }
}

// A record that lists no block.
fn empty_record() -> [u8; 512]
    ensures { (b : ℕ) → listed result b ≡ false }
{
    [0; 512]
}
