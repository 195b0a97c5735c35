//! Blocks in four buffers over a store, and the words on them.
ghost use Rattle.std.specs.Prelude.{◌≡◌, ◌<◌, ◌+◌, ◌↔◌, List, [], ℕ, true, false, Some, None, Ok, length, is_ok, IfOk, IfErr, OnOk, OnErr, IsErrOf, IsSome, IfSome, MatchResult};
ghost use Rattle.std.proofs.Props.{props};
ghost use Rattle.journal.specs.Maps.{Maps, discarded};
ghost use Rattle.journal.specs.Costs.{spill_reads, spill_writes};
ghost use Rattle.journal.specs.Store.{blocks_of, by_older, closed_of, device_of, kept_of, is_text_of, StandsFor, DeviceBegins, DeviceReads, KeepsSaved, SamePending};
ghost use Rattle.data_space.specs.Space.{buffer_at, buffer_bytes};
ghost use Rattle.block_buffers.specs.Buffers.{slot_of, none_assigned, unmarked, after_mark, IsValid};
ghost use Rattle.block_words.specs.Words.{block, buffer, update, save_buffers, flush, has_unsaved, source, next_map};
ghost use Rattle.block_words.specs.Uses.{used, is_among, is_changed, slot_used, replaced, blanked, with_bytes_left, IsPlace, text_at, text_found, at_hand, in_store, PendingOnceReplaced};
ghost use Rattle.block_words.specs.Rooms.{within};
ghost use Rattle.block_words.specs.Validity.{AreApart-prop, SlotsBelow-prop};
ghost use Rattle.block_words.specs.Calls.{CallRuns, save_begun};
ghost use Rattle.block_words.specs.Faults.{of_store};

use crate::assigning::{address, blank, fetch};
use crate::saving::save;
use block_buffers::{Assigned, Buffers};
use data_space::DataSpace;
use journal::StoreFault;
use sector_disk::SectorDevice;
use stores::Store;

/// Why a block word didn't do what it was asked.
#[derive(Clone, Copy, Debug, PartialEq, Eq)]
pub enum BlockFault {
    /// The store has no block of this number.
    NoBlock,
    /// There is no current buffer.
    NoBuffer,
    /// A call of the device failed.
    Device,
    /// A fault has closed the store.
    Closed,
    /// Memory for the list of buffers was refused.
    Memory,
}

/// Where the text of a block was found.
#[derive(Clone, Copy, Debug, PartialEq, Eq)]
pub enum TextPlace {
    /// In the buffer of this slot, 0 to 3.
    InBuffer(u8),
    /// In the store, as the text that it read last.
    InStore,
}

impl From<StoreFault> for BlockFault {
    ghost from_gives = { λ fault told. told ≡ of_store fault };

    fn from(fault: StoreFault) -> Self {
        match fault {
            StoreFault::Device => BlockFault::Device,
            StoreFault::Closed => BlockFault::Closed,
        }
    }
}

/// Blocks in four buffers over a store.
///
/// The buffers' bytes are those of data space at 61,440, 62,464, 63,488 and 64,512, which each call that reads or
/// writes them is lent; no other copy of them is kept. Where a block has a buffer, its bytes are those; where it has
/// none, the store's. Memory is taken, for an entry, by each `block` or `buffer` that assigns a buffer while fewer than
/// four are assigned, and by no other call.
///
/// Contracts speak of the store and of the list of buffers, which is valid at any time (`laws::buffers_are_valid`).
/// Where the store stands for maps, as one does whose device suits it, `CallRuns` says that a call is a run of its
/// word, what a stop at any moment of it leaves, and that the device began no more calls of each kind than the word
/// counts. Of such a store alone speak also the other clauses about a stop, and that of `has_unsaved`; all others hold
/// over any device.
/// Rule: LANGUAGE, Blocks; LANGUAGE, Memory.
#[derive(Drop)]
pub struct Blocks<D: SectorDevice> {
    store: Store<D>,
    buffers: Buffers,
    ghost within: { within (blocks_of store) buffers.list ≡ true },
    ghost valid: { IsValid buffers } by { Prim.hlevel (props, AreApart-prop, SlotsBelow-prop) },
}

impl<D: SectorDevice> Blocks<D> {
    ghost use Rattle.block_words.specs.Parts.{store_of, buffers_of};
    ghost use Rattle.block_words.specs.Promises.{AsksFor, Saves};

    /// Blocks over a store, in which no block has a buffer. Takes no memory, and makes no device call.
    pub fn new(mut buffers: Buffers, store: Store<D>) -> Self
        ensures store { store_of result ≡ store }
        ensures buffers { buffers_of result ≡ none_assigned }
    {
        buffers.unassign_all();
        Blocks { store, buffers }
    }

    /// The store, as it is. Makes no device call, and saves nothing: what is updated in a buffer is given up, and what
    /// was spilled stays pending in the store.
    pub fn into_store(self) -> Store<D>
        ensures { result ≡ store_of self }
    {
        let Blocks { store, .. } = self;
        store
    }

    /// `UPDATE`: marks the current buffer as updated. `NoBuffer` where there is none. Makes no device call.
    /// Rule: Forth-83 Standard, UPDATE; LANGUAGE, Blocks.
    pub fn update(&mut self) -> Result<(), BlockFault>
        ensures runs { (m : Maps) (space : List ℕ) → StandsFor (store_of self.old) m
            → CallRuns D.SectorDevice update result [] m
            (store_of self.old) (store_of self.new) (buffers_of self.old) (buffers_of self.new) space space }
        ensures no_buffer { IsErrOf result BlockFault.NoBuffer ↔ ((buffers_of self.old).current ≡ None) }
        ensures only { IfErr result (λ fault. fault ≡ BlockFault.NoBuffer) }
        ensures list { buffers_of self.new ≡ after_mark (buffers_of self.old) }
        ensures store { store_of self.new ≡ store_of self.old }
        ensures stops { KeepsSaved (store_of self.old) (store_of self.new) }
    {
        if self.buffers.mark() {
            Ok(())
        } else {
            Err(BlockFault::NoBuffer)
        }
    }

    /// `BLOCK`: the address of the buffer of block `u`, which becomes the current one. A block without a buffer is read
    /// into one.
    ///
    /// For the fifth block the least recently used buffer is taken, and spilled first if it is updated.
    ///
    /// `NoBlock` from the number of blocks on; `Closed` where the block has no buffer and a fault has closed the store.
    /// At `Device` a failed read has changed nothing, and a failed spill has closed the store. At `Memory` the spill
    /// before it stands. At any fault, buffers, marks and bytes are as they were.
    /// Rule: Forth-83 Standard, BLOCK; LANGUAGE, Blocks.
    pub fn block(&mut self, space: &mut DataSpace, u: u16) -> Result<u16, BlockFault>
        ensures runs { (m : Maps) → StandsFor (store_of self.old) m
            → CallRuns D.SectorDevice (block u) result [] m
            (store_of self.old) (store_of self.new) (buffers_of self.old) (buffers_of self.new) space.old space.new }

        ensures asks { AsksFor u result self.old self.new }
        ensures address { IfOk result (λ at. at ≡ buffer_at (slot_used (buffers_of self.old) u)) }
        ensures list { MatchResult result (λ _. buffers_of self.new ≡ used (buffers_of self.old) u)
            (λ _. buffers_of self.new ≡ buffers_of self.old) }
        ensures space { OnErr result (space.new ≡ space.old) }
        // A block that has a buffer keeps its bytes.
        ensures found_bytes { IsSome (slot_of (buffers_of self.old) u) → space.new ≡ space.old }

        ensures pending { OnOk result
            (PendingOnceReplaced (store_of self.old) (store_of self.new) (replaced (buffers_of self.old) u)) }
        ensures begins { DeviceBegins (store_of self.old) (store_of self.new) (spill_writes (by_older (store_of self.old))) 0 }
        ensures reads { DeviceReads (store_of self.old) (store_of self.new) (2 + spill_reads (by_older (store_of self.old))) }
    {
        // That there is no such block is said also of a closed store.
        if u >= self.store.blocks() {
            return Err(BlockFault::NoBlock);
        }
        match self.buffers.touch(u) {
            Some(slot) => Ok(address(slot)),
            None => fetch(&mut self.store, &mut self.buffers, space, u),
        }
    }

    /// `BUFFER`: as `block`, but a block without a buffer isn't read: its buffer is filled with blanks (this project's
    /// profile of Forth-83). A buffer that is there isn't changed. Faults come as at `block`, but for those of a read.
    /// Rule: Forth-83 Standard, BUFFER; LANGUAGE, All words, Blocks.
    pub fn buffer(&mut self, space: &mut DataSpace, u: u16) -> Result<u16, BlockFault>
        ensures runs { (m : Maps) → StandsFor (store_of self.old) m
            → CallRuns D.SectorDevice (buffer u) result [] m
            (store_of self.old) (store_of self.new) (buffers_of self.old) (buffers_of self.new) space.old space.new }

        ensures asks { AsksFor u result self.old self.new }
        ensures address { IfOk result (λ at. at ≡ buffer_at (slot_used (buffers_of self.old) u)) }
        ensures list { MatchResult result (λ _. buffers_of self.new ≡ used (buffers_of self.old) u)
            (λ _. buffers_of self.new ≡ buffers_of self.old) }
        ensures space { MatchResult result (λ _. space.new ≡ blanked (buffers_of self.old) u space.old)
            (λ _. space.new ≡ space.old) }

        ensures pending { OnOk result
            (PendingOnceReplaced (store_of self.old) (store_of self.new) (replaced (buffers_of self.old) u)) }
        ensures begins { DeviceBegins (store_of self.old) (store_of self.new) (spill_writes (by_older (store_of self.old))) 0 }
        ensures reads { DeviceReads (store_of self.old) (store_of self.new) (spill_reads (by_older (store_of self.old))) }
    {
        if u >= self.store.blocks() {
            return Err(BlockFault::NoBlock);
        }
        // What a buffer holds stays.
        match self.buffers.touch(u) {
            Some(slot) => Ok(address(slot)),
            None => blank(&mut self.store, &mut self.buffers, space, u),
        }
    }

    /// Reads the 1,024 bytes of the text of block `u` as it stands: its buffer's bytes, or else what was spilled last,
    /// or else what is saved. Neither the buffers nor their order change, and the block gets none.
    ///
    /// `NoBlock` from the number of blocks on; `Closed` where the block has no buffer and a fault has closed the store;
    /// a failed read (`Device`) changes nothing.
    /// Rule: LANGUAGE, The input stream, and how words are taken; LANGUAGE, Blocks.
    pub fn source(
        &mut self,
        space: &DataSpace,
        u: u16,
        out: &mut [u8; 1024],
    ) -> Result<(), BlockFault>
        ensures runs { (m : Maps) → StandsFor (store_of self.old) m
            → CallRuns D.SectorDevice (source u) (with_bytes_left result out.new) [] m
            (store_of self.old) (store_of self.new) (buffers_of self.old) (buffers_of self.new) space.now space.now }

        ensures asks { AsksFor u result self.old self.new }
        ensures err { OnErr result (out.new ≡ out.old) }
        ensures list { buffers_of self.new ≡ buffers_of self.old }
        // A block that has a buffer is read there.
        ensures found_bytes { IfSome (slot_of (buffers_of self.old) u) (λ slot. out.new ≡ buffer_bytes space.now slot) }

        ensures no_memory { ¬ IsErrOf result BlockFault.Memory }

        ensures shuts { closed_of (store_of self.new) ≡ closed_of (store_of self.old) }
        ensures pending { SamePending (store_of self.old) (store_of self.new) }
        ensures begins { DeviceBegins (store_of self.old) (store_of self.new) 0 0 }
        ensures reads { DeviceReads (store_of self.old) (store_of self.new) 2 }
    {
        match self.find_text(u) {
            Ok(place) => {
                out.copy_from_slice(self.text(space, place));
                Ok(())
            }
            Err(fault) => Err(fault),
        }
    }

    /// Finds the text of block `u` as `source` does, and copies nothing: `text` lends it. The store keeps the text that
    /// it read last until it reads another one, `block` reads a block, or anything is written: so a block that is taken
    /// word by word isn't read from the device for each word. Faults are those of `source`.
    /// Rule: DECISIONS, The device and the image; LANGUAGE, The input stream, and how words are taken.
    pub fn find_text(&mut self, u: u16) -> Result<TextPlace, BlockFault>
        ensures runs { (m : Maps) (space : List ℕ) → StandsFor (store_of self.old) m
            → CallRuns D.SectorDevice (source u) (text_found result (store_of self.new) space) [] m
            (store_of self.old) (store_of self.new) (buffers_of self.old) (buffers_of self.new) space space }

        ensures asks { AsksFor u result self.old self.new }
        ensures list { buffers_of self.new ≡ buffers_of self.old }
        // A block that has a buffer is found there.
        ensures found { IfSome (slot_of (buffers_of self.old) u) (λ slot. result ≡ Ok (TextPlace.InBuffer slot)) }
        ensures below { IfOk result (λ place. IsPlace place) }

        ensures no_memory { ¬ IsErrOf result BlockFault.Memory }

        ensures shuts { closed_of (store_of self.new) ≡ closed_of (store_of self.old) }
        ensures pending { SamePending (store_of self.old) (store_of self.new) }
        ensures begins { DeviceBegins (store_of self.old) (store_of self.new) 0 0 }
        ensures reads { DeviceReads (store_of self.old) (store_of self.new) 2 }
        // A text that the store keeps isn't read again.
        ensures kept { kept_of (store_of self.old) ≡ Some u → store_of self.new ≡ store_of self.old }
    {
        if u >= self.store.blocks() {
            return Err(BlockFault::NoBlock);
        }
        // This is a look alone: the order of use stays.
        match self.buffers.peek(u) {
            Some(slot) => Ok(TextPlace::InBuffer(slot)),
            None => match self.store.read_text(u) {
                Ok(()) => Ok(TextPlace::InStore),
                Err(fault) => Err(BlockFault::from(fault)),
            },
        }
    }

    /// The 1,024 bytes of the text at a place that `find_text` or `text_at_hand` gave last.
    /// Rule: DECISIONS, The device and the image.
    pub fn text<'a>(&'a self, space: &'a DataSpace, place: TextPlace) -> &'a [u8]
        requires { IsPlace place }
        ensures text { result.now ≡ text_at place (store_of self.now) space.now }
        ensures len { length result.now ≡ 1024 }
    {
        match place {
            TextPlace::InBuffer(slot) => space.buffer(slot),
            TextPlace::InStore => self.store.text(),
        }
    }

    /// Where the text of block `u` is at hand without a call of the device: in its buffer, or as the text that the
    /// store read last and still keeps. None where neither has it.
    /// Rule: DECISIONS, Compiler, machine and the definitions.
    pub fn text_at_hand(&self, u: u16) -> Option<TextPlace>
        ensures found { result ≡ at_hand (slot_of (buffers_of self.now) u) (is_text_of (kept_of (store_of self.now)) u) }
        ensures below { IfSome result (λ place. IsPlace place) }
    {
        match self.buffers.peek(u) {
            Some(slot) => Some(TextPlace::InBuffer(slot)),
            None => self.text_in_store(u),
        }
    }

    fn text_in_store(&self, u: u16) -> Option<TextPlace>
        ensures found { result ≡ in_store (is_text_of (kept_of (store_of self.now)) u) }
        ensures below { IfSome result (λ place. IsPlace place) }
    {
        if self.store.keeps_text_of(u) {
            Some(TextPlace::InStore)
        } else {
            None
        }
    }

    /// Whether a block was changed and not saved: it was spilled, or is updated in its buffer. Makes no device call. Of
    /// the blocks of a closed store nothing is said.
    /// Rule: LANGUAGE, Blocks.
    pub fn has_unsaved(&self) -> bool
        ensures { (m : Maps) → StandsFor (store_of self.now) m → m.closed ≡ false → result ≡ has_unsaved (buffers_of self.now) m }
    {
        if self.store.has_pending() {
            return true;
        }
        self.buffers.has_updated()
    }

    /// How many blocks there are, from 32 to 3,840.
    pub fn count(&self) -> u16
        ensures { result ≡ blocks_of (store_of self.now) }
    {
        self.store.blocks()
    }

    /// Whether a fault has closed the store.
    pub fn is_closed(&self) -> bool
        ensures { result ≡ closed_of (store_of self.now) }
    {
        self.store.is_closed()
    }

    /// Whether block `u` was changed since the last save: it was spilled, or is updated in its buffer. Makes no device
    /// call.
    /// Rule: MANUAL, Lines that are undone.
    pub fn is_changed(&self, u: u16) -> bool
        requires { u < blocks_of (store_of self.now) }
        ensures { result ≡ is_changed (store_of self.now) (buffers_of self.now) u }
    {
        if is_among(self.buffers.updated().as_slice(), u) {
            return true;
        }
        self.store.is_pending(u)
    }

    /// Takes back all that was changed since the last save: what was spilled is forgotten, and no block has a buffer.
    /// So each block reads again as it was saved (`laws::taken_back`). Makes no device call, and is no save. A store
    /// that a fault has closed stays closed.
    /// Rule: MANUAL, Lines that are undone.
    pub fn discard_changes(&mut self)
        ensures maps { (m : Maps) → StandsFor (store_of self.old) m → StandsFor (store_of self.new) (discarded m) }
        ensures list { buffers_of self.new ≡ none_assigned }
        ensures nothing { (u : ℕ) → is_changed (store_of self.new) (buffers_of self.new) u ≡ false }
        ensures device { device_of (store_of self.new) ≡ device_of (store_of self.old) }
        ensures blocks { blocks_of (store_of self.new) ≡ blocks_of (store_of self.old) }
        ensures shuts { closed_of (store_of self.new) ≡ closed_of (store_of self.old) }
    {
        self.store.discard();
        self.buffers.unassign_all();
    }

    /// `SAVE-BUFFERS`: saves all that was updated or spilled since the last save, or nothing of it, and then no buffer
    /// is updated. With nothing to save it makes no device call.
    ///
    /// A stop at any moment leaves the old blocks or all the new ones; once this has returned, the new ones. `Device`
    /// where the device failed: that closes the store. `Closed` where the store was closed before, also with nothing to
    /// save. At either, buffers and marks are as they were.
    /// Rule: Forth-83 Standard, SAVE-BUFFERS; LANGUAGE, Blocks.
    pub fn save_buffers(&mut self, space: &DataSpace) -> Result<(), BlockFault>
        ensures runs { (m : Maps) → StandsFor (store_of self.old) m
            → CallRuns D.SectorDevice save_buffers result
            (save_begun m.closed (next_map (buffers_of self.old) space.now m) (is_ok result)) m
            (store_of self.old) (store_of self.new) (buffers_of self.old) (buffers_of self.new) space.now space.now }

        ensures list { MatchResult result (λ _. buffers_of self.new ≡ unmarked (buffers_of self.old))
            (λ _. buffers_of self.new ≡ buffers_of self.old) }
        ensures saves { Saves result (store_of self.old) (store_of self.new) (buffers_of self.old) space.now }
    {
        // The marks go only once all is saved.
        match save(&mut self.store, &self.buffers, space) {
            Ok(()) => {
                self.buffers.unmark_all();
                Ok(())
            }
            Err(fault) => Err(fault),
        }
    }

    /// `FLUSH`: saves as `save_buffers` does, and then no block has a buffer and none is current. `Closed` and `Device`
    /// come as there; at any fault, buffers and marks are as they were.
    /// Rule: Forth-83 Standard, FLUSH; LANGUAGE, Blocks.
    pub fn flush(&mut self, space: &DataSpace) -> Result<(), BlockFault>
        ensures runs { (m : Maps) → StandsFor (store_of self.old) m
            → CallRuns D.SectorDevice flush result
            (save_begun m.closed (next_map (buffers_of self.old) space.now m) (is_ok result)) m
            (store_of self.old) (store_of self.new) (buffers_of self.old) (buffers_of self.new) space.now space.now }

        ensures list { MatchResult result (λ _. buffers_of self.new ≡ none_assigned)
            (λ _. buffers_of self.new ≡ buffers_of self.old) }
        ensures saves { Saves result (store_of self.old) (store_of self.new) (buffers_of self.old) space.now }
    {
        // The buffers go only once all is saved.
        match save(&mut self.store, &self.buffers, space) {
            Ok(()) => {
                self.buffers.unassign_all();
                Ok(())
            }
            Err(fault) => Err(fault),
        }
    }
}

// Whether one of these buffers is that of block u.
fn is_among(buffers: &[Assigned], u: u16) -> bool
    ensures { result ≡ is_among buffers.now u }
{
    match buffers {
        [] => false,
        [buffer, rest @ ..] => {
            if u == buffer.block {
                return true;
            }
            is_among(rest, u)
        }
    }
}
