//! The buffers that are assigned, in the order of their last use.
ghost use Rattle.std.specs.Prelude.{◌≡◌, ◌<◌, None, All, IfOk, IfSome, OnOk, OnErr, is_some, nat_lt, length};
ghost use Rattle.block_buffers.specs.Buffers.{none_assigned, assigned, slot_of, after_touch, oldest, slot_for, placed, after_mark, updated_ones, unmarked, IsValid};

use arrayvec::ArrayVec;
use lru::LruCache;
use std::alloc::{AllocError, Global};
use std::marker::Model;
use std::num::NonZeroUsize;

/// The number of a buffer, 0 to 3.
pub type Slot = u8;

/// Memory for the list of buffers was refused.
pub type NoMemory = AllocError;

/// A buffer that is assigned to a block.
///
/// The default value is no buffer's: an `ArrayVec` fills its free places with it.
#[derive(Clone, Copy, Debug, Default, PartialEq, Eq)]
pub struct Assigned {
    /// The number of the block.
    pub block: u16,
    /// The buffer that holds it.
    pub slot: Slot,
    /// Whether the buffer was marked since it was assigned or last saved.
    pub updated: bool,
}

/// The assigned buffers, at most four, the most recently used first. That first one is the current buffer.
///
/// No two of them have the same block or the same slot. Contracts see the list and the current buffer's block.
/// Rule: LANGUAGE, Blocks; DECISIONS, The leaf crates.
#[derive(Drop)]
pub struct Buffers {
    slots: LruCache<u16, Slot>,
    updated: [bool; 4],
}

impl Model for Buffers {
    ghost use Rattle.std.specs.Prelude.{◌≡◌};
    ghost use Rattle.block_buffers.specs.Buffers.{Buffers as View, IsValid};
    ghost use Rattle.block_buffers.specs.Seen.{seen};

    ghost Value = { View };

    ghost view = { λ a. seen a.slots.entries a.updated };

    ghost invariant = { λ a. (a.slots.cap ≡ 4) × IsValid (seen a.slots.entries a.updated) };
}

impl Buffers {
    /// Four buffers, none of them assigned. `NoMemory` where memory for the list is refused.
    pub fn new(alloc: Global) -> Result<Buffers, NoMemory>
        ensures { IfOk result (λ buffers. buffers ≡ none_assigned) }
    {
        let slots = LruCache::new(alloc, NonZeroUsize::new(4).unwrap())?;
        Ok(Buffers {
            slots,
            updated: [false; 4],
        })
    }

    /// The slot, 0 to 3, of the block's buffer, which becomes the most recently used and the current one.
    ///
    /// None, and nothing changes, where the block has no buffer.
    #[inline]
    pub fn touch(&mut self, block: u16) -> Option<Slot>
        ensures slot { result ≡ slot_of self.old block }
        ensures below { IfSome result (λ slot. slot < 4) }
        ensures buffers { self.new ≡ after_touch self.old block }
        ensures valid { IsValid self.new }
    {
        let slot = self.slots.peek(&block).copied();
        self.slots.promote(&block);
        slot
    }

    /// The slot, 0 to 3, of the block's buffer, or None where it has none. The order of use stays as it is.
    #[inline]
    pub fn peek(&self, block: u16) -> Option<Slot>
        ensures slot { result ≡ slot_of self.now block }
        ensures below { IfSome result (λ slot. slot < 4) }
        ensures valid { IsValid self.now }
    {
        self.slots.peek(&block).copied()
    }

    /// The least recently used buffer, where all four are assigned: the next new block takes its slot. None where fewer
    /// are.
    pub fn oldest(&self) -> Option<Assigned>
        ensures oldest { result ≡ oldest self.now }
        ensures below { IfSome result (λ oldest. oldest.slot < 4) }
        ensures valid { IsValid self.now }
    {
        if self.slots.len() < 4 {
            return None;
        }
        let (block, slot) = self.slots.peek_lru()?;
        Some(Assigned {
            block: *block,
            slot: *slot,
            updated: self.updated[*slot as usize],
        })
    }

    /// Assigns a buffer to a block that has none, and gives its slot, 0 to 3: that of the least recently used buffer
    /// where all four are assigned, whose block then has none, and else the number of those that are assigned.
    ///
    /// The buffer is the most recently used and the current one, and isn't updated. `NoMemory` where memory is refused;
    /// nothing changes then.
    pub fn place(&mut self, block: u16) -> Result<Slot, NoMemory>
        requires { assigned self.old.list block ≡ None }
        ensures slot { IfOk result (λ slot. slot ≡ slot_for self.old) }
        ensures below { IfOk result (λ slot. slot < 4) }
        ensures ok { OnOk result (self.new ≡ placed self.old block) }
        ensures err { OnErr result (self.new ≡ self.old) }
        ensures valid { IsValid self.new }
    {
        let slot = self.next_slot();
        self.slots.put(block, slot)?;
        self.updated[slot as usize] = false;
        Ok(slot)
    }

    // The slot that the next new block gets.
    fn next_slot(&self) -> Slot
        ensures { result ≡ slot_for self.now }
    {
        match self.oldest() {
            Some(oldest) => oldest.slot,
            None => self.slots.len() as Slot,
        }
    }

    /// Marks the current buffer as updated. False, and nothing changes, where there is none.
    #[inline]
    pub fn mark(&mut self) -> bool
        ensures marked { result ≡ is_some self.old.current }
        ensures buffers { self.new ≡ after_mark self.old }
        ensures valid { IsValid self.new }
    {
        let Some((_, slot)) = self.slots.peek_mru() else {
            return false;
        };
        let slot = *slot as usize;
        self.updated[slot] = true;
        true
    }

    /// The updated buffers, at most four, the most recently used first.
    pub fn updated(&self) -> ArrayVec<Assigned, 4>
        ensures updated { result.items ≡ updated_ones self.now }
        ensures below { All (λ updated. updated.slot < 4) result.items }
        ensures valid { IsValid self.now }
    {
        let mut updated = ArrayVec::new();
        for (block, slot) in self.slots.iter() {
            if self.updated[*slot as usize] {
                updated.push(Assigned {
                    block: *block,
                    slot: *slot,
                    updated: true,
                });
            }
        }
        updated
    }

    /// Whether a buffer is updated.
    pub fn has_updated(&self) -> bool
        ensures { result ≡ nat_lt 0 (length (updated_ones self.now)) }
    {
        0 < self.updated().len()
    }

    /// No buffer is updated any more. List and order stay.
    pub fn unmark_all(&mut self)
        ensures buffers { self.new ≡ unmarked self.old }
        ensures valid { IsValid self.new }
    {
        self.updated = [false; 4];
    }

    /// No buffer is assigned any more, and none is current.
    pub fn unassign_all(&mut self)
        ensures { self.new ≡ none_assigned }
    {
        self.slots.clear();
    }
}
