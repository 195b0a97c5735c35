//! The bytes of data space, which their owner keeps.
ghost use Rattle.std.specs.Prelude.{◌≡◌, ◌+◌, ◌*◌, ◌<◌, ◌↔◌, if◌then◌else◌, length, replicate, IsTrue, IsSome, IfSome, IfOk};
ghost use Rattle.std.specs.Borrow.{sem};
ghost use Rattle.data_space.specs.Space.{Fits, byte_at, with_byte, cell_at, with_cell, bytes_at, with_bytes, moved_up, moved_down, filled, buffer_bytes};
ghost use Rattle.data_space.specs.Lending.{LendsBuffer, LendsBytes};

use crate::lent;
use std::alloc::{AllocError, Global};
use std::marker::Model;

/// How many bytes data space has: an address is a number of 16 bits.
pub const SIZE: usize = 65536;

/// How many bytes a block buffer has.
pub const BUFFER_SIZE: usize = 1024;

/// Where the first of the four block buffers stands.
pub const FIRST_BUFFER: u16 = 61440;

/// No memory was found. It is std's own error, so that `?` passes it on.
pub type NoMemory = AllocError;

/// Data space. Contracts see it as the list of its bytes.
///
/// A range of no bytes lies within at any address.
/// Rule: LANGUAGE, Cells and addresses; LANGUAGE, Memory.
#[derive(Drop)]
pub struct DataSpace {
    bytes: Vec<u8>,
}

impl Model for DataSpace {
    ghost use Rattle.std.specs.Prelude.{List, ℕ, ◌≡◌};
    ghost use Rattle.std.specs.Vec.{vec_len};

    ghost Value = { List ℕ };

    ghost view = { λ s. s.bytes.items };

    ghost invariant = { λ s. vec_len s.bytes ≡ 65536 };
}

impl DataSpace {
    /// Data space with all bytes zero, in memory that is taken here once. `NoMemory` where there is none.
    pub fn new(alloc: Global) -> Result<Self, NoMemory>
        ensures zero { IfOk result (λ space. space ≡ replicate 65536 0) }
    {
        Ok(DataSpace {
            bytes: vec![in alloc; 0; SIZE]?,
        })
    }

    /// The byte at an address. Each address has one.
    #[inline]
    pub fn byte(&self, a: u16) -> u8
        ensures value { result ≡ byte_at self.now a }
        ensures size { length self.now ≡ 65536 }
    {
        lent::byte(&self.bytes, a)
    }

    /// Stores a byte at an address. Each address has one.
    #[inline]
    pub fn set_byte(&mut self, a: u16, b: u8)
        ensures after { self.new ≡ with_byte self.old a b }
        ensures size { length self.new ≡ 65536 }
    {
        lent::set_byte(&mut self.bytes, a, b);
    }

    /// The cell at an address, even or odd, the low byte first (this project's profile). None at address 65,535, where
    /// only one of its bytes lies within.
    #[inline]
    pub fn cell(&self, a: u16) -> Option<u16>
        ensures within { IsSome result ↔ Fits a 2 }
        ensures value { IfSome result (λ w. w ≡ cell_at self.now a) }
        ensures size { length self.now ≡ 65536 }
    {
        lent::cell(&self.bytes, a)
    }

    /// Stores a cell, the low byte first. False, with nothing changed, at address 65,535.
    #[inline]
    pub fn set_cell(&mut self, a: u16, w: u16) -> bool
        ensures within { IsTrue result ↔ Fits a 2 }
        ensures after { self.new ≡ (if result then with_cell self.old a w else self.old) }
        ensures size { length self.new ≡ 65536 }
    {
        lent::set_cell(&mut self.bytes, a, w)
    }

    /// Stores a byte `n` times, from address `a` on. False, with nothing changed, where the range runs past 65,535.
    /// Rule: Forth-83 Standard, FILL; SEMANTICS, Data space and stacks.
    pub fn fill(&mut self, a: u16, n: u16, b: u8) -> bool
        ensures within { IsTrue result ↔ Fits a n }
        ensures after { self.new ≡ (if result then filled self.old a n b else self.old) }
        ensures size { length self.new ≡ 65536 }
    {
        lent::fill(&mut self.bytes, a, n, b)
    }

    /// Stores these bytes, from address `a` on. False, with nothing changed, where their range runs past 65,535.
    pub fn set_bytes(&mut self, a: u16, new: &[u8]) -> bool
        ensures within { IsTrue result ↔ Fits a (length new.now) }
        ensures after { self.new ≡ (if result then with_bytes self.old a new.now else self.old) }
        ensures size { length self.new ≡ 65536 }
    {
        let bytes = &mut self.bytes;
        let at = usize::from(a);
        if new.len() > SIZE - at {
            return false;
        }
        bytes[at..at + new.len()].copy_from_slice(new);
        true
    }

    /// Copies `n` bytes one by one, the lowest first, as Forth-83's `CMOVE` does: where the target begins within the
    /// source, what was copied is copied again. False, with nothing changed, where one of the ranges runs past 65,535.
    /// Rule: Forth-83 Standard, CMOVE; SEMANTICS, Data space and stacks.
    pub fn move_up(&mut self, from: u16, to: u16, n: u16) -> bool
        ensures within { IsTrue result ↔ (Fits from n × Fits to n) }
        ensures after { self.new ≡ (if result then moved_up self.old from to n else self.old) }
        ensures size { length self.new ≡ 65536 }
    {
        lent::move_up(&mut self.bytes, from, to, n)
    }

    /// Copies `n` bytes one by one, the highest first, as Forth-83's `CMOVE>` does. False, with nothing changed, where
    /// one of the ranges runs past 65,535.
    /// Rule: Forth-83 Standard, CMOVE>; SEMANTICS, Data space and stacks.
    pub fn move_down(&mut self, from: u16, to: u16, n: u16) -> bool
        ensures within { IsTrue result ↔ (Fits from n × Fits to n) }
        ensures after { self.new ≡ (if result then moved_down self.old from to n else self.old) }
        ensures size { length self.new ≡ 65536 }
    {
        lent::move_down(&mut self.bytes, from, to, n)
    }

    /// The `n` bytes from address `a` on. None where the range runs past 65,535; one of no bytes never does.
    /// Rule: DECISIONS, The leaf crates; LANGUAGE, Cells and addresses.
    pub fn slice(&self, a: u16, n: u16) -> Option<&[u8]>
        ensures within { IsSome result ↔ Fits a n }
        ensures value { IfSome result (λ bytes. bytes.now ≡ bytes_at self.now a n) }
        ensures size { length self.now ≡ 65536 }
    {
        lent::slice(&self.bytes, a, n)
    }

    /// All 65,536 bytes.
    #[inline]
    pub fn bytes(&self) -> &[u8]
        ensures value { result.now ≡ self.now }
        ensures len { length result.now ≡ 65536 }
    {
        self.bytes.as_slice()
    }

    /// Lends all 65,536 bytes to a loop that reads and writes many of them, as by the functions of `lent`.
    #[inline]
    pub fn bytes_mut(&mut self) -> &mut [u8]
        ensures* lends { sem 𝓛 (LendsBytes self.entry result) }
        ensures value { result.now ≡ self.old }
        ensures len { length result.now ≡ 65536 }
    {
        self.bytes.as_mut_slice()
    }

    /// The 1,024 bytes of block buffer `slot`, which is below 4.
    pub fn buffer(&self, slot: u8) -> &[u8]
        requires { slot < 4 }
        ensures value { result.now ≡ buffer_bytes self.now slot }
        ensures len { length result.now ≡ 1024 }
        ensures size { length self.now ≡ 65536 }
    {
        let start = buffer_start(slot);
        &self.bytes[start..start + BUFFER_SIZE]
    }

    /// Lends the 1,024 bytes of block buffer `slot`, which is below 4, in place: what the loan leaves is what data
    /// space then has there.
    pub fn buffer_mut(&mut self, slot: u8) -> &mut [u8]
        requires { slot < 4 }
        ensures* lends { sem 𝓛 (LendsBuffer self.entry slot result) }
        ensures value { result.now ≡ buffer_bytes self.old slot }
        ensures len { length result.now ≡ 1024 }
        ensures size { length self.old ≡ 65536 }
    {
        let start = buffer_start(slot);
        let end = start + BUFFER_SIZE;
        self.bytes.slice_mut(start..end)
    }
}

/// Where a block buffer stands.
#[inline]
fn buffer_start(slot: u8) -> usize
    requires { slot < 4 }
    ensures { result ≡ 61440 + 1024 * slot }
{
    usize::from(FIRST_BUFFER) + BUFFER_SIZE * usize::from(slot)
}
