//! Text that is built from its last byte on.
ghost use Rattle.std.specs.Prelude.{◌≡◌, ◌/◌, ◌%◌, ◌<◌, ◌≤◌, ◌↔◌, ◌++◌, [], ◌∷◌, length, IsTrue, IsSome, IfSome, OnSome, IfNone, if◌then◌else◌};
ghost use Rattle.number_io.specs.Digits.{digit_char};
ghost use Rattle.number_io.specs.Writing.{IsWritten, digits_of, number_text, held_of};

use crate::digit_char;
use std::marker::Model;

/// How many bytes are held at most, by this project's profile.
pub const CAPACITY: usize = 66;

/// What is held of a text that is built from its end, up to 66 bytes. Contracts see it as its bytes, in the order of
/// the text.
/// Rule: LANGUAGE, All words, Numbers as text; LANGUAGE, Limits; SEMANTICS, Numbers.
#[derive(Drop)]
pub struct Held {
    bytes: [u8; CAPACITY],
    start: usize,
}

impl Model for Held {
    ghost use Rattle.std.specs.Prelude.{List, ℕ, drop, ◌≤◌};

    ghost Value = { List ℕ };

    ghost view = { λ s. drop s.start s.bytes };

    ghost invariant = { λ s. s.start ≤ 66 };
}

impl Held {
    /// A text of no bytes.
    pub fn new() -> Self
        ensures { result ≡ [] }
    {
        Held {
            bytes: [0; CAPACITY],
            start: CAPACITY,
        }
    }

    /// Drops what is held, as Forth-83's `<#` does.
    /// Rule: Forth-83 Standard, <#.
    pub fn begin(&mut self)
        ensures { self.new ≡ [] }
    {
        self.start = CAPACITY;
    }

    /// Puts a byte before the others, as Forth-83's `HOLD` does. False, with nothing changed, where 66 are held.
    /// Rule: Forth-83 Standard, HOLD; LANGUAGE, Limits.
    pub fn hold(&mut self, c: u8) -> bool
        ensures room { IsTrue result ↔ (length self.old < 66) }
        ensures after { self.new ≡ (if result then c ∷ self.old else self.old) }
        ensures fits { length self.new ≤ 66 }
    {
        if self.start == 0 {
            return false;
        }
        self.start -= 1;
        self.bytes[self.start] = c;
        true
    }

    /// Puts the last digit of a number, by a base from 2 to 72, before the others, as Forth-83's `#` does, and gives
    /// the number without it. None, with nothing changed, where 66 bytes are held.
    /// Rule: Forth-83 Standard, #; SEMANTICS, Numbers.
    pub fn digit(&mut self, d: u32, base: u16) -> Option<u32>
        requires low { 2 ≤ base }
        requires high { base ≤ 72 }
        ensures room { IsSome result ↔ (length self.old < 66) }
        ensures value { IfSome result (λ rest. rest ≡ d / base) }
        ensures ok { OnSome result (self.new ≡ digit_char (d % base) ∷ self.old) }
        ensures full { IfNone result (self.new ≡ self.old) }
        ensures fits { length self.new ≤ 66 }
    {
        let base = u32::from(base);
        let last = (d % base) as u8;
        if self.hold(digit_char(last)) {
            Some(d / base)
        } else {
            None
        }
    }

    /// Puts the digits of a number, by a base from 2 to 72, before the others, the last one first, as Forth-83's `#S`
    /// does. False where there is no room for all; those that have room are then held.
    /// Rule: Forth-83 Standard, #S; SEMANTICS, Numbers.
    pub fn digits(&mut self, d: u32, base: u16) -> bool
        requires low { 2 ≤ base }
        requires high { base ≤ 72 }
        ensures room { IsTrue result ↔ (length (number_text base d ++ self.old) ≤ 66) }
        ensures after { self.new ≡ held_of (number_text base d ++ self.old) }
        ensures digits { IsWritten base d (digits_of base d) }
    {
        let mut rest = d;
        while rest >= u32::from(base) {
            let Some(shorter) = self.digit(rest, base) else {
                return false;
            };
            rest = shorter;
        }
        self.digit(rest, base).is_some()
    }

    /// The bytes that are held, up to 66, in the order of the text, as Forth-83's `#>` gives them.
    /// Rule: Forth-83 Standard, #>.
    pub fn finish(&self) -> &[u8]
        ensures value { result.now ≡ self.now }
        ensures fits { length result.now ≤ 66 }
    {
        &self.bytes[self.start..]
    }
}
