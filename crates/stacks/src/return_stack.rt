//! The return stack.
ghost use Rattle.std.specs.Prelude.{◌≡◌, ◌≢◌, ◌+◌, ◌<◌, ◌≤◌, ◌↔◌, [], ◌∷◌, ℕ, length, slice_get, IsTrue, IsOk, OnOk, OnErr, IfOk, IfErr, IfSome, IfNone, if◌then◌else◌};
ghost use Rattle.stacks.specs.Entries.{is_load, is_loop, indexed};
ghost use Rattle.stacks.specs.Stacks.{units, entry_units, is_inner_call, has_loop, with_index, top_or_load, calls_below, loads};

use crate::StackFault;
use std::marker::Model;

/// How many units the return stack holds at most, by this project's profile.
pub const CAPACITY: usize = 256;

/// How many places the entries lie in, one for each unit. Place 0 is below the bottom, where a load stands that is no
/// entry: a look at the top needs no case for the empty stack.
const PLACES: usize = CAPACITY + 1;

/// What is left to do, or kept for it.
/// Rule: LANGUAGE, Limits; SEMANTICS, Data space and stacks.
#[derive(Clone, Copy, Debug, PartialEq, Eq)]
pub enum Entry {
    /// A load, with the block number and the input position to go back to: two units. It is the first, so that the
    /// places of a new stack are zeros, which are written where they shall lie.
    Load { block: u16, to_in: u16 },
    /// A call of a body, with the place to go on at: one unit. The place has 32 bits, so that an entry takes 8 bytes.
    Call(u32),
    /// A cell that the body put aside: one unit.
    Value(u16),
    /// A loop with its limit and its present index: three units.
    Loop { limit: u16, index: u16 },
}

impl Entry {
    /// How many units the entry takes: one, two or three.
    #[inline]
    pub fn units(self) -> usize
        ensures { result ≡ entry_units self }
    {
        match self {
            Entry::Call(_) => 1,
            Entry::Value(_) => 1,
            Entry::Loop { .. } => 3,
            Entry::Load { .. } => 2,
        }
    }

    /// Gives a loop another index. False where this is no loop; then nothing is changed.
    #[inline(always)]
    fn set_index(&mut self, index: u16) -> bool
        ensures there { result ≡ is_loop self.old }
        ensures after { self.new ≡ indexed index self.old }
    {
        match self {
            Entry::Loop { index: kept, .. } => {
                *kept = index;
                true
            }
            _ => false,
        }
    }

    /// Whether it is a load.
    #[inline(always)]
    fn is_load(self) -> bool
        ensures { result ≡ is_load self }
    {
        match self {
            Entry::Load { .. } => true,
            _ => false,
        }
    }

    /// One for a load, and none for the others.
    #[inline]
    fn loads(self) -> usize
        ensures count { result ≡ loads (self ∷ []) }
        ensures least { result ≤ entry_units self }
    {
        match self {
            Entry::Call(_) => 0,
            Entry::Value(_) => 0,
            Entry::Loop { .. } => 0,
            Entry::Load { .. } => 1,
        }
    }
}

/// A stack of entries that take up to 256 units in all. Contracts see it as a list, the top first.
/// Rule: LANGUAGE, Running a body; LANGUAGE, Limits; SEMANTICS, Data space and stacks.
#[derive(Drop)]
pub struct ReturnStack {
    // an entry lies at the place of its last unit, so the place of the top is the number of all units
    places: [Entry; PLACES],
    units: usize,
}

impl Model for ReturnStack {
    ghost use Rattle.std.specs.Prelude.{List, ◌≡◌, ◌≤◌};
    ghost use Rattle.stacks.specs.declared.return_stack.Entry.{Entry};
    ghost use Rattle.stacks.specs.Entries.{entries_in, IsGround};

    ghost Value = { List Entry };

    ghost use Rattle.stacks.specs.Stacks.{units as units_of};

    ghost view = { λ s. entries_in 256 s.places s.units };

    ghost invariant = { λ s. (units_of (entries_in 256 s.places s.units) ≡ s.units) × (s.units ≤ 256) × IsGround s.places };
}

impl ReturnStack {
    /// An empty stack.
    pub fn new() -> Self
        ensures { result ≡ [] }
    {
        ReturnStack {
            places: [Entry::Load { block: 0, to_in: 0 }; PLACES],
            units: 0,
        }
    }

    /// How many units all entries take, from 0 to 256.
    #[inline(always)]
    pub fn units(&self) -> usize
        ensures value { result ≡ units self.now }
        ensures fits { result ≤ 256 }
    {
        self.units // of all entries, as push and pop keep it
    }

    /// Puts an entry on top. `Full` where it would need more units than are left; the stack then is as it was.
    #[inline(always)]
    pub fn push(&mut self, entry: Entry) -> Result<(), StackFault>
        ensures room { IsOk result ↔ (units self.old + entry_units entry ≤ 256) }
        ensures ok { OnOk result (self.new ≡ entry ∷ self.old) }
        ensures err { OnErr result (self.new ≡ self.old) }
        ensures fault { IfErr result (λ fault. fault ≡ StackFault.Full) }
    {
        let units = self.units + entry.units();
        if units > CAPACITY {
            return Err(StackFault::Full);
        }
        self.places[units] = entry;
        self.units = units;
        Ok(())
    }

    /// Takes the top entry. `Empty` where there is none.
    #[inline(always)]
    pub fn pop(&mut self) -> Result<Entry, StackFault>
        ensures ok { IfOk result (λ entry. self.old ≡ entry ∷ self.new) }
        ensures empty { OnErr result (self.old ≡ []) }
        ensures err { OnErr result (self.new ≡ self.old) }
        ensures fault { IfErr result (λ fault. fault ≡ StackFault.Empty) }
        ensures bound { units self.old ≤ 256 }
    {
        if self.units == 0 {
            return Err(StackFault::Empty);
        }
        let entry = self.places[self.units];
        self.units -= entry.units();
        Ok(entry)
    }

    /// Takes the call on top, and gives the place to go on at. None where the top is no call; then nothing is changed.
    #[inline(always)]
    pub fn end_call(&mut self) -> Option<u32>
        ensures ok { IfSome result (λ back. self.old ≡ Entry.Call back ∷ self.new) }
        ensures other { IfNone result ((back : ℕ) → top_or_load self.old ≢ Entry.Call back) }
        ensures none { IfNone result (self.new ≡ self.old) }
        ensures bound { units self.old ≤ 256 }
    {
        let Entry::Call(back) = self.places[self.units] else {
            return None;
        };
        self.units -= 1;
        Some(back)
    }

    /// Whether the top is a call, and an entry that is no load lies below it: whether the end of that call goes on in a
    /// body.
    #[inline(always)]
    pub fn is_inner_call(&self) -> bool
        ensures { result ≡ is_inner_call self.now }
    {
        let Entry::Call(_) = self.places[self.units] else {
            return false;
        };
        !self.places[self.units - 1].is_load()
    }

    /// The top entry. `Empty` where there is none.
    #[inline(always)]
    pub fn top(&self) -> Result<Entry, StackFault>
        ensures ok { IfOk result (λ entry. Some entry ≡ slice_get self.now 0) }
        ensures empty { OnErr result (self.now ≡ []) }
        ensures fault { IfErr result (λ fault. fault ≡ StackFault.Empty) }
    {
        if self.units == 0 {
            return Err(StackFault::Empty);
        }
        Ok(self.places[self.units])
    }

    /// The top entry, or a load where there is none.
    #[inline(always)]
    pub fn peek(&self) -> Entry
        ensures { result ≡ top_or_load self.now }
    {
        self.places[self.units] // below the bottom, in place 0, stands a load
    }

    /// The entry below the top. `Empty` where there are fewer than two.
    #[inline(always)]
    pub fn second(&self) -> Result<Entry, StackFault>
        ensures two { IsOk result ↔ (1 < length self.now) }
        ensures ok { IfOk result (λ entry. Some entry ≡ slice_get self.now 1) }
        ensures fault { IfErr result (λ fault. fault ≡ StackFault.Empty) }
    {
        if self.units == 0 {
            return Err(StackFault::Empty);
        }
        let below = self.units - self.places[self.units].units();
        if below == 0 {
            return Err(StackFault::Empty);
        }
        Ok(self.places[below])
    }

    /// Gives the loop on top another index. False where the top is no loop; then nothing is changed.
    #[inline(always)]
    pub fn set_index(&mut self, index: u16) -> bool
        ensures top { result ≡ has_loop self.old }
        ensures after { self.new ≡ (if result then with_index index self.old else self.old) }
    {
        self.places[self.units].set_index(index)
    }

    /// Whether what runs lies below a limit: from this place outwards, where each call goes on in the body around it.
    /// The place behind the last call belongs to no body.
    pub fn calls_below(&self, limit: usize, place: usize) -> bool
        ensures { result ≡ calls_below limit place self.now }
    {
        let mut place = place;
        let mut units = self.units;
        'entries: while units > 0 {
            let entry = self.places[units];
            units -= entry.units();
            let Entry::Call(back) = entry else {
                continue;
            };
            if place >= limit {
                return false;
            }
            place = back as usize;
        }
        true
    }

    /// How many loads there are.
    pub fn loads(&self) -> usize
        ensures { result ≡ loads self.now }
    {
        let mut count = 0;
        let mut units = self.units;
        'entries: while units > 0 {
            let entry = self.places[units];
            units -= entry.units();
            count += entry.loads();
        }
        count
    }

    /// Removes all entries.
    pub fn clear(&mut self)
        ensures { self.new ≡ [] }
    {
        self.units = 0;
    }
}
