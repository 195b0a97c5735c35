//! The data stack.
ghost use Rattle.std.specs.Prelude.{◌≡◌, ◌-◌, ◌<◌, ◌≤◌, ◌↔◌, [], ◌∷◌, List, ℕ, drop, length, slice_index, IsOk, OnOk, OnErr, IfOk, IfErr};
ghost use Rattle.std.specs.Borrow.{sem};
ghost use Rattle.std.specs.List.{refill};
ghost use Rattle.stacks.specs.Stacks.{rolled};
ghost use Rattle.stacks.specs.Places.{stack_in};
ghost use Rattle.stacks.specs.Lending.{LendsPlaces};

use crate::StackFault;
use arrayvec::ArrayVec;
use std::marker::Model;

/// How many cells the data stack holds at most, by this project's profile.
pub const CAPACITY: usize = 256;

/// How many places the cells lie in. Place 0 is below the bottom and no cell's: a caller that keeps the top of the
/// lent stack in a variable of its own may put it back at place `depth`, with no case for the empty stack.
pub const PLACES: usize = CAPACITY + 1;

/// A stack of up to 256 cells of 16 bits. Contracts see it as a list, the top first.
/// Rule: LANGUAGE, Limits; SEMANTICS, Data space and stacks.
#[derive(Drop)]
pub struct DataStack {
    // all places are in use, so that a loan of them neither grows nor shrinks the vector
    places: ArrayVec<u16, PLACES>,
    depth: usize,
}

impl Model for DataStack {
    ghost use Rattle.std.specs.Prelude.{List, ℕ, ◌≡◌, ◌≤◌};
    ghost use Rattle.arrayvec.specs.ArrayVec.{array_vec_len};
    ghost use Rattle.stacks.specs.Places.{stack_in};

    ghost Value = { List ℕ };

    ghost view = { λ s. stack_in s.places.items s.depth };

    ghost invariant = { λ s. (array_vec_len s.places ≡ 257) × (s.depth ≤ 256) };
}

impl DataStack {
    /// An empty stack.
    pub fn new() -> Self
        ensures { result ≡ [] }
    {
        DataStack {
            places: ArrayVec::from_array_in((), [0; PLACES]),
            depth: 0,
        }
    }

    /// How many cells are on the stack, from 0 to 256.
    /// Rule: Forth-83 Standard, DEPTH; LANGUAGE, Limits.
    #[inline]
    pub fn depth(&self) -> usize
        ensures value { result ≡ length self.now }
        ensures fits { result ≤ 256 }
    {
        self.depth // also the place of the top
    }

    /// Puts a cell on top. `Full` where there are 256 cells already; the stack then is as it was.
    #[inline]
    pub fn push(&mut self, cell: u16) -> Result<(), StackFault>
        ensures room { IsOk result ↔ (length self.old < 256) }
        ensures ok { OnOk result (self.new ≡ cell ∷ self.old) }
        ensures err { OnErr result (self.new ≡ self.old) }
        ensures fault { IfErr result (λ fault. fault ≡ StackFault.Full) }
    {
        let depth = self.depth;
        if depth == CAPACITY {
            return Err(StackFault::Full);
        }
        self.places[depth + 1] = cell;
        self.depth = depth + 1;
        Ok(())
    }

    /// Takes the top cell. `Empty` where there is none.
    #[inline]
    pub fn pop(&mut self) -> Result<u16, StackFault>
        ensures ok { IfOk result (λ cell. self.old ≡ cell ∷ self.new) }
        ensures empty { OnErr result (self.old ≡ []) }
        ensures err { OnErr result (self.new ≡ self.old) }
        ensures fault { IfErr result (λ fault. fault ≡ StackFault.Empty) }
        ensures bound { length self.old ≤ 256 }
    {
        let depth = self.depth;
        if depth == 0 {
            return Err(StackFault::Empty);
        }
        self.depth = depth - 1;
        Ok(self.places[depth])
    }

    /// The cell that lies `u` places below the top, as Forth-83's `PICK` counts: 0 is the top. `Empty` where there is
    /// none.
    /// Rule: Forth-83 Standard, PICK.
    #[inline]
    pub fn pick(&self, u: usize) -> Result<u16, StackFault>
        ensures room { IsOk result ↔ (u < length self.now) }
        ensures ok { IfOk result (λ cell. cell ≡ slice_index self.now u) }
        ensures fault { IfErr result (λ fault. fault ≡ StackFault.Empty) }
    {
        let depth = self.depth;
        if u >= depth {
            return Err(StackFault::Empty);
        }
        Ok(self.places[depth - u])
    }

    /// Moves the cell that lies `u` places below the top to the top, as Forth-83's `ROLL` does. `Empty` where there is
    /// none; the stack then is as it was.
    /// Rule: Forth-83 Standard, ROLL.
    pub fn roll(&mut self, u: usize) -> Result<(), StackFault>
        ensures room { IsOk result ↔ (u < length self.old) }
        ensures ok { OnOk result (self.new ≡ rolled u self.old) }
        ensures err { OnErr result (self.new ≡ self.old) }
        ensures fault { IfErr result (λ fault. fault ≡ StackFault.Empty) }
    {
        let depth = self.depth;
        if u >= depth {
            return Err(StackFault::Empty);
        }
        self.places[depth - u..=depth].rotate_left(1);
        Ok(())
    }

    /// Removes all cells.
    pub fn clear(&mut self)
        ensures { self.new ≡ [] }
    {
        self.depth = 0;
    }

    /// Lends all places to a loop that keeps the depth, or the depth and the top, in variables of its own. The bottom
    /// lies at place 1 and the top at place `depth`. Afterwards the stack has all 256 cells that the loop left, until
    /// `keep` says how many of them count.
    /// Rule: DECISIONS, The leaf crates; SEMANTICS, From the definitions to the code.
    #[inline]
    pub fn lend(&mut self) -> &mut [u16]
        ensures* lends { sem 𝓛 (LendsPlaces self.entry result) }
        ensures value { stack_in result.now (length self.old) ≡ self.old }
        ensures len { length result.now ≡ 257 }
    {
        self.depth = CAPACITY;
        self.places.as_mut_slice()
    }

    /// Keeps the lowest cells: `depth` of them, or as many as there are where there are fewer.
    /// Rule: DECISIONS, The leaf crates.
    #[inline]
    pub fn keep(&mut self, depth: usize)
        ensures after { self.new ≡ drop (length self.old - depth) self.old }
        // the stack as the loop left it
        ensures lent { (lent left : List ℕ) → length left ≡ 257 → self.old ≡ stack_in (refill 257 lent left) 256
            → depth ≤ 256 → self.new ≡ stack_in left depth }
    {
        self.depth = self.depth.min(depth);
    }
}

/// Moves the cell that lies `u` places below the top to the top, in lent places that hold `depth` cells, of which it is
/// one.
/// Rule: Forth-83 Standard, ROLL; DECISIONS, The leaf crates.
pub fn roll_in(places: &mut [u16], depth: usize, u: usize)
    requires within { depth < length places.old }
    requires there { u < depth }
    ensures { stack_in places.new depth ≡ rolled u (stack_in places.old depth) }
{
    places[depth - u..=depth].rotate_left(1);
}
