//! The structures that are begun.
//! Rule: LANGUAGE, Definitions and structures; LANGUAGE, Limits.

ghost use Rattle.std.specs.Prelude.{◌≡◌, ◌<◌, ◌≤◌, List, [], ◌∷◌, length, drop, MatchOption, IfOk};

use crate::NoMemory;
use std::alloc::Global;
use std::marker::Model;

/// How many structures may be open at most.
const MOST: usize = 256;

/// A structure that is begun, with the places that its end needs.
#[derive(Clone, Copy)]
pub enum Open {
    /// where the test stands
    If(u16),
    /// where the jump past the second half stands
    Else(u16),
    /// where the loop begins
    Begin(u16),
    /// where the loop begins, and where its test stands
    While(u16, u16),
    /// where `DO` stands, and where the LEAVEs of the loop around it wait, if there is one
    Do(u16, Option<u16>),
}

/// At most 256 structures, innermost first. They lie in the heap, so that a system that is moved doesn't carry them
/// along.
#[derive(Drop)]
pub struct Opens {
    // the outermost at place 0
    places: Vec<Open>,
    depth: usize,
}

impl Model for Opens {
    ghost use Rattle.std.specs.Prelude.{◌≡◌, ◌≤◌, List};
    ghost use Rattle.std.specs.Vec.{vec_len};
    ghost use Rattle.compiler.specs.OpenPlaces.{opens_in};
    ghost use Rattle.compiler.specs.declared.opens.Open.{Open};

    ghost Value = { List Open };

    ghost view = { λ a. opens_in a.places.items a.depth };

    ghost invariant = { λ a. (vec_len a.places ≡ 256) × (a.depth ≤ 256) };
}

impl Opens {
    /// A list with no structure open, in memory for 256 that is taken here once. `NoMemory` where it is refused.
    pub fn new(alloc: Global) -> Result<Opens, NoMemory>
        ensures { IfOk result (λ opens. opens ≡ []) }
    {
        Ok(Opens {
            places: vec![in alloc; Open::Begin(0); MOST]?,
            depth: 0,
        })
    }

    /// How many structures are open, 0 to 256.
    pub fn len(&self) -> usize
        ensures { result ≡ length self.now }
    {
        self.depth
    }

    /// Ends all structures: none is open.
    pub fn clear(&mut self)
        ensures { self.new ≡ [] }
    {
        self.depth = 0;
    }

    /// The innermost structure. None where none is open.
    pub fn innermost(&self) -> Option<Open>
        ensures { MatchOption result (self.now ≡ []) (λ o. (rest : List Open) × (self.now ≡ o ∷ rest)) }
    {
        if self.depth == 0 {
            None
        } else {
            Some(self.places[self.depth - 1])
        }
    }

    /// Begins one more structure, which is the innermost one then. At most 255 are open before.
    pub fn push(&mut self, begun: Open)
        requires { length self.old < 256 }
        ensures { self.new ≡ begun ∷ self.old }
    {
        self.places[self.depth] = begun;
        self.depth += 1;
    }

    /// Ends the innermost structure, if there is one.
    pub fn close(&mut self)
        ensures { self.new ≡ drop 1 self.old }
    {
        self.depth = self.depth.saturating_sub(1);
    }

    /// Puts this one in the place of the innermost structure. There is one.
    pub fn change(&mut self, begun: Open)
        requires { 0 < length self.old }
        ensures { self.new ≡ begun ∷ drop 1 self.old }
    {
        self.places[self.depth - 1] = begun;
    }
}
