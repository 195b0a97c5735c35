//! Laws of the definitions that the contracts cite. The functions do nothing; a caller's proof cites their clauses.
//! Rule: SEMANTICS, Laws.
ghost use Rattle.std.specs.Prelude.{◌≡◌, ◌+◌, ◌<◌, ◌≤◌, [], ◌∷◌, List, ℕ, length, slice_index, slice_set};
ghost use Rattle.stacks.specs.Places.{stack_in};

/// How the stack that lies in lent places changes as the depth and the places do.
#[inline]
pub fn lent_places()
    ensures empty { (places : List ℕ) → stack_in places 0 ≡ [] }
    ensures top { (places : List ℕ) (depth : ℕ)
        → stack_in places (depth + 1) ≡ slice_index places (depth + 1) ∷ stack_in places depth }
    ensures count { (places : List ℕ) (depth : ℕ) → length (stack_in places depth) ≡ depth }
    // a store above the top does not show
    ensures above { (places : List ℕ) (depth place cell : ℕ) → depth < place
        → stack_in (slice_set places place cell) depth ≡ stack_in places depth }
    // and one just above it puts a cell on top, once the depth counts it
    ensures pushed { (places : List ℕ) (depth cell : ℕ) → depth + 1 < length places
        → stack_in (slice_set places (depth + 1) cell) (depth + 1) ≡ cell ∷ stack_in places depth }
{}
