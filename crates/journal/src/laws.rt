//! Laws of the definitions.
//! Rule: SEMANTICS, Laws.
ghost use Rattle.std.specs.Prelude.{◌≡◌, ◌≤◌, ℕ, Bool, true, List, length};
ghost use Rattle.journal.specs.PageLayout.{bits_apart, gate_word, gate_bytes, gate_open, gate_sum, is_gate_of, sum_in};

/// Does nothing. Its contract is a law: a gate of layout 3 of which up to 14 of the first 64 bits changed is read as it
/// was written.
pub fn gate_at_rest()
    ensures { (is_open : Bool) (gate : List ℕ) → bits_apart gate (gate_word is_open) ≤ 14
        → gate_open gate ≡ is_open }
{}

/// Does nothing. Its contract is laws: a gate of layout 3 as it is written is read so whatever sum it has, and is of
/// the record whose sum it has; and one that is of a record has the sum of this record.
pub fn gate_of_a_record()
    ensures read { (is_open : Bool) (sum : List ℕ) → gate_open (gate_bytes is_open sum) ≡ is_open }
    ensures written { (is_open : Bool) (listing : List ℕ) → length (sum_in listing) ≡ 32
        → is_gate_of (gate_bytes is_open (sum_in listing)) listing ≡ true }
    ensures told { (gate listing : List ℕ) → is_gate_of gate listing ≡ true → gate_sum gate ≡ sum_in listing }
{}
