//! A word that was entered by itself.

ghost use Rattle.std.specs.Prelude.{◌≡◌, ℕ, List, length, OnOk, IfErr};
ghost use Rattle.stacks.specs.Stacks.{units};
ghost use Rattle.system_words.specs.declared.words.Return.{Return as ListWord};
ghost use Rattle.system_words.specs.declared.words.Own.TheVariants.{OnList};
ghost use Rattle.system_words.specs.declared.words.Return.TheVariants.{ToReturn};
ghost use Rattle.cell_machine.specs.Effects.{arity};
ghost use Rattle.cell_machine.specs.Events.{core_of};
ghost use Rattle.cell_machine.specs.Deeds.{held};
ghost use Rattle.cell_machine.specs.Moves.{OnceDid, OnceEnded};

use crate::event::{Event, MachineFault};
use crate::operands::Operands;
use crate::primitives::list_word;
use data_space::DataSpace;
use stacks::ReturnStack;
use system_words::words::{Own, Return};

/// A word of the machine's own by itself: nothing is put aside for it, so `R>`, `R@`, `I` and `J`, once their step is
/// paid, are always `ReturnStack`, and what `>R` puts aside is gone with it. Its other faults are those that it has in
/// a body.
/// Rule: LANGUAGE, Running a body; LANGUAGE, How a word is checked.
#[inline(never)]
pub fn once(
    word: Own,
    operands: &mut Operands,
    places: &mut [u16],
    returns: &ReturnStack,
    space: &mut DataSpace,
    budget: &mut u32,
) -> Result<(), Event>
    requires sized { length places.old ≡ 257 }
    ensures did { OnOk result (OnceDid word (units returns.now)
        (core_of (held places.old operands.old.depth operands.old.top) space.old budget.old)
        (core_of (held places.new operands.new.depth operands.new.top) space.new budget.new)) }
    ensures ended { IfErr result (λ e. OnceEnded word e (units returns.now)
        (core_of (held places.old operands.old.depth operands.old.top) space.old budget.old)
        (core_of (held places.new operands.new.depth operands.new.top) space.new budget.new)) }
{
    match list_word(word) {
        Some(word) => on_list(word, operands, places, returns, budget),
        None => operands.apart(places, space, budget, word),
    }
}

/// A word on what is put aside.
fn on_list(
    word: Return,
    operands: &mut Operands,
    places: &mut [u16],
    returns: &ReturnStack,
    budget: &mut u32,
) -> Result<(), Event>
    requires sized { length places.old ≡ 257 }
    ensures did { OnOk result ((space : List ℕ) → OnceDid (OnList word) (units returns.now)
        (core_of (held places.old operands.old.depth operands.old.top) space budget.old)
        (core_of (held places.new operands.new.depth operands.new.top) space budget.new)) }
    ensures ended { IfErr result (λ e. (space : List ℕ) → OnceEnded (OnList word) e (units returns.now)
        (core_of (held places.old operands.old.depth operands.old.top) space budget.old)
        (core_of (held places.new operands.new.depth operands.new.top) space budget.new)) }
{
    match word {
        Return::ToReturn => to_return(operands, places, returns, budget),
        Return::Index => nothing_aside(operands, budget),
        Return::OuterIndex => nothing_aside(operands, budget),
        Return::FromReturn => nothing_aside(operands, budget),
        Return::CopyReturn => nothing_aside(operands, budget),
    }
}

/// `>R` takes the cell and needs a unit; the word ends at once, and the unit is given back.
#[tactic(auto, using(crate::proofs::Onces::to_return_did, crate::proofs::Onces::to_return_short, crate::proofs::Onces::to_return_full))]
fn to_return(
    operands: &mut Operands,
    places: &mut [u16],
    returns: &ReturnStack,
    budget: &mut u32,
) -> Result<(), Event>
    requires sized { length places.old ≡ 257 }
    ensures did { OnOk result ((space : List ℕ) → OnceDid (OnList ToReturn) (units returns.now)
        (core_of (held places.old operands.old.depth operands.old.top) space budget.old)
        (core_of (held places.new operands.new.depth operands.new.top) space budget.new)) }
    ensures ended { IfErr result (λ e. (space : List ℕ) → OnceEnded (OnList ToReturn) e (units returns.now)
        (core_of (held places.old operands.old.depth operands.old.top) space budget.old)
        (core_of (held places.new operands.new.depth operands.new.top) space budget.new)) }
{
    operands.begin(budget, 1)?;
    if returns.units() >= 256 {
        return Err(Event::Fault(MachineFault::ReturnStack));
    }
    operands.drop_one(places);
    Ok(())
}

/// `R>`, `R@`, `I` and `J`, which take no cell, find nothing put aside.
#[tactic(auto, using(crate::proofs::Onces::nothing_short, crate::proofs::Onces::nothing_aside))]
fn nothing_aside(operands: &mut Operands, budget: &mut u32) -> Result<(), Event>
    ensures did { OnOk result ⊥ }
    ensures ended { IfErr result (λ e. (word : ListWord) → arity (OnList word) ≡ 0
        → (units : ℕ) (places space : List ℕ) → OnceEnded (OnList word) e units
        (core_of (held places operands.old.depth operands.old.top) space budget.old)
        (core_of (held places operands.new.depth operands.new.top) space budget.new)) }
{
    operands.begin(budget, 0)?;
    Err(Event::Fault(MachineFault::ReturnStack))
}
