//! The words on what the running body has put aside.
//! Rule: LANGUAGE, Running a body.

ghost use Rattle.std.specs.Prelude.{◌≡◌, ℕ, List, length, OnOk, IfErr};
ghost use Rattle.system_words.specs.declared.words.Return.TheVariants.{ToReturn, FromReturn, CopyReturn, Index, OuterIndex};
ghost use Rattle.system_words.specs.declared.words.Own.TheVariants.{OnList};
ghost use Rattle.cell_machine.specs.Events.{core_of};
ghost use Rattle.cell_machine.specs.Deeds.{held};
ghost use Rattle.cell_machine.specs.Moves.{Changed, Broke};

use crate::event::Event;
use crate::operands::Operands;
use crate::returns::{drop_top, outer_index, push_entry, top_index, top_value};
use stacks::{Entry, ReturnStack};
use system_words::words::Return;

impl Operands {
    /// A word on what the running body has put aside, which are the entries above the newest call. Faults: `Steps`,
    /// `StackEmpty`, then `ReturnStack` where the newest entry (of `J` the two newest) isn't what the word wants, or
    /// for `>R` where 256 units are used, then `StackFull`.
    /// Rule: LANGUAGE, Running a body; Forth-83 Standard, >R R> R@ I J.
    #[inline(always)]
    pub fn on_list(
        &mut self,
        places: &mut [u16],
        returns: &mut ReturnStack,
        budget: &mut u32,
        word: Return,
    ) -> Result<(), Event>
        requires sized { length places.old ≡ 257 }
        ensures did { OnOk result ((space : List ℕ) → Changed (OnList word) returns.old
            (core_of (held places.old self.old.depth self.old.top) space budget.old) returns.new
            (core_of (held places.new self.new.depth self.new.top) space budget.new)) }
        ensures ended { IfErr result (λ e. (space : List ℕ) → Broke (OnList word) e returns.old
            (core_of (held places.old self.old.depth self.old.top) space budget.old)
            (core_of (held places.new self.new.depth self.new.top) space budget.new)) }
    {
        match word {
            Return::ToReturn => self.to_return(places, returns, budget),
            Return::Index => self.index(places, returns, budget),
            Return::OuterIndex => self.outer_index(places, returns, budget),
            Return::FromReturn => self.from_return(places, returns, budget),
            Return::CopyReturn => self.copy_return(places, returns, budget),
        }
    }

    /// `>R`
    #[inline(always)]
    fn to_return(
        &mut self,
        places: &mut [u16],
        returns: &mut ReturnStack,
        budget: &mut u32,
    ) -> Result<(), Event>
        requires sized { length places.old ≡ 257 }
        ensures did { OnOk result ((space : List ℕ) → Changed (OnList ToReturn) returns.old
            (core_of (held places.old self.old.depth self.old.top) space budget.old) returns.new
            (core_of (held places.new self.new.depth self.new.top) space budget.new)) }
        ensures ended { IfErr result (λ e. (space : List ℕ) → Broke (OnList ToReturn) e returns.old
            (core_of (held places.old self.old.depth self.old.top) space budget.old)
            (core_of (held places.new self.new.depth self.new.top) space budget.new)) }
    {
        self.begin(budget, 1)?;
        push_entry(returns, Entry::Value(self.top))?;
        self.drop_one(places);
        Ok(())
    }

    /// `R>`
    #[inline(always)]
    fn from_return(
        &mut self,
        places: &mut [u16],
        returns: &mut ReturnStack,
        budget: &mut u32,
    ) -> Result<(), Event>
        requires sized { length places.old ≡ 257 }
        ensures did { OnOk result ((space : List ℕ) → Changed (OnList FromReturn) returns.old
            (core_of (held places.old self.old.depth self.old.top) space budget.old) returns.new
            (core_of (held places.new self.new.depth self.new.top) space budget.new)) }
        ensures ended { IfErr result (λ e. (space : List ℕ) → Broke (OnList FromReturn) e returns.old
            (core_of (held places.old self.old.depth self.old.top) space budget.old)
            (core_of (held places.new self.new.depth self.new.top) space budget.new)) }
    {
        self.begin(budget, 0)?;
        let w = top_value(returns)?;
        self.push(places, w)?;
        drop_top(returns);
        Ok(())
    }

    /// `R@`
    #[inline(always)]
    fn copy_return(
        &mut self,
        places: &mut [u16],
        returns: &ReturnStack,
        budget: &mut u32,
    ) -> Result<(), Event>
        requires sized { length places.old ≡ 257 }
        ensures did { OnOk result ((space : List ℕ) → Changed (OnList CopyReturn) returns.now
            (core_of (held places.old self.old.depth self.old.top) space budget.old) returns.now
            (core_of (held places.new self.new.depth self.new.top) space budget.new)) }
        ensures ended { IfErr result (λ e. (space : List ℕ) → Broke (OnList CopyReturn) e returns.now
            (core_of (held places.old self.old.depth self.old.top) space budget.old)
            (core_of (held places.new self.new.depth self.new.top) space budget.new)) }
    {
        self.begin(budget, 0)?;
        let w = top_value(returns)?;
        self.push(places, w)
    }

    /// `I`
    #[inline(always)]
    fn index(
        &mut self,
        places: &mut [u16],
        returns: &ReturnStack,
        budget: &mut u32,
    ) -> Result<(), Event>
        requires sized { length places.old ≡ 257 }
        ensures did { OnOk result ((space : List ℕ) → Changed (OnList Index) returns.now
            (core_of (held places.old self.old.depth self.old.top) space budget.old) returns.now
            (core_of (held places.new self.new.depth self.new.top) space budget.new)) }
        ensures ended { IfErr result (λ e. (space : List ℕ) → Broke (OnList Index) e returns.now
            (core_of (held places.old self.old.depth self.old.top) space budget.old)
            (core_of (held places.new self.new.depth self.new.top) space budget.new)) }
    {
        self.begin(budget, 0)?;
        let i = top_index(returns)?;
        self.push(places, i)
    }

    /// `J`
    #[inline(always)]
    fn outer_index(
        &mut self,
        places: &mut [u16],
        returns: &ReturnStack,
        budget: &mut u32,
    ) -> Result<(), Event>
        requires sized { length places.old ≡ 257 }
        ensures did { OnOk result ((space : List ℕ) → Changed (OnList OuterIndex) returns.now
            (core_of (held places.old self.old.depth self.old.top) space budget.old) returns.now
            (core_of (held places.new self.new.depth self.new.top) space budget.new)) }
        ensures ended { IfErr result (λ e. (space : List ℕ) → Broke (OnList OuterIndex) e returns.now
            (core_of (held places.old self.old.depth self.old.top) space budget.old)
            (core_of (held places.new self.new.depth self.new.top) space budget.new)) }
    {
        self.begin(budget, 0)?;
        let i = outer_index(returns)?;
        self.push(places, i)
    }
}
