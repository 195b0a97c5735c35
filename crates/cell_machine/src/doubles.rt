//! Words of doubles and of quotients.
//! Rule: LANGUAGE, Arithmetic.

ghost use Rattle.std.specs.Prelude.{◌≡◌, ◌+◌, ◌-◌, ◌*◌, ◌≤◌, ℕ, List, length, unsigned_abs, int_lt, OnOk, OnErr, IfOk, IfErr, ◌*ℤ◌, ◌^◌};
ghost use Rattle.system_words.specs.declared.words.Divide.TheVariants.{Quotient, Remainder, Both, Scaled, ScaledBoth, UnsignedDouble};
ghost use Rattle.system_words.specs.declared.words.Wide.TheVariants.{WideProduct, WideAdd, WideNegate, WideLess};
ghost use Rattle.system_words.specs.declared.words.Own.TheVariants.{Division, Double};
ghost use Rattle.cell_machine.specs.Cells.{signed, double, signed_double, low, high, divided};
ghost use Rattle.cell_machine.specs.Effects.{unsigned_divided};
ghost use Rattle.cell_machine.specs.Deeds.{held, Did, Ended, Short};

use crate::cells::truth;
use crate::division;
use crate::event::{Event, MachineFault};
use crate::operands::Operands;
use system_words::words::{Divide, Wide};

/// A signed cell.
#[inline(always)]
fn signed(w: u16) -> i32
    ensures value { result ≡ signed w }
    ensures size { unsigned_abs result ≤ 32768 }
{
    i32::from(w.cast_signed())
}

/// A double.
#[inline(always)]
fn join(low: u16, high: u16) -> u32
    ensures { result ≡ double low high }
{
    (u32::from(high) << 16) | u32::from(low)
}

/// The low cell of a double.
#[inline(always)]
fn low_half(d: u32) -> u16
    ensures { result ≡ low d }
{
    (d & 65535) as u16
}

/// The high cell of a double.
#[inline(always)]
fn high_half(d: u32) -> u16
    ensures { result ≡ high d }
{
    (d >> 16) as u16
}

/// Quotient and remainder of an unsigned double; None where the divisor is 0 or the quotient is no cell.
#[inline(always)]
fn divide_unsigned(d: u32, u: u16) -> Option<(u16, u16)>
    ensures { result ≡ unsigned_divided d u }
{
    let high = d >> 16;
    if high >= u32::from(u) {
        return None;
    }
    Some(((d / u32::from(u)) as u16, (d % u32::from(u)) as u16))
}

/// Whether one signed double is below another one.
#[inline(always)]
fn is_less(a: u32, b: u32) -> bool
    ensures { result ≡ int_lt (signed_double a) (signed_double b) }
{
    a.cast_signed() < b.cast_signed()
}

/// Quotient and remainder, or DIVISION.
#[inline(always)]
fn divide_cells(a: u16, b: u16) -> Result<(u16, u16), Event>
    ensures parts { IfOk result (λ p. divided (signed a) (signed b) ≡ Some (p.0, p.1)) }
    ensures none { OnErr result (divided (signed a) (signed b) ≡ None) }
    ensures fault { IfErr result (λ e. e ≡ Event.Fault MachineFault.Division) }
{
    match division::divide(signed(a), signed(b)) {
        Some(parts) => Ok(parts),
        None => Err(Event::Fault(MachineFault::Division)),
    }
}

/// The product of the first two by the third: quotient and remainder, or DIVISION.
#[inline(always)]
fn scale_cells(a: u16, b: u16, c: u16) -> Result<(u16, u16), Event>
    ensures parts { IfOk result (λ p. divided (signed a *ℤ signed b) (signed c) ≡ Some (p.0, p.1)) }
    ensures none { OnErr result (divided (signed a *ℤ signed b) (signed c) ≡ None) }
    ensures fault { IfErr result (λ e. e ≡ Event.Fault MachineFault.Division) }
{
    match division::divide(product(signed(a), signed(b)), signed(c)) {
        Some(parts) => Ok(parts),
        None => Err(Event::Fault(MachineFault::Division)),
    }
}

/// A product of two signed cells.
#[inline(always)]
fn product(a: i32, b: i32) -> i32
    requires a_small { unsigned_abs a ≤ 32768 }
    requires b_small { unsigned_abs b ≤ 32768 }
    ensures value { result ≡ a *ℤ b }
    ensures size { unsigned_abs result ≤ 1073741824 }
{
    a * b
}

/// Quotient and remainder of an unsigned double, or DIVISION.
#[inline(always)]
fn divide_double(low: u16, high: u16, by: u16) -> Result<(u16, u16), Event>
    ensures parts { IfOk result (λ p. unsigned_divided (double low high) by ≡ Some (p.0, p.1)) }
    ensures none { OnErr result (unsigned_divided (double low high) by ≡ None) }
    ensures fault { IfErr result (λ e. e ≡ Event.Fault MachineFault.Division) }
{
    match divide_unsigned(join(low, high), by) {
        Some(parts) => Ok(parts),
        None => Err(Event::Fault(MachineFault::Division)),
    }
}

impl Operands {
    /// A word that divides. Faults: `Steps`, `StackEmpty`, then `Division` where the divisor is 0 or the quotient is
    /// out of range.
    /// Rule: LANGUAGE, Arithmetic; Forth-83 Standard, / MOD /MOD */ */MOD UM/MOD.
    #[inline(always)]
    pub fn division(
        &mut self,
        places: &mut [u16],
        budget: &mut u32,
        word: Divide,
    ) -> Result<(), Event>
        requires sized { length places.old ≡ 257 }
        ensures did { OnOk result ((space : List ℕ) → Did (Division word)
            (held places.old self.old.depth self.old.top) space budget.old
            (held places.new self.new.depth self.new.top) space budget.new) }
        ensures ended { IfErr result (λ e. (space : List ℕ) → Ended (Division word) e
            (held places.old self.old.depth self.old.top) space budget.old
            (held places.new self.new.depth self.new.top) space budget.new) }
    {
        match word {
            Divide::Scaled => self.scale(places, budget),
            Divide::ScaledBoth => self.scale_both(places, budget),
            Divide::Quotient => self.divide(places, budget),
            Divide::Both => self.divide_both(places, budget),
            Divide::Remainder => self.remainder(places, budget),
            Divide::UnsignedDouble => self.divide_unsigned(places, budget),
        }
    }

    /// A word on doubles, of which each is two cells, the most significant one on top. Faults: `Steps`, then
    /// `StackEmpty`.
    /// Rule: LANGUAGE, Arithmetic; LANGUAGE, Cells and addresses; Forth-83 Standard, D+ D< DNEGATE UM*.
    #[inline(always)]
    pub fn double(&mut self, places: &mut [u16], budget: &mut u32, word: Wide) -> Result<(), Event>
        requires sized { length places.old ≡ 257 }
        ensures did { OnOk result ((space : List ℕ) → Did (Double word)
            (held places.old self.old.depth self.old.top) space budget.old
            (held places.new self.new.depth self.new.top) space budget.new) }
        ensures ended { IfErr result (λ e. (space : List ℕ) → Ended (Double word) e
            (held places.old self.old.depth self.old.top) space budget.old
            (held places.new self.new.depth self.new.top) space budget.new) }
    {
        match word {
            Wide::WideAdd => self.add_wide(places, budget),
            Wide::WideLess => self.less_wide(places, budget),
            Wide::WideNegate => self.negate_wide(places, budget),
            Wide::WideProduct => self.multiply_wide(places, budget),
        }
    }

    /// `/`
    #[inline(always)]
    fn divide(&mut self, places: &mut [u16], budget: &mut u32) -> Result<(), Event>
        requires sized { length places.old ≡ 257 }
        ensures did { OnOk result ((space : List ℕ) → Did (Division Quotient)
            (held places.old self.old.depth self.old.top) space budget.old
            (held places.new self.new.depth self.new.top) space budget.new) }
        ensures ended { IfErr result (λ e. (space : List ℕ) → Ended (Division Quotient) e
            (held places.old self.old.depth self.old.top) space budget.old
            (held places.new self.new.depth self.new.top) space budget.new) }
    {
        self.begin(budget, 2)?;
        let (quot, _) = divide_cells(places[self.depth - 1], self.top)?;
        self.depth -= 1;
        self.top = quot;
        Ok(())
    }

    /// `MOD`
    #[inline(always)]
    fn remainder(&mut self, places: &mut [u16], budget: &mut u32) -> Result<(), Event>
        requires sized { length places.old ≡ 257 }
        ensures did { OnOk result ((space : List ℕ) → Did (Division Remainder)
            (held places.old self.old.depth self.old.top) space budget.old
            (held places.new self.new.depth self.new.top) space budget.new) }
        ensures ended { IfErr result (λ e. (space : List ℕ) → Ended (Division Remainder) e
            (held places.old self.old.depth self.old.top) space budget.old
            (held places.new self.new.depth self.new.top) space budget.new) }
    {
        self.begin(budget, 2)?;
        let (_, rem) = divide_cells(places[self.depth - 1], self.top)?;
        self.depth -= 1;
        self.top = rem;
        Ok(())
    }

    /// `/MOD`
    #[inline(always)]
    fn divide_both(&mut self, places: &mut [u16], budget: &mut u32) -> Result<(), Event>
        requires sized { length places.old ≡ 257 }
        ensures did { OnOk result ((space : List ℕ) → Did (Division Both)
            (held places.old self.old.depth self.old.top) space budget.old
            (held places.new self.new.depth self.new.top) space budget.new) }
        ensures ended { IfErr result (λ e. (space : List ℕ) → Ended (Division Both) e
            (held places.old self.old.depth self.old.top) space budget.old
            (held places.new self.new.depth self.new.top) space budget.new) }
    {
        self.begin(budget, 2)?;
        let (quot, rem) = divide_cells(places[self.depth - 1], self.top)?;
        places[self.depth - 1] = rem;
        self.top = quot;
        Ok(())
    }

    /// `*/`
    #[inline(always)]
    fn scale(&mut self, places: &mut [u16], budget: &mut u32) -> Result<(), Event>
        requires sized { length places.old ≡ 257 }
        ensures did { OnOk result ((space : List ℕ) → Did (Division Scaled)
            (held places.old self.old.depth self.old.top) space budget.old
            (held places.new self.new.depth self.new.top) space budget.new) }
        ensures ended { IfErr result (λ e. (space : List ℕ) → Ended (Division Scaled) e
            (held places.old self.old.depth self.old.top) space budget.old
            (held places.new self.new.depth self.new.top) space budget.new) }
    {
        self.begin(budget, 3)?;
        let (quot, _) = scale_cells(places[self.depth - 2], places[self.depth - 1], self.top)?;
        self.depth -= 2;
        self.top = quot;
        Ok(())
    }

    /// `*/MOD`
    #[inline(always)]
    fn scale_both(&mut self, places: &mut [u16], budget: &mut u32) -> Result<(), Event>
        requires sized { length places.old ≡ 257 }
        ensures did { OnOk result ((space : List ℕ) → Did (Division ScaledBoth)
            (held places.old self.old.depth self.old.top) space budget.old
            (held places.new self.new.depth self.new.top) space budget.new) }
        ensures ended { IfErr result (λ e. (space : List ℕ) → Ended (Division ScaledBoth) e
            (held places.old self.old.depth self.old.top) space budget.old
            (held places.new self.new.depth self.new.top) space budget.new) }
    {
        self.begin(budget, 3)?;
        let (quot, rem) = scale_cells(places[self.depth - 2], places[self.depth - 1], self.top)?;
        self.depth -= 1;
        places[self.depth - 1] = rem;
        self.top = quot;
        Ok(())
    }

    /// `UM/MOD`
    #[inline(always)]
    fn divide_unsigned(&mut self, places: &mut [u16], budget: &mut u32) -> Result<(), Event>
        requires sized { length places.old ≡ 257 }
        ensures did { OnOk result ((space : List ℕ) → Did (Division UnsignedDouble)
            (held places.old self.old.depth self.old.top) space budget.old
            (held places.new self.new.depth self.new.top) space budget.new) }
        ensures ended { IfErr result (λ e. (space : List ℕ) → Ended (Division UnsignedDouble) e
            (held places.old self.old.depth self.old.top) space budget.old
            (held places.new self.new.depth self.new.top) space budget.new) }
    {
        self.begin(budget, 3)?;
        let (quot, rem) = divide_double(places[self.depth - 2], places[self.depth - 1], self.top)?;
        self.depth -= 1;
        places[self.depth - 1] = rem;
        self.top = quot;
        Ok(())
    }

    /// `UM*`
    #[inline(always)]
    fn multiply_wide(&mut self, places: &mut [u16], budget: &mut u32) -> Result<(), Event>
        requires sized { length places.old ≡ 257 }
        ensures did { OnOk result ((space : List ℕ) → Did (Double WideProduct)
            (held places.old self.old.depth self.old.top) space budget.old
            (held places.new self.new.depth self.new.top) space budget.new) }
        ensures ended { IfErr result (λ e. (space : List ℕ) → Ended (Double WideProduct) e
            (held places.old self.old.depth self.old.top) space budget.old
            (held places.new self.new.depth self.new.top) space budget.new) }
    {
        self.begin(budget, 2)?;
        let d = u32::from(places[self.depth - 1]) * u32::from(self.top);
        places[self.depth - 1] = low_half(d);
        self.top = high_half(d);
        Ok(())
    }

    /// `DNEGATE`
    #[inline(always)]
    fn negate_wide(&mut self, places: &mut [u16], budget: &mut u32) -> Result<(), Event>
        requires sized { length places.old ≡ 257 }
        ensures did { OnOk result ((space : List ℕ) → Did (Double WideNegate)
            (held places.old self.old.depth self.old.top) space budget.old
            (held places.new self.new.depth self.new.top) space budget.new) }
        ensures ended { IfErr result (λ e. (space : List ℕ) → Ended (Double WideNegate) e
            (held places.old self.old.depth self.old.top) space budget.old
            (held places.new self.new.depth self.new.top) space budget.new) }
    {
        self.begin(budget, 2)?;
        let d = join(places[self.depth - 1], self.top).wrapping_neg();
        places[self.depth - 1] = low_half(d);
        self.top = high_half(d);
        Ok(())
    }

    /// `D+`
    #[inline(always)]
    fn add_wide(&mut self, places: &mut [u16], budget: &mut u32) -> Result<(), Event>
        requires sized { length places.old ≡ 257 }
        ensures did { OnOk result ((space : List ℕ) → Did (Double WideAdd)
            (held places.old self.old.depth self.old.top) space budget.old
            (held places.new self.new.depth self.new.top) space budget.new) }
        ensures ended { IfErr result (λ e. (space : List ℕ) → Ended (Double WideAdd) e
            (held places.old self.old.depth self.old.top) space budget.old
            (held places.new self.new.depth self.new.top) space budget.new) }
    {
        self.begin(budget, 4)?;
        let second = join(places[self.depth - 1], self.top);
        let first = join(places[self.depth - 3], places[self.depth - 2]);
        let d = first.wrapping_add(second);
        self.depth -= 2;
        places[self.depth - 1] = low_half(d);
        self.top = high_half(d);
        Ok(())
    }

    /// `D<`
    #[inline(always)]
    fn less_wide(&mut self, places: &mut [u16], budget: &mut u32) -> Result<(), Event>
        requires sized { length places.old ≡ 257 }
        ensures did { OnOk result ((space : List ℕ) → Did (Double WideLess)
            (held places.old self.old.depth self.old.top) space budget.old
            (held places.new self.new.depth self.new.top) space budget.new) }
        ensures ended { IfErr result (λ e. (space : List ℕ) → Ended (Double WideLess) e
            (held places.old self.old.depth self.old.top) space budget.old
            (held places.new self.new.depth self.new.top) space budget.new) }
    {
        self.begin(budget, 4)?;
        let second = join(places[self.depth - 1], self.top);
        let first = join(places[self.depth - 3], places[self.depth - 2]);
        self.depth -= 3;
        self.top = truth(is_less(first, second));
        Ok(())
    }
}
