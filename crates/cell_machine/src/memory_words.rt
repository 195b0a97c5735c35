//! The words on data space.
//! Rule: LANGUAGE, All words, Memory.

ghost use Rattle.std.specs.Prelude.{◌≡◌, ◌+◌, ◌≤◌, ◌<◌, ◌%◌, length, take, OnOk, OnErr, IfOk, IfErr};
ghost use Rattle.data_space.specs.Space.{cell_at, with_cell, bytes_at, moved_up, moved_down, filled};
ghost use Rattle.system_words.specs.declared.words.MemoryWord.TheVariants.{Fetch, Set, AddTo, FetchByte, SetByte, Count, MoveUp, MoveDown, Fill, Trailing};
ghost use Rattle.system_words.specs.declared.words.Own.TheVariants.{Space, SetCell};
ghost use Rattle.data_space.specs.Blanks.{trimmed};
ghost use Rattle.cell_machine.specs.Deeds.{held, Did, Ended, Short};

use crate::event::{Event, MachineFault};
use crate::operands::Operands;
use data_space::DataSpace;
use system_words::words::MemoryWord;

impl Operands {
    /// A word on data space. Faults: `Steps`, `StackEmpty`, `Steps` again for a word that takes one more for each byte,
    /// then `Address` for a cell at 65,535 or a range that runs past it, then `StackFull`.
    /// Rule: LANGUAGE, All words, Memory; Forth-83 Standard, ! +! @ C! C@ CMOVE CMOVE> COUNT FILL -TRAILING.
    #[inline(always)]
    pub fn on_space(
        &mut self,
        places: &mut [u16],
        space: &mut DataSpace,
        budget: &mut u32,
        word: MemoryWord,
    ) -> Result<(), Event>
        requires sized { length places.old ≡ 257 }
        ensures did { OnOk result (Did (Space word)
            (held places.old self.old.depth self.old.top) space.old budget.old
            (held places.new self.new.depth self.new.top) space.new budget.new) }
        ensures ended { IfErr result (λ e. Ended (Space word) e
            (held places.old self.old.depth self.old.top) space.old budget.old
            (held places.new self.new.depth self.new.top) space.new budget.new) }
    {
        match word {
            MemoryWord::Set => self.store(places, space, budget),
            MemoryWord::AddTo => self.add_to(places, space, budget),
            MemoryWord::Fetch => self.fetch(places, space, budget),
            MemoryWord::SetByte => self.store_byte(places, space, budget),
            MemoryWord::FetchByte => self.fetch_byte(places, space, budget),
            MemoryWord::MoveUp => self.move_up(places, space, budget),
            MemoryWord::MoveDown => self.move_down(places, space, budget),
            MemoryWord::Count => self.count(places, space, budget),
            MemoryWord::Fill => self.fill(places, space, budget),
            MemoryWord::Trailing => self.trailing(places, space, budget),
        }
    }

    /// A word on data space, as `on_space` does it and with its faults, in a function of its own with which no loop is
    /// compiled.
    #[inline(never)]
    pub fn on_space_apart(
        &mut self,
        places: &mut [u16],
        space: &mut DataSpace,
        budget: &mut u32,
        word: MemoryWord,
    ) -> Result<(), Event>
        requires sized { length places.old ≡ 257 }
        ensures did { OnOk result (Did (Space word)
            (held places.old self.old.depth self.old.top) space.old budget.old
            (held places.new self.new.depth self.new.top) space.new budget.new) }
        ensures ended { IfErr result (λ e. Ended (Space word) e
            (held places.old self.old.depth self.old.top) space.old budget.old
            (held places.new self.new.depth self.new.top) space.new budget.new) }
    {
        self.on_space(places, space, budget, word)
    }

    /// `@`
    #[inline(always)]
    fn fetch(
        &mut self,
        places: &mut [u16],
        space: &DataSpace,
        budget: &mut u32,
    ) -> Result<(), Event>
        requires sized { length places.old ≡ 257 }
        ensures did { OnOk result (Did (Space Fetch)
            (held places.old self.old.depth self.old.top) space.now budget.old
            (held places.new self.new.depth self.new.top) space.now budget.new) }
        ensures ended { IfErr result (λ e. Ended (Space Fetch) e
            (held places.old self.old.depth self.old.top) space.now budget.old
            (held places.new self.new.depth self.new.top) space.now budget.new) }
    {
        self.begin(budget, 1)?;
        self.top = read_cell(space, self.top)?;
        Ok(())
    }

    /// `!`
    #[inline(always)]
    fn store(
        &mut self,
        places: &mut [u16],
        space: &mut DataSpace,
        budget: &mut u32,
    ) -> Result<(), Event>
        requires sized { length places.old ≡ 257 }
        ensures did { OnOk result (Did (Space Set)
            (held places.old self.old.depth self.old.top) space.old budget.old
            (held places.new self.new.depth self.new.top) space.new budget.new) }
        ensures ended { IfErr result (λ e. Ended (Space Set) e
            (held places.old self.old.depth self.old.top) space.old budget.old
            (held places.new self.new.depth self.new.top) space.new budget.new) }
    {
        self.begin(budget, 2)?;
        write_cell(space, self.top, places[self.depth - 1])?;
        self.drop_two(places);
        Ok(())
    }

    /// `+!`
    #[inline(always)]
    fn add_to(
        &mut self,
        places: &mut [u16],
        space: &mut DataSpace,
        budget: &mut u32,
    ) -> Result<(), Event>
        requires sized { length places.old ≡ 257 }
        ensures did { OnOk result (Did (Space AddTo)
            (held places.old self.old.depth self.old.top) space.old budget.old
            (held places.new self.new.depth self.new.top) space.new budget.new) }
        ensures ended { IfErr result (λ e. Ended (Space AddTo) e
            (held places.old self.old.depth self.old.top) space.old budget.old
            (held places.new self.new.depth self.new.top) space.new budget.new) }
    {
        self.begin(budget, 2)?;
        let w = read_cell(space, self.top)?;
        write_cell(space, self.top, w.wrapping_add(places[self.depth - 1]))?;
        self.drop_two(places);
        Ok(())
    }

    /// `C@`
    #[inline(always)]
    fn fetch_byte(
        &mut self,
        places: &mut [u16],
        space: &DataSpace,
        budget: &mut u32,
    ) -> Result<(), Event>
        requires sized { length places.old ≡ 257 }
        ensures did { OnOk result (Did (Space FetchByte)
            (held places.old self.old.depth self.old.top) space.now budget.old
            (held places.new self.new.depth self.new.top) space.now budget.new) }
        ensures ended { IfErr result (λ e. Ended (Space FetchByte) e
            (held places.old self.old.depth self.old.top) space.now budget.old
            (held places.new self.new.depth self.new.top) space.now budget.new) }
    {
        self.begin(budget, 1)?;
        self.top = u16::from(space.byte(self.top));
        Ok(())
    }

    /// `C!`
    #[inline(always)]
    fn store_byte(
        &mut self,
        places: &mut [u16],
        space: &mut DataSpace,
        budget: &mut u32,
    ) -> Result<(), Event>
        requires sized { length places.old ≡ 257 }
        ensures did { OnOk result (Did (Space SetByte)
            (held places.old self.old.depth self.old.top) space.old budget.old
            (held places.new self.new.depth self.new.top) space.new budget.new) }
        ensures ended { IfErr result (λ e. Ended (Space SetByte) e
            (held places.old self.old.depth self.old.top) space.old budget.old
            (held places.new self.new.depth self.new.top) space.new budget.new) }
    {
        self.begin(budget, 2)?;
        space.set_byte(self.top, low_byte(places[self.depth - 1]));
        self.drop_two(places);
        Ok(())
    }

    /// `COUNT`
    #[inline(always)]
    fn count(
        &mut self,
        places: &mut [u16],
        space: &DataSpace,
        budget: &mut u32,
    ) -> Result<(), Event>
        requires sized { length places.old ≡ 257 }
        ensures did { OnOk result (Did (Space Count)
            (held places.old self.old.depth self.old.top) space.now budget.old
            (held places.new self.new.depth self.new.top) space.now budget.new) }
        ensures ended { IfErr result (λ e. Ended (Space Count) e
            (held places.old self.old.depth self.old.top) space.now budget.old
            (held places.new self.new.depth self.new.top) space.now budget.new) }
    {
        self.begin(budget, 1)?;
        let size = u16::from(space.byte(self.top));
        self.top = self.top.wrapping_add(1);
        self.push(places, size)
    }

    /// `CMOVE`
    #[inline]
    fn move_up(
        &mut self,
        places: &mut [u16],
        space: &mut DataSpace,
        budget: &mut u32,
    ) -> Result<(), Event>
        requires sized { length places.old ≡ 257 }
        ensures did { OnOk result (Did (Space MoveUp)
            (held places.old self.old.depth self.old.top) space.old budget.old
            (held places.new self.new.depth self.new.top) space.new budget.new) }
        ensures ended { IfErr result (λ e. Ended (Space MoveUp) e
            (held places.old self.old.depth self.old.top) space.old budget.old
            (held places.new self.new.depth self.new.top) space.new budget.new) }
    {
        self.begin(budget, 3)?;
        self.pay(budget, self.top)?;
        copy_up(
            space,
            places[self.depth - 2],
            places[self.depth - 1],
            self.top,
        )?;
        self.drop_three(places);
        Ok(())
    }

    /// `CMOVE>`
    #[inline]
    fn move_down(
        &mut self,
        places: &mut [u16],
        space: &mut DataSpace,
        budget: &mut u32,
    ) -> Result<(), Event>
        requires sized { length places.old ≡ 257 }
        ensures did { OnOk result (Did (Space MoveDown)
            (held places.old self.old.depth self.old.top) space.old budget.old
            (held places.new self.new.depth self.new.top) space.new budget.new) }
        ensures ended { IfErr result (λ e. Ended (Space MoveDown) e
            (held places.old self.old.depth self.old.top) space.old budget.old
            (held places.new self.new.depth self.new.top) space.new budget.new) }
    {
        self.begin(budget, 3)?;
        self.pay(budget, self.top)?;
        copy_down(
            space,
            places[self.depth - 2],
            places[self.depth - 1],
            self.top,
        )?;
        self.drop_three(places);
        Ok(())
    }

    /// `FILL`
    #[inline]
    fn fill(
        &mut self,
        places: &mut [u16],
        space: &mut DataSpace,
        budget: &mut u32,
    ) -> Result<(), Event>
        requires sized { length places.old ≡ 257 }
        ensures did { OnOk result (Did (Space Fill)
            (held places.old self.old.depth self.old.top) space.old budget.old
            (held places.new self.new.depth self.new.top) space.new budget.new) }
        ensures ended { IfErr result (λ e. Ended (Space Fill) e
            (held places.old self.old.depth self.old.top) space.old budget.old
            (held places.new self.new.depth self.new.top) space.new budget.new) }
    {
        self.begin(budget, 3)?;
        self.pay(budget, places[self.depth - 1])?;
        fill_range(
            space,
            places[self.depth - 2],
            places[self.depth - 1],
            low_byte(self.top),
        )?;
        self.drop_three(places);
        Ok(())
    }

    /// `-TRAILING`
    #[inline]
    fn trailing(
        &mut self,
        places: &mut [u16],
        space: &DataSpace,
        budget: &mut u32,
    ) -> Result<(), Event>
        requires sized { length places.old ≡ 257 }
        ensures did { OnOk result (Did (Space Trailing)
            (held places.old self.old.depth self.old.top) space.now budget.old
            (held places.new self.new.depth self.new.top) space.now budget.new) }
        ensures ended { IfErr result (λ e. Ended (Space Trailing) e
            (held places.old self.old.depth self.old.top) space.now budget.old
            (held places.new self.new.depth self.new.top) space.now budget.new) }
    {
        self.begin(budget, 2)?;
        self.top = trimmed_size(space, places[self.depth - 1], self.top)?;
        Ok(())
    }

    /// A word that sets the system cell at `a` to `w`, in one step. Faults: `Steps` where none is left, then `Address`
    /// where `a` is 65,535, which no row has.
    /// Rule: LANGUAGE, Memory; Forth-83 Standard, DECIMAL [ ].
    #[inline(always)]
    pub fn set_system_cell(
        &mut self,
        places: &mut [u16],
        space: &mut DataSpace,
        budget: &mut u32,
        a: u16,
        w: u16,
    ) -> Result<(), Event>
        requires sized { length places.old ≡ 257 }
        ensures did { OnOk result (Did (SetCell a w)
            (held places.old self.old.depth self.old.top) space.old budget.old
            (held places.new self.new.depth self.new.top) space.new budget.new) }
        ensures ended { IfErr result (λ e. Ended (SetCell a w) e
            (held places.old self.old.depth self.old.top) space.old budget.old
            (held places.new self.new.depth self.new.top) space.new budget.new) }
    {
        self.begin(budget, 0)?;
        write_cell(space, a, w)
    }
}

/// The cell at an address, or ADDRESS.
#[inline(always)]
fn read_cell(space: &DataSpace, a: u16) -> Result<u16, Event>
    ensures value { IfOk result (λ w. w ≡ cell_at space.now a) }
    ensures within { OnOk result (a + 2 ≤ 65536) }
    ensures outside { OnErr result (65536 < a + 2) }
    ensures fault { IfErr result (λ e. e ≡ Event.Fault MachineFault.Address) }
{
    match space.cell(a) {
        Some(w) => Ok(w),
        None => Err(Event::Fault(MachineFault::Address)),
    }
}

/// Stores a cell, or ADDRESS.
#[inline(always)]
fn write_cell(space: &mut DataSpace, a: u16, w: u16) -> Result<(), Event>
    ensures after { OnOk result (space.new ≡ with_cell space.old a w) }
    ensures within { OnOk result (a + 2 ≤ 65536) }
    ensures outside { OnErr result (65536 < a + 2) }
    ensures same { OnErr result (space.new ≡ space.old) }
    ensures fault { IfErr result (λ e. e ≡ Event.Fault MachineFault.Address) }
{
    if space.set_cell(a, w) {
        return Ok(());
    }
    Err(Event::Fault(MachineFault::Address))
}

/// Copies the lowest byte first, or ADDRESS.
#[inline(always)]
fn copy_up(space: &mut DataSpace, from: u16, to: u16, n: u16) -> Result<(), Event>
    ensures after { OnOk result (space.new ≡ moved_up space.old from to n) }
    ensures source { OnOk result (from + n ≤ 65536) }
    ensures target { OnOk result (to + n ≤ 65536) }
    ensures outside { OnErr result ((from + n ≤ 65536) × (to + n ≤ 65536) → ⊥) }
    ensures same { OnErr result (space.new ≡ space.old) }
    ensures fault { IfErr result (λ e. e ≡ Event.Fault MachineFault.Address) }
{
    if space.move_up(from, to, n) {
        return Ok(());
    }
    Err(Event::Fault(MachineFault::Address))
}

/// Copies the highest byte first, or ADDRESS.
#[inline(always)]
fn copy_down(space: &mut DataSpace, from: u16, to: u16, n: u16) -> Result<(), Event>
    ensures after { OnOk result (space.new ≡ moved_down space.old from to n) }
    ensures source { OnOk result (from + n ≤ 65536) }
    ensures target { OnOk result (to + n ≤ 65536) }
    ensures outside { OnErr result ((from + n ≤ 65536) × (to + n ≤ 65536) → ⊥) }
    ensures same { OnErr result (space.new ≡ space.old) }
    ensures fault { IfErr result (λ e. e ≡ Event.Fault MachineFault.Address) }
{
    if space.move_down(from, to, n) {
        return Ok(());
    }
    Err(Event::Fault(MachineFault::Address))
}

/// Stores a byte `n` times, or ADDRESS.
#[inline(always)]
fn fill_range(space: &mut DataSpace, a: u16, n: u16, b: u8) -> Result<(), Event>
    ensures after { OnOk result (space.new ≡ filled space.old a n b) }
    ensures within { OnOk result (a + n ≤ 65536) }
    ensures outside { OnErr result (65536 < a + n) }
    ensures same { OnErr result (space.new ≡ space.old) }
    ensures fault { IfErr result (λ e. e ≡ Event.Fault MachineFault.Address) }
{
    if space.fill(a, n, b) {
        return Ok(());
    }
    Err(Event::Fault(MachineFault::Address))
}

/// How many bytes of a range are left without the blanks at its end, or ADDRESS.
#[inline(always)]
fn trimmed_size(space: &DataSpace, a: u16, n: u16) -> Result<u16, Event>
    ensures value { IfOk result (λ w. w ≡ trimmed (bytes_at space.now a n)) }
    ensures within { OnOk result (a + n ≤ 65536) }
    ensures outside { OnErr result (65536 < a + n) }
    ensures fault { IfErr result (λ e. e ≡ Event.Fault MachineFault.Address) }
{
    match space.slice(a, n) {
        Some(bytes) => Ok(without_blanks(bytes)),
        None => Err(Event::Fault(MachineFault::Address)),
    }
}

/// The low byte of a cell.
#[inline(always)]
fn low_byte(w: u16) -> u8
    ensures { result ≡ w % 256 }
{
    (w & 255) as u8
}

/// How many bytes are left without the blanks at the end.
#[tactic(auto, using(data_space::proofs::Trims::trimmed_last, data_space::proofs::Trims::trimmed_blank))]
fn without_blanks(bytes: &[u8]) -> u16
    requires { length bytes.now < 65536 }
    ensures { result ≡ trimmed bytes.now }
{
    let mut count = bytes.len();
    while count > 0 && bytes[count - 1] == 32 {
        count -= 1;
    }
    count as u16
}
