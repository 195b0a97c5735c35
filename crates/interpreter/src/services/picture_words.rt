//! Words that write and read numbers.
ghost use Rattle.std.specs.Prelude.{◌≡◌, ◌⊎◌, ◌<◌, ◌≤◌, ◌/◌, ◌%◌, ◌++◌, ◌∷◌, [], length, reverse, IfSome, IfNone};
ghost use Rattle.number_io.specs.Digits.{digit_char};
ghost use Rattle.number_io.specs.Writing.{digits_of, number_text};
ghost use Rattle.interpreter.specs.Pictures.{signed_text};
ghost use Rattle.cell_machine.specs.Cells.{double};

use crate::fault::{Fault, Stop};
use crate::forth::{Forth, Picture};
use crate::system_cells::{BASE, cell_of};
use crate::terminal::Terminal;
use lexicon::PAD_OFFSET;
use number_io::Held;
use sector_disk::SectorDevice;
use system_words::words::PictureWord;

/// How many bytes are held at most.
const CAPACITY: u8 = 66;

/// The digits of a cell, and a blank after them.
fn unsigned_text(cell: u16, base: u16) -> Held
    requires low { 2 ≤ base }
    requires high { base ≤ 72 }
    ensures bytes { result ≡ number_text base cell ++ 32 ∷ [] }
    ensures fits { length result ≤ 17 }
{
    let mut text = Held::new();
    text.hold(b' ');
    text.digits(u32::from(cell), base);
    text
}

/// The digits of a signed cell in a base, with a minus sign where the cell is negative, and a blank after them.
fn signed_text(cell: u16, base: u16) -> Held
    requires low { 2 ≤ base }
    requires high { base ≤ 72 }
    ensures { result ≡ signed_text base cell ++ 32 ∷ [] }
{
    if cell < 0x8000 {
        return unsigned_text(cell, base);
    }
    let mut text = unsigned_text(cell.wrapping_neg(), base);
    text.hold(b'-');
    text
}

impl<D: SectorDevice> Forth<D> {
    ghost use Rattle.data_space.specs.Space.{cell_at};
    ghost use Rattle.system_words.specs.declared.words.PictureWord.TheVariants.{Digit, FinishPicture, Digits, BeginPicture, Convert, HoldByte, Sign};
    ghost use Rattle.system_words.specs.declared.words.TerminalWord.TheVariants.{Dot, UnsignedDot};
    ghost use Rattle.cell_machine.specs.Value.{Did};
    ghost use Rattle.interpreter.specs.Pictures.{convert_from};
    ghost use Rattle.lexicon.specs.Stands.{IsSound};
    ghost use Rattle.interpreter.specs.Pictures.{hold, hold_all, push_double, on_picture};
    ghost use Rattle.interpreter.specs.Terminals.{on_terminal};
    ghost use Rattle.interpreter.specs.ServiceContract.{Alters, Spares, Serves, Continues};

    /// A word on the picture of a number.
    pub(crate) fn on_picture(&mut self, word: PictureWord) -> Result<(), Fault>
        requires sound { IsSound self.old.lexicon }
        ensures alters { Alters (λ a c x. on_picture word c x) result self.old self.new }
        ensures spares { Spares result self.old self.new }
    {
        match word {
            PictureWord::Digit => self.digit(),
            PictureWord::FinishPicture => self.end_picture(),
            PictureWord::Digits => self.digits(),
            PictureWord::BeginPicture => self.begin_picture(),
            PictureWord::Convert => self.convert(),
            PictureWord::HoldByte => self.hold_byte(),
            PictureWord::Sign => self.sign(),
        }
    }

    /// Holds a byte in front of the others, or HOLD.
    pub(crate) fn hold(&mut self, byte: u8) -> Result<(), Fault>
        ensures alters { Alters (λ a c x. hold byte c x (λ c x. Did c x)) result self.old self.new }
        ensures spares { Spares result self.old self.new }
        ensures stack { self.new.stack ≡ self.old.stack }
    {
        let Picture { end, held } = self.picture;
        if held >= CAPACITY {
            return Err(Fault::Hold);
        }
        let held = held + 1;
        self.space
            .set_byte(end.saturating_sub(u16::from(held)), byte);
        self.picture.held = held;
        Ok(())
    }

    /// `HOLD`.
    fn hold_byte(&mut self) -> Result<(), Fault>
        ensures alters { Alters (λ a c x. on_picture HoldByte c x) result self.old self.new }
        ensures spares { Spares result self.old self.new }
    {
        match self.stack.pop() {
            Ok(cell) => self.hold((cell % 256) as u8),
            Err(_) => Err(Fault::StackEmpty),
        }
    }

    /// `SIGN`.
    fn sign(&mut self) -> Result<(), Fault>
        ensures alters { Alters (λ a c x. on_picture Sign c x) result self.old self.new }
        ensures spares { Spares result self.old self.new }
    {
        match self.stack.pop() {
            Ok(cell) => {
                if cell < 32768 {
                    return Ok(());
                }
                self.hold(b'-')
            }
            Err(_) => Err(Fault::StackEmpty),
        }
    }

    /// `BASE`, where it is one.
    fn base(&self) -> Option<u16>
        ensures cell { IfSome result (λ base. base ≡ cell_at self.now.space 16) }
        ensures from { IfSome result (λ base. 2 ≤ base) }
        ensures most { IfSome result (λ base. base ≤ 72) }
        ensures none { IfNone result ((cell_at self.now.space 16 < 2) ⊎ (72 < cell_at self.now.space 16)) }
    {
        let base = cell_of(&self.space, BASE);
        if base < 2 || base > 72 {
            return None;
        }
        Some(base)
    }

    /// `U.`.
    pub(crate) fn unsigned_dot<T: Terminal>(&mut self, terminal: &mut T) -> Result<(), Stop>
        ensures serves { Serves T.Terminal (λ a c x. on_terminal UnsignedDot c x)
            result self.old self.new terminal.old terminal.new }
        ensures continues { Continues T.Terminal result self.old self.new terminal.old terminal.new }
    {
        match self.stack.pop() {
            Ok(cell) => match self.base() {
                Some(base) => self.print(unsigned_text(cell, base).finish(), terminal),
                None => Err(Stop::Fault(Fault::Base)),
            },
            Err(_) => Err(Stop::Fault(Fault::StackEmpty)),
        }
    }

    /// `#`.
    fn digit(&mut self) -> Result<(), Fault>
        ensures alters { Alters (λ a c x. on_picture Digit c x) result self.old self.new }
        ensures spares { Spares result self.old self.new }
    {
        match self.pop_two() {
            Ok((high, low)) => match self.base() {
                Some(base) => self.hold_digit(high, low, base),
                None => Err(Fault::Base),
            },
            Err(fault) => Err(fault),
        }
    }

    /// Holds the last digit of a double number, and leaves the number without it.
    fn hold_digit(&mut self, high: u16, low: u16, base: u16) -> Result<(), Fault>
        requires least { 2 ≤ base }
        requires most { base ≤ 72 }
        requires room { length self.old.stack < 255 }
        ensures alters { Alters
            (λ a c x. hold (digit_char (double low high % base)) c x (λ d y. push_double (double low high / base) d y))
            result self.old self.new }
        ensures spares { Spares result self.old self.new }
    {
        let number = u32::from(high) * 65536 + u32::from(low);
        let base = u32::from(base);
        let digit = number_io::digit_char((number % base) as u8);
        match self.hold(digit) {
            Ok(()) => {
                let rest = number / base;
                self.leave((rest % 65536) as u16);
                self.leave((rest / 65536) as u16);
                Ok(())
            }
            Err(fault) => Err(fault),
        }
    }

    /// `<#`.
    fn begin_picture(&mut self) -> Result<(), Fault>
        requires sound { IsSound self.old.lexicon }
        ensures alters { Alters (λ a c x. on_picture BeginPicture c x) result self.old self.new }
        ensures spares { Spares result self.old self.new }
    {
        self.picture = Picture {
            end: self.lexicon.here() + PAD_OFFSET,
            held: 0,
        };
        Ok(())
    }

    /// `#>`.
    fn end_picture(&mut self) -> Result<(), Fault>
        ensures alters { Alters (λ a c x. on_picture FinishPicture c x) result self.old self.new }
        ensures spares { Spares result self.old self.new }
    {
        match self.pop_two() {
            Ok(_) => {
                let Picture { end, held } = self.picture;
                let held = u16::from(held);
                self.leave(end.saturating_sub(held));
                self.leave(held);
                Ok(())
            }
            Err(fault) => Err(fault),
        }
    }

    /// `#S`.
    fn digits(&mut self) -> Result<(), Fault>
        ensures alters { Alters (λ a c x. on_picture Digits c x) result self.old self.new }
        ensures spares { Spares result self.old self.new }
    {
        match self.pop_two() {
            Ok((high, low)) => match self.base() {
                Some(base) => self.hold_number(high, low, base),
                None => Err(Fault::Base),
            },
            Err(fault) => Err(fault),
        }
    }

    /// Holds a double number, and leaves 0.
    fn hold_number(&mut self, high: u16, low: u16, base: u16) -> Result<(), Fault>
        requires least { 2 ≤ base }
        requires most { base ≤ 72 }
        requires room { length self.old.stack < 255 }
        ensures alters { Alters
            (λ a c x. hold_all (reverse (digits_of base (double low high))) c x (λ d y. push_double 0 d y))
            result self.old self.new }
        ensures spares { Spares result self.old self.new }
    {
        match self.hold_digits(u32::from(high) * 65536 + u32::from(low), base) {
            Ok(()) => {
                self.leave(0);
                self.leave(0);
                Ok(())
            }
            Err(fault) => Err(fault),
        }
    }

    /// Holds the digits of a number, the last one first.
    fn hold_digits(&mut self, number: u32, base: u16) -> Result<(), Fault>
        requires least { 2 ≤ base }
        requires most { base ≤ 72 }
        ensures alters { Alters (λ a c x. hold_all (reverse (digits_of base number)) c x (λ c x. Did c x))
            result self.old self.new }
        ensures spares { Spares result self.old self.new }
        ensures stack { self.new.stack ≡ self.old.stack }
    {
        let base = u32::from(base);
        let mut rest = number;
        while rest >= base {
            match self.hold(number_io::digit_char((rest % base) as u8)) {
                Ok(()) => rest /= base,
                Err(fault) => return Err(fault),
            }
        }
        self.hold(number_io::digit_char(rest as u8))
    }

    /// `CONVERT`.
    fn convert(&mut self) -> Result<(), Fault>
        ensures alters { Alters (λ a c x. on_picture Convert c x) result self.old self.new }
        ensures spares { Spares result self.old self.new }
    {
        match self.pop_three() {
            Ok((address, high, low)) => match self.base() {
                Some(base) => self.convert_from(address, high, low, base),
                None => Err(Fault::Base),
            },
            Err(fault) => Err(fault),
        }
    }

    /// Puts the digits behind an address after those of a double number, and leaves where they end.
    fn convert_from(&mut self, address: u16, high: u16, low: u16, base: u16) -> Result<(), Fault>
        requires least { 2 ≤ base }
        requires most { base ≤ 72 }
        requires room { length self.old.stack < 254 }
        ensures alters { Alters (λ a c x. convert_from base address (double low high) c x) result self.old self.new }
        ensures spares { Spares result self.old self.new }
    {
        let number = u32::from(high) * 65536 + u32::from(low);
        let (_, text) = self.space.bytes().split_at(usize::from(address) + 1);
        let (number, count) = number_io::convert(number, text, base);
        if count >= text.len() {
            return Err(Fault::Address);
        }
        self.leave((number % 65536) as u16);
        self.leave((number / 65536) as u16);
        self.leave(address + 1 + count as u16);
        Ok(())
    }

    /// `.`.
    pub(crate) fn dot<T: Terminal>(&mut self, terminal: &mut T) -> Result<(), Stop>
        ensures serves { Serves T.Terminal (λ a c x. on_terminal Dot c x) result self.old self.new terminal.old terminal.new }
        ensures continues { Continues T.Terminal result self.old self.new terminal.old terminal.new }
    {
        match self.stack.pop() {
            Ok(cell) => match self.base() {
                Some(base) => self.print(signed_text(cell, base).finish(), terminal),
                None => Err(Stop::Fault(Fault::Base)),
            },
            Err(_) => Err(Stop::Fault(Fault::StackEmpty)),
        }
    }
}
