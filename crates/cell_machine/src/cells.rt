//! Arithmetic of cells.
//! Rule: LANGUAGE, Cells and addresses.

ghost use Rattle.std.specs.Prelude.{◌≡◌, int_lt};
ghost use Rattle.cell_machine.specs.Cells.{signed, flag, unary, binary};

use system_words::words::{Binary, Unary};

/// A flag as a cell: -1 or 0.
#[inline]
pub fn truth(holds: bool) -> u16
    ensures { result ≡ flag holds }
{
    if holds { 65535 } else { 0 }
}

/// The result of a word of one cell. It wraps at 16 bits, and is signed where the word is.
/// Rule: LANGUAGE, Arithmetic; LANGUAGE, Bits and comparison; Forth-83 Standard, 1+ 1- 2+ 2- 2/ ABS NEGATE NOT 0< 0=
/// 0>.
#[inline(always)]
pub fn apply(word: Unary, w: u16) -> u16
    ensures { result ≡ unary word w }
{
    match word {
        Unary::OneMore => w.wrapping_add(1),
        Unary::OneLess => w.wrapping_sub(1),
        Unary::TwoMore => w.wrapping_add(2),
        Unary::TwoLess => w.wrapping_sub(2),
        Unary::Half => half(w),
        Unary::Below => truth(w >= 32768),
        Unary::Zero => truth(w == 0),
        Unary::Above => truth(w > 0 && w < 32768),
        Unary::Negate => w.wrapping_neg(),
        Unary::Absolute => { if w < 32768 { w } else { w.wrapping_neg() } }
        Unary::Invert => !w,
    }
}

/// The floor of the half of a signed cell.
#[inline]
fn half(w: u16) -> u16
    ensures { result ≡ unary Unary.Half w }
{
    if w < 32768 { w / 2 } else { 32768 + w / 2 }
}

/// Whether one cell is below another one, both read as signed: -32,768 to 32,767.
/// Rule: Forth-83 Standard, <.
#[inline]
pub fn is_less(a: u16, b: u16) -> bool
    ensures { result ≡ int_lt (signed a) (signed b) }
{
    a.cast_signed() < b.cast_signed()
}

/// The result of a word of two cells, of which `b` is the top. It wraps at 16 bits, and is signed where the word is.
/// Rule: LANGUAGE, Arithmetic; LANGUAGE, Bits and comparison; Forth-83 Standard, + - * AND OR XOR < > = U< MAX MIN.
#[inline(always)]
pub fn combine(word: Binary, a: u16, b: u16) -> u16
    ensures { result ≡ binary word a b }
{
    match word {
        Binary::Add => a.wrapping_add(b),
        Binary::Subtract => a.wrapping_sub(b),
        Binary::Multiply => a.wrapping_mul(b),
        Binary::And => a & b,
        Binary::Or => a | b,
        Binary::Xor => a ^ b,
        Binary::Greatest => { if is_less(a, b) { b } else { a } }
        Binary::Least => { if is_less(a, b) { a } else { b } }
        Binary::Less => truth(is_less(a, b)),
        Binary::Greater => truth(is_less(b, a)),
        Binary::Equal => truth(a == b),
        Binary::UnsignedLess => truth(a < b),
    }
}
