//! What a text says as a number.
ghost use Rattle.std.specs.Prelude.{◌≡◌, ◌≤◌, true, false};
ghost use Rattle.number_io.specs.Number.{number, signed_number, is_negative, without_sign, are_digits};
ghost use Rattle.number_io.specs.Digits.{is_digit};
ghost use Rattle.std.specs.List.{list_all};
ghost use Rattle.std.specs.Io.BufRead.{ends_with_byte, strip_last};

use crate::digits::{digit_value, digits_value};

/// A number of one cell or of two, a negative one in two's complement.
#[derive(Clone, Copy, Debug, PartialEq, Eq)]
pub enum Number {
    /// From 0 to 65,535, or with the sign from -32,768 to 0.
    Single(u16),
    /// From 0 to 2^32 - 1, or with the sign from -2^31 to 0.
    Double(u32),
}

/// Why a text gives no number.
#[derive(Clone, Copy, Debug, PartialEq, Eq)]
pub enum NumberFault {
    /// It hasn't the form of a number.
    NotANumber,
    /// It has the form, but the number doesn't fit.
    OutOfRange,
}

/// Reads a number by a base from 2 to 72: an optional `-`, at least one digit of the base, and an optional final `.`
/// that makes it a double number (this project's profile). `OutOfRange` where the form is right but the number doesn't
/// fit, else `NotANumber`.
/// Rule: LANGUAGE, Numbers; SEMANTICS, Numbers.
pub fn read_number(text: &[u8], base: u16) -> Result<Number, NumberFault>
    requires low { 2 ≤ base }
    requires high { base ≤ 72 }
    ensures { result ≡ number base text.now }
{
    let (negative, body) = split_sign(text);
    let (double, digits) = split_point(body);
    if !are_digits(base, digits) {
        return Err(NumberFault::NotANumber);
    }
    match digits_value(digits, base) {
        None => Err(NumberFault::OutOfRange),
        Some(value) if double => double_number(negative, value),
        Some(value) => single_number(negative, value),
    }
}

/// Whether the text has a minus sign, and what follows it.
fn split_sign(text: &[u8]) -> (bool, &[u8])
    ensures sign { result.0 ≡ is_negative text.now }
    ensures rest { result.1.now ≡ without_sign text.now }
{
    match text {
        [b'-', rest @ ..] => (true, rest),
        _ => (false, text),
    }
}

/// Whether the text ends in a point, and what stands before it.
fn split_point(text: &[u8]) -> (bool, &[u8])
    ensures point { result.0 ≡ ends_with_byte 46 text.now }
    ensures digits { result.1.now ≡ strip_last 46 text.now }
{
    match text {
        [digits @ .., b'.'] => (true, digits),
        _ => (false, text),
    }
}

/// Whether the text has a digit, and digits alone.
fn are_digits(base: u16, text: &[u8]) -> bool
    requires { base ≤ 72 }
    ensures { result ≡ are_digits base text.now }
{
    !text.is_empty() && all_digits(base, text)
}

fn all_digits(base: u16, text: &[u8]) -> bool
    requires { base ≤ 72 }
    ensures { result ≡ list_all (is_digit base) text.now }
{
    text.iter().all(|c| is_digit(base, *c))
}

fn is_digit(base: u16, c: u8) -> bool
    requires { base ≤ 72 }
    ensures { result ≡ is_digit base c }
{
    digit_value(c, base).is_some()
}

fn single_number(negative: bool, value: u32) -> Result<Number, NumberFault>
    ensures { result ≡ signed_number negative false value }
{
    if negative && value <= 0x8000 {
        Ok(Number::Single(((0x1_0000 - value) % 0x1_0000) as u16))
    } else if !negative && value < 0x1_0000 {
        Ok(Number::Single(value as u16))
    } else {
        Err(NumberFault::OutOfRange)
    }
}

fn double_number(negative: bool, value: u32) -> Result<Number, NumberFault>
    ensures { result ≡ signed_number negative true value }
{
    if !negative {
        Ok(Number::Double(value))
    } else if value <= 0x8000_0000 {
        Ok(Number::Double(value.wrapping_neg()))
    } else {
        Err(NumberFault::OutOfRange)
    }
}
