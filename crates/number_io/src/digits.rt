//! Digits and their values, in any base from 2 to 72.
//! Rule: LANGUAGE, Numbers; SEMANTICS, Numbers.
ghost use Rattle.std.specs.Prelude.{◌≡◌, ◌+◌, ◌*◌, ◌<◌, ◌≤◌, ◌%◌, ◌^◌, length, IsTrue, IfSome};
ghost use Rattle.std.specs.Option.{SomeIff};
ghost use Rattle.std.specs.List.{list_all};
ghost use Rattle.number_io.specs.Digits.{digit_char, digit, is_digit, digits_value, front_digits, converted};

/// The value of a byte as a digit in the base, 72 or less. None where it is no digit there: `0` to `9` are 0 to 9, and
/// the bytes from `A` on 10 to 71.
pub fn digit_value(c: u8, base: u16) -> Option<u8>
    requires { base ≤ 72 }
    ensures value { SomeIff result (IsTrue (is_digit base c)) (digit c) }
    ensures digit { IfSome result (λ d. digit_char d ≡ c) }
    ensures below { IfSome result (λ d. d < base) }
{
    let value = match c {
        b'0'..=b'9' => c - b'0',
        65..=255 => c - 55,
        _ => return None,
    };
    if u16::from(value) < base {
        Some(value)
    } else {
        None
    }
}

/// The digit of a value below 72: the inverse of `digit_value`.
pub fn digit_char(d: u8) -> u8
    requires { d < 72 }
    ensures { result ≡ digit_char d }
{
    if d < 10 { b'0' + d } else { 55 + d }
}

/// Puts the digits at the front of a text, by a base from 2 to 72, after those of a double number, modulo 2^32, and
/// counts them, as Forth-83's `CONVERT` does. The first byte that is no digit in the base ends them.
/// Rule: Forth-83 Standard, CONVERT; SEMANTICS, Numbers.
pub fn convert(d: u32, text: &[u8], base: u16) -> (u32, usize)
    requires low { 2 ≤ base }
    requires high { base ≤ 72 }
    ensures value { result.0 ≡ converted base d (front_digits base text.now) }
    ensures count { result.1 ≡ length (front_digits base text.now) }
{
    let mut value = d;
    let mut count = 0;
    while count < text.len() {
        let Some(v) = digit_value(text[count], base) else {
            break;
        };
        value = longer(value, base, v);
        count += 1;
    }
    (value, count)
}

/// A double number with one more digit.
fn longer(value: u32, base: u16, d: u8) -> u32
    requires { base ≤ 72 }
    ensures { result ≡ (value * base + d) % 2 ^ 32 }
{
    let long = u64::from(value) * u64::from(base) + u64::from(d);
    (long % 0x1_0000_0000) as u32
}

/// The value of a text of digits, where it fits.
pub(crate) fn digits_value(digits: &[u8], base: u16) -> Option<u32>
    requires low { 2 ≤ base }
    requires high { base ≤ 72 }
    requires digits { IsTrue (list_all (is_digit base) digits.now) }
    ensures { SomeIff result (digits_value base digits.now < 2 ^ 32) (digits_value base digits.now) }
{
    let mut value = 0u32;
    let mut rest = digits;
    while let [c, others @ ..] = rest {
        let Some(longer) = shifted_in(value, base, digit(*c)) else {
            return None;
        };
        value = longer;
        rest = others;
    }
    Some(value)
}

/// The value of a byte that is a digit in some base.
fn digit(c: u8) -> u8
    requires { 48 ≤ c }
    ensures { result ≡ digit c }
{
    if c < 65 { c - b'0' } else { c - 55 }
}

/// What a value becomes with one more digit, where it fits.
fn shifted_in(value: u32, base: u16, d: u8) -> Option<u32>
    ensures { SomeIff result (value * base + d < 2 ^ 32) (value * base + d) }
{
    value
        .checked_mul(u32::from(base))?
        .checked_add(u32::from(d))
}
