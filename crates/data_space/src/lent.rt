//! Reads and writes of data space that is lent as a slice of all its bytes, 65,536 of them. An address is a number of
//! 16 bits.
//! Rule: LANGUAGE, Cells and addresses; SEMANTICS, Data space and stacks.
ghost use Rattle.std.specs.Prelude.{◌≡◌, ◌+◌, ◌≤◌, ◌↔◌, if◌then◌else◌, length, IsTrue, IsSome, IfSome};
ghost use Rattle.data_space.specs.Space.{Fits, byte_at, with_byte, cell_at, with_cell, bytes_at, moved_up, moved_down, filled};

use crate::SIZE;
use crate::moves::{copy_down, copy_up};
use byteorder::{ByteOrder, LittleEndian};

/// The byte at an address.
#[inline]
pub fn byte(bytes: &[u8], a: u16) -> u8
    requires { length bytes.now ≡ 65536 }
    ensures { result ≡ byte_at bytes.now a }
{
    let at = usize::from(a);
    bytes[at]
}

/// Stores a byte.
#[inline]
pub fn set_byte(bytes: &mut [u8], a: u16, b: u8)
    requires { length bytes.old ≡ 65536 }
    ensures after { bytes.new ≡ with_byte bytes.old a b }
    ensures size { length bytes.new ≡ 65536 }
{
    bytes[usize::from(a)] = b;
}

/// The cell at an address, the low byte first. None at address 65,535, where one of its bytes would lie past the end.
#[inline]
pub fn cell(bytes: &[u8], a: u16) -> Option<u16>
    requires { length bytes.now ≡ 65536 }
    ensures within { IsSome result ↔ Fits a 2 }
    ensures value { IfSome result (λ w. w ≡ cell_at bytes.now a) }
{
    let end = end_of(a, 2)?;
    Some(LittleEndian::read_u16(&bytes[usize::from(a)..end]))
}

/// Stores a cell, the low byte first. False, with nothing changed, at address 65,535.
#[inline]
pub fn set_cell(bytes: &mut [u8], a: u16, w: u16) -> bool
    requires { length bytes.old ≡ 65536 }
    ensures within { IsTrue result ↔ Fits a 2 }
    ensures after { bytes.new ≡ (if result then with_cell bytes.old a w else bytes.old) }
    ensures size { length bytes.new ≡ 65536 }
{
    let Some(end) = end_of(a, 2) else {
        return false;
    };
    LittleEndian::write_u16(&mut bytes[usize::from(a)..end], w);
    true
}

/// The `n` bytes from an address on. None where the range runs past 65,535; one of no bytes never does.
/// Rule: DECISIONS, The leaf crates; LANGUAGE, Cells and addresses.
#[inline]
pub fn slice(bytes: &[u8], a: u16, n: u16) -> Option<&[u8]>
    requires { length bytes.now ≡ 65536 }
    ensures within { IsSome result ↔ Fits a n }
    ensures value { IfSome result (λ part. part.now ≡ bytes_at bytes.now a n) }
{
    let end = end_of(a, n)?;
    Some(&bytes[usize::from(a)..end])
}

/// Stores a byte `n` times, from an address on. False, with nothing changed, where the range runs past 65,535.
/// Rule: Forth-83 Standard, FILL; SEMANTICS, Data space and stacks.
#[inline]
pub fn fill(bytes: &mut [u8], a: u16, n: u16, b: u8) -> bool
    requires { length bytes.old ≡ 65536 }
    ensures within { IsTrue result ↔ Fits a n }
    ensures after { bytes.new ≡ (if result then filled bytes.old a n b else bytes.old) }
    ensures size { length bytes.new ≡ 65536 }
{
    let Some(end) = end_of(a, n) else {
        return false;
    };
    bytes[usize::from(a)..end].fill(b);
    true
}

/// Copies `n` bytes one by one, the lowest first: where the target begins within the source, what was copied is copied
/// again. False, with nothing changed, where one of the ranges runs past 65,535.
/// Rule: Forth-83 Standard, CMOVE; SEMANTICS, Data space and stacks.
#[inline]
pub fn move_up(bytes: &mut [u8], from: u16, to: u16, n: u16) -> bool
    requires { length bytes.old ≡ 65536 }
    ensures within { IsTrue result ↔ (Fits from n × Fits to n) }
    ensures after { bytes.new ≡ (if result then moved_up bytes.old from to n else bytes.old) }
    ensures size { length bytes.new ≡ 65536 }
{
    let (Some(_), Some(_)) = (end_of(from, n), end_of(to, n)) else {
        return false;
    };
    copy_up(bytes, usize::from(from), usize::from(to), usize::from(n));
    true
}

/// Copies `n` bytes one by one, the highest first: where the source begins within the target, what was copied is copied
/// again. False, with nothing changed, where one of the ranges runs past 65,535.
/// Rule: Forth-83 Standard, CMOVE>; SEMANTICS, Data space and stacks.
#[inline]
pub fn move_down(bytes: &mut [u8], from: u16, to: u16, n: u16) -> bool
    requires { length bytes.old ≡ 65536 }
    ensures within { IsTrue result ↔ (Fits from n × Fits to n) }
    ensures after { bytes.new ≡ (if result then moved_down bytes.old from to n else bytes.old) }
    ensures size { length bytes.new ≡ 65536 }
{
    let (Some(_), Some(_)) = (end_of(from, n), end_of(to, n)) else {
        return false;
    };
    copy_down(bytes, usize::from(from), usize::from(to), usize::from(n));
    true
}

/// The end of a range, where it lies within.
#[inline]
fn end_of(a: u16, n: u16) -> Option<usize>
    ensures within { IsSome result ↔ Fits a n }
    ensures value { IfSome result (λ end. end ≡ a + n) }
{
    let end = usize::from(a) + usize::from(n);
    if end <= SIZE { Some(end) } else { None }
}
