//! Division that rounds down.

ghost use Rattle.std.specs.Prelude.{◌≡◌, ◌≢◌, ◌+◌, ◌-◌, ◌/◌, ◌≤◌, ◌<◌, ◌≤ℤ◌, ◌<ℤ◌, pos, ◌*ℤ◌, ◌-ℤ◌, unsigned_abs};
ghost use Rattle.cell_machine.specs.Cells.{floored, remainder, divided, is_single, cell};

/// The quotient of two sizes.
#[inline(always)]
fn size_quotient(n: u32, by: u32) -> i32
    requires nonzero { 0 < by }
    requires small { n ≤ 1073774592 }
    ensures value { result ≡ pos (n / by) }
    ensures bound { n / by ≤ 1073774592 }
{
    (n / by).cast_signed()
}

/// The quotient rounded down.
#[inline(always)]
fn quotient(n: i32, by: i32) -> i32
    requires nonzero { by ≢ pos 0 }
    requires small { unsigned_abs n ≤ 1073741824 }
    requires by_small { unsigned_abs by ≤ 32768 }
    ensures value { result ≡ floored n by }
{
    let size = n.unsigned_abs();
    let divisor = by.unsigned_abs();
    if n >= 0 {
        if by >= 0 {
            size_quotient(size, divisor)
        } else {
            -size_quotient(size + divisor - 1, divisor)
        }
    } else if by >= 0 {
        -size_quotient(size - 1, divisor) - 1
    } else {
        size_quotient(size, divisor)
    }
}

/// The low 16 bits.
#[inline(always)]
fn low_cell(z: i64) -> u16
    ensures { result ≡ cell z }
{
    (z.cast_unsigned() & 65535) as u16
}

#[tactic(auto, using(crate::proofs::Floors::divided_some))]
/// The quotient rounded down, and the remainder, each as a cell. `n` has a size of at most 2^30, `by` of at most
/// 32,768. None where the divisor is 0 or the quotient is no signed cell.
/// Rule: LANGUAGE, Cells and addresses; Forth-83 Standard, / MOD /MOD */ */MOD.
#[inline(always)]
pub fn divide(n: i32, by: i32) -> Option<(u16, u16)>
    requires small { unsigned_abs n ≤ 1073741824 }
    requires by_small { unsigned_abs by ≤ 32768 }
    ensures { result ≡ divided n by }
{
    if by == 0 {
        return None;
    }
    let quot = quotient(n, by);
    if quot < -32768 || quot > 32767 {
        return None;
    }
    let rem = rest(n, quot, by);
    Some((low_cell(i64::from(quot)), low_cell(rem)))
}

/// What the quotient leaves.
#[inline(always)]
fn rest(n: i32, quot: i32, by: i32) -> i64
    requires by_small { unsigned_abs by ≤ 32768 }
    requires small { unsigned_abs quot ≤ 32768 }
    ensures { result ≡ n -ℤ (quot *ℤ by) }
{
    i64::from(n) - i64::from(quot) * i64::from(by)
}
