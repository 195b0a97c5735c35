// Which blocks a record lists, one after another. Most of its bytes are zeros, and these are passed over.
ghost use Rattle.std.specs.Prelude.{◌≡◌, ◌<◌, ◌≤◌, ℕ, false, slice_index};
ghost use Rattle.journal.specs.Layout.{most_blocks, listed, count_listed, IsNextListed};

use crate::layout::{BITS, BlockCount, is_listed};

// The next byte of its bits, from byte `first` on, that isn't 0, or 480.
fn next_byte(bytes: &[u8; 512], first: usize) -> usize
    requires { first ≤ 480 }
    ensures after { first ≤ result }
    ensures within { result ≤ 480 }
    ensures zeros { (i : ℕ) → first ≤ i → i < result → slice_index bytes.now i ≡ 0 }
{
    let mut i = first;
    while i < BITS && bytes[i] == 0 {
        i += 1;
    }
    i
}

// The block after block `b`, or one after it before which a record lists none.
fn following(bytes: &[u8; 512], b: u16) -> u16
    requires { b < most_blocks }
    ensures after { b < result }
    ensures within { result ≤ most_blocks }
    ensures none { (a : ℕ) → b < a → a < result → listed bytes.now a ≡ false }
{
    if b % 8 == 7 {
        8 * next_byte(bytes, b as usize / 8 + 1) as u16
    } else {
        b + 1
    }
}

/// The next block from `first` on, of those below `end`, that a record lists, or `end` where it lists none of these.
pub(crate) fn next_listed(bytes: &[u8; 512], first: u16, end: u16) -> u16
    requires first { first ≤ end }
    requires end { end ≤ most_blocks }
    ensures { IsNextListed bytes.now first end result }
{
    let mut b = first;
    while b < end {
        if is_listed(bytes, b) {
            return b;
        }
        b = following(bytes, b);
    }
    end
}

/// How many of the first blocks a record lists.
pub(crate) fn count_blocks(bytes: &[u8; 512], blocks: BlockCount) -> u16
    ensures { result ≡ count_listed bytes.now blocks.number }
{
    let mut count = 0;
    let mut b = next_listed(bytes, 0, blocks.number);
    while b < blocks.number {
        count += 1;
        b = next_listed(bytes, b + 1, blocks.number);
    }
    count
}
