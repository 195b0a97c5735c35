//! Where the parts of an image of layout 3 stand, and how they are spelled. Sectors have 512 bytes and are numbered
//! from 0.
//! Rule: IMAGE, Layout 3.
ghost use Rattle.std.specs.Prelude.{◌≡◌, ◌≢◌, ◌<◌, ◌≤◌, ◌+◌, ◌*◌, ◌%◌, ◌++◌, ℕ, not, true, false, IfSome, IfNone, take, replicate};
ghost use Rattle.std.specs.Bool.{OnTrue};
ghost use Rattle.journal.specs.Layout.{fewest_blocks, most_blocks, listed, bits_of};
ghost use Rattle.journal.specs.Sizes.{is_pages_size, is_pages_size_for, pages_blocks_in};
ghost use Rattle.journal.specs.PageLayout.{sectors_for, label_of, bit_differs, bits_apart, gate_word, gate_bytes, gate_open, gate_sum, is_gate_of, gate_at, record_at, place_at, current_at, free_at, sum_in, tag_in};

use crate::layout::{BITS, FEWEST_BLOCKS, MOST_BLOCKS, is_listed, label as older_label};

/// The version of the layout, as a label tells it.
pub const VERSION: u16 = 3;

/// The sector of the gate.
pub const GATE: u32 = 8;

/// The sectors of a page.
const UNIT: u32 = 8;

/// The sectors of an image before the places of its blocks.
const HEAD: u32 = 4 * UNIT;

/// How many sectors an image of layout 3 with so many blocks has, 3,840 or fewer.
pub fn sectors_for(blocks: u16) -> u32
    requires { blocks ≤ most_blocks }
    ensures { result ≡ sectors_for blocks }
{
    HEAD + 2 * UNIT * blocks as u32
}

/// Whether an image of layout 3 of so many blocks, from 32 to 3,840, has so many sectors.
pub fn fits(blocks: u32, sectors: u32) -> bool
    ensures value { result ≡ is_pages_size_for blocks sectors }
    ensures many { OnTrue result (fewest_blocks ≤ blocks) }
    ensures few { OnTrue result (blocks ≤ most_blocks) }
    ensures size { OnTrue result (sectors ≡ sectors_for blocks) }
{
    FEWEST_BLOCKS as u32 <= blocks && blocks <= MOST_BLOCKS as u32 && sectors == 32 + 16 * blocks
}

/// How many blocks an image of layout 3 with so many sectors has, from 32 to 3,840. None where no such image has so
/// many sectors.
pub fn blocks_of_size(sectors: u32) -> Option<u16>
    ensures size { IfSome result (λ n. is_pages_size sectors ≡ true) }
    ensures some { IfSome result (λ n. 0 < sectors) }
    ensures number { IfSome result (λ n. pages_blocks_in sectors ≡ n) }
    ensures many { IfSome result (λ n. fewest_blocks ≤ n) }
    ensures few { IfSome result (λ n. n ≤ most_blocks) }
    ensures none { IfNone result (is_pages_size sectors ≡ false) }
{
    let blocks = sectors.saturating_sub(32) / 16;
    if fits(blocks, sectors) {
        Some(blocks as u16)
    } else {
        None
    }
}

/// The label of an image of layout 3 with so many blocks, which has 32 to 3,840 of them.
pub fn label(blocks: u16) -> [u8; 512]
    ensures { result ≡ label_of blocks }
{
    let mut bytes = older_label(blocks);
    bytes[8] = 3; // the low byte of the version
    bytes
}

/// The sector of the record that an open gate names, or of the one that any other gate names.
pub fn record_sector(is_open: bool) -> u32
    ensures { result ≡ record_at is_open }
{
    if is_open { 2 * UNIT } else { 3 * UNIT }
}

// The eight bytes with which a gate begins, open or closed.
fn gate_word(is_open: bool) -> [u8; 8]
    ensures { result ≡ gate_word is_open }
{
    if is_open { *b"COMMIT83" } else { [0; 8] }
}

// These bytes, and a sum behind them.
fn gate_front(is_open: bool, sum: &[u8; 32]) -> [u8; 40]
    ensures { result ≡ gate_word is_open ++ sum.now }
{
    let mut bytes = [0; 40];
    let (word, end) = bytes.split_at_mut(8);
    word.copy_from_slice(&gate_word(is_open));
    end.copy_from_slice(sum);
    bytes
}

/// The gate as it is written, open or closed, with the sum of the record that it names: 512 bytes.
pub fn gate(is_open: bool, sum: &[u8; 32]) -> [u8; 512]
    ensures { result ≡ gate_bytes is_open sum.now }
{
    let mut bytes = [0; 512];
    bytes[..40].copy_from_slice(&gate_front(is_open, sum));
    bytes
}

// Bit `i` of eight bytes, which is bit `i % 8` of byte `i / 8`.
fn is_set(word: &[u8; 8], i: u16) -> bool
    requires { i < 64 }
    ensures { result ≡ listed word.now i }
{
    (word[i as usize / 8] >> (i % 8)) & 1 == 1
}

// Whether a gate differs in bit `i` from one that begins so.
fn bit_differs(gate: &[u8; 512], word: &[u8; 8], i: u16) -> bool
    requires { i < 64 }
    ensures { result ≡ bit_differs gate.now word.now i }
{
    if is_listed(gate, i) {
        !is_set(word, i)
    } else {
        is_set(word, i)
    }
}

// In how many of its first 64 bits a gate differs from one that begins so.
fn bits_apart(gate: &[u8; 512], word: &[u8; 8]) -> u16
    ensures { result ≡ bits_apart gate.now word.now }
{
    let mut apart = 0;
    for i in 0..64 {
        if bit_differs(gate, word, i) {
            apart += 1;
        }
    }
    apart
}

/// Whether a gate is read as open: whether fewer of its first 64 bits differ from an open gate than from a closed one.
/// 29 bits lie between these two, so a gate of which up to 14 changed at rest is read as it was written.
/// Rule: IMAGE, Layout 3.
pub fn gate_is_open(gate: &[u8; 512]) -> bool
    ensures { result ≡ gate_open gate.now }
{
    bits_apart(gate, &gate_word(true)) < bits_apart(gate, &gate_word(false))
}

/// The first sector of the first or the second place of block `b`, a number below 3,840.
pub fn place_sector(b: u16, second: bool) -> u32
    requires { b < most_blocks }
    ensures place { result ≡ place_at b second }
    ensures page { result % 8 ≡ 0 }
    ensures end { result + 8 ≤ 48 + 16 * b }
{
    let first = HEAD + 2 * UNIT * b as u32;
    if second { first + UNIT } else { first }
}

/// The first sector of the place of block `b`, a number below 3,840, that the record `listing` names.
pub fn current_sector(listing: &[u8; 512], b: u16) -> u32
    requires { b < most_blocks }
    ensures place { result ≡ current_at listing.now b }
    ensures page { result % 8 ≡ 0 }
    ensures end { result + 8 ≤ 48 + 16 * b }
{
    place_sector(b, is_listed(listing, b))
}

/// The first sector of the place of block `b`, a number below 3,840, that the record `listing` doesn't name.
pub fn free_sector(listing: &[u8; 512], b: u16) -> u32
    requires { b < most_blocks }
    ensures place { result ≡ free_at listing.now b }
    ensures page { result % 8 ≡ 0 }
    ensures end { result + 8 ≤ 48 + 16 * b }
{
    place_sector(b, !is_listed(listing, b))
}

/// The sum in a record: its last 32 bytes.
pub fn sum(listing: &[u8; 512]) -> [u8; 32]
    ensures { result ≡ sum_in listing.now }
{
    let (_, end) = listing.split_at(BITS);
    let mut sum = [0; 32];
    sum.copy_from_slice(end);
    sum
}

/// Whether a gate is of this record: whether its bytes 8 to 39 are the record's sum.
/// Rule: IMAGE, Layout 3.
pub fn is_gate_of(gate: &[u8; 512], listing: &[u8; 512]) -> bool
    ensures { result ≡ is_gate_of gate.now listing.now }
{
    sum_in_gate(gate) == sum(listing)
}

// The sum in a gate: its bytes 8 to 39.
fn sum_in_gate(gate: &[u8; 512]) -> [u8; 32]
    ensures { result ≡ gate_sum gate.now }
{
    let (_, end) = gate.split_at(8);
    let (front, _) = end.split_at(32);
    let mut sum = [0; 32];
    sum.copy_from_slice(front);
    sum
}

/// The record with these bits, the first 480 bytes, and this sum.
pub fn with_sum(bits: &[u8; 512], sum: &[u8; 32]) -> [u8; 512]
    ensures bits { bits_of result ≡ bits_of bits.now }
    ensures sum { sum_in result ≡ sum.now }
{
    let mut bytes = *bits;
    let (_, end) = bytes.split_at_mut(BITS);
    end.copy_from_slice(sum);
    bytes
}

/// The tag in the sector of a place's tag: its first 32 bytes.
pub fn tag(sector: &[u8; 512]) -> [u8; 32]
    ensures { result ≡ tag_in sector.now }
{
    let (front, _) = sector.split_at(32);
    let mut tag = [0; 32];
    tag.copy_from_slice(front);
    tag
}

/// The sector of a place's tag: the tag, and zeros behind it.
#[inline(never)]
pub fn tag_sector(tag: &[u8; 32]) -> [u8; 512]
    ensures { result ≡ tag.now ++ replicate 480 0 }
{
    let mut bytes = [0; 512];
    bytes[..32].copy_from_slice(tag);
    bytes
}

/// Sets the bit of block `b`, a number below 3,840, in a record.
pub fn list(bits: &mut [u8; 512], b: u16)
    requires { b < most_blocks }
    ensures listed { listed bits.new b ≡ true }
    ensures others { (a : ℕ) → a ≢ b → listed bits.new a ≡ listed bits.old a }
{
    bits[b as usize / 8] |= 1 << (b % 8);
}
