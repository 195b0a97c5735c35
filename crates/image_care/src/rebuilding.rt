// A record that is lost is made again from the sum in the gate: which places have tags of this sum? What is found is only
// a proposal: who takes it has to look whether all blocks stand whole in these places.
ghost use Rattle.std.specs.Prelude.{◌<◌, ◌≤◌, ◌^◌, IfSome};
ghost use Rattle.journal.specs.Layout.{most_blocks};

use crate::still_disk::sector_in;
use journal::pages::layout::{list, place_sector, tag};
use journal::pages::tags::{add, tag_of};

/// How many bits a tag has.
const BITS: usize = 256;

// Differences of the two tags of blocks, or of several, each at the place of the first bit that is set in it, with the
// blocks of which it is made.
#[derive(Drop)]
struct Basis {
    differences: [[u8; 32]; BITS],
    blocks: [[u8; 512]; BITS],
    is_there: [bool; BITS],
    // Whether one was made of those before it: then more than one choice of places has a sum.
    is_doubtful: bool,
}

// The places of the blocks: of each the one that holds a whole save of it, and the first where both do. With what its
// tags lack to the sum that is wanted.
#[derive(Drop)]
struct Choice {
    listing: [u8; 512],
    lacks: [u8; 32],
}

// The exclusive or of two lists of blocks.
fn exchange(blocks: &mut [u8; 512], others: &[u8; 512]) {
    for i in 0..512 {
        blocks[i] ^= others[i];
    }
}

// Whether bit `i` of a tag is set.
fn is_set(tag: &[u8; 32], i: usize) -> bool
    requires { i < 256 }
{
    (tag[i / 8] >> (i % 8)) & 1 == 1
}

impl Basis {
    fn new() -> Basis {
        Basis {
            differences: [[0; 32]; BITS],
            blocks: [[0; 512]; BITS],
            is_there: [false; BITS],
            is_doubtful: false,
        }
    }

    // Takes the differences out of a tag, with their blocks, up to the first bit at which there is none. None where
    // nothing of it is left.
    fn reduce(&self, tag: &mut [u8; 32], blocks: &mut [u8; 512]) -> Option<usize>
        ensures { IfSome result (λ i. i < 256) }
    {
        for i in 0..BITS {
            if is_set(tag, i) {
                if !self.is_there[i] {
                    return Some(i);
                }
                add(tag, &self.differences[i]);
                exchange(blocks, &self.blocks[i]);
            }
        }
        None
    }

    // Adds the difference of the two tags of block `b`.
    fn add(&mut self, b: u16, difference: &[u8; 32])
        requires { b < most_blocks }
    {
        let mut left = *difference;
        let mut blocks = [0; 512];
        list(&mut blocks, b);
        match self.reduce(&mut left, &mut blocks) {
            Some(i) => {
                self.differences[i] = left;
                self.blocks[i] = blocks;
                self.is_there[i] = true;
            }
            None => self.is_doubtful = true,
        }
    }
}

// The tag of block `b`, if the place that begins with sector `k` holds a whole save of it.
fn whole_tag(bytes: &[u8], b: u16, k: u32) -> Option<[u8; 32]>
    requires { k < 2 ^ 16 }
{
    let mut block = [0; 1024];
    let (first, second) = block.split_at_mut(512);
    first.copy_from_slice(&sector_in(bytes, k));
    second.copy_from_slice(&sector_in(bytes, k + 1));
    let made = tag_of(b, &block);
    if tag(&sector_in(bytes, k + 2)) == made {
        Some(made)
    } else {
        None
    }
}

// Chooses a place of block `b`. False where neither holds a whole save of it.
fn choose(bytes: &[u8], b: u16, choice: &mut Choice, basis: &mut Basis) -> bool
    requires { b < most_blocks }
{
    let second = whole_tag(bytes, b, place_sector(b, true));
    match whole_tag(bytes, b, place_sector(b, false)) {
        Some(tag) => {
            add(&mut choice.lacks, &tag);
            add_difference(basis, b, &tag, &second);
            true
        }
        None => choose_second(b, &second, choice),
    }
}

// Chooses the second place of block `b`, if it has this tag.
fn choose_second(b: u16, tag: &Option<[u8; 32]>, choice: &mut Choice) -> bool
    requires { b < most_blocks }
{
    match tag {
        Some(tag) => {
            add(&mut choice.lacks, tag);
            list(&mut choice.listing, b);
            true
        }
        None => false,
    }
}

// Adds the difference of the tag in the first place of block `b` to that in the second, if there is one.
fn add_difference(basis: &mut Basis, b: u16, first: &[u8; 32], second: &Option<[u8; 32]>)
    requires { b < most_blocks }
{
    let Some(other) = second else {
        return;
    };
    if first != other {
        let mut difference = *first;
        add(&mut difference, other);
        basis.add(b, &difference);
    }
}

// The bits of a record that names places of which the tags have this sum. None where a block stands whole in neither
// of its places, where no places have the sum, or where it can't be told which have.
pub(crate) fn rebuild(bytes: &[u8], blocks: u16, sum: &[u8; 32]) -> Option<[u8; 512]>
    requires { blocks ≤ most_blocks }
{
    let mut choice = Choice {
        listing: [0; 512],
        lacks: *sum,
    };
    let mut basis = Basis::new();
    for b in 0..blocks {
        if !choose(bytes, b, &mut choice, &mut basis) {
            return None;
        }
    }
    complete(&mut choice, &basis)
}

// Exchanges the places of the blocks whose differences make up what the sum lacks.
fn complete(choice: &mut Choice, basis: &Basis) -> Option<[u8; 512]> {
    if basis.is_doubtful {
        return None;
    }
    let mut others = [0; 512];
    match basis.reduce(&mut choice.lacks, &mut others) {
        Some(_) => None,
        None => {
            exchange(&mut others, &choice.listing);
            Some(others)
        }
    }
}
