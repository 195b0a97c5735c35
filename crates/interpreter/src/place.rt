//! Where the stream stands when a fault ends a line, and which word was taken before that.
ghost use Rattle.std.specs.Prelude.{◌≡◌, ◌≤◌, ◌<◌, [], ◌∷◌, drop, length, min};
ghost use Rattle.data_space.specs.Space.{cell_at};
ghost use Rattle.interpreter.specs.Told.{end_before, first_byte, start_before, text_around, text_of_block, word_before, word_end, word_start};

use crate::forth::Forth;
use crate::services::lookahead::line_of;
use arrayvec::ArrayVec;
use sector_disk::SectorDevice;
use std::marker::Model;

/// A place in the input stream: a byte of a block, or of the line itself. Where a fault came it is the byte behind what
/// was taken of that text last, and behind the delimiter of that: byte 0 where a `LOAD` began and nothing was taken
/// yet.
#[derive(Clone, Copy, Debug, Default, PartialEq, Eq)]
pub struct Place {
    /// The block that was taken from, as `BLK` held it: 0 for the line itself.
    pub block: u16,
    /// How many bytes of it lie before the place, as `>IN` held it. A program may have set it to any number.
    pub to_in: u16,
}

/// Where a line was left before its end.
#[derive(Clone, Copy, Debug, PartialEq, Eq)]
pub enum LeftAt {
    /// At the place of its fault.
    Fault(Place),
    /// By `ABORT` or a true `ABORT"`.
    Abort,
}

/// How many loads are nested at most.
pub(crate) const MOST_LOADS: usize = 8;

/// The loads that are under way: of each where the word begins that asked for it, the innermost first. Contracts see it
/// as that list.
#[derive(Drop)]
pub struct Underway {
    starts: ArrayVec<Place, MOST_LOADS>,
}

impl Model for Underway {
    ghost use Rattle.std.specs.Prelude.{List};
    ghost use Rattle.interpreter.specs.declared.place.Place.{Place as AbstractPlace};

    ghost Value = { List AbstractPlace };

    ghost view = { λ u. u.starts.items };
}

impl Underway {
    /// None.
    pub(crate) fn new() -> Self
        ensures { result ≡ [] }
    {
        Underway {
            starts: ArrayVec::new(),
        }
    }

    /// How many there are.
    pub(crate) fn count(&self) -> usize
        ensures value { result ≡ length self.now }
        ensures most { result ≤ 8 }
    {
        self.starts.len()
    }

    /// Of each where its word begins.
    pub(crate) fn starts(&self) -> &[Place]
        ensures value { result.now ≡ self.now }
        ensures most { length result.now ≤ 8 }
    {
        self.starts.as_slice()
    }

    /// One more, within the others.
    pub(crate) fn begin(&mut self, start: Place)
        requires room { length self.old < 8 }
        ensures { self.new ≡ start ∷ self.old }
    {
        self.starts.insert(0, start);
    }

    /// The innermost one is over, where there is one.
    pub(crate) fn end(&mut self)
        ensures { self.new ≡ drop 1 self.old }
    {
        match self.starts.pop_at(0) {
            Some(_) => {}
            None => {}
        }
    }

    /// None is left.
    pub(crate) fn clear(&mut self)
        ensures { self.new ≡ [] }
    {
        self.starts.clear();
    }
}

/// Where the last word of a text's first bytes, so many, ends.
fn word_end(text: &[u8], count: usize) -> usize
    requires { count ≤ length text.now }
    ensures end { result ≡ word_end count text.now }
    ensures within { result ≤ count }
{
    if count == 0 {
        return 0;
    }
    if text[count - 1] == b' ' {
        return word_end(text, count - 1);
    }
    count
}

/// Where the word begins that ends there.
fn word_start(text: &[u8], end: usize) -> usize
    requires { end ≤ length text.now }
    ensures start { result ≡ word_start end text.now }
    ensures within { result ≤ end }
{
    if end == 0 {
        return 0;
    }
    if text[end - 1] == b' ' {
        return end;
    }
    word_start(text, end - 1)
}

/// Where the last word of a text before a byte begins, and where it ends: the same, where there is none.
fn bounds_before(text: &[u8], at: u16) -> (usize, usize)
    ensures start { result.0 ≡ start_before at text.now }
    ensures end { result.1 ≡ end_before at text.now }
    ensures order { result.0 ≤ result.1 }
    ensures within { result.1 ≤ length text.now }
{
    let end = word_end(text, usize::from(at).min(text.len()));
    (word_start(text, end), end)
}

/// The first byte of that word, or where there is none the last byte before.
fn first_byte(text: &[u8], at: u16) -> u16
    requires { length text.now ≤ 1024 }
    ensures { result ≡ first_byte at text.now }
{
    let (start, end) = bounds_before(text, at);
    if start < end {
        start as u16
    } else {
        at.saturating_sub(1)
    }
}

impl<D: SectorDevice> Forth<D> {
    /// The text of a block, where it is at hand without a call of the device, and else none.
    fn text_of_block(&self, block: u16) -> &[u8]
        ensures text { result.now ≡ text_of_block block self.now.blocks self.now.space }
        ensures within { length result.now ≤ 1024 }
    {
        match self.blocks.text_at_hand(block) {
            Some(at) => self.blocks.text(&self.space, at),
            None => &[],
        }
    }

    /// The text in which a place lies.
    fn text_around(&self, place: Place) -> &[u8]
        ensures text { result.now ≡ text_around place self.now.blocks self.now.space }
        ensures within { length result.now ≤ 1024 }
    {
        if place.block == 0 {
            line_of(&self.space)
        } else {
            self.text_of_block(place.block)
        }
    }

    /// The word before a place.
    pub(crate) fn word_before(&self, place: Place) -> &[u8]
        ensures { result.now ≡ word_before place.to_in (text_around place self.now.blocks self.now.space) }
    {
        let text = self.text_around(place);
        let (start, end) = bounds_before(text, place.to_in);
        &text[start..end]
    }

    /// Where that word begins, or where there is none the last byte before the place.
    pub(crate) fn start_before(&self, place: Place) -> Place
        ensures block { result.block ≡ place.block }
        ensures byte { result.to_in ≡ first_byte place.to_in (text_around place self.now.blocks self.now.space) }
    {
        Place {
            block: place.block,
            to_in: first_byte(self.text_around(place), place.to_in),
        }
    }
}
