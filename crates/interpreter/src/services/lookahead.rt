//! What stands next in the input stream: the line, or the block that is loaded, from where `>IN` stands. `>IN` stays,
//! since a word that can't be paid for is not taken.
ghost use Rattle.std.specs.Prelude.{◌≡◌, ◌≤◌, ◌<◌, ◌-◌, length, drop, take, min, IfOk};
ghost use Rattle.data_space.specs.Space.{cell_at, bytes_at};
ghost use Rattle.interpreter.specs.Taken.{cut_of, after_cut};

use crate::fault::Fault;
use crate::forth::Forth;
use crate::services::words_on_blocks::block_fault;
use crate::system_cells::{BLK, TIB, TIB_COUNT, TIB_SIZE, TO_IN, cell_of};
use data_space::DataSpace;
use sector_disk::SectorDevice;

/// The line's text.
pub(crate) fn line_of(space: &DataSpace) -> &[u8]
    ensures line { result.now ≡ bytes_at space.now 256 (min (cell_at space.now 24) 1024) }
    ensures within { length result.now ≤ 1024 }
{
    let count = cell_of(space, TIB_COUNT).min(TIB_SIZE);
    match space.slice(TIB, count) {
        Some(line) => line,
        None => &[],
    }
}

/// Where what is cut from a text begins. It ends before its delimiter, or with the text.
#[derive(Clone, Copy)]
pub(crate) enum Cut {
    /// A word: the delimiters before it are skipped.
    Word,
    /// A text, from the first byte on.
    Text,
}

/// What is cut from a text, and how many bytes the taking goes over.
fn cut_from(cut: Cut, text: &[u8], delimiter: u8) -> (&[u8], usize)
    ensures taken { result.0.now ≡ cut_of cut delimiter text.now }
    ensures rest { drop result.1 text.now ≡ after_cut cut delimiter text.now }
    ensures within { result.1 ≤ length text.now }
    ensures part { length result.0.now ≤ length text.now }
{
    match cut {
        Cut::Word => number_io::take_word(text, delimiter),
        Cut::Text => number_io::take_text(text, delimiter),
    }
}

/// Keeps what is cut from a text from `to_in` on, and gives how many bytes it has, and where `>IN` then stands.
fn keep(cut: Cut, text: &[u8], to_in: u16, delimiter: u8, kept: &mut [u8; 1024]) -> (usize, u16)
    requires { length text.now ≤ 1024 }
    ensures taken { take result.0 kept.new ≡ cut_of cut delimiter (drop to_in text.now) }
    ensures moved { result.1 ≡ length text.now - length (after_cut cut delimiter (drop to_in text.now)) }
    ensures within { result.0 ≤ 1024 }
    ensures whole { length (take result.0 kept.new) ≡ result.0 }
{
    let start = usize::from(to_in).min(text.len());
    let (taken, over) = cut_from(cut, &text[start..], delimiter);
    kept[..taken.len()].copy_from_slice(taken);
    (taken.len(), (start + over) as u16)
}

/// A word or a text that stands in the stream; its bytes are at the front of the system's `text`.
#[derive(Clone, Copy)]
pub(crate) struct Look {
    /// How many bytes it has: none at the end of the stream.
    pub(crate) count: usize,
    /// Where `>IN` stands once it is taken.
    pub(crate) behind: u16,
}

impl<D: SectorDevice> Forth<D> {
    ghost use Rattle.interpreter.specs.ServiceContract.{HandsOn, ContinuesAlone};
    ghost use Rattle.interpreter.specs.Taken.{line_of};
    ghost use Rattle.interpreter.specs.Looking.{look, looked, seen_from, seen_in};

    /// Looks at the next word or text of the stream.
    pub(crate) fn look(&mut self, cut: Cut, delimiter: u8) -> Result<Look, Fault>
        ensures hands { HandsOn (λ c x go. look cut delimiter c x go) (looked result self.new.text) self.old self.new }
        ensures rest { self.new ≡ record self.old { blocks = self.new.blocks; text = self.new.text } }
        ensures continues { ContinuesAlone result self.old self.new }
        ensures within { IfOk result (λ l. l.count ≤ 1024) }
        ensures whole { IfOk result (λ l. length (take l.count self.new.text) ≡ l.count) }
    {
        match cell_of(&self.space, BLK) {
            0 => Ok(self.look_at_line(cut, delimiter)),
            block => self.look_at_block(block, cut, delimiter),
        }
    }

    /// What stands next in the line, which is the text input buffer.
    fn look_at_line(&mut self, cut: Cut, delimiter: u8) -> Look
        ensures seen { seen_in result self.new.text
            ≡ seen_from cut delimiter (cell_at self.old.space 20) (line_of self.old.space) }
        ensures rest { self.new ≡ record self.old { text = self.new.text } }
        ensures within { result.count ≤ 1024 }
        ensures whole { length (take result.count self.new.text) ≡ result.count }
    {
        let to_in = cell_of(&self.space, TO_IN);
        let (count, behind) = keep(cut, line_of(&self.space), to_in, delimiter, &mut self.text);
        Look { count, behind }
    }

    /// What stands next in the block that is loaded.
    fn look_at_block(&mut self, block: u16, cut: Cut, delimiter: u8) -> Result<Look, Fault>
        requires block { block ≡ cell_at self.old.space 22 }
        requires loaded { 0 < block }
        ensures hands { HandsOn (λ c x go. look cut delimiter c x go) (looked result self.new.text) self.old self.new }
        ensures rest { self.new ≡ record self.old { blocks = self.new.blocks; text = self.new.text } }
        ensures continues { ContinuesAlone result self.old self.new }
        ensures within { IfOk result (λ l. l.count ≤ 1024) }
        ensures whole { IfOk result (λ l. length (take l.count self.new.text) ≡ l.count) }
    {
        match self.blocks.find_text(block) {
            Ok(place) => {
                let to_in = cell_of(&self.space, TO_IN);
                let text = self.blocks.text(&self.space, place);
                let (count, behind) = keep(cut, text, to_in, delimiter, &mut self.text);
                Ok(Look { count, behind })
            }
            Err(fault) => Err(block_fault(fault)),
        }
    }
}
