//! Words that take a text from the stream.
ghost use Rattle.std.specs.Prelude.{◌≡◌, ◌≤◌, length, take};
ghost use Rattle.data_space.specs.Space.{with_bytes};
ghost use Rattle.interpreter.specs.State.{pushing};
ghost use Rattle.interpreter.specs.Text.{counted};

use crate::fault::{Fault, Stop};
use crate::forth::Forth;
use crate::terminal::Terminal;
use lexicon::TextKind;
use sector_disk::SectorDevice;
use system_words::words::TextWord;

/// How many bytes of a word are kept at most, since their count is a byte.
const LONGEST: usize = 255;

impl<D: SectorDevice> Forth<D> {
    ghost use Rattle.system_words.specs.declared.words.TextWord.TheVariants.{Comment, ParseWord};
    ghost use Rattle.system_words.specs.declared.words.TerminalWord.TheVariants.{PrintText};
    ghost use Rattle.interpreter.specs.Text.{on_text};
    ghost use Rattle.interpreter.specs.Terminals.{on_terminal};
    ghost use Rattle.interpreter.specs.Representation.{IsSound};
    ghost use Rattle.lexicon.specs.Stands.{IsSound as IsSoundIn};
    ghost use Rattle.interpreter.specs.ServiceContract.{Alters, Spares, Consults, ContinuesAlone, Serves, Continues};

    /// A word that takes a text from the stream.
    pub(crate) fn on_text(&mut self, word: TextWord) -> Result<(), Fault>
        requires standing { IsSound self.old }
        requires sound { IsSoundIn self.old.lexicon }
        ensures consults { Consults (λ a c x. on_text word c x) result self.old self.new }
        ensures continues { ContinuesAlone result self.old self.new }
    {
        match word {
            TextWord::Comment => self.comment(),
            TextWord::ParseWord => self.word(),
            TextWord::DotQuote => self.compile_text(TextKind::Prints),
            TextWord::AbortQuote => self.compile_text(TextKind::AbortsWith),
        }
    }

    /// `WORD`.
    fn word(&mut self) -> Result<(), Fault>
        requires sound { IsSound self.old }
        ensures consults { Consults (λ a c x. on_text ParseWord c x) result self.old self.new }
        ensures continues { ContinuesAlone result self.old self.new }
    {
        match self.stack.pop() {
            Ok(cell) => match self.take_word((cell % 256) as u8) {
                Ok(count) => self.build_word(count),
                Err(fault) => Err(fault),
            },
            Err(_) => Err(Fault::StackEmpty),
        }
    }

    /// Builds the word that was taken last at `HERE`: its count, its bytes and a blank. Leaves its address.
    fn build_word(&mut self, count: usize) -> Result<(), Fault>
        requires sound { IsSoundIn self.old.lexicon }
        requires within { count ≤ 1024 }
        requires whole { length (take count self.old.text) ≡ count }
        ensures alters { Alters
            (λ a c x. pushing x.here (record c { space = with_bytes c.space x.here (counted (take count self.old.text)) }) x)
            result self.old self.new }
        ensures spares { Spares result self.old self.new }
    {
        let here = self.lexicon.here();
        let kept = count.min(LONGEST) as u16;
        self.space.set_byte(here, kept as u8);
        self.space
            .set_bytes(here + 1, &self.text[..usize::from(kept)]);
        self.space.set_byte(here + 1 + kept, b' ');
        self.push(here)
    }

    /// `(`.
    fn comment(&mut self) -> Result<(), Fault>
        ensures consults { Consults (λ a c x. on_text Comment c x) result self.old self.new }
        ensures continues { ContinuesAlone result self.old self.new }
    {
        match self.take_text(b')') {
            Ok(_) => Ok(()),
            Err(fault) => Err(fault),
        }
    }

    /// `.(`.
    pub(crate) fn print_text<T: Terminal>(&mut self, terminal: &mut T) -> Result<(), Stop>
        ensures serves { Serves T.Terminal (λ a c x. on_terminal PrintText c x) result self.old self.new terminal.old terminal.new }
        ensures continues { Continues T.Terminal result self.old self.new terminal.old terminal.new }
    {
        match self.take_text(b')') {
            Ok(count) => self.print(&self.text[..count], terminal),
            Err(fault) => Err(Stop::Fault(fault)),
        }
    }
}
