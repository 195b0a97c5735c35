//! Words on the lexicon and `HERE`, which take nothing from the stream.

ghost use Rattle.std.specs.Prelude.{◌≡◌, ◌<◌, ◌∷◌, length, Ok};
ghost use Rattle.interpreter.specs.Naming.{here_moved};

use crate::fault::Fault;
use crate::forth::Forth;
use crate::services::compiling_words::lexicon_fault;
use lexicon::{FIRST_HERE, PAD_OFFSET};
use sector_disk::SectorDevice;
use system_words::words::LexiconWord;

/// The last address at which `HERE` may stand.
pub(crate) const LAST_HERE: u16 = 60928;

/// Where `HERE` would stand, moved by this many bytes with their sign.
fn moved_here(here: u16, n: u16) -> u32
    ensures { result ≡ here_moved here n }
{
    if n < 32768 {
        u32::from(here) + u32::from(n)
    } else {
        u32::from(here).saturating_sub(65536 - u32::from(n))
    }
}

impl<D: SectorDevice> Forth<D> {
    ghost use Rattle.system_words.specs.declared.words.LexiconWord.TheVariants.{ToBody, Definitions, Find, Forth as ForthWord, Here, Pad, Comma, Allot, MakeImmediate};
    ghost use Rattle.interpreter.specs.Naming.{on_lexicon, mark_of};
    ghost use Rattle.interpreter.specs.State.{pushing};
    ghost use Rattle.dictionary.specs.Words.{entry};
    ghost use Rattle.lexicon.specs.Language.{Language};
    ghost use Rattle.lexicon.specs.Stands.{Stands as Means, IsSound, IsWord};
    ghost use Rattle.interpreter.specs.ServiceContract.{Alters, Spares, SparesAll};

    /// A word on the lexicon and `HERE`.
    pub(crate) fn on_lexicon(&mut self, word: LexiconWord) -> Result<(), Fault>
        requires sound { IsSound self.old.lexicon }
        ensures alters { Alters (λ a c x. on_lexicon word c x) result self.old self.new }
        ensures spares { Spares result self.old self.new }
    {
        match word {
            LexiconWord::ToBody => self.to_body(),
            LexiconWord::Definitions => {
                self.definitions();
                Ok(())
            }
            LexiconWord::Find => self.find(),
            LexiconWord::Forth => {
                self.forth();
                Ok(())
            }
            LexiconWord::Here => self.here(),
            LexiconWord::Pad => self.pad(),
            LexiconWord::Comma => self.comma(),
            LexiconWord::Allot => self.allot(),
            LexiconWord::MakeImmediate => self.immediate(),
        }
    }

    /// `HERE`. The machine leaves this cell by itself; this is for the definition, which has a service for each row.
    fn here(&mut self) -> Result<(), Fault>
        ensures alters { Alters (λ a c x. on_lexicon Here c x) result self.old self.new }
        ensures spares { Spares result self.old self.new }
    {
        let here = self.lexicon.here();
        self.push(here)
    }

    /// `,`.
    fn comma(&mut self) -> Result<(), Fault>
        requires sound { IsSound self.old.lexicon }
        ensures alters { Alters (λ a c x. on_lexicon Comma c x) result self.old self.new }
        ensures spares { Spares result self.old self.new }
    {
        let cell = match self.stack.pop() {
            Ok(cell) => cell,
            Err(_) => return Err(Fault::StackEmpty),
        };
        let here = self.lexicon.here();
        if here > LAST_HERE - 2 {
            return Err(Fault::DataSpace);
        }
        self.lexicon.set_here(here + 2);
        self.space.set_cell(here, cell);
        Ok(())
    }

    /// `PAD`, as `HERE`.
    fn pad(&mut self) -> Result<(), Fault>
        requires sound { IsSound self.old.lexicon }
        ensures alters { Alters (λ a c x. on_lexicon Pad c x) result self.old self.new }
        ensures spares { Spares result self.old self.new }
    {
        let here = self.lexicon.here();
        self.push(here + PAD_OFFSET)
    }

    /// `ALLOT`.
    fn allot(&mut self) -> Result<(), Fault>
        ensures alters { Alters (λ a c x. on_lexicon Allot c x) result self.old self.new }
        ensures spares { Spares result self.old self.new }
    {
        let n = match self.stack.pop() {
            Ok(n) => n,
            Err(_) => return Err(Fault::StackEmpty),
        };
        let here = moved_here(self.lexicon.here(), n);
        if here < u32::from(FIRST_HERE) {
            return Err(Fault::DataSpace);
        }
        if here > u32::from(LAST_HERE) {
            return Err(Fault::DataSpace);
        }
        self.lexicon.set_here(here as u16);
        Ok(())
    }

    /// Pushes two cells, of which the first has room.
    fn push_two(&mut self, under: u16, top: u16) -> Result<(), Fault>
        requires { length self.old.stack < 256 }
        ensures alters { Alters (λ a c x. pushing top (record c { stack = under ∷ c.stack }) x) result self.old self.new }
        ensures spares { Spares result self.old self.new }
    {
        let _ = self.stack.push(under);
        self.push(top)
    }

    /// What `FIND` says of a word beside its token.
    fn mark(&self, token: u16) -> u16
        ensures { (x : Language) → Means self.now.lexicon x → IsWord x token → result ≡ mark_of (entry x.words token) }
    {
        if self.lexicon.is_immediate(token) {
            1
        } else {
            65535
        }
    }

    /// `FIND`.
    fn find(&mut self) -> Result<(), Fault>
        ensures alters { Alters (λ a c x. on_lexicon Find c x) result self.old self.new }
        ensures spares { Spares result self.old self.new }
    {
        let s = match self.stack.pop() {
            Ok(s) => s,
            Err(_) => return Err(Fault::StackEmpty),
        };
        let start = usize::from(s) + 1;
        let end = start + usize::from(self.space.byte(s));
        if end > 65536 {
            return Err(Fault::Address);
        }
        match self.lexicon.find(&self.space.bytes()[start..end]) {
            Some(token) => self.push_two(token, self.mark(token)),
            None => self.push_two(s, 0),
        }
    }

    /// `>BODY`.
    fn to_body(&mut self) -> Result<(), Fault>
        ensures alters { Alters (λ a c x. on_lexicon ToBody c x) result self.old self.new }
        ensures spares { Spares result self.old self.new }
    {
        let token = match self.stack.pop() {
            Ok(token) => token,
            Err(_) => return Err(Fault::StackEmpty),
        };
        match self.lexicon.data_address(token) {
            Some(address) => self.push(address),
            None => Err(Fault::Token),
        }
    }

    /// `FORTH`.
    fn forth(&mut self)
        ensures alters { Alters (λ a c x. on_lexicon ForthWord c x) (Ok tt) self.old self.new }
        ensures spares { SparesAll self.old self.new }
    {
        self.lexicon.set_first_to_forth();
    }

    /// `DEFINITIONS`.
    fn definitions(&mut self)
        ensures alters { Alters (λ a c x. on_lexicon Definitions c x) (Ok tt) self.old self.new }
        ensures spares { SparesAll self.old self.new }
    {
        self.lexicon.set_current_to_first();
    }

    /// `IMMEDIATE`.
    fn immediate(&mut self) -> Result<(), Fault>
        requires sound { IsSound self.old.lexicon }
        ensures alters { Alters (λ a c x. on_lexicon MakeImmediate c x) result self.old self.new }
        ensures spares { Spares result self.old self.new }
    {
        match self.lexicon.set_immediate() {
            Ok(()) => Ok(()),
            Err(refusal) => Err(lexicon_fault(refusal)),
        }
    }
}
