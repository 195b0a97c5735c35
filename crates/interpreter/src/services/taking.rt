//! What is taken from the input stream: the line, or the block that is loaded, from where `>IN` stands.
//!
//! A word that is taken is kept at the front of the system's `text`; a call gives how many bytes it has.
ghost use Rattle.std.specs.Prelude.{◌≡◌, ◌≤◌, length, take, IfOk};

use crate::fault::Fault;
use crate::forth::Forth;
use crate::services::compiling_words::lexicon_fault;
use crate::services::lookahead::Cut;
use crate::system_cells::TO_IN;
use sector_disk::SectorDevice;

impl<D: SectorDevice> Forth<D> {
    ghost use Rattle.interpreter.specs.Streams.{take_word, take_text, take_token, take_known};
    ghost use Rattle.interpreter.specs.Naming.{take_new_word, in_current};
    ghost use Rattle.lexicon.specs.Language.{Language};
    ghost use Rattle.lexicon.specs.Adding.{MayBeAdded};
    ghost use Rattle.lexicon.specs.Stands.{Stands as Means, IsSound, IsWord};
    ghost use Rattle.interpreter.specs.ServiceContract.{HandsOn, ContinuesAlone};
    ghost use Rattle.interpreter.specs.Taken.{taken, take_cut, take_name};

    /// Takes the next word from the stream.
    pub(crate) fn take_word(&mut self, delimiter: u8) -> Result<usize, Fault>
        ensures hands { HandsOn (λ c x go. take_word delimiter c x go) (taken result self.new.text) self.old self.new }
        ensures continues { ContinuesAlone result self.old self.new }
        ensures lexicon { self.new.lexicon ≡ self.old.lexicon }
        ensures within { IfOk result (λ count. count ≤ 1024) }
        ensures whole { IfOk result (λ count. length (take count self.new.text) ≡ count) }
    {
        self.take(Cut::Word, delimiter)
    }

    /// Takes the next text from the stream, without skipping.
    pub(crate) fn take_text(&mut self, delimiter: u8) -> Result<usize, Fault>
        ensures hands { HandsOn (λ c x go. take_text delimiter c x go) (taken result self.new.text) self.old self.new }
        ensures continues { ContinuesAlone result self.old self.new }
        ensures lexicon { self.new.lexicon ≡ self.old.lexicon }
        ensures within { IfOk result (λ count. count ≤ 1024) }
        ensures whole { IfOk result (λ count. length (take count self.new.text) ≡ count) }
    {
        self.take(Cut::Text, delimiter)
    }

    /// Takes the next word or text from the stream.
    fn take(&mut self, cut: Cut, delimiter: u8) -> Result<usize, Fault>
        ensures hands { HandsOn (λ c x go. take_cut cut delimiter c x go) (taken result self.new.text) self.old self.new }
        ensures continues { ContinuesAlone result self.old self.new }
        ensures lexicon { self.new.lexicon ≡ self.old.lexicon }
        ensures within { IfOk result (λ count. count ≤ 1024) }
        ensures whole { IfOk result (λ count. length (take count self.new.text) ≡ count) }
    {
        match self.look(cut, delimiter) {
            Ok(look) => {
                self.space.set_cell(TO_IN, look.behind);
                Ok(look.count)
            }
            Err(fault) => Err(fault),
        }
    }

    /// Takes a name.
    fn take_name(&mut self) -> Result<usize, Fault>
        ensures hands { HandsOn (λ c x go. take_name c x go) (taken result self.new.text) self.old self.new }
        ensures continues { ContinuesAlone result self.old self.new }
        ensures lexicon { self.new.lexicon ≡ self.old.lexicon }
        ensures within { IfOk result (λ count. count ≤ 1024) }
        ensures whole { IfOk result (λ count. length (take count self.new.text) ≡ count) }
    {
        match self.take_word(b' ') {
            Ok(count) => {
                if count == 0 {
                    return Err(Fault::Name);
                }
                Ok(count)
            }
            Err(fault) => Err(fault),
        }
    }

    /// Takes the name of a word that the text interpreter finds.
    pub(crate) fn take_token(&mut self) -> Result<u16, Fault>
        ensures hands { HandsOn (λ c x go. take_token c x go) result self.old self.new }
        ensures continues { ContinuesAlone result self.old self.new }
        ensures lexicon { self.new.lexicon ≡ self.old.lexicon }
        ensures word { IfOk result (λ token. (x : Language) → Means self.new.lexicon x → IsWord x token) }
    {
        match self.take_name() {
            Ok(count) => match self.lexicon.find(&self.text[..count]) {
                Some(token) => Ok(token),
                None => Err(Fault::Undefined),
            },
            Err(fault) => Err(fault),
        }
    }

    /// Takes the name of a word in the compilation vocabulary.
    pub(crate) fn take_current(&mut self) -> Result<u16, Fault>
        ensures hands { HandsOn (λ c x go. take_known in_current c x go) result self.old self.new }
        ensures continues { ContinuesAlone result self.old self.new }
        ensures lexicon { self.new.lexicon ≡ self.old.lexicon }
        ensures word { IfOk result (λ token. (x : Language) → Means self.new.lexicon x → IsWord x token) }
    {
        match self.take_name() {
            Ok(count) => match self.lexicon.find_in_current(&self.text[..count]) {
                Some(token) => Ok(token),
                None => Err(Fault::Undefined),
            },
            Err(fault) => Err(fault),
        }
    }

    /// Takes the name of a new word, which may then be added.
    pub(crate) fn take_new_word(&mut self) -> Result<usize, Fault>
        requires sound { IsSound self.old.lexicon }
        ensures hands { HandsOn (λ c x go. take_new_word c x go) (taken result self.new.text) self.old self.new }
        ensures continues { ContinuesAlone result self.old self.new }
        ensures lexicon { self.new.lexicon ≡ self.old.lexicon }
        ensures within { IfOk result (λ count. count ≤ 1024) }
        ensures fits { IfOk result (λ count. MayBeAdded self.new.lexicon (take count self.new.text)) }
    {
        if self.lexicon.is_open() {
            return Err(Fault::DefinitionOpen);
        }
        match self.take_word(b' ') {
            Ok(count) => match self.lexicon.check_new(&self.text[..count]) {
                Ok(()) => Ok(count),
                Err(refusal) => Err(lexicon_fault(refusal)),
            },
            Err(fault) => Err(fault),
        }
    }
}
