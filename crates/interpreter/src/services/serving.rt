//! The services that the machine asks for. Which one a word is, its row says.
ghost use Rattle.std.specs.Prelude.{◌≡◌};
ghost use Rattle.interpreter.specs.ServiceContract.{stopped};
ghost use Rattle.interpreter.specs.RoundContract.{round_of};
ghost use Rattle.interpreter.specs.Text.{service_of};
ghost use Rattle.system_words.specs.Rows.{meaning_of};

use crate::fault::{Fault, Stop};
use crate::forth::Forth;
use crate::interpreting::Round;
use crate::terminal::Terminal;
use cell_machine::event::Op;
use sector_disk::SectorDevice;
use system_words::words::{Meaning, Service};

/// What the machine asks for at the word of this token, if that is what its row says.
fn service_of(token: u16) -> Option<Service>
    ensures { result ≡ service_of (meaning_of token) }
{
    match system_words::meaning_of(token) {
        Some(Meaning::Asks(service)) => Some(service),
        _ => None,
    }
}

/// The line goes on where the service is done.
fn goes_on(done: Result<(), Stop>) -> Result<Round, Stop>
    ensures { result ≡ round_of done }
{
    match done {
        Ok(()) => Ok(Round::GoesOn),
        Err(stop) => Err(stop),
    }
}

/// What a service that reaches no terminal leaves of the line.
fn goes_on_quietly(done: Result<(), Fault>) -> Result<Round, Stop>
    ensures { result ≡ round_of (stopped done) }
{
    match done {
        Ok(()) => Ok(Round::GoesOn),
        Err(fault) => Err(Stop::Fault(fault)),
    }
}

impl<D: SectorDevice> Forth<D> {
    ghost use Rattle.std.specs.Prelude.{ℕ, suc, List, None, ◌<◌, ◌≤◌};
    ghost use Rattle.cell_machine.specs.Frames.{Level, Due, Word, Core, around_of};
    ghost use Rattle.cell_machine.specs.Fault.{Aborts};
    ghost use Rattle.cell_machine.specs.Value.{Serve, Ends, and_then};
    ghost use Rattle.cell_machine.specs.Calling.{Outside};
    ghost use Rattle.cell_machine.specs.Layout.{TextAt};
    ghost use Rattle.dictionary.specs.Words.{entry};
    ghost use Rattle.lexicon.specs.Running.{meanings};
    ghost use Rattle.lexicon.specs.Stands.{IsSound as IsSoundLexicon};
    ghost use Rattle.interpreter.specs.State.{World, with_run};
    ghost use Rattle.interpreter.specs.Text.{serve, on_service, user_word};
    ghost use Rattle.interpreter.specs.Terminals.{print};
    ghost use Rattle.interpreter.specs.Law.{left};
    ghost use Rattle.interpreter.specs.Lexicon.{language_of, IsDue};
    ghost use Rattle.interpreter.specs.FreeServices.{WhereFree};
    ghost use Rattle.interpreter.specs.Representation.{core, Represents, IsSound};
    ghost use Rattle.interpreter.specs.ServiceContract.{Altered, Spares, Serves, Continues};
    ghost use Rattle.interpreter.specs.RoundContract.{RanRound, ContinuesRound, measure};

    /// A service, by the family of its word.
    fn do_service<T: Terminal>(&mut self, service: Service, terminal: &mut T) -> Result<Round, Stop>
        requires standing { IsSound self.old }
        requires sound { IsSoundLexicon self.old.lexicon }
        requires idle { self.old.machine.pending ≡ None }
        ensures round { (m : ℕ) (levels : List Level) (x : World) → self.old.steps ≤ m → Represents self.old levels x
            → RanRound T.Terminal (suc m) (λ r. and_then
            (on_service (suc m) (λ a due c x. serve m a due c x) service
            (around_of levels) (core self.old) (with_run r x))
            (λ c x. left (suc m) levels c x)) result self.old self.new terminal.old terminal.new x }
        ensures continues { ContinuesRound T.Terminal result self.old self.new terminal.old terminal.new }
    {
        match service {
            Service::OnTerminal(word) => goes_on(self.on_terminal(word, terminal)),
            Service::OnPicture(word) => goes_on_quietly(self.on_picture(word)),
            Service::OnText(word) => goes_on_quietly(self.on_text(word)),
            Service::OnName(word) => goes_on_quietly(self.on_name(word)),
            Service::OnLexicon(word) => goes_on_quietly(self.on_lexicon(word)),
            Service::OnDefinition(word) => goes_on_quietly(self.on_definition(word)),
            Service::OnBlocks(word) => goes_on_quietly(self.on_blocks(word)),
            Service::Execute => goes_on_quietly(self.execute()),
            Service::Load => goes_on_quietly(self.load()),
        }
    }

    /// A word that is no service, and that the machine can't call: a vocabulary becomes the first of the search.
    fn users_word(&mut self, token: u16) -> Result<(), Fault>
        requires sound { IsSoundLexicon self.old.lexicon }
        ensures alters { (f : ℕ) (inner : Serve World) (levels : List Level) (x : World) → Represents self.old levels x
            → meanings (language_of x) token ≡ Outside
            → Altered (λ r. user_word f inner token (entry x.words token) (around_of levels) (core self.old) (with_run r x))
            result self.old self.new levels x }
        ensures spares { Spares result self.old self.new }
    {
        if !self.lexicon.is_vocabulary(token) {
            return Err(Fault::Token);
        }
        self.lexicon.set_first(token);
        Ok(())
    }

    /// The word of this token.
    fn do_word<T: Terminal>(&mut self, token: u16, terminal: &mut T) -> Result<Round, Stop>
        requires standing { IsSound self.old }
        requires sound { IsSoundLexicon self.old.lexicon }
        requires idle { self.old.machine.pending ≡ None }
        ensures round { (m : ℕ) (levels : List Level) (x : World) → self.old.steps ≤ m → Represents self.old levels x
            → meanings (language_of x) token ≡ Outside
            → RanRound T.Terminal (suc m) (λ r. and_then
            (serve (suc m) (around_of levels) (Word token) (core self.old) (with_run r x))
            (λ c x. left (suc m) levels c x)) result self.old self.new terminal.old terminal.new x }
        ensures continues { ContinuesRound T.Terminal result self.old self.new terminal.old terminal.new }
    {
        match service_of(token) {
            Some(service) => self.do_service(service, terminal),
            None => goes_on_quietly(self.users_word(token)),
        }
    }

    /// Prints the text that begins at this place.
    fn print_text_at<T: Terminal>(&mut self, place: u16, terminal: &mut T) -> Result<(), Stop>
        requires text { (s : List ℕ) × TextAt self.old.lexicon.code place s }
        ensures serves { (s : List ℕ) → TextAt self.old.lexicon.code place s
            → Serves T.Terminal (λ a c x. print s c x) result self.old self.new terminal.old terminal.new }
        ensures continues { Continues T.Terminal result self.old self.new terminal.old terminal.new }
    {
        let count = self.lexicon.text(place, &mut self.text);
        let (text, _) = self.text.split_at(count);
        self.print(text, terminal)
    }

    /// A text is printed, and then the line is aborted.
    fn abort_with<T: Terminal>(&mut self, place: u16, terminal: &mut T) -> Result<(), Stop>
        requires text { (s : List ℕ) × TextAt self.old.lexicon.code place s }
        ensures serves { (s : List ℕ) → TextAt self.old.lexicon.code place s
            → Serves T.Terminal (λ a c x. and_then (print s c x) (λ c x. Ends Aborts c x))
            result self.old self.new terminal.old terminal.new }
        ensures continues { Continues T.Terminal result self.old self.new terminal.old terminal.new }
    {
        match self.print_text_at(place, terminal) {
            Ok(()) => Err(Stop::Abort),
            Err(stop) => Err(stop),
        }
    }

    /// The service that the machine asks for.
    pub(crate) fn serve<T: Terminal>(&mut self, op: Op, terminal: &mut T) -> Result<Round, Stop>
        requires asked { (levels : List Level) × (x : World) × (due : Due)
            × (Represents self.old levels x × IsDue self.old.lexicon (language_of x) op due) }
        requires idle { self.old.machine.pending ≡ None }
        ensures round { (n : ℕ) (levels : List Level) (x : World) (due : Due) → self.old.steps < n → Represents self.old levels x
            → IsDue self.old.lexicon (language_of x) op due
            → RanRound T.Terminal n (λ r. and_then
            (serve n (around_of levels) due (core self.old) (with_run r x)) (λ c x. left n levels c x))
            result self.old self.new terminal.old terminal.new x }
        ensures given { WhereFree op (measure self.new ≤ measure self.old) }
        ensures continues { ContinuesRound T.Terminal result self.old self.new terminal.old terminal.new }
    {
        match op {
            Op::Word(token) => self.do_word(token, terminal),
            Op::Text(place) => goes_on(self.print_text_at(place, terminal)),
            Op::AbortText(place) => goes_on(self.abort_with(place, terminal)),
            Op::Compile(token) => goes_on_quietly(self.add_word(token)),
            Op::Does(place) => goes_on_quietly(self.give_part(place)),
        }
    }
}
