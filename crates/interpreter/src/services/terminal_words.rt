//! Words that print or read.
ghost use Rattle.std.specs.Prelude.{◌≡◌, nat_lt, if◌then◌else◌};

use crate::fault::{Fault, Stop};
use crate::forth::Forth;
use crate::terminal::{IoFault, Terminal};
use sector_disk::SectorDevice;
use system_words::words::TerminalWord;

/// As many blanks as a cell may ask for.
static BLANKS: [u8; 32767] = [b' '; 32767];

/// How many blanks a cell asks for: none where it is negative.
fn count_of(cell: u16) -> u16
    ensures { result ≡ (if nat_lt cell 32768 then cell else 0) }
{
    if cell < 0x8000 { cell } else { 0 }
}

impl<D: SectorDevice> Forth<D> {
    ghost use Rattle.std.specs.Prelude.{◌∷◌, []};
    ghost use Rattle.system_words.specs.declared.words.TerminalWord.TheVariants.{Emit, NewLine, Blank, Blanks, TypeText};
    ghost use Rattle.interpreter.specs.Terminals.{print, on_terminal};
    ghost use Rattle.interpreter.specs.ServiceContract.{Serves, Continues};

    /// A word that prints, or reads the input after the line.
    pub(crate) fn on_terminal<T: Terminal>(
        &mut self,
        word: TerminalWord,
        terminal: &mut T,
    ) -> Result<(), Stop>
        ensures serves { Serves T.Terminal (λ a c x. on_terminal word c x) result self.old self.new terminal.old terminal.new }
        ensures continues { Continues T.Terminal result self.old self.new terminal.old terminal.new }
    {
        match word {
            TerminalWord::NewLine => self.new_line(terminal),
            TerminalWord::Emit => self.emit(terminal),
            TerminalWord::Expect => self.expect(terminal),
            TerminalWord::Key => self.key(terminal),
            TerminalWord::Blank => self.blank(terminal),
            TerminalWord::Blanks => self.blanks(terminal),
            TerminalWord::TypeText => self.type_text(terminal),
            TerminalWord::Dot => self.dot(terminal),
            TerminalWord::PrintText => self.print_text(terminal),
            TerminalWord::UnsignedDot => self.unsigned_dot(terminal),
        }
    }

    /// Prints these bytes, in one call of the terminal.
    pub(crate) fn print<T: Terminal>(&self, bytes: &[u8], terminal: &mut T) -> Result<(), Stop>
        ensures serves { Serves T.Terminal (λ a c x. print bytes.now c x) result self.now self.now terminal.old terminal.new }
        ensures continues { Continues T.Terminal result self.now self.now terminal.old terminal.new }
    {
        match terminal.emit(bytes) {
            Ok(()) => Ok(()),
            Err(IoFault) => Err(Stop::Io),
        }
    }

    /// `EMIT`.
    fn emit<T: Terminal>(&mut self, terminal: &mut T) -> Result<(), Stop>
        ensures serves { Serves T.Terminal (λ a c x. on_terminal Emit c x) result self.old self.new terminal.old terminal.new }
        ensures continues { Continues T.Terminal result self.old self.new terminal.old terminal.new }
    {
        match self.stack.pop() {
            Ok(cell) => self.print(&[(cell % 256) as u8], terminal),
            Err(_) => Err(Stop::Fault(Fault::StackEmpty)),
        }
    }

    /// `CR`.
    fn new_line<T: Terminal>(&mut self, terminal: &mut T) -> Result<(), Stop>
        ensures serves { Serves T.Terminal (λ a c x. on_terminal NewLine c x) result self.old self.new terminal.old terminal.new }
        ensures continues { Continues T.Terminal result self.old self.new terminal.old terminal.new }
    {
        self.print(b"\n", terminal)
    }

    /// `SPACE`.
    fn blank<T: Terminal>(&mut self, terminal: &mut T) -> Result<(), Stop>
        ensures serves { Serves T.Terminal (λ a c x. on_terminal Blank c x) result self.old self.new terminal.old terminal.new }
        ensures continues { Continues T.Terminal result self.old self.new terminal.old terminal.new }
    {
        self.print(b" ", terminal)
    }

    /// `SPACES`.
    fn blanks<T: Terminal>(&mut self, terminal: &mut T) -> Result<(), Stop>
        ensures serves { Serves T.Terminal (λ a c x. on_terminal Blanks c x) result self.old self.new terminal.old terminal.new }
        ensures continues { Continues T.Terminal result self.old self.new terminal.old terminal.new }
    {
        match self.stack.pop() {
            Ok(cell) => {
                let count = count_of(cell);
                if self.steps < u32::from(count) {
                    return Err(Stop::Fault(Fault::Steps));
                }
                self.steps -= u32::from(count);
                self.print(&BLANKS[..usize::from(count)], terminal)
            }
            Err(_) => Err(Stop::Fault(Fault::StackEmpty)),
        }
    }

    /// `TYPE`.
    fn type_text<T: Terminal>(&mut self, terminal: &mut T) -> Result<(), Stop>
        ensures serves { Serves T.Terminal (λ a c x. on_terminal TypeText c x)
            result self.old self.new terminal.old terminal.new }
        ensures continues { Continues T.Terminal result self.old self.new terminal.old terminal.new }
    {
        match self.pop_two() {
            Ok((u, a)) => {
                if self.steps < u32::from(u) {
                    return Err(Stop::Fault(Fault::Steps));
                }
                self.steps -= u32::from(u);
                match self.space.slice(a, u) {
                    Some(bytes) => self.print(bytes, terminal),
                    None => Err(Stop::Fault(Fault::Address)),
                }
            }
            Err(fault) => Err(Stop::Fault(fault)),
        }
    }
}
