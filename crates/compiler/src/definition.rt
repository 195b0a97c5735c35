//! The open definition: its beginning and end, and what is added to it that is no structure.
//! Rule: LANGUAGE, Definitions and structures.
ghost use Rattle.std.specs.Prelude.{◌≡◌, ◌≢◌, ◌+◌, ◌<◌, ◌≤◌, ℕ, List, length, slice_index, true, false, None, Some, OnOk, OnErr, IfOk, IfErr, Option, is_some};
ghost use Rattle.cell_machine.specs.Layout.{text_cell, most_tokens};
ghost use Rattle.compiler.specs.Definition.{Definition, add_literal, add_word, add_text, end_definition};
ghost use Rattle.compiler.specs.Represents.{IsSound, IsClosed, Holds, used, name_of};
ghost use Rattle.compiler.specs.Promise.{SameBelow, Added, Refused, BodiesStay, Opened, NotOpened, Finished, kind_of};

use crate::opens::Opens;
use arrayvec::ArrayVec;
use cell_machine::code::Code;
use cell_machine::marks;
use std::alloc::{AllocError, Global};

/// No memory was found.
pub type NoMemory = AllocError;

/// What a call answers where it adds nothing. Nothing is changed then.
#[derive(Clone, Copy, Debug, PartialEq, Eq)]
pub enum CompileRefusal {
    /// No definition is open.
    NoDefinition,
    /// A definition is open.
    DefinitionOpen,
    /// It doesn't fit the innermost structure, or stands where a word has to.
    Unbalanced,
    /// Too few cells are left for it, or it would be the 257th open structure.
    CodeFull,
}

/// What a text does when it is run.
#[derive(Clone, Copy)]
pub enum TextKind {
    /// `."` prints it.
    Prints,
    /// `ABORT"` takes a flag, and where that isn't 0 prints the text and aborts.
    AbortsWith,
}

/// The open definition, if there is one, and where the bodies end. No call but `Compiler::new` takes memory.
///
/// An addition to the definition is refused, in this order: `NoDefinition` where none is open; `Unbalanced` where a
/// mark of `COMPILE` waits for its word and this is none, or where it doesn't fit, as the call says; `CodeFull` where
/// its cells would pass 32,768, or it would be the 257th open structure. A refused call has changed nothing.
/// Rule: LANGUAGE, Definitions and structures.
#[derive(Drop)]
pub struct Compiler {
    is_open: bool,
    /// its name, or that of the last one
    name: ArrayVec<u8, 31>,
    /// where all other bodies end
    start: u16,
    /// where its last part begins
    pub(crate) part: u16,
    /// the next free cell
    pub(crate) here: u16,
    /// a mark of `COMPILE` waits for its word
    marked: bool,
    /// within a loop the last cell in which a LEAVE will say where it goes, or 0: each such cell holds the one before
    /// it
    pub(crate) leaves: Option<u16>,
    pub(crate) opens: Opens,
}

impl Compiler {
    /// A compiler with no definition open and no cell used. `NoMemory` where there is none for the 256 structures.
    /// Rule: LANGUAGE, Limits.
    pub fn new(alloc: Global) -> Result<Compiler, NoMemory>
        ensures closed { IfOk result (λ compiler. IsClosed compiler) }
        ensures empty { IfOk result (λ compiler. used compiler ≡ 0) }
    {
        Ok(Compiler {
            is_open: false,
            name: ArrayVec::new(),
            start: 0,
            part: 0,
            here: 0,
            marked: false,
            leaves: None,
            opens: Opens::new(alloc)?,
        })
    }

    /// Whether a definition is open.
    #[inline]
    pub fn is_open(&self) -> bool
        ensures { (code : List ℕ) (o : Option Definition) → Holds self.now code o → result ≡ is_some o }
    {
        self.opened().is_ok()
    }

    /// Where the bodies end, 0 to 32,768, but for that of the open definition, which begins there.
    /// Rule: ARCHITECTURE, The code cells.
    #[inline]
    pub fn end(&self) -> u16
        ensures { result ≡ used self.now }
    {
        self.start // and not `here`, where it goes on
    }

    /// The name of the open definition, or of the last one: 0 to 31 bytes.
    pub fn name(&self) -> &[u8]
        ensures { result.now ≡ name_of self.now }
    {
        self.name.as_slice()
    }

    /// `:` opens a definition. The name has at most 31 bytes. `DefinitionOpen` where one is open.
    /// Rule: Forth-83 Standard, :.
    pub fn begin(&mut self, name: &[u8]) -> Result<(), CompileRefusal>
        requires { length name.now ≤ 31 }
        ensures opened { OnOk result (Opened self.old self.new name.now) }
        ensures refused { IfErr result (NotOpened self.old self.new) }
        ensures bodies { used self.new ≡ used self.old }
    {
        if self.is_open {
            return Err(CompileRefusal::DefinitionOpen);
        }
        self.name.clear();
        // At most 31 bytes: they fit.
        let _ = self.name.try_extend_from_slice(name);
        self.is_open = true;
        self.part = self.start;
        self.here = self.start;
        self.marked = false;
        self.leaves = None;
        self.opens.clear();
        Ok(())
    }

    /// `;` ends the definition with 1 cell, and answers the place of its body's first cell. Refused as any addition,
    /// and as `Unbalanced` where a structure is open.
    /// Rule: Forth-83 Standard, ;.
    pub fn finish(&mut self, code: &mut Code) -> Result<u16, CompileRefusal>
        requires { IsSound self.old code.old }
        ensures finished { IfOk result (Finished self.old code.old self.new code.new) }
        ensures refused { IfErr result (Refused self.old code.old self.new code.new end_definition) }
        ensures named { name_of self.new ≡ name_of self.old }
        ensures below { SameBelow (used self.old) code.old code.new }
    {
        self.opened()?;
        self.unmarked()?;
        self.outside()?; // an open IF is UNBALANCED
        self.room(1)?;
        code.set(self.here, marks::END);
        code.prepare(self.start, self.here + 1);
        let place = self.start;
        self.close(self.here + 1);
        Ok(place)
    }

    /// Drops the open definition, if there is one, and gives its cells back.
    /// Rule: LANGUAGE, Lines and replies.
    pub fn abandon(&mut self)
        ensures closed { (code : List ℕ) (o : Option Definition) → Holds self.old code o → IsClosed self.new }
        ensures bodies { used self.new ≡ used self.old }
    {
        self.close(self.start);
    }

    /// Gives back the cells from a place on, which is at most `end`: the bodies that lie there are forgotten. No
    /// definition is open.
    /// Rule: Forth-83 Standard, FORGET; ARCHITECTURE, The code cells.
    pub fn cut(&mut self, place: u16)
        requires closed { IsClosed self.old }
        requires within { place ≤ used self.old }
        ensures closed { IsClosed self.new }
        ensures cut { used self.new ≡ place }
    {
        self.start = place;
    }

    /// Adds a literal, which takes 2 cells. Refused as any addition.
    /// Rule: Forth-83 Standard, LITERAL; LANGUAGE, Limits.
    pub fn literal(&mut self, code: &mut Code, v: u16) -> Result<(), CompileRefusal>
        requires { IsSound self.old code.old }
        ensures added { OnOk result (Added self.old code.old self.new code.new (λ used. add_literal used v)) }
        ensures refused { IfErr result (Refused self.old code.old self.new code.new (λ used. add_literal used v)) }
        ensures bodies { BodiesStay self.old code.old self.new code.new }
    {
        self.opened()?;
        self.unmarked()?;
        self.room(2)?;
        self.pair(code, marks::LITERAL, v);
        Ok(())
    }

    /// Adds a word, with a token of 1 to 4,096, or after `COMPILE` one that the body adds when it runs. It takes 1
    /// cell. Refused as any addition, and as `Unbalanced` for an `EXIT` within a counted loop, but not after `COMPILE`.
    /// Rule: LANGUAGE, Definitions and structures; Forth-83 Standard, COMPILE.
    pub fn call(&mut self, code: &mut Code, token: u16) -> Result<(), CompileRefusal>
        requires sound { IsSound self.old code.old }
        requires from { 0 < token }
        requires most { token ≤ most_tokens }
        ensures added { OnOk result (Added self.old code.old self.new code.new (λ used. add_word used token)) }
        ensures refused { IfErr result (Refused self.old code.old self.new code.new (λ used. add_word used token)) }
        ensures bodies { BodiesStay self.old code.old self.new code.new }
    {
        self.opened()?;
        self.exits(token)?;
        self.room(1)?;
        code.set(self.here, token);
        self.here += 1;
        if self.marked {
            self.marked = false;
            return Ok(());
        }
        if token == marks::COMPILE {
            self.marked = true;
            return Ok(());
        }
        Ok(())
    }

    /// Adds a text of at most 1,024 bytes, which takes 2 cells, and 1 for each two of its bytes, the last one's half
    /// filled up. Refused as any addition.
    /// Rule: LANGUAGE, Limits; Forth-83 Standard, ."; Forth-83 Standard, ABORT".
    pub fn text(
        &mut self,
        code: &mut Code,
        kind: TextKind,
        bytes: &[u8],
    ) -> Result<(), CompileRefusal>
        requires sound { IsSound self.old code.old }
        requires most { length bytes.now ≤ 1024 }
        ensures added { OnOk result (Added self.old code.old self.new code.new (λ used. add_text used (kind_of kind) bytes.now)) }
        ensures refused { IfErr result
            (Refused self.old code.old self.new code.new (λ used. add_text used (kind_of kind) bytes.now)) }
        ensures bodies { BodiesStay self.old code.old self.new code.new }
    {
        self.opened()?;
        self.unmarked()?;
        let cells = 2 + ((bytes.len() + 1) / 2) as u16;
        self.room(cells)?;
        code.set(self.here, mark_of(kind));
        code.set_text(self.here + 1, bytes);
        self.here += cells;
        Ok(())
    }

    /// No definition is open any more, and the bodies end here.
    #[inline]
    fn close(&mut self, end: u16)
        ensures { self.new ≡ record self.old { start = end; is_open = false } }
    {
        self.start = end;
        self.is_open = false;
    }

    /// A definition is open.
    #[inline]
    pub(crate) fn opened(&self) -> Result<(), CompileRefusal>
        ensures ok { OnOk result (self.now.is_open ≡ true) }
        ensures told { IfErr result (λ e. e ≡ CompileRefusal.NoDefinition) }
        ensures closed { OnErr result (self.now.is_open ≡ false) }
    {
        if self.is_open {
            Ok(())
        } else {
            Err(CompileRefusal::NoDefinition)
        }
    }

    /// No mark waits for its word.
    #[inline]
    pub(crate) fn unmarked(&self) -> Result<(), CompileRefusal>
        ensures ok { OnOk result (self.now.marked ≡ false) }
        ensures told { IfErr result (λ e. e ≡ CompileRefusal.Unbalanced) }
        ensures marked { OnErr result (self.now.marked ≡ true) }
    {
        if self.marked {
            Err(CompileRefusal::Unbalanced)
        } else {
            Ok(())
        }
    }

    /// No structure is open.
    #[inline]
    pub(crate) fn outside(&self) -> Result<(), CompileRefusal>
        ensures ok { OnOk result (length self.now.opens ≡ 0) }
        ensures told { IfErr result (λ e. e ≡ CompileRefusal.Unbalanced) }
        ensures inside { OnErr result (0 < length self.now.opens) }
    {
        if self.opens.len() == 0 {
            Ok(())
        } else {
            Err(CompileRefusal::Unbalanced)
        }
    }

    /// One more structure can be open.
    #[inline]
    pub(crate) fn few(&self) -> Result<(), CompileRefusal>
        ensures ok { OnOk result (length self.now.opens < 256) }
        ensures told { IfErr result (λ e. e ≡ CompileRefusal.CodeFull) }
        ensures many { OnErr result (256 ≤ length self.now.opens) }
    {
        if self.opens.len() < 256 {
            Ok(())
        } else {
            Err(CompileRefusal::CodeFull)
        }
    }

    /// So many cells are left.
    #[inline]
    pub(crate) fn room(&self, cells: u16) -> Result<(), CompileRefusal>
        requires { cells ≤ 32768 }
        ensures ok { OnOk result (self.now.here + cells ≤ 32768) }
        ensures told { IfErr result (λ e. e ≡ CompileRefusal.CodeFull) }
        ensures full { OnErr result (32768 < self.now.here + cells) }
    {
        if self.here > 32768 - cells {
            Err(CompileRefusal::CodeFull)
        } else {
            Ok(())
        }
    }

    /// The token isn't that of an `EXIT` within a loop.
    #[inline]
    fn exits(&self, token: u16) -> Result<(), CompileRefusal>
        ensures ok { OnOk result (self.now.marked ≡ false → token ≡ 38 → self.now.leaves ≡ None) }
        ensures told { IfErr result (λ e. e ≡ CompileRefusal.Unbalanced) }
        ensures unmarked { OnErr result (self.now.marked ≡ false) }
        ensures exit { OnErr result (token ≡ 38) }
        ensures inside { OnErr result (self.now.leaves ≢ None) }
    {
        if self.marked {
            return Ok(());
        }
        if token != marks::EXIT {
            return Ok(());
        }
        match self.leaves {
            Some(_) => Err(CompileRefusal::Unbalanced),
            None => Ok(()),
        }
    }

    /// Writes two cells at the end.
    #[inline]
    pub(crate) fn pair(&mut self, code: &mut Code, first: u16, second: u16)
        requires { self.old.here + 2 ≤ 32768 }
        ensures here { self.new ≡ record self.old { here = self.old.here + 2 } }
        ensures first { slice_index code.new self.old.here ≡ first }
        ensures second { slice_index code.new (self.old.here + 1) ≡ second }
        ensures below { SameBelow self.old.here code.old code.new }
    {
        code.set(self.here, first);
        code.set(self.here + 1, second);
        self.here += 2;
    }
}

/// The cell that begins a text.
fn mark_of(kind: TextKind) -> u16
    ensures { result ≡ text_cell (kind_of kind) }
{
    match kind {
        TextKind::Prints => marks::PRINTS,
        TextKind::AbortsWith => marks::ABORTS_WITH,
    }
}
