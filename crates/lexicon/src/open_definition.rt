//! The definition that is open, and what is added to it.
//! Rule: LANGUAGE, Definitions and structures.
ghost use Rattle.std.specs.Prelude.{◌≤◌, ◌<◌, IfErr, OnOk, length};
ghost use Rattle.cell_machine.specs.Layout.{most_tokens};
ghost use Rattle.compiler.specs.Definition.{add_literal, add_text, add_word};
ghost use Rattle.compiler.specs.Promise.{kind_of, fault_of as compile_fault};
ghost use Rattle.lexicon.specs.Language.{Language, beginning, changing, ending, dropped};
ghost use Rattle.lexicon.specs.Stands.{Stands, IsSound};
ghost use Rattle.lexicon.specs.Promise.{fault_of, Becomes, Goes, Stops};
ghost use Rattle.lexicon.specs.Structures.{adding};

use crate::language::{Lexicon, LexiconRefusal, Token};
use crate::structure;
use compiler::{CompileRefusal, TextKind};
use dictionary::Kind;
use system_words::words::Structure;

impl Lexicon {
    /// `:` begins a definition of this name, and makes the compilation vocabulary the first one. Refused as any new
    /// word, though `;` alone adds it.
    /// Rule: Forth-83 Standard, :.
    pub fn begin(&mut self, name: &[u8]) -> Result<(), LexiconRefusal>
        requires { IsSound self.old }
        ensures begun { OnOk result (Goes self.old self.new (beginning name.now)) }
        ensures refused { IfErr result (λ e. Stops self.old self.new (beginning name.now) (fault_of e)) }
    {
        // Name and room are looked at now, though `;` adds the word.
        match self.check_new(name) {
            Ok(()) => {
                // None is open, as the check found.
                let _ = self.compiler.begin(name);
                self.begun_at = self.here;
                self.dictionary.set_context(self.dictionary.current());
                Ok(())
            }
            Err(refusal) => Err(refusal),
        }
    }

    /// `;` ends the definition with 1 cell, and adds its word. `NoDefinition` where none is open, then `Unbalanced`
    /// where a structure is open or a mark of `COMPILE` waits for its word, then `CodeFull` where no cell is left.
    /// Rule: Forth-83 Standard, ;.
    pub fn finish(&mut self) -> Result<(), CompileRefusal>
        requires { IsSound self.old }
        ensures ended { OnOk result (Goes self.old self.new ending) }
        ensures refused { IfErr result (λ e. Stops self.old self.new ending (compile_fault e)) }
    {
        match self.compiler.finish(&mut self.code) {
            Ok(place) => {
                // `:` looked at the name, and no word was added since.
                let _ = self
                    .dictionary
                    .add(self.compiler.name(), Kind::Colon(place), self.begun_at);
                Ok(())
            }
            Err(refusal) => Err(refusal),
        }
    }

    /// Drops the open definition, if there is one.
    /// Rule: LANGUAGE, Lines and replies.
    pub fn abandon(&mut self)
        ensures { (x : Language) → Stands self.old x → Becomes self.old self.new x (dropped x) }
    {
        self.compiler.abandon();
    }

    /// Adds a literal, which takes 2 cells, to the open definition. Refused as any addition: `Unbalanced` where a mark
    /// of `COMPILE` waits for its word.
    /// Rule: Forth-83 Standard, LITERAL.
    pub fn literal(&mut self, cell: u16) -> Result<(), CompileRefusal>
        requires { IsSound self.old }
        ensures added { OnOk result (Goes self.old self.new (changing (λ used. add_literal used cell))) }
        ensures refused { IfErr result
            (λ e. Stops self.old self.new (changing (λ used. add_literal used cell)) (compile_fault e)) }
    {
        self.compiler.literal(&mut self.code, cell)
    }

    /// Adds a word, with a token of 1 to 4,096, which takes 1 cell, to the open definition, or after `COMPILE` one that
    /// the body adds when it runs. Refused as any addition: `Unbalanced` for an `EXIT` within a counted loop, but not
    /// after `COMPILE`.
    /// Rule: LANGUAGE, Definitions and structures; Forth-83 Standard, COMPILE.
    pub fn compile(&mut self, token: Token) -> Result<(), CompileRefusal>
        requires sound { IsSound self.old }
        requires from { 0 < token }
        requires most { token ≤ most_tokens }
        ensures added { OnOk result (Goes self.old self.new (changing (λ used. add_word used token))) }
        ensures refused { IfErr result (λ e. Stops self.old self.new (changing (λ used. add_word used token)) (compile_fault e)) }
    {
        self.compiler.call(&mut self.code, token)
    }

    /// Adds a text of at most 1,024 bytes to the open definition. Refused as any addition: `Unbalanced` where a mark of
    /// `COMPILE` waits for its word.
    /// Rule: Forth-83 Standard, ."; Forth-83 Standard, ABORT".
    pub fn add_text(&mut self, kind: TextKind, bytes: &[u8]) -> Result<(), CompileRefusal>
        requires sound { IsSound self.old }
        requires most { length bytes.now ≤ 1024 }
        ensures added { OnOk result (Goes self.old self.new (changing (λ used. add_text used (kind_of kind) bytes.now))) }
        ensures refused { IfErr result
            (λ e. Stops self.old self.new (changing (λ used. add_text used (kind_of kind) bytes.now)) (compile_fault e)) }
    {
        self.compiler.text(&mut self.code, kind, bytes)
    }

    /// Adds a structure word or `DOES>` to the open definition: it begins, goes on with or ends a structure, leaves a
    /// counted loop, or ends a part. Refused as any addition: `Unbalanced` where a mark of `COMPILE` waits for its
    /// word, where the innermost structure isn't one that the word goes on with or ends, for a `LEAVE` outside a
    /// counted loop, and for a `DOES>` while a structure is open. `CodeFull` is also the 257th structure.
    pub fn add_structure(&mut self, structure: Structure) -> Result<(), CompileRefusal>
        requires { IsSound self.old }
        ensures added { OnOk result (Goes self.old self.new (changing (adding structure))) }
        ensures refused { IfErr result (λ e. Stops self.old self.new (changing (adding structure)) (compile_fault e)) }
    {
        structure::add_to(&mut self.compiler, &mut self.code, structure)
    }
}
