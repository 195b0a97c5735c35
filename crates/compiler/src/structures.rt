//! The structures of a definition, and `DOES>`, which stands within none.
//! Rule: LANGUAGE, Definitions and structures; LANGUAGE, Limits.
ghost use Rattle.std.specs.Prelude.{◌≡◌, ◌+◌, None, Some, OnOk, IfErr};
ghost use Rattle.cell_machine.specs.Tree.{ByOne, ByTop};
ghost use Rattle.cell_machine.specs.Layout.{end_of};
ghost use Rattle.compiler.specs.Definition.{add_if, add_else, add_then, add_begin, add_until, add_while, add_repeat, add_do, add_loop, add_leave, add_does};
ghost use Rattle.compiler.specs.Represents.{IsSound, used};
ghost use Rattle.compiler.specs.Promise.{Added, Refused, BodiesStay, loop_kind_of};

use crate::definition::{CompileRefusal, Compiler};
use crate::leaves::patch_leaves;
use crate::opens::Open;
use cell_machine::code::Code;
use cell_machine::marks;

/// What ends a turn of a loop.
#[derive(Clone, Copy)]
enum LoopEnd {
    /// `LOOP`
    ByOne,
    /// `+LOOP`
    ByTop,
}

impl Compiler {
    /// `IF` begins a choice, with a test of 2 cells. Refused as any addition.
    /// Rule: Forth-83 Standard, IF.
    pub fn add_if(&mut self, code: &mut Code) -> Result<(), CompileRefusal>
        requires { IsSound self.old code.old }
        ensures added { OnOk result (Added self.old code.old self.new code.new add_if) }
        ensures refused { IfErr result (Refused self.old code.old self.new code.new add_if) }
        ensures bodies { BodiesStay self.old code.old self.new code.new }
    {
        self.opened()?;
        self.unmarked()?;
        self.few()?;
        self.room(2)?;
        code.set(self.here, marks::TEST);
        self.opens.push(Open::If(self.here));
        self.here += 2;
        Ok(())
    }

    /// `ELSE` begins the second half of a choice, with a jump of 2 cells. Refused as any addition, and as `Unbalanced`
    /// where the innermost structure is no `IF`, or one with its `ELSE`.
    /// Rule: Forth-83 Standard, ELSE.
    pub fn add_else(&mut self, code: &mut Code) -> Result<(), CompileRefusal>
        requires { IsSound self.old code.old }
        ensures added { OnOk result (Added self.old code.old self.new code.new add_else) }
        ensures refused { IfErr result (Refused self.old code.old self.new code.new add_else) }
        ensures bodies { BodiesStay self.old code.old self.new code.new }
    {
        self.opened()?;
        self.unmarked()?;
        match self.opens.innermost() {
            Some(Open::If(test)) => {
                self.room(2)?;
                code.set(self.here, marks::JUMP);
                code.set(test + 1, self.here + 2);
                self.opens.change(Open::Else(self.here));
                self.here += 2;
                Ok(())
            }
            _ => Err(CompileRefusal::Unbalanced),
        }
    }

    /// `THEN` ends a choice, with no cell. Refused as any addition, and as `Unbalanced` where the innermost structure
    /// is no `IF`.
    /// Rule: Forth-83 Standard, THEN.
    pub fn add_then(&mut self, code: &mut Code) -> Result<(), CompileRefusal>
        requires { IsSound self.old code.old }
        ensures added { OnOk result (Added self.old code.old self.new code.new add_then) }
        ensures refused { IfErr result (Refused self.old code.old self.new code.new add_then) }
        ensures bodies { BodiesStay self.old code.old self.new code.new }
    {
        self.opened()?;
        self.unmarked()?;
        match self.opens.innermost() {
            Some(Open::If(test)) => {
                code.set(test + 1, self.here);
                self.opens.close();
                Ok(())
            }
            Some(Open::Else(jump)) => {
                code.set(jump + 1, self.here);
                self.opens.close();
                Ok(())
            }
            _ => Err(CompileRefusal::Unbalanced),
        }
    }

    /// `BEGIN` begins a loop with a test, with no cell. Refused as any addition.
    /// Rule: Forth-83 Standard, BEGIN.
    pub fn add_begin(&mut self, code: &mut Code) -> Result<(), CompileRefusal>
        requires { IsSound self.old code.old }
        ensures added { OnOk result (Added self.old code.old self.new code.new add_begin) }
        ensures refused { IfErr result (Refused self.old code.old self.new code.new add_begin) }
        ensures bodies { BodiesStay self.old code.old self.new code.new }
    {
        self.opened()?;
        self.unmarked()?;
        self.few()?;
        self.opens.push(Open::Begin(self.here));
        Ok(())
    }

    /// `UNTIL` ends a loop with a test of 2 cells. Refused as any addition, and as `Unbalanced` where the innermost
    /// structure is no `BEGIN`, or one with its `WHILE`.
    /// Rule: Forth-83 Standard, UNTIL.
    pub fn add_until(&mut self, code: &mut Code) -> Result<(), CompileRefusal>
        requires { IsSound self.old code.old }
        ensures added { OnOk result (Added self.old code.old self.new code.new add_until) }
        ensures refused { IfErr result (Refused self.old code.old self.new code.new add_until) }
        ensures bodies { BodiesStay self.old code.old self.new code.new }
    {
        self.opened()?;
        self.unmarked()?;
        match self.opens.innermost() {
            Some(Open::Begin(begin)) => {
                self.room(2)?;
                self.pair(code, marks::TEST, begin);
                self.opens.close();
                Ok(())
            }
            _ => Err(CompileRefusal::Unbalanced),
        }
    }

    /// `WHILE` gives a loop its way out, with a test of 2 cells. Refused as any addition, and as `Unbalanced` where the
    /// innermost structure is no `BEGIN`, or one with its `WHILE`.
    /// Rule: Forth-83 Standard, WHILE.
    pub fn add_while(&mut self, code: &mut Code) -> Result<(), CompileRefusal>
        requires { IsSound self.old code.old }
        ensures added { OnOk result (Added self.old code.old self.new code.new add_while) }
        ensures refused { IfErr result (Refused self.old code.old self.new code.new add_while) }
        ensures bodies { BodiesStay self.old code.old self.new code.new }
    {
        self.opened()?;
        self.unmarked()?;
        match self.opens.innermost() {
            Some(Open::Begin(begin)) => {
                self.room(2)?;
                code.set(self.here, marks::TEST);
                self.opens.change(Open::While(begin, self.here));
                self.here += 2;
                Ok(())
            }
            _ => Err(CompileRefusal::Unbalanced),
        }
    }

    /// `REPEAT` ends a loop that has its `WHILE`, with a jump back of 2 cells. Refused as any addition, and as
    /// `Unbalanced` where the innermost structure is no such loop.
    /// Rule: Forth-83 Standard, REPEAT.
    pub fn add_repeat(&mut self, code: &mut Code) -> Result<(), CompileRefusal>
        requires { IsSound self.old code.old }
        ensures added { OnOk result (Added self.old code.old self.new code.new add_repeat) }
        ensures refused { IfErr result (Refused self.old code.old self.new code.new add_repeat) }
        ensures bodies { BodiesStay self.old code.old self.new code.new }
    {
        self.opened()?;
        self.unmarked()?;
        match self.opens.innermost() {
            Some(Open::While(begin, way_out)) => {
                self.room(2)?;
                self.pair(code, marks::BACK, begin);
                code.set(way_out + 1, self.here);
                self.opens.close();
                Ok(())
            }
            _ => Err(CompileRefusal::Unbalanced),
        }
    }

    /// `DO` begins a counted loop, with 1 cell. Refused as any addition.
    /// Rule: Forth-83 Standard, DO.
    pub fn add_do(&mut self, code: &mut Code) -> Result<(), CompileRefusal>
        requires { IsSound self.old code.old }
        ensures added { OnOk result (Added self.old code.old self.new code.new add_do) }
        ensures refused { IfErr result (Refused self.old code.old self.new code.new add_do) }
        ensures bodies { BodiesStay self.old code.old self.new code.new }
    {
        self.opened()?;
        self.unmarked()?;
        self.few()?;
        self.room(1)?;
        code.set(self.here, marks::DO);
        self.opens.push(Open::Do(self.here, self.leaves));
        self.leaves = Some(0);
        self.here += 1;
        Ok(())
    }

    /// `LOOP` ends a counted loop, whose index grows by 1, with 2 cells; each of its `LEAVE`s goes behind them. Refused
    /// as any addition, and as `Unbalanced` where the innermost structure is no `DO`.
    /// Rule: Forth-83 Standard, LOOP.
    pub fn add_loop(&mut self, code: &mut Code) -> Result<(), CompileRefusal>
        requires { IsSound self.old code.old }
        ensures added { OnOk result (Added self.old code.old self.new code.new (λ used. add_loop used ByOne)) }
        ensures refused { IfErr result (Refused self.old code.old self.new code.new (λ used. add_loop used ByOne)) }
        ensures bodies { BodiesStay self.old code.old self.new code.new }
    {
        self.end_loop(code, LoopEnd::ByOne)
    }

    /// `+LOOP` ends a counted loop, whose index grows by the top cell, with 2 cells; each of its `LEAVE`s goes behind
    /// them. Refused as any addition, and as `Unbalanced` where the innermost structure is no `DO`.
    /// Rule: Forth-83 Standard, +LOOP.
    pub fn add_plus_loop(&mut self, code: &mut Code) -> Result<(), CompileRefusal>
        requires { IsSound self.old code.old }
        ensures added { OnOk result (Added self.old code.old self.new code.new (λ used. add_loop used ByTop)) }
        ensures refused { IfErr result (Refused self.old code.old self.new code.new (λ used. add_loop used ByTop)) }
        ensures bodies { BodiesStay self.old code.old self.new code.new }
    {
        self.end_loop(code, LoopEnd::ByTop)
    }

    /// `LEAVE` goes behind the end of the innermost counted loop, also from structures within it, with 2 cells. Refused
    /// as any addition, and as `Unbalanced` outside a counted loop.
    /// Rule: Forth-83 Standard, LEAVE.
    pub fn add_leave(&mut self, code: &mut Code) -> Result<(), CompileRefusal>
        requires { IsSound self.old code.old }
        ensures added { OnOk result (Added self.old code.old self.new code.new add_leave) }
        ensures refused { IfErr result (Refused self.old code.old self.new code.new add_leave) }
        ensures bodies { BodiesStay self.old code.old self.new code.new }
    {
        self.opened()?;
        self.unmarked()?;
        match self.leaves {
            Some(last) => {
                self.room(2)?;
                self.pair(code, marks::LEAVE, last);
                self.leaves = Some(self.here - 1);
                Ok(())
            }
            None => Err(CompileRefusal::Unbalanced),
        }
    }

    /// `DOES>` ends the part before it, with 1 cell; what comes next is the next part. Refused as any addition, and as
    /// `Unbalanced` where a structure is open.
    /// Rule: Forth-83 Standard, DOES>.
    pub fn add_does(&mut self, code: &mut Code) -> Result<(), CompileRefusal>
        requires { IsSound self.old code.old }
        ensures added { OnOk result (Added self.old code.old self.new code.new add_does) }
        ensures refused { IfErr result (Refused self.old code.old self.new code.new add_does) }
        ensures bodies { BodiesStay self.old code.old self.new code.new }
    {
        self.opened()?;
        self.unmarked()?;
        self.outside()?;
        self.room(1)?;
        code.set(self.here, marks::DOES);
        self.here += 1;
        self.part = self.here;
        Ok(())
    }

    /// The end of a turn, and of the loop: each LEAVE of it goes past the end.
    fn end_loop(&mut self, code: &mut Code, end: LoopEnd) -> Result<(), CompileRefusal>
        requires { IsSound self.old code.old }
        ensures added { OnOk result (Added self.old code.old self.new code.new (λ used. add_loop used (loop_kind_of end))) }
        ensures refused { IfErr result (Refused self.old code.old self.new code.new (λ used. add_loop used (loop_kind_of end))) }
        ensures bodies { BodiesStay self.old code.old self.new code.new }
    {
        self.opened()?;
        self.unmarked()?;
        match self.opens.innermost() {
            Some(Open::Do(begin, outer)) => {
                self.room(2)?;
                self.pair(code, end_mark_of(end), begin + 1);
                patch_leaves(code, self.leaves.unwrap_or(0), self.here);
                self.leaves = outer;
                self.opens.close();
                Ok(())
            }
            _ => Err(CompileRefusal::Unbalanced),
        }
    }
}

/// The cell that ends a turn.
fn end_mark_of(end: LoopEnd) -> u16
    ensures { result ≡ end_of (loop_kind_of end) }
{
    match end {
        LoopEnd::ByOne => marks::LOOP,
        LoopEnd::ByTop => marks::PLUS_LOOP,
    }
}
