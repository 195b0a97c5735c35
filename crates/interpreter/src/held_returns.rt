//! The return stack that a system holds.
//! Rule: LANGUAGE, Limits.
ghost use Rattle.std.specs.Prelude.{◌≡◌, [], IfOk};
ghost use Rattle.std.specs.Borrow.{sem};
ghost use Rattle.interpreter.specs.HeldReturns.{LendsStack};

use crate::memory::NoMemory;
use stacks::ReturnStack;
use std::alloc::Global;
use std::marker::Model;

/// A return stack in the heap, so that a system that is moved doesn't carry it along. Contracts see it as the list of
/// its entries, the top first.
#[derive(Drop)]
pub struct HeldReturns {
    stack: Box<ReturnStack>,
}

impl Model for HeldReturns {
    ghost use Rattle.std.specs.Prelude.{List};
    ghost use Rattle.stacks.specs.declared.return_stack.Entry.{Entry};

    ghost Value = { List Entry };

    ghost view = { λ r. r.stack.value };
}

impl HeldReturns {
    /// An empty stack. `NoMemory` where none was found for it.
    // It is built on the stack of this call, which so is one of its own.
    #[inline(never)]
    pub fn new(alloc: Global) -> Result<HeldReturns, NoMemory>
        ensures { IfOk result (λ returns. returns ≡ []) }
    {
        Ok(HeldReturns {
            stack: Box::new(alloc, ReturnStack::new())?,
        })
    }

    /// The stack, to look at.
    #[inline]
    pub fn stack(&self) -> &ReturnStack
        ensures { result.now ≡ self.now }
    {
        &self.stack
    }

    /// Lends the stack: what the borrower leaves is what is held.
    #[inline]
    pub fn lend(&mut self) -> &mut ReturnStack
        ensures* lends { sem 𝓛 (LendsStack self.entry result) }
        ensures value { result.now ≡ self.old }
    {
        &mut self.stack
    }
}
