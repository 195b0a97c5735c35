//! The memory of a system.
//! Rule: LANGUAGE, Memory; LANGUAGE, Limits.
ghost use Rattle.std.specs.Prelude.{IfOk};
ghost use Rattle.interpreter.specs.Memory.{IsBlank};

use crate::held_returns::HeldReturns;
use block_buffers::Buffers;
use data_space::DataSpace;
use lexicon::Lexicon;
use std::alloc::{AllocError, Global};

/// There is not enough memory.
pub type NoMemory = AllocError;

/// All memory that a system takes before its first line: data space of zeros, the system words, a return stack, and a
/// list of buffers. A system that is made of it takes no more but that of a block's buffer.
#[derive(Drop)]
pub struct Memory {
    pub(crate) space: DataSpace,
    pub(crate) lexicon: Lexicon,
    pub(crate) returns: HeldReturns,
    pub(crate) buffers: Buffers,
}

impl Memory {
    /// Takes all of it: 64 KB of data space, the words with their code, 256 units and a list of four buffers.
    /// `NoMemory` where any is refused.
    pub fn new(alloc: Global) -> Result<Memory, NoMemory>
        ensures { IfOk result IsBlank }
    {
        Ok(Memory {
            space: DataSpace::new(alloc)?,
            lexicon: Lexicon::new(alloc)?,
            returns: HeldReturns::new(alloc)?,
            buffers: Buffers::new(alloc)?,
        })
    }
}
