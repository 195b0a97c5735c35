//! The definition that is open, compiled into code cells.
#![tactic(auto)]

pub use definition::{CompileRefusal, Compiler, NoMemory, TextKind};

mod definition;
mod leaves;
mod opens;
mod structures;
