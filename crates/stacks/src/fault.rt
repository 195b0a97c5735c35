//! Why a call of a stack was refused.

/// Why a call of a stack was refused. The stack is then as it was.
#[derive(Clone, Copy, Debug, PartialEq, Eq)]
pub enum StackFault {
    /// There isn't room enough.
    Full,
    /// There is no such cell, or no such entry.
    Empty,
}
