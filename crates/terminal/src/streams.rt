//! The streams of a command.
//! Rule: PROGRAM, Exit status and messages.

/// What a command reads, where it prints, and where it tells of failures and faults. Input is read byte by byte and a
/// reply is written piece by piece, so both should be buffered.
#[derive(Drop)]
pub struct Streams<R, W, E> {
    /// What it reads.
    pub input: R,
    /// Where it prints.
    pub output: W,
    /// Where it tells of failures.
    pub errors: E,
}
