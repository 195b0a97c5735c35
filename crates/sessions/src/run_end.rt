//! With what a run ends.

/// With what a run that no stream broke off has ended.
#[derive(Clone, Copy, Debug, PartialEq, Eq)]
pub enum RunEnd {
    /// The input: each of its lines was run.
    Input,
    /// A line that failed: a fault, `ABORT` or a true `ABORT"` ended it. It was run last.
    Failure,
}
