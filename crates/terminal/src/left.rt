//! What a command leaves of the files that it has opened or made.
//! Rule: PROGRAM, Exit status and messages; MANUAL, Commands.

/// The devices of the files that a command has opened or made, as they are when it has ended, whatever its outcome is:
/// `D` is one that was opened for writing too or made, `E` one that was opened for reading alone.
#[derive(Drop)]
pub enum Left<D, E> {
    /// No file was opened or made.
    Nothing,
    /// An image was opened for writing too.
    Opened(D),
    /// A file was made for an image, which it may not hold where the command failed.
    Made(D),
    /// An image was opened for writing too, and a file was made for another one of its blocks, as by `Made`.
    Upgraded(D, D),
    /// An image was opened for reading alone.
    Looked(E),
    /// Two images were opened for reading alone.
    Compared(E, E),
    /// An image was opened for reading alone, and a file was made for another one of its blocks, as by `Made`.
    Copied(E, D),
}
