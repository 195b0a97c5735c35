//! What ends a run of the machine, and what the machine is asked to do.

/// A service that is due. Texts and parts are named by their places.
#[derive(Clone, Copy, Debug, PartialEq, Eq)]
pub enum Op {
    /// A word that the machine neither does by itself nor can call: a system word that asks for something, or a user's
    /// word of which the caller alone knows what it does.
    Word(u16),
    /// A text to print.
    Text(u16),
    /// A text to print before an `ABORT`.
    AbortText(u16),
    /// A word to add to the open definition.
    Compile(u16),
    /// The part that `DOES>` gives the most recent word.
    Does(u16),
}

/// The faults that the machine itself finds.
#[derive(Clone, Copy, Debug, PartialEq, Eq)]
pub enum MachineFault {
    StackEmpty,
    StackFull,
    ReturnStack,
    Address,
    Division,
    Steps,
}

/// What ends a run of frame steps.
#[derive(Clone, Copy, Debug, PartialEq, Eq)]
pub enum Event {
    /// Nothing is left to do above the innermost load.
    Done,
    Fault(MachineFault),
    Quit,
    Abort,
    /// The caller does this, and resumes the machine.
    Service(Op),
}

/// What is to be done next: a word by itself, a body, or a part with the data address of its word.
#[derive(Clone, Copy, Debug, PartialEq, Eq)]
pub enum Work {
    /// Any word, by its token: one of the machine's own, one that it asks for, or a user's.
    Primitive(u16),
    /// The body that begins at this place.
    Body(u16),
    /// The part that begins at this place, and the data address.
    Part(u16, u16),
}
