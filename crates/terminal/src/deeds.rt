//! What a command does to an image, by its shape: what is written to one, printed or told of one, or made of one.
//! Rule: MANUAL, Commands.
use command_line::orders::Form;

/// What is written to an image that is opened for writing too.
#[derive(Clone, Copy)]
pub enum Writing<'a> {
    /// The lines of a text become this block.
    Put(u16, &'a str),
    /// What texts say in this form becomes the blocks from this one on.
    Import(u16, &'a [&'a str], Form),
    /// Such an import is only looked at, and told of.
    CheckImport(u16, &'a [&'a str], Form),
}

/// What is printed of an image, however it can be opened.
#[derive(Clone, Copy)]
pub enum Printing {
    /// A block, as the lines of a screen.
    List(u16),
    /// The blocks from the one to the other, in a form.
    Export(u16, u16, Form),
}

/// What is told of an image that is opened for reading alone.
#[derive(Clone, Copy)]
pub enum Looking {
    /// What it holds.
    Check,
    /// A digest of each block.
    Digests,
}

/// How an image is made of another one, which is only read.
#[derive(Clone, Copy)]
pub enum Making {
    /// Of the blocks that it means.
    Copy,
    /// Of those that can be had.
    Salvage,
}
