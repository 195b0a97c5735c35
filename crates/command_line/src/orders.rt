//! What the words of a command line may ask for.
//! Rule: MANUAL, Commands; MANUAL, Where a fault came; MANUAL, Lines that are undone.
ghost use Rattle.std.specs.Prelude.{◌≡◌, IsSome, None};

/// How blocks are written to a file, and read from one.
#[derive(Clone, Copy, Debug, PartialEq, Eq)]
pub enum Form {
    /// As 16 lines each.
    Text,
    /// As they are, 1,024 bytes each.
    Raw,
}

/// How an image that is made is laid out.
#[derive(Clone, Copy, Debug, PartialEq, Eq)]
pub enum Layout {
    /// By layout 2, which is made where none is asked for.
    Two,
    /// By layout 3.
    Three,
}

/// How a session over an image is run.
#[derive(Debug, Drop)]
pub struct Script<'a> {
    /// The block that is loaded before the first line, if one is.
    pub load: Option<u16>,
    /// The files whose lines are run.
    pub files: Vec<&'a str>,
    /// Whether the lines of the input are run behind them: where no file is named, or `-` is the last one.
    pub goes_on: bool,
    /// Whether it ends with the first line that fails: which a fault, `ABORT` or a true `ABORT"` ended.
    pub is_strict: bool,
    /// Whether it is told beside the replies which line failed, and where a fault came.
    pub is_traced: bool,
    /// Whether a line that fails takes back what was changed and not saved.
    pub undoes: bool,
}

impl Script<'_> {
    /// The number of the first line that is run: a line that loads a block stands before line 1.
    pub fn first_line(&self) -> u32
        ensures loads { IsSome self.now.load → result ≡ 0 }
        ensures no_load { self.now.load ≡ None → result ≡ 1 }
    {
        match self.load {
            Some(_) => 0,
            None => 1,
        }
    }
}

/// What the program is to do.
#[derive(Debug, Drop)]
pub enum Order<'a> {
    /// Run the input over blocks in memory.
    Memory,
    /// Make an image of so many blocks, by a layout.
    New(&'a str, u16, Layout),
    /// Run lines over an image, with so many steps a line.
    Run(&'a str, u32, Script<'a>),
    /// Print a block of an image.
    List(&'a str, u16),
    /// Make the lines of a file a block of an image.
    Put(&'a str, u16, &'a str),
    /// Print the blocks of an image from the one to the other.
    Export(&'a str, u16, u16, Form),
    /// Make the blocks that files say those of an image from this one on, in one save. Each file begins a block.
    Import(&'a str, u16, Vec<&'a str>, Form),
    /// Tell what keeps files from being imported there, and what else looks wrong in them.
    CheckImport(&'a str, u16, Vec<&'a str>, Form),
    /// Tell what an image holds.
    Check(&'a str),
    /// Tell the digest of each block of an image.
    Digests(&'a str),
    /// Tell what differs between the blocks of two images.
    Diff(&'a str, &'a str),
    /// Make an image by a layout of the blocks of one of an older layout.
    Upgrade(&'a str, &'a str, Layout),
    /// Make an image of the blocks of another one, of so many blocks or of as many.
    Copy(&'a str, &'a str, Option<u16>),
    /// Make an image of what can be had of a damaged one, which is to have so many blocks.
    Salvage(&'a str, &'a str, Option<u16>),
}
