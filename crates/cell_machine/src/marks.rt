//! The cells of a body that are no tokens of words, and the two tokens that have forms of their own. A token is 1 to
//! 4,096.

/// A literal; the next cell is its value.
pub const LITERAL: u16 = 4097;

/// A test; the next cell is where it goes where the test fails.
pub const TEST: u16 = 4098;

/// A jump past the second half of a choice; the next cell is where it goes.
pub const JUMP: u16 = 4099;

/// A jump back to where a loop with a test begins; the next cell is where it goes.
pub const BACK: u16 = 4100;

/// The beginning of a `DO` loop.
pub const DO: u16 = 4101;

/// The end of a turn, by `LOOP`; the next cell is where a turn begins.
pub const LOOP: u16 = 4102;

/// The end of a turn, by `+LOOP`; the next cell is where a turn begins.
pub const PLUS_LOOP: u16 = 4103;

/// Leaves a loop; the next cell is the place after it.
pub const LEAVE: u16 = 4104;

/// A text to print; the next cell is its length, then come its bytes, two in a cell.
pub const PRINTS: u16 = 4105;

/// A text that aborts, laid out like one to print.
pub const ABORTS_WITH: u16 = 4106;

/// The end of a part, by `DOES>`.
pub const DOES: u16 = 4107;

/// The end of a body.
pub const END: u16 = 4108;

/// The token of `EXIT`, which stands in a body as itself.
pub const EXIT: u16 = 38;

/// The token of `COMPILE`; the next cell is the word that the body adds when it runs.
pub const COMPILE: u16 = 111;
