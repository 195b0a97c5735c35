//! What tests ask for: that what was found is what was wanted.
use std::fmt::{Debug, Display};
use std::process::Abort;

/// What can end a test.
pub(crate) trait Assert {
    /// Ends the test where what was found isn't what was wanted, and tells both, and the place.
    fn same<T: PartialEq + Debug + Drop, P: Display + Drop>(&self, found: T, wanted: T, place: P);
}

impl<A: Abort> Assert for A {
    fn same<T: PartialEq + Debug + Drop, P: Display + Drop>(&self, found: T, wanted: T, place: P) {
        assert_eq!(self; found, wanted, "{place}");
    }
}

/// Ends the test where what was found isn't what was wanted, as `assert_eq!` does. That one writes a comparison and what it tells into each
/// function that has it, and this is one call of it, which costs the prover a tenth.
macro_rules! assert_same {
    ($rt:expr; $found:expr, $wanted:expr $(,)?) => {
        $rt.same($found, $wanted, stringify!($found))
    };
    ($rt:expr; $found:expr, $wanted:expr, $($place:tt)+) => {
        $rt.same($found, $wanted, format_args!($($place)+))
    };
}

pub(crate) use assert_same;
