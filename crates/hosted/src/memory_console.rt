//! A console that keeps what is assumed of one.
//! Rule: EMBEDDING, What is proved.
ghost use Rattle.std.specs.Prelude.{◌≡◌, Some, [], drop};

use crate::console::{Console, FOLLOWS};

/// A console in memory. It is an example: all that is assumed of a console is proved of it, with bytes that are known,
/// so it can be kept.
#[derive(Drop)]
pub struct MemoryConsole {
    input: Vec<u8>,
    given: usize,
    taken: Vec<u8>,
}

impl MemoryConsole {
    /// A console whose input is these bytes, and which has taken those.
    pub fn new(input: Vec<u8>, taken: Vec<u8>) -> MemoryConsole
        ensures left { ⟦<MemoryConsole as Console>⟧.left result ≡ Some input.items }
        ensures taken { ⟦<MemoryConsole as Console>⟧.taken result ≡ Some taken.items }
    {
        MemoryConsole {
            input,
            given: 0,
            taken,
        }
    }
}

impl Console for MemoryConsole {
    ghost left = { λ c. Some (drop c.given c.input.items) };

    ghost taken = { λ c. Some c.taken.items };

    fn key(&mut self, pair: &mut [u8; 2]) -> bool {
        if self.given < self.input.len() {
            pair[0] = FOLLOWS;
            pair[1] = self.input[self.given];
            self.given += 1;
        } else {
            pair[0] = 0;
        }
        true
    }

    // It says no where there is no memory.
    fn emit(&mut self, bytes: &[u8]) -> bool {
        self.taken.extend_from_slice(bytes).is_ok()
    }
}
