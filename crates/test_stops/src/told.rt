// What calls told of the blocks.
ghost use Rattle.std.specs.Prelude.{◌≡◌, ◌⊎◌, ◌↔◌, Some, None, IsTrue};

use crate::calls::Call;
use crate::fillings::Fillings;

/// What calls told of the blocks.
#[derive(Clone, Copy)]
pub struct Told {
    /// As the last save that returned left them.
    pub saved: Fillings,
    /// As the save that was begun and didn't return would leave them, if there is one.
    pub begun: Option<Fillings>,
    /// As they were changed since.
    pub edited: Fillings,
}

impl Told {
    /// Nothing is told of an image but what it holds.
    pub fn new(start: Fillings) -> Self
        ensures { result ≡ record { saved = start; begun = None; edited = start } }
    {
        Told {
            saved: start,
            begun: None,
            edited: start,
        }
    }

    /// A save begins.
    pub fn begin(&mut self)
        ensures { self.new ≡ record self.old { begun = Some self.old.edited } }
    {
        self.begun = Some(self.edited);
    }

    /// The save has returned.
    pub fn finish(&mut self)
        ensures { self.new ≡ record self.old { saved = self.old.edited; begun = None } }
    {
        self.saved = self.edited;
        self.begun = None;
    }

    /// Whether a stop may leave the blocks so: as the last save left them, or as one would that didn't return.
    pub fn allows(&self, found: Fillings) -> bool
        ensures { IsTrue result ↔ ((found ≡ self.now.saved) ⊎ (self.now.begun ≡ Some found)) }
    {
        found == self.saved || Some(found) == self.begun
    }

    /// What a call tells by its answer. A closed store begins no save.
    pub fn hear(&mut self, call: Call, answer: &str) {
        match (call.word, answer) {
            ("spill" | "FILL", "ok") => self.edited.fill(call.number, call.byte()),
            ("text" | "EDIT", "ok") => self.edited.fill(call.number, b'?'),
            ("commit" | "SAVE" | "FLUSH", "ok") => self.finish(),
            ("commit" | "SAVE" | "FLUSH", "Device") => self.begin(),
            _ => {}
        }
    }
}
