//! A Forth system: it interprets a line of text and writes the reply.
#![tactic(auto)]

pub use fault::Fault;
pub use forth::Forth;
pub use lines::LineEnd;
pub use memory::{Memory, NoMemory};
pub use place::Place;
pub use promise::Lines;
pub use terminal::{IoFault, Terminal};

mod fault;
mod forth;
mod held_returns;
mod interpreting;
pub mod laws;
mod lines;
mod memory;
mod place;
pub mod promise;
mod services;
mod system_cells;
mod terminal;
