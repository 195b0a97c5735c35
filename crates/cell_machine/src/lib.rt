//! The cells of compiled bodies, and the machine that runs them.
#![tactic(auto)]

pub mod calls;
mod cells;
pub mod code;
mod control;
mod demand;
mod dispatch;
mod division;
mod doubles;
mod entered_word;
pub mod event;
mod instruction_kinds;
mod instructions;
pub mod laws;
pub mod machine;
pub mod marks;
mod memory_words;
mod operands;
mod primitives;
mod resume;
mod return_stack_words;
mod returns;
mod running;
mod sequences;
mod step;
mod superinstructions;
mod tokens;
