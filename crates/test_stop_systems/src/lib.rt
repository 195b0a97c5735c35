//! What does the calls of the texts of stops: stores, block words, lines of Forth and whole images; and the program over it.
#![tactic(auto)]

mod block_calls;
mod following;
mod forth_lines;
mod large;
mod streams;

pub use following::follow_all;
