//! Calls of the machine and of the compiler that no line of Forth makes.
mod calls;
mod cells;
mod entering;
mod laws;
mod leave;
mod words;
