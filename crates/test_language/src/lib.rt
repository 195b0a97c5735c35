//! Tests of memory, stacks, numbers, dictionary, lexicon, machine and compiler, by their public calls alone.
#![tactic(auto)]

#[cfg(test)]
mod machine;
#[cfg(test)]
mod memory;
#[cfg(test)]
mod names;
#[cfg(test)]
mod numbers;
#[cfg(test)]
mod rows;
#[cfg(test)]
mod two_stacks;
#[cfg(test)]
mod words;
