//! Tests of sessions and of the program, over systems of the whole language.
#![tactic(auto)]

#[cfg(test)]
mod assertions;
#[cfg(test)]
mod copies;
#[cfg(test)]
mod files_in_memory;
#[cfg(test)]
mod layout_3_images;
#[cfg(test)]
mod layout_3_images_in_memory;
#[cfg(test)]
mod lines;
pub mod premises;
#[cfg(test)]
mod scripts;
#[cfg(test)]
mod standard_streams;
#[cfg(test)]
mod stopping;
#[cfg(test)]
mod streams;
#[cfg(test)]
mod support;
#[cfg(test)]
mod systems;
#[cfg(test)]
mod unread_blocks;
#[cfg(test)]
mod upgrades;
