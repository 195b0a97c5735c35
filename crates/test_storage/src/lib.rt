//! Tests of devices, images and stores, by their public calls alone: bytes, layouts, digests, sizes, refusals, and what a stop leaves; and laws that what a
//! store asks of a device can be met. What a stop or a failing call leaves of one image stands in the texts that `test_stop_texts` follows.
#![tactic(auto)]

#[cfg(test)]
mod assertions;
#[cfg(test)]
mod buffers;
#[cfg(test)]
mod contents;
#[cfg(test)]
mod devices;
#[cfg(test)]
mod either_layout;
#[cfg(test)]
mod layout_2;
#[cfg(test)]
mod layout_3;
pub mod premises;
#[cfg(test)]
mod sectors;
