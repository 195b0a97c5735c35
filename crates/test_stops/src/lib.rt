//! Texts of calls are done over images in memory, stopped at each of their calls of the device and opened again.
#![tactic(auto)]

mod answers;
pub mod calls;
pub mod disks;
pub mod fates;
pub mod fillings;
pub mod image_calls;
pub mod medium;
pub mod player;
mod recoveries;
pub mod report;
pub mod scenario;
pub mod store_calls;
pub mod told;
pub mod trials;
pub mod whole;
