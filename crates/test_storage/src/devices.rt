//! Devices in memory, failing, recording and with larger units, and files as devices.
mod coarse;
mod file_disk;
mod files;
mod fused;
mod memory;
mod recorded;
pub(crate) mod scarred;
mod short_calls;
mod still_disk;
