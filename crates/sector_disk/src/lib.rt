//! Devices of sectors of 512 bytes.
#![tactic(auto)]

mod device;
mod fused;
mod host_file;
mod host_files;
mod memory_disk;
mod sector_file;
mod std_files;
mod whole;

pub use device::{Counts, DeviceFault, SectorDevice, count_failure};
pub use fused::Fused;
pub use host_file::{HostFault, HostFile, StdFile};
pub use host_files::{FileFault, HostFiles, create_disk, open_disk};
pub use memory_disk::{Fate, MemoryDisk, NoMemory};
pub use sector_file::SectorFile;
pub use std_files::{FileDisk, StdFiles};
