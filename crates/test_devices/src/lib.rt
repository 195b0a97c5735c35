//! Devices and files for tests: what tears a write, forgets nothing, has larger units, and files in memory that give as little as a system may. They keep the
//! clauses of the traits of `sector_disk`, and so show that these can be met. No crate of the program stands on them.
#![tactic(auto)]

mod coarse;
mod memory_file;
mod memory_files;
mod paged_file;
mod recorded;
mod tearing;

pub use coarse::Coarse;
pub use memory_file::{MemoryFile, Script};
pub use memory_files::MemoryFiles;
pub use paged_file::PagedFile;
pub use recorded::Recorded;
pub use tearing::Tearing;
