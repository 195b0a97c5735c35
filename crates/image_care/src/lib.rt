//! Images are looked at, read and copied by reads alone, and what can be had of a damaged one is salvaged.
#![tactic(auto)]

mod all_blocks;
mod blocks;
mod copy_source;
mod copying;
mod examining;
pub mod laws;
mod laying;
mod listing;
mod looking;
mod mending;
mod one_block;
pub mod pages;
mod reading_files;
mod reading_through;
mod rebuilding;
mod salvage_source;
mod salvaging;
mod still_disk;
mod view;
mod whole_copies;

pub use all_blocks::{ReadFault, read_blocks};
pub use copying::copy;
pub use examining::{Examined, examine};
pub use looking::look;
pub use mending::{has_lost_record, mend};
pub use one_block::{read_block, read_found};
pub use reading_files::{ReadOnlyFile, ReadingFiles};
pub use reading_through::read_through;
pub use salvage_source::Taken;
pub use salvaging::salvage;
pub use still_disk::StillDisk;
pub use view::{Listing, View};
pub use whole_copies::{Readings, StillReadings, read_whole, read_whole_file};
