//! Images of layout 3: formats, openings, saves, upgrades, examinations, copies and salvages. The digests are Python's.
mod copies;
mod current_blocks;
mod examinations;
mod formats;
mod images;
mod openings;
mod readings;
pub(crate) mod salvages;
pub(crate) mod saved_images;
mod saves;
mod tags;
mod upgrades;
