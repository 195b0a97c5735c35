//! Images of layout 2, and upgrades of those of layout 1.
mod copies;
mod images;
mod upgrades;
