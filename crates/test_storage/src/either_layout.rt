//! Stores of either layout, and what is noticed of a change at rest.
mod edits_at_rest;
mod openings;
mod resting;
mod saves;
mod unread_sectors;
