// What does the calls of a text.
use crate::fillings::Fillings;
use crate::told::Told;
use sector_disk::SectorDevice;
use std::alloc::Global;
use std::test::Fail;

/// What is there after calls.
#[derive(Drop)]
pub struct Played<D: SectorDevice> {
    pub device: D,
    /// What each call answered, a line each.
    pub answers: String,
    pub told: Told,
}

/// Does the calls of a text, one after another.
pub trait Player {
    /// Does the calls of these rows over a device whose image holds this at first.
    fn play<D: SectorDevice + Drop>(
        &self,
        alloc: Global,
        rows: &str,
        device: D,
        start: Fillings,
    ) -> Result<Played<D>, Fail>;
}
