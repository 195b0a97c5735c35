// What was found while a text was followed.
use std::alloc::{AllocError, Global};

/// Counts of what was tried, and each difference told.
#[derive(Drop)]
pub struct Report {
    /// Runs of the calls.
    pub runs: usize,
    /// Stops, each by its own way to leave the unsynced sectors.
    pub stops: usize,
    /// Images that were opened after a stop or a fault, and looked at.
    pub images: usize,
    /// How often something else came than the text says.
    pub differences: usize,
    /// Each of these, a line or more.
    pub told: String,
}

impl Report {
    /// Nothing is found yet.
    pub fn new(alloc: Global) -> Self {
        Report {
            runs: 0,
            stops: 0,
            images: 0,
            differences: 0,
            told: String::new(alloc),
        }
    }

    /// Adds a difference.
    pub fn tell(&mut self, difference: &str) -> Result<(), AllocError> {
        self.differences = self.differences.saturating_add(1);
        self.told.push_str(difference)?;
        self.told.push_str("\n")
    }
}
