// A part of a text, and what a line of its trials says.
use crate::disks::{formatted_by, zeros};
use crate::fillings::Fillings;
use crate::medium::{Layout, Medium, Unit};
use crate::player::Player;
use crate::store_calls::StoreCalls;
use sector_disk::MemoryDisk;
use std::test::Fail;
use test_devices::Coarse;

/// A part of a text.
#[derive(Clone, Copy)]
pub struct Scenario<'a> {
    /// What it is about.
    pub title: &'a str,
    /// What does the calls.
    pub system: &'a str,
    /// How many blocks the image has.
    pub blocks: u16,
    /// The layout of the image, and the units of its disk.
    pub medium: Medium,
    /// The rows that are done over the image before, by calls of the store.
    pub before: &'a str,
    /// The rows of the calls.
    pub rows: &'a str,
    /// What is tried, a line each.
    pub trials: &'a str,
}

impl<'a> Scenario<'a> {
    /// A part is its title, a line as `over store, 32 blocks` (of layout 2) or `over store of layout 3, 32 blocks, units of 8`, the
    /// calls before and a line `--` (or neither), the calls, a line `----` and the trials.
    pub fn parse(text: &'a str) -> Option<Self> {
        let (title, rest) = text.split_once("\n")?;
        let (over, rest) = rest.split_once("\n")?;
        let over = over.strip_prefix("over ")?;
        let (over, unit) = match over.strip_suffix(", units of 8") {
            Some(over) => (over, Unit::Eight),
            None => (over, Unit::One),
        };
        let (system, blocks) = over.strip_suffix(" blocks")?.split_once(", ")?;
        let (system, layout) = match system.strip_suffix(" of layout 3") {
            Some(system) => (system, Layout::Newer),
            None => (system, Layout::Older),
        };
        let (calls, trials) = rest.split_once("----\n")?;
        let (before, rows) = calls.split_once("--\n").unwrap_or(("", calls));
        Some(Scenario {
            title,
            system,
            blocks: blocks.parse().ok()?,
            medium: Medium { layout, unit },
            before,
            rows,
            trials,
        })
    }

    /// The disk before the calls: an image, or zeros.
    pub fn disk(&self, rt: &HostRuntime) -> Result<MemoryDisk, Fail> {
        if self.system == "zeros" {
            return zeros(rt, self.medium.layout, self.blocks);
        }
        let disk = formatted_by(rt, self.medium.layout, self.blocks)?;
        let (alloc, blank) = (rt.alloc(), Fillings::blank());
        match self.medium.unit {
            Unit::One => Ok(StoreCalls.play(alloc, self.before, disk, blank)?.device),
            Unit::Eight => {
                let played = StoreCalls.play(alloc, self.before, Coarse::new(disk), blank)?;
                Ok(played.device.into_device())
            }
        }
    }
}

/// What is tried, as a line says it. What it doesn't say is empty.
#[derive(Clone, Copy)]
pub struct Trial<'a> {
    /// What is done.
    pub word: &'a str,
    /// How calls of the device fail.
    pub kinds: &'a str,
    /// The first call.
    pub first: u64,
    /// The last call.
    pub last: u64,
    /// All answers.
    pub answers: &'a str,
    /// Which answer tells the fault, and how the store is afterwards.
    pub fault: &'a str,
    /// What was told to be saved.
    pub saved: &'a str,
    /// What is left.
    pub left: &'a str,
}

impl<'a> Trial<'a> {
    /// Reads a line, as `stop 12, saved blank, left blank | 1A` or `tear wild gate 1..31`. A range that is empty, or that begins
    /// before the first call, is none.
    pub fn parse(line: &'a str) -> Option<Self> {
        let (head, left) = line.split_once(", left ").unwrap_or((line, ""));
        let (head, saved) = head.split_once(", saved ").unwrap_or((head, ""));
        let (head, fault) = head.split_once(", in ").unwrap_or((head, ""));
        let (head, answers) = head.split_once(", answers ").unwrap_or((head, ""));
        let (words, calls) = head.rsplit_once(" ")?;
        let (word, kinds) = words.split_once(" ").unwrap_or((words, ""));
        let (first, last) = calls.split_once("..").unwrap_or((calls, calls));
        let (first, last) = (first.parse().ok()?, last.parse().ok()?);
        if first < 1 || last < first {
            return None;
        }
        let kinds = match (word, kinds) {
            ("stop", "") => "from",
            ("fail" | "well", "") => "once from",
            _ => kinds,
        };
        Some(Trial {
            word,
            kinds,
            first,
            last,
            answers,
            fault,
            saved,
            left,
        })
    }
}
