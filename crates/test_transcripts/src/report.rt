//! What was found: how often something else came than a text shows, and what.
use std::alloc::{AllocError, Global};
use std::fmt;

/// How many lines are told of a difference.
const TOLD: usize = 5;

/// The differences between what a text shows and what came.
#[derive(Drop)]
pub struct Report {
    differences: usize,
    told: String,
}

impl Report {
    pub fn new(alloc: Global) -> Self {
        Report {
            differences: 0,
            told: String::new(alloc),
        }
    }

    pub fn differences(&self) -> usize {
        self.differences
    }

    /// Adds a difference.
    pub fn add(&mut self, difference: &str) -> Result<(), AllocError> {
        self.differences = self.differences.saturating_add(1);
        self.told.push_str(difference)
    }

    /// Adds what is shown and what came at this place, where these differ.
    pub fn compare(
        &mut self,
        alloc: Global,
        place: &str,
        shown: &[u8],
        came: &[u8],
    ) -> Result<(), AllocError> {
        let (_, shown, came) = past_same_lines(shown, came);
        if shown.is_empty() && came.is_empty() {
            return Ok(());
        }
        self.tell(alloc, place, shown, came)
    }

    /// Adds the first lines of what is shown and of what came.
    pub fn tell(
        &mut self,
        alloc: Global,
        place: &str,
        shown: &[u8],
        came: &[u8],
    ) -> Result<(), AllocError> {
        let shown = head(alloc, shown, TOLD)?;
        let came = head(alloc, came, TOLD)?;
        match (
            str::from_utf8(shown.as_slice()),
            str::from_utf8(came.as_slice()),
        ) {
            (Ok(shown), Ok(came)) => {
                self.add(&format!(in alloc; "{place}\n  shown: {shown:?}\n  came:  {came:?}\n")?)
            }
            _ => self.add(&format!(in alloc; "{place}\n  shown: {shown:?}\n  came:  {came:?}\n")?),
        }
    }
}

impl fmt::Display for Report {
    fn fmt<W: fmt::Write>(&self, f: &mut fmt::Formatter<W>) -> fmt::Result {
        write!(f, "differences {}\n{}", self.differences, self.told)
    }
}

/// The first lines of a text.
pub fn head(alloc: Global, text: &[u8], lines: usize) -> Result<Vec<u8>, AllocError> {
    let mut head: Vec<u8> = Vec::new(alloc);
    for line in text.split_inclusive(|byte| *byte == b'\n').take(lines) {
        head.extend_from_slice(line)?;
    }
    Ok(head)
}

/// The last lines of a text.
pub fn tail(alloc: Global, text: &[u8], lines: usize) -> Result<Vec<u8>, AllocError> {
    let all = text.split_inclusive(|byte| *byte == b'\n').count();
    let mut tail: Vec<u8> = Vec::new(alloc);
    for line in text
        .split_inclusive(|byte| *byte == b'\n')
        .skip(all.saturating_sub(lines))
    {
        tail.extend_from_slice(line)?;
    }
    Ok(tail)
}

/// With how many lines two texts begin alike, and what follows these in each.
pub fn past_same_lines<'a, 'b>(one: &'a [u8], other: &'b [u8]) -> (usize, &'a [u8], &'b [u8]) {
    let mut lines = 0usize;
    let mut length = 0usize;
    for (line, partner) in one
        .split_inclusive(|byte| *byte == b'\n')
        .zip(other.split_inclusive(|byte| *byte == b'\n'))
    {
        if line != partner {
            break;
        }
        lines = lines.saturating_add(1);
        length = length.saturating_add(line.len());
    }
    (
        lines,
        one.get(length..).unwrap_or(b""),
        other.get(length..).unwrap_or(b""),
    )
}
