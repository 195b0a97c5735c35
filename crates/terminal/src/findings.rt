//! A file as blocks, and what is told of it.
//! Rule: MANUAL, forth83 import IMAGE FIRST FILE .. [--raw] [--check].
ghost use Rattle.std.specs.Prelude.{◌≡◌, ◌⊎◌, ◌==◌, ◌%◌, ◌&&◌, ◌++◌, ◌∷◌, [], false, not, length, map, replicate, Some, None, IfErr, IfOk, OnOk, MatchResult};
ghost use Rattle.std.specs.List.{list_all};
ghost use Rattle.sessions.specs.Cut.{blank_for_tab};
ghost use Rattle.terminal.specs.Screen.{row, texts_of};
ghost use Rattle.terminal.specs.Findings.{blocks_for, failure_of, begins_a_word, findings, is_full, is_printable, of_form, place, refusal, row_findings, said, told, unplaced, when};

use super::failure::Failure;
use super::screen::{BLOCK, COLUMNS, ROWS};
use command_line::orders::Form;
use number_io::take_text;
use sessions::cut::{blank_for_tab, text};
use std::alloc::{AllocError, Global};
use thiserror::Error;

/// What is told of a file that is to be imported. Its lines count from 1.
#[derive(Clone, Copy, Debug, PartialEq, Eq, Error)]
pub enum Finding {
    /// A line of more than 64 bytes.
    #[error("{0}: more than 64 bytes")]
    LongLine(usize),
    /// A line that begins a word where the one above it in its block has a word up to its 64th byte.
    #[error("{0}: its first word and the last one of the line before are one word")]
    RunsOn(usize),
    /// A line with a byte that isn't printable ASCII.
    #[error("{0}: a byte that is not printable ASCII")]
    Unprintable(usize),
    /// The first line for which there is no block.
    #[error("{0}: no block for it")]
    NoBlock(usize),
    /// Bytes that aren't whole blocks.
    #[error(" not whole blocks of 1024 bytes")]
    PartOfABlock,
    /// More bytes than there are blocks for.
    #[error(" more blocks than there are")]
    MoreBlocks,
}

impl Finding {
    /// The failure for which nothing of the file is imported, where it is one: `NotAScreen` for a line that is too long
    /// and for bytes that aren't whole blocks, `NoBlock` where blocks are missing.
    pub fn refusal(self) -> Result<(), Failure>
        ensures exact { MatchResult result (λ _. failure_of self ≡ None) (λ e. failure_of self ≡ Some e) }
        ensures only { IfErr result (λ e. (e ≡ Failure.NotAScreen) ⊎ (e ≡ Failure.NoBlock)) }
    {
        match self {
            Finding::LongLine(_) | Finding::PartOfABlock => Err(Failure::NotAScreen),
            Finding::NoBlock(_) | Finding::MoreBlocks => Err(Failure::NoBlock),
            Finding::RunsOn(_) | Finding::Unprintable(_) => Ok(()),
        }
    }
}

/// The failure of the first refusal among them: `NotAScreen` or `NoBlock`. Ok where none is one.
pub fn refusal(found: &[Finding]) -> Result<(), Failure>
    ensures exact { MatchResult result (λ _. refusal found.now ≡ None) (λ e. refusal found.now ≡ Some e) }
    ensures only { IfErr result (λ e. (e ≡ Failure.NotAScreen) ⊎ (e ≡ Failure.NoBlock)) }
{
    let mut rest = found;
    while let [finding, others @ ..] = rest {
        match finding.refusal() {
            Ok(()) => rest = others,
            Err(failure) => return Err(failure),
        }
    }
    Ok(())
}

/// What a file says.
#[derive(Debug, Drop)]
pub struct Screens {
    /// The bytes that it says: its lines, each filled up with blanks to 64 bytes, or its own bytes. They may end within
    /// a block.
    pub bytes: Vec<u8>,
    /// What is told of it.
    pub found: Vec<Finding>,
}

/// What a file says, where `room` blocks are there for it, and what is told of that. It fails where memory is refused.
pub fn read_screens(
    alloc: Global,
    form: Form,
    room: u16,
    file: &[u8],
) -> Result<Screens, AllocError>
    ensures bytes { IfOk result (λ screens. screens.bytes.items ≡ said form file.now) }
    ensures found { IfOk result (λ screens. screens.found.items ≡ told form room file.now) }
{
    let mut bytes = Vec::new(alloc);
    let mut found = Vec::new(alloc);
    add_file(&mut bytes, &mut found, form, file)?;
    add_place(&mut found, form, room, bytes.as_slice())?;
    Ok(Screens { bytes, found })
}

/// Adds the bytes that a file says, and what is told of it by itself.
fn add_file(
    bytes: &mut Vec<u8>,
    found: &mut Vec<Finding>,
    form: Form,
    file: &[u8],
) -> Result<(), AllocError>
    ensures bytes { OnOk result (bytes.new.items ≡ bytes.old.items ++ said form file.now) }
    ensures found { OnOk result (found.new.items ≡ found.old.items ++ of_form form file.now) }
{
    match form {
        Form::Text => add_lines(bytes, found, file),
        Form::Raw => add_blocks(bytes, found, file),
    }
}

/// Adds the lines of a text as rows, and what is told of them.
fn add_lines(bytes: &mut Vec<u8>, found: &mut Vec<Finding>, file: &[u8]) -> Result<(), AllocError>
    ensures bytes { OnOk result (bytes.new.items ≡ bytes.old.items ++ said Form.Text file.now) }
    ensures found { OnOk result (found.new.items ≡ found.old.items ++ findings 1 false (texts_of file.now)) }
{
    let mut rest = file;
    let mut number = 1;
    let mut below_full = false;
    while !rest.is_empty() {
        let (line, length) = take_text(rest, b'\n');
        below_full = add_line(bytes, found, number, below_full, text(line))?;
        number += 1;
        let (_, below) = rest.split_at(length);
        rest = below;
    }
    Ok(())
}

/// Adds a line as a row, and what is told of it. Answers whether a word at its end goes on in the next line.
fn add_line(
    bytes: &mut Vec<u8>,
    found: &mut Vec<Finding>,
    number: usize,
    below_full: bool,
    line: &[u8],
) -> Result<bool, AllocError>
    ensures bytes { OnOk result (bytes.new.items ≡ bytes.old.items ++ row (map blank_for_tab line.now)) }
    ensures found { OnOk result (found.new.items
        ≡ found.old.items ++ row_findings number below_full (row (map blank_for_tab line.now))) }
    ensures full { IfOk result (λ full. full ≡ (is_full (row (map blank_for_tab line.now)) && not (number % 16 == 0))) }
{
    let start = bytes.as_slice().len();
    add_row(bytes, line)?;
    let (_, row) = bytes.as_slice().split_at(start);
    add_findings(found, number, below_full, row)?;
    Ok(is_full(row) && number % ROWS != 0)
}

/// Adds a line as a row. One that is too long is left as it is.
fn add_row(bytes: &mut Vec<u8>, line: &[u8]) -> Result<(), AllocError>
    ensures { OnOk result (bytes.new.items ≡ bytes.old.items ++ row (map blank_for_tab line.now)) }
{
    add_text(bytes, line)?;
    add_blanks(bytes, COLUMNS.saturating_sub(line.len()))
}

/// Adds bytes, with a blank for each tab.
fn add_text(bytes: &mut Vec<u8>, text: &[u8]) -> Result<(), AllocError>
    ensures { OnOk result (bytes.new.items ≡ bytes.old.items ++ map blank_for_tab text.now) }
{
    let mut rest = text;
    while let [byte, others @ ..] = rest {
        bytes.push(blank_for_tab(*byte))?;
        rest = others;
    }
    Ok(())
}

/// Adds so many blanks.
pub(super) fn add_blanks(bytes: &mut Vec<u8>, count: usize) -> Result<(), AllocError>
    ensures { OnOk result (bytes.new.items ≡ bytes.old.items ++ replicate count 32) }
{
    let mut left = count;
    while left > 0 {
        bytes.push(b' ')?;
        left -= 1;
    }
    Ok(())
}

/// Adds what is told of the row of a line, which stands below a full one of its block, or doesn't.
fn add_findings(
    found: &mut Vec<Finding>,
    number: usize,
    below_full: bool,
    row: &[u8],
) -> Result<(), AllocError>
    ensures { OnOk result (found.new.items ≡ found.old.items ++ row_findings number below_full row.now) }
{
    add_when(found, row.len() > COLUMNS, Finding::LongLine(number))?;
    add_when(
        found,
        below_full && begins_a_word(row),
        Finding::RunsOn(number),
    )?;
    add_when(found, !are_printable(row), Finding::Unprintable(number))
}

/// Adds a finding, where there is one.
fn add_when(found: &mut Vec<Finding>, is_so: bool, finding: Finding) -> Result<(), AllocError>
    ensures { OnOk result (found.new.items ≡ found.old.items ++ when is_so finding) }
{
    if !is_so {
        return Ok(());
    }
    found.push(finding)?;
    Ok(())
}

/// Whether a row ends in a word.
fn is_full(row: &[u8]) -> bool
    ensures { result ≡ is_full row.now }
{
    row.len() == COLUMNS && row[COLUMNS - 1] != b' '
}

/// Whether a row begins with a word.
fn begins_a_word(row: &[u8]) -> bool
    ensures { result ≡ begins_a_word row.now }
{
    match row {
        [first, ..] => *first != b' ',
        [] => false,
    }
}

/// Whether all bytes are printable ASCII.
fn are_printable(bytes: &[u8]) -> bool
    ensures { result ≡ list_all is_printable bytes.now }
{
    let mut rest = bytes;
    while let [byte, others @ ..] = rest {
        if !is_printable(*byte) {
            return false;
        }
        rest = others;
    }
    true
}

fn is_printable(byte: u8) -> bool
    ensures { result ≡ is_printable byte }
{
    matches!(byte, b' '..=b'~')
}

/// Adds the bytes of blocks, and what is told of them.
fn add_blocks(bytes: &mut Vec<u8>, found: &mut Vec<Finding>, file: &[u8]) -> Result<(), AllocError>
    ensures bytes { OnOk result (bytes.new.items ≡ bytes.old.items ++ file.now) }
    ensures found { OnOk result (found.new.items
        ≡ found.old.items ++ when (not (length file.now % 1024 == 0)) Finding.PartOfABlock) }
{
    bytes.extend_from_slice(file)?;
    add_when(found, file.len() % BLOCK != 0, Finding::PartOfABlock)
}

/// Adds what is told where so many blocks are too few for these bytes.
fn add_place(
    found: &mut Vec<Finding>,
    form: Form,
    room: u16,
    bytes: &[u8],
) -> Result<(), AllocError>
    ensures { OnOk result (found.new.items ≡ found.old.items ++ place form room (length bytes.now)) }
{
    add_when(
        found,
        blocks_for(bytes) > room as usize,
        unplaced(form, room),
    )
}

/// How many blocks these bytes take.
pub(super) fn blocks_for(bytes: &[u8]) -> usize
    ensures { result ≡ blocks_for (length bytes.now) }
{
    (bytes.len() + (BLOCK - 1)) / BLOCK
}

/// What is told of a file for which so many blocks are too few.
fn unplaced(form: Form, room: u16) -> Finding
    ensures { result ≡ unplaced form room }
{
    match form {
        Form::Text => Finding::NoBlock(ROWS * room as usize + 1),
        Form::Raw => Finding::MoreBlocks,
    }
}
