//! A block as the lines of a screen.
//! Rule: MANUAL, forth83 put IMAGE BLOCK FILE; MANUAL, forth83 list IMAGE BLOCK.
ghost use Rattle.std.specs.Prelude.{◌≡◌, ◌≤◌, ◌<◌, ◌-◌, ◌+◌, ◌++◌, ◌∷◌, [], ℕ, suc, length, map, replicate, None, option_map, IfSome, IfNone, OnSome};
ghost use Rattle.arrayvec.specs.ArrayVec.{array_vec_len};
ghost use Rattle.sessions.specs.Cut.{blank_for_tab};
ghost use Rattle.terminal.specs.Screen.{screen_of, rows, texts_of, row, shown, listing};

use arrayvec::ArrayVec;
use number_io::take_text;
use sessions::cut::{blank_for_tab, text};

/// Rows of a screen.
pub const ROWS: usize = 16;

/// Bytes of a row.
pub const COLUMNS: usize = 64;

/// Bytes of a block.
pub const BLOCK: usize = 1024;

/// Bytes of a listing, with a line feed for each row.
pub const LISTING: usize = 1040;

/// The block that a text says: its lines, each filled with blanks, and blank lines after the last, 1,024 bytes in all.
/// `None` where there are more than 16 lines, or one has more than 64 bytes.
/// Rule: MANUAL, forth83 put IMAGE BLOCK FILE.
pub fn screen_of(bytes: &[u8]) -> Option<ArrayVec<u8, BLOCK>>
    ensures { option_map (λ block. block.items) result ≡ screen_of bytes.now }
{
    let mut block = ArrayVec::new();
    let mut rest = bytes;
    for _ in 0..ROWS {
        rest = take_row(&mut block, rest)?;
    }
    if rest.is_empty() { Some(block) } else { None }
}

/// Adds the first line of a text as a row, or a blank row where the text is empty, and gives the text after it. `None`
/// where the line is too long.
fn take_row<'a>(block: &mut ArrayVec<u8, BLOCK>, bytes: &'a [u8]) -> Option<&'a [u8]>
    requires { array_vec_len block.old + 64 ≤ 1024 }
    ensures some { IfSome result (λ rest. (n : ℕ)
        → option_map (λ below. block.new.items ++ below) (rows n (texts_of rest.now))
        ≡ option_map (λ below. block.old.items ++ below) (rows (suc n) (texts_of bytes.now))) }
    ensures none { IfNone result ((n : ℕ) → rows (suc n) (texts_of bytes.now) ≡ None) }
    ensures filled { OnSome result (array_vec_len block.new ≡ array_vec_len block.old + 64) }
{
    let (line, length) = take_text(bytes, b'\n');
    let (_, rest) = bytes.split_at(length);
    add_row(block, text(line))?;
    Some(rest)
}

/// Adds a line as a row. `None` where it is too long.
fn add_row(block: &mut ArrayVec<u8, BLOCK>, line: &[u8]) -> Option<()>
    requires { array_vec_len block.old + 64 ≤ 1024 }
    ensures short { OnSome result (length line.now ≤ 64) }
    ensures some { OnSome result (block.new.items ≡ block.old.items ++ row (map blank_for_tab line.now)) }
    ensures none { IfNone result (64 < length line.now) }
    ensures filled { OnSome result (array_vec_len block.new ≡ array_vec_len block.old + 64) }
{
    if line.len() > COLUMNS {
        return None;
    }
    add_text(block, line);
    add_blanks(block, COLUMNS - line.len());
    Some(())
}

/// Adds bytes, with a blank for each tab.
fn add_text(block: &mut ArrayVec<u8, BLOCK>, text: &[u8])
    requires { array_vec_len block.old + length text.now ≤ 1024 }
    ensures { block.new.items ≡ block.old.items ++ map blank_for_tab text.now }
{
    let mut rest = text;
    while let [byte, others @ ..] = rest {
        block.push(blank_for_tab(*byte));
        rest = others;
    }
}

/// Adds so many blanks, for which there is room.
pub fn add_blanks(block: &mut ArrayVec<u8, BLOCK>, count: usize)
    requires { array_vec_len block.old + count ≤ 1024 }
    ensures { block.new.items ≡ block.old.items ++ replicate count 32 }
{
    let mut left = count;
    while left > 0 {
        block.push(b' ');
        left -= 1;
    }
}

/// A block as 16 lines of 64 characters, with a point for each byte that isn't printable ASCII.
/// Rule: MANUAL, forth83 list IMAGE BLOCK.
pub fn listing(block: &[u8; BLOCK]) -> ArrayVec<u8, LISTING>
    ensures { result.items ≡ listing block.now }
{
    let mut lines = ArrayVec::new();
    let mut rest = block.as_slice();
    for _ in 0..ROWS {
        let (row, below) = rest.split_at(COLUMNS);
        add_line(&mut lines, row);
        rest = below;
    }
    lines
}

/// Adds a row, with a point for each byte that isn't printable ASCII, and a line feed, for which there is room.
pub fn add_line(lines: &mut ArrayVec<u8, LISTING>, row: &[u8])
    requires { array_vec_len lines.old + length row.now < 1040 }
    ensures items { lines.new.items ≡ lines.old.items ++ map shown row.now ++ 10 ∷ [] }
    ensures len { array_vec_len lines.new ≡ array_vec_len lines.old + length row.now + 1 }
{
    add_shown(lines, row);
    lines.push(b'\n');
}

/// Adds bytes as they are shown.
fn add_shown(lines: &mut ArrayVec<u8, LISTING>, bytes: &[u8])
    requires { array_vec_len lines.old + length bytes.now ≤ 1040 }
    ensures { lines.new.items ≡ lines.old.items ++ map shown bytes.now }
{
    let mut rest = bytes;
    while let [byte, others @ ..] = rest {
        lines.push(shown(*byte));
        rest = others;
    }
}

/// The character for a byte.
fn shown(byte: u8) -> u8
    ensures { result ≡ shown byte }
{
    match byte {
        b' '..=b'~' => byte,
        _ => b'.',
    }
}
