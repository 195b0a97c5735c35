//! What the row of a token says.
//! Rule: LANGUAGE, All words.
ghost use Rattle.std.specs.Prelude.{◌≡◌, map};
ghost use Rattle.system_words.specs.Rows.{row_of, at_token, mark_of, meaning_of};

use crate::table::{Row, all};
use crate::words::{Mark, Meaning};

/// How the text interpreter may use the word of this token. None where no system word has it: at 0, and above 132.
#[inline]
pub fn mark_of(token: u16) -> Option<Mark>
    ensures { result ≡ mark_of token }
{
    match row_in(all(), token) {
        Some((mark, _)) => Some(mark),
        None => None,
    }
}

/// What the word of this token does. None where no system word has it: at 0, and above 132.
#[inline]
pub fn meaning_of(token: u16) -> Option<Meaning>
    ensures { result ≡ meaning_of token }
{
    match row_in(all(), token) {
        Some((_, meaning)) => Some(meaning),
        None => None,
    }
}

/// What the row of this token says beside the name.
#[inline]
fn row_in(rows: &[Row], token: u16) -> Option<(Mark, Meaning)>
    ensures { result ≡ at_token (map (λ row. row_of row.0.now row.1 row.2) rows.now) token }
{
    if token == 0 || token as usize > rows.len() {
        return None;
    }
    let (_, mark, meaning) = rows[token as usize - 1];
    Some((mark, meaning))
}
