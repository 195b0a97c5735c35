//! The system words, as they stand in a new dictionary.
ghost use Rattle.std.specs.Prelude.{◌≡◌, ◌+◌, ◌≤◌, ◌++◌, length, map, IfOk, IsTrue};
ghost use Rattle.std.specs.List.{list_all};
ghost use Rattle.system_words.specs.Rows.{row_of};
ghost use Rattle.dictionary.specs.Words.{is_name};
ghost use Rattle.dictionary.specs.System.{compile_only_token, first_words, system_word};

use crate::chains::Chains;
use crate::{FORTH, Kind, NoMemory, Token, Word};
use std::alloc::Global;
use system_words::Row;

/// Whether the word makes sense only while a body is compiled. The text interpreter refuses to run such a word while it
/// interprets, and `EXECUTE` refuses it always. Only system words are of this sort: any other number gives false.
/// Rule: LANGUAGE, All words.
#[inline]
pub fn is_compile_only(token: Token) -> bool
    ensures { result ≡ compile_only_token token }
{
    match system_words::mark_of(token) {
        Some(mark) => mark.is_compile_only(),
        None => false,
    }
}

/// A dictionary's words as they are at first.
pub(crate) fn first_words(alloc: Global) -> Result<Chains, NoMemory>
    ensures { IfOk result (λ words. words ≡ first_words) }
{
    let mut words = Chains::new(alloc)?;
    push_primitives(&mut words, system_words::all());
    Ok(words)
}

fn push_primitives(words: &mut Chains, rows: &[Row])
    requires room { length words.old + length rows.now ≤ 4096 }
    requires names { IsTrue (list_all (λ row. is_name row.0.now) rows.now) }
    ensures { words.new ≡ words.old ++ map (λ row. system_word (row_of row.0.now row.1 row.2)) rows.now }
{
    for (name, mark, _) in rows {
        words.push(Word {
            name,
            vocabulary: FORTH,
            immediate: mark.is_immediate(),
            here: 1280,
            kind: Kind::Primitive,
        });
    }
}
