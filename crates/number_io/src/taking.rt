//! Words and texts taken from a text.
//! Rule: LANGUAGE, The input stream, and how words are taken; SEMANTICS, Numbers.
ghost use Rattle.std.specs.Prelude.{◌≡◌, ◌≤◌, ◌+◌, length, drop};
ghost use Rattle.number_io.specs.Taking.{IsTaking, IsTextTaking, skipped, word_of, text_of, skip, from, after_word, after_text};

/// The word before the next delimiter, without the delimiters in front of it, and how many bytes the taking goes over:
/// up to the end of the word, and the delimiter after it where there is one.
/// Rule: Forth-83 Standard, WORD; LANGUAGE, The input stream, and how words are taken.
pub fn take_word(text: &[u8], delimiter: u8) -> (&[u8], usize)
    ensures word { result.0.now ≡ word_of delimiter text.now }
    ensures rest { drop result.1 text.now ≡ after_word delimiter text.now }
    ensures within { result.1 ≤ length text.now }
    ensures taking { IsTaking delimiter text.now (skipped delimiter text.now) result.0.now
        (from delimiter (skip delimiter text.now)) }
{
    let mut start = 0;
    while start < text.len() && text[start] == delimiter {
        start += 1;
    }
    let (word, length) = take_text(&text[start..], delimiter);
    (word, start + length)
}

/// The text before the next delimiter, which may be empty, and how many bytes the taking goes over: up to the end of
/// the text, and the delimiter after it where there is one.
pub fn take_text(text: &[u8], delimiter: u8) -> (&[u8], usize)
    ensures word { result.0.now ≡ text_of delimiter text.now }
    ensures rest { drop result.1 text.now ≡ after_text delimiter text.now }
    ensures within { result.1 ≤ length text.now }
    ensures taking { IsTextTaking delimiter text.now result.0.now (from delimiter text.now) }
{
    let mut end = 0;
    while end < text.len() {
        if text[end] == delimiter {
            return (&text[..end], end + 1);
        }
        end += 1;
    }
    (text, end)
}
