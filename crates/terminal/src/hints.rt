//! What a person who types at a terminal is told behind the trace of a word that isn't there, where it can be guessed
//! what was meant. It goes to standard error, as the trace does.

use interpreter::Fault;
use std::io::Write;
use std::str;
use system_words::all;

// What a trace is put together of by `sessions::trace_text`, as its contract says.
const COLON: &str = ": ";

const AT: &str = " at ";

const COLUMN: &str = "column ";

/// Tells what may have been meant, where these bytes are the trace of a word of a line that isn't there.
pub(super) fn hint<E: Write>(trace: &[u8], errors: &mut E) {
    let Ok(text) = str::from_utf8(trace) else {
        return;
    };
    let Some(word) = undefined(text) else {
        return;
    };
    hint_at(word, errors)
}

/// The word of a line that isn't there, where this is its trace.
fn undefined(trace: &str) -> Option<&str> {
    let (_, told) = trace.split_once(COLON)?;
    let place = told
        .strip_prefix(Fault::Undefined.name())?
        .strip_prefix(AT)?;
    let (_, word) = place.strip_prefix(COLUMN)?.split_once(COLON)?;
    Some(word.trim_end())
}

/// Tells what may have been meant by a word.
fn hint_at<E: Write>(word: &str, errors: &mut E) {
    let _ = match word {
        "bye" | "BYE" | "exit" | "quit" => writeln!(errors, "  Ctrl-D ends the session."),
        "help" | "HELP" => writeln!(
            errors,
            "  LANGUAGE.md tells each word, and MANUAL.md each message. Ctrl-D ends the session."
        ),
        "words" | "WORDS" => writeln!(errors, "  LANGUAGE.md tells each word."),
        _ => match in_capitals(word) {
            Some(name) => writeln!(errors, "  {name} is a word: words are in capital letters."),
            None => Ok(()),
        },
    };
}

/// The system's word that this is in other letters, if it is one.
fn in_capitals(word: &str) -> Option<&'static str> {
    for (name, _, _) in all() {
        if name.eq_ignore_ascii_case(word.as_bytes()) {
            return str::from_utf8(name).ok();
        }
    }
    None
}
