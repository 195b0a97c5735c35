//! The text of a trace.
ghost use Rattle.std.specs.Prelude.{◌≡◌, ◌≤◌, ◌+◌, ◌*◌, ◌++◌, length, map};
ghost use Rattle.arrayvec.specs.ArrayVec.{array_vec_len};
ghost use Rattle.interpreter.specs.Stops.{fault_of};
ghost use Rattle.sessions.specs.Traces.{abort_line, at_place, decimal, fault_told, in_block, in_line, load_text, loads_text, place_text, shown, trace_of, undone_line, word_text};

use arrayvec::ArrayVec;
use interpreter::{Fault, Place};
use number_io::Held;

/// How many bytes a trace has at most.
const ROOM: usize = 2048;

/// How many bytes of a word are told.
const WORD_ROOM: usize = 31;

/// How many bytes a line of a block has.
const ROW: u16 = 64;

/// A text that is put together.
pub(super) type Text = ArrayVec<u8, ROOM>;

fn append(text: &mut Text, bytes: &[u8])
    requires { array_vec_len text.old + length bytes.now ≤ 2048 }
    ensures after { text.new.items ≡ text.old.items ++ bytes.now }
    ensures room { array_vec_len text.new ≡ array_vec_len text.old + length bytes.now }
{
    let _ = text.try_extend_from_slice(bytes);
}

/// The digits of a number.
fn digits_of(number: u32) -> Held
    ensures value { result ≡ decimal number }
    ensures short { length result ≤ 32 }
{
    let mut text = Held::new();
    text.digits(number, 10);
    text
}

fn append_number(text: &mut Text, number: u32)
    requires { array_vec_len text.old + 32 ≤ 2048 }
    ensures after { text.new.items ≡ text.old.items ++ decimal number }
    ensures room { array_vec_len text.new ≤ array_vec_len text.old + 32 }
{
    let digits = digits_of(number);
    append(text, digits.finish());
}

/// Where in a line a byte stands.
fn append_column(text: &mut Text, at: u16)
    requires { array_vec_len text.old + 64 ≤ 2048 }
    ensures after { text.new.items ≡ text.old.items ++ in_line at }
    ensures room { array_vec_len text.new ≤ array_vec_len text.old + 64 }
{
    append(text, b"column ");
    append_number(text, u32::from(at) + 1);
}

/// Where in a block a byte stands.
fn append_row(text: &mut Text, block: u16, at: u16)
    requires { array_vec_len text.old + 192 ≤ 2048 }
    ensures after { text.new.items ≡ text.old.items ++ in_block block at }
    ensures room { array_vec_len text.new ≤ array_vec_len text.old + 192 }
{
    append(text, b"block ");
    append_number(text, u32::from(block));
    append(text, b" line ");
    append_number(text, u32::from(at / ROW) + 1);
    append(text, b" ");
    append_column(text, at % ROW);
}

/// A place, by its byte.
fn append_place(text: &mut Text, place: Place)
    requires { array_vec_len text.old + 192 ≤ 2048 }
    ensures after { text.new.items ≡ text.old.items ++ place_text place }
    ensures room { array_vec_len text.new ≤ array_vec_len text.old + 192 }
{
    match place.block {
        0 => append_column(text, place.to_in),
        block => append_row(text, block, place.to_in),
    }
}

/// The place, if there is one.
fn append_at(text: &mut Text, place: Option<Place>)
    requires { array_vec_len text.old + 196 ≤ 2048 }
    ensures after { text.new.items ≡ text.old.items ++ at_place place }
    ensures room { array_vec_len text.new ≤ array_vec_len text.old + 196 }
{
    match place {
        Some(place) => {
            append(text, b" at ");
            append_place(text, place)
        }
        None => {}
    }
}

/// In which line, which fault, and where.
fn told_of(number: u32, fault: Fault, place: Option<Place>) -> Text
    ensures text { result.items ≡ fault_told number (fault_of fault) place }
    ensures room { array_vec_len result ≤ 256 }
{
    let mut text = ArrayVec::new();
    append(&mut text, b"line ");
    append_number(&mut text, number);
    append(&mut text, b": ");
    append(&mut text, fault.name().as_bytes());
    append_at(&mut text, place);
    text
}

/// A byte, or a point for what isn't printable ASCII.
fn shown(byte: u8) -> u8
    ensures { result ≡ shown byte }
{
    if 31 < byte && byte < 127 { byte } else { b'.' }
}

/// Bytes, each as it is shown.
fn append_shown(text: &mut Text, bytes: &[u8])
    requires { array_vec_len text.old + length bytes.now ≤ 2048 }
    ensures after { text.new.items ≡ text.old.items ++ map shown bytes.now }
    ensures room { array_vec_len text.new ≡ array_vec_len text.old + length bytes.now }
{
    match bytes {
        [] => {}
        [byte, rest @ ..] => {
            append(text, &[shown(*byte)]);
            append_shown(text, rest)
        }
    }
}

/// The word that begins at the place, its first bytes.
fn append_word(text: &mut Text, word: &[u8])
    requires { array_vec_len text.old + 39 ≤ 2048 }
    ensures after { text.new.items ≡ text.old.items ++ word_text word.now }
    ensures room { array_vec_len text.new ≤ array_vec_len text.old + 39 }
{
    if word.is_empty() {
        return;
    }
    append(text, b": ");
    append_shown(text, &word[..WORD_ROOM.min(word.len())]);
}

/// Where a load stood.
fn append_load(text: &mut Text, load: Place)
    requires { array_vec_len text.old + 204 ≤ 2048 }
    ensures after { text.new.items ≡ text.old.items ++ load_text load }
    ensures room { array_vec_len text.new ≤ array_vec_len text.old + 204 }
{
    append(text, b", loaded at ");
    append_place(text, load);
}

/// The loads that led to the place.
fn append_loads(text: &mut Text, loads: &[Place])
    requires { array_vec_len text.old + 204 * length loads.now ≤ 2048 }
    ensures after { text.new.items ≡ text.old.items ++ loads_text loads.now }
    ensures room { array_vec_len text.new ≤ array_vec_len text.old + 204 * length loads.now }
{
    match loads {
        [] => {}
        [load, rest @ ..] => {
            append_load(text, *load);
            append_loads(text, rest)
        }
    }
}

/// The trace of a line: in which line of the input which fault came, and where; then the word that begins there, and
/// the loads that led there, the innermost first.
pub(super) fn trace_text(
    number: u32,
    fault: Fault,
    place: Option<Place>,
    word: &[u8],
    loads: &[Place],
) -> Text
    requires { length loads.now ≤ 8 }
    ensures { result.items ≡ trace_of number (fault_of fault) place word.now loads.now }
{
    let mut text = told_of(number, fault, place);
    append_word(&mut text, word);
    append_loads(&mut text, loads);
    append(&mut text, b"\n");
    text
}

/// What is told of a line that `ABORT` or a true `ABORT"` left: which line of the input that was.
pub(super) fn abort_line(number: u32) -> Text
    ensures { result.items ≡ abort_line number }
{
    let mut text = ArrayVec::new();
    append(&mut text, b"line ");
    append_number(&mut text, number);
    append(&mut text, b": ABORT\n");
    text
}

/// What is told of a block whose changes are taken back: in which line of the input that was.
pub(super) fn undone_line(number: u32, block: u16) -> Text
    ensures { result.items ≡ undone_line number block }
{
    let mut text = ArrayVec::new();
    append(&mut text, b"line ");
    append_number(&mut text, number);
    append(&mut text, b": undone: block ");
    append_number(&mut text, u32::from(block));
    append(&mut text, b"\n");
    text
}
