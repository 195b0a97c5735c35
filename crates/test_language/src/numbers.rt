//! Numbers as texts, and words and texts taken from a stream.

use crate::rows::{Caller, Row, follow, number_in};
use number_io::{
    Held, Number, NumberFault, convert, digit_char, digit_value, laws, read_number, take_text,
    take_word,
};

/// Calls over a text that is held.
#[derive(Drop)]
struct Numbers {
    held: Held,
}

impl Caller for Numbers {
    fn call(&mut self, row: Row<'_>) -> bool {
        match row.word {
            "read" => is_read(row),
            "convert" => is_converted(row),
            "word" => is_taken(row, take_word(row.text(), row.byte(0))),
            "text" => is_taken(row, take_text(row.text(), row.byte(0))),
            "char" => is_char(row),
            "value" => is_value(row),
            _ => self.held(row),
        }
    }
}

impl Numbers {
    fn new() -> Self {
        Numbers { held: Held::new() }
    }

    fn held(&mut self, row: Row<'_>) -> bool {
        match row.word {
            "begin" => self.begin(),
            "hold" => row.is(self.held.hold(row.byte(0))),
            "stars" => self.stars(row.cell(0)),
            "digit" => self.digit(row),
            "digits" => self.digits(row),
            "held" => row.shows(self.held.finish()),
            "length" => row.gives(u32::try_from(self.held.finish().len()).ok()),
            "first" => row.gives(self.held.finish().first().map(|first| u32::from(*first))),
            _ => false,
        }
    }

    fn begin(&mut self) -> bool {
        self.held.begin();
        true
    }

    fn stars(&mut self, count: u16) -> bool {
        for _ in 0..count {
            self.held.hold(b'*');
        }
        true
    }

    fn digit(&mut self, row: Row<'_>) -> bool {
        let base = row.cell(1);
        2 <= base && base <= 72 && row.gives(self.held.digit(row.number(0), base))
    }

    fn digits(&mut self, row: Row<'_>) -> bool {
        let base = row.cell(1);
        2 <= base && base <= 72 && row.is(self.held.digits(row.number(0), base))
    }
}

/// `read BASE [TEXT] | single N`, `double N`, `range` or `none`.
fn is_read(row: Row<'_>) -> bool {
    let base = row.cell(0);
    if base < 2 || base > 72 {
        return false;
    }
    let (kind, number) = row.answer.split_once(" ").unwrap_or((row.answer, ""));
    match read_number(row.text(), base) {
        Ok(Number::Single(n)) => kind == "single" && number_in(number, 0) == u32::from(n),
        Ok(Number::Double(d)) => kind == "double" && number_in(number, 0) == d,
        Err(NumberFault::OutOfRange) => kind == "range",
        Err(NumberFault::NotANumber) => kind == "none",
    }
}

/// `convert D BASE [TEXT] | D COUNT`.
fn is_converted(row: Row<'_>) -> bool {
    let base = row.cell(1);
    if base < 2 || base > 72 {
        return false;
    }
    let (number, count) = convert(row.number(0), row.text(), base);
    number == number_in(row.answer, 0) && u32::try_from(count) == Ok(number_in(row.answer, 1))
}

/// What is taken of the stream, and how much it is with its delimiters.
fn is_taken(row: Row<'_>, taken: (&[u8], usize)) -> bool {
    row.shows(taken.0) && row.gives(u32::try_from(taken.1).ok())
}

fn is_char(row: Row<'_>) -> bool {
    let digit = row.byte(0);
    digit < 72 && row.shows(&[digit_char(digit)])
}

fn is_value(row: Row<'_>) -> bool {
    let base = row.cell(0);
    if base > 72 {
        return false;
    }
    match row.text() {
        [c] => row.gives(digit_value(*c, base).map(u32::from)),
        _ => false,
    }
}

#[test]
fn decimal_numbers_are_read(rt: HostRuntime) {
    let text = "read 10 [0] | single 0
read 10 [-0] | single 0
read 10 [007] | single 7
read 10 [-7] | single 65529
read 10 [65535] | single 65535
read 10 [65536] | range
read 10 [-32768] | single 32768
read 10 [-32769] | range
read 10 [1.] | double 1
read 10 [-1.] | double 4294967295
read 10 [4294967295.] | double 4294967295
read 10 [4294967296.] | range
read 10 [-2147483648.] | double 2147483648
read 10 [-2147483649.] | range
read 10 [99999999999999999999] | range
read 10 [] | none
read 10 [-] | none
read 10 [.] | none
read 10 [-.] | none
read 10 [1.5] | none
read 10 [1..] | none
read 10 [--1] | none
read 10 [1-] | none
read 10 [FF] | none";
    follow(&rt, &mut Numbers::new(), text);
}

#[test]
fn numbers_in_other_bases_are_read(rt: HostRuntime) {
    let text = "read 16 [FF] | single 255
read 16 [ff] | none
read 16 [-8000] | single 32768
read 16 [10000] | range
read 2 [1111111111111111] | single 65535
read 2 [2] | none
read 72 [~~] | single 5183";
    follow(&rt, &mut Numbers::new(), text);
}

#[test]
fn digits_go_past_the_letters(rt: HostRuntime) {
    let text = "char 9 | [9]
char 10 | [A]
char 71 | [~]
value 72 [~] | 71
value 71 [~] | none
value 72 [:] | none";
    follow(&rt, &mut Numbers::new(), text);
}

#[test]
fn digits_are_converted_up_to_another_byte(rt: HostRuntime) {
    let text = "convert 0 10 [1234X] | 1234 4
convert 1 10 [] | 1 0
convert 12 10 [34 5] | 1234 2
convert 0 16 [FG] | 15 1
convert 429496730 10 [0] | 4 1";
    follow(&rt, &mut Numbers::new(), text);
}

#[test]
fn a_text_is_held_from_its_end(rt: HostRuntime) {
    let text = "digits 0 10 | true
held | [0]
begin
digit 1234 10 | 123
hold 46 | true
digits 123 10 | true
held | [123.4]";
    follow(&rt, &mut Numbers::new(), text);
}

#[test]
fn a_sign_is_held_before_its_digits(rt: HostRuntime) {
    let text = "digits 5 10 | true
hold 45 | true
held | [-5]
begin
digits 255 16 | true
held | [FF]
begin
digits 4294967295 2 | true
length | 32
begin
digits 5183 72 | true
held | [~~]";
    follow(&rt, &mut Numbers::new(), text);
}

#[test]
fn no_more_than_66_bytes_are_held(rt: HostRuntime) {
    let text = "stars 65
digits 12 10 | false
length | 66
first | 50
hold 33 | false
digit 7 10 | none
first | 50";
    follow(&rt, &mut Numbers::new(), text);
}

#[test]
fn laws_are_calls(_rt: HostRuntime) {
    laws::digits_sum_up();
    laws::digits_are_unique();
    laws::words_cut_texts();
    laws::texts_cut_texts();
}

#[test]
fn words_are_taken_without_delimiters(rt: HostRuntime) {
    let text = "word 32 [  DUP .] | 6 [DUP]
word 32 [   ] | 3 []
word 32 [A B] | 2 [A]
word 32 [A] | 1 [A]
word 88 [XXAXB] | 4 [A]
text 34 [ HI ] | 4 [ HI ]
text 34 [ HI \" 1] | 5 [ HI ]
text 41 [) 1] | 1 []";
    follow(&rt, &mut Numbers::new(), text);
}
