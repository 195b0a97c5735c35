//! Data space: a list of 65,536 bytes.

ghost use Rattle.std.specs.Prelude.{◌≡◌, ◌<◌, length};
ghost use Rattle.data_space.specs.Space.{buffer_at, with_byte, with_bytes};

use crate::rows::{Caller, Row, follow};
use data_space::{DataSpace, lent};
use std::alloc::Global;
use std::process::Abort;
use std::test::Fail;

/// Sets a block buffer by a loan.
fn set_buffer(space: &mut DataSpace, slot: u8, bytes: &[u8])
    requires slot { slot < 4 }
    requires len { length bytes.now ≡ 1024 }
    ensures { space.new ≡ with_bytes space.old (buffer_at slot) bytes.now }
{
    space.buffer_mut(slot).copy_from_slice(bytes);
}

/// Stores a byte by a loan of all bytes.
fn store_by_loan(space: &mut DataSpace, a: u16, b: u8)
    ensures { space.new ≡ with_byte space.old a b }
{
    let bytes = space.bytes_mut();
    bytes[usize::from(a)] = b;
}

/// Calls over a data space.
#[derive(Drop)]
struct Memory {
    space: DataSpace,
}

impl Caller for Memory {
    fn call(&mut self, row: Row<'_>) -> bool {
        let (a, b, n) = (row.cell(0), row.cell(1), row.cell(2));
        match row.word {
            "byte" => row.gives(Some(u32::from(self.space.byte(a)))),
            "cell" => row.gives(self.space.cell(a).map(u32::from)),
            "set_cell" => row.is(self.space.set_cell(a, b)),
            "move_up" => row.is(self.space.move_up(a, b, n)),
            "move_down" => row.is(self.space.move_down(a, b, n)),
            "slice" => shows(row, self.space.slice(a, b)),
            "lent" => lent_call(self.space.bytes_mut(), row.inner()),
            _ => self.other(row, a),
        }
    }
}

impl Memory {
    fn other(&mut self, row: Row<'_>, a: u16) -> bool {
        match row.word {
            "fill" => row.is(self.space.fill(a, row.cell(1), row.byte(2))),
            "set_bytes" => row.is(self.space.set_bytes(a, row.text())),
            "set_byte" => self.set_byte(a, row.byte(1)),
            "count_up" => self.count_up(),
            "loan" => self.loan(a, row.byte(1)),
            "length" => row.gives(u32::try_from(self.space.bytes().len()).ok()),
            "at" => row.gives(Some(u32::from(self.space.bytes()[usize::from(a)]))),
            _ => self.buffer(row),
        }
    }

    fn set_byte(&mut self, a: u16, byte: u8) -> bool {
        self.space.set_byte(a, byte);
        true
    }

    fn loan(&mut self, a: u16, byte: u8) -> bool {
        store_by_loan(&mut self.space, a, byte);
        true
    }

    /// Puts the numbers from 0 to 199, over and over, into 1,200 bytes from 1,000 on.
    fn count_up(&mut self) -> bool {
        let mut a = 1000;
        for _ in 0..6 {
            for number in 0..200u8 {
                self.space.set_byte(a, number);
                a = a.wrapping_add(1);
            }
        }
        true
    }

    fn buffer(&mut self, row: Row<'_>) -> bool {
        let slot = row.byte(0);
        if slot > 3 {
            return false;
        }
        let bytes = [row.byte(1); 1024];
        match row.word {
            "set_buffer" => {
                set_buffer(&mut self.space, slot, &bytes);
                true
            }
            "buffer" => row.is(self.space.buffer(slot) == bytes.as_slice()),
            _ => false,
        }
    }
}

/// A call over all bytes, as they are lent.
fn lent_call(bytes: &mut [u8], row: Row<'_>) -> bool
    requires { length bytes.old ≡ 65536 }
{
    let (a, b, n) = (row.cell(0), row.cell(1), row.cell(2));
    match row.word {
        "byte" => row.gives(Some(u32::from(lent::byte(bytes, a)))),
        "set_byte" => {
            lent::set_byte(bytes, a, row.byte(1));
            true
        }
        "cell" => row.gives(lent::cell(bytes, a).map(u32::from)),
        "set_cell" => row.is(lent::set_cell(bytes, a, b)),
        "fill" => row.is(lent::fill(bytes, a, b, row.byte(2))),
        "move_up" => row.is(lent::move_up(bytes, a, b, n)),
        "move_down" => row.is(lent::move_down(bytes, a, b, n)),
        "slice" => shows(row, lent::slice(bytes, a, b)),
        _ => false,
    }
}

fn shows(row: Row<'_>, bytes: Option<&[u8]>) -> bool {
    match bytes {
        Some(bytes) => row.shows(bytes),
        None => row.gives(None),
    }
}

/// Does the calls of a text over a new data space.
fn follow_new(rt: &impl Abort, alloc: Global, text: &str) -> Result<(), Fail> {
    let space = DataSpace::new(alloc)?;
    follow(rt, &mut Memory { space }, text);
    Ok(())
}

#[test]
fn begins_all_zero(rt: HostRuntime) -> Result<(), Fail> {
    follow_new(&rt, rt.alloc(), "cell 65534 | 0")
}

#[test]
fn a_cell_has_its_low_byte_first(rt: HostRuntime) -> Result<(), Fail> {
    let text = "set_cell 1604 1234 | true
byte 1604 | 210
byte 1605 | 4
cell 1604 | 1234
set_cell 65535 1 | false
cell 65535 | none";
    follow_new(&rt, rt.alloc(), text)
}

#[test]
fn all_bytes_are_lent(rt: HostRuntime) -> Result<(), Fail> {
    let text = "loan 65535 7
byte 65535 | 7
length | 65536
at 65535 | 7
lent byte 65535 | 7
lent set_byte 0 9
lent cell 0 | 9
lent set_cell 1 16961 | true
lent fill 3 2 67 | true
lent move_up 1 2 1 | true
lent move_down 3 1 1 | true
lent byte 0 | 9
lent slice 1 4 | [CACC]
lent cell 65535 | none
lent set_cell 65535 1 | false";
    follow_new(&rt, rt.alloc(), text)
}

#[test]
fn moves_go_byte_by_byte(rt: HostRuntime) -> Result<(), Fail> {
    let text = "fill 1604 4 42 | true
set_byte 1604 65
move_up 1604 1605 3 | true
slice 1604 4 | [AAAA]
set_bytes 1604 [A***] | true
move_down 1604 1605 3 | true
slice 1604 4 | [AA**]";
    follow_new(&rt, rt.alloc(), text)
}

// Upwards over its own source the first 300 bytes are spread.
#[test]
fn a_long_move_up_spreads_its_first_bytes(rt: HostRuntime) -> Result<(), Fail> {
    let text = "count_up
move_up 1000 1300 700 | true
byte 1000 | 0
byte 1099 | 99
byte 1300 | 0
byte 1399 | 99
byte 1600 | 0
byte 1699 | 99
byte 1900 | 0
byte 1999 | 99
byte 1899 | 99
byte 1999 | 99
byte 2000 | 0";
    follow_new(&rt, rt.alloc(), text)
}

// The highest first, the source is read before it is written.
#[test]
fn a_long_move_of_the_highest_first_keeps(rt: HostRuntime) -> Result<(), Fail> {
    let text = "count_up
move_down 1000 1300 700 | true
byte 1299 | 99
byte 1300 | 0
byte 1600 | 100
byte 1999 | 99
byte 2000 | 0";
    follow_new(&rt, rt.alloc(), text)
}

// Downwards it is the lowest first that keeps, and the highest first that spreads.
#[test]
fn a_long_move_downwards_goes_byte_by_byte_too(rt: HostRuntime) -> Result<(), Fail> {
    let text = "count_up
move_up 1300 1000 700 | true
byte 1000 | 100
byte 1300 | 0
byte 1699 | 199
byte 1700 | 100
count_up
move_down 1300 1000 700 | true
byte 999 | 0
byte 1100 | 100
byte 1399 | 199
byte 1400 | 100
byte 1699 | 199
byte 1700 | 100
byte 1999 | 199
move_up 1000 64836 700 | true
byte 65535 | 199
move_down 64836 0 700 | true
byte 699 | 199";
    follow_new(&rt, rt.alloc(), text)
}

#[test]
fn a_range_past_the_end_is_refused(rt: HostRuntime) -> Result<(), Fail> {
    let text = "fill 65535 1 7 | true
fill 65535 2 8 | false
byte 65535 | 7
fill 65535 0 8 | true
move_up 0 65535 2 | false
slice 65535 2 | none
slice 65535 0 | []";
    follow_new(&rt, rt.alloc(), text)
}

#[test]
fn a_buffer_is_lent_in_place(rt: HostRuntime) -> Result<(), Fail> {
    let text = "set_buffer 1 32
byte 62463 | 0
byte 62464 | 32
byte 63487 | 32
byte 63488 | 0
buffer 1 32 | true";
    follow_new(&rt, rt.alloc(), text)
}
