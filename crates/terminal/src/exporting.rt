//! Many blocks at once, printed.
//! Rule: MANUAL, forth83 export IMAGE FIRST LAST [--raw].
ghost use Rattle.std.specs.Prelude.{◌≡◌, ◌≢◌, ◌⊎◌, ◌<◌, ◌≤◌, ◌-◌, ◌+◌, ◌*◌, ◌++◌, ◌∷◌, ◌↔◌, [], length, true, OnOk, IfErr, IsErrOf};
ghost use Rattle.std.specs.Io.KnownBytes.{Appends};
ghost use Rattle.data_space.specs.Blanks.{trimmed};
ghost use Rattle.journal.specs.Maps.{Maps, contents};
ghost use Rattle.journal.specs.Store.{StandsFor, DeviceFailed, DeviceWentWell, blocks_of, closed_of};
ghost use Rattle.terminal.specs.Transfer.{ReadsStore, exported, exported_text, exports, unpadded};

use super::failure::Failure;
use super::screen::{BLOCK, COLUMNS, LISTING, ROWS, add_line};
use arrayvec::ArrayVec;
use command_line::orders::Form;
use sector_disk::SectorDevice;
use sessions::streams::{flush, write_bytes};
use std::io::Write;
use stores::Store;

/// Prints the blocks from `first` to `last`, one after another. Where one of them isn't there, or `last` comes before
/// `first`, nothing is printed: `NoBlock`. `Device` where a read failed, or the store is closed, and `CannotWrite`
/// where the output failed: then some may be printed.
pub fn export_blocks<D: SectorDevice, W: Write>(
    store: &mut Store<D>,
    first: u16,
    last: u16,
    form: Form,
    output: &mut W,
) -> Result<(), Failure>
    ensures ok { (m : Maps) → StandsFor store.old m → OnOk result (Appends
        (W.contents output.old) (W.contents output.new) (exports form m first (last + 1 - first))) }
    ensures no_block { IsErrOf result Failure.NoBlock ↔ ((last < first) ⊎ (blocks_of store.old ≤ last)) }
    ensures ordered { OnOk result (first ≤ last) }
    ensures there { OnOk result (last < blocks_of store.old) }
    ensures only { IfErr result (λ e. (e ≡ Failure.NoBlock) ⊎ (e ≡ Failure.Device) ⊎ (e ≡ Failure.CannotWrite)) }
    ensures device { IsErrOf result Failure.Device → (closed_of store.old ≡ true) ⊎ DeviceFailed store.old store.new }
    ensures unwritten { IsErrOf result Failure.NoBlock → output.new ≡ output.old }
    ensures unprinted { IfErr result (λ e. e ≢ Failure.Device → e ≢ Failure.CannotWrite → output.new ≡ output.old) }
    ensures store { ReadsStore store.old store.new (2 * (last + 1 - first)) }
{
    if last < first {
        return Err(Failure::NoBlock);
    }
    if last >= store.blocks() {
        return Err(Failure::NoBlock);
    }
    match print_blocks(store, first, last + 1, form, output) {
        Ok(()) => flush(output).map_err(|_| Failure::CannotWrite),
        Err(failure) => Err(failure),
    }
}

/// Prints the blocks from `first` on that stand before `past`.
fn print_blocks<D: SectorDevice, W: Write>(
    store: &mut Store<D>,
    first: u16,
    past: u16,
    form: Form,
    output: &mut W,
) -> Result<(), Failure>
    requires ordered { first ≤ past }
    requires there { past ≤ blocks_of store.old }
    ensures ok { (m : Maps) → StandsFor store.old m → OnOk result (Appends
        (W.contents output.old) (W.contents output.new) (exports form m first (past - first))) }
    ensures only { IfErr result (λ e. (e ≡ Failure.Device) ⊎ (e ≡ Failure.CannotWrite)) }
    ensures device { IsErrOf result Failure.Device → (closed_of store.old ≡ true) ⊎ DeviceFailed store.old store.new }
    ensures store { ReadsStore store.old store.new (2 * (past - first)) }
{
    for block in first..past {
        print_block(store, block, form, output)?;
    }
    Ok(())
}

/// Prints a block.
fn print_block<D: SectorDevice, W: Write>(
    store: &mut Store<D>,
    block: u16,
    form: Form,
    output: &mut W,
) -> Result<(), Failure>
    requires { block < blocks_of store.old }
    ensures ok { (m : Maps) → StandsFor store.old m → OnOk result (Appends
        (W.contents output.old) (W.contents output.new) (exported form (contents m block))) }
    ensures only { IfErr result (λ e. (e ≡ Failure.Device) ⊎ (e ≡ Failure.CannotWrite)) }
    ensures device { IsErrOf result Failure.Device → (closed_of store.old ≡ true) ⊎ DeviceFailed store.old store.new }
    ensures well { OnOk result (DeviceWentWell store.old store.new) }
    ensures store { ReadsStore store.old store.new 2 }
{
    let mut bytes = [b' '; BLOCK];
    match store.read_block(block, &mut bytes) {
        Ok(()) => print_bytes(&bytes, form, output),
        Err(_) => Err(Failure::Device),
    }
}

/// Prints the bytes of a block.
pub(super) fn print_bytes<W: Write>(
    bytes: &[u8; BLOCK],
    form: Form,
    output: &mut W,
) -> Result<(), Failure>
    ensures ok { OnOk result (Appends (W.contents output.old) (W.contents output.new) (exported form bytes.now)) }
    ensures err { IfErr result (λ e. e ≡ Failure.CannotWrite) }
{
    match form {
        Form::Text => write(text_of(bytes).as_slice(), output),
        Form::Raw => write(bytes.as_slice(), output),
    }
}

fn write<W: Write>(bytes: &[u8], output: &mut W) -> Result<(), Failure>
    ensures ok { OnOk result (Appends (W.contents output.old) (W.contents output.new) bytes.now) }
    ensures err { IfErr result (λ e. e ≡ Failure.CannotWrite) }
{
    write_bytes(output, bytes).map_err(|_| Failure::CannotWrite)
}

/// A block as 16 lines, as they are listed, but without the blanks at their ends.
fn text_of(block: &[u8; BLOCK]) -> ArrayVec<u8, LISTING>
    ensures { result.items ≡ exported_text 16 block.now }
{
    let mut lines = ArrayVec::new();
    let mut rest = block.as_slice();
    for _ in 0..ROWS {
        let (row, below) = rest.split_at(COLUMNS);
        add_line(&mut lines, without_blanks(row));
        rest = below;
    }
    lines
}

/// A line without the blanks at its end.
pub(super) fn without_blanks(line: &[u8]) -> &[u8]
    ensures line { result.now ≡ unpadded line.now }
    ensures short { length result.now ≤ length line.now }
{
    let (text, _) = line.split_at(text_length(line));
    text
}

/// How many bytes are left without the blanks at the end.
#[tactic(auto, using(data_space::proofs::Trims::trimmed_last, data_space::proofs::Trims::trimmed_blank))]
fn text_length(line: &[u8]) -> usize
    ensures length { result ≡ trimmed line.now }
    ensures within { result ≤ length line.now }
{
    let mut count = line.len();
    while count > 0 && line[count - 1] == b' ' {
        count -= 1;
    }
    count
}
