//! The calls that C makes. None has a condition but those of its parameters' types.
//! Rule: EMBEDDING, What is proved.
ghost use Rattle.std.specs.Prelude.{◌≡◌, ◌≢◌, ◌≤◌, ◌↔◌, None, length, IfSome, MatchBool};
ghost use Rattle.shadow.specs.Label.{is_known_size};
ghost use Rattle.hosted.specs.Keeping.{SamePlace, gate_in, not_open};
ghost use Rattle.hosted.specs.Making.{fits_image};
ghost use Rattle.hosted.specs.Refusals.{code_of, read_refusal, save_refusal};

use hosted::console::{HostInput, HostOutput};
use hosted::disk::HostDisk;
use hosted::host::Numbered;
use hosted::open_store::{OpenStore, close};
use hosted::promises::{
    format_over, open_over, read_open_over, read_over, recover_over, run_over, save_open_over,
    save_over,
};
use hosted::refusal::Refusal;
use std::alloc::Global;

/// Makes an image of 32 to 3,840 blank blocks, of layout 2 on `3 + 4 * blocks` sectors and of layout 3 on
/// `32 + 16 * blocks`. It answers 0 or the number of a refusal: `BadSize` at another number of blocks or of sectors,
/// with no call of the device, and `Device`.
#[unsafe(no_mangle)]
pub extern "C" fn silgwyrad_format(device: i32, sectors: u32, blocks: u16) -> u8
    ensures listed { result ≤ 12 }
    ensures size { MatchBool (fits_image blocks sectors) (result ≢ code_of Refusal.BadSize) (result ≡ code_of Refusal.BadSize) }
{
    format_over(disk(device, sectors), blocks).0
}

/// Opens an image after a stop, and finishes a save that was half done. So do a read, a save, an opening and a session
/// first. It answers 0 or the number of a refusal: one of the image, or `Device`.
#[unsafe(no_mangle)]
pub extern "C" fn silgwyrad_recover(device: i32, sectors: u32) -> u8
    ensures listed { result ≤ 12 }
    ensures size { MatchBool (is_known_size sectors) (result ≢ code_of Refusal.BadSize) (result ≡ code_of Refusal.BadSize) }
{
    recover_over(disk(device, sectors)).0
}

/// Reads a block: its 1,024 bytes are put into `out`, and left at any other answer than 0. It answers 0 or the number
/// of a refusal: `BadSize`, `NoBlock` and `BadLength` of the arguments, with no call of the device, and then those of
/// `silgwyrad_recover`.
#[unsafe(no_mangle)]
pub extern "C" fn silgwyrad_read(device: i32, sectors: u32, block: u16, out: &mut [u8]) -> u8
    ensures listed { result ≤ 12 }
    ensures arguments { IfSome (read_refusal sectors block (length out.old)) (λ e. result ≡ code_of e) }
    ensures fits { result ≡ 0 → read_refusal sectors block (length out.old) ≡ None }
    ensures kept { result ≢ 0 → out.new ≡ out.old }
{
    read_over(disk(device, sectors), block, out).0
}

/// Saves blocks, all or none. `bytes` has 1,024 for each. It answers 0 or the number of a refusal: `BadSize`, `NoBlock`
/// and `BadLength` of the arguments, with no call of the device, and then those of `silgwyrad_recover`.
#[unsafe(no_mangle)]
pub extern "C" fn silgwyrad_save(device: i32, sectors: u32, blocks: &[u16], bytes: &[u8]) -> u8
    ensures listed { result ≤ 12 }
    ensures arguments { IfSome (save_refusal sectors blocks.now (length bytes.now)) (λ e. result ≡ code_of e) }
    ensures fits { result ≡ 0 → save_refusal sectors blocks.now (length bytes.now) ≡ None }
{
    save_over(disk(device, sectors), blocks, bytes).0
}

/// Opens an image after a stop, as `silgwyrad_recover` does and with its answers, and keeps it open in the caller's
/// memory for the calls below. Where the answer isn't 0 the store isn't open.
#[unsafe(no_mangle)]
pub extern "C" fn silgwyrad_open(device: i32, sectors: u32, store: &mut OpenStore) -> u8
    ensures listed { result ≤ 12 }
    ensures size { MatchBool (is_known_size sectors) (result ≢ code_of Refusal.BadSize) (result ≡ code_of Refusal.BadSize) }
    ensures stays { result ≡ 0 → gate_in store.new ≢ None }
    ensures refused { result ≢ 0 → gate_in store.new ≡ None }
    ensures device { store.new.device ≡ device }
    ensures sectors { store.new.sectors ≡ sectors }
{
    store.device = device;
    store.sectors = sectors;
    open_over(disk(device, sectors), store).0
}

/// Reads a block of an open store: its 1,024 bytes are put into `out`, and left at any other answer than 0. It answers
/// 0, or 13 where no store is open, or the number of a refusal: those of the arguments, as of `silgwyrad_read`, with no
/// call of the device, and `Device`, which closes the store.
#[unsafe(no_mangle)]
pub extern "C" fn silgwyrad_read_open(store: &mut OpenStore, block: u16, out: &mut [u8]) -> u8
    ensures listed { result ≤ 13 }
    ensures unopened { gate_in store.old ≡ None → result ≡ not_open }
    ensures arguments { gate_in store.old ≢ None
        → IfSome (read_refusal store.old.sectors block (length out.old)) (λ e. result ≡ code_of e) }
    ensures fits { result ≡ 0 → read_refusal store.old.sectors block (length out.old) ≡ None }
    ensures kept { result ≢ 0 → out.new ≡ out.old }
    ensures stays { result ≡ 0 → gate_in store.new ≢ None }
    ensures same { result ≢ 0 → result ≢ code_of Refusal.Device → store.new ≡ store.old }
    ensures closed { result ≡ code_of Refusal.Device → gate_in store.new ≡ None }
    ensures place { SamePlace store.old store.new }
{
    read_open_over(disk(store.device, store.sectors), store, block, out).0
}

/// Saves blocks to an open store, all or none. `bytes` has 1,024 for each. It answers 0, or 13 where no store is open,
/// or the number of a refusal: those of the arguments, as of `silgwyrad_save`, with no call of the device, and
/// `Device`, which closes the store.
#[unsafe(no_mangle)]
pub extern "C" fn silgwyrad_save_open(store: &mut OpenStore, blocks: &[u16], bytes: &[u8]) -> u8
    ensures listed { result ≤ 13 }
    ensures unopened { gate_in store.old ≡ None → result ≡ not_open }
    ensures arguments { gate_in store.old ≢ None
        → IfSome (save_refusal store.old.sectors blocks.now (length bytes.now)) (λ e. result ≡ code_of e) }
    ensures fits { result ≡ 0 → save_refusal store.old.sectors blocks.now (length bytes.now) ≡ None }
    ensures stays { result ≡ 0 → gate_in store.new ≢ None }
    ensures same { result ≢ 0 → result ≢ code_of Refusal.Device → store.new ≡ store.old }
    ensures closed { result ≡ code_of Refusal.Device → gate_in store.new ≡ None }
    ensures place { SamePlace store.old store.new }
{
    save_open_over(disk(store.device, store.sectors), store, blocks, bytes).0
}

/// Closes an open store. Nothing is left to be done: the device isn't called.
/// Rule: EMBEDDING, What is proved; EMBEDDING, What the host owes.
#[unsafe(no_mangle)]
pub extern "C" fn silgwyrad_close(store: &mut OpenStore)
    ensures { gate_in store.new ≡ None }
{
    close(store);
}

/// Runs the lines that the input gives over the image, to its end, at most `steps` steps a line, 1 or more, and writes
/// the replies. It answers 0 or the number of a refusal: `NoSteps`, then those of `silgwyrad_recover`, then `NoMemory`,
/// `Input` or `Output`. A call of the device that fails in the session is told in a reply, not by this answer.
#[unsafe(no_mangle)]
pub extern "C" fn silgwyrad_run(
    alloc: Global,
    device: i32,
    sectors: u32,
    input: i32,
    output: i32,
    steps: u32,
) -> u8
    ensures listed { result ≤ 12 }
    ensures steps { (result ≡ code_of Refusal.NoSteps) ↔ (steps ≡ 0) }
    ensures size { steps ≢ 0 → MatchBool (is_known_size sectors) (result ≢ code_of Refusal.BadSize) (result ≡ code_of Refusal.BadSize) }
{
    let mut reader = HostInput::new(Numbered::new(input));
    let mut writer = HostOutput::new(Numbered::new(output));
    let device = disk(device, sectors);
    run_over(alloc, device, steps, &mut reader, &mut writer).0
}

/// The host's device under a number.
fn disk(number: i32, sectors: u32) -> HostDisk<Numbered>
    ensures { result.sectors ≡ sectors }
{
    HostDisk::new(Numbered::new(number), sectors)
}
