//! The commands over an image on any device.
//! Rule: MANUAL, Commands.
ghost use Rattle.std.specs.Prelude.{◌≡◌, ◌≢◌, ◌⊎◌, ◌<◌, ◌≤◌, ◌+◌, ◌*◌, ◌↔◌, length, true, false, Some, None, IsTrue, OnOk, IfOk, IfErr, IfSome, IsErrOf};
ghost use Rattle.std.specs.Io.KnownBytes.{Appends, Consumes, IsAtEnd};
ghost use Rattle.arrayvec.specs.ArrayVec.{array_vec_len};
ghost use Rattle.sector_disk.specs.Disk.{Image, MayLeave};
ghost use Rattle.journal.specs.Calls.{StopsLeave};
ghost use Rattle.journal.specs.Maps.{Maps, contents, latest, spilled, committed};
ghost use Rattle.journal.specs.Store.{blocks_of, closed_of, device_of, disk_of, pending_count, MeansBy, StandsFor, DeviceBegins, DeviceReads, Continues, DeviceFailed, KeepsSaved};
ghost use Rattle.recovery.specs.Label.{is_size_for};
ghost use Rattle.shadow.specs.Label as newer_label;
ghost use Rattle.journal.specs.Suits.{suits};
ghost use Rattle.terminal.specs.Done.{LeavesBlocks, MakesBlank, meant_by};
ghost use Rattle.terminal.specs.Failed.{MakingFails, NewerMakingFails, RefusesImage};
ghost use Rattle.terminal.specs.Files.{OpensAs};
ghost use Rattle.terminal.specs.Layout3.{MakesNewer};
ghost use Rattle.terminal.specs.Putting.{PutsSome, LeavesSome};
ghost use Rattle.terminal.specs.Screen.{screen_of, listing};

use super::checking::print;
use super::failure::Failure;
use super::screen::{BLOCK, listing, screen_of};
use super::world::World;
use arrayvec::ArrayVec;
use interpreter::IoFault;
use journal::StoreFault;
use recovery::format;
use sector_disk::SectorDevice;
use sessions::streams::read_byte;
use std::io::{Read, Write};
use stores::{Store, open};

/// One byte more than the longest text of a screen: each of its 16 lines has 64 bytes, a carriage return and a line
/// feed.
const TEXT_ROOM: usize = 1057;

/// Makes a device an image of blank blocks, of layout 2. A failure hands the device back: `BadSize` where it hasn't
/// `3 + 4 * blocks` sectors, for 32 to 3,840 blocks, and then it wasn't called, else `Device` where a call of it
/// failed.
/// Rule: IMAGE, A format.
pub fn make_over<D: SectorDevice>(device: D, blocks: u16) -> Result<Store<D>, (Failure, D)>
    ensures made { IfOk result (λ store. MakesBlank D.SectorDevice blocks device (device_of store)) }
    // Ok only where no call failed.
    ensures well { IfOk result (λ store. D.failures (device_of store) ≡ D.failures device) }
    // Where it failed, a stop at any moment leaves no image, or the whole one, or what could be left before.
    ensures failed { is_size_for blocks (D.sector_count device) ≡ true
        → IfErr result (λ e. MakingFails D.SectorDevice blocks e.0 device e.1) }
{
    match format(device, blocks) {
        Ok(store) => Ok(store),
        Err((fault, device)) => Err((Failure::from(fault), device)),
    }
}

/// Makes a device an image of blank blocks, of layout 3. A failure hands the device back: `BadSize` where it hasn't
/// `32 + 16 * blocks` sectors, for 32 to 3,840 blocks, else `Device` where a call of it failed.
/// Rule: IMAGE, Layout 3, A format.
pub fn make_newer_over<D: SectorDevice>(device: D, blocks: u16) -> Result<Store<D>, (Failure, D)>
    ensures made { IfOk result (λ store. MakesNewer D.SectorDevice blocks device (device_of store)) }
    // Ok only where no call failed.
    ensures well { IfOk result (λ store. D.failures (device_of store) ≡ D.failures device) }
    // Where it failed, a stop at any moment leaves no image, or the whole one, or what could be left before, but for the
    // other sectors in the label's unit.
    ensures failed { newer_label.is_size_for blocks (D.sector_count device) ≡ true
        → IfErr result (λ e. NewerMakingFails D.SectorDevice blocks e.0 device e.1) }
{
    match shadow::format(device, blocks) {
        Ok(store) => Ok(store),
        Err((fault, device)) => Err((Failure::from(fault), device)),
    }
}

/// Opens the image on a device: what a stop has left is recovered first. A failure hands the device back: `BadSize`,
/// `NoLabel`, `OtherVersion`, `WrongCount` or `Damaged`, the first that holds of the image, or `Device` where a call of
/// it failed.
/// Rule: IMAGE, A recovery; IMAGE, Layout 3, An opening.
pub fn open_over<D: SectorDevice>(device: D) -> Result<Store<D>, (Failure, D)>
    ensures opened { IfOk result (λ store. OpensAs D.SectorDevice device store) }
    // Where it is refused or fails, a stop at any moment leaves what one of a recovery may leave.
    ensures kept { IfErr result (λ e. RefusesImage D.SectorDevice e.0 device e.1) }
    // Once it is opened, a stop leaves the blocks that the image meant.
    ensures same { IsTrue (suits D.SectorDevice device)
        → IfOk result (λ store. LeavesBlocks D.SectorDevice (device_of store) (meant_by D.SectorDevice device)) }
{
    match open(device) {
        Ok(store) => Ok(store),
        Err((fault, device)) => Err((Failure::from(fault), device)),
    }
}

/// Prints a block as the lines of a screen. `NoBlock` where there is no such block, and `Device` where a read failed,
/// or the store is closed: then nothing is printed. `CannotWrite` where the output failed.
/// Rule: MANUAL, forth83 list IMAGE BLOCK.
pub fn list_block<D: SectorDevice, W: Write>(
    store: &mut Store<D>,
    block: u16,
    output: &mut W,
) -> Result<(), Failure>
    ensures ok { (m : Maps) → StandsFor store.old m → OnOk result (Appends
        (W.contents output.old) (W.contents output.new) (listing (contents m block))) }
    ensures no_block { IsErrOf result Failure.NoBlock ↔ (blocks_of store.old ≤ block) }
    ensures there { OnOk result (block < blocks_of store.old) }
    ensures only { IfErr result (λ e. (e ≡ Failure.NoBlock) ⊎ (e ≡ Failure.Device) ⊎ (e ≡ Failure.CannotWrite)) }
    ensures device { IsErrOf result Failure.Device → (closed_of store.old ≡ true) ⊎ DeviceFailed store.old store.new }
    ensures unwritten { IfErr result (λ e. e ≢ Failure.CannotWrite → output.new ≡ output.old) }
    ensures state { (m : Maps) → StandsFor store.old m → StandsFor store.new m }
    ensures stops { KeepsSaved store.old store.new }
    ensures continues { Continues store.old store.new }
    ensures begins { DeviceBegins store.old store.new 0 0 }
    ensures reads { DeviceReads store.old store.new 2 }
{
    if block >= store.blocks() {
        return Err(Failure::NoBlock);
    }
    let mut bytes = [b' '; BLOCK];
    match store.read_block(block, &mut bytes) {
        Ok(()) => print(listing(&bytes).as_slice(), output),
        Err(_) => Err(Failure::Device),
    }
}

/// Makes the lines of a text a block, which is there, in one save. `CannotRead` where the text can't be read,
/// `NotAScreen` where it isn't at most 16 lines of at most 64 bytes, and then nothing is saved; `Device` where a call
/// of the device failed, or the store is closed.
/// Rule: MANUAL, forth83 put IMAGE BLOCK FILE.
pub fn put_text<D: SectorDevice, R: Read>(
    store: &mut Store<D>,
    block: u16,
    text: &mut R,
) -> Result<(), Failure>
    requires below { block < blocks_of store.old }
    ensures unread { IfErr result (λ e. e ≢ Failure.Device → store.new ≡ store.old) }
    ensures only { IfErr result (λ e. (e ≡ Failure.CannotRead) ⊎ (e ≡ Failure.NotAScreen) ⊎ (e ≡ Failure.Device)) }
    // Whatever the text is, it is one save of one block. It is all that the reader had left, where that is known.
    ensures some { OnOk result (PutsSome (λ bytes. IfSome (R.remaining text.old) (λ left. bytes ≡ left)) store.old store.new block) }
    ensures kept { LeavesSome (λ bytes. IfSome (R.remaining text.old) (λ left. bytes ≡ left)) store.old store.new block }
    ensures continues { Continues store.old store.new }
    ensures begins { DeviceBegins store.old store.new (2 * pending_count store.old + 7) 4 }
    ensures reads { DeviceReads store.old store.new (4 * pending_count store.old + 4) }
    ensures device { IfErr result (λ e. e ≡ Failure.Device
        → (closed_of store.old ≡ true) ⊎ DeviceFailed store.old store.new) }
{
    match read_text(text) {
        Ok(text) => match screen_of(text.as_slice()) {
            Some(bytes) => match put_block(store, block, bytes.as_slice()) {
                Ok(()) => Ok(()),
                Err(_) => Err(Failure::Device),
            },
            None => Err(Failure::NotAScreen),
        },
        Err(_) => Err(Failure::CannotRead),
    }
}

/// Reads a text to its end, or as many bytes as there is room for. Bytes are read one by one.
fn read_text<R: Read>(reader: &mut R) -> Result<ArrayVec<u8, TEXT_ROOM>, IoFault>
    ensures given { IfOk result (λ text. Consumes (R.remaining reader.old) (R.remaining reader.new) text.items) }
    ensures whole { IfOk result (λ text. array_vec_len text < 1057 → IsAtEnd (R.remaining reader.new)) }
{
    let mut text = ArrayVec::new();
    while text.len() < TEXT_ROOM {
        match read_byte(reader) {
            Ok(Some(byte)) => text.push(byte),
            Ok(None) => return Ok(text),
            Err(fault) => return Err(fault),
        }
    }
    Ok(text)
}

/// Makes bytes a block, in one save: a stop at any moment leaves the block as it was, or as it is to be.
fn put_block<D: SectorDevice>(
    store: &mut Store<D>,
    block: u16,
    bytes: &[u8],
) -> Result<(), StoreFault>
    requires below { block < blocks_of store.old }
    requires whole { length bytes.now ≡ 1024 }
    ensures ok { (m : Maps) → StandsFor store.old m
        → OnOk result (StandsFor store.new (committed (spilled m block bytes.now))) }
    ensures after { (m : Maps) → StandsFor store.old m → OnOk result ((image : Image)
        → MayLeave (disk_of store.new) image → MeansBy store.new (latest (spilled m block bytes.now)) image) }
    ensures stops { (m : Maps) → StandsFor store.old m → m.closed ≡ false
        → StopsLeave D.SectorDevice (device_of store.old) (device_of store.new)
        (λ image. MeansBy store.old m.saved image ⊎ MeansBy store.old (latest (spilled m block bytes.now)) image) }
    ensures continues { Continues store.old store.new }
    ensures begins { DeviceBegins store.old store.new (2 * pending_count store.old + 7) 4 }
    ensures reads { DeviceReads store.old store.new (4 * pending_count store.old + 4) }
    ensures closed { IsErrOf result StoreFault.Closed ↔ (closed_of store.old ≡ true) }
    ensures device { IsErrOf result StoreFault.Device → DeviceFailed store.old store.new }
{
    match store.spill(block, bytes) {
        Ok(()) => store.commit(),
        Err(fault) => Err(fault),
    }
}

/// Makes the lines of a text a block, in one save. The text isn't opened where there is no such block.
pub(super) fn put_file<X: World, D: SectorDevice>(
    world: &X,
    store: &mut Store<D>,
    block: u16,
    path: &str,
) -> Result<(), Failure>
    ensures no_block { IsErrOf result Failure.NoBlock ↔ (blocks_of store.old ≤ block) }
    ensures there { OnOk result (block < blocks_of store.old) }
    ensures only { IfErr result (λ e. (e ≡ Failure.NoBlock) ⊎ (e ≡ Failure.CannotRead) ⊎ (e ≡ Failure.NoMemory)
        ⊎ (e ≡ Failure.NotAScreen) ⊎ (e ≡ Failure.Device)) }
    ensures some { OnOk result (PutsSome ((X.gives world.now).is_text path.now) store.old store.new block) }
    ensures kept { block + 1 ≤ blocks_of store.old
        → LeavesSome ((X.gives world.now).is_text path.now) store.old store.new block }
    ensures cannot { IfErr result (λ e. e ≡ Failure.CannotRead
        → (X.gives world.now).is_unread path.now) }
    ensures begins { DeviceBegins store.old store.new (2 * pending_count store.old + 7) 4 }
    ensures reads { DeviceReads store.old store.new (4 * pending_count store.old + 4) }
    ensures unread { IfErr result (λ e. e ≢ Failure.Device → store.new ≡ store.old) }
    ensures device { IfErr result (λ e. e ≡ Failure.Device
        → (closed_of store.old ≡ true) ⊎ DeviceFailed store.old store.new) }
    ensures continues { Continues store.old store.new }
{
    if block >= store.blocks() {
        return Err(Failure::NoBlock);
    }
    match world.text(path) {
        Ok(mut reader) => put_text(store, block, &mut reader),
        Err(failure) => Err(failure),
    }
}
