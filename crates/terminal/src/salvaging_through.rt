//! An image is read through before it is salvaged, and the sectors that can't be read are passed over.
//! Rule: MANUAL, forth83 salvage OLD NEW [--blocks N]; IMAGE, A sector that can't be read.
ghost use Rattle.std.specs.Prelude.{◌≡◌, ◌≢◌, ◌⊎◌, [], true, false, IfErr, OnOk};
ghost use Rattle.recovery.specs.Steps.{OnlyRead, WentWell};
ghost use Rattle.image_care.specs.Mended.{HasLostRecord};
ghost use Rattle.image_care.specs.Through.{image_of};
ghost use Rattle.terminal.specs.Failed.{HadFails, MendedInPart, ReadFails, SalvageThroughFails};
ghost use Rattle.terminal.specs.Through.{SalvagesMended, SalvagesRead, SalvagesThrough, unread_told};

use super::checking::print;
use super::failure::Failure;
use super::salvaging::salvage_over;
use super::unread_sectors::unread_text;
use image_care::{has_lost_record, mend, read_through};
use sector_disk::SectorDevice;
use std::alloc::Global;
use std::io::Write;

/// Makes an image of what can be had of the one on another device, as `salvage_over`, after each sector of that one was
/// read once. Where all could be read, and the record that the gate names isn't lost, that is `salvage_over` itself.
/// Else it is one of what was had, which lies in memory, under the best record for it (`mend`): blanks stand for each
/// sector that couldn't be read, and these are told after all else. Its failures are
/// those of `salvage_over`, and `NoMemory` where there is none for what is read, or for the lines of these sectors, by
/// each layout, with no call of the new device.
/// Rule: MANUAL, forth83 salvage OLD NEW [--blocks N]; IMAGE, A sector that can't be read.
pub fn salvage_through<A: SectorDevice, B: SectorDevice, W: Write>(
    alloc: Global,
    old: &mut A,
    new: &mut B,
    output: &mut W,
) -> Result<(), Failure>
    ensures salvages { OnOk result (SalvagesThrough A.SectorDevice B.SectorDevice
        (W.contents output.old) (W.contents output.new) old.old old.new new.old new.new) }
    ensures new_well { OnOk result (B.failures new.new ≡ B.failures new.old) }
    // Where it failed, an image is made in part, or whole, or none.
    ensures failed { IfErr result (λ failure. SalvageThroughFails A.SectorDevice B.SectorDevice failure old.old old.new new.old new.new) }
    // Where nothing was salvaged, nothing is told.
    ensures untold { IfErr result (λ e. e ≢ Failure.CannotWrite → output.new ≡ output.old) }
{
    let sectors = old.sectors();
    match read_through(alloc, old) {
        Ok((bytes, unread)) => {
            salvage_read(alloc, old, sectors, bytes, unread.as_slice(), new, output)
        }
        Err(_) => Err(Failure::NoMemory),
    }
}

/// Salvages an image on so many sectors, of which these bytes were had, and these sectors couldn't be read: from its
/// device, where there are none and no record is lost.
fn salvage_read<A: SectorDevice, B: SectorDevice, W: Write>(
    alloc: Global,
    old: &mut A,
    sectors: u32,
    bytes: Vec<u8>,
    unread: &[u32],
    new: &mut B,
    output: &mut W,
) -> Result<(), Failure>
    ensures salvages { OnOk result (SalvagesRead A.SectorDevice B.SectorDevice sectors bytes.items unread.now
        (W.contents output.old) (W.contents output.new) old.old old.new new.old new.new) }
    ensures well { OnOk result (WentWell A.SectorDevice B.SectorDevice old.old old.new new.old new.new) }
    ensures kept { OnlyRead A.SectorDevice old.old old.new }
    ensures failed { IfErr result (λ failure. ReadFails A.SectorDevice B.SectorDevice sectors bytes.items unread.now failure
        old.old old.new new.old new.new) }
    ensures untold { IfErr result (λ e. e ≢ Failure.CannotWrite → output.new ≡ output.old) }
{
    if is_had_whole(bytes.as_slice(), sectors, unread) {
        salvage_over(alloc, old, new, output)
    } else {
        salvage_had(alloc, sectors, bytes, unread, new, output)
    }
}

/// Whether each sector of an image on so many was read, and the record that its gate names isn't lost.
fn is_had_whole(bytes: &[u8], sectors: u32, unread: &[u32]) -> bool
    ensures whole { result ≡ true → (unread.now ≡ []) × (¬ HasLostRecord sectors (image_of bytes.now)) }
    ensures less { result ≡ false → (unread.now ≢ []) ⊎ HasLostRecord sectors (image_of bytes.now) }
{
    match unread {
        [_, ..] => false,
        [] => !has_lost_record(bytes, sectors),
    }
}

/// Salvages an image on so many sectors from what was had of it, and tells which sectors couldn't be read.
fn salvage_had<B: SectorDevice, W: Write>(
    alloc: Global,
    sectors: u32,
    bytes: Vec<u8>,
    unread: &[u32],
    new: &mut B,
    output: &mut W,
) -> Result<(), Failure>
    ensures had { OnOk result (SalvagesMended B.SectorDevice sectors (image_of bytes.items) (unread_told sectors unread.now)
        (W.contents output.old) (W.contents output.new) new.old new.new) }
    ensures well { OnOk result (B.failures new.new ≡ B.failures new.old) }
    ensures failed { IfErr result (λ failure. HadFails B.SectorDevice sectors (image_of bytes.items) failure new.old new.new) }
    ensures untold { IfErr result (λ e. e ≢ Failure.CannotWrite → output.new ≡ output.old) }
{
    match unread_text(alloc, sectors, unread) {
        Ok(text) => {
            salvage_seen(
                alloc,
                sectors,
                bytes.as_slice(),
                text.as_bytes(),
                new,
                output,
            )
        }
        Err(_) => Err(Failure::NoMemory),
    }
}

/// Salvages an image on so many sectors from these bytes, of which no read fails, under the best record for them, and
/// tells more after that.
fn salvage_seen<B: SectorDevice, W: Write>(
    alloc: Global,
    sectors: u32,
    bytes: &[u8],
    more: &[u8],
    new: &mut B,
    output: &mut W,
) -> Result<(), Failure>
    ensures had { OnOk result (SalvagesMended B.SectorDevice sectors (image_of bytes.now) more.now
        (W.contents output.old) (W.contents output.new) new.old new.new) }
    ensures well { OnOk result (B.failures new.new ≡ B.failures new.old) }
    // Where it failed for the device, that is the new one.
    ensures failed { IfErr result (λ failure. MendedInPart B.SectorDevice sectors (image_of bytes.now) failure new.old new.new) }
    ensures untold { IfErr result (λ e. e ≢ Failure.CannotWrite → output.new ≡ output.old) }
{
    let mut seen = mend(bytes, sectors);
    match salvage_over(alloc, &mut seen, new, output) {
        Ok(()) => print(more, output),
        Err(failure) => Err(failure),
    }
}
