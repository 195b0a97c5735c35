//! What can be had of a damaged image is put into a new file, and told of. The old one is opened for reading alone.
//! Rule: MANUAL, forth83 salvage OLD NEW [--blocks N]; IMAGE, Layout 3, What can be had of a damaged image.
ghost use Rattle.std.specs.Prelude.{◌≡◌, ◌≢◌, ◌⊎◌, ◌<◌, ◌++◌, true, Some, None, string_bytes, IsTrue, IfErr, IfOk, MatchResult, OnOk, option_map};
ghost use Rattle.std.specs.Io.KnownBytes.{Appends};
ghost use Rattle.sector_disk.specs.Counting.{count_up};
ghost use Rattle.journal.specs.Calls.{StopsLeave};
ghost use Rattle.journal.specs.Layout.{most_blocks};
ghost use Rattle.journal.specs.Suits.{suits};
ghost use Rattle.recovery.specs.Label.{is_size};
ghost use Rattle.recovery.specs.Steps.{OnlyRead, WentWell};
ghost use Rattle.image_care.specs.Made.{MakingLeaves};
ghost use Rattle.image_care.specs.Salvaged.{salvage_refusal, salvaged_blocks};
ghost use Rattle.terminal.specs.Copying.{Salvages, no_recovery, pages_no_recovery, salvage_told, salvaged_count, sectors_for_salvage, standing_by};
ghost use Rattle.terminal.specs.Damage.{damage_told};
ghost use Rattle.terminal.specs.Done.{LeavesBlocks};
ghost use Rattle.terminal.specs.Failed.{SalvageFails};
ghost use Rattle.terminal.specs.Failures.{of_upgrade};

use super::checking::print;
use super::copying::sectors_by;
use super::damage::add_damage_line;
use super::failure::Failure;
use image_care::pages::Standing;
use image_care::{Taken, salvage};
use journal::layout::is_listed;
use journal::pages::layout::blocks_of_size;
use journal::sizes::{Layout, size_by, size_of};
use sector_disk::SectorDevice;
use std::alloc::{AllocError, Global};
use std::io::Write;

/// What is told of each salvage by layout 2.
const NO_RECOVERY: &str =
    "salvaged, not recovered: of a save that was under way some blocks may be old and some new\n";

/// How many sectors the image has that is salvaged of one on so many, which is to have so many blocks.
pub(super) fn sectors_for_salvage(sectors: u32, asked: Option<u16>) -> Option<u32>
    ensures { result ≡ sectors_for_salvage sectors asked }
{
    match size_of(sectors) {
        Some(size) => sectors_by(size.layout, salvaged_count(size.blocks.number, asked)),
        None => None,
    }
}

/// How many blocks are salvaged of an image of so many.
fn salvaged_count(blocks: u16, asked: Option<u16>) -> Option<u16>
    ensures { result ≡ salvaged_count blocks asked }
{
    match asked {
        Some(count) if count != blocks => None,
        _ => Some(blocks),
    }
}

/// Makes an image of what can be had of the one on another device, by the same layout and of as many sectors, and tells
/// that this is no recovery, by layout 3 after the blocks that are damaged. Its failures: `BadSize` where the sizes
/// don't fit, with no call of the new device; `Device` where a call of either failed; and `CannotWrite`, by layout 3
/// also `NoMemory`, where that couldn't be told, though the image is there.
/// Rule: MANUAL, forth83 salvage OLD NEW [--blocks N]; IMAGE, Layout 3, What can be had of a damaged image.
pub fn salvage_over<A: SectorDevice, B: SectorDevice, W: Write>(
    alloc: Global,
    old: &mut A,
    new: &mut B,
    output: &mut W,
) -> Result<(), Failure>
    ensures salvages { OnOk result (Salvages A.SectorDevice B.SectorDevice
        (W.contents output.old) (W.contents output.new) old.old old.new new.old new.new) }
    // The sizes alone are refused, over any device.
    ensures exact { MatchResult result
        (λ _. salvage_refusal (A.sector_count old.old) (B.sector_count new.old) ≡ None)
        (λ e. (e ≡ Failure.Device) ⊎ (e ≡ Failure.NoMemory) ⊎ (e ≡ Failure.CannotWrite) ⊎ (Some e ≡ option_map of_upgrade
        (salvage_refusal (A.sector_count old.old) (B.sector_count new.old)))) }
    ensures device { IfErr result (λ e. e ≡ Failure.Device
        → (A.failures old.new ≡ count_up (A.failures old.old)) ⊎ (B.failures new.new ≡ count_up (B.failures new.old))) }
    ensures refused { IfErr result (λ e. e ≢ Failure.Device
        → WentWell A.SectorDevice B.SectorDevice old.old old.new new.old new.new) }
    ensures well { OnOk result (WentWell A.SectorDevice B.SectorDevice old.old old.new new.old new.new) }
    ensures kept { OnlyRead A.SectorDevice old.old old.new }
    // By layout 2 it takes no memory.
    ensures ready { is_size (A.sector_count old.old) ≡ true → IfErr result (λ e. e ≢ Failure.NoMemory) }
    // Where the sizes are refused, no call of the other device was made.
    ensures unasked { IfErr result (λ e. e ≢ Failure.Device → e ≢ Failure.NoMemory → e ≢ Failure.CannotWrite
        → new.new ≡ new.old) }
    ensures stops { IsTrue (A.keeps_model old.old) → IsTrue (suits B.SectorDevice new.old)
        → StopsLeave B.SectorDevice new.old new.new (MakingLeaves (B.sector_count new.old)
        (salvaged_blocks (B.sector_count new.old) (A.disk old.old).content) (B.disk new.old)) }
    // Where it couldn't be told, the image is there all the same.
    ensures whole { IsTrue (A.keeps_model old.old) → IsTrue (suits B.SectorDevice new.old)
        → IfErr result (λ e. (e ≡ Failure.NoMemory) ⊎ (e ≡ Failure.CannotWrite)
        → LeavesBlocks B.SectorDevice new.new (salvaged_blocks (B.sector_count new.old) (A.disk old.old).content)) }
    // Where it failed, an image of these blocks is made in part, or whole.
    ensures failed { IfErr result (λ failure. SalvageFails A.SectorDevice B.SectorDevice failure old.old old.new new.old new.new) }
    // Where nothing was salvaged, nothing is told.
    ensures untold { IfErr result (λ e. e ≢ Failure.CannotWrite → output.new ≡ output.old) }
{
    match salvage(old, new) {
        Ok(taken) => tell_salvage(alloc, old.sectors(), &taken, output),
        Err(fault) => Err(Failure::from(fault)),
    }
}

/// Tells of an image on so many sectors that its salvage is no recovery, by layout 3 after the blocks that were taken
/// from their other places or weren't had.
fn tell_salvage<W: Write>(
    alloc: Global,
    sectors: u32,
    taken: &Taken,
    output: &mut W,
) -> Result<(), Failure>
    ensures ok { OnOk result (Appends (W.contents output.old) (W.contents output.new) (salvage_told sectors (standing_by taken.now))) }
    ensures only { IfErr result (λ e. (e ≡ Failure.NoMemory) ⊎ (e ≡ Failure.CannotWrite)) }
    ensures ready { is_size sectors ≡ true → IfErr result (λ e. e ≢ Failure.NoMemory) }
    ensures unprinted { IfErr result (λ e. e ≢ Failure.CannotWrite → output.new ≡ output.old) }
{
    match size_by(Layout::Journal, sectors) {
        Some(_) => tell_plain(output),
        None => tell_damaged(alloc, sectors, taken, output),
    }
}

/// Tells that a salvage is no recovery.
fn tell_plain<W: Write>(output: &mut W) -> Result<(), Failure>
    ensures ok { OnOk result (Appends (W.contents output.old) (W.contents output.new) no_recovery) }
    ensures only { IfErr result (λ e. e ≡ Failure.CannotWrite) }
{
    print(NO_RECOVERY.as_bytes(), output)
}

/// Tells of an image of layout 3 which blocks were damaged, and that its salvage is no recovery.
fn tell_damaged<W: Write>(
    alloc: Global,
    sectors: u32,
    taken: &Taken,
    output: &mut W,
) -> Result<(), Failure>
    ensures ok { OnOk result (Appends (W.contents output.old) (W.contents output.new)
        (damage_told sectors (standing_by taken.now) ++ pages_no_recovery)) }
    ensures only { IfErr result (λ e. (e ≡ Failure.NoMemory) ⊎ (e ≡ Failure.CannotWrite)) }
    ensures unprinted { IfErr result (λ e. e ≢ Failure.CannotWrite → output.new ≡ output.old) }
{
    match salvage_text(alloc, sectors, taken) {
        Ok(text) => print(text.as_bytes(), output),
        Err(_) => Err(Failure::NoMemory),
    }
}

/// What is told of a salvage, as lines.
fn salvage_text(alloc: Global, sectors: u32, taken: &Taken) -> Result<String, AllocError>
    ensures { IfOk result (λ text. string_bytes text ≡ damage_told sectors (standing_by taken.now) ++ pages_no_recovery) }
{
    let mut text = damage_text(alloc, sectors, taken)?;
    writeln!(
        text,
        "salvaged, not recovered: a damaged block may be older, or written and not saved, or blank"
    )?;
    Ok(text)
}

/// Which blocks of an image on so many sectors were damaged, as lines.
fn damage_text(alloc: Global, sectors: u32, taken: &Taken) -> Result<String, AllocError>
    ensures { IfOk result (λ text. string_bytes text ≡ damage_told sectors (standing_by taken.now)) }
{
    let mut text = String::new(alloc);
    let Some(blocks) = blocks_of_size(sectors) else {
        return Ok(text);
    };
    for b in 0..blocks {
        add_damage_line(&mut text, b, standing_by(taken, b))?;
    }
    Ok(text)
}

/// Where a block stood that was salvaged.
fn standing_by(taken: &Taken, b: u16) -> Standing
    requires { b < most_blocks }
    ensures { result ≡ standing_by taken.now b }
{
    if is_listed(&taken.others, b) {
        Standing::Other
    } else if is_listed(&taken.lost, b) {
        Standing::Nowhere
    } else {
        Standing::Current
    }
}
