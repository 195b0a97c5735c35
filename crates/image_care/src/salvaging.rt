// What can be had of a damaged image is put into a new one.
ghost use Rattle.std.specs.Prelude.{◌≡◌, ◌≢◌, ◌⊎◌, ◌<◌, ◌+◌, ◌*◌, ℕ, true, false, if◌then◌else◌, None, Some, IsTrue, OnOk, IfOk, IfErr, MatchResult};
ghost use Rattle.sector_disk.specs.Counting.{count_up};
ghost use Rattle.sector_disk.specs.Disk.{Image, MayLeave};
ghost use Rattle.journal.specs.BySize.{Means};
ghost use Rattle.journal.specs.Calls.{StopsLeave, BeginsAtMost, ReadsAtMost, Proceeds};
ghost use Rattle.journal.specs.Layout as journal_layout;
ghost use Rattle.journal.specs.Layout.{listed};
ghost use Rattle.journal.specs.PageLayout as pages_layout;
ghost use Rattle.journal.specs.Suits.{suits};
ghost use Rattle.recovery.specs.Label.{is_size};
ghost use Rattle.recovery.specs.Steps.{OnlyRead, WentWell};
ghost use Rattle.recovery.specs.declared.fault.OpenFault.TheVariants.{BadSize, Device};
ghost use Rattle.recovery.specs.declared.fault.UpgradeFault.TheVariants.{Old, New};
ghost use Rattle.shadow.specs.Upgraded.{known_blocks};
ghost use Rattle.stores.specs.Images.{meaning};
ghost use Rattle.journal.specs.Layouts as layouts;
ghost use Rattle.image_care.specs.Examined.{reads_to_list};
ghost use Rattle.image_care.specs.Made.{IsMade, KeepsRest, MakingLeaves, writes_to_make};
ghost use Rattle.image_care.specs.Salvaged.{IsUndamaged, reads_to_salvage, salvage_refusal, salvaged_blocks, standing_in};
ghost use Rattle.image_care.specs.Standing.{is_other, is_nowhere};
ghost use Rattle.image_care.specs.Taken.{IsBest, true_record_in};
ghost use Rattle.image_care.specs.View.{is_journal, sectors_of};

use crate::laying::lay;
use crate::listing::read_listing;
use crate::salvage_source::{Taken, TakenBlocks, nothing_noted};
use crate::view::{Listing, View};
use journal::NamedRecord;
use journal::layout::BlockCount;
use journal::sizes::{Layout, Size, size_of};
use recovery::{OpenFault, UpgradeFault};
use sector_disk::SectorDevice;
use shadow::read_record;

// The size of both images of a salvage between devices of so many sectors.
fn size_of_both(old: u32, new: u32) -> Result<Size, UpgradeFault>
    ensures exact { MatchResult result (λ _. salvage_refusal old new ≡ None) (λ e. salvage_refusal old new ≡ Some e) }
    ensures layout { IfOk result (λ size. layouts.is_journal size.layout ≡ is_size old) }
    ensures sectors { IfOk result (λ size. old ≡ layouts.sectors_for size.layout size.blocks.number) }
    ensures count { IfOk result (λ size. size.blocks.number ≡ known_blocks old) }
    ensures same { OnOk result (new ≡ old) }
    ensures told { IfErr result (λ e. (e ≡ Old BadSize) ⊎ (e ≡ New BadSize)) }
{
    let Some(size) = size_of(old) else {
        return Err(UpgradeFault::Old(OpenFault::BadSize));
    };
    if new != old {
        return Err(UpgradeFault::New(OpenFault::BadSize));
    }
    Ok(size)
}

// Where the blocks of an image stand, as far as that can be told: neither its label nor its damage is told of.
fn find_best<D: SectorDevice>(device: &mut D, size: Size) -> Result<View, UpgradeFault>
    requires size { D.sector_count device.old ≡ layouts.sectors_for size.layout size.blocks.number }
    ensures size { IfOk result (λ view. D.sector_count device.old ≡ sectors_of view) }
    ensures count { IfOk result (λ view. view.blocks.number ≡ size.blocks.number) }
    ensures layout { IfOk result (λ view. is_journal view.listing ≡ layouts.is_journal size.layout) }
    ensures best { IsTrue (D.keeps_model device.old)
        → IfOk result (λ view. IsBest view.listing size.blocks.number (D.disk device.old).content) }
    ensures fault { IfErr result (λ e. e ≡ Old Device) }
    ensures device { IfErr result (λ _. D.failures device.new ≡ count_up (D.failures device.old)) }
    ensures well { OnOk result (D.failures device.new ≡ D.failures device.old) }
    ensures only_read { OnlyRead D.SectorDevice device.old device.new }
    ensures reads { IsTrue (D.keeps_model device.old) → ReadsAtMost D.SectorDevice device.old device.new
        (if layouts.is_journal size.layout then reads_to_list size.blocks.number (D.disk device.old).content else 2) }
{
    match size.layout {
        Layout::Journal => find_journal(device, size.blocks),
        Layout::Pages => find_named(device, size.blocks),
    }
}

// Of an image of layout 2 the record under an open gate, where its digest is true. One whose digest isn't is as none.
fn find_journal<D: SectorDevice>(device: &mut D, blocks: BlockCount) -> Result<View, UpgradeFault>
    requires size { D.sector_count device.old ≡ journal_layout.sectors_for blocks.number }
    ensures count { IfOk result (λ view. view.blocks.number ≡ blocks.number) }
    ensures layout { IfOk result (λ view. is_journal view.listing ≡ true) }
    ensures best { IsTrue (D.keeps_model device.old)
        → IfOk result (λ view. IsBest view.listing blocks.number (D.disk device.old).content) }
    ensures fault { IfErr result (λ e. e ≡ Old Device) }
    ensures device { IfErr result (λ _. D.failures device.new ≡ count_up (D.failures device.old)) }
    ensures well { OnOk result (D.failures device.new ≡ D.failures device.old) }
    ensures only_read { OnlyRead D.SectorDevice device.old device.new }
    ensures reads { IsTrue (D.keeps_model device.old)
        → ReadsAtMost D.SectorDevice device.old device.new (reads_to_list blocks.number (D.disk device.old).content) }
{
    match find_true(device, blocks) {
        Ok(listing) => Ok(View {
            blocks,
            listing: Listing::Journal(listing),
        }),
        Err(fault) => Err(UpgradeFault::Old(fault)),
    }
}

fn find_true<D: SectorDevice>(
    device: &mut D,
    blocks: BlockCount,
) -> Result<Option<[u8; 512]>, OpenFault>
    requires size { D.sector_count device.old ≡ journal_layout.sectors_for blocks.number }
    ensures ok { IsTrue (D.keeps_model device.old)
        → IfOk result (λ listing. listing ≡ true_record_in blocks.number (D.disk device.old).content) }
    ensures fault { IfErr result (λ e. e ≡ Device) }
    ensures device { IfErr result (λ _. D.failures device.new ≡ count_up (D.failures device.old)) }
    ensures well { OnOk result (D.failures device.new ≡ D.failures device.old) }
    ensures only_read { OnlyRead D.SectorDevice device.old device.new }
    ensures reads { IsTrue (D.keeps_model device.old)
        → ReadsAtMost D.SectorDevice device.old device.new (reads_to_list blocks.number (D.disk device.old).content) }
{
    match read_listing(device, blocks) {
        Ok(listing) => Ok(listing),
        Err(OpenFault::Device) => Err(OpenFault::Device),
        Err(_) => Ok(None),
    }
}

// Of an image of layout 3 the record that the gate names, whatever its sum is.
fn find_named<D: SectorDevice>(device: &mut D, blocks: BlockCount) -> Result<View, UpgradeFault>
    requires size { D.sector_count device.old ≡ pages_layout.sectors_for blocks.number }
    ensures count { IfOk result (λ view. view.blocks.number ≡ blocks.number) }
    ensures layout { IfOk result (λ view. is_journal view.listing ≡ false) }
    ensures best { IsTrue (D.keeps_model device.old)
        → IfOk result (λ view. IsBest view.listing blocks.number (D.disk device.old).content) }
    ensures fault { IfErr result (λ e. e ≡ Old Device) }
    ensures device { IfErr result (λ _. D.failures device.new ≡ count_up (D.failures device.old)) }
    ensures well { OnOk result (D.failures device.new ≡ D.failures device.old) }
    ensures only_read { OnlyRead D.SectorDevice device.old device.new }
    ensures reads { ReadsAtMost D.SectorDevice device.old device.new 2 }
{
    let mut listing = [0; 512];
    match read_record(device, &mut listing) {
        Ok(is_open) => Ok(View {
            blocks,
            listing: Listing::Pages(NamedRecord { is_open, listing }),
        }),
        Err(_) => Err(UpgradeFault::Old(OpenFault::Device)),
    }
}

/// Makes an image of what can be had of a damaged one, by the same layout, on another device of as many sectors, and
/// tells which blocks weren't had from where they count. How many sectors the devices have tells the layout. Neither
/// the label of the old image nor its damage stops it. By layout 2 a block is taken from its slot where the gate is
/// open over a record whose digest is true and that lists the block; else from its home. By layout 3 it is taken from
/// the place that the record names, if its bytes fit the tag there; else from its other place, if they fit there; and
/// else it is blank. The old image is only read: nothing is written, and nothing synced. The label of the new one is
/// written last, and a good label that stood there is taken away first. Takes no memory.
///
/// This is no recovery. Of an image that an opening takes it makes a copy; but of a save that was under way in a
/// damaged image of layout 2 some blocks may be old and some new, and by layout 3 a block from its other place is older
/// than what counted, or was spilled and not saved, where the record is the one that was saved; where it isn't, each
/// block may be an older one.
///
/// It refuses an old device of a size that no image has (BadSize), and then a new one of another size (BadSize), both
/// with no call of either device. Device comes where a call of that device failed.
/// Rule: MANUAL, forth83 salvage OLD NEW [--blocks N]; IMAGE, The bytes; IMAGE, Layout 3, What can be had of a damaged
/// image.
pub fn salvage<A: SectorDevice, B: SectorDevice>(
    old: &mut A,
    new: &mut B,
) -> Result<Taken, UpgradeFault>
    // It tells just the blocks that it took from their other places, and just those that it found in neither.
    ensures others { IsTrue (A.keeps_model old.old) → IfOk result (λ taken. (b : ℕ) → b < known_blocks (A.sector_count old.old)
        → listed taken.others b ≡ is_other (standing_in (A.sector_count old.old) (A.disk old.old).content b)) }
    ensures lost { IsTrue (A.keeps_model old.old) → IfOk result (λ taken. (b : ℕ) → b < known_blocks (A.sector_count old.old)
        → listed taken.lost b ≡ is_nowhere (standing_in (A.sector_count old.old) (A.disk old.old).content b)) }
    // The sizes alone are refused, the first that fails, over any device.
    ensures exact { MatchResult result
        (λ _. salvage_refusal (A.sector_count old.old) (B.sector_count new.old) ≡ None)
        (λ e. (e ≡ Old Device) ⊎ (e ≡ New Device)
        ⊎ (salvage_refusal (A.sector_count old.old) (B.sector_count new.old) ≡ Some e)) }
    // The device that is told as failed failed once, and no call failed else.
    ensures old_device { IfErr result (λ e. e ≡ Old Device → A.failures old.new ≡ count_up (A.failures old.old)) }
    ensures new_device { IfErr result (λ e. e ≡ New Device → B.failures new.new ≡ count_up (B.failures new.old)) }
    ensures old_well { IfErr result (λ e. e ≢ Old Device → A.failures old.new ≡ A.failures old.old) }
    ensures new_well { IfErr result (λ e. e ≢ New Device → B.failures new.new ≡ B.failures new.old) }
    ensures well { OnOk result (WentWell A.SectorDevice B.SectorDevice old.old old.new new.old new.new) }
    // A refusal other than Device comes with no call of either device.
    ensures old_unasked { IfErr result (λ e. e ≢ Old Device → e ≢ New Device → old.new ≡ old.old) }
    ensures new_unasked { IfErr result (λ e. e ≢ Old Device → e ≢ New Device → new.new ≡ new.old) }

    // The old image is only read. A stop at any moment leaves of it what one before could leave.
    ensures old_stops { OnlyRead A.SectorDevice old.old old.new }
    // What a stop at any moment leaves of the new one, and what one leaves of it once it has returned.
    ensures new_stops { IsTrue (A.keeps_model old.old) → IsTrue (suits B.SectorDevice new.old)
        → StopsLeave B.SectorDevice new.old new.new (MakingLeaves (B.sector_count new.old)
        (salvaged_blocks (B.sector_count new.old) (A.disk old.old).content) (B.disk new.old)) }
    ensures after { IsTrue (A.keeps_model old.old) → IsTrue (suits B.SectorDevice new.old)
        → OnOk result ((image : Image) → MayLeave (B.disk new.new) image → Means (B.sector_count new.old)
        (salvaged_blocks (B.sector_count new.old) (A.disk old.old).content) image) }
    // Of an image that isn't damaged it salvages the blocks that the image means.
    ensures undamaged { IsTrue (A.keeps_model old.old) → IsTrue (suits B.SectorDevice new.old)
        → IsUndamaged (A.sector_count old.old) (A.disk old.old).content → OnOk result ((image : Image) → MayLeave (B.disk new.new) image
        → Means (B.sector_count new.old) (meaning (A.sector_count old.old) (A.disk old.old).content) image) }
    // The new image is made as by a format, with these blocks where a format puts blanks.
    ensures made { IsTrue (A.keeps_model old.old) → IsTrue (suits B.SectorDevice new.old)
        → OnOk result (IsMade (B.sector_count new.old)
        (salvaged_blocks (B.sector_count new.old) (A.disk old.old).content) (B.disk new.new)) }
    ensures rest { IsTrue (suits B.SectorDevice new.old) → OnOk result
        (KeepsRest (B.sector_count new.old) (B.disk new.old).content (B.disk new.new).content) }
    ensures new_passes { Proceeds B.SectorDevice new.old new.new }
    ensures new_units { IsTrue (suits B.SectorDevice new.old) → (B.disk new.new).unit ≡ (B.disk new.old).unit }
    ensures old_reads { IsTrue (A.keeps_model old.old) → ReadsAtMost A.SectorDevice old.old old.new
        (reads_to_salvage (A.sector_count old.old) (A.disk old.old).content) }
    ensures new_begins { BeginsAtMost B.SectorDevice new.old new.new (writes_to_make (B.sector_count new.old)) 4 }
    ensures new_reads { ReadsAtMost B.SectorDevice new.old new.new 1 }
{
    let size = size_of_both(old.sectors(), new.sectors())?;
    let view = find_best(old, size)?;
    let mut blocks = TakenBlocks {
        view,
        taken: nothing_noted(),
    };
    match lay(&mut blocks, old, new, size) {
        Ok(()) => Ok(blocks.taken),
        Err(fault) => Err(fault),
    }
}
