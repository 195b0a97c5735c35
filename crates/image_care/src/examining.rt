// An image is examined: what it holds is found by reads alone.
ghost use Rattle.std.specs.Prelude.{◌≡◌, ◌≢◌, ◌⊎◌, ◌+◌, ◌*◌, true, false, None, Some, IsTrue, OnOk, IfOk, IfErr, MatchBool, MatchResult};
ghost use Rattle.std.specs.List.{concat};
ghost use Rattle.sha2.specs.Sha256.{sha256};
ghost use Rattle.sector_disk.specs.Counting.{count_up};
ghost use Rattle.sector_disk.specs.Disk.{MayLeave};
ghost use Rattle.journal.specs.Calls.{StopsLeave, BeginsAtMost, ReadsAtMost, CostsAtMost, Proceeds};
ghost use Rattle.recovery.specs.Label.{is_size};
ghost use Rattle.recovery.specs.declared.fault.OpenFault.TheVariants.{BadSize, Device};
ghost use Rattle.shadow.specs.Label.{blocks_in, is_known_size};
ghost use Rattle.shadow.specs.Upgraded.{known_blocks};
ghost use Rattle.stores.specs.Images.{HasMeaning, meaning};
ghost use Rattle.stores.specs.Opened.{image_refusal};
ghost use Rattle.image_care.specs.Examined.{joined_below};
ghost use Rattle.image_care.specs.Looked.{gate_fits_in, reads_of_gate, reads_to_look, save_in};
ghost use Rattle.image_care.specs.View.{fits_by, found_by, is_journal, save_by, sectors_of};

use crate::blocks::digest_of_blocks;
use crate::looking::look;
use crate::pages::gate_fits;
use crate::view::{Listing, View};
use recovery::OpenFault;
use sector_disk::SectorDevice;

/// What an image holds.
#[derive(Clone, Copy, Debug, PartialEq, Eq)]
pub struct Examined {
    /// How many blocks it has.
    pub blocks: u16,
    /// How many of them the save has that is under way, where one is. By layout 3 none ever waits to be finished.
    pub under_way: Option<u16>,
    /// Whether the gate is of the record that it names; where it isn't, a save may be lost. By layout 2 it names none,
    /// and this is always so.
    pub gate_fits: bool,
    /// The SHA-256 of the blocks, block 0 first, 1,024 bytes each.
    pub digest: [u8; 32],
}

/// Tells what an image holds, by reads alone: nothing is written, and nothing synced. Its blocks are those that an
/// opening would recover. Takes no memory.
///
/// It refuses, in this order, what `look` does: BadSize with no device call, NoLabel, OtherVersion, WrongCount and
/// Damaged. Device comes where a read failed.
/// Rule: MANUAL, forth83 check IMAGE; IMAGE, For another writer; IMAGE, Layout 3.
pub fn examine<D: SectorDevice>(device: &mut D) -> Result<Examined, OpenFault>
    ensures size { IfOk result (λ found. found.blocks ≡ known_blocks (D.sector_count device.old)) }
    // What is told has a meaning, and what has one is refused only by a fault of the device.
    ensures meaning { IsTrue (D.keeps_model device.old)
        → OnOk result (HasMeaning (D.sector_count device.old) (D.disk device.old).content) }
    ensures good { IsTrue (D.keeps_model device.old) → is_known_size (D.sector_count device.old) ≡ true
        → HasMeaning (D.sector_count device.old) (D.disk device.old).content → IfErr result (λ e. e ≡ Device) }
    // A save is under way where the gate of an image of layout 2 is open, and has the blocks that the record lists.
    ensures under_way { IsTrue (D.keeps_model device.old) → IfOk result (λ found.
        found.under_way ≡ save_in (D.sector_count device.old) (D.disk device.old).content) }
    // The gate of an image of layout 3 fits where it has the sum of the record that it names.
    ensures fits { IsTrue (D.keeps_model device.old) → IfOk result (λ found.
        found.gate_fits ≡ gate_fits_in (D.sector_count device.old) (D.disk device.old).content) }
    // The digest is that of all blocks as the image means them.
    ensures digest { IsTrue (D.keeps_model device.old) → IfOk result (λ found.
        found.digest ≡ sha256 (concat (meaning (D.sector_count device.old) (D.disk device.old).content))) }

    // Each refusal tells the first test that the image fails.
    ensures exact { IsTrue (D.keeps_model device.old) → MatchResult result
        (λ _. image_refusal (D.sector_count device.old) (D.disk device.old).content ≡ None)
        (λ e. (e ≡ Device) ⊎ (image_refusal (D.sector_count device.old) (D.disk device.old).content ≡ Some e)) }
    ensures sized { OnOk result (is_known_size (D.sector_count device.old) ≡ true) }
    ensures bad_size { IfErr result (λ e. MatchBool (is_known_size (D.sector_count device.old)) (e ≢ BadSize) (e ≡ BadSize)) }
    ensures unasked { IfErr result (λ e. e ≡ BadSize → device.new ≡ device.old) }
    ensures device { IfErr result (λ e. e ≡ Device → D.failures device.new ≡ count_up (D.failures device.old)) }
    ensures refused { IfErr result (λ e. e ≢ Device → D.failures device.new ≡ D.failures device.old) }
    ensures well { OnOk result (D.failures device.new ≡ D.failures device.old) }

    // Nothing is written or synced, and a stop at any moment leaves what one before could leave.
    ensures disk { IsTrue (D.keeps_model device.old) → D.disk device.new ≡ D.disk device.old }
    ensures stops { IsTrue (D.keeps_model device.old)
        → StopsLeave D.SectorDevice device.old device.new (MayLeave (D.disk device.old)) }
    ensures passes { Proceeds D.SectorDevice device.old device.new }
    ensures begins { BeginsAtMost D.SectorDevice device.old device.new 0 0 }
    // What an opening looks at is read, and once more each block and the gate of layout 3. There the size alone tells how much that is.
    ensures reads { IsTrue (D.keeps_model device.old)
        → ReadsAtMost D.SectorDevice device.old device.new
        (reads_to_look (D.sector_count device.old) (D.disk device.old).content + 2 * known_blocks (D.sector_count device.old)
        + reads_of_gate (is_size (D.sector_count device.old))) }
    ensures few { is_size (D.sector_count device.old) ≡ false
        → ReadsAtMost D.SectorDevice device.old device.new (5 * blocks_in (D.sector_count device.old) + 4) }
{
    let view = look(device)?;
    add_up(device, &view)
}

// What an image holds whose blocks stand there.
fn add_up<D: SectorDevice>(device: &mut D, view: &View) -> Result<Examined, OpenFault>
    requires size { D.sector_count device.old ≡ sectors_of view.now }
    ensures blocks { IfOk result (λ found. found.blocks ≡ view.now.blocks.number) }
    ensures under_way { IfOk result (λ found. found.under_way ≡ save_by view.now.listing view.now.blocks.number) }
    ensures fits { IsTrue (D.keeps_model device.old) → IfOk result (λ found.
        found.gate_fits ≡ fits_by view.now.listing (D.disk device.old).content) }
    ensures digest { IsTrue (D.keeps_model device.old) → IfOk result (λ found.
        found.digest ≡ sha256 (joined_below (found_by view.now (D.disk device.old).content) view.now.blocks.number)) }
    ensures fault { IfErr result (λ e. e ≡ Device) }
    ensures device { IfErr result (λ _. D.failures device.new ≡ count_up (D.failures device.old)) }
    ensures well { OnOk result (D.failures device.new ≡ D.failures device.old) }
    ensures disk { IsTrue (D.keeps_model device.old) → D.disk device.new ≡ D.disk device.old }
    ensures stops { IsTrue (D.keeps_model device.old)
        → StopsLeave D.SectorDevice device.old device.new (MayLeave (D.disk device.old)) }
    ensures passes { Proceeds D.SectorDevice device.old device.new }
    ensures costs { CostsAtMost D.SectorDevice device.old device.new 0 0
        (2 * view.now.blocks.number + reads_of_gate (is_journal view.now.listing)) }
{
    match digest_of_blocks(device, view) {
        Ok(digest) => with_digest(device, view, digest),
        Err(_) => Err(OpenFault::Device),
    }
}

// The same, where its blocks have this digest.
fn with_digest<D: SectorDevice>(
    device: &mut D,
    view: &View,
    digest: [u8; 32],
) -> Result<Examined, OpenFault>
    requires size { D.sector_count device.old ≡ sectors_of view.now }
    ensures blocks { IfOk result (λ found. found.blocks ≡ view.now.blocks.number) }
    ensures under_way { IfOk result (λ found. found.under_way ≡ save_by view.now.listing view.now.blocks.number) }
    ensures fits { IsTrue (D.keeps_model device.old) → IfOk result (λ found.
        found.gate_fits ≡ fits_by view.now.listing (D.disk device.old).content) }
    ensures digest { IfOk result (λ found. found.digest ≡ digest) }
    ensures fault { IfErr result (λ e. e ≡ Device) }
    ensures device { IfErr result (λ _. D.failures device.new ≡ count_up (D.failures device.old)) }
    ensures well { OnOk result (D.failures device.new ≡ D.failures device.old) }
    ensures disk { IsTrue (D.keeps_model device.old) → D.disk device.new ≡ D.disk device.old }
    ensures stops { IsTrue (D.keeps_model device.old)
        → StopsLeave D.SectorDevice device.old device.new (MayLeave (D.disk device.old)) }
    ensures passes { Proceeds D.SectorDevice device.old device.new }
    ensures costs { CostsAtMost D.SectorDevice device.old device.new 0 0 (reads_of_gate (is_journal view.now.listing)) }
{
    match look_at_gate(device, view) {
        Ok(gate_fits) => Ok(Examined {
            blocks: view.blocks.number,
            under_way: view.under_way(),
            gate_fits,
            digest,
        }),
        Err(fault) => Err(fault),
    }
}

// Whether the gate is of the record that it names. By layout 2 it names none.
fn look_at_gate<D: SectorDevice>(device: &mut D, view: &View) -> Result<bool, OpenFault>
    requires size { D.sector_count device.old ≡ sectors_of view.now }
    ensures fits { IsTrue (D.keeps_model device.old)
        → IfOk result (λ fits. fits ≡ fits_by view.now.listing (D.disk device.old).content) }
    ensures fault { IfErr result (λ e. e ≡ Device) }
    ensures device { IfErr result (λ _. D.failures device.new ≡ count_up (D.failures device.old)) }
    ensures well { OnOk result (D.failures device.new ≡ D.failures device.old) }
    ensures disk { IsTrue (D.keeps_model device.old) → D.disk device.new ≡ D.disk device.old }
    ensures stops { IsTrue (D.keeps_model device.old)
        → StopsLeave D.SectorDevice device.old device.new (MayLeave (D.disk device.old)) }
    ensures passes { Proceeds D.SectorDevice device.old device.new }
    ensures costs { CostsAtMost D.SectorDevice device.old device.new 0 0 (reads_of_gate (is_journal view.now.listing)) }
{
    match &view.listing {
        Listing::Journal(_) => Ok(true),
        Listing::Pages(named) => gate_fits(device, &named.listing),
    }
}
