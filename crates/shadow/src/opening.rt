// All that counts of an image is looked at.
ghost use Rattle.std.specs.Prelude.{◌≡◌, ◌⊎◌, ◌≤◌, ◌+◌, ◌*◌, IsTrue, OnOk, IfOk, MatchResult};
ghost use Rattle.sector_disk.specs.Disk.{MayLeave, settled};
ghost use Rattle.journal.specs.Calls.{StopsLeave, BeginsAtMost, ReadsAtMost, CostsAtMost, Proceeds};
ghost use Rattle.journal.specs.Layout.{most_blocks};
ghost use Rattle.recovery.specs.Recovered.{Tells};
ghost use Rattle.recovery.specs.declared.fault.OpenFault.TheVariants.{Device, Damaged};
ghost use Rattle.journal.specs.PageClean.{IsClean};
ghost use Rattle.journal.specs.PageImages.{record_of, IsWhole};
ghost use Rattle.journal.specs.PageLayout.{sectors_for, gate_at, gate_open};
ghost use Rattle.shadow.specs.Opened.{Passes, Refuses};

use crate::checking::{is_whole, read_record};
use journal::layout::BlockCount;
use journal::pages::layout::VERSION;
use recovery::{OpenFault, start};
use sector_disk::SectorDevice;

/// What counts in an image that isn't damaged.
#[derive(Clone, Copy)]
pub struct Found {
    /// How many blocks it has.
    pub number: u16,
    /// Whether the gate is open.
    pub is_open: bool,
    /// The record that the gate names.
    pub listing: [u8; 512],
}

// Reads the gate of an image of so many blocks with a good label, the record that it names into `listing`, and each block
// that counts, and answers whether the gate is open.
fn look_into<D: SectorDevice>(
    device: &mut D,
    blocks: u16,
    listing: &mut [u8; 512],
) -> Result<bool, OpenFault>
    requires few { blocks ≤ most_blocks }
    requires size { D.sector_count device.old ≡ sectors_for blocks }
    ensures gate { IsTrue (D.keeps_model device.old)
        → IfOk result (λ is_open. gate_open ((D.disk device.old).content gate_at) ≡ is_open) }
    ensures named { IsTrue (D.keeps_model device.old)
        → OnOk result (record_of (D.disk device.old).content ≡ listing.new) }
    ensures exact { IsTrue (D.keeps_model device.old) → MatchResult result
        (λ _. IsWhole blocks (D.disk device.old).content)
        (λ e. (e ≡ Device) ⊎ ((e ≡ Damaged) × ¬ IsWhole blocks (D.disk device.old).content)) }
    ensures tells { Tells D.SectorDevice device.old device.new 0 result }
    ensures disk { IsTrue (D.keeps_model device.old) → D.disk device.new ≡ D.disk device.old }
    ensures stops { IsTrue (D.keeps_model device.old)
        → StopsLeave D.SectorDevice device.old device.new (MayLeave (D.disk device.old)) }
    ensures passes { Proceeds D.SectorDevice device.old device.new }
    ensures costs { CostsAtMost D.SectorDevice device.old device.new 0 0 (3 * blocks + 2) }
{
    let is_open = read_record(device, listing)?;
    if is_whole(device, blocks, listing)? {
        Ok(is_open)
    } else {
        Err(OpenFault::Damaged)
    }
}

/// Reads the gate of an image of layout 3 of so many blocks with a good label, the record that it names, and each block
/// that counts. An image that is damaged is refused (Damaged); Device comes where a read failed. Nothing is written,
/// and nothing synced.
/// Rule: IMAGE, Layout 3; IMAGE, Layout 3, An opening.
pub fn look<D: SectorDevice>(device: &mut D, blocks: u16) -> Result<Found, OpenFault>
    requires few { blocks ≤ most_blocks }
    requires size { D.sector_count device.old ≡ sectors_for blocks }
    ensures number { IfOk result (λ found. found.number ≡ blocks) }
    ensures gate { IsTrue (D.keeps_model device.old)
        → IfOk result (λ found. gate_open ((D.disk device.old).content gate_at) ≡ found.is_open) }
    ensures named { IsTrue (D.keeps_model device.old)
        → IfOk result (λ found. record_of (D.disk device.old).content ≡ found.listing) }
    ensures exact { IsTrue (D.keeps_model device.old) → MatchResult result
        (λ _. IsWhole blocks (D.disk device.old).content)
        (λ e. (e ≡ Device) ⊎ ((e ≡ Damaged) × ¬ IsWhole blocks (D.disk device.old).content)) }
    ensures tells { Tells D.SectorDevice device.old device.new 0 result }
    ensures disk { IsTrue (D.keeps_model device.old) → D.disk device.new ≡ D.disk device.old }
    ensures stops { IsTrue (D.keeps_model device.old)
        → StopsLeave D.SectorDevice device.old device.new (MayLeave (D.disk device.old)) }
    ensures passes { Proceeds D.SectorDevice device.old device.new }
    ensures begins { BeginsAtMost D.SectorDevice device.old device.new 0 0 }
    ensures reads { ReadsAtMost D.SectorDevice device.old device.new (3 * blocks + 2) }
{
    let mut listing = [0; 512];
    match look_into(device, blocks, &mut listing) {
        Ok(is_open) => Ok(Found {
            number: blocks,
            is_open,
            listing,
        }),
        Err(fault) => Err(fault),
    }
}

/// Makes what is there stay, and looks at all that counts of an image of layout 3 of so many blocks: the label, the
/// gate, the record that it names, which is put into `listing`, and each block that this names. Answers whether the
/// gate is open. Nothing is written. A label that isn't its own is refused, and a damaged image (Damaged); Device comes
/// where a call of the device failed. After an error `listing` may be anything.
/// Rule: IMAGE, Layout 3, An opening; IMAGE, Layout 3.
#[inline(never)] // what it reads isn't to lie on the stack below a store
pub fn survey<D: SectorDevice>(
    device: &mut D,
    blocks: BlockCount,
    listing: &mut [u8; 512],
) -> Result<bool, OpenFault>
    requires size { D.sector_count device.old ≡ sectors_for blocks.number }
    ensures ok { IsTrue (D.keeps_model device.old)
        → OnOk result (D.disk device.new ≡ settled (D.disk device.old)) }
    ensures clean { IsTrue (D.keeps_model device.old)
        → IfOk result (λ is_open. IsClean blocks.number is_open listing.new (D.disk device.new)) }
    ensures exact { IsTrue (D.keeps_model device.old) → MatchResult result
        (λ _. Passes blocks.number (D.disk device.old).content)
        (λ e. (e ≡ Device) ⊎ Refuses blocks.number (D.disk device.old).content e) }
    ensures tells { Tells D.SectorDevice device.old device.new 1 result }
    ensures stops { IsTrue (D.keeps_model device.old)
        → StopsLeave D.SectorDevice device.old device.new (MayLeave (D.disk device.old)) }
    ensures passes { Proceeds D.SectorDevice device.old device.new }
    ensures costs { CostsAtMost D.SectorDevice device.old device.new 0 1 (3 * blocks.number + 3) }
{
    start(device, VERSION, blocks.number)?;
    match look_into(device, blocks.number, listing) {
        Ok(is_open) => Ok(is_open),
        Err(fault) => Err(fault),
    }
}
