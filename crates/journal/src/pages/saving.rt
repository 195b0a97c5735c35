// The steps of a save.
ghost use Rattle.std.specs.Prelude.{◌≡◌, ◌⊎◌, ◌<◌, ◌≤◌, ◌*◌, ℕ, false, not, if◌then◌else◌, IsTrue, OnOk};
ghost use Rattle.sector_disk.specs.Disk.{written, settled};
ghost use Rattle.journal.specs.Calls.{StopsLeave, CostsAtMost, Passes};
ghost use Rattle.journal.specs.Layout.{most_blocks, listed};
ghost use Rattle.journal.specs.PageImages.{current_of};
ghost use Rattle.journal.specs.PageLayout.{HasFlipped, sectors_for, gate_at, gate_bytes, record_at, sum_in};
ghost use Rattle.sector_disk.specs.Pages.{InPage};
ghost use Rattle.journal.specs.Steps.{IsAsSynced};
ghost use Rattle.journal.specs.PageSteps.{HasBlocks, HasSpilled, IsSound, HasSaved, merged};

use super::layout::{GATE, gate, list, record_sector, sum, with_sum};
use crate::layout::is_listed;
use crate::pairs::write_through;
use sector_disk::{DeviceFault, SectorDevice};

// Whether the second place of a block is to be the current one.
fn is_second(listing: &[u8; 512], pending: &[u8; 512], b: u16) -> bool
    requires { b < most_blocks }
    ensures { result ≡ (if listed pending.now b then not (listed listing.now b) else listed listing.now b) }
{
    if is_listed(pending, b) {
        !is_listed(listing, b)
    } else {
        is_listed(listing, b)
    }
}

// The bits of the first blocks, so many bytes of them, in the record that is to count.
fn flipped_bytes(listing: &[u8; 512], pending: &[u8; 512], whole: usize) -> [u8; 512]
    requires { whole ≤ 480 }
    ensures each { (b : ℕ) → b < 8 * whole
        → listed result b ≡ (if listed pending.now b then not (listed listing.now b) else listed listing.now b) }
    ensures rest { (b : ℕ) → 8 * whole ≤ b → listed result b ≡ false }
{
    let mut bits = [0; 512];
    for i in 0..whole {
        bits[i] = listing[i] ^ pending[i];
    }
    bits
}

// The bits of the record that is to count.
fn flipped(blocks: u16, listing: &[u8; 512], pending: &[u8; 512]) -> [u8; 512]
    requires { blocks ≤ most_blocks }
    ensures { HasFlipped blocks listing.now pending.now result }
{
    let whole = blocks / 8;
    let mut bits = flipped_bytes(listing, pending, whole as usize);
    for b in 8 * whole..blocks {
        if is_second(listing, pending, b) {
            list(&mut bits, b);
        }
    }
    bits
}

// The record that is to count.
#[inline(never)] // its bits aren't to lie on the stack while the device is called
fn next_record(blocks: u16, listing: &[u8; 512], pending: &[u8; 512], sum: &[u8; 32]) -> [u8; 512]
    requires { blocks ≤ most_blocks }
    ensures bits { HasFlipped blocks listing.now pending.now result }
    ensures sum { sum_in result ≡ sum.now }
{
    with_sum(&flipped(blocks, listing, pending), sum)
}

// Writes the record that doesn't count, and then the gate, which names it and has its sum.
fn turn<D: SectorDevice>(device: &mut D, is_open: bool, next: &[u8; 512]) -> Result<(), DeviceFault>
    requires { 32 ≤ D.sector_count device.old }
    ensures ok { IsTrue (D.keeps_model device.old) → OnOk result (D.disk device.new
        ≡ settled (written (settled (written (D.disk device.old) (record_at (not is_open)) next.now)) gate_at
        (gate_bytes (not is_open) (sum_in next.now)))) }
    ensures stops { IsTrue (D.keeps_model device.old) → StopsLeave D.SectorDevice device.old device.new
        (λ c. IsAsSynced (InPage (record_at (not is_open))) (D.disk device.old) c
        ⊎ IsAsSynced (InPage gate_at) (settled (written (D.disk device.old) (record_at (not is_open)) next.now)) c) }
    ensures passes { Passes D.SectorDevice device.old device.new result }
    ensures costs { CostsAtMost D.SectorDevice device.old device.new 2 2 0 }
{
    let record = *next;
    write_through(device, record_sector(!is_open), &record)?;
    write_through(device, GATE, &gate(!is_open, &sum(next)))
}

/// Makes the free places of the pending blocks their current ones, all at once, and `listing` the record that counts
/// then, with the sum of their tags and of those of the other blocks.
// A call of its own, as that of layout 2 is, so that no more than one record lies on the stack.
#[inline(never)]
pub(crate) fn save<D: SectorDevice>(
    device: &mut D,
    blocks: u16,
    is_open: bool,
    listing: &mut [u8; 512],
    pending: &[u8; 512],
    sum: &[u8; 32],
) -> Result<(), DeviceFault>
    requires few { blocks ≤ most_blocks }
    requires size { D.sector_count device.old ≡ sectors_for blocks }
    requires sound { IsTrue (D.keeps_model device.old) → IsSound blocks is_open listing.old (D.disk device.old) }
    requires spilled { IsTrue (D.keeps_model device.old)
        → HasSpilled blocks listing.old pending.now sum.now (D.disk device.old).content }
    ensures ok { IsTrue (D.keeps_model device.old) → OnOk result
        (HasSaved blocks is_open listing.old pending.now listing.new (D.disk device.old) (D.disk device.new)) }
    ensures stops { IsTrue (D.keeps_model device.old) → StopsLeave D.SectorDevice device.old device.new
        (λ c. HasBlocks blocks (current_of listing.old (D.disk device.old).content) c
        ⊎ HasBlocks blocks (merged listing.old pending.now (D.disk device.old).content) c) }
    ensures passes { Passes D.SectorDevice device.old device.new result }
    ensures costs { CostsAtMost D.SectorDevice device.old device.new 2 2 0 }
{
    *listing = next_record(blocks, listing, pending, sum);
    turn(device, is_open, listing)
}
