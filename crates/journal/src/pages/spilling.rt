// A block is written to its free place, with its tag, which is exchanged in a sum.
// Rule: IMAGE, Layout 3, A save.
ghost use Rattle.std.specs.Prelude.{◌≡◌, ◌<◌, ◌≤◌, ◌+◌, ◌*◌, ◌^◌, ◌++◌, length, replicate, if◌then◌else◌, IsTrue, OnOk, IfOk};
ghost use Rattle.sector_disk.specs.Pages.{InPage};
ghost use Rattle.journal.specs.Calls.{StopsLeave, CostsAtMost, Passes, Reads};
ghost use Rattle.journal.specs.Images.{pair_at};
ghost use Rattle.journal.specs.Layout.{most_blocks, listed};
ghost use Rattle.journal.specs.PageImages.{free_of, free_tag};
ghost use Rattle.journal.specs.PageLayout.{current_at, free_at};
ghost use Rattle.journal.specs.PageSteps.{merged_tag};
ghost use Rattle.journal.specs.Steps.{WritesOnly, IsAsSynced};
ghost use Rattle.journal.specs.Tags.{tag_of, xor_bytes};

use super::layout::{current_sector, free_sector, tag_sector};
use super::reading::read_tag;
use super::tags::{exchange, tag_of_bytes};
use crate::layout::is_listed;
use crate::pairs::{write_pair, write_sector};
use sector_disk::{DeviceFault, SectorDevice};

// Where the latest text of a block is: what is pending is in its free place.
fn latest_sector(listing: &[u8; 512], pending: &[u8; 512], b: u16) -> u32
    requires { b < most_blocks }
    ensures place { result ≡ (if listed pending.now b then free_at listing.now b else current_at listing.now b) }
    ensures end { result + 8 ≤ 48 + 16 * b }
{
    if is_listed(pending, b) {
        free_sector(listing, b)
    } else {
        current_sector(listing, b)
    }
}

// The tag that stands for a block in the sum: that of its latest text.
fn read_latest_tag<D: SectorDevice>(
    device: &mut D,
    listing: &[u8; 512],
    pending: &[u8; 512],
    b: u16,
) -> Result<[u8; 32], DeviceFault>
    requires below { b < most_blocks }
    requires within { 48 + 16 * b ≤ D.sector_count device.old }
    ensures bytes { IsTrue (D.keeps_model device.old)
        → IfOk result (λ found. found ≡ merged_tag listing.now pending.now (D.disk device.old).content b) }
    ensures reads { Reads D.SectorDevice device.old device.new 1 result }
{
    let k = latest_sector(listing, pending, b);
    read_tag(device, k + 2)
}

// Writes the 1,024 bytes of a block and this tag to the place that begins with sector `k`.
fn write_place<D: SectorDevice>(
    device: &mut D,
    k: u32,
    bytes: &[u8],
    tag: &[u8; 32],
) -> Result<(), DeviceFault>
    requires small { k < 2 ^ 16 }
    requires pair { InPage k (k + 1) }
    requires page { InPage k (k + 2) }
    requires within { k + 2 < D.sector_count device.old }
    requires whole { length bytes.now ≡ 1024 }
    ensures bytes { IsTrue (D.keeps_model device.old) → OnOk result (pair_at (D.disk device.new).content k ≡ bytes.now) }
    ensures tag { IsTrue (D.keeps_model device.old)
        → OnOk result ((D.disk device.new).content (k + 2) ≡ tag.now ++ replicate 480 0) }
    ensures only { IsTrue (D.keeps_model device.old)
        → WritesOnly (InPage k) (D.disk device.old) (D.disk device.new) }
    ensures stops { IsTrue (D.keeps_model device.old)
        → StopsLeave D.SectorDevice device.old device.new (IsAsSynced (InPage k) (D.disk device.old)) }
    ensures passes { Passes D.SectorDevice device.old device.new result }
    ensures costs { CostsAtMost D.SectorDevice device.old device.new 3 0 0 }
{
    write_pair(device, k, bytes)?;
    write_sector(device, k + 2, &tag_sector(tag))
}

/// Writes the 1,024 bytes of block `b` to its free place, with their tag, and exchanges the tags in `sum`: that of
/// its latest text is taken out, and the new one put in. Nothing is synced. `DeviceFault` comes from the first call
/// that fails.
// The tag is made of the bytes as they are given, so bytes that change on the device don't get a true one.
pub(crate) fn spill<D: SectorDevice>(
    device: &mut D,
    listing: &[u8; 512],
    pending: &[u8; 512],
    sum: &mut [u8; 32],
    b: u16,
    bytes: &[u8],
) -> Result<(), DeviceFault>
    requires below { b < most_blocks }
    requires within { 48 + 16 * b ≤ D.sector_count device.old }
    requires whole { length bytes.now ≡ 1024 }
    ensures bytes { IsTrue (D.keeps_model device.old)
        → OnOk result (free_of listing.now (D.disk device.new).content b ≡ bytes.now) }
    ensures tag { IsTrue (D.keeps_model device.old)
        → OnOk result (free_tag listing.now (D.disk device.new).content b ≡ tag_of b bytes.now) }
    ensures sum { IsTrue (D.keeps_model device.old) → OnOk result (sum.new
        ≡ xor_bytes (xor_bytes sum.old (merged_tag listing.now pending.now (D.disk device.old).content b)) (tag_of b bytes.now)) }
    ensures only { IsTrue (D.keeps_model device.old)
        → WritesOnly (InPage (free_at listing.now b)) (D.disk device.old) (D.disk device.new) }
    ensures stops { IsTrue (D.keeps_model device.old) → StopsLeave D.SectorDevice device.old device.new
        (IsAsSynced (InPage (free_at listing.now b)) (D.disk device.old)) }
    ensures passes { Passes D.SectorDevice device.old device.new result }
    ensures costs { CostsAtMost D.SectorDevice device.old device.new 3 0 1 }
{
    let old = read_latest_tag(device, listing, pending, b)?;
    let new = tag_of_bytes(b, bytes);
    write_place(device, free_sector(listing, b), bytes, &new)?;
    exchange(sum, &old, &new);
    Ok(())
}
