// A record is found that stands for one that is lost, or for the choice that a lost gate made.
ghost use Rattle.std.specs.Prelude.{◌≡◌, ◌<◌, ◌≤◌, ◌⊎◌, ◌&&◌, true, false, IsTrue, IfNone, IfSome};
ghost use Rattle.journal.specs.Layout.{most_blocks};
ghost use Rattle.journal.specs.PageImages.{IsWhole, gate_fits};
ghost use Rattle.journal.specs.PageLayout.{gate_at, gate_open, gate_sum, sectors_for, sum_in};
ghost use Rattle.image_care.specs.Mended.{HasLostRecord, IsBetter, IsKept, IsMendedBySize, blanks_under, is_blank, is_lost, named_at, other_record, prefers_other, under};
ghost use Rattle.image_care.specs.StillDisk.{ReadsWell, replaced};
ghost use Rattle.image_care.specs.Through.{image_of};

use crate::rebuilding::rebuild;
use crate::still_disk::{Replacement, StillDisk, sector_in};
use journal::pages::layout::{
    GATE, blocks_of_size, current_sector, gate_is_open, is_gate_of, record_sector, with_sum,
};
use sector_disk::SectorDevice;
use shadow::look;

/// The bytes of an image on so many sectors, with blanks in place of those that couldn't be read, as a device from
/// which a salvage has each block that is whole. Where the gate of an image of layout 3 isn't of the record that it
/// names, another record may stand in that one's place, under which no block is damaged: one that has the sum in the
/// gate; else the other of the two, if the named one is damaged, or if the gate couldn't be read and fewer blocks are
/// blank under the other. Takes no memory.
/// Rule: IMAGE, What can be had of a damaged image.
pub fn mend<'a>(bytes: &'a [u8], sectors: u32) -> StillDisk<'a>
    ensures best { IsMendedBySize sectors (image_of bytes.now) (⟦<StillDisk<'a> as SectorDevice>⟧.disk result).content }
    ensures sectors { ⟦<StillDisk<'a> as SectorDevice>⟧.sector_count result ≡ sectors }
    ensures model { IsTrue (⟦<StillDisk<'a> as SectorDevice>⟧.keeps_model result) }
    ensures failures { ⟦<StillDisk<'a> as SectorDevice>⟧.failures result ≡ 0 }
    // Whatever is read of it, no read fails.
    ensures reads { ReadsWell ⟦<StillDisk<'a> as SectorDevice>⟧ result }
{
    match blocks_of_size(sectors) {
        Some(blocks) => StillDisk::with(bytes, sectors, find_better(bytes, sectors, blocks)),
        None => StillDisk::new(bytes, sectors),
    }
}

/// Whether these bytes are of an image of layout 3 on so many sectors whose gate isn't of the record that it names, and
/// that is damaged under it: then the record is lost, or the gate. Takes no memory.
/// Rule: IMAGE, What can be had of a damaged image.
pub fn has_lost_record(bytes: &[u8], sectors: u32) -> bool
    ensures lost { result ≡ true → HasLostRecord sectors (image_of bytes.now) }
    ensures kept { result ≡ false → ¬ HasLostRecord sectors (image_of bytes.now) }
{
    match blocks_of_size(sectors) {
        Some(blocks) => has_lost(bytes, sectors, blocks),
        None => false,
    }
}

// The same of an image of so many blocks.
fn has_lost(bytes: &[u8], sectors: u32, blocks: u16) -> bool
    requires few { blocks ≤ most_blocks }
    requires size { sectors ≡ sectors_for blocks }
    ensures lost { result ≡ true → (gate_fits (image_of bytes.now) ≡ false) × (¬ IsWhole blocks (image_of bytes.now)) }
    ensures kept { result ≡ false → (gate_fits (image_of bytes.now) ≡ true) ⊎ IsWhole blocks (image_of bytes.now) }
{
    if is_fit(bytes) {
        false
    } else {
        !is_whole(bytes, sectors, blocks, None)
    }
}

// A better record for an image of so many blocks, if there is one.
fn find_better(bytes: &[u8], sectors: u32, blocks: u16) -> Option<Replacement>
    requires few { blocks ≤ most_blocks }
    requires size { sectors ≡ sectors_for blocks }
    ensures kept { IfNone result (IsKept blocks (image_of bytes.now)) }
    ensures at { IfSome result (λ one. one.at ≡ named_at (image_of bytes.now)) }
    ensures better { IfSome result (λ one. IsBetter blocks one.bytes (image_of bytes.now)) }
{
    if is_fit(bytes) {
        return None;
    }
    match find_rebuilt(bytes, sectors, blocks) {
        Some(record) => Some(in_place_of_named(bytes, &record)),
        None => find_other(bytes, sectors, blocks),
    }
}

// Whether the gate is of the record that it names.
fn is_fit(bytes: &[u8]) -> bool
    ensures { result ≡ gate_fits (image_of bytes.now) }
{
    is_gate_of(
        &sector_in(bytes, GATE),
        &sector_in(bytes, named_sector(bytes)),
    )
}

// Whether the gate is open.
fn is_open(bytes: &[u8]) -> bool
    ensures { result ≡ gate_open (image_of bytes.now gate_at) }
{
    gate_is_open(&sector_in(bytes, GATE))
}

// The sector of the record that the gate names.
fn named_sector(bytes: &[u8]) -> u32
    ensures { result ≡ named_at (image_of bytes.now) }
{
    record_sector(is_open(bytes))
}

// This record in the place of the one that the gate names.
fn in_place_of_named(bytes: &[u8], listing: &[u8; 512]) -> Replacement
    ensures at { result.at ≡ named_at (image_of bytes.now) }
    ensures bytes { result.bytes ≡ listing.now }
{
    Replacement {
        at: named_sector(bytes),
        bytes: *listing,
    }
}

// Whether an image in memory isn't damaged, with a sector replaced, if one is.
fn is_whole(bytes: &[u8], sectors: u32, blocks: u16, replacement: Option<Replacement>) -> bool
    requires few { blocks ≤ most_blocks }
    requires size { sectors ≡ sectors_for blocks }
    ensures whole { result ≡ true → IsWhole blocks (replaced replacement (image_of bytes.now)) }
    ensures damaged { result ≡ false → ¬ IsWhole blocks (replaced replacement (image_of bytes.now)) }
{
    match look(&mut StillDisk::with(bytes, sectors, replacement), blocks) {
        Ok(_) => true,
        Err(_fault) => false,
    }
}

// Whether it isn't damaged under a record.
fn is_whole_under(bytes: &[u8], sectors: u32, blocks: u16, listing: &[u8; 512]) -> bool
    requires few { blocks ≤ most_blocks }
    requires size { sectors ≡ sectors_for blocks }
    ensures whole { result ≡ true → IsWhole blocks (under listing.now (image_of bytes.now)) }
    ensures damaged { result ≡ false → ¬ IsWhole blocks (under listing.now (image_of bytes.now)) }
{
    is_whole(
        bytes,
        sectors,
        blocks,
        Some(in_place_of_named(bytes, listing)),
    )
}

// A record that has the sum in the gate, if one is found under which no block is damaged.
fn find_rebuilt(bytes: &[u8], sectors: u32, blocks: u16) -> Option<[u8; 512]>
    requires few { blocks ≤ most_blocks }
    requires size { sectors ≡ sectors_for blocks }
    ensures whole { IfSome result (λ listing. IsWhole blocks (under listing (image_of bytes.now))) }
    ensures sum { IfSome result (λ listing. sum_in listing ≡ gate_sum (image_of bytes.now gate_at)) }
{
    let sum = sum_in_gate(bytes);
    let Some(bits) = rebuild(bytes, blocks, &sum) else {
        return None;
    };
    let record = with_sum(&bits, &sum);
    if is_whole_under(bytes, sectors, blocks, &record) {
        Some(record)
    } else {
        None
    }
}

// The sum in the gate: its bytes 8 to 39.
fn sum_in_gate(bytes: &[u8]) -> [u8; 32]
    ensures { result ≡ gate_sum (image_of bytes.now gate_at) }
{
    let gate = sector_in(bytes, GATE);
    let (_, end) = gate.split_at(8);
    let (front, _) = end.split_at(32);
    let mut sum = [0; 32];
    sum.copy_from_slice(front);
    sum
}

// The other record, if no block is damaged under it, and it is better than the one that the gate names.
fn find_other(bytes: &[u8], sectors: u32, blocks: u16) -> Option<Replacement>
    requires few { blocks ≤ most_blocks }
    requires size { sectors ≡ sectors_for blocks }
    ensures kept { IfNone result ((¬ IsWhole blocks (under (other_record (image_of bytes.now)) (image_of bytes.now)))
        ⊎ (IsWhole blocks (image_of bytes.now) × (prefers_other blocks (image_of bytes.now) ≡ false))) }
    ensures at { IfSome result (λ one. one.at ≡ named_at (image_of bytes.now)) }
    ensures other { IfSome result (λ one. one.bytes ≡ other_record (image_of bytes.now)) }
    ensures whole { IfSome result (λ one. IsWhole blocks (under (other_record (image_of bytes.now)) (image_of bytes.now))) }
    ensures which { IfSome result (λ one. (¬ IsWhole blocks (image_of bytes.now))
        ⊎ (prefers_other blocks (image_of bytes.now) ≡ true)) }
{
    let other = sector_in(bytes, record_sector(!is_open(bytes)));
    if !is_whole_under(bytes, sectors, blocks, &other) {
        return None;
    }
    if !is_whole(bytes, sectors, blocks, None) {
        return Some(in_place_of_named(bytes, &other));
    }
    if prefers_other(bytes, blocks) {
        Some(in_place_of_named(bytes, &other))
    } else {
        None
    }
}

// Whether the gate is lost, and fewer blocks are blank under the other record than under the one that it seems to name.
fn prefers_other(bytes: &[u8], blocks: u16) -> bool
    requires few { blocks ≤ most_blocks }
    ensures { result ≡ prefers_other blocks (image_of bytes.now) }
{
    let other = sector_in(bytes, record_sector(!is_open(bytes)));
    let named = sector_in(bytes, named_sector(bytes));
    is_lost(bytes, GATE)
        && count_blanks(bytes, blocks, &other) < count_blanks(bytes, blocks, &named)
}

// Whether a sector holds blanks, which stand for one that couldn't be read.
fn is_lost(bytes: &[u8], k: u32) -> bool
    ensures { result ≡ is_lost (image_of bytes.now) k }
{
    sector_in(bytes, k) == [b' '; 512]
}

// How many of the first blocks are blank in the places that a record names.
fn count_blanks(bytes: &[u8], blocks: u16, listing: &[u8; 512]) -> u16
    requires few { blocks ≤ most_blocks }
    ensures { result ≡ blanks_under blocks listing.now (image_of bytes.now) }
{
    let mut count = 0;
    for b in 0..blocks {
        if is_blank(bytes, listing, b) {
            count += 1;
        }
    }
    count
}

// Whether block `b` is blank in the place that a record names.
fn is_blank(bytes: &[u8], listing: &[u8; 512], b: u16) -> bool
    requires { b < most_blocks }
    ensures { result ≡ is_blank listing.now (image_of bytes.now) b }
{
    let k = current_sector(listing, b);
    is_lost(bytes, k) && is_lost(bytes, k + 1)
}
