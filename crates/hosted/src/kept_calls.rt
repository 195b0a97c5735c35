//! Blocks on a device over an opening that stays: between two calls the caller keeps what an open store knows beside
//! its device. No call opens the image anew but the first, and none takes memory.
//! Rule: EMBEDDING, What is proved.
ghost use Rattle.std.specs.Prelude.{◌≡◌, ◌≢◌, ◌⊎◌, ◌<◌, ◌*◌, ℕ, List, true, false, None, Some, length, nat_lt, IsTrue, OnOk, OnErr, IfOk, IfErr, IfSome, MatchBool, MatchResult, Err};
ghost use Rattle.std.specs.List.{list_all};
ghost use Rattle.sector_disk.specs.Counting.{count_up};
ghost use Rattle.journal.specs.Calls.{StopsLeave};
ghost use Rattle.journal.specs.Maps.{block_in};
ghost use Rattle.stores.specs.Opened.{IsReady};
ghost use Rattle.stores.specs.Resting.{HasRested, Rests};
ghost use Rattle.journal.specs.Store.{closed_of, is_pending};
ghost use Rattle.journal.specs.Suits.{suits};
ghost use Rattle.shadow.specs.Label.{is_known_size};
ghost use Rattle.shadow.specs.Upgraded.{known_blocks};
ghost use Rattle.sessions.specs.Devices.{Becomes};
ghost use Rattle.hosted.specs.Calls.{MayRecover, MeansOn, meant_by};
ghost use Rattle.hosted.specs.Costs.{Begins, OpeningBegins, SavesAtMost};
ghost use Rattle.hosted.specs.Keeping.{HoldsOpen, SavesOpen, kept_after};
ghost use Rattle.hosted.specs.Refusals.{IsOfImage, read_refusal, save_refusal, refusal_of};
ghost use Rattle.hosted.specs.Saving.{with_blocks};

use crate::arguments::{check_read, check_save};
use crate::block_calls::save_all;
use crate::refusal::Refusal;
use journal::sizes::known_blocks;
use sector_disk::SectorDevice;
use stores::{Store, adopt, named, ready, resume};

/// Opens the image: what a stop has left half done is finished first. By layout 3 it answers the device and whether
/// the gate is open, and puts the record that the gate names into `listing`; by layout 2 the device and false, and
/// `listing` is left. A refusal hands the device back, and leaves `listing`: `BadSize`, with no call of the device,
/// `NoLabel`, `OtherVersion`, `WrongCount` or `Damaged`, the first that holds, or `Device`.
pub fn open_kept<D: SectorDevice>(
    mut device: D,
    listing: &mut [u8; 512],
) -> Result<(D, bool), (Refusal, D)>
    // A store rests there, which has the blocks that the image meant.
    ensures rests { IfOk result (λ kept. HasRested D.SectorDevice kept.0 kept.1 listing.new) }
    ensures holds { IsTrue (suits D.SectorDevice device) → IfOk result (λ kept.
        HoldsOpen D.SectorDevice kept.0 kept.1 listing.new (meant_by D.SectorDevice device)) }
    ensures sectors { IfOk result (λ kept. D.sector_count kept.0 ≡ D.sector_count device) }
    ensures sized { IfOk result (λ _. is_known_size (D.sector_count device) ≡ true) }
    ensures bad_size { IfErr result (λ e. MatchBool (is_known_size (D.sector_count device))
        (e.0 ≢ Refusal.BadSize) (e.0 ≡ Refusal.BadSize)) }
    ensures unasked { IfErr result (λ e. e.0 ≡ Refusal.BadSize → e.1 ≡ device) }
    ensures image { IfErr result (λ e. IsOfImage e.0) }
    ensures exact { IsTrue (suits D.SectorDevice device) → MatchResult result
        (λ _. refusal_of (D.sector_count device) (D.disk device).content ≡ None)
        (λ e. (e.0 ≡ Refusal.Device) ⊎ (refusal_of (D.sector_count device) (D.disk device).content ≡ Some e.0)) }
    ensures well { IfOk result (λ kept. D.failures kept.0 ≡ D.failures device) }
    ensures failed { IfErr result (λ e. e.0 ≡ Refusal.Device → D.failures e.1 ≡ count_up (D.failures device)) }
    ensures unfailed { IfErr result (λ e. e.0 ≢ Refusal.Device → D.failures e.1 ≡ D.failures device) }
    ensures content { IsTrue (suits D.SectorDevice device)
        → IfErr result (λ e. e.0 ≢ Refusal.Device → (D.disk e.1).content ≡ (D.disk device).content) }
    ensures kept { OnErr result (listing.new ≡ listing.old) }
    ensures goes { Becomes D.SectorDevice device (kept_after result) }
    ensures stops { IsTrue (suits D.SectorDevice device)
        → StopsLeave D.SectorDevice device (kept_after result) (MayRecover D.SectorDevice device) }
    ensures begins { IsTrue (suits D.SectorDevice device) → OpeningBegins D.SectorDevice device (kept_after result) }
{
    let mut found = [0; 512];
    match ready(&mut device, &mut found) {
        Ok((blocks, is_open)) => Ok(laid_to_rest(device, blocks, is_open, &found, listing)),
        Err(fault) => Err((Refusal::from(fault), device)),
    }
}

/// Reads block `block` into `out`, of 1,024 bytes, over an opening that stays, and answers as `open_kept`. A refusal
/// hands the device back, and leaves `out`: those of the arguments, as `check_read` says, with no call of the device,
/// and `Device`, after which the image has to be opened again.
pub fn read_kept<D: SectorDevice>(
    device: D,
    is_open: bool,
    listing: &mut [u8; 512],
    block: u16,
    out: &mut [u8],
) -> Result<(D, bool), (Refusal, D)>
    requires rested { IsTrue (suits D.SectorDevice device) → HasRested D.SectorDevice device is_open listing.old }
    ensures bytes { (saved : List (List ℕ)) → HoldsOpen D.SectorDevice device is_open listing.old saved
        → OnOk result (out.new ≡ block_in saved block) }
    ensures kept { OnErr result (out.new ≡ out.old) }
    // A store rests there again, with the same blocks.
    ensures rests { IfOk result (λ kept. HasRested D.SectorDevice kept.0 kept.1 listing.new) }
    ensures holds { (saved : List (List ℕ)) → HoldsOpen D.SectorDevice device is_open listing.old saved
        → IfOk result (λ kept. HoldsOpen D.SectorDevice kept.0 kept.1 listing.new saved) }
    ensures sectors { IfOk result (λ kept. D.sector_count kept.0 ≡ D.sector_count device) }
    ensures stops { (saved : List (List ℕ)) → HoldsOpen D.SectorDevice device is_open listing.old saved
        → StopsLeave D.SectorDevice device (kept_after result) (MeansOn D.SectorDevice device saved) }
    // What is wrong with the arguments is told first, with no call of the device.
    ensures arguments { IfSome (read_refusal (D.sector_count device) block (length out.old))
        (λ e. result ≡ Err (e, device)) }
    ensures fits { OnOk result (read_refusal (D.sector_count device) block (length out.old) ≡ None) }
    ensures refusal { IfErr result (λ e. (e.0 ≡ Refusal.Device)
        ⊎ (read_refusal (D.sector_count device) block (length out.old) ≡ Some e.0)) }
    ensures same { OnErr result (listing.new ≡ listing.old) }
    ensures well { IfOk result (λ kept. D.failures kept.0 ≡ D.failures device) }
    ensures failed { IfErr result (λ e. e.0 ≡ Refusal.Device → D.failures e.1 ≡ count_up (D.failures device)) }
    ensures goes { Becomes D.SectorDevice device (kept_after result) }
    ensures begins { Begins D.SectorDevice device (kept_after result) 0 0 2 }
{
    match check_read(device.sectors(), block, out.len()) {
        Ok(()) => read_resting(device, is_open, listing, block, out),
        Err(refusal) => Err((refusal, device)),
    }
}

/// Saves `blocks`, all or none, each with its 1,024 of `bytes`, over an opening that stays; of a block that stands
/// twice the last bytes count. It answers as `open_kept`. A refusal hands the device back: those of the arguments, as
/// `check_save` says, with no call of the device, and `Device`, after which the image has to be opened again.
pub fn save_kept<D: SectorDevice>(
    device: D,
    is_open: bool,
    listing: &mut [u8; 512],
    blocks: &[u16],
    bytes: &[u8],
) -> Result<(D, bool), (Refusal, D)>
    requires rested { IsTrue (suits D.SectorDevice device) → HasRested D.SectorDevice device is_open listing.old }
    // A store rests there again, in which they are saved.
    ensures rests { IfOk result (λ kept. HasRested D.SectorDevice kept.0 kept.1 listing.new) }
    ensures saved { (saved : List (List ℕ)) → HoldsOpen D.SectorDevice device is_open listing.old saved
        → IfOk result (λ kept. HoldsOpen D.SectorDevice kept.0 kept.1 listing.new (with_blocks saved blocks.now bytes.now)) }
    ensures sectors { IfOk result (λ kept. D.sector_count kept.0 ≡ D.sector_count device) }
    // A stop at any moment leaves all of them or none.
    ensures stops { (saved : List (List ℕ)) → HoldsOpen D.SectorDevice device is_open listing.old saved
        → StopsLeave D.SectorDevice device (kept_after result) (SavesOpen D.SectorDevice device saved blocks.now bytes.now) }
    // What is wrong with the arguments is told first, with no call of the device.
    ensures arguments { IfSome (save_refusal (D.sector_count device) blocks.now (length bytes.now))
        (λ e. result ≡ Err (e, device)) }
    ensures fits { OnOk result (save_refusal (D.sector_count device) blocks.now (length bytes.now) ≡ None) }
    ensures refusal { IfErr result (λ e. (e.0 ≡ Refusal.Device)
        ⊎ (save_refusal (D.sector_count device) blocks.now (length bytes.now) ≡ Some e.0)) }
    ensures same { OnErr result (listing.new ≡ listing.old) }
    ensures well { IfOk result (λ kept. D.failures kept.0 ≡ D.failures device) }
    ensures failed { IfErr result (λ e. e.0 ≡ Refusal.Device → D.failures e.1 ≡ count_up (D.failures device)) }
    ensures goes { Becomes D.SectorDevice device (kept_after result) }
    ensures begins { SavesAtMost D.SectorDevice device (kept_after result) (length blocks.now) }
{
    match check_save(device.sectors(), blocks, bytes.len()) {
        Ok(()) => save_resting(device, is_open, listing, blocks, bytes),
        Err(refusal) => Err((refusal, device)),
    }
}

/// Reads a block of the store that rests on the device, and lets it rest again. `Device` where a call of the device
/// failed: then none rests there.
// A call of its own, as the save is, so that one store lies on the stack, and none while an image is opened.
#[inline(never)]
pub fn read_resting<D: SectorDevice>(
    device: D,
    is_open: bool,
    listing: &mut [u8; 512],
    block: u16,
    out: &mut [u8],
) -> Result<(D, bool), (Refusal, D)>
    requires known { is_known_size (D.sector_count device) ≡ true }
    requires below { block < known_blocks (D.sector_count device) }
    requires whole { length out.old ≡ 1024 }
    requires rested { IsTrue (suits D.SectorDevice device) → HasRested D.SectorDevice device is_open listing.old }
    ensures bytes { (saved : List (List ℕ)) → HoldsOpen D.SectorDevice device is_open listing.old saved
        → OnOk result (out.new ≡ block_in saved block) }
    ensures kept { OnErr result (out.new ≡ out.old) }
    ensures rests { IfOk result (λ kept. HasRested D.SectorDevice kept.0 kept.1 listing.new) }
    ensures holds { (saved : List (List ℕ)) → HoldsOpen D.SectorDevice device is_open listing.old saved
        → IfOk result (λ kept. HoldsOpen D.SectorDevice kept.0 kept.1 listing.new saved) }
    ensures sectors { IfOk result (λ kept. D.sector_count kept.0 ≡ D.sector_count device) }
    ensures stops { (saved : List (List ℕ)) → HoldsOpen D.SectorDevice device is_open listing.old saved
        → StopsLeave D.SectorDevice device (kept_after result) (MeansOn D.SectorDevice device saved) }
    ensures refusal { IfErr result (λ e. e.0 ≡ Refusal.Device) }
    ensures same { OnErr result (listing.new ≡ listing.old) }
    ensures well { IfOk result (λ kept. D.failures kept.0 ≡ D.failures device) }
    ensures failed { IfErr result (λ e. D.failures e.1 ≡ count_up (D.failures device)) }
    ensures goes { Becomes D.SectorDevice device (kept_after result) }
    ensures begins { Begins D.SectorDevice device (kept_after result) 0 0 2 }
{
    let count = block_count(&device);
    let mut store = resume(device, count, is_open, listing);
    match store.read_block(block, out) {
        Ok(()) => Ok(rested(store, listing)),
        Err(_) => Err((Refusal::Device, store.into_device())),
    }
}

/// Saves blocks to the store that rests on the device, and lets it rest again. `Device` where a call of the device
/// failed: then none rests there, and all of them may be saved, or none.
#[inline(never)]
pub fn save_resting<D: SectorDevice>(
    device: D,
    is_open: bool,
    listing: &mut [u8; 512],
    blocks: &[u16],
    bytes: &[u8],
) -> Result<(D, bool), (Refusal, D)>
    requires known { is_known_size (D.sector_count device) ≡ true }
    requires below { list_all (λ b. nat_lt b (known_blocks (D.sector_count device))) blocks.now ≡ true }
    requires whole { length bytes.now ≡ 1024 * length blocks.now }
    requires rested { IsTrue (suits D.SectorDevice device) → HasRested D.SectorDevice device is_open listing.old }
    ensures rests { IfOk result (λ kept. HasRested D.SectorDevice kept.0 kept.1 listing.new) }
    ensures saved { (saved : List (List ℕ)) → HoldsOpen D.SectorDevice device is_open listing.old saved
        → IfOk result (λ kept. HoldsOpen D.SectorDevice kept.0 kept.1 listing.new (with_blocks saved blocks.now bytes.now)) }
    ensures sectors { IfOk result (λ kept. D.sector_count kept.0 ≡ D.sector_count device) }
    ensures stops { (saved : List (List ℕ)) → HoldsOpen D.SectorDevice device is_open listing.old saved
        → StopsLeave D.SectorDevice device (kept_after result) (SavesOpen D.SectorDevice device saved blocks.now bytes.now) }
    ensures refusal { IfErr result (λ e. e.0 ≡ Refusal.Device) }
    ensures same { OnErr result (listing.new ≡ listing.old) }
    ensures well { IfOk result (λ kept. D.failures kept.0 ≡ D.failures device) }
    ensures failed { IfErr result (λ e. D.failures e.1 ≡ count_up (D.failures device)) }
    ensures goes { Becomes D.SectorDevice device (kept_after result) }
    ensures begins { SavesAtMost D.SectorDevice device (kept_after result) (length blocks.now) }
{
    let count = block_count(&device);
    let mut store = resume(device, count, is_open, listing);
    match save_all(&mut store, blocks, bytes) {
        Ok(()) => Ok(rested(store, listing)),
        Err(_) => Err((Refusal::Device, store.into_device())),
    }
}

/// Lets a store rest over an image that was made ready for one, with this state of its gate and the record `found`.
// A call of its own, so that no store lies on the stack while the image is made ready.
#[inline(never)]
fn laid_to_rest<D: SectorDevice>(
    device: D,
    blocks: u16,
    is_open: bool,
    found: &[u8; 512],
    listing: &mut [u8; 512],
) -> (D, bool)
    requires known { is_known_size (D.sector_count device) ≡ true }
    requires count { blocks ≡ known_blocks (D.sector_count device) }
    requires is_ready { IsTrue (suits D.SectorDevice device)
        → IsReady (D.sector_count device) blocks is_open found.now (D.disk device) }
    ensures device { result.0 ≡ device }
    ensures rests { HasRested D.SectorDevice result.0 result.1 listing.new }
    ensures holds { IsTrue (suits D.SectorDevice device)
        → HoldsOpen D.SectorDevice result.0 result.1 listing.new (meant_by D.SectorDevice device) }
{
    rested(adopt(device, blocks, is_open, found), listing)
}

/// How many blocks the image on the device has.
// A call of its own: where nothing branches before a store is made it is made in its place, and not moved there.
#[inline(never)]
pub fn block_count<D: SectorDevice>(device: &D) -> u16
    requires { is_known_size (D.sector_count device.now) ≡ true }
    ensures { result ≡ known_blocks (D.sector_count device.now) }
{
    known_blocks(device.sectors()).unwrap()
}

/// Lets an open store rest of which nothing is pending: its device, and by layout 3 whether the gate is open; the
/// record that the gate names goes into `listing`. By layout 2 that answer is false, and `listing` is left.
fn rested<D: SectorDevice>(store: Store<D>, listing: &mut [u8; 512]) -> (D, bool)
    requires live { closed_of store ≡ false }
    requires none { (b : ℕ) → is_pending store b ≡ false }
    ensures rests { Rests D.SectorDevice result.0 result.1 listing.new store }
{
    let is_open = named(&store, listing);
    (store.into_device(), is_open)
}
