//! Blocks on a device: recovered, read, and saved all or none. Each call but `save_all`, which is given an open store,
//! opens the image anew. None takes memory.
//! Rule: EMBEDDING, What is proved.
ghost use Rattle.std.specs.Prelude.{◌≡◌, ◌≢◌, ◌⊎◌, ◌<◌, ◌≤◌, ◌+◌, ◌*◌, ℕ, true, false, None, Some, length, nat_lt, IsTrue, OnOk, OnErr, IfOk, IfErr, IfSome, MatchBool, MatchResult, Err};
ghost use Rattle.std.specs.List.{list_all};
ghost use Rattle.sector_disk.specs.Counting.{count_up};
ghost use Rattle.journal.specs.Calls.{StopsLeave};
ghost use Rattle.journal.specs.Maps.{Maps, block_in, committed, latest};
ghost use Rattle.journal.specs.Costs.{spill_reads, spill_writes};
ghost use Rattle.journal.specs.Store.{MeansBy, StandsFor, Continues, DeviceBegins, DeviceReads, KeepsSaved, DeviceFailed, DeviceWentWell, blocks_of, by_older, closed_of, device_of, is_pending, pending_count};
ghost use Rattle.journal.specs.Suits.{suits};
ghost use Rattle.recovery.specs.Opened.{first_of};
ghost use Rattle.shadow.specs.Label.{is_known_size};
ghost use Rattle.sessions.specs.Devices.{Becomes};
ghost use Rattle.hosted.specs.Calls.{AllOrNone, KeepsBlocks, LeavesBlocks, MayRecover, device_after, meant_by};
ghost use Rattle.hosted.specs.Costs.{OpeningBegins, ReadingBegins, SavingBegins, SavesAtMost};
ghost use Rattle.hosted.specs.Refusals.{read_refusal, save_refusal, refusal_of};
ghost use Rattle.hosted.specs.Saving.{with_blocks};
ghost use Rattle.hosted.specs.Spilling.{all_spilled};

use crate::arguments::{BLOCK, check_read, check_save};
use crate::kept_calls::{open_kept, read_resting, save_resting};
use crate::refusal::Refusal;
use journal::StoreFault;
use sector_disk::SectorDevice;
use stores::Store;

/// Finishes what a stop has left half done. A refusal hands the device back: one of those of `open_kept`.
pub fn recover<D: SectorDevice>(device: D) -> Result<D, (Refusal, D)>
    ensures ok { IsTrue (suits D.SectorDevice device)
        → IfOk result (λ after. LeavesBlocks D.SectorDevice after (meant_by D.SectorDevice device)) }
    ensures stops { IsTrue (suits D.SectorDevice device)
        → StopsLeave D.SectorDevice device (device_after result) (MayRecover D.SectorDevice device) }
    ensures sized { IfOk result (λ _. is_known_size (D.sector_count device) ≡ true) }
    ensures bad_size { IfErr result (λ e. MatchBool (is_known_size (D.sector_count device))
        (e.0 ≢ Refusal.BadSize) (e.0 ≡ Refusal.BadSize)) }
    ensures unasked { IfErr result (λ e. e.0 ≡ Refusal.BadSize → e.1 ≡ device) }
    ensures exact { IsTrue (suits D.SectorDevice device) → MatchResult result
        (λ _. refusal_of (D.sector_count device) (D.disk device).content ≡ None)
        (λ e. (e.0 ≡ Refusal.Device) ⊎ (refusal_of (D.sector_count device) (D.disk device).content ≡ Some e.0)) }
    ensures well { IfOk result (λ after. D.failures after ≡ D.failures device) }
    ensures failed { IfErr result (λ e. e.0 ≡ Refusal.Device → D.failures e.1 ≡ count_up (D.failures device)) }
    ensures unfailed { IfErr result (λ e. e.0 ≢ Refusal.Device → D.failures e.1 ≡ D.failures device) }
    ensures content { IsTrue (suits D.SectorDevice device)
        → IfErr result (λ e. e.0 ≢ Refusal.Device → (D.disk e.1).content ≡ (D.disk device).content) }
    ensures goes { Becomes D.SectorDevice device (device_after result) }
    ensures begins { IsTrue (suits D.SectorDevice device) → OpeningBegins D.SectorDevice device (device_after result) }
{
    let mut ignored = [0; 512];
    match open_kept(device, &mut ignored) {
        Ok((recovered, _)) => Ok(recovered),
        Err(refused) => Err(refused),
    }
}

/// Reads block `block` into `out`, of 1,024 bytes. A refusal hands the device back, and leaves `out`: those of the
/// arguments come first, as `check_read` says, with no call of the device, then those of `open_kept`, and `Device`
/// where the read failed.
pub fn read_block<D: SectorDevice>(device: D, block: u16, out: &mut [u8]) -> Result<D, (Refusal, D)>
    ensures bytes { IsTrue (suits D.SectorDevice device)
        → OnOk result (out.new ≡ block_in (meant_by D.SectorDevice device) block) }
    ensures kept { OnErr result (out.new ≡ out.old) }
    ensures same { IsTrue (suits D.SectorDevice device)
        → IfOk result (λ after. LeavesBlocks D.SectorDevice after (meant_by D.SectorDevice device)) }
    ensures stops { IsTrue (suits D.SectorDevice device)
        → StopsLeave D.SectorDevice device (device_after result) (KeepsBlocks D.SectorDevice device) }
    // What is wrong with the arguments is told first, with no call of the device.
    ensures arguments { IfSome (read_refusal (D.sector_count device) block (length out.old))
        (λ e. result ≡ Err (e, device)) }
    ensures fits { OnOk result (read_refusal (D.sector_count device) block (length out.old) ≡ None) }
    ensures exact { IsTrue (suits D.SectorDevice device) → MatchResult result
        (λ _. refusal_of (D.sector_count device) (D.disk device).content ≡ None)
        (λ e. (e.0 ≡ Refusal.Device) ⊎ (first_of (read_refusal (D.sector_count device) block (length out.old))
        (refusal_of (D.sector_count device) (D.disk device).content) ≡ Some e.0)) }
    ensures well { IfOk result (λ after. D.failures after ≡ D.failures device) }
    ensures failed { IfErr result (λ e. e.0 ≡ Refusal.Device → D.failures e.1 ≡ count_up (D.failures device)) }
    ensures unfailed { IfErr result (λ e. e.0 ≢ Refusal.Device → D.failures e.1 ≡ D.failures device) }
    ensures content { IsTrue (suits D.SectorDevice device)
        → IfErr result (λ e. e.0 ≢ Refusal.Device → (D.disk e.1).content ≡ (D.disk device).content) }
    ensures goes { Becomes D.SectorDevice device (device_after result) }
    ensures begins { IsTrue (suits D.SectorDevice device) → ReadingBegins D.SectorDevice device (device_after result) }
{
    match check_read(device.sectors(), block, out.len()) {
        Ok(()) => {
            let mut listing = [0; 512];
            match open_kept(device, &mut listing) {
                Ok((begun, is_open)) => {
                    match read_resting(begun, is_open, &mut listing, block, out) {
                        Ok((after, _)) => Ok(after),
                        Err(refused) => Err(refused),
                    }
                }
                Err(refused) => Err(refused),
            }
        }
        Err(refusal) => Err((refusal, device)),
    }
}

/// Saves `blocks`, all or none, each with its 1,024 of `bytes`; of a block that stands twice the last bytes count. A
/// refusal hands the device back: those of the arguments come first, as `check_save` says, with no call of the device,
/// then those of `open_kept`, and `Device` where the save failed.
pub fn save_blocks<D: SectorDevice>(
    device: D,
    blocks: &[u16],
    bytes: &[u8],
) -> Result<D, (Refusal, D)>
    ensures saved { IsTrue (suits D.SectorDevice device) → IfOk result (λ after.
        LeavesBlocks D.SectorDevice after (with_blocks (meant_by D.SectorDevice device) blocks.now bytes.now)) }
    // A stop at any moment leaves all of them or none.
    ensures stops { IsTrue (suits D.SectorDevice device) → StopsLeave D.SectorDevice device (device_after result)
        (AllOrNone D.SectorDevice device blocks.now bytes.now) }
    // What is wrong with the arguments is told first, with no call of the device.
    ensures arguments { IfSome (save_refusal (D.sector_count device) blocks.now (length bytes.now))
        (λ e. result ≡ Err (e, device)) }
    ensures fits { OnOk result (save_refusal (D.sector_count device) blocks.now (length bytes.now) ≡ None) }
    ensures exact { IsTrue (suits D.SectorDevice device) → MatchResult result
        (λ _. refusal_of (D.sector_count device) (D.disk device).content ≡ None)
        (λ e. (e.0 ≡ Refusal.Device) ⊎ (first_of (save_refusal (D.sector_count device) blocks.now (length bytes.now))
        (refusal_of (D.sector_count device) (D.disk device).content) ≡ Some e.0)) }
    ensures well { IfOk result (λ after. D.failures after ≡ D.failures device) }
    ensures failed { IfErr result (λ e. e.0 ≡ Refusal.Device → D.failures e.1 ≡ count_up (D.failures device)) }
    ensures unfailed { IfErr result (λ e. e.0 ≢ Refusal.Device → D.failures e.1 ≡ D.failures device) }
    ensures content { IsTrue (suits D.SectorDevice device)
        → IfErr result (λ e. e.0 ≢ Refusal.Device → (D.disk e.1).content ≡ (D.disk device).content) }
    ensures goes { Becomes D.SectorDevice device (device_after result) }
    ensures begins { IsTrue (suits D.SectorDevice device) → SavingBegins D.SectorDevice device (device_after result) (length blocks.now) }
{
    match check_save(device.sectors(), blocks, bytes.len()) {
        Ok(()) => {
            let mut listing = [0; 512];
            match open_kept(device, &mut listing) {
                Ok((begun, is_open)) => {
                    match save_resting(begun, is_open, &mut listing, blocks, bytes) {
                        Ok((ended, _)) => Ok(ended),
                        Err(refused) => Err(refused),
                    }
                }
                Err(refused) => Err(refused),
            }
        }
        Err(refusal) => Err((refusal, device)),
    }
}

/// Saves blocks, which are there, to an open store of which nothing is pending: each is spilled with its 1,024 bytes,
/// and then all are committed. It fails, with `StoreFault`, where a call of the device failed.
/// Rule: IMAGE, A save; IMAGE, Layout 3, A save.
pub fn save_all<D: SectorDevice>(
    store: &mut Store<D>,
    blocks: &[u16],
    bytes: &[u8],
) -> Result<(), StoreFault>
    requires below { list_all (λ b. nat_lt b (blocks_of store.old)) blocks.now ≡ true }
    requires whole { length bytes.now ≡ 1024 * length blocks.now }
    requires live { closed_of store.old ≡ false }
    requires none { (b : ℕ) → is_pending store.old b ≡ false }
    ensures ok { (m : Maps) → StandsFor store.old m
        → OnOk result (StandsFor store.new (committed (all_spilled m blocks.now bytes.now))) }
    ensures open { OnOk result (closed_of store.new ≡ false) }
    ensures none { OnOk result ((b : ℕ) → is_pending store.new b ≡ false) }
    ensures stops { (m : Maps) → StandsFor store.old m
        → StopsLeave D.SectorDevice (device_of store.old) (device_of store.new)
        (λ image. MeansBy store.old m.saved image ⊎ MeansBy store.old (latest (all_spilled m blocks.now bytes.now)) image) }
    ensures continues { Continues store.old store.new }
    ensures failed { OnErr result (DeviceFailed store.old store.new) }
    ensures well { OnOk result (DeviceWentWell store.old store.new) }
    ensures begins { SavesAtMost D.SectorDevice (device_of store.old) (device_of store.new) (length blocks.now) }
{
    match spill_all(store, blocks, bytes) {
        Ok(()) => store.commit(),
        Err(fault) => Err(fault),
    }
}

/// Spills blocks one after another, each with its 1,024 bytes.
fn spill_all<D: SectorDevice>(
    store: &mut Store<D>,
    blocks: &[u16],
    bytes: &[u8],
) -> Result<(), StoreFault>
    requires below { list_all (λ b. nat_lt b (blocks_of store.old)) blocks.now ≡ true }
    requires whole { length bytes.now ≡ 1024 * length blocks.now }
    requires live { closed_of store.old ≡ false }
    ensures ok { (m : Maps) → StandsFor store.old m
        → OnOk result (StandsFor store.new (all_spilled m blocks.now bytes.now)) }
    ensures open { OnOk result (closed_of store.new ≡ false) }
    ensures stops { KeepsSaved store.old store.new }
    ensures continues { Continues store.old store.new }
    ensures failed { OnErr result (DeviceFailed store.old store.new) }
    ensures well { OnOk result (DeviceWentWell store.old store.new) }
    ensures pending { OnOk result (pending_count store.new ≤ pending_count store.old + length blocks.now) }
    ensures begins { DeviceBegins store.old store.new (spill_writes (by_older store.old) * length blocks.now) 0 }
    ensures reads { DeviceReads store.old store.new (spill_reads (by_older store.old) * length blocks.now) }
{
    let mut rest = bytes;
    for block in blocks {
        let (these, others) = rest.split_at(BLOCK);
        store.spill(*block, these)?;
        rest = others;
    }
    Ok(())
}
