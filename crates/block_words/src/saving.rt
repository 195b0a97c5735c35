// Saving all that was updated or spilled.
ghost use Rattle.std.specs.Prelude.{◌≡◌, ◌*◌, ◌||◌, ℕ, [], true, false, length, is_ok, if◌then◌else◌, OnOk, OnErr, IsOk, IsErrOf};
ghost use Rattle.journal.specs.Maps.{Maps, shut};
ghost use Rattle.journal.specs.Costs.{spill_reads, spill_writes};
ghost use Rattle.journal.specs.Store.{blocks_of, by_older, closed_of, StandsFor, Continues, DeviceFailed, DeviceWentWell, DeviceBegins, DeviceReads, KeepsSaved, is_pending, device_of};
ghost use Rattle.block_buffers.specs.Buffers.{Buffers as Held, updated_ones};
ghost use Rattle.block_words.specs.Words.{all_spilled, next_map, save_and};
ghost use Rattle.block_words.specs.Promises.{Saves};
ghost use Rattle.block_words.specs.Uses.{is_among};
ghost use Rattle.block_words.specs.Rooms.{within, SpillFails};
ghost use Rattle.block_words.specs.Calls.{CallRuns, save_begun};

use crate::BlockFault;
use block_buffers::Buffers;
use data_space::DataSpace;
use sector_disk::SectorDevice;
use stores::Store;

// Spills each updated buffer, the most recently used first.
fn spill_updated<D: SectorDevice>(
    store: &mut Store<D>,
    buffers: &Buffers,
    space: &DataSpace,
) -> Result<(), BlockFault>
    requires within { within (blocks_of store.old) buffers.now.list ≡ true }
    requires opened { closed_of store.old ≡ false }
    ensures ok { (m : Maps) → StandsFor store.old m
        → OnOk result (StandsFor store.new (all_spilled (updated_ones buffers.now) space.now m)) }
    ensures fault { (m : Maps) → StandsFor store.old m
        → OnErr result (SpillFails (updated_ones buffers.now)
        (λ before. StandsFor store.new (shut (all_spilled before space.now m)))
        (λ spills. DeviceBegins store.old store.new (spill_writes (by_older store.old) * spills) 0
        × DeviceReads store.old store.new (spill_reads (by_older store.old) * spills))) }
    ensures only { OnErr result (IsErrOf result BlockFault.Device) }
    ensures opened { OnOk result (closed_of store.new ≡ false) }
    ensures device { OnErr result (DeviceFailed store.old store.new) }
    ensures well { OnOk result (DeviceWentWell store.old store.new) }
    ensures stops { KeepsSaved store.old store.new }
    ensures continues { Continues store.old store.new }
    ensures shuts { OnErr result (closed_of store.new ≡ true) }
    ensures pending { OnOk result
        ((u : ℕ) → is_pending store.new u ≡ (is_among (updated_ones buffers.now) u || is_pending store.old u)) }
    ensures begins { DeviceBegins store.old store.new (spill_writes (by_older store.old) * length (updated_ones buffers.now)) 0 }
    ensures reads { DeviceReads store.old store.new (spill_reads (by_older store.old) * length (updated_ones buffers.now)) }
    ensures nothing { updated_ones buffers.now ≡ [] → IsOk result }
    ensures unasked { updated_ones buffers.now ≡ [] → device_of store.new ≡ device_of store.old }
{
    for updated in buffers.updated().iter() {
        match store.spill(updated.block, space.buffer(updated.slot)) {
            Ok(()) => {}
            Err(_) => return Err(BlockFault::Device),
        }
    }
    Ok(())
}

// Spills each updated buffer and commits.
pub(crate) fn save<D: SectorDevice>(
    store: &mut Store<D>,
    buffers: &Buffers,
    space: &DataSpace,
) -> Result<(), BlockFault>
    requires within { within (blocks_of store.old) buffers.now.list ≡ true }
    ensures runs { (m : Maps) (change : Held → Held) → StandsFor store.old m
        → CallRuns D.SectorDevice (save_and change) result
        (save_begun m.closed (next_map buffers.now space.now m) (is_ok result)) m
        store.old store.new buffers.now (if is_ok result then change buffers.now else buffers.now) space.now space.now }
    ensures saves { Saves result store.old store.new buffers.now space.now }
{
    if store.is_closed() {
        return Err(BlockFault::Closed);
    }
    match spill_updated(store, buffers, space) {
        Ok(()) => match store.commit() {
            Ok(()) => Ok(()),
            Err(_) => Err(BlockFault::Device),
        },
        Err(_) => Err(BlockFault::Device),
    }
}
