// A buffer for a block that has none.
ghost use Rattle.std.specs.Prelude.{◌≡◌, ◌⊎◌, ◌<◌, ◌+◌, ◌↔◌, [], None, true, false, replicate, List, ℕ, OnOk, OnErr, IfOk, IfErr, IsErrOf, MatchResult};
ghost use Rattle.journal.specs.Maps.{Maps, shut};
ghost use Rattle.journal.specs.Costs.{spill_reads, spill_writes};
ghost use Rattle.journal.specs.Store.{device_of, blocks_of, by_older, closed_of, StandsFor, Continues, DeviceFailed, DeviceWentWell, DeviceBegins, DeviceReads, KeepsSaved};
ghost use Rattle.data_space.specs.Space.{buffer_at, with_bytes};
ghost use Rattle.block_buffers.specs.Buffers.{oldest, assigned, slot_for, placed, IsValid};
ghost use Rattle.block_words.specs.Words.{assign, block, buffer};
ghost use Rattle.block_words.specs.Uses.{PendingOnceReplaced};
ghost use Rattle.block_words.specs.Rooms.{within, room_made, room_wear, is_updated, address_of, filled_in};
ghost use Rattle.block_words.specs.Calls.{CallRuns, WearsAtMost};
ghost use Rattle.block_words.specs.Promises.{TellsFailures};

use crate::BlockFault;
use block_buffers::{Buffers, Slot};
use data_space::{BUFFER_SIZE, DataSpace, FIRST_BUFFER};
use sector_disk::SectorDevice;
use stores::Store;

// Where a slot's buffer stands in data space.
#[inline]
pub(crate) fn address(slot: Slot) -> u16
    requires { slot < 4 }
    ensures { result ≡ buffer_at slot }
{
    FIRST_BUFFER + BUFFER_SIZE as u16 * u16::from(slot)
}

// Spills the oldest buffer, where a new one takes its place and it is updated.
fn make_room<D: SectorDevice>(
    store: &mut Store<D>,
    buffers: &Buffers,
    space: &DataSpace,
) -> Result<(), BlockFault>
    requires within { within (blocks_of store.old) buffers.now.list ≡ true }
    requires opened { closed_of store.old ≡ false }
    ensures ok { (m : Maps) → StandsFor store.old m
        → OnOk result (StandsFor store.new (room_made (oldest buffers.now) space.now m)) }
    ensures fault { (m : Maps) → StandsFor store.old m → OnErr result (StandsFor store.new (shut m)) }
    ensures cause { OnErr result (is_updated (oldest buffers.now) ≡ true) }
    ensures only { OnErr result (IsErrOf result BlockFault.Device) }
    ensures opened { OnOk result (closed_of store.new ≡ false) }
    ensures pending { OnOk result (PendingOnceReplaced store.old store.new (oldest buffers.now)) }
    ensures device { OnErr result (DeviceFailed store.old store.new) }
    ensures well { OnOk result (DeviceWentWell store.old store.new) }
    ensures stops { KeepsSaved store.old store.new }
    ensures continues { Continues store.old store.new }
    ensures begins { DeviceBegins store.old store.new (spill_writes (by_older store.old)) 0 }
    ensures reads { DeviceReads store.old store.new (spill_reads (by_older store.old)) }
    ensures wears { WearsAtMost D.SectorDevice (device_of store.old) (device_of store.new)
        (room_wear (is_updated (oldest buffers.now))) }
{
    let Some(last) = buffers.oldest() else {
        return Ok(());
    };
    if !last.updated {
        return Ok(());
    }
    match store.spill(last.block, space.buffer(last.slot)) {
        Ok(()) => Ok(()),
        Err(_) => Err(BlockFault::Device),
    }
}

// Gives a slot to a block that has no buffer.
fn assign_slot<D: SectorDevice>(
    store: &mut Store<D>,
    buffers: &mut Buffers,
    space: &DataSpace,
    u: u16,
) -> Result<Slot, BlockFault>
    requires within { within (blocks_of store.old) buffers.old.list ≡ true }
    requires opened { closed_of store.old ≡ false }
    requires below { u < blocks_of store.old }
    requires none { assigned buffers.old.list u ≡ None }
    ensures runs { (m : Maps) (bytes : List ℕ) → StandsFor store.old m
        → CallRuns D.SectorDevice (assign u bytes) (address_of result) [] m
        store.old store.new buffers.old buffers.new space.now (filled_in result space.now bytes) }
    ensures slot { IfOk result (λ slot. slot ≡ slot_for buffers.old) }
    ensures below { IfOk result (λ slot. slot < 4) }
    ensures list { MatchResult result (λ _. buffers.new ≡ placed buffers.old u) (λ _. buffers.new ≡ buffers.old) }
    ensures only { IfErr result (λ fault. (fault ≡ BlockFault.Device) ⊎ (fault ≡ BlockFault.Memory)) }
    ensures within { within (blocks_of store.new) buffers.new.list ≡ true }
    ensures valid { OnOk result (IsValid buffers.new) }
    ensures opened { OnOk result (closed_of store.new ≡ false) }
    ensures pending { OnOk result (PendingOnceReplaced store.old store.new (oldest buffers.old)) }
    ensures failures { TellsFailures result store.old store.new }
    ensures continues { Continues store.old store.new }
    ensures begins { DeviceBegins store.old store.new (spill_writes (by_older store.old)) 0 }
    ensures reads { DeviceReads store.old store.new (spill_reads (by_older store.old)) }
{
    match make_room(store, buffers, space) {
        Ok(()) => match buffers.place(u) {
            Ok(slot) => Ok(slot),
            Err(_) => Err(BlockFault::Memory),
        },
        Err(_) => Err(BlockFault::Device),
    }
}

// Fills a buffer with these bytes, and gives its address.
fn fill_buffer(space: &mut DataSpace, slot: Slot, bytes: &[u8; 1024]) -> u16
    requires { slot < 4 }
    ensures address { result ≡ buffer_at slot }
    ensures bytes { space.new ≡ with_bytes space.old (buffer_at slot) bytes.now }
{
    space.buffer_mut(slot).copy_from_slice(bytes);
    address(slot)
}

// Fills a buffer with blanks, and gives its address.
fn blank_buffer(space: &mut DataSpace, slot: Slot) -> u16
    requires { slot < 4 }
    ensures address { result ≡ buffer_at slot }
    ensures bytes { space.new ≡ with_bytes space.old (buffer_at slot) (replicate 1024 32) }
{
    space.buffer_mut(slot).fill(b' ');
    address(slot)
}

// Reads a block that has no buffer into one.
pub(crate) fn fetch<D: SectorDevice>(
    store: &mut Store<D>,
    buffers: &mut Buffers,
    space: &mut DataSpace,
    u: u16,
) -> Result<u16, BlockFault>
    requires within { within (blocks_of store.old) buffers.old.list ≡ true }
    requires below { u < blocks_of store.old }
    requires none { assigned buffers.old.list u ≡ None }
    ensures runs { (m : Maps) → StandsFor store.old m
        → CallRuns D.SectorDevice (block u) result [] m store.old store.new buffers.old buffers.new space.old space.new }
    ensures address { IfOk result (λ at. at ≡ buffer_at (slot_for buffers.old)) }
    ensures list { MatchResult result (λ _. buffers.new ≡ placed buffers.old u) (λ _. buffers.new ≡ buffers.old) }
    ensures space { OnErr result (space.new ≡ space.old) }
    ensures no_block { ¬ IsErrOf result BlockFault.NoBlock }
    ensures no_buffer { ¬ IsErrOf result BlockFault.NoBuffer }
    ensures closed { IsErrOf result BlockFault.Closed ↔ (closed_of store.old ≡ true) }
    ensures closed_same { closed_of store.old ≡ true → store.new ≡ store.old }
    ensures failures { TellsFailures result store.old store.new }
    ensures within { within (blocks_of store.new) buffers.new.list ≡ true }
    ensures valid { OnOk result (IsValid buffers.new) }
    ensures opened { OnOk result (closed_of store.new ≡ closed_of store.old) }
    ensures pending { OnOk result (PendingOnceReplaced store.old store.new (oldest buffers.old)) }
    ensures continues { Continues store.old store.new }
    ensures begins { DeviceBegins store.old store.new (spill_writes (by_older store.old)) 0 }
    ensures reads { DeviceReads store.old store.new (2 + spill_reads (by_older store.old)) }
{
    let mut bytes = [0; 1024];
    match store.read_block(u, &mut bytes) {
        Ok(()) => match assign_slot(store, buffers, space, u) {
            Ok(slot) => Ok(fill_buffer(space, slot, &bytes)),
            Err(fault) => Err(fault),
        },
        Err(fault) => Err(BlockFault::from(fault)),
    }
}

// Gives a block that has no buffer one of blanks.
pub(crate) fn blank<D: SectorDevice>(
    store: &mut Store<D>,
    buffers: &mut Buffers,
    space: &mut DataSpace,
    u: u16,
) -> Result<u16, BlockFault>
    requires within { within (blocks_of store.old) buffers.old.list ≡ true }
    requires below { u < blocks_of store.old }
    requires none { assigned buffers.old.list u ≡ None }
    ensures runs { (m : Maps) → StandsFor store.old m
        → CallRuns D.SectorDevice (buffer u) result [] m store.old store.new buffers.old buffers.new space.old space.new }
    ensures address { IfOk result (λ at. at ≡ buffer_at (slot_for buffers.old)) }
    ensures list { MatchResult result (λ _. buffers.new ≡ placed buffers.old u) (λ _. buffers.new ≡ buffers.old) }
    ensures space { MatchResult result
        (λ _. space.new ≡ with_bytes space.old (buffer_at (slot_for buffers.old)) (replicate 1024 32))
        (λ _. space.new ≡ space.old) }
    ensures no_block { ¬ IsErrOf result BlockFault.NoBlock }
    ensures no_buffer { ¬ IsErrOf result BlockFault.NoBuffer }
    ensures closed { IsErrOf result BlockFault.Closed ↔ (closed_of store.old ≡ true) }
    ensures closed_same { closed_of store.old ≡ true → store.new ≡ store.old }
    ensures failures { TellsFailures result store.old store.new }
    ensures within { within (blocks_of store.new) buffers.new.list ≡ true }
    ensures valid { OnOk result (IsValid buffers.new) }
    ensures opened { OnOk result (closed_of store.new ≡ closed_of store.old) }
    ensures pending { OnOk result (PendingOnceReplaced store.old store.new (oldest buffers.old)) }
    ensures continues { Continues store.old store.new }
    ensures begins { DeviceBegins store.old store.new (spill_writes (by_older store.old)) 0 }
    ensures reads { DeviceReads store.old store.new (spill_reads (by_older store.old)) }
{
    if store.is_closed() {
        return Err(BlockFault::Closed);
    }
    match assign_slot(store, buffers, space, u) {
        Ok(slot) => Ok(blank_buffer(space, slot)),
        Err(fault) => Err(fault),
    }
}
