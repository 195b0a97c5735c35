// What an image gives that stays open, by either layout, over a disk in memory.
ghost use Rattle.std.specs.Prelude.{◌≡◌, ◌≤◌, None, IfOk};
ghost use Rattle.hosted.specs.Keeping.{StaysOpen, gate_in};

use crate::open_store::{OpenStore, close};
use crate::promises::{format_over, open_over, read_open_over, save_open_over};
use sector_disk::{Counts, Fused, MemoryDisk, SectorDevice};
use std::alloc::Global;
use std::test::Fail;

// A disk with an image of 32 blank blocks.
fn made(alloc: Global, sectors: u32) -> Result<MemoryDisk, Fail> {
    match format_over(MemoryDisk::new(alloc, sectors)?, 32) {
        (0, device) => Ok(device),
        _ => Err("not made")?,
    }
}

// The memory of a store that isn't open.
fn shut(sectors: u32) -> OpenStore {
    OpenStore {
        device: 1,
        sectors,
        state: 0,
        listing: [0; 512],
    }
}

fn opened<D: SectorDevice + Drop>(device: D, store: &mut OpenStore) -> Result<D, Fail>
    ensures { IfOk result (λ device. StaysOpen D.SectorDevice device store.new) }
{
    match open_over(device, store) {
        (0, device) => Ok(device),
        _ => Err("not opened")?,
    }
}

// Reads a block, and answers the number that C is told and the block's first byte.
fn read<D: SectorDevice + Drop>(device: D, store: &mut OpenStore, block: u16) -> (u8, D, u8)
    requires { StaysOpen D.SectorDevice device store.old }
    ensures stays { result.0 ≡ 0 → StaysOpen D.SectorDevice result.1 store.new }
    ensures closed { result.0 ≡ 5 → gate_in store.new ≡ None }
{
    let mut bytes = [b'?'; 1024];
    let (answer, device) = read_open_over(device, store, block, &mut bytes);
    (answer, device, bytes[0])
}

// The number that C is told of a read where no store is open.
fn read_closed<D: SectorDevice + Drop>(device: D, store: &mut OpenStore) -> u8
    requires { gate_in store.old ≡ None }
{
    let mut bytes = [0; 1024];
    read_open_over(device, store, 5, &mut bytes).0
}

fn saved<D: SectorDevice + Drop>(
    device: D,
    store: &mut OpenStore,
    blocks: &[u16],
    bytes: &[u8],
) -> Result<D, Fail>
    requires { StaysOpen D.SectorDevice device store.old }
    ensures { IfOk result (λ device. StaysOpen D.SectorDevice device store.new) }
{
    match save_open_over(device, store, blocks, bytes) {
        (0, device) => Ok(device),
        _ => Err("not saved")?,
    }
}

// The bytes of the blocks 5 and 31 before a save of both, after it, and when the image was closed and opened again.
fn read_around_a_save(alloc: Global, sectors: u32) -> Result<[u8; 3], Fail> {
    let mut store = shut(sectors);
    let device = opened(made(alloc, sectors)?, &mut store)?;
    let (0, device, blank) = read(device, &mut store, 5) else {
        return Err("not read")?;
    };
    let device = saved(device, &mut store, &[5, 31], &[b'A'; 2048])?;
    let (0, device, byte) = read(device, &mut store, 31) else {
        return Err("not read after the save")?;
    };
    close(&mut store);
    let device = opened(device, &mut store)?;
    let (0, _, again) = read(device, &mut store, 5) else {
        return Err("not read again")?;
    };
    Ok([blank, byte, again])
}

// The counts of the device before a read, after it, and after a save of two blocks.
fn counted(alloc: Global, sectors: u32) -> Result<(Counts, Counts, Counts), Fail> {
    let mut store = shut(sectors);
    let device = opened(made(alloc, sectors)?, &mut store)?;
    let first = device.counts();
    let (0, device, _) = read(device, &mut store, 5) else {
        return Err("not read")?;
    };
    let second = device.counts();
    let device = saved(device, &mut store, &[5, 31], &[b'A'; 2048])?;
    Ok((first, second, device.counts()))
}

// The answer to a read after one in which the device failed, and the first byte of what that was to fill.
fn answer_after_a_fault(alloc: Global, sectors: u32, call: u64) -> Result<(u8, u8), Fail>
    requires { 1 ≤ call }
{
    let mut store = shut(sectors);
    let device = opened(Fused::once(made(alloc, sectors)?, call), &mut store)?;
    let (5, device, byte) = read(device, &mut store, 5) else {
        return Err("no fault")?;
    };
    Ok((read_closed(device, &mut store), byte))
}

#[test]
fn what_is_saved_is_read(rt: HostRuntime) -> Result<(), Fail> {
    for sectors in [131, 544] {
        assert_eq!(rt; read_around_a_save(rt.alloc(), sectors)?, *b" AA");
    }
    Ok(())
}

// A read is 2 reads. A save of 2 blocks is as many writes, syncs and reads as the description of the image has steps.
#[test]
fn calls_of_the_device_are_few(rt: HostRuntime) -> Result<(), Fail> {
    for (sectors, writes, syncs, reads) in [(131, 11, 4, 8), (544, 8, 2, 2)] {
        let (first, second, third) = counted(rt.alloc(), sectors)?;
        let read = [
            second.writes.abs_diff(first.writes),
            second.syncs.abs_diff(first.syncs),
            second.reads.abs_diff(first.reads),
        ];
        let save = [
            third.writes.abs_diff(second.writes),
            third.syncs.abs_diff(second.syncs),
            third.reads.abs_diff(second.reads),
        ];
        assert_eq!(rt;
            (read, save),
            ([0, 0, 2], [writes, syncs, reads]),
            "{sectors} sectors"
        );
    }
    Ok(())
}

// An opening makes 3 calls by layout 2, and 100 by layout 3. After a fault the store isn't open any more.
#[test]
fn a_fault_closes_the_store(rt: HostRuntime) -> Result<(), Fail> {
    for (sectors, call) in [(131, 4), (544, 101)] {
        assert_eq!(rt;
            answer_after_a_fault(rt.alloc(), sectors, call)?,
            (13, b'?'),
            "{sectors} sectors"
        );
    }
    Ok(())
}
