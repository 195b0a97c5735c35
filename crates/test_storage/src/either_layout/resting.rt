// A store that gave its device back goes on later as it would have.
ghost use Rattle.std.specs.Prelude.{◌≡◌, ℕ, false};
ghost use Rattle.journal.specs.Store.{closed_of, is_pending};

use crate::either_layout::saves::{first_byte, made, spill};
use journal::sizes::known_blocks;
use sector_disk::{MemoryDisk, SectorDevice};
use std::test::Fail;
use stores::{Store, named, open, resume};

// A store in which nothing is pending rests, and goes on, beside what was kept of it.
fn rested(store: Store<MemoryDisk>) -> Result<(Store<MemoryDisk>, bool, [u8; 512]), Fail>
    requires live { closed_of store ≡ false }
    requires none { (b : ℕ) → is_pending store b ≡ false }
{
    let mut listing = [7; 512];
    let is_open = named(&store, &mut listing);
    let device = store.into_device();
    let Some(blocks) = known_blocks(device.sectors()) else {
        return Err("of no size")?;
    };
    Ok((resume(device, blocks, is_open, &listing), is_open, listing))
}

// Saves block 5 full of this byte, and lets the store rest.
fn saved(
    mut store: Store<MemoryDisk>,
    byte: u8,
) -> Result<(Store<MemoryDisk>, bool, [u8; 512]), Fail> {
    if spill(&mut store, byte).is_err() {
        return Err("not spilled")?;
    }
    match store.commit() {
        Ok(()) => rested(store),
        Err(_) => Err("not saved")?,
    }
}

// Reads a sector of the device of a store that ends.
fn sector(store: Store<MemoryDisk>, k: u32) -> Result<[u8; 512], Fail> {
    let mut device = store.into_device();
    let mut bytes = [0; 512];
    if k >= device.sectors() {
        return Err("no such sector")?;
    }
    device.read(k, &mut bytes).map_err(|_| "not read")?;
    Ok(bytes)
}

#[test]
fn a_store_that_rested_has_what_was_saved(rt: HostRuntime) -> Result<(), Fail> {
    for newer in [false, true] {
        let mut store = made(rt.alloc(), newer)?;
        for byte in [b'A', b'B', b'C'] {
            store = saved(store, byte)?.0;
            assert!(rt; !store.is_closed());
            assert_eq!(rt; store.blocks(), 32);
            assert_eq!(rt; first_byte(&mut store)?, byte);
        }
        let Ok(mut store) = open(store.into_device()) else {
            return Err("not opened")?;
        };
        assert_eq!(rt; first_byte(&mut store)?, b'C');
    }
    Ok(())
}

// By layout 2 nothing is told, and what there was for it is left.
#[test]
fn an_older_store_has_nothing_to_tell(rt: HostRuntime) -> Result<(), Fail> {
    let (_, is_open, listing) = saved(made(rt.alloc(), false)?, b'A')?;
    assert!(rt; !is_open);
    assert_eq!(rt; listing, [7; 512]);
    Ok(())
}

// By layout 3 each save turns the gate: an open one names the record of sector 16, a closed one that of sector 24. Block 5 is listed by the
// first byte of it, with a worth of 32, where its second place counts.
#[test]
fn a_newer_store_tells_its_gate_and_record(rt: HostRuntime) -> Result<(), Fail> {
    let (store, is_open, listing) = saved(made(rt.alloc(), true)?, b'A')?;
    assert!(rt; is_open);
    assert_eq!(rt; listing[0], 32);
    assert_eq!(rt; listing, sector(store, 16)?);
    let store = saved(made(rt.alloc(), true)?, b'A')?.0;
    let (store, is_open, listing) = saved(store, b'B')?;
    assert!(rt; !is_open);
    assert_eq!(rt; listing[0], 0);
    assert_eq!(rt; listing, sector(store, 24)?);
    Ok(())
}
