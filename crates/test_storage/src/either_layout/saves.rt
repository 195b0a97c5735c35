// What a store of either layout keeps, over an image that was made by that layout.
use journal::StoreFault;
use sector_disk::{Fused, MemoryDisk, SectorDevice};
use std::alloc::Global;
use std::test::Fail;
use stores::{Store, open};

/// A store of 32 blank blocks by layout 2, or by layout 3.
pub(crate) fn made(alloc: Global, newer: bool) -> Result<Store<MemoryDisk>, Fail> {
    if newer {
        let disk = MemoryDisk::new(alloc, 544)?;
        match shadow::format(disk, 32) {
            Ok(store) => Ok(store),
            Err(_) => Err("not made")?,
        }
    } else {
        let disk = MemoryDisk::new(alloc, 131)?;
        match recovery::format(disk, 32) {
            Ok(store) => Ok(store),
            Err(_) => Err("not made")?,
        }
    }
}

/// Spills block 5 full of this byte.
pub(crate) fn spill<D: SectorDevice>(store: &mut Store<D>, byte: u8) -> Result<(), StoreFault> {
    if store.blocks() <= 5 {
        return Ok(());
    }
    store.spill(5, &[byte; 1024])
}

/// The first byte of block 5.
pub(crate) fn first_byte<D: SectorDevice>(store: &mut Store<D>) -> Result<u8, Fail> {
    let mut bytes = [0; 1024];
    if store.blocks() <= 5 {
        return Err("few blocks")?;
    }
    store
        .read_block(5, &mut bytes)
        .map_err(|_| "no block read")?;
    store.read_text(5).map_err(|_| "no text read")?;
    if *store.text() != bytes {
        return Err("the text is another")?;
    }
    Ok(bytes[0])
}

#[test]
fn a_save_is_there_when_the_image_is_opened_again(rt: HostRuntime) -> Result<(), Fail> {
    for newer in [false, true] {
        let mut store = made(rt.alloc(), newer)?;
        assert_eq!(rt; first_byte(&mut store)?, b' ');
        assert!(rt; spill(&mut store, b'A').is_ok());
        assert!(rt; store.commit().is_ok());
        assert!(rt; spill(&mut store, b'B').is_ok());
        assert_eq!(rt; first_byte(&mut store)?, b'B');
        let Ok(mut store) = open(store.into_device()) else {
            return Err("not opened")?;
        };
        assert_eq!(rt; store.blocks(), 32);
        assert_eq!(rt; first_byte(&mut store)?, b'A');
    }
    Ok(())
}

#[test]
fn a_fault_closes_either(rt: HostRuntime) -> Result<(), Fail> {
    for newer in [false, true] {
        let disk = made(rt.alloc(), newer)?.into_device();
        // an opening makes 3 calls by layout 2, and 100 by layout 3
        let Ok(mut store) = open(Fused::once(disk, if newer { 101 } else { 4 })) else {
            return Err("not opened")?;
        };
        assert!(rt; !store.is_closed());
        assert!(rt; spill(&mut store, b'A') == Err(StoreFault::Device));
        assert!(rt; store.is_closed());
        assert!(rt; spill(&mut store, b'A') == Err(StoreFault::Closed));
        assert!(rt; store.commit() == Err(StoreFault::Closed));
    }
    Ok(())
}
