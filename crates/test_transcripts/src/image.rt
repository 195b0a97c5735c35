//! Images in memory, for sessions.
use recovery::{format, open};
use sector_disk::MemoryDisk;
use std::alloc::Global;
use std::io;
use std::io::{Error, ErrorKind};

/// How many blocks an image has.
const BLOCKS: u16 = 32;

/// How many sectors it has.
const SECTORS: u32 = 131;

/// An image of blank blocks.
pub fn blank(alloc: Global) -> io::Result<MemoryDisk> {
    let Ok(disk) = MemoryDisk::new(alloc, SECTORS) else {
        return Err(Error::from(ErrorKind::OutOfMemory));
    };
    match format(disk, BLOCKS) {
        Ok(store) => Ok(store.into_device()),
        Err(_) => Err(Error::from(ErrorKind::InvalidData)),
    }
}

/// The image with a text in a block, which is filled up with blanks.
pub fn with_block(image: MemoryDisk, block: u16, text: &str) -> io::Result<MemoryDisk> {
    let Ok(mut store) = open(image) else {
        return Err(Error::from(ErrorKind::InvalidData));
    };
    let mut bytes = [b' '; 1024];
    for (place, byte) in bytes.iter_mut().zip(text.bytes()) {
        *place = byte;
    }
    if block < store.blocks() && store.spill(block, &bytes).is_ok() && store.commit().is_ok() {
        return Ok(store.into_device());
    }
    Err(Error::from(ErrorKind::InvalidData))
}
