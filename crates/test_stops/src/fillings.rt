// What the blocks of an image are full of.
use crate::disks::block;
use recovery::OpenFault;
use sector_disk::{Counts, MemoryDisk};
use std::alloc::{AllocError, Global};
use std::fmt;
use std::test::Fail;
use stores::open;

/// The byte that fills each of the first 64 blocks of an image, and `?` for one whose bytes differ. All others are blank.
#[derive(Clone, Copy, PartialEq, Eq)]
pub struct Fillings {
    bytes: [u8; 64],
}

impl Fillings {
    /// All blocks are blank.
    pub fn blank() -> Self {
        Fillings { bytes: [b' '; 64] }
    }

    /// Says what fills a block. A block past the first 64 that isn't blank is told as a last one whose bytes differ.
    pub fn fill(&mut self, b: u16, byte: u8) {
        match self.bytes.get_mut(b as usize) {
            Some(filling) => *filling = byte,
            None => {
                if byte != b' ' {
                    self.bytes[63] = b'?';
                }
            }
        }
    }
}

/// `blank`, or the blocks that aren't, as in `1A 2B 9?`.
impl fmt::Display for Fillings {
    fn fmt<W: fmt::Write>(&self, f: &mut fmt::Formatter<W>) -> fmt::Result {
        let mut before = "";
        for (b, byte) in self.bytes.iter().enumerate() {
            if *byte != b' ' {
                write!(f, "{before}{b}{}", char::from(*byte))?;
                before = " ";
            }
        }
        if before.is_empty() {
            f.write_str("blank")
        } else {
            Ok(())
        }
    }
}

/// What is left where an image is opened: what fills its blocks, or why it is refused.
pub type Left = Result<Fillings, OpenFault>;

/// Opens an image and looks at all of its blocks.
pub fn left_in(disk: MemoryDisk) -> Result<Left, Fail> {
    let (left, _) = looked_at(disk)?;
    Ok(left)
}

/// Opens an image and looks at all of its blocks, and gives the counts of the device's calls afterwards too.
pub fn looked_at(disk: MemoryDisk) -> Result<(Left, Counts), Fail> {
    match open(disk) {
        Ok(mut store) => {
            let mut fillings = Fillings::blank();
            for b in 0..store.blocks() {
                let bytes = block(&mut store, b)?;
                let is_full = bytes == [bytes[0]; 1024];
                fillings.fill(b, if is_full { bytes[0] } else { b'?' });
            }
            Ok((Ok(fillings), store.into_device().counts()))
        }
        Err((fault, disk)) => Ok((Err(fault), disk.counts())),
    }
}

/// As texts say it: what fills the blocks, or the name of the refusal.
pub fn shown(alloc: Global, left: Left) -> Result<String, AllocError> {
    match left {
        Ok(fillings) => format!(in alloc; "{fillings}"),
        Err(fault) => format!(in alloc; "{fault:?}"),
    }
}
