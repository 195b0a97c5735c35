// Calls of block words.
use block_buffers::Buffers;
use block_words::{BlockFault, Blocks};
use data_space::DataSpace;
use sector_disk::SectorDevice;
use std::alloc::Global;
use std::test::Fail;
use test_stops::calls::{Call, Caller, follow};
use test_stops::disks::opened;
use test_stops::fillings::Fillings;
use test_stops::player::{Played, Player};

/// Blocks and the data space that they use.
#[derive(Drop)]
struct Session<D: SectorDevice> {
    blocks: Blocks<D>,
    space: DataSpace,
}

impl<D: SectorDevice + Drop> Session<D> {
    fn asked(&mut self, u: u16, is_read: bool) -> Result<u16, BlockFault> {
        if is_read {
            self.blocks.block(&mut self.space, u)
        } else {
            self.blocks.buffer(&mut self.space, u)
        }
    }

    /// A block's buffer, asked for once more where memory is refused. (What a refusal leaves as it was, a clause says.)
    fn buffer(&mut self, u: u16, is_read: bool) -> Result<u16, BlockFault> {
        match self.asked(u, is_read) {
            Err(BlockFault::Memory) => self.asked(u, is_read),
            answer => answer,
        }
    }

    /// The first byte of a block's text.
    fn text(&mut self, u: u16) -> Result<u8, BlockFault> {
        let mut bytes = [0; 1024];
        self.blocks.source(&self.space, u, &mut bytes)?;
        Ok(bytes[0])
    }

    /// The first byte of a block, or the one that fills it, and 0 where its bytes differ.
    fn byte(&mut self, u: u16, fills: bool) -> Result<u8, BlockFault> {
        let at = self.buffer(u, true)?;
        let byte = self.space.byte(at);
        let is_full = self.space.slice(at, 1024) == Some([byte; 1024].as_slice());
        Ok(if is_full || !fills { byte } else { 0 })
    }

    /// Writes a byte into so many of the first bytes of a block, and marks it.
    fn edit(&mut self, u: u16, count: u16, byte: u8) -> Result<(), BlockFault> {
        let at = self.buffer(u, true)?;
        self.space.fill(at, count, byte);
        self.blocks.update()
    }

    /// Calls a word: what it answers, if it answers anything.
    fn answer(&mut self, call: Call) -> Result<Option<u16>, BlockFault> {
        let u = call.number;
        match call.word {
            "BLOCK" => self.buffer(u, true).map(Some),
            "BUFFER" => self.buffer(u, false).map(Some),
            "FIRST" => self.byte(u, false).map(|byte| Some(u16::from(byte))),
            "FILLING" => self.byte(u, true).map(|byte| Some(u16::from(byte))),
            "TEXT" => self.text(u).map(|byte| Some(u16::from(byte))),
            "C@" => Ok(Some(u16::from(self.space.byte(u)))),
            _ => self.change(call).map(|()| None),
        }
    }

    fn change(&mut self, call: Call) -> Result<(), BlockFault> {
        match call.word {
            "EDIT" => self.edit(call.number, 1, call.byte()),
            "FILL" => self.edit(call.number, 1024, call.byte()),
            "C!" => {
                self.space.set_byte(call.number, call.byte());
                Ok(())
            }
            "UPDATE" => self.blocks.update(),
            "SAVE" => self.blocks.save_buffers(&self.space),
            "FLUSH" => self.blocks.flush(&self.space),
            _ => Err(BlockFault::Memory),
        }
    }
}

impl<D: SectorDevice + Drop> Caller for Session<D> {
    fn call(&mut self, alloc: Global, call: Call) -> Result<String, Fail> {
        Ok(match self.answer(call) {
            Ok(Some(number)) => format!(in alloc; "{number}")?,
            Ok(None) => String::from_str(alloc, "ok")?,
            Err(fault) => format!(in alloc; "{fault:?}")?,
        })
    }
}

/// Calls block words. `1 FIRST` is the first byte of block 1, `1 FILLING` the byte that fills it, `1 TEXT` the first byte of its
/// text, and `61440 C@` a byte of data space, where `61440 C! B` stores one. `1 EDIT A` stores a byte at the beginning of block 1
/// and marks it, and `1 FILL A` fills it and marks it.
#[derive(Clone, Copy)]
pub struct BlockCalls;

impl Player for BlockCalls {
    fn play<D: SectorDevice + Drop>(
        &self,
        alloc: Global,
        rows: &str,
        device: D,
        start: Fillings,
    ) -> Result<Played<D>, Fail> {
        let mut session = Session {
            space: DataSpace::new(alloc)?,
            blocks: Blocks::new(Buffers::new(alloc)?, opened(device)?),
        };
        let (answers, told) = follow(alloc, rows, &mut session, start)?;
        let Session { blocks, .. } = session;
        Ok(Played {
            device: blocks.into_store().into_device(),
            answers,
            told,
        })
    }
}
