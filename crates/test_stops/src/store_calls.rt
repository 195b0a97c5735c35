// Calls of a store.
ghost use Rattle.std.specs.Prelude.{◌<◌};
ghost use Rattle.journal.specs.Store.{blocks_of};

use crate::calls::{Call, Caller, follow};
use crate::disks::opened;
use crate::fillings::Fillings;
use crate::player::{Played, Player};
use journal::StoreFault;
use sector_disk::SectorDevice;
use std::alloc::{AllocError, Global};
use std::test::Fail;
use stores::Store;

// Does a call: the byte that fills the block that it read, if it read one. `?` is told of bytes that differ, and of no call.
fn take<D: SectorDevice>(store: &mut Store<D>, call: Call) -> Result<Option<u8>, StoreFault> {
    let b = call.number;
    match call.word {
        "read" if b < store.blocks() => read_whole(store, b),
        "spill" | "text" if b < store.blocks() => store.spill(b, &block_of(call)).map(|()| None),
        "commit" => store.commit().map(|()| None),
        _ => Ok(Some(b'?')),
    }
}

// A read that fails leaves the bytes as they were.
fn read_whole<D: SectorDevice>(store: &mut Store<D>, b: u16) -> Result<Option<u8>, StoreFault>
    requires { b < blocks_of store.old }
{
    let mut bytes = [7; 1024];
    match store.read_block(b, &mut bytes) {
        Ok(()) if bytes == [bytes[0]; 1024] => Ok(Some(bytes[0])),
        Err(fault) if bytes == [7; 1024] => Err(fault),
        _ => Ok(Some(b'?')),
    }
}

// A block that is full of a byte, or begins with a text.
fn block_of(call: Call) -> [u8; 1024] {
    if call.word == "spill" {
        return [call.byte(); 1024];
    }
    let mut bytes = [b' '; 1024];
    for (place, byte) in bytes.iter_mut().zip(call.rest.bytes()) {
        *place = byte;
    }
    bytes
}

// The answer of a call, where the store says of itself what goes with it: a fault in a spill or a commit closes it, one in a read
// doesn't, and a closed store calls no device.
fn answer(
    alloc: Global,
    is_read: bool,
    outcome: Result<Option<u8>, StoreFault>,
    was_closed: bool,
    is_closed: bool,
) -> Result<String, AllocError> {
    match outcome {
        Ok(None) if !was_closed && !is_closed => String::from_str(alloc, "ok"),
        Ok(Some(b' ')) if !was_closed && !is_closed => String::from_str(alloc, "blank"),
        Ok(Some(byte)) if !was_closed && !is_closed => { format!(in alloc; "{}", char::from(byte)) }
        Err(StoreFault::Closed) if was_closed && is_closed => String::from_str(alloc, "Closed"),
        Err(StoreFault::Device) if !was_closed && is_closed != is_read => {
            String::from_str(alloc, "Device")
        }
        _ => String::from_str(alloc, "no answer of a store in this state"),
    }
}

impl<D: SectorDevice> Caller for Store<D> {
    fn call(&mut self, alloc: Global, call: Call) -> Result<String, Fail> {
        let was_closed = self.is_closed();
        let outcome = take(self, call);
        let is_read = call.word == "read";
        Ok(answer(alloc, is_read, outcome, was_closed, self.is_closed())?)
    }
}

/// Calls a store: `1 read`, `1 spill A` of a block that is full of `A`, `9 text TEXT` of one that begins with a text, `commit`.
#[derive(Clone, Copy)]
pub struct StoreCalls;

impl Player for StoreCalls {
    fn play<D: SectorDevice + Drop>(
        &self,
        alloc: Global,
        rows: &str,
        device: D,
        start: Fillings,
    ) -> Result<Played<D>, Fail> {
        let mut store = opened(device)?;
        let (answers, told) = follow(alloc, rows, &mut store, start)?;
        Ok(Played {
            device: store.into_device(),
            answers,
            told,
        })
    }
}
