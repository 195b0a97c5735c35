// Calls over a whole image.
use crate::calls::{Call, Caller, follow};
use crate::disks::{BLOCKS, format};
use crate::fillings::Fillings;
use crate::medium::Layout;
use crate::player::{Played, Player};
use sector_disk::SectorDevice;
use std::alloc::Global;
use std::test::Fail;
use stores::open;

// A device that is lent to each call, which gives it back.
#[derive(Drop)]
struct Lent<D: SectorDevice> {
    device: Option<D>,
    layout: Layout,
}

impl<D: SectorDevice + Drop> Caller for Lent<D> {
    fn call(&mut self, alloc: Global, call: Call) -> Result<String, Fail> {
        let device = self.device.take().ok_or("a device")?;
        let outcome = if call.word == "open" {
            open(device)
        } else {
            format(device, self.layout, BLOCKS)
        };
        match outcome {
            Ok(store) => {
                self.device = Some(store.into_device());
                Ok(String::from_str(alloc, "ok")?)
            }
            Err((fault, device)) => {
                self.device = Some(device);
                Ok(format!(in alloc; "{fault:?}")?)
            }
        }
    }
}

/// Opens an image (`open`) or formats one of 32 blocks (`format`).
#[derive(Clone, Copy)]
pub struct ImageCalls {
    /// The layout of the image that is formatted.
    pub layout: Layout,
}

impl Player for ImageCalls {
    fn play<D: SectorDevice + Drop>(
        &self,
        alloc: Global,
        rows: &str,
        device: D,
        start: Fillings,
    ) -> Result<Played<D>, Fail> {
        let mut lent = Lent {
            device: Some(device),
            layout: self.layout,
        };
        let (answers, told) = follow(alloc, rows, &mut lent, start)?;
        let device = lent.device.take().ok_or("a device")?;
        Ok(Played {
            device,
            answers,
            told,
        })
    }
}
