// Disks and images in memory.
ghost use Rattle.std.specs.Prelude.{◌≡◌, ◌↔◌, ◌<◌, ◌+◌, ◌*◌, IsOk, IsTrue, IfOk, OnOk};
ghost use Rattle.sector_disk.specs.Disk.{written};
ghost use Rattle.sector_disk.specs.MemoryDisk.{size};
ghost use Rattle.journal.specs.PageLayout.{sectors_for};

use crate::medium::Layout;
use journal::layout::MOST_BLOCKS;
use journal::pages::layout::sectors_for;
use recovery::OpenFault;
use sector_disk::{MemoryDisk, SectorDevice};
use std::test::Fail;
use stores::{Store, open};

/// How many blocks an image of these tests has where nothing else is said.
pub const BLOCKS: u16 = 32;

/// How many sectors such an image of layout 2 has.
pub const SECTORS: u32 = 131;

/// An error where it isn't so.
pub fn check(is_so: bool, message: &'static str) -> Result<(), Fail>
    ensures { IsOk result ↔ IsTrue is_so }
{
    if is_so { Ok(()) } else { Err(message)? }
}

/// A sector's bytes, or an error where there is no such sector or it can't be read.
pub fn sector<D: SectorDevice>(disk: &mut D, k: u32) -> Result<[u8; 512], &'static str>
    ensures there { IsOk result → k < D.sector_count disk.old }
    ensures bytes { IsTrue (D.keeps_model disk.old) → IfOk result (λ bytes. bytes ≡ (D.disk disk.old).content k) }
    ensures disk { IsTrue (D.keeps_model disk.old) → D.disk disk.new ≡ D.disk disk.old }
{
    let mut bytes = [0; 512];
    if k >= disk.sectors() {
        return Err("no such sector");
    }
    match disk.read(k, &mut bytes) {
        Ok(()) => Ok(bytes),
        Err(_) => Err("read failed"),
    }
}

/// Writes a sector, or gives an error where there is no such sector or it can't be written.
pub fn put<D: SectorDevice>(disk: &mut D, k: u32, bytes: &[u8; 512]) -> Result<(), &'static str>
    ensures there { IsOk result → k < D.sector_count disk.old }
    ensures ok { IsTrue (D.keeps_model disk.old)
        → OnOk result (D.disk disk.new ≡ written (D.disk disk.old) k bytes.now) }
{
    if k >= disk.sectors() {
        return Err("no sector to write");
    }
    disk.write(k, bytes).map_err(|_| "write failed")
}

/// A block's bytes, or an error where there is no such block or it can't be read.
pub fn block<D: SectorDevice>(store: &mut Store<D>, b: u16) -> Result<[u8; 1024], Fail> {
    let mut bytes = [0; 1024];
    if b >= store.blocks() {
        return Err("no such block")?;
    }
    store.read_block(b, &mut bytes)?;
    Ok(bytes)
}

/// Spills a block that is full of this byte, or gives an error where there is no such block or it can't be spilled.
pub fn spill<D: SectorDevice>(store: &mut Store<D>, b: u16, byte: u8) -> Result<(), &'static str> {
    if b >= store.blocks() {
        return Err("no such block");
    }
    store.spill(b, &[byte; 1024]).map_err(|_| "spill failed")
}

/// A disk of zeros with as many sectors as an image of so many blocks has by this layout. An error past 3,840 blocks, and where
/// there is no memory.
pub fn zeros(rt: &HostRuntime, layout: Layout, blocks: u16) -> Result<MemoryDisk, Fail>
    ensures older { layout ≡ Layout.Older → IfOk result (λ d. size d ≡ 3 + 4 * blocks) }
    ensures newer { layout ≡ Layout.Newer → IfOk result (λ d. size d ≡ sectors_for blocks) }
{
    if blocks > MOST_BLOCKS {
        return Err("too many blocks")?;
    }
    let sectors = match layout {
        Layout::Older => 3 + 4 * blocks as u32,
        Layout::Newer => sectors_for(blocks),
    };
    Ok(MemoryDisk::new(rt.alloc(), sectors)?)
}

/// Makes an image of so many blank blocks by this layout, or tells why it isn't made, and gives the device back.
pub fn format<D: SectorDevice>(
    device: D,
    layout: Layout,
    blocks: u16,
) -> Result<Store<D>, (OpenFault, D)> {
    match layout {
        Layout::Older => recovery::format(device, blocks),
        Layout::Newer => shadow::format(device, blocks),
    }
}

/// An image of so many blank blocks by this layout, of which nothing is unsynced.
pub fn formatted_by(rt: &HostRuntime, layout: Layout, blocks: u16) -> Result<MemoryDisk, Fail> {
    match format(zeros(rt, layout, blocks)?, layout, blocks) {
        Ok(store) => Ok(store.into_device()),
        Err((fault, _)) => Err(fault)?,
    }
}

/// An image of so many blank blocks by layout 2, of which nothing is unsynced.
pub fn formatted_with(rt: &HostRuntime, blocks: u16) -> Result<MemoryDisk, Fail> {
    formatted_by(rt, Layout::Older, blocks)
}

/// An image of 32 blank blocks by layout 2, of which nothing is unsynced.
pub fn formatted(rt: &HostRuntime) -> Result<MemoryDisk, Fail> {
    formatted_with(rt, BLOCKS)
}

/// The store of an image of either layout, or why it isn't opened.
pub fn opened<D: SectorDevice + Drop>(device: D) -> Result<Store<D>, OpenFault> {
    open(device).map_err(|refused| refused.0)
}
