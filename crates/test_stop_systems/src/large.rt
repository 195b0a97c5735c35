// The largest image: each of its blocks is written and saved, four at a time, and read back.
use sector_disk::MemoryDisk;
use std::test::Fail;
use test_stops::disks::{block, opened};
use test_stops::report::Report;

/// Compares the blocks of an image: each is full of the low byte of its number, and holds its number at its beginning.
pub fn are_numbered(rt: &HostRuntime, disk: MemoryDisk, report: &mut Report) -> Result<(), Fail> {
    let mut store = opened(disk)?;
    report.images = report.images.saturating_add(1);
    for b in 0..store.blocks() {
        let [low, high] = u16::to_le_bytes(b);
        let mut wanted = [low; 1024];
        wanted[1] = high;
        if block(&mut store, b)? != wanted {
            report.tell(&format!(in rt.alloc(); "block {b} holds something else")?)?;
        }
    }
    Ok(())
}
