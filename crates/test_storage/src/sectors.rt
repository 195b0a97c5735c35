//! Sectors of a device, read and written by tests.
use sector_disk::SectorDevice;

/// A sector's bytes, or an error where there is no such sector or it can't be read.
pub(crate) fn sector<D: SectorDevice>(disk: &mut D, k: u32) -> Result<[u8; 512], &'static str> {
    let mut bytes = [0; 512];
    if k >= disk.sectors() {
        return Err("no such sector");
    }
    match disk.read(k, &mut bytes) {
        Ok(()) => Ok(bytes),
        Err(_) => Err("read failed"),
    }
}

/// Writes a sector, or gives an error where there is no such sector or it can't be written.
pub(crate) fn put<D: SectorDevice>(
    disk: &mut D,
    k: u32,
    bytes: &[u8; 512],
) -> Result<(), &'static str> {
    if k >= disk.sectors() {
        return Err("no sector to write");
    }
    disk.write(k, bytes).map_err(|_| "write failed")
}
