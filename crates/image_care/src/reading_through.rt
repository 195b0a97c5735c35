// An image is read through, sector by sector, whichever of them can be read.
ghost use Rattle.std.specs.Prelude.{◌≡◌, ◌<◌, ◌∷◌, ◌++◌, [], ℕ, IsTrue, OnOk, IfOk, IfErr, length};
ghost use Rattle.sector_disk.specs.Counting.{count_up, count_up_by};
ghost use Rattle.sector_disk.specs.Disk.{MayLeave};
ghost use Rattle.journal.specs.Calls.{StopsLeave, ReadsAtMost, CostsAtMost, Proceeds};
ghost use Rattle.recovery.specs.Steps.{OnlyRead};
ghost use Rattle.image_care.specs.Through.{IsNext, WereHad, blank_sector};

use sector_disk::{DeviceFault, SectorDevice};
use std::alloc::{AllocError, Global};

/// Reads each sector of a device once, in rising order, whatever the reads answer: nothing is written, and nothing
/// synced. Gives the bytes, 512 a sector, with blanks in place of each sector that couldn't be read, and the numbers of
/// those sectors, in rising order. `AllocError` where there is no memory for that; it ends there.
/// Rule: IMAGE, A sector that can't be read.
pub fn read_through<D: SectorDevice>(
    alloc: Global,
    device: &mut D,
) -> Result<(Vec<u8>, Vec<u32>), AllocError>
    // Each sector was had, or is listed.
    ensures were_had { IfOk result (λ read. WereHad (D.keeps_model device.old) (D.disk device.old).content
        (D.sector_count device.old) read.0.items read.1.items) }
    // So many calls failed as sectors are listed.
    ensures failed { IfOk result (λ read. D.failures device.new ≡ count_up_by (length read.1.items) (D.failures device.old)) }
    // Nothing is written or synced, and a stop at any moment leaves what one before could leave.
    ensures only_read { OnlyRead D.SectorDevice device.old device.new }
    ensures once { ReadsAtMost D.SectorDevice device.old device.new (D.sector_count device.old) }
{
    let mut bytes = Vec::new(alloc);
    let mut unread = Vec::new(alloc);
    let sectors = device.sectors();
    for k in 0..sectors {
        add_next(device, k, &mut bytes, &mut unread)?;
    }
    Ok((bytes, unread))
}

// Reads sector `k`, and adds its bytes; or blanks and its number, where it can't be read.
fn add_next<D: SectorDevice>(
    device: &mut D,
    k: u32,
    bytes: &mut Vec<u8>,
    unread: &mut Vec<u32>,
) -> Result<(), AllocError>
    requires below { k < D.sector_count device.old }
    ensures next { OnOk result (IsNext (D.keeps_model device.old) ((D.disk device.old).content k) k
        bytes.old.items unread.old.items bytes.new.items unread.new.items) }
    ensures failed { (first : ℕ) → D.failures device.old ≡ count_up_by (length unread.old.items) first
        → OnOk result (D.failures device.new ≡ count_up_by (length unread.new.items) first) }
    ensures disk { IsTrue (D.keeps_model device.old) → D.disk device.new ≡ D.disk device.old }
    ensures stops { IsTrue (D.keeps_model device.old)
        → StopsLeave D.SectorDevice device.old device.new (MayLeave (D.disk device.old)) }
    ensures passes { Proceeds D.SectorDevice device.old device.new }
    ensures costs { CostsAtMost D.SectorDevice device.old device.new 0 0 1 }
{
    let mut sector = [0; 512];
    match read_sector(device, k, &mut sector) {
        Ok(()) => add_sector(bytes, &sector),
        Err(_) => add_unread(bytes, unread, k),
    }
}

// Reads sector `k`.
fn read_sector<D: SectorDevice>(
    device: &mut D,
    k: u32,
    out: &mut [u8; 512],
) -> Result<(), DeviceFault>
    requires below { k < D.sector_count device.old }
    ensures bytes { IsTrue (D.keeps_model device.old) → OnOk result (out.new ≡ (D.disk device.old).content k) }
    ensures well { OnOk result (D.failures device.new ≡ D.failures device.old) }
    ensures failed { IfErr result (λ _. D.failures device.new ≡ count_up (D.failures device.old)) }
    ensures disk { IsTrue (D.keeps_model device.old) → D.disk device.new ≡ D.disk device.old }
    ensures stops { IsTrue (D.keeps_model device.old)
        → StopsLeave D.SectorDevice device.old device.new (MayLeave (D.disk device.old)) }
    ensures passes { Proceeds D.SectorDevice device.old device.new }
    ensures costs { CostsAtMost D.SectorDevice device.old device.new 0 0 1 }
{
    device.read(k, out)
}

// Adds the bytes of a sector.
fn add_sector(bytes: &mut Vec<u8>, sector: &[u8; 512]) -> Result<(), AllocError>
    ensures long { length sector.now ≡ 512 }
    ensures bytes { OnOk result (bytes.new.items ≡ bytes.old.items ++ sector.now) }
{
    bytes.extend_from_slice(sector.as_slice())
}

// Adds blanks, and the number of the sector for which they stand.
fn add_unread(bytes: &mut Vec<u8>, unread: &mut Vec<u32>, k: u32) -> Result<(), AllocError>
    ensures bytes { OnOk result (bytes.new.items ≡ bytes.old.items ++ blank_sector) }
    ensures unread { OnOk result (unread.new.items ≡ unread.old.items ++ k ∷ []) }
{
    add_sector(bytes, &[b' '; 512])?;
    unread.push(k)?;
    Ok(())
}
