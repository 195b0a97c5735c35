// Images of layout 3 that are read whole while another program writes them.
ghost use Rattle.std.specs.Prelude.{◌≡◌, ◌≢◌, ◌*◌, ℕ, suc, List, Option, Some, None, Err, true, false, IfErr, IfOk, OnOk, OnErr, length};
ghost use Rattle.sector_disk.specs.FileBytes.{disk_of_file};
ghost use Rattle.sector_disk.specs.Opening.{sectors_in};
ghost use Rattle.shadow.specs.Label.{is_size};
ghost use Rattle.stores.specs.Images.{HasMeaning};
ghost use Rattle.image_care.specs.Seen.{GaveNoImage, IsOneOf, IsWholeImage, NoneIsWhole, still};

use crate::looking::look;
use crate::still_disk::StillDisk;
use journal::pages::layout::blocks_of_size;
use sector_disk::{FileFault, HostFault};
use std::alloc::Global;
use std::fs::File;
use std::os::unix::fs::FileExt;

/// How often a file is read before it counts as in use.
const TRIES: u32 = 64;

/// A file that is read from its beginning on, again and again, while another program may write it.
/// Rule: IMAGE, A look while it runs.
pub trait Readings {
    /// What the readings from now on may give of so many bytes, each by its number: none where it fails. Of a file of a
    /// system nothing is known.
    ghost gives: { Self → ℕ → ℕ → Option (List ℕ) → Type 0 };

    /// Reads as many bytes as there is room for. An error where the reading failed; the bytes may be any then.
    fn read(&mut self, bytes: &mut [u8]) -> Result<(), HostFault>
        ensures long { length bytes.new ≡ length bytes.old }
        ensures given { OnOk result (gives self.old (length bytes.old) 0 (Some bytes.new)) }
        ensures failed { OnErr result (gives self.old (length bytes.old) 0 None) }
        ensures later { (room k : ℕ) (what : Option (List ℕ)) → gives self.new room k what → gives self.old room (suc k) what };
}

// The readings of a file of this system. Of what they give nothing is claimed.
#[derive(Drop)]
pub(crate) struct FileReadings<'a> {
    pub(crate) file: &'a File,
}

impl Readings for FileReadings<'_> {
    ghost gives = { λ readings room k what. Unit {0} };

    // From another place the bytes would be no whole image, and then a look while a session saves finds none either
    // (`trials/terminal`).
    fn read(&mut self, bytes: &mut [u8]) -> Result<(), HostFault> {
        match self.file.read_exact_at(bytes, 0) {
            Ok(()) => Ok(()),
            Err(_) => Err(HostFault::Failed),
        }
    }
}

/// The readings of bytes in memory, which nobody writes: each gives the first ones, where there are so many.
///
/// What they give is known, so what is said of readings is said of these.
/// Rule: IMAGE, A look while it runs.
#[derive(Clone, Copy)]
pub struct StillReadings<'a> {
    bytes: &'a [u8],
}

impl<'a> StillReadings<'a> {
    /// The readings of these bytes.
    pub fn new(bytes: &'a [u8]) -> StillReadings<'a>
        ensures { result.bytes.now ≡ bytes.now }
    {
        StillReadings { bytes }
    }
}

impl Readings for StillReadings<'_> {
    ghost use Rattle.image_care.specs.Seen.{IsReadOf};

    ghost gives = { λ readings room k what. IsReadOf readings.bytes.now room what };

    fn read(&mut self, bytes: &mut [u8]) -> Result<(), HostFault> {
        let room = bytes.len();
        if self.bytes.len() < room {
            return Err(HostFault::Failed);
        }
        bytes.copy_from_slice(&self.bytes[..room]);
        Ok(())
    }
}

// What was read.
#[derive(Clone, Copy)]
enum Reading {
    // A whole image.
    Whole,
    // None: the reading failed, or what another program wrote meanwhile lies over the bytes.
    Torn,
}

// What these bytes are, as so many sectors. No read of them fails, so a look that is refused has found no image.
fn seen_in(bytes: &[u8], sectors: u32) -> Reading
    requires newer { is_size sectors ≡ true }
    ensures whole { result ≡ Reading.Whole → HasMeaning sectors (disk_of_file (still bytes.now)).content }
    ensures torn { result ≡ Reading.Torn → HasMeaning sectors (disk_of_file (still bytes.now)).content → ⊥ }
{
    match look(&mut StillDisk::new(bytes, sectors)) {
        Ok(_) => Reading::Whole,
        Err(_fault) => Reading::Torn,
    }
}

// Reads so many sectors once.
fn read_once<R: Readings>(readings: &mut R, bytes: &mut [u8], sectors: u32) -> Reading
    requires newer { is_size sectors ≡ true }
    requires long { length bytes.old ≡ 512 * sectors }
    ensures long { length bytes.new ≡ length bytes.old }
    ensures whole { result ≡ Reading.Whole → HasMeaning sectors (disk_of_file (still bytes.new)).content }
    ensures given { result ≡ Reading.Whole → R.gives readings.old (512 * sectors) 0 (Some bytes.new) }
    ensures torn { result ≡ Reading.Torn → GaveNoImage sectors (R.gives readings.old (512 * sectors) 0) }
    ensures later { (room k : ℕ) (what : Option (List ℕ)) → R.gives readings.new room k what
        → R.gives readings.old room (suc k) what }
{
    match readings.read(bytes) {
        Ok(()) => seen_in(bytes, sectors),
        Err(_) => Reading::Torn,
    }
}

// Reads them so often, up to the first time that they are a whole image.
fn read_until_whole<R: Readings>(
    readings: &mut R,
    bytes: &mut [u8],
    sectors: u32,
    tries: u32,
) -> Reading
    requires newer { is_size sectors ≡ true }
    requires long { length bytes.old ≡ 512 * sectors }
    ensures long { length bytes.new ≡ length bytes.old }
    ensures whole { result ≡ Reading.Whole → HasMeaning sectors (disk_of_file (still bytes.new)).content }
    ensures given { result ≡ Reading.Whole → IsOneOf tries (R.gives readings.old (512 * sectors)) bytes.new }
    ensures torn { result ≡ Reading.Torn → NoneIsWhole sectors tries (R.gives readings.old (512 * sectors)) }
{
    if tries == 0 {
        return Reading::Torn;
    }
    match read_once(readings, bytes, sectors) {
        Reading::Whole => Reading::Whole,
        Reading::Torn => read_until_whole(readings, bytes, sectors, tries - 1),
    }
}

/// Reads an image of layout 3 whole, of so many sectors, while another program may write it. What that one writes
/// meanwhile may lie over what is read: then it is read again. `InUse` where each of 64 readings gave no image or
/// failed, and `Cannot` where there is no memory: then nothing was read.
/// Rule: IMAGE, A look while it runs.
pub fn read_whole<R: Readings>(
    alloc: Global,
    readings: &mut R,
    sectors: u32,
) -> Result<Vec<u8>, FileFault>
    requires newer { is_size sectors ≡ true }
    ensures whole { IfOk result (λ bytes. IsWholeImage bytes.items) }
    ensures given { IfOk result (λ bytes. IsOneOf 64 (R.gives readings.old (512 * sectors)) bytes.items) }
    ensures in_use { IfErr result (λ fault. fault ≡ FileFault.InUse
        → NoneIsWhole sectors 64 (R.gives readings.old (512 * sectors))) }
    // After a reading that changes them it is never told as a file that can't be opened.
    ensures cannot { IfErr result (λ fault. fault ≡ FileFault.Cannot → readings.new ≡ readings.old) }
    ensures fault { IfErr result (λ fault. fault ≢ FileFault.Exists) }
{
    let mut bytes = vec![in alloc; 0; 512 * sectors as usize].map_err(|_| FileFault::Cannot)?;
    match read_until_whole(readings, &mut bytes, sectors, TRIES) {
        Reading::Whole => Ok(bytes),
        Reading::Torn => Err(FileFault::InUse),
    }
}

// How many sectors a file of this length has, as where it is opened.
fn sectors_in(len: u64) -> u32
    ensures { result ≡ sectors_in len }
{
    if len % 512 != 0 {
        return 0;
    }
    u32::try_from(len / 512).unwrap_or(0)
}

/// Reads the image of layout 3 that a file of this length has, with no lock, as `read_whole`. `InUse` too where that is
/// not the length of such an image.
/// Rule: IMAGE, A look while it runs.
pub fn read_whole_file<R: Readings>(
    alloc: Global,
    readings: &mut R,
    len: u64,
) -> Result<Vec<u8>, FileFault>
    ensures whole { IfOk result (λ bytes. IsWholeImage bytes.items) }
    ensures given { IfOk result (λ bytes. IsOneOf 64 (R.gives readings.old (512 * sectors_in len)) bytes.items) }
    ensures in_use { IfErr result (λ fault. fault ≡ FileFault.InUse → is_size (sectors_in len) ≡ true
        → NoneIsWhole (sectors_in len) 64 (R.gives readings.old (512 * sectors_in len))) }
    ensures no_image { is_size (sectors_in len) ≡ false → result ≡ Err FileFault.InUse }
    // After a reading that changes them it is never told as a file that can't be opened.
    ensures cannot { IfErr result (λ fault. fault ≡ FileFault.Cannot → readings.new ≡ readings.old) }
    ensures fault { IfErr result (λ fault. fault ≢ FileFault.Exists) }
{
    let sectors = sectors_in(len);
    match blocks_of_size(sectors) {
        Some(_) => read_whole(alloc, readings, sectors),
        None => Err(FileFault::InUse),
    }
}
