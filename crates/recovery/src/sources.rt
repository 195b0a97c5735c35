// Where the blocks of a new image come from.
ghost use Rattle.std.specs.Prelude.{◌≡◌, ◌<◌, ◌+◌, ℕ, List, IsTrue, OnOk, replicate, ⊤};
ghost use Rattle.sector_disk.specs.Counting.{CountsFailure};
ghost use Rattle.sector_disk.specs.Disk.{Image};
ghost use Rattle.journal.specs.Calls.{ReadsAtMost};
ghost use Rattle.journal.specs.Layout.{most_blocks};
ghost use Rattle.recovery.specs.Steps.{OnlyRead};

use sector_disk::{DeviceFault, SectorDevice};

/// Gives the blocks of a new image, by reads alone of a device that is passed to each call.
/// Rule: DECISIONS, The device and the image.
pub trait Source {
    /// How many sectors that device has.
    ghost sectors_of: { Self → ℕ };

    /// The bytes of each block, by what the device holds.
    ghost bytes_in: { Self → Image → ℕ → List ℕ };

    /// How many reads each block takes at most.
    ghost reads_in: { Self → Image → ℕ → ℕ };

    /// What it has noted of the first so many blocks, and that it gives the same blocks as at first: first as it was,
    /// then as it is.
    ghost has_noted: { Self → Self → Image → ℕ → Type 0 };

    /// Gives the 1,024 bytes of block `b`, a number below 3,840. `DeviceFault` where a read failed; they are then any
    /// bytes.
    fn fetch<A: SectorDevice>(
        &mut self,
        device: &mut A,
        b: u16,
        bytes: &mut [u8; 1024],
    ) -> Result<(), DeviceFault>
        requires below { b < most_blocks }
        requires size { A.sector_count device.old ≡ sectors_of self.old }
        ensures given { IsTrue (A.keeps_model device.old)
            → OnOk result (bytes.new ≡ bytes_in self.old (A.disk device.old).content b) }
        ensures noted { IsTrue (A.keeps_model device.old) → (first : Self) → has_noted first self.old (A.disk device.old).content b
            → OnOk result (has_noted first self.new (A.disk device.old).content (b + 1)) }
        ensures same_size { sectors_of self.new ≡ sectors_of self.old }
        ensures same_bytes { bytes_in self.new ≡ bytes_in self.old }
        ensures same_reads { reads_in self.new ≡ reads_in self.old }
        ensures only_read { OnlyRead A.SectorDevice device.old device.new }
        ensures failures { CountsFailure (A.failures device.old) (A.failures device.new) result }
        ensures reads { IsTrue (A.keeps_model device.old)
            → ReadsAtMost A.SectorDevice device.old device.new (reads_in self.old (A.disk device.old).content b) };
}

/// Blank blocks, which no device is read for.
#[derive(Clone, Copy)]
pub struct Blanks;

impl Source for Blanks {
    ghost sectors_of = { λ s. 0 };

    ghost bytes_in = { λ s image b. replicate 1024 32 };

    ghost reads_in = { λ s image b. 0 };

    ghost has_noted = { λ first now image count. ⊤ };

    fn fetch<A: SectorDevice>(
        &mut self,
        _device: &mut A,
        _b: u16,
        bytes: &mut [u8; 1024],
    ) -> Result<(), DeviceFault> {
        *bytes = [b' '; 1024];
        Ok(())
    }
}
