// How a new image is laid on a device.
ghost use Rattle.std.specs.Prelude.{◌≡◌, ◌≢◌, ◌<◌, ◌+◌, ℕ, List, IsTrue, OnOk};
ghost use Rattle.sector_disk.specs.Disk.{Image};
ghost use Rattle.recovery.specs.Making.{IsApart, Lays};
ghost use Rattle.journal.specs.Layouts.{asks, label_of, sectors_for};
ghost use Rattle.journal.specs.declared.sizes.Layout.{Layout};

use journal::layout::BlockCount;
use sector_disk::{DeviceFault, SectorDevice};

/// Lays the parts of an image where its layout has them, all but its label: what goes before the blocks, each block in
/// rising order, and what goes after them.
/// Rule: IMAGE, A format; IMAGE, Layout 3, A format; DECISIONS, The device and the image.
pub trait Target {
    /// The layout of the image.
    ghost layout: { Layout };

    /// How many writes lay a block.
    ghost block_writes: { ℕ };

    /// How many writes go before the blocks, and how many after them.
    ghost first_writes: { ℕ };

    ghost last_writes: { ℕ };

    /// In an image of so many blocks this sector is left as it was.
    ghost is_left: { ℕ → ℕ → Type 0 };

    /// In an image of so many blocks the first ones, this many, have these bytes.
    ghost has_laid: { Self → ℕ → ℕ → (ℕ → List ℕ) → Image → Type 0 };

    /// An image of so many blocks has these bytes in them, and all else but its label.
    ghost has_filled: { Self → ℕ → (ℕ → List ℕ) → Image → Type 0 };

    /// The label of an image with so many blocks.
    fn label(&self, blocks: BlockCount) -> [u8; 512]
        ensures { result ≡ label_of layout blocks.number };

    /// Writes what goes before the blocks of an image with so many. Nothing is synced. `DeviceFault` where a write
    /// failed; it ends there.
    fn begin<D: SectorDevice>(
        &mut self,
        device: &mut D,
        blocks: BlockCount,
    ) -> Result<(), DeviceFault>
        requires { D.sector_count device.old ≡ sectors_for layout blocks.number }
        ensures begun { IsTrue (asks D.SectorDevice layout device.old)
            → OnOk result ((given : ℕ → List ℕ) → has_laid self.new blocks.number 0 given (D.disk device.new).content) }
        ensures left { IsTrue (asks D.SectorDevice layout device.old) → OnOk result
            ((k : ℕ) → is_left blocks.number k → (D.disk device.new).content k ≡ (D.disk device.old).content k) }
        ensures lays { Lays D.SectorDevice layout device.old device.new first_writes result };

    /// Writes the 1,024 bytes of block `b`, which is one of so many. Nothing is synced. `DeviceFault` where a write
    /// failed; it ends there.
    fn lay_block<D: SectorDevice>(
        &mut self,
        device: &mut D,
        blocks: BlockCount,
        b: u16,
        bytes: &[u8; 1024],
    ) -> Result<(), DeviceFault>
        requires below { b < blocks.number }
        requires size { D.sector_count device.old ≡ sectors_for layout blocks.number }
        ensures laid { IsTrue (asks D.SectorDevice layout device.old)
            → (given : ℕ → List ℕ) → bytes.now ≡ given b → has_laid self.old blocks.number b given (D.disk device.old).content
            → OnOk result (has_laid self.new blocks.number (b + 1) given (D.disk device.new).content) }
        ensures left { IsTrue (asks D.SectorDevice layout device.old) → OnOk result
            ((k : ℕ) → is_left blocks.number k → (D.disk device.new).content k ≡ (D.disk device.old).content k) }
        ensures lays { Lays D.SectorDevice layout device.old device.new block_writes result };

    /// Writes what goes after the blocks of an image with so many. Nothing is synced. `DeviceFault` where a write
    /// failed; it ends there.
    fn finish<D: SectorDevice>(
        &mut self,
        device: &mut D,
        blocks: BlockCount,
    ) -> Result<(), DeviceFault>
        requires { D.sector_count device.old ≡ sectors_for layout blocks.number }
        ensures filled { IsTrue (asks D.SectorDevice layout device.old)
            → (given : ℕ → List ℕ) → has_laid self.old blocks.number blocks.number given (D.disk device.old).content
            → OnOk result (has_filled self.new blocks.number given (D.disk device.new).content) }
        ensures left { IsTrue (asks D.SectorDevice layout device.old) → OnOk result
            ((k : ℕ) → is_left blocks.number k → (D.disk device.new).content k ≡ (D.disk device.old).content k) }
        ensures lays { Lays D.SectorDevice layout device.old device.new last_writes result };

    /// The label isn't left as it was.
    ghost left_apart: { (n k : ℕ) → is_left n k → k ≢ 0 };

    /// What an image holds lies apart from its label.
    ghost filled_apart: { (target : Self) (n : ℕ) (given : ℕ → List ℕ) (old new : Image)
        → has_filled target n given old → ((k : ℕ) → IsApart layout k → new k ≡ old k) → has_filled target n given new };
}
