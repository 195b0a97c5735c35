// Images of layout 3 are laid with each block in its first place.
ghost use Rattle.std.specs.Prelude.{◌≡◌, ◌<◌, ℕ, false, List, replicate};
ghost use Rattle.sector_disk.specs.Disk.{Image};
ghost use Rattle.shadow.specs.Formatted.{IsLeft};
ghost use Rattle.journal.specs.declared.sizes.Layout.TheVariants.{Pages};
ghost use Rattle.shadow.specs.Places.{HasPlaces, HasNamed, places_apart, left_apart};

use crate::formatting::{fill_head, write_block};
use journal::layout::BlockCount;
use journal::pages::layout::{label, with_sum};
use recovery::Target;
use sector_disk::{DeviceFault, SectorDevice};

/// Layout 3: blocks in their first places, with their tags, under a closed gate and a record that names these places.
/// The second places keep their bytes, and lose their tags.
/// Rule: IMAGE, Layout 3, A format.
#[derive(Clone, Copy)]
pub struct Places {
    /// The sum of the tags that are written.
    sum: [u8; 32],
    /// The record that names the places, once it is written.
    pub listing: [u8; 512],
}

impl Places {
    /// One that isn't begun. What it holds counts from `begin` on.
    pub fn new() -> Places {
        Places {
            sum: [0; 32],
            listing: [0; 512],
        }
    }
}

impl Target for Places {
    ghost layout = { Pages };

    ghost block_writes = { 4 };

    ghost first_writes = { 0 };

    ghost last_writes = { 3 };

    ghost is_left = { λ n. IsLeft };

    ghost has_laid = { λ target n count given image. HasPlaces count given target.sum image };

    ghost has_filled = { λ target n given image. HasNamed n given target.listing image };

    ghost left_apart = { left_apart };

    ghost filled_apart = { λ target n given. places_apart n given target.listing };

    fn label(&self, blocks: BlockCount) -> [u8; 512] {
        label(blocks.number)
    }

    fn begin<D: SectorDevice>(
        &mut self,
        _device: &mut D,
        _blocks: BlockCount,
    ) -> Result<(), DeviceFault> {
        self.sum = [0; 32];
        Ok(())
    }

    fn lay_block<D: SectorDevice>(
        &mut self,
        device: &mut D,
        _blocks: BlockCount,
        b: u16,
        bytes: &[u8; 1024],
    ) -> Result<(), DeviceFault> {
        write_block(device, b, bytes, &mut self.sum)
    }

    fn finish<D: SectorDevice>(
        &mut self,
        device: &mut D,
        _blocks: BlockCount,
    ) -> Result<(), DeviceFault> {
        self.listing = with_sum(&[0; 512], &self.sum);
        fill_head(device, &self.listing)
    }
}
