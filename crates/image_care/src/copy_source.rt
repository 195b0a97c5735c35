// The blocks of an image for a new one, each from where a look has found it.
ghost use Rattle.std.specs.Prelude.{◌≡◌, ◌<◌, ⊤};
ghost use Rattle.recovery.specs.Found.{reads_to_give};
ghost use Rattle.image_care.specs.Taken.{given_by};
ghost use Rattle.image_care.specs.View as of_view;

use crate::view::View;
use journal::read_pair;
use recovery::Source;
use sector_disk::{DeviceFault, SectorDevice};

// With blank blocks above them.
impl Source for View {
    ghost sectors_of = { of_view.sectors_of };

    ghost bytes_in = { given_by };

    ghost reads_in = { λ view image. reads_to_give view.blocks.number };

    ghost has_noted = { λ first now image count. ⊤ };

    fn fetch<A: SectorDevice>(
        &mut self,
        device: &mut A,
        b: u16,
        bytes: &mut [u8; 1024],
    ) -> Result<(), DeviceFault> {
        if b < self.blocks.number {
            read_pair(device, self.place_of(b), bytes)
        } else {
            *bytes = [b' '; 1024];
            Ok(())
        }
    }
}
