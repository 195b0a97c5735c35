// What counts in an image, found by reads alone.
ghost use Rattle.std.specs.Prelude.{◌≡◌, ◌⊎◌, ◌+◌, ◌*◌, IsTrue, IfOk, MatchResult};
ghost use Rattle.journal.specs.Calls.{ReadsAtMost};
ghost use Rattle.journal.specs.PageImages.{record_of};
ghost use Rattle.journal.specs.PageLayout.{sectors_for, gate_at, gate_open};
ghost use Rattle.recovery.specs.Recovered.{Tells};
ghost use Rattle.recovery.specs.Steps.{OnlyRead};
ghost use Rattle.recovery.specs.declared.fault.OpenFault.TheVariants.{Device};
ghost use Rattle.shadow.specs.Opened.{Passes, Refuses};

use crate::listing::read_label;
use journal::layout::BlockCount;
use journal::pages::layout::VERSION;
use recovery::OpenFault;
use sector_disk::SectorDevice;
use shadow::{Found, look};

// Reads the label of an image of layout 3, the gate, the record that it names, and each block that counts. What an opening
// refuses is refused.
pub(crate) fn find<D: SectorDevice>(device: &mut D, blocks: BlockCount) -> Result<Found, OpenFault>
    requires size { D.sector_count device.old ≡ sectors_for blocks.number }
    ensures gate { IsTrue (D.keeps_model device.old)
        → IfOk result (λ found. gate_open ((D.disk device.old).content gate_at) ≡ found.is_open) }
    ensures named { IsTrue (D.keeps_model device.old)
        → IfOk result (λ found. record_of (D.disk device.old).content ≡ found.listing) }
    ensures exact { IsTrue (D.keeps_model device.old) → MatchResult result
        (λ _. Passes blocks.number (D.disk device.old).content)
        (λ e. (e ≡ Device) ⊎ Refuses blocks.number (D.disk device.old).content e) }
    ensures tells { Tells D.SectorDevice device.old device.new 0 result }
    ensures only_read { OnlyRead D.SectorDevice device.old device.new }
    ensures reads { ReadsAtMost D.SectorDevice device.old device.new (3 * blocks.number + 3) }
{
    read_label(device, VERSION, blocks.number)?;
    look(device, blocks.number)
}
