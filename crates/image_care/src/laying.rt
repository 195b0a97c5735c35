// An image is made of the blocks that a source gives, by the layout that its size tells.
ghost use Rattle.std.specs.Prelude.{◌≡◌, IsTrue, OnOk};
ghost use Rattle.sector_disk.specs.Disk.{Image, MayLeave};
ghost use Rattle.journal.specs.BySize.{Means};
ghost use Rattle.journal.specs.Calls.{StopsLeave, ReadsAtMost};
ghost use Rattle.journal.specs.Images.{blocks_below};
ghost use Rattle.journal.specs.Suits.{suits};
ghost use Rattle.recovery.specs.Making.{Carries, reads_below};
ghost use Rattle.journal.specs.Layouts.{sectors_for};
ghost use Rattle.image_care.specs.Made.{IsMade, KeepsRest, MakingLeaves, writes_to_make};

use journal::sizes::{Layout, Size};
use recovery::{Homes, Source, UpgradeFault, make};
use sector_disk::SectorDevice;
use shadow::Places;

// Makes an image of this size. A stop leaves no good label, or what was there, by layout 3 but for the other sectors in the
// label's unit, or all of the new image.
pub(crate) fn lay<S: Source, A: SectorDevice, B: SectorDevice>(
    source: &mut S,
    old: &mut A,
    new: &mut B,
    size: Size,
) -> Result<(), UpgradeFault>
    requires from { A.sector_count old.old ≡ S.sectors_of source.old }
    requires to { B.sector_count new.old ≡ sectors_for size.layout size.blocks.number }
    requires unnoted { S.has_noted source.old source.old (A.disk old.old).content 0 }
    ensures made { IsTrue (A.keeps_model old.old) → IsTrue (suits B.SectorDevice new.old) → OnOk result
        (IsMade (B.sector_count new.old)
        (blocks_below (S.bytes_in source.old (A.disk old.old).content) size.blocks.number) (B.disk new.new)) }
    ensures after { IsTrue (A.keeps_model old.old) → IsTrue (suits B.SectorDevice new.old)
        → OnOk result ((image : Image) → MayLeave (B.disk new.new) image → Means (B.sector_count new.old)
        (blocks_below (S.bytes_in source.old (A.disk old.old).content) size.blocks.number) image) }
    ensures rest { IsTrue (suits B.SectorDevice new.old) → OnOk result
        (KeepsRest (B.sector_count new.old) (B.disk new.old).content (B.disk new.new).content) }
    ensures stops { IsTrue (A.keeps_model old.old) → IsTrue (suits B.SectorDevice new.old)
        → StopsLeave B.SectorDevice new.old new.new (MakingLeaves (B.sector_count new.old)
        (blocks_below (S.bytes_in source.old (A.disk old.old).content) size.blocks.number) (B.disk new.old)) }
    ensures noted { IsTrue (A.keeps_model old.old)
        → OnOk result (S.has_noted source.old source.new (A.disk old.old).content size.blocks.number) }
    ensures carries { Carries A.SectorDevice B.SectorDevice old.old old.new new.old new.new
        (writes_to_make (B.sector_count new.old)) 4 1 result }
    ensures reads { IsTrue (A.keeps_model old.old) → ReadsAtMost A.SectorDevice old.old old.new
        (reads_below (S.reads_in source.old (A.disk old.old).content) size.blocks.number) }
{
    match size.layout {
        Layout::Journal => make(source, old, &mut Homes, new, size.blocks),
        Layout::Pages => make(source, old, &mut Places::new(), new, size.blocks),
    }
}
