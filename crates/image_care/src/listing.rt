// What stands before the blocks of an image: its label, and the record of the save that is under way.
ghost use Rattle.std.specs.Prelude.{◌≡◌, ◌≢◌, ◌⊎◌, ◌≤◌, ◌+◌, ◌*◌, true, None, Some, IsTrue, OnOk, IfOk, IfErr, MatchResult};
ghost use Rattle.sector_disk.specs.Counting.{count_up};
ghost use Rattle.sector_disk.specs.Disk.{MayLeave};
ghost use Rattle.journal.specs.Chain.{HasMeaning};
ghost use Rattle.journal.specs.Calls.{StopsLeave, BeginsAtMost, ReadsAtMost, CostsAtMost, Proceeds};
ghost use Rattle.journal.specs.Layout.{sectors_for, label_by, gate_open, count_listed};
ghost use Rattle.recovery.specs.Label.{label_refusal, label_refusal_by};
ghost use Rattle.recovery.specs.Opened.{damage_refusal, first_of};
ghost use Rattle.recovery.specs.Steps.{OnlyRead};
ghost use Rattle.recovery.specs.declared.fault.OpenFault.{OpenFault};
ghost use Rattle.recovery.specs.declared.fault.OpenFault.TheVariants.{BadSize, Device};
ghost use Rattle.image_care.specs.Examined.{record_in, reads_to_list};

use journal::layout::{BlockCount, GATE, LABEL, VERSION, gate_is_open};
use recovery::{OpenFault, check_label, read_record};
use sector_disk::SectorDevice;

// Reads the label, and looks at it by the layout of this version.
pub(crate) fn read_label<D: SectorDevice>(
    device: &mut D,
    version: u16,
    blocks: u16,
) -> Result<(), OpenFault>
    requires { 3 ≤ D.sector_count device.old }
    ensures ok { IsTrue (D.keeps_model device.old)
        → OnOk result ((D.disk device.old).content 0 ≡ label_by version blocks) }
    ensures exact { IsTrue (D.keeps_model device.old) → MatchResult result
        (λ _. label_refusal_by version blocks ((D.disk device.old).content 0) ≡ None)
        (λ e. (e ≡ Device) ⊎ (label_refusal_by version blocks ((D.disk device.old).content 0) ≡ Some e)) }
    ensures sized { IfErr result (λ e. e ≢ BadSize) }
    ensures device { IfErr result (λ e. e ≡ Device → D.failures device.new ≡ count_up (D.failures device.old)) }
    ensures refused { IfErr result (λ e. e ≢ Device → D.failures device.new ≡ D.failures device.old) }
    ensures well { OnOk result (D.failures device.new ≡ D.failures device.old) }
    ensures disk { IsTrue (D.keeps_model device.old) → D.disk device.new ≡ D.disk device.old }
    ensures stops { IsTrue (D.keeps_model device.old)
        → StopsLeave D.SectorDevice device.old device.new (MayLeave (D.disk device.old)) }
    ensures passes { Proceeds D.SectorDevice device.old device.new }
    ensures costs { CostsAtMost D.SectorDevice device.old device.new 0 0 1 }
{
    let mut label = [0; 512];
    device.read(LABEL, &mut label)?;
    check_label(&label, version, blocks)
}

// The record under an open gate.
fn take_record<D: SectorDevice>(
    device: &mut D,
    blocks: BlockCount,
) -> Result<Option<[u8; 512]>, OpenFault>
    requires size { D.sector_count device.old ≡ sectors_for blocks.number }
    requires gate { IsTrue (D.keeps_model device.old) → gate_open ((D.disk device.old).content 1) ≡ true }
    ensures ok { IsTrue (D.keeps_model device.old)
        → IfOk result (λ listing. listing ≡ Some ((D.disk device.old).content 2)) }
    ensures exact { IsTrue (D.keeps_model device.old) → MatchResult result
        (λ _. damage_refusal blocks.number (D.disk device.old).content ≡ None)
        (λ e. (e ≡ Device) ⊎ (damage_refusal blocks.number (D.disk device.old).content ≡ Some e)) }
    ensures sized { IfErr result (λ e. e ≢ BadSize) }
    ensures device { IfErr result (λ e. e ≡ Device → D.failures device.new ≡ count_up (D.failures device.old)) }
    ensures refused { IfErr result (λ e. e ≢ Device → D.failures device.new ≡ D.failures device.old) }
    ensures well { OnOk result (D.failures device.new ≡ D.failures device.old) }
    ensures disk { IsTrue (D.keeps_model device.old) → D.disk device.new ≡ D.disk device.old }
    ensures stops { IsTrue (D.keeps_model device.old)
        → StopsLeave D.SectorDevice device.old device.new (MayLeave (D.disk device.old)) }
    ensures passes { Proceeds D.SectorDevice device.old device.new }
    ensures begins { BeginsAtMost D.SectorDevice device.old device.new 0 0 }
    ensures reads { IsTrue (D.keeps_model device.old)
        → ReadsAtMost D.SectorDevice device.old device.new (2 * count_listed ((D.disk device.old).content 2) blocks.number + 1) }
{
    let mut record = [0; 512];
    read_record(device, VERSION, blocks, &mut record)?;
    Ok(Some(record))
}

// The record of the save that is under way, where the gate tells of one.
pub(crate) fn read_listing<D: SectorDevice>(
    device: &mut D,
    blocks: BlockCount,
) -> Result<Option<[u8; 512]>, OpenFault>
    requires size { D.sector_count device.old ≡ sectors_for blocks.number }
    ensures ok { IsTrue (D.keeps_model device.old)
        → IfOk result (λ listing. listing ≡ record_in (D.disk device.old).content) }
    ensures exact { IsTrue (D.keeps_model device.old) → MatchResult result
        (λ _. damage_refusal blocks.number (D.disk device.old).content ≡ None)
        (λ e. (e ≡ Device) ⊎ (damage_refusal blocks.number (D.disk device.old).content ≡ Some e)) }
    ensures sized { IfErr result (λ e. e ≢ BadSize) }
    ensures device { IfErr result (λ e. e ≡ Device → D.failures device.new ≡ count_up (D.failures device.old)) }
    ensures refused { IfErr result (λ e. e ≢ Device → D.failures device.new ≡ D.failures device.old) }
    ensures well { OnOk result (D.failures device.new ≡ D.failures device.old) }
    ensures disk { IsTrue (D.keeps_model device.old) → D.disk device.new ≡ D.disk device.old }
    ensures stops { IsTrue (D.keeps_model device.old)
        → StopsLeave D.SectorDevice device.old device.new (MayLeave (D.disk device.old)) }
    ensures passes { Proceeds D.SectorDevice device.old device.new }
    ensures begins { BeginsAtMost D.SectorDevice device.old device.new 0 0 }
    ensures reads { IsTrue (D.keeps_model device.old)
        → ReadsAtMost D.SectorDevice device.old device.new (reads_to_list blocks.number (D.disk device.old).content) }
{
    let mut gate = [0; 512];
    device.read(GATE, &mut gate)?;
    if gate_is_open(&gate) {
        take_record(device, blocks)
    } else {
        Ok(None)
    }
}

// Reads the label of an image of layout 2, and the record of the save that is under way. What an opening refuses is refused.
pub(crate) fn find<D: SectorDevice>(
    device: &mut D,
    blocks: BlockCount,
) -> Result<Option<[u8; 512]>, OpenFault>
    requires size { D.sector_count device.old ≡ sectors_for blocks.number }
    ensures ok { IsTrue (D.keeps_model device.old)
        → IfOk result (λ listing. listing ≡ record_in (D.disk device.old).content) }
    ensures meaning { IsTrue (D.keeps_model device.old)
        → OnOk result (HasMeaning blocks.number (D.disk device.old).content) }
    ensures exact { IsTrue (D.keeps_model device.old) → MatchResult result
        (λ _. first_of (label_refusal blocks.number ((D.disk device.old).content 0)) (damage_refusal blocks.number (D.disk device.old).content) ≡ None)
        (λ e. (e ≡ Device)
        ⊎ (first_of (label_refusal blocks.number ((D.disk device.old).content 0)) (damage_refusal blocks.number (D.disk device.old).content) ≡ Some e)) }
    ensures sized { IfErr result (λ e. e ≢ BadSize) }
    ensures device { IfErr result (λ e. e ≡ Device → D.failures device.new ≡ count_up (D.failures device.old)) }
    ensures refused { IfErr result (λ e. e ≢ Device → D.failures device.new ≡ D.failures device.old) }
    ensures well { OnOk result (D.failures device.new ≡ D.failures device.old) }
    ensures only_read { OnlyRead D.SectorDevice device.old device.new }
    ensures reads { IsTrue (D.keeps_model device.old)
        → ReadsAtMost D.SectorDevice device.old device.new (reads_to_list blocks.number (D.disk device.old).content + 1) }
{
    read_label(device, VERSION, blocks.number)?;
    read_listing(device, blocks)
}
