//! An image of layout 1 or 2 is recovered.
ghost use Rattle.std.specs.Prelude.{◌≡◌, ◌≢◌, ◌⊎◌, ◌≤◌, ◌+◌, ◌-◌, ◌*◌, ℕ, true, false, Some, None, IsTrue, OnOk, MatchResult};
ghost use Rattle.sector_disk.specs.Disk.{MayLeave};
ghost use Rattle.journal.specs.Calls.{StopsLeave, BeginsAtMost, ReadsAtMost, Proceeds};
ghost use Rattle.journal.specs.Layout.{sectors_for, label_by};
ghost use Rattle.recovery.specs.Opened.{writes_for, syncs_for};
ghost use Rattle.recovery.specs.Recovered.{has_good_record, damage_refusal_by, recovery_refusal, FinishLeaves, LeavesBy, IsRecovered, record_reads, reads_by, Tells};
ghost use Rattle.recovery.specs.declared.fault.OpenFault.{OpenFault};
ghost use Rattle.recovery.specs.declared.fault.OpenFault.TheVariants.{Device, Damaged};

use crate::OpenFault;
use crate::settling::start;
use journal::layout::{BlockCount, GATE, RECORD, VERSION_1, gate_is_open};
use journal::{apply, is_true_record};
use sector_disk::{DeviceFault, SectorDevice};

/// Reads the commit record of an image of so many blocks, by the version of its label, into `bytes`. One that isn't
/// that of its slots is refused (Damaged); by layout 1 nothing tells it, and none is. Device comes where a read failed.
/// After an error `bytes` may be anything.
/// Rule: IMAGE, The bytes; IMAGE, A recovery.
pub fn read_record<D: SectorDevice>(
    device: &mut D,
    version: u16,
    blocks: BlockCount,
    bytes: &mut [u8; 512],
) -> Result<(), OpenFault>
    requires size { D.sector_count device.old ≡ sectors_for blocks.number }
    ensures bytes { IsTrue (D.keeps_model device.old) → OnOk result (bytes.new ≡ (D.disk device.old).content 2) }
    ensures exact { IsTrue (D.keeps_model device.old) → MatchResult result
        (λ _. has_good_record version blocks.number (D.disk device.old).content ≡ true)
        (λ e. (e ≡ Device)
        ⊎ ((e ≡ Damaged) × (has_good_record version blocks.number (D.disk device.old).content ≡ false))) }
    ensures tells { Tells D.SectorDevice device.old device.new 0 result }
    ensures disk { IsTrue (D.keeps_model device.old) → D.disk device.new ≡ D.disk device.old }
    ensures stops { IsTrue (D.keeps_model device.old)
        → StopsLeave D.SectorDevice device.old device.new (MayLeave (D.disk device.old)) }
    ensures passes { Proceeds D.SectorDevice device.old device.new }
    ensures begins { BeginsAtMost D.SectorDevice device.old device.new 0 0 }
    ensures reads { IsTrue (D.keeps_model device.old)
        → ReadsAtMost D.SectorDevice device.old device.new (record_reads version blocks.number (D.disk device.old).content) }
{
    device.read(RECORD, bytes)?;
    if version == VERSION_1 {
        return Ok(()); // its record has no digest
    }
    if is_true_record(device, blocks, bytes)? {
        Ok(())
    } else {
        Err(OpenFault::Damaged)
    }
}

// Reads the gate, and does again what an open one asks for.
fn finish<D: SectorDevice>(
    device: &mut D,
    version: u16,
    blocks: BlockCount,
) -> Result<(), OpenFault>
    requires size { D.sector_count device.old ≡ sectors_for blocks.number }
    requires synced { IsTrue (D.keeps_sectors device.old) → (k : ℕ) → (D.disk device.old).unsynced k ≡ false }
    ensures ok { IsTrue (D.keeps_sectors device.old)
        → OnOk result (IsRecovered blocks.number (D.disk device.old) (D.disk device.new)) }
    ensures exact { IsTrue (D.keeps_sectors device.old) → MatchResult result
        (λ _. damage_refusal_by version blocks.number (D.disk device.old).content ≡ None)
        (λ e. (e ≡ Device) ⊎ (damage_refusal_by version blocks.number (D.disk device.old).content ≡ Some e)) }
    ensures tells { Tells D.SectorDevice device.old device.new 0 result }
    ensures stops { IsTrue (D.keeps_sectors device.old)
        → StopsLeave D.SectorDevice device.old device.new (FinishLeaves version blocks.number (D.disk device.old).content) }
    ensures passes { Proceeds D.SectorDevice device.old device.new }
    ensures begins { IsTrue (D.keeps_sectors device.old)
        → BeginsAtMost D.SectorDevice device.old device.new (writes_for blocks.number (D.disk device.old).content)
        (syncs_for (D.disk device.old).content - 1) }
    ensures reads { IsTrue (D.keeps_sectors device.old)
        → ReadsAtMost D.SectorDevice device.old device.new (reads_by version blocks.number (D.disk device.old).content - 1) }
{
    let mut gate = [0; 512];
    device.read(GATE, &mut gate)?;
    if !gate_is_open(&gate) {
        return Ok(());
    }
    let mut record = [0; 512];
    read_record(device, version, blocks, &mut record)?;
    match apply(device, blocks, &record) {
        Ok(()) => Ok(()),
        Err(_) => Err(OpenFault::Device),
    }
}

/// Recovers an image of so many blocks, of the layout of this version. A label that isn't its own is refused, and so
/// is, by layout 2 and under an open gate, a record that isn't that of its slots. Device comes where a call of the
/// device failed.
/// Rule: IMAGE, A recovery.
pub fn recover<D: SectorDevice>(
    device: &mut D,
    version: u16,
    blocks: BlockCount,
) -> Result<(), OpenFault>
    requires size { D.sector_count device.old ≡ sectors_for blocks.number }
    ensures ok { IsTrue (D.keeps_sectors device.old)
        → OnOk result (IsRecovered blocks.number (D.disk device.old) (D.disk device.new)) }
    ensures label { IsTrue (D.keeps_sectors device.old)
        → OnOk result ((D.disk device.old).content 0 ≡ label_by version blocks.number) }
    ensures exact { IsTrue (D.keeps_sectors device.old) → MatchResult result
        (λ _. recovery_refusal version blocks.number (D.disk device.old).content ≡ None)
        (λ e. (e ≡ Device) ⊎ (recovery_refusal version blocks.number (D.disk device.old).content ≡ Some e)) }
    ensures tells { Tells D.SectorDevice device.old device.new 1 result }
    ensures stops { IsTrue (D.keeps_sectors device.old)
        → StopsLeave D.SectorDevice device.old device.new (LeavesBy version blocks.number (D.disk device.old)) }
    ensures passes { Proceeds D.SectorDevice device.old device.new }
    ensures begins { IsTrue (D.keeps_sectors device.old)
        → BeginsAtMost D.SectorDevice device.old device.new (writes_for blocks.number (D.disk device.old).content)
        (syncs_for (D.disk device.old).content) }
    ensures reads { IsTrue (D.keeps_sectors device.old)
        → ReadsAtMost D.SectorDevice device.old device.new (reads_by version blocks.number (D.disk device.old).content) }
{
    start(device, version, blocks.number)?;
    finish(device, version, blocks)
}
