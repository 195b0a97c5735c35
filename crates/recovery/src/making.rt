//! An image is made: its blocks come from a source and are laid by a layout, and its label is written last.
ghost use Rattle.std.specs.Prelude.{◌≡◌, ◌≢◌, ◌<◌, ◌+◌, ◌*◌, ℕ, List, false, IsTrue, OnOk, replicate};
ghost use Rattle.sector_disk.specs.Disk.{written, settled};
ghost use Rattle.journal.specs.Calls.{StopsLeave, ReadsAtMost, CostsAtMost, Passes};
ghost use Rattle.journal.specs.Layout.{most_blocks};
ghost use Rattle.journal.specs.Layouts.{asks, label_of, sectors_for};
ghost use Rattle.journal.specs.Steps.{WritesOnly, IsAsSynced};
ghost use Rattle.recovery.specs.Making.{InUnit, IsApart, IsUnlabelled, IsReady, IsMade, TakenAway, Sealed, WrittenLeaves, MakingLeaves, Carries, reads_below};

use crate::settling::settle;
use crate::sources::Source;
use crate::targets::Target;
use crate::{OpenFault, UpgradeFault};
use journal::layout::{BlockCount, LABEL};
use sector_disk::{DeviceFault, SectorDevice};

// Writes the label's sector, and syncs. A stop may spoil its unit, and nothing else.
fn write_label<D: SectorDevice>(device: &mut D, bytes: &[u8; 512]) -> Result<(), DeviceFault>
    requires { 0 < D.sector_count device.old }
    ensures ok { IsTrue (D.keeps_model device.old)
        → OnOk result (D.disk device.new ≡ settled (written (D.disk device.old) 0 bytes.now)) }
    ensures stops { IsTrue (D.keeps_model device.old)
        → StopsLeave D.SectorDevice device.old device.new (IsAsSynced (InUnit (D.disk device.old) 0) (D.disk device.old)) }
    ensures passes { Passes D.SectorDevice device.old device.new result }
    ensures costs { CostsAtMost D.SectorDevice device.old device.new 1 1 0 }
{
    device.write(LABEL, bytes)?;
    device.sync()
}

// Makes what is there stay, and takes this label away, if it stands there.
fn unlabel<D: SectorDevice>(device: &mut D, label: &[u8; 512]) -> Result<(), DeviceFault>
    requires some { 0 < D.sector_count device.old }
    requires told { label.now ≢ replicate 512 0 }
    ensures ok { IsTrue (D.keeps_model device.old) → OnOk result (IsUnlabelled label.now (D.disk device.new)) }
    ensures others { IsTrue (D.keeps_model device.old)
        → OnOk result ((k : ℕ) → k ≢ 0 → (D.disk device.new).content k ≡ (D.disk device.old).content k) }
    ensures stops { IsTrue (D.keeps_model device.old)
        → StopsLeave D.SectorDevice device.old device.new (TakenAway label.now (D.disk device.old)) }
    ensures passes { Passes D.SectorDevice device.old device.new result }
    ensures costs { CostsAtMost D.SectorDevice device.old device.new 1 2 1 }
{
    let mut found = [0; 512];
    settle(device, &mut found)?;
    if found == *label {
        write_label(device, &[0; 512])
    } else {
        Ok(())
    }
}

// Writes the label over an image whose other sectors are synced.
fn seal<D: SectorDevice>(device: &mut D, label: &[u8; 512]) -> Result<(), DeviceFault>
    requires some { 0 < D.sector_count device.old }
    requires synced { IsTrue (D.keeps_model device.old) → (k : ℕ) → (D.disk device.old).unsynced k ≡ false }
    ensures ok { IsTrue (D.keeps_model device.old)
        → OnOk result (D.disk device.new ≡ settled (written (D.disk device.old) 0 label.now)) }
    ensures stops { IsTrue (D.keeps_model device.old)
        → StopsLeave D.SectorDevice device.old device.new (Sealed label.now (D.disk device.old)) }
    ensures passes { Passes D.SectorDevice device.old device.new result }
    ensures costs { CostsAtMost D.SectorDevice device.old device.new 1 1 0 }
{
    write_label(device, label)
}

// Puts a block where the layout has it.
fn carry_block<S: Source, A: SectorDevice, T: Target, B: SectorDevice>(
    source: &mut S,
    old: &mut A,
    target: &mut T,
    new: &mut B,
    blocks: BlockCount,
    b: u16,
) -> Result<(), UpgradeFault>
    requires below { b < blocks.number }
    requires from { A.sector_count old.old ≡ S.sectors_of source.old }
    requires to { B.sector_count new.old ≡ sectors_for T.layout blocks.number }
    ensures laid { IsTrue (A.keeps_model old.old) → IsTrue (asks B.SectorDevice T.layout new.old)
        → T.has_laid target.old blocks.number b (S.bytes_in source.old (A.disk old.old).content) (B.disk new.old).content
        → OnOk result (T.has_laid target.new blocks.number (b + 1) (S.bytes_in source.old (A.disk old.old).content) (B.disk new.new).content) }
    ensures noted { IsTrue (A.keeps_model old.old) → (first : S) → S.has_noted first source.old (A.disk old.old).content b
        → OnOk result (S.has_noted first source.new (A.disk old.old).content (b + 1)) }
    ensures same_size { S.sectors_of source.new ≡ S.sectors_of source.old }
    ensures same_bytes { S.bytes_in source.new ≡ S.bytes_in source.old }
    ensures same_reads { S.reads_in source.new ≡ S.reads_in source.old }
    ensures left { IsTrue (asks B.SectorDevice T.layout new.old) → OnOk result
        ((k : ℕ) → T.is_left blocks.number k → (B.disk new.new).content k ≡ (B.disk new.old).content k) }
    ensures only { IsTrue (asks B.SectorDevice T.layout new.old)
        → WritesOnly (IsApart T.layout) (B.disk new.old) (B.disk new.new) }
    ensures stops { IsTrue (asks B.SectorDevice T.layout new.old)
        → StopsLeave B.SectorDevice new.old new.new (IsAsSynced (IsApart T.layout) (B.disk new.old)) }
    ensures carries { Carries A.SectorDevice B.SectorDevice old.old old.new new.old new.new T.block_writes 0 0 result }
    ensures reads { IsTrue (A.keeps_model old.old)
        → ReadsAtMost A.SectorDevice old.old old.new (S.reads_in source.old (A.disk old.old).content b) }
{
    let mut bytes = [0; 1024];
    match source.fetch(old, b, &mut bytes) {
        Ok(()) => match target.lay_block(new, blocks, b, &bytes) {
            Ok(()) => Ok(()),
            Err(_) => Err(UpgradeFault::New(OpenFault::Device)),
        },
        Err(_) => Err(UpgradeFault::Old(OpenFault::Device)),
    }
}

// Puts all blocks where the layout has them.
fn carry_blocks<S: Source, A: SectorDevice, T: Target, B: SectorDevice>(
    source: &mut S,
    old: &mut A,
    target: &mut T,
    new: &mut B,
    blocks: BlockCount,
) -> Result<(), UpgradeFault>
    requires from { A.sector_count old.old ≡ S.sectors_of source.old }
    requires to { B.sector_count new.old ≡ sectors_for T.layout blocks.number }
    requires begun { IsTrue (asks B.SectorDevice T.layout new.old)
        → (given : ℕ → List ℕ) → T.has_laid target.old blocks.number 0 given (B.disk new.old).content }
    requires unnoted { S.has_noted source.old source.old (A.disk old.old).content 0 }
    ensures laid { IsTrue (A.keeps_model old.old) → IsTrue (asks B.SectorDevice T.layout new.old)
        → OnOk result (T.has_laid target.new blocks.number blocks.number (S.bytes_in source.old (A.disk old.old).content) (B.disk new.new).content) }
    ensures noted { IsTrue (A.keeps_model old.old)
        → OnOk result (S.has_noted source.old source.new (A.disk old.old).content blocks.number) }
    ensures left { IsTrue (asks B.SectorDevice T.layout new.old) → OnOk result
        ((k : ℕ) → T.is_left blocks.number k → (B.disk new.new).content k ≡ (B.disk new.old).content k) }
    ensures only { IsTrue (asks B.SectorDevice T.layout new.old)
        → WritesOnly (IsApart T.layout) (B.disk new.old) (B.disk new.new) }
    ensures stops { IsTrue (asks B.SectorDevice T.layout new.old)
        → StopsLeave B.SectorDevice new.old new.new (IsAsSynced (IsApart T.layout) (B.disk new.old)) }
    ensures carries { Carries A.SectorDevice B.SectorDevice old.old old.new new.old new.new (T.block_writes * blocks.number) 0 0 result }
    ensures reads { IsTrue (A.keeps_model old.old) → ReadsAtMost A.SectorDevice old.old old.new
        (reads_below (S.reads_in source.old (A.disk old.old).content) blocks.number) }
{
    for b in 0..blocks.number {
        carry_block(source, old, target, new, blocks, b)?;
    }
    Ok(())
}

// Lays the blocks, and what goes after them.
fn fill_on<S: Source, A: SectorDevice, T: Target, B: SectorDevice>(
    source: &mut S,
    old: &mut A,
    target: &mut T,
    new: &mut B,
    blocks: BlockCount,
) -> Result<(), UpgradeFault>
    requires from { A.sector_count old.old ≡ S.sectors_of source.old }
    requires to { B.sector_count new.old ≡ sectors_for T.layout blocks.number }
    requires begun { IsTrue (asks B.SectorDevice T.layout new.old)
        → (given : ℕ → List ℕ) → T.has_laid target.old blocks.number 0 given (B.disk new.old).content }
    requires unnoted { S.has_noted source.old source.old (A.disk old.old).content 0 }
    ensures filled { IsTrue (A.keeps_model old.old) → IsTrue (asks B.SectorDevice T.layout new.old)
        → OnOk result (T.has_filled target.new blocks.number (S.bytes_in source.old (A.disk old.old).content) (B.disk new.new).content) }
    ensures noted { IsTrue (A.keeps_model old.old)
        → OnOk result (S.has_noted source.old source.new (A.disk old.old).content blocks.number) }
    ensures left { IsTrue (asks B.SectorDevice T.layout new.old) → OnOk result
        ((k : ℕ) → T.is_left blocks.number k → (B.disk new.new).content k ≡ (B.disk new.old).content k) }
    ensures only { IsTrue (asks B.SectorDevice T.layout new.old)
        → WritesOnly (IsApart T.layout) (B.disk new.old) (B.disk new.new) }
    ensures stops { IsTrue (asks B.SectorDevice T.layout new.old)
        → StopsLeave B.SectorDevice new.old new.new (IsAsSynced (IsApart T.layout) (B.disk new.old)) }
    ensures carries { Carries A.SectorDevice B.SectorDevice old.old old.new new.old new.new
        (T.block_writes * blocks.number + T.last_writes) 0 0 result }
    ensures reads { IsTrue (A.keeps_model old.old) → ReadsAtMost A.SectorDevice old.old old.new
        (reads_below (S.reads_in source.old (A.disk old.old).content) blocks.number) }
{
    carry_blocks(source, old, target, new, blocks)?;
    match target.finish(new, blocks) {
        Ok(()) => Ok(()),
        Err(_) => Err(UpgradeFault::New(OpenFault::Device)),
    }
}

// Lays all of the image but its label.
fn fill<S: Source, A: SectorDevice, T: Target, B: SectorDevice>(
    source: &mut S,
    old: &mut A,
    target: &mut T,
    new: &mut B,
    blocks: BlockCount,
) -> Result<(), UpgradeFault>
    requires from { A.sector_count old.old ≡ S.sectors_of source.old }
    requires to { B.sector_count new.old ≡ sectors_for T.layout blocks.number }
    requires unnoted { S.has_noted source.old source.old (A.disk old.old).content 0 }
    ensures filled { IsTrue (A.keeps_model old.old) → IsTrue (asks B.SectorDevice T.layout new.old)
        → OnOk result (T.has_filled target.new blocks.number (S.bytes_in source.old (A.disk old.old).content) (B.disk new.new).content) }
    ensures noted { IsTrue (A.keeps_model old.old)
        → OnOk result (S.has_noted source.old source.new (A.disk old.old).content blocks.number) }
    ensures left { IsTrue (asks B.SectorDevice T.layout new.old) → OnOk result
        ((k : ℕ) → T.is_left blocks.number k → (B.disk new.new).content k ≡ (B.disk new.old).content k) }
    ensures only { IsTrue (asks B.SectorDevice T.layout new.old)
        → WritesOnly (IsApart T.layout) (B.disk new.old) (B.disk new.new) }
    ensures stops { IsTrue (asks B.SectorDevice T.layout new.old)
        → StopsLeave B.SectorDevice new.old new.new (IsAsSynced (IsApart T.layout) (B.disk new.old)) }
    ensures carries { Carries A.SectorDevice B.SectorDevice old.old old.new new.old new.new
        (T.block_writes * blocks.number + T.first_writes + T.last_writes) 0 0 result }
    ensures reads { IsTrue (A.keeps_model old.old) → ReadsAtMost A.SectorDevice old.old old.new
        (reads_below (S.reads_in source.old (A.disk old.old).content) blocks.number) }
{
    match target.begin(new, blocks) {
        Ok(()) => fill_on(source, old, target, new, blocks),
        Err(_) => Err(UpgradeFault::New(OpenFault::Device)),
    }
}

// Lays it under another label, and makes it stay.
fn prepare<S: Source, A: SectorDevice, T: Target, B: SectorDevice>(
    source: &mut S,
    old: &mut A,
    target: &mut T,
    new: &mut B,
    blocks: BlockCount,
) -> Result<(), UpgradeFault>
    requires from { A.sector_count old.old ≡ S.sectors_of source.old }
    requires to { B.sector_count new.old ≡ sectors_for T.layout blocks.number }
    requires unnoted { S.has_noted source.old source.old (A.disk old.old).content 0 }
    requires unlabelled { IsTrue (asks B.SectorDevice T.layout new.old) → IsUnlabelled (label_of T.layout blocks.number) (B.disk new.old) }
    ensures ready { IsTrue (A.keeps_model old.old) → IsTrue (asks B.SectorDevice T.layout new.old)
        → OnOk result (IsReady (label_of T.layout blocks.number)
        (T.has_filled target.new blocks.number (S.bytes_in source.old (A.disk old.old).content)) (B.disk new.new)) }
    ensures synced { IsTrue (B.keeps_model new.old)
        → OnOk result ((k : ℕ) → (B.disk new.new).unsynced k ≡ false) }
    ensures noted { IsTrue (A.keeps_model old.old)
        → OnOk result (S.has_noted source.old source.new (A.disk old.old).content blocks.number) }
    ensures left { IsTrue (asks B.SectorDevice T.layout new.old) → OnOk result
        ((k : ℕ) → T.is_left blocks.number k → (B.disk new.new).content k ≡ (B.disk new.old).content k) }
    ensures stops { IsTrue (asks B.SectorDevice T.layout new.old)
        → StopsLeave B.SectorDevice new.old new.new (λ image. image 0 ≢ label_of T.layout blocks.number) }
    ensures carries { Carries A.SectorDevice B.SectorDevice old.old old.new new.old new.new
        (T.block_writes * blocks.number + T.first_writes + T.last_writes) 1 0 result }
    ensures reads { IsTrue (A.keeps_model old.old) → ReadsAtMost A.SectorDevice old.old old.new
        (reads_below (S.reads_in source.old (A.disk old.old).content) blocks.number) }
{
    fill(source, old, target, new, blocks)?;
    match new.sync() {
        Ok(()) => Ok(()),
        Err(_) => Err(UpgradeFault::New(OpenFault::Device)),
    }
}

// Puts the image under its label, once it is whole.
fn write_image<S: Source, A: SectorDevice, T: Target, B: SectorDevice>(
    source: &mut S,
    old: &mut A,
    target: &mut T,
    new: &mut B,
    blocks: BlockCount,
    label: &[u8; 512],
) -> Result<(), UpgradeFault>
    requires from { A.sector_count old.old ≡ S.sectors_of source.old }
    requires to { B.sector_count new.old ≡ sectors_for T.layout blocks.number }
    requires unnoted { S.has_noted source.old source.old (A.disk old.old).content 0 }
    requires unlabelled { IsTrue (asks B.SectorDevice T.layout new.old) → IsUnlabelled (label_of T.layout blocks.number) (B.disk new.old) }
    requires label { label.now ≡ label_of T.layout blocks.number }
    ensures made { IsTrue (A.keeps_model old.old) → IsTrue (asks B.SectorDevice T.layout new.old)
        → OnOk result (IsMade (label_of T.layout blocks.number)
        (T.has_filled target.new blocks.number (S.bytes_in source.old (A.disk old.old).content)) (B.disk new.new)) }
    ensures noted { IsTrue (A.keeps_model old.old)
        → OnOk result (S.has_noted source.old source.new (A.disk old.old).content blocks.number) }
    ensures left { IsTrue (asks B.SectorDevice T.layout new.old) → OnOk result
        ((k : ℕ) → T.is_left blocks.number k → (B.disk new.new).content k ≡ (B.disk new.old).content k) }
    ensures stops { IsTrue (A.keeps_model old.old) → IsTrue (asks B.SectorDevice T.layout new.old)
        → StopsLeave B.SectorDevice new.old new.new (WrittenLeaves (label_of T.layout blocks.number)
        (T.has_filled target.new blocks.number (S.bytes_in source.old (A.disk old.old).content))) }
    ensures carries { Carries A.SectorDevice B.SectorDevice old.old old.new new.old new.new
        (T.block_writes * blocks.number + T.first_writes + T.last_writes + 1) 2 0 result }
    ensures reads { IsTrue (A.keeps_model old.old) → ReadsAtMost A.SectorDevice old.old old.new
        (reads_below (S.reads_in source.old (A.disk old.old).content) blocks.number) }
{
    prepare(source, old, target, new, blocks)?;
    match seal(new, label) {
        Ok(()) => Ok(()),
        Err(_) => Err(UpgradeFault::New(OpenFault::Device)),
    }
}

/// Makes an image of so many blocks: what is there is made to stay, and its label, if it is that of such an image,
/// taken away; the blocks that the source gives are laid, with what the layout has before and after them, and synced;
/// the label is written, and synced. So a stop leaves another label, or what was there, but for the other sectors in
/// the label's unit, or all of the new image. The source's device is only read. `Old(Device)` where a read of the
/// source's device failed, and `New(Device)` where a call of the other one failed; it ends there.
/// Rule: IMAGE, A format; IMAGE, Layout 3, A format; DECISIONS, The device and the image.
pub fn make<S: Source, A: SectorDevice, T: Target, B: SectorDevice>(
    source: &mut S,
    old: &mut A,
    target: &mut T,
    new: &mut B,
    blocks: BlockCount,
) -> Result<(), UpgradeFault>
    requires from { A.sector_count old.old ≡ S.sectors_of source.old }
    requires to { B.sector_count new.old ≡ sectors_for T.layout blocks.number }
    requires unnoted { S.has_noted source.old source.old (A.disk old.old).content 0 }
    // All blocks are laid, under the label.
    ensures made { IsTrue (A.keeps_model old.old) → IsTrue (asks B.SectorDevice T.layout new.old)
        → OnOk result (IsMade (label_of T.layout blocks.number)
        (T.has_filled target.new blocks.number (S.bytes_in source.old (A.disk old.old).content)) (B.disk new.new)) }
    ensures noted { IsTrue (A.keeps_model old.old)
        → OnOk result (S.has_noted source.old source.new (A.disk old.old).content blocks.number) }
    ensures left { IsTrue (asks B.SectorDevice T.layout new.old) → OnOk result
        ((k : ℕ) → T.is_left blocks.number k → (B.disk new.new).content k ≡ (B.disk new.old).content k) }
    // What a stop at any moment leaves.
    ensures stops { IsTrue (A.keeps_model old.old) → IsTrue (asks B.SectorDevice T.layout new.old)
        → StopsLeave B.SectorDevice new.old new.new (MakingLeaves (label_of T.layout blocks.number)
        (T.has_filled target.new blocks.number (S.bytes_in source.old (A.disk old.old).content)) (B.disk new.old)) }
    // At most zeros over a label, all parts of the image and its label are written.
    ensures carries { Carries A.SectorDevice B.SectorDevice old.old old.new new.old new.new
        (T.block_writes * blocks.number + T.first_writes + T.last_writes + 2) 4 1 result }
    ensures reads { IsTrue (A.keeps_model old.old) → ReadsAtMost A.SectorDevice old.old old.new
        (reads_below (S.reads_in source.old (A.disk old.old).content) blocks.number) }
{
    let label = target.label(blocks);
    match unlabel(new, &label) {
        Ok(()) => write_image(source, old, target, new, blocks, &label),
        Err(_) => Err(UpgradeFault::New(OpenFault::Device)),
    }
}
