// An image of this layout is made of one of layout 1 or 2.
ghost use Rattle.std.specs.Prelude.{◌≡◌, ◌≢◌, ◌⊎◌, ◌<◌, ◌+◌, ◌*◌, ◌==◌, ℕ, true, false, Some, None, IsTrue, OnOk, IfOk, IfErr, MatchResult, replicate};
ghost use Rattle.sector_disk.specs.Counting.{count_up};
ghost use Rattle.sector_disk.specs.Disk.{Image, MayLeave, settled};
ghost use Rattle.journal.specs.Calls.{StopsLeave, BeginsAtMost, ReadsAtMost, CostsAtMost, Proceeds};
ghost use Rattle.journal.specs.Images as older;
ghost use Rattle.journal.specs.Layout as older_layout;
ghost use Rattle.journal.specs.Layout.{most_blocks};
ghost use Rattle.recovery.specs.Label.{blocks_in, is_size_within};
ghost use Rattle.recovery.specs.Recovered.{damage_refusal_by, Tells};
ghost use Rattle.recovery.specs.Steps.{OnlyRead, WentWell};
ghost use Rattle.recovery.specs.declared.fault.OpenFault.{OpenFault};
ghost use Rattle.recovery.specs.declared.fault.OpenFault.TheVariants.{BadSize, Device};
ghost use Rattle.recovery.specs.declared.fault.UpgradeFault.{UpgradeFault};
ghost use Rattle.recovery.specs.declared.fault.UpgradeFault.TheVariants.{Old, New};
ghost use Rattle.shadow.specs.Formatted.{MakingLeaves, KeepsRest, IsFilled};
ghost use Rattle.journal.specs.PageImages.{Means};
ghost use Rattle.journal.specs.PageLayout.{sectors_for, label_of};
ghost use Rattle.shadow.specs.Upgraded.{known_blocks, older_version, most_by, older_label_refusal, older_refusal, upgrade_size_refusal, upgrade_refusal, listing_of, reads_to_list};

use crate::carrying::carry;
use byteorder::{ByteOrder, LittleEndian};
use journal::layout::{
    BlockCount, GATE, MOST_BLOCKS, MOST_BLOCKS_1, VERSION, VERSION_1, blocks_of_size, gate_is_open,
};
use journal::pages::layout::fits;
use journal::sizes::known_blocks;
use recovery::{OpenFault, UpgradeFault, check_label, read_record, settle};
use sector_disk::SectorDevice;

// How many blocks both images have.
fn blocks_of_both(old: u32, new: u32) -> Result<BlockCount, UpgradeFault>
    ensures exact { MatchResult result (λ _. upgrade_size_refusal old new ≡ None) (λ e. upgrade_size_refusal old new ≡ Some e) }
    ensures old { IfOk result (λ n. known_blocks old ≡ n.number) }
    ensures some { OnOk result (0 < old) }
    ensures new { IfOk result (λ n. new ≡ sectors_for n.number) }
    ensures told { IfErr result (λ e. (e ≡ Old BadSize) ⊎ (e ≡ New BadSize)) }
{
    let Some(number) = known_blocks(old) else {
        return Err(UpgradeFault::Old(OpenFault::BadSize));
    };
    if fits(number as u32, new) {
        Ok(BlockCount { number })
    } else {
        Err(UpgradeFault::New(OpenFault::BadSize))
    }
}

// The layout by which a label is looked at, 1 or 2.
fn older_version(label: &[u8; 512]) -> u16
    ensures { result ≡ older_version label.now }
{
    if LittleEndian::read_u16(&label[8..]) == VERSION_1 {
        VERSION_1
    } else {
        VERSION
    }
}

fn most_by(version: u16) -> u16
    ensures { result ≡ most_by version }
{
    if version == VERSION_1 {
        MOST_BLOCKS_1
    } else {
        MOST_BLOCKS
    }
}

// The layout whose good label this is, of an image of so many blocks and sectors, or else why it isn't one of layout 1 or 2: the
// first of NoLabel, OtherVersion and WrongCount that holds.
fn check_older(label: &[u8; 512], blocks: u16, sectors: u32) -> Result<u16, OpenFault>
    ensures version { IfOk result (λ version. older_version label.now ≡ version) }
    ensures size { OnOk result (sectors ≡ older_layout.sectors_for (blocks_in sectors)) }
    ensures few { OnOk result (is_size_within most_blocks sectors ≡ true) }
    ensures exact { MatchResult result (λ _. older_label_refusal blocks sectors label.now ≡ None)
        (λ e. older_label_refusal blocks sectors label.now ≡ Some e) }
    ensures sized { IfErr result (λ e. e ≢ BadSize) }
{
    let version = older_version(label);
    check_label(label, version, blocks)?;
    match blocks_of_size(sectors, most_by(version)) {
        Some(_) => Ok(version),
        None => Err(OpenFault::WrongCount),
    }
}

// Makes what is there stay, and answers the layout that the label tells.
fn start<D: SectorDevice>(device: &mut D, blocks: u16) -> Result<u16, OpenFault>
    requires { 0 < D.sector_count device.old }
    ensures ok { IsTrue (D.keeps_model device.old)
        → OnOk result (D.disk device.new ≡ settled (D.disk device.old)) }
    ensures version { IsTrue (D.keeps_model device.old)
        → IfOk result (λ version. older_version ((D.disk device.old).content 0) ≡ version) }
    ensures size { OnOk result (D.sector_count device.old ≡ older_layout.sectors_for (blocks_in (D.sector_count device.old))) }
    ensures few { OnOk result (is_size_within most_blocks (D.sector_count device.old) ≡ true) }
    ensures exact { IsTrue (D.keeps_model device.old) → MatchResult result
        (λ _. older_label_refusal blocks (D.sector_count device.old) ((D.disk device.old).content 0) ≡ None)
        (λ e. (e ≡ Device) ⊎ (older_label_refusal blocks (D.sector_count device.old) ((D.disk device.old).content 0) ≡ Some e)) }
    ensures tells { Tells D.SectorDevice device.old device.new 1 result }
    ensures stops { IsTrue (D.keeps_model device.old)
        → StopsLeave D.SectorDevice device.old device.new (MayLeave (D.disk device.old)) }
    ensures passes { Proceeds D.SectorDevice device.old device.new }
    ensures costs { CostsAtMost D.SectorDevice device.old device.new 0 1 1 }
{
    let mut label = [0; 512];
    settle(device, &mut label)?;
    check_older(&label, blocks, device.sectors())
}

// Reads the record of the save that is under way, where the gate tells of one.
fn read_listing<D: SectorDevice>(
    device: &mut D,
    version: u16,
    blocks: BlockCount,
    listing: &mut [u8; 512],
) -> Result<(), OpenFault>
    requires size { D.sector_count device.old ≡ older_layout.sectors_for blocks.number }
    requires empty { listing.old ≡ replicate 512 0 }
    ensures ok { IsTrue (D.keeps_model device.old) → OnOk result (listing_of (D.disk device.old).content ≡ listing.new) }
    ensures exact { IsTrue (D.keeps_model device.old) → MatchResult result
        (λ _. damage_refusal_by version blocks.number (D.disk device.old).content ≡ None)
        (λ e. (e ≡ Device) ⊎ (damage_refusal_by version blocks.number (D.disk device.old).content ≡ Some e)) }
    ensures tells { Tells D.SectorDevice device.old device.new 0 result }
    ensures only_read { OnlyRead D.SectorDevice device.old device.new }
    ensures reads { IsTrue (D.keeps_model device.old)
        → ReadsAtMost D.SectorDevice device.old device.new (reads_to_list blocks.number (D.disk device.old).content) }
{
    let mut gate = [0; 512];
    device.read(GATE, &mut gate)?;
    if gate_is_open(&gate) {
        read_record(device, version, blocks, listing)
    } else {
        Ok(())
    }
}

// Makes what is there stay, and reads what tells where the blocks of an older image are.
fn find<D: SectorDevice>(
    device: &mut D,
    blocks: BlockCount,
    listing: &mut [u8; 512],
) -> Result<(), OpenFault>
    requires some { 0 < D.sector_count device.old }
    requires known { known_blocks (D.sector_count device.old) ≡ blocks.number }
    requires empty { listing.old ≡ replicate 512 0 }
    ensures ok { IsTrue (D.keeps_model device.old)
        → OnOk result (D.disk device.new ≡ settled (D.disk device.old)) }
    ensures listing { IsTrue (D.keeps_model device.old) → OnOk result (listing_of (D.disk device.old).content ≡ listing.new) }
    ensures size { OnOk result (D.sector_count device.old ≡ older_layout.sectors_for blocks.number) }
    ensures exact { IsTrue (D.keeps_model device.old) → MatchResult result
        (λ _. older_refusal blocks.number (D.sector_count device.old) (D.disk device.old).content ≡ None)
        (λ e. (e ≡ Device) ⊎ (older_refusal blocks.number (D.sector_count device.old) (D.disk device.old).content ≡ Some e)) }
    ensures tells { Tells D.SectorDevice device.old device.new 1 result }
    ensures stops { IsTrue (D.keeps_model device.old)
        → StopsLeave D.SectorDevice device.old device.new (MayLeave (D.disk device.old)) }
    ensures passes { Proceeds D.SectorDevice device.old device.new }
    ensures begins { BeginsAtMost D.SectorDevice device.old device.new 0 1 }
    ensures reads { IsTrue (D.keeps_model device.old)
        → ReadsAtMost D.SectorDevice device.old device.new (reads_to_list blocks.number (D.disk device.old).content + 1) }
{
    let version = start(device, blocks.number)?;
    read_listing(device, version, blocks, listing)
}

/// Makes an image of layout 3, on another device of exactly `32 + 16 * blocks` sectors, of the blocks that one of
/// layout 1 or 2 means. The old image is synced once and read: nothing is written there. A save that was under way
/// there is in the new image as if it were finished. The label of the new one is written last, and a good label that
/// stood there is taken away first. Takes no memory.
///
/// It refuses, in this order, an old device of a size that no image of any layout has (BadSize), a new one that isn't
/// of the size for as many blocks (BadSize), both with no call of either device; and an old image without the name and
/// zeros of a label (NoLabel), with a label of a version that is neither 1 nor 2 (OtherVersion), of a number of blocks
/// that isn't that of the size, or of a size that no image of its layout has (WrongCount), and one of layout 2 with an
/// open gate over a record that isn't that of its slots (Damaged), with no call of the new device. Device comes where a
/// call of that device failed.
/// Rule: IMAGE, Layout 3, An upgrade.
pub fn upgrade<A: SectorDevice, B: SectorDevice>(
    old: &mut A,
    new: &mut B,
) -> Result<(), UpgradeFault>
    // Each refusal tells the first test that fails. The sizes are tested over any device.
    ensures exact { IsTrue (A.keeps_model old.old) → MatchResult result
        (λ _. upgrade_refusal (A.sector_count old.old) (B.sector_count new.old) (A.disk old.old).content ≡ None)
        (λ e. (e ≡ Old Device) ⊎ (e ≡ New Device)
        ⊎ (upgrade_refusal (A.sector_count old.old) (B.sector_count new.old) (A.disk old.old).content ≡ Some e)) }
    ensures sized { OnOk result (upgrade_size_refusal (A.sector_count old.old) (B.sector_count new.old) ≡ None) }
    // The device that is told as failed failed once, and no call failed else.
    ensures old_device { IfErr result (λ e. e ≡ Old Device → A.failures old.new ≡ count_up (A.failures old.old)) }
    ensures new_device { IfErr result (λ e. e ≡ New Device → B.failures new.new ≡ count_up (B.failures new.old)) }
    ensures old_well { IfErr result (λ e. e ≢ Old Device → A.failures old.new ≡ A.failures old.old) }
    ensures new_well { IfErr result (λ e. e ≢ New Device → B.failures new.new ≡ B.failures new.old) }
    ensures well { OnOk result (WentWell A.SectorDevice B.SectorDevice old.old old.new new.old new.new) }
    // BadSize comes with no call of either device. Another refusal than Device made none of the new one.
    ensures old_unasked { IfErr result (λ e. (e ≡ Old BadSize) ⊎ (e ≡ New BadSize) → old.new ≡ old.old) }
    ensures new_unasked { IfErr result (λ e. (e ≡ Old BadSize) ⊎ (e ≡ New BadSize) → new.new ≡ new.old) }
    ensures new_same { IfErr result (λ e. e ≢ Old Device → e ≢ New Device → new.new ≡ new.old) }

    // The old image is synced and read. A stop at any moment leaves of it what one before could leave, and one once the call has
    // returned what it holds.
    ensures old_stops { IsTrue (A.keeps_model old.old)
        → StopsLeave A.SectorDevice old.old old.new (MayLeave (A.disk old.old)) }
    ensures old_disk { IsTrue (A.keeps_model old.old) → OnOk result (A.disk old.new ≡ settled (A.disk old.old)) }
    ensures old_content { IsTrue (A.keeps_model old.old)
        → IfErr result (λ e. e ≢ Old Device → (A.disk old.new).content ≡ (A.disk old.old).content) }
    ensures old_begins { BeginsAtMost A.SectorDevice old.old old.new 0 1 }
    ensures old_passes { Proceeds A.SectorDevice old.old old.new }
    // What a stop at any moment leaves of the new one, and what one leaves of it once the call has returned.
    ensures new_stops { IsTrue (A.keeps_model old.old) → IsTrue (B.keeps_model new.old) → (n : ℕ)
        → B.sector_count new.old ≡ sectors_for n
        → StopsLeave B.SectorDevice new.old new.new (MakingLeaves n (older.meaning n (A.disk old.old).content) (B.disk new.old)) }
    ensures after { IsTrue (A.keeps_model old.old) → IsTrue (B.keeps_model new.old) → OnOk result ((n : ℕ)
        → B.sector_count new.old ≡ sectors_for n
        → (image : Image) → MayLeave (B.disk new.new) image → Means (older.meaning n (A.disk old.old).content) image) }
    // So an opening then gives a store of these blocks, with nothing pending.
    ensures opens { IsTrue (A.keeps_model old.old) → IsTrue (B.keeps_model new.old) → OnOk result ((n : ℕ)
        → B.sector_count new.old ≡ sectors_for n → Means (older.meaning n (A.disk old.old).content) (B.disk new.new).content) }
    // The new image is made as by a format, with these blocks in its first places.
    ensures filled { IsTrue (A.keeps_model old.old) → IsTrue (B.keeps_model new.old) → OnOk result ((n : ℕ)
        → B.sector_count new.old ≡ sectors_for n
        → IsFilled n (older.block_of n (A.disk old.old).content) (B.disk new.new).content) }
    ensures rest { IsTrue (B.keeps_model new.old)
        → OnOk result (KeepsRest (B.disk new.old).content (B.disk new.new).content) }
    ensures label { IsTrue (A.keeps_model old.old) → IsTrue (B.keeps_model new.old) → OnOk result ((n : ℕ)
        → B.sector_count new.old ≡ sectors_for n → (B.disk new.new).content 0 ≡ label_of n) }
    ensures synced { IsTrue (A.keeps_model old.old) → IsTrue (B.keeps_model new.old)
        → OnOk result ((k : ℕ) → (B.disk new.new).unsynced k ≡ false) }
    ensures new_passes { Proceeds B.SectorDevice new.old new.new }
    // What an opening by the older layout looks at is read, and each block once.
    ensures old_reads { IsTrue (A.keeps_model old.old) → ReadsAtMost A.SectorDevice old.old old.new
        (reads_to_list (known_blocks (A.sector_count old.old)) (A.disk old.old).content + 2 * known_blocks (A.sector_count old.old) + 1) }
    // At most zeros over a label, of each block two halves and two tags, gate, two records and label are written.
    ensures new_begins { (n : ℕ) → B.sector_count new.old ≡ sectors_for n
        → BeginsAtMost B.SectorDevice new.old new.new (4 * n + 5) 4 }
    ensures new_reads { ReadsAtMost B.SectorDevice new.old new.new 1 }
{
    let blocks = blocks_of_both(old.sectors(), new.sectors())?;
    let mut listing = [0; 512];
    match find(old, blocks, &mut listing) {
        Ok(()) => carry(old, new, blocks, &listing),
        Err(fault) => Err(UpgradeFault::Old(fault)),
    }
}
