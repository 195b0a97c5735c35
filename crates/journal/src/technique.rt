// By which technique blocks are saved, and where it has them.
ghost use Rattle.std.specs.Prelude.{◌≡◌, ◌⊎◌, ◌<◌, ◌≤◌, ◌+◌, ◌*◌, ◌^◌, ℕ, List, not, length, IsTrue, OnOk, OnErr};
ghost use Rattle.sector_disk.specs.Disk.{MayLeave};
ghost use Rattle.journal.specs.Calls.{StopsLeave, CostsAtMost, Passes};
ghost use Rattle.journal.specs.Costs.{each_reads, each_writes, more_writes, save_syncs, spill_reads, spill_writes};
ghost use Rattle.journal.specs.Images.{home_of, HasHomes};
ghost use Rattle.journal.specs.Layout.{most_blocks, count_listed, open_gate_bytes};
ghost use Rattle.journal.specs.PageImages.{current_of};
ghost use Rattle.journal.specs.PageLayout as pages_layout;
ghost use Rattle.journal.specs.PageSteps as pages_steps;
ghost use Rattle.journal.specs.Steps.{WritesOnly, IsAsSynced};
ghost use Rattle.journal.specs.Steps as journal_steps;
ghost use Rattle.journal.specs.Suits.{suits};

use crate::layout::{BlockCount, home_sector, is_listed, slot_sector};
use crate::pages::layout::{current_sector, free_sector, sum};
use crate::pairs::{read_pair, write_pair};
use crate::{commit, pages};
use sector_disk::{DeviceFault, SectorDevice};

/// How blocks are saved.
#[derive(Drop)]
pub enum Technique {
    /// Layout 2: each block has a home, and a slot where it is spilled; a commit copies the slots to the homes.
    Journal,
    /// Layout 3: each block has two places, of which the record that the gate names tells the current one.
    Pages(NamedRecord),
}

/// The record that the gate of an image of layout 3 names.
#[derive(Drop)]
pub struct NamedRecord {
    /// Whether the gate is open.
    pub is_open: bool,
    /// The record.
    pub listing: [u8; 512],
}

impl Technique {
    ghost use Rattle.journal.specs.Store.{NamesLatest};
    ghost use Rattle.journal.specs.Technique.{saved_at, spilled_at, latest_at, saved_of, spilled_of, latest_of, record_sum, sectors_for, is_journal, HasBlocks, HasOneMore, IsSound, IsTagged, InSpill, HasSaved};
    ghost use Rattle.journal.specs.declared.technique.NamedRecord.{NamedRecord};
    ghost use Rattle.journal.specs.declared.technique.Technique.TheVariants.{Journal, Pages};

    // Where the latest text of a block is: as it was spilled last, or else as it was saved.
    fn latest_sector(&self, blocks: BlockCount, pending: &[u8; 512], b: u16) -> u32
        requires below { b < blocks.number }
        ensures place { result ≡ latest_at self.now blocks.number pending.now b }
        ensures small { result < 2 ^ 16 }
        ensures within { result + 1 < sectors_for self.now blocks.number }
    {
        if is_listed(pending, b) {
            self.spill_sector(blocks, b)
        } else {
            self.saved_sector(blocks, b)
        }
    }

    // Where a spill of a block goes.
    fn spill_sector(&self, blocks: BlockCount, b: u16) -> u32
        requires below { b < blocks.number }
        ensures place { result ≡ spilled_at self.now b }
        ensures small { result < 2 ^ 16 }
        ensures within { result + 1 < sectors_for self.now blocks.number }
    {
        match self {
            Technique::Journal => slot_sector(b),
            Technique::Pages(named) => free_sector(&named.listing, b),
        }
    }

    // Where a block is as it was saved.
    fn saved_sector(&self, blocks: BlockCount, b: u16) -> u32
        requires below { b < blocks.number }
        ensures place { result ≡ saved_at self.now blocks.number b }
        ensures small { result < 2 ^ 16 }
        ensures within { result + 1 < sectors_for self.now blocks.number }
    {
        match self {
            Technique::Journal => home_sector(blocks, b),
            Technique::Pages(named) => current_sector(&named.listing, b),
        }
    }

    /// Reads the latest text of a block of an image of so many blocks. A fault leaves `out` as it was.
    pub(crate) fn read<D: SectorDevice>(
        &self,
        device: &mut D,
        blocks: BlockCount,
        pending: &[u8; 512],
        b: u16,
        out: &mut [u8],
    ) -> Result<(), DeviceFault>
        requires below { b < blocks.number }
        requires size { D.sector_count device.old ≡ sectors_for self.now blocks.number }
        requires room { length out.old ≡ 1024 }
        ensures bytes { IsTrue (suits D.SectorDevice device.old)
            → OnOk result (out.new ≡ latest_of self.now blocks.number pending.now (D.disk device.old).content b) }
        ensures err { OnErr result (out.new ≡ out.old) }
        ensures disk { IsTrue (suits D.SectorDevice device.old) → D.disk device.new ≡ D.disk device.old }
        ensures stops { IsTrue (suits D.SectorDevice device.old)
            → StopsLeave D.SectorDevice device.old device.new (MayLeave (D.disk device.old)) }
        ensures suits { suits D.SectorDevice device.new ≡ suits D.SectorDevice device.old }
        ensures passes { Passes D.SectorDevice device.old device.new result }
        ensures costs { CostsAtMost D.SectorDevice device.old device.new 0 0 2 }
    {
        let k = self.latest_sector(blocks, pending, b);
        read_pair(device, k, out)
    }

    // The sum in the record that the gate names. By layout 2 there is none, and zeros stand for it.
    pub(crate) fn record_sum(&self) -> [u8; 32]
        ensures { result ≡ record_sum self.now }
    {
        match self {
            Technique::Journal => [0; 32],
            Technique::Pages(named) => sum(&named.listing),
        }
    }

    /// Writes a block of an image of so many blocks where a spill of it goes. By layout 3 its tag goes there too, and
    /// is exchanged in `sum`, that of the record that the next save writes.
    pub(crate) fn write<D: SectorDevice>(
        &self,
        device: &mut D,
        blocks: BlockCount,
        pending: &[u8; 512],
        sum: &mut [u8; 32],
        b: u16,
        bytes: &[u8],
    ) -> Result<(), DeviceFault>
        requires below { b < blocks.number }
        requires size { D.sector_count device.old ≡ sectors_for self.now blocks.number }
        requires whole { length bytes.now ≡ 1024 }
        ensures ok { IsTrue (suits D.SectorDevice device.old)
            → OnOk result (spilled_of self.now (D.disk device.new).content b ≡ bytes.now) }
        // Once the block is pending, each pending block has its tag, as those did that were before.
        ensures tagged { IsTrue (suits D.SectorDevice device.old)
            → IsTagged self.now blocks.number pending.now sum.old (D.disk device.old).content
            → OnOk result ((next : List ℕ) → HasOneMore pending.now b next
            → IsTagged self.now blocks.number next sum.new (D.disk device.new).content) }
        ensures only { IsTrue (suits D.SectorDevice device.old)
            → WritesOnly (InSpill self.now b) (D.disk device.old) (D.disk device.new) }
        ensures stops { IsTrue (suits D.SectorDevice device.old)
            → StopsLeave D.SectorDevice device.old device.new (IsAsSynced (InSpill self.now b) (D.disk device.old)) }
        ensures suits { suits D.SectorDevice device.new ≡ suits D.SectorDevice device.old }
        ensures passes { Passes D.SectorDevice device.old device.new result }
        ensures costs { CostsAtMost D.SectorDevice device.old device.new
            (spill_writes (is_journal self.now)) 0 (spill_reads (is_journal self.now)) }
    {
        match self {
            Technique::Journal => write_pair(device, slot_sector(b), bytes),
            Technique::Pages(named) => pages::spill(device, &named.listing, pending, sum, b, bytes),
        }
    }

    /// Makes the latest texts of an image of so many blocks the saved ones, all at once. By layout 3 the record that
    /// says so has this sum.
    pub(crate) fn save<D: SectorDevice>(
        &mut self,
        device: &mut D,
        blocks: BlockCount,
        pending: &[u8; 512],
        sum: &[u8; 32],
    ) -> Result<(), DeviceFault>
        requires size { D.sector_count device.old ≡ sectors_for self.old blocks.number }
        requires sound { IsTrue (suits D.SectorDevice device.old) → IsSound self.old blocks.number (D.disk device.old) }
        requires tagged { IsTrue (suits D.SectorDevice device.old)
            → IsTagged self.old blocks.number pending.now sum.now (D.disk device.old).content }
        ensures ok { IsTrue (suits D.SectorDevice device.old)
            → OnOk result (HasSaved self.old self.new blocks.number pending.now (D.disk device.old) (D.disk device.new)) }
        ensures stops { IsTrue (suits D.SectorDevice device.old) → StopsLeave D.SectorDevice device.old device.new
            (λ c. HasBlocks self.old blocks.number (saved_of self.old blocks.number (D.disk device.old).content) c
            ⊎ HasBlocks self.old blocks.number (latest_of self.old blocks.number pending.now (D.disk device.old).content) c) }
        // The layout stays.
        ensures journal { is_journal self.new ≡ is_journal self.old }
        ensures sectors { sectors_for self.new blocks.number ≡ sectors_for self.old blocks.number }
        // By layout 2 homes are half done only under a gate that is open and whole; then the record is that of what was pending, and
        // the gate zeros.
        ensures gate { self.old ≡ Journal → IsTrue (suits D.SectorDevice device.old) → StopsLeave D.SectorDevice device.old device.new
            (λ c. (c 1 ≡ open_gate_bytes) ⊎ HasHomes blocks.number (home_of blocks.number (D.disk device.old).content) c
            ⊎ HasHomes blocks.number (latest_of Journal blocks.number pending.now (D.disk device.old).content) c) }
        ensures applied { self.old ≡ Journal → IsTrue (suits D.SectorDevice device.old)
            → OnOk result (journal_steps.HasSaved blocks.number pending.now (D.disk device.old) (D.disk device.new)) }
        // By layout 3 the gate names the other record, which lists the other places of what was pending.
        ensures named { (named : NamedRecord) → self.old ≡ Pages named → IsTrue (suits D.SectorDevice device.old)
            → OnOk result (NamesLatest blocks.number named.is_open named.listing pending.now (D.disk device.new).content) }
        ensures suits { suits D.SectorDevice device.new ≡ suits D.SectorDevice device.old }
        ensures passes { Passes D.SectorDevice device.old device.new result }
        ensures costs { CostsAtMost D.SectorDevice device.old device.new
            (each_writes (is_journal self.old) * count_listed pending.now blocks.number + more_writes (is_journal self.old))
            (save_syncs (is_journal self.old)) (each_reads (is_journal self.old) * count_listed pending.now blocks.number) }
    {
        match self {
            Technique::Journal => commit::save(device, blocks, pending),
            Technique::Pages(named) => named.save(device, blocks, pending, sum),
        }
    }
}

impl NamedRecord {
    // Makes the free places of the pending blocks their current ones, all at once.
    fn save<D: SectorDevice>(
        &mut self,
        device: &mut D,
        blocks: BlockCount,
        pending: &[u8; 512],
        sum: &[u8; 32],
    ) -> Result<(), DeviceFault>
        requires size { D.sector_count device.old ≡ pages_layout.sectors_for blocks.number }
        requires sound { IsTrue (D.keeps_model device.old)
            → pages_steps.IsSound blocks.number self.old.is_open self.old.listing (D.disk device.old) }
        requires spilled { IsTrue (D.keeps_model device.old)
            → pages_steps.HasSpilled blocks.number self.old.listing pending.now sum.now (D.disk device.old).content }
        ensures ok { IsTrue (D.keeps_model device.old) → OnOk result (pages_steps.HasSaved blocks.number
            self.old.is_open self.old.listing pending.now self.new.listing (D.disk device.old) (D.disk device.new)) }
        ensures turned { OnOk result (self.new.is_open ≡ not self.old.is_open) }
        ensures stops { IsTrue (D.keeps_model device.old) → StopsLeave D.SectorDevice device.old device.new
            (λ c. pages_steps.HasBlocks blocks.number (current_of self.old.listing (D.disk device.old).content) c
            ⊎ pages_steps.HasBlocks blocks.number (pages_steps.merged self.old.listing pending.now (D.disk device.old).content) c) }
        ensures passes { Passes D.SectorDevice device.old device.new result }
        ensures costs { CostsAtMost D.SectorDevice device.old device.new 2 2 0 }
    {
        let was_open = self.is_open;
        match pages::save(
            device,
            blocks.number,
            was_open,
            &mut self.listing,
            pending,
            sum,
        ) {
            Ok(()) => {
                self.is_open = !was_open;
                Ok(())
            }
            Err(fault) => Err(fault),
        }
    }
}
