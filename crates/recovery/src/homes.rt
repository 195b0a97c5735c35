// Images of layout 2 are laid with each block in its home.
ghost use Rattle.std.specs.Prelude.{◌≡◌, ◌≢◌, ◌<◌, ◌≤◌, ◌+◌, ℕ, true, List, IsTrue, OnOk, replicate};
ghost use Rattle.sector_disk.specs.Disk.{Image, written};
ghost use Rattle.journal.specs.Calls.{StopsLeave, CostsAtMost, Passes};
ghost use Rattle.journal.specs.declared.sizes.Layout.TheVariants.{Journal};
ghost use Rattle.journal.specs.Steps.{InSlots, WritesOnly, IsAsSynced};
ghost use Rattle.recovery.specs.Homes.{HasHomesBelow, HasHomesOf, homes_apart, slots_apart};

use crate::targets::Target;
use journal::layout::{BlockCount, GATE, RECORD, home_sector, label};
use journal::{write_pair, write_sector};
use sector_disk::{DeviceFault, SectorDevice};

/// Layout 2: blocks in their homes, under a closed gate and a record of zeros. The slots are left as they are.
#[derive(Clone, Copy)]
pub struct Homes;

impl Target for Homes {
    ghost layout = { Journal };

    ghost block_writes = { 2 };

    ghost first_writes = { 2 };

    ghost last_writes = { 0 };

    ghost is_left = { InSlots };

    ghost has_laid = { λ target. HasHomesBelow };

    ghost has_filled = { λ target. HasHomesOf };

    ghost left_apart = { slots_apart };

    ghost filled_apart = { λ target. homes_apart };

    fn label(&self, blocks: BlockCount) -> [u8; 512] {
        label(blocks.number)
    }

    fn begin<D: SectorDevice>(
        &mut self,
        device: &mut D,
        _blocks: BlockCount,
    ) -> Result<(), DeviceFault> {
        fill_head(device)
    }

    fn lay_block<D: SectorDevice>(
        &mut self,
        device: &mut D,
        blocks: BlockCount,
        b: u16,
        bytes: &[u8; 1024],
    ) -> Result<(), DeviceFault> {
        write_pair(device, home_sector(blocks, b), bytes)
    }

    fn finish<D: SectorDevice>(
        &mut self,
        _device: &mut D,
        _blocks: BlockCount,
    ) -> Result<(), DeviceFault> {
        Ok(())
    }
}

// Closes the gate and clears the record. Nothing is synced.
fn fill_head<D: SectorDevice>(device: &mut D) -> Result<(), DeviceFault>
    requires { 3 ≤ D.sector_count device.old }
    ensures ok { IsTrue (D.keeps_sectors device.old)
        → OnOk result (D.disk device.new ≡ written (written (D.disk device.old) 1 (replicate 512 0)) 2 (replicate 512 0)) }
    ensures only { IsTrue (D.keeps_sectors device.old)
        → WritesOnly (λ k. k ≢ 0) (D.disk device.old) (D.disk device.new) }
    ensures stops { IsTrue (D.keeps_sectors device.old)
        → StopsLeave D.SectorDevice device.old device.new (IsAsSynced (λ k. k ≢ 0) (D.disk device.old)) }
    ensures passes { Passes D.SectorDevice device.old device.new result }
    ensures costs { CostsAtMost D.SectorDevice device.old device.new 2 0 0 }
{
    write_sector(device, GATE, &[0; 512])?;
    write_sector(device, RECORD, &[0; 512])
}
