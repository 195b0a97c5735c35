//! Laws: the premises on devices and files are met.
ghost use Rattle.std.specs.Prelude.{◌≡◌, false, IsTrue};
ghost use Rattle.journal.specs.Layouts.{asks};
ghost use Rattle.journal.specs.declared.sizes.Layout.{Layout};
ghost use Rattle.recovery.specs.Label.{is_size};
ghost use Rattle.journal.specs.Suits.{suits};

use sector_disk::{MemoryDisk, SectorDevice, SectorFile};
use test_devices::{Coarse, MemoryFile, PagedFile, Recorded};

/// Does nothing. Its contract is a law: a disk in memory suits a store of either layout.
pub fn disks_in_memory(device: &MemoryDisk)
    ensures { IsTrue (suits ⟦<MemoryDisk as SectorDevice>⟧ device.now) }
{}

/// Does nothing. Its contract is a law: it keeps the model as each layout asks for it.
pub fn disks_in_memory_by_layout(device: &MemoryDisk)
    ensures { (layout : Layout) → IsTrue (asks ⟦<MemoryDisk as SectorDevice>⟧ layout device.now) }
{}

/// Does nothing. Its contract is a law: a disk that has its whole history suits a store of either layout.
pub fn recorded_disks(device: &Recorded)
    ensures { IsTrue (suits ⟦<Recorded as SectorDevice>⟧ device.now) }
{}

/// Does nothing. Its contract is a law: a disk whose sectors lie in units of eight suits a store of layout 3.
pub fn disks_in_eights(device: &Coarse)
    ensures { is_size (⟦<Coarse as SectorDevice>⟧.sector_count device.now) ≡ false
        → IsTrue (suits ⟦<Coarse as SectorDevice>⟧ device.now) }
{}

/// Does nothing. Its contract is a law: a file in memory, as a device, suits a store of either layout.
pub fn files_in_memory(device: &SectorFile<MemoryFile>)
    ensures { IsTrue (suits ⟦<SectorFile<MemoryFile> as SectorDevice>⟧ device.now) }
{}

/// Does nothing. Its contract is a law: a file in memory that lies in pages, as a device, suits a store of layout 3.
pub fn files_in_pages(device: &SectorFile<PagedFile>)
    ensures { is_size (⟦<SectorFile<PagedFile> as SectorDevice>⟧.sector_count device.now) ≡ false
        → IsTrue (suits ⟦<SectorFile<PagedFile> as SectorDevice>⟧ device.now) }
{}
