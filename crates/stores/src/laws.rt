//! Laws of the definitions.
//! Rule: SEMANTICS, Laws.
ghost use Rattle.std.specs.Prelude.{◌≡◌, false, IsTrue};
ghost use Rattle.journal.specs.Maps.{Maps};
ghost use Rattle.recovery.specs.Label.{is_size};
ghost use Rattle.journal.specs.Store.{device_of, StandsFor};
ghost use Rattle.journal.specs.Suits.{suits};

use journal::Store;
use sector_disk::SectorDevice;

/// Does nothing. Its contract is a law: over each device that suits it a store stands for some maps.
pub fn stands<D: SectorDevice>(store: &Store<D>)
    ensures { IsTrue (suits D.SectorDevice (device_of store.now)) → (m : Maps) × StandsFor store.now m }
{}

/// Does nothing. Its contract is a law: a device that keeps the disk model by sectors suits a store of either layout.
pub fn sectors<D: SectorDevice>(device: &D)
    ensures { IsTrue (D.keeps_sectors device.now) → IsTrue (suits D.SectorDevice device.now) }
{}

/// Does nothing. Its contract is a law: a device that keeps the disk model suits a store of layout 3.
pub fn pages<D: SectorDevice>(device: &D)
    ensures { is_size (D.sector_count device.now) ≡ false
        → IsTrue (D.keeps_model device.now) → IsTrue (suits D.SectorDevice device.now) }
{}
