// A store of either layout gives its device back, and goes on later.
ghost use Rattle.std.specs.Prelude.{◌≡◌, ℕ, true, false, IsTrue};
ghost use Rattle.journal.specs.Store.{blocks_of, closed_of, device_of, is_pending, technique_of};
ghost use Rattle.journal.specs.Suits.{suits};
ghost use Rattle.shadow.specs.Label.{is_known_size};
ghost use Rattle.shadow.specs.Upgraded.{known_blocks};
ghost use Rattle.stores.specs.Resting.{HasRested, Names, StandsAsRested};

use journal::sizes::is_older;
use journal::{NamedRecord, Store, Technique};
use sector_disk::SectorDevice;

/// A store of `blocks` blocks, the number that the device's size tells, over a device that an open store gave back,
/// with nothing spilled since its last commit, and of which `named` had told the gate and its record then. It goes on
/// as that one would have. Makes no device call.
/// Rule: IMAGE, A save; IMAGE, Layout 3, A save.
#[inline(never)] // what makes the store isn't to lie on the stack beside it
pub fn resume<D: SectorDevice>(
    device: D,
    blocks: u16,
    is_open: bool,
    listing: &[u8; 512],
) -> Store<D>
    requires known { is_known_size (D.sector_count device) ≡ true }
    requires count { blocks ≡ known_blocks (D.sector_count device) }
    requires rested { IsTrue (suits D.SectorDevice device) → HasRested D.SectorDevice device is_open listing.now }
    ensures device { device_of result ≡ device }
    ensures blocks { blocks_of result ≡ blocks }
    ensures closed { closed_of result ≡ false }
    ensures pending { (b : ℕ) → is_pending result b ≡ false }
    ensures state { StandsAsRested D.SectorDevice device is_open listing.now result }
{
    if is_older(&device) {
        return Store::resume(device, blocks, Technique::Journal);
    }
    let named = NamedRecord {
        is_open,
        listing: *listing,
    };
    Store::resume(device, blocks, Technique::Pages(named))
}

/// What `resume` has to be told of the image of an open store. By layout 3 it is whether the gate is open, and the
/// record that the gate names, which is put into `listing`. By layout 2 it is nothing: false, and `listing` is left.
/// What is told of a closed store needn't be so of its image: a save that failed may have left another gate there.
/// Rule: IMAGE, Layout 3.
pub fn named<D: SectorDevice>(store: &Store<D>, listing: &mut [u8; 512]) -> bool
    ensures { Names (technique_of store.now) result listing.new }
{
    match store.technique() {
        Technique::Journal => false,
        Technique::Pages(named) => {
            *listing = named.listing;
            named.is_open
        }
    }
}
