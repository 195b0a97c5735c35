// An image of either layout is opened after a stop.
ghost use Rattle.std.specs.Prelude.{◌≡◌, ◌*◌, ◌+◌, ◌≢◌, ◌⊎◌, ◌<◌, ◌≤◌, ℕ, true, false, Some, None, IsTrue, OnOk, IfOk, IfErr, MatchBool, MatchResult};
ghost use Rattle.sector_disk.specs.Counting.{count_up};
ghost use Rattle.sector_disk.specs.Disk.{Image, MayLeave};
ghost use Rattle.sector_disk.specs.Moments.{Elapses};
ghost use Rattle.journal.specs.Calls.{StopsLeave, BeginsAtMost, ReadsAtMost, Proceeds};
ghost use Rattle.journal.specs.Maps.{fresh};
ghost use Rattle.recovery.specs.Label.{is_size};
ghost use Rattle.recovery.specs.declared.fault.OpenFault.TheVariants.{BadSize, Device};
ghost use Rattle.shadow.specs.Label.{is_known_size};
ghost use Rattle.shadow.specs.Upgraded.{known_blocks};
ghost use Rattle.journal.specs.BySize.{Means};
ghost use Rattle.journal.specs.Layouts.{sectors_for};
ghost use Rattle.journal.specs.declared.sizes.Layout.TheVariants.{Journal};
ghost use Rattle.stores.specs.ByLayout.{Opens};
ghost use Rattle.stores.specs.Images.{HasMeaning, meaning};
ghost use Rattle.stores.specs.Opened.{image_refusal, IsReady, OpeningLeaves, end_of, writes_for, syncs_for, reads_for};
ghost use Rattle.journal.specs.Suits.{suits};
ghost use Rattle.journal.specs.Store.{device_of, disk_of, blocks_of, sectors_of, closed_of, is_pending, StandsFor};

use journal::Store;
use journal::layout::VERSION;
use journal::sizes::{Layout, Size, is_older, size_of};
use recovery::{OpenFault, recover};
use sector_disk::SectorDevice;
use shadow::survey;

// What an opening does to an image of this size. It answers whether the gate is open.
#[inline(never)] // what it reads isn't to lie on the stack below a store
fn ready_by<D: SectorDevice>(
    device: &mut D,
    size: Size,
    listing: &mut [u8; 512],
) -> Result<bool, OpenFault>
    requires { D.sector_count device.old ≡ sectors_for size.layout size.blocks.number }
    ensures opens { Opens D.SectorDevice size.layout size.blocks.number device.old device.new listing.new result }
    // Of layout 2 no more is told.
    ensures gate { size.layout ≡ Journal → IfOk result (λ is_open. is_open ≡ false) }
    ensures left { size.layout ≡ Journal → listing.new ≡ listing.old }
{
    match size.layout {
        Layout::Journal => match recover(device, VERSION, size.blocks) {
            Ok(()) => Ok(false),
            Err(fault) => Err(fault),
        },
        Layout::Pages => survey(device, size.blocks, listing),
    }
}

/// Makes an image of either layout ready for a store after a stop, and answers how many blocks it has, and whether its
/// gate is open. How many sectors the device has tells the layout. Of layout 2 what an open gate asks for is done, so
/// that it is closed then, and `listing` is left; of layout 3 all blocks are looked at, nothing is written, and the
/// record that the gate names is put into `listing`. A stop within this call, however often, loses nothing. After an
/// error `listing` may be anything. Takes no memory.
///
/// It refuses, in this order, a device of a size that no image has (BadSize, with no device call), one without the name
/// and zeros of a label (NoLabel), a label of another version than that of images of this size (OtherVersion) or of
/// another number of blocks (WrongCount), and a damaged image (Damaged). Device comes where a call of the device
/// failed.
/// Rule: IMAGE, A recovery; IMAGE, Layout 3, An opening; DECISIONS, The device and the image.
pub fn ready<D: SectorDevice>(
    device: &mut D,
    listing: &mut [u8; 512],
) -> Result<(u16, bool), OpenFault>
    // A store may be made over it, of the blocks that the image meant.
    ensures is_ready { IsTrue (suits D.SectorDevice device.old) → IfOk result (λ found.
        IsReady (D.sector_count device.old) found.0 found.1 listing.new (D.disk device.new)) }
    ensures same { IsTrue (suits D.SectorDevice device.old) → OnOk result (meaning (D.sector_count device.old) (D.disk device.new).content
        ≡ meaning (D.sector_count device.old) (D.disk device.old).content) }
    ensures blocks { IfOk result (λ found. found.0 ≡ known_blocks (D.sector_count device.old)) }
    // Of layout 2 no more is told.
    ensures gate { is_size (D.sector_count device.old) ≡ true → IfOk result (λ found. found.1 ≡ false) }
    ensures left { is_size (D.sector_count device.old) ≡ true → listing.new ≡ listing.old }

    // BadSize comes exactly where no image has this size, over any device and with no call of it.
    ensures sized { OnOk result (is_known_size (D.sector_count device.old) ≡ true) }
    ensures bad_size { IfErr result (λ e. MatchBool (is_known_size (D.sector_count device.old)) (e ≢ BadSize) (e ≡ BadSize)) }
    ensures unasked { IfErr result (λ e. e ≡ BadSize → device.new ≡ device.old) }
    // Each refusal tells the first test that the image fails.
    ensures exact { IsTrue (suits D.SectorDevice device.old) → MatchResult result
        (λ _. image_refusal (D.sector_count device.old) (D.disk device.old).content ≡ None)
        (λ e. (e ≡ Device) ⊎ (image_refusal (D.sector_count device.old) (D.disk device.old).content ≡ Some e)) }
    // What is made ready has a meaning, and what has one is refused only by a fault of the device.
    ensures meaning { IsTrue (suits D.SectorDevice device.old)
        → IfOk result (λ _. HasMeaning (D.sector_count device.old) (D.disk device.old).content) }
    ensures good { IsTrue (suits D.SectorDevice device.old) → is_known_size (D.sector_count device.old) ≡ true
        → HasMeaning (D.sector_count device.old) (D.disk device.old).content → IfErr result (λ e. e ≡ Device) }
    ensures device { IfErr result (λ e. e ≡ Device → D.failures device.new ≡ count_up (D.failures device.old)) }
    ensures refused { IfErr result (λ e. e ≢ Device → D.failures device.new ≡ D.failures device.old) }
    ensures well { OnOk result (D.failures device.new ≡ D.failures device.old) }
    // Another refusal wrote nothing.
    ensures unwritten { IfErr result (λ e. e ≢ Device → BeginsAtMost D.SectorDevice device.old device.new 0 1) }
    ensures content { IsTrue (suits D.SectorDevice device.old)
        → IfErr result (λ e. e ≢ Device → (D.disk device.new).content ≡ (D.disk device.old).content) }

    // What a stop at any moment leaves.
    ensures stops { IsTrue (suits D.SectorDevice device.old) → is_known_size (D.sector_count device.old) ≡ true
        → StopsLeave D.SectorDevice device.old device.new (OpeningLeaves (D.sector_count device.old) (D.disk device.old)) }
    ensures passes { Proceeds D.SectorDevice device.old device.new }
    ensures begins { IsTrue (suits D.SectorDevice device.old) → is_known_size (D.sector_count device.old) ≡ true
        → BeginsAtMost D.SectorDevice device.old device.new (writes_for (D.sector_count device.old) (D.disk device.old).content)
        (syncs_for (D.sector_count device.old) (D.disk device.old).content) }
    ensures reads { IsTrue (suits D.SectorDevice device.old) → is_known_size (D.sector_count device.old) ≡ true
        → ReadsAtMost D.SectorDevice device.old device.new (reads_for (D.sector_count device.old) (D.disk device.old).content) }
{
    match size_of(device.sectors()) {
        Some(size) => match ready_by(device, size, listing) {
            Ok(is_open) => Ok((size.blocks.number, is_open)),
            Err(fault) => Err(fault),
        },
        None => Err(OpenFault::BadSize),
    }
}

/// A store of `blocks` blocks, the number that the device's size tells, over an image that `ready` has made ready and
/// told of. Makes no device call.
/// Rule: IMAGE, A recovery; IMAGE, Layout 3, An opening.
pub fn adopt<D: SectorDevice>(
    device: D,
    blocks: u16,
    is_open: bool,
    listing: &[u8; 512],
) -> Store<D>
    requires known { is_known_size (D.sector_count device) ≡ true }
    requires count { blocks ≡ known_blocks (D.sector_count device) }
    requires is_ready { IsTrue (suits D.SectorDevice device)
        → IsReady (D.sector_count device) blocks is_open listing.now (D.disk device) }
    ensures device { device_of result ≡ device }
    ensures blocks { blocks_of result ≡ blocks }
    ensures closed { closed_of result ≡ false }
    ensures pending { (b : ℕ) → is_pending result b ≡ false }
    ensures state { IsTrue (suits D.SectorDevice device)
        → StandsFor result (fresh (meaning (D.sector_count device) (D.disk device).content)) }
{
    if is_older(&device) {
        Store::adopt(device, blocks)
    } else {
        Store::adopt_pages(device, blocks, is_open, listing)
    }
}

/// Opens an image of either layout after a stop, and answers a store of its blocks, for which `ready` makes it ready.
/// It refuses as that does. An error hands the device back. Takes no memory.
/// Rule: IMAGE, A recovery; IMAGE, Layout 3, An opening; DECISIONS, The device and the image.
pub fn open<D: SectorDevice>(mut device: D) -> Result<Store<D>, (OpenFault, D)>
    // The store has the blocks that the image meant.
    ensures ok { IsTrue (suits D.SectorDevice device) → IfOk result (λ store.
        StandsFor store (fresh (meaning (D.sector_count device) (D.disk device).content))) }
    ensures closed { IfOk result (λ store. closed_of store ≡ false) }
    ensures pending { IfOk result (λ store. (b : ℕ) → is_pending store b ≡ false) }
    ensures size { IfOk result (λ store. D.sector_count device ≡ sectors_of store) }
    ensures blocks { IfOk result (λ store. blocks_of store ≡ known_blocks (D.sector_count device)) }

    // BadSize comes exactly where no image has this size, over any device and with no call of it.
    ensures sized { IfOk result (λ _. is_known_size (D.sector_count device) ≡ true) }
    ensures bad_size { IfErr result (λ e. MatchBool (is_known_size (D.sector_count device)) (e.0 ≢ BadSize) (e.0 ≡ BadSize)) }
    ensures unasked { IfErr result (λ e. e.0 ≡ BadSize → e.1 ≡ device) }
    // Each refusal tells the first test that the image fails.
    ensures exact { IsTrue (suits D.SectorDevice device) → MatchResult result
        (λ _. image_refusal (D.sector_count device) (D.disk device).content ≡ None)
        (λ e. (e.0 ≡ Device) ⊎ (image_refusal (D.sector_count device) (D.disk device).content ≡ Some e.0)) }
    // What is opened has a meaning, and what has one is refused only by a fault of the device.
    ensures meaning { IsTrue (suits D.SectorDevice device)
        → IfOk result (λ _. HasMeaning (D.sector_count device) (D.disk device).content) }
    ensures good { IsTrue (suits D.SectorDevice device) → is_known_size (D.sector_count device) ≡ true
        → HasMeaning (D.sector_count device) (D.disk device).content → IfErr result (λ e. e.0 ≡ Device) }
    ensures device { IfErr result (λ e. e.0 ≡ Device → D.failures e.1 ≡ count_up (D.failures device)) }
    ensures refused { IfErr result (λ e. e.0 ≢ Device → D.failures e.1 ≡ D.failures device) }
    ensures well { IfOk result (λ store. D.failures (device_of store) ≡ D.failures device) }
    // Another refusal wrote nothing.
    ensures unwritten { IfErr result (λ e. e.0 ≢ Device → BeginsAtMost D.SectorDevice device e.1 0 1) }
    ensures content { IsTrue (suits D.SectorDevice device)
        → IfErr result (λ e. e.0 ≢ Device → (D.disk e.1).content ≡ (D.disk device).content) }

    // What a stop at any moment leaves. Once it has returned, a stop leaves the blocks that the image meant.
    ensures stops { IsTrue (suits D.SectorDevice device) → is_known_size (D.sector_count device) ≡ true
        → StopsLeave D.SectorDevice device (end_of result) (OpeningLeaves (D.sector_count device) (D.disk device)) }
    ensures after { IsTrue (suits D.SectorDevice device) → IfOk result (λ store. (image : Image) → MayLeave (disk_of store) image
        → Means (D.sector_count device) (meaning (D.sector_count device) (D.disk device).content) image) }
    ensures time { Elapses D.time D.left_since device (end_of result) }
    ensures failures { D.failures device ≤ D.failures (end_of result) }
    ensures sectors { D.sector_count (end_of result) ≡ D.sector_count device }
    ensures model { suits D.SectorDevice (end_of result) ≡ suits D.SectorDevice device }
    ensures begins { IsTrue (suits D.SectorDevice device) → is_known_size (D.sector_count device) ≡ true
        → BeginsAtMost D.SectorDevice device (end_of result) (writes_for (D.sector_count device) (D.disk device).content)
        (syncs_for (D.sector_count device) (D.disk device).content) }
    ensures reads { IsTrue (suits D.SectorDevice device) → is_known_size (D.sector_count device) ≡ true
        → ReadsAtMost D.SectorDevice device (end_of result) (reads_for (D.sector_count device) (D.disk device).content) }
{
    let mut listing = [0; 512];
    match ready(&mut device, &mut listing) {
        Ok((number, is_open)) => Ok(adopt(device, number, is_open, &listing)),
        Err(fault) => Err((fault, device)),
    }
}
