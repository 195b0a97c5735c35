//! What C is promised of its calls, over any device: each function is a call of `exports` on a device in the place of
//! its number, which it answers beside the number that C is told, and a session on a reader and a writer in the place
//! of its consoles. `HostDisk` is such a device over any host, `HostInput` and `HostOutput` are these over any console.
//! Rule: EMBEDDING, What is proved.
ghost use Rattle.std.specs.Prelude.{◌≡◌, ◌≢◌, ◌↔◌, true, ◌≤◌, if◌then◌else◌, ℕ, List, None, Some, length, IsTrue, IfSome, MatchBool};
ghost use Rattle.journal.specs.Calls.{StopsLeave};
ghost use Rattle.journal.specs.Maps.{block_in};
ghost use Rattle.recovery.specs.Opened.{first_of};
ghost use Rattle.recovery.specs.Formatted.{blank_blocks};
ghost use Rattle.journal.specs.Suits.{suits};
ghost use Rattle.shadow.specs.Label.{is_known_size};
ghost use Rattle.sessions.specs.Devices.{Becomes};
ghost use Rattle.hosted.specs.Calls.{AllOrNone, KeepsBlocks, LeavesBlocks, MayRecover, MeansOn, meant_by};
ghost use Rattle.hosted.specs.Costs.{Begins, OpeningBegins, ReadingBegins, SavesAtMost, SavingBegins};
ghost use Rattle.hosted.specs.Keeping.{KeepsOpen, MayStayOpen, SamePlace, SavesOpen, StaysOpen, gate_in, not_open};
ghost use Rattle.hosted.specs.Making.{FormattingLeaves, fits_image, writes_to_format};
ghost use Rattle.sessions.specs.declared.run_fault.RunFault.TheVariants.{Read as ReadFault, Write as WriteFault};
ghost use Rattle.hosted.specs.Refusals.{IsOfImage, TellsFirst, code_of, failures_told, read_refusal, save_refusal, refusal_of};
ghost use Rattle.hosted.specs.Saving.{with_blocks};
ghost use Rattle.hosted.specs.Sessions.{BreaksSession, RanNothing, RunsSession, TellsSession};

use crate::block_calls::{read_block, recover, save_blocks};
use crate::image_sessions::run_image;
use crate::kept_calls::{open_kept, read_kept, save_kept};
use crate::making::make_image;
use crate::open_store::{OpenStore, close, gate, told_kept};
use crate::refusal::{Refusal, told};
use sector_disk::SectorDevice;
use std::alloc::Global;
use std::io::{Read, Write};

/// The answer where no store is open.
pub const NOT_OPEN: u8 = 13;

/// `silgwyrad_format`: makes an image of blank blocks, by the layout that the sectors tell. It answers 0, or `BadSize`
/// where 32 to 3,840 blocks don't fit the sectors, or `Device`, by their numbers.
pub fn format_over<D: SectorDevice>(device: D, blocks: u16) -> (u8, D)
    ensures done { IsTrue (suits D.SectorDevice device) → result.0 ≡ 0 → LeavesBlocks D.SectorDevice result.1 (blank_blocks blocks) }
    ensures stops { IsTrue (suits D.SectorDevice device) → fits_image blocks (D.sector_count device) ≡ true
        → StopsLeave D.SectorDevice device result.1 (FormattingLeaves D.SectorDevice device blocks) }
    ensures exact { TellsFirst result.0 (if fits_image blocks (D.sector_count device) then None else Some Refusal.BadSize) }
    ensures size { MatchBool (fits_image blocks (D.sector_count device)) (result.0 ≢ code_of Refusal.BadSize) (result.0 ≡ code_of Refusal.BadSize) }
    ensures unasked { result.0 ≡ code_of Refusal.BadSize → result.1 ≡ device }
    ensures failures { D.failures result.1 ≡ failures_told result.0 (D.failures device) }
    ensures goes { Becomes D.SectorDevice device result.1 }
    ensures begins { Begins D.SectorDevice device result.1 (writes_to_format (D.sector_count device) blocks) 4 1 }
    ensures listed { result.0 ≤ 12 }
{
    told(make_image(device, blocks))
}

/// `silgwyrad_recover`: finishes what a stop has left half done. It answers 0 or the number of a refusal: `BadSize`,
/// `NoLabel`, `OtherVersion`, `WrongCount` or `Damaged`, the first that holds, or `Device`.
pub fn recover_over<D: SectorDevice>(device: D) -> (u8, D)
    ensures done { IsTrue (suits D.SectorDevice device) → result.0 ≡ 0
        → LeavesBlocks D.SectorDevice result.1 (meant_by D.SectorDevice device) }
    ensures stops { IsTrue (suits D.SectorDevice device)
        → StopsLeave D.SectorDevice device result.1 (MayRecover D.SectorDevice device) }
    ensures exact { IsTrue (suits D.SectorDevice device)
        → TellsFirst result.0 (refusal_of (D.sector_count device) (D.disk device).content) }
    ensures size { MatchBool (is_known_size (D.sector_count device)) (result.0 ≢ code_of Refusal.BadSize) (result.0 ≡ code_of Refusal.BadSize) }
    ensures unasked { result.0 ≡ code_of Refusal.BadSize → result.1 ≡ device }
    // Where it is refused for anything but the device, what the device holds is as it was.
    ensures content { IsTrue (suits D.SectorDevice device) → result.0 ≢ 0 → result.0 ≢ code_of Refusal.Device
        → (D.disk result.1).content ≡ (D.disk device).content }
    ensures failures { D.failures result.1 ≡ failures_told result.0 (D.failures device) }
    ensures goes { Becomes D.SectorDevice device result.1 }
    ensures begins { IsTrue (suits D.SectorDevice device) → OpeningBegins D.SectorDevice device result.1 }
    ensures listed { result.0 ≤ 12 }
{
    told(recover(device))
}

/// `silgwyrad_read`: reads a block, whose 1,024 bytes are put into `out`. It answers 0 or the number of a refusal:
/// `BadSize`, `NoBlock`, `BadLength`, then those of `recover_over`.
pub fn read_over<D: SectorDevice>(device: D, block: u16, out: &mut [u8]) -> (u8, D)
    ensures bytes { IsTrue (suits D.SectorDevice device) → result.0 ≡ 0 → out.new ≡ block_in (meant_by D.SectorDevice device) block }
    ensures kept { result.0 ≢ 0 → out.new ≡ out.old }
    ensures done { IsTrue (suits D.SectorDevice device) → result.0 ≡ 0
        → LeavesBlocks D.SectorDevice result.1 (meant_by D.SectorDevice device) }
    ensures stops { IsTrue (suits D.SectorDevice device)
        → StopsLeave D.SectorDevice device result.1 (KeepsBlocks D.SectorDevice device) }
    ensures exact { IsTrue (suits D.SectorDevice device)
        → TellsFirst result.0 (first_of (read_refusal (D.sector_count device) block (length out.old))
        (refusal_of (D.sector_count device) (D.disk device).content)) }
    ensures arguments { IfSome (read_refusal (D.sector_count device) block (length out.old))
        (λ e. (result.0 ≡ code_of e) × (result.1 ≡ device)) }
    ensures fits { result.0 ≡ 0 → read_refusal (D.sector_count device) block (length out.old) ≡ None }
    ensures content { IsTrue (suits D.SectorDevice device) → result.0 ≢ 0 → result.0 ≢ code_of Refusal.Device
        → (D.disk result.1).content ≡ (D.disk device).content }
    ensures failures { D.failures result.1 ≡ failures_told result.0 (D.failures device) }
    ensures goes { Becomes D.SectorDevice device result.1 }
    ensures begins { IsTrue (suits D.SectorDevice device) → ReadingBegins D.SectorDevice device result.1 }
    ensures listed { result.0 ≤ 12 }
{
    told(read_block(device, block, out))
}

/// `silgwyrad_save`: saves blocks, all or none. `bytes` has 1,024 for each. It answers 0 or the number of a refusal:
/// `BadSize`, `NoBlock`, `BadLength`, then those of `recover_over`.
pub fn save_over<D: SectorDevice>(device: D, blocks: &[u16], bytes: &[u8]) -> (u8, D)
    ensures done { IsTrue (suits D.SectorDevice device) → result.0 ≡ 0 → LeavesBlocks D.SectorDevice result.1
        (with_blocks (meant_by D.SectorDevice device) blocks.now bytes.now) }
    ensures stops { IsTrue (suits D.SectorDevice device)
        → StopsLeave D.SectorDevice device result.1 (AllOrNone D.SectorDevice device blocks.now bytes.now) }
    ensures exact { IsTrue (suits D.SectorDevice device)
        → TellsFirst result.0 (first_of (save_refusal (D.sector_count device) blocks.now (length bytes.now))
        (refusal_of (D.sector_count device) (D.disk device).content)) }
    ensures arguments { IfSome (save_refusal (D.sector_count device) blocks.now (length bytes.now))
        (λ e. (result.0 ≡ code_of e) × (result.1 ≡ device)) }
    ensures fits { result.0 ≡ 0 → save_refusal (D.sector_count device) blocks.now (length bytes.now) ≡ None }
    ensures content { IsTrue (suits D.SectorDevice device) → result.0 ≢ 0 → result.0 ≢ code_of Refusal.Device
        → (D.disk result.1).content ≡ (D.disk device).content }
    ensures failures { D.failures result.1 ≡ failures_told result.0 (D.failures device) }
    ensures goes { Becomes D.SectorDevice device result.1 }
    ensures begins { IsTrue (suits D.SectorDevice device) → SavingBegins D.SectorDevice device result.1 (length blocks.now) }
    ensures listed { result.0 ≤ 12 }
{
    told(save_blocks(device, blocks, bytes))
}

/// `silgwyrad_open`: opens an image, which stays open in the caller's memory. It answers as `recover_over`, and where
/// that isn't 0 none is open.
pub fn open_over<D: SectorDevice>(device: D, store: &mut OpenStore) -> (u8, D)
    ensures stays { result.0 ≡ 0 → StaysOpen D.SectorDevice result.1 store.new }
    ensures done { IsTrue (suits D.SectorDevice device) → result.0 ≡ 0
        → KeepsOpen D.SectorDevice result.1 store.new (meant_by D.SectorDevice device) }
    ensures refused { result.0 ≢ 0 → gate_in store.new ≡ None }
    ensures stops { IsTrue (suits D.SectorDevice device)
        → StopsLeave D.SectorDevice device result.1 (MayRecover D.SectorDevice device) }
    ensures exact { IsTrue (suits D.SectorDevice device)
        → TellsFirst result.0 (refusal_of (D.sector_count device) (D.disk device).content) }
    ensures size { MatchBool (is_known_size (D.sector_count device)) (result.0 ≢ code_of Refusal.BadSize) (result.0 ≡ code_of Refusal.BadSize) }
    ensures unasked { result.0 ≡ code_of Refusal.BadSize → result.1 ≡ device }
    ensures content { IsTrue (suits D.SectorDevice device) → result.0 ≢ 0 → result.0 ≢ code_of Refusal.Device
        → (D.disk result.1).content ≡ (D.disk device).content }
    ensures failures { D.failures result.1 ≡ failures_told result.0 (D.failures device) }
    ensures goes { Becomes D.SectorDevice device result.1 }
    ensures begins { IsTrue (suits D.SectorDevice device) → OpeningBegins D.SectorDevice device result.1 }
    ensures place { SamePlace store.old store.new }
    ensures listed { result.0 ≤ 12 }
{
    close(store);
    let outcome = open_kept(device, &mut store.listing);
    told_kept(outcome, store)
}

/// `silgwyrad_read_open`: reads a block of an open store, whose 1,024 bytes are put into `out`. Two reads of the
/// device. It answers 0, or 13 where no store is open, or the number of a refusal: `BadSize`, `NoBlock` or `BadLength`,
/// with no call of the device, or `Device`, which closes the store.
pub fn read_open_over<D: SectorDevice>(
    device: D,
    store: &mut OpenStore,
    block: u16,
    out: &mut [u8],
) -> (u8, D)
    requires stays { IsTrue (suits D.SectorDevice device) → MayStayOpen D.SectorDevice device store.old }
    ensures bytes { (saved : List (List ℕ)) → KeepsOpen D.SectorDevice device store.old saved
        → result.0 ≡ 0 → out.new ≡ block_in saved block }
    ensures kept { result.0 ≢ 0 → out.new ≡ out.old }
    ensures stays { result.0 ≡ 0 → StaysOpen D.SectorDevice result.1 store.new }
    ensures done { (saved : List (List ℕ)) → KeepsOpen D.SectorDevice device store.old saved
        → result.0 ≡ 0 → KeepsOpen D.SectorDevice result.1 store.new saved }
    ensures stops { (saved : List (List ℕ)) → KeepsOpen D.SectorDevice device store.old saved
        → StopsLeave D.SectorDevice device result.1 (MeansOn D.SectorDevice device saved) }
    ensures unopened { gate_in store.old ≡ None → (result.0 ≡ not_open) × (result.1 ≡ device) }
    ensures arguments { gate_in store.old ≢ None → IfSome (read_refusal (D.sector_count device) block (length out.old))
        (λ e. (result.0 ≡ code_of e) × (result.1 ≡ device)) }
    ensures fits { result.0 ≡ 0 → read_refusal (D.sector_count device) block (length out.old) ≡ None }
    // At any other refusal than that of the device the store is as it was.
    ensures same { result.0 ≢ 0 → result.0 ≢ code_of Refusal.Device → store.new ≡ store.old }
    ensures closed { result.0 ≡ code_of Refusal.Device → gate_in store.new ≡ None }
    ensures failures { D.failures result.1 ≡ failures_told result.0 (D.failures device) }
    ensures goes { Becomes D.SectorDevice device result.1 }
    ensures begins { Begins D.SectorDevice device result.1 0 0 2 }
    ensures place { SamePlace store.old store.new }
    ensures listed { result.0 ≤ 13 }
{
    match gate(store) {
        Some(is_open) => {
            let outcome = read_kept(device, is_open, &mut store.listing, block, out);
            told_kept(outcome, store)
        }
        None => (NOT_OPEN, device),
    }
}

/// `silgwyrad_save_open`: saves blocks to an open store, all or none. `bytes` has 1,024 for each. It answers 0, or 13
/// where no store is open, or the number of a refusal: `BadSize`, `NoBlock` or `BadLength`, with no call of the device,
/// or `Device`, which closes the store.
pub fn save_open_over<D: SectorDevice>(
    device: D,
    store: &mut OpenStore,
    blocks: &[u16],
    bytes: &[u8],
) -> (u8, D)
    requires stays { IsTrue (suits D.SectorDevice device) → MayStayOpen D.SectorDevice device store.old }
    ensures stays { result.0 ≡ 0 → StaysOpen D.SectorDevice result.1 store.new }
    ensures done { (saved : List (List ℕ)) → KeepsOpen D.SectorDevice device store.old saved
        → result.0 ≡ 0 → KeepsOpen D.SectorDevice result.1 store.new (with_blocks saved blocks.now bytes.now) }
    ensures stops { (saved : List (List ℕ)) → KeepsOpen D.SectorDevice device store.old saved
        → StopsLeave D.SectorDevice device result.1 (SavesOpen D.SectorDevice device saved blocks.now bytes.now) }
    ensures unopened { gate_in store.old ≡ None → (result.0 ≡ not_open) × (result.1 ≡ device) }
    ensures arguments { gate_in store.old ≢ None → IfSome (save_refusal (D.sector_count device) blocks.now (length bytes.now))
        (λ e. (result.0 ≡ code_of e) × (result.1 ≡ device)) }
    ensures fits { result.0 ≡ 0 → save_refusal (D.sector_count device) blocks.now (length bytes.now) ≡ None }
    ensures same { result.0 ≢ 0 → result.0 ≢ code_of Refusal.Device → store.new ≡ store.old }
    ensures closed { result.0 ≡ code_of Refusal.Device → gate_in store.new ≡ None }
    ensures failures { D.failures result.1 ≡ failures_told result.0 (D.failures device) }
    ensures goes { Becomes D.SectorDevice device result.1 }
    ensures begins { SavesAtMost D.SectorDevice device result.1 (length blocks.now) }
    ensures place { SamePlace store.old store.new }
    ensures listed { result.0 ≤ 13 }
{
    match gate(store) {
        Some(is_open) => {
            let outcome = save_kept(device, is_open, &mut store.listing, blocks, bytes);
            told_kept(outcome, store)
        }
        None => (NOT_OPEN, device),
    }
}

/// `silgwyrad_run`: runs the lines of the input over the image, to its end, at most `steps` steps a line, and writes
/// the replies. It answers 0 or the number of a refusal: `NoSteps` where `steps` is 0, those of `recover_over`, then
/// `NoMemory`, `Input` or `Output`. A call of the device that fails in the session is told in a reply, not by this
/// answer.
pub fn run_over<D: SectorDevice + Drop, R: Read, W: Write>(
    alloc: Global,
    device: D,
    steps: u32,
    input: &mut R,
    output: &mut W,
) -> (u8, D)
    // The session of a new system over the blocks that the image meant, to the end of the input, or up to where input or output failed. What
    // the device does in it is bounded by the opening and by its lines.
    ensures done { result.0 ≡ 0 → RunsSession D.SectorDevice steps (R.remaining input.old) (R.remaining input.new)
        (W.contents output.old) (W.contents output.new) device result.1 }
    ensures input { IsTrue (suits D.SectorDevice device) → result.0 ≡ code_of Refusal.Input
        → BreaksSession D.SectorDevice ReadFault steps (R.remaining input.old) (R.remaining input.new)
        (W.contents output.old) (W.contents output.new) device result.1 }
    ensures output { IsTrue (suits D.SectorDevice device) → result.0 ≡ code_of Refusal.Output
        → BreaksSession D.SectorDevice WriteFault steps (R.remaining input.old) (R.remaining input.new)
        (W.contents output.old) (W.contents output.new) device result.1 }
    ensures exact { IsTrue (suits D.SectorDevice device) → steps ≢ 0
        → TellsSession result.0 (refusal_of (D.sector_count device) (D.disk device).content) }
    ensures steps { (result.0 ≡ code_of Refusal.NoSteps) ↔ (steps ≡ 0) }
    ensures size { steps ≢ 0 → MatchBool (is_known_size (D.sector_count device))
        (result.0 ≢ code_of Refusal.BadSize) (result.0 ≡ code_of Refusal.BadSize) }
    ensures unasked { result.0 ≡ code_of Refusal.NoSteps → result.1 ≡ device }
    ensures uncalled { result.0 ≡ code_of Refusal.BadSize → result.1 ≡ device }
    // Where what is told says that no line was run, nothing was read or written, and a stop leaves what one of an opening may leave.
    ensures unread { RanNothing result.0 → input.new ≡ input.old }
    ensures unwritten { RanNothing result.0 → output.new ≡ output.old }
    ensures recovers { IsTrue (suits D.SectorDevice device) → RanNothing result.0
        → StopsLeave D.SectorDevice device result.1 (MayRecover D.SectorDevice device) }
    ensures failures { RanNothing result.0 → D.failures result.1 ≡ failures_told result.0 (D.failures device) }
    ensures content { IsTrue (suits D.SectorDevice device) → (e : Refusal) → IsOfImage e → e ≢ Refusal.Device
        → result.0 ≡ code_of e → (D.disk result.1).content ≡ (D.disk device).content }
    ensures begins { IsTrue (suits D.SectorDevice device) → RanNothing result.0 → OpeningBegins D.SectorDevice device result.1 }
    ensures goes { Becomes D.SectorDevice device result.1 }
    ensures listed { result.0 ≤ 12 }
{
    told(run_image(alloc, device, steps, input, output))
}
