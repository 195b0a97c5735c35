//! A session over an image on a device.
//! Rule: EMBEDDING, What is proved; SEMANTICS, Sessions.
ghost use Rattle.std.specs.Prelude.{◌≡◌, ◌≢◌, ◌⊎◌, ◌↔◌, ◌<◌, [], ◌∷◌, true, None, Some, IsTrue, IfOk, IfErr, MatchBool, MatchResult, OnOk};
ghost use Rattle.sector_disk.specs.Counting.{count_up};
ghost use Rattle.journal.specs.Calls.{StopsLeave};
ghost use Rattle.journal.specs.Store.{device_of};
ghost use Rattle.journal.specs.Suits.{suits};
ghost use Rattle.shadow.specs.Label.{is_known_size};
ghost use Rattle.sessions.specs.declared.run_fault.RunFault.TheVariants.{Read as ReadFault, Write as WriteFault};
ghost use Rattle.sessions.specs.Devices.{Becomes};
ghost use Rattle.hosted.specs.Calls.{MayRecover, OpensOn, device_after};
ghost use Rattle.hosted.specs.Costs.{OpeningBegins};
ghost use Rattle.hosted.specs.Refusals.{IsOfImage, IsOfSession, refusal_of};
ghost use Rattle.hosted.specs.Sessions.{RunsSession, BreaksSession, BegunOn, BegunOver, EndsOn};

use crate::kept_calls::{block_count, open_kept};
use crate::refusal::Refusal;
use interpreter::promise::Lines;
use interpreter::{Forth, Memory};
use sector_disk::SectorDevice;
use sessions::run;
use std::alloc::Global;
use std::io::{Read, Write};
use stores::{Store, resume};

/// Opens the image, and runs the lines of the input over it by a new system, at most `steps` steps a line, 1 or more.
/// It answers the device where the input was run to its end. A refusal hands the device back: `NoSteps`, with no call
/// of it, then those of `opened`, then `NoMemory`, with nothing of the input read, and `Input` or `Output` where these
/// failed.
pub fn run_image<D: SectorDevice + Drop, R: Read, W: Write>(
    alloc: Global,
    device: D,
    steps: u32,
    input: &mut R,
    output: &mut W,
) -> Result<D, (Refusal, D)>
    // The session of a new system over the blocks that the image meant, to the end of the input.
    ensures ran { IfOk result (λ after. RunsSession D.SectorDevice steps (R.remaining input.old) (R.remaining input.new)
        (W.contents output.old) (W.contents output.new) device after) }
    // Where input or output failed: that session up to there.
    ensures input { IsTrue (suits D.SectorDevice device) → IfErr result (λ e. e.0 ≡ Refusal.Input
        → BreaksSession D.SectorDevice ReadFault steps (R.remaining input.old) (R.remaining input.new)
        (W.contents output.old) (W.contents output.new) device e.1) }
    ensures output { IsTrue (suits D.SectorDevice device) → IfErr result (λ e. e.0 ≡ Refusal.Output
        → BreaksSession D.SectorDevice WriteFault steps (R.remaining input.old) (R.remaining input.new)
        (W.contents output.old) (W.contents output.new) device e.1) }
    ensures steps { MatchResult result (λ _. steps ≢ 0) (λ e. (e.0 ≡ Refusal.NoSteps) ↔ (steps ≡ 0)) }
    ensures unasked { IfErr result (λ e. e.0 ≡ Refusal.NoSteps → e.1 ≡ device) }
    ensures sized { OnOk result (is_known_size (D.sector_count device) ≡ true) }
    ensures bad_size { IfErr result (λ e. e.0 ≢ Refusal.NoSteps → MatchBool (is_known_size (D.sector_count device))
        (e.0 ≢ Refusal.BadSize) (e.0 ≡ Refusal.BadSize)) }
    ensures uncalled { IfErr result (λ e. e.0 ≡ Refusal.BadSize → e.1 ≡ device) }
    // An image is refused as at every other call.
    ensures image { IsTrue (suits D.SectorDevice device) → IfErr result (λ e. IsOfImage e.0
        → (e.0 ≡ Refusal.Device) ⊎ (refusal_of (D.sector_count device) (D.disk device).content ≡ Some e.0)) }
    ensures opens { IsTrue (suits D.SectorDevice device) → OnOk result (refusal_of (D.sector_count device) (D.disk device).content ≡ None) }
    // Memory is asked for last, and then lines are read: the image was well.
    ensures memory { IsTrue (suits D.SectorDevice device) → IfErr result (λ e. IsOfSession e.0
        → refusal_of (D.sector_count device) (D.disk device).content ≡ None) }
    ensures kind { IfErr result (λ e. (e.0 ≡ Refusal.NoSteps) ⊎ (IsOfImage e.0 ⊎ IsOfSession e.0)) }
    // Device is told where a call of the opening failed. A call that fails in the session is told in a reply.
    ensures failed { IfErr result (λ e. e.0 ≡ Refusal.Device → D.failures e.1 ≡ count_up (D.failures device)) }
    ensures unfailed { IfErr result (λ e. e.0 ≢ Refusal.Device → e.0 ≢ Refusal.Input → e.0 ≢ Refusal.Output
        → D.failures e.1 ≡ D.failures device) }
    ensures content { IsTrue (suits D.SectorDevice device) → IfErr result (λ e. IsOfImage e.0 → e.0 ≢ Refusal.Device
        → (D.disk e.1).content ≡ (D.disk device).content) }
    // Only where input or output failed was anything read or written before a refusal, and at another one a stop at any moment
    // leaves what one of a recovery may leave.
    ensures unread { IfErr result (λ e. e.0 ≢ Refusal.Input → e.0 ≢ Refusal.Output → input.new ≡ input.old) }
    ensures unwritten { IfErr result (λ e. e.0 ≢ Refusal.Input → e.0 ≢ Refusal.Output → output.new ≡ output.old) }
    ensures recovers { IsTrue (suits D.SectorDevice device) → IfErr result (λ e. e.0 ≢ Refusal.Input → e.0 ≢ Refusal.Output
        → StopsLeave D.SectorDevice device e.1 (MayRecover D.SectorDevice device)) }
    ensures begins { IsTrue (suits D.SectorDevice device) → IfErr result (λ e. e.0 ≢ Refusal.Input → e.0 ≢ Refusal.Output
        → OpeningBegins D.SectorDevice device e.1) }
    ensures goes { Becomes D.SectorDevice device (device_after result) }
{
    if steps == 0 {
        return Err((Refusal::NoSteps, device));
    }
    match begun::<D, Forth<D>>(alloc, device, steps) {
        Ok(mut room) => {
            let end = run::<D, Forth<D>, R, W>(&mut room[0], input, output);
            let after = ended::<D, Forth<D>>(room);
            match end {
                Ok(()) => Ok(after),
                Err(fault) => Err((Refusal::from(fault), after)),
            }
        }
        Err(refused) => Err(refused),
    }
}

/// Opens the image: what a stop has left half done is finished first. A refusal hands the device back: `BadSize`, with
/// no call of it, `NoLabel`, `OtherVersion`, `WrongCount` or `Damaged`, the first that holds, or `Device` where a call
/// of it failed.
/// Rule: IMAGE, A recovery; IMAGE, Layout 3, An opening.
// A call of its own, so that what it has doesn't lie on the stack while the system is made.
#[inline(never)]
fn opened<D: SectorDevice>(device: D) -> Result<Store<D>, (Refusal, D)>
    ensures ok { IfOk result (λ store. OpensOn D.SectorDevice device store) }
    ensures sized { IfOk result (λ _. is_known_size (D.sector_count device) ≡ true) }
    ensures bad_size { IfErr result (λ e. MatchBool (is_known_size (D.sector_count device))
        (e.0 ≢ Refusal.BadSize) (e.0 ≡ Refusal.BadSize)) }
    ensures unasked { IfErr result (λ e. e.0 ≡ Refusal.BadSize → e.1 ≡ device) }
    ensures image { IfErr result (λ e. IsOfImage e.0) }
    // Each refusal tells the first test that the image fails.
    ensures exact { IsTrue (suits D.SectorDevice device) → MatchResult result
        (λ _. refusal_of (D.sector_count device) (D.disk device).content ≡ None)
        (λ e. (e.0 ≡ Refusal.Device) ⊎ (refusal_of (D.sector_count device) (D.disk device).content ≡ Some e.0)) }
    ensures failed { IfErr result (λ e. e.0 ≡ Refusal.Device → D.failures e.1 ≡ count_up (D.failures device)) }
    ensures unfailed { IfErr result (λ e. e.0 ≢ Refusal.Device → D.failures e.1 ≡ D.failures device) }
    ensures content { IsTrue (suits D.SectorDevice device)
        → IfErr result (λ e. e.0 ≢ Refusal.Device → (D.disk e.1).content ≡ (D.disk device).content) }
    ensures goes { IfErr result (λ e. Becomes D.SectorDevice device e.1) }
    ensures stops { IsTrue (suits D.SectorDevice device) → IfErr result (λ e.
        StopsLeave D.SectorDevice device e.1 (MayRecover D.SectorDevice device)) }
    ensures begins { IsTrue (suits D.SectorDevice device) → MatchResult result
        (λ store. OpeningBegins D.SectorDevice device (device_of store)) (λ e. OpeningBegins D.SectorDevice device e.1) }
{
    let mut listing = [0; 512];
    match open_kept(device, &mut listing) {
        Ok((begun, is_open)) => {
            let count = block_count(&begun);
            Ok(resume(begun, count, is_open, &listing))
        }
        Err(refused) => Err(refused),
    }
}

/// A new system over the image, which is opened before memory is taken. It lies in the heap, alone in this vector. A
/// refusal hands the device back.
// A call of its own, as the next two are, so that what is moved in it doesn't lie on the stack while the system runs.
#[inline(never)]
fn begun<D: SectorDevice + Drop, F: Lines<D> + Drop>(
    alloc: Global,
    device: D,
    steps: u32,
) -> Result<Vec<F>, (Refusal, D)>
    requires steps { 0 < steps }
    ensures ok { IfOk result (λ room. BegunOn D.SectorDevice F.stands F.sound F.device steps device room.items) }
    ensures opens { IsTrue (suits D.SectorDevice device) → OnOk result (refusal_of (D.sector_count device) (D.disk device).content ≡ None) }
    ensures steps { IfErr result (λ e. e.0 ≢ Refusal.NoSteps) }
    ensures input { IfErr result (λ e. e.0 ≢ Refusal.Input) }
    ensures output { IfErr result (λ e. e.0 ≢ Refusal.Output) }
    ensures sized { OnOk result (is_known_size (D.sector_count device) ≡ true) }
    ensures bad_size { IfErr result (λ e. MatchBool (is_known_size (D.sector_count device))
        (e.0 ≢ Refusal.BadSize) (e.0 ≡ Refusal.BadSize)) }
    ensures uncalled { IfErr result (λ e. e.0 ≡ Refusal.BadSize → e.1 ≡ device) }
    ensures memory { IsTrue (suits D.SectorDevice device) → IfErr result (λ e. IsOfSession e.0
        → refusal_of (D.sector_count device) (D.disk device).content ≡ None) }
    ensures kind { IfErr result (λ e. IsOfImage e.0 ⊎ IsOfSession e.0) }
    ensures failed { IfErr result (λ e. e.0 ≡ Refusal.Device → D.failures e.1 ≡ count_up (D.failures device)) }
    ensures unfailed { IfErr result (λ e. e.0 ≢ Refusal.Device → D.failures e.1 ≡ D.failures device) }
    ensures content { IsTrue (suits D.SectorDevice device) → IfErr result (λ e. IsOfImage e.0 → e.0 ≢ Refusal.Device
        → (D.disk e.1).content ≡ (D.disk device).content) }
    ensures image { IsTrue (suits D.SectorDevice device) → IfErr result (λ e. IsOfImage e.0
        → (e.0 ≡ Refusal.Device) ⊎ (refusal_of (D.sector_count device) (D.disk device).content ≡ Some e.0)) }
    ensures recovers { IsTrue (suits D.SectorDevice device)
        → IfErr result (λ e. StopsLeave D.SectorDevice device e.1 (MayRecover D.SectorDevice device)) }
    ensures begins { IsTrue (suits D.SectorDevice device) → IfErr result (λ e. OpeningBegins D.SectorDevice device e.1) }
    ensures goes { IfErr result (λ e. Becomes D.SectorDevice device e.1) }
{
    match opened(device) {
        Ok(store) => begun_over(alloc, store, steps),
        Err(refused) => Err(refused),
    }
}

/// A new system over the store, in memory that is taken before it is made. `NoMemory` where there is none.
#[inline(never)]
fn begun_over<D: SectorDevice + Drop, F: Lines<D> + Drop>(
    alloc: Global,
    store: Store<D>,
    steps: u32,
) -> Result<Vec<F>, (Refusal, D)>
    requires steps { 0 < steps }
    ensures ok { IfOk result (λ room. BegunOver F.stands F.sound F.device steps store room.items) }
    ensures refused { IfErr result (λ e. e.0 ≡ Refusal.NoMemory) }
    ensures device { IfErr result (λ e. e.1 ≡ device_of store) }
{
    let Ok(memory) = Memory::new(alloc) else {
        return Err((Refusal::NoMemory, store.into_device()));
    };
    let Ok(mut room) = Vec::with_capacity(alloc, 1) else {
        return Err((Refusal::NoMemory, store.into_device()));
    };
    room.push(F::new(memory, store, steps)).unwrap();
    Ok(room)
}

/// The device of a system that ends.
#[inline(never)]
fn ended<D: SectorDevice + Drop, F: Lines<D> + Drop>(mut room: Vec<F>) -> D
    requires alone { (system : F) × (room.items ≡ system ∷ []) }
    ensures ends { (system : F) → room.items ≡ system ∷ [] → EndsOn D.SectorDevice F.stands F.device system result }
{
    room.pop().unwrap().into_store().into_device()
}
