//! A session over a store, between two streams.
//! Rule: SEMANTICS, Sessions; LANGUAGE, Lines and replies.
ghost use Rattle.std.specs.Prelude.{◌≡◌, ◌≢◌, ◌<◌, List, IfErr, IfOk, OnOk};
ghost use Rattle.journal.specs.Maps.{Maps};
ghost use Rattle.journal.specs.Store.{StandsFor, device_of};
ghost use Rattle.block_words.specs.Words.{Save};
ghost use Rattle.interpreter.specs.Lines.{new_forth, undoing};
ghost use Rattle.interpreter.specs.Memory.{IsBlank};
ghost use Rattle.interpreter.specs.State.{Forth as Abstract};
ghost use Rattle.sessions.specs.Devices.{Becomes};
ghost use Rattle.sessions.specs.Heard.{BreaksOffHeard, CompletesHeard};
ghost use Rattle.sessions.specs.OverStore.{RunsOver, RunsOverBy};

use super::run_end::RunEnd;
use super::run_fault::RunFault;
use super::session::{run_traced, run_until};
use super::strictness::Strictness;
use super::tracing::{Tracer, Untraced};
use interpreter::Memory;
use interpreter::promise::Lines;
use sector_disk::SectorDevice;
use std::io::{Read, Write};
use stores::Store;

/// Begins a new system in this memory over a store, with at most `steps` steps a line, 1 or more; runs the lines of the
/// input, and gives the store back beside how the run ended: `Read` where the input can't be read, `Write` where the
/// output can't be written. What was changed and not saved stays unsaved: what was spilled of it is still pending in
/// the store, and the rest is given up.
pub fn run_over<D: SectorDevice, F: Lines<D>, R: Read, W: Write>(
    memory: Memory,
    store: Store<D>,
    steps: u32,
    reader: &mut R,
    writer: &mut W,
) -> (Store<D>, Result<(), RunFault>)
    requires blank { IsBlank memory }
    requires steps { 0 < steps }
    // From store to store: the session of a new system, of which a stop at any moment leaves the blocks of a save.
    ensures session { (m : Maps) → StandsFor store m → RunsOver D.SectorDevice (new_forth steps m) store result.0 result.1
        (R.remaining reader.old) (R.remaining reader.new) (W.contents writer.old) (W.contents writer.new) }
    // Over any device: it is the same device, later.
    ensures goes { Becomes D.SectorDevice (device_of store) (device_of result.0) }
{
    run_over_traced::<D, F, R, W, Untraced>(memory, store, steps, reader, writer, &mut Untraced)
}

/// Runs the lines of an input over a store, as `run_over`, where a tracer is told of each line once its reply is
/// written, as by `run_traced`. It ends in `Read` where the input can't be read, in `Write` where the output can't be
/// written.
/// Rule: SEMANTICS, Sessions; MANUAL, Where a fault came.
pub fn run_over_traced<D: SectorDevice, F: Lines<D>, R: Read, W: Write, T: Tracer>(
    memory: Memory,
    store: Store<D>,
    steps: u32,
    reader: &mut R,
    writer: &mut W,
    tracer: &mut T,
) -> (Store<D>, Result<(), RunFault>)
    requires blank { IsBlank memory }
    requires steps { 0 < steps }
    // From store to store: the session of a new system, of which a stop at any moment leaves the blocks of a save.
    ensures session { (m : Maps) → StandsFor store m → RunsOver D.SectorDevice (new_forth steps m) store result.0 result.1
        (R.remaining reader.old) (R.remaining reader.new) (W.contents writer.old) (W.contents writer.new) }
    // The tracer was told of each line that was answered, once and in order.
    ensures told { (m : Maps) → StandsFor store m → OnOk result.1 ((closing : Abstract) × (made : List Save)
        × CompletesHeard T.hears D.SectorDevice (new_forth steps m) closing (R.remaining reader.old) (R.remaining reader.new)
        (W.contents writer.old) (W.contents writer.new) (device_of store) (device_of result.0) made tracer.old tracer.new) }
    ensures told_cut { (m : Maps) → StandsFor store m → IfErr result.1 (λ fault. (closing : Abstract) × (made : List Save)
        × BreaksOffHeard T.hears D.SectorDevice fault (new_forth steps m) closing (R.remaining reader.old) (R.remaining reader.new)
        (W.contents writer.old) (W.contents writer.new) (device_of store) (device_of result.0) made tracer.old tracer.new) }
    // Over any device: it is the same device, later.
    ensures goes { Becomes D.SectorDevice (device_of store) (device_of result.0) }
{
    let mut forth = F::new(memory, store, steps);
    let end = run_traced(&mut forth, reader, writer, tracer);
    (forth.into_store(), end)
}

/// Runs the lines of an input over a store, as `run_over_traced`; by how strict it is only up to one that fails, as
/// `run_until`. It ends in `Read` where the input can't be read, in `Write` where the output can't be
/// written. With `undoes` each line is an event: one that fails takes back what was changed since the last save. It
/// also tells whether blocks were changed and not saved; of a closed store that answer says nothing.
/// Rule: SEMANTICS, Sessions; MANUAL, Lines that are undone.
pub fn run_over_until<D: SectorDevice, F: Lines<D>, R: Read, W: Write, T: Tracer>(
    memory: Memory,
    store: Store<D>,
    steps: u32,
    reader: &mut R,
    writer: &mut W,
    strictness: Strictness,
    undoes: bool,
    tracer: &mut T,
) -> (Store<D>, Result<RunEnd, RunFault>, bool)
    requires blank { IsBlank memory }
    requires steps { 0 < steps }
    // From store to store: the session of a new system, and how it ended.
    ensures session { (m : Maps) → StandsFor store m → RunsOverBy T.hears D.SectorDevice strictness (undoing undoes (new_forth steps m)) store result.0 result.1 result.2
        (R.remaining reader.old) (R.remaining reader.new) (W.contents writer.old) (W.contents writer.new) tracer.old tracer.new }
    // Over any device: a line that fails ends it only where it is strict, and it is the same device, later.
    ensures strict { IfOk result.1 (λ end. end ≡ RunEnd.Failure → strictness ≢ Strictness.Never) }
    ensures goes { Becomes D.SectorDevice (device_of store) (device_of result.0) }
{
    let mut system = begin::<D, F>(memory, store, steps, undoes);
    let end = run_until(&mut system, reader, writer, strictness, tracer);
    let is_unsaved = system.has_unsaved();
    (system.into_store(), end, is_unsaved)
}

/// A new system over a store, whose lines are events, or aren't.
fn begin<D: SectorDevice, F: Lines<D>>(
    memory: Memory,
    store: Store<D>,
    steps: u32,
    undoes: bool,
) -> F
    requires blank { IsBlank memory }
    requires steps { 0 < steps }
    ensures opens { (m : Maps) → StandsFor store m → F.stands result (undoing undoes (new_forth steps m)) }
    ensures sound { F.sound result }
    ensures device { F.device result ≡ device_of store }
{
    let mut system = F::new(memory, store, steps);
    if undoes {
        system.undo_failed_lines();
        return system;
    }
    system
}
