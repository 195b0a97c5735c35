//! The program: words, streams and files to an exit status.
//! Rule: PROGRAM, Exit status and messages; MANUAL, Commands.
ghost use Rattle.std.specs.Prelude.{◌≡◌, ◌≢◌, ◌⊎◌, ◌<◌, ◌≤◌, true, List, [], Some, None, map, Ok, Err, IsOk, IsErr, IfOk, IfErr, IfSome, IsErrOf, MatchOption, MatchResult, OnOk, is_some};
ghost use Rattle.clap.specs.Words.{fault_of, kind_of};
ghost use Rattle.journal.specs.Maps.{Maps};
ghost use Rattle.journal.specs.Store.{StandsFor, device_of};
ghost use Rattle.block_words.specs.Words.{Save};
ghost use Rattle.interpreter.specs.State.{Forth as Abstract};
ghost use Rattle.interpreter.specs.Lines.{new_forth};
ghost use Rattle.sessions.specs.declared.run_fault.RunFault.{RunFault as AbstractFault};
ghost use Rattle.sessions.specs.Devices.{Becomes};
ghost use Rattle.sessions.specs.Sessions.{BreaksOff};
ghost use Rattle.command_line.specs.Commands.{IsInRange, forth83};
ghost use Rattle.terminal.specs.Done.{RunsFrom};
ghost use Rattle.terminal.specs.Failures.{of_run, status_of};
ghost use Rattle.terminal.specs.InMemory.{CompletesInMemory, EndsHelp, EndsInMemory, FailsInMemory, IsHelp};
ghost use Rattle.terminal.specs.OrderDone.{IsEnded, IsFailed, IsRefused, KeepsStreams, NotOrdered, OrderIsEnded, OrderIsFailed, made_of, new_name};
ghost use Rattle.terminal.specs.Said.{said};
ghost use Rattle.terminal.specs.Unopened.{IsUnmade};

use super::deeds::{Looking, Making, Printing, Writing};
use super::failure::{Failure, Outcome};
use super::files::{
    compare_images, make_image, new_image, print_image, tell_image, upgrade_image, write_image,
};
use super::input::Input;
use super::left::Left;
use super::scripts::run_image;
use super::streams::Streams;
use super::world::World;
use clap::Error;
use clap::error::ErrorKind;
use command_line::order;
use command_line::orders::Order;
use interpreter::Memory;
use interpreter::promise::Lines;
use recovery::format;
use sector_disk::{MemoryDisk, SectorDevice};
use sessions::{Tracer, Traces, Untraced, run_over_traced};
use std::alloc::Global;
use std::convert::AsStr;
use std::io::{Read, Write};
use stores::Store;

/// How many steps a line may take over blocks in memory.
const STEPS: u32 = 1_000_000;

/// How many blocks there are in memory.
const BLOCKS: u16 = 32;

/// Does what the words ask for, of which the first is the name of the program, and answers the exit status: 0, 1
/// where a line ended a session, 2 where the words are no command, 3 for a fault of the image, 4 where the input or a
/// text can't be read, a text isn't a screen, or the output can't be written, 5 where there is no memory. Each of these
/// but 0 is told on the errors: 2 in some lines, any other in the last one. No image or text is reached but by what
/// `world` gives under the names in the words. The devices of images that were opened or made are given back as they
/// are then.
pub fn command_over<X: World, S: AsStr, R: Input, W: Write, E: Write>(
    world: &X,
    words: &[S],
    streams: &mut Streams<R, W, E>,
) -> (Left<X::Disk, X::Look>, u8)
    // Of words that are refused nothing, status 0 comes only where what they order was done, on what the world gave under
    // those names: so is what is told of that as it is given back. What was made got its name as it is then.
    ensures done { fault_of forth83 (map S.text words.now) ≡ [] → result.1 ≡ 0
        → OrderIsEnded X.Disk.SectorDevice X.Look.SectorDevice ⟦<MemoryDisk as SectorDevice>⟧ (X.gives world.now)
        Outcome.Done (map S.text words.now) (said R.remaining W.contents streams.old) (said R.remaining W.contents streams.new) result.0 }
    // Status 1 comes of `run` alone, and only behind the first line that failed, of a strict script or as that which loads its block.
    ensures stopped { fault_of forth83 (map S.text words.now) ≡ [] → result.1 ≡ 1
        → OrderIsEnded X.Disk.SectorDevice X.Look.SectorDevice ⟦<MemoryDisk as SectorDevice>⟧ (X.gives world.now)
        Outcome.Stopped (map S.text words.now) (said R.remaining W.contents streams.old) (said R.remaining W.contents streams.new) result.0 }
    // At any other status what is told is what the order leaves where it failed so, or there was no memory for it; or what
    // it makes was made, and has no name.
    ensures failed { fault_of forth83 (map S.text words.now) ≡ [] → result.1 ≢ 0 → result.1 ≢ 1
        → NotOrdered (said R.remaining W.contents streams.old) (said R.remaining W.contents streams.new) result.1 result.0
        ⊎ OrderIsFailed X.Disk.SectorDevice X.Look.SectorDevice ⟦<MemoryDisk as SectorDevice>⟧ (X.gives world.now)
        (map S.text words.now) (said R.remaining W.contents streams.old) (said R.remaining W.contents streams.new) result.1 result.0 }
    // Words that are refused open, make and read nothing, and print nothing where they don't ask for help.
    ensures refused { fault_of forth83 (map S.text words.now) ≢ [] → IsRefused (fault_of forth83 (map S.text words.now))
        (said R.remaining W.contents streams.old) (said R.remaining W.contents streams.new) result.1 result.0 }
{
    match order(world.alloc(), words) {
        Ok(asked) => {
            let new = new_name(&asked);
            let (left, outcome) = perform(world, asked, streams);
            let ended = name_made(world, new, &left, outcome);
            (left, told(ended, &mut streams.errors))
        }
        Err(error) => {
            let status = explain(&error, &mut streams.output, &mut streams.errors);
            (Left::Nothing, status)
        }
    }
}

/// Does what is asked, and gives the devices back that were opened or made. What is told of files that are to be
/// imported goes to the errors.
fn perform<X: World, R: Input, W: Write, E: Write>(
    world: &X,
    asked: Order<'_>,
    streams: &mut Streams<R, W, E>,
) -> (Left<X::Disk, X::Look>, Result<Outcome, Failure>)
    requires { IsInRange asked }
    ensures ended { IfOk result.1 (λ outcome. IsEnded X.Disk.SectorDevice X.Look.SectorDevice ⟦<MemoryDisk as SectorDevice>⟧ (X.gives world.now)
        outcome asked.entry (said R.remaining W.contents streams.old) (said R.remaining W.contents streams.new) result.0) }
    ensures failed { IfErr result.1 (λ failure. IsFailed X.Disk.SectorDevice X.Look.SectorDevice ⟦<MemoryDisk as SectorDevice>⟧ (X.gives world.now)
        asked.entry (said R.remaining W.contents streams.old) (said R.remaining W.contents streams.new) failure result.0) }
    ensures streams { KeepsStreams asked.entry (said R.remaining W.contents streams.old) (said R.remaining W.contents streams.new) }
{
    match asked {
        Order::Memory => {
            let outcome = run_in_memory::<X::Memory, R, W, Untraced>(
                world.alloc(),
                &mut streams.input,
                &mut streams.output,
                &mut Untraced,
            );
            (Left::Nothing, done(outcome))
        }
        Order::New(path, blocks, layout) => {
            let (left, outcome) = new_image(world, path, blocks, layout);
            (left, done(outcome))
        }
        Order::Run(path, steps, script) => run_image(
            world,
            path,
            steps,
            &script,
            &mut streams.input,
            &mut streams.output,
            &mut streams.errors,
        ),
        Order::List(path, block) => {
            let (left, outcome) = print_image(
                world,
                path,
                Printing::List(block),
                &mut streams.output,
            );
            (left, done(outcome))
        }
        Order::Put(path, block, text) => {
            let (left, outcome) = write_image(
                world,
                path,
                Writing::Put(block, text),
                &mut streams.errors,
            );
            (left, done(outcome))
        }
        Order::Export(path, first, last, form) => {
            let (left, outcome) = print_image(
                world,
                path,
                Printing::Export(first, last, form),
                &mut streams.output,
            );
            (left, done(outcome))
        }
        Order::Import(path, first, sources, form) => {
            let (left, outcome) = write_image(
                world,
                path,
                Writing::Import(first, sources.as_slice(), form),
                &mut streams.errors,
            );
            (left, done(outcome))
        }
        Order::CheckImport(path, first, sources, form) => {
            let (left, outcome) = write_image(
                world,
                path,
                Writing::CheckImport(first, sources.as_slice(), form),
                &mut streams.errors,
            );
            (left, done(outcome))
        }
        Order::Check(path) => {
            let (left, outcome) = tell_image(world, path, Looking::Check, &mut streams.output);
            (left, done(outcome))
        }
        Order::Digests(path) => {
            let (left, outcome) = tell_image(world, path, Looking::Digests, &mut streams.output);
            (left, done(outcome))
        }
        Order::Diff(old, new) => {
            let (left, outcome) = compare_images(world, old, new, &mut streams.output);
            (left, done(outcome))
        }
        Order::Upgrade(old, new, layout) => {
            let (left, outcome) = upgrade_image(world, old, new, layout);
            (left, done(outcome))
        }
        Order::Copy(old, new, asked) => {
            let (left, outcome) = make_image(
                world,
                old,
                new,
                Making::Copy,
                asked,
                &mut streams.output,
            );
            (left, done(outcome))
        }
        Order::Salvage(old, new, asked) => {
            let (left, outcome) = make_image(
                world,
                old,
                new,
                Making::Salvage,
                asked,
                &mut streams.output,
            );
            (left, done(outcome))
        }
    }
}

/// The name of the image that an order makes, if it makes one.
fn new_name<'a>(asked: &Order<'a>) -> Option<&'a str>
    ensures { MatchOption result (new_name asked.now ≡ None) (λ path. new_name asked.now ≡ Some path.now) }
{
    match asked {
        Order::New(path, _, _) => Some(*path),
        Order::Upgrade(_, new, _) => Some(*new),
        Order::Copy(_, new, _) => Some(*new),
        Order::Salvage(_, new, _) => Some(*new),
        _ => None,
    }
}

/// Gives an image that was made whole its name, and lets go of one that wasn't.
fn name_made<X: World>(
    world: &X,
    new: Option<&str>,
    left: &Left<X::Disk, X::Look>,
    outcome: Result<Outcome, Failure>,
) -> Result<Outcome, Failure>
    ensures kept { IfOk result (λ end. outcome ≡ Ok end) }
    ensures named { result ≡ Ok Outcome.Done → IfSome new.entry (λ path.
        IfSome (made_of left.now) ((X.gives world.now).named path.now)) }
    ensures failed { IfErr result (λ failure. (outcome ≡ Err failure)
        ⊎ ((outcome ≡ Ok Outcome.Done) × (is_some new.entry ≡ true) × IsUnmade failure)) }
{
    match (new, made(left)) {
        (Some(path), Some(disk)) => match outcome {
            Ok(Outcome::Done) => keep_made(world, path, disk),
            Ok(Outcome::Stopped) => Ok(Outcome::Stopped),
            Err(failure) => {
                world.drop_made(path, disk);
                Err(failure)
            }
        },
        _ => outcome,
    }
}

/// Gives an image its name, or lets go of it.
fn keep_made<X: World>(world: &X, path: &str, disk: &X::Disk) -> Result<Outcome, Failure>
    ensures done { IfOk result (λ end. end ≡ Outcome.Done) }
    ensures named { OnOk result ((X.gives world.now).named path.now disk.now) }
    ensures unnamed { IfErr result IsUnmade }
{
    match world.keep(path, disk) {
        Ok(()) => Ok(Outcome::Done),
        Err(failure) => {
            world.drop_made(path, disk);
            Err(failure)
        }
    }
}

/// The image that was made, if one was.
fn made<D, E>(left: &Left<D, E>) -> Option<&D>
    ensures { MatchOption result (made_of left.now ≡ None) (λ disk. made_of left.now ≡ Some disk.now) }
{
    match left {
        Left::Made(disk) => Some(disk),
        Left::Upgraded(_, new) => Some(new),
        Left::Copied(_, new) => Some(new),
        _ => None,
    }
}

/// How a command ended that has no session.
fn done(outcome: Result<(), Failure>) -> Result<Outcome, Failure>
    ensures { MatchResult outcome (λ _. result ≡ Ok Outcome.Done) (λ failure. result ≡ Err failure) }
{
    match outcome {
        Ok(()) => Ok(Outcome::Done),
        Err(failure) => Err(failure),
    }
}

/// Closes what a session gave back.
fn closed<T: Drop>(outcome: Result<T, Failure>) -> Result<(), Failure>
    ensures { MatchResult outcome (λ _. IsOk result) (λ failure. result ≡ Err failure) }
{
    match outcome {
        Ok(_) => Ok(()),
        Err(failure) => Err(failure),
    }
}

/// Runs the input over blocks in memory, as `command_over` does without a command, and tells where each fault came, as `run` does
/// with `--trace`. Answers the exit status.
/// Rule: PROGRAM, Exit status and messages.
pub(super) fn traced_in_memory<M: Lines<MemoryDisk>, R: Read, W: Write, E: Write>(
    rt: &impl AllocGlobal,
    input: &mut R,
    output: &mut W,
    errors: &mut E,
) -> u8
    ensures well { result ≡ 0 → CompletesInMemory ⟦<MemoryDisk as SectorDevice>⟧
        (R.remaining input.old) (R.remaining input.new) (W.contents output.old) (W.contents output.new) }
    ensures broken { result ≢ 0 → EndsInMemory ⟦<MemoryDisk as SectorDevice>⟧ result
        (R.remaining input.old) (R.remaining input.new) (W.contents output.old) (W.contents output.new) }
{
    let end = run_in_memory::<M, R, W, Traces<'_, E>>(
        rt.alloc(),
        input,
        output,
        &mut Traces::new(errors),
    );
    told(done(end), errors)
}

/// Runs the input over blocks in memory.
fn run_in_memory<M: Lines<MemoryDisk>, R: Read, W: Write, T: Tracer>(
    alloc: Global,
    input: &mut R,
    output: &mut W,
    tracer: &mut T,
) -> Result<(), Failure>
    ensures well { OnOk result (CompletesInMemory ⟦<MemoryDisk as SectorDevice>⟧
        (R.remaining input.old) (R.remaining input.new) (W.contents output.old) (W.contents output.new)) }
    ensures broken { IfErr result (λ e. FailsInMemory ⟦<MemoryDisk as SectorDevice>⟧ e
        (R.remaining input.old) (R.remaining input.new) (W.contents output.old) (W.contents output.new)) }
{
    match MemoryDisk::new(alloc, 3 + 4 * BLOCKS as u32) {
        Ok(disk) => match format(disk, BLOCKS) {
            Ok(store) => closed(run_session::<MemoryDisk, M, R, W, T>(
                alloc, store, STEPS, input, output, tracer,
            )),
            Err((fault, _)) => Err(Failure::from(fault)),
        },
        Err(_) => Err(Failure::NoMemory),
    }
}

/// Runs the input over a store, and gives the store back: what was changed and not saved stays unsaved.
pub(crate) fn run_session<D: SectorDevice + Drop, F: Lines<D>, R: Read, W: Write, T: Tracer>(
    alloc: Global,
    store: Store<D>,
    steps: u32,
    input: &mut R,
    output: &mut W,
    tracer: &mut T,
) -> Result<Store<D>, Failure>
    requires { 0 < steps }
    ensures well { (m : Maps) → StandsFor store m → IfOk result (λ end.
        RunsFrom D.SectorDevice (new_forth steps m) (R.remaining input.old) (R.remaining input.new)
        (W.contents output.old) (W.contents output.new) (device_of store) (device_of end)) }
    ensures goes { IfOk result (λ end. Becomes D.SectorDevice (device_of store) (device_of end)) }
    ensures broken { (m : Maps) → StandsFor store m → IfErr result (λ e. (e ≡ Failure.NoMemory)
        ⊎ ((fault : AbstractFault) × (e ≡ of_run fault) × (closing : Abstract) × (made : List Save) × (after : D)
        × BreaksOff D.SectorDevice fault (new_forth steps m) closing (R.remaining input.old) (R.remaining input.new)
        (W.contents output.old) (W.contents output.new) (device_of store) after made)) }
    // Memory is refused before the session begins.
    ensures unread { IsErrOf result Failure.NoMemory → input.new ≡ input.old }
    ensures unwritten { IsErrOf result Failure.NoMemory → output.new ≡ output.old }
{
    let Ok(memory) = Memory::new(alloc) else {
        return Err(Failure::NoMemory);
    };
    let (store, end) = run_over_traced::<D, F, R, W, T>(
        memory, store, steps, input, output, tracer,
    );
    match end {
        Ok(()) => Ok(store),
        Err(fault) => Err(Failure::from(fault)),
    }
}

/// The exit status. That a session was stopped, or a failure, is told in a line.
pub(super) fn told<E: Write>(outcome: Result<Outcome, Failure>, errors: &mut E) -> u8
    ensures done { result ≡ 0 → outcome ≡ Ok Outcome.Done }
    ensures stopped { result ≡ 1 → outcome ≡ Ok Outcome.Stopped }
    ensures others { result ≢ 0 → result ≢ 1 → IsErr outcome }
    ensures failed { IfErr outcome (λ failure. result ≡ status_of failure) }
{
    match outcome {
        Ok(Outcome::Done) => 0,
        Ok(Outcome::Stopped) => {
            let _ = writeln!(errors, "forth83: input: a fault or ABORT ended a line");
            1
        }
        Err(failure) => {
            let _ = writeln!(errors, "forth83: {failure}");
            failure.status()
        }
    }
}

/// Shows why the words gave no order: help on the output, anything else as an error.
fn explain<W: Write, E: Write>(error: &Error, output: &mut W, errors: &mut E) -> u8
    ensures shown { result ≡ 0 → IsHelp (kind_of error.now) }
    ensures unshown { result ≡ 4 → IsHelp (kind_of error.now) }
    ensures refused { (result ≡ 2) ⊎ (result ≡ 5) ⊎ (IsHelp (kind_of error.now) × EndsHelp result) }
    ensures memory { kind_of error.now ≡ ErrorKind.OutOfMemory → result ≡ 5 }
    ensures unwritten { IsHelp (kind_of error.now) ⊎ (output.new ≡ output.old) }
{
    match error.kind() {
        ErrorKind::OutOfMemory => told(Err(Failure::NoMemory), errors),
        ErrorKind::DisplayHelp | ErrorKind::DisplayVersion => {
            let shown = write!(output, "{error}");
            if shown.is_err() || output.flush().is_err() {
                return told(Err(Failure::CannotWrite), errors);
            }
            0
        }
        _ => {
            let _ = write!(errors, "{error}");
            2
        }
    }
}
