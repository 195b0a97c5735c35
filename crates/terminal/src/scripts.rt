//! Sessions over an image: of the input, or of files, and behind a block that is loaded.
//! Rule: MANUAL, forth83 run IMAGE [FILE ..].
ghost use Rattle.std.specs.Prelude.{◌≡◌, ◌≢◌, ◌⊎◌, ◌<◌, ◌++◌, ℕ, List, true, IfErr, IfOk, IfSome, OnOk, not};
ghost use Rattle.std.specs.Io.BufRead.{strip_last};
ghost use Rattle.std.specs.Io.KnownBytes.{prepend_known};
ghost use Rattle.std.specs.List.{flat_map};
ghost use Rattle.journal.specs.Maps.{Maps};
ghost use Rattle.journal.specs.Store.{StandsFor, device_of};
ghost use Rattle.sessions.specs.Devices.{Becomes};
ghost use Rattle.sessions.specs.OverStore.{RunsOverBy};
ghost use Rattle.sessions.specs.Streams.{left_of};
ghost use Rattle.terminal.specs.Done.{DoneOn, allowing, new_system};
ghost use Rattle.terminal.specs.Failed.{FailsAfter, FailsOn, NotBegun, ScriptFailed, ScriptUnbegun};
ghost use Rattle.terminal.specs.Scripts.{EndsScript, EndsSession, IsLed, ScriptEnded, is_plain, lined, load_line, strictness_of};
ghost use Rattle.terminal.specs.Texts.{AreTexts, OneIsUnread};

use super::ending::{Ended, conclude, is_told};
use super::failure::{Failure, Outcome};
use super::importing::{MOST_BYTES, read_all};
use super::input::Input;
use super::left::Left;
use super::over_devices::run_over;
use super::world::World;
use command_line::orders::Script;
use interpreter::Memory;
use interpreter::promise::Lines;
use sector_disk::SectorDevice;
use sessions::{RunEnd, Strictness, Tracer, Traces, Untraced, run_over_until};
use std::alloc::{AllocError, Global};
use std::io::{Read, Write};
use stores::Store;

/// Runs lines over an image, with at most `steps` steps a line, 1 or more: those of the files of the script, and behind
/// them those of the input, where it goes on with that; before them its block is loaded. A line that fails, which a
/// fault, `ABORT` or a true `ABORT"` ended, ends the session where the script is strict, and the line that loads the
/// block in any case: then it is `Stopped`. What it tells are the lines that failed and the blocks that are undone,
/// where one of both is asked for, and at the end that changed blocks were not saved, but nothing of the input alone.
/// Its failures: `CannotRead` where a file of the script can't be read or has more bytes than the text of an image may
/// have, and `NoMemory`, where no image was opened, nothing of the input read, and nothing printed; then `CannotOpen`
/// or `InUse` where the image can't be opened for reading and writing, those of `run_over`, and `CannotRead` or
/// `CannotWrite` where the input or the output failed.
/// Rule: MANUAL, forth83 run IMAGE [FILE ..].
pub fn run_image<X: World, R: Input, W: Write, E: Write>(
    world: &X,
    path: &str,
    steps: u32,
    script: &Script<'_>,
    input: &mut R,
    output: &mut W,
    errors: &mut E,
) -> (Left<X::Disk, X::Look>, Result<Outcome, Failure>)
    requires { 0 < steps }
    ensures ended { IfOk result.1 (λ outcome. DoneOn X.Disk.SectorDevice Left.Opened ((X.gives world.now).opened path.now)
        (ScriptEnded X.Disk.SectorDevice (X.gives world.now).is_text outcome steps script.now
        (R.remaining input.old) (R.remaining input.new) (W.contents output.old) (W.contents output.new)) result.0) }
    ensures failed { IfErr result.1 (λ failure. ScriptFailed X.Disk.SectorDevice ((X.gives world.now).opened path.now)
        (X.gives world.now).is_text (X.gives world.now).is_unread steps script.now
        (R.remaining input.old) (R.remaining input.new) (W.contents output.old) (W.contents output.new) failure result.0) }
    ensures silent { is_plain script.now ≡ true → errors.new ≡ errors.old }
{
    if is_told(script) {
        let (left, session) = run_traced::<X, R, W, Traces<'_, E>>(
            world,
            path,
            steps,
            script,
            input,
            output,
            &mut Traces::from_line(errors, script.first_line()),
        );
        let (outcome, _) = conclude(session, script, errors);
        (left, outcome)
    } else {
        let (left, session) = run_traced::<X, R, W, Untraced>(
            world,
            path,
            steps,
            script,
            input,
            output,
            &mut Untraced,
        );
        let (outcome, _) = conclude(session, script, errors);
        (left, outcome)
    }
}

/// Runs what a script says over an image, and tells how the session has ended.
fn run_traced<X: World, R: Input, W: Write, T: Tracer>(
    world: &X,
    path: &str,
    steps: u32,
    script: &Script<'_>,
    input: &mut R,
    output: &mut W,
    tracer: &mut T,
) -> (Left<X::Disk, X::Look>, Result<Ended, Failure>)
    requires { 0 < steps }
    ensures ends { IfOk result.1 (λ ended. DoneOn X.Disk.SectorDevice Left.Opened ((X.gives world.now).opened path.now)
        (EndsScript X.Disk.SectorDevice T.hears (X.gives world.now).is_text steps script.now ended.end ended.is_unsaved
        (R.remaining input.old) (R.remaining input.new) (W.contents output.old) (W.contents output.new) tracer.old tracer.new)
        result.0) }
    ensures failed { IfErr result.1 (λ failure. ScriptUnbegun X.Disk.SectorDevice ((X.gives world.now).opened path.now)
        (X.gives world.now).is_text (X.gives world.now).is_unread script.now (R.remaining input.old) (R.remaining input.new)
        (W.contents output.old) (W.contents output.new) failure result.0) }
{
    match lead(world.alloc(), world, script, input) {
        Ok(()) => run_led::<X, R, W, T>(
            world,
            path,
            steps,
            strictness_of(script),
            script.undoes,
            input,
            output,
            tracer,
        ),
        Err(failure) => (Left::Nothing, Err(failure)),
    }
}

/// How strict the session of a script is: behind a block that is loaded at least as far as the line that loads it.
fn strictness_of(script: &Script<'_>) -> Strictness
    ensures { result ≡ strictness_of script.now }
{
    if script.is_strict {
        return Strictness::Always;
    }
    match script.load {
        Some(_) => Strictness::First,
        None => Strictness::Never,
    }
}

/// Runs the input over an image, strictly or not.
fn run_led<X: World, R: Input, W: Write, T: Tracer>(
    world: &X,
    path: &str,
    steps: u32,
    strictness: Strictness,
    undoes: bool,
    input: &mut R,
    output: &mut W,
    tracer: &mut T,
) -> (Left<X::Disk, X::Look>, Result<Ended, Failure>)
    requires { 0 < steps }
    ensures ends { IfOk result.1 (λ ended. DoneOn X.Disk.SectorDevice Left.Opened ((X.gives world.now).opened path.now)
        (EndsSession X.Disk.SectorDevice T.hears (allowing steps undoes) strictness ended.end ended.is_unsaved
        (R.remaining input.old) (R.remaining input.new) (W.contents output.old) (W.contents output.new) tracer.old tracer.new)
        result.0) }
    ensures failed { IfErr result.1 (λ failure. FailsOn X.Disk.SectorDevice Left.Opened ((X.gives world.now).opened path.now)
        (FailsAfter X.Disk.SectorDevice (NotBegun X.Disk.SectorDevice (R.remaining input.old) (R.remaining input.new)
        (W.contents output.old) (W.contents output.new))) failure result.0) }
{
    match world.open(path) {
        Ok(disk) => {
            let (disk, session) = run_over::<X::Disk, X::System, R, W, T>(
                world.alloc(),
                disk,
                steps,
                strictness,
                undoes,
                input,
                output,
                tracer,
            );
            (Left::Opened(disk), session)
        }
        Err(failure) => (Left::Nothing, Err(failure)),
    }
}

/// Runs the input over a store, strictly or not, and gives the store back: what was changed and not saved stays
/// unsaved. Its failure is `NoMemory`, where no session begins.
pub(super) fn run_until_end<D: SectorDevice, F: Lines<D>, R: Read, W: Write, T: Tracer>(
    alloc: Global,
    store: Store<D>,
    steps: u32,
    strictness: Strictness,
    undoes: bool,
    input: &mut R,
    output: &mut W,
    tracer: &mut T,
) -> (Store<D>, Result<Ended, Failure>)
    requires { 0 < steps }
    ensures session { (m : Maps) → StandsFor store m → IfOk result.1 (λ ended. RunsOverBy T.hears D.SectorDevice strictness (new_system (allowing steps undoes) m)
        store result.0 ended.end ended.is_unsaved
        (R.remaining input.old) (R.remaining input.new) (W.contents output.old) (W.contents output.new) tracer.old tracer.new) }
    ensures strict { IfOk result.1 (λ ended. IfOk ended.end (λ end. end ≡ RunEnd.Failure → strictness ≢ Strictness.Never)) }
    ensures goes { Becomes D.SectorDevice (device_of store) (device_of result.0) }
    // Memory is refused before the session begins.
    ensures memory { IfErr result.1 (λ e. e ≡ Failure.NoMemory) }
    ensures unread { IfErr result.1 (λ _. input.new ≡ input.old) }
    ensures unwritten { IfErr result.1 (λ _. output.new ≡ output.old) }
    ensures same { IfErr result.1 (λ _. result.0 ≡ store) }
{
    let Ok(memory) = Memory::new(alloc) else {
        return (store, Err(Failure::NoMemory));
    };
    let (store, end, is_unsaved) = run_over_until::<D, F, R, W, T>(
        memory, store, steps, input, output, strictness, undoes, tracer,
    );
    (store, Ok(Ended { end, is_unsaved }))
}

/// Puts before the input what a script says, or in its place.
fn lead<X: World, R: Input>(
    alloc: Global,
    world: &X,
    script: &Script<'_>,
    input: &mut R,
) -> Result<(), Failure>
    ensures led { OnOk result (IsLed (X.gives world.now).is_text
        (load_line script.now.load) script.now.files.items script.now.goes_on (R.remaining input.old) (R.remaining input.new)) }
    ensures same { IfErr result (λ _. input.new ≡ input.old) }
    ensures only { IfErr result (λ e. ((e ≡ Failure.CannotRead)
        × OneIsUnread (X.gives world.now).is_unread script.now.files.items)
        ⊎ (e ≡ Failure.NoMemory)) }
{
    let mut text = match load_line(alloc, script.load) {
        Ok(line) => line,
        Err(AllocError) => return Err(Failure::NoMemory),
    };
    match add_files(alloc, world, &mut text, script.files.as_slice()) {
        Ok(()) => lead_by(text, script.goes_on, input),
        Err(failure) => Err(failure),
    }
}

/// Puts a text before the input, with which it goes on, or in its place.
fn lead_by<R: Input>(text: Vec<u8>, goes_on: bool, input: &mut R) -> Result<(), Failure>
    ensures led { OnOk result (R.remaining input.new ≡ prepend_known text.items (left_of (not goes_on) (R.remaining input.old))) }
    ensures same { IfErr result (λ _. input.new ≡ input.old) }
    ensures only { IfErr result (λ e. e ≡ Failure.NoMemory) }
{
    if goes_on {
        match input.begin_with(text) {
            Ok(()) => Ok(()),
            Err(AllocError) => Err(Failure::NoMemory),
        }
    } else {
        input.replace_by(text);
        Ok(())
    }
}

/// The line that loads a block, where one is asked for.
fn load_line(alloc: Global, load: Option<u16>) -> Result<Vec<u8>, AllocError>
    ensures { IfOk result (λ line. line.items ≡ load_line load) }
{
    let mut line = Vec::new(alloc);
    if let Some(block) = load {
        let text = format!(in alloc; "{block} LOAD\n")?;
        line.extend_from_slice(text.as_bytes())?;
    }
    Ok(line)
}

/// Adds the lines of files, one file after another.
fn add_files<X: World>(
    alloc: Global,
    world: &X,
    text: &mut Vec<u8>,
    paths: &[&str],
) -> Result<(), Failure>
    ensures added { OnOk result ((all : List (List ℕ)) × AreTexts (X.gives world.now).is_text paths.now all
        × (text.new.items ≡ text.old.items ++ flat_map lined all)) }
    ensures only { IfErr result (λ e. ((e ≡ Failure.CannotRead)
        × OneIsUnread (X.gives world.now).is_unread paths.now) ⊎ (e ≡ Failure.NoMemory)) }
{
    let mut rest = paths;
    while let [path, others @ ..] = rest {
        match add_file(alloc, world, text, *path) {
            Ok(()) => {}
            Err(failure) => return Err(failure),
        }
        rest = others;
    }
    Ok(())
}

/// Adds the lines of a file.
fn add_file<X: World>(
    alloc: Global,
    world: &X,
    text: &mut Vec<u8>,
    path: &str,
) -> Result<(), Failure>
    ensures added { OnOk result ((bytes : List ℕ) × (X.gives world.now).is_text path.now bytes
        × (text.new.items ≡ text.old.items ++ lined bytes)) }
    ensures only { IfErr result (λ e. ((e ≡ Failure.CannotRead)
        × (X.gives world.now).is_unread path.now) ⊎ (e ≡ Failure.NoMemory)) }
{
    match world.text(path) {
        Ok(mut reader) => add_text(alloc, text, &mut reader),
        Err(failure) => Err(failure),
    }
}

/// Adds the lines of the text that a reader has left. `CannotRead` where it can't be read, or has more bytes than the
/// text of an image may have.
fn add_text<R: Read>(alloc: Global, text: &mut Vec<u8>, reader: &mut R) -> Result<(), Failure>
    ensures added { OnOk result ((bytes : List ℕ) × IfSome (R.remaining reader.old) (λ left. bytes ≡ left)
        × (text.new.items ≡ text.old.items ++ lined bytes)) }
    ensures only { IfErr result (λ e. (e ≡ Failure.CannotRead) ⊎ (e ≡ Failure.NoMemory)) }
{
    let bytes = read_all(alloc, reader)?;
    if bytes.len() > MOST_BYTES {
        return Err(Failure::CannotRead);
    }
    match add_lined(text, bytes.as_slice()) {
        Ok(()) => Ok(()),
        Err(AllocError) => Err(Failure::NoMemory),
    }
}

/// Adds a text, and the line feed that its last line may lack.
fn add_lined(text: &mut Vec<u8>, bytes: &[u8]) -> Result<(), AllocError>
    ensures { OnOk result (text.new.items ≡ text.old.items ++ lined bytes.now) }
{
    if bytes.is_empty() {
        return Ok(());
    }
    text.extend_from_slice(without_feed(bytes))?;
    text.push(b'\n')?;
    Ok(())
}

/// A text without the line feed at its end.
fn without_feed(bytes: &[u8]) -> &[u8]
    ensures { result.now ≡ strip_last 10 bytes.now }
{
    match bytes {
        [text @ .., b'\n'] => text,
        _ => bytes,
    }
}
