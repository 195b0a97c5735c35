//! A session over an image that has ended, and what is told of it.
//! Rule: MANUAL, forth83 run IMAGE [FILE ..]; PROGRAM, Exit status and messages.
ghost use Rattle.std.specs.Prelude.{◌≡◌, ◌&&◌, ◌||◌, true, Err, IfErr, IfOk, MatchBool, MatchResult, OnOk, not};
ghost use Rattle.std.specs.Io.KnownBytes.{Appends};
ghost use Rattle.terminal.specs.Failures.{of_end};
ghost use Rattle.terminal.specs.Scripts.{is_plain, unsaved_notice};

use super::failure::{Failure, Outcome};
use command_line::orders::Script;
use sessions::{RunEnd, RunFault};
use std::io::{self, Write};

/// How a session has ended.
#[derive(Clone, Copy)]
pub struct Ended {
    /// With what it ended.
    pub end: Result<RunEnd, RunFault>,
    /// Whether blocks were changed and not saved: these are given up.
    pub is_unsaved: bool,
}

/// Answers how a session over an image ended, and whether what is told of it could be written: that changed blocks were
/// not saved, as by `tell_unsaved`. Of one that didn't begin nothing is told here.
/// Rule: MANUAL, forth83 run IMAGE [FILE ..].
pub fn conclude<E: Write>(
    session: Result<Ended, Failure>,
    script: &Script<'_>,
    errors: &mut E,
) -> (Result<Outcome, Failure>, io::Result<()>)
    ensures ended { MatchResult session (λ ended. result.0 ≡ of_end ended.end) (λ failure. result.0 ≡ Err failure) }
    // What is told is what `tell_unsaved` tells, where the session has ended, and nothing where none began.
    ensures told { IfOk session (λ ended. MatchBool (ended.is_unsaved && not (is_plain script.now))
        (OnOk result.1 (Appends (E.contents errors.old) (E.contents errors.new) unsaved_notice)) (errors.new ≡ errors.old)) }
    ensures unbegun { IfErr session (λ _. errors.new ≡ errors.old) }
    ensures silent { is_plain script.now ≡ true → errors.new ≡ errors.old }
{
    match session {
        Ok(ended) => {
            let told = tell_unsaved(ended.is_unsaved, script, errors);
            (outcome(ended.end), told)
        }
        Err(failure) => (Err(failure), Ok(())),
    }
}

/// Tells in a line that changed blocks were not saved, where that is so. Of the input alone nothing is told. Its error
/// is that of the writer.
/// Rule: PROGRAM, Exit status and messages.
pub fn tell_unsaved<E: Write>(
    is_unsaved: bool,
    script: &Script<'_>,
    errors: &mut E,
) -> io::Result<()>
    ensures { MatchBool (is_unsaved && not (is_plain script.now))
        (OnOk result (Appends (E.contents errors.old) (E.contents errors.new) unsaved_notice)) (errors.new ≡ errors.old) }
{
    if is_unsaved && !is_plain(script) {
        writeln!(errors, "forth83: image: changed blocks were not saved")
    } else {
        Ok(())
    }
}

/// Whether lines that failed are told, and the blocks that are undone: a trace is asked for, or that lines are
/// undone.
pub(super) fn is_told(script: &Script<'_>) -> bool
    ensures { result ≡ (script.now.is_traced || script.now.undoes) }
{
    script.is_traced || script.undoes
}

/// Whether nothing is asked for but a session of the input: no file is named, no block is loaded, and it is neither
/// strict nor traced, and undoes nothing.
fn is_plain(script: &Script<'_>) -> bool
    ensures { result ≡ is_plain script.now }
{
    !script.is_traced
        && !script.is_strict
        && !script.undoes
        && script.load.is_none()
        && script.files.is_empty()
}

/// What an end is told as: `Stopped` where it is a line that failed, `CannotRead` or `CannotWrite` where the input or
/// the output failed.
fn outcome(end: Result<RunEnd, RunFault>) -> Result<Outcome, Failure>
    ensures { result ≡ of_end end }
{
    match end {
        Ok(RunEnd::Input) => Ok(Outcome::Done),
        Ok(RunEnd::Failure) => Ok(Outcome::Stopped),
        Err(fault) => Err(Failure::from(fault)),
    }
}
