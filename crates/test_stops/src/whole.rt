// Whether the lines of a part leave out no call of the device.
use crate::report::Report;
use crate::scenario::{Scenario, Trial};
use crate::trials::{Base, count_of_calls};
use std::alloc::{AllocError, Global};

/// Tells a part that tries nothing, and each call of the device that is left out by lines of a word and a kind that try others. A line
/// that lists its answers is about its calls alone.
pub fn end(
    alloc: Global,
    scenario: &Scenario,
    base: &Base,
    report: &mut Report,
) -> Result<(), AllocError> {
    if !scenario.trials.lines().any(|line| !line.starts_with("#")) {
        report.tell("nothing is tried")?;
    }
    for word in ["stop", "tear", "fail"] {
        for kind in ["from", "once", "wild", "gate", "label"] {
            tell_left_out(
                alloc,
                scenario.trials,
                (word, kind),
                count_of_calls(base),
                report,
            )?;
        }
    }
    Ok(())
}

fn tell_left_out(
    alloc: Global,
    trials: &str,
    way: (&str, &str),
    calls: u64,
    report: &mut Report,
) -> Result<(), AllocError> {
    if tried(trials, way, 1, u64::MAX) {
        for k in 1..=calls {
            if !tried(trials, way, k, k) {
                let (word, kind) = way;
                report.tell(&format!(in alloc; "no line says {word} {kind} {k}")?)?;
            }
        }
    }
    Ok(())
}

// Whether any call from the first to the last one is tried by lines of this word and kind.
fn tried(trials: &str, way: (&str, &str), first: u64, last: u64) -> bool {
    let (word, kind) = way;
    for line in trials.lines() {
        if let Some(trial) = Trial::parse(line) {
            let is_so = trial.word == word
                && trial.answers.is_empty()
                && trial.first <= last
                && first <= trial.last
                && trial.kinds.split(" ").any(|one| one == kind);
            if is_so {
                return true;
            }
        }
    }
    false
}
