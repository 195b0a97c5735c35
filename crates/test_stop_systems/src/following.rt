// The texts that a program's arguments name are followed.
ghost use Rattle.std.specs.Prelude.{◌≡◌, ◌<◌};

use crate::block_calls::BlockCalls;
use crate::forth_lines::ForthLines;
use crate::large::are_numbered;
use crate::streams::{each_fails, inputs_break_off};
use std::process::ExitCode;
use std::rt::Env;
use std::test::Fail;
use std::{env, fs};
use test_stops::image_calls::ImageCalls;
use test_stops::player::Player;
use test_stops::report::Report;
use test_stops::scenario::Scenario;
use test_stops::store_calls::StoreCalls;
use test_stops::trials::{begin, trial};
use test_stops::whole::end;

/// Tries what the lines of a text say with its calls.
fn try_all<P: Player>(
    rt: &HostRuntime,
    player: &P,
    scenario: &Scenario,
    report: &mut Report,
) -> Result<(), Fail> {
    let mut base = begin(rt, player, scenario, report)?;
    for line in scenario.trials.lines() {
        if line == "numbered" {
            are_numbered(rt, base.end.try_clone(rt.alloc())?, report)?;
        } else if line.starts_with("each ") {
            each_fails(rt, &base.calls, line, report)?;
        } else {
            trial(rt, player, &mut base, line, report)?;
        }
    }
    Ok(end(rt.alloc(), scenario, &base, report)?)
}

/// Follows a part of a text, prints what was found, and answers how many differences there are.
fn follow(rt: &HostRuntime, text: &str) -> Result<usize, Fail> {
    let scenario = Scenario::parse(text).ok_or("a part of a text")?;
    let mut report = Report::new(rt.alloc());
    match scenario.system {
        "store" => try_all(rt, &StoreCalls, &scenario, &mut report)?,
        "blocks" => try_all(rt, &BlockCalls, &scenario, &mut report)?,
        "forth" => try_all(rt, &ForthLines { undoes: false }, &scenario, &mut report)?,
        "events" => try_all(rt, &ForthLines { undoes: true }, &scenario, &mut report)?,
        "image" | "zeros" => {
            let calls = ImageCalls {
                layout: scenario.medium.layout,
            };
            try_all(rt, &calls, &scenario, &mut report)?;
        }
        "broken input" => inputs_break_off(rt, &scenario, &mut report)?,
        _ => report.tell("no such system")?,
    }
    let Report {
        runs,
        stops,
        images,
        differences,
        told,
    } = report;
    print!(rt;
        "{}: runs {runs}, stops {stops}, images {images}, differences {differences}\n{told}",
        scenario.title
    )?;
    Ok(differences)
}

/// Follows the texts that the arguments name, and prints what was tried with each part, and every difference. The status is 1 where
/// there is one.
pub fn follow_all(rt: &HostRuntime) -> Result<ExitCode, Fail> {
    let paths: Vec<String> = env::args(rt)?.collect(rt.alloc())?;
    let mut differences = 0usize;
    for path in paths.iter().skip(1) {
        let text = fs::read_to_string(rt, path)?;
        for part in text.split("==== ").skip(1) {
            differences = differences.saturating_add(follow(rt, part)?);
        }
    }
    Ok(ExitCode::from(status(differences)))
}

/// The status of a run that found so many differences: 1 where there is one, and else 0.
fn status(differences: usize) -> u8
    ensures differ { 0 < differences → result ≡ 1 }
    ensures alike { differences ≡ 0 → result ≡ 0 }
{
    u8::from(differences > 0)
}
