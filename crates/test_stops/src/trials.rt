// A text of calls is stopped before each of its calls of the device, and each of them is made to fail.
use crate::answers::{are_answered, are_own_or_told, count, is_answered};
use crate::calls::row;
use crate::disks::{BLOCKS, sector};
use crate::fates::{count_of_stops, in_words, stopped, unsynced_sectors};
use crate::fillings::{Fillings, Left, left_in, looked_at, shown};
use crate::medium::{Layout, Medium, Unit};
use crate::player::{Played, Player};
use crate::recoveries::{add, recover, recover_failing};
use crate::report::Report;
use crate::scenario::{Scenario, Trial};
use crate::told::Told;
use journal::layout;
use sector_disk::{Counts, Fused, MemoryDisk, SectorDevice};
use std::alloc::{AllocError, Global};
use std::test::Fail;
use test_devices::{Coarse, Tearing};

/// Calls, and the image before them.
#[derive(Drop)]
pub struct Calls<'a> {
    /// The rows of the calls.
    pub rows: &'a str,
    /// The image before the calls.
    pub disk: MemoryDisk,
    /// Its layout, and the units of its disk.
    pub medium: Medium,
    /// What its blocks hold.
    pub start: Fillings,
    /// How many calls of the device are made before the first row.
    pub opening: u64,
}

/// Calls that are tried, and what they make where nothing fails.
#[derive(Drop)]
pub struct Base<'a> {
    /// The calls.
    pub calls: Calls<'a>,
    /// The image after them.
    pub end: MemoryDisk,
    /// The calls of the device before the first row.
    pub before: Counts,
    /// The most stops before one call.
    pub most: usize,
    /// Images with an open gate that stops leave, each once; and what stops of their recoveries leave, once these were tried.
    pub images: Vec<Calls<'static>>,
}

/// What calls have come to.
#[derive(Drop)]
pub struct Halt {
    /// The disk within the device that failed.
    pub disk: MemoryDisk,
    /// What each call answered, a line each.
    pub answers: String,
    /// What they told of the blocks.
    pub told: Told,
}

/// The bytes that a torn write leaves: `wild` ones that no call writes, those of an open `gate` with others after its name, or a
/// good `label` of 32 blocks.
fn leavings(kind: &str, layout: Layout) -> Option<[u8; 512]> {
    match kind {
        "wild" => Some([0xee; 512]),
        "gate" => {
            let mut gate = [0xee; 512];
            gate[..8].copy_from_slice(b"COMMIT83");
            Some(gate)
        }
        "label" => Some(match layout {
            Layout::Older => layout::label(BLOCKS),
            Layout::Newer => journal::pages::layout::label(BLOCKS),
        }),
        _ => None,
    }
}

/// Does the calls over a device of which call `k` fails: that call alone (`once`), with all after it (`from`), or so that a write
/// leaves other bytes.
pub fn run<P: Player>(
    rt: &HostRuntime,
    player: &P,
    calls: &Calls,
    failure: (&str, u64),
    report: &mut Report,
) -> Result<Halt, Fail> {
    let disk = calls.disk.try_clone(rt.alloc())?;
    report.runs = report.runs.saturating_add(1);
    match calls.medium.unit {
        Unit::One => {
            let played = fail(rt.alloc(), player, calls, disk, failure)?;
            let Played {
                device,
                answers,
                told,
            } = played;
            Ok(Halt {
                disk: device,
                answers,
                told,
            })
        }
        Unit::Eight => {
            let played = fail(rt.alloc(), player, calls, Coarse::new(disk), failure)?;
            let Played {
                device,
                answers,
                told,
            } = played;
            Ok(Halt {
                disk: device.into_device(),
                answers,
                told,
            })
        }
    }
}

// Does the calls over this device, of which a call fails.
fn fail<P: Player, D: SectorDevice + Drop>(
    alloc: Global,
    player: &P,
    calls: &Calls,
    device: D,
    failure: (&str, u64),
) -> Result<Played<D>, Fail> {
    let (kind, k) = failure;
    let k = k.saturating_add(calls.opening).max(1);
    if let Some(torn) = leavings(kind, calls.medium.layout) {
        let device = Tearing::once(device, k, torn);
        let played = player.play(alloc, calls.rows, device, calls.start)?;
        let Played {
            device,
            answers,
            told,
        } = played;
        return Ok(Played {
            device: device.into_device(),
            answers,
            told,
        });
    }
    let device = match kind {
        "once" => Fused::once(device, k),
        "from" => Fused::from(device, k),
        _ => return Err("no such way to fail")?,
    };
    let played = player.play(alloc, calls.rows, device, calls.start)?;
    let Played {
        device,
        answers,
        told,
    } = played;
    Ok(Played {
        device: device.into_device(),
        answers,
        told,
    })
}

fn total(counts: Counts) -> u64 {
    counts
        .reads
        .saturating_add(counts.writes)
        .saturating_add(counts.syncs)
}

/// Does the calls once where nothing fails, and tells each answer that isn't the one in its row.
pub fn begin<'a, P: Player>(
    rt: &HostRuntime,
    player: &P,
    scenario: &Scenario<'a>,
    report: &mut Report,
) -> Result<Base<'a>, Fail> {
    let disk = scenario.disk(rt)?;
    let mut calls = Calls {
        rows: "",
        start: left_in(disk.try_clone(rt.alloc())?)?.unwrap_or(Fillings::blank()),
        disk,
        medium: scenario.medium,
        opening: 0,
    };
    let never = ("from", u64::MAX);
    let before = run(rt, player, &calls, never, report)?.disk.counts();
    calls.opening = total(before).saturating_sub(total(calls.disk.counts()));
    calls.rows = scenario.rows;
    let halt = run(rt, player, &calls, never, report)?;
    let Halt { disk, answers, .. } = halt;
    compare(rt.alloc(), scenario.rows, &answers, report)?;
    Ok(Base {
        calls,
        end: disk,
        before,
        most: 0,
        images: Vec::new(rt.alloc()),
    })
}

// Tells each answer that isn't the one in its row.
fn compare(alloc: Global, rows: &str, answers: &str, report: &mut Report) -> Result<(), Fail> {
    let mut came = answers.lines();
    for text in rows.lines() {
        compare_row(alloc, text, came.next(), report)?;
    }
    match came.next() {
        Some(answer) => compare_row(alloc, "after the last row | nothing", Some(answer), report),
        None => Ok(()),
    }
}

fn compare_row(
    alloc: Global,
    text: &str,
    answer: Option<&str>,
    report: &mut Report,
) -> Result<(), Fail> {
    let (call, wanted) = row(text);
    match answer {
        Some(answer) if answer == wanted => Ok(()),
        Some(answer) => {
            Ok(report.tell(&format!(in alloc; "{call}: wanted {wanted}, came {answer}")?)?)
        }
        None => Ok(report.tell(&format!(in alloc; "{call}: wanted {wanted}, came nothing")?)?),
    }
}

/// Tries what a line says.
///
/// `calls 29` and `writes 67, syncs 4` are what the calls make of the device, `most 243` the most stops before one call so far, and
/// `images 81` how many images with an open gate these left, with those that a `recover` before the line has added.
///
/// `stop 1..9, saved blank, left blank | 1A` stops before each of these calls: so much the calls have told to be saved, and this is
/// what is left, all of it and no more. `tear wild gate 1..9` fails each of these calls, where a write leaves other bytes, and stops
/// after the calls; where no line says what is left, it is what was saved, or what a save that didn't return would leave.
///
/// `fail 1..9, in 3, open, left saved` fails each of these calls alone, and then with all after it: the third answer tells it, the
/// store is open or closed afterwards, and the image holds what was saved, or what a save that didn't return would leave (`begun`).
/// Each other answer is the row's own, or tells a fault of the device or a closed store. `fail once 3, answers ok, Device` fails call
/// 3 alone: these are the answers. `well 10..12` are calls that are never made.
///
/// `recover` opens the images, and stops that at each of its calls until no other image comes; `recover once wild 1..23` fails each
/// of these calls of each recovery, and opens once more. Images of layout 3 are never recovered: where an opening of one writes, or
/// doesn't sync once, this is told of each stop.
///
/// A range has a first call of 1 or more and isn't empty. `end` (in `whole.rt`) says which lines may not be missing.
pub fn trial<P: Player>(
    rt: &HostRuntime,
    player: &P,
    base: &mut Base,
    line: &str,
    report: &mut Report,
) -> Result<(), Fail> {
    let (word, rest) = line.split_once(" ").unwrap_or((line, ""));
    match (word, rest, Trial::parse(line)) {
        ("#", _, _) => Ok(()),
        ("calls" | "writes" | "most" | "images", _, _) => number(rt.alloc(), base, line, report),
        ("recover", "", _) => recover(rt, base, report),
        ("recover", _, Some(trial)) => recover_failing(rt, base, &trial, report),
        ("stop" | "tear", _, Some(trial)) => stops(rt, player, base, &trial, report),
        ("fail" | "well", _, Some(trial)) => failures(rt, player, base, &trial, report),
        _ => Ok(report.tell(&format!(in rt.alloc(); "a line that says nothing: {line}")?)?),
    }
}

// Compares a line with what was counted.
fn number(alloc: Global, base: &Base, line: &str, report: &mut Report) -> Result<(), Fail> {
    let counts = base.end.counts();
    let numbers = format!(in alloc;
        "calls {}\nwrites {}, syncs {}\nmost {}\nimages {}",
        count_of_calls(base),
        counts.writes.saturating_sub(base.before.writes),
        counts.syncs.saturating_sub(base.before.syncs),
        base.most,
        base.images.len()
    )?;
    if !numbers.lines().any(|number| number == line) {
        report.tell(&format!(in alloc; "{line}: came\n{numbers}")?)?;
    }
    Ok(())
}

/// How many calls of the device the calls make.
pub(crate) fn count_of_calls(base: &Base) -> u64 {
    total(base.end.counts()).saturating_sub(total(base.before))
}

fn stops<P: Player>(
    rt: &HostRuntime,
    player: &P,
    base: &mut Base,
    trial: &Trial,
    report: &mut Report,
) -> Result<(), Fail> {
    for k in trial.first..=trial.last {
        for kind in trial.kinds.split(" ") {
            let halt = run(rt, player, &base.calls, (kind, k), report)?;
            compare_told(rt.alloc(), base, trial, (kind, k), &halt, report)?;
            stop(rt, base, trial, (kind, k), &halt, report)?;
        }
    }
    Ok(())
}

// Compares what the calls told to be saved, and whether they answered as where nothing fails, or told a fault.
fn compare_told(
    alloc: Global,
    base: &Base,
    trial: &Trial,
    failure: (&str, u64),
    halt: &Halt,
    report: &mut Report,
) -> Result<(), Fail> {
    let (kind, k) = failure;
    let is_past = k > count_of_calls(base);
    let (faults, _) = count(&halt.answers);
    let saved = shown(alloc, Ok(halt.told.saved))?;
    let is_so = (faults == 0) == is_past
        && are_answered(base.calls.rows, &halt.answers, usize::MAX) == is_past
        && are_own_or_told(base.calls.rows, &halt.answers)
        && (kind == "from" || faults <= 1)
        && (trial.saved.is_empty() || trial.saved == saved.as_str());
    if !is_so {
        let answers = &halt.answers;
        report.tell(&format!(in alloc; "call {k} ({kind}): came saved {saved}, and\n{answers}")?)?;
    }
    Ok(())
}

// Goes through all stops of a disk: each leaves one of the wanted, and each of them is left. What comes often is told once.
fn stop(
    rt: &HostRuntime,
    base: &mut Base,
    trial: &Trial,
    failure: (&str, u64),
    halt: &Halt,
    report: &mut Report,
) -> Result<(), Fail> {
    let (kind, k) = failure;
    let alloc = rt.alloc();
    let sectors = unsynced_sectors(rt, &halt.disk, base.calls.medium)?;
    let all = count_of_stops(&sectors);
    base.most = base.most.max(all);
    let mut found = String::new(alloc);
    for n in 0..all {
        let disk = stopped(rt, &halt.disk, &sectors, n)?;
        let left = keep_image(alloc, base, kind, disk, report)?;
        let came = shown(alloc, left)?;
        if is_listed(&found, &came) {
            continue;
        }
        if !is_allowed(trial.left, &halt.told, left, &came) {
            let fates = in_words(alloc, &sectors, n)?;
            report.tell(&format!(in alloc; "call {k} ({kind}), sectors{fates} came {came}")?)?;
        }
        found.push_str(" | ")?;
        found.push_str(&came)?;
    }
    for wanted in trial.left.split(" | ") {
        if !is_listed(&found, wanted) {
            report.tell(&format!(in alloc; "call {k} ({kind}): never came {wanted}")?)?;
        }
    }
    Ok(())
}

// What a stop left of an image. After a call that failed with all after it, the image is kept where its opening has something to do.
fn keep_image(
    alloc: Global,
    base: &mut Base,
    kind: &str,
    disk: MemoryDisk,
    report: &mut Report,
) -> Result<Left, Fail> {
    let mut disk = disk;
    report.stops = report.stops.saturating_add(1);
    if kind != "from" || !is_recovered(&mut disk, base.calls.medium)? {
        return look(alloc, base.calls.medium, disk, report);
    }
    let image = disk.try_clone(alloc)?;
    let left = look(alloc, base.calls.medium, disk, report)?;
    if let Ok(means) = left {
        add(alloc, &mut base.images, image, means, report)?;
    }
    Ok(left)
}

// Whether an opening of this image would finish a save: by layout 2 it does so under an open gate, and by layout 3 never.
fn is_recovered(disk: &mut MemoryDisk, medium: Medium) -> Result<bool, Fail> {
    let gate = sector(disk, layout::GATE)?;
    Ok(medium.layout == Layout::Older && layout::gate_is_open(&gate))
}

// What is left in an image. An opening of layout 3 writes nothing and syncs once, or that is told.
fn look(
    alloc: Global,
    medium: Medium,
    disk: MemoryDisk,
    report: &mut Report,
) -> Result<Left, Fail> {
    let before = disk.counts();
    let (left, after) = looked_at(disk)?;
    report.images = report.images.saturating_add(1);
    let writes = after.writes.saturating_sub(before.writes);
    let syncs = after.syncs.saturating_sub(before.syncs);
    if medium.layout == Layout::Newer && (writes, syncs) != (0, 1) {
        report.tell(&format!(in alloc; "an opening made {writes} writes and {syncs} syncs")?)?;
    }
    Ok(left)
}

// Whether a text is one of these, as in `blank | 1A`.
fn is_listed(list: &str, text: &str) -> bool {
    list.split(" | ").any(|one| one == text)
}

// Whether this may be left: what a line says or, where it says nothing, what the calls told.
fn is_allowed(wanted: &str, told: &Told, left: Left, came: &str) -> bool {
    match (wanted, left) {
        ("", Ok(fillings)) => told.allows(fillings),
        ("saved", Ok(fillings)) => fillings == told.saved,
        ("begun", Ok(fillings)) => Some(fillings) == told.begun,
        _ => is_listed(wanted, came),
    }
}

fn failures<P: Player>(
    rt: &HostRuntime,
    player: &P,
    base: &Base,
    trial: &Trial,
    report: &mut Report,
) -> Result<(), Fail> {
    for k in trial.first..=trial.last {
        for kind in trial.kinds.split(" ") {
            let halt = run(rt, player, &base.calls, (kind, k), report)?;
            compare_failure(rt.alloc(), base, trial, (kind, k), halt, report)?;
        }
    }
    Ok(())
}

fn compare_failure(
    alloc: Global,
    base: &Base,
    trial: &Trial,
    failure: (&str, u64),
    halt: Halt,
    report: &mut Report,
) -> Result<(), Fail> {
    let (kind, k) = failure;
    let Halt {
        disk,
        answers,
        told,
    } = halt;
    let left = look(alloc, base.calls.medium, disk, report)?;
    let came = shown(alloc, left)?;
    if !is_answered(base.calls.rows, trial, kind, &answers)
        || !is_allowed(trial.left, &told, left, &came)
    {
        report.tell(&format!(in alloc; "call {k} fails ({kind}): left {came}, came\n{answers}")?)?;
    }
    Ok(())
}
