// What calls answer where a call of the device fails.
use crate::calls::row;
use crate::scenario::Trial;

/// Whether calls are answered as a line says where one of the device fails.
pub(crate) fn is_answered(rows: &str, trial: &Trial, kind: &str, answers: &str) -> bool {
    if !trial.answers.is_empty() {
        return answers.lines().eq(trial.answers.split(", "));
    }
    match trial.fault.split_once(", ") {
        Some((number, state)) => is_fault_told(rows, number, state, kind, answers),
        None => are_answered(rows, answers, usize::MAX),
    }
}

// Whether this answer is the first that tells the fault, and all others go with a store that is open or closed afterwards. A closed
// store calls no device.
fn is_fault_told(rows: &str, number: &str, state: &str, kind: &str, answers: &str) -> bool {
    let before = number.parse::<usize>().unwrap_or(0).saturating_sub(1);
    let (faults, closed) = count(answers);
    let goes_with = match (state, kind) {
        ("open", "from") => true,
        ("open", _) => faults == 1 && closed == 0,
        ("closed", _) => faults == 1 && closed > 0,
        _ => false,
    };
    goes_with
        && are_answered(rows, answers, before)
        && are_own_or_told(rows, answers)
        && answers.lines().nth(before).is_some_and(tells_fault)
}

/// Whether the first so many rows, and each that begins with `!`, are answered as they say.
pub(crate) fn are_answered(rows: &str, answers: &str, most: usize) -> bool {
    let mut came = answers.lines();
    for (i, text) in rows.lines().enumerate() {
        let is_right = came.next() == Some(row(text).1);
        if !is_right && (i < most || text.starts_with("!")) {
            return false;
        }
    }
    true
}

/// Whether each row has an answer, and each answer is the row's own or tells a fault of the device or a closed store.
pub(crate) fn are_own_or_told(rows: &str, answers: &str) -> bool {
    let mut came = answers.lines();
    for text in rows.lines() {
        let (_, wanted) = row(text);
        let is_right = match came.next() {
            Some(answer) => is_own_or_told(wanted, answer),
            None => false,
        };
        if !is_right {
            return false;
        }
    }
    came.next().is_none()
}

// A line of Forth prints as much of its own reply as came before the fault.
fn is_own_or_told(wanted: &str, answer: &str) -> bool {
    if let Some(printed) = answer.strip_suffix(" ? DEVICE") {
        return wanted.starts_with(printed);
    }
    if let Some(printed) = answer.strip_suffix(" ? CLOSED") {
        return wanted.starts_with(printed);
    }
    answer == wanted || answer == "Device" || answer == "Closed"
}

// Whether this answer tells that the device failed.
fn tells_fault(answer: &str) -> bool {
    answer.ends_with("Device") || answer.ends_with("DEVICE")
}

/// How many answers tell that the device failed, and how many that the store is closed.
pub(crate) fn count(answers: &str) -> (usize, usize) {
    let faults = answers.lines().filter(|answer| tells_fault(answer));
    let closed = answers.lines().filter(|answer| answer.ends_with("Closed")
        || answer.ends_with("CLOSED"));
    (faults.count(), closed.count())
}
