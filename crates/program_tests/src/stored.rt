// What runs of code files say.
#![tactic(auto)]

use super::parts::{RunCase, is_text, number_at};
use calendar::{Day, DayParts};
use file_access::MemoryFiles;
use file_commands::Status;
use run_commands::{Ended, How, Job, RecordLimit, Report, RunDay, RunRefusal, run_files};
use std::alloc::{AllocError, Global};
use std::test::Fail;

/// The year, month and day of a text as a day that files can be stamped with; none where it isn't one.
pub fn day_of(text: &str) -> Option<RunDay> {
    let parts = DayParts {
        year: (number_at(text, 0) & 0xffff) as u16,
        month: (number_at(text, 1) & 0xff) as u8,
        day: (number_at(text, 2) & 0xff) as u8,
    };
    RunDay::of(Day::from_parts(parts)?)
}

/// The first day of 1985, unless a case says another one.
pub fn day_in(case: RunCase<'_>) -> Option<RunDay> {
    let text = case.line("day ");
    day_of(if text.is_empty() { "1985 1 1" } else { text })
}

/// The most records of a table.
pub fn limit_in(case: RunCase<'_>) -> Option<RecordLimit> {
    RecordLimit::of((case.number("limit ", 1_000_000) & 0xffff_ffff) as u32)
}

/// The run of a code file as a case says, by one of the machines within a budget.
pub fn run_case(
    alloc: Global,
    files: &mut MemoryFiles<'_>,
    name: &str,
    case: RunCase<'_>,
    checked: bool,
    budget: u64,
) -> Option<Report> {
    let job = Job {
        name,
        checked,
        budget,
        limit: limit_in(case)?,
        day: day_in(case)?,
        input: case.says("typed\n").as_bytes(),
    };
    Some(run_files(alloc, files, &job))
}

/// How the run of a code file is told.
pub fn told(alloc: Global, report: &Report, name: &str) -> Result<String, AllocError> {
    match &report.result {
        Ok(ended) => ended.to_string(alloc),
        Err(refusal) => refusal.told(name).to_string(alloc),
    }
}

/// Whether the run of a code file printed these rows, and is told so.
pub fn came_to(alloc: Global, report: &Report, name: &str, rows: &str, ended: &str) -> bool {
    report.rows.as_slice() == rows.as_bytes() && is_told(alloc, report, name, ended)
}

/// Whether two runs of a code file are told alike, and printed the same.
pub fn are_alike(alloc: Global, one: &Report, other: &Report, name: &str) -> bool {
    match told(alloc, other, name) {
        Ok(told) => {
            one.rows.as_slice() == other.rows.as_slice() && is_told(alloc, one, name, told.as_str())
        }
        Err(_) => false,
    }
}

/// The word with which an end or a refusal is told, and the status with which the program exits then.
const STATUSES: [(&str, u8); 7] = [
    ("finished", 0),
    ("refused", 2),
    ("spent", 3),
    ("full", 4),
    ("memory", 5),
    ("disk", 6),
    ("fault", 7),
];

/// Whether this is the status with which the program exits where it tells this.
fn is_status(status: Status, told: &str) -> bool {
    for (word, number) in STATUSES {
        if told.split_whitespace().next() == Some(word) {
            return status as u8 == number;
        }
    }
    false
}

/// The status with which the program exits behind a run.
fn status_of(report: &Report) -> Status {
    match &report.result {
        Ok(ended) => ended.status(),
        Err(refusal) => refusal.status(),
    }
}

/// Whether the run of a code file is told so, and has the status of that.
pub fn is_told(alloc: Global, report: &Report, name: &str, ended: &str) -> bool {
    is_text(told(alloc, report, name), ended) && is_status(status_of(report), ended)
}

#[test]
fn want_of_memory_is_told(rt: HostRuntime) -> Result<(), Fail> {
    let how = How::NoMemory;
    let ended = Ended { how, steps: 3 };
    assert!(rt; is_text(ended.to_string(rt.alloc()), "memory 3"));
    assert!(rt; is_status(ended.status(), "memory 3"));
    assert!(rt; is_status(RunRefusal::Memory.status(), "memory"));
    Ok(())
}
