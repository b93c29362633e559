// The device fails in each call of a run in turn: the run says so, and the next one loads what is there.
#![tactic(auto)]

use super::cases::{CODE, compiled, laid, says_of_compiling};
use super::parts::RunCase;
use super::stored::run_case;
use file_access::{MemoryFiles, WORKS_FOR_EVER};
use file_commands::Status;
use run_commands::Report;
use std::alloc::Global;

/// Whether a run failed for the device.
fn has_failed(report: &Report) -> bool {
    match &report.result {
        Ok(_) => false,
        Err(refusal) => refusal.status() == Status::Disk,
    }
}

/// Runs a case on a device that works for so many calls, and then on one that works; whether each run was refused, the
/// first one for the device, or none where a run isn't to be had.
fn failures(
    alloc: Global,
    files: &mut MemoryFiles<'_>,
    case: RunCase<'_>,
    calls: u64,
) -> Option<(bool, bool)> {
    if !compiled(alloc, files, case) {
        return None;
    }
    let budget = case.number("budget ", 1_000_000);
    files.work_for(calls);
    let first = run_case(alloc, files, CODE, case, false, budget)?;
    files.work_for(WORKS_FOR_EVER);
    let second = run_case(alloc, files, CODE, case, false, budget)?;
    Some((has_failed(&first), second.result.is_err()))
}

/// Whether a run of a case makes so many calls of the device: with fewer it fails, and whenever it failed the next run
/// loads.
fn makes_calls(alloc: Global, case: RunCase<'_>, wanted: u64) -> bool {
    for calls in 0..=wanted {
        let mut files = MemoryFiles::new(alloc, &[], WORKS_FOR_EVER);
        if failures(alloc, &mut files, case, calls) != Some((calls < wanted, false)) {
            return false;
        }
    }
    true
}

/// Whether the compiler says this where the device works for so many calls.
fn says_so(alloc: Global, case: RunCase<'_>, calls: u64, words: &str) -> bool {
    let mut files = MemoryFiles::new(alloc, &[], WORKS_FOR_EVER);
    let done = laid(alloc, &mut files, case);
    files.work_for(calls);
    done && says_of_compiling(alloc, &mut files, case, words)
}

/// Whether the compiler says what a case says of it, with each call of the device that fails in turn.
fn tells_of_each(alloc: Global, case: RunCase<'_>) -> bool {
    for (calls, words) in case.line("untold ").split('|').enumerate() {
        if !says_so(alloc, case, calls as u64, words) {
            return false;
        }
    }
    true
}

/// Whether a device that fails leads to what a case says of it.
pub fn tells_of_device(alloc: Global, case: RunCase<'_>) -> bool {
    (!case.has("untold ") || tells_of_each(alloc, case))
        && (!case.has("calls ") || makes_calls(alloc, case, case.number("calls ", 0)))
}
