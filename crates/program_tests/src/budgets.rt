// Both machines over command files at each budget up to what a run costs.
#![tactic(auto)]

use super::cases::{CODE, code_of};
use super::parts::{RunCase, begins};
use super::stored::{are_alike, is_told, run_case, told};
use super::tested::{left_alike, printed_alike, ready, saved_by_checking};
use file_access::{MemoryFiles, WORKS_FOR_EVER};
use run_commands::Report;
use std::alloc::Global;

/// Whether a run was spent.
fn is_spent(alloc: Global, report: &Report) -> bool {
    begins(told(alloc, report, CODE), "spent ")
}

/// What both machines make of a case at this budget, each from the same files, if they run it alike: both print the
/// same, and end alike, spent below the whole cost and else as the case says.
fn run_alike(
    alloc: Global,
    files: &mut MemoryFiles<'_>,
    case: RunCase<'_>,
    budget: u64,
    whole: bool,
) -> Option<Report> {
    let one = run_case(alloc, files, CODE, case, true, budget)?;
    let other = run_case(alloc, files, CODE, case, false, budget)?;
    let ends = if whole {
        is_told(alloc, &one, CODE, case.line("ended "))
    } else {
        is_spent(alloc, &one)
    };
    if ends && are_alike(alloc, &one, &other, CODE) {
        return Some(other);
    }
    None
}

/// Whether both machines run the code of a case alike within a budget, the checking machine step by step too, print the
/// same rows, and leave the same tables and the same indexes, stale ones among them.
fn leave_alike(alloc: Global, case: RunCase<'_>, code: &[u8], budget: u64, whole: bool) -> bool {
    let mut files = MemoryFiles::new(alloc, &[], WORKS_FOR_EVER);
    let mut others = MemoryFiles::new(alloc, &[], WORKS_FOR_EVER);
    if !ready(alloc, &mut files, CODE, case, code) || !ready(alloc, &mut others, CODE, case, code) {
        return false;
    }
    let report = run_alike(alloc, &mut files, case, budget, whole);
    let rows = saved_by_checking(alloc, &mut others, CODE, case, budget);
    printed_alike(report, rows) && left_alike(&files.written, &others.written)
}

/// Whether the machines run a case alike within each budget up to the one that it says, if it says one.
pub fn machines_agree(alloc: Global, case: RunCase<'_>) -> bool {
    if !case.has("each ") {
        return true;
    }
    let Some(code) = code_of(alloc, case) else {
        return false;
    };
    let cost = case.number("each ", 0);
    for budget in 0..=cost {
        if !leave_alike(alloc, case, &code, budget, budget == cost) {
            return false;
        }
    }
    true
}
