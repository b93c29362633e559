// Codes by hand: what the verifier and both machines say of them.
#![tactic(auto)]

use super::assembler::assembled;
use super::cases::has_length;
use super::parts::{RunCase, are_bytes, is_text, number_at};
use super::stored::{are_alike, came_to, run_case};
use super::tables::{lay, put_file};
use super::tested::{left_alike, printed_alike, ready, saved_by_checking};
use file_access::{MemoryFiles, WORKS_FOR_EVER};
use file_commands::{list_code, verify_file};
use run_commands::{How, Report, RunDay};
use std::alloc::{AllocError, Global};
use std::test::Fail;
use xcode::{decode, encode};

const NAME: &str = "hand.xbc";

/// How the verdict on the code is told.
fn verdict(alloc: Global, files: &mut MemoryFiles<'_>) -> Result<String, AllocError> {
    match verify_file(alloc, files, NAME) {
        Ok(None) => String::from_str(alloc, "accepted"),
        Ok(Some(rule)) => rule.to_string(alloc),
        Err(refusal) => refusal.to_string(alloc),
    }
}

/// Whether the verdict on the code is as a case says, if it says one.
fn is_judged(alloc: Global, files: &mut MemoryFiles<'_>, case: RunCase<'_>) -> bool {
    !case.has("verdict ") || is_text(verdict(alloc, files), case.line("verdict "))
}

/// Whether the code that is read from a file is written as that file.
fn is_written_again(alloc: Global, bytes: &[u8]) -> bool {
    let Ok(code) = decode(alloc, bytes) else {
        return false;
    };
    are_bytes(encode(alloc, &code), bytes)
}

/// Whether the code is listed as a case says, if it says so: what the list begins with, and what it holds.
fn is_listed(alloc: Global, files: &mut MemoryFiles<'_>, case: RunCase<'_>) -> bool {
    if !case.has("first\n") {
        return true;
    }
    let Ok(lines) = list_code(alloc, files, NAME) else {
        return false;
    };
    match String::from_utf8(lines) {
        Ok(text) => {
            text.as_str().starts_with(case.says("first\n"))
                && text.as_str().contains(case.says("holds\n"))
        }
        Err(_) => false,
    }
}

/// Whether one of the machines runs the code as the words of a part say: within a budget, to this end.
fn runs_so(
    alloc: Global,
    files: &mut MemoryFiles<'_>,
    case: RunCase<'_>,
    checked: bool,
    said: (&str, &str),
) -> bool {
    let (line, rows) = said;
    let (budget, ended) = line.split_once(' ').unwrap_or((line, ""));
    match run_case(alloc, files, NAME, case, checked, number_at(budget, 0)) {
        Some(report) => came_to(alloc, &report, NAME, rows, ended),
        None => false,
    }
}

/// Whether a part, if it speaks of runs, tells what comes of them.
fn is_so(alloc: Global, files: &mut MemoryFiles<'_>, case: RunCase<'_>, part: &str) -> bool {
    let (line, rows) = part.split_once('\n').unwrap_or((part, ""));
    let (word, told) = line.split_once(' ').unwrap_or((line, ""));
    let both = word == "both";
    let said = (told, rows);
    (!both && word != "checked" || runs_so(alloc, files, case, true, said))
        && (!both && word != "untagged" || runs_so(alloc, files, case, false, said))
}

/// Whether the runs that a case speaks of come to what it says.
fn are_so(alloc: Global, files: &mut MemoryFiles<'_>, case: RunCase<'_>) -> bool {
    for part in case.own.split('%') {
        if !is_so(alloc, files, case, part) {
            return false;
        }
    }
    true
}

/// Whether a run within a budget came to its end, or was spent to the last step.
fn took(report: &Report, budget: u64, steps: u64, rows: &str) -> bool {
    match &report.result {
        Ok(ended) if budget < steps => ended.how == How::Spent && ended.steps == budget,
        Ok(ended) => {
            ended.how == How::Finished
                && ended.steps == steps
                && report.rows.as_slice() == rows.as_bytes()
        }
        Err(_) => false,
    }
}

/// What both machines make of the code within a budget, if they run it alike, as it should be where its run takes so
/// many steps.
fn run_alike(
    alloc: Global,
    files: &mut MemoryFiles<'_>,
    case: RunCase<'_>,
    budget: u64,
    steps: u64,
) -> Option<Report> {
    let one = run_case(alloc, files, NAME, case, true, budget)?;
    let other = run_case(alloc, files, NAME, case, false, budget)?;
    if took(&one, budget, steps, case.says("rows\n")) && are_alike(alloc, &one, &other, NAME) {
        return Some(other);
    }
    None
}

/// Whether both machines run the code so, each from the same files, the checking machine step by step too, print the
/// same rows, and leave the same tables.
fn run_well(alloc: Global, case: RunCase<'_>, bytes: &[u8], budget: u64, steps: u64) -> bool {
    let mut files = MemoryFiles::new(alloc, &[], WORKS_FOR_EVER);
    let mut others = MemoryFiles::new(alloc, &[], WORKS_FOR_EVER);
    if !ready(alloc, &mut files, NAME, case, bytes)
        || !ready(alloc, &mut others, NAME, case, bytes)
    {
        return false;
    }
    let report = run_alike(alloc, &mut files, case, budget, steps);
    let rows = saved_by_checking(alloc, &mut others, NAME, case, budget);
    printed_alike(report, rows) && left_alike(&files.written, &others.written)
}

/// Whether the code takes the steps that a case says, if it says so, with each budget up to one more.
fn takes_steps(alloc: Global, case: RunCase<'_>, bytes: &[u8]) -> bool {
    let steps = case.number("steps ", 0);
    for budget in 0..=steps.saturating_add(1) {
        if case.has("steps ") && !run_well(alloc, case, bytes, budget, steps) {
            return false;
        }
    }
    true
}

/// Whether the file of a code comes to what its case says.
fn is_well(alloc: Global, files: &mut MemoryFiles<'_>, bytes: &[u8], case: RunCase<'_>) -> bool {
    if !case.has("absent") && !put_file(alloc, files, NAME, bytes) || !lay(alloc, files, case) {
        return false;
    }
    let reads = has_length(bytes, case)
        && (!case.has("again") || is_written_again(alloc, bytes))
        && is_judged(alloc, files, case)
        && is_listed(alloc, files, case);
    files.work_for(case.number("works ", WORKS_FOR_EVER));
    reads
        && are_so(alloc, files, case)
        && files.failures == case.number("failures ", 0)
        && takes_steps(alloc, case, bytes)
}

/// Whether the code of a case comes to what it says.
pub fn code_is_well(alloc: Global, case: RunCase<'_>) -> bool {
    let mut files = MemoryFiles::new(alloc, &[], WORKS_FOR_EVER);
    match assembled(alloc, case) {
        Ok(bytes) => is_well(alloc, &mut files, &bytes, case),
        Err(_) => false,
    }
}

/// Words of the command line, and the days that they name, if they do.
const DAYS: &str = "1988-02-29|1988 2 29
1900-01-01|1900 1 1
2155-12-31|2155 12 31
1899-12-31|
2156-01-01|
1989-02-29|
88-02-29|
1988-2-29|
19880229|
1988/02/29|
1988-02-29T00|
|
";

/// Whether a word names this day, or none.
fn names(word: &str, day: &str) -> bool {
    let Some(named) = RunDay::named(word) else {
        return day.is_empty();
    };
    match named.day().parts() {
        Some(parts) => {
            !day.is_empty()
                && u64::from(parts.year) == number_at(day, 0)
                && u64::from(parts.month) == number_at(day, 1)
                && u64::from(parts.day) == number_at(day, 2)
        }
        None => false,
    }
}

/// The first word that names another day.
fn first_misread<'a>(lines: &'a str) -> Option<&'a str> {
    for line in lines.lines() {
        let (word, day) = line.split_once('|').unwrap_or((line, "-"));
        if !names(word, day) {
            return Some(line);
        }
    }
    None
}

#[test]
fn reads_the_day_of_the_words(rt: HostRuntime) -> Result<(), Fail> {
    assert_eq!(rt; first_misread(DAYS), None);
    Ok(())
}
