// Runs from files to files.
#![tactic(auto)]

ghost use Rattle.std.specs.Prelude.{◌≡◌, ◌≤◌, true, length, IfOk, IfErr, IsOk, OnErr};
ghost use Rattle.code_rules.specs.Rules.{Accepted};
ghost use Rattle.file_access.specs.Holding.{Rose, SameFiles};
ghost use Rattle.run_commands.specs.Parts.{IsOfCode, IsOfRule, IsOfTables, SavedAll, SavedSome, Stopped, CodeStopped};
ghost use Rattle.run_commands.specs.Parts.{CodeRefused};
ghost use Rattle.run_commands.specs.Reports.{HasRun, CodeRan, IsRefused, IsTested, IsTold, IsSavedRun, RefusedBefore};
ghost use Rattle.run_commands.specs.Reports.{SavingStopped};
ghost use Rattle.shape.specs.Whole.{is_shape};

use crate::ending::{Ended, ended_of};
use crate::job::Job;
use crate::machines::{AcceptedRun, run_accepted, run_any};
use crate::refusal::RunRefusal;
use code_items::laws::legal_codes;
use file_access::Files;
use file_commands::{Refusal, read_code};
use legal_code::LegalCode;
use operating::{Unwatched, Watcher};
use run_laws::laws::new_stores_fit;
use shape::Shape;
use std::alloc::Global;
use table_files::{load, save};
use xverify::{Verified, VerifyError, verify};

/// What a run reports: the bytes for printing, none where there was no run, and how it ended or why it didn't, or why
/// its tables aren't all saved.
#[derive(Drop)]
pub struct Report {
    pub rows: Vec<u8>,
    pub result: Result<Ended, RunRefusal>,
}

/// Why the code's file isn't read, without its name.
pub(crate) fn of_code(refusal: Refusal<'_>) -> RunRefusal
    ensures { IsOfCode refusal.entry result }
{
    match refusal {
        Refusal::Refused { fault, .. } => RunRefusal::File(fault),
        Refusal::Disk { .. } => RunRefusal::Disk,
        Refusal::Memory => RunRefusal::Memory,
    }
}

/// The accepted code, or why it isn't.
pub(crate) fn accept(alloc: Global, code: LegalCode) -> Result<Verified, RunRefusal>
    ensures ok { IfOk result (λ verified. verified ≡ code) }
    ensures accepted { IfOk result (λ _. Accepted code) }
    ensures refused { IfErr result (IsOfRule code) }
{
    match verify(alloc, code) {
        Ok(verified) => Ok(verified),
        Err(VerifyError::Refused(refused)) => Err(RunRefusal::Rule(refused)),
        Err(VerifyError::NoMemory) => Err(RunRefusal::Memory),
    }
}

/// Runs a code on the checking machine, over the tables that it declares.
fn test_run<F: Files, W: Watcher>(
    alloc: Global,
    files: &mut F,
    code: &LegalCode,
    job: &Job<'_>,
    watcher: &mut W,
) -> Result<Report, RunRefusal>
    ensures done { IfOk result (λ report. IfOk report.result
        (λ ended. IsTested (F.holds files.old) job.now code.now ended report.rows.items)) }
    ensures whole { IfOk result (λ report. IsOk report.result) }
    ensures refused { IfErr result (IsOfTables (F.holds files.old) job.now code.now
        (Rose (F.failed files.old) (F.failed files.new))) }
    ensures kept { SameFiles (F.holds files.old) (F.holds files.new) }
    ensures counted { F.failed files.old ≤ F.failed files.new }
{
    legal_codes();
    new_stores_fit();
    let shape = &code.code().declared.shape;
    let store = load(alloc, files, shape, job.limit.records())?;
    let run = run_any(alloc, code, store, job, watcher)?.alone();
    Ok(Report {
        rows: run.rows,
        result: Ok(ended_of(run.outcome, shape)),
    })
}

/// Saves the tables of a run, and reports it.
pub(crate) fn save_run<F: Files>(
    alloc: Global,
    files: &mut F,
    shape: &Shape,
    done: AcceptedRun,
    job: &Job<'_>,
) -> Report
    requires legal { is_shape shape.now ≡ true }
    requires count { length done.banks.env.store.tables ≡ length shape.now.tables }
    ensures rows { result.rows.items ≡ done.run.rows.items }
    ensures told { IfOk result.result (IsTold shape.now done.run.outcome) }
    ensures saved { IfOk result.result
        (λ _. SavedAll (F.holds files.old) (F.holds files.new) job.now shape.now done.banks.env.store) }
    ensures stopped { IfErr result.result
        (SavedSome (F.holds files.old) (F.holds files.new)
        (Rose (F.failed files.old) (F.failed files.new)) job.now shape.now done.banks.env.store) }
    ensures counted { F.failed files.old ≤ F.failed files.new }
{
    let ended = ended_of(done.run.outcome, shape);
    let saved = save(alloc, files, shape, done.banks.store(), job.day.stamp());
    let result = match saved {
        Ok(()) => Ok(ended),
        Err(refusal) => Err(RunRefusal::Tables(refusal)),
    };
    Report {
        rows: done.run.rows,
        result,
    }
}

/// Runs an accepted code on the machine without tags, over the tables that it declares, and saves them.
fn full_run<F: Files, W: Watcher>(
    alloc: Global,
    files: &mut F,
    verified: &Verified,
    job: &Job<'_>,
    watcher: &mut W,
) -> Result<Report, RunRefusal>
    ensures done { IfOk result (λ report. IfOk report.result
        (λ ended. IsSavedRun (F.holds files.old) (F.holds files.new) job.now verified.now ended report.rows.items)) }
    ensures stopped { IfOk result (λ report. IfErr report.result
        (Stopped (F.holds files.old) (F.holds files.new)
        (Rose (F.failed files.old) (F.failed files.new)) job.now verified.now report.rows.items)) }
    ensures refused { IfErr result (IsOfTables (F.holds files.old) job.now verified.now
        (Rose (F.failed files.old) (F.failed files.new))) }
    ensures kept { OnErr result (SameFiles (F.holds files.old) (F.holds files.new)) }
    ensures counted { F.failed files.old ≤ F.failed files.new }
{
    legal_codes();
    new_stores_fit();
    let shape = &verified.code().declared.shape;
    let store = load(alloc, files, shape, job.limit.records())?;
    let done = run_accepted(alloc, verified, store, job, watcher)?;
    Ok(save_run(alloc, files, shape, done, job))
}

/// Runs a code as the job says.
fn run_code<F: Files, W: Watcher>(
    alloc: Global,
    files: &mut F,
    code: LegalCode,
    job: &Job<'_>,
    watcher: &mut W,
) -> Result<Report, RunRefusal>
    ensures done { IfOk result (λ report. IfOk report.result
        (λ ended. CodeRan (F.holds files.old) (F.holds files.new) job.now ended report.rows.items code)) }
    ensures stopped { IfOk result (λ report. IfErr report.result
        (CodeStopped (F.holds files.old) (F.holds files.new)
        (Rose (F.failed files.old) (F.failed files.new)) job.now code report.rows.items)) }
    ensures refused { IfErr result (CodeRefused (F.holds files.old) job.now code
        (Rose (F.failed files.old) (F.failed files.new))) }
    ensures kept { OnErr result (SameFiles (F.holds files.old) (F.holds files.new)) }
    ensures counted { F.failed files.old ≤ F.failed files.new }
{
    if job.checked {
        return test_run(alloc, files, &code, job, watcher);
    }
    let verified = accept(alloc, code)?;
    full_run(alloc, files, &verified, job, watcher)
}

fn report_of<F: Files, W: Watcher>(
    alloc: Global,
    files: &mut F,
    job: &Job<'_>,
    watcher: &mut W,
) -> Result<Report, RunRefusal>
    ensures done { IfOk result (λ report. IfOk report.result
        (λ ended. HasRun (F.holds files.old) (F.holds files.new) job.now ended report.rows.items)) }
    ensures stopped { IfOk result (λ report. IfErr report.result
        (λ refusal. SavingStopped (F.holds files.old) (F.holds files.new) job.now
        (Rose (F.failed files.old) (F.failed files.new)) refusal report.rows.items)) }
    ensures refused { IfErr result (RefusedBefore (F.holds files.old) job.now
        (Rose (F.failed files.old) (F.failed files.new))) }
    ensures kept { OnErr result (SameFiles (F.holds files.old) (F.holds files.new)) }
{
    match read_code(alloc, files, job.name) {
        Ok(code) => run_code(alloc, files, code, job, watcher),
        Err(refusal) => Err(of_code(refusal)),
    }
}

/// Runs the code in a file as `run_files` does. The run is told to the watcher, in the parts that it says; that changes
/// nothing of what is printed and saved.
pub fn run_files_watched<F: Files, W: Watcher>(
    alloc: Global,
    files: &mut F,
    job: &Job<'_>,
    watcher: &mut W,
) -> Report
    ensures run { IfOk result.result (λ ended. HasRun (F.holds files.old)
        (F.holds files.new) job.now ended result.rows.items) }
    ensures refused { IfErr result.result
        (λ refusal. IsRefused (F.holds files.old) (F.holds files.new) job.now
        (Rose (F.failed files.old) (F.failed files.new)) refusal result.rows.items) }
{
    match report_of(alloc, files, job, watcher) {
        Ok(report) => report,
        Err(refusal) => Report {
            rows: Vec::new(alloc),
            result: Err(refusal),
        },
    }
}

/// Runs the code in a file over the tables and indexes that it declares. If the job is to be tested, the code runs on
/// the checking machine, accepted or not, and no file changes. Else it runs only if it is accepted, on the machine
/// without tags, and the tables are saved at each of the run's ends. The rows are what the run sends, also where not
/// all is saved.
pub fn run_files<F: Files>(alloc: Global, files: &mut F, job: &Job<'_>) -> Report
    ensures run { IfOk result.result (λ ended. HasRun (F.holds files.old)
        (F.holds files.new) job.now ended result.rows.items) }
    ensures refused { IfErr result.result
        (λ refusal. IsRefused (F.holds files.old) (F.holds files.new) job.now
        (Rose (F.failed files.old) (F.failed files.new)) refusal result.rows.items) }
{
    run_files_watched(alloc, files, job, &mut Unwatched)
}
