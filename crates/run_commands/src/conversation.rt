// Conversations from files to files.
#![tactic(auto)]

ghost use Rattle.std.specs.Prelude.{◌≡◌, ◌≤◌, true, false, length, Err, IfOk, IfErr, OnErr, OnOk};
ghost use Rattle.file_access.specs.Holding.{Rose, SameFiles};
ghost use Rattle.operating.specs.Answers.{AnswersKept, LastUnkept};
ghost use Rattle.run_commands.specs.declared.job.Job.{Job as AnyJob};
ghost use Rattle.run_commands.specs.declared.refusal.RunRefusal.TheVariants.{Memory};
ghost use Rattle.run_commands.specs.declared.conversation.OperateRefusal.TheVariants.{Handed};
ghost use Rattle.run_commands.specs.Operating.{IfOfRun, IsNoBeginning, IsWith, OperationBroke, OperationFails};
ghost use Rattle.run_commands.specs.Operating.{OperationRefused, SameResult, SoundOver};
ghost use Rattle.run_steps.specs.Shapes.{StoreFits};
ghost use Rattle.run_commands.specs.Parts.{CodeStopped, CodeRefused, IsOfTables, Stopped};
ghost use Rattle.run_commands.specs.Reports.{CodeRan, HasRun, IsSavedRun, RefusedBefore, SavingStopped};
ghost use Rattle.text_lines.specs.Lines.{is_ended as is_ended_text};

use crate::ending::Ended;
use crate::job::Job;
use crate::machines::{AcceptedRun, Run};
use crate::refusal::RunRefusal;
use crate::running::{Report, accept, of_code, save_run};
use code_items::laws::legal_codes;
use file_access::Files;
use file_commands::read_code;
use legal_code::LegalCode;
use line_journal::Journal;
use ndx_tree::NdxTree;
use operating::{Broken, Operator, can_go_on, converse};
use run_laws::laws::new_stores_fit;
use std::alloc::{AllocError, Global};
use table_files::{FilesRefusal, load};
use work_area::Store;
use xverify::Verified;

/// What a conversation reports: the bytes for printing, none where there was no run, and how the run ended, or why it
/// didn't, or why its tables aren't all saved.
#[derive(Drop)]
pub struct OperationReport {
    pub rows: Vec<u8>,
    pub result: Result<Ended, OperateRefusal>,
}

/// Why a conversation didn't come to a run that is saved.
#[derive(Clone, Copy)]
pub enum OperateRefusal {
    /// The run isn't carried out, or not all is saved, for this reason.
    Run(RunRefusal),
    /// The conversation broke off. Nothing is saved.
    Broke(Broken),
    /// The lines that the journal holds at the beginning have more bytes than all lines may have, or the last one has
    /// no end.
    Handed,
}

impl From<AllocError> for OperateRefusal {
    ghost use Rattle.run_commands.specs.declared.conversation.OperateRefusal.TheVariants.{Run};
    ghost use Rattle.run_commands.specs.declared.refusal.RunRefusal.TheVariants.{Memory};

    ghost from_gives = { λ _ e. e ≡ Run Memory };

    fn from(_: AllocError) -> OperateRefusal {
        OperateRefusal::Run(RunRefusal::Memory)
    }
}

impl From<Broken> for OperateRefusal {
    ghost use Rattle.run_commands.specs.declared.conversation.OperateRefusal.TheVariants.{Broke};

    ghost from_gives = { λ why e. e ≡ Broke why };

    fn from(why: Broken) -> OperateRefusal {
        OperateRefusal::Broke(why)
    }
}

impl From<FilesRefusal> for OperateRefusal {
    ghost use Rattle.run_commands.specs.declared.conversation.OperateRefusal.TheVariants.{Run};
    ghost use Rattle.run_commands.specs.declared.refusal.RunRefusal.TheVariants.{Tables};

    ghost from_gives = { λ refusal e. e ≡ Run (Tables refusal) };

    fn from(refusal: FilesRefusal) -> OperateRefusal {
        OperateRefusal::Run(RunRefusal::Tables(refusal))
    }
}

impl From<RunRefusal> for OperateRefusal {
    ghost use Rattle.run_commands.specs.declared.conversation.OperateRefusal.TheVariants.{Run};

    ghost from_gives = { λ refusal e. e ≡ Run refusal };

    fn from(refusal: RunRefusal) -> OperateRefusal {
        OperateRefusal::Run(refusal)
    }
}

/// Runs an accepted code over these tables while an operator types its lines.
pub(crate) fn operate_accepted<J: Journal, O: Operator>(
    alloc: Global,
    verified: &Verified,
    store: Store<NdxTree>,
    job: &Job<'_>,
    most: usize,
    journal: &mut J,
    operator: &mut O,
) -> Result<AcceptedRun, OperateRefusal>
    requires fits { StoreFits verified.now.declared store }
    requires held { J.holds journal.old ≡ job.now.input.now }
    requires ended { is_ended_text job.now.input.now ≡ true }
    requires few { length (J.holds journal.old) ≤ most }
    ensures done { IfOk result (λ done. SoundOver verified.now store job.now (J.holds journal.new)
        done.run.outcome done.run.rows.items done.banks.env.store) }
    ensures fits { IfOk result (λ done. StoreFits verified.now.declared done.banks.env.store) }
    ensures refused { IfErr result (IfOfRun (λ refusal. refusal ≡ Memory)) }
    ensures few { length (J.holds journal.new) ≤ most }
    ensures answered { OnOk result (AnswersKept (O.answered operator.old) (O.answered operator.new)
        (J.holds journal.old) (J.holds journal.new)) }
    ensures unkept { OnErr result (LastUnkept (O.answered operator.old) (O.answered operator.new)
        (J.holds journal.old) (J.holds journal.new)) }
    ensures unfailed { OnOk result (J.failed journal.new ≡ J.failed journal.old) }
    ensures broke { IfErr result (OperationBroke (J.failed journal.old) (J.failed journal.new)) }
    ensures cause { OperationFails result (O.failure operator.old) (O.failure operator.new) }
{
    let day = job.day.day();
    let talk = converse(
        alloc, verified, store, day, job.input, journal, operator, job.budget, most,
    )?;
    let rows = talk.banks.finish(alloc)?;
    Ok(AcceptedRun {
        run: Run {
            rows,
            outcome: talk.outcome,
        },
        banks: talk.banks,
    })
}

/// Loads the tables of an accepted code, runs it while the operator types, and saves them.
fn full_operation<F: Files, J: Journal, O: Operator>(
    alloc: Global,
    files: &mut F,
    verified: &Verified,
    job: &Job<'_>,
    most: usize,
    journal: &mut J,
    operator: &mut O,
) -> Result<Report, OperateRefusal>
    requires held { J.holds journal.old ≡ job.now.input.now }
    requires ended { is_ended_text job.now.input.now ≡ true }
    requires few { length (J.holds journal.old) ≤ most }
    ensures done { IfOk result (λ report. IfOk report.result
        (λ ended. (whole : AnyJob) → IsWith job.now (J.holds journal.new) whole
        → IsSavedRun (F.holds files.old) (F.holds files.new) whole verified.now ended report.rows.items)) }
    ensures stopped { IfOk result (λ report. IfErr report.result
        (λ refusal. (whole : AnyJob) → IsWith job.now (J.holds journal.new) whole
        → Stopped (F.holds files.old) (F.holds files.new)
        (Rose (F.failed files.old) (F.failed files.new)) whole verified.now report.rows.items refusal)) }
    ensures refused { IfErr result (IfOfRun (IsOfTables (F.holds files.old) job.now verified.now
        (Rose (F.failed files.old) (F.failed files.new)))) }
    ensures kept { OnErr result (SameFiles (F.holds files.old) (F.holds files.new)) }
    ensures counted { F.failed files.old ≤ F.failed files.new }
    ensures few { length (J.holds journal.new) ≤ most }
    ensures answered { OnOk result (AnswersKept (O.answered operator.old) (O.answered operator.new)
        (J.holds journal.old) (J.holds journal.new)) }
    ensures unkept { OnErr result (LastUnkept (O.answered operator.old) (O.answered operator.new)
        (J.holds journal.old) (J.holds journal.new)) }
    ensures unfailed { OnOk result (J.failed journal.new ≡ J.failed journal.old) }
    ensures broke { IfErr result (OperationBroke (J.failed journal.old) (J.failed journal.new)) }
    ensures cause { OperationFails result (O.failure operator.old) (O.failure operator.new) }
{
    legal_codes();
    new_stores_fit();
    let shape = &verified.code().declared.shape;
    let store = load(alloc, files, shape, job.limit.records())?;
    let done = operate_accepted(alloc, verified, store, job, most, journal, operator)?;
    Ok(save_run(alloc, files, shape, done, job))
}

/// Verifies a code and carries it out so.
fn operate_code<F: Files, J: Journal, O: Operator>(
    alloc: Global,
    files: &mut F,
    code: LegalCode,
    job: &Job<'_>,
    most: usize,
    journal: &mut J,
    operator: &mut O,
) -> Result<Report, OperateRefusal>
    requires untested { job.now.checked ≡ false }
    requires held { J.holds journal.old ≡ job.now.input.now }
    requires ended { is_ended_text job.now.input.now ≡ true }
    requires few { length (J.holds journal.old) ≤ most }
    ensures done { IfOk result (λ report. IfOk report.result
        (λ ended. (whole : AnyJob) → IsWith job.now (J.holds journal.new) whole
        → CodeRan (F.holds files.old) (F.holds files.new) whole ended report.rows.items code)) }
    ensures stopped { IfOk result (λ report. IfErr report.result
        (λ refusal. (whole : AnyJob) → IsWith job.now (J.holds journal.new) whole
        → CodeStopped (F.holds files.old) (F.holds files.new)
        (Rose (F.failed files.old) (F.failed files.new)) whole code report.rows.items refusal)) }
    ensures refused { IfErr result (IfOfRun (CodeRefused (F.holds files.old) job.now code
        (Rose (F.failed files.old) (F.failed files.new)))) }
    ensures kept { OnErr result (SameFiles (F.holds files.old) (F.holds files.new)) }
    ensures counted { F.failed files.old ≤ F.failed files.new }
    ensures few { length (J.holds journal.new) ≤ most }
    ensures answered { OnOk result (AnswersKept (O.answered operator.old) (O.answered operator.new)
        (J.holds journal.old) (J.holds journal.new)) }
    ensures unkept { OnErr result (LastUnkept (O.answered operator.old) (O.answered operator.new)
        (J.holds journal.old) (J.holds journal.new)) }
    ensures unfailed { OnOk result (J.failed journal.new ≡ J.failed journal.old) }
    ensures broke { IfErr result (OperationBroke (J.failed journal.old) (J.failed journal.new)) }
    ensures cause { OperationFails result (O.failure operator.old) (O.failure operator.new) }
{
    let verified = accept(alloc, code)?;
    full_operation(alloc, files, &verified, job, most, journal, operator)
}

/// Reads a code and carries it out so.
fn operate_read<F: Files, J: Journal, O: Operator>(
    alloc: Global,
    files: &mut F,
    job: &Job<'_>,
    most: usize,
    journal: &mut J,
    operator: &mut O,
) -> Result<Report, OperateRefusal>
    requires untested { job.now.checked ≡ false }
    requires held { J.holds journal.old ≡ job.now.input.now }
    requires ended { is_ended_text job.now.input.now ≡ true }
    requires few { length (J.holds journal.old) ≤ most }
    ensures done { IfOk result (λ report. IfOk report.result
        (λ ended. (whole : AnyJob) → IsWith job.now (J.holds journal.new) whole
        → HasRun (F.holds files.old) (F.holds files.new) whole ended report.rows.items)) }
    ensures stopped { IfOk result (λ report. IfErr report.result
        (λ refusal. (whole : AnyJob) → IsWith job.now (J.holds journal.new) whole
        → SavingStopped (F.holds files.old) (F.holds files.new) whole
        (Rose (F.failed files.old) (F.failed files.new)) refusal report.rows.items)) }
    ensures refused { IfErr result (IfOfRun (RefusedBefore (F.holds files.old) job.now
        (Rose (F.failed files.old) (F.failed files.new)))) }
    ensures kept { OnErr result (SameFiles (F.holds files.old) (F.holds files.new)) }
    ensures few { length (J.holds journal.new) ≤ most }
    ensures answered { OnOk result (AnswersKept (O.answered operator.old) (O.answered operator.new)
        (J.holds journal.old) (J.holds journal.new)) }
    ensures unkept { OnErr result (LastUnkept (O.answered operator.old) (O.answered operator.new)
        (J.holds journal.old) (J.holds journal.new)) }
    ensures unfailed { OnOk result (J.failed journal.new ≡ J.failed journal.old) }
    ensures broke { IfErr result (OperationBroke (J.failed journal.old) (J.failed journal.new)) }
    ensures cause { OperationFails result (O.failure operator.old) (O.failure operator.new) }
{
    match read_code(alloc, files, job.name) {
        Ok(code) => operate_code(alloc, files, code, job, most, journal, operator),
        Err(refusal) => Err(OperateRefusal::Run(of_code(refusal))),
    }
}

/// A result of a run as that of a conversation.
fn told(run: Result<Ended, RunRefusal>) -> Result<Ended, OperateRefusal>
    ensures { SameResult run result }
{
    match run {
        Ok(ended) => Ok(ended),
        Err(refusal) => Err(OperateRefusal::Run(refusal)),
    }
}

/// Runs the code in a file, if it is accepted, over the tables and indexes that it declares, while an operator types
/// its lines. The tables are saved at each of the run's ends. The run begins with the lines that the journal holds,
/// which are the job's input, and goes on with those that the operator answers. Each of these is kept in the journal
/// before the run sees it. Behind the end of the input each further line is empty. What is printed and saved is what
/// `run_files` prints and saves for the same job with what the journal holds then as its input. Where the operator or
/// the journal fails, or a line isn't one, nothing is printed or saved. `Broken::Journal` is answered only where the
/// journal failed and counted that, and `Broken::Operator` only where the operator failed, and not for want of memory.
/// All lines together have at most `most` bytes, each with its end: where a line would pass that, the end of the input
/// alone is left to answer.
pub fn operate_files<F: Files, J: Journal, O: Operator>(
    alloc: Global,
    files: &mut F,
    job: &Job<'_>,
    most: usize,
    journal: &mut J,
    operator: &mut O,
) -> OperationReport
    requires untested { job.now.checked ≡ false }
    requires held { J.holds journal.old ≡ job.now.input.now }
    ensures run { IfOk result.result (λ ended. (whole : AnyJob) → IsWith job.now (J.holds journal.new) whole
        → HasRun (F.holds files.old) (F.holds files.new) whole ended result.rows.items) }
    ensures refused { IfErr result.result
        (λ refusal. (whole : AnyJob) → IsWith job.now (J.holds journal.new) whole
        → OperationRefused (F.holds files.old) (F.holds files.new) whole
        (Rose (F.failed files.old) (F.failed files.new)) refusal result.rows.items) }
    ensures handed { result.result ≡ Err Handed → IsNoBeginning job.now.input.now most }
    ensures few { OnOk result.result (length (J.holds journal.new) ≤ most) }
    ensures still { length (J.holds journal.old) ≤ most → length (J.holds journal.new) ≤ most }

    // What the journal holds then is what it held before, with the lines that were answered behind it, and no more.
    // Where no run is saved, the last line that was answered may be missing.
    ensures answered { OnOk result.result (AnswersKept (O.answered operator.old) (O.answered operator.new)
        (J.holds journal.old) (J.holds journal.new)) }
    ensures unkept { OnErr result.result (LastUnkept (O.answered operator.old) (O.answered operator.new)
        (J.holds journal.old) (J.holds journal.new)) }
    ensures unfailed { OnOk result.result (J.failed journal.new ≡ J.failed journal.old) }
    ensures broke { IfErr result.result (OperationBroke (J.failed journal.old) (J.failed journal.new)) }
    ensures cause { OperationFails result.result (O.failure operator.old) (O.failure operator.new) }
{
    if !can_go_on(job.input, most) {
        return OperationReport {
            rows: Vec::new(alloc),
            result: Err(OperateRefusal::Handed),
        };
    }
    match operate_read(alloc, files, job, most, journal, operator) {
        Ok(report) => OperationReport {
            rows: report.rows,
            result: told(report.result),
        },
        Err(refusal) => OperationReport {
            rows: Vec::new(alloc),
            result: Err(refusal),
        },
    }
}
