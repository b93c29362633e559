// Conversations that save nothing, and what they would have saved.
#![tactic(auto)]

ghost use Rattle.std.specs.Prelude.{◌≡◌, ◌≤◌, true, false, length, IfOk, IfErr, OnErr, OnOk};
ghost use Rattle.file_access.specs.Holding.{Rose, SameFiles};
ghost use Rattle.file_commands.specs.Reports.{HasCode};
ghost use Rattle.operating.specs.Answers.{AnswersKept, LastUnkept};
ghost use Rattle.run_commands.specs.declared.job.Job.{Job as AnyJob};
ghost use Rattle.run_commands.specs.Operating.{IfOfRun, IfOfTalk, IsWith, OperationBroke, OperationFails};
ghost use Rattle.run_commands.specs.Parts.{CodeRefused, IsOfTables};
ghost use Rattle.run_commands.specs.Rehearsals.{IsRehearsed, LeavesTables};
ghost use Rattle.run_commands.specs.Reports.{RefusedBefore};
ghost use Rattle.text_lines.specs.Lines.{is_ended as is_ended_text};

use crate::conversation::{OperateRefusal, operate_accepted};
use crate::job::Job;
use crate::rehearsing::{Compared, Rehearsal, told_of, with_changes};
use crate::running::{accept, of_code};
use code_items::laws::legal_codes;
use file_access::Files;
use file_commands::read_code;
use legal_code::LegalCode;
use line_journal::Journal;
use operating::{Operator, can_go_on};
use run_laws::laws::new_stores_fit;
use std::alloc::Global;
use table_changes::{changes_since, keep};
use table_files::load;
use xverify::Verified;

/// Runs an accepted code over the tables that it declares while an operator types its lines, and compares what it left
/// with what was loaded.
fn compare_talk<F: Files, J: Journal, O: Operator>(
    alloc: Global,
    files: &mut F,
    verified: &Verified,
    job: &Job<'_>,
    most: usize,
    journal: &mut J,
    operator: &mut O,
) -> Result<Compared, OperateRefusal>
    requires held { J.holds journal.old ≡ job.now.input.now }
    requires ended { is_ended_text job.now.input.now ≡ true }
    requires few { length (J.holds journal.old) ≤ most }
    ensures done { IfOk result (λ done. (whole : AnyJob) → IsWith job.now (J.holds journal.new) whole
        → LeavesTables (F.holds files.old) whole verified.now done.outcome done.rows.items done.changes) }
    ensures refused { IfErr result (IfOfRun (IsOfTables (F.holds files.old) job.now verified.now
        (Rose (F.failed files.old) (F.failed files.new)))) }
    ensures kept { SameFiles (F.holds files.old) (F.holds files.new) }
    ensures counted { F.failed files.old ≤ F.failed files.new }
    ensures few { length (J.holds journal.new) ≤ most }
    ensures answered { OnOk result (AnswersKept (O.answered operator.old) (O.answered operator.new)
        (J.holds journal.old) (J.holds journal.new)) }
    ensures unkept { OnErr result (LastUnkept (O.answered operator.old) (O.answered operator.new)
        (J.holds journal.old) (J.holds journal.new)) }
    ensures unfailed { OnOk result (J.failed journal.new ≡ J.failed journal.old) }
    ensures broke { IfErr result (OperationBroke (J.failed journal.old) (J.failed journal.new)) }
    ensures cause { OperationFails result (O.failure operator.old) (O.failure operator.new) }
{
    legal_codes();
    new_stores_fit();
    let shape = &verified.code().declared.shape;
    let loaded = load(alloc, files, shape, job.limit.records())?;
    let kept = keep(alloc, shape, &loaded)?;
    let done = operate_accepted(alloc, verified, loaded, job, most, journal, operator)?;
    let changes = changes_since(alloc, shape, kept, done.banks.store());
    Ok(with_changes(done.alone(), changes)?)
}

/// Rehearses an accepted code so.
fn rehearse_accepted_talk<F: Files, J: Journal, O: Operator>(
    alloc: Global,
    files: &mut F,
    verified: &Verified,
    job: &Job<'_>,
    most: usize,
    journal: &mut J,
    operator: &mut O,
) -> Result<Rehearsal, OperateRefusal>
    requires untested { job.now.checked ≡ false }
    requires held { J.holds journal.old ≡ job.now.input.now }
    requires ended { is_ended_text job.now.input.now ≡ true }
    requires few { length (J.holds journal.old) ≤ most }
    ensures done { IfOk result (λ told. (whole : AnyJob) → IsWith job.now (J.holds journal.new) whole
        → IsRehearsed (F.holds files.old) whole told verified.now) }
    ensures refused { IfErr result (IfOfRun (IsOfTables (F.holds files.old) job.now verified.now
        (Rose (F.failed files.old) (F.failed files.new)))) }
    ensures kept { SameFiles (F.holds files.old) (F.holds files.new) }
    ensures counted { F.failed files.old ≤ F.failed files.new }
    ensures few { length (J.holds journal.new) ≤ most }
    ensures answered { OnOk result (AnswersKept (O.answered operator.old) (O.answered operator.new)
        (J.holds journal.old) (J.holds journal.new)) }
    ensures unkept { OnErr result (LastUnkept (O.answered operator.old) (O.answered operator.new)
        (J.holds journal.old) (J.holds journal.new)) }
    ensures unfailed { OnOk result (J.failed journal.new ≡ J.failed journal.old) }
    ensures broke { IfErr result (OperationBroke (J.failed journal.old) (J.failed journal.new)) }
    ensures cause { OperationFails result (O.failure operator.old) (O.failure operator.new) }
{
    let done = compare_talk(alloc, files, verified, job, most, journal, operator)?;
    match told_of(alloc, &verified.code().declared, done) {
        Ok(told) => Ok(told),
        Err(refusal) => Err(OperateRefusal::Run(refusal)),
    }
}

/// Verifies a code and rehearses it so.
fn rehearse_code_talk<F: Files, J: Journal, O: Operator>(
    alloc: Global,
    files: &mut F,
    code: LegalCode,
    job: &Job<'_>,
    most: usize,
    journal: &mut J,
    operator: &mut O,
) -> Result<Rehearsal, OperateRefusal>
    requires untested { job.now.checked ≡ false }
    requires held { J.holds journal.old ≡ job.now.input.now }
    requires ended { is_ended_text job.now.input.now ≡ true }
    requires few { length (J.holds journal.old) ≤ most }
    ensures done { IfOk result (λ told. (whole : AnyJob) → IsWith job.now (J.holds journal.new) whole
        → IsRehearsed (F.holds files.old) whole told code) }
    ensures refused { IfErr result (IfOfRun (CodeRefused (F.holds files.old) job.now code
        (Rose (F.failed files.old) (F.failed files.new)))) }
    ensures kept { SameFiles (F.holds files.old) (F.holds files.new) }
    ensures counted { F.failed files.old ≤ F.failed files.new }
    ensures few { length (J.holds journal.new) ≤ most }
    ensures answered { OnOk result (AnswersKept (O.answered operator.old) (O.answered operator.new)
        (J.holds journal.old) (J.holds journal.new)) }
    ensures unkept { OnErr result (LastUnkept (O.answered operator.old) (O.answered operator.new)
        (J.holds journal.old) (J.holds journal.new)) }
    ensures unfailed { OnOk result (J.failed journal.new ≡ J.failed journal.old) }
    ensures broke { IfErr result (OperationBroke (J.failed journal.old) (J.failed journal.new)) }
    ensures cause { OperationFails result (O.failure operator.old) (O.failure operator.new) }
{
    let verified = accept(alloc, code)?;
    rehearse_accepted_talk(alloc, files, &verified, job, most, journal, operator)
}

/// Runs the code in a file while an operator types its lines, as `operate_files` does, and saves nothing: what a run
/// would have saved is compared with the tables that were loaded. What is answered is what `rehearse_files` answers for
/// the same job with what the journal holds then as its input.
///
/// # Errors
/// Those for which `operate_files` saves nothing.
pub fn rehearse_talk<F: Files, J: Journal, O: Operator>(
    alloc: Global,
    files: &mut F,
    job: &Job<'_>,
    most: usize,
    journal: &mut J,
    operator: &mut O,
) -> Result<Rehearsal, OperateRefusal>
    requires untested { job.now.checked ≡ false }
    requires held { J.holds journal.old ≡ job.now.input.now }
    ensures done { IfOk result (λ told. (whole : AnyJob) → IsWith job.now (J.holds journal.new) whole
        → HasCode (F.holds files.old whole.name.now) (IsRehearsed (F.holds files.old) whole told)) }
    ensures refused { IfErr result (IfOfTalk (RefusedBefore (F.holds files.old) job.now
        (Rose (F.failed files.old) (F.failed files.new))) job.now.input.now most) }
    ensures kept { SameFiles (F.holds files.old) (F.holds files.new) }
    ensures few { OnOk result (length (J.holds journal.new) ≤ most) }
    ensures still { length (J.holds journal.old) ≤ most → length (J.holds journal.new) ≤ most }

    // What the journal holds then is what it held before, with the lines that were answered behind it, and no more.
    // Where nothing is told, the last line that was answered may be missing.
    ensures answered { OnOk result (AnswersKept (O.answered operator.old) (O.answered operator.new)
        (J.holds journal.old) (J.holds journal.new)) }
    ensures unkept { OnErr result (LastUnkept (O.answered operator.old) (O.answered operator.new)
        (J.holds journal.old) (J.holds journal.new)) }
    ensures unfailed { OnOk result (J.failed journal.new ≡ J.failed journal.old) }
    ensures broke { IfErr result (OperationBroke (J.failed journal.old) (J.failed journal.new)) }
    ensures cause { OperationFails result (O.failure operator.old) (O.failure operator.new) }
{
    if !can_go_on(job.input, most) {
        return Err(OperateRefusal::Handed);
    }
    match read_code(alloc, files, job.name) {
        Ok(code) => rehearse_code_talk(alloc, files, code, job, most, journal, operator),
        Err(refusal) => Err(OperateRefusal::Run(of_code(refusal))),
    }
}
