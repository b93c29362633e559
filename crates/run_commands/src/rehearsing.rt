// Runs that save nothing, and what they would have saved.
#![tactic(auto)]

ghost use Rattle.std.specs.Prelude.{◌≡◌, ◌≤◌, ◌<◌, ◌↔◌, IsTrue, true, false, map, IfOk, IfErr, Ok};
ghost use Rattle.file_access.specs.Holding.{Rose, SameFiles};
ghost use Rattle.file_commands.specs.Reports.{HasCode};
ghost use Rattle.run_commands.specs.declared.refusal.RunRefusal.TheVariants.{Memory};
ghost use Rattle.run_commands.specs.Parts.{IsOfTables, CodeRefused};
ghost use Rattle.run_commands.specs.Rehearsals.{IsLongestFilter, IsRehearsed, IsToldAs, LeavesTables};
ghost use Rattle.run_commands.specs.Reports.{RefusedBefore};

use crate::ending::{Ended, ended_of, put_name};
use crate::job::Job;
use crate::machines::{Run, run_accepted, run_any};
use crate::refusal::RunRefusal;
use crate::running::{accept, of_code};
use code_items::laws::legal_codes;
use code_items::{Declared, Filter};
use file_access::Files;
use file_commands::read_code;
use legal_code::LegalCode;
use operating::{Unwatched, Watcher};
use run_laws::laws::new_stores_fit;
use run_steps::Outcome;
use shape::{IndexShape, Name, TableShape, copy_of_name};
use std::alloc::{AllocError, Global};
use std::fmt;
use table_changes::{Changes, RowCounts, changes_since, keep};
use table_files::load;
use xverify::Verified;

/// The most instructions of a filter that isn't reported.
const SHORT_FILTER: u16 = 64;

/// A run that saved nothing: the bytes for printing, how it ended, what became of each declared table and index, and
/// their names.
#[derive(Drop)]
pub struct Rehearsal {
    pub rows: Vec<u8>,
    pub ended: Ended,
    pub changes: Changes,
    pub tables: Vec<Name>,
    pub indexes: Vec<Name>,
    /// How many instructions the longest filter of the code has; 0 if it has none.
    pub longest_filter: u16,
}

/// A run that left its tables, compared with those before it.
#[derive(Drop)]
pub(crate) struct Compared {
    pub rows: Vec<u8>,
    pub outcome: Outcome,
    pub changes: Changes,
}

/// The names of the declared tables.
fn table_names(alloc: Global, tables: &[TableShape]) -> Result<Vec<Name>, AllocError>
    ensures { IfOk result (λ names. names.items ≡ map (λ t. t.name) tables.now) }
{
    let mut names = Vec::with_capacity(alloc, tables.len())?;
    for table in tables {
        names.push(copy_of_name(&table.name))?;
    }
    Ok(names)
}

/// The names of the declared indexes.
fn index_names(alloc: Global, indexes: &[IndexShape]) -> Result<Vec<Name>, AllocError>
    ensures { IfOk result (λ names. names.items ≡ map (λ x. x.name) indexes.now) }
{
    let mut names = Vec::with_capacity(alloc, indexes.len())?;
    for index in indexes {
        names.push(copy_of_name(&index.name))?;
    }
    Ok(names)
}

/// A run with what became of its tables, where there was memory to find that.
pub(crate) fn with_changes(
    run: Run,
    changes: Result<Changes, AllocError>,
) -> Result<Compared, AllocError>
    ensures { IfOk result (λ done.
        (changes ≡ Ok done.changes) × (done.outcome ≡ run.outcome) × (done.rows ≡ run.rows)) }
{
    Ok(Compared {
        rows: run.rows,
        outcome: run.outcome,
        changes: changes?,
    })
}

/// Runs a code on the checking machine, over the tables that it declares.
fn compare_any<F: Files, W: Watcher>(
    alloc: Global,
    files: &mut F,
    code: &LegalCode,
    job: &Job<'_>,
    watcher: &mut W,
) -> Result<Compared, RunRefusal>
    ensures done { IfOk result (λ done. LeavesTables (F.holds files.old) job.now code.now done.outcome
        done.rows.items done.changes) }
    ensures refused { IfErr result (IsOfTables (F.holds files.old) job.now code.now
        (Rose (F.failed files.old) (F.failed files.new))) }
    ensures kept { SameFiles (F.holds files.old) (F.holds files.new) }
    ensures counted { F.failed files.old ≤ F.failed files.new }
{
    legal_codes();
    new_stores_fit();
    let shape = &code.code().declared.shape;
    let store = load(alloc, files, shape, job.limit.records())?;
    let kept = keep(alloc, shape, &store)?;
    let done = run_any(alloc, code, store, job, watcher)?;
    let changes = changes_since(alloc, shape, kept, done.world.store());
    Ok(with_changes(done.alone(), changes)?)
}

/// Runs an accepted code on the machine without tags, over the tables that it declares.
fn compare_accepted<F: Files, W: Watcher>(
    alloc: Global,
    files: &mut F,
    verified: &Verified,
    job: &Job<'_>,
    watcher: &mut W,
) -> Result<Compared, RunRefusal>
    ensures done { IfOk result (λ done. LeavesTables (F.holds files.old) job.now verified.now done.outcome
        done.rows.items done.changes) }
    ensures refused { IfErr result (IsOfTables (F.holds files.old) job.now verified.now
        (Rose (F.failed files.old) (F.failed files.new))) }
    ensures kept { SameFiles (F.holds files.old) (F.holds files.new) }
    ensures counted { F.failed files.old ≤ F.failed files.new }
{
    legal_codes();
    new_stores_fit();
    let shape = &verified.code().declared.shape;
    let loaded = load(alloc, files, shape, job.limit.records())?;
    let kept = keep(alloc, shape, &loaded)?;
    let done = run_accepted(alloc, verified, loaded, job, watcher)?;
    let changes = changes_since(alloc, shape, kept, done.banks.store());
    Ok(with_changes(done.alone(), changes)?)
}

/// How many instructions the longest of these filters has; 0 if there is none.
fn longest(filters: &[Filter]) -> u16
    ensures { IsLongestFilter filters.now result }
{
    filters
        .iter()
        .map(|filter| filter.length)
        .max()
        .unwrap_or(0)
}

/// A comparison as it is reported, of a code with these declarations.
pub(crate) fn told_of(
    alloc: Global,
    declared: &Declared,
    done: Compared,
) -> Result<Rehearsal, RunRefusal>
    ensures told { IfOk result (IsToldAs declared.now done) }
    ensures refused { IfErr result (λ refusal. refusal ≡ Memory) }
{
    let shape = &declared.shape;
    Ok(Rehearsal {
        tables: table_names(alloc, shape.tables.as_slice())?,
        indexes: index_names(alloc, shape.indexes.as_slice())?,
        rows: done.rows,
        ended: ended_of(done.outcome, shape),
        changes: done.changes,
        longest_filter: longest(declared.filters.as_slice()),
    })
}

/// Rehearses a code, accepted or not, on the checking machine.
fn rehearse_any<F: Files, W: Watcher>(
    alloc: Global,
    files: &mut F,
    code: &LegalCode,
    job: &Job<'_>,
    watcher: &mut W,
) -> Result<Rehearsal, RunRefusal>
    requires { job.now.checked ≡ true }
    ensures done { IfOk result (λ told. IsRehearsed (F.holds files.old) job.now told code.now) }
    ensures refused { IfErr result (CodeRefused (F.holds files.old) job.now code.now
        (Rose (F.failed files.old) (F.failed files.new))) }
    ensures kept { SameFiles (F.holds files.old) (F.holds files.new) }
    ensures counted { F.failed files.old ≤ F.failed files.new }
{
    match compare_any(alloc, files, code, job, watcher) {
        Ok(done) => told_of(alloc, &code.code().declared, done),
        Err(refusal) => Err(refusal),
    }
}

/// Rehearses an accepted code, for a job that the checking machine doesn't run.
fn rehearse_accepted<F: Files, W: Watcher>(
    alloc: Global,
    files: &mut F,
    verified: &Verified,
    job: &Job<'_>,
    watcher: &mut W,
) -> Result<Rehearsal, RunRefusal>
    requires { job.now.checked ≡ false }
    ensures done { IfOk result (λ told. IsRehearsed (F.holds files.old) job.now told verified.now) }
    ensures refused { IfErr result (CodeRefused (F.holds files.old) job.now verified.now
        (Rose (F.failed files.old) (F.failed files.new))) }
    ensures kept { SameFiles (F.holds files.old) (F.holds files.new) }
    ensures counted { F.failed files.old ≤ F.failed files.new }
{
    let declared = &verified.code().declared;
    match compare_accepted(alloc, files, verified, job, watcher) {
        Ok(done) => told_of(alloc, declared, done),
        Err(refusal) => Err(refusal),
    }
}

/// Rehearses a code as the job says.
fn rehearse_code<F: Files, W: Watcher>(
    alloc: Global,
    files: &mut F,
    code: LegalCode,
    job: &Job<'_>,
    watcher: &mut W,
) -> Result<Rehearsal, RunRefusal>
    ensures done { IfOk result (λ told. IsRehearsed (F.holds files.old) job.now told code) }
    ensures refused { IfErr result (CodeRefused (F.holds files.old) job.now code
        (Rose (F.failed files.old) (F.failed files.new))) }
    ensures kept { SameFiles (F.holds files.old) (F.holds files.new) }
    ensures counted { F.failed files.old ≤ F.failed files.new }
{
    if job.checked {
        return rehearse_any(alloc, files, &code, job, watcher);
    }
    let verified = accept(alloc, code)?;
    rehearse_accepted(alloc, files, &verified, job, watcher)
}

/// Rehearses the code in a file as `rehearse_files` does. The run is told to the watcher, in the parts that it says;
/// that changes nothing of what is answered.
///
/// # Errors
/// Those for which `run_files` runs nothing.
pub fn rehearse_files_watched<F: Files, W: Watcher>(
    alloc: Global,
    files: &mut F,
    job: &Job<'_>,
    watcher: &mut W,
) -> Result<Rehearsal, RunRefusal>
    ensures done { IfOk result (λ told. HasCode (F.holds files.old job.now.name.now)
        (IsRehearsed (F.holds files.old) job.now told)) }
    ensures refused { IfErr result (RefusedBefore (F.holds files.old) job.now
        (Rose (F.failed files.old) (F.failed files.new))) }
    ensures kept { SameFiles (F.holds files.old) (F.holds files.new) }
{
    match read_code(alloc, files, job.name) {
        Ok(code) => rehearse_code(alloc, files, code, job, watcher),
        Err(refusal) => Err(of_code(refusal)),
    }
}

/// Runs the code in a file as `run_files` does, and saves nothing: what a run would have saved is compared with the
/// tables that were loaded.
///
/// # Errors
/// Those for which `run_files` runs nothing.
pub fn rehearse_files<F: Files>(
    alloc: Global,
    files: &mut F,
    job: &Job<'_>,
) -> Result<Rehearsal, RunRefusal>
    ensures done { IfOk result (λ told. HasCode (F.holds files.old job.now.name.now)
        (IsRehearsed (F.holds files.old) job.now told)) }
    ensures refused { IfErr result (RefusedBefore (F.holds files.old) job.now
        (Rose (F.failed files.old) (F.failed files.new))) }
    ensures kept { SameFiles (F.holds files.old) (F.holds files.new) }
{
    rehearse_files_watched(alloc, files, job, &mut Unwatched)
}

/// Writes what became of a table's rows.
fn put_counts<W: fmt::Write>(
    f: &mut fmt::Formatter<W>,
    name: &Name,
    counts: &RowCounts,
) -> fmt::Result {
    put_name(name, f)?;
    let (before, after) = (counts.before, counts.after);
    if before == after {
        write!(f, " {before} records")?;
    } else {
        write!(f, " {before} -> {after} records")?;
    }
    let parts = [
        (counts.changed, "changed"),
        (counts.removed, "removed"),
        (counts.added, "added"),
    ];
    for (count, word) in parts {
        if count > 0 {
            write!(f, ", {count} {word}")?;
        }
    }
    f.write_char('\n')
}

impl Rehearsal {
    /// The indexes that are made anew, in lines.
    fn put_made<W: fmt::Write>(&self, f: &mut fmt::Formatter<W>) -> fmt::Result {
        for (name, anew) in self.indexes.iter().zip(self.changes.made.iter()) {
            if *anew {
                put_name(name, f)?;
                f.write_str(" made anew\n")?;
            }
        }
        Ok(())
    }

    /// Whether a filter of the code has more than 64 instructions. The budget doesn't count the instructions of
    /// filters, so a run with such a filter may take long within its budget.
    pub fn has_long_filter(&self) -> bool
        ensures { IsTrue result ↔ (64 < self.now.longest_filter) }
    {
        self.longest_filter > SHORT_FILTER
    }

    /// The longest filter, in a line, unless all filters are short.
    fn put_longest<W: fmt::Write>(&self, f: &mut fmt::Formatter<W>) -> fmt::Result {
        if self.has_long_filter() {
            writeln!(f, "longest filter {} instructions", self.longest_filter)?;
        }
        Ok(())
    }
}

/// What a run would have saved, in lines: the records of each table, the indexes that are rebuilt, and the longest
/// filter if it isn't short.
impl fmt::Display for Rehearsal {
    fn fmt<W: fmt::Write>(&self, f: &mut fmt::Formatter<W>) -> fmt::Result {
        for (name, counts) in self.tables.iter().zip(self.changes.tables.iter()) {
            put_counts(f, name, counts)?;
        }
        self.put_made(f)?;
        self.put_longest(f)
    }
}
