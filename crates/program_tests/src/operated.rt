// Conversations: an operator types the lines of a run while it goes on, and a journal keeps them.
#![tactic(auto)]

ghost use Rattle.operating.specs.Answers.{NotesFailure, answer_bytes};
ghost use Rattle.std.specs.Prelude.{◌≡◌, ◌++◌, IfOk, OnErr, false};

use super::cases::{CODE, are_lists, compiled};
use super::parts::{RunCase, begins};
use super::stored::{day_in, limit_in};
use code_items::Code;
use file_access::{MemoryFiles, WORKS_FOR_EVER};
use line_journal::{Journal, JournalFailed, keep};
use operating::{Answer, Broken, MOST_TYPED, Operator, OperatorFailed, Scene};
use run_commands::{Job, OperateRefusal, operate_files, rehearse_files, rehearse_talk};
use std::alloc::{AllocError, Global};

/// A journal in memory that takes so many lines.
#[derive(Drop)]
struct Kept {
    bytes: Vec<u8>,
    room: usize,
    failures: u64,
}

impl Journal for Kept {
    ghost holds = { λ journal. journal.bytes.items };

    ghost failed = { λ journal. journal.failures };

    fn append(&mut self, bytes: &[u8]) -> Result<(), JournalFailed> {
        if self.room == 0 || self.bytes.extend_from_slice(bytes).is_err() {
            self.failures = self.failures.saturating_add(1);
            return Err(JournalFailed);
        }
        self.room -= 1;
        Ok(())
    }
}

/// Who types these lines, each of which ends in `|`, and then ends the input, or fails.
#[derive(Drop)]
struct Script<'a> {
    alloc: Global,
    lines: &'a str,
    /// Why it fails after the last line, if it does.
    fails: Option<OperatorFailed>,
    /// What the run goes on for before it is told again.
    part: u64,
    /// How many screens were seen before a line, and at the end.
    screens: u64,
    /// The lines that were answered.
    answers: Kept,
    /// Why it failed last.
    failure: Option<OperatorFailed>,
}

impl Script<'_> {
    fn look(&mut self, scene: &Scene<'_>) -> Result<(), OperatorFailed>
        ensures answers { self.new.answers ≡ self.old.answers }
        ensures unnoted { self.new.failure ≡ self.old.failure }
    {
        if scene.screen.rows().is_empty() {
            return Err(OperatorFailed::Other);
        }
        self.screens = self.screens.saturating_add(1);
        Ok(())
    }

    /// Answers the next line, and adds it to those that were answered.
    fn answer(&mut self, scene: &Scene<'_>) -> Result<Answer, OperatorFailed>
        ensures answer { IfOk result (λ answer. self.new.answers.bytes.items
            ≡ self.old.answers.bytes.items ++ answer_bytes answer) }
        ensures failed { OnErr result (self.new.answers.bytes.items ≡ self.old.answers.bytes.items) }
        ensures unnoted { self.new.failure ≡ self.old.failure }
    {
        self.look(scene)?;
        let Some((line, rest)) = self.lines.split_once('|') else {
            return match self.fails {
                Some(why) => Err(why),
                None => Ok(Answer::End),
            };
        };
        let answer = Vec::from_slice(self.alloc, line.as_bytes())?;
        let kept = Vec::from_slice(self.alloc, line.as_bytes())?;
        self.lines = rest;
        match keep(&mut self.answers, kept) {
            Ok(_) => Ok(Answer::Line(answer)),
            Err(_) => Err(OperatorFailed::Memory),
        }
    }

    /// Notes why, if something failed.
    fn note<T>(&mut self, done: Result<T, OperatorFailed>) -> Result<T, OperatorFailed>
        ensures same { result ≡ done }
        ensures answers { self.new.answers ≡ self.old.answers }
        ensures noted { NotesFailure done self.old.failure self.new.failure }
    {
        if let Err(why) = &done {
            self.failure = Some(*why);
        }
        done
    }
}

impl Operator for Script<'_> {
    ghost answered = { λ script. script.answers.bytes.items };

    ghost failure = { λ script. script.failure };

    fn begin(&mut self, _: &Code) -> Result<Vec<bool>, OperatorFailed> {
        Ok(Vec::new(self.alloc))
    }

    fn hear(&mut self, _: u64, _: u64) -> u64 {
        self.part
    }

    fn see(&mut self, _: &Scene<'_>) -> Result<(), OperatorFailed> {
        Ok(())
    }

    fn miss(&mut self, scene: &Scene<'_>) -> Result<(), OperatorFailed> {
        let looked = self.look(scene);
        self.note(looked)
    }

    fn ask(&mut self, scene: &Scene<'_>, _: usize) -> Result<Answer, OperatorFailed> {
        let answer = self.answer(scene);
        self.note(answer)
    }

    fn end(&mut self, scene: &Scene<'_>) -> Result<(), OperatorFailed> {
        let looked = self.look(scene);
        self.note(looked)
    }
}

/// Why a conversation saved nothing, in words.
fn why(alloc: Global, refusal: &OperateRefusal) -> Result<String, AllocError> {
    match refusal {
        OperateRefusal::Run(refusal) => refusal.told(CODE).to_string(alloc),
        OperateRefusal::Broke(Broken::Operator) => String::from_str(alloc, "operator"),
        OperateRefusal::Broke(Broken::Journal) => String::from_str(alloc, "journal"),
        OperateRefusal::Broke(Broken::Line) => String::from_str(alloc, "line"),
        OperateRefusal::Broke(Broken::Memory) => String::from_str(alloc, "memory"),
        OperateRefusal::Handed => String::from_str(alloc, "handed"),
    }
}

/// Whether a conversation printed and is told as its case says.
fn is_so(rows: &[u8], told: Result<String, AllocError>, case: RunCase<'_>) -> bool {
    rows == case.says("rows\n").as_bytes() && begins(told, case.says("told "))
}

/// Whether a rehearsal of a job over these lines, all typed before it, comes to what its case says.
fn rehearses_typed(
    alloc: Global,
    files: &mut MemoryFiles<'_>,
    job: &Job<'_>,
    lines: &[u8],
    case: RunCase<'_>,
) -> bool {
    let typed = Job {
        name: job.name,
        checked: false,
        budget: job.budget,
        limit: job.limit,
        day: job.day,
        input: lines,
    };
    match rehearse_files(alloc, files, &typed) {
        Ok(done) => is_so(&done.rows, done.to_string(alloc), case),
        Err(_) => false,
    }
}

/// Whether a rehearsal in conversation comes to what its case says, and so does one over the lines that the journal
/// holds then.
fn rehearses_so(
    alloc: Global,
    files: &mut MemoryFiles<'_>,
    job: &Job<'_>,
    journal: &mut Kept,
    script: &mut Script<'_>,
    case: RunCase<'_>,
) -> bool
    requires untested { job.now.checked ≡ false }
    requires held { journal.old.bytes.items ≡ job.now.input.now }
{
    match rehearse_talk(alloc, files, job, MOST_TYPED, journal, script) {
        Ok(done) => {
            is_so(&done.rows, done.to_string(alloc), case)
                && rehearses_typed(alloc, files, job, journal.bytes.as_slice(), case)
        }
        Err(refusal) => is_so(&[], why(alloc, &refusal), case),
    }
}

/// Whether a conversation comes to what its case says.
fn operates_so(
    alloc: Global,
    files: &mut MemoryFiles<'_>,
    job: &Job<'_>,
    journal: &mut Kept,
    script: &mut Script<'_>,
    case: RunCase<'_>,
) -> bool
    requires untested { job.now.checked ≡ false }
    requires held { journal.old.bytes.items ≡ job.now.input.now }
{
    let done = operate_files(alloc, files, job, MOST_TYPED, journal, script);
    let told = match &done.result {
        Ok(ended) => ended.to_string(alloc),
        Err(refusal) => why(alloc, refusal),
    };
    is_so(&done.rows, told, case)
}

/// Carries out the code of a case in conversation over what the journal holds, or rehearses it; whether that comes to
/// what the case says.
fn talks_so(
    alloc: Global,
    files: &mut MemoryFiles<'_>,
    handed: &[u8],
    journal: &mut Kept,
    script: &mut Script<'_>,
    case: RunCase<'_>,
) -> bool
    requires { journal.old.bytes.items ≡ handed.now }
{
    let (Some(limit), Some(day)) = (limit_in(case), day_in(case)) else {
        return false;
    };
    let job = Job {
        name: CODE,
        checked: false,
        budget: case.number("budget ", 1_000_000),
        limit,
        day,
        input: handed,
    };
    if case.has("rehearsed") {
        rehearses_so(alloc, files, &job, journal, script, case)
    } else {
        operates_so(alloc, files, &job, journal, script, case)
    }
}

/// Whether a conversation between an operator and a journal comes to what its case says.
fn is_well(
    alloc: Global,
    handed: &[u8],
    journal: &mut Kept,
    script: &mut Script<'_>,
    case: RunCase<'_>,
) -> bool
    requires { journal.old.bytes.items ≡ handed.now }
{
    let mut files = MemoryFiles::new(alloc, &[], WORKS_FOR_EVER);
    compiled(alloc, &mut files, case)
        && talks_so(alloc, &mut files, handed, journal, script, case)
        && journal.bytes.as_slice() == case.says("kept\n").as_bytes()
        && script.screens == case.number("screens ", 0)
        && are_lists(alloc, &mut files, case)
}

/// Why the operator of a case fails, if he does.
fn failure_of(case: RunCase<'_>) -> Option<OperatorFailed> {
    if case.has("starves") {
        return Some(OperatorFailed::Memory);
    }
    if case.has("fails") {
        Some(OperatorFailed::Other)
    } else {
        None
    }
}

/// Whether the conversation of a case comes to what it says.
pub fn talks_well(alloc: Global, case: RunCase<'_>) -> bool {
    let handed = case.says("handed\n").as_bytes();
    let Ok(bytes) = Vec::from_slice(alloc, handed) else {
        return false;
    };
    let mut journal = Kept {
        bytes,
        room: case.number("room ", 100) as usize,
        failures: 0,
    };
    let mut script = Script {
        alloc,
        lines: case.says("lines "),
        fails: failure_of(case),
        part: case.number("part ", u64::MAX),
        screens: 0,
        answers: Kept {
            bytes: Vec::new(alloc),
            room: usize::MAX,
            failures: 0,
        },
        failure: None,
    };
    is_well(alloc, handed, &mut journal, &mut script, case)
}
