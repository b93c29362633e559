//! Runs whose screens are kept in a file.

ghost use Rattle.std.specs.Prelude.{◌≡◌, [], false};

use crate::progress::{Meter, rehearse_told, run_told};
use crate::shown::Audience;
use crate::{is_recorded, refuse, tell_refusal};
use command_words::{Outcomes, RunWords, WordsFault};
use file_access::Files;
use file_commands::{Refusal, Status};
use folder_files::{paper_name, stands};
use operating::{Broken, MOST_GIVEN};
use operator_desk::{Screens, TakenLines, Typist};
use run_commands::{
    Job, OperateRefusal, OperationReport, Rehearsal, Report, operate_files, rehearse_talk,
};
use save_rules::{is_in_folder, overwritten_by};
use std::alloc::Global;
use std::fs::File;
use std::rt::Runtime;

/// Whether a new file of this name harms nothing: it is one of the folder's, none that the program makes or reads, and
/// no word of the command line.
pub fn is_free_name(name: &str, code: &str) -> bool {
    is_in_folder(name.as_bytes())
        && !name.starts_with("--")
        && overwritten_by(name, code, &[], paper_name(), false).is_none()
}

/// Whether a new file of this name harms nothing, and none of this name stands yet, nor what tells of a conversation
/// with such a journal. Where memory is refused, no name is taken for a new one.
pub fn is_new_name<R: Runtime<A = Global, File = File>>(rt: &R, name: &str, code: &str) -> bool {
    is_free_name(name, code) && !stands(rt, name) && matches!(is_recorded(rt, name), Ok(false))
}

/// Whether a path is that of a file of the current folder, which `./` and `/` may stand around.
pub fn is_path_of(path: &str, name: &str) -> bool {
    let path = path.strip_prefix("./").unwrap_or(path);
    path.strip_suffix('/').unwrap_or(path) == name
}

/// Whether a file for screens has the name of the folder for copies.
pub fn is_backup(screens: Option<&str>, backup: Option<&str>) -> bool {
    match (screens, backup) {
        (Some(name), Some(path)) => is_path_of(path, name),
        _ => false,
    }
}

/// Refuses a file for screens that stands, or that the run uses, and one of the name of the folder for copies.
pub fn may_show<R: Runtime<A = Global, File = File>>(
    rt: &R,
    words: &RunWords<'_>,
) -> Result<(), WordsFault> {
    let Some(name) = words.screens else {
        return Ok(());
    };
    if !is_new_name(rt, name, words.job.name) {
        return Err(WordsFault::Screens);
    }
    match words.tables {
        Outcomes::Saved(save) if is_backup(words.screens, save.backup) => Err(WordsFault::Backup),
        _ => Ok(()),
    }
}

/// Who types the lines of a job and writes the screens before them to a new file of this name. A person is told how far
/// the run has come. Want of memory is told here, and its status given.
fn typist_of<'a, R: Runtime<A = Global, File = File>>(
    rt: &'a R,
    audience: Audience,
    job: &Job<'a>,
    name: &str,
) -> Result<Typist<'a, R, Meter<'a, R>>, Status> {
    match String::from_str(rt.alloc(), name) {
        Ok(name) => {
            let (screens, meter) = (Screens::to(Some(name)), Meter::new(rt, audience));
            Ok(Typist::of(rt, job.input, screens, meter))
        }
        Err(_) => Err(refuse(rt, audience, Refusal::Memory)),
    }
}

/// The run of a job whose lines are still to be typed.
fn untyped<'a>(job: &Job<'a>) -> Job<'a>
    ensures untested { result.checked ≡ false }
    ensures empty { result.input.now ≡ [] }
{
    Job {
        name: job.name,
        checked: false,
        budget: job.budget,
        limit: job.limit,
        day: job.day,
        input: &[],
    }
}

/// Tells why a run whose screens are kept came to no end.
fn tell_stopped(rt: &impl Runtime, audience: Audience, screens: &str, why: Broken) -> Status {
    match why {
        Broken::Line => {
            let _ = eprintln!(rt; "refused - TooLong");
            Status::Refused
        }
        Broken::Memory => refuse(rt, audience, Refusal::Memory),
        Broken::Operator | Broken::Journal => refuse(rt, audience, Refusal::Disk { name: screens }),
    }
}

/// What a run reports whose screens were kept.
fn report_of(
    rt: &impl Runtime,
    audience: Audience,
    screens: &str,
    told: OperationReport,
) -> Result<Report, Status> {
    let OperationReport { rows, result } = told;
    match result {
        Ok(ended) => Ok(Report {
            rows,
            result: Ok(ended),
        }),
        Err(OperateRefusal::Run(refusal)) => Ok(Report {
            rows,
            result: Err(refusal),
        }),
        Err(OperateRefusal::Broke(why)) => Err(tell_stopped(rt, audience, screens, why)),
        Err(OperateRefusal::Handed) => Err(tell_stopped(rt, audience, screens, Broken::Line)),
    }
}

/// Runs a code as `run_files` does; a person is told how far it has come. Where a file for screens is named, it is
/// written meanwhile.
pub fn run_shown<R: Runtime<A = Global, File = File>, F: Files>(
    rt: &R,
    audience: Audience,
    files: &mut F,
    job: &Job<'_>,
    screens: Option<&str>,
) -> Result<Report, Status> {
    let alloc = rt.alloc();
    let Some(name) = screens else {
        return Ok(run_told(rt, audience, files, job));
    };
    let mut typist = typist_of(rt, audience, job, name)?;
    let job = untyped(job);
    let mut taken = TakenLines::new(alloc);
    let told = operate_files(alloc, files, &job, MOST_GIVEN, &mut taken, &mut typist);
    typist.watcher().end();
    report_of(rt, audience, name, told)
}

/// Tells why nothing was rehearsed.
fn tell_unrehearsed(
    rt: &impl Runtime,
    audience: Audience,
    name: &str,
    screens: &str,
    refusal: &OperateRefusal,
) -> Status {
    match refusal {
        OperateRefusal::Run(refusal) => tell_refusal(rt, audience, name, refusal),
        OperateRefusal::Broke(why) => tell_stopped(rt, audience, screens, *why),
        OperateRefusal::Handed => tell_stopped(rt, audience, screens, Broken::Line),
    }
}

/// Rehearses a code as `rehearse_files` does; a person is told how far it has come. Where a file for screens is named,
/// it is written meanwhile.
pub fn rehearse_shown<R: Runtime<A = Global, File = File>, F: Files>(
    rt: &R,
    audience: Audience,
    files: &mut F,
    job: &Job<'_>,
    screens: Option<&str>,
) -> Result<Rehearsal, Status> {
    let alloc = rt.alloc();
    let Some(name) = screens else {
        return match rehearse_told(rt, audience, files, job) {
            Ok(told) => Ok(told),
            Err(refusal) => Err(tell_refusal(rt, audience, job.name, &refusal)),
        };
    };
    let mut typist = typist_of(rt, audience, job, name)?;
    let job = untyped(job);
    let mut taken = TakenLines::new(alloc);
    let told = rehearse_talk(alloc, files, &job, MOST_GIVEN, &mut taken, &mut typist);
    typist.watcher().end();
    match told {
        Ok(told) => Ok(told),
        Err(refusal) => Err(tell_unrehearsed(rt, audience, job.name, name, &refusal)),
    }
}
