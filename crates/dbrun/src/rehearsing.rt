//! Runs that save nothing: the files that they read, which are those of one moment, and how a run would end that saves.

use crate::progress::run_told;
use crate::screens::rehearse_shown;
use crate::shown::{Audience, Progress, why_hindered};
use crate::{first_failed, no_memory, print_bytes, refuse, report, settle, tell_unfinished};
use file_access::{FILE_LIMIT, Files};
use file_commands::{Refusal, Status};
use folder_files::{FileSum, Folder, Hindrance, Nobody, RealEnd, SeenFolder, Unseen, real_end};
use run_commands::{Job, Rehearsal};
use std::alloc::{AllocError, Global};
use std::cell::RefCell;
use std::fs::File;
use std::rt::Runtime;
use std::time::Duration;
use std::{str, thread};
use xcode::decode;

/// What to do about a long filter.
const LONG_FILTER: &str =
    "the budget counts a step for each record that a filter is asked of, whatever its length; timeout bounds the time";

/// The name of the file of a table or an index.
fn file_name(alloc: Global, name: &[u8], ending: &str) -> Result<String, AllocError> {
    let name = str::from_utf8(name).unwrap_or("");
    format!(in alloc; "{name}{ending}")
}

/// The files of the tables and indexes that a code declares, those of tables first; none if the bytes aren't a code's.
fn files_declared(alloc: Global, code: &[u8]) -> Result<Vec<String>, AllocError> {
    let mut names = Vec::new(alloc);
    let Ok(code) = decode(alloc, code) else {
        return Ok(names);
    };
    let shape = &code.code().declared.shape;
    let tables = shape.tables.len();
    for file in 0..tables.saturating_add(shape.indexes.len()) {
        let name = match file.checked_sub(tables) {
            None => file_name(alloc, shape.tables.get(file).name.as_slice(), ".DBF")?,
            Some(index) => file_name(alloc, shape.indexes.get(index).name.as_slice(), ".NDX")?,
        };
        names.push(name)?;
    }
    Ok(names)
}

/// What a code's file holds, if it can be read.
fn code_bytes<R: Runtime<A = Global, File = File>>(rt: &R, code: &str) -> Option<Vec<u8>> {
    Folder::new(rt, Nobody)
        .read(rt.alloc(), code, FILE_LIMIT)
        .ok()
}

/// The files that the code in a file declares, those of tables first; none if no code can be read.
pub fn declared_files<R: Runtime<A = Global, File = File>>(
    rt: &R,
    code: &str,
) -> Result<Vec<String>, AllocError> {
    match code_bytes(rt, code) {
        Some(bytes) => files_declared(rt.alloc(), bytes.as_slice()),
        None => Ok(Vec::new(rt.alloc())),
    }
}

/// The names as they are borrowed, after a first one.
fn lent<'n>(
    alloc: Global,
    first: &'n str,
    names: &'n [String],
) -> Result<Vec<&'n str>, AllocError> {
    let mut all = Vec::with_capacity(alloc, names.len().saturating_add(1))?;
    all.push(first)?;
    for name in names {
        all.push(name.as_str())?;
    }
    Ok(all)
}

/// Tells on standard error why no files of one moment could be read.
fn tell_unseen(rt: &impl Runtime, audience: Audience, unseen: &Unseen) -> Status {
    match unseen {
        Unseen::Changing { name } => {
            let status = refuse(
                rt,
                audience,
                Refusal::Disk {
                    name: name.as_str(),
                },
            );
            if audience.person {
                let _ = eprintln!(rt; "  other programs keep changing this file; try again later.");
            }
            status
        }
        Unseen::Memory => no_memory(rt),
    }
}

/// How often the files are read, at most: once, and three times more.
const TRIES: u32 = 4;

/// The milliseconds between two tries.
const PAUSE: u64 = 100;

/// Reads a code, and the tables and indexes that it declares, at one moment. A committed save is finished first; one
/// that can't be finished is read as it was left.
fn seen_once<'a, R: Runtime<A = Global, File = File>>(
    rt: &'a R,
    audience: Audience,
    code: &str,
    sums: Option<&'a RefCell<Vec<FileSum>>>,
) -> Result<SeenFolder<'a, R, Progress<'a, R>>, Unseen> {
    let cut = settle(rt, audience);
    let bytes = code_bytes(rt, code);
    let bytes = bytes.as_ref().map(|bytes| bytes.as_slice());
    let names = files_declared(rt.alloc(), bytes.unwrap_or(&[]))?;
    let names = lent(rt.alloc(), code, names.as_slice())?;
    let folder = Folder::new(rt, Progress { rt, audience, sums });
    let seen = SeenFolder::new(folder, names.as_slice(), cut)?;
    if seen.first_held(bytes) {
        return Ok(seen);
    }
    // the code was compiled again, and may declare other files now
    let name = String::from_str(rt.alloc(), code)?;
    Err(Unseen::Changing { name })
}

/// The folder of a run that saves nothing: the files of a code, its tables and indexes are those of one moment. Where
/// another program changes one meanwhile, all are read again. Their checksums are noted where that is asked for.
pub fn seen_folder<'a, R: Runtime<A = Global, File = File>>(
    rt: &'a R,
    audience: Audience,
    code: &str,
    sums: Option<&'a RefCell<Vec<FileSum>>>,
) -> Result<SeenFolder<'a, R, Progress<'a, R>>, Status> {
    let mut unseen = Unseen::Memory;
    for _ in 0..TRIES {
        match seen_once(rt, audience, code, sums) {
            Ok(seen) => return Ok(seen),
            Err(Unseen::Memory) => return Err(no_memory(rt)),
            Err(found) => unseen = found,
        }
        thread::sleep(rt, Duration::from_millis(PAUSE));
    }
    Err(tell_unseen(rt, audience, &unseen))
}

/// Tells on standard error how a run would end that saves, if something here would keep it from saving.
fn tell_end_of_run<R: Runtime<A = Global, File = File>>(
    rt: &R,
    audience: Audience,
    end: &RealEnd<'_>,
) {
    let _ = eprint!(rt; "a run would end: ");
    match end {
        RealEnd::Disk { name, why } => {
            let _ = eprintln!(rt; "disk {name}");
            tell_unread(rt, audience, Some(*why));
        }
        RealEnd::Unfinished(unfinished) => {
            let _ = tell_unfinished(rt, audience, unfinished);
        }
    }
}

/// Tells on standard error how a run of this code would end that saves, if something here would keep it from saving.
fn tell_real_end<R: Runtime<A = Global, File = File>>(rt: &R, audience: Audience, code: &str) {
    let Ok(names) = declared_files(rt, code) else {
        return;
    };
    let Ok(names) = lent(rt.alloc(), code, names.as_slice()) else {
        return;
    };
    let Some((_, saved)) = names.as_slice().split_first() else {
        return;
    };
    if let Ok(Some(end)) = real_end(rt, saved) {
        tell_end_of_run(rt, audience, &end);
    }
}

/// Tells on standard error why a file of a run that saves nothing wasn't read, where a person is told of it.
pub fn tell_unread(rt: &impl Runtime, audience: Audience, hindrance: Option<Hindrance>) {
    if let Some(why) = hindrance
        && audience.person
    {
        let _ = eprintln!(rt; "  {}.", why_hindered(why));
    }
}

/// Runs any code on the checking machine, and saves nothing.
pub fn run_tested<R: Runtime<A = Global, File = File>>(
    rt: &R,
    audience: Audience,
    job: &Job<'_>,
) -> Status {
    match seen_folder(rt, audience, job.name, None) {
        Ok(mut seen) => {
            let done = run_told(rt, audience, &mut seen, job);
            report(rt, audience, job.name, &done)
        }
        Err(status) => status,
    }
}

/// Runs the code, saves nothing, and tells what a run would have saved.
pub fn rehearse<R: Runtime<A = Global, File = File>>(
    rt: &R,
    audience: Audience,
    job: &Job<'_>,
    screens: Option<&str>,
) -> Status {
    let mut seen = match seen_folder(rt, audience, job.name, None) {
        Ok(seen) => seen,
        Err(status) => return status,
    };
    match rehearse_shown(rt, audience, &mut seen, job, screens) {
        Ok(done) => tell_rehearsed(rt, audience, job.name, &done),
        Err(status) => {
            tell_unread(rt, audience, seen.hindrance());
            status
        }
    }
}

/// Reports on standard error what a run would have saved, and what would have kept it from that. A person is told how
/// to bound the time of a run whose filters are long.
pub fn report_rehearsal<R: Runtime<A = Global, File = File>>(
    rt: &R,
    audience: Audience,
    code: &str,
    done: &Rehearsal,
) {
    let _ = eprint!(rt; "{done}");
    if audience.person && done.has_long_filter() {
        let _ = eprintln!(rt; "  {LONG_FILTER}.");
    }
    tell_real_end(rt, audience, code);
}

/// Prints the rows of a rehearsal, and reports what a run would have saved and how it ended.
fn tell_rehearsed<R: Runtime<A = Global, File = File>>(
    rt: &R,
    audience: Audience,
    code: &str,
    done: &Rehearsal,
) -> Status {
    let printed = print_bytes(rt, audience, done.rows.as_slice());
    report_rehearsal(rt, audience, code, done);
    let _ = eprintln!(rt; "{}", done.ended);
    first_failed(printed, done.ended.status())
}
