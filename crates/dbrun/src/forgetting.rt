//! `forget`: what a program that was ended has left is taken away.

use crate::shown::{Audience, why_hindered};
use crate::{folder_names, hindered, no_memory, refuse, tell_lock_file, tell_unfinished};
use file_commands::{Refusal, Status};
use folder_files::{
    Held, LOCK_FILE, LockKept, UnfinishedSave, finish, forget, let_go, note_stands, paper_name,
    remove_lock_file, take_folder,
};
use std::alloc::Global;
use std::fs::{self, File};
use std::io::ErrorKind;
use std::rt::Runtime;
use std::str;

/// Whether a file's name is that of a draft of a lock file.
fn is_lock_draft(name: &str) -> bool {
    match name.strip_prefix(LOCK_FILE) {
        Some(rest) => rest.starts_with(".new"),
        None => false,
    }
}

/// Whether a file's name is that of a draft of a lock file, or of a text beside a journal: the name of a save's file, a
/// point, the journal's name, and what says which text it is.
fn is_draft(name: &str) -> bool {
    if is_lock_draft(name) {
        return true;
    }
    let Some(rest) = name.strip_prefix(paper_name()) else {
        return false;
    };
    let journal = match rest.strip_suffix(".begun") {
        Some(journal) => journal,
        None => rest.strip_suffix(".done").unwrap_or(""),
    };
    journal.starts_with('.') && journal.len() > 1
}

/// Removes the drafts of texts beside journals that were left when a program was ended.
fn remove_drafts<R: Runtime<A = Global, File = File>>(rt: &R, audience: Audience) -> Status {
    let bytes = match folder_names(rt) {
        Ok(bytes) => bytes,
        Err(refusal) => return refuse(rt, audience, refusal),
    };
    for bytes in bytes.split(|byte| *byte == 0) {
        let name = str::from_utf8(bytes).unwrap_or("");
        if !is_draft(name) {
            continue;
        }
        match fs::remove_file(rt, name) {
            Ok(()) => {}
            Err(error) if error.kind() == ErrorKind::NotFound => {}
            Err(_) => return refuse(rt, audience, Refusal::Disk { name }),
        }
    }
    Status::Done
}

/// Tells on standard error why a lock file stays.
fn tell_lock_kept(rt: &impl Runtime, audience: Audience, kept: LockKept) -> Status {
    let why = match kept {
        LockKept::Alive => "the run that holds this folder is still going on",
        LockKept::Foreign => {
            let _ = eprintln!(rt; "refused {LOCK_FILE} Foreign");
            if audience.person {
                let _ = eprintln!(rt; "  this file isn't a run's; give it another name.");
            }
            return Status::Refused;
        }
        LockKept::Disk => "this file can't be removed",
        LockKept::Memory => return no_memory(rt),
    };
    let status = refuse(rt, audience, Refusal::Disk { name: LOCK_FILE });
    if audience.person {
        let _ = eprintln!(rt; "  {why}.");
    }
    status
}

/// Tells on standard error why the folder isn't held.
fn tell_not_held(rt: &impl Runtime, audience: Audience, held: &Held) -> Option<Status> {
    let hindrance = hindered(held)?;
    if let Held::LockFile = held {
        return Some(tell_lock_file(rt, audience));
    }
    let _ = eprintln!(rt; "disk {}", paper_name());
    if audience.person {
        let _ = eprintln!(rt; "{}; no file was changed", why_hindered(hindrance));
    }
    Some(Status::Disk)
}

/// Takes away what a save left. One that is committed and whose program left a lock file is finished instead, because
/// no other command could do that beside the lock file.
fn forget_or_finish<R: Runtime<A = Global, File = File>>(
    rt: &R,
    was_locked: bool,
) -> Result<(), UnfinishedSave> {
    if was_locked && note_stands(rt) {
        finish(rt)?;
    } else {
        forget(rt)?;
    }
    Ok(())
}

/// Takes away a save that was cut off, and drafts of texts beside journals, and no table. A lock file that an ended
/// program left goes first.
pub fn forget_save<R: Runtime<A = Global, File = File>>(
    rt: &R,
    audience: Audience,
    no_lock: bool,
) -> Status {
    let was_locked = match remove_lock_file(rt) {
        Ok(was_locked) => was_locked,
        Err(kept) => return tell_lock_kept(rt, audience, kept),
    };
    let held = take_folder(rt, no_lock);
    let status = match tell_not_held(rt, audience, &held) {
        Some(status) => status,
        None => match forget_or_finish(rt, was_locked) {
            Ok(()) => remove_drafts(rt, audience),
            Err(unfinished) => tell_unfinished(rt, audience, &unfinished),
        },
    };
    let_go(rt, held);
    status
}
