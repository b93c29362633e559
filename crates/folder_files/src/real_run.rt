//! What would end a run that saves before it reads its tables, found without touching the folder: a rehearsal reports
//! it.
#![tactic(auto)]

use crate::finishing::{UnfinishedSave, unfinishable};
use crate::lock_file::{LOCK_FILE, lock_file_stands};
use crate::opening::Identity;
use crate::papers::{PAPER, foreign_draft_stands};
use crate::targets::{Hindrance, folder_standing, hindrance_of, linked_to};
use crate::user::Who;
use save_rules::may_make_files;
use std::alloc::{Alloc, AllocError, Global};
use std::fs;
use std::os::unix::fs::MetadataExt;
use std::rt::Files as Disk;

/// Where Linux lists the locks that programs have.
const LOCKS: &str = "/proc/locks";

/// How a run that saves would end.
#[derive(Drop)]
pub enum RealEnd<'n> {
    /// The file of this name keeps it from saving.
    Disk { name: &'n str, why: Hindrance },
    /// It would find a save that was cut off and can't be finished.
    Unfinished(UnfinishedSave),
}

/// The words by which Linux lists an exclusive lock of a file: the numbers of its device and its own.
fn lock_words(alloc: Global, device: u64, number: u64) -> Result<String, AllocError> {
    let major = ((device >> 8) & 0xfff) | ((device >> 32) & 0xffff_f000);
    let minor = (device & 0xff) | ((device >> 12) & 0xffff_ff00);
    format!(in alloc; "{major:02x}:{minor:02x}:{number}")
}

/// Whether a line of the list of locks is of an exclusive lock of the file of these words.
fn is_lock_of(line: &str, words: &str) -> bool {
    let mut is_exclusive = false;
    for word in line.split_whitespace() {
        if word == "WRITE" {
            is_exclusive = true;
        }
        if word == words {
            return is_exclusive && line.contains("FLOCK");
        }
    }
    false
}

/// Whether another program has the folder, as far as the system lists locks. The folder isn't locked to find out,
/// because that would keep a run out that begins just then.
fn is_taken<R: Disk + Alloc<A = Global>>(rt: &R) -> Result<bool, AllocError> {
    let Ok(folder) = fs::metadata(rt, ".") else {
        return Ok(false);
    };
    let Ok(locks) = fs::read_to_string(rt, LOCKS) else {
        return Ok(false);
    };
    let words = lock_words(rt.alloc(), folder.dev(), folder.ino())?;
    Ok(
        locks
            .as_str()
            .lines()
            .any(|line| is_lock_of(line, words.as_str())),
    )
}

/// Whether the user can make a file in the folder, by its mode.
fn has_room<R: Disk>(rt: &R, who: &Who) -> bool {
    match folder_standing(rt, PAPER) {
        Ok(folder) => may_make_files(&folder, &who.user()),
        Err(_) => true,
    }
}

/// What of the folder keeps a run from reading its first table, if anything does.
fn folder_hindrance<R: Disk + Alloc<A = Global>>(
    rt: &R,
    who: &Who,
) -> Result<Option<Hindrance>, AllocError> {
    if is_taken(rt)? {
        return Ok(Some(Hindrance::Taken));
    }
    if foreign_draft_stands(rt, rt.alloc()) {
        return Ok(Some(Hindrance::Draft));
    }
    if !has_room(rt, who) {
        return Ok(Some(Hindrance::NoRoom));
    }
    Ok(None)
}

/// Why the file under a name can't be read to be saved, if it can't, and which file it is. The files of the names
/// before are known.
fn hindrance_at<R: Disk + Alloc<A = Global>>(
    rt: &R,
    name: &str,
    who: &Who,
    known: &[Identity],
) -> Result<Option<Identity>, Hindrance> {
    let target = linked_to(rt, name)?;
    if let Some(hindrance) = hindrance_of(rt, &target, who, false) {
        return Err(hindrance);
    }
    match target.identity() {
        Some(file) if known.contains(&file) => Err(Hindrance::Twice),
        file => Ok(file),
    }
}

/// The first of these files that can't be read to be saved, and why.
fn first_hindered<'n, R: Disk + Alloc<A = Global>>(
    rt: &R,
    names: &[&'n str],
    who: &Who,
) -> Result<Option<RealEnd<'n>>, AllocError> {
    let mut known = Vec::new(rt.alloc());
    for name in names {
        match hindrance_at(rt, name, who, known.as_slice()) {
            Ok(Some(file)) => known.push(file)?,
            Ok(None) => {}
            Err(why) => return Ok(Some(RealEnd::Disk { name, why })),
        }
    }
    Ok(None)
}

/// How a run would end that saves these tables and indexes, if something here would keep it from saving: that is found
/// without a lock, and nothing is written. A run without tables has nothing to save.
pub fn real_end<'n, R: Disk + Alloc<A = Global>>(
    rt: &R,
    names: &[&'n str],
) -> Result<Option<RealEnd<'n>>, AllocError> {
    let Some(first) = names.first() else {
        return Ok(None);
    };
    if lock_file_stands(rt) {
        return Ok(Some(RealEnd::Disk {
            name: LOCK_FILE,
            why: Hindrance::LockFile,
        }));
    }
    if let Some(unfinished) = unfinishable(rt) {
        return Ok(Some(RealEnd::Unfinished(unfinished)));
    }
    let who = Who::now(rt);
    match folder_hindrance(rt, &who)? {
        Some(why) => Ok(Some(RealEnd::Disk { name: first, why })),
        None => first_hindered(rt, names, &who),
    }
}
