//! Copies of files in another folder.
#![tactic(auto)]

use crate::disk::{Old, is_free, remove_if_there, rename_made, sync_path, write_new};
use crate::opening::{is_other_than_plain, open_plain};
use crate::targets::folder_of;
use file_access::{FILE_LIMIT, read_within};
use std::alloc::{Alloc, AllocError, Global};
use std::fs::{self, File, Metadata};
use std::io::{self, ErrorKind};
use std::rt::Files as Disk;
use std::str;

/// The most bytes of names that are read of a folder for copies.
const NAMES: usize = 65_536;

/// The names in a folder, each ended by a zero byte; none if they can't be read.
fn names_in<R: Disk + Alloc<A = Global>>(rt: &R, path: &str) -> Option<Vec<u8>> {
    let mut names = rt.open_dir(path).ok()?;
    read_within(rt.alloc(), &mut names, NAMES).ok()
}

/// Whether each folder has this name: its own, or that of the one above.
fn is_in_each_folder(name: &[u8]) -> bool {
    name.is_empty() || name == b".".as_slice() || name == b"..".as_slice()
}

/// The name under which a copy is written before it has its own.
fn draft_of(alloc: Global, copy: &str) -> Result<String, AllocError> {
    format!(in alloc; "{copy}.new")
}

/// The bytes of a plain file without further names, at most `FILE_LIMIT`; none if it isn't one, or can't be read.
fn plain_bytes<R: Disk + Alloc<A = Global>>(rt: &R, path: &str) -> Option<Vec<u8>> {
    if is_other_than_plain(rt, path) {
        return None;
    }
    let mut file = open_plain(rt, path).ok()?;
    read_within(rt.alloc(), &mut file, FILE_LIMIT).ok()
}

/// The bytes of a file of the current folder, links followed, at most `FILE_LIMIT`.
fn bytes_now<R: Disk + Alloc<A = Global>>(rt: &R, name: &str) -> Option<Vec<u8>> {
    let mut file = open_plain(rt, name).ok()?;
    read_within(rt.alloc(), &mut file, FILE_LIMIT).ok()
}

/// Whether a name in a folder for copies is one that an interrupted run left there: a copy of one of these files as it
/// is now, or a draft of one, which holds a beginning of that.
fn is_left_over<R: Disk + Alloc<A = Global>>(
    rt: &R,
    path: &str,
    name: &str,
    files: &[&str],
) -> bool {
    let file = name.strip_suffix(".new").unwrap_or(name);
    let Ok(copy) = format!(in rt.alloc(); "{path}/{name}") else {
        return false;
    };
    match (plain_bytes(rt, copy.as_str()), bytes_now(rt, file)) {
        (Some(copied), Some(now)) if files.contains(&file) => {
            let is_begun = file != name && now.as_slice().starts_with(copied.as_slice());
            is_begun || copied.as_slice() == now.as_slice()
        }
        _ => false,
    }
}

/// Whether a folder can take copies of these files of the current folder: there is nothing under its name, or a folder
/// that holds nothing but what an interrupted run left there. That is drafts of copies, and copies of these files as
/// they are now.
pub fn may_take_copies<R: Disk + Alloc<A = Global>>(rt: &R, path: &str, files: &[&str]) -> bool {
    match fs::symlink_metadata(rt, path) {
        Ok(data) if data.is_dir() => {}
        Ok(_) => return false,
        Err(error) => return error.kind() == ErrorKind::NotFound,
    }
    let Some(names) = names_in(rt, path) else {
        return false;
    };
    for name in names.as_slice().split(|byte| *byte == 0) {
        if is_in_each_folder(name) {
            continue;
        }
        match str::from_utf8(name) {
            Ok(name) if is_left_over(rt, path, name, files) => {}
            _ => return false,
        }
    }
    true
}

/// Makes a folder, unless it is there. A link isn't followed, because another program may have put it there.
pub(crate) fn make_folder<R: Disk>(rt: &R, path: &str) -> io::Result<()> {
    match fs::symlink_metadata(rt, path) {
        Ok(data) if data.is_dir() => Ok(()),
        Ok(_) => Err(io::Error::from(ErrorKind::AlreadyExists)),
        Err(error) if error.kind() == ErrorKind::NotFound => fs::create_dir(rt, path),
        Err(error) => Err(error),
    }
}

/// Makes a copy of what a file held when it was read, down to the device, with the owner and the mode that the file had
/// then. A copy that holds just this stays, and any other file of its name refuses. It is written under the name of a
/// draft first, so that an interrupted run leaves no half of it.
pub(crate) fn copy_bytes<R: Disk<File = File> + Alloc<A = Global>>(
    rt: &R,
    bytes: &[u8],
    data: Option<&Metadata>,
    to: &str,
) -> io::Result<()> {
    if !is_free(rt, to) {
        return match plain_bytes(rt, to) {
            Some(copied) if copied.as_slice() == bytes => Ok(()),
            _ => Err(io::Error::from(ErrorKind::AlreadyExists)),
        };
    }
    let draft = draft_of(rt.alloc(), to)?;
    remove_if_there(rt, draft.as_str())?;
    let old = data.map(|data| Old {
        data,
        taken_over: true,
    });
    let made = write_new(rt, draft.as_str(), bytes, old)?;
    rename_made(rt, draft.as_str(), to, made)
}

/// The path of the folder in which a folder of this path is.
fn folder_above(path: &str) -> &str {
    folder_of(path.strip_suffix('/').unwrap_or(path))
}

/// Brings the names of a folder for copies to the device, and its own name in the folder above.
pub(crate) fn sync_copies<R: Disk>(rt: &R, path: &str) -> io::Result<()> {
    sync_path(rt, path)?;
    sync_path(rt, folder_above(path))
}
