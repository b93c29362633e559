//! One file replaced as a save replaces it.
#![tactic(auto)]

use crate::disk::{Old, fresh_name, rename_made, sync_path, write_new};
use crate::targets::{Hindrance, Target, folder_of, target_of};
use crate::user::Who;
use std::alloc::{Alloc, Global};
use std::fs::File;
use std::rt::Files as Disk;

/// Why a file isn't replaced, or not for certain.
#[derive(Clone, Copy)]
pub enum Unreplaced {
    /// What is there can't be replaced as it was: it stays.
    Hindered(Hindrance),
    /// No new file could be made beside it: what is there stays.
    Unwritten,
    /// It is replaced, and the device may lose that.
    Unsynced,
}

/// Writes the new bytes of a file beside it, with the owner and the mode of what is there, and puts them in its place
/// only when they are all there.
fn put<R: Disk<File = File> + Alloc<A = Global>>(
    rt: &R,
    target: &Target,
    bytes: &[u8],
) -> Result<(), Unreplaced> {
    let name = target.name.as_str();
    let Ok(Some(beside)) = fresh_name(rt, name) else {
        return Err(Unreplaced::Unwritten);
    };
    let old = target.found.as_ref().map(|data| Old {
        data,
        taken_over: false,
    });
    let Ok(made) = write_new(rt, beside.as_str(), bytes, old) else {
        return Err(Unreplaced::Unwritten);
    };
    if rename_made(rt, beside.as_str(), name, made).is_err() {
        return Err(Unreplaced::Unwritten);
    }
    match sync_path(rt, folder_of(name)) {
        Ok(()) => Ok(()),
        Err(_) => Err(Unreplaced::Unsynced),
    }
}

/// Replaces a file, or makes it. A link is followed within its folder, and the file that it names is replaced.
pub(crate) fn replace_file<R: Disk<File = File> + Alloc<A = Global>>(
    rt: &R,
    name: &str,
    bytes: &[u8],
) -> Result<(), Unreplaced> {
    match target_of(rt, name, &Who::now(rt), false) {
        Ok(target) => put(rt, &target, bytes),
        Err(hindrance) => Err(Unreplaced::Hindered(hindrance)),
    }
}
