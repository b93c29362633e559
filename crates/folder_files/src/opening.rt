//! Files opened to be read: only plain ones, so that no pipe, device or folder keeps a command waiting.
#![tactic(auto)]

use std::fs::{self, Metadata, OpenFile, OpenOptions};
use std::io::{self, ErrorKind};
use std::os::unix::fs::MetadataExt;
use std::rt::Files as Disk;

/// How often a name is tried under which other programs put one file after the other.
const TRIES: u32 = 16;

/// Which file it is, whatever its name: its device and its number there.
#[derive(Clone, Copy, PartialEq, Eq)]
pub(crate) struct Identity {
    device: u64,
    number: u64,
}

/// Which file it is of which this is known.
pub(crate) fn identity_of(data: &Metadata) -> Identity {
    Identity {
        device: data.dev(),
        number: data.ino(),
    }
}

/// The failure to open what isn't a plain file.
fn not_plain() -> io::Error {
    io::Error::from(ErrorKind::InvalidInput)
}

/// Opens a file for reading. A file that the user may write too is opened for both, because that never waits for the
/// other end of a pipe, which another program may have put under the name after it was looked at.
fn open_at_once<R: Disk>(rt: &R, name: &str) -> io::Result<R::File> {
    let mut options = OpenOptions::new();
    options.read(true);
    options.write(true);
    match options.open(rt, name) {
        Ok(file) => Ok(file),
        Err(_) => fs::open(rt, name),
    }
}

/// Opens the plain file under a name; none if another file took the name after it was looked at.
fn open_looked_at<R: Disk>(rt: &R, name: &str) -> io::Result<Option<R::File>> {
    let named = fs::metadata(rt, name)?;
    if !named.is_file() {
        return Err(not_plain());
    }
    let file = open_at_once(rt, name)?;
    let opened = file.metadata()?;
    if !opened.is_file() {
        return Err(not_plain());
    }
    if identity_of(&opened) == identity_of(&named) {
        Ok(Some(file))
    } else {
        Ok(None)
    }
}

/// Opens the plain file under a name to read it. Links are followed.
///
/// # Errors
/// `NotFound` if there is no such file, `InvalidInput` if it isn't plain, and what the system reports.
pub(crate) fn open_plain<R: Disk>(rt: &R, name: &str) -> io::Result<R::File> {
    for _ in 0..TRIES {
        if let Some(file) = open_looked_at(rt, name)? {
            return Ok(file);
        }
    }
    Err(not_plain())
}

/// Whether a name is that of a plain file without further names, and the name of just this file.
pub(crate) fn is_still<R: Disk>(rt: &R, name: &str, file: Identity) -> bool {
    match fs::symlink_metadata(rt, name) {
        Ok(data) => data.is_file() && data.nlink() == 1 && identity_of(&data) == file,
        Err(_) => false,
    }
}

/// Whether something else than a plain file without further names is under a name.
pub(crate) fn is_other_than_plain<R: Disk>(rt: &R, name: &str) -> bool {
    match fs::symlink_metadata(rt, name) {
        Ok(data) => !data.is_file() || data.nlink() != 1,
        Err(error) => error.kind() != ErrorKind::NotFound,
    }
}
