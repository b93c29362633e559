//! Files made, compared and removed, and the names of a folder brought to the device.
#![tactic(auto)]

ghost use Rattle.std.specs.Prelude.{◌≡◌, ◌≤◌, length, IfOk};

use crate::opening::{Identity, identity_of, is_still, open_plain};
use crate::papers::PAPER;
use file_access::FILE_LIMIT;
use save_steps::Sum;
use sha2::{Digest, Sha256};
use std::alloc::{Alloc, AllocError, Global};
use std::fs::{self, File, Metadata, OpenFile, OpenOptions};
use std::io::{self, ErrorKind, Read, Write};
use std::os::unix::fs::{MetadataExt, OpenOptionsExt, fchown};
use std::rt::Files as Disk;

/// Who may read and write a new file before it has the mode of the file that it is to replace: its owner.
const OWNER_ONLY: u32 = 0o600;

/// The mode of a new file that replaces none, from which the system takes what the user's mask leaves out.
const FOR_ALL: u32 = 0o666;

/// The most new names that are tried for one file.
const TRIES: u32 = 10_000;

/// The most bytes that one read of a file asks for.
const CHUNK: usize = 65_536;

/// The most reads of one file, with as many for interruptions of each.
const READS: u32 = 1_000_000;

/// Brings a file, or a folder's names, to the device.
pub(crate) fn sync_path<R: Disk>(rt: &R, path: &str) -> io::Result<()> {
    fs::open(rt, path)?.sync_all()
}

/// Brings the folder's names to the device.
pub(crate) fn sync_folder<R: Disk>(rt: &R) -> io::Result<()> {
    sync_path(rt, ".")
}

/// What is under a name, links followed; none if there is nothing.
pub(crate) fn found_under<R: Disk>(rt: &R, path: &str) -> io::Result<Option<Metadata>> {
    match fs::metadata(rt, path) {
        Ok(data) => Ok(Some(data)),
        Err(error) => match error.kind() {
            ErrorKind::NotFound => Ok(None),
            _ => Err(error),
        },
    }
}

/// Whether a name is free: there is nothing under it, and no link that leads nowhere.
pub(crate) fn is_free<R: Disk>(rt: &R, path: &str) -> bool {
    match fs::symlink_metadata(rt, path) {
        Ok(_) => false,
        Err(error) => error.kind() == ErrorKind::NotFound,
    }
}

/// Removes a file, if there is one.
pub(crate) fn remove_if_there<R: Disk>(rt: &R, path: &str) -> io::Result<()> {
    match fs::remove_file(rt, path) {
        Ok(()) => Ok(()),
        Err(error) => match error.kind() {
            ErrorKind::NotFound => Ok(()),
            _ => Err(error),
        },
    }
}

/// Opens a new file for writing; a file of that name refuses.
fn make<R: Disk>(rt: &R, path: &str, mode: u32) -> io::Result<R::File> {
    let mut options = OpenOptions::new();
    options.write(true);
    options.create_new(true);
    options.mode(mode);
    options.open(rt, path)
}

/// The file that a new one is to replace, as it was when the save was decided.
#[derive(Clone, Copy)]
pub(crate) struct Old<'a> {
    pub(crate) data: &'a Metadata,
    /// Whether the new file may stay the user's if this file's owner or group can't be given to it.
    pub(crate) taken_over: bool,
}

/// Gives a new file the owner, the group and the mode of the file that it is to replace. It goes by the open file and
/// not by its name, under which another program may have put another file.
fn take_after(file: &File, old: Old<'_>) -> io::Result<()> {
    let made = file.metadata()?;
    let (owner, group) = (old.data.uid(), old.data.gid());
    if made.uid() != owner || made.gid() != group {
        let given = fchown(file, Some(owner), Some(group));
        if !old.taken_over {
            given?;
        }
    }
    file.set_permissions(old.data.permissions())
}

/// Writes all of a file that was just made, down to the device.
fn fill(file: &mut File, bytes: &[u8], old: Option<Old<'_>>) -> io::Result<()> {
    file.write_all(bytes)?;
    if let Some(old) = old {
        take_after(file, old)?;
    }
    file.sync_all()
}

/// Makes a whole new file, down to the device, with the owner and the mode of the file that it is to replace, and
/// returns which file it is. If it can't be made whole, none is left, unless another program took its name meanwhile.
pub(crate) fn write_new<R: Disk<File = File>>(
    rt: &R,
    path: &str,
    bytes: &[u8],
    old: Option<Old<'_>>,
) -> io::Result<Identity> {
    let mode = if old.is_some() { OWNER_ONLY } else { FOR_ALL };
    let mut file = make(rt, path, mode)?;
    let made = identity_of(&file.metadata()?);
    let filled = fill(&mut file, bytes, old);
    match filled {
        Ok(()) => Ok(made),
        Err(error) => {
            remove_made(rt, path, made);
            Err(error)
        }
    }
}

/// Removes a file that was made under a name, unless another program took the name meanwhile. A failure to remove it is
/// ignored: whoever calls this reports another one already.
pub(crate) fn remove_made<R: Disk>(rt: &R, path: &str, made: Identity) {
    if is_still(rt, path, made) {
        let _ = fs::remove_file(rt, path);
    }
}

/// Renames a file that was made, if no other program took its name meanwhile. If it isn't renamed, it is removed. The
/// new name is looked at too, because another file may have been put under the old one after that was looked at.
pub(crate) fn rename_made<R: Disk>(rt: &R, from: &str, to: &str, made: Identity) -> io::Result<()> {
    if !is_still(rt, from, made) {
        return Err(io::Error::from(ErrorKind::InvalidInput));
    }
    if let Err(error) = fs::rename(rt, from, to) {
        remove_made(rt, from, made);
        return Err(error);
    }
    if is_still(rt, to, made) {
        Ok(())
    } else {
        Err(io::Error::from(ErrorKind::InvalidInput))
    }
}

/// Reads as many bytes as come at once, none at the end; an interruption is no failure.
fn read_some<F: Read>(reader: &mut F, chunk: &mut [u8]) -> io::Result<usize>
    ensures within { IfOk result (λ count. count ≤ length chunk.new) }
    ensures long { length chunk.new ≡ length chunk.old }
{
    for _ in 0..READS {
        match reader.read(chunk) {
            Ok(count) => return Ok(count),
            Err(error) => match error.kind() {
                ErrorKind::Interrupted => {}
                _ => return Err(error),
            },
        }
    }
    Err(io::Error::from(ErrorKind::Interrupted))
}

/// The checksum of a file that may be one of a save.
#[derive(Clone, Copy)]
pub(crate) enum Summed {
    /// There is no such file.
    Absent,
    /// The SHA-256 hash of its bytes.
    Sum(Sum),
    /// It is longer than any file that a save writes, so nothing of it was hashed beyond that length.
    Long,
}

/// The checksum of all that a reader gives, at most `FILE_LIMIT` bytes.
fn sum_of_all<F: Read>(reader: &mut F) -> io::Result<Summed> {
    let mut hasher = Sha256::new();
    let mut chunk = [0u8; CHUNK];
    let mut length = 0usize;
    for _ in 0..READS {
        let count = read_some(reader, &mut chunk)?;
        if count == 0 {
            return Ok(Summed::Sum(hasher.finalize()));
        }
        length = length.saturating_add(count);
        if length > FILE_LIMIT {
            return Ok(Summed::Long);
        }
        hasher.update(&chunk[..count]);
    }
    Err(io::Error::from(ErrorKind::FileTooLarge))
}

/// Whether a reader gives just these bytes.
fn gives<F: Read>(reader: &mut F, bytes: &[u8]) -> io::Result<bool> {
    let mut chunk = [0u8; CHUNK];
    let mut rest = bytes;
    for _ in 0..READS {
        let count = read_some(reader, &mut chunk)?;
        if count == 0 {
            return Ok(rest.is_empty());
        }
        if rest.len() < count || rest[..count] != chunk[..count] {
            return Ok(false);
        }
        rest = &rest[count..];
    }
    Err(io::Error::from(ErrorKind::FileTooLarge))
}

/// Whether the file of a name holds just these bytes; if none are passed, whether there is no such file.
pub(crate) fn holds<R: Disk>(rt: &R, path: &str, bytes: Option<&[u8]>) -> io::Result<bool> {
    match open_plain(rt, path) {
        Ok(file) => {
            let Some(bytes) = bytes else {
                return Ok(false);
            };
            let mut file = file;
            gives(&mut file, bytes)
        }
        Err(error) => match error.kind() {
            ErrorKind::NotFound => Ok(bytes.is_none()),
            _ => Err(error),
        },
    }
}

/// The checksum of the file of a name.
pub(crate) fn sum_of_file<R: Disk>(rt: &R, path: &str) -> io::Result<Summed> {
    match open_plain(rt, path) {
        Ok(file) => {
            if file.metadata()?.len() > FILE_LIMIT as u64 {
                return Ok(Summed::Long);
            }
            let mut file = file;
            sum_of_all(&mut file)
        }
        Err(error) => match error.kind() {
            ErrorKind::NotFound => Ok(Summed::Absent),
            _ => Err(error),
        },
    }
}

/// A name beside a file's that nothing has; none if too many names are taken.
pub(crate) fn fresh_name<R: Disk + Alloc<A = Global>>(
    rt: &R,
    name: &str,
) -> Result<Option<String>, AllocError> {
    for number in 0..TRIES {
        let fresh = if number == 0 {
            format!(in rt.alloc(); "{name}.new")?
        } else {
            format!(in rt.alloc(); "{name}.new{number}")?
        };
        if is_free(rt, fresh.as_str()) {
            return Ok(Some(fresh));
        }
    }
    Ok(None)
}

/// Makes a whole file, first under the name of a draft.
fn put_by_draft<R: Disk<File = File>>(
    rt: &R,
    draft: &str,
    name: &str,
    bytes: &[u8],
) -> io::Result<()> {
    remove_if_there(rt, draft)?;
    let made = write_new(rt, draft, bytes, None)?;
    rename_made(rt, draft, name, made)?;
    sync_folder(rt)
}

/// Makes a whole file where there is none, down to the device: first under a name that only this program uses, so that
/// nobody meets half of it. What an earlier try left under that name is removed.
pub fn put_new_file<R: Disk<File = File> + Alloc<A = Global>>(
    rt: &R,
    name: &str,
    bytes: &[u8],
) -> io::Result<()> {
    let draft = format!(in rt.alloc(); "{PAPER}.{name}")?;
    put_by_draft(rt, draft.as_str(), name, bytes)
}
