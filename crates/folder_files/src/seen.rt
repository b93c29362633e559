//! Files of a folder read at one moment, for runs that save nothing. They take no lock, so another run may save
//! meanwhile: then they read again.
#![tactic(auto)]

ghost use Rattle.std.specs.Prelude.{◌≡◌, ◌≤◌, IfOk, IsErrOf, length};
ghost use Rattle.file_access.specs.Holding.{Rose};

use crate::folder::{Folder, Listener, read_plain};
use crate::opening::{Identity, identity_of};
use crate::papers::{PAPER, note_stands};
use crate::targets::{Hindrance, Target, linked_to};
use file_access::{Device, FILE_LIMIT, Files, ReadFault};
use std::alloc::{Alloc, AllocError, Global};
use std::fs::{self, File};
use std::os::unix::fs::MetadataExt;
use std::rt::Files as Disk;

/// What the system says of a file. It changes whenever the file does, or another file takes its name.
#[derive(Clone, Copy, PartialEq, Eq)]
struct Look {
    file: Identity,
    size: u64,
    written: (i64, i64),
    changed: (i64, i64),
}

/// A file that was read: its name, and its bytes until they are asked for.
#[derive(Drop)]
struct Seen {
    name: String,
    read: Option<Result<Vec<u8>, ReadFault>>,
}

/// Why files aren't read at one moment.
#[derive(Drop)]
pub enum Unseen {
    /// Another program changed the file of this name meanwhile.
    Changing { name: String },
    /// Memory was refused.
    Memory,
}

impl From<AllocError> for Unseen {
    fn from(_: AllocError) -> Unseen {
        Unseen::Memory
    }
}

/// The files of the folder in which the program runs, of which some were read at one moment. The first time that one of
/// these is asked for, its bytes of that moment are returned.
#[derive(Drop)]
pub struct SeenFolder<'a, R, L> {
    folder: Folder<'a, R, L>,
    seen: Vec<Seen>,
    /// Why a file wasn't read, if it is a link that leaves the folder.
    hindrance: Option<Hindrance>,
}

/// What the system says of the file under a name, none if there is none.
fn look_at<R: Disk>(rt: &R, name: &str) -> Option<Look> {
    let data = fs::metadata(rt, name).ok()?;
    Some(Look {
        file: identity_of(&data),
        size: data.size(),
        written: (data.mtime(), data.mtime_nsec()),
        changed: (data.ctime(), data.ctime_nsec()),
    })
}

/// What the system says of each of these files, and of the record of a save.
fn looks_at<R: Disk + Alloc<A = Global>>(
    rt: &R,
    names: &[&str],
) -> Result<Vec<Option<Look>>, AllocError> {
    let mut looks = Vec::with_capacity(rt.alloc(), names.len().saturating_add(1))?;
    for name in names {
        looks.push(look_at(rt, name))?;
    }
    looks.push(look_at(rt, PAPER))?;
    Ok(looks)
}

/// The name of the first file of which the system says something else than before; the record of a save stands last.
fn first_changed<'n>(
    names: &[&'n str],
    before: &[Option<Look>],
    now: &[Option<Look>],
) -> Option<&'n str> {
    for (place, look) in now.iter().enumerate() {
        if before.get(place) != Some(look) {
            return Some(names.get(place).copied().unwrap_or(PAPER));
        }
    }
    None
}

/// The files as they are now, each read whole. The first is the code; a table or an index that is a link out of the
/// folder isn't read.
fn read_all<R: Disk + Alloc<A = Global>, L: Listener>(
    folder: &Folder<'_, R, L>,
    names: &[&str],
) -> Result<Vec<Seen>, AllocError> {
    let alloc = folder.rt.alloc();
    let mut seen = Vec::with_capacity(alloc, names.len())?;
    for (place, name) in names.iter().enumerate() {
        let read = match linked_to(folder.rt, name) {
            Err(_) if place > 0 => Err(ReadFault::Device),
            _ => read_plain(folder.rt, &folder.listener, alloc, name, FILE_LIMIT),
        };
        seen.push(Seen {
            name: String::from_str(alloc, name)?,
            read: Some(read),
        })?;
    }
    Ok(seen)
}

/// Whether files that are read beside a committed save aren't those of one moment. One that can't be finished is `cut`:
/// then what it left is read.
fn is_saving<R: Disk + Alloc<A = Global>>(rt: &R, cut: bool) -> bool {
    !cut && note_stands(rt)
}

/// Reads the files once; none if one of them changed meanwhile, whose name is returned then.
fn read_once<'n, R: Disk + Alloc<A = Global>, L: Listener>(
    folder: &Folder<'_, R, L>,
    names: &[&'n str],
    cut: bool,
) -> Result<Result<Vec<Seen>, &'n str>, AllocError> {
    let before = looks_at(folder.rt, names)?;
    let seen = read_all(folder, names)?;
    let now = looks_at(folder.rt, names)?;
    if let Some(name) = first_changed(names, before.as_slice(), now.as_slice()) {
        return Ok(Err(name));
    }
    if is_saving(folder.rt, cut) {
        return Ok(Err(PAPER));
    }
    Ok(Ok(seen))
}

/// Why a link under the name of a table or an index isn't followed, if it leaves the folder.
fn leaving<R: Disk + Alloc<A = Global>>(rt: &R, names: &[&str]) -> Option<Hindrance> {
    for name in names.iter().skip(1) {
        if let Err(Hindrance::LeavesFolder) = linked_to(rt, name) {
            return Some(Hindrance::LeavesFolder);
        }
    }
    None
}

impl<'a, R: Disk<File = File> + Alloc<A = Global>, L: Listener + Drop> SeenFolder<'a, R, L> {
    /// The folder, with these files read at one moment: first the file of a code, then those of tables and indexes.
    /// What the system says of each of them, and of the record of a save, is the same before they are read and after.
    /// Files beside a committed save aren't those of one moment either, unless that save is `cut` and can't be
    /// finished: then what it left is read.
    ///
    /// # Errors
    /// `Changing` names a file that changed meanwhile.
    pub fn new(
        folder: Folder<'a, R, L>,
        names: &[&str],
        cut: bool,
    ) -> Result<SeenFolder<'a, R, L>, Unseen> {
        match read_once(&folder, names, cut)? {
            Ok(seen) => {
                let hindrance = leaving(folder.rt, names);
                Ok(SeenFolder {
                    folder,
                    seen,
                    hindrance,
                })
            }
            Err(name) => {
                let name = String::from_str(folder.rt.alloc(), name)?;
                Err(Unseen::Changing { name })
            }
        }
    }

    /// Whether the first file, that of the code, held these bytes at that moment; none if it couldn't be read.
    pub fn first_held(&self, bytes: Option<&[u8]>) -> bool {
        match self.seen.first() {
            Some(
                Seen {
                    read: Some(Ok(held)),
                    ..
                },
            ) => bytes == Some(held.as_slice()),
            _ => bytes.is_none(),
        }
    }

    /// Why a file wasn't read, if it is a link that leaves the folder.
    pub fn hindrance(&self) -> Option<Hindrance> {
        self.hindrance
    }

    /// What was read of a file at that moment, if its bytes weren't asked for before.
    fn take(&mut self, name: &str) -> Option<Result<Vec<u8>, ReadFault>>
        ensures { self.new.folder ≡ self.old.folder }
    {
        for seen in &mut self.seen {
            if seen.name.as_str() == name {
                return seen.read.take();
            }
        }
        None
    }

    /// What a file held at that moment, if its bytes weren't asked for before; else what it holds now.
    fn read_here(&mut self, alloc: Global, name: &str, limit: usize) -> Result<Vec<u8>, ReadFault>
        ensures within { IfOk result (λ bytes. length bytes.items ≤ limit) }
        ensures device { IsErrOf result ReadFault.Device → Rose self.old.folder.failures self.new.folder.failures }
        ensures counted { self.old.folder.failures ≤ self.new.folder.failures }
    {
        match self.take(name) {
            None => self.folder.read(alloc, name, limit),
            Some(Ok(bytes)) if bytes.len() <= limit => Ok(bytes),
            Some(Ok(_)) => Err(ReadFault::TooLong),
            Some(Err(ReadFault::Device)) => Err(self.folder.fail()),
            Some(Err(ReadFault::Absent)) => Err(ReadFault::Absent),
            Some(Err(ReadFault::TooLong)) => Err(ReadFault::TooLong),
            Some(Err(ReadFault::Memory)) => Err(ReadFault::Memory),
        }
    }

    /// Reports to the listener what a file holds.
    fn report(&self, name: &str, read: &Result<Vec<u8>, ReadFault>) -> Result<(), AllocError> {
        match read {
            Ok(bytes) => self.folder.listener.found(name, Some(bytes.as_slice())),
            Err(ReadFault::Absent) => self.folder.listener.found(name, None),
            Err(ReadFault::TooLong) => self.folder.listener.found_long(name),
            Err(ReadFault::Device | ReadFault::Memory) => Ok(()),
        }
    }
}

impl<R: Disk<File = File> + Alloc<A = Global>, L: Listener + Drop> Files for SeenFolder<'_, R, L> {
    ghost holds = { λ _ _ _. Unit {0} };

    ghost failed = { λ seen. seen.folder.failures };

    fn read(&mut self, alloc: Global, name: &str, limit: usize) -> Result<Vec<u8>, ReadFault> {
        let read = self.read_here(alloc, name, limit);
        if self.report(name, &read).is_err() {
            return Err(ReadFault::Memory);
        }
        read
    }

    fn replace(&mut self, name: &str, bytes: Vec<u8>) -> Result<(), Device> {
        self.folder.replace(name, bytes)
    }

    fn failures(&self) -> u64 {
        self.folder.failures()
    }
}
