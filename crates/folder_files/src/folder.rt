// Files of a folder of the disk.
#![tactic(auto)]

ghost use Rattle.std.specs.Prelude.{◌≡◌, ◌≤◌, IfOk, None, length};
ghost use Rattle.file_access.specs.Holding.{Rose};
ghost use Rattle.folder_files.specs.Handed.{failures_of, why_unreplaced};

use crate::opening::open_plain;
use crate::replacing::{Unreplaced, replace_file};
use file_access::{Device, Files, ReadFault, read_within};
use std::alloc::{Alloc, AllocError, Global};
use std::fs::{File, OpenFile};
use std::io::ErrorKind;
use std::rt::Files as Disk;

/// What goes on with a file.
#[derive(Clone, Copy)]
pub enum Doing {
    /// It is read.
    Reading,
    /// Its new bytes are written.
    Writing,
}

/// Who hears what goes on with files while it lasts.
pub trait Listener {
    /// A file of so many bytes is read or written now.
    fn hear(&self, doing: Doing, name: &str, size: u64);

    /// A file of a run was read, and holds these bytes; none where there is no such file. Where memory is refused for
    /// what is kept of it, the file counts as not read.
    fn found(&self, name: &str, bytes: Option<&[u8]>) -> Result<(), AllocError>;

    /// The same of a file that is longer than what is read of it.
    fn found_long(&self, name: &str) -> Result<(), AllocError>;
}

/// Nobody hears it.
#[derive(Clone, Copy)]
pub struct Nobody;

impl Listener for Nobody {
    fn hear(&self, _doing: Doing, _name: &str, _size: u64) {}

    fn found(&self, _name: &str, _bytes: Option<&[u8]>) -> Result<(), AllocError> {
        Ok(())
    }

    fn found_long(&self, _name: &str) -> Result<(), AllocError> {
        Ok(())
    }
}

/// The files of the folder in which the program runs: names are those of its files. A file that is replaced has its new
/// bytes on the device before they take the old ones' place, and keeps its owner and its mode. A failure that is told
/// leaves the old ones, unless the device failed at the folder behind the new ones.
#[derive(Drop)]
pub struct Folder<'a, R, L> {
    pub(crate) rt: &'a R,
    pub(crate) listener: L,
    failures: u64,
    /// Why the last file that wasn't replaced isn't.
    unreplaced: Option<Unreplaced>,
}

impl<'a, R: Disk + Alloc<A = Global>, L: Listener> Folder<'a, R, L> {
    /// The folder, with no failure counted yet.
    pub fn new(rt: &'a R, listener: L) -> Folder<'a, R, L>
        ensures failures { failures_of result ≡ 0 }
        ensures unreplaced { why_unreplaced result ≡ None }
    {
        Folder {
            rt,
            listener,
            failures: 0,
            unreplaced: None,
        }
    }

    /// Why the last file that wasn't replaced isn't, if there is one.
    pub fn unreplaced(&self) -> Option<Unreplaced>
        ensures { result ≡ why_unreplaced self.now }
    {
        self.unreplaced
    }

    /// Counts a failure of the device.
    pub(crate) fn fail(&mut self) -> ReadFault
        ensures fault { result ≡ ReadFault.Device }
        ensures rose { Rose self.old.failures self.new.failures }
        ensures counted { self.old.failures ≤ self.new.failures }
    {
        self.failures = self.failures.saturating_add(1);
        ReadFault::Device
    }
}

/// The bytes of the plain file under a name. A listener hears that they are read.
pub(crate) fn read_plain<R: Disk, L: Listener>(
    rt: &R,
    listener: &L,
    alloc: Global,
    name: &str,
    limit: usize,
) -> Result<Vec<u8>, ReadFault>
    ensures { IfOk result (λ bytes. length bytes.items ≤ limit) }
{
    let mut file = match open_plain(rt, name) {
        Ok(file) => file,
        Err(error) => {
            return match error.kind() {
                ErrorKind::NotFound => Err(ReadFault::Absent),
                _ => Err(ReadFault::Device),
            };
        }
    };
    if let Ok(size) = file.metadata().map(|data| data.len()) {
        listener.hear(Doing::Reading, name, size);
        if size > limit as u64 {
            return Err(ReadFault::TooLong);
        }
    }
    read_within(alloc, &mut file, limit)
}

impl<R: Disk<File = File> + Alloc<A = Global>, L: Listener> Files for Folder<'_, R, L> {
    ghost holds = { λ _ _ _. Unit {0} };

    ghost failed = { λ folder. folder.failures };

    fn read(&mut self, alloc: Global, name: &str, limit: usize) -> Result<Vec<u8>, ReadFault> {
        match read_plain(self.rt, &self.listener, alloc, name, limit) {
            Ok(bytes) => Ok(bytes),
            Err(ReadFault::Device) => Err(self.fail()),
            Err(ReadFault::Absent) => Err(ReadFault::Absent),
            Err(ReadFault::TooLong) => Err(ReadFault::TooLong),
            Err(ReadFault::Memory) => Err(ReadFault::Memory),
        }
    }

    fn replace(&mut self, name: &str, bytes: Vec<u8>) -> Result<(), Device> {
        self.listener.hear(Doing::Writing, name, bytes.len() as u64);
        match replace_file(self.rt, name, bytes.as_slice()) {
            Ok(()) => Ok(()),
            Err(unreplaced) => {
                self.unreplaced = Some(unreplaced);
                self.fail();
                Err(Device)
            }
        }
    }

    fn failures(&self) -> u64 {
        self.failures
    }
}
