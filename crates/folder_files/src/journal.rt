//! The journal of a conversation: its file, to which each line goes before the machine takes it.
#![tactic(auto)]

ghost use Rattle.std.specs.Prelude.{◌≡◌, ◌-◌, ◌+◌, ◌<◌, ◌≤◌, ◌^◌, ◌==◌, not, min, [], ℕ, List, IfErr, IfOk};
ghost use Rattle.std.specs.Prelude.{IfSome, MatchOption, OnErr, OnOk, length};
ghost use Rattle.std.specs.List.{suffix_len};
ghost use Rattle.folder_files.specs.Journals.{HoldsLines, RefusesNew, bytes_in_front, bytes_counted, is_made_here};

use crate::disk::{is_free, sync_folder};
use crate::opening::identity_of;
use file_access::{ReadFault, read_within};
use std::alloc::{Alloc, Global};
use std::fs::{self, File, OpenFile, OpenOptions, TryLockError};
use std::io::{self, ErrorKind, Write};
use std::rt::Files as Disk;

/// The most bytes that a journal is read of: two for each byte that an operator may type for a run.
const LIMIT: usize = 2_097_152;

/// Why a journal isn't made or taken up.
#[derive(Clone, Copy, PartialEq)]
pub enum JournalFault {
    /// A file of its name stands.
    Exists,
    /// Another program has it.
    Held,
    /// No file of its name stands.
    Absent,
    /// It is longer than what an operator may type.
    TooLong,
    /// The device failed.
    Disk,
    /// Memory was refused.
    Memory,
}

/// A journal that this program alone has. What was brought to the device of it counts.
#[derive(Drop)]
pub struct JournalFile {
    file: File,
    /// How many bytes of it count.
    length: u64,
    /// Whether this program made the file.
    made: bool,
}

/// What stands behind the last LF of a journal: a line that was never ended.
#[derive(Drop)]
pub struct Tail {
    file: File,
    /// How many bytes of the journal stand before it.
    length: u64,
    pub bytes: Vec<u8>,
}

/// Cuts off what stands behind so many bytes of a file, down to the device.
fn cut(file: &File, length: u64) -> io::Result<()> {
    file.set_len(length)?;
    file.sync_all()
}

impl Tail {
    /// Cuts it off, down to the device.
    pub fn cut_off(&self) -> io::Result<()> {
        cut(&self.file, self.length)
    }
}

/// A journal that was taken up again.
#[derive(Drop)]
pub struct TakenUp {
    pub journal: JournalFile,
    /// All lines that it holds, each with LF.
    pub lines: Vec<u8>,
    /// What stands behind them, if anything does. It is to be cut off before a line is added.
    pub tail: Option<Tail>,
}

/// Holds a file for this program alone, or, where that may be, without a lock on a file system that knows none.
fn held(file: File, no_lock: bool) -> Result<File, JournalFault>
    ensures { IfErr result RefusesNew }
{
    match file.try_lock() {
        Ok(()) => Ok(file),
        Err(TryLockError::WouldBlock) => Err(JournalFault::Held),
        Err(TryLockError::Error(_)) => {
            if no_lock {
                Ok(file)
            } else {
                Err(JournalFault::Disk)
            }
        }
    }
}

/// Whether a name leads to a plain file itself, and by no link.
fn leads_to<R: Disk>(rt: &R, name: &str, file: &File) -> bool {
    match (fs::symlink_metadata(rt, name), file.metadata()) {
        (Ok(named), Ok(data)) => { data.is_file() && identity_of(&named) == identity_of(&data) }
        _ => false,
    }
}

/// Holds the file of a name. Where another program has taken the name from it meanwhile, that one has it.
fn held_by_name<R: Disk>(
    rt: &R,
    name: &str,
    file: File,
    no_lock: bool,
) -> Result<File, JournalFault>
    ensures { IfErr result RefusesNew }
{
    let file = held(file, no_lock)?;
    if leads_to(rt, name, &file) {
        Ok(file)
    } else {
        Err(JournalFault::Held)
    }
}

/// Holds a file that was just made; where the device fails it is taken away again.
fn held_new<R: Disk>(rt: &R, name: &str, file: File, no_lock: bool) -> Result<File, JournalFault>
    ensures { IfErr result RefusesNew }
{
    let found = held_by_name(rt, name, file, no_lock);
    if let Err(JournalFault::Disk) = &found {
        let _ = fs::remove_file(rt, name);
    }
    found
}

/// Why what is under a name can't be a journal, if it can't: a link counts as a file that exists, and a folder, a
/// device or a pipe can't be read.
fn barred<R: Disk>(rt: &R, name: &str) -> Option<JournalFault>
    ensures { IfSome result RefusesNew }
{
    match fs::symlink_metadata(rt, name) {
        Ok(data) if data.is_symlink() => Some(JournalFault::Exists),
        Ok(data) if !data.is_file() => Some(JournalFault::Disk),
        _ => None,
    }
}

/// Opens a journal for lines at its end. It is opened for reading and writing, which doesn't wait for the other end of
/// a pipe.
fn opened<R: Disk<File = File>>(
    rt: &R,
    name: &str,
    new: bool,
    no_lock: bool,
) -> Result<File, JournalFault>
    ensures { IfErr result RefusesNew }
{
    if let Some(fault) = barred(rt, name) {
        return Err(fault);
    }
    let mut options = OpenOptions::new();
    options.read(true);
    options.append(true);
    options.create_new(new);
    match options.open(rt, name) {
        Ok(file) => {
            if new {
                held_new(rt, name, file, no_lock)
            } else {
                held_by_name(rt, name, file, no_lock)
            }
        }
        Err(error) => match error.kind() {
            ErrorKind::NotFound => Err(JournalFault::Absent),
            ErrorKind::AlreadyExists => Err(JournalFault::Exists),
            _ => Err(JournalFault::Disk),
        },
    }
}

/// How many bytes stand behind the last line of a text.
fn behind_last_line(bytes: &[u8]) -> usize
    ensures value { result ≡ suffix_len (λ byte. not (byte == 10)) bytes.now }
    ensures within { result ≤ length bytes.now }
{
    bytes
        .iter()
        .rev()
        .take_while(|byte| **byte != b'\n')
        .count()
}

/// What stands behind the lines of a journal, if anything does.
fn tail_of(
    alloc: Global,
    file: &File,
    before: u64,
    bytes: &[u8],
) -> Result<Option<Tail>, JournalFault>
    ensures { IfOk result (λ found. MatchOption found (bytes.now ≡ []) (λ tail. (tail.bytes.items ≡ bytes.now)
        × (0 < length tail.bytes.items) × (bytes_in_front tail ≡ before))) }
{
    if bytes.is_empty() {
        return Ok(None);
    }
    let Ok(bytes) = Vec::from_slice(alloc, bytes) else {
        return Err(JournalFault::Memory);
    };
    match file.try_clone() {
        Ok(file) => Ok(Some(Tail {
            file,
            length: before,
            bytes,
        })),
        Err(_) => Err(JournalFault::Disk),
    }
}

/// A journal that holds these bytes, taken up again.
fn taken_up(alloc: Global, file: File, bytes: &[u8]) -> Result<TakenUp, JournalFault>
    ensures { IfOk result (HoldsLines bytes.now) }
{
    let (lines, tail) = bytes.split_at(bytes.len() - behind_last_line(bytes));
    let length = lines.len() as u64;
    let Ok(lines) = Vec::from_slice(alloc, lines) else {
        return Err(JournalFault::Memory);
    };
    match tail_of(alloc, &file, length, tail) {
        Ok(tail) => Ok(TakenUp {
            journal: JournalFile {
                file,
                length,
                made: false,
            },
            lines,
            tail,
        }),
        Err(fault) => Err(fault),
    }
}

/// An empty journal that was left, if nobody has it.
fn left_empty<R: Disk<File = File>>(rt: &R, name: &str, no_lock: bool) -> Result<File, JournalFault>
    ensures { IfErr result RefusesNew }
{
    let file = opened(rt, name, false, no_lock)?;
    match file.metadata() {
        Ok(data) => {
            if data.len() == 0 && data.is_file() {
                return Ok(file);
            }
            Err(JournalFault::Exists)
        }
        Err(_) => Err(JournalFault::Disk),
    }
}

/// A journal of which nothing counts yet.
fn without_lines(file: File, made: bool) -> JournalFile
    ensures empty { bytes_counted result ≡ 0 }
    ensures made { is_made_here result ≡ made }
{
    JournalFile {
        file,
        length: 0,
        made,
    }
}

impl JournalFile {
    /// Makes an empty journal, where no file of its name stands. A file that is empty counts as none if nobody has it.
    pub fn make<R: Disk<File = File>>(
        rt: &R,
        name: &str,
        no_lock: bool,
    ) -> Result<JournalFile, JournalFault>
        ensures empty { IfOk result (λ journal. bytes_counted journal ≡ 0) }
        ensures refused { IfErr result RefusesNew }
    {
        let journal = JournalFile::opened_new(rt, name, no_lock)?;
        if sync_folder(rt).is_err() {
            journal.take_away(rt, name);
            return Err(JournalFault::Disk);
        }
        Ok(journal)
    }

    /// The same, not yet down to the device.
    fn opened_new<R: Disk<File = File>>(
        rt: &R,
        name: &str,
        no_lock: bool,
    ) -> Result<JournalFile, JournalFault>
        ensures empty { IfOk result (λ journal. bytes_counted journal ≡ 0) }
        ensures refused { IfErr result RefusesNew }
    {
        match opened(rt, name, true, no_lock) {
            Ok(file) => Ok(without_lines(file, true)),
            Err(JournalFault::Exists) => Ok(without_lines(left_empty(rt, name, no_lock)?, false)),
            Err(fault) => Err(fault),
        }
    }

    /// Takes the file away, if this program made it and nothing of it counts.
    pub fn take_away<R: Disk>(&self, rt: &R, name: &str) {
        if self.made && self.length == 0 && leads_to(rt, name, &self.file) {
            let _ = fs::remove_file(rt, name);
        }
    }

    /// Takes a journal up again. Nothing of it changes.
    pub fn take_up<R: Disk<File = File> + Alloc<A = Global>>(
        rt: &R,
        name: &str,
        no_lock: bool,
    ) -> Result<TakenUp, JournalFault>
        ensures { IfOk result (λ taken. (bytes : List ℕ) × HoldsLines bytes taken) }
    {
        let mut file = opened(rt, name, false, no_lock)?;
        match read_within(rt.alloc(), &mut file, LIMIT) {
            Ok(bytes) => taken_up(rt.alloc(), file, bytes.as_slice()),
            Err(ReadFault::TooLong) => Err(JournalFault::TooLong),
            Err(ReadFault::Memory) => Err(JournalFault::Memory),
            Err(_) => Err(JournalFault::Disk),
        }
    }

    /// Puts bytes behind the others, down to the device.
    fn put(&mut self, bytes: &[u8]) -> io::Result<()>
        ensures { bytes_counted self.new ≡ bytes_counted self.old }
    {
        self.file.write_all(bytes)?;
        self.file.sync_data()
    }

    /// Puts bytes behind the others, down to the device. Where the device fails, the journal is as it was, as far as
    /// the device lets it be.
    pub fn add(&mut self, bytes: &[u8]) -> io::Result<()>
        ensures counted { OnOk result (bytes_counted self.new
            ≡ min (bytes_counted self.old + length bytes.now) (2 ^ 64 - 1)) }
        ensures kept { OnErr result (bytes_counted self.new ≡ bytes_counted self.old) }
    {
        let put = self.put(bytes);
        match put {
            Ok(()) => {
                self.length = self.length.saturating_add(bytes.len() as u64);
                Ok(())
            }
            Err(error) => {
                let _ = cut(&self.file, self.length);
                Err(error)
            }
        }
    }
}

/// Whether something stands under a name: a file, a folder, or a link that leads nowhere.
pub fn stands<R: Disk>(rt: &R, name: &str) -> bool {
    !is_free(rt, name)
}
