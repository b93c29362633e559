//! The file that holds a folder on a file system without locks: who made it, and whether that program still runs.
#![tactic(auto)]

use crate::disk::{fresh_name, is_free, remove_if_there, write_new};
use crate::opening::{Identity, identity_of, is_still, open_plain};
use file_access::read_within;
use std::alloc::{Alloc, AllocError, Global};
use std::fs::{self, File, OpenFile};
use std::io::{self, ErrorKind};
use std::rt::Files as Disk;
use std::str;

/// The name of the file.
pub const LOCK_FILE: &str = "dbrun.lock";

/// Where Linux names the host, its boot, and the program that asks.
const HOST: &str = "/proc/sys/kernel/hostname";

const BOOT: &str = "/proc/sys/kernel/random/boot_id";

const PROCESS: &str = "/proc/self/stat";

/// The words before what each line says.
const HOST_WORD: &str = "host ";

const BOOT_WORD: &str = "boot ";

const PROCESS_WORD: &str = "process ";

/// The first line of the file.
const HEAD: &str = "Tablereef: this folder is held by a run";

/// The most bytes of a lock file.
const LIMIT: usize = 1_024;

/// Which of the numbers of a process, counted from 0 after its name, says when it was started.
const STARTED: usize = 19;

/// A lock file that this program made.
#[derive(Clone, Copy)]
pub struct LockFile {
    file: Identity,
}

/// The host on which this program runs, and its boot.
#[derive(Drop)]
struct Machine {
    host: String,
    boot: String,
}

/// The number of a process, and when it was started, in the system's ticks after its boot.
#[derive(Drop)]
struct Process {
    number: String,
    started: String,
}

/// Why a lock file isn't removed.
#[derive(Clone, Copy)]
pub enum LockKept {
    /// The program that made it runs on this machine.
    Alive,
    /// It is no lock file.
    Foreign,
    /// The device failed.
    Disk,
    /// Memory was refused.
    Memory,
}

/// The text that the system keeps in a file of its own, without blanks at its ends.
fn system_text<R: Disk + Alloc<A = Global>>(rt: &R, path: &str) -> io::Result<String> {
    let text = fs::read_to_string(rt, path)?;
    Ok(String::from_str(rt.alloc(), text.as_str().trim())?)
}

fn this_machine<R: Disk + Alloc<A = Global>>(rt: &R) -> io::Result<Machine> {
    Ok(Machine {
        host: system_text(rt, HOST)?,
        boot: system_text(rt, BOOT)?,
    })
}

/// What the system's line of a process says: its number stands first, and after its name, which ends with the last
/// parenthesis, its state and numbers.
fn process_in(alloc: Global, line: &str) -> Result<Option<Process>, AllocError> {
    let (Some(number), Some(name_end)) = (line.split_whitespace().next(), line.rfind(')')) else {
        return Ok(None);
    };
    let (_, rest) = line.split_at(name_end.saturating_add(1).min(line.len()));
    let Some(started) = rest.split_whitespace().nth(STARTED) else {
        return Ok(None);
    };
    Ok(Some(Process {
        number: String::from_str(alloc, number)?,
        started: String::from_str(alloc, started)?,
    }))
}

/// The process of which the system keeps a line in this file of its own.
fn process_at<R: Disk + Alloc<A = Global>>(rt: &R, path: &str) -> io::Result<Process> {
    let line = system_text(rt, path)?;
    match process_in(rt.alloc(), line.as_str())? {
        Some(process) => Ok(process),
        None => Err(io::Error::from(ErrorKind::InvalidData)),
    }
}

/// The text of a lock file of this program.
fn lock_text<R: Disk + Alloc<A = Global>>(rt: &R) -> io::Result<String> {
    let machine = this_machine(rt)?;
    let process = process_at(rt, PROCESS)?;
    let text = format!(in rt.alloc();
        "{HEAD}\n{HOST_WORD}{}\n{BOOT_WORD}{}\n{PROCESS_WORD}{} {}\n",
        machine.host, machine.boot, process.number, process.started
    )?;
    Ok(text)
}

/// Whether a lock file, or anything else, is under its name.
pub(crate) fn lock_file_stands<R: Disk>(rt: &R) -> bool {
    !is_free(rt, LOCK_FILE)
}

/// Makes a lock file where it is read at once; none if there is one already, or if somebody removed it before it said
/// whose it is.
fn make_at_once<R: Disk<File = File>>(rt: &R, text: &str) -> io::Result<Option<LockFile>> {
    match write_new(rt, LOCK_FILE, text.as_bytes(), None) {
        Ok(file) if is_still(rt, LOCK_FILE, file) => Ok(Some(LockFile { file })),
        Ok(_) => Ok(None),
        Err(error) => match error.kind() {
            ErrorKind::AlreadyExists => Ok(None),
            _ => Err(error),
        },
    }
}

/// Makes a lock file of a draft that says whose it is already, so that nobody meets a part of it; none if there is one
/// already. Where the file system knows no second names of a file, it is written under its own name.
fn make_by_draft<R: Disk<File = File>>(
    rt: &R,
    draft: &str,
    text: &str,
) -> io::Result<Option<LockFile>> {
    let file = write_new(rt, draft, text.as_bytes(), None)?;
    let linked = fs::hard_link(rt, draft, LOCK_FILE);
    remove_if_there(rt, draft)?;
    match linked {
        Ok(()) => Ok(Some(LockFile { file })),
        Err(error) => match error.kind() {
            ErrorKind::AlreadyExists => Ok(None),
            _ => make_at_once(rt, text),
        },
    }
}

/// Makes a lock file; none if there is one already. Its name isn't brought to the device, because no program survives a
/// power cut.
pub(crate) fn make_lock_file<R: Disk<File = File> + Alloc<A = Global>>(
    rt: &R,
) -> io::Result<Option<LockFile>> {
    let text = lock_text(rt)?;
    match fresh_name(rt, LOCK_FILE)? {
        Some(draft) => make_by_draft(rt, draft.as_str(), text.as_str()),
        None => Err(io::Error::from(ErrorKind::AlreadyExists)),
    }
}

/// Removes a lock file that this program made, unless another program took its name meanwhile.
pub(crate) fn remove_own_lock_file<R: Disk>(rt: &R, made: &LockFile) {
    if is_still(rt, LOCK_FILE, made.file) {
        let _ = fs::remove_file(rt, LOCK_FILE);
    }
}

/// What a line of a lock file says after these words.
fn line_after<'a>(text: &'a str, words: &str) -> Option<&'a str> {
    for line in text.lines() {
        if let Some(said) = line.strip_prefix(words) {
            return Some(said);
        }
    }
    None
}

/// Whether the process of this number was started at this time and still runs.
fn is_running<R: Disk + Alloc<A = Global>>(
    rt: &R,
    number: &str,
    started: &str,
) -> Result<bool, AllocError> {
    let path = format!(in rt.alloc(); "/proc/{number}/stat")?;
    match process_at(rt, path.as_str()) {
        Ok(process) => Ok(process.started.as_str() == started),
        Err(_) => Ok(false),
    }
}

/// Whether a number can be a process's: only digits, so that it names nothing else.
fn is_number(word: &str) -> bool {
    !word.is_empty() && word.bytes().all(|byte| byte.is_ascii_digit())
}

/// Whether the program that made a lock file of this text runs on this machine. A file that was cut short names none.
fn is_held<R: Disk + Alloc<A = Global>>(rt: &R, text: &str) -> Result<bool, AllocError> {
    let (Some(host), Some(boot), Some(process)) = (
        line_after(text, HOST_WORD),
        line_after(text, BOOT_WORD),
        line_after(text, PROCESS_WORD),
    ) else {
        return Ok(false);
    };
    let Ok(here) = this_machine(rt) else {
        return Ok(false);
    };
    if here.host.as_str() != host || here.boot.as_str() != boot {
        return Ok(false);
    }
    match process.split_once(' ') {
        Some((number, started)) if is_number(number) => is_running(rt, number, started),
        _ => Ok(false),
    }
}

/// Whether bytes are a lock file's, or the beginning of one that was cut short.
fn may_be_lock_file(bytes: &[u8]) -> bool {
    let head = HEAD.as_bytes();
    let count = head.len().min(bytes.len());
    bytes[..count] == head[..count]
}

/// Which file has the name of a lock file, and its bytes; none if there is none.
fn found_lock_file<R: Disk>(
    rt: &R,
    alloc: Global,
) -> Result<Option<(Identity, Vec<u8>)>, LockKept> {
    let mut file = match open_plain(rt, LOCK_FILE) {
        Ok(file) => file,
        Err(error) => {
            return match error.kind() {
                ErrorKind::NotFound if is_free(rt, LOCK_FILE) => Ok(None),
                ErrorKind::NotFound | ErrorKind::InvalidInput => Err(LockKept::Foreign),
                _ => Err(LockKept::Disk),
            };
        }
    };
    let Ok(data) = file.metadata() else {
        return Err(LockKept::Disk);
    };
    match read_within(alloc, &mut file, LIMIT) {
        Ok(bytes) => Ok(Some((identity_of(&data), bytes))),
        Err(_) => Err(LockKept::Foreign),
    }
}

/// Removes a lock file that a program left which doesn't run on this machine any more. It is for a person to know
/// whether one that another machine's program made can go. Returns whether there was one.
///
/// # Errors
/// It stays if its program runs on this machine, or if it is no lock file.
pub fn remove_lock_file<R: Disk + Alloc<A = Global>>(rt: &R) -> Result<bool, LockKept> {
    let Some((file, bytes)) = found_lock_file(rt, rt.alloc())? else {
        return Ok(false);
    };
    if !may_be_lock_file(bytes.as_slice()) {
        return Err(LockKept::Foreign);
    }
    match is_held(rt, str::from_utf8(bytes.as_slice()).unwrap_or("")) {
        Ok(true) => return Err(LockKept::Alive),
        Ok(false) => {}
        Err(_) => return Err(LockKept::Memory),
    }
    if !is_still(rt, LOCK_FILE, file) {
        return Err(LockKept::Alive);
    }
    match remove_if_there(rt, LOCK_FILE) {
        Ok(()) => Ok(true),
        Err(_) => Err(LockKept::Disk),
    }
}
