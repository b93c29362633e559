//! The folder held for one program that saves.
#![tactic(auto)]

use crate::lock_file::{LockFile, lock_file_stands, make_lock_file, remove_own_lock_file};
use crate::papers::note_stands;
use std::alloc::{Alloc, Global};
use std::fs::{self, File, TryLockError};
use std::rt::Files as Disk;
use std::thread;
use std::time::{Clock, Duration};

/// How often a lock is tried before another program counts as having the folder: for 30 s.
const TRIES: u32 = 300;

/// The milliseconds between two tries.
const PAUSE: u64 = 100;

/// The folder, held until this is let go. A lock file has to be removed by `let_go`.
#[derive(Drop)]
pub enum Hold {
    /// By a lock of the file system.
    Locked(File),
    /// By a lock file, because the file system knows no locks.
    ByFile(LockFile),
}

/// Whether a program has the folder for itself.
#[derive(Drop)]
pub enum Held {
    /// It has.
    Alone(Hold),
    /// Another program has it.
    Taken,
    /// A lock file says that another program has it, or had it when it ended.
    LockFile,
    /// The file system knows no locks.
    NoLocks,
    /// The folder can't be read.
    Closed,
    /// No lock file can be made in the folder.
    NoRoom,
}

/// Whether nobody has the folder for themselves, and what is in the way are only locks that are shared. Anybody who may
/// read the folder can have one of these.
fn is_only_shared(folder: &File) -> bool {
    match folder.try_lock_shared() {
        Ok(()) => {
            let _ = folder.unlock();
            true
        }
        Err(_) => false,
    }
}

/// Whether it makes sense to wait for a folder that another program has: its committed save is being finished, or the
/// lock is only shared.
fn is_worth_waiting<R: Disk + Alloc<A = Global>>(rt: &R, folder: &File) -> bool {
    note_stands(rt) || is_only_shared(folder)
}

/// Locks the folder, once other programs let it go that are worth waiting for, at most 30 s. Looks again ten times a
/// second.
fn locked<R: Disk + Clock + Alloc<A = Global>>(rt: &R, folder: &File) -> Result<(), TryLockError> {
    for _ in 0..TRIES {
        match folder.try_lock() {
            Err(TryLockError::WouldBlock) => {
                if !is_worth_waiting(rt, folder) {
                    return Err(TryLockError::WouldBlock);
                }
                thread::sleep(rt, Duration::from_millis(PAUSE));
            }
            done => return done,
        }
    }
    Err(TryLockError::WouldBlock)
}

/// The folder, held by a lock file where the file system knows no locks, if that may be.
fn held_by_file<R: Disk<File = File> + Alloc<A = Global>>(rt: &R, no_lock: bool) -> Held {
    if !no_lock {
        return Held::NoLocks;
    }
    match make_lock_file(rt) {
        Ok(Some(made)) => Held::Alone(Hold::ByFile(made)),
        Ok(None) => Held::LockFile,
        Err(_) => Held::NoRoom,
    }
}

/// Takes the folder in which the program runs for this program, so that no two programs save in it at once. It waits at
/// most 30 s for a program whose committed save is being finished, and for locks that are only shared. Where the file
/// system knows no locks, and `no_lock` says that the user knows, the folder is held by the lock file `dbrun.lock`.
/// Whoever finds such a file doesn't get the folder.
pub fn take_folder<R: Disk<File = File> + Clock + Alloc<A = Global>>(
    rt: &R,
    no_lock: bool,
) -> Held {
    let Ok(folder) = fs::open(rt, ".") else {
        return Held::Closed;
    };
    match locked(rt, &folder) {
        Ok(()) if lock_file_stands(rt) => Held::LockFile,
        Ok(()) => Held::Alone(Hold::Locked(folder)),
        Err(TryLockError::WouldBlock) => Held::Taken,
        Err(TryLockError::Error(_)) => held_by_file(rt, no_lock),
    }
}

/// Lets a folder go. A lock file of this program is removed.
pub fn let_go<R: Disk>(rt: &R, held: Held) {
    if let Held::Alone(Hold::ByFile(made)) = held {
        remove_own_lock_file(rt, &made);
    }
}
