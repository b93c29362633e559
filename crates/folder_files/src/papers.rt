//! The plan and the note of a save, in their file in the folder.
#![tactic(auto)]

ghost use Rattle.std.specs.Prelude.{IfSome};
ghost use Rattle.folder_files.specs.Handed.{HindersPlan};

use crate::disk::{is_free, remove_if_there, remove_made, rename_made, sync_folder, write_new};
use crate::opening::open_plain;
use crate::targets::Hindrance;
use file_access::{ReadFault, read_within};
use save_papers::{PaperError, SavePaper, may_begin_paper, read, write};
use std::alloc::{Alloc, Global};
use std::fs::File;
use std::io::{self, ErrorKind};
use std::rt::Files as Disk;

/// The file that tells of a save, a plan first and then a note.
pub const PAPER: &str = "dbrun.save";

/// The file as which a plan or a note is written, before it takes its place.
const DRAFT: &str = "dbrun.save.new";

/// The most bytes of a plan or a note: 1 MiB.
const LIMIT: usize = 1_048_576;

/// How the writing of a plan or a note ended.
#[derive(Clone, Copy)]
pub(crate) enum Written {
    /// It stands.
    Done,
    /// It doesn't.
    Refused,
    /// It took its place, and the device failed then.
    Unsure,
    /// Memory was refused.
    Memory,
}

/// Writes a plan or a note as a draft, down to the device, and puts it in its place.
pub(crate) fn put_paper<R: Disk<File = File>>(rt: &R, alloc: Global, paper: &SavePaper) -> Written {
    let Ok(text) = write(alloc, paper) else {
        return Written::Memory;
    };
    let Ok(made) = write_new(rt, DRAFT, text.as_slice(), None) else {
        return Written::Refused;
    };
    if rename_made(rt, DRAFT, PAPER, made).is_err() {
        return Written::Refused;
    }
    if sync_folder(rt).is_err() {
        return Written::Unsure;
    }
    Written::Done
}

/// Why a plan or a note that stands isn't read.
#[derive(Clone, Copy)]
pub(crate) enum PaperFault {
    /// Its file is another program's.
    Foreign,
    /// The device failed.
    Disk,
    /// Memory was refused.
    Memory,
}

/// The plan or the note that stands, if one does.
pub(crate) fn found_paper<R: Disk>(rt: &R, alloc: Global) -> Result<Option<SavePaper>, PaperFault> {
    let mut file = match open_plain(rt, PAPER) {
        Ok(file) => file,
        Err(error) => {
            return match error.kind() {
                ErrorKind::NotFound => Ok(None),
                _ => Err(PaperFault::Disk),
            };
        }
    };
    let bytes = match read_within(alloc, &mut file, LIMIT) {
        Ok(bytes) => bytes,
        Err(ReadFault::TooLong) => return Err(PaperFault::Foreign),
        Err(ReadFault::Memory) => return Err(PaperFault::Memory),
        Err(_) => return Err(PaperFault::Disk),
    };
    match read(alloc, bytes.as_slice()) {
        Ok(paper) => Ok(Some(paper)),
        Err(PaperError::Foreign) => Err(PaperFault::Foreign),
        Err(PaperError::Memory) => Err(PaperFault::Memory),
    }
}

/// Whether a note stands: a save counts and isn't at its end.
pub fn note_stands<R: Disk + Alloc<A = Global>>(rt: &R) -> bool {
    match found_paper(rt, rt.alloc()) {
        Ok(Some(paper)) => paper.noted,
        _ => false,
    }
}

/// Whether a save was cut off, or goes on: something stands of its plan or its note.
pub fn save_stands(rt: &impl Disk) -> bool {
    !is_free(rt, PAPER) || !is_free(rt, DRAFT)
}

/// Why no save could begin in the folder, if none could: the file of a plan's draft is made there, and removed.
pub fn hindered_plan<R: Disk<File = File>>(rt: &R) -> Option<Hindrance>
    ensures { IfSome result HindersPlan }
{
    if !is_free(rt, DRAFT) {
        return Some(Hindrance::Draft);
    }
    let Ok(made) = write_new(rt, DRAFT, &[], None) else {
        return Some(Hindrance::NoRoom);
    };
    remove_made(rt, DRAFT, made);
    // a removal that failed is tried again, so that nothing is left
    remove_made(rt, DRAFT, made);
    if is_free(rt, DRAFT) {
        None
    } else {
        Some(Hindrance::NoRoom)
    }
}

/// Removes the plan or the note.
pub(crate) fn remove_paper<R: Disk>(rt: &R) -> io::Result<()> {
    remove_if_there(rt, PAPER)
}

/// Whether there is a draft, and it is one of this program's; none if there is none. What isn't a plain file is another
/// program's.
fn found_draft<R: Disk>(rt: &R, alloc: Global) -> io::Result<Option<bool>> {
    let mut file = match open_plain(rt, DRAFT) {
        Ok(file) => file,
        Err(error) => {
            return match error.kind() {
                ErrorKind::NotFound => Ok(None),
                ErrorKind::InvalidInput => Ok(Some(false)),
                _ => Err(error),
            };
        }
    };
    match read_within(alloc, &mut file, LIMIT) {
        Ok(bytes) => Ok(Some(may_begin_paper(bytes.as_slice()))),
        Err(_) => Ok(Some(false)),
    }
}

/// Whether another program's file is under the name of a draft.
pub(crate) fn foreign_draft_stands<R: Disk>(rt: &R, alloc: Global) -> bool {
    matches!(found_draft(rt, alloc), Ok(Some(false)))
}

/// Removes a draft, if there is one; another program's file of that name stays.
pub(crate) fn remove_draft<R: Disk>(rt: &R, alloc: Global) -> io::Result<()> {
    match found_draft(rt, alloc)? {
        Some(true) => remove_if_there(rt, DRAFT),
        _ => Ok(()),
    }
}
