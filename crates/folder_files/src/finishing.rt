//! A save that was cut off, finished.
#![tactic(auto)]

ghost use Rattle.std.specs.Prelude.{◌≡◌, true, codes, IfErr, IfOk, IfSome};
ghost use Rattle.save_rules.specs.Rules.{is_in_folder as is_name};
ghost use Rattle.folder_files.specs.Unfinished.{TellsOfFolder};

use crate::disk::{Summed, remove_if_there, sum_of_file, sync_folder};
use crate::opening::is_other_than_plain;
use crate::papers::{PAPER, PaperFault, found_paper, remove_draft, remove_paper};
use crate::recorded::may_be_written;
use save_papers::{PaperEntry, SavePaper};
use save_rules::{is_beside, is_in_folder};
use save_steps::{Paper, Slot, Step, Sum, first_foreign, slot_of, steps_of_finish};
use std::alloc::{Alloc, Global};
use std::rt::Files as Disk;
use std::{fs, str};

/// What was found of a save that was cut off, and is finished now.
#[derive(Clone, Copy)]
pub enum FinishedSave {
    /// None was, or it hadn't come to its note: all files are as they were before it.
    Before,
    /// It had come to its note: all files are new.
    Behind,
}

/// Why a save that was cut off isn't finished. Nothing was touched, unless the device failed.
#[derive(Drop)]
pub enum UnfinishedSave {
    /// The plan's and note's file is another program's.
    Foreign,
    /// Another program has changed a file of this name.
    Changed { name: String },
    /// The device failed at a file of this name.
    Disk { name: String },
    /// The device failed at the plan or the note.
    PaperDisk,
    /// Memory was refused.
    Memory,
}

/// The name of the file that tells of a save.
pub fn paper_name() -> &'static str
    ensures { result.now ≡ codes "dbrun.save" }
{
    PAPER
}

/// A name that a plan or a note says: one of a file in the folder.
fn name_in(bytes: &[u8]) -> Option<&str>
    ensures { IfSome result (λ name. is_name name.now ≡ true) }
{
    if !is_in_folder(bytes) {
        return None;
    }
    str::from_utf8(bytes).ok()
}

/// The names of a file and of its new file that a plan or a note says.
fn names_in(entry: &PaperEntry) -> Result<(&str, &str), UnfinishedSave>
    ensures named { IfOk result (λ names. (is_name names.0.now ≡ true) × (is_name names.1.now ≡ true)) }
    ensures told { IfErr result TellsOfFolder }
{
    let (Some(name), Some(beside)) = (name_in(&entry.name), name_in(&entry.beside)) else {
        return Err(UnfinishedSave::Foreign);
    };
    if !is_beside(name.as_bytes(), beside.as_bytes()) {
        return Err(UnfinishedSave::Foreign);
    }
    Ok((name, beside))
}

/// The failure of the device at a file.
fn disk_at(alloc: Global, name: &str) -> UnfinishedSave
    ensures { is_name name.now ≡ true → TellsOfFolder result }
{
    match String::from_str(alloc, name) {
        Ok(name) => UnfinishedSave::Disk { name },
        Err(_) => UnfinishedSave::Memory,
    }
}

/// That another program has changed a file.
fn changed_at(alloc: Global, name: &str) -> UnfinishedSave
    ensures { is_name name.now ≡ true → TellsOfFolder result }
{
    match String::from_str(alloc, name) {
        Ok(name) => UnfinishedSave::Changed { name },
        Err(_) => UnfinishedSave::Memory,
    }
}

/// The checksum of a file; none if it is longer than any that a save writes. The checksum of no file is none too.
fn known_sum(summed: Summed) -> Option<Option<Sum>> {
    match summed {
        Summed::Absent => Some(None),
        Summed::Sum(sum) => Some(Some(sum)),
        Summed::Long => None,
    }
}

/// What stands at a file that a note names, by these checksums of it and of its new file.
fn slot_by(target: Summed, new: Summed, entry: &PaperEntry) -> Slot {
    match (known_sum(target), known_sum(new)) {
        (Some(target), Some(new)) => slot_of(target, new, entry.old, entry.new),
        _ => Slot::Foreign,
    }
}

/// What stands at a file that a note names. A save writes plain files without further names, so anything else counts as
/// changed by another program.
fn slot_at<R: Disk + Alloc<A = Global>>(rt: &R, entry: &PaperEntry) -> Result<Slot, UnfinishedSave>
    ensures { IfErr result TellsOfFolder }
{
    let (name, beside) = names_in(entry)?;
    if is_other_than_plain(rt, name) || is_other_than_plain(rt, beside) {
        return Ok(Slot::Foreign);
    }
    let Ok(target) = sum_of_file(rt, name) else {
        return Err(disk_at(rt.alloc(), name));
    };
    let Ok(new) = sum_of_file(rt, beside) else {
        return Err(disk_at(rt.alloc(), beside));
    };
    Ok(slot_by(target, new, entry))
}

/// What stands at each file that a plan or a note names. A plan is taken away whatever stands there. The first file
/// that another program changed is the last one that is looked at, because nothing is done then.
fn slots_of<R: Disk + Alloc<A = Global>>(
    rt: &R,
    paper: &SavePaper,
) -> Result<Vec<Slot>, UnfinishedSave>
    ensures { IfErr result TellsOfFolder }
{
    let mut slots = Vec::new(rt.alloc());
    for entry in &paper.entries {
        let slot = if paper.noted {
            slot_at(rt, entry)?
        } else {
            Slot::Waiting
        };
        if slots.push(slot).is_err() {
            return Err(UnfinishedSave::Memory);
        }
        if slot == Slot::Foreign {
            break;
        }
    }
    Ok(slots)
}

/// Carries out a step at a file.
fn at_file<R: Disk + Alloc<A = Global>>(
    rt: &R,
    step: Step,
    entry: &PaperEntry,
    slot: Slot,
) -> Result<(), UnfinishedSave>
    ensures { IfErr result TellsOfFolder }
{
    let (name, beside) = names_in(entry)?;
    let done = match step {
        Step::Unmake(_) => remove_if_there(rt, beside),
        Step::Place(_) => {
            if slot == Slot::Placed {
                return Ok(());
            }
            if is_other_than_plain(rt, beside) {
                return Err(disk_at(rt.alloc(), name));
            }
            match fs::rename(rt, beside, name) {
                Ok(()) if is_other_than_plain(rt, name) => {
                    return Err(disk_at(rt.alloc(), name));
                }
                done => done,
            }
        }
        _ => return Ok(()),
    };
    match done {
        Ok(()) => Ok(()),
        Err(_) => Err(disk_at(rt.alloc(), name)),
    }
}

/// Carries out a step.
fn carry_out<R: Disk + Alloc<A = Global>>(
    rt: &R,
    step: Step,
    paper: &SavePaper,
    slots: &[Slot],
) -> Result<(), UnfinishedSave>
    ensures { IfErr result TellsOfFolder }
{
    let done = match step {
        Step::Unmake(file) | Step::Place(file) => {
            return match (paper.entries.get(file), slots.get(file)) {
                (Some(entry), Some(slot)) => at_file(rt, step, entry, *slot),
                _ => Ok(()),
            };
        }
        Step::Sync => sync_folder(rt),
        Step::RemoveDraft => remove_draft(rt, rt.alloc()),
        Step::RemovePaper => remove_paper(rt),
        _ => return Ok(()),
    };
    match done {
        Ok(()) => Ok(()),
        Err(_) => Err(UnfinishedSave::PaperDisk),
    }
}

/// The failure to finish where another program has changed a file.
fn foreign_in(alloc: Global, paper: &SavePaper, slots: &[Slot]) -> UnfinishedSave
    ensures { TellsOfFolder result }
{
    let Some(file) = first_foreign(slots) else {
        return UnfinishedSave::Foreign;
    };
    let Some(entry) = paper.entries.get(file) else {
        return UnfinishedSave::Foreign;
    };
    match name_in(&entry.name) {
        Some(name) => changed_at(alloc, name),
        None => UnfinishedSave::Foreign,
    }
}

/// Carries out the steps that finish a save, each after the one before. Once the plan or the note is removed, the save
/// is at its end, also if the device fails to keep that: the next command then begins with a sync of the folder.
fn carry_out_all<R: Disk + Alloc<A = Global>>(
    rt: &R,
    steps: &[Step],
    paper: &SavePaper,
    slots: &[Slot],
) -> Result<FinishedSave, UnfinishedSave>
    ensures { IfErr result TellsOfFolder }
{
    let mut is_removed = false;
    for step in steps {
        match carry_out(rt, *step, paper, slots) {
            Ok(()) => is_removed |= *step == Step::RemovePaper,
            Err(_) if is_removed => {}
            Err(unfinished) => return Err(unfinished),
        }
    }
    if paper.noted {
        Ok(FinishedSave::Behind)
    } else {
        Ok(FinishedSave::Before)
    }
}

/// What tells of a save.
fn sort_of(paper: &SavePaper) -> Paper {
    if paper.noted {
        Paper::Note
    } else {
        Paper::Plan
    }
}

/// Finishes what a plan, a note or neither tells of, with this at the files that it names.
fn finish_at<R: Disk + Alloc<A = Global>>(
    rt: &R,
    sort: Paper,
    paper: &SavePaper,
    slots: &[Slot],
) -> Result<FinishedSave, UnfinishedSave>
    ensures { IfErr result TellsOfFolder }
{
    match steps_of_finish(rt.alloc(), sort, slots) {
        Ok(Some(steps)) => carry_out_all(rt, steps.as_slice(), paper, slots),
        Ok(None) => Err(foreign_in(rt.alloc(), paper, slots)),
        Err(_) => Err(UnfinishedSave::Memory),
    }
}

/// Ends what was left of a save whose plan or note is gone.
fn finish_without_paper<R: Disk + Alloc<A = Global>>(rt: &R) -> Result<FinishedSave, UnfinishedSave>
    ensures { IfErr result TellsOfFolder }
{
    let none = SavePaper {
        noted: false,
        entries: Vec::new(rt.alloc()),
    };
    finish_at(rt, Paper::Absent, &none, &[])
}

/// Finishes the save that a plan or a note tells of, unless no save can have written it: then nothing is touched.
fn finish_paper<R: Disk + Alloc<A = Global>>(
    rt: &R,
    paper: &SavePaper,
) -> Result<FinishedSave, UnfinishedSave>
    ensures { IfErr result TellsOfFolder }
{
    match may_be_written(rt, paper) {
        Ok(true) => {
            let slots = slots_of(rt, paper)?;
            finish_at(rt, sort_of(paper), paper, slots.as_slice())
        }
        Ok(false) => Err(UnfinishedSave::Foreign),
        Err(_) => Err(UnfinishedSave::Memory),
    }
}

/// Why a save isn't finished whose plan or note isn't read.
fn unread(fault: PaperFault) -> UnfinishedSave
    ensures { TellsOfFolder result }
{
    match fault {
        PaperFault::Foreign => UnfinishedSave::Foreign,
        PaperFault::Disk => UnfinishedSave::PaperDisk,
        PaperFault::Memory => UnfinishedSave::Memory,
    }
}

/// Why the save that a plan or a note tells of wouldn't be finished, if that can be seen without touching anything.
pub(crate) fn unfinishable<R: Disk + Alloc<A = Global>>(rt: &R) -> Option<UnfinishedSave> {
    let paper = match found_paper(rt, rt.alloc()) {
        Ok(found) => found?,
        Err(fault) => return Some(unread(fault)),
    };
    match may_be_written(rt, &paper) {
        Ok(true) => {}
        Ok(false) => return Some(UnfinishedSave::Foreign),
        Err(_) => return Some(UnfinishedSave::Memory),
    }
    match slots_of(rt, &paper) {
        Ok(slots) if first_foreign(&slots).is_some() => {
            Some(foreign_in(rt.alloc(), &paper, slots.as_slice()))
        }
        Ok(_) if paper.noted => Some(UnfinishedSave::PaperDisk),
        Ok(_) => None,
        Err(unfinished) => Some(unfinished),
    }
}

/// Finishes the save that was cut off in the folder in which the program runs, if one was. A save that hadn't come to
/// its note is taken away. One that had is carried to its end.
///
/// # Errors
/// A file that is told is one of the folder.
pub fn finish<R: Disk + Alloc<A = Global>>(rt: &R) -> Result<FinishedSave, UnfinishedSave>
    ensures { IfErr result TellsOfFolder }
{
    match found_paper(rt, rt.alloc()) {
        Ok(Some(paper)) => finish_paper(rt, &paper),
        Ok(None) => finish_without_paper(rt),
        Err(fault) => Err(unread(fault)),
    }
}

/// Takes a save that was cut off away: its new files and its plan or note, and no file that it was to replace. Those
/// that it had replaced already stay new. Answers whether there was one.
///
/// # Errors
/// A file that is told is one of the folder.
pub fn forget<R: Disk + Alloc<A = Global>>(rt: &R) -> Result<bool, UnfinishedSave>
    ensures { IfErr result TellsOfFolder }
{
    let paper = match found_paper(rt, rt.alloc()) {
        Ok(Some(paper)) => paper,
        Ok(None) => {
            finish(rt)?;
            return Ok(false);
        }
        Err(fault) => return Err(unread(fault)),
    };
    let plan = SavePaper {
        noted: false,
        entries: paper.entries,
    };
    finish_paper(rt, &plan)?;
    Ok(true)
}
