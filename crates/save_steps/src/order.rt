//! The steps of a save in their order, and those that finish one.

ghost use Rattle.std.specs.Prelude.{◌≡◌, ◌++◌, IfOk, OnOk};
ghost use Rattle.std.specs.Option.{option_map};
ghost use Rattle.save_steps.specs.Steps.{places, unmakes, make_steps, end_steps, place_steps, save_steps};
ghost use Rattle.save_steps.specs.Steps.{back_steps, on_steps, without_steps};
ghost use Rattle.save_steps.specs.Finishing.{finish_of};

use crate::slots::{Slot, has_foreign};
use crate::steps::{Paper, Step};
use std::alloc::{AllocError, Global};

/// Adds the making of so many new files.
fn push_makes(steps: &mut Vec<Step>, count: usize) -> Result<(), AllocError>
    ensures { OnOk result (steps.new.items ≡ steps.old.items ++ make_steps count) }
{
    for k in 0..count {
        steps.push(Step::Make(k))?;
    }
    Ok(())
}

/// Adds that so many new files take their places.
fn push_places(steps: &mut Vec<Step>, count: usize) -> Result<(), AllocError>
    ensures { OnOk result (steps.new.items ≡ steps.old.items ++ places count) }
{
    for k in 0..count {
        steps.push(Step::Place(k))?;
    }
    Ok(())
}

/// Adds the removal of so many new files.
fn push_unmakes(steps: &mut Vec<Step>, count: usize) -> Result<(), AllocError>
    ensures { OnOk result (steps.new.items ≡ steps.old.items ++ unmakes count) }
{
    for k in 0..count {
        steps.push(Step::Unmake(k))?;
    }
    Ok(())
}

/// Adds the removal of the plan or the note. The first sync brings what it asks for to the device before it goes. The
/// second brings the removal there, so that no power cut brings it back.
fn push_end(steps: &mut Vec<Step>) -> Result<(), AllocError>
    ensures { OnOk result (steps.new.items ≡ steps.old.items ++ end_steps) }
{
    steps.extend_from_slice(&[Step::Sync, Step::RemovePaper, Step::Sync])?;
    Ok(())
}

/// Adds the steps after the note.
fn push_place_steps(steps: &mut Vec<Step>, count: usize) -> Result<(), AllocError>
    ensures { OnOk result (steps.new.items ≡ steps.old.items ++ place_steps count) }
{
    push_places(steps, count)?;
    push_end(steps)
}

/// The steps of a save of so many files. A sync brings the new files to the device before the note asks to place them.
pub fn steps_of_save(alloc: Global, count: usize) -> Result<Vec<Step>, AllocError>
    ensures { IfOk result (λ steps. steps.items ≡ save_steps count) }
{
    let mut steps = Vec::from_slice(alloc, &[Step::WritePlan])?;
    push_makes(&mut steps, count)?;
    steps.extend_from_slice(&[Step::Sync, Step::WriteNote])?;
    push_place_steps(&mut steps, count)?;
    Ok(steps)
}

/// The steps that take a planned save away.
fn steps_back(alloc: Global, count: usize) -> Result<Vec<Step>, AllocError>
    ensures { IfOk result (λ steps. steps.items ≡ back_steps count) }
{
    let mut steps = Vec::from_slice(alloc, &[Step::RemoveDraft])?;
    push_unmakes(&mut steps, count)?;
    push_end(&mut steps)?;
    Ok(steps)
}

/// The steps that carry a noted save to its end. A sync comes first: the note was found, but it may not be on the
/// device yet, and a power cut after a renaming could leave the plan beside replaced files.
fn steps_on(alloc: Global, count: usize) -> Result<Vec<Step>, AllocError>
    ensures { IfOk result (λ steps. steps.items ≡ on_steps count) }
{
    let mut steps = Vec::from_slice(alloc, &[Step::Sync, Step::RemoveDraft])?;
    push_place_steps(&mut steps, count)?;
    Ok(steps)
}

/// The steps where no paper is found. A command that was stopped may have removed one: the sync brings that to the
/// device, so that a power cut during the next save doesn't bring the paper back.
fn steps_without(alloc: Global) -> Result<Vec<Step>, AllocError>
    ensures { IfOk result (λ steps. steps.items ≡ without_steps) }
{
    Ok(Vec::from_slice(alloc, &[Step::RemoveDraft, Step::Sync])?)
}

/// The steps that finish what was found: of a plan all is taken away, and a note's save is carried to its end. None
/// where a note names a file that another program has changed: then nothing is to be touched.
pub fn steps_of_finish(
    alloc: Global,
    paper: Paper,
    slots: &[Slot],
) -> Result<Option<Vec<Step>>, AllocError>
    ensures { IfOk result (λ found. option_map (λ steps. steps.items) found ≡ finish_of paper slots.now) }
{
    match paper {
        Paper::Absent => Ok(Some(steps_without(alloc)?)),
        Paper::Plan => Ok(Some(steps_back(alloc, slots.len())?)),
        Paper::Note => {
            if has_foreign(slots) {
                return Ok(None);
            }
            Ok(Some(steps_on(alloc, slots.len())?))
        }
    }
}
