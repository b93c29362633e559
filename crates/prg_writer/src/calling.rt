//! Calls of procedures, and the copies that are written for them.

ghost use Rattle.std.specs.Prelude.{◌≡◌, length, IfOk, OnOk};
ghost use Rattle.prg_code.specs.Growth.{BlockBegins};
ghost use Rattle.prg_writer.specs.Naming.{SeesParameters};

use crate::variables::{argument_slot, new_slot};
use crate::writer::{ProcedureCopy, Writer, copy_of_state};
use code_items::{FlowInstr, Instr, Name, State, ValueInstr};
use prg_code::{
    CompileError, CompileFaultKind, CompileRefusal, DraftBlock, Names, Variable, Work,
    is_state_same,
};
use prg_commands::{Target, parameters};
use prg_parser::{Expr, Program};
use std::alloc::AllocError;

/// The most procedures of a code, copies counted.
const MOST_COPIES: usize = 256;

/// The most calls within one another.
const MOST_CALLS: usize = 20;

fn file_named(programs: &[Program], name: &[u8]) -> Option<Target> {
    for (file, program) in programs.iter().enumerate() {
        if program.name.as_slice() == name {
            return Some(Target {
                file,
                procedure: None,
            });
        }
    }
    None
}

/// What `DO name` runs: the first PROCEDURE of that name in the files, in their order, else the first file of that
/// name.
fn target_named(programs: &[Program], w: &Writer, name: &Name) -> Result<Target, CompileFaultKind> {
    if let Some(target) = w.procedures.named(name) {
        return Ok(target);
    }
    match file_named(programs, name.as_slice()) {
        Some(target) => Ok(target),
        None => Err(CompileFaultKind::Name),
    }
}

fn is_active(active: &[Target], target: Target) -> bool {
    active.iter().any(|other| *other == target)
}

/// What `DO name` runs with so many arguments: Name where nothing has the name, Recursion where it is being run,
/// Parameters where it takes another number.
fn target_of(
    programs: &[Program],
    w: &Writer,
    name: &Name,
    arguments: usize,
) -> Result<Target, CompileError> {
    let target = target_named(programs, w, name)?;
    if is_active(&w.active, target) {
        return Err(CompileError::Fault(CompileFaultKind::Recursion));
    }
    let (names, _) = parameters(target.commands(programs));
    if names.len() != arguments {
        return Err(CompileError::Fault(CompileFaultKind::Parameters));
    }
    Ok(target)
}

/// A copy of a procedure that is being written where it is called first.
#[derive(Drop)]
pub struct OpenCopy {
    number: usize,
    /// The copy that was being written before.
    before: Work,
}

/// Arguments that are handed over: their slots in order, and those that are new.
#[derive(Drop)]
struct Handed {
    slots: Vec<u8>,
    own: Vec<u8>,
}

/// Hands an argument over, and gives its slot.
fn hand_over(w: &mut Writer, handed: &mut Handed, e: &Expr) -> Result<(), CompileError> {
    if let Some(slot) = argument_slot(w, e)? {
        handed.slots.push(slot)?;
        return Ok(());
    }
    let kind = w.put_expr(e)?;
    let slot = new_slot(&mut w.out)?;
    w.work
        .block
        .put(Instr::Values(ValueInstr::Store(kind, u16::from(slot))))?;
    handed.slots.push(slot)?;
    handed.own.push(slot)?;
    Ok(())
}

/// Hands the arguments over.
fn hand_all_over(w: &mut Writer, es: &[Expr]) -> Result<Handed, CompileError> {
    let mut handed = Handed {
        slots: Vec::new(w.alloc),
        own: Vec::new(w.alloc),
    };
    for e in es {
        hand_over(w, &mut handed, e)?;
    }
    Ok(handed)
}

/// The variables that the called procedure sees: the caller's, and its parameters, which hide those of their names.
fn names_in(w: &Writer, parameters: &[Name], slots: &[u8]) -> Result<Names, AllocError>
    ensures { IfOk result (λ names. SeesParameters parameters.now slots.now w.now.work.names names) }
{
    let mut names = w.work.names.handed_on()?;
    name_all(&mut names, parameters, slots)?;
    Ok(names)
}

/// Lets the parameters stand for these slots. Where two parameters have one name, the last one counts.
#[tactic(auto, using(crate::proofs::Naming::named_first))]
fn name_all(names: &mut Names, parameters: &[Name], slots: &[u8]) -> Result<(), AllocError>
    ensures { OnOk result (SeesParameters parameters.now slots.now names.old names.new) }
{
    let Some((name, others)) = parameters.split_first() else {
        return Ok(());
    };
    let Some((slot, more)) = slots.split_first() else {
        return Ok(());
    };
    let slot = *slot;
    names.set(name, Variable { slot, own: true })?;
    name_all(names, others, more)?;
    Ok(())
}

fn is_copy(copy: &ProcedureCopy, target: Target, names: &Names, state: &State) -> bool {
    copy.done
        && copy.target == target
        && is_state_same(&copy.entry, state)
        && copy.names.is_same(names)
}

/// The copy of the procedure for these names and what is known here, if it is written.
fn copy_for(w: &Writer, target: Target, names: &Names) -> Option<usize> {
    for (number, copy) in w.copies.iter().enumerate() {
        if is_copy(copy, target, names, &w.work.block.state) {
            return Some(number);
        }
    }
    None
}

/// The number of the next copy: Copies where there are too many, Limit where there are too many calls within one
/// another.
fn next_copy(w: &Writer) -> Result<usize, CompileError> {
    let number = w.copies.len();
    if number >= MOST_COPIES {
        return Err(CompileError::Fault(CompileFaultKind::Copies));
    }
    if w.active.len() > MOST_CALLS {
        return Err(CompileError::Fault(CompileFaultKind::Limit));
    }
    Ok(number)
}

/// A block of a copy that begins with what is known here.
fn block_from_here(w: &Writer) -> Result<DraftBlock, AllocError>
    ensures { IfOk result (BlockBegins w.now.work.block.state) }
{
    let begun = w.work.block.state.copied(w.alloc)?;
    Ok(DraftBlock::entered(w.alloc, begun))
}

/// What is written of a copy with these names at its beginning.
fn work_from_here(w: &Writer, target: Target, names: &Names) -> Result<Work, AllocError> {
    let seen = names.copied()?;
    let block = block_from_here(w)?;
    Ok(Work::new(w.alloc, target.file, false, block, seen))
}

/// The same with these slots as its own.
fn with_own(work: Work, own: Vec<u8>) -> Work {
    let mut work = work;
    work.own = own;
    work
}

/// Begins the copy of this number, with these names and what is known here.
fn begin_copy(
    w: &mut Writer,
    number: usize,
    target: Target,
    names: Names,
    own: Vec<u8>,
) -> Result<(), AllocError> {
    let work = with_own(work_from_here(w, target, &names)?, own);
    w.open_copy(target, names)?;
    let before = w.begin(work);
    w.calls.push(OpenCopy { number, before })?;
    Ok(())
}

/// What is known behind the procedure's RETURNs: its own slots have no value there.
fn left(exit: Option<State>, own: &[u8]) -> Option<State> {
    let mut exit = exit;
    if let Some(state) = &mut exit {
        for slot in own {
            state.slots.set(usize::from(*slot), None);
        }
    }
    exit
}

/// The copy of this number is written, and this is what was written of it. Gives its variables.
pub fn close_copy(copies: &mut Vec<ProcedureCopy>, number: usize, work: Work) -> Names
    // No copy comes or goes.
    ensures many { length copies.new.items ≡ length copies.old.items }
    ensures names { result ≡ work.names }
{
    let Work {
        block,
        own,
        level,
        exit,
        names,
        ..
    } = work;
    let exit = left(exit, &own);
    if let Some(copy) = copies.get_mut(number) {
        copy.block = block;
        copy.own = own;
        copy.level = level;
        copy.exit = exit;
        copy.done = true;
    }
    names
}

/// Ends the copy of this number, and goes on with the one that was being written before.
fn end_copy(w: &mut Writer, number: usize, before: Work) {
    let work = w.begin(before);
    let _ = w.active.pop();
    let _ = close_copy(&mut w.copies, number, work);
}

/// What is known behind a call of the copy of this number: what it returns with; as before where it never returns.
fn known_behind(w: &Writer, number: usize) -> Result<Option<State>, CompileError> {
    match w.copies.get(number) {
        Some(copy) => Ok(copy_of_state(w.alloc, &copy.exit)?),
        None => Ok(None),
    }
}

fn level_of(w: &Writer, number: usize) -> u8 {
    match w.copies.get(number) {
        Some(copy) => copy.level,
        None => 0,
    }
}

/// Puts the CALL. Limit where the calls within it are too many together with those around it.
fn put_call(w: &mut Writer, number: usize) -> Result<(), CompileError> {
    let level = level_of(w, number);
    if w.active.len().saturating_add(usize::from(level)) > MOST_CALLS {
        return Err(CompileError::Fault(CompileFaultKind::Limit));
    }
    let Ok(procedure) = u16::try_from(number) else {
        return Err(CompileError::Fault(CompileFaultKind::Copies));
    };
    w.work.block.put(Instr::Flow(FlowInstr::Call(procedure)))?;
    w.work.level = w.work.level.max(level.saturating_add(1));
    if let Some(state) = known_behind(w, number)? {
        w.work.block.state = state;
    }
    Ok(())
}

/// Hands the arguments over to a procedure. Gives the variables that it sees, and the slots that are its own.
fn handed_to(
    programs: &[Program],
    w: &mut Writer,
    target: Target,
    arguments: &[Expr],
) -> Result<(Names, Vec<u8>), CompileError> {
    let Handed { slots, own } = hand_all_over(w, arguments)?;
    let (variables, _) = parameters(target.commands(programs));
    let names = names_in(w, variables, &slots)?;
    Ok((names, own))
}

/// The number of a copy that is to be begun. None where there is one for these names and what is known here: the call
/// is put.
fn new_copy(w: &mut Writer, target: Target, names: &Names) -> Result<Option<usize>, CompileError> {
    match copy_for(w, target, names) {
        Some(number) => {
            put_call(w, number)?;
            Ok(None)
        }
        None => Ok(Some(next_copy(w)?)),
    }
}

/// Hands the arguments over, and begins a copy. False where there is one already, and the whole call is put.
fn is_begun(
    programs: &[Program],
    w: &mut Writer,
    target: Target,
    arguments: &[Expr],
) -> Result<bool, CompileError> {
    let (names, own) = handed_to(programs, w, target, arguments)?;
    match new_copy(w, target, &names)? {
        Some(number) => {
            begin_copy(w, number, target, names, own)?;
            Ok(true)
        }
        None => Ok(false),
    }
}

/// `DO procedure [WITH arguments]`: begins a copy of the procedure. None where there is one already, and the whole call
/// is put.
pub(crate) fn open_call(
    programs: &[Program],
    w: &mut Writer,
    procedure: &Name,
    arguments: &[Expr],
) -> Result<Option<Target>, CompileError> {
    let target = target_of(programs, w, procedure, arguments.len())?;
    if is_begun(programs, w, target, arguments)? {
        Ok(Some(target))
    } else {
        Ok(None)
    }
}

/// Ends the copy that was begun last, and puts the call.
pub(crate) fn close_call(w: &mut Writer) -> Result<(), CompileError> {
    let Some(copy) = w.calls.pop() else {
        return Ok(());
    };
    let OpenCopy { number, before } = copy;
    end_copy(w, number, before);
    put_call(w, number)
}
