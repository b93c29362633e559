//! The whole compiler.

ghost use Rattle.std.specs.Prelude.{◌≡◌, ◌<◌, None, Some, length, slice_get, IfOk, IfSome};
ghost use Rattle.prg_compile.specs.Alone.{IsCompilable};
ghost use Rattle.prg_compile.specs.Alone.{IsLaidAlone};
ghost use Rattle.met_areas.specs.Met.{AreasOfShape};

use crate::ways::areas_at;
use code_items::{Code, Shape};
use legal_code::LegalCode;
use met_areas::MetAreas;
use prg_code::{CompileFault, CompileFaultKind, CompileRefusal, DraftBlock, Names, Output, Work};
use prg_commands::{Target, put_main};
use prg_laid::{LayoutFault, judge};
use prg_parser::Program;
use prg_writer::{FaultList, NamedProcedures, ProcedureCopy, Writer, assemble, close_copy};
use std::alloc::{AllocError, Global};
use xverify::{Verified, VerifyError, verify};

/// The main procedure: the part of the first file before its first PROCEDURE.
const MAIN: Target = Target {
    file: 0,
    procedure: None,
};

/// The main procedure as the first copy, of which nothing is written yet.
fn begun<'a>(
    alloc: Global,
    programs: &[Program],
    shape: &'a Shape,
) -> Result<Writer<'a>, AllocError> {
    let procedures = NamedProcedures::of(alloc, programs)?;
    let block = DraftBlock::main(alloc)?;
    let work = Work::new(alloc, 0, true, block, Names::new(alloc));
    with_main(Writer::new(alloc, shape, work, procedures))
}

fn with_main<'a>(w: Writer<'a>) -> Result<Writer<'a>, AllocError> {
    let mut w = w;
    let names = Names::new(w.alloc);
    w.open_copy(MAIN, names)?;
    Ok(w)
}

/// Writes the main procedure, and with it all that it reaches. At a fault the writer stands at the faulty command.
/// Faults are listed, where there is a list for them.
fn write_main(w: &mut Writer, programs: &[Program]) -> Result<(), CompileRefusal> {
    let (list, last) = (MAIN.commands(programs), MAIN.last_line(programs));
    match put_main(w, w.alloc, programs, list, last) {
        Ok(()) => Ok(()),
        Err(error) => Err(w.refused(error)),
    }
}

/// All that is written, and the variables of the main procedure.
#[derive(Drop)]
struct Written {
    out: Output,
    copies: Vec<ProcedureCopy>,
    names: Names,
}

/// What a writer has written that ended the main procedure.
fn all_written(w: Writer) -> Written {
    let Writer {
        out,
        work,
        copies,
        ..
    } = w;
    let mut copies = copies;
    let names = close_copy(&mut copies, 0, work);
    Written { out, copies, names }
}

/// Why the code as a whole is refused.
fn whole(kind: CompileFaultKind) -> CompileRefusal {
    CompileRefusal::Fault(CompileFault {
        file: 0,
        line: 0,
        kind,
    })
}

/// Limit where a single file without procedures isn't laid out in the code as its commands say. No such file is known.
fn judged(
    alloc: Global,
    code: &LegalCode,
    programs: &[Program],
    names: &Names,
) -> Result<(), CompileRefusal>
    ensures { IfOk result (λ _. IsLaidAlone code.now programs.now) }
{
    let [program] = programs else {
        return Ok(());
    };
    if !program.procedures.is_empty() {
        return Ok(());
    }
    match judge(alloc, code, names, &program.main) {
        Ok(()) => Ok(()),
        Err(LayoutFault::Otherwise) => Err(whole(CompileFaultKind::Limit)),
        Err(LayoutFault::NoMemory) => Err(CompileRefusal::NoMemory),
    }
}

/// Limit where the code isn't legal.
fn legal(code: Code) -> Result<LegalCode, CompileRefusal>
    ensures { IfOk result (λ legal. legal ≡ code) }
{
    match LegalCode::tested(code) {
        Some(legal) => Ok(legal),
        None => Err(whole(CompileFaultKind::Limit)),
    }
}

fn accepted_by_verifier(alloc: Global, code: LegalCode) -> Result<Verified, CompileRefusal>
    ensures { IfOk result (λ verified. verified ≡ code) }
{
    match verify(alloc, code) {
        Ok(verified) => Ok(verified),
        Err(VerifyError::Refused(_)) => Err(whole(CompileFaultKind::Limit)),
        Err(VerifyError::NoMemory) => Err(CompileRefusal::NoMemory),
    }
}

fn accepted(
    alloc: Global,
    code: Code,
    programs: &[Program],
    names: &Names,
) -> Result<Verified, CompileRefusal>
    ensures same { IfOk result (λ verified. verified ≡ code) }
    ensures laid { IfOk result (λ verified. IsLaidAlone verified programs.now) }
{
    let code = legal(code)?;
    judged(alloc, &code, programs, names)?;
    accepted_by_verifier(alloc, code)
}

/// The written blocks put together as a code for tables and indexes of this shape. (Apart from `finished`, so that what
/// is written is freed before the code is judged.)
fn assembled(
    alloc: Global,
    shape: &Shape,
    out: Output,
    copies: Vec<ProcedureCopy>,
) -> Result<Code, CompileRefusal>
    ensures { IfOk result (λ code. code.declared.shape ≡ shape.now) }
{
    assemble(alloc, shape, &out, copies)
}

/// What is written as a code for tables and indexes of this shape, judged and verified.
fn finished(
    alloc: Global,
    written: Written,
    programs: &[Program],
    shape: &Shape,
) -> Result<Verified, CompileRefusal>
    ensures shape { IfOk result (λ verified. verified.declared.shape ≡ shape.now) }
    ensures laid { IfOk result (λ verified. IsLaidAlone verified programs.now) }
{
    let Written { out, copies, names } = written;
    let code = assembled(alloc, shape, out, copies)?;
    accepted(alloc, code, programs, &names)
}

/// The code of command files for tables and indexes of this shape; the first file is the main one. The code is accepted
/// by the verifier, and a single file without procedures is laid out in it as its commands say.
///
/// # Errors
///
/// The first fault in the order of the commands, with its line and the number of its file. Where there is no other
/// fault and the code is too large, Limit at the first command whose code has no room, in the order in which code is
/// laid out. Want of memory.
pub fn compile(
    alloc: Global,
    programs: &[Program],
    shape: &Shape,
) -> Result<Verified, CompileRefusal>
    requires programs { 0 < length programs.now }
    // The code is for the tables and indexes that are declared.
    ensures shape { IfOk result (λ verified. verified.declared.shape ≡ shape.now) }
    // A single file without procedures is laid out as its commands say.
    ensures laid { IfOk result (λ verified. IsLaidAlone verified programs.now) }
{
    let mut w = begun(alloc, programs, shape)?;
    write_main(&mut w, programs)?;
    finished(alloc, all_written(w), programs, shape)
}

/// The fault that is told, and these behind it.
fn told_first(
    alloc: Global,
    told: CompileFault,
    others: &[CompileFault],
) -> Result<Vec<CompileFault>, AllocError>
    ensures { IfOk result (λ faults. slice_get faults.items 0 ≡ Some told) }
{
    let mut faults = Vec::new(alloc);
    faults.push(told)?;
    faults.extend_from_slice(others)?;
    Ok(faults)
}

/// The faults behind the one that `compile` tells.
fn further(
    alloc: Global,
    programs: &[Program],
    shape: &Shape,
    told: CompileFault,
) -> Result<Vec<CompileFault>, CompileRefusal> {
    let mut w = begun(alloc, programs, shape)?;
    w.listed = Some(FaultList::behind(alloc, told)?);
    write_main(&mut w, programs)?;
    Ok(listed(w))
}

/// The faults that a writer has listed.
fn listed(w: Writer) -> Vec<CompileFault>
    ensures { IfSome w.entry.listed (λ list. result.items ≡ list.others) }
{
    let Writer { alloc, listed, .. } = w;
    match listed {
        Some(list) => list.into_faults(),
        None => Vec::new(alloc),
    }
}

/// The fault that `compile` tells, and those behind it.
fn all_faults(
    alloc: Global,
    programs: &[Program],
    shape: &Shape,
    told: CompileFault,
) -> Result<Vec<CompileFault>, AllocError>
    ensures { IfOk result (λ faults. slice_get faults.items 0 ≡ Some told) }
{
    match further(alloc, programs, shape, told) {
        Ok(others) => told_first(alloc, told, &others),
        Err(CompileRefusal::Fault(_)) => told_first(alloc, told, &[]),
        Err(CompileRefusal::NoMemory) => Err(AllocError),
    }
}

/// The faults for which command files aren't compiled, one of each line: first the one that `compile` tells, then those
/// that are found behind it, in the order in which code is written. Nothing of a faulty command is written then, a
/// faulty condition counts as .T., and ways that don't fit together meet all the same; so a line may be faulty only
/// because an earlier one is. None where `compile` answers a code.
///
/// # Errors
///
/// Want of memory.
pub fn find_faults(
    alloc: Global,
    programs: &[Program],
    shape: &Shape,
) -> Result<Vec<CompileFault>, AllocError>
    requires programs { 0 < length programs.now }
    // Where there is no fault, there is a code that is accepted, for these tables and indexes.
    ensures faultless { IfOk result (λ faults. slice_get faults.items 0 ≡ None
        → IsCompilable shape.now programs.now) }
{
    match compile(alloc, programs, shape) {
        Ok(_verified) => Ok(Vec::new(alloc)),
        Err(CompileRefusal::Fault(told)) => all_faults(alloc, programs, shape, told),
        Err(CompileRefusal::NoMemory) => Err(AllocError),
    }
}

/// The work areas at the first faulty command, as far as they are known there. None where no command is faulty: where
/// `compile` answers a code, or refuses the code as a whole.
///
/// # Errors
///
/// Want of memory.
pub fn areas_at_fault(
    alloc: Global,
    programs: &[Program],
    shape: &Shape,
) -> Result<Option<MetAreas>, AllocError>
    requires programs { 0 < length programs.now }
    // Tables go by the names that are declared.
    ensures told { IfOk result (λ found. IfSome found (AreasOfShape shape.now)) }
{
    let mut w = begun(alloc, programs, shape)?;
    areas_written_to(&mut w, programs, shape)
}

/// The same of this writer, of which nothing is written yet.
fn areas_written_to(
    w: &mut Writer,
    programs: &[Program],
    shape: &Shape,
) -> Result<Option<MetAreas>, AllocError>
    ensures { IfOk result (λ found. IfSome found (AreasOfShape shape.now)) }
{
    match write_main(w, programs) {
        Ok(()) => Ok(None),
        Err(CompileRefusal::Fault(fault)) => Ok(Some(areas_at(w, shape, fault.kind)?)),
        Err(CompileRefusal::NoMemory) => Err(AllocError),
    }
}
