//! The finished code.

ghost use Rattle.std.specs.Prelude.{◌≡◌, IfOk};

use crate::shapes::copy_of_shape;
use crate::writer::ProcedureCopy;
use arrayvec::ArrayVec;
use code_items::{
    AreaState, Code, Declared, Filter, IndexList, Items, KindSlots, KindStack, Map, Proc, Shape,
    State, Version,
};
use prg_code::{
    CompileError, CompileFaultKind, CompileRefusal, Constant, FilterBlock, LaidOut, ListedIndexes,
    Output, lay, room_of,
};
use std::alloc::{AllocError, Global};
use xvalue::{Kind, Value};

fn first_kinds(kinds: &[Option<Kind>], slots: usize) -> &[Option<Kind>] {
    kinds.get(..slots).unwrap_or(kinds)
}

/// The same state, with so many slots and an empty stack.
fn trimmed(alloc: Global, state: &State, slots: usize) -> Result<State, AllocError> {
    let kinds = Vec::from_slice(alloc, first_kinds(state.slots.kinds(), slots))?;
    let desk = state.desk.copied(alloc)?;
    Ok(State {
        desk,
        slots: KindSlots::of(kinds),
        stack: KindStack::of(Vec::new(alloc)),
    })
}

/// A number that stands in two bytes, as all do where `LaidOut::fits`.
fn two_bytes(number: usize) -> Result<u16, CompileRefusal> {
    match u16::try_from(number) {
        Ok(number) => Ok(number),
        Err(_) => Err(CompileError::Fault(CompileFaultKind::Limit).at(0, 0)),
    }
}

fn exit_of(copy: &ProcedureCopy) -> &State {
    match &copy.exit {
        Some(exit) => exit,
        None => &copy.entry,
    }
}

/// Lays the copy's block behind what is laid out, and adds its procedure.
fn lay_copy(
    alloc: Global,
    laid: &mut LaidOut,
    procedures: &mut Vec<Proc>,
    copy: &ProcedureCopy,
    slots: usize,
) -> Result<(), CompileRefusal> {
    let first = laid.instrs.len();
    lay(alloc, laid, &copy.block, &copy.own, copy.target.file)?;
    let length = two_bytes(laid.instrs.len().saturating_sub(first))?;
    let entry = trimmed(alloc, &copy.entry, slots)?;
    let exit = trimmed(alloc, exit_of(copy), slots)?;
    procedures.push(Proc {
        length,
        level: copy.level,
        entry,
        exit,
    })?;
    Ok(())
}

/// Adds the procedures of the copies, each of which is freed once it is laid out.
fn lay_copies(
    alloc: Global,
    laid: &mut LaidOut,
    procedures: &mut Vec<Proc>,
    copies: Vec<ProcedureCopy>,
    slots: usize,
) -> Result<(), CompileRefusal> {
    for copy in copies {
        lay_copy(alloc, laid, procedures, &copy, slots)?;
    }
    Ok(())
}

/// How many instructions and maps the copies have together.
fn room_of_copies(copies: &[ProcedureCopy]) -> (usize, usize) {
    let mut instrs = 0usize;
    let mut maps = 0usize;
    for copy in copies {
        let (places, met) = room_of(&copy.block, copy.own.len());
        instrs = instrs.saturating_add(places);
        maps = maps.saturating_add(met);
    }
    (instrs, maps)
}

/// How many instructions the filters have together.
fn room_of_filters(filters: &[FilterBlock]) -> usize {
    let mut instrs = 0usize;
    for filter in filters {
        instrs = instrs.saturating_add(filter.block.len());
    }
    instrs
}

/// Nothing yet of a code with so many slots, with room for the copies and the filters.
fn begun(
    alloc: Global,
    copies: &[ProcedureCopy],
    filters: &[FilterBlock],
    slots: usize,
) -> Result<LaidOut, AllocError> {
    let (instrs, maps) = room_of_copies(copies);
    let all = instrs.saturating_add(room_of_filters(filters));
    LaidOut::new(alloc, slots, all, maps)
}

/// Lays the filter's block behind what is laid out, and adds it.
fn lay_filter(
    alloc: Global,
    laid: &mut LaidOut,
    filters: &mut Vec<Filter>,
    filter: &FilterBlock,
) -> Result<(), CompileRefusal> {
    laid.instrs.extend_from_slice(&filter.block)?;
    laid.fits(filter.at)?;
    let length = two_bytes(filter.block.len())?;
    filters.push(Filter {
        table: filter.table,
        length,
        needs: Items::of(Vec::from_slice(alloc, &filter.needs)?),
    })?;
    Ok(())
}

fn lay_filters(
    alloc: Global,
    laid: &mut LaidOut,
    filters: &mut Vec<Filter>,
    blocks: &[FilterBlock],
) -> Result<(), CompileRefusal> {
    for filter in blocks {
        lay_filter(alloc, laid, filters, filter)?;
    }
    Ok(())
}

fn copies_of_constants(alloc: Global, constants: &[Constant]) -> Result<Vec<Value>, AllocError>
    ensures { IfOk result (λ values. values.items ≡ constants.now) }
{
    let mut values = Vec::with_capacity(alloc, constants.len())?;
    for constant in constants {
        values.push(constant.value().copied())?;
    }
    Ok(values)
}

fn copies_of_lists(alloc: Global, lists: &[ListedIndexes]) -> Result<Vec<IndexList>, AllocError> {
    let mut copies = Vec::with_capacity(alloc, lists.len())?;
    for list in lists {
        let mut indexes = ArrayVec::new();
        indexes.try_extend_from_slice(list.as_slice()).unwrap();
        copies.push(IndexList { indexes })?;
    }
    Ok(copies)
}

fn is_unsure(area: AreaState) -> bool {
    matches!(area, AreaState::Unsure)
}

fn has_unsure(state: &State) -> bool {
    state
        .desk
        .areas
        .as_slice()
        .iter()
        .any(|area| is_unsure(*area))
}

fn some_proc_unsure(procedures: &[Proc]) -> bool {
    procedures.iter().any(|procedure| has_unsure(&procedure.entry) || has_unsure(&procedure.exit))
}

fn some_map_unsure(maps: &[Map]) -> bool {
    maps.iter().any(|map| has_unsure(&map.state))
}

/// The second version where something is unsure of a work area, or CENTURY is set.
fn version_of(century: bool, procedures: &[Proc], maps: &[Map]) -> Version {
    if century || some_proc_unsure(procedures) || some_map_unsure(maps) {
        Version::Two
    } else {
        Version::One
    }
}

/// The most values on the stack of a block.
fn bound_of(highest: usize, copies: &[ProcedureCopy]) -> usize {
    let mut bound = highest;
    for copy in copies {
        bound = bound.max(copy.block.highest);
    }
    bound
}

/// What a code declares.
fn declared_of(
    alloc: Global,
    version: Version,
    bound: usize,
    shape: &Shape,
    out: &Output,
    filters: Vec<Filter>,
) -> Result<Declared, CompileRefusal>
    ensures { IfOk result (λ declared. declared.shape ≡ shape.now) }
{
    let stack_bound = two_bytes(bound)?;
    let lists = copies_of_lists(alloc, out.lists.as_slice())?;
    let constants = copies_of_constants(alloc, out.pool.as_slice())?;
    let shape = copy_of_shape(alloc, shape)?;
    Ok(Declared {
        version,
        stack_bound,
        slots: out.slots,
        shape,
        lists: Items::of(lists),
        constants: Items::of(constants),
        filters: Items::of(filters),
    })
}

/// What is laid out of a code.
#[derive(Drop)]
struct Parts {
    laid: LaidOut,
    procedures: Vec<Proc>,
    filters: Vec<Filter>,
}

/// Nothing yet, with room for the copies and the filters.
fn no_parts(alloc: Global, out: &Output, copies: &[ProcedureCopy]) -> Result<Parts, AllocError> {
    let laid = begun(
        alloc,
        copies,
        out.filters.as_slice(),
        usize::from(out.slots),
    )?;
    let procedures = Vec::with_capacity(alloc, copies.len())?;
    Ok(Parts {
        laid,
        procedures,
        filters: Vec::new(alloc),
    })
}

/// Lays out the copies, and behind them the filters.
fn lay_all(
    alloc: Global,
    parts: &mut Parts,
    out: &Output,
    copies: Vec<ProcedureCopy>,
) -> Result<(), CompileRefusal> {
    let slots = usize::from(out.slots);
    lay_copies(alloc, &mut parts.laid, &mut parts.procedures, copies, slots)?;
    lay_filters(
        alloc,
        &mut parts.laid,
        &mut parts.filters,
        out.filters.as_slice(),
    )
}

/// The code of what is laid out.
fn code_of(
    alloc: Global,
    bound: usize,
    shape: &Shape,
    out: &Output,
    parts: Parts,
) -> Result<Code, CompileRefusal>
    ensures { IfOk result (λ code. code.declared.shape ≡ shape.now) }
{
    let Parts {
        laid,
        procedures,
        filters,
    } = parts;
    let version = version_of(out.century, &procedures, &laid.maps);
    let declared = declared_of(alloc, version, bound, shape, out, filters)?;
    let LaidOut { instrs, maps, .. } = laid;
    Ok(Code {
        declared,
        procedures: Items::of(procedures),
        maps: Items::of(maps),
        instructions: Items::of(instrs),
    })
}

/// The code of the copies and of what they have in common.
///
/// # Errors
///
/// Limit in the line of the first command whose code has no room. Want of memory.
pub fn assemble(
    alloc: Global,
    shape: &Shape,
    out: &Output,
    copies: Vec<ProcedureCopy>,
) -> Result<Code, CompileRefusal>
    ensures { IfOk result (λ code. code.declared.shape ≡ shape.now) }
{
    let bound = bound_of(out.highest, &copies);
    let mut parts = no_parts(alloc, out, &copies)?;
    lay_all(alloc, &mut parts, out, copies)?;
    code_of(alloc, bound, shape, out, parts)
}
