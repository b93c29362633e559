//! Whether the whole of a code is laid out as commands say.

ghost use Rattle.std.specs.Prelude.{◌≡◌, ◌+◌, ◌<◌, true, length, slice_get, Some, IfOk, IfSome};
ghost use Rattle.std.specs.List.{list_any};
ghost use Rattle.code_items.specs.Legal.{IsCode};
ghost use Rattle.code_rules.specs.Places.{instr_at, state_at, incoming_at, or_state, block_at as block_at_of};
ghost use Rattle.code_rules.specs.Places.{map_at as map_at_of};
ghost use Rattle.prg_laid.specs.Whole as spec;
ghost use Rattle.prg_laid.specs.Layout.{laying};
ghost use Rattle.prg_commands.specs.Commands.{WholeLaid};
ghost use Rattle.prg_parser.specs.Commands.{commands_of};

use crate::checker::Checker;
use crate::fault::{FoundLaid, LayoutFault, OTHERWISE};
use crate::known::KnownStates;
use crate::layout::Layout;
use code_items::code::places_of_blocks;
use code_items::laws::legal_codes;
use code_items::{Code, FlowInstr, Instr, Proc, State};
use code_rules::blocks::{Block, block_at, map_at, start_of};
use code_rules::flow::flow;
use legal_code::LegalCode;
use prg_code::{Names, Variable};
use prg_commands::put_main;
use prg_parser::Command;
use prg_values::Finished;
use std::alloc::{AllocError, Global};
use xverify::begun;

fn instr_of(code: &Code, place: usize) -> Instr
    ensures { result ≡ instr_at code.now place }
{
    match code.instructions.as_slice().get(place) {
        Some(instr) => *instr,
        None => Instr::Flow(FlowInstr::End),
    }
}

/// What is known before a place, given what flows into it.
fn settled(alloc: Global, code: &Code, place: usize, incoming: State) -> Result<State, AllocError>
    requires { IsCode code.now }
    ensures { IfOk result (λ state. state ≡ or_state (map_at_of code.now place) incoming) }
{
    match map_at(code, place) {
        Some(state) => state.copied(alloc),
        None => Ok(incoming),
    }
}

/// What flows into the next place, where this is known before a place. The place is one of the first `count`.
fn flowing(
    alloc: Global,
    code: &Code,
    count: usize,
    place: usize,
    state: &State,
) -> Result<State, AllocError>
    requires legal { IsCode code.now }
    requires known { state.now ≡ state_at code.now place }
    requires within { place < count }
    ensures { IfOk result (λ incoming. incoming ≡ incoming_at code.now (place + 1)) }
{
    let mut after = state.copied(alloc)?;
    flow(alloc, code, instr_of(code, place), &mut after)?;
    begun(alloc, code, place + 1, after)
}

/// What is known before each of the first so many places.
fn known_places(alloc: Global, code: &Code, count: usize) -> Result<KnownStates, AllocError>
    requires { IsCode code.now }
    ensures { IfOk result (λ known. spec.AreKnown code.now known) }
{
    let mut known = KnownStates::new(alloc);
    let mut incoming = start_of(alloc, code, block_at(code, 0).number)?;
    for place in 0..count {
        let state = settled(alloc, code, place, incoming)?;
        incoming = flowing(alloc, code, count, place, &state)?;
        known.push(state)?;
    }
    Ok(known)
}

/// Whether the block that holds the place begins at it, and is that of the filter of this number, counted from 0.
fn is_filter_block(code: &Code, place: usize, number: usize, block: Block) -> bool
    requires { block ≡ block_at_of code.now place }
    ensures { result ≡ true → spec.IsFilterBlock code.now number block }
{
    let procedures = code.procedures.len();
    block.first == place && block.number >= procedures && block.number - procedures == number
}

/// The blocks of the filters.
fn filter_blocks(alloc: Global, code: &Code) -> FoundLaid<Vec<Block>>
    requires { IsCode code.now }
    ensures { IfOk result (λ filters. spec.AreFilters code.now filters.items) }
{
    legal_codes();
    let mut filters = Vec::new(alloc);
    let mut first = places_of_blocks(code.procedures.as_slice());
    for number in 0..code.declared.filters.len() {
        let block = block_at(code, first);
        if !is_filter_block(code, first, number, block) {
            return Err(OTHERWISE);
        }
        first = block.end;
        filters.push(block)?;
    }
    Ok(filters)
}

fn has_slot(slot: u8, variable: &Variable) -> bool
    ensures { result ≡ spec.has_slot slot variable.now }
{
    variable.slot == slot
}

fn is_taken(slot: u8, variables: &[Variable]) -> bool
    ensures { result ≡ list_any (spec.has_slot slot) variables.now }
{
    variables.iter().any(|variable| has_slot(slot, variable))
}

/// Whether no two variables have one slot.
fn do_slots_differ(variables: &[Variable]) -> bool
    ensures { result ≡ spec.slots_differ variables.now }
{
    let mut rest = variables;
    while let Some((variable, others)) = rest.split_first() {
        if is_taken(variable.slot, others) {
            return false;
        }
        rest = others;
    }
    true
}

fn is_whole(l: &Layout, list: &[Command], length: usize) -> FoundLaid<()>
    ensures { IfOk result (λ _. WholeLaid (laying l.now) 0 (commands_of list.now) length) }
{
    let mut checker = Checker {
        layout: *l,
        place: 0,
    };
    put_main(&mut checker, l.alloc, &[], list, 0)?;
    if checker.place == length {
        Ok(())
    } else {
        Err(OTHERWISE)
    }
}

/// The main procedure.
fn main_of(code: &Code) -> Option<&Proc>
    ensures { IfSome result (λ main. slice_get code.now.procedures 0 ≡ Some main.now) }
{
    code.procedures.as_slice().get(0)
}

/// Ok if the main procedure of a legal code is laid out as the commands say, its variables in these slots.
fn demand_laid(alloc: Global, code: &LegalCode, names: &Names, list: &[Command]) -> FoundLaid<()>
    ensures { IfOk result (λ _. spec.IsLaid code.now names.now (commands_of list.now)) }
{
    let code = code.code();
    let Some(main) = main_of(code) else {
        return Err(OTHERWISE);
    };
    if !do_slots_differ(names.variables()) {
        return Err(OTHERWISE);
    }
    let length = usize::from(main.length);
    let known = known_places(alloc, code, length)?;
    let filters = filter_blocks(alloc, code)?;
    let layout = Layout {
        alloc,
        text: Finished {
            instrs: code.instructions.as_slice(),
            constants: code.declared.constants.as_slice(),
        },
        declared: &code.declared,
        names,
        known: &known,
        filters: &filters,
    };
    is_whole(&layout, list, length)
}

/// Says yes where the main procedure of a legal code is laid out as the commands say, its variables in these slots.
///
/// # Errors
///
/// `Otherwise` where it isn't, and where the commands call procedures or have parameters. Want of memory.
pub fn judge(
    alloc: Global,
    code: &LegalCode,
    names: &Names,
    list: &[Command],
) -> Result<(), LayoutFault>
    ensures { IfOk result (λ _. spec.IsLaid code.now names.now (commands_of list.now)) }
{
    demand_laid(alloc, code, names, list)?;
    Ok(())
}
