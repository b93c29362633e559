//! Rules on jumps, falls, calls, returns and filters.

ghost use Rattle.std.specs.Prelude.{◌≡◌, slice_get};
ghost use Rattle.std.specs.Option.{option_copied};
ghost use Rattle.std.specs.List.{list_any};
ghost use Rattle.code_rules.specs.Rules.{is_outside as is_outside_of, jump_fails as jump_fails_of};
ghost use Rattle.code_rules.specs.Rules.{is_filters as is_filters_of, runs_over as runs_over_of};
ghost use Rattle.code_rules.specs.Rules.{fall_fails as fall_fails_of, level_of as level_of_procedure, not_below};
ghost use Rattle.code_rules.specs.Rules.{level_fails as level_fails_of, not_covered, covers as covers_of};
ghost use Rattle.code_rules.specs.Rules.{exit_fails as exit_fails_of, lacks as lacks_of};
ghost use Rattle.code_rules.specs.Rules.{filter_lacks as filter_lacks_of, moves_blindly as moves_blindly_of};
ghost use Rattle.code_rules.specs.Rules.{leaves_truth as is_truth_of, ends_untrue as ends_untrue_of};
ghost use Rattle.code_rules.specs.Rules.{filter_fails as filter_fails_of, returns as returns_of};
ghost use Rattle.xverify.specs.Told.{place_told, IsPlace};

use crate::covering::unknown;
use crate::here::Here;
use crate::stacks::kind_at;
use code_items::declared::{Filter, Need};
use code_items::{Code, Declared, FlowInstr, Instr, KindStack, State};
use code_rules::Signature;
use code_rules::blocks::{Block, map_at};
use code_rules::filters::{filters, is_rows};
use code_rules::signature::{called, target};
use code_rules::slots::lacks as lacks_kind;
use xvalue::Kind;

fn is_outside(block: Block, place: usize) -> bool
    ensures { result ≡ is_outside_of block place }
{
    place < block.first || block.end <= place
}

/// Whether it jumps out of its block, or to a place without a map.
pub fn jump_fails(h: &Here) -> bool
    requires { IsPlace h.now }
    ensures { result ≡ jump_fails_of h.now.code.now (place_told h.now) }
{
    match target(h.instr) {
        Some(place) => {
            is_outside(h.block, place as usize) || map_at(h.code, place as usize).is_none()
        }
        None => false,
    }
}

fn is_filters(code: &Code, block: Block) -> bool
    ensures { result ≡ is_filters_of code.now block }
{
    code.procedures.len() <= block.number
}

fn runs_over(h: &Here) -> bool
    requires { IsPlace h.now }
    ensures { result ≡ runs_over_of h.now.code.now (place_told h.now) }
{
    if Signature::of(h.instr).falls {
        h.block.end <= h.place + 1
    } else {
        h.place + 1 < h.block.end && map_at(h.code, h.place + 1).is_none()
    }
}

/// Whether a procedure's end is run over, or a place of it is behind an instruction that doesn't go on there and has no
/// map.
pub fn fall_fails(h: &Here) -> bool
    requires { IsPlace h.now }
    ensures { result ≡ fall_fails_of h.now.code.now (place_told h.now) }
{
    !is_filters(h.code, h.block) && runs_over(h)
}

fn level_of(code: &Code, number: usize) -> u8
    ensures { result ≡ level_of_procedure (slice_get code.now.procedures number) }
{
    match code.procedures.as_slice().get(number) {
        Some(procedure) => procedure.level,
        None => 0,
    }
}

fn is_not_below(code: &Code, level: u8, number: u16) -> bool
    ensures { result ≡ not_below level (slice_get code.now.procedures number) }
{
    match code.procedures.as_slice().get(usize::from(number)) {
        Some(procedure) => level <= procedure.level,
        None => false,
    }
}

/// Whether a procedure calls one whose level isn't below its own.
pub fn level_fails(h: &Here) -> bool
    ensures { result ≡ level_fails_of h.now.code.now (place_told h.now) }
{
    if is_filters(h.code, h.block) {
        return false;
    }
    match called(h.instr) {
        Some(number) => is_not_below(h.code, level_of(h.code, h.block.number), number),
        None => false,
    }
}

fn covers(map: &State, state: &State) -> bool
    ensures { result ≡ covers_of map.now state.now }
{
    state.slots.is_covered_by(&map.slots)
        && state.desk.is_covered_by(&map.desk)
        && state.stack.is_covered_by(&map.stack, 0)
}

fn returns(instr: Instr) -> bool
    ensures { result ≡ returns_of instr }
{
    matches!(instr, Instr::Flow(FlowInstr::Return))
}

fn is_not_covered(code: &Code, number: usize, state: &State) -> bool
    ensures { result ≡ not_covered (slice_get code.now.procedures number) state.now }
{
    match code.procedures.as_slice().get(number) {
        Some(procedure) => !covers(&procedure.exit, state),
        None => false,
    }
}

/// Whether a procedure returns from another state than its exit state covers.
pub fn exit_fails(h: &Here) -> bool
    ensures { result ≡ exit_fails_of h.now.code.now (place_told h.now) }
{
    !is_filters(h.code, h.block)
        && returns(h.instr)
        && is_not_covered(h.code, h.block.number, h.before)
}

fn lacks(slots: &[Option<Kind>], need: Need) -> bool
    ensures { result ≡ lacks_of slots.now need }
{
    lacks_kind(need.kind, kind_at(slots, usize::from(need.slot)))
}

fn lacks_some(slots: &[Option<Kind>], needs: &[Need]) -> bool
    ensures { result ≡ list_any (lacks_of slots.now) needs.now }
{
    needs.iter().any(|need| lacks(slots, *need))
}

fn filter_lacks(slots: &[Option<Kind>], filter: Option<&Filter>) -> bool
    ensures { result ≡ filter_lacks_of slots.now (option_copied filter.entry) }
{
    match filter {
        Some(filter) => lacks_some(slots, filter.needs.as_slice()),
        None => false,
    }
}

fn moves_blindly(declared: &Declared, state: &State, instr: Instr) -> bool
    ensures { result ≡ moves_blindly_of declared.now state.now instr }
{
    if !Signature::of(instr).moves {
        return false;
    }
    match state.desk.selected_area() {
        Some(area) => filter_lacks(state.slots.kinds(), declared.filter(area.filter)),
        None => false,
    }
}

fn is_truth(unknown: usize, stack: &KindStack) -> bool
    ensures { result ≡ is_truth_of unknown stack.now }
{
    if 0 < unknown {
        return stack.len() == 0;
    }
    stack.is_one(Kind::Logical)
}

fn ends_untrue(h: &Here) -> bool
    requires { IsPlace h.now }
    ensures { result ≡ ends_untrue_of h.now.code.now (place_told h.now) }
{
    h.block.end == h.place + 1 && !is_truth(unknown(h), &h.after.stack)
}

/// In a filter's block: whether it has an instruction that it may not have, or doesn't leave just a truth value. In a
/// procedure: whether it moves under a filter whose needs aren't met, or reads a field of the row tried.
pub fn filter_fails(h: &Here) -> bool
    requires { IsPlace h.now }
    ensures { result ≡ filter_fails_of h.now.code.now (place_told h.now) }
{
    if is_filters(h.code, h.block) {
        !filters(h.instr) || ends_untrue(h)
    } else {
        moves_blindly(&h.code.declared, h.before, h.instr) || is_rows(h.instr)
    }
}
