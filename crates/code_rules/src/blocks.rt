//! The blocks of a code, its maps, and what is known where a block begins.

ghost use Rattle.std.specs.Prelude.{◌≡◌, ◌≤◌, ℕ, true, length, map, MatchOption, IfOk, None, Some, slice_get};
ghost use Rattle.code_items.specs.Legal.{maps_rise, IsCode};
ghost use Rattle.code_rules.specs.Places.{block_from, block_at as block_at_of, map_in, found_at, map_at as map_at_of};
ghost use Rattle.code_rules.specs.Places.{needed, filter_desk, filter_start as filter_start_of};
ghost use Rattle.code_rules.specs.Places.{nowhere as nowhere_at_all, start_of as start_of_block};

use code_items::declared::{Filter, Need};
use code_items::laws::legal_codes;
use code_items::{AreaState, Code, Desk, Items, KindSlots, KindStack, Map, OpenArea, Proc, State};
use std::alloc::{AllocError, Global};

/// A block: its number, counted from 0, the procedures' before the filters'; its first place, and the place behind its
/// last.
#[derive(Clone, Copy, PartialEq, Eq, Debug)]
pub struct Block {
    pub number: usize,
    pub first: usize,
    pub end: usize,
}

fn procedure_at(procedures: &[Proc], place: usize) -> Block
    requires { length procedures.now ≤ 256 }
    ensures block { result ≡ block_from 0 0 (map (λ p. p.length) procedures.now) place }
    ensures number { result.number ≤ 256 }
    ensures first { result.first ≤ 16777216 }
{
    let mut number = 0;
    let mut first = 0;
    let mut rest = procedures;
    while let Some((procedure, others)) = rest.split_first() {
        let end = first + usize::from(procedure.length);
        if place < end {
            return Block { number, first, end };
        }
        number += 1;
        first = end;
        rest = others;
    }
    Block {
        number,
        first,
        end: first,
    }
}

fn filter_at(from: Block, filters: &[Filter], place: usize) -> Block
    requires number { from.number ≤ 256 }
    requires first { from.first ≤ 16777216 }
    requires few { length filters.now ≤ 64 }
    ensures { result ≡ block_from from.number from.first (map (λ f. f.length) filters.now) place }
{
    let mut number = from.number;
    let mut first = from.first;
    let mut rest = filters;
    while let Some((filter, others)) = rest.split_first() {
        let end = first + usize::from(filter.length);
        if place < end {
            return Block { number, first, end };
        }
        number += 1;
        first = end;
        rest = others;
    }
    Block {
        number,
        first,
        end: first,
    }
}

/// The block that a place of a legal code is in.
#[tactic(auto, using(crate::proofs::BlockLists::block_of_both), unfolding(crate::specs::Places::block_at))]
pub fn block_at(code: &Code, place: usize) -> Block
    requires { IsCode code.now }
    ensures { result ≡ block_at_of code.now place }
{
    legal_codes();
    let block = procedure_at(code.procedures.as_slice(), place);
    if place < block.end {
        return block;
    }
    filter_at(block, code.declared.filters.as_slice(), place)
}

fn place_of(maps: &[Map], place: usize) -> usize
    requires { (places : ℕ) × (maps_rise 0 places maps.now ≡ true) }
    ensures { map_in maps.now place ≡ found_at place (slice_get maps.now result) }
{
    maps.partition_point(|map| usize::from(map.place) < place)
}

/// The map of a place of a legal code.
#[tactic(auto, unfolding(crate::specs::Places::map_at))]
pub fn map_at(code: &Code, place: usize) -> Option<&State>
    requires { IsCode code.now }
    ensures { MatchOption result (map_at_of code.now place ≡ None)
        (λ state. map_at_of code.now place ≡ Some state.now) }
{
    legal_codes();
    let maps = code.maps.as_slice();
    match maps.get(place_of(maps, place)) {
        Some(map) if usize::from(map.place) == place => Some(&map.state),
        _ => None,
    }
}

fn set_needs(slots: &mut KindSlots, needs: &[Need])
    ensures { slots.new ≡ needed needs.now slots.old }
{
    let mut rest = needs;
    while let Some((need, others)) = rest.split_first() {
        slots.set(usize::from(need.slot), Some(need.kind));
        rest = others;
    }
}

fn filter_areas(alloc: Global, table: u8) -> Result<Desk, AllocError>
    ensures { IfOk result (λ desk. desk ≡ filter_desk table) }
{
    let mut areas = Items::of(vec![in alloc; AreaState::Closed; 10]?);
    areas.set(
        0,
        AreaState::Open(OpenArea {
            table: u16::from(table),
            list: 0,
            order: 0,
            filter: 0,
        }),
    );
    Ok(Desk { selected: 1, areas })
}

fn filter_start(alloc: Global, slots: u16, filter: &Filter) -> Result<State, AllocError>
    ensures { IfOk result (λ state. state ≡ filter_start_of slots filter.now) }
{
    let desk = filter_areas(alloc, filter.table)?;
    let mut slots = KindSlots::of(vec![in alloc; None; usize::from(slots)]?);
    set_needs(&mut slots, filter.needs.as_slice());
    Ok(State {
        desk,
        slots,
        stack: KindStack::of(Vec::new(alloc)),
    })
}

fn nowhere(alloc: Global) -> State
    ensures { result ≡ nowhere_at_all }
{
    State {
        desk: Desk {
            selected: 0,
            areas: Items::of(Vec::new(alloc)),
        },
        slots: KindSlots::of(Vec::new(alloc)),
        stack: KindStack::of(Vec::new(alloc)),
    }
}

/// What is known where the block of this number begins, the procedures' blocks counted before the filters'.
#[tactic(auto, unfolding(crate::specs::Places::start_of))]
pub fn start_of(alloc: Global, code: &Code, number: usize) -> Result<State, AllocError>
    ensures { IfOk result (λ state. state ≡ start_of_block code.now number) }
{
    if let Some(procedure) = code.procedures.as_slice().get(number) {
        return procedure.entry.copied(alloc);
    }
    let filters = code.declared.filters.as_slice();
    match filters.get(number.saturating_sub(code.procedures.len())) {
        Some(filter) => filter_start(alloc, code.declared.slots, filter),
        None => Ok(nowhere(alloc)),
    }
}
