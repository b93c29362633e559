//! What is known at a label, in little room.

ghost use Rattle.std.specs.Prelude.{◌≡◌, ◌==◌, true, None, IfOk};
ghost use Rattle.code_items.specs.declared.desk.AreaState.TheVariants.{Closed};
ghost use Rattle.prg_code.specs.Remembering.{AreAllBut, Remembers, filled_up, desk_remembered, state_remembered};

use code_items::{AreaState, Desk, Items, KindSlots, KindStack, State};
use std::alloc::{AllocError, Global};
use xvalue::Kind;

/// The work areas that there are.
const AREAS: usize = 10;

/// What is known at a place with an empty stack. Work areas behind the last one that isn't closed aren't kept, nor
/// slots behind the last one of which something is known.
#[derive(Drop)]
pub struct Seen {
    selected: u8,
    areas: Vec<AreaState>,
    kinds: Vec<Option<Kind>>,
}

fn is_closed(area: AreaState) -> bool
    ensures { result ≡ true → area ≡ Closed }
{
    matches!(area, AreaState::Closed)
}

/// The work areas without those at the end that are closed.
#[tactic(auto, using(crate::proofs::Remembering::all_kept))]
fn areas_to_keep(areas: &[AreaState]) -> &[AreaState]
    ensures { AreAllBut Closed result.now areas.now }
{
    let mut kept = areas;
    while let Some((last, others)) = kept.split_last() {
        if !is_closed(*last) {
            return kept;
        }
        kept = others;
    }
    kept
}

fn kept_areas(alloc: Global, areas: &[AreaState]) -> Result<Vec<AreaState>, AllocError>
    ensures { IfOk result (λ kept. AreAllBut Closed kept.items areas.now) }
{
    Vec::from_slice(alloc, areas_to_keep(areas))
}

fn is_unknown(kind: Option<Kind>) -> bool
    ensures { result ≡ true → kind ≡ None }
{
    kind.is_none()
}

/// The slots without those at the end of which nothing is known.
#[tactic(auto, using(crate::proofs::Remembering::all_kept))]
fn slots_to_keep(kinds: &[Option<Kind>]) -> &[Option<Kind>]
    ensures { AreAllBut None result.now kinds.now }
{
    let mut kept = kinds;
    while let Some((last, others)) = kept.split_last() {
        if !is_unknown(*last) {
            return kept;
        }
        kept = others;
    }
    kept
}

fn kept_slots(alloc: Global, kinds: &[Option<Kind>]) -> Result<Vec<Option<Kind>>, AllocError>
    ensures { IfOk result (λ kept. AreAllBut None kept.items kinds.now) }
{
    Vec::from_slice(alloc, slots_to_keep(kinds))
}

/// What is known of so many slots, of the others nothing.
fn all_slots(
    alloc: Global,
    kinds: &[Option<Kind>],
    slots: usize,
) -> Result<Vec<Option<Kind>>, AllocError>
    ensures { IfOk result (λ all. all.items ≡ filled_up None slots kinds.now) }
{
    let mut all = Vec::from_slice(alloc, kinds)?;
    all.resize(slots, None)?;
    Ok(all)
}

impl Seen {
    /// What is known in this state, whose stack is empty.
    pub fn of(alloc: Global, state: &State) -> Result<Seen, AllocError>
        ensures { IfOk result (λ seen. Remembers seen state.now) }
    {
        let areas = kept_areas(alloc, state.desk.areas.as_slice())?;
        let kinds = kept_slots(alloc, state.slots.kinds())?;
        Ok(Seen {
            selected: state.desk.selected,
            areas,
            kinds,
        })
    }

    /// Whether this work area is selected.
    pub fn selects(&self, area: u8) -> bool
        ensures { result ≡ (self.now.selected == area) }
    {
        self.selected == area
    }

    /// What is known of the work areas.
    pub fn desk(&self, alloc: Global) -> Result<Desk, AllocError>
        ensures { IfOk result (λ desk. desk ≡ desk_remembered self.now) }
    {
        let mut areas = Vec::from_slice(alloc, &self.areas)?;
        areas.resize(AREAS, AreaState::Closed)?;
        Ok(Desk {
            selected: self.selected,
            areas: Items::of(areas),
        })
    }

    /// What is known, with so many slots.
    pub fn state(&self, alloc: Global, slots: usize) -> Result<State, AllocError>
        ensures { IfOk result (λ state. state ≡ state_remembered self.now slots) }
    {
        let kinds = all_slots(alloc, &self.kinds, slots)?;
        let desk = self.desk(alloc)?;
        Ok(State {
            desk,
            slots: KindSlots::of(kinds),
            stack: KindStack::of(Vec::new(alloc)),
        })
    }
}
