//! What is known where ways meet.

ghost use Rattle.std.specs.Prelude.{◌≡◌, ◌==◌, ◌↔◌, IsTrue, IfOk};
ghost use Rattle.prg_code.specs.Merging as spec;

use code_items::{AreaState, Desk, Items, KindSlots, KindStack, State, is_same_area};
use std::alloc::{AllocError, Global};
use xvalue::Kind;

/// What is known of a work area where ways meet: what both know, or else nothing.
fn merged_area(one: AreaState, two: AreaState) -> AreaState
    ensures { result ≡ spec.merged_area (one, two) }
{
    match (one, two) {
        (AreaState::Closed, AreaState::Closed) => AreaState::Closed,
        (AreaState::Open(a), AreaState::Open(b)) if is_same_area(a, b) => one,
        _ => AreaState::Unsure,
    }
}

/// What is known of a slot where ways meet: the kind that both know, or else nothing.
fn merged_kind(one: Option<Kind>, two: Option<Kind>) -> Option<Kind>
    ensures { result ≡ spec.merged_kind (one, two) }
{
    match (one, two) {
        (Some(a), Some(b)) if a.is(b) => one,
        _ => None,
    }
}

fn merged_areas(
    alloc: Global,
    one: &[AreaState],
    two: &[AreaState],
) -> Result<Vec<AreaState>, AllocError>
    ensures { IfOk result (λ areas. areas.items ≡ spec.merged_areas one.now two.now) }
{
    one.iter()
        .zip(two.iter())
        .map(|(a, b)| merged_area(*a, *b))
        .collect(alloc)
}

fn merged_kinds(
    alloc: Global,
    one: &[Option<Kind>],
    two: &[Option<Kind>],
) -> Result<Vec<Option<Kind>>, AllocError>
    ensures { IfOk result (λ kinds. kinds.items ≡ spec.merged_kinds one.now two.now) }
{
    one.iter()
        .zip(two.iter())
        .map(|(a, b)| merged_kind(*a, *b))
        .collect(alloc)
}

/// What is known where two ways meet on which the same work area is selected, with empty stacks: of each work area and
/// of each slot what both know.
pub fn merged(alloc: Global, one: &State, two: &State) -> Result<State, AllocError>
    ensures { IfOk result (λ state. state ≡ spec.merged_state one.now two.now) }
{
    let areas = merged_areas(alloc, one.desk.areas.as_slice(), two.desk.areas.as_slice())?;
    let kinds = merged_kinds(alloc, one.slots.kinds(), two.slots.kinds())?;
    Ok(State {
        desk: Desk {
            selected: one.desk.selected,
            areas: Items::of(areas),
        },
        slots: KindSlots::of(kinds),
        stack: KindStack::of(Vec::new(alloc)),
    })
}

/// Whether the same work area is selected.
pub fn is_selection_same(one: &State, two: &State) -> bool
    ensures { result ≡ (one.now.desk.selected == two.now.desk.selected) }
{
    one.desk.selected == two.desk.selected
}

fn are_areas_same(one: &[AreaState], two: &[AreaState]) -> bool
    ensures { IsTrue result ↔ (one.now ≡ two.now) }
{
    one == two
}

fn are_kinds_same(one: &[Option<Kind>], two: &[Option<Kind>]) -> bool
    ensures { IsTrue result ↔ (one.now ≡ two.now) }
{
    one == two
}

/// Whether the same is known, the stacks apart.
pub fn is_state_same(one: &State, two: &State) -> bool
    ensures { IsTrue result ↔ spec.KnowSame one.now two.now }
{
    is_selection_same(one, two)
        && are_areas_same(one.desk.areas.as_slice(), two.desk.areas.as_slice())
        && are_kinds_same(one.slots.kinds(), two.slots.kinds())
}
