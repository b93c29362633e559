//! What is known of the work areas.

ghost use Rattle.std.specs.Prelude.{◌≡◌, IfOk};
ghost use Rattle.std.specs.List.{list_all, zip};
ghost use Rattle.code_items.specs.Desks.{same_area, area_covered, areas_covered, desk_covered, open_at};
ghost use Rattle.code_items.specs.Desks.{with_selected_area};
ghost use Rattle.code_items.specs.Desks.{all_closed};

use shape::Items;
use std::alloc::{AllocError, Global};

/// What an open work area holds. Its table is counted from 0. Its list of indexes and its filter are counted from 1,
/// and 0 is none. Its order is 0 for that of the records, and else one of the list's indexes, counted from 1.
#[derive(Clone, Copy, PartialEq)]
pub struct OpenArea {
    pub table: u16,
    pub list: u32,
    pub order: u16,
    pub filter: u16,
}

/// A work area: closed, open, or one of which nothing is known.
#[derive(Clone, Copy, PartialEq)]
pub enum AreaState {
    Closed,
    Open(OpenArea),
    Unsure,
}

/// The selected work area, counted from 1, and the ten work areas.
#[derive(Drop)]
pub struct Desk {
    pub selected: u8,
    pub areas: Items<AreaState>,
}

/// Whether both hold the same table, list, order and filter.
pub fn is_same_area(one: OpenArea, two: OpenArea) -> bool
    ensures { result ≡ same_area one two }
{
    one.table == two.table
        && one.list == two.list
        && one.order == two.order
        && one.filter == two.filter
}

fn is_area_covered(map: AreaState, there: AreaState) -> bool
    ensures { result ≡ area_covered (map, there) }
{
    match map {
        AreaState::Unsure => true,
        AreaState::Closed => matches!(there, AreaState::Closed),
        AreaState::Open(area) => match there {
            AreaState::Open(other) => is_same_area(area, other),
            AreaState::Closed | AreaState::Unsure => false,
        },
    }
}

#[tactic(auto, using(crate::proofs::PairLists::all_along, crate::proofs::PairLists::not_along))]
fn are_covered(map: &[AreaState], there: &[AreaState]) -> bool
    ensures { result ≡ areas_covered map.now there.now }
{
    map.len() == there.len() && are_all_covered(map, there)
}

fn are_all_covered(map: &[AreaState], there: &[AreaState]) -> bool
    ensures { result ≡ list_all area_covered (zip map.now there.now) }
{
    map.iter()
        .zip(there.iter())
        .all(|(one, two)| is_area_covered(*one, *two))
}

impl Desk {
    /// What is known of the work area of this number, counted from 1, if it is open.
    pub fn open_at(&self, area: u8) -> Option<OpenArea>
        ensures { result ≡ open_at self.now area }
    {
        if area < 1 {
            return None;
        }
        match self.areas.as_slice().get(usize::from(area - 1)) {
            Some(AreaState::Open(open)) => Some(*open),
            _ => None,
        }
    }

    /// What is known of the selected work area from now on. Nothing changes where no work area is selected.
    pub fn set_selected(&mut self, area: AreaState)
        ensures { self.new ≡ with_selected_area area self.old }
    {
        if 1 <= self.selected && usize::from(self.selected) <= self.areas.len() {
            self.areas.set(usize::from(self.selected - 1), area);
        }
    }

    /// What is known of the selected work area, if it is open.
    pub fn selected_area(&self) -> Option<OpenArea>
        ensures { result ≡ open_at self.now self.now.selected }
    {
        self.open_at(self.selected)
    }

    /// All work areas are closed from now on, and the first is selected.
    pub fn close_all(&mut self)
        ensures { self.new ≡ all_closed self.old }
    {
        self.selected = 1;
        for number in 0..self.areas.len() {
            self.areas.set(number, AreaState::Closed);
        }
    }

    /// Whether the map selects the same work area, and each of its areas is one of which nothing is known, or is as it
    /// is here.
    pub fn is_covered_by(&self, map: &Desk) -> bool
        ensures { result ≡ desk_covered map.now self.now }
    {
        map.selected == self.selected && are_covered(map.areas.as_slice(), self.areas.as_slice())
    }

    /// The same once more.
    pub fn copied(&self, alloc: Global) -> Result<Desk, AllocError>
        ensures { IfOk result (λ copy. copy ≡ self.now) }
    {
        Ok(Desk {
            selected: self.selected,
            areas: Items::of(Vec::from_slice(alloc, self.areas.as_slice())?),
        })
    }
}
