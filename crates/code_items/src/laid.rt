//! States that a code file can hold.

ghost use Rattle.std.specs.Prelude.{◌≡◌, is_none};
ghost use Rattle.std.specs.List.{list_all};
ghost use Rattle.code_items.specs.States.{is_list_of, is_filter_of, opened_by, is_open};
ghost use Rattle.code_items.specs.States.{may_be_unsure as may_be_unsure_in};
ghost use Rattle.code_items.specs.States.{is_area_state, is_desk, is_state, is_closed as is_closed_area};
ghost use Rattle.code_items.specs.States.{is_state_of_start};

use crate::declared::{Declared, Version};
use crate::desk::{AreaState, Desk, OpenArea};
use crate::state::State;
use xvalue::Kind;

impl Declared {
    /// Whether the list of this number, counted from 1, is declared and of this table, counted from 0.
    pub fn is_list_of(&self, table: u16, list: u32) -> bool
        ensures { result ≡ is_list_of self.now table list }
    {
        match self.list(list) {
            Some(list) => match list.table(self.shape.indexes.as_slice()) {
                Some(number) => u16::from(number) == table,
                None => false,
            },
            None => false,
        }
    }

    /// Whether the filter of this number, counted from 1, is declared and of this table, counted from 0.
    pub fn is_filter_of(&self, table: u16, filter: u16) -> bool
        ensures { result ≡ is_filter_of self.now table filter }
    {
        match self.filter(filter) {
            Some(filter) => u16::from(filter.table) == table,
            None => false,
        }
    }

    /// How many indexes the list of this number, counted from 1, opens; none where there is no such list.
    pub fn opened(&self, list: u32) -> usize
        ensures { result ≡ opened_by self.now list }
    {
        match self.list(list) {
            Some(list) => list.indexes.len(),
            None => 0,
        }
    }

    fn is_open(&self, area: OpenArea) -> bool
        ensures { result ≡ is_open self.now area }
    {
        usize::from(area.table) < self.shape.tables.len()
            && (area.list == 0 || self.is_list_of(area.table, area.list))
            && usize::from(area.order) <= self.opened(area.list)
            && (area.filter == 0 || self.is_filter_of(area.table, area.filter))
    }

    fn is_area(&self, area: AreaState) -> bool
        ensures { result ≡ is_area_state self.now area }
    {
        match area {
            AreaState::Closed => true,
            AreaState::Open(open) => self.is_open(open),
            AreaState::Unsure => may_be_unsure(self.version),
        }
    }

    fn are_areas(&self, areas: &[AreaState]) -> bool
        ensures { result ≡ list_all (is_area_state self.now) areas.now }
    {
        areas.iter().all(|area| self.is_area(*area))
    }

    #[tactic(auto, unfolding(crate::specs::States::is_desk))]
    fn is_desk(&self, desk: &Desk) -> bool
        ensures { result ≡ is_desk self.now desk.now }
    {
        1 <= desk.selected
            && desk.selected <= 10
            && desk.areas.len() == 10
            && self.are_areas(desk.areas.as_slice())
    }

    /// Whether a code file that declares this can hold the state: one of ten work areas is selected, each open one
    /// holds what is declared, each slot is known of, and the stack is within the bound.
    #[tactic(auto, unfolding(crate::specs::States::is_state))]
    pub fn is_state(&self, state: &State) -> bool
        ensures { result ≡ is_state self.now state.now }
    {
        self.is_desk(&state.desk)
            && state.slots.len() == usize::from(self.slots)
            && state.stack.len() <= usize::from(self.stack_bound)
    }
}

/// Whether a state of a code of this version can have a work area of which nothing is known.
pub fn may_be_unsure(version: Version) -> bool
    ensures { result ≡ may_be_unsure_in version }
{
    match version {
        Version::One => false,
        Version::Two => true,
    }
}

fn is_closed(area: AreaState) -> bool
    ensures { result ≡ is_closed_area area }
{
    matches!(area, AreaState::Closed)
}

fn are_closed(areas: &[AreaState]) -> bool
    ensures { result ≡ list_all is_closed_area areas.now }
{
    areas.iter().all(|area| is_closed(*area))
}

fn are_free(slots: &[Option<Kind>]) -> bool
    ensures { result ≡ list_all is_none slots.now }
{
    slots.iter().all(|kind| kind.is_none())
}

impl State {
    /// Whether nothing is known: work area 1 is selected, all are closed, and each slot is free.
    pub fn is_blank(&self) -> bool
        ensures { result ≡ is_state_of_start self.now }
    {
        self.desk.selected == 1
            && are_closed(self.desk.areas.as_slice())
            && are_free(self.slots.kinds())
    }
}
