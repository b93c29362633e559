//! The ten work areas as tests see them, filled anew without taking memory.

ghost use Rattle.std.specs.Prelude.{◌≡◌, ◌≤◌, length, IfOk};
ghost use Rattle.code_rules.specs.Places.{filter_desk};
ghost use Rattle.run_steps.specs.World.{area_state, desk_of};
ghost use Rattle.tagged_machine.specs.Seen.{LeavesStore, ten_closed};
ghost use Rattle.work_area.specs.Areas.{use_at, StoreState};

use code_items::{AreaState, Desk, Instr, Items, OpenArea};
use key_lists::KeyList;
use std::alloc::{AllocError, Global};
use std::marker::Model;
use work_area::Store;

/// The selected work area and the ten work areas, each closed or open.
#[derive(Drop)]
pub struct TenAreas {
    desk: Desk,
}

impl Model for TenAreas {
    ghost use Rattle.std.specs.Prelude.{◌≡◌, length};
    ghost use Rattle.code_items.specs.declared.desk.Desk.{Desk as AnyDesk};

    ghost Value = { AnyDesk };

    ghost view = { λ a. a.desk };

    ghost invariant = { λ a. length a.desk.areas ≡ 10 };
}

/// What an area, 1 to 10, holds, as tests see it.
fn area_seen<K: KeyList>(store: &Store<K>, area: u8) -> AreaState
    requires first { 1 ≤ area }
    requires last { area ≤ 10 }
    ensures { result ≡ area_state store.now.tables (use_at store.now area) }
{
    match store.use_of(area) {
        Some(used) => AreaState::Open(OpenArea {
            table: used.table,
            list: used.list,
            order: u16::from(store.order_of(area)),
            filter: used.filter,
        }),
        None => AreaState::Closed,
    }
}

impl TenAreas {
    /// Ten closed areas.
    pub fn new(alloc: Global) -> Result<TenAreas, AllocError>
        ensures { IfOk result (λ areas. areas ≡ ten_closed) }
    {
        let closed = [AreaState::Closed; 10];
        Ok(TenAreas {
            desk: Desk {
                selected: 1,
                areas: Items::of(Vec::from_slice(alloc, &closed)?),
            },
        })
    }

    /// The areas as they are.
    pub fn desk(&self) -> &Desk
        ensures { result.now ≡ self.now }
    {
        &self.desk
    }

    /// Shows the areas of a store.
    pub fn show<K: KeyList>(&mut self, store: &Store<K>)
        requires { length store.now.areas ≡ 10 }
        ensures { self.new ≡ desk_of store.now }
    {
        self.desk.selected = store.selected();
        for number in 0..10 {
            self.desk
                .areas
                .set(usize::from(number), area_seen(store, number + 1));
        }
    }

    /// Shows the areas of a store behind an instruction, before which they were shown.
    pub fn follow<K: KeyList>(&mut self, store: &Store<K>, instr: Instr)
        requires { length store.now.areas ≡ 10 }
        ensures { (before : StoreState) → self.old ≡ desk_of before → LeavesStore instr before store.now
            → self.new ≡ desk_of store.now }
    {
        match instr {
            Instr::Values(_) | Instr::Flow(_) | Instr::Screen(_) => {}
            Instr::Areas(_) | Instr::Moves(_) | Instr::Records(_) => self.show(store),
        }
    }

    /// Shows area 1 with a table, counted from 0, without list, order and filter, and all others closed.
    pub fn show_table(&mut self, table: u16)
        ensures { self.new ≡ filter_desk table }
    {
        self.desk.close_all();
        self.desk.set_selected(AreaState::Open(OpenArea {
            table,
            list: 0,
            order: 0,
            filter: 0,
        }));
    }
}
