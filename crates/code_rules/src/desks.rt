//! Tests of the work areas.

ghost use Rattle.std.specs.Prelude.{◌≡◌, is_none};
ghost use Rattle.code_items.specs.Desks.{open_at};
ghost use Rattle.code_rules.specs.Signature.{area_of};
ghost use Rattle.code_rules.specs.Rules.{fails_if_named, is_other_list as is_other_list_of};
ghost use Rattle.code_rules.specs.Rules.{is_other_filter as is_other_filter_of, declares_table as has_table_of};
ghost use Rattle.code_rules.specs.Rules.{is_no_index as is_no_index_of, record_is_other as record_is_other_of};
ghost use Rattle.code_rules.specs.Rules.{order_fails as order_fails_of, may_hold as may_hold_of};
ghost use Rattle.code_rules.specs.Rules.{others_hold as others_hold_of, opens_twice as opens_twice_of};

use crate::signature::area;
use code_items::{AreaInstr, AreaState, Declared, Desk, Instr, MoveInstr, RecordInstr};

/// Whether the work area that has to be open isn't known to be.
pub fn is_closed(desk: &Desk, instr: Instr) -> bool
    ensures { result ≡ fails_if_named (λ n. is_none (open_at desk.now n)) (area_of desk.now instr) }
{
    match area(desk, instr) {
        Some(number) => desk.open_at(number).is_none(),
        None => false,
    }
}

/// Whether there is such a list, counted from 1, and it is of another table than this one, counted from 0.
pub fn is_other_list(declared: &Declared, table: u16, list: u32) -> bool
    ensures { result ≡ is_other_list_of declared.now table list }
{
    !declared.list(list).is_none() && !declared.is_list_of(table, list)
}

/// Whether there is such a filter, counted from 1, and it is of another table than this one, counted from 0.
pub fn is_other_filter(declared: &Declared, table: u16, filter: u16) -> bool
    ensures { result ≡ is_other_filter_of declared.now table filter }
{
    !declared.filter(filter).is_none() && !declared.is_filter_of(table, filter)
}

/// Whether the table, counted from 0, is declared.
pub fn has_table(declared: &Declared, table: u16) -> bool
    ensures { result ≡ has_table_of declared.now table }
{
    usize::from(table) < declared.shape.tables.len()
}

fn is_no_index(declared: &Declared, desk: &Desk, list: u16) -> bool
    ensures { result ≡ is_no_index_of declared.now desk.now list }
{
    if 1 < declared.opened(u32::from(list)) {
        return true;
    }
    match desk.selected_area() {
        Some(area) => is_other_list(declared, area.table, u32::from(list)),
        None => false,
    }
}

/// Whether INDEX names a list of several indexes, or of another table.
pub fn record_is_other(declared: &Declared, desk: &Desk, instr: RecordInstr) -> bool
    ensures { result ≡ record_is_other_of declared.now desk.now instr }
{
    match instr {
        RecordInstr::Index(list) => is_no_index(declared, desk, list),
        _ => false,
    }
}

/// Whether the work area has no such order, or none to seek by.
pub fn order_fails(declared: &Declared, desk: &Desk, instr: Instr) -> bool
    ensures { result ≡ order_fails_of declared.now desk.now instr }
{
    match instr {
        Instr::Areas(AreaInstr::Order(number)) => match desk.selected_area() {
            Some(area) => declared.opened(area.list) < usize::from(number),
            None => false,
        },
        Instr::Moves(MoveInstr::Seek) => match desk.selected_area() {
            Some(area) => area.order == 0,
            None => false,
        },
        _ => false,
    }
}

fn may_hold(table: u16, area: AreaState) -> bool
    ensures { result ≡ may_hold_of table area }
{
    match area {
        AreaState::Closed => false,
        AreaState::Open(open) => open.table == table,
        AreaState::Unsure => true,
    }
}

/// Whether another of these work areas than the selected one, counted from 1, holds the table, or may hold it.
pub fn others_hold(table: u16, selected: u8, areas: &[AreaState]) -> bool
    ensures { result ≡ others_hold_of table selected 1 areas.now }
{
    let mut number = 1u128;
    let mut rest = areas;
    while let Some((area, others)) = rest.split_first() {
        if !(number == u128::from(selected)) && may_hold(table, *area) {
            return true;
        }
        number += 1;
        rest = others;
    }
    false
}

/// Whether another work area than the selected one holds the table that is opened, or may hold it.
pub fn opens_twice(desk: &Desk, instr: Instr) -> bool
    ensures { result ≡ opens_twice_of desk.now instr }
{
    match instr {
        Instr::Areas(AreaInstr::Open { table, .. }) => {
            others_hold(table, desk.selected, desk.areas.as_slice())
        }
        _ => false,
    }
}
