//! What an instruction leaves.

ghost use Rattle.std.specs.Prelude.{◌≡◌, OnOk, slice_get};
ghost use Rattle.code_items.specs.declared.desk.AreaState.TheVariants.{Open as IsOpen};
ghost use Rattle.code_rules.specs.Flow.{just_opened, ordered, filtered, in_list_order, on_selected, desk_after_area};
ghost use Rattle.code_rules.specs.Flow.{desk_after, slots_after as slots_after_of, left_by, exit_of, flow as flow_of};

use crate::kinds::gives;
use crate::signature::{Signature, called};
use code_items::{
    AreaInstr, AreaState, Code, Desk, Instr, KindSlots, OpenArea, RecordInstr, State, ValueInstr,
};
use std::alloc::{AllocError, Global};

fn opened(table: u16, list: u32) -> AreaState
    ensures { result ≡ IsOpen (just_opened table list) }
{
    AreaState::Open(OpenArea {
        table,
        list,
        order: if list == 0 { 0 } else { 1 },
        filter: 0,
    })
}

fn put_order(desk: &mut Desk, order: u16)
    ensures { desk.new ≡ on_selected (ordered order) desk.old }
{
    if let Some(area) = desk.selected_area() {
        desk.set_selected(AreaState::Open(OpenArea { order, ..area }));
    }
}

fn put_filter(desk: &mut Desk, filter: u16)
    ensures { desk.new ≡ on_selected (filtered filter) desk.old }
{
    if let Some(area) = desk.selected_area() {
        desk.set_selected(AreaState::Open(OpenArea { filter, ..area }));
    }
}

fn put_index(desk: &mut Desk, list: u16)
    ensures { desk.new ≡ on_selected (in_list_order list) desk.old }
{
    if let Some(area) = desk.selected_area() {
        desk.set_selected(AreaState::Open(OpenArea {
            list: u32::from(list),
            order: 1,
            ..area
        }));
    }
}

fn change_area(instr: AreaInstr, desk: &mut Desk)
    ensures { desk.new ≡ desk_after_area instr desk.old }
{
    match instr {
        AreaInstr::Open { table, list } => desk.set_selected(opened(table, list)),
        AreaInstr::Close => desk.set_selected(AreaState::Closed),
        AreaInstr::CloseAll => desk.close_all(),
        AreaInstr::Select(area) => desk.selected = area,
        AreaInstr::Order(order) => put_order(desk, order),
        AreaInstr::Filter(filter) => put_filter(desk, filter),
    }
}

/// Turns what is known of the work areas before the instruction, which calls no procedure, into what is known behind
/// it.
pub fn change_desk(instr: Instr, desk: &mut Desk)
    ensures { desk.new ≡ desk_after instr desk.old }
{
    match instr {
        Instr::Areas(instr) => change_area(instr, desk),
        Instr::Records(RecordInstr::Index(list)) => put_index(desk, list),
        _ => {}
    }
}

/// Turns what is known of the slots before the instruction, which calls no procedure, into what is known behind it.
pub fn change_slots(instr: Instr, slots: &mut KindSlots)
    ensures { slots.new ≡ slots_after_of instr slots.old }
{
    match instr {
        Instr::Values(ValueInstr::Store(kind, slot)) => slots.set(usize::from(slot), Some(kind)),
        Instr::Values(ValueInstr::Unset(slot)) => slots.set(usize::from(slot), None),
        _ => {}
    }
}

fn leave(code: &Code, instr: Instr, state: &mut State) -> Result<(), AllocError>
    ensures { OnOk result (state.new ≡ left_by code.now instr state.old) }
{
    let given = gives(&code.declared, &state.desk, instr);
    state.stack.drop_top(Signature::of(instr).taken);
    change_slots(instr, &mut state.slots);
    change_desk(instr, &mut state.desk);
    match given {
        Some(Some(kind)) => state.stack.push(kind),
        _ => Ok(()),
    }
}

fn leave_call(alloc: Global, code: &Code, number: u16, state: &mut State) -> Result<(), AllocError>
    ensures { OnOk result (state.new ≡ exit_of (slice_get code.now.procedures number) state.old) }
{
    match code.procedures.as_slice().get(usize::from(number)) {
        Some(procedure) => {
            *state = procedure.exit.copied(alloc)?;
            Ok(())
        }
        None => Ok(()),
    }
}

/// Turns what is known before the instruction into what is known behind it.
#[tactic(auto, unfolding(crate::specs::Flow::flow))]
pub fn flow(alloc: Global, code: &Code, instr: Instr, state: &mut State) -> Result<(), AllocError>
    ensures { OnOk result (state.new ≡ flow_of code.now instr state.old) }
{
    match called(instr) {
        Some(number) => leave_call(alloc, code, number, state),
        None => leave(code, instr, state),
    }
}
