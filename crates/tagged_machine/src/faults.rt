//! The faults of an instruction, tested in their order.

ghost use Rattle.std.specs.Prelude.{◌≡◌, ◌<◌};
ghost use Rattle.code_items.specs.Legal.{IsCode, places_of};
ghost use Rattle.run_steps.specs.Faults.{fault_of};
ghost use Rattle.run_steps.specs.World.{desk_of};
ghost use Rattle.tagged_machine.specs.Seen.{world_seen, fault_seen};

use crate::clear::is_clear;
use crate::operands::{bad_field, is_high, is_short, loads_free, wrong_kind};
use crate::places::{bad_jump, deep_call};
use crate::scratch::BlockScratch;
use crate::soundness::bad_filter;
use code_items::{Code, Desk, Instr};
use code_rules::desks::{is_closed, opens_twice, order_fails};
use key_lists::KeyList;
use run_steps::{FaultKind, Machine};
use run_values::Tagged;

/// The first test that fails of any instruction.
#[tactic(auto, unfolding(crate::specs::Seen::fault_seen))]
fn first_fault<K: KeyList>(
    code: &Code,
    places: usize,
    machine: &Machine<Tagged, K>,
    desk: &Desk,
    scratch: &mut BlockScratch,
    instr: Instr,
) -> Option<FaultKind>
    requires legal { IsCode code.now }
    requires places { places ≡ places_of code.now.procedures }
    requires place { machine.now.place < 65536 }
    ensures { result ≡ fault_seen code.now machine.now desk.now instr }
{
    let values = &machine.values;
    if wrong_kind(code, desk, values, instr) {
        Some(FaultKind::WrongKind)
    } else if loads_free(values, instr) {
        Some(FaultKind::Unset)
    } else if is_closed(desk, instr) {
        Some(FaultKind::ClosedArea)
    } else if is_short(values, instr) {
        Some(FaultKind::EmptyStack)
    } else if is_high(code, values, instr) {
        Some(FaultKind::StackOver)
    } else if bad_jump(code, places, machine, instr) {
        Some(FaultKind::BadJump)
    } else if order_fails(&code.declared, desk, instr) {
        Some(FaultKind::NoOrder)
    } else if opens_twice(desk, instr) {
        Some(FaultKind::OpenTwice)
    } else if deep_call(&machine.returns, instr) {
        Some(FaultKind::DeepCall)
    } else if bad_field(code, desk, values, instr) {
        Some(FaultKind::BadField)
    } else if bad_filter(code, desk, values, scratch, instr) {
        Some(FaultKind::BadFilter)
    } else {
        None
    }
}

/// The fault of an instruction in the world that the machine stands for, if it has one: the first in the order of the
/// faults. The procedures' blocks have so many places, and the work areas are those of the machine's tables. It takes
/// no memory.
pub fn fault<K: KeyList>(
    code: &Code,
    places: usize,
    machine: &Machine<Tagged, K>,
    desk: &Desk,
    scratch: &mut BlockScratch,
    instr: Instr,
) -> Option<FaultKind>
    requires legal { IsCode code.now }
    requires places { places ≡ places_of code.now.procedures }
    requires place { machine.now.place < 65536 }
    requires shown { desk.now ≡ desk_of machine.now.env.store }
    ensures { result ≡ fault_of code.now (world_seen machine.now) instr }
{
    if is_clear(code, places, machine, instr) {
        return None;
    }
    first_fault(code, places, machine, desk, scratch, instr)
}
