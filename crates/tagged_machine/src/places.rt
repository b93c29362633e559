//! Tests of where an instruction leads.

ghost use Rattle.std.specs.Prelude.{◌≡◌, ◌<◌, length, nat_le};
ghost use Rattle.code_rules.specs.Rules.{fails_if_named};
ghost use Rattle.code_rules.specs.Signature.{call_of};
ghost use Rattle.code_items.specs.Legal.{IsCode, places_of};
ghost use Rattle.run_steps.specs.Control.{is_false as is_false_of, flow_place as flow_place_of, place_after};
ghost use Rattle.run_steps.specs.Effects.{top};
ghost use Rattle.run_steps.specs.Faults.{bad_jump as bad_jump_of};
ghost use Rattle.run_values.specs.Standing.{tagged_of};
ghost use Rattle.tagged_machine.specs.Seen.{world_seen};

use code_items::{Code, FlowInstr, Instr};
use code_rules::operands::calls_none;
use code_rules::signature::called;
use key_lists::KeyList;
use run_steps::layout::entry_place;
use run_steps::running::finishes;
use run_steps::{Machine, ReturnPlaces};
use run_values::{Tagged, Values};
use xvalue::Kind;

/// Whether the truth value false is on top.
fn is_false(values: &Tagged) -> bool
    ensures { result ≡ is_false_of (top (tagged_of values.now)) }
{
    match values.kinds().last() {
        Some(kind) => kind.is(Kind::Logical) && !values.truth(),
        None => false,
    }
}

/// Where an instruction on the flow of control goes next.
fn flow_place<K: KeyList>(code: &Code, machine: &Machine<Tagged, K>, instr: FlowInstr) -> usize
    requires legal { IsCode code.now }
    requires place { machine.now.place < 65536 }
    ensures { result
        ≡ flow_place_of code.now instr machine.now.place machine.now.returns (tagged_of machine.now.values) }
{
    let place = machine.place;
    match instr {
        FlowInstr::Jump(target) => target as usize,
        FlowInstr::JumpFalse(target) if is_false(&machine.values) => target as usize,
        FlowInstr::JumpFalse(_) => place + 1,
        FlowInstr::Call(number) => entry_place(code, number),
        FlowInstr::Return => machine.returns.last_or(place),
        FlowInstr::End => place,
    }
}

/// Where an instruction goes next.
fn next_place<K: KeyList>(code: &Code, machine: &Machine<Tagged, K>, instr: Instr) -> usize
    requires legal { IsCode code.now }
    requires place { machine.now.place < 65536 }
    ensures { result
        ≡ place_after code.now instr machine.now.place machine.now.returns (tagged_of machine.now.values) }
{
    match instr {
        Instr::Flow(instr) => flow_place(code, machine, instr),
        _ => machine.place + 1,
    }
}

/// Whether it goes on at a place that stands in no procedure. The procedures' blocks have so many places.
pub fn bad_jump<K: KeyList>(
    code: &Code,
    places: usize,
    machine: &Machine<Tagged, K>,
    instr: Instr,
) -> bool
    requires legal { IsCode code.now }
    requires places { places ≡ places_of code.now.procedures }
    requires place { machine.now.place < 65536 }
    ensures { result ≡ bad_jump_of code.now (world_seen machine.now) instr }
{
    !finishes(&machine.returns, instr)
        && !calls_none(code, instr)
        && places <= next_place(code, machine, instr)
}

/// Whether it calls where 20 calls haven't returned.
pub fn deep_call(returns: &ReturnPlaces, instr: Instr) -> bool
    ensures { result ≡ fails_if_named (λ n. nat_le 20 (length returns.now)) (call_of instr) }
{
    match called(instr) {
        Some(_) => 20 <= returns.len(),
        None => false,
    }
}
