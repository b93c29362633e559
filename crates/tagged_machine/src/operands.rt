//! Tests of an instruction by the kinds that values have and by what its operands name.

ghost use Rattle.std.specs.Prelude.{◌≡◌, List, length, map, nat_lt};
ghost use Rattle.xvalue.specs.Kinds.{kind_of};
ghost use Rattle.xvalue.specs.declared.kind.Kind.{Kind as AnyKind};
ghost use Rattle.code_items.specs.declared.desk.Desk.{Desk as AnyDesk};
ghost use Rattle.code_rules.specs.Rules.{height_after, loads_other as loads_other_of, loads_free as loads_free_of};
ghost use Rattle.code_rules.specs.Signature.{signature};
ghost use Rattle.run_steps.specs.Faults.{wrong_kind as wrong_kind_of, area_lists_other};
ghost use Rattle.run_steps.specs.Faults.{lists_other as lists_other_of, bad_field as bad_field_of, area_filters_other};
ghost use Rattle.run_steps.specs.Faults.{filters_other as filters_other_of};
ghost use Rattle.run_steps.specs.World.{kind_held};
ghost use Rattle.tagged_machine.specs.Seen.{state_seen};

use code_items::{AreaInstr, Code, Declared, Desk, Instr, ValueInstr, kinds_clash};
use code_rules::desks::{has_table, is_other_filter, is_other_list, record_is_other};
use code_rules::heights::{is_over, is_under};
use code_rules::kinds::wants;
use code_rules::operands::undeclared;
use code_rules::slots::{has_other, is_free};
use run_values::Tagged;

/// Whether a slot is loaded that holds another kind.
pub fn loads_other(values: &Tagged, instr: Instr) -> bool
    ensures { (desk : AnyDesk) (stack : List AnyKind) → result
        ≡ loads_other_of (record { desk = desk; slots = map kind_held values.now.slots; stack = stack }) instr }
{
    match instr {
        Instr::Values(ValueInstr::Load(kind, slot)) => {
            has_other(kind, values.kind_at(usize::from(slot)))
        }
        _ => false,
    }
}

/// Whether a slot is loaded that is unset.
pub fn loads_free(values: &Tagged, instr: Instr) -> bool
    ensures { (desk : AnyDesk) (stack : List AnyKind)
        → result ≡ loads_free_of (record { desk = desk; slots = map kind_held values.now.slots; stack = stack }) instr }
{
    match instr {
        Instr::Values(ValueInstr::Load(_, slot)) => is_free(values.kind_at(usize::from(slot))),
        _ => false,
    }
}

/// Whether a value taken or a slot loaded has another kind.
pub fn wrong_kind(code: &Code, desk: &Desk, values: &Tagged, instr: Instr) -> bool
    ensures { result ≡ wrong_kind_of code.now (state_seen desk.now values.now) instr }
{
    kinds_clash(values.kinds(), wants(&code.declared, desk, instr)) || loads_other(values, instr)
}

/// Whether there are fewer values than it takes.
#[tactic(auto, using(crate::proofs::Held::same_height))]
pub fn is_short(values: &Tagged, instr: Instr) -> bool
    ensures { result ≡ nat_lt (length (map kind_of values.now.stack)) (signature instr).taken }
{
    is_under(values.height(), instr)
}

/// Whether there are more values than the code's bound afterwards.
#[tactic(auto, using(crate::proofs::Held::same_height))]
pub fn is_high(code: &Code, values: &Tagged, instr: Instr) -> bool
    ensures { result
        ≡ nat_lt code.now.declared.stack_bound (height_after (length (map kind_of values.now.stack)) instr) }
{
    is_over(&code.declared, values.height(), instr)
}

fn area_lists(declared: &Declared, instr: AreaInstr) -> bool
    ensures { result ≡ area_lists_other declared.now instr }
{
    match instr {
        AreaInstr::Open { table, list } => {
            has_table(declared, table) && is_other_list(declared, table, list)
        }
        _ => false,
    }
}

/// Whether a list is of another table, or INDEX names one of several indexes.
fn lists_other(declared: &Declared, desk: &Desk, instr: Instr) -> bool
    ensures { result ≡ lists_other_of declared.now desk.now instr }
{
    match instr {
        Instr::Areas(instr) => area_lists(declared, instr),
        Instr::Records(instr) => record_is_other(declared, desk, instr),
        _ => false,
    }
}

/// Whether an operand names nothing that is declared, or a list that can't stand there.
pub fn bad_field(code: &Code, desk: &Desk, values: &Tagged, instr: Instr) -> bool
    ensures { result ≡ bad_field_of code.now (state_seen desk.now values.now) instr }
{
    undeclared(code, desk, instr) || lists_other(&code.declared, desk, instr)
}

fn area_filters(declared: &Declared, desk: &Desk, instr: AreaInstr) -> bool
    ensures { result ≡ area_filters_other declared.now desk.now instr }
{
    match instr {
        AreaInstr::Filter(number) => match desk.selected_area() {
            Some(area) => is_other_filter(declared, area.table, number),
            None => false,
        },
        _ => false,
    }
}

/// Whether a filter is of another table.
pub fn filters_other(declared: &Declared, desk: &Desk, instr: Instr) -> bool
    ensures { result ≡ filters_other_of declared.now desk.now instr }
{
    match instr {
        Instr::Areas(instr) => area_filters(declared, desk, instr),
        _ => false,
    }
}
