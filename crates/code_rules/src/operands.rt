//! Whether an instruction names what is declared.

ghost use Rattle.std.specs.Prelude.{◌≡◌};
ghost use Rattle.code_rules.specs.Signature.{call_of};
ghost use Rattle.code_rules.specs.Rules.{value_undeclared as value_undeclared_of, is_no_list as is_no_list_of};
ghost use Rattle.code_rules.specs.Rules.{area_undeclared as area_undeclared_of, no_field as no_field_of};
ghost use Rattle.code_rules.specs.Rules.{record_undeclared as record_undeclared_of, undeclared as undeclared_of};
ghost use Rattle.code_rules.specs.Rules.{fails_if_named, no_procedure};

use crate::desks::has_table;
use crate::kinds::fields_at;
use crate::signature::called;
use code_items::{AreaInstr, Code, Declared, Desk, Instr, RecordInstr, ValueInstr};

fn value_undeclared(declared: &Declared, instr: ValueInstr) -> bool
    ensures { result ≡ value_undeclared_of declared.now instr }
{
    match instr {
        ValueInstr::Constant(number) => declared.constants.len() <= usize::from(number),
        ValueInstr::Load(_, slot) | ValueInstr::Store(_, slot) | ValueInstr::Unset(slot) => {
            declared.slots <= slot
        }
        _ => false,
    }
}

fn is_no_list(declared: &Declared, list: u32) -> bool
    ensures { result ≡ is_no_list_of declared.now list }
{
    declared.list(list).is_none()
}

fn area_undeclared(declared: &Declared, instr: AreaInstr) -> bool
    ensures { result ≡ area_undeclared_of declared.now instr }
{
    match instr {
        AreaInstr::Open { table, list } => {
            !has_table(declared, table) || (!(list == 0) && is_no_list(declared, list))
        }
        AreaInstr::Filter(number) => !(number == 0) && declared.filter(number).is_none(),
        _ => false,
    }
}

fn no_field(declared: &Declared, desk: &Desk, area: u8, field: u16) -> bool
    ensures { result ≡ no_field_of declared.now desk.now area field }
{
    match desk.open_at(area) {
        Some(open) => fields_at(declared, Some(open)).len() <= usize::from(field),
        None => false,
    }
}

fn record_undeclared(declared: &Declared, desk: &Desk, instr: RecordInstr) -> bool
    ensures { result ≡ record_undeclared_of declared.now desk.now instr }
{
    match instr {
        RecordInstr::Field { area, field } => no_field(declared, desk, area, field),
        RecordInstr::RowField(field) | RecordInstr::Replace(field) => {
            no_field(declared, desk, desk.selected, field)
        }
        RecordInstr::Index(list) => is_no_list(declared, u32::from(list)),
        _ => false,
    }
}

/// Whether it calls a procedure that isn't there.
pub fn calls_none(code: &Code, instr: Instr) -> bool
    ensures { result ≡ fails_if_named (no_procedure code.now) (call_of instr) }
{
    match called(instr) {
        Some(number) => code
            .procedures
            .as_slice()
            .get(usize::from(number))
            .is_none(),
        None => false,
    }
}

/// Whether an operand names no declared constant, slot, table, list, filter, field or procedure.
pub fn undeclared(code: &Code, desk: &Desk, instr: Instr) -> bool
    ensures { result ≡ undeclared_of code.now desk.now instr }
{
    match instr {
        Instr::Values(instr) => value_undeclared(&code.declared, instr),
        Instr::Flow(_) => calls_none(code, instr),
        Instr::Areas(instr) => area_undeclared(&code.declared, instr),
        Instr::Records(instr) => record_undeclared(&code.declared, desk, instr),
        _ => false,
    }
}
