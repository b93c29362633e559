//! Writing instructions, and their names.

ghost use Rattle.std.specs.Prelude.{◌≡◌};
ghost use Rattle.code_parts.specs.Instructions.{instr_text};
ghost use Rattle.xcode.specs.Names.{name_of_values, name_of_flow, name_of_screen, name_of_areas, name_of_moves};
ghost use Rattle.xcode.specs.Names.{name_of_records, instr_name};

use crate::writing::Writes;
use code_items::{AreaInstr, FlowInstr, Instr, MoveInstr, RecordInstr, ScreenInstr, ValueInstr};
use code_parts::parts_of_instr;
use std::alloc::AllocError;

impl Writes for Instr {
    ghost text = { instr_text };

    ghost fits = { λ _. Unit {0} };

    fn put(&self, out: &mut Vec<u8>) -> Result<(), AllocError> {
        let parts = parts_of_instr(*self);
        out.push(parts.operation)?;
        out.push(parts.a)?;
        out.extend_from_slice(&parts.b.to_le_bytes())?;
        out.extend_from_slice(&parts.c.to_le_bytes())
    }
}

fn name_of_value_instr(instr: ValueInstr) -> &'static [u8]
    ensures { result.now ≡ name_of_values instr }
{
    match instr {
        ValueInstr::Constant(_) => b"CONST",
        ValueInstr::Load(_, _) => b"LOAD",
        ValueInstr::Store(_, _) => b"STORE",
        ValueInstr::Unset(_) => b"UNSET",
        ValueInstr::Discard(_) => b"DROP",
        ValueInstr::Function(_) => b"FUN",
        ValueInstr::Today => b"ASK",
        ValueInstr::Set(_, _) => b"SET",
    }
}

fn name_of_flow_instr(instr: FlowInstr) -> &'static [u8]
    ensures { result.now ≡ name_of_flow instr }
{
    match instr {
        FlowInstr::Jump(_) => b"JUMP",
        FlowInstr::JumpFalse(_) => b"JUMPF",
        FlowInstr::Call(_) => b"CALL",
        FlowInstr::Return => b"RETURN",
        FlowInstr::End => b"END",
    }
}

fn name_of_screen_instr(instr: ScreenInstr) -> &'static [u8]
    ensures { result.now ≡ name_of_screen instr }
{
    match instr {
        ScreenInstr::NewLine => b"NEWLINE",
        ScreenInstr::Print(_) => b"PRINT",
        ScreenInstr::Say(_) => b"SAY",
        ScreenInstr::SayOn(_) => b"SAYON",
        ScreenInstr::Input(_) => b"INPUT",
        ScreenInstr::Line => b"LINE",
        ScreenInstr::Clear => b"CLEAR",
    }
}

fn name_of_area_instr(instr: AreaInstr) -> &'static [u8]
    ensures { result.now ≡ name_of_areas instr }
{
    match instr {
        AreaInstr::Open { .. } => b"OPEN",
        AreaInstr::Close => b"CLOSE",
        AreaInstr::CloseAll => b"CLOSEALL",
        AreaInstr::Select(_) => b"SELECT",
        AreaInstr::Order(_) => b"ORDER",
        AreaInstr::Filter(_) => b"FILTER",
    }
}

fn name_of_move_instr(instr: MoveInstr) -> &'static [u8]
    ensures { result.now ≡ name_of_moves instr }
{
    match instr {
        MoveInstr::Top => b"TOP",
        MoveInstr::Bottom => b"BOTTOM",
        MoveInstr::Skip => b"SKIP",
        MoveInstr::Go => b"GO",
        MoveInstr::Seek => b"SEEK",
    }
}

fn name_of_record_instr(instr: RecordInstr) -> &'static [u8]
    ensures { result.now ≡ name_of_records instr }
{
    match instr {
        RecordInstr::Field { .. } => b"FIELD",
        RecordInstr::RowField(_) => b"ROWFIELD",
        RecordInstr::Ask(_) => b"ASK",
        RecordInstr::Append => b"APPEND",
        RecordInstr::Replace(_) => b"REPLACE",
        RecordInstr::Delete => b"DELETE",
        RecordInstr::Recall => b"RECALL",
        RecordInstr::Pack => b"PACK",
        RecordInstr::Zap => b"ZAP",
        RecordInstr::Reindex => b"REINDEX",
        RecordInstr::Index(_) => b"INDEX",
    }
}

/// The name of the instruction's operation.
pub fn operation_name(instr: Instr) -> &'static [u8]
    ensures { result.now ≡ instr_name instr }
{
    match instr {
        Instr::Values(instr) => name_of_value_instr(instr),
        Instr::Flow(instr) => name_of_flow_instr(instr),
        Instr::Screen(instr) => name_of_screen_instr(instr),
        Instr::Areas(instr) => name_of_area_instr(instr),
        Instr::Moves(instr) => name_of_move_instr(instr),
        Instr::Records(instr) => name_of_record_instr(instr),
    }
}
