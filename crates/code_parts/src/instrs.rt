//! Instructions.

ghost use Rattle.std.specs.Prelude.{◌≡◌};
ghost use Rattle.code_parts.specs.Items.{truth_of_byte};
ghost use Rattle.code_parts.specs.Instructions.{setting_of_byte, question_of_byte, asked as asked_by, set_to as set_by};
ghost use Rattle.code_parts.specs.Instructions.{low_instr as low_instr_of, flow_instr as flow_instr_of};
ghost use Rattle.code_parts.specs.Instructions.{area_instr as area_instr_of, record_instr as record_instr_of};
ghost use Rattle.code_parts.specs.Instructions.{screen_instr as screen_instr_of, any_instr as any_instr_of};
ghost use Rattle.code_parts.specs.Instructions.{instr_from as instr_from_parts, instr_read_at};

use crate::fields::{byte_of, four_of, two_of};
use crate::flaw::{Flaw, Unread};
use crate::kinds::kind_of_number;
use crate::operands::{InstrParts, are_same, parts_of_instr};
use crate::several::Reads;
use code_items::{
    AreaInstr, FlowInstr, Instr, MoveInstr, Question, RecordInstr, ScreenInstr, Setting,
    ValueInstr, Version,
};
use std::alloc::Global;
use xvalue::Fun;

fn setting_of(byte: u8) -> Option<Setting>
    ensures { result ≡ setting_of_byte byte }
{
    match byte {
        1 => Some(Setting::Exact),
        2 => Some(Setting::Deleted),
        3 => Some(Setting::Century),
        _ => None,
    }
}

fn question_of(byte: u8) -> Option<Question>
    ensures { result ≡ question_of_byte byte }
{
    match byte {
        1 => Some(Question::Recno),
        2 => Some(Question::Reccount),
        3 => Some(Question::Eof),
        4 => Some(Question::Bof),
        5 => Some(Question::Found),
        6 => Some(Question::Deleted),
        _ => None,
    }
}

fn asked(byte: u8) -> Option<Instr>
    ensures { result ≡ asked_by byte }
{
    if byte == 7 {
        return Some(Instr::Values(ValueInstr::Today));
    }
    let question = question_of(byte)?;
    Some(Instr::Records(RecordInstr::Ask(question)))
}

fn truth_of_wide(number: u16) -> Option<bool>
    ensures { result ≡ truth_of_byte number }
{
    match number {
        0 => Some(false),
        1 => Some(true),
        _ => None,
    }
}

fn set_to(setting: u8, on: u16) -> Option<Instr>
    ensures { result ≡ set_by setting on }
{
    let setting = setting_of(setting)?;
    let on = truth_of_wide(on)?;
    Some(Instr::Values(ValueInstr::Set(setting, on)))
}

#[tactic(auto, unfolding(crate::specs::Instructions::low_instr))]
fn low_instr(p: InstrParts) -> Option<Instr>
    ensures { result ≡ low_instr_of p }
{
    match p.operation {
        0x01 => Some(Instr::Values(ValueInstr::Constant(p.b))),
        0x02 => Some(Instr::Values(ValueInstr::Load(kind_of_number(p.a)?, p.b))),
        0x03 => Some(Instr::Values(ValueInstr::Store(kind_of_number(p.a)?, p.b))),
        0x04 => Some(Instr::Values(ValueInstr::Unset(p.b))),
        0x05 => Some(Instr::Values(ValueInstr::Discard(kind_of_number(p.a)?))),
        0x06 => Some(Instr::Records(RecordInstr::Field {
            area: p.a,
            field: p.b,
        })),
        0x07 => Some(Instr::Records(RecordInstr::RowField(p.b))),
        0x08 => Some(Instr::Values(ValueInstr::Function(Fun::numbered(p.a)?))),
        0x09 => asked(p.a),
        _ => None,
    }
}

#[tactic(auto, unfolding(crate::specs::Instructions::flow_instr))]
fn flow_instr(p: InstrParts) -> Option<Instr>
    ensures { result ≡ flow_instr_of p }
{
    match p.operation {
        0x10 => Some(Instr::Flow(FlowInstr::Jump(p.c))),
        0x11 => Some(Instr::Flow(FlowInstr::JumpFalse(p.c))),
        0x12 => Some(Instr::Flow(FlowInstr::Call(p.b))),
        0x13 => Some(Instr::Flow(FlowInstr::Return)),
        0x14 => Some(Instr::Flow(FlowInstr::End)),
        _ => None,
    }
}

#[tactic(auto, unfolding(crate::specs::Instructions::area_instr))]
fn area_instr(p: InstrParts) -> Option<Instr>
    ensures { result ≡ area_instr_of p }
{
    match p.operation {
        0x20 => Some(Instr::Areas(AreaInstr::Open {
            table: p.b,
            list: p.c,
        })),
        0x21 => Some(Instr::Areas(AreaInstr::Close)),
        0x22 => Some(Instr::Areas(AreaInstr::CloseAll)),
        0x23 => Some(Instr::Areas(AreaInstr::Select(p.a))),
        0x24 => Some(Instr::Areas(AreaInstr::Order(p.b))),
        0x25 => Some(Instr::Areas(AreaInstr::Filter(p.b))),
        0x26 => Some(Instr::Moves(MoveInstr::Top)),
        0x27 => Some(Instr::Moves(MoveInstr::Bottom)),
        0x28 => Some(Instr::Moves(MoveInstr::Skip)),
        0x29 => Some(Instr::Moves(MoveInstr::Go)),
        0x2A => Some(Instr::Moves(MoveInstr::Seek)),
        _ => None,
    }
}

#[tactic(auto, unfolding(crate::specs::Instructions::record_instr))]
fn record_instr(p: InstrParts) -> Option<Instr>
    ensures { result ≡ record_instr_of p }
{
    match p.operation {
        0x30 => Some(Instr::Records(RecordInstr::Append)),
        0x31 => Some(Instr::Records(RecordInstr::Replace(p.b))),
        0x32 => Some(Instr::Records(RecordInstr::Delete)),
        0x33 => Some(Instr::Records(RecordInstr::Recall)),
        0x34 => Some(Instr::Records(RecordInstr::Pack)),
        0x35 => Some(Instr::Records(RecordInstr::Zap)),
        0x36 => Some(Instr::Records(RecordInstr::Reindex)),
        0x37 => Some(Instr::Records(RecordInstr::Index(p.b))),
        _ => None,
    }
}

#[tactic(auto, unfolding(crate::specs::Instructions::screen_instr))]
fn screen_instr(p: InstrParts) -> Option<Instr>
    ensures { result ≡ screen_instr_of p }
{
    match p.operation {
        0x40 => Some(Instr::Screen(ScreenInstr::NewLine)),
        0x41 => Some(Instr::Screen(ScreenInstr::Print(kind_of_number(p.a)?))),
        0x42 => Some(Instr::Screen(ScreenInstr::Say(kind_of_number(p.a)?))),
        0x43 => Some(Instr::Screen(ScreenInstr::Input(kind_of_number(p.a)?))),
        0x44 => Some(Instr::Screen(ScreenInstr::Line)),
        0x45 => Some(Instr::Screen(ScreenInstr::Clear)),
        0x46 => set_to(p.a, p.b),
        0x47 => Some(Instr::Screen(ScreenInstr::SayOn(kind_of_number(p.a)?))),
        _ => None,
    }
}

/// The instruction that these parts can only be, by the operation and the operands that it has a use for.
#[tactic(auto, unfolding(crate::specs::Instructions::any_instr))]
fn any_instr(p: InstrParts) -> Option<Instr>
    ensures { result ≡ any_instr_of p }
{
    if p.operation < 0x10 {
        return low_instr(p);
    }
    if p.operation < 0x20 {
        return flow_instr(p);
    }
    if p.operation < 0x30 {
        return area_instr(p);
    }
    if p.operation < 0x40 {
        return record_instr(p);
    }
    screen_instr(p)
}

#[tactic(auto, unfolding(crate::specs::Instructions::instr_from))]
fn instr_from(version: Version, p: InstrParts) -> Result<Instr, Flaw>
    ensures { result ≡ instr_from_parts version p }
{
    match any_instr(p) {
        None => Err(Flaw::Operation),
        Some(instr) => {
            if !(instr.is_legal(version) && are_same(p, parts_of_instr(instr))) {
                return Err(Flaw::Operation);
            }
            Ok(instr)
        }
    }
}

/// Instructions of codes of a version.
#[derive(Clone, Copy)]
pub struct Instrs {
    pub version: Version,
}

impl Reads for Instrs {
    type Thing = Instr;

    ghost at = { λ s. instr_read_at s.version };

    #[tactic(auto, unfolding(crate::specs::Instructions::instr_read_at))]
    fn read<'a>(
        &self,
        _alloc: Global,
        bytes: &'a [u8],
    ) -> Result<(Result<Instr, Flaw>, &'a [u8]), Unread> {
        let (operation, rest) = byte_of(bytes)?;
        let (a, rest) = byte_of(rest)?;
        let (b, rest) = two_of(rest)?;
        let (c, rest) = four_of(rest)?;
        let parts = InstrParts { operation, a, b, c };
        Ok((instr_from(self.version, parts), rest))
    }
}
