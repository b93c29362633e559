//! The operation and the operands of an instruction.

ghost use Rattle.std.specs.Prelude.{◌≡◌};
ghost use Rattle.code_parts.specs.Texts.{kind_number};
ghost use Rattle.code_parts.specs.Instructions.{setting_number, question_number, parts_of_values, parts_of_flow};
ghost use Rattle.code_parts.specs.Instructions.{parts_of_screen, parts_of_areas, parts_of_moves, parts_of_records};
ghost use Rattle.code_parts.specs.Instructions.{parts_of, same_parts};

use crate::kinds::number_of_kind;
use code_items::{
    AreaInstr, FlowInstr, Instr, MoveInstr, Question, RecordInstr, ScreenInstr, Setting, ValueInstr,
};
use xvalue::Kind;

/// An operation and its operands; one that it has no use for is 0.
#[derive(Clone, Copy, Debug)]
pub struct InstrParts {
    pub operation: u8,
    pub a: u8,
    pub b: u16,
    pub c: u32,
}

fn number_of_setting(setting: Setting) -> u8
    ensures { result ≡ setting_number setting }
{
    match setting {
        Setting::Exact => 1,
        Setting::Deleted => 2,
        Setting::Century => 3,
    }
}

fn number_of_question(question: Question) -> u8
    ensures { result ≡ question_number question }
{
    match question {
        Question::Recno => 1,
        Question::Reccount => 2,
        Question::Eof => 3,
        Question::Bof => 4,
        Question::Found => 5,
        Question::Deleted => 6,
    }
}

/// No operand.
fn plain(operation: u8) -> InstrParts
    ensures { result ≡ record { operation = operation; a = 0; b = 0; c = 0 } }
{
    InstrParts {
        operation,
        a: 0,
        b: 0,
        c: 0,
    }
}

/// The operand a alone.
fn small(operation: u8, a: u8) -> InstrParts
    ensures { result ≡ record { operation = operation; a = a; b = 0; c = 0 } }
{
    InstrParts {
        operation,
        a,
        b: 0,
        c: 0,
    }
}

/// The operand a, a kind.
fn of_kind(operation: u8, kind: Kind) -> InstrParts
    ensures { result ≡ record { operation = operation; a = kind_number kind; b = 0; c = 0 } }
{
    small(operation, number_of_kind(kind))
}

/// The operand b alone.
fn number(operation: u8, b: u16) -> InstrParts
    ensures { result ≡ record { operation = operation; a = 0; b = b; c = 0 } }
{
    InstrParts {
        operation,
        a: 0,
        b,
        c: 0,
    }
}

/// The operands a and b.
fn pair(operation: u8, a: u8, b: u16) -> InstrParts
    ensures { result ≡ record { operation = operation; a = a; b = b; c = 0 } }
{
    InstrParts {
        operation,
        a,
        b,
        c: 0,
    }
}

/// The operands b and c.
fn wide(operation: u8, b: u16, c: u32) -> InstrParts
    ensures { result ≡ record { operation = operation; a = 0; b = b; c = c } }
{
    InstrParts {
        operation,
        a: 0,
        b,
        c,
    }
}

fn of_values(instr: ValueInstr) -> InstrParts
    ensures { result ≡ parts_of_values instr }
{
    match instr {
        ValueInstr::Constant(constant) => number(0x01, constant),
        ValueInstr::Load(kind, slot) => pair(0x02, number_of_kind(kind), slot),
        ValueInstr::Store(kind, slot) => pair(0x03, number_of_kind(kind), slot),
        ValueInstr::Unset(slot) => number(0x04, slot),
        ValueInstr::Discard(kind) => of_kind(0x05, kind),
        ValueInstr::Function(fun) => small(0x08, fun.number()),
        ValueInstr::Today => small(0x09, 7),
        ValueInstr::Set(setting, on) => pair(0x46, number_of_setting(setting), u16::from(on)),
    }
}

fn of_flow(instr: FlowInstr) -> InstrParts
    ensures { result ≡ parts_of_flow instr }
{
    match instr {
        FlowInstr::Jump(place) => wide(0x10, 0, place),
        FlowInstr::JumpFalse(place) => wide(0x11, 0, place),
        FlowInstr::Call(procedure) => number(0x12, procedure),
        FlowInstr::Return => plain(0x13),
        FlowInstr::End => plain(0x14),
    }
}

fn of_screen(instr: ScreenInstr) -> InstrParts
    ensures { result ≡ parts_of_screen instr }
{
    match instr {
        ScreenInstr::NewLine => plain(0x40),
        ScreenInstr::Print(kind) => of_kind(0x41, kind),
        ScreenInstr::Say(kind) => of_kind(0x42, kind),
        ScreenInstr::SayOn(kind) => of_kind(0x47, kind),
        ScreenInstr::Input(kind) => of_kind(0x43, kind),
        ScreenInstr::Line => plain(0x44),
        ScreenInstr::Clear => plain(0x45),
    }
}

fn of_areas(instr: AreaInstr) -> InstrParts
    ensures { result ≡ parts_of_areas instr }
{
    match instr {
        AreaInstr::Open { table, list } => wide(0x20, table, list),
        AreaInstr::Close => plain(0x21),
        AreaInstr::CloseAll => plain(0x22),
        AreaInstr::Select(area) => small(0x23, area),
        AreaInstr::Order(order) => number(0x24, order),
        AreaInstr::Filter(filter) => number(0x25, filter),
    }
}

fn of_moves(instr: MoveInstr) -> InstrParts
    ensures { result ≡ parts_of_moves instr }
{
    match instr {
        MoveInstr::Top => plain(0x26),
        MoveInstr::Bottom => plain(0x27),
        MoveInstr::Skip => plain(0x28),
        MoveInstr::Go => plain(0x29),
        MoveInstr::Seek => plain(0x2A),
    }
}

fn of_records(instr: RecordInstr) -> InstrParts
    ensures { result ≡ parts_of_records instr }
{
    match instr {
        RecordInstr::Field { area, field } => pair(0x06, area, field),
        RecordInstr::RowField(field) => number(0x07, field),
        RecordInstr::Ask(question) => small(0x09, number_of_question(question)),
        RecordInstr::Append => plain(0x30),
        RecordInstr::Replace(field) => number(0x31, field),
        RecordInstr::Delete => plain(0x32),
        RecordInstr::Recall => plain(0x33),
        RecordInstr::Pack => plain(0x34),
        RecordInstr::Zap => plain(0x35),
        RecordInstr::Reindex => plain(0x36),
        RecordInstr::Index(list) => number(0x37, list),
    }
}

/// The instruction's operation and operands.
pub fn parts_of_instr(instr: Instr) -> InstrParts
    ensures { result ≡ parts_of instr }
{
    match instr {
        Instr::Values(instr) => of_values(instr),
        Instr::Flow(instr) => of_flow(instr),
        Instr::Screen(instr) => of_screen(instr),
        Instr::Areas(instr) => of_areas(instr),
        Instr::Moves(instr) => of_moves(instr),
        Instr::Records(instr) => of_records(instr),
    }
}

/// Whether both are the same.
pub(crate) fn are_same(one: InstrParts, other: InstrParts) -> bool
    ensures { result ≡ same_parts one other }
{
    one.operation == other.operation && one.a == other.a && one.b == other.b && one.c == other.c
}
