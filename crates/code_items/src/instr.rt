//! Instructions, by groups.

ghost use Rattle.std.specs.Prelude.{◌≡◌};
ghost use Rattle.code_items.specs.Instrs.{is_instr, is_of_values, is_of_flow, is_of_areas, is_of_records, is_two};
ghost use Rattle.code_items.specs.Instrs.{is_four, is_area, may_set};

use crate::declared::Version;
use xvalue::{Fun, Kind, Setting};

/// What ASK asks of the selected work area.
#[derive(Clone, Copy, PartialEq, Eq, Debug)]
pub enum Question {
    /// RECNO(): the number of the current record.
    Recno,
    /// RECCOUNT(): how many records there are.
    Reccount,
    /// EOF(): whether the area is at the end of file.
    Eof,
    /// BOF(): whether the last move ran over the beginning.
    Bof,
    /// FOUND(): whether the last move found what it sought.
    Found,
    /// DELETED(): whether the current record is marked.
    Deleted,
}

/// Instructions on values, slots and settings.
#[derive(Clone, Copy, PartialEq, Eq, Debug)]
pub enum ValueInstr {
    /// CONST: puts the constant on the stack.
    Constant(u16),
    /// LOAD: puts the slot's value, of this kind, on the stack.
    Load(Kind, u16),
    /// STORE: takes a value of this kind into the slot.
    Store(Kind, u16),
    /// UNSET: the slot has no value from now on.
    Unset(u16),
    /// DROP: takes a value of this kind away.
    Discard(Kind),
    /// FUN: takes the function's arguments, the last one on top, and puts its result on the stack.
    Function(Fun),
    /// ASK 7: puts the day of the run on the stack.
    Today,
    /// SET: the setting is on or off from now on.
    Set(Setting, bool),
}

/// Instructions on the flow of control. A place is the number of an instruction, from 0.
#[derive(Clone, Copy, PartialEq, Eq, Debug)]
pub enum FlowInstr {
    /// JUMP: goes on at the place.
    Jump(u32),
    /// JUMPF: takes a truth value, and goes on at the place where it is false.
    JumpFalse(u32),
    /// CALL: goes on at the first place of the procedure, and behind this instruction when that returns.
    Call(u16),
    /// RETURN: goes on behind the last CALL that hasn't returned; where there is none, the run has finished.
    Return,
    /// END: the run has finished.
    End,
}

/// Instructions on the screen and the operator's lines.
#[derive(Clone, Copy, PartialEq, Eq, Debug)]
pub enum ScreenInstr {
    /// NEWLINE: begins a new line of the screen.
    NewLine,
    /// PRINT: takes a value of this kind and shows it at the cursor.
    Print(Kind),
    /// SAY: takes a row, a column and a value of this kind, and shows the value there.
    Say(Kind),
    /// SAYON: takes a value of this kind and shows it one column behind the cursor.
    SayOn(Kind),
    /// INPUT: takes an old value of this kind and puts what the operator's next line makes of it.
    Input(Kind),
    /// LINE: puts the operator's next line on the stack.
    Line,
    /// CLEAR: clears the screen.
    Clear,
}

/// Instructions on work areas. Tables are counted from 0; lists and filters from 1, and 0 is none.
#[derive(Clone, Copy, PartialEq, Eq, Debug)]
pub enum AreaInstr {
    /// OPEN: opens the table with the list of indexes in the selected work area.
    Open { table: u16, list: u32 },
    /// CLOSE: closes the selected work area.
    Close,
    /// CLOSEALL: closes all work areas and selects the first.
    CloseAll,
    /// SELECT: selects the work area, of 1 to 10.
    Select(u8),
    /// ORDER: the open index of this number, from 1, orders the rows; with 0 their records do.
    Order(u16),
    /// FILTER: only rows for which the filter holds are visible; with 0 all are.
    Filter(u16),
}

/// Moves of the selected work area's record pointer.
#[derive(Clone, Copy, PartialEq, Eq, Debug)]
pub enum MoveInstr {
    /// TOP: to the first visible row.
    Top,
    /// BOTTOM: to the last visible row.
    Bottom,
    /// SKIP: takes a number, and goes on or back by so many visible rows.
    Skip,
    /// GO: takes a number, and goes to that record.
    Go,
    /// SEEK: takes a text, and goes to the first visible row whose key matches it.
    Seek,
}

/// Instructions on the records of a work area. Fields and lists are counted from 0 and from 1.
#[derive(Clone, Copy, PartialEq, Eq, Debug)]
pub enum RecordInstr {
    /// FIELD: puts the field of the current record of this work area, of 1 to 10, on the stack.
    Field { area: u8, field: u16 },
    /// ROWFIELD: puts the field of the row tried on the stack. In filters alone.
    RowField(u16),
    /// ASK 1 to 6: puts the answer on the stack.
    Ask(Question),
    /// APPEND: adds a blank row and goes there.
    Append,
    /// REPLACE: takes a value into the field of the current record.
    Replace(u16),
    /// DELETE: marks the current record.
    Delete,
    /// RECALL: takes the current record's mark away.
    Recall,
    /// PACK: removes the marked rows.
    Pack,
    /// ZAP: removes all rows.
    Zap,
    /// REINDEX: makes the open indexes anew.
    Reindex,
    /// INDEX: makes the one index of the list anew and opens it alone.
    Index(u16),
}

/// One instruction. None of the numbers in it need name anything.
#[derive(Clone, Copy, PartialEq, Eq, Debug)]
pub enum Instr {
    Values(ValueInstr),
    Flow(FlowInstr),
    Screen(ScreenInstr),
    Areas(AreaInstr),
    Moves(MoveInstr),
    Records(RecordInstr),
}

fn fits_two(number: u16) -> bool
    ensures { result ≡ is_two number }
{
    u32::from(number) < 65536
}

fn fits_four(number: u32) -> bool
    ensures { result ≡ is_four number }
{
    u64::from(number) < 4294967296
}

fn is_area_number(number: u8) -> bool
    ensures { result ≡ is_area number }
{
    1 <= number && number <= 10
}

fn may_be_set(version: Version, setting: Setting) -> bool
    ensures { result ≡ may_set version setting }
{
    match (version, setting) {
        (Version::One, Setting::Century) => false,
        _ => true,
    }
}

impl ValueInstr {
    fn is_legal(self, version: Version) -> bool
        ensures { result ≡ is_of_values version self }
    {
        match self {
            ValueInstr::Constant(number)
            | ValueInstr::Load(_, number)
            | ValueInstr::Store(_, number)
            | ValueInstr::Unset(number) => fits_two(number),
            ValueInstr::Discard(_) | ValueInstr::Function(_) | ValueInstr::Today => true,
            ValueInstr::Set(setting, _) => may_be_set(version, setting),
        }
    }
}

impl FlowInstr {
    fn is_legal(self) -> bool
        ensures { result ≡ is_of_flow self }
    {
        match self {
            FlowInstr::Jump(place) | FlowInstr::JumpFalse(place) => fits_four(place),
            FlowInstr::Call(number) => fits_two(number),
            FlowInstr::Return | FlowInstr::End => true,
        }
    }
}

impl AreaInstr {
    fn is_legal(self) -> bool
        ensures { result ≡ is_of_areas self }
    {
        match self {
            AreaInstr::Open { table, list } => fits_two(table) && fits_four(list),
            AreaInstr::Close | AreaInstr::CloseAll => true,
            AreaInstr::Select(area) => is_area_number(area),
            AreaInstr::Order(number) | AreaInstr::Filter(number) => fits_two(number),
        }
    }
}

impl RecordInstr {
    fn is_legal(self) -> bool
        ensures { result ≡ is_of_records self }
    {
        match self {
            RecordInstr::Field { area, field } => is_area_number(area) && fits_two(field),
            RecordInstr::RowField(number)
            | RecordInstr::Replace(number)
            | RecordInstr::Index(number) => fits_two(number),
            _ => true,
        }
    }
}

impl Instr {
    /// Whether it has a place in a code file of this version: work areas are 1 to 10, and CENTURY is set in version two
    /// alone.
    pub fn is_legal(self, version: Version) -> bool
        ensures { result ≡ is_instr version self }
    {
        match self {
            Instr::Values(instr) => instr.is_legal(version),
            Instr::Flow(instr) => instr.is_legal(),
            Instr::Areas(instr) => instr.is_legal(),
            Instr::Records(instr) => instr.is_legal(),
            Instr::Screen(_) | Instr::Moves(_) => true,
        }
    }
}
