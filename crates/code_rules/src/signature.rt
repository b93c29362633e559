//! How many values an instruction takes and adds, and where it may stand and lead.

ghost use Rattle.std.specs.Prelude.{◌≡◌};
ghost use Rattle.code_rules.specs.Signature.{base, growing as growing_of, ending as ending_of, leaving as leaving_of};
ghost use Rattle.code_rules.specs.Signature.{value_signature, flow_signature, screen_signature, area_signature};
ghost use Rattle.code_rules.specs.Signature.{move_signature, record_signature, signature as signature_of, target_of};
ghost use Rattle.code_rules.specs.Signature.{call_of, record_area, area_of};

use code_items::{
    AreaInstr, Desk, FlowInstr, Instr, MoveInstr, RecordInstr, ScreenInstr, ValueInstr,
};

/// What the verifier and the machines must know of an instruction, whatever its kinds.
#[derive(Clone, Copy, PartialEq, Eq, Debug)]
pub struct Signature {
    /// How many values it takes off the stack.
    pub taken: usize,
    /// How many values it adds to the stack.
    pub adds: usize,
    /// Whether it may go on at the place behind it.
    pub falls: bool,
    /// Whether it leaves the stack empty, but for what it adds.
    pub empties: bool,
    /// Whether it may take memory.
    pub grows: bool,
    /// Whether it ends with a move under the filter that is set.
    pub moves: bool,
}

/// An instruction that takes and adds so many values, and that is all.
fn plain(taken: usize, adds: usize) -> Signature
    ensures { result ≡ base taken adds }
{
    Signature {
        taken,
        adds,
        falls: true,
        empties: false,
        grows: false,
        moves: false,
    }
}

/// A plain instruction that may take memory.
fn growing(taken: usize) -> Signature
    ensures { result ≡ growing_of taken }
{
    Signature {
        grows: true,
        ..plain(taken, 0)
    }
}

/// An instruction that leaves the stack empty, and may take memory, or ends with a move.
fn ending(taken: usize, grows: bool, moves: bool) -> Signature
    ensures { result ≡ ending_of taken grows moves }
{
    Signature {
        empties: true,
        grows,
        moves,
        ..plain(taken, 0)
    }
}

/// An instruction that doesn't go on behind itself.
fn leaving(empties: bool) -> Signature
    ensures { result ≡ leaving_of empties }
{
    Signature {
        falls: false,
        empties,
        ..plain(0, 0)
    }
}

fn of_values(instr: ValueInstr) -> Signature
    ensures { result ≡ value_signature instr }
{
    match instr {
        ValueInstr::Constant(_) | ValueInstr::Load(_, _) | ValueInstr::Today => plain(0, 1),
        ValueInstr::Store(_, _) | ValueInstr::Discard(_) => plain(1, 0),
        ValueInstr::Function(fun) => plain(fun.takes().len(), 1),
        ValueInstr::Unset(_) | ValueInstr::Set(_, _) => plain(0, 0),
    }
}

fn of_flow(instr: FlowInstr) -> Signature
    ensures { result ≡ flow_signature instr }
{
    match instr {
        FlowInstr::Jump(_) => leaving(false),
        FlowInstr::JumpFalse(_) => plain(1, 0),
        FlowInstr::Call(_) => ending(0, false, false),
        FlowInstr::Return | FlowInstr::End => leaving(true),
    }
}

fn of_screen(instr: ScreenInstr) -> Signature
    ensures { result ≡ screen_signature instr }
{
    match instr {
        ScreenInstr::NewLine | ScreenInstr::Clear => growing(0),
        ScreenInstr::Print(_) => growing(1),
        ScreenInstr::Say(_) => plain(3, 0),
        ScreenInstr::SayOn(_) => plain(1, 0),
        ScreenInstr::Input(_) => plain(1, 1),
        ScreenInstr::Line => plain(0, 1),
    }
}

fn of_areas(instr: AreaInstr) -> Signature
    ensures { result ≡ area_signature instr }
{
    match instr {
        AreaInstr::Open { .. } => ending(0, true, false),
        AreaInstr::Close | AreaInstr::CloseAll => ending(0, false, false),
        AreaInstr::Select(_) | AreaInstr::Order(_) | AreaInstr::Filter(_) => plain(0, 0),
    }
}

fn of_moves(instr: MoveInstr) -> Signature
    ensures { result ≡ move_signature instr }
{
    match instr {
        MoveInstr::Top | MoveInstr::Bottom => ending(0, false, true),
        MoveInstr::Skip | MoveInstr::Go | MoveInstr::Seek => ending(1, false, true),
    }
}

fn of_records(instr: RecordInstr) -> Signature
    ensures { result ≡ record_signature instr }
{
    match instr {
        RecordInstr::Field { .. } | RecordInstr::RowField(_) | RecordInstr::Ask(_) => plain(0, 1),
        RecordInstr::Append => ending(0, true, false),
        RecordInstr::Replace(_) => growing(1),
        RecordInstr::Delete | RecordInstr::Recall => plain(0, 0),
        RecordInstr::Pack | RecordInstr::Zap | RecordInstr::Reindex | RecordInstr::Index(_) => {
            ending(0, true, true)
        }
    }
}

impl Signature {
    /// What must be known of the instruction, whatever its kinds.
    pub fn of(instr: Instr) -> Signature
        ensures { result ≡ signature_of instr }
    {
        match instr {
            Instr::Values(instr) => of_values(instr),
            Instr::Flow(instr) => of_flow(instr),
            Instr::Screen(instr) => of_screen(instr),
            Instr::Areas(instr) => of_areas(instr),
            Instr::Moves(instr) => of_moves(instr),
            Instr::Records(instr) => of_records(instr),
        }
    }
}

/// The place that the instruction names, counted from 0, if it is a jump.
pub fn target(instr: Instr) -> Option<u32>
    ensures { result ≡ target_of instr }
{
    match instr {
        Instr::Flow(FlowInstr::Jump(place)) | Instr::Flow(FlowInstr::JumpFalse(place)) => Some(
            place,
        ),
        _ => None,
    }
}

/// The procedure that the instruction names, counted from 0, if it is a call.
pub fn called(instr: Instr) -> Option<u16>
    ensures { result ≡ call_of instr }
{
    match instr {
        Instr::Flow(FlowInstr::Call(number)) => Some(number),
        _ => None,
    }
}

fn of_record_area(selected: u8, instr: RecordInstr) -> Option<u8>
    ensures { result ≡ record_area selected instr }
{
    match instr {
        RecordInstr::Field { area, .. } => Some(area),
        RecordInstr::RowField(_) => None,
        _ => Some(selected),
    }
}

/// The work area that has to be open, counted from 1, if one has to be.
pub fn area(desk: &Desk, instr: Instr) -> Option<u8>
    ensures { result ≡ area_of desk.now instr }
{
    match instr {
        Instr::Areas(AreaInstr::Order(_)) | Instr::Areas(AreaInstr::Filter(_)) => Some(
            desk.selected,
        ),
        Instr::Moves(_) => Some(desk.selected),
        Instr::Records(instr) => of_record_area(desk.selected, instr),
        _ => None,
    }
}
