//! Whether two instructions are one.

ghost use Rattle.std.specs.Prelude.{◌≡◌, true};

use code_items::{AreaInstr, FlowInstr, Instr, MoveInstr, RecordInstr, ScreenInstr, ValueInstr};
use xvalue::Fun;
use xvalue::laws::functions_have_their_numbers;

fn is_same_function(one: Fun, two: Fun) -> bool
    ensures { result ≡ true → one ≡ two }
{
    functions_have_their_numbers();
    one.number() == two.number()
}

fn are_same_values(one: ValueInstr, two: ValueInstr) -> bool
    ensures { result ≡ true → one ≡ two }
{
    match (one, two) {
        (ValueInstr::Constant(a), ValueInstr::Constant(b)) => a == b,
        (ValueInstr::Load(k, a), ValueInstr::Load(j, b)) => k == j && a == b,
        (ValueInstr::Store(k, a), ValueInstr::Store(j, b)) => k == j && a == b,
        (ValueInstr::Unset(a), ValueInstr::Unset(b)) => a == b,
        (ValueInstr::Discard(k), ValueInstr::Discard(j)) => k == j,
        (ValueInstr::Function(f), ValueInstr::Function(g)) => is_same_function(f, g),
        (ValueInstr::Today, ValueInstr::Today) => true,
        (ValueInstr::Set(s, a), ValueInstr::Set(t, b)) => s == t && a == b,
        _ => false,
    }
}

fn are_same_flow(one: FlowInstr, two: FlowInstr) -> bool
    ensures { result ≡ true → one ≡ two }
{
    match (one, two) {
        (FlowInstr::Jump(a), FlowInstr::Jump(b)) => a == b,
        (FlowInstr::JumpFalse(a), FlowInstr::JumpFalse(b)) => a == b,
        (FlowInstr::Call(a), FlowInstr::Call(b)) => a == b,
        (FlowInstr::Return, FlowInstr::Return) => true,
        (FlowInstr::End, FlowInstr::End) => true,
        _ => false,
    }
}

fn are_same_screen(one: ScreenInstr, two: ScreenInstr) -> bool
    ensures { result ≡ true → one ≡ two }
{
    match (one, two) {
        (ScreenInstr::NewLine, ScreenInstr::NewLine) => true,
        (ScreenInstr::Print(k), ScreenInstr::Print(j)) => k == j,
        (ScreenInstr::Say(k), ScreenInstr::Say(j)) => k == j,
        (ScreenInstr::SayOn(k), ScreenInstr::SayOn(j)) => k == j,
        (ScreenInstr::Input(k), ScreenInstr::Input(j)) => k == j,
        (ScreenInstr::Line, ScreenInstr::Line) => true,
        (ScreenInstr::Clear, ScreenInstr::Clear) => true,
        _ => false,
    }
}

fn are_same_areas(one: AreaInstr, two: AreaInstr) -> bool
    ensures { result ≡ true → one ≡ two }
{
    match (one, two) {
        (AreaInstr::Open { table: a, list: m }, AreaInstr::Open { table: b, list: n }) => {
            a == b && m == n
        }
        (AreaInstr::Close, AreaInstr::Close) => true,
        (AreaInstr::CloseAll, AreaInstr::CloseAll) => true,
        (AreaInstr::Select(a), AreaInstr::Select(b)) => a == b,
        (AreaInstr::Order(a), AreaInstr::Order(b)) => a == b,
        (AreaInstr::Filter(a), AreaInstr::Filter(b)) => a == b,
        _ => false,
    }
}

fn are_same_moves(one: MoveInstr, two: MoveInstr) -> bool
    ensures { result ≡ true → one ≡ two }
{
    match (one, two) {
        (MoveInstr::Top, MoveInstr::Top) => true,
        (MoveInstr::Bottom, MoveInstr::Bottom) => true,
        (MoveInstr::Skip, MoveInstr::Skip) => true,
        (MoveInstr::Go, MoveInstr::Go) => true,
        (MoveInstr::Seek, MoveInstr::Seek) => true,
        _ => false,
    }
}

fn are_same_fields(one: RecordInstr, two: RecordInstr) -> bool
    ensures { result ≡ true → one ≡ two }
{
    match (one, two) {
        (RecordInstr::Field { area: a, field: m }, RecordInstr::Field { area: b, field: n }) => a
            == b
            && m == n,
        (RecordInstr::RowField(a), RecordInstr::RowField(b)) => a == b,
        (RecordInstr::Ask(p), RecordInstr::Ask(q)) => p == q,
        (RecordInstr::Replace(a), RecordInstr::Replace(b)) => a == b,
        (RecordInstr::Index(a), RecordInstr::Index(b)) => a == b,
        _ => false,
    }
}

fn are_same_records(one: RecordInstr, two: RecordInstr) -> bool
    ensures { result ≡ true → one ≡ two }
{
    match (one, two) {
        (RecordInstr::Append, RecordInstr::Append) => true,
        (RecordInstr::Delete, RecordInstr::Delete) => true,
        (RecordInstr::Recall, RecordInstr::Recall) => true,
        (RecordInstr::Pack, RecordInstr::Pack) => true,
        (RecordInstr::Zap, RecordInstr::Zap) => true,
        (RecordInstr::Reindex, RecordInstr::Reindex) => true,
        _ => are_same_fields(one, two),
    }
}

/// Whether two instructions are one; where it says so, they are.
pub fn are_same(one: Instr, two: Instr) -> bool
    ensures { result ≡ true → one ≡ two }
{
    match (one, two) {
        (Instr::Values(a), Instr::Values(b)) => are_same_values(a, b),
        (Instr::Flow(a), Instr::Flow(b)) => are_same_flow(a, b),
        (Instr::Screen(a), Instr::Screen(b)) => are_same_screen(a, b),
        (Instr::Areas(a), Instr::Areas(b)) => are_same_areas(a, b),
        (Instr::Moves(a), Instr::Moves(b)) => are_same_moves(a, b),
        (Instr::Records(a), Instr::Records(b)) => are_same_records(a, b),
        _ => false,
    }
}
