//! Moves, and commands on records.

ghost use Rattle.std.specs.Prelude.{◌≡◌, IfOk, OnOk, map, option_map};
ghost use Rattle.code_items.specs.declared.instr.MoveInstr.TheVariants as move_instr;
ghost use Rattle.prg_expr.specs.Tree.{tree_of};
ghost use Rattle.prg_commands.specs.Acts as acts;
ghost use Rattle.prg_line.specs.Act.{change_of, goal_of};

use crate::areas::opened;
use crate::sink::Sink;
use crate::values::{demand, put_one, value_of_kind};
use code_items::{Instr, MoveInstr, Name, OpenArea, RecordInstr};
use prg_code::{CompileError, CompileFaultKind};
use prg_expr::Expr;
use prg_line::{Move, Replacement};
use prg_values::{FieldPlace, selected_field};
use xvalue::Kind;

/// Filter where the area's filter needs a variable that isn't known to have its value.
pub(crate) fn demand_filter<S: Sink>(sink: &S, area: OpenArea) -> Result<(), CompileError> {
    if sink.meets_filter(area) {
        Ok(())
    } else {
        Err(CompileError::Fault(CompileFaultKind::Filter))
    }
}

/// Puts a move of the selected work area, whose operands are on the stack.
fn put_move<S: Sink>(sink: &mut S, instr: MoveInstr) -> Result<(), CompileError>
    ensures laid { S.judges → OnOk result (acts.Moved (S.laying sink.old) (S.place sink.old) instr
        (S.place sink.new)) }
    ensures same { S.laying sink.new ≡ S.laying sink.old }
{
    let area = opened(sink)?;
    demand_filter(sink, area)?;
    sink.put(Instr::Moves(instr))
}

/// Puts a move to the first visible row.
pub fn put_top<S: Sink>(sink: &mut S) -> Result<(), CompileError>
    ensures laid { S.judges → OnOk result (acts.Moved (S.laying sink.old) (S.place sink.old) move_instr.Top
        (S.place sink.new)) }
    ensures same { S.laying sink.new ≡ S.laying sink.old }
{
    put_move(sink, MoveInstr::Top)
}

/// `GO`.
pub fn go<S: Sink>(sink: &mut S, to: &Move) -> Result<(), CompileError>
    ensures laid { S.judges → OnOk result (acts.Gone (S.laying sink.old) (S.place sink.old) (goal_of to.now)
        (S.place sink.new)) }
    ensures same { S.laying sink.new ≡ S.laying sink.old }
{
    match to {
        Move::Top => put_move(sink, MoveInstr::Top),
        Move::Bottom => put_move(sink, MoveInstr::Bottom),
        Move::Record(e) => {
            value_of_kind(sink, e, Kind::Number)?;
            put_move(sink, MoveInstr::Go)
        }
    }
}

/// Puts how many rows a SKIP moves on: 1 unless it is said.
fn put_count<S: Sink>(sink: &mut S, rows: &Option<Expr>) -> Result<(), CompileError>
    ensures laid { S.judges → OnOk result (acts.Counted (S.laying sink.old) (S.place sink.old)
        (option_map tree_of rows.now) (S.place sink.new)) }
    ensures same { S.laying sink.new ≡ S.laying sink.old }
{
    match rows {
        Some(e) => value_of_kind(sink, e, Kind::Number),
        None => put_one(sink),
    }
}

/// `SKIP [rows]`.
pub fn skip<S: Sink>(sink: &mut S, rows: &Option<Expr>) -> Result<(), CompileError>
    ensures laid { S.judges → OnOk result (acts.Skipped (S.laying sink.old) (S.place sink.old)
        (option_map tree_of rows.now) (S.place sink.new)) }
    ensures same { S.laying sink.new ≡ S.laying sink.old }
{
    put_count(sink, rows)?;
    put_move(sink, MoveInstr::Skip)
}

/// NoOrder where no index orders the selected work area.
fn demand_order<S: Sink>(sink: &S) -> Result<(), CompileError> {
    if opened(sink)?.order == 0 {
        return Err(CompileError::Fault(CompileFaultKind::NoOrder));
    }
    Ok(())
}

/// `SEEK key`.
pub fn seek<S: Sink>(sink: &mut S, key: &Expr) -> Result<(), CompileError>
    ensures laid { S.judges → OnOk result (acts.Sought (S.laying sink.old) (S.place sink.old) (tree_of key.now)
        (S.place sink.new)) }
    ensures same { S.laying sink.new ≡ S.laying sink.old }
{
    value_of_kind(sink, key, Kind::Text)?;
    demand_order(sink)?;
    put_move(sink, MoveInstr::Seek)
}

/// Puts a command on the records of the selected work area that ends with no move.
pub fn put_record<S: Sink>(sink: &mut S, instr: RecordInstr) -> Result<(), CompileError>
    ensures laid { S.judges → OnOk result (acts.OnRecords (S.laying sink.old) (S.place sink.old) instr
        (S.place sink.new)) }
    ensures same { S.laying sink.new ≡ S.laying sink.old }
{
    opened(sink)?;
    sink.put(Instr::Records(instr))
}

/// Puts a command on all records of the selected work area, which ends with a move.
pub fn put_all_records<S: Sink>(sink: &mut S, instr: RecordInstr) -> Result<(), CompileError>
    ensures laid { S.judges → OnOk result (acts.OnRecords (S.laying sink.old) (S.place sink.old) instr
        (S.place sink.new)) }
    ensures same { S.laying sink.new ≡ S.laying sink.old }
{
    let area = opened(sink)?;
    demand_filter(sink, area)?;
    sink.put(Instr::Records(instr))
}

/// The field of this name of the table that the selected work area holds: ClosedArea where that isn't known to be open,
/// Name where the table has no such field.
fn field_named<S: Sink>(sink: &S, name: &Name) -> Result<FieldPlace, CompileError>
    ensures { S.judges → IfOk result (acts.IsField (S.laying sink.now) (S.place sink.now) name.now.items) }
{
    opened(sink)?;
    let scope = sink.scope()?;
    match selected_field(&scope, name.as_slice()) {
        Ok(Some(field)) => Ok(field),
        _ => Err(CompileError::Fault(CompileFaultKind::Name)),
    }
}

/// One `field WITH value`.
fn replace_one<S: Sink>(sink: &mut S, change: &Replacement) -> Result<(), CompileError>
    ensures laid { S.judges → OnOk result (acts.ReplacedOne (S.laying sink.old) (S.place sink.old)
        (change_of change.now) (S.place sink.new)) }
    ensures same { S.laying sink.new ≡ S.laying sink.old }
{
    let kind = sink.value(&change.value)?;
    let field = field_named(sink, &change.field)?;
    demand(kind, field.kind)?;
    sink.put(Instr::Records(RecordInstr::Replace(field.number)))
}

/// `REPLACE field WITH value, ..`.
pub fn replace<S: Sink>(sink: &mut S, changes: &[Replacement]) -> Result<(), CompileError>
    ensures laid { S.judges → OnOk result (acts.Replaced (S.laying sink.old) (S.place sink.old)
        (map change_of changes.now) (S.place sink.new)) }
    ensures same { S.laying sink.new ≡ S.laying sink.old }
{
    let mut rest = changes;
    while let Some((change, others)) = rest.split_first() {
        replace_one(sink, change)?;
        rest = others;
    }
    Ok(())
}
