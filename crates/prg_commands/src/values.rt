//! Expressions within commands.

ghost use Rattle.std.specs.Prelude.{◌≡◌, ◌≢◌, IfErr, IfOk, OnOk};
ghost use Rattle.prg_code.specs.declared.fault.CompileError.TheVariants as error;
ghost use Rattle.prg_code.specs.declared.fault.CompileFaultKind.TheVariants as fault;
ghost use Rattle.prg_expr.specs.Tree.{tree_of};
ghost use Rattle.prg_commands.specs.Acts as acts;
ghost use Rattle.prg_commands.specs.Layout.{ExprLaid, Means};
ghost use Rattle.prg_values.specs.Written.{whole_as_value};

use crate::sink::Sink;
use code_items::{Instr, Name, ScreenInstr, ValueInstr};
use fixed_num::Num;
use prg_code::{CompileError, CompileFaultKind};
use prg_expr::Expr;
use prg_values::{Reading, read_name};
use xvalue::{Kind, Value};

/// Kind where the two differ.
pub(crate) fn demand(kind: Kind, wanted: Kind) -> Result<(), CompileError>
    ensures same { OnOk result (kind ≡ wanted) }
    ensures other { IfErr result (λ e. (e ≡ error.Fault fault.Kind) × (kind ≢ wanted)) }
{
    if kind.is(wanted) {
        Ok(())
    } else {
        Err(CompileError::Fault(CompileFaultKind::Kind))
    }
}

/// Puts the code of an expression of this kind.
pub(crate) fn value_of_kind<S: Sink>(
    sink: &mut S,
    e: &Expr,
    wanted: Kind,
) -> Result<(), CompileError>
    ensures laid { S.judges → OnOk result (ExprLaid (S.laying sink.old) (S.place sink.old) (tree_of e.now) wanted
        (S.place sink.new)) }
    ensures same { S.laying sink.new ≡ S.laying sink.old }
{
    let kind = sink.value(e)?;
    demand(kind, wanted)
}

/// Puts the number 1.
pub(crate) fn put_one<S: Sink>(sink: &mut S) -> Result<(), CompileError>
    ensures laid { S.judges → OnOk result (acts.ConstantStands (S.laying sink.old) (S.place sink.old)
        (whole_as_value 1) (S.place sink.new)) }
    ensures same { S.laying sink.new ≡ S.laying sink.old }
{
    sink.constant(Value::Number(Num::from(1u32)))
}

pub(crate) fn put_screen<S: Sink>(sink: &mut S, instr: ScreenInstr) -> Result<(), CompileError>
    ensures laid { S.judges → OnOk result (acts.OnScreen (S.laying sink.old) (S.place sink.old) instr
        (S.place sink.new)) }
    ensures same { S.laying sink.new ≡ S.laying sink.old }
{
    sink.put(Instr::Screen(instr))
}

pub(crate) fn put_value<S: Sink>(sink: &mut S, instr: ValueInstr) -> Result<(), CompileError>
    ensures laid { S.judges → OnOk result (acts.OnValues (S.laying sink.old) (S.place sink.old) instr
        (S.place sink.new)) }
    ensures same { S.laying sink.new ≡ S.laying sink.old }
{
    sink.put(Instr::Values(instr))
}

/// What reads the name here.
pub(crate) fn reading_of<S: Sink>(sink: &S, name: &Name) -> Result<Reading, CompileError>
    ensures { S.judges → IfOk result (Means (S.laying sink.now) (S.place sink.now) name.now.items) }
{
    let scope = sink.scope()?;
    match read_name(&scope, name) {
        Ok(reading) => Ok(reading),
        Err(fault) => Err(CompileError::Fault(fault)),
    }
}
