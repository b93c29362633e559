//! Commands on variables.

ghost use Rattle.std.specs.Prelude.{◌≡◌, IfOk, OnOk, Some, map};
ghost use Rattle.prg_code.specs.Bindings.{slot_named};
ghost use Rattle.prg_commands.specs.Acts as acts;
ghost use Rattle.prg_expr.specs.Tree.{tree_of};
ghost use Rattle.prg_line.specs.Act.{letters_of};

use crate::sink::Sink;
use crate::values::put_value;
use code_items::{Name, ValueInstr};
use prg_code::{CompileError, CompileFaultKind};
use prg_expr::Expr;
use prg_line::Toggle;
use prg_values::setting_of;
use xvalue::Kind;

/// Takes the value on top into the variable.
pub(crate) fn put_store<S: Sink>(sink: &mut S, name: &Name, kind: Kind) -> Result<(), CompileError>
    ensures laid { S.judges → OnOk result (acts.Stored (S.laying sink.old) (S.place sink.old) name.now.items kind
        (S.place sink.new)) }
    ensures same { S.laying sink.new ≡ S.laying sink.old }
{
    let slot = sink.slot(name)?;
    put_value(sink, ValueInstr::Store(kind, u16::from(slot)))
}

/// `variable = value`.
pub fn assign<S: Sink>(sink: &mut S, name: &Name, e: &Expr) -> Result<(), CompileError>
    ensures laid { S.judges → OnOk result (acts.Assigned (S.laying sink.old) (S.place sink.old) name.now.items
        (tree_of e.now) (S.place sink.new)) }
    ensures same { S.laying sink.new ≡ S.laying sink.old }
{
    let kind = sink.value(e)?;
    put_store(sink, name, kind)
}

/// Each further variable gets the value of the slot.
fn copy_to<S: Sink>(sink: &mut S, kind: Kind, slot: u8, names: &[Name]) -> Result<(), CompileError>
    ensures laid { S.judges → OnOk result (acts.Copied (S.laying sink.old) (S.place sink.old) kind slot
        (map letters_of names.now) (S.place sink.new)) }
    ensures same { S.laying sink.new ≡ S.laying sink.old }
{
    let mut rest = names;
    while let Some((name, others)) = rest.split_first() {
        put_value(sink, ValueInstr::Load(kind, u16::from(slot)))?;
        put_store(sink, name, kind)?;
        rest = others;
    }
    Ok(())
}

/// `STORE value TO variables`: each further variable gets the first one's value.
pub fn store<S: Sink>(sink: &mut S, e: &Expr, names: &[Name]) -> Result<(), CompileError>
    ensures laid { S.judges → OnOk result (acts.StoredAll (S.laying sink.old) (S.place sink.old) (tree_of e.now)
        (map letters_of names.now) (S.place sink.new)) }
    ensures same { S.laying sink.new ≡ S.laying sink.old }
{
    let kind = sink.value(e)?;
    let Some((first, others)) = names.split_first() else {
        return Err(CompileError::Fault(CompileFaultKind::Name));
    };
    let slot = sink.slot(first)?;
    put_value(sink, ValueInstr::Store(kind, u16::from(slot)))?;
    copy_to(sink, kind, slot, others)
}

/// The slot of a variable that is there: Name where there is none.
fn slot_of<S: Sink>(sink: &S, name: &Name) -> Result<u8, CompileError>
    ensures { S.judges → IfOk result (λ slot. slot_named (S.laying sink.now).names name.now.items ≡ Some slot) }
{
    let scope = sink.scope()?;
    match scope.names.slot(name) {
        Some(slot) => Ok(slot),
        None => Err(CompileError::Fault(CompileFaultKind::Name)),
    }
}

/// `RELEASE variables`.
pub fn release<S: Sink>(sink: &mut S, names: &[Name]) -> Result<(), CompileError>
    ensures laid { S.judges → OnOk result (acts.Released (S.laying sink.old) (S.place sink.old)
        (map letters_of names.now) (S.place sink.new)) }
    ensures same { S.laying sink.new ≡ S.laying sink.old }
{
    let mut rest = names;
    while let Some((name, others)) = rest.split_first() {
        let slot = slot_of(sink, name)?;
        put_value(sink, ValueInstr::Unset(u16::from(slot)))?;
        rest = others;
    }
    Ok(())
}

/// `SET setting ON` or `OFF`.
pub fn set<S: Sink>(sink: &mut S, toggle: Toggle, on: bool) -> Result<(), CompileError>
    ensures laid { S.judges → OnOk result (acts.IsSet (S.laying sink.old) (S.place sink.old) toggle on
        (S.place sink.new)) }
    ensures same { S.laying sink.new ≡ S.laying sink.old }
{
    put_value(sink, ValueInstr::Set(setting_of(toggle), on))
}
