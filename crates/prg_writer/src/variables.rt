//! Slots of variables, and arguments that are handed over by reference.

ghost use Rattle.std.specs.Prelude.{◌≡◌, ◌+◌, IfOk, OnOk, Some};
ghost use Rattle.prg_code.specs.Bindings.{slot_named};
ghost use Rattle.prg_expr.specs.Tree.{tree_of};
ghost use Rattle.prg_values.specs.Readings.{scoped, FindsReading};
ghost use Rattle.prg_writer.specs.Arguments.{by_reference, named_reference, qualified_reference, scope_at};

use crate::writer::Writer;
use code_items::Name;
use prg_code::{CompileError, CompileFaultKind, Output, Variable};
use prg_expr::{AliasedName, Expr};
use prg_values::{Scope, selected_field, variable_slot};

/// The most slots of a code.
const MOST_SLOTS: u16 = 256;

/// A slot that wasn't given out before. Limit where there is none.
pub(crate) fn new_slot(out: &mut Output) -> Result<u8, CompileError>
    ensures next { IfOk result (λ slot. slot ≡ out.old.slots) }
    ensures given { OnOk result (out.new.slots ≡ out.old.slots + 1) }
{
    let slot = out.slots;
    if slot >= MOST_SLOTS {
        return Err(CompileError::Fault(CompileFaultKind::Limit));
    }
    match u8::try_from(slot) {
        Ok(number) => {
            out.slots = slot + 1;
            Ok(number)
        }
        Err(_) => Err(CompileError::Fault(CompileFaultKind::Limit)),
    }
}

impl Writer<'_> {
    /// The slot of a variable that is set: a new one of the procedure's own where there is no such variable.
    pub(crate) fn bound_slot(&mut self, name: &Name) -> Result<u8, CompileError>
        ensures named { IfOk result (λ slot. slot_named self.new.work.names name.now.items ≡ Some slot) }
        ensures block { self.new.work.block ≡ self.old.work.block }
    {
        if let Some(slot) = self.work.names.slot(name) {
            return Ok(slot);
        }
        let slot = new_slot(&mut self.out)?;
        self.work.own.push(slot)?;
        self.work.names.set(name, Variable { slot, own: true })?;
        Ok(slot)
    }
}

/// The slot of an argument that is handed over by reference: a name alone that is no field, or one behind `M->`. None
/// of any other expression, which is handed over by value.
#[tactic(auto, using(prg_expr::proofs::Equations::tree_equations))]
pub(crate) fn argument_slot(w: &Writer, e: &Expr) -> Result<Option<u8>, CompileFaultKind>
    ensures { FindsReading result (by_reference (scope_at w.now) (tree_of e.now)) }
{
    let scope = w.scope_here();
    match e {
        Expr::Name(name) => named_slot(&scope, name),
        Expr::Qualified(aliased) => {
            let AliasedName { alias, name } = &**aliased;
            qualified_slot(&scope, alias.as_slice(), name)
        }
        Expr::Number(_) => Ok(None),
        Expr::Text(_) => Ok(None),
        Expr::Logical(_) => Ok(None),
        Expr::Call(_, _) => Ok(None),
        Expr::Parentheses(_) => Ok(None),
        Expr::Prefixed(_, _) => Ok(None),
        Expr::Binary(_, _, _) => Ok(None),
    }
}

/// The slot of a name alone, if that is no field.
fn named_slot(scope: &Scope, name: &Name) -> Result<Option<u8>, CompileFaultKind>
    ensures { FindsReading result (named_reference (scoped scope.now) name.now.items) }
{
    match selected_field(scope, name.as_slice())? {
        Some(_) => Ok(None),
        None => Ok(Some(variable_slot(scope, name)?)),
    }
}

/// The slot of a name behind an alias, if that is `M`.
fn qualified_slot(scope: &Scope, alias: &[u8], name: &Name) -> Result<Option<u8>, CompileFaultKind>
    ensures { FindsReading result (qualified_reference (scoped scope.now) alias.now name.now.items) }
{
    if alias == b"M".as_slice() {
        return Ok(Some(variable_slot(scope, name)?));
    }
    Ok(None)
}
