//! What stands in a finished code at a place.

ghost use Rattle.std.specs.Prelude.{◌≡◌, IfOk};
ghost use Rattle.prg_expr.specs.Tree.{tree_of};
ghost use Rattle.prg_commands.specs.Acts as acts;
ghost use Rattle.prg_commands.specs.Layout.{scope_in, Knows, ExprLaid};
ghost use Rattle.prg_laid.specs.Layout.{laying};
ghost use Rattle.prg_values.specs.Placed.{InstrStands, Leaves};
ghost use Rattle.prg_values.specs.Readings.{scoped};
ghost use Rattle.prg_values.specs.Written.{whole_as_value};

use crate::fault::{FoundLaid, OTHERWISE};
use crate::known::KnownStates;
use code_items::{Declared, Instr, State};
use code_rules::blocks::Block;
use fixed_num::Num;
use prg_code::Names;
use prg_expr::Expr;
use prg_values::{Finished, Given, Scope, behind, behind_constant, given_at};
use std::alloc::Global;
use xvalue::{Kind, Value};

/// A finished code, what it declares, the slots of its variables, what is known before each of its places, and the
/// blocks of its filters. Places, and filters, are counted from 0.
#[derive(Clone, Copy)]
pub struct Layout<'a> {
    pub alloc: Global,
    pub text: Finished<'a>,
    pub declared: &'a Declared,
    pub names: &'a Names,
    pub known: &'a KnownStates,
    pub filters: &'a [Block],
}

/// The place behind the instruction, if it stands at this place.
pub fn after(l: &Layout, place: usize, instr: Instr) -> FoundLaid<usize>
    ensures { IfOk result (λ b. InstrStands (laying l.now).text place instr b) }
{
    behind(&l.text, place, instr).ok_or(OTHERWISE)
}

/// What is known before the place.
pub fn known<'a>(l: &'a Layout, place: usize) -> FoundLaid<&'a State>
    ensures { IfOk result (λ s. Knows (laying l.now) place s.now) }
{
    l.known.get(place).ok_or(OTHERWISE)
}

/// What names mean where this is known.
pub fn scope_of<'a>(l: &'a Layout, state: &'a State, in_filter: bool) -> Scope<'a>
    ensures { scoped result ≡ scope_in (laying l.now) state.now in_filter }
{
    Scope {
        shape: &l.declared.shape,
        state,
        names: l.names,
        in_filter,
    }
}

/// The expression's kind and the place behind its code, if its code stands at this place.
pub fn given(l: &Layout, place: usize, e: &Expr) -> FoundLaid<Given>
    ensures { IfOk result (λ g. ExprLaid (laying l.now) place (tree_of e.now) g.kind g.end) }
{
    let state = known(l, place)?;
    given_in(l, &scope_of(l, state, false), place, e)
}

/// The same where names mean what they mean in the scope.
pub fn given_in(l: &Layout, scope: &Scope, place: usize, e: &Expr) -> FoundLaid<Given>
    ensures { IfOk result (λ g. Leaves (laying l.now).text (scoped scope.now) place (tree_of e.now) g.kind g.end) }
{
    given_at(l.alloc, &l.text, scope, place, e)?.ok_or(OTHERWISE)
}

/// The place behind the expression's code, if that stands at this place and its value is of this kind.
pub fn given_as(l: &Layout, place: usize, e: &Expr, kind: Kind) -> FoundLaid<usize>
    ensures { IfOk result (λ b. ExprLaid (laying l.now) place (tree_of e.now) kind b) }
{
    let given = given(l, place, e)?;
    if given.kind == kind {
        Ok(given.end)
    } else {
        Err(OTHERWISE)
    }
}

/// The place behind an instruction that puts the constant on the stack, if one stands at this place.
pub fn puts(l: &Layout, place: usize, value: &Value) -> FoundLaid<usize>
    ensures { IfOk result (λ b. acts.ConstantStands (laying l.now) place value.now b) }
{
    behind_constant(&l.text, place, value).ok_or(OTHERWISE)
}

/// The same for the number 1.
pub fn puts_one(l: &Layout, place: usize) -> FoundLaid<usize>
    ensures { IfOk result (λ b. acts.ConstantStands (laying l.now) place (whole_as_value 1) b) }
{
    puts(l, place, &Value::Number(Num::from(1u32)))
}
