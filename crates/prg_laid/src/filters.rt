//! Filters of a finished code.

ghost use Rattle.std.specs.Prelude.{◌≡◌, IfOk, true};
ghost use Rattle.prg_expr.specs.Tree.{tree_of};
ghost use Rattle.prg_commands.specs.Acts as acts;
ghost use Rattle.prg_laid.specs.Layout.{laying};

use crate::fault::{FoundLaid, OTHERWISE};
use crate::layout::{Layout, given_in, known, scope_of};
use code_items::{Filter, State};
use code_rules::blocks::Block;
use prg_expr::Expr;
use xvalue::Kind;

/// Whether the filter is of the table that the selected work area holds.
fn is_of_selected(state: &State, filter: &Filter) -> bool
    ensures { result ≡ true → acts.IsOfSelected state.now filter.now }
{
    match state.desk.selected_area() {
        Some(area) => u16::from(filter.table) == area.table,
        None => false,
    }
}

/// Ok if the code of the condition is the whole block, and else a fault.
fn demand_block(l: &Layout, state: &State, e: &Expr, block: &Block) -> FoundLaid<()>
    ensures { IfOk result (λ _. acts.IsBlock (laying l.now) state.now (tree_of e.now) block.now) }
{
    let given = given_in(l, &scope_of(l, state, true), block.first, e)?;
    if given.kind == Kind::Logical && given.end == block.end {
        Ok(())
    } else {
        Err(OTHERWISE)
    }
}

/// Ok if the filter of this number, counted from 1, is this condition's, and else a fault.
pub fn demand_filter(l: &Layout, place: usize, e: &Expr, number: u16) -> FoundLaid<()>
    ensures { IfOk result (λ _. acts.IsFilterNumber (laying l.now) place (tree_of e.now) number) }
{
    if number == 0 {
        return Err(OTHERWISE);
    }
    demand_counted(l, place, e, usize::from(number) - 1)
}

/// The same of the filter of this number, counted from 0.
fn demand_counted(l: &Layout, place: usize, e: &Expr, number: usize) -> FoundLaid<()>
    ensures { IfOk result (λ _. acts.IsFilter (laying l.now) place (tree_of e.now) number) }
{
    let state = known(l, place)?;
    let filters = l.declared.filters.as_slice();
    let filter = filters.get(number).ok_or(OTHERWISE)?;
    let block = l.filters.get(number).ok_or(OTHERWISE)?;
    if is_of_selected(state, filter) {
        demand_block(l, state, e, block)
    } else {
        Err(OTHERWISE)
    }
}
