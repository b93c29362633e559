//! The kinds of expressions, and the first fault of one that has none.

ghost use Rattle.std.specs.Prelude.{◌≡◌, Some, IfOk};
ghost use Rattle.prg_expr.specs.Tree.{tree_of, trees_of};
ghost use Rattle.prg_values.specs.Readings.{scoped, FindsReading, read_name as read_name_of};
ghost use Rattle.prg_values.specs.Readings.{read_qualified as read_qualified_of};
ghost use Rattle.prg_values.specs.Written as spec;

use crate::arguments::{Kinds, MOST_ARGUMENTS};
use crate::calls::call_kind;
use crate::operators::{operated, prefix_kind};
use crate::scope::{Reading, Scope, read_name, read_qualified};
use prg_code::CompileFaultKind;
use prg_expr::{AliasedName, BinaryOperator, Expr, Name, Prefix};
use xvalue::Kind;

fn name_kind(scope: &Scope, name: &Name) -> Result<Kind, CompileFaultKind>
    ensures { FindsReading result (spec.reading_kind (read_name_of (scoped scope.now) name.now.items)) }
{
    let Reading { kind, .. } = read_name(scope, name)?;
    Ok(kind)
}

fn qualified_kind(scope: &Scope, alias: &[u8], name: &Name) -> Result<Kind, CompileFaultKind>
    ensures { FindsReading result (spec.reading_kind (read_qualified_of (scoped scope.now) alias.now name.now.items)) }
{
    let Reading { kind, .. } = read_qualified(scope, alias, name)?;
    Ok(kind)
}

fn prefixed_kind(prefix: Prefix, kind: Kind) -> Result<Kind, CompileFaultKind>
    ensures { FindsReading result (spec.prefixed_kind prefix kind) }
{
    let wanted = prefix_kind(prefix);
    if kind.is(wanted) {
        Ok(wanted)
    } else {
        Err(CompileFaultKind::Kind)
    }
}

fn operated_kind(
    operator: BinaryOperator,
    left: Kind,
    right: Kind,
) -> Result<Kind, CompileFaultKind>
    ensures { FindsReading result (spec.operated_kind operator left right) }
{
    match operated(operator, left, right) {
        Some(operation) => Ok(operation.fun.gives()),
        None => Err(CompileFaultKind::Kind),
    }
}

/// The kind of an expression, or its first fault in the order of its code: operands from the left, then the operator or
/// function.
#[cycle(kinds)]
pub fn kind_of(scope: &Scope, e: &Expr) -> Result<Kind, CompileFaultKind>
    ensures { IfOk result (λ kind. spec.kind_in (scoped scope.now) (tree_of e.now) ≡ Some kind) }
{
    match e {
        Expr::Number(_) => Ok(Kind::Number),
        Expr::Text(_) => Ok(Kind::Text),
        Expr::Logical(_) => Ok(Kind::Logical),
        Expr::Name(name) => name_kind(scope, name),
        Expr::Qualified(aliased) => {
            let AliasedName { alias, name } = &**aliased;
            qualified_kind(scope, alias.as_slice(), name)
        }
        Expr::Call(function, arguments) => {
            let mut kinds = kinds_of(scope, arguments)?;
            call_kind(scope, *function, &mut kinds)
        }
        Expr::Parentheses(inner) => kind_of(scope, inner),
        Expr::Prefixed(prefix, operand) => {
            let kind = kind_of(scope, operand)?;
            prefixed_kind(*prefix, kind)
        }
        Expr::Binary(operator, left, right) => {
            let left = kind_of(scope, left)?;
            let right = kind_of(scope, right)?;
            operated_kind(*operator, left, right)
        }
    }
}

/// The kinds of up to four expressions. Kind where there are more, which no function takes.
#[cycle(kinds)]
pub fn kinds_of(scope: &Scope, es: &[Expr]) -> Result<Kinds, CompileFaultKind>
    ensures { IfOk result (λ kinds. spec.kinds_in (scoped scope.now) (trees_of es.now) ≡ Some kinds) }
{
    let mut kinds = Kinds::new();
    for e in es {
        let kind = kind_of(scope, e)?;
        if kinds.len() >= MOST_ARGUMENTS {
            return Err(CompileFaultKind::Kind);
        }
        kinds.push(kind);
    }
    Ok(kinds)
}
