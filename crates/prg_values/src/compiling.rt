//! The code of expressions.

ghost use Rattle.std.specs.Prelude.{◌≡◌, IfErr, IfOk};
ghost use Rattle.prg_code.specs.Parts.{told_at};
ghost use Rattle.prg_code.specs.declared.fault.CompileError.{CompileError as AnyError};
ghost use Rattle.std.specs.List.{AllZip};
ghost use Rattle.prg_code.specs.Numbers.{Grows};
ghost use Rattle.prg_expr.specs.Tree.{tree_of};
ghost use Rattle.xvalue.specs.declared.kind.Kind.{Kind as AnyKind};
ghost use Rattle.prg_values.specs.Readings.{scoped};
ghost use Rattle.prg_values.specs.Written.{IsPiece, IsWrittenExpr};

use crate::kinds::kind_of;
use crate::pieces::{Piece, pieces_of};
use crate::scope::Scope;
use code_items::{Instr, ValueInstr};
use prg_code::{CompileError, CompileRefusal, Pool};
use prg_expr::Expr;
use std::alloc::Global;

/// The instruction of a piece, whose constant is added to the pool.
fn numbered(pool: &mut Pool, piece: &Piece) -> Result<Instr, CompileError>
    ensures is { IfOk result (IsPiece pool.new piece.now) }
    ensures grown { Grows pool.old pool.new }
{
    match piece {
        Piece::Constant(value) => {
            let number = pool.number_of(value.copied())?;
            Ok(Instr::Values(ValueInstr::Constant(number)))
        }
        Piece::Does(instr) => Ok(*instr),
    }
}

fn all_numbered(
    alloc: Global,
    pool: &mut Pool,
    pieces: &[Piece],
) -> Result<Vec<Instr>, CompileError>
    ensures are { IfOk result (λ code. AllZip (IsPiece pool.new) pieces.now code.items) }
    ensures grown { Grows pool.old pool.new }
{
    let mut code = Vec::new(alloc);
    for piece in pieces {
        code.push(numbered(pool, piece)?)?;
    }
    Ok(code)
}

fn written(
    alloc: Global,
    e: &Expr,
    scope: &Scope,
    pool: &mut Pool,
) -> Result<Vec<Instr>, CompileError>
    ensures ok { IfOk result (λ code. (kind : AnyKind)
        × IsWrittenExpr (scoped scope.now) (tree_of e.now) kind pool.new code.items) }
    ensures grown { Grows pool.old pool.new }
{
    let _kind = kind_of(scope, e)?;
    let pieces = pieces_of(alloc, scope, e)?;
    all_numbered(alloc, pool, &pieces)
}

/// The code of an expression, which leaves its value on top. Its constants are added to the pool. Where one of them has
/// no number left, or memory runs out, those before it stay there.
///
/// # Errors
///
/// The expression's first fault, without file and line; want of memory.
pub fn compile_expr(
    alloc: Global,
    e: &Expr,
    scope: &Scope,
    pool: &mut Pool,
) -> Result<Vec<Instr>, CompileRefusal>
    ensures ok { IfOk result (λ code. (kind : AnyKind)
        × IsWrittenExpr (scoped scope.now) (tree_of e.now) kind pool.new code.items) }
    ensures told { IfErr result (λ refusal. (error : AnyError) × (refusal ≡ told_at error 0 0)) }
    ensures grown { Grows pool.old pool.new }
{
    match written(alloc, e, scope, pool) {
        Ok(code) => Ok(code),
        Err(error) => Err(error.at(0, 0)),
    }
}
