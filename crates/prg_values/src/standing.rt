//! Whether the code of an expression stands in a finished code.

ghost use Rattle.std.specs.Prelude.{[], ◌∷◌, IfOk, IfSome};
ghost use Rattle.prg_expr.specs.Tree.{tree_of};
ghost use Rattle.prg_values.specs.Readings.{scoped};
ghost use Rattle.prg_values.specs.Placed.{text, InstrStands, StandAll, Leaves};
ghost use Rattle.prg_values.specs.Written.{Constant};

use crate::kinds::kind_of;
use crate::pieces::{Piece, pieces_of};
use crate::sameness::are_same;
use crate::scope::Scope;
use code_items::{Instr, ValueInstr};
use prg_code::{CompileError, is_same_constant};
use prg_expr::Expr;
use std::alloc::{AllocError, Global};
use xvalue::{Kind, Value};

/// A finished code: its instructions by place, and its constants by number, both counted from 0.
#[derive(Clone, Copy)]
pub struct Finished<'a> {
    pub instrs: &'a [Instr],
    pub constants: &'a [Value],
}

/// An expression whose code stands in a finished code: its kind, and the place behind its code.
#[derive(Clone, Copy)]
pub struct Given {
    pub kind: Kind,
    pub end: usize,
}

/// The place behind the instruction, if it stands at this place.
pub fn behind(f: &Finished, place: usize, instr: Instr) -> Option<usize>
    ensures { IfSome result (λ b. InstrStands (text f.now) place instr b) }
{
    match f.instrs.get(place) {
        Some(there) if are_same(*there, instr) => Some(place + 1),
        _ => None,
    }
}

/// The place behind an instruction that puts the constant on the stack, if one stands at this place.
pub fn behind_constant(f: &Finished, place: usize, value: &Value) -> Option<usize>
    ensures { IfSome result (λ b. StandAll (text f.now) place (Constant value.now ∷ []) b) }
{
    let Some(Instr::Values(ValueInstr::Constant(number))) = f.instrs.get(place) else {
        return None;
    };
    match f.constants.get(usize::from(*number)) {
        Some(there) if is_same_constant(there, value) => Some(place + 1),
        _ => None,
    }
}

fn behind_piece(f: &Finished, place: usize, piece: &Piece) -> Option<usize>
    ensures { IfSome result (λ b. StandAll (text f.now) place (piece.now ∷ []) b) }
{
    match piece {
        Piece::Constant(value) => behind_constant(f, place, value),
        Piece::Does(instr) => behind(f, place, *instr),
    }
}

fn behind_all(f: &Finished, place: usize, pieces: &[Piece]) -> Option<usize>
    ensures { IfSome result (λ b. StandAll (text f.now) place pieces.now b) }
{
    let mut end = place;
    let mut rest = pieces;
    while let Some((piece, others)) = rest.split_first() {
        end = behind_piece(f, end, piece)?;
        rest = others;
    }
    Some(end)
}

/// The expression's kind and the place behind its code, if just its code stands at this place of a finished code, its
/// names meaning what they mean in the scope. None where other code stands there, or where the expression is faulty.
///
/// # Errors
///
/// Want of memory.
pub fn given_at(
    alloc: Global,
    f: &Finished,
    scope: &Scope,
    place: usize,
    e: &Expr,
) -> Result<Option<Given>, AllocError>
    ensures { IfOk result (λ given. IfSome given
        (λ g. Leaves (text f.now) (scoped scope.now) place (tree_of e.now) g.kind g.end)) }
{
    let Ok(kind) = kind_of(scope, e) else {
        return Ok(None);
    };
    let pieces = match pieces_of(alloc, scope, e) {
        Ok(pieces) => pieces,
        Err(CompileError::Fault(_)) => return Ok(None),
        Err(CompileError::NoMemory) => return Err(AllocError),
    };
    match behind_all(f, place, &pieces) {
        Some(end) => Ok(Some(Given { kind, end })),
        None => Ok(None),
    }
}
