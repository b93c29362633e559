//! The blocks of filters that are set.

use crate::writer::Writer;
use code_items::{Instr, Need, ValueInstr};
use code_rules::Signature;
use prg_code::{CompileError, CompileFaultKind, FilterBlock, Output};
use prg_expr::Expr;
use prg_values::{Scope, compile_expr, kind_of};
use std::alloc::{AllocError, Global};
use xvalue::Kind;

/// The most values on the stack.
const MOST_VALUES: usize = 64;

/// The kind in which the instructions load the slot, if they do.
fn loaded(block: &[Instr], slot: u8) -> Option<Kind> {
    for instr in block {
        if let Instr::Values(ValueInstr::Load(kind, number)) = *instr
            && number == u16::from(slot)
        {
            return Some(kind);
        }
    }
    None
}

/// The slots that a filter's block loads, rising.
fn needs_of(alloc: Global, block: &[Instr]) -> Result<Vec<Need>, AllocError> {
    let mut needs = Vec::new(alloc);
    for slot in 0..=255u8 {
        if let Some(kind) = loaded(block, slot) {
            needs.push(Need { slot, kind })?;
        }
    }
    Ok(needs)
}

/// The most values on the stack along instructions that begin with none.
fn height(block: &[Instr]) -> usize {
    let mut depth = 0usize;
    let mut highest = 0usize;
    for instr in block {
        let signature = Signature::of(*instr);
        depth = depth
            .saturating_sub(signature.taken)
            .saturating_add(signature.adds);
        highest = highest.max(depth);
    }
    highest
}

/// Remembers how high the stack is in the block. Limit where that is too high.
fn note_height(out: &mut Output, block: &[Instr]) -> Result<(), CompileError> {
    let height = height(block);
    if height > MOST_VALUES {
        return Err(CompileError::Fault(CompileFaultKind::Limit));
    }
    out.highest = out.highest.max(height);
    Ok(())
}

fn filter_code(w: &mut Writer, e: &Expr) -> Result<Vec<Instr>, CompileError> {
    let scope = Scope {
        shape: w.shape,
        state: &w.work.block.state,
        names: &w.work.names,
        in_filter: true,
    };
    let kind = kind_of(&scope, e)?;
    if !kind.is(Kind::Logical) {
        return Err(CompileError::Fault(CompileFaultKind::Kind));
    }
    Ok(compile_expr(w.alloc, e, &scope, &mut w.out.pool)?)
}

/// The filter of this table whose block is the condition. Kind where that isn't logical; Limit where its code needs too
/// many values on the stack, or a byte doesn't hold the table's number.
pub(crate) fn filter_block(
    w: &mut Writer,
    table: u16,
    e: &Expr,
) -> Result<FilterBlock, CompileError> {
    let block = filter_code(w, e)?;
    note_height(&mut w.out, &block)?;
    let Ok(table) = u8::try_from(table) else {
        return Err(CompileError::Fault(CompileFaultKind::Limit));
    };
    let needs = needs_of(w.alloc, &block)?;
    Ok(FilterBlock::new(table, needs, block, w.work.source_line()))
}
