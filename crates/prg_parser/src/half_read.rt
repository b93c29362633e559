//! A file that is being read: its lines are judged and put together one after another, and none of them is kept.

ghost use Rattle.std.specs.Prelude.{◌≡◌, ◌∷◌, [], List, true, false, None, IfErr, IfOk};
ghost use Rattle.prg_expr.specs.Faults.{Tells};
ghost use Rattle.prg_line.specs.Saying.{role_of, saying_of};
ghost use Rattle.prg_parser.specs.Blocks.{fault_of_place, begins_procedure};
ghost use Rattle.prg_parser.specs.Building.{Took, built_parts};
ghost use Rattle.prg_parser.specs.HalfRead as spec;
ghost use Rattle.prg_parser.specs.Joined.{joined_of};
ghost use Rattle.prg_parser.specs.Lines.{Joined, joined_lines};
ghost use Rattle.prg_parser.specs.Marks.{line_mark, marks};
ghost use Rattle.prg_parser.specs.Verdict.{verdict};
ghost use Rattle.prg_parser.specs.declared.judging.LineMark.{LineMark as AnyMark};

use crate::blocks::{OpenParts, block_fault, enter};
use crate::builder::Builder;
use crate::judging::{LineMark, earlier, left_open, opening_line, unended_after};
use crate::lines::{JoinedLine, before_end, join_line};
use crate::program::Program;
use prg_expr::{ParseFault, ParseRefusal, least};
use prg_line::{ReadLine, Sentence, lines_are_read, read_line};
use std::alloc::{AllocError, Global};

/// What is known behind the lines that were read.
#[derive(Drop)]
pub struct HalfRead {
    /// The parts of the blocks that are open.
    parts: OpenParts,
    /// The line of the first block that was left open before a procedure.
    unended: Option<usize>,
    /// What the lines say, up to the first procedure before which a block was left open.
    builder: Builder,
}

/// A file of which no line is read.
fn unread(alloc: Global) -> HalfRead
    ensures { (all : List Joined) → spec.IsHalfRead all all result.parts.items result.unended result.builder }
{
    HalfRead {
        parts: OpenParts::new(),
        unended: None,
        builder: Builder::new(alloc),
    }
}

/// Takes what a line says, unless a block was left open before it.
fn taken(
    builder: Builder,
    is_unended: bool,
    line: usize,
    sentence: Sentence,
) -> Result<Builder, AllocError>
    ensures { is_unended ≡ false → fault_of_place (built_parts builder) (role_of (saying_of sentence)) ≡ None
        → (begins_procedure (role_of (saying_of sentence)) ≡ true → built_parts builder ≡ [])
        → IfOk result (Took builder line (saying_of sentence)) }
{
    if is_unended {
        return Ok(builder);
    }
    builder.take(line, sentence)
}

/// Goes on behind the next line, or tells its fault.
fn pass(alloc: Global, half: HalfRead, line: &JoinedLine) -> Result<HalfRead, ParseRefusal>
    ensures told { IfErr result (λ refusal. (others : List AnyMark)
        → Tells (verdict half.parts.items half.unended (line_mark (joined_of line.now) ∷ others)) refusal) }
    ensures passed { IfOk result (λ next. spec.Passes half.parts.items half.unended half.builder (joined_of line.now)
        next.parts.items next.unended next.builder) }
{
    lines_are_read();
    let ReadLine {
        role,
        fault,
        sentence,
    } = read_line(alloc, &line.text)?;
    let HalfRead {
        mut parts,
        unended,
        builder,
    } = half;
    let line = line.first;
    if let Some(kind) = least(fault, block_fault(&parts, role)) {
        return Err(ParseRefusal::Fault(ParseFault { line, kind }));
    }
    let unended = unended_after(&parts, unended, LineMark { line, role, fault });
    enter(&mut parts, line, role);
    let builder = taken(builder, unended.is_some(), line, sentence)?;
    Ok(HalfRead {
        parts,
        unended,
        builder,
    })
}

/// Reads the lines of a file up to its end, or up to the first one with a fault.
pub fn read_file(alloc: Global, bytes: &[u8]) -> Result<HalfRead, ParseRefusal>
    ensures told { IfErr result (Tells (verdict [] None (marks bytes.now))) }
    ensures read { IfOk result (λ half. spec.IsHalfRead (joined_lines bytes.now) [] half.parts.items half.unended
        half.builder) }
{
    let mut rest = before_end(bytes);
    let mut half = unread(alloc);
    let mut line = 1;
    while !rest.is_empty() {
        let found = join_line(alloc, line, rest)?;
        half = pass(alloc, half, &found.joined)?;
        line = found.line;
        rest = found.rest;
    }
    Ok(half)
}

/// The program of a file behind whose last line this is known, or the fault of a block that was left open.
pub fn finished(half: HalfRead) -> Result<Program, ParseRefusal>
    ensures told { IfErr result (Tells (verdict half.parts.items half.unended [])) }
    ensures whole { IfOk result (spec.Ended half.parts.items half.unended half.builder) }
{
    let HalfRead {
        parts,
        unended,
        builder,
    } = half;
    match left_open(earlier(unended, opening_line(&parts))) {
        Some(fault) => Err(ParseRefusal::Fault(fault)),
        None => Ok(builder.finish()?),
    }
}

/// What of each line of a file decides on its fault.
pub fn file_marks(alloc: Global, bytes: &[u8]) -> Result<Vec<LineMark>, AllocError>
    ensures { IfOk result (λ found. found.items ≡ marks bytes.now) }
{
    let mut rest = before_end(bytes);
    let mut found = Vec::new(alloc);
    let mut line = 1;
    while !rest.is_empty() {
        let next = join_line(alloc, line, rest)?;
        let ReadLine { role, fault, .. } = read_line(alloc, &next.joined.text)?;
        let first = next.joined.first;
        found.push(LineMark {
            line: first,
            role,
            fault,
        })?;
        line = next.line;
        rest = next.rest;
    }
    Ok(found)
}
