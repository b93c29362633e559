//! All faults of a file.

ghost use Rattle.std.specs.Prelude.{◌≡◌, ◌+◌, ◌<◌, ◌^◌, ◌++◌, IfOk, OnOk};
ghost use Rattle.prg_parser.specs.Listing as spec;

use crate::blocks::{MOST_BLOCKS, OpenParts, Part, block_fault, enter, is_end, open, opened};
use crate::judging::{LineMark, is_procedure_line};
use prg_expr::{ParseFault, ParseFaultKind, least};
use prg_line::Role;
use std::alloc::{AllocError, Global};

/// What is wrong with a line at its place, where so many blocks beyond the thirty-second are open.
fn place_fault(parts: &[Part], deeper: usize, role: Role) -> Option<ParseFaultKind>
    ensures { result ≡ spec.place_fault parts.now deeper role }
{
    if deeper == 0 {
        block_fault(parts, role)
    } else if opened(role).is_some() {
        Some(ParseFaultKind::TooDeep)
    } else {
        None
    }
}

/// Goes on behind a line: what is open there.
#[tactic(auto, unfolding(crate::specs::Listing::parts_behind))]
fn pass(parts: &mut OpenParts, deeper: usize, line: usize, role: Role)
    ensures { parts.new.items ≡ spec.parts_behind parts.old.items deeper line role }
{
    if is_procedure_line(role) {
        parts.clear();
        return;
    }
    if 0 < deeper {
        return;
    }
    if block_fault(parts, role).is_none() {
        enter(parts, line, role);
        return;
    }
    if MOST_BLOCKS <= parts.len() {
        return;
    }
    if let Some(place) = opened(role) {
        open(parts, line, place);
    }
}

/// How many blocks beyond the thirty-second are open behind a line.
#[tactic(auto, unfolding(crate::specs::Listing::deeper_behind))]
fn deeper_behind(parts: &[Part], deeper: usize, role: Role) -> usize
    requires { deeper + 1 < 2 ^ 64 }
    ensures { result ≡ spec.deeper_behind parts.now deeper role }
{
    if is_procedure_line(role) {
        return 0;
    }
    if opened(role).is_some() && MOST_BLOCKS <= parts.len() {
        return deeper + 1;
    }
    if is_end(role) {
        return deeper.saturating_sub(1);
    }
    deeper
}

/// Puts a fault in this line behind those that are listed, if there is one.
fn list(
    faults: &mut Vec<ParseFault>,
    line: usize,
    kind: Option<ParseFaultKind>,
) -> Result<(), AllocError>
    ensures { OnOk result (faults.new.items ≡ faults.old.items ++ spec.listed_fault line kind) }
{
    let Some(kind) = kind else {
        return Ok(());
    };
    faults.push(ParseFault { line, kind })?;
    Ok(())
}

/// Lists the blocks of these parts as not ended.
fn list_unended(faults: &mut Vec<ParseFault>, parts: &[Part]) -> Result<(), AllocError>
    ensures { OnOk result (faults.new.items ≡ faults.old.items ++ spec.unended parts.now) }
{
    for part in parts {
        faults.push(ParseFault {
            line: part.line,
            kind: ParseFaultKind::Block,
        })?;
    }
    Ok(())
}

/// Lists the blocks that a procedure's line finds open.
fn list_before(faults: &mut Vec<ParseFault>, parts: &[Part], role: Role) -> Result<(), AllocError>
    ensures { OnOk result (faults.new.items ≡ faults.old.items ++ spec.unended_before parts.now role) }
{
    if is_procedure_line(role) {
        list_unended(faults, parts)
    } else {
        Ok(())
    }
}

/// All faults of a file with these lines: those of its lines in turn, then the blocks that are left open.
pub fn list_faults(alloc: Global, marks: &[LineMark]) -> Result<Vec<ParseFault>, AllocError>
    ensures { IfOk result (λ faults. faults.items ≡ spec.all_faults marks.now) }
{
    let mut parts = OpenParts::new();
    let mut deeper = 0;
    let mut faults = Vec::new(alloc);
    let mut unended = Vec::new(alloc);
    for mark in marks {
        let kind = least(mark.fault, place_fault(&parts, deeper, mark.role));
        list(&mut faults, mark.line, kind)?;
        list_before(&mut unended, &parts, mark.role)?;
        let behind = deeper_behind(&parts, deeper, mark.role);
        pass(&mut parts, deeper, mark.line, mark.role);
        deeper = behind;
    }
    list_unended(&mut unended, &parts)?;
    faults.extend_from_slice(&unended)?;
    Ok(faults)
}
