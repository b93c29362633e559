//! Which fault of a file is told.

ghost use Rattle.std.specs.Prelude.{◌≡◌, option_map};
ghost use Rattle.prg_parser.specs.Verdict as spec;
ghost use Rattle.prg_parser.specs.Blocks.{begins_procedure};

use crate::blocks::Part;
use prg_expr::{ParseFault, ParseFaultKind};
use prg_line::Role;

/// What of a line decides on its fault.
#[derive(Clone, Copy)]
pub struct LineMark {
    /// The number of the line.
    pub line: usize,
    /// What it is to the blocks around it.
    pub role: Role,
    /// The least fault of its length, its words and its form.
    pub fault: Option<ParseFaultKind>,
}

/// The line that opened the outermost open block.
pub fn opening_line(parts: &[Part]) -> Option<usize>
    ensures { result ≡ spec.opening_line parts.now }
{
    match parts.first() {
        Some(part) => Some(part.line),
        None => None,
    }
}

/// The first of two lines, where there is any.
pub fn earlier(line: Option<usize>, other: Option<usize>) -> Option<usize>
    ensures { result ≡ spec.earlier line other }
{
    match line {
        Some(line) => Some(line),
        None => other,
    }
}

/// Whether the line is `PROCEDURE`.
pub fn is_procedure_line(role: Role) -> bool
    ensures { result ≡ begins_procedure role }
{
    matches!(role, Role::Procedure)
}

/// The block that was left open first, behind this line.
pub fn unended_after(parts: &[Part], unended: Option<usize>, mark: LineMark) -> Option<usize>
    ensures { result ≡ spec.unended_after parts.now unended mark }
{
    if is_procedure_line(mark.role) {
        earlier(unended, opening_line(parts))
    } else {
        unended
    }
}

/// The fault of a block that is left open, if one is.
pub fn left_open(line: Option<usize>) -> Option<ParseFault>
    ensures { result ≡ option_map spec.block_fault_at line }
{
    match line {
        Some(line) => Some(ParseFault {
            line,
            kind: ParseFaultKind::Block,
        }),
        None => None,
    }
}
