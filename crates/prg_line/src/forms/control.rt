//! Commands that lead elsewhere.

ghost use Rattle.std.specs.Prelude.{option_map};
ghost use Rattle.prg_expr.specs.Tree.{tree_of};
ghost use Rattle.prg_line.specs.Act.{act_of};
ghost use Rattle.prg_line.specs.Forms as spec;
ghost use Rattle.prg_line.specs.Gives.{at_of, ReadsAs};

use crate::reader::Reader;
use crate::statement::Statement;
use prg_expr::{Expr, FormFault};

/// `DO procedure [WITH arguments]`.
#[tactic(auto, unfolding(crate::specs::Forms::call))]
pub fn call(reader: &mut Reader<'_>) -> Result<Statement, FormFault>
    ensures { ReadsAs act_of result reader.new (spec.call (at_of reader.old)) }
{
    let procedure = reader.name()?;
    if reader.takes(b"WITH") {
        let arguments = reader.expressions()?;
        return Ok(Statement::Do {
            procedure,
            arguments,
        });
    }
    Ok(Statement::Do {
        procedure,
        arguments: Vec::new(reader.alloc),
    })
}

/// The condition of `SCAN [FOR condition]`.
#[tactic(auto, unfolding(crate::specs::Forms::scan_condition))]
pub fn scan_condition(reader: &mut Reader<'_>) -> Result<Option<Expr>, FormFault>
    ensures { ReadsAs (λ e. option_map tree_of e) result reader.new (spec.scan_condition (at_of reader.old)) }
{
    if reader.takes(b"FOR") {
        let condition = reader.expression()?;
        return Ok(Some(condition));
    }
    Ok(None)
}
