//! Commands of the screen.

ghost use Rattle.std.specs.Prelude.{option_map};
ghost use Rattle.prg_expr.specs.Tree.{tree_of};
ghost use Rattle.prg_line.specs.Act.{act_of};
ghost use Rattle.prg_line.specs.Forms as spec;
ghost use Rattle.prg_line.specs.Gives.{at_of, ReadsAs};

use crate::reader::Reader;
use crate::statement::Statement;
use prg_expr::{Expr, FormFault};

/// `? [list]`.
#[tactic(auto, unfolding(crate::specs::Forms::show))]
pub fn show(reader: &mut Reader<'_>) -> Result<Statement, FormFault>
    ensures { ReadsAs act_of result reader.new (spec.show (at_of reader.old)) }
{
    if reader.is_at_end() {
        return Ok(Statement::Show {
            values: Vec::new(reader.alloc),
        });
    }
    let values = reader.expressions()?;
    Ok(Statement::Show { values })
}

/// `?? list`.
#[tactic(auto, unfolding(crate::specs::Forms::show_on))]
pub fn show_on(reader: &mut Reader<'_>) -> Result<Statement, FormFault>
    ensures { ReadsAs act_of result reader.new (spec.show_on (at_of reader.old)) }
{
    let values = reader.expressions()?;
    Ok(Statement::ShowOn { values })
}

/// `@ row,column SAY value`, `@ row,column GET variable` and both.
#[tactic(auto, unfolding(crate::specs::Forms::at_place))]
pub fn at_place(reader: &mut Reader<'_>) -> Result<Statement, FormFault>
    ensures { ReadsAs act_of result reader.new (spec.at_place (at_of reader.old)) }
{
    let row = reader.expression()?;
    reader.comma_between()?;
    let column = reader.expression()?;
    if reader.takes(b"GET") {
        return get(row, column, reader);
    }
    say(row, column, reader)
}

/// A place behind whose `GET` the variable follows.
#[tactic(auto, unfolding(crate::specs::Forms::get))]
fn get(row: Expr, column: Expr, reader: &mut Reader<'_>) -> Result<Statement, FormFault>
    ensures { ReadsAs act_of result reader.new (spec.get (tree_of row) (tree_of column) (at_of reader.old)) }
{
    let variable = reader.name()?;
    Ok(Statement::Get {
        row,
        column,
        variable,
    })
}

/// A place behind which `SAY value` follows, perhaps with `GET variable`.
#[tactic(auto, unfolding(crate::specs::Forms::say))]
fn say(row: Expr, column: Expr, reader: &mut Reader<'_>) -> Result<Statement, FormFault>
    ensures { ReadsAs act_of result reader.new (spec.say (tree_of row) (tree_of column) (at_of reader.old)) }
{
    reader.clause(b"SAY")?;
    let value = reader.expression()?;
    if reader.takes(b"GET") {
        return say_get(row, column, value, reader);
    }
    Ok(Statement::Say { row, column, value })
}

/// A place and a value behind whose `GET` the variable follows.
#[tactic(auto, unfolding(crate::specs::Forms::say_get))]
fn say_get(
    row: Expr,
    column: Expr,
    value: Expr,
    reader: &mut Reader<'_>,
) -> Result<Statement, FormFault>
    ensures { ReadsAs act_of result reader.new
        (spec.say_get (tree_of row) (tree_of column) (tree_of value) (at_of reader.old)) }
{
    let variable = reader.name()?;
    Ok(Statement::SayGet {
        row,
        column,
        value,
        variable,
    })
}

/// A text to be shown, unless the line ends or goes on with `TO`.
#[tactic(auto, unfolding(crate::specs::Forms::prompt))]
fn prompt(reader: &mut Reader<'_>) -> Result<Option<Expr>, FormFault>
    ensures { ReadsAs (λ e. option_map tree_of e) result reader.new (spec.prompt (at_of reader.old)) }
{
    if reader.is_at(b"TO") || reader.is_at_end() {
        return Ok(None);
    }
    let prompt = reader.expression()?;
    Ok(Some(prompt))
}

/// `ACCEPT [prompt] TO variable`.
#[tactic(auto, unfolding(crate::specs::Forms::accept))]
pub fn accept(reader: &mut Reader<'_>) -> Result<Statement, FormFault>
    ensures { ReadsAs act_of result reader.new (spec.accept (at_of reader.old)) }
{
    let prompt = prompt(reader)?;
    reader.clause(b"TO")?;
    let variable = reader.name()?;
    Ok(Statement::Accept { prompt, variable })
}

/// `WAIT [prompt] [TO variable]`.
#[tactic(auto, unfolding(crate::specs::Forms::wait))]
pub fn wait(reader: &mut Reader<'_>) -> Result<Statement, FormFault>
    ensures { ReadsAs act_of result reader.new (spec.wait (at_of reader.old)) }
{
    let prompt = prompt(reader)?;
    if reader.takes(b"TO") {
        let variable = reader.name()?;
        return Ok(Statement::Wait {
            prompt,
            variable: Some(variable),
        });
    }
    Ok(Statement::Wait {
        prompt,
        variable: None,
    })
}
