//! Moves and changes of records.

ghost use Rattle.std.specs.Prelude.{◌<◌, suc, length, map, OnOk};
ghost use Rattle.prg_expr.specs.Word.{words};
ghost use Rattle.prg_line.specs.Act.{act_of, change_of};
ghost use Rattle.prg_line.specs.Forms as spec;
ghost use Rattle.prg_line.specs.Gives.{at_of, ReadsAs};

use crate::reader::Reader;
use crate::statement::{Move, Replacement, Statement};
use prg_expr::FormFault;

/// `GO TOP`, `GO BOTTOM` and `GO record`.
#[tactic(auto, unfolding(crate::specs::Forms::go))]
pub fn go(reader: &mut Reader<'_>) -> Result<Statement, FormFault>
    ensures { ReadsAs act_of result reader.new (spec.go (at_of reader.old)) }
{
    if reader.takes(b"TOP") {
        return Ok(Statement::Go { to: Move::Top });
    }
    if reader.takes(b"BOTTOM") {
        return Ok(Statement::Go { to: Move::Bottom });
    }
    go_record(reader)
}

/// `GO record`.
#[tactic(auto, unfolding(crate::specs::Forms::go_record))]
fn go_record(reader: &mut Reader<'_>) -> Result<Statement, FormFault>
    ensures { ReadsAs act_of result reader.new (spec.go_record (at_of reader.old)) }
{
    let record = reader.expression()?;
    Ok(Statement::Go {
        to: Move::Record(record),
    })
}

/// `SKIP [rows]`.
#[tactic(auto, unfolding(crate::specs::Forms::skip))]
pub fn skip(reader: &mut Reader<'_>) -> Result<Statement, FormFault>
    ensures { ReadsAs act_of result reader.new (spec.skip (at_of reader.old)) }
{
    if reader.is_at_end() {
        return Ok(Statement::Skip { rows: None });
    }
    let rows = reader.expression()?;
    Ok(Statement::Skip { rows: Some(rows) })
}

/// `SEEK key`.
#[tactic(auto, unfolding(crate::specs::Forms::seek))]
pub fn seek(reader: &mut Reader<'_>) -> Result<Statement, FormFault>
    ensures { ReadsAs act_of result reader.new (spec.seek (at_of reader.old)) }
{
    let key = reader.expression()?;
    Ok(Statement::Seek { key })
}

/// `APPEND BLANK`.
#[tactic(auto, unfolding(crate::specs::Forms::append))]
pub fn append(reader: &mut Reader<'_>) -> Result<Statement, FormFault>
    ensures { ReadsAs act_of result reader.new (spec.append (at_of reader.old)) }
{
    reader.clause(b"BLANK")?;
    Ok(Statement::AppendBlank)
}

/// `field WITH value`.
#[tactic(auto, unfolding(crate::specs::Forms::replacement))]
fn replacement(reader: &mut Reader<'_>) -> Result<Replacement, FormFault>
    ensures reads { ReadsAs change_of result reader.new (spec.replacement (at_of reader.old)) }
    ensures shorter { OnOk result (length reader.new.words.now < length reader.old.words.now) }
{
    let field = reader.name()?;
    reader.clause(b"WITH")?;
    let value = reader.expression()?;
    Ok(Replacement { field, value })
}

/// `field WITH value, ..`, at least one.
#[tactic(auto, unfolding(crate::specs::Forms::several_forms))]
fn replacements(reader: &mut Reader<'_>) -> Result<Vec<Replacement>, FormFault>
    ensures { ReadsAs (λ found. map change_of found.items) result reader.new
        (spec.several_forms spec.replacement (at_of reader.old)) }
{
    let first = replacement(reader)?;
    let mut found = Vec::new(reader.alloc);
    found.push(first)?;
    more_replacements(reader, found)
}

/// Further ones, each behind a comma.
fn more_replacements(
    reader: &mut Reader<'_>,
    found: Vec<Replacement>,
) -> Result<Vec<Replacement>, FormFault>
    ensures { ReadsAs (λ all. map change_of all.items) result reader.new
        (spec.more spec.replacement (suc (length (words reader.old.words.now))) (map change_of found.items)
        (at_of reader.old)) }
{
    let mut all = found;
    while reader.comma() {
        let next = replacement(reader)?;
        all.push(next)?;
    }
    Ok(all)
}

/// `REPLACE field WITH value, ..`.
#[tactic(auto, unfolding(crate::specs::Forms::replace))]
pub fn replace(reader: &mut Reader<'_>) -> Result<Statement, FormFault>
    ensures { ReadsAs act_of result reader.new (spec.replace (at_of reader.old)) }
{
    let replacements = replacements(reader)?;
    Ok(Statement::Replace { replacements })
}

/// `INDEX ON key TO index`.
#[tactic(auto, unfolding(crate::specs::Forms::index))]
pub fn index(reader: &mut Reader<'_>) -> Result<Statement, FormFault>
    ensures { ReadsAs act_of result reader.new (spec.index (at_of reader.old)) }
{
    reader.clause(b"ON")?;
    let key = reader.expression()?;
    reader.clause(b"TO")?;
    let index = reader.name()?;
    Ok(Statement::IndexOn { key, index })
}
