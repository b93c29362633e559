//! Commands of work areas and settings.

ghost use Rattle.prg_line.specs.Act.{act_of};
ghost use Rattle.prg_line.specs.Forms as spec;
ghost use Rattle.prg_expr.specs.Reading.{WordsGive};
ghost use Rattle.prg_line.specs.Gives.{at_of, ReadsAs};

use crate::reader::Reader;
use crate::statement::{Selected, Statement, Toggle};
use prg_expr::{FormFault, ParseFaultKind};

/// The greatest number of a work area.
const LAST_AREA: u16 = 10;

/// `USE [table [INDEX indexes]]`.
#[tactic(auto, unfolding(crate::specs::Forms::use_table))]
pub fn use_table(reader: &mut Reader<'_>) -> Result<Statement, FormFault>
    ensures { ReadsAs act_of result reader.new (spec.use_table (at_of reader.old)) }
{
    if reader.is_at_end() {
        return Ok(Statement::Close);
    }
    let table = reader.name()?;
    if reader.takes(b"INDEX") {
        let indexes = reader.names()?;
        return Ok(Statement::Use { table, indexes });
    }
    Ok(Statement::Use {
        table,
        indexes: Vec::new(reader.alloc),
    })
}

/// `SELECT area`.
#[tactic(auto, unfolding(crate::specs::Forms::select))]
pub fn select(reader: &mut Reader<'_>) -> Result<Statement, FormFault>
    ensures { ReadsAs act_of result reader.new (spec.select (at_of reader.old)) }
{
    if reader.is_at_number() {
        let number = reader.whole_number()?;
        let area = area_number(number)?;
        return Ok(Statement::Select {
            area: Selected::Number(area),
        });
    }
    let name = reader.name()?;
    Ok(Statement::Select {
        area: Selected::Name(name),
    })
}

/// The number of an area, 1 to 10.
fn area_number(number: u16) -> Result<u8, FormFault>
    ensures { WordsGive (λ n. n) result (spec.area_number number) }
{
    if 1 <= number && number <= LAST_AREA {
        Ok(number as u8)
    } else {
        Err(FormFault::Kind(ParseFaultKind::Word))
    }
}

/// `CLOSE ALL` and `CLOSE DATABASES`.
#[tactic(auto, unfolding(crate::specs::Forms::close))]
pub fn close(reader: &mut Reader<'_>) -> Result<Statement, FormFault>
    ensures { ReadsAs act_of result reader.new (spec.close (at_of reader.old)) }
{
    if reader.takes(b"ALL") {
        return Ok(Statement::CloseAll);
    }
    reader.clause(b"DATABASES")?;
    Ok(Statement::CloseAll)
}

/// `SET` and what it sets.
#[tactic(auto, unfolding(crate::specs::Forms::set))]
pub fn set(reader: &mut Reader<'_>) -> Result<Statement, FormFault>
    ensures { ReadsAs act_of result reader.new (spec.set (at_of reader.old)) }
{
    if reader.takes(b"ORDER") {
        return order(reader);
    }
    if reader.takes(b"FILTER") {
        return filter(reader);
    }
    set_switch(reader)
}

/// `SET ORDER TO order`.
#[tactic(auto, unfolding(crate::specs::Forms::order))]
fn order(reader: &mut Reader<'_>) -> Result<Statement, FormFault>
    ensures { ReadsAs act_of result reader.new (spec.order (at_of reader.old)) }
{
    reader.clause(b"TO")?;
    let order = reader.whole_number()?;
    Ok(Statement::SetOrder { order })
}

/// `SET FILTER TO [condition]`.
#[tactic(auto, unfolding(crate::specs::Forms::filter))]
fn filter(reader: &mut Reader<'_>) -> Result<Statement, FormFault>
    ensures { ReadsAs act_of result reader.new (spec.filter (at_of reader.old)) }
{
    reader.clause(b"TO")?;
    if reader.is_at_end() {
        return Ok(Statement::SetFilter { condition: None });
    }
    let condition = reader.expression()?;
    Ok(Statement::SetFilter {
        condition: Some(condition),
    })
}

/// What `SET` switches.
#[tactic(auto, unfolding(crate::specs::Forms::set_switch))]
fn set_switch(reader: &mut Reader<'_>) -> Result<Statement, FormFault>
    ensures { ReadsAs act_of result reader.new (spec.set_switch (at_of reader.old)) }
{
    if reader.takes(b"EXACT") {
        return switch(Toggle::Exact, reader);
    }
    if reader.takes(b"DELETED") {
        return switch(Toggle::Deleted, reader);
    }
    century(reader)
}

/// `SET CENTURY`.
#[tactic(auto, unfolding(crate::specs::Forms::century))]
fn century(reader: &mut Reader<'_>) -> Result<Statement, FormFault>
    ensures { ReadsAs act_of result reader.new (spec.century (at_of reader.old)) }
{
    reader.clause(b"CENTURY")?;
    switch(Toggle::Century, reader)
}

/// `ON` or `OFF`.
#[tactic(auto, unfolding(crate::specs::Forms::switch))]
fn switch(setting: Toggle, reader: &mut Reader<'_>) -> Result<Statement, FormFault>
    ensures { ReadsAs act_of result reader.new (spec.switch setting (at_of reader.old)) }
{
    if reader.takes(b"ON") {
        return Ok(Statement::Set { setting, on: true });
    }
    reader.clause(b"OFF")?;
    Ok(Statement::Set { setting, on: false })
}
