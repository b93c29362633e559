//! Commands of variables.

ghost use Rattle.prg_line.specs.Act.{act_of};
ghost use Rattle.prg_line.specs.Forms as spec;
ghost use Rattle.prg_line.specs.Gives.{at_of, ReadsAs};

use crate::reader::Reader;
use crate::statement::Statement;
use prg_expr::{FormFault, ParseFaultKind};

/// `variable = value`, of which no word is read yet.
#[tactic(auto, unfolding(crate::specs::Forms::assign))]
pub fn assign(reader: &mut Reader<'_>) -> Result<Statement, FormFault>
    ensures { ReadsAs act_of result reader.new (spec.assign (at_of reader.old)) }
{
    let variable = reader.name()?;
    reader.equal()?;
    let value = reader.expression()?;
    Ok(Statement::Assign { variable, value })
}

/// `STORE value TO variables`.
#[tactic(auto, unfolding(crate::specs::Forms::store))]
pub fn store(reader: &mut Reader<'_>) -> Result<Statement, FormFault>
    ensures { ReadsAs act_of result reader.new (spec.store (at_of reader.old)) }
{
    let value = reader.expression()?;
    reader.clause(b"TO")?;
    let variables = reader.names()?;
    Ok(Statement::Store { value, variables })
}

/// `RELEASE variables`; `RELEASE ALL` is no command of this language.
#[tactic(auto, unfolding(crate::specs::Forms::release))]
pub fn release(reader: &mut Reader<'_>) -> Result<Statement, FormFault>
    ensures { ReadsAs act_of result reader.new (spec.release (at_of reader.old)) }
{
    if reader.is_at(b"ALL") {
        return Err(FormFault::Kind(ParseFaultKind::Word));
    }
    let variables = reader.names()?;
    Ok(Statement::Release { variables })
}

/// `PRIVATE variables`.
#[tactic(auto, unfolding(crate::specs::Forms::private))]
pub fn private(reader: &mut Reader<'_>) -> Result<Statement, FormFault>
    ensures { ReadsAs act_of result reader.new (spec.private (at_of reader.old)) }
{
    let variables = reader.names()?;
    Ok(Statement::Private { variables })
}

/// `PARAMETERS variables`.
#[tactic(auto, unfolding(crate::specs::Forms::parameters))]
pub fn parameters(reader: &mut Reader<'_>) -> Result<Statement, FormFault>
    ensures { ReadsAs act_of result reader.new (spec.parameters (at_of reader.old)) }
{
    let variables = reader.names()?;
    Ok(Statement::Parameters { variables })
}
