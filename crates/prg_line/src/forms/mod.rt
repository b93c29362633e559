//! The forms of the commands, a function each.

ghost use Rattle.std.specs.Prelude.{◌≡◌, option_map};
ghost use Rattle.prg_expr.specs.Reading.{WordsGive};
ghost use Rattle.prg_line.specs.Act.{act_of};
ghost use Rattle.prg_line.specs.Saying.{saying_of};
ghost use Rattle.prg_line.specs.Forms as spec;
ghost use Rattle.prg_line.specs.Gives.{at_of, ReadsAs};

mod areas;
mod control;
mod records;
mod screen;
mod variables;

use crate::reader::Reader;
use crate::statement::{Sentence, Statement};
use crate::verb::Verb;
use prg_expr::{FormFault, ParseFaultKind};

/// A command that is one word.
fn single(verb: Verb) -> Option<Statement>
    ensures { option_map act_of result ≡ spec.single verb }
{
    match verb {
        Verb::Read => Some(Statement::Read),
        Verb::Clear => Some(Statement::Clear),
        Verb::Loop => Some(Statement::Loop),
        Verb::Exit => Some(Statement::Exit),
        Verb::Return => Some(Statement::Return),
        Verb::Quit => Some(Statement::Quit),
        Verb::Cancel => Some(Statement::Cancel),
        Verb::Delete => Some(Statement::Delete),
        Verb::Recall => Some(Statement::Recall),
        Verb::Pack => Some(Statement::Pack),
        Verb::Zap => Some(Statement::Zap),
        Verb::Reindex => Some(Statement::Reindex),
        _ => None,
    }
}

/// A command of more words than one, behind its first words.
#[tactic(auto, unfolding(crate::specs::Forms::phrase))]
fn phrase(verb: Verb, reader: &mut Reader<'_>) -> Result<Statement, FormFault>
    ensures { ReadsAs act_of result reader.new (spec.phrase verb (at_of reader.old)) }
{
    match verb {
        Verb::Show => screen::show(reader),
        Verb::ShowOn => screen::show_on(reader),
        Verb::At => screen::at_place(reader),
        Verb::Accept => screen::accept(reader),
        Verb::Wait => screen::wait(reader),
        Verb::Assign => variables::assign(reader),
        Verb::Store => variables::store(reader),
        Verb::Release => variables::release(reader),
        Verb::Private => variables::private(reader),
        Verb::Parameters => variables::parameters(reader),
        Verb::Do => control::call(reader),
        Verb::Use => areas::use_table(reader),
        Verb::Select => areas::select(reader),
        Verb::Close => areas::close(reader),
        Verb::Set => areas::set(reader),
        Verb::Go => records::go(reader),
        Verb::Skip => records::skip(reader),
        Verb::Seek => records::seek(reader),
        Verb::Append => records::append(reader),
        Verb::Replace => records::replace(reader),
        Verb::Index => records::index(reader),
        _ => Err(FormFault::Kind(ParseFaultKind::Word)),
    }
}

/// A command of one line, behind its first words.
#[tactic(auto, unfolding(crate::specs::Forms::statement))]
fn statement(verb: Verb, reader: &mut Reader<'_>) -> Result<Statement, FormFault>
    ensures { ReadsAs act_of result reader.new (spec.statement verb (at_of reader.old)) }
{
    if let Some(statement) = single(verb) {
        return Ok(statement);
    }
    phrase(verb, reader)
}

/// A command of one line as what its line says.
fn whole(verb: Verb, reader: &mut Reader<'_>) -> Result<Sentence, FormFault>
    ensures { ReadsAs saying_of result reader.new (spec.whole_line verb (at_of reader.old)) }
{
    let statement = statement(verb, reader)?;
    Ok(Sentence::Whole(statement))
}

/// A line of a block or of a procedure or a command, behind its first words.
#[tactic(auto, unfolding(crate::specs::Forms::block_line))]
fn block_line(verb: Verb, reader: &mut Reader<'_>) -> Result<Sentence, FormFault>
    ensures { ReadsAs saying_of result reader.new (spec.block_line verb (at_of reader.old)) }
{
    match verb {
        Verb::If => Ok(Sentence::If(reader.expression()?)),
        Verb::Else => Ok(Sentence::Else),
        Verb::DoCase => Ok(Sentence::DoCase),
        Verb::Case => Ok(Sentence::Case(reader.expression()?)),
        Verb::Otherwise => Ok(Sentence::Otherwise),
        Verb::DoWhile => Ok(Sentence::DoWhile(reader.expression()?)),
        Verb::Scan => Ok(Sentence::Scan(control::scan_condition(reader)?)),
        Verb::Procedure => Ok(Sentence::Procedure(reader.name()?)),
        _ => whole(verb, reader),
    }
}

/// A line of which all words are read.
#[tactic(auto, unfolding(crate::specs::Forms::ended))]
fn read_whole(verb: Verb, reader: &mut Reader<'_>) -> Result<Sentence, FormFault>
    ensures { WordsGive saying_of result (spec.read_whole verb (at_of reader.old)) }
{
    let found = block_line(verb, reader)?;
    reader.end()?;
    Ok(found)
}

/// What a line says, of which the first words are read; what follows the word that ends a block isn't looked at.
#[tactic(auto, unfolding(crate::specs::Forms::sentence))]
pub fn sentence(verb: Verb, reader: &mut Reader<'_>) -> Result<Sentence, FormFault>
    ensures { WordsGive saying_of result (spec.sentence verb (at_of reader.old)) }
{
    match verb {
        Verb::Nothing | Verb::Ignored => Ok(Sentence::Nothing),
        Verb::EndIf => Ok(Sentence::EndIf),
        Verb::EndCase => Ok(Sentence::EndCase),
        Verb::EndDo => Ok(Sentence::EndDo),
        Verb::EndScan => Ok(Sentence::EndScan),
        Verb::Macro => Err(FormFault::Kind(ParseFaultKind::Macro)),
        _ => read_whole(verb, reader),
    }
}
