//! Commands of one line.

ghost use Rattle.std.specs.Prelude.{◌≡◌, OnOk};
ghost use Rattle.prg_line.specs.Act.{act_of};
ghost use Rattle.prg_commands.specs.Acts as acts;
ghost use Rattle.prg_commands.specs.Turns.{IsTurn};

use crate::areas::{open_table, put_area, select, set_filter, set_order};
use crate::keys::index_on;
use crate::moves::{go, put_all_records, put_record, replace, seek, skip};
use crate::screen::{accept, get, read, say, say_and_get, show, show_line, wait};
use crate::sink::Sink;
use crate::values::put_screen;
use crate::variables::{assign, release, set, store};
use code_items::{AreaInstr, Name, RecordInstr, ScreenInstr};
use prg_code::{CompileError, CompileFaultKind, Get};
use prg_expr::Expr;
use prg_line::Statement;
use shape::copy_of_name;
use std::alloc::AllocError;

/// What a command of one line does to the way that the commands take.
#[derive(Clone, Copy)]
pub enum Turn<'a> {
    /// LOOP: to the next round of the innermost loop.
    Again,
    /// EXIT: behind the innermost loop.
    Out,
    /// RETURN: out of the procedure.
    Return,
    /// QUIT and CANCEL: to the end of the run.
    End,
    /// `DO procedure [WITH arguments]`: through another procedure.
    Call(&'a Name, &'a [Expr]),
}

/// The turn that a command makes, if it makes one.
pub fn turn_of<'a>(statement: &'a Statement) -> Option<Turn<'a>>
    ensures { IsTurn result (act_of statement.now) }
{
    match statement {
        Statement::Loop => Some(Turn::Again),
        Statement::Exit => Some(Turn::Out),
        Statement::Return => Some(Turn::Return),
        Statement::Quit => Some(Turn::End),
        Statement::Cancel => Some(Turn::End),
        Statement::Do {
            procedure,
            arguments,
        } => Some(Turn::Call(procedure, arguments)),
        _ => None,
    }
}

/// Puts the code of a command of one line that doesn't turn the way; these GETs wait for their READ.
///
/// # Errors
///
/// The command's first fault. Faults of its expressions come first, in the order of their code. Faults of names come
/// next, and then ClosedArea, NoOrder, OpenTwice, Index, Filter and Limit. The other error is want of memory.
pub fn put_statement<S: Sink>(
    sink: &mut S,
    gets: &[Get],
    statement: &Statement,
) -> Result<(), CompileError>
    // In a finished code the command's code is found.
    ensures laid { S.judges → OnOk result (acts.ActLaid (S.laying sink.old) (acts.names_of gets.now)
        (S.place sink.old) (act_of statement.now) (S.place sink.new)) }
    ensures same { S.laying sink.new ≡ S.laying sink.old }
{
    match statement {
        Statement::Show { values } => show_line(sink, values),
        Statement::ShowOn { values } => show(sink, values),
        Statement::Say { row, column, value } => say(sink, row, column, value),
        Statement::Get {
            row,
            column,
            variable,
        } => get(sink, row, column, variable),
        Statement::SayGet {
            row,
            column,
            value,
            variable,
        } => say_and_get(sink, row, column, value, variable),
        Statement::Read => read(sink, gets),
        Statement::Accept { prompt, variable } => accept(sink, prompt, variable),
        Statement::Wait { prompt, variable } => wait(sink, prompt, variable),
        Statement::Clear => put_screen(sink, ScreenInstr::Clear),
        Statement::Assign { variable, value } => assign(sink, variable, value),
        Statement::Store { value, variables } => store(sink, value, variables),
        Statement::Release { variables } => release(sink, variables),
        Statement::Private { variables } => {
            sink.hide(variables);
            Ok(())
        }
        Statement::Set { setting, on } => set(sink, *setting, *on),
        Statement::Close => put_area(sink, AreaInstr::Close),
        Statement::Use { table, indexes } => open_table(sink, table, indexes),
        Statement::Select { area } => select(sink, area),
        Statement::CloseAll => put_area(sink, AreaInstr::CloseAll),
        Statement::SetOrder { order } => set_order(sink, *order),
        Statement::SetFilter { condition } => set_filter(sink, condition),
        Statement::Go { to } => go(sink, to),
        Statement::Skip { rows } => skip(sink, rows),
        Statement::Seek { key } => seek(sink, key),
        Statement::AppendBlank => put_record(sink, RecordInstr::Append),
        Statement::Replace { replacements } => replace(sink, replacements),
        Statement::Delete => put_record(sink, RecordInstr::Delete),
        Statement::Recall => put_record(sink, RecordInstr::Recall),
        Statement::Pack => put_all_records(sink, RecordInstr::Pack),
        Statement::Zap => put_all_records(sink, RecordInstr::Zap),
        Statement::Reindex => put_all_records(sink, RecordInstr::Reindex),
        Statement::IndexOn { key, index } => index_on(sink, key, index),
        Statement::Parameters { .. }
        | Statement::Loop
        | Statement::Exit
        | Statement::Do { .. }
        | Statement::Return
        | Statement::Quit
        | Statement::Cancel => Err(CompileError::Fault(CompileFaultKind::Parameters)),
    }
}

fn get_in(variable: &Name, line: usize) -> Get
    ensures { result.variable.items ≡ variable.now.items }
{
    Get {
        variable: copy_of_name(variable),
        line,
    }
}

/// The GETs that wait for their READ after the command in this line.
pub fn wait_for_read(
    gets: &mut Vec<Get>,
    line: usize,
    statement: &Statement,
) -> Result<(), AllocError>
    ensures { OnOk result (acts.names_of gets.new.items
        ≡ acts.waiting (acts.names_of gets.old.items) (act_of statement.now)) }
{
    match statement {
        Statement::Get { variable, .. } | Statement::SayGet { variable, .. } => {
            gets.push(get_in(variable, line))?;
            Ok(())
        }
        Statement::Read => {
            gets.clear();
            Ok(())
        }
        _ => Ok(()),
    }
}
