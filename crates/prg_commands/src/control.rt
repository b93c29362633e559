//! Conditions, jumps, and commands that turn the way.

ghost use Rattle.std.specs.Prelude.{◌≡◌, ◌||◌, [], ℕ, Option, true, false, IfOk, OnOk, option_map};
ghost use Rattle.code_items.specs.declared.instr.FlowInstr.TheVariants.{End};
ghost use Rattle.code_items.specs.declared.instr.Instr.TheVariants.{Flow};
ghost use Rattle.prg_expr.specs.Tree.{tree_of};
ghost use Rattle.prg_commands.specs.Acts as acts;
ghost use Rattle.prg_commands.specs.Commands as spec;
ghost use Rattle.prg_commands.specs.Walking as walking;
ghost use Rattle.prg_commands.specs.declared.way.Leaps.{Leaps as Looped};
ghost use Rattle.prg_line.specs.Act.{act_of};
ghost use Rattle.prg_parser.specs.Commands.{Single, command_of};
ghost use Rattle.prg_values.specs.Placed.{InstrStands};

use crate::areas::opened;
use crate::moves::skip;
use crate::sink::Sink;
use crate::statement::{put_statement, wait_for_read};
use crate::way::{Leaps, Way};
use code_items::{Instr, Question, RecordInstr, ValueInstr};
use prg_code::{CompileError, CompileFaultKind, Get};
use prg_expr::Expr;
use prg_line::Statement;
use prg_parser::{Command, Form};
use prg_values::may_stand_before_read;
use std::alloc::AllocError;
use xvalue::{Fun, TruthFun};

/// Puts a condition and a JUMPF. Gives the label to which that leads.
pub(crate) fn test<S: Sink>(sink: &mut S, e: &Expr) -> Result<usize, CompileError>
    ensures laid { S.judges → IfOk result (λ out. spec.Tests (S.laying sink.old) (S.place sink.old) (tree_of e.now)
        out (S.place sink.new)) }
    ensures same { S.laying sink.new ≡ S.laying sink.old }
{
    sink.truth(e)?;
    sink.fork()
}

/// Puts the condition of a FOR, if there is one, and a JUMPF to the label of the next row.
pub(crate) fn choose_row<S: Sink>(
    sink: &mut S,
    only_if: &Option<Expr>,
    next: usize,
) -> Result<(), CompileError>
    ensures laid { S.judges → OnOk result (spec.Chooses (S.laying sink.old) (S.place sink.old)
        (option_map tree_of only_if.now) next (S.place sink.new)) }
    ensures same { S.laying sink.new ≡ S.laying sink.old }
{
    match only_if {
        Some(e) => {
            sink.truth(e)?;
            sink.fork_to(next)
        }
        None => Ok(()),
    }
}

/// Puts the test of a SCAN, whether there is a row, and a JUMPF. Gives the label to which that leads.
pub(crate) fn test_row<S: Sink>(sink: &mut S) -> Result<usize, CompileError>
    ensures laid { S.judges → IfOk result (λ out. spec.HasRow (S.laying sink.old) (S.place sink.old) out
        (S.place sink.new)) }
    ensures same { S.laying sink.new ≡ S.laying sink.old }
{
    opened(sink)?;
    sink.put(Instr::Records(RecordInstr::Ask(Question::Eof)))?;
    sink.put(Instr::Values(ValueInstr::Function(Fun::ToTruth(TruthFun::Not))))?;
    sink.fork()
}

/// Puts a JUMP to the label, where this place is reached.
pub(crate) fn go_to<S: Sink>(sink: &mut S, on: bool, label: usize) -> Result<(), CompileError>
    ensures laid { S.judges → OnOk result (spec.Goes (S.laying sink.old) (S.place sink.old) on label
        (S.place sink.new)) }
    ensures same { S.laying sink.new ≡ S.laying sink.old }
{
    if on { sink.jump(label) } else { Ok(()) }
}

/// Leaves a part of a choice, if it isn't the last one and its end is reached. Gives the label of the choice's end, as
/// far as it is known.
pub(crate) fn leave_part<S: Sink>(
    sink: &mut S,
    end: Option<usize>,
    last: bool,
    on: bool,
) -> Result<Option<usize>, CompileError>
    ensures laid { S.judges → IfOk result (λ told. walking.Departs (S.laying sink.old) end last (S.place sink.old) on
        told (S.place sink.new)) }
    ensures same { S.laying sink.new ≡ S.laying sink.old }
{
    if last || !on {
        return Ok(end);
    }
    let label = sink.leave(end)?;
    Ok(Some(label))
}

/// The end of a choice is here, in this line.
pub(crate) fn arrive<S: Sink>(
    sink: &mut S,
    end: Option<usize>,
    line: usize,
) -> Result<(), CompileError>
    ensures told { S.judges → OnOk result (walking.Told end (S.place sink.new)) }
    ensures place { S.judges → S.place sink.new ≡ S.place sink.old }
    ensures same { S.laying sink.new ≡ S.laying sink.old }
{
    sink.at(line);
    match end {
        Some(label) => sink.lead(label),
        None => Ok(()),
    }
}

/// Goes on to the next row, where LOOP of a SCAN leads, and back to its test; nothing where this isn't reached.
fn advance<S: Sink>(
    sink: &mut S,
    reached: bool,
    next: usize,
    top: usize,
) -> Result<(), CompileError>
    ensures laid { S.judges → OnOk result (walking.ComesBack (S.laying sink.old) (S.place sink.old) reached next top
        (S.place sink.new)) }
    ensures same { S.laying sink.new ≡ S.laying sink.old }
{
    if !reached {
        return Ok(());
    }
    sink.lead(next)?;
    skip(sink, &None)?;
    sink.jump(top)
}

/// Whether the next row of a SCAN is reached: from the end of its commands, by LOOP, or past the condition of its FOR.
fn is_next_row_reached(way: Way, chooses: bool) -> bool
    ensures { result ≡ (way.on || (way.again || chooses)) }
{
    way.on || way.again || chooses
}

/// Ends the commands of a SCAN that have this way.
pub(crate) fn come_back<S: Sink>(
    sink: &mut S,
    way: Way,
    chooses: bool,
    next: usize,
    top: usize,
) -> Result<(), CompileError>
    ensures laid { S.judges → OnOk result (walking.ComesBack (S.laying sink.old) (S.place sink.old)
        (way.on || (way.again || chooses)) next top (S.place sink.new)) }
    ensures same { S.laying sink.new ≡ S.laying sink.old }
{
    advance(sink, is_next_row_reached(way, chooses), next, top)
}

/// LOOP. Limit where there is no loop around it.
#[tactic(auto, using(crate::proofs::Steps::loop_laid))]
pub(crate) fn leap<S: Sink>(sink: &mut S, leaps: Option<Leaps>) -> Result<Way, CompileError>
    ensures laid { S.judges → IfOk result (λ way. (n : ℕ) → spec.Laid (S.laying sink.old) leaps [] (S.place sink.old)
        (Single n spec.loop_act) way (S.place sink.new)) }
    ensures same { S.laying sink.new ≡ S.laying sink.old }
{
    let Some(leaps) = leaps else {
        return Err(CompileError::Fault(CompileFaultKind::Limit));
    };
    sink.jump(leaps.again)?;
    Ok(Way::stopped(true))
}

/// EXIT. Limit where there is no loop around it.
#[tactic(auto, using(crate::proofs::Steps::exit_laid))]
pub(crate) fn exit<S: Sink>(sink: &mut S, leaps: Option<Leaps>) -> Result<Way, CompileError>
    ensures laid { S.judges → IfOk result (λ way. (n : ℕ) → spec.Laid (S.laying sink.old) leaps [] (S.place sink.old)
        (Single n spec.exit_act) way (S.place sink.new)) }
    ensures same { S.laying sink.new ≡ S.laying sink.old }
{
    let Some(leaps) = leaps else {
        return Err(CompileError::Fault(CompileFaultKind::Limit));
    };
    sink.jump(leaps.out)?;
    Ok(Way::stopped(false))
}

/// The procedure's end, in this line.
pub(crate) fn end_procedure<S: Sink>(sink: &mut S, line: usize) -> Result<(), CompileError>
    ensures laid { S.judges → OnOk result (InstrStands (S.laying sink.old).text (S.place sink.old) (Flow End)
        (S.place sink.new)) }
    ensures same { S.laying sink.new ≡ S.laying sink.old }
{
    sink.at(line);
    match sink.give_back() {
        Ok(()) => Ok(()),
        Err(error) => sink.note(error),
    }
}

/// Get at this line where a READ is awaited. Where faults are listed, none is awaited any more.
pub(crate) fn no_get_waits<S: Sink>(
    sink: &mut S,
    gets: &mut Vec<Get>,
    line: usize,
) -> Result<(), CompileError>
    ensures none { S.judges → OnOk result (acts.names_of gets.old.items ≡ []) }
    ensures kept { S.judges → OnOk result (gets.new ≡ gets.old) }
    ensures place { S.judges → OnOk result (S.place sink.new ≡ S.place sink.old) }
    ensures same { S.laying sink.new ≡ S.laying sink.old }
{
    if gets.is_empty() {
        return Ok(());
    }
    sink.at(line);
    sink.note(CompileError::Fault(CompileFaultKind::Get))?;
    gets.clear();
    Ok(())
}

/// The same where the command may not stand before a READ.
fn may_stand<S: Sink>(
    sink: &mut S,
    gets: &mut Vec<Get>,
    line: usize,
    statement: &Statement,
) -> Result<(), CompileError>
    ensures may { S.judges → OnOk result
        (acts.may_follow_gets (acts.names_of gets.old.items) (act_of statement.now) ≡ true) }
    ensures kept { S.judges → OnOk result (gets.new ≡ gets.old) }
    ensures place { S.judges → OnOk result (S.place sink.new ≡ S.place sink.old) }
    ensures same { S.laying sink.new ≡ S.laying sink.old }
{
    if may_stand_before_read(statement) {
        return Ok(());
    }
    no_get_waits(sink, gets, line)
}

/// Puts a command of one line that doesn't turn the way.
#[tactic(auto, using(crate::proofs::Steps::act_laid))]
pub(crate) fn plain<S: Sink>(
    sink: &mut S,
    gets: &mut Vec<Get>,
    line: usize,
    statement: &Statement,
) -> Result<Way, CompileError>
    ensures laid { S.judges → IfOk result (λ way. (leaps : Option Looped) (n : ℕ) → spec.Laid (S.laying sink.old) leaps
        (acts.names_of gets.old.items) (S.place sink.old) (Single n (act_of statement.now)) way (S.place sink.new)) }
    ensures kept { S.judges → OnOk result (gets.new ≡ gets.old) }
    ensures same { S.laying sink.new ≡ S.laying sink.old }
{
    may_stand(sink, gets, line, statement)?;
    put_statement(sink, gets, statement)?;
    Ok(Way::through())
}

/// The GETs that wait behind the command, which isn't a block while GETs wait.
pub(crate) fn wait_on(gets: &mut Vec<Get>, command: &Command) -> Result<(), AllocError>
    ensures { OnOk result (acts.names_of gets.new.items
        ≡ spec.waiting_behind (acts.names_of gets.old.items) (command_of command.now)) }
{
    match &command.form {
        Form::Statement(statement) => wait_for_read(gets, command.line, statement),
        _ => Ok(()),
    }
}

/// Lists the fault of the command that began last, where faults are listed, and nothing of the command stays. After a
/// READ no GET waits even so.
pub(crate) fn give_up<S: Sink>(
    sink: &mut S,
    gets: &mut Vec<Get>,
    command: &Command,
    error: CompileError,
) -> Result<(), CompileError>
    ensures never { S.judges → OnOk result ⊥ }
    ensures same { S.laying sink.new ≡ S.laying sink.old }
{
    sink.note(error)?;
    sink.end(false)?;
    if let Form::Statement(Statement::Read) = &command.form {
        gets.clear();
    }
    Ok(())
}
