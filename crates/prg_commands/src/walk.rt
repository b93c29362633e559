//! The walk along the commands of a procedure.

ghost use Rattle.std.specs.Prelude.{◌≡◌, ◌&&◌, ◌+◌, ◌<◌, nat_eq, ℕ, [], Option, None, IfOk, OnOk, option_map};
ghost use Rattle.code_items.specs.declared.instr.Instr.TheVariants.{Moves};
ghost use Rattle.code_items.specs.declared.instr.MoveInstr.TheVariants.{Top};
ghost use Rattle.prg_expr.specs.Tree.{tree_of};
ghost use Rattle.prg_commands.specs.Acts as acts;
ghost use Rattle.prg_commands.specs.Commands as spec;
ghost use Rattle.prg_commands.specs.Walking as walking;
ghost use Rattle.prg_commands.specs.declared.way.Leaps.{Leaps as Looped};
ghost use Rattle.prg_line.specs.Act.{act_of};
ghost use Rattle.prg_parser.specs.Commands.{Single, If, DoCase, DoWhile, Scan, form_command, command_of, commands_of};
ghost use Rattle.prg_parser.specs.Commands.{cases_of, part_of};
ghost use Rattle.prg_values.specs.Placed.{InstrStands};

use crate::control::{
    arrive, choose_row, come_back, end_procedure, exit, give_up, go_to, leap, leave_part,
    no_get_waits, plain, test, test_row, wait_on,
};
use crate::moves::put_top;
use crate::programs::parameters;
use crate::sink::Sink;
use crate::statement::{Turn, turn_of};
use crate::way::{Leaps, Way};
use code_items::Name;
use prg_code::{CompileError, CompileFaultKind, Get};
use prg_expr::Expr;
use prg_line::Statement;
use prg_parser::{Branch, Case, Command, Form, Program};
use std::alloc::Global;

/// The most rounds of a loop.
const ROUNDS: u16 = 300;

/// The most lists of commands within one another: 33 in each of 21 procedures.
const LEVELS: u16 = 700;

/// How many instructions lead from the next row of a SCAN back to its test.
const WAY_BACK: usize = 3;

/// What stands around commands.
#[derive(Clone, Copy)]
pub struct Around {
    pub alloc: Global,
    /// How many lists of commands may stand within one another.
    pub levels: u16,
    /// Where LOOP and EXIT lead.
    pub leaps: Option<Leaps>,
}

/// The lines of a part's condition, of what follows the part, and of the choice's end.
#[derive(Clone, Copy)]
pub struct PartLines {
    first: usize,
    next: usize,
    end: usize,
}

/// A part of a choice: its way, and the label of the choice's end as far as that is known.
#[derive(Clone, Copy)]
pub struct ChoicePart {
    pub end: Option<usize>,
    pub way: Way,
}

/// The line of ELSE or OTHERWISE; without it, that of the choice's end.
fn line_of(branch: &Option<Branch>, end: usize) -> usize {
    match branch {
        Some(branch) => branch.line,
        None => end,
    }
}

/// The line of the case of this number; behind the last case, the other line.
fn line_from(cases: &[Case], number: usize, other: usize) -> usize {
    match cases.get(number) {
        Some(case) => case.line,
        None => other,
    }
}

/// The line where GETs are told that wait at the end of a part; at a procedure's end, that of the last one.
fn line_of_waiting(gets: &[Get], end: Option<usize>) -> usize {
    match (end, gets.last()) {
        (Some(line), _) => line,
        (None, Some(get)) => get.line,
        (None, None) => 0,
    }
}

/// Whether nothing follows the case of this number.
fn is_last(number: usize, count: usize, closed: bool) -> bool
    requires { number < count }
    ensures { result ≡ (nat_eq (number + 1) count && closed) }
{
    number + 1 == count && closed
}

/// Puts commands up to the first one whose end isn't reached. The line is that which ends the part of a block.
#[cycle(walk)]
fn all<S: Sink>(
    sink: &mut S,
    programs: &[Program],
    around: Around,
    end: Option<usize>,
    list: &[Command],
) -> Result<Way, CompileError>
    ensures laid { S.judges → IfOk result (λ way. spec.LaidAll (S.laying sink.old) around.leaps [] (S.place sink.old)
        (commands_of list.now) way (S.place sink.new)) }
    ensures same { S.laying sink.new ≡ S.laying sink.old }
{
    if around.levels == 0 {
        return Err(CompileError::Fault(CompileFaultKind::Limit));
    }
    let inner = Around {
        levels: around.levels - 1,
        ..around
    };
    let mut way = Way::through();
    let mut gets: Vec<Get> = Vec::new(around.alloc);
    for command in list {
        if !way.on {
            return Ok(way);
        }
        way = way.then(next(sink, programs, inner, &mut gets, command)?);
    }
    let line = line_of_waiting(&gets, end);
    no_get_waits(sink, &mut gets, line)?;
    Ok(way)
}

/// Puts a command behind which these GETs wait for their READ. Of a faulty one nothing is put, where faults are listed.
#[cycle(walk)]
fn next<S: Sink>(
    sink: &mut S,
    programs: &[Program],
    around: Around,
    gets: &mut Vec<Get>,
    command: &Command,
) -> Result<Way, CompileError>
    ensures laid { S.judges → IfOk result (λ way. spec.Laid (S.laying sink.old) around.leaps
        (acts.names_of gets.old.items) (S.place sink.old) (command_of command.now) way (S.place sink.new)) }
    ensures waiting { S.judges → OnOk result (acts.names_of gets.new.items
        ≡ spec.waiting_behind (acts.names_of gets.old.items) (command_of command.now)) }
    ensures same { S.laying sink.new ≡ S.laying sink.old }
{
    sink.at(command.line);
    sink.begin()?;
    match one(sink, programs, around, gets, command) {
        Ok(way) => {
            sink.end(true)?;
            wait_on(gets, command)?;
            Ok(way)
        }
        Err(error) => {
            give_up(sink, gets, command, error)?;
            Ok(Way::through())
        }
    }
}

#[cycle(walk)]
fn one<S: Sink>(
    sink: &mut S,
    programs: &[Program],
    around: Around,
    gets: &mut Vec<Get>,
    command: &Command,
) -> Result<Way, CompileError>
    ensures laid { S.judges → IfOk result (λ way. spec.Laid (S.laying sink.old) around.leaps
        (acts.names_of gets.old.items) (S.place sink.old) (command_of command.now) way (S.place sink.new)) }
    ensures kept { S.judges → OnOk result (gets.new ≡ gets.old) }
    ensures same { S.laying sink.new ≡ S.laying sink.old }
{
    if let Form::Statement(statement) = &command.form {
        return single(sink, programs, around, gets, command.line, statement);
    }
    no_get_waits(sink, gets, command.line)?;
    block(sink, programs, around, command.line, &command.form)
}

#[cycle(walk)]
fn single<S: Sink>(
    sink: &mut S,
    programs: &[Program],
    around: Around,
    gets: &mut Vec<Get>,
    line: usize,
    statement: &Statement,
) -> Result<Way, CompileError>
    ensures laid { S.judges → IfOk result (λ way. (n : ℕ) → spec.Laid (S.laying sink.old) around.leaps
        (acts.names_of gets.old.items) (S.place sink.old) (Single n (act_of statement.now)) way (S.place sink.new)) }
    ensures kept { S.judges → OnOk result (gets.new ≡ gets.old) }
    ensures same { S.laying sink.new ≡ S.laying sink.old }
{
    let Some(turn) = turn_of(statement) else {
        return plain(sink, gets, line, statement);
    };
    no_get_waits(sink, gets, line)?;
    turned(sink, programs, around, turn)
}

/// Puts a command that turns the way.
#[cycle(walk)]
#[tactic(auto, using(crate::proofs::Steps::return_laid, crate::proofs::Steps::end_laid))]
fn turned<S: Sink>(
    sink: &mut S,
    programs: &[Program],
    around: Around,
    turn: Turn,
) -> Result<Way, CompileError>
    ensures laid { S.judges → IfOk result (λ way. walking.TurnedBy (S.laying sink.old) around.leaps (S.place sink.old)
        turn.entry way (S.place sink.new)) }
    ensures same { S.laying sink.new ≡ S.laying sink.old }
{
    match turn {
        Turn::Again => leap(sink, around.leaps),
        Turn::Out => exit(sink, around.leaps),
        Turn::Return => {
            sink.give_back()?;
            Ok(Way::stopped(false))
        }
        Turn::End => {
            sink.quit()?;
            Ok(Way::stopped(false))
        }
        Turn::Call(procedure, arguments) => {
            call(sink, programs, around, procedure, arguments)?;
            Ok(Way::through())
        }
    }
}

/// Puts a call, and the code of the procedure where that stands nowhere yet.
#[cycle(walk)]
fn call<S: Sink>(
    sink: &mut S,
    programs: &[Program],
    around: Around,
    procedure: &Name,
    arguments: &[Expr],
) -> Result<(), CompileError>
    ensures never { S.judges → OnOk result ⊥ }
    ensures same { S.laying sink.new ≡ S.laying sink.old }
{
    let Some(target) = sink.open(programs, procedure, arguments)? else {
        return Ok(());
    };
    let (_, list) = parameters(target.commands(programs));
    whole(sink, programs, around, list, target.last_line(programs))?;
    sink.close()
}

/// Puts the commands of a procedure, and its end in this line, where that is reached.
#[cycle(walk)]
fn whole<S: Sink>(
    sink: &mut S,
    programs: &[Program],
    around: Around,
    list: &[Command],
    last: usize,
) -> Result<(), CompileError>
    ensures laid { S.judges → OnOk result (spec.WholeLaid (S.laying sink.old) (S.place sink.old)
        (commands_of list.now) (S.place sink.new)) }
    ensures same { S.laying sink.new ≡ S.laying sink.old }
{
    let outermost = Around {
        leaps: None,
        ..around
    };
    let way = all(sink, programs, outermost, None, list)?;
    if way.on {
        end_procedure(sink, last)
    } else {
        Ok(())
    }
}

#[cycle(walk)]
fn block<S: Sink>(
    sink: &mut S,
    programs: &[Program],
    around: Around,
    line: usize,
    form: &Form,
) -> Result<Way, CompileError>
    ensures laid { S.judges → IfOk result (λ way. (n : ℕ) → spec.Laid (S.laying sink.old) around.leaps []
        (S.place sink.old) (form_command form.now n) way (S.place sink.new)) }
    ensures same { S.laying sink.new ≡ S.laying sink.old }
{
    match form {
        Form::Statement(_) => Err(CompileError::Fault(CompileFaultKind::Limit)),
        Form::If {
            condition,
            then,
            otherwise: branch,
            end,
        } => {
            let lines = PartLines {
                first: line,
                next: line_of(branch, *end),
                end: *end,
            };
            choose(sink, programs, around, lines, condition, then, branch)
        }
        Form::DoCase {
            cases,
            otherwise: branch,
            end,
        } => decide(sink, programs, around, *end, cases, branch),
        Form::DoWhile {
            condition,
            body,
            end,
        } => repeat(sink, programs, around, *end, condition, body),
        Form::Scan {
            condition,
            body,
            end,
        } => scan(sink, programs, around, *end, condition, body),
    }
}

/// A part of a choice, whose condition stands in front of it.
#[cycle(walk)]
#[tactic(auto, using(crate::proofs::Steps::looked))]
fn part<S: Sink>(
    sink: &mut S,
    programs: &[Program],
    around: Around,
    end: Option<usize>,
    lines: PartLines,
    condition: &Expr,
    body: &[Command],
    last: bool,
) -> Result<ChoicePart, CompileError>
    ensures laid { S.judges → IfOk result (λ part. walking.Looked (S.laying sink.old) around.leaps end
        (tree_of condition.now) (S.place sink.old) (commands_of body.now) last part (S.place sink.new)) }
    ensures same { S.laying sink.new ≡ S.laying sink.old }
{
    sink.at(lines.first);
    let out = test(sink, condition)?;
    let way = all(sink, programs, around, Some(lines.next), body)?;
    sink.at(lines.end);
    let end = leave_part(sink, end, last, way.on)?;
    sink.lead(out)?;
    Ok(ChoicePart { end, way })
}

/// ELSE or OTHERWISE, if it is there, and the end of the choice in this line.
#[cycle(walk)]
fn otherwise<S: Sink>(
    sink: &mut S,
    programs: &[Program],
    around: Around,
    end: Option<usize>,
    line: usize,
    branch: &Option<Branch>,
) -> Result<Way, CompileError>
    ensures told { S.judges → OnOk result (walking.Told end (S.place sink.new)) }
    ensures laid { S.judges → IfOk result (λ way. spec.LaidPart (S.laying sink.old) around.leaps (S.place sink.old)
        (part_of branch.now) way (S.place sink.new)) }
    ensures same { S.laying sink.new ≡ S.laying sink.old }
{
    match branch {
        Some(branch) => {
            let way = all(sink, programs, around, Some(line), &branch.body)?;
            arrive(sink, end, line)?;
            Ok(way)
        }
        None => {
            arrive(sink, end, line)?;
            Ok(Way::through())
        }
    }
}

/// IF.
#[cycle(walk)]
#[tactic(auto, using(crate::proofs::Steps::if_laid))]
fn choose<S: Sink>(
    sink: &mut S,
    programs: &[Program],
    around: Around,
    lines: PartLines,
    condition: &Expr,
    then: &[Command],
    branch: &Option<Branch>,
) -> Result<Way, CompileError>
    ensures laid { S.judges → IfOk result (λ way. (n end : ℕ) → spec.Laid (S.laying sink.old) around.leaps []
        (S.place sink.old) (If n (tree_of condition.now) (commands_of then.now) (part_of branch.now) end) way
        (S.place sink.new)) }
    ensures same { S.laying sink.new ≡ S.laying sink.old }
{
    let part = part(
        sink,
        programs,
        around,
        None,
        lines,
        condition,
        then,
        branch.is_none(),
    )?;
    let other = otherwise(sink, programs, around, part.end, lines.end, branch)?;
    Ok(part.way.or(other))
}

/// DO CASE.
#[cycle(walk)]
fn decide<S: Sink>(
    sink: &mut S,
    programs: &[Program],
    around: Around,
    end: usize,
    cases: &[Case],
    branch: &Option<Branch>,
) -> Result<Way, CompileError>
    ensures laid { S.judges → IfOk result (λ way. (n end : ℕ) → spec.Laid (S.laying sink.old) around.leaps []
        (S.place sink.old) (DoCase n (cases_of cases.now) (part_of branch.now) end) way (S.place sink.new)) }
    ensures same { S.laying sink.new ≡ S.laying sink.old }
{
    let behind = PartLines {
        first: end,
        next: line_of(branch, end),
        end,
    };
    let part = chain(sink, programs, around, behind, cases, branch.is_none())?;
    let other = otherwise(sink, programs, around, part.end, end, branch)?;
    Ok(part.way.or(other))
}

/// The cases of a DO CASE. The lines are those of what follows them.
#[cycle(walk)]
fn chain<S: Sink>(
    sink: &mut S,
    programs: &[Program],
    around: Around,
    behind: PartLines,
    cases: &[Case],
    closed: bool,
) -> Result<ChoicePart, CompileError>
    ensures laid { S.judges → IfOk result (λ part. walking.Chains (S.laying sink.old) around.leaps (S.place sink.old)
        cases.now closed part (S.place sink.new)) }
    ensures same { S.laying sink.new ≡ S.laying sink.old }
{
    let mut end = None;
    let mut way = Way::stopped(false);
    let count = cases.len();
    for (number, case) in cases.iter().enumerate() {
        let lines = PartLines {
            first: case.line,
            next: line_from(cases, number + 1, behind.next),
            end: behind.end,
        };
        let last = is_last(number, count, closed);
        let part = part(
            sink,
            programs,
            around,
            end,
            lines,
            &case.condition,
            &case.body,
            last,
        )?;
        end = part.end;
        way = way.or(part.way);
    }
    Ok(ChoicePart { end, way })
}

/// A round of a DO WHILE whose head is here. Gives the label of the loop's end.
#[cycle(walk)]
#[tactic(auto, using(crate::proofs::Steps::while_laid))]
fn round<S: Sink>(
    sink: &mut S,
    programs: &[Program],
    around: Around,
    head: usize,
    end: usize,
    condition: &Expr,
    body: &[Command],
) -> Result<usize, CompileError>
    ensures laid { S.judges → IfOk result (λ out. head ≡ S.place sink.old → out ≡ S.place sink.new
        → (l : Option Looped) (n end : ℕ) → spec.Laid (S.laying sink.old) l [] (S.place sink.old)
        (DoWhile n (tree_of condition.now) (commands_of body.now) end) spec.through (S.place sink.new)) }
    ensures same { S.laying sink.new ≡ S.laying sink.old }
{
    let out = test(sink, condition)?;
    let inside = Around {
        leaps: Some(Leaps { again: head, out }),
        ..around
    };
    let way = all(sink, programs, inside, Some(end), body)?;
    sink.at(end);
    go_to(sink, way.on, head)?;
    Ok(out)
}

/// DO WHILE.
#[cycle(walk)]
fn repeat<S: Sink>(
    sink: &mut S,
    programs: &[Program],
    around: Around,
    end: usize,
    condition: &Expr,
    body: &[Command],
) -> Result<Way, CompileError>
    ensures laid { S.judges → IfOk result (λ way. (l : Option Looped) (n end : ℕ) → spec.Laid (S.laying sink.old) l []
        (S.place sink.old) (DoWhile n (tree_of condition.now) (commands_of body.now) end) way (S.place sink.new)) }
    ensures same { S.laying sink.new ≡ S.laying sink.old }
{
    let head = sink.mark()?;
    for _ in 0..ROUNDS {
        let out = round(sink, programs, around, head, end, condition, body)?;
        if !sink.again(head)? {
            sink.lead(out)?;
            return Ok(Way::through());
        }
    }
    Err(CompileError::Fault(CompileFaultKind::Limit))
}

/// A round of a SCAN whose test is here. Gives the label of the loop's end.
#[cycle(walk)]
#[tactic(auto, using(crate::proofs::Steps::scan_laid, crate::proofs::Steps::is_some_map))]
fn row_round<S: Sink>(
    sink: &mut S,
    programs: &[Program],
    around: Around,
    top: usize,
    end: usize,
    only_if: &Option<Expr>,
    body: &[Command],
) -> Result<usize, CompileError>
    ensures laid { S.judges → IfOk result (λ out. top ≡ S.place sink.old → out ≡ S.place sink.new
        → (l : Option Looped) (a n end : ℕ) → InstrStands (S.laying sink.old).text a (Moves Top) (S.place sink.old)
        → spec.Laid (S.laying sink.old) l [] a (Scan n (option_map tree_of only_if.now) (commands_of body.now) end)
        spec.through (S.place sink.new)) }
    ensures same { S.laying sink.new ≡ S.laying sink.old }
{
    let out = test_row(sink)?;
    let next = sink.before(out, WAY_BACK)?;
    choose_row(sink, only_if, next)?;
    let inside = Around {
        leaps: Some(Leaps { again: next, out }),
        ..around
    };
    let way = all(sink, programs, inside, Some(end), body)?;
    sink.at(end);
    come_back(sink, way, only_if.is_some(), next, top)?;
    Ok(out)
}

/// SCAN.
#[cycle(walk)]
fn scan<S: Sink>(
    sink: &mut S,
    programs: &[Program],
    around: Around,
    end: usize,
    only_if: &Option<Expr>,
    body: &[Command],
) -> Result<Way, CompileError>
    ensures laid { S.judges → IfOk result (λ way. (l : Option Looped) (n end : ℕ) → spec.Laid (S.laying sink.old) l []
        (S.place sink.old) (Scan n (option_map tree_of only_if.now) (commands_of body.now) end) way
        (S.place sink.new)) }
    ensures same { S.laying sink.new ≡ S.laying sink.old }
{
    put_top(sink)?;
    let top = sink.mark()?;
    for _ in 0..ROUNDS {
        let out = row_round(sink, programs, around, top, end, only_if, body)?;
        if !sink.again(top)? {
            sink.lead(out)?;
            return Ok(Way::through());
        }
    }
    Err(CompileError::Fault(CompileFaultKind::Limit))
}

/// Puts the commands of the main procedure, whose last one stands in this line, and END where their end is reached.
/// Procedures that are called are found in the command files.
///
/// # Errors
///
/// The first fault in the order of the commands; where faults are listed, none. Want of memory.
pub fn put_main<S: Sink>(
    sink: &mut S,
    alloc: Global,
    programs: &[Program],
    list: &[Command],
    last: usize,
) -> Result<(), CompileError>
    // In a finished code all of them are found.
    ensures laid { S.judges → OnOk result (spec.WholeLaid (S.laying sink.old) (S.place sink.old)
        (commands_of list.now) (S.place sink.new)) }
    ensures same { S.laying sink.new ≡ S.laying sink.old }
{
    let around = Around {
        alloc,
        levels: LEVELS,
        leaps: None,
    };
    whole(sink, programs, around, list, last)
}
