//! Commands on the screen, and those that take the operator's lines.

ghost use Rattle.std.specs.Prelude.{◌≡◌, IfOk, OnOk, map, option_map};
ghost use Rattle.prg_expr.specs.Tree.{tree_of};
ghost use Rattle.prg_commands.specs.Acts as acts;
ghost use Rattle.prg_commands.specs.Layout.{NameLaid};
ghost use Rattle.prg_line.specs.Act.{letters_of};

use crate::sink::Sink;
use crate::values::{demand, put_one, put_screen, put_value, reading_of, value_of_kind};
use crate::variables::put_store;
use code_items::{Instr, Name, RecordInstr, ScreenInstr, ValueInstr};
use prg_code::{CompileError, CompileFaultKind, Get};
use prg_expr::Expr;
use prg_values::Reading;
use xvalue::{Fun, Kind, TextFun, Value, text_from};

fn show_one<S: Sink>(sink: &mut S, e: &Expr) -> Result<(), CompileError>
    ensures laid { S.judges → OnOk result (acts.ShownOne (S.laying sink.old) (S.place sink.old) (tree_of e.now)
        (S.place sink.new)) }
    ensures same { S.laying sink.new ≡ S.laying sink.old }
{
    let kind = sink.value(e)?;
    put_screen(sink, ScreenInstr::Print(kind))
}

fn show_blank<S: Sink>(sink: &mut S) -> Result<(), CompileError>
    ensures laid { S.judges → OnOk result (acts.ShownBlank (S.laying sink.old) (S.place sink.old)
        (S.place sink.new)) }
    ensures same { S.laying sink.new ≡ S.laying sink.old }
{
    sink.constant(Value::Text(text_from(b" ")))?;
    put_screen(sink, ScreenInstr::Print(Kind::Text))
}

/// Shows values, each after a blank.
fn show_more<S: Sink>(sink: &mut S, values: &[Expr]) -> Result<(), CompileError>
    ensures laid { S.judges → OnOk result (acts.ShownMore (S.laying sink.old) (S.place sink.old)
        (map tree_of values.now) (S.place sink.new)) }
    ensures same { S.laying sink.new ≡ S.laying sink.old }
{
    let mut rest = values;
    while let Some((e, others)) = rest.split_first() {
        show_blank(sink)?;
        show_one(sink, e)?;
        rest = others;
    }
    Ok(())
}

/// `?? list`: shows the values at the cursor, a blank between two.
pub fn show<S: Sink>(sink: &mut S, values: &[Expr]) -> Result<(), CompileError>
    ensures laid { S.judges → OnOk result (acts.Shown (S.laying sink.old) (S.place sink.old) (map tree_of values.now)
        (S.place sink.new)) }
    ensures same { S.laying sink.new ≡ S.laying sink.old }
{
    match values.split_first() {
        Some((e, others)) => {
            show_one(sink, e)?;
            show_more(sink, others)
        }
        None => Ok(()),
    }
}

/// `? [list]`.
pub fn show_line<S: Sink>(sink: &mut S, values: &[Expr]) -> Result<(), CompileError>
    ensures laid { S.judges → OnOk result (acts.ShownLine (S.laying sink.old) (S.place sink.old)
        (map tree_of values.now) (S.place sink.new)) }
    ensures same { S.laying sink.new ≡ S.laying sink.old }
{
    put_screen(sink, ScreenInstr::NewLine)?;
    show(sink, values)
}

/// `@ row,column SAY value`.
pub fn say<S: Sink>(sink: &mut S, row: &Expr, column: &Expr, e: &Expr) -> Result<(), CompileError>
    ensures laid { S.judges → OnOk result (acts.SayLaid (S.laying sink.old) (S.place sink.old) (tree_of row.now)
        (tree_of column.now) (tree_of e.now) (S.place sink.new)) }
    ensures same { S.laying sink.new ≡ S.laying sink.old }
{
    let row = sink.value(row)?;
    let column = sink.value(column)?;
    let kind = sink.value(e)?;
    demand(row, Kind::Number)?;
    demand(column, Kind::Number)?;
    put_screen(sink, ScreenInstr::Say(kind))
}

/// Puts the value of a variable or a field.
fn put_name<S: Sink>(sink: &mut S, name: &Name) -> Result<Reading, CompileError>
    ensures laid { S.judges → IfOk result (λ r. NameLaid (S.laying sink.old) (S.place sink.old) name.now.items r
        (S.place sink.new)) }
    ensures same { S.laying sink.new ≡ S.laying sink.old }
{
    let reading = reading_of(sink, name)?;
    sink.put(reading.instr)?;
    Ok(reading)
}

/// `@ row,column GET variable`.
pub fn get<S: Sink>(
    sink: &mut S,
    row: &Expr,
    column: &Expr,
    variable: &Name,
) -> Result<(), CompileError>
    ensures laid { S.judges → OnOk result (acts.Got (S.laying sink.old) (S.place sink.old) (tree_of row.now)
        (tree_of column.now) variable.now.items (S.place sink.new)) }
    ensures same { S.laying sink.new ≡ S.laying sink.old }
{
    let row = sink.value(row)?;
    let column = sink.value(column)?;
    let Reading { kind, .. } = put_name(sink, variable)?;
    demand(row, Kind::Number)?;
    demand(column, Kind::Number)?;
    put_screen(sink, ScreenInstr::Say(kind))
}

/// The `GET variable` behind a SAY.
fn get_on<S: Sink>(sink: &mut S, variable: &Name) -> Result<(), CompileError>
    ensures laid { S.judges → OnOk result (acts.GotOn (S.laying sink.old) (S.place sink.old) variable.now.items
        (S.place sink.new)) }
    ensures same { S.laying sink.new ≡ S.laying sink.old }
{
    let Reading { kind, .. } = put_name(sink, variable)?;
    put_screen(sink, ScreenInstr::SayOn(kind))
}

/// `@ row,column SAY value GET variable`.
pub fn say_and_get<S: Sink>(
    sink: &mut S,
    row: &Expr,
    column: &Expr,
    e: &Expr,
    variable: &Name,
) -> Result<(), CompileError>
    ensures laid { S.judges → OnOk result (acts.SaidAndGot (S.laying sink.old) (S.place sink.old) (tree_of row.now)
        (tree_of column.now) (tree_of e.now) variable.now.items (S.place sink.new)) }
    ensures same { S.laying sink.new ≡ S.laying sink.old }
{
    say(sink, row, column, e)?;
    get_on(sink, variable)
}

/// The instruction that takes a value of this kind to where another instruction reads it.
fn kept(instr: Instr, kind: Kind) -> Option<Instr>
    ensures { result ≡ acts.kept instr kind }
{
    match instr {
        Instr::Values(ValueInstr::Load(_, slot)) => {
            Some(Instr::Values(ValueInstr::Store(kind, slot)))
        }
        Instr::Records(RecordInstr::Field { field, .. }) => {
            Some(Instr::Records(RecordInstr::Replace(field)))
        }
        _ => None,
    }
}

/// Takes a line for one GET.
fn read_one<S: Sink>(sink: &mut S, name: &Name) -> Result<(), CompileError>
    ensures laid { S.judges → OnOk result (acts.TakenOne (S.laying sink.old) (S.place sink.old) name.now.items
        (S.place sink.new)) }
    ensures same { S.laying sink.new ≡ S.laying sink.old }
{
    let Reading { instr, kind } = put_name(sink, name)?;
    put_screen(sink, ScreenInstr::Input(kind))?;
    let Some(keeps) = kept(instr, kind) else {
        return Err(CompileError::Fault(CompileFaultKind::Name));
    };
    sink.put(keeps)
}

/// `READ`, for which these GETs wait.
pub fn read<S: Sink>(sink: &mut S, gets: &[Get]) -> Result<(), CompileError>
    ensures laid { S.judges → OnOk result (acts.ReadLaid (S.laying sink.old) (S.place sink.old)
        (acts.names_of gets.now) (S.place sink.new)) }
    ensures same { S.laying sink.new ≡ S.laying sink.old }
{
    let mut rest = gets;
    while let Some((get, others)) = rest.split_first() {
        read_one(sink, &get.variable)?;
        rest = others;
    }
    Ok(())
}

/// Shows the prompt, if there is one.
fn show_prompt<S: Sink>(sink: &mut S, prompt: &Option<Expr>) -> Result<(), CompileError>
    ensures laid { S.judges → OnOk result (acts.Prompted (S.laying sink.old) (S.place sink.old)
        (option_map tree_of prompt.now) (S.place sink.new)) }
    ensures same { S.laying sink.new ≡ S.laying sink.old }
{
    match prompt {
        Some(e) => {
            value_of_kind(sink, e, Kind::Text)?;
            put_screen(sink, ScreenInstr::Print(Kind::Text))
        }
        None => Ok(()),
    }
}

/// `ACCEPT [prompt] TO variable`.
pub fn accept<S: Sink>(
    sink: &mut S,
    prompt: &Option<Expr>,
    variable: &Name,
) -> Result<(), CompileError>
    ensures laid { S.judges → OnOk result (acts.AcceptLaid (S.laying sink.old) (S.place sink.old)
        (option_map tree_of prompt.now) variable.now.items (S.place sink.new)) }
    ensures same { S.laying sink.new ≡ S.laying sink.old }
{
    put_screen(sink, ScreenInstr::NewLine)?;
    show_prompt(sink, prompt)?;
    put_screen(sink, ScreenInstr::Line)?;
    put_store(sink, variable, Kind::Text)
}

/// Puts the text that is shown while a key is awaited.
fn put_prompt<S: Sink>(sink: &mut S, prompt: &Option<Expr>) -> Result<(), CompileError>
    ensures laid { S.judges → OnOk result (acts.Asked (S.laying sink.old) (S.place sink.old)
        (option_map tree_of prompt.now) (S.place sink.new)) }
    ensures same { S.laying sink.new ≡ S.laying sink.old }
{
    match prompt {
        Some(e) => value_of_kind(sink, e, Kind::Text),
        None => sink.constant(Value::Text(text_from(b"Press any key to continue..."))),
    }
}

/// Takes the first letter of the operator's line into the variable, if there is one.
fn take_key<S: Sink>(sink: &mut S, variable: &Option<Name>) -> Result<(), CompileError>
    ensures laid { S.judges → OnOk result (acts.KeyTaken (S.laying sink.old) (S.place sink.old)
        (option_map letters_of variable.now) (S.place sink.new)) }
    ensures same { S.laying sink.new ≡ S.laying sink.old }
{
    match variable {
        Some(name) => {
            put_one(sink)?;
            put_value(sink, ValueInstr::Function(Fun::ToText(TextFun::Left)))?;
            put_store(sink, name, Kind::Text)
        }
        None => put_value(sink, ValueInstr::Discard(Kind::Text)),
    }
}

/// `WAIT [prompt] [TO variable]`.
pub fn wait<S: Sink>(
    sink: &mut S,
    prompt: &Option<Expr>,
    variable: &Option<Name>,
) -> Result<(), CompileError>
    ensures laid { S.judges → OnOk result (acts.Waited (S.laying sink.old) (S.place sink.old)
        (option_map tree_of prompt.now) (option_map letters_of variable.now) (S.place sink.new)) }
    ensures same { S.laying sink.new ≡ S.laying sink.old }
{
    put_screen(sink, ScreenInstr::NewLine)?;
    put_prompt(sink, prompt)?;
    put_screen(sink, ScreenInstr::Print(Kind::Text))?;
    put_screen(sink, ScreenInstr::Line)?;
    take_key(sink, variable)
}
