//! Commands on work areas.

ghost use Rattle.std.specs.Prelude.{◌≡◌, IfOk, IfSome, OnOk, Some, map, option_map, position};
ghost use Rattle.std.specs.List.{AllZip};
ghost use Rattle.std.specs.Str.{bytes_eq};
ghost use Rattle.code_items.specs.declared.instr.AreaInstr.TheVariants as area_instr;
ghost use Rattle.prg_expr.specs.Tree.{tree_of};
ghost use Rattle.prg_commands.specs.Acts as acts;
ghost use Rattle.prg_line.specs.Act.{area_said, letters_of};
ghost use Rattle.prg_values.specs.Readings.{table_named as table_named_in};
ghost use Rattle.shape.specs.Lists.{is_index_of};

use crate::sink::Sink;
use arrayvec::ArrayVec;
use code_items::{AreaInstr, IndexShape, Instr, Name, OpenArea, Shape};
use code_rules::desks::others_hold;
use prg_code::{CompileError, CompileFaultKind, ListedIndexes};
use prg_expr::Expr;
use prg_line::Selected;
use prg_values::{Scope, area_of_alias, number_in_byte, table_named};

/// What the selected work area holds. ClosedArea where it isn't known to be open.
pub(crate) fn opened<S: Sink>(sink: &S) -> Result<OpenArea, CompileError> {
    let scope = sink.scope()?;
    match scope.state.desk.selected_area() {
        Some(area) => Ok(area),
        None => Err(CompileError::Fault(CompileFaultKind::ClosedArea)),
    }
}

pub(crate) fn put_area<S: Sink>(sink: &mut S, instr: AreaInstr) -> Result<(), CompileError>
    ensures laid { S.judges → OnOk result (acts.OnAreas (S.laying sink.old) (S.place sink.old) instr
        (S.place sink.new)) }
    ensures same { S.laying sink.new ≡ S.laying sink.old }
{
    sink.put(Instr::Areas(instr))
}

/// The place of the first declared index of this name.
fn place_named(indexes: &[IndexShape], name: &[u8]) -> Option<usize>
    ensures { result ≡ position (λ index. bytes_eq index.name.items name.now) indexes.now }
{
    indexes
        .iter()
        .position(|index| index.name.as_slice() == name)
}

/// The number of the declared index of this name, counted from 0; none where a byte doesn't hold it.
#[tactic(auto, using(crate::proofs::Indexes::names_index))]
pub(crate) fn index_named(indexes: &[IndexShape], name: &[u8]) -> Option<u8>
    ensures { IfSome result (acts.NamesIndex indexes.now name.now) }
{
    match place_named(indexes, name) {
        Some(place) => number_in_byte(place),
        None => None,
    }
}

/// Whether the index of this number is one of the table of this number.
pub(crate) fn is_of_table(indexes: &[IndexShape], number: u8, table: u16) -> bool
    ensures { result ≡ is_index_of indexes.now table number }
{
    match indexes.get(usize::from(number)) {
        Some(index) => u16::from(index.table) == table,
        None => false,
    }
}

/// The list of these indexes: Name where one isn't declared, Index where one is of another table or named twice, Limit
/// where there are more than seven.
fn list_of(shape: &Shape, table: u16, names: &[Name]) -> Result<ListedIndexes, CompileError>
    ensures { IfOk result (λ list. AllZip (acts.NamesIndex shape.now.indexes) (map letters_of names.now) list.items) }
{
    let mut indexes = ArrayVec::new();
    let mut rest = names;
    while let Some((name, others)) = rest.split_first() {
        let Some(number) = index_named(shape.indexes.as_slice(), name.as_slice()) else {
            return Err(CompileError::Fault(CompileFaultKind::Name));
        };
        if !is_of_table(shape.indexes.as_slice(), number, table)
            || indexes.as_slice().contains(&number)
        {
            return Err(CompileError::Fault(CompileFaultKind::Index));
        }
        if indexes.try_push(number).is_err() {
            return Err(CompileError::Fault(CompileFaultKind::Limit));
        }
        rest = others;
    }
    Ok(indexes)
}

/// Whether another work area than the selected one holds the table, or may hold it.
fn is_held(scope: &Scope, table: u16) -> bool {
    let desk = &scope.state.desk;
    others_hold(table, desk.selected, desk.areas.as_slice())
}

/// The number of the declared table of this name.
fn table_of<S: Sink>(sink: &S, name: &Name) -> Result<u16, CompileError>
    ensures { S.judges → IfOk result
        (λ table. table_named_in (S.laying sink.now).declared.shape name.now.items ≡ Some table) }
{
    let scope = sink.scope()?;
    match table_named(scope.shape, name.as_slice()) {
        Some(table) => Ok(table),
        None => Err(CompileError::Fault(CompileFaultKind::Name)),
    }
}

/// The number of the list of these indexes of the table, which is to be opened. OpenTwice where another work area holds
/// it or may hold it.
#[tactic(auto, using(crate::proofs::Indexes::is_list))]
fn list_to_open<S: Sink>(sink: &mut S, table: u16, names: &[Name]) -> Result<u16, CompileError>
    ensures number { S.judges → IfOk result (acts.IsList (S.laying sink.old) (map letters_of names.now)) }
    ensures place { S.judges → S.place sink.new ≡ S.place sink.old }
    ensures same { S.laying sink.new ≡ S.laying sink.old }
{
    let scope = sink.scope()?;
    let list = list_of(scope.shape, table, names)?;
    if is_held(&scope, table) {
        return Err(CompileError::Fault(CompileFaultKind::OpenTwice));
    }
    sink.list(list)
}

/// `USE table [INDEX indexes]`.
pub fn open_table<S: Sink>(sink: &mut S, name: &Name, indexes: &[Name]) -> Result<(), CompileError>
    ensures laid { S.judges → OnOk result (acts.Opened (S.laying sink.old) (S.place sink.old) name.now.items
        (map letters_of indexes.now) (S.place sink.new)) }
    ensures same { S.laying sink.new ≡ S.laying sink.old }
{
    let table = table_of(sink, name)?;
    let list = u32::from(list_to_open(sink, table, indexes)?);
    put_area(sink, AreaInstr::Open { table, list })
}

fn area_named<S: Sink>(sink: &S, name: &Name) -> Result<u8, CompileError>
    ensures { S.judges → IfOk result (acts.IsArea (S.laying sink.now) (S.place sink.now) name.now.items) }
{
    let scope = sink.scope()?;
    match area_of_alias(&scope, name.as_slice()) {
        Ok(area) => Ok(area),
        Err(fault) => Err(CompileError::Fault(fault)),
    }
}

/// `SELECT area`.
pub fn select<S: Sink>(sink: &mut S, area: &Selected) -> Result<(), CompileError>
    ensures laid { S.judges → OnOk result (acts.Selected (S.laying sink.old) (S.place sink.old) (area_said area.now)
        (S.place sink.new)) }
    ensures same { S.laying sink.new ≡ S.laying sink.old }
{
    match area {
        Selected::Number(number) => put_area(sink, AreaInstr::Select(*number)),
        Selected::Name(name) => {
            let number = area_named(sink, name)?;
            put_area(sink, AreaInstr::Select(number))
        }
    }
}

/// `SET ORDER TO order`.
pub fn set_order<S: Sink>(sink: &mut S, order: u16) -> Result<(), CompileError>
    ensures laid { S.judges → OnOk result (acts.OnAreas (S.laying sink.old) (S.place sink.old) (area_instr.Order order)
        (S.place sink.new)) }
    ensures same { S.laying sink.new ≡ S.laying sink.old }
{
    let area = opened(sink)?;
    if !sink.has_order(area, order) {
        return Err(CompileError::Fault(CompileFaultKind::NoOrder));
    }
    put_area(sink, AreaInstr::Order(order))
}

/// Sets the filter of the condition, of this table.
fn filter_by<S: Sink>(sink: &mut S, table: u16, e: &Expr) -> Result<(), CompileError>
    ensures laid { S.judges → OnOk result (acts.FilteredBy (S.laying sink.old) (S.place sink.old) (tree_of e.now)
        (S.place sink.new)) }
    ensures same { S.laying sink.new ≡ S.laying sink.old }
{
    let number = sink.filter(table, e)?;
    put_area(sink, AreaInstr::Filter(number))
}

/// `SET FILTER TO [condition]`.
pub fn set_filter<S: Sink>(sink: &mut S, condition: &Option<Expr>) -> Result<(), CompileError>
    ensures laid { S.judges → OnOk result (acts.Filtered (S.laying sink.old) (S.place sink.old)
        (option_map tree_of condition.now) (S.place sink.new)) }
    ensures same { S.laying sink.new ≡ S.laying sink.old }
{
    let area = opened(sink)?;
    match condition {
        Some(e) => filter_by(sink, area.table, e),
        None => put_area(sink, AreaInstr::Filter(0)),
    }
}
