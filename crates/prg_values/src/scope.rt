//! What names mean.

ghost use Rattle.std.specs.Prelude.{◌≡◌};
ghost use Rattle.std.specs.List.{list_any};
ghost use Rattle.prg_values.specs.Readings as readings;
ghost use Rattle.prg_values.specs.Readings.{scoped, FindsReading};
ghost use Rattle.prg_code.specs.Bindings.{slot_named};

use code_items::{
    AreaState, Desk, Instr, Name, OpenArea, RecordInstr, Shape, State, TableShape, ValueInstr,
};
use dbf_file::Field;
use prg_code::{CompileFaultKind, Names};
use xvalue::Kind;

/// What an expression's names are looked up in: the declared tables, what is known, the variables' slots, and whether
/// the expression is a filter's condition.
#[derive(Clone, Copy)]
pub struct Scope<'a> {
    pub shape: &'a Shape,
    pub state: &'a State,
    pub names: &'a Names,
    pub in_filter: bool,
}

/// A name: the instruction that reads it, and its kind.
#[derive(Clone, Copy)]
pub struct Reading {
    pub instr: Instr,
    pub kind: Kind,
}

/// A field by its number, counted from 0, and its kind.
#[derive(Clone, Copy)]
pub struct FieldPlace {
    pub number: u16,
    pub kind: Kind,
}

/// A field by its number, if an instruction can name it.
fn field_place(number: usize, field: &Field) -> Option<FieldPlace>
    ensures { result ≡ readings.nameable_field number field.now }
{
    match u16::try_from(number) {
        Ok(number) => {
            let kind = field.letter.kind();
            Some(FieldPlace { number, kind })
        }
        Err(_) => None,
    }
}

/// The field of this name among those of a table.
fn field_named(fields: &[Field], name: &[u8]) -> Option<FieldPlace>
    ensures { result ≡ readings.field_named fields.now name.now }
{
    let mut number = 0usize;
    let mut rest = fields;
    while let Some((field, others)) = rest.split_first() {
        if field.name.as_slice() == name {
            return field_place(number, field);
        }
        number += 1;
        rest = others;
    }
    None
}

fn fields_of(shape: &Shape, area: OpenArea) -> &[Field]
    ensures { result.now ≡ readings.table_fields shape.now area.table }
{
    match shape.tables.as_slice().get(usize::from(area.table)) {
        Some(table) => table.fields.as_slice(),
        None => &[],
    }
}

/// The field of this name of the table that an open work area holds.
pub fn field_of(shape: &Shape, area: OpenArea, name: &[u8]) -> Option<FieldPlace>
    ensures { result ≡ readings.field_in shape.now area name.now }
{
    field_named(fields_of(shape, area), name)
}

fn has_field(table: &TableShape, name: &[u8]) -> bool
    ensures { result ≡ readings.has_field name.now table.now }
{
    field_named(table.fields.as_slice(), name).is_some()
}

/// Whether a declared table has a field of this name.
fn is_some_field(tables: &[TableShape], name: &[u8]) -> bool
    ensures { result ≡ list_any (readings.has_field name.now) tables.now }
{
    tables.iter().any(|table| has_field(table, name))
}

/// What is known of the work area of this number, counted from 1.
fn area_at(desk: &Desk, number: u8) -> AreaState
    ensures { result ≡ readings.area_at desk.now number }
{
    if number < 1 {
        return AreaState::Closed;
    }
    match desk.areas.as_slice().get(usize::from(number - 1)) {
        Some(area) => *area,
        None => AreaState::Closed,
    }
}

/// Reads a field of a work area; in a filter's condition only the row tried has fields.
fn read_field(scope: &Scope, area: u8, field: FieldPlace) -> Result<Reading, CompileFaultKind>
    ensures { FindsReading result (readings.field_reading (scoped scope.now) area field) }
{
    let FieldPlace { number, kind } = field;
    if !scope.in_filter {
        let instr = Instr::Records(RecordInstr::Field {
            area,
            field: number,
        });
        return Ok(Reading { instr, kind });
    }
    if area == scope.state.desk.selected {
        let instr = Instr::Records(RecordInstr::RowField(number));
        return Ok(Reading { instr, kind });
    }
    Err(CompileFaultKind::Filter)
}

/// The slot of a variable, which need not have a value: Name where there is no such variable.
pub fn variable_slot(scope: &Scope, name: &Name) -> Result<u8, CompileFaultKind>
    ensures { FindsReading result (slot_named (scoped scope.now).names name.now.items) }
{
    match scope.names.slot(name) {
        Some(slot) => Ok(slot),
        None => Err(CompileFaultKind::Name),
    }
}

/// Reads a variable: Name where there is none of this name, Unset where it may have no value.
fn read_variable(scope: &Scope, name: &Name) -> Result<Reading, CompileFaultKind>
    ensures { FindsReading result (readings.variable (scoped scope.now) name.now.items) }
{
    let slot = variable_slot(scope, name)?;
    match scope.state.slots.kinds().get(usize::from(slot)) {
        Some(Some(kind)) => {
            let kind = *kind;
            let instr = Instr::Values(ValueInstr::Load(kind, u16::from(slot)));
            Ok(Reading { instr, kind })
        }
        _ => Err(CompileFaultKind::Unset),
    }
}

/// The field that a name without alias is, if it is one: that of the selected area's table. Where nothing is known of
/// the selected area, the name of any declared table's field is ClosedArea.
pub fn selected_field(scope: &Scope, name: &[u8]) -> Result<Option<FieldPlace>, CompileFaultKind>
    ensures { FindsReading result (readings.field_here (scoped scope.now) name.now) }
{
    match area_at(&scope.state.desk, scope.state.desk.selected) {
        AreaState::Closed => Ok(None),
        AreaState::Open(area) => Ok(field_of(scope.shape, area, name)),
        AreaState::Unsure => {
            if is_some_field(scope.shape.tables.as_slice(), name) {
                return Err(CompileFaultKind::ClosedArea);
            }
            Ok(None)
        }
    }
}

/// Reads a name without alias: a field of the selected area's table, else a variable.
#[tactic(auto, unfolding(crate::specs::Readings::read_name))]
pub fn read_name(scope: &Scope, name: &Name) -> Result<Reading, CompileFaultKind>
    ensures { FindsReading result (readings.read_name (scoped scope.now) name.now.items) }
{
    match selected_field(scope, name.as_slice())? {
        Some(field) => read_field(scope, scope.state.desk.selected, field),
        None => read_variable(scope, name),
    }
}

/// The work area of a letter A to J, counted from 1.
pub fn area_of_letter(alias: &[u8]) -> Option<u8>
    ensures { result ≡ readings.letter_area alias.now }
{
    match alias {
        [letter] if b'A' <= *letter && *letter <= b'J' => Some(*letter - b'A' + 1),
        _ => None,
    }
}

/// A number, if an instruction can name a table by it.
fn table_number(number: usize) -> Option<u16>
    ensures { result ≡ readings.number_below 65536 number }
{
    match u16::try_from(number) {
        Ok(number) => Some(number),
        Err(_) => None,
    }
}

/// The number of the declared table of this name, counted from 0.
pub fn table_named(shape: &Shape, name: &[u8]) -> Option<u16>
    ensures { result ≡ readings.table_named shape.now name.now }
{
    let mut number = 0usize;
    let mut rest = shape.tables.as_slice();
    while let Some((table, others)) = rest.split_first() {
        if table.name.as_slice() == name {
            return table_number(number);
        }
        number += 1;
        rest = others;
    }
    None
}

/// A number that a byte of an instruction holds.
pub fn number_in_byte(number: usize) -> Option<u8>
    ensures { result ≡ readings.number_below 256 number }
{
    match u8::try_from(number) {
        Ok(number) => Some(number),
        Err(_) => None,
    }
}

fn is_of(table: u16, area: AreaState) -> bool
    ensures { result ≡ readings.is_of table area }
{
    match area {
        AreaState::Closed => false,
        AreaState::Open(open) => open.table == table,
        AreaState::Unsure => false,
    }
}

/// The work area, counted from 1, that is known to hold the table.
fn area_holding(areas: &[AreaState], table: u16) -> Option<u8>
    ensures { result ≡ readings.holder_from 1 areas.now table }
{
    let mut before = 0usize;
    let mut rest = areas;
    while let Some((area, others)) = rest.split_first() {
        before += 1;
        if is_of(table, *area) {
            return number_in_byte(before);
        }
        rest = others;
    }
    None
}

fn is_unsure(area: &AreaState) -> bool {
    matches!(area, AreaState::Unsure)
}

/// The fault where no work area is known to hold a declared table. It is ClosedArea where nothing is known of some
/// area, which may hold the table, and else Name.
fn not_held(areas: &[AreaState]) -> CompileFaultKind {
    if areas.iter().any(|area| is_unsure(area)) {
        CompileFaultKind::ClosedArea
    } else {
        CompileFaultKind::Name
    }
}

/// The work area that holds the table of this name. Where none is known to: ClosedArea where such a table is declared
/// and nothing is known of some area, and else Name.
pub fn area_of_table(scope: &Scope, alias: &[u8]) -> Result<u8, CompileFaultKind>
    ensures { FindsReading result (readings.holder_of (scoped scope.now)
        (readings.table_named (scoped scope.now).shape alias.now)) }
{
    let Some(table) = table_named(scope.shape, alias) else {
        return Err(CompileFaultKind::Name);
    };
    let areas = scope.state.desk.areas.as_slice();
    match area_holding(areas, table) {
        Some(area) => Ok(area),
        None => Err(not_held(areas)),
    }
}

/// The work area that an alias names, by its letter or its table.
pub fn area_of_alias(scope: &Scope, alias: &[u8]) -> Result<u8, CompileFaultKind>
    ensures { FindsReading result (readings.alias_area (scoped scope.now) alias.now) }
{
    match area_of_letter(alias) {
        Some(area) => Ok(area),
        None => area_of_table(scope, alias),
    }
}

/// Reads a field of a work area of which this is known.
fn read_of_area(
    scope: &Scope,
    name: &[u8],
    number: u8,
    area: AreaState,
) -> Result<Reading, CompileFaultKind>
    ensures { FindsReading result (readings.field_of_area (scoped scope.now) name.now number area) }
{
    let AreaState::Open(area) = area else {
        return Err(CompileFaultKind::ClosedArea);
    };
    match field_of(scope.shape, area, name) {
        Some(field) => read_field(scope, number, field),
        None => Err(CompileFaultKind::Name),
    }
}

/// Reads a name behind an alias: the variable behind `M`, else the field of the alias's area.
#[tactic(auto, unfolding(crate::specs::Readings::read_qualified))]
pub fn read_qualified(scope: &Scope, alias: &[u8], name: &Name) -> Result<Reading, CompileFaultKind>
    ensures { FindsReading result (readings.read_qualified (scoped scope.now) alias.now name.now.items) }
{
    if alias == b"M".as_slice() {
        return read_variable(scope, name);
    }
    let number = area_of_alias(scope, alias)?;
    read_of_area(
        scope,
        name.as_slice(),
        number,
        area_at(&scope.state.desk, number),
    )
}
