//! What is told of work areas.

ghost use Rattle.std.specs.Prelude.{◌≡◌, map, IfOk};
ghost use Rattle.met_areas.specs.Met as spec;
ghost use Rattle.met_areas.specs.Met.{AreTold};

use code_items::{AreaState, Name, Shape, TableShape};
use shape::copy_of_name;
use std::alloc::{AllocError, Global};

/// What is known of what a work area holds at a command, on all ways to it.
#[derive(Drop, Debug, PartialEq, Eq)]
pub enum HeldTable {
    /// No table.
    Nothing,
    /// The table of this name.
    Table(Name),
    /// Different ways leave it with different tables, indexes, orders or filters, or closed.
    Unsure,
}

/// The ten work areas at a faulty command, by their numbers less one.
#[derive(Drop, Debug, PartialEq, Eq)]
pub struct MetAreas {
    /// What they hold.
    pub areas: Vec<HeldTable>,
    /// What each of them holds on a way to the command on which it is selected; none where it is selected on no way.
    /// One alone is selected, unless ways meet that select different ones.
    pub ways: Vec<Option<HeldTable>>,
}

/// What a work area holds with this state, by the names of the declared tables.
fn held_by(tables: &[TableShape], area: AreaState) -> HeldTable
    ensures { result ≡ spec.held_by tables.now area }
{
    match area {
        AreaState::Closed => HeldTable::Nothing,
        AreaState::Unsure => HeldTable::Unsure,
        AreaState::Open(open) => match tables.get(usize::from(open.table)) {
            Some(table) => HeldTable::Table(copy_of_name(&table.name)),
            None => HeldTable::Unsure,
        },
    }
}

fn held_on(tables: &[TableShape], way: Option<AreaState>) -> Option<HeldTable>
    ensures { result ≡ spec.held_on tables.now way }
{
    match way {
        Some(area) => Some(held_by(tables, area)),
        None => None,
    }
}

/// What work areas in these states hold.
fn all_held(
    alloc: Global,
    tables: &[TableShape],
    areas: &[AreaState],
) -> Result<Vec<HeldTable>, AllocError>
    ensures { IfOk result (λ held. held.items ≡ map (spec.held_by tables.now) areas.now) }
{
    areas
        .iter()
        .map(|area| held_by(tables, *area))
        .collect(alloc)
}

/// What the work areas hold that are selected on these ways.
fn all_held_on(
    alloc: Global,
    tables: &[TableShape],
    ways: &[Option<AreaState>],
) -> Result<Vec<Option<HeldTable>>, AllocError>
    ensures { IfOk result (λ held. held.items ≡ map (spec.held_on tables.now) ways.now) }
{
    ways.iter().map(|way| held_on(tables, *way)).collect(alloc)
}

/// Work areas at a command: what is known of all, and of those that are selected on ways to it, both by their numbers
/// less one. Tables go by their declared names.
pub fn met_areas(
    alloc: Global,
    shape: &Shape,
    areas: &[AreaState],
    ways: &[Option<AreaState>],
) -> Result<MetAreas, AllocError>
    ensures { IfOk result (AreTold shape.now areas.now ways.now) }
{
    let tables = shape.tables.as_slice();
    Ok(MetAreas {
        areas: all_held(alloc, tables, areas)?,
        ways: all_held_on(alloc, tables, ways)?,
    })
}
