//! Where the next instruction shows a value on the screen.

ghost use Rattle.code_items.specs.declared.instr.ScreenInstr.TheVariants.{Say as OfSay, SayOn as OfSayOn};
ghost use Rattle.machine.specs.Showing.{placed, said_at, said_behind, place_shown_by as shown_by_of};
ghost use Rattle.run_steps.specs.Needs.{ScreenNeeds};
ghost use Rattle.run_values.specs.Standing.{IsByKind};
ghost use Rattle.run_values.specs.Tagged.{TaggedValues};
ghost use Rattle.std.specs.Prelude.{◌≡◌, ◌<◌};

use code_items::instr::ScreenInstr;
use key_lists::KeyList;
use run_steps::Environment;
use run_values::{Untagged, Values};
use screen_lines::Cursor;
use xvalue::Kind;

/// Where a value is shown on the screen: its row and its first column, from 0, and how many columns of the row its text
/// takes. What is cut at column 80 isn't counted.
#[derive(Clone, Copy, PartialEq, Eq, Debug)]
pub struct ShownAt {
    pub row: usize,
    pub column: usize,
    pub length: usize,
}

/// Where a text of this length is shown from this row and column on.
fn place(row: usize, column: usize, length: usize) -> ShownAt
    requires { column < 80 }
    ensures { result ≡ placed row column length }
{
    ShownAt {
        row,
        column,
        length: length.min(80 - column),
    }
}

/// Where SAY shows a text of this length, whose row and column may lie outside the screen.
fn at(row: i128, column: i128, length: usize) -> Option<ShownAt>
    ensures { result ≡ said_at row column length }
{
    match (usize::try_from(row), usize::try_from(column)) {
        (Ok(row), Ok(column)) if row < 25 && column < 80 => Some(place(row, column, length)),
        _ => None,
    }
}

/// Where SAYON shows a text of this length behind the cursor.
fn behind(cursor: Cursor, length: usize) -> Option<ShownAt>
    ensures { result ≡ said_behind cursor length }
{
    match cursor {
        Cursor::At { row, column } if column < 79 => Some(place(row, column + 1, length)),
        _ => None,
    }
}

/// Where SAY shows the value on top.
fn say<K: KeyList>(kind: Kind, values: &Untagged, env: &Environment<K>) -> Option<ShownAt>
    requires { (t : TaggedValues) × (IsByKind values.now t × ScreenNeeds (OfSay kind) t) }
    ensures { (t : TaggedValues) → IsByKind values.now t → ScreenNeeds (OfSay kind) t
        → result ≡ shown_by_of (OfSay kind) t env.now }
{
    let length = values.shown(kind, env.settings()).len();
    let place = values.place_below(kind);
    at(place.row.whole(), place.column.whole(), length)
}

/// Where SAYON shows the value on top.
fn say_on<K: KeyList>(kind: Kind, values: &Untagged, env: &Environment<K>) -> Option<ShownAt>
    requires { (t : TaggedValues) × (IsByKind values.now t × ScreenNeeds (OfSayOn kind) t) }
    ensures { (t : TaggedValues) → IsByKind values.now t → ScreenNeeds (OfSayOn kind) t
        → result ≡ shown_by_of (OfSayOn kind) t env.now }
{
    let length = values.shown(kind, env.settings()).len();
    behind(env.screen().cursor(), length)
}

/// Where an instruction on the screen shows a value at a place; PRINT, which goes on at the cursor, has none.
pub(crate) fn place_shown_by<K: KeyList>(
    instr: ScreenInstr,
    values: &Untagged,
    env: &Environment<K>,
) -> Option<ShownAt>
    requires { (t : TaggedValues) × (IsByKind values.now t × ScreenNeeds instr t) }
    ensures { (t : TaggedValues) → IsByKind values.now t → ScreenNeeds instr t
        → result ≡ shown_by_of instr t env.now }
{
    match instr {
        ScreenInstr::Say(kind) => say(kind, values, env),
        ScreenInstr::SayOn(kind) => say_on(kind, values, env),
        _ => None,
    }
}
