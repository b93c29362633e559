//! The sentence that names the work areas for which a command can't be compiled.

ghost use Rattle.std.specs.Prelude.{◌≡◌, Some, IfSome, IsTrue, slice_get};
ghost use Rattle.met_areas.specs.declared.areas.HeldTable.TheVariants as held;
ghost use Rattle.hints.specs.Areas.{IsTrueOf};

use met_areas::{HeldTable, MetAreas};
use prg_code::CompileFaultKind;
use prg_expr::{Name, Token, is_word, name_of, words};
use std::alloc::Global;
use std::fmt::{self, Display, Formatter, Write};

/// How a command comes by a work area.
#[derive(Clone, Copy)]
pub enum Chosen {
    /// It is selected.
    Selected,
    /// This letter, A to J, stands before an arrow.
    Letter(u8),
}

/// What to do about a command that can't be compiled for its work areas, which are named. They go by their numbers
/// less one.
#[derive(Drop)]
pub enum AreasHint<'a> {
    /// Ways meet on which these are selected.
    Meet(&'a [Option<HeldTable>]),
    /// The table is open in this one.
    Open {
        table: Name,
        place: usize,
    },
    /// The table may be open in those of which nothing is known, but for the selected one.
    MayBeOpen {
        table: Name,
        areas: &'a [HeldTable],
        selected: usize,
    },
    /// No table is open in this one.
    Closed {
        chosen: Chosen,
        place: usize,
    },
    /// Ways that meet leave this one in different states.
    Unsure {
        chosen: Chosen,
        place: usize,
    },
    /// Ways that meet leave those of which nothing is known in different states.
    SomeUnsure(&'a [HeldTable]),
    /// This letter stands before an arrow, and this table is open in its work area.
    Lettered {
        letter: u8,
        table: &'a Name,
        place: usize,
    },
    /// The table is open in this one, without such an order.
    NoOrder {
        table: &'a Name,
        place: usize,
    },
}

/// The first of these words, if it is a name with an arrow behind it.
fn alias_of<'a>(words: &[Token<'a>]) -> Option<&'a [u8]> {
    match words {
        [Token::Name(alias), Token::Arrow, ..] => Some(*alias),
        _ => None,
    }
}

/// The letter of a work area that this is, if it is one.
fn letter_of(alias: &[u8]) -> Option<u8> {
    match alias {
        [letter] if letter.to_ascii_uppercase().wrapping_sub(b'A') < 10 => Some(
            letter.to_ascii_uppercase(),
        ),
        _ => None,
    }
}

/// What to do about a work area that no table is known to be open in; none where one is.
fn of_area<'a>(met: &'a MetAreas, chosen: Chosen, place: usize) -> Option<AreasHint<'a>>
    ensures { IfSome result (IsTrueOf met.now) }
{
    match met.areas.get(place)? {
        HeldTable::Nothing => Some(AreasHint::Closed { chosen, place }),
        HeldTable::Unsure => Some(AreasHint::Unsure { chosen, place }),
        HeldTable::Table(_) => None,
    }
}

/// What to do about the first work area that a letter names before an arrow, and in which no table is known to be open.
fn of_letters<'a>(met: &'a MetAreas, words: &[Token<'_>]) -> Option<AreasHint<'a>>
    ensures { IfSome result (IsTrueOf met.now) }
{
    let (_, others) = words.split_first()?;
    if let Some(alias) = alias_of(words)
        && let Some(letter) = letter_of(alias)
    {
        let place = usize::from(letter.wrapping_sub(b'A'));
        let found = of_area(met, Chosen::Letter(letter), place);
        if found.is_some() {
            return found;
        }
    }
    of_letters(met, others)
}

/// What to do about the work area of a letter, if a table is known to be open in it.
fn of_letter<'a>(met: &'a MetAreas, letter: u8) -> Option<AreasHint<'a>>
    ensures { IfSome result (IsTrueOf met.now) }
{
    let place = usize::from(letter.wrapping_sub(b'A'));
    let held = met.areas.get(place)?;
    match held {
        HeldTable::Table(table) => Some(AreasHint::Lettered {
            letter,
            table,
            place,
        }),
        HeldTable::Nothing | HeldTable::Unsure => None,
    }
}

/// What to do about the first work area that a letter names before an arrow, and in which a table is known to be open.
fn of_lettered<'a>(met: &'a MetAreas, words: &[Token<'_>]) -> Option<AreasHint<'a>>
    ensures { IfSome result (IsTrueOf met.now) }
{
    let (_, others) = words.split_first()?;
    if let Some(alias) = alias_of(words)
        && let Some(letter) = letter_of(alias)
    {
        let found = of_letter(met, letter);
        if found.is_some() {
            return found;
        }
    }
    of_lettered(met, others)
}

/// Whether the command asks for a work area by the name of a table.
fn asks_by_name(words: &[Token<'_>]) -> bool {
    match words.split_first() {
        Some((Token::Name(first), _)) if is_word(first, b"SELECT") => true,
        Some((_, others)) => alias_of(words).is_some() || asks_by_name(others),
        None => false,
    }
}

/// The work area that is selected, if it is a single one.
fn selected(met: &MetAreas) -> Option<usize> {
    met.ways.iter().position(|way| way.is_some())
}

/// What to do where a work area isn't known to be open.
fn of_closed<'a>(met: &'a MetAreas, words: &[Token<'_>]) -> Option<AreasHint<'a>>
    ensures { IfSome result (IsTrueOf met.now) }
{
    if let Some(found) = of_letters(met, words) {
        return Some(found);
    }
    if asks_by_name(words) {
        return of_unsure(met);
    }
    match of_area(met, Chosen::Selected, selected(met)?) {
        Some(found) => Some(found),
        None => of_unsure(met),
    }
}

fn is_unsure(held: &HeldTable) -> bool {
    matches!(held, HeldTable::Unsure)
}

/// What to do about the work areas of which nothing is known, if there are any.
fn of_unsure<'a>(met: &'a MetAreas) -> Option<AreasHint<'a>>
    ensures { IfSome result (IsTrueOf met.now) }
{
    if met.areas.iter().any(|held| is_unsure(held)) {
        return Some(AreasHint::SomeUnsure(met.areas.as_slice()));
    }
    None
}

/// The work area that is known to hold this table.
fn holder(areas: &[HeldTable], table: &Name) -> Option<usize>
    ensures { IfSome result (λ place. slice_get areas.now place ≡ Some (held.Table table.now)) }
{
    for (place, there) in areas.iter().enumerate() {
        if is_table(there, table) {
            return Some(place);
        }
    }
    None
}

fn is_table(there: &HeldTable, table: &Name) -> bool
    ensures { IsTrue result → there.now ≡ held.Table table.now }
{
    match there {
        HeldTable::Table(name) => name.as_slice() == table.as_slice(),
        HeldTable::Nothing | HeldTable::Unsure => false,
    }
}

/// What to do where the table that is to be opened may be open already.
fn of_open<'a>(met: &'a MetAreas, words: &[Token<'_>]) -> Option<AreasHint<'a>>
    ensures { IfSome result (IsTrueOf met.now) }
{
    let [Token::Name(_), Token::Name(word), ..] = words else {
        return None;
    };
    let table = name_of(*word);
    if let Some(place) = holder(met.areas.as_slice(), &table) {
        return Some(AreasHint::Open { table, place });
    }
    Some(AreasHint::MayBeOpen {
        table,
        areas: met.areas.as_slice(),
        selected: selected(met)?,
    })
}

/// What to do where the selected work area has no such order.
fn of_order<'a>(met: &'a MetAreas) -> Option<AreasHint<'a>>
    ensures { IfSome result (IsTrueOf met.now) }
{
    let place = selected(met)?;
    match met.areas.get(place)? {
        HeldTable::Table(table) => Some(AreasHint::NoOrder { table, place }),
        HeldTable::Nothing | HeldTable::Unsure => None,
    }
}

/// How many work areas are selected on one way or another.
fn count_of(ways: &[Option<HeldTable>]) -> usize {
    ways.iter().filter(|way| way.is_some()).count()
}

/// What to do where ways meet.
fn of_ways<'a>(met: &'a MetAreas) -> Option<AreasHint<'a>>
    ensures { IfSome result (IsTrueOf met.now) }
{
    if count_of(met.ways.as_slice()) < 2 {
        return None;
    }
    Some(AreasHint::Meet(met.ways.as_slice()))
}

/// What to do about a line whose command can't be compiled for its work areas, with these named as they are known
/// there. None where the fault isn't one of work areas, or nothing is to be named.
pub fn of_areas<'a>(
    alloc: Global,
    kind: CompileFaultKind,
    line: &[u8],
    met: &'a MetAreas,
) -> Option<AreasHint<'a>>
    // What is told of a work area is known of it.
    ensures { IfSome result (IsTrueOf met.now) }
{
    let Ok(read) = words(alloc, line) else {
        return None;
    };
    match kind {
        CompileFaultKind::ClosedArea => of_closed(met, read.words.as_slice()),
        CompileFaultKind::OpenTwice => of_open(met, read.words.as_slice()),
        CompileFaultKind::NoOrder => of_order(met),
        CompileFaultKind::Merge => of_ways(met),
        CompileFaultKind::Name => of_lettered(met, read.words.as_slice()),
        _ => None,
    }
}

/// The letters of a table's name, as they are shown.
#[derive(Clone, Copy)]
struct Shown<'a>(&'a Name);

impl Display for Shown<'_> {
    fn fmt<W: Write>(&self, f: &mut Formatter<W>) -> fmt::Result {
        for letter in self.0.as_slice() {
            f.write_char(char::from(*letter))?;
        }
        Ok(())
    }
}

/// What stands before the number of a work area in a list of `count`, of which `before` stand in front of it.
fn between(before: usize, count: usize) -> &'static str {
    if before == 0 {
        ""
    } else if before.saturating_add(1) == count {
        " or "
    } else {
        ", "
    }
}

/// A work area's number, and its table where it is known.
fn put_area<W: Write>(f: &mut Formatter<W>, place: usize, held: &HeldTable) -> fmt::Result {
    let number = place.saturating_add(1);
    match held {
        HeldTable::Table(name) => write!(f, "{number} ({})", Shown(name)),
        HeldTable::Nothing | HeldTable::Unsure => write!(f, "{number}"),
    }
}

/// The work areas that are selected on ways.
fn put_ways<W: Write>(f: &mut Formatter<W>, ways: &[Option<HeldTable>]) -> fmt::Result {
    let count = count_of(ways);
    let mut before = 0usize;
    for (place, way) in ways.iter().enumerate() {
        if let Some(held) = way {
            f.write_str(between(before, count))?;
            put_area(f, place, held)?;
            before = before.saturating_add(1);
        }
    }
    Ok(())
}

/// The number of other work areas of which nothing is known.
fn count_unsure(areas: &[HeldTable], but: Option<usize>) -> usize {
    let mut count = 0usize;
    for (place, held) in areas.iter().enumerate() {
        if is_unsure(held) && Some(place) != but {
            count = count.saturating_add(1);
        }
    }
    count
}

/// The work areas of which nothing is known, but for this one.
fn put_unsure<W: Write>(
    f: &mut Formatter<W>,
    areas: &[HeldTable],
    but: Option<usize>,
) -> fmt::Result {
    let count = count_unsure(areas, but);
    let mut before = 0usize;
    for (place, held) in areas.iter().enumerate() {
        if is_unsure(held) && Some(place) != but {
            f.write_str(between(before, count))?;
            put_area(f, place, held)?;
            before = before.saturating_add(1);
        }
    }
    Ok(())
}

/// The work area that a command comes by so.
fn put_chosen<W: Write>(f: &mut Formatter<W>, chosen: Chosen, place: usize) -> fmt::Result {
    let number = place.saturating_add(1);
    match chosen {
        Chosen::Selected => write!(f, "area {number} is selected here"),
        Chosen::Letter(letter) => write!(f, "{}-> is area {number}", char::from(letter)),
    }
}

/// What ways leave of a work area.
const OTHERWISE: &str = "with other tables, indexes, orders or filters, or closed";

/// How ways come to one work area.
const SAME: &str = "USE the same in it on each way";

/// Where to close a table that is open already.
const ELSEWHERE: &str = "SELECT that one, or close it there by USE alone";

/// What to look at where a letter names a work area.
const FIELDS: &str =
    "look whether that table has the field, and whether the line's other names are set";

/// How a work area comes by an order.
const ORDERS: &str = "open indexes by USE .. INDEX or INDEX ON, and choose one by SET ORDER TO";

/// That a table is open in another work area.
fn put_open<W: Write>(f: &mut Formatter<W>, table: &Name, place: usize) -> fmt::Result {
    let number = place.saturating_add(1);
    write!(
        f,
        "{} is open in area {number} already; {ELSEWHERE}",
        Shown(table)
    )
}

/// That the table of a work area has no such order.
fn put_no_order<W: Write>(f: &mut Formatter<W>, table: &Name, place: usize) -> fmt::Result {
    let number = place.saturating_add(1);
    write!(
        f,
        "area {number} ({}) has no such order; {ORDERS}",
        Shown(table)
    )
}

impl Display for AreasHint<'_> {
    fn fmt<W: Write>(&self, f: &mut Formatter<W>) -> fmt::Result {
        match self {
            AreasHint::Meet(ways) => {
                f.write_str("area ")?;
                put_ways(f, ways)?;
                f.write_str(" is selected here; SELECT the same one on each way")
            }
            AreasHint::Open { table, place } => put_open(f, table, *place),
            AreasHint::MayBeOpen {
                table,
                areas,
                selected,
            } => {
                write!(f, "{} may be open in area ", Shown(table))?;
                put_unsure(f, areas, Some(*selected))?;
                write!(f, " already; {ELSEWHERE}")
            }
            AreasHint::Closed { chosen, place } => {
                put_chosen(f, *chosen, *place)?;
                f.write_str(", and no table is open in it; USE one in it before")
            }
            AreasHint::Unsure { chosen, place } => {
                put_chosen(f, *chosen, *place)?;
                write!(f, ", and ways to this line leave it {OTHERWISE}; {SAME}")
            }
            AreasHint::SomeUnsure(areas) => {
                f.write_str("ways to this line leave area ")?;
                put_unsure(f, areas, None)?;
                write!(f, " {OTHERWISE}; {SAME}")
            }
            AreasHint::Lettered {
                letter,
                table,
                place,
            } => {
                put_chosen(f, Chosen::Letter(*letter), *place)?;
                write!(f, " ({}), since A to J are areas; {FIELDS}", Shown(table))
            }
            AreasHint::NoOrder { table, place } => put_no_order(f, table, *place),
        }
    }
}
