// Codes made by hand: two tables T2 and U2, each with one field K of five bytes; the indexes TI and TJ of T2 and UI of
// U2; the lists TI with TJ, UI, and TI; the constants true, A and 1; a filter of T2 that needs a text in slot 0; two
// slots; a main procedure, and another one of level 0.

use crate::codes::spelled::instr_of;
use arrayvec::ArrayVec;
use code_items::declared::{Filter, Need};
use code_items::{
    AreaState, Code, Declared, Desk, IndexList, IndexShape, Instr, Items, KeyPart, KeyParts,
    KindSlots, KindStack, Map, Name, OpenArea, Proc, Shape, State, TableShape, Version,
};
use dbf_file::{Field, Letter};
use fixed_num::Num;
use std::alloc::{AllocError, Global};
use xvalue::{Kind, Text, Value};

/// What a map or a state knows, beside areas that are closed and slots that are free.
#[derive(Clone, Copy)]
enum Known {
    Nothing,
    /// A text on the stack.
    TextOnTop,
    /// T2 open in area 1, with the first list and its first order.
    Opened,
    /// Nothing of area 1.
    UnsureFirst,
    /// Nothing of area 2.
    UnsureSecond,
    /// A text in slot 0.
    TextInSlot,
}

/// A code: maps with their places, the main block, and the filter's block, each instruction behind a semicolon and a
/// blank.
#[derive(Clone, Copy)]
pub(crate) struct Plan<'a> {
    pub(crate) version: Version,
    /// The main procedure's level.
    pub(crate) level: u8,
    pub(crate) maps: &'a str,
    pub(crate) main: &'a str,
    /// The block of the other procedure, which has level 0.
    pub(crate) other: &'a str,
    pub(crate) filter: &'a str,
}

/// The block of a filter that needs a text in slot 0.
const FILTER: &str = "ROWFIELD 0; LOAD T 0; FUN 9";

/// The code of a row: maps, a main block, what is said of it, and, where they aren't the usual ones, another block, a
/// filter's block, and the version and the level.
pub(crate) fn plan_of<'a>(row: &'a str) -> Plan<'a> {
    let mut fields = row.split('|');
    let maps = fields.next().unwrap_or("");
    let main = fields.next().unwrap_or("");
    let other = fields.nth(1).unwrap_or("RETURN");
    let filter = fields.next().unwrap_or("");
    let numbers = fields.next().unwrap_or("2 1");
    Plan {
        version: if numbers.starts_with('1') {
            Version::One
        } else {
            Version::Two
        },
        level: if numbers.ends_with('0') { 0 } else { 1 },
        maps,
        main,
        other,
        filter: if filter.is_empty() { FILTER } else { filter },
    }
}

fn known_of(word: &str) -> Known {
    let made = [
        ("TextOnTop", Known::TextOnTop),
        ("Opened", Known::Opened),
        ("UnsureFirst", Known::UnsureFirst),
        ("UnsureSecond", Known::UnsureSecond),
        ("TextInSlot", Known::TextInSlot),
    ];
    for (name, known) in &made {
        if *name == word {
            return *known;
        }
    }
    Known::Nothing
}

fn name_of(text: &[u8]) -> Name {
    let mut name = ArrayVec::new();
    match name.try_extend_from_slice(text) {
        Ok(()) => name,
        Err(_) => ArrayVec::new(),
    }
}

fn table(alloc: Global, name: &[u8]) -> Result<TableShape, AllocError> {
    let mut fields = Vec::new(alloc);
    fields.push(Field {
        name: name_of(b"K"),
        letter: Letter::C,
        width: 5,
        decimals: 0,
    })?;
    Ok(TableShape {
        name: name_of(name),
        fields: Items::of(fields),
    })
}

fn index(name: &[u8], table: u8) -> IndexShape {
    let part = KeyPart {
        field: 0,
        upper: false,
    };
    IndexShape {
        name: name_of(name),
        table,
        key: KeyParts::new(&[part]),
    }
}

fn list(numbers: &[u8]) -> IndexList {
    let mut indexes = ArrayVec::new();
    match indexes.try_extend_from_slice(numbers) {
        Ok(()) => IndexList { indexes },
        Err(_) => IndexList {
            indexes: ArrayVec::new(),
        },
    }
}

fn shape(alloc: Global) -> Result<Shape, AllocError> {
    let mut tables = Vec::new(alloc);
    tables.push(table(alloc, b"T2")?)?;
    tables.push(table(alloc, b"U2")?)?;
    let mut indexes = Vec::new(alloc);
    indexes.push(index(b"TI", 0))?;
    indexes.push(index(b"TJ", 0))?;
    indexes.push(index(b"UI", 1))?;
    Ok(Shape {
        tables: Items::of(tables),
        indexes: Items::of(indexes),
    })
}

fn constants(alloc: Global) -> Result<Vec<Value>, AllocError> {
    let mut text = Text::new();
    let _ = text.try_extend_from_slice(b"A");
    let mut constants = Vec::new(alloc);
    constants.push(Value::Logical(true))?;
    constants.push(Value::Text(text))?;
    constants.push(Value::Number(Num::from_whole(1)))?;
    Ok(constants)
}

fn filter(alloc: Global, length: usize) -> Result<Filter, AllocError> {
    let mut needs = Vec::new(alloc);
    needs.push(Need {
        slot: 0,
        kind: Kind::Text,
    })?;
    Ok(Filter {
        table: 0,
        length: length.min(60000) as u16,
        needs: Items::of(needs),
    })
}

fn declared(alloc: Global, version: Version, filter_length: usize) -> Result<Declared, AllocError> {
    let mut lists = Vec::new(alloc);
    lists.push(list(&[0, 1]))?;
    lists.push(list(&[2]))?;
    lists.push(list(&[0]))?;
    let mut filters = Vec::new(alloc);
    filters.push(filter(alloc, filter_length)?)?;
    Ok(Declared {
        version,
        stack_bound: 4,
        slots: 2,
        shape: shape(alloc)?,
        lists: Items::of(lists),
        constants: Items::of(constants(alloc)?),
        filters: Items::of(filters),
    })
}

fn area(known: Known, number: usize) -> AreaState {
    match (known, number) {
        (Known::Opened, 0) => AreaState::Open(OpenArea {
            table: 0,
            list: 1,
            order: 1,
            filter: 0,
        }),
        (Known::UnsureFirst, 0) | (Known::UnsureSecond, 1) => AreaState::Unsure,
        _ => AreaState::Closed,
    }
}

fn state(alloc: Global, known: Known) -> Result<State, AllocError> {
    let mut areas = Vec::new(alloc);
    for number in 0..10 {
        areas.push(area(known, number))?;
    }
    let mut slots = vec![in alloc; None; 2]?;
    if let Known::TextInSlot = known {
        slots[0] = Some(Kind::Text);
    }
    let mut stack = Vec::new(alloc);
    if let Known::TextOnTop = known {
        stack.push(Kind::Text)?;
    }
    Ok(State {
        desk: Desk {
            selected: 1,
            areas: Items::of(areas),
        },
        slots: KindSlots::of(slots),
        stack: KindStack::of(stack),
    })
}

fn procedure(alloc: Global, length: usize, level: u8) -> Result<Proc, AllocError> {
    Ok(Proc {
        length: length.min(60000) as u16,
        level,
        entry: state(alloc, Known::Nothing)?,
        exit: state(alloc, Known::Nothing)?,
    })
}

fn put_block(instrs: &mut Vec<Instr>, text: &str) -> Result<(), AllocError> {
    for spelled in text.split("; ") {
        if let Some(instr) = instr_of(spelled) {
            instrs.push(instr)?;
        }
    }
    Ok(())
}

fn maps_of(alloc: Global, text: &str) -> Result<Vec<Map>, AllocError> {
    let mut maps = Vec::new(alloc);
    for map in text.split_terminator(',') {
        let (place, word) = map.split_once(' ').unwrap_or((map, ""));
        maps.push(Map {
            place: place.parse().unwrap_or(0),
            state: state(alloc, known_of(word))?,
        })?;
    }
    Ok(maps)
}

/// The code of a plan.
pub(crate) fn code_of(alloc: Global, plan: Plan<'_>) -> Result<Code, AllocError> {
    let mut instrs = Vec::new(alloc);
    put_block(&mut instrs, plan.main)?;
    let main = instrs.len();
    put_block(&mut instrs, plan.other)?;
    let behind = instrs.len();
    put_block(&mut instrs, plan.filter)?;
    let filter_length = instrs.len() - behind.min(instrs.len());
    let mut procedures = Vec::new(alloc);
    procedures.push(procedure(alloc, main, plan.level)?)?;
    let other = behind - main.min(behind);
    procedures.push(procedure(alloc, other, 0)?)?;
    Ok(Code {
        declared: declared(alloc, plan.version, filter_length)?,
        procedures: Items::of(procedures),
        maps: Items::of(maps_of(alloc, plan.maps)?),
        instructions: Items::of(instrs),
    })
}
