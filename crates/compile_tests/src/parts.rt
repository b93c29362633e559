// What a code has besides its instructions, in short: the stack bound; each procedure's level, and what is known where
// it is entered and where it returns; the maps; and what filters need. A state is the selected work area, each area
// that isn't closed with its table, list, order and filter or `?`, and the slots' kinds.

use crate::shown::code_of;
use code_items::{AreaState, Code, Desk, State};
use std::alloc::{AllocError, Global};
use xvalue::Kind;

/// Programs, and what their codes have.
pub(crate) const PARTS: &str = "\
     CLEAR|stack 0; level 0: 1 to 1; \n\
     ? 1 + 2 * 3|stack 3; level 0: 1 to 1; \n\
     @ 1,2 SAY STUFF('A', 1, 2, 'B')|stack 6; level 0: 1 to 1; \n\
     DO P^PROCEDURE P^? 1|stack 1; level 1: 1 to 1; level 0: 1 to 1; \n\
     DO P^DO Q^PROCEDURE P^DO Q^PROCEDURE Q^CLEAR|stack 0; level 2: 1 to 1; level 1: 1 to 1; level 0: 1 to 1; \n\
     USE AA INDEX AK^DO WHILE .F.^SKIP^ENDDO|stack 1; level 0: 1 to 1; map 1: 1 A=0.1.1.0; map 6: 1 A=0.1.1.0; \n\
     USE AA^SELECT 2^USE BB INDEX BK^IF .T.^CLEAR^ENDIF|\
     stack 1; level 0: 1 to 1; map 6: 2 A=0.0.0.0 B=1.1.1.0; \n\
     USE AA INDEX AK, AU^SET ORDER TO 2^IF .T.^ENDIF|stack 1; level 0: 1 to 1; map 4: 1 A=0.1.2.0; \n\
     IF .T.^USE AA^ENDIF^CLEAR|stack 1; level 0: 1 to 1; map 3: 1 A=?; \n\
     USE AA^SET FILTER TO N > 1^IF .T.^ENDIF|\
     stack 2; level 0: 1 to 1; map 4: 1 A=0.0.0.1; filter of 0:; \n\
     TOWN = 'OSLO'^USE CUST2^SET FILTER TO CITY = TOWN|stack 2; level 0: 1 - to 1 -; filter of 7: 0T; \n\
     X = 1^Y = 'A'^USE AA^SET FILTER TO K = Y .AND. N > X|\
     stack 3; level 0: 1 -- to 1 --; filter of 0: 0N 1T; \n\
     X = 1^IF .T.^CLEAR^ENDIF|stack 1; level 0: 1 - to 1 -; map 5: 1 N; \n\
     X = 1^IF .T.^X = 'A'^ENDIF|stack 1; level 0: 1 - to 1 -; map 6: 1 -; \n\
     X = 1^DO WHILE .T.^X = 'A'^ENDDO|stack 1; level 0: 1 - to 1 -; map 2: 1 -; map 7: 1 -; \n\
     DO P^SKIP^PROCEDURE P^USE AA|stack 1; level 1: 1 to 1; level 0: 1 to 1 A=0.0.0.0; \n\
     USE AA^DO P^SELECT 2^USE BB^SELECT 1^DO P^PROCEDURE P|stack 0; level 1: 1 to 1; \
     level 0: 1 A=0.0.0.0 to 1 A=0.0.0.0; level 0: 1 A=0.0.0.0 B=1.0.0.0 to 1 A=0.0.0.0 B=1.0.0.0; \n\
     X = 1^DO P^? X^PROCEDURE P^X = 'A'|stack 1; level 1: 1 - to 1 -; level 0: 1 N to 1 T; \n\
     X = 1^DO P WITH X + 0^PROCEDURE P^PARAMETERS Y^Y = Y + 1|\
     stack 2; level 1: 1 -- to 1 --; level 0: 1 NN to 1 N-; \n\
     X = CTOD('')^Y = .T.^DO P^PROCEDURE P|stack 1; level 1: 1 -- to 1 --; level 0: 1 DL to 1 DL; \n\
     DO P^CLEAR^PROCEDURE P^USE AA^QUIT|stack 0; level 1: 1 to 1; level 0: 1 to 1; \n\
    ";

/// The letter of what is known of a slot.
fn letter_of(kind: Option<Kind>) -> char {
    match kind {
        None => '-',
        Some(Kind::Number) => 'N',
        Some(Kind::Text) => 'T',
        Some(Kind::Date) => 'D',
        Some(Kind::Logical) => 'L',
    }
}

/// Puts a work area behind its letter, if it isn't closed.
fn put_area(
    text: &mut String,
    alloc: Global,
    letter: u8,
    area: &AreaState,
) -> Result<(), AllocError> {
    let said = match area {
        AreaState::Closed => return Ok(()),
        AreaState::Unsure => String::from_str(alloc, "?")?,
        AreaState::Open(open) => {
            let (table, list, order, filter) = (open.table, open.list, open.order, open.filter);
            format!(in alloc; "{table}.{list}.{order}.{filter}")?
        }
    };
    text.push(' ')?;
    text.push(char::from(letter))?;
    text.push('=')?;
    text.push_str(said.as_str())
}

fn put_desk(text: &mut String, alloc: Global, desk: &Desk) -> Result<(), AllocError> {
    let selected = desk.selected;
    let said = format!(in alloc; "{selected}")?;
    text.push_str(said.as_str())?;
    for (letter, area) in b"ABCDEFGHIJ".iter().zip(desk.areas.as_slice().iter()) {
        put_area(text, alloc, *letter, area)?;
    }
    Ok(())
}

/// Puts a state, whose stack is empty, behind these words.
fn put_state(
    text: &mut String,
    alloc: Global,
    words: &str,
    state: &State,
) -> Result<(), AllocError> {
    text.push_str(words)?;
    put_desk(text, alloc, &state.desk)?;
    if state.slots.len() > 0 {
        text.push(' ')?;
    }
    for kind in state.slots.kinds() {
        text.push(letter_of(*kind))?;
    }
    Ok(())
}

fn put_procedures(text: &mut String, alloc: Global, code: &Code) -> Result<(), AllocError> {
    for procedure in code.procedures.as_slice() {
        let level = procedure.level;
        let words = format!(in alloc; "level {level}: ")?;
        put_state(text, alloc, words.as_str(), &procedure.entry)?;
        put_state(text, alloc, " to ", &procedure.exit)?;
        text.push_str("; ")?;
    }
    Ok(())
}

fn put_maps(text: &mut String, alloc: Global, code: &Code) -> Result<(), AllocError> {
    for map in code.maps.as_slice() {
        let place = map.place;
        let words = format!(in alloc; "map {place}: ")?;
        put_state(text, alloc, words.as_str(), &map.state)?;
        text.push_str("; ")?;
    }
    Ok(())
}

fn put_needs(text: &mut String, alloc: Global, code: &Code) -> Result<(), AllocError> {
    for filter in code.declared.filters.as_slice() {
        let table = filter.table;
        let words = format!(in alloc; "filter of {table}:")?;
        text.push_str(words.as_str())?;
        for need in filter.needs.as_slice() {
            let slot = need.slot;
            let said = format!(in alloc; " {slot}")?;
            text.push_str(said.as_str())?;
            text.push(letter_of(Some(need.kind)))?;
        }
        text.push_str("; ")?;
    }
    Ok(())
}

/// What the code of a row has besides its instructions.
pub(crate) fn parts_shown(alloc: Global, row: &str) -> Result<String, AllocError> {
    let Some(verified) = code_of(alloc, row)? else {
        return String::from_str(alloc, "no code");
    };
    let code = verified.code();
    let bound = code.declared.stack_bound;
    let mut text = format!(in alloc; "stack {bound}; ")?;
    put_procedures(&mut text, alloc, code)?;
    put_maps(&mut text, alloc, code)?;
    put_needs(&mut text, alloc, code)?;
    Ok(text)
}
