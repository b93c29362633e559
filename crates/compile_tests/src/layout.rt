// Codes that are judged beside commands: those that they were compiled from, and others.

use crate::shown::{code_of, name_of, programs_of};
use prg_code::{Names, Variable};
use prg_laid::{LayoutFault, judge};
use prg_parser::Program;
use std::alloc::{AllocError, Global};
use xverify::Verified;

/// The variables of a row, each a letter, in slots from 0 on.
fn names_of(alloc: Global, letters: &str) -> Result<Names, AllocError> {
    let mut names = Names::new(alloc);
    let mut slot = 0u8;
    for letter in letters.as_bytes() {
        names.set(&name_of(&[*letter]), Variable { slot, own: true })?;
        slot = slot.saturating_add(1);
    }
    Ok(names)
}

fn said_of(
    alloc: Global,
    verified: &Verified,
    programs: &[Program],
    names: &Names,
) -> Result<&'static str, AllocError> {
    let [program] = programs else {
        return Ok("no program");
    };
    match judge(alloc, verified.legal(), names, &program.main) {
        Ok(()) => Ok("laid"),
        Err(LayoutFault::Otherwise) => Ok("otherwise"),
        Err(LayoutFault::NoMemory) => Ok("memory"),
    }
}

/// What the judge says of the code of the first program beside the commands of the second one.
fn judged(
    alloc: Global,
    first: &str,
    second: &str,
    letters: &str,
) -> Result<&'static str, AllocError> {
    let Some(verified) = code_of(alloc, first)? else {
        return Ok("no code");
    };
    match programs_of(alloc, second)? {
        Ok(programs) => said_of(alloc, &verified, &programs, &names_of(alloc, letters)?),
        Err(_) => Ok("no commands"),
    }
}

/// A program, another one, letters of variables, and what is said a row, with `|` between them: the commands of the
/// code, and others.
pub(crate) const LAYOUTS: &str = "\
X = 1^? X|X = 1^? X|X|laid
IF .T.^? 1^ELSE^? 2^ENDIF|IF .T.^? 1^ELSE^? 2^ENDIF||laid
DO WHILE .T.^LOOP^ENDDO|DO WHILE .T.^LOOP^ENDDO||laid
USE AA^SCAN FOR N > 1^LOOP^ENDSCAN|USE AA^SCAN FOR N > 1^LOOP^ENDSCAN||laid
USE AA^SET FILTER TO N > 1|USE AA^SET FILTER TO N > 1||laid
X = 1^@ 1, 1 GET X^READ|X = 1^@ 1, 1 GET X^READ|X|laid
USE AA INDEX AK, AU|USE AA INDEX AK, AU||laid
USE AA^INDEX ON K TO AK|USE AA^INDEX ON K TO AK||laid
STORE 1 TO X, Y|STORE 1 TO X, Y|XY|laid
RETURN^? 1|RETURN^? 2||laid
X = 1^? X|X = 1|X|otherwise
X = 1|X = 1^? X|X|otherwise
X = 1|X = 1||otherwise
X = 1^Y = 2|Y = 1^X = 2|XY|otherwise
IF .T.^? 1^ELSE^? 2^ENDIF|IF .T.^? 2^ELSE^? 1^ENDIF||otherwise
IF .T.^? 1^ENDIF^? 2|IF .T.^? 1^? 2^ENDIF||otherwise
DO WHILE .T.^EXIT^ENDDO|DO WHILE .T.^LOOP^ENDDO||otherwise
? 1 - 2|? 2 - 1||otherwise
? 1 <= 2|? 1 < 2||otherwise
? STR(1)|? STR(1, 10, 1)||otherwise
USE AA^DELETE|USE AA^RECALL||otherwise
USE AA^SET FILTER TO N > 1|USE AA^SET FILTER TO N > 2||otherwise
USE AA INDEX AK|USE AA INDEX AU||otherwise
USE AA INDEX AK, AU|USE AA INDEX AU, AK||otherwise
USE AA^INDEX ON K TO AK|USE AA^INDEX ON P TO AK||otherwise
USE AA^INDEX ON K TO AK|USE AA^INDEX ON UPPER(K) TO AU||otherwise
STORE 1 TO X, Y|STORE 1 TO Y, X|XY|otherwise
X = 1^@ 1, 1 SAY X|X = 1^@ X, 1 SAY 1|X|otherwise
DO P^PROCEDURE P^? 1|DO P||otherwise
";

/// What the judge says of a row without what is wanted.
pub(crate) fn judged_row(alloc: Global, row: &str) -> Result<&'static str, AllocError> {
    let (first, rest) = row.split_once('|').unwrap_or((row, ""));
    let (second, letters) = rest.split_once('|').unwrap_or((rest, ""));
    judged(alloc, first, second, letters)
}
