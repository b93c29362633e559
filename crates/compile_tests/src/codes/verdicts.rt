// What the verifier says of codes made by hand.

use crate::codes::hand::{code_of, plan_of};
use std::alloc::{AllocError, Global};
use std::test::Fail;
use xcode::LegalCode;
use xverify::{VerifyError, verify};

/// Codes and their verdicts: maps with their places, a main block, the verdict, another block, a filter's block, and
/// the version and the level of the main procedure. `*` begins a remark.
const VERDICTS: &str = "\
* A value taken, or a slot loaded, of another kind.
|CONST 2; DROP T; END|refused Kind 1
|CONST 2; STORE N 0; LOAD T 0; DROP T; END|refused Kind 2
|CONST 1; STORE T 0; LOAD T 0; DROP T; END|accepted
0 TextInSlot|END|refused Kind 0
1 TextInSlot|JUMP 1; END|refused Kind 0
* A slot that may be unset.
|LOAD T 0; DROP T; END|refused Unset 0
|CONST 1; STORE T 0; UNSET 0; LOAD T 0; DROP T; END|refused Unset 3
* The stack.
|DROP T; END|refused StackUnder 0
|CONST 1; CONST 1; CONST 1; CONST 1; CONST 1; END|refused StackOver 4
|CONST 1; CONST 1; CONST 1; CONST 1; CONST 99; END|refused StackOver 4
|CONST 1; END|refused StackNotEmpty 1
|OPEN 0 0; CONST 2; TOP; DROP N; END|refused StackNotEmpty 2
|OPEN 0 0; CONST 2; CONST 2; SKIP; DROP N; END|refused StackNotEmpty 3
* Kinds and heights where a jump leads.
2 TextOnTop|CONST 1; JUMP 2; DROP T; END|accepted
2 TextOnTop|CONST 2; JUMP 2; DROP T; END|refused StackNotEmpty 1
2 TextOnTop|CONST 99; JUMP 2; DROP T; END|refused Constant 0
2 Nothing|CONST 1; JUMP 2; END|refused StackNotEmpty 1
* The screen and the operator.
|CONST 2; CONST 2; CONST 1; SAY T; END|accepted
|CONST 1; CONST 2; CONST 1; SAY T; END|refused Kind 3
|CONST 2; INPUT N; PRINT N; LINE; DROP T; END|accepted
|CONST 1; INPUT N; DROP N; END|refused Kind 1
* Jumps, falls and calls.
0 Nothing,3 Nothing|CONST 0; JUMPF 3; JUMP 0; END|accepted
|JUMP 9; END|refused Jump 0
|CONST 0; JUMPF 3; END; END|refused Jump 1
2 Nothing|CONST 0; JUMPF 2; END|accepted
2 Nothing|JUMP 2; END; END|refused Fall 0
|CONST 2; DROP N|refused Fall 1
|END; END|refused Fall 0
|CALL 1; END|accepted
|CALL 0; END|refused CallLevel 0
|CALL 7; END|refused Constant 0
|CONST 1; CALL 7; END|refused StackNotEmpty 1
|OPEN 0 0; CALL 1; END|refused OtherTable 1
|RETURN|accepted
|OPEN 0 0; RETURN|refused Exit 1
|OPEN 0 0; CLOSE; RETURN|accepted
|OPEN 0 0; SELECT 2; CLOSEALL; RETURN|accepted
* Areas, lists and orders.
|TOP; END|refused ClosedArea 0
|RECNO; DROP N; END|refused ClosedArea 0
|FIELD 2 0; DROP T; END|refused ClosedArea 0
|ORDER 1; END|refused ClosedArea 0
|OPEN 0 0; FIELD 1 0; DROP T; EOF; DROP L; END|accepted
|OPEN 0 2; END|refused OtherTable 0
|OPEN 1 0; FILTER 1; END|refused OtherTable 1
|OPEN 0 0; INDEX 1; END|refused OtherTable 1
|OPEN 0 0; INDEX 2; END|refused OtherTable 1
|OPEN 0 0; INDEX 3; CONST 1; SEEK; END|accepted
2 Nothing|OPEN 0 0; JUMP 2; END|refused OtherTable 1
2 Opened|OPEN 0 1; JUMP 2; ORDER 2; END|accepted
2 Opened|OPEN 0 1; ORDER 3; END|refused OtherTable 1
|OPEN 0 1; ORDER 3; END|refused NoOrder 1
|OPEN 0 1; ORDER 2; END|accepted
|OPEN 0 0; CONST 1; SEEK; END|refused NoOrder 2
|OPEN 0 1; ORDER 0; CONST 1; SEEK; END|refused NoOrder 3
|OPEN 0 1; CONST 1; SEEK; END|accepted
|OPEN 0 0; SELECT 2; OPEN 0 0; END|refused OpenTwice 2
|OPEN 0 0; OPEN 0 1; SELECT 2; OPEN 1 0; END|accepted
* Areas of which nothing is known.
0 UnsureSecond|OPEN 0 0; END|refused OpenTwice 0
0 UnsureSecond|OPEN 9 0; END|refused OpenTwice 0
0 UnsureFirst|TOP; END|refused ClosedArea 0
0 UnsureFirst|SELECT 1; OPEN 0 0; TOP; END|accepted
2 UnsureFirst|OPEN 0 0; JUMP 2; CLOSE; RETURN|accepted
2 UnsureFirst|OPEN 0 0; JUMP 2; RETURN|refused Exit 2
1 UnsureFirst,2 Nothing|JUMP 1; JUMP 2; END|refused OtherTable 1
* Filters and operands.
|CONST 1; STORE T 0; OPEN 0 0; FILTER 1; UNSET 0; CONST 2; SKIP; END|refused Filter 6
|CONST 1; STORE T 0; OPEN 0 0; FILTER 1; CONST 2; SKIP; END|accepted
|CONST 2; STORE N 0; OPEN 0 0; FILTER 1; TOP; END|refused Filter 4
|OPEN 0 0; FILTER 1; OPEN 0 0; TOP; END|accepted
|OPEN 0 0; FILTER 1; PACK; END|refused Filter 2
|OPEN 0 0; FILTER 1; APPEND; END|accepted
|OPEN 0 0; FILTER 1; FILTER 0; TOP; END|accepted
|OPEN 0 0; ROWFIELD 0; DROP T; END|refused Filter 1
|CONST 99; DROP T; END|refused Constant 0
|LOAD T 9; DROP T; END|refused Constant 0
|OPEN 9 0; END|refused Constant 0
|OPEN 9 2; END|refused Constant 0
|OPEN 0 9; END|refused Constant 0
|OPEN 0 0; FILTER 9; END|refused Constant 1
|OPEN 0 0; INDEX 0; END|refused Constant 1
|OPEN 0 0; CONST 1; REPLACE 5; END|refused Constant 2
|OPEN 0 0; CONST 1; REPLACE 0; END|accepted
|OPEN 0 0; CONST 2; REPLACE 0; END|refused Kind 2
|OPEN 0 0; FIELD 1 5; DROP T; END|refused Constant 1
|CENTURY; TODAY; DROP D; END|accepted
* Two rules fail at one place: the lesser is told.
* Kind and ClosedArea, Unset and StackOver, ClosedArea and StackUnder.
|CONST 2; SEEK; END|refused Kind 1
|CONST 1; CONST 1; CONST 1; CONST 1; LOAD T 0; END|refused Unset 4
|SKIP; END|refused ClosedArea 0
* OtherTable and OpenTwice, OtherTable and StackNotEmpty, NoOrder and StackUnder.
|OPEN 0 0; SELECT 2; OPEN 0 2; END|refused OtherTable 2
|CONST 1; OPEN 0 2; END|refused OtherTable 1
|OPEN 0 0; SEEK; END|refused NoOrder 1
* OpenTwice and StackNotEmpty, OpenTwice and Constant, StackUnder and Fall.
|OPEN 0 0; SELECT 2; CONST 1; OPEN 0 0; END|refused OpenTwice 3
|OPEN 0 0; SELECT 2; OPEN 0 9; END|refused OpenTwice 2
|DROP T|refused StackUnder 0
* StackNotEmpty and Exit, Fall and CallLevel, Fall and Exit, Filter and Constant.
|CONST 1; RETURN|refused StackNotEmpty 1
|CALL 0|refused Fall 0
|OPEN 0 0; RETURN; END|refused Fall 1
|OPEN 0 0; ROWFIELD 9; END|refused Filter 1
* Blocks of filters, behind a main block of one instruction and a procedure of one.
|END|accepted|RETURN||1 1
|END|accepted|RETURN|CONST 0|1 1
|END|accepted|RETURN|RECNO; CONST 2; FUN 6|1 1
|END|refused Filter 2|RETURN|ROWFIELD 0|1 1
|END|refused Filter 3|RETURN|CONST 0; CONST 0|1 1
|END|refused Constant 2|RETURN|CONST 99|1 1
|END|refused Filter 2|RETURN|EOF|1 1
|END|refused Filter 2|RETURN|NEWLINE; CONST 0|1 1
|END|refused Jump 2|RETURN|JUMP 0|1 1
|END|refused ClosedArea 2|RETURN|FIELD 2 0; CONST 1; FUN 9|1 1
|END|refused NoOrder 2|RETURN|SEEK|1 1
|END|refused Unset 2|RETURN|LOAD T 1; CONST 1; FUN 9|1 1
|END|refused Constant 2|RETURN|ROWFIELD 4; CONST 1; FUN 9|1 1
* Codes without a file.
|END|accepted|RETURN||1 1
0 UnsureFirst|END|no code|RETURN||1 1
|CENTURY; END|no code|RETURN||1 1
2 Nothing|END|no code|RETURN||1 1
1 Nothing,0 Nothing|END|no code|RETURN||1 1
|END|no code|RETURN|-|1 1
* Levels and exits.
|CALL 1; END|accepted|RETURN||1 1
|CALL 1; END|refused CallLevel 0|RETURN||1 0
|CALL 0; END|refused CallLevel 0|RETURN||1 0
|RETURN|accepted|RETURN||1 0
|CALL 1; END|refused Exit 3|OPEN 0 0; RETURN||1 1
";

fn verdict(alloc: Global, row: &str) -> Result<String, AllocError> {
    let Some(code) = LegalCode::tested(code_of(alloc, plan_of(row))?) else {
        return String::from_str(alloc, "no code");
    };
    match verify(alloc, code) {
        Ok(_) => String::from_str(alloc, "accepted"),
        Err(VerifyError::Refused(refused)) => format!(in alloc; "refused {refused}"),
        Err(VerifyError::NoMemory) => String::from_str(alloc, "no memory"),
    }
}

/// The first code that has another verdict than told.
fn first_wrong<'a>(alloc: Global, rows: &'a str) -> Result<Option<&'a str>, AllocError> {
    for row in rows.lines() {
        let wanted = row.split('|').nth(2).unwrap_or("");
        if !row.starts_with('*') && verdict(alloc, row)?.as_str() != wanted {
            return Ok(Some(row));
        }
    }
    Ok(None)
}

#[test]
fn verdicts_are_as_told(rt: HostRuntime) -> Result<(), Fail> {
    assert_eq!(rt; first_wrong(rt.alloc(), VERDICTS)?, None);
    Ok(())
}
