//! Command files, and the trees or faults that they give.

use prg_parser::{Form, ParseRefusal, Program, Text, line_faults, parse};
use std::alloc::{AllocError, Global};
use std::test::Fail;

/// The only command of a file, as it is shown.
fn command_shown(alloc: Global, program: &Program) -> Result<String, AllocError> {
    match program.main.as_slice() {
        [] => String::from_str(alloc, "nothing"),
        [command] => match &command.form {
            Form::Statement(statement) => format!(in alloc; "{statement:?}"),
            form => format!(in alloc; "{form:?}"),
        },
        _ => String::from_str(alloc, "several commands"),
    }
}

/// The only command of a file as it is shown, or the file's fault.
pub(crate) fn shown(alloc: Global, file: &[u8]) -> Result<String, AllocError> {
    match parse(alloc, file) {
        Ok(program) => command_shown(alloc, &program),
        Err(ParseRefusal::Fault(fault)) => {
            let line = fault.line;
            let kind = fault.kind;
            format!(in alloc; "{line} {kind:?}")
        }
        Err(ParseRefusal::Memory) => String::from_str(alloc, "memory"),
    }
}

/// The commands of one line.
pub(crate) const COMMANDS: &str = "\
     ?|Show { values: [] }\n\
     ? A, .T.|Show { values: [Name([65]), Logical(true)] }\n\
     ?? A|ShowOn { values: [Name([65])] }\n\
     @ A,B SAY C|Say { row: Name([65]), column: Name([66]), value: Name([67]) }\n\
     @ A,B GET C|Get { row: Name([65]), column: Name([66]), variable: [67] }\n\
     @ A,B SAY C GET D|SayGet { row: Name([65]), column: Name([66]), value: Name([67]), variable: [68] }\n\
     READ|Read\n\
     ACCEPT TO V|Accept { prompt: None, variable: [86] }\n\
     acce P to v|Accept { prompt: Some(Name([80])), variable: [86] }\n\
     WAIT|Wait { prompt: None, variable: None }\n\
     WAIT TO V|Wait { prompt: None, variable: Some([86]) }\n\
     WAIT P|Wait { prompt: Some(Name([80])), variable: None }\n\
     clea|Clear\n\
     x = Y|Assign { variable: [88], value: Name([89]) }\n\
     IF = Y|Assign { variable: [73, 70], value: Name([89]) }\n\
     STORE Y TO A, B|Store { value: Name([89]), variables: [[65], [66]] }\n\
     RELEASE A,B|Release { variables: [[65], [66]] }\n\
     PRIV A|Private { variables: [[65]] }\n\
     PARA A,B|Parameters { variables: [[65], [66]] }\n\
     USE|Close\n\
     USE T|Use { table: [84], indexes: [] }\n\
     USE T INDEX A, B|Use { table: [84], indexes: [[65], [66]] }\n\
     SELECT 10|Select { area: Number(10) }\n\
     SELECT B|Select { area: Name([66]) }\n\
     CLOSE ALL|CloseAll\n\
     CLOSE DATA|CloseAll\n\
     SET ORDER TO 2|SetOrder { order: 2 }\n\
     SET FILTER TO|SetFilter { condition: None }\n\
     SET FILT TO A|SetFilter { condition: Some(Name([65])) }\n\
     SET EXACT ON|Set { setting: Exact, on: true }\n\
     SET DELETED OFF|Set { setting: Deleted, on: false }\n\
     SET CENTURY ON|Set { setting: Century, on: true }\n\
     GO TOP|Go { to: Top }\n\
     goto bott|Go { to: Bottom }\n\
     GO A|Go { to: Record(Name([65])) }\n\
     SKIP|Skip { rows: None }\n\
     SKIP A|Skip { rows: Some(Name([65])) }\n\
     SEEK A|Seek { key: Name([65]) }\n\
     APPEND BLANK|AppendBlank\n\
     REPLACE F WITH A, G WITH B|\
         Replace { replacements: [Replacement { field: [70], value: Name([65]) }, Replacement { field: [71], value: \
         Name([66]) }] }\n\
     DELETE|Delete\n\
     RECALL|Recall\n\
     PACK|Pack\n\
     ZAP|Zap\n\
     REIN|Reindex\n\
     INDEX ON A TO I|IndexOn { key: Name([65]), index: [73] }\n\
     DO P|Do { procedure: [80], arguments: [] }\n\
     DO P WITH A,B|Do { procedure: [80], arguments: [Name([65]), Name([66])] }\n\
     RETURN|Return\n\
     QUIT|Quit\n\
     CANCEL|Cancel\n\
     ? A, ; \t\r~  B\r~|Show { values: [Name([65]), Name([66])] }\n\
     REA;~D;~;~|Read\n\
     READ;|Read\n\
     READ\x1aFOO|Read\n\
     READ && the rest ;~'x' isn't read|Read\n\
     DO P WITH (X), X|Do { procedure: [80], arguments: [Parentheses(Name([88])), Name([88])] }\n\
     INDEX ON (K) TO I|IndexOn { key: Parentheses(Name([75])), index: [73] }\n\
    ";

/// Blocks.
pub(crate) const BLOCKS: &str = "\
     IF A~READ~ENDIF|If { condition: Name([65]), then: [Command { line: 2, form: Statement(Read) }], otherwise: None, \
         end: 3 }\n\
     IF A~ELSE~READ~ENDIF rest 'x|\
         If { condition: Name([65]), then: [], otherwise: Some(Branch { line: 2, body: [Command { line: 3, form: \
         Statement(Read) }] }), end: 4 }\n\
     DO WHILE A~LOOP~EXIT~ENDDO|\
         DoWhile { condition: Name([65]), body: [Command { line: 2, form: Statement(Loop) }, Command { line: 3, form: \
         Statement(Exit) }], end: 4 }\n\
     SCAN~ENDSCAN|Scan { condition: None, body: [], end: 2 }\n\
     SCAN FOR A~READ~ENDSCAN|\
         Scan { condition: Some(Name([65])), body: [Command { line: 2, form: Statement(Read) }], end: 3 }\n\
     DO CASE~SET TALK OFF~CASE A~READ~CASE B~OTHERWISE~ZAP~ENDCASE|\
         DoCase { cases: [Case { line: 3, condition: Name([65]), body: [Command { line: 4, form: Statement(Read) }] \
         }, Case { line: 5, condition: Name([66]), body: [] }], otherwise: Some(Branch { line: 6, body: [Command { \
         line: 7, form: Statement(Zap) }] }), end: 8 }\n\
     DO CASE~ENDCASE|DoCase { cases: [], otherwise: None, end: 2 }\n\
    ";

/// Files with a fault, and files that say nothing or little.
pub(crate) const FAULTS: &str = "\
     X = = 3|1 Expression\n\
     ? \"AB|1 Text\n\
     ? 12345678901234567890|1 Number\n\
     LOCATE FOR X|1 Word\n\
     IF .T.|1 Block\n\
     ? &X|1 Macro\n\
     ? X % 2|1 Character\n\
     X12345678901 = 1|1 TooLong\n\
     FOO 12345678901234567890|1 Number\n\
     FOO &X|1 Word\n\
     X12345678901 = = 1|1 Expression\n\
     ? &X +|1 Macro\n\
     ? X &Y|1 Macro\n\
     &X|1 Macro\n\
     CASE &X|1 Block\n\
     ? X Y|1 Word\n\
     ? 1 2|1 Expression\n\
     PACK 5|1 Word\n\
     USE 5|1 Word\n\
     SELECT 0|1 Word\n\
     SELECT 11|1 Word\n\
     DO|1 Word\n\
     SET ORDER TO X|1 Word\n\
     RELEASE ALL|1 Word\n\
     STORE 1 TO M->V|1 Word\n\
     WAIT TO|1 Word\n\
     SEEK|1 Expression\n\
     ? 1,|1 Expression\n\
     @ 1 SAY 2|1 Word\n\
     @ 1|1 Expression\n\
     5 = 5|1 Word\n\
     READ~ELSE|2 Block\n\
     IF A~ELSE~ELSE~ENDIF|3 Block\n\
     DO WHILE A~ENDIF|2 Block\n\
     DO CASE~READ~ENDCASE|2 Block\n\
     DO CASE~OTHERWISE~CASE A~ENDCASE|3 Block\n\
     IF A~LOOP~ENDIF|2 Block\n\
     SCAN~IF A~EXIT~ENDIF~ENDSCAN~EXIT|6 Block\n\
     IF A~FOO|2 Word\n\
     SCAN~IF A~PROCEDURE P~READ|1 Block\n\
     IF A~PROCEDURE P~ENDIF|3 Block\n\
     READ~DO WHILE A~IF A~ENDIF|2 Block\n\
     * a comment ;~FOO~FOO|3 Word\n\
     ?;~;~FOO FOO~READ|1 Word\n\
     READ\r|1 Character\n\
     READ~~~IF A;~|4 Block\n\
     ? A;;~|1 Character\n\
     ~ \t~* X~\tnote x~NOTE~Note = 3~  && X~SET TALK &X 'a~set dele%~|9 Character\n\
     set deli to~SET PROC TO X~SET COLOR TO W/B;~%~SET SAFE OFF|nothing\n\
     NOTES = .T.|Assign { variable: [78, 79, 84, 69, 83], value: Logical(true) }\n\
     SET TAL OFF|1 Word\n\
     SET PRINT ON|1 Word\n\
    ";

/// All faults of a file.
pub(crate) fn listed(alloc: Global, file: &[u8]) -> Result<String, AllocError> {
    let mut text = String::new(alloc);
    for fault in &line_faults(alloc, file)? {
        let line = fault.line;
        let kind = fault.kind;
        text.push_str(format!(in alloc; "{line} {kind:?}; ")?.as_str())?;
    }
    Ok(text)
}

/// Files with several faults. A faulty line still opens its block, and one that fits none changes nothing; within a
/// block that is too deep no line is told for its place.
pub(crate) const SEVERAL_FAULTS: &str = "\
     READ|\n\
     ? &X~IF A +~ENDIF|1 Macro; 2 Expression; \n\
     IF A~ELSE~ELSE~ENDIF~FOO|3 Block; 5 Word; \n\
     SCAN~IF A~PROCEDURE P~FOO|4 Word; 1 Block; 2 Block; \n\
     LOOP~DO CASE~? 1~IF 1 +~ENDIF~CASE 1 +~ENDCASE|1 Block; 3 Block; 4 Expression; 6 Expression; \n\
     `33 IF A~`LOOP~`33 ENDIF~`|33 TooDeep; \n\
    ";

/// Whether a file is a program, or its fault.
pub(crate) fn verdict(alloc: Global, file: &[u8]) -> Result<String, AllocError> {
    match parse(alloc, file) {
        Ok(_) => String::from_str(alloc, "a program"),
        Err(ParseRefusal::Fault(fault)) => {
            let line = fault.line;
            let kind = fault.kind;
            format!(in alloc; "{line} {kind:?}")
        }
        Err(ParseRefusal::Memory) => String::from_str(alloc, "memory"),
    }
}

/// Blocks and parentheses within one another, and long lines: however long a line is, a lesser fault of its form is
/// told.
pub(crate) const LENGTHS: &str = "\
     `32 IF A~``32 ENDIF~`|a program\n\
     `33 IF A~`|33 TooDeep\n\
     `32 IF A~`DO CASE~|33 TooDeep\n\
     ? `32 (`A`32 )`|a program\n\
     ? `33 (`|1 TooDeep\n\
     `2000 PROCEDURE P~`IF A|2001 Block\n\
     |a program\n\
     `1020  `READ|a program\n\
     `1021  `READ|1 TooLong\n\
     `1021  `ELSE|1 Block\n\
     `1025 *`|1 TooLong\n\
     ? A`509  `;~`509  `|a program\n\
     ? A`511  `;~`511  `|1 TooLong\n\
     `20000 ;~`|a program\n\
     `20000 ?;~`|1 TooLong\n\
     ?`100000 -`X|1 TooLong\n\
     `1250 FOO `|1 Word\n\
     `20000 READ;~`|1 Word\n\
     `200000 (`|1 Word\n\
     ?`5000  `1 2|1 Expression\n\
     PRIVATE `5000 A,`5|1 Word\n\
     PRIVATE `5000 A,`A|1 TooLong\n\
    ";

/// The lines of the commands of the main part and of the procedures, and the procedures' names.
pub(crate) fn places(alloc: Global, file: &[u8]) -> Result<String, AllocError> {
    match parse(alloc, file) {
        Ok(program) => {
            let mut name = Text::new();
            name.push(b'A');
            let program = program.named(name);
            format!(in alloc; "{program:?}")
        }
        Err(_) => String::from_str(alloc, "refused"),
    }
}

/// A file and its program.
pub(crate) const PROGRAMS: &str =
    "DO P~PROCEDURE P~READ~proc q~|Program { name: [65], main: [Command { line: 1, form: Statement(Do { \
     procedure: [80], arguments: [] }) }], procedures: [Procedure { line: 2, name: [80], body: [Command { line: 3, \
     form: Statement(Read) }] }, Procedure { line: 4, name: [81], body: [] }] }";

/// The first byte that by itself is no character of command files and should be, or is one and shouldn't.
fn first_misjudged(alloc: Global) -> Result<Option<u8>, AllocError> {
    let begins: &[u8] = b"\t\n\x1a '\"[.&()*+,-/<=>#$?@;";
    for byte in 0..=255u8 {
        let known = byte.is_ascii_alphanumeric() || begins.contains(&byte);
        let found = verdict(alloc, &[byte])?;
        if (found.as_str() == "1 Character") == known {
            return Ok(Some(byte));
        }
    }
    Ok(None)
}

/// The first byte that ends a text and shouldn't, or doesn't end it and should.
fn first_misjudged_in_a_text(alloc: Global) -> Result<Option<u8>, AllocError> {
    let ends: &[u8] = b"\n\x1a'";
    for byte in 0..=255u8 {
        let found = verdict(alloc, &[b'?', b'\'', byte, b'\''])?;
        if (found.as_str() == "1 Text") != ends.contains(&byte) {
            return Ok(Some(byte));
        }
    }
    Ok(None)
}

#[test]
fn answers_each_byte(rt: HostRuntime) -> Result<(), Fail> {
    assert_eq!(rt; first_misjudged(rt.alloc())?, None);
    assert_eq!(rt; first_misjudged_in_a_text(rt.alloc())?, None);
    Ok(())
}
