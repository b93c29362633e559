// Screens of command files, by the calls that their commands make.

use crate::values::spelled::text_made;
use screen_lines::{Screen, ScreenCommand, obey, run};
use std::alloc::{AllocError, Global};
use std::test::Fail;
use xvalue::Text;

/// What command files ask of the screen and what is sent in all: the commands with `;` between them, `=`, and the rows.
/// In texts and rows `^` ends a line, and `{3 A}` is three times A. The files are: `@ 2,0 SAY` of a number as `X = 5`,
/// `@ 2,0 GET X`, `READ`, `? X` shows it; texts at the edge of the screen; a text of 254 bytes on the last row, with
/// rows that are blank and scrolled out; commands at which nothing happens, or the cursor alone moves; `ACCEPT "Name? "
/// TO N`, `? LEN(N)`, `? ""` at the end, which sends nothing; and a GET behind a SAY.
const SCREENS: &str = "\
say|2|0|         5;line;print|         5={2 ^}{2          5^}
say|25|0|X;say|0|78|ABCD;print|E={78  }AB^E^
say|24|79|-;print|{254 A};line={24 ^}{79  }-^\
{3 AAAAAAAAAAAAAAAAAAAAAAAAAAAAAAAAAAAAAAAAAAAAAAAAAAAAAAAAAAAAAAAAAAAAAAAAAAAAAAAA^}{14 A}^
sayon|before the first row;say|0|5|;sayon|;say|-1|0|above;say|0|80|beside;print|Y;say|3|79|Z;sayon|past the end;clear;\
sayon|before the first row;print|;sayon|before the first row;print|\tA\x7fB ^=      Y^^^{79  }Z^ A B^
line;print|Name? ;line;print|         0;line;print|=Name?^         0^
say|0|0|AGE;sayon|42;clear=AGE 42^
";

/// Puts a text so many times behind the bytes.
fn put_times(out: &mut Vec<u8>, text: &str, times: usize) -> Result<(), AllocError> {
    for _ in 0..times {
        for byte in text.as_bytes() {
            out.push(if *byte == b'^' { b'\n' } else { *byte })?;
        }
    }
    Ok(())
}

/// The bytes that are written so.
fn expanded(alloc: Global, text: &str) -> Result<Vec<u8>, AllocError> {
    let mut out = Vec::new(alloc);
    for piece in text.split('{') {
        let (many, plain) = piece.split_once('}').unwrap_or(("", piece));
        let (times, part) = many.split_once(' ').unwrap_or(("0", ""));
        put_times(&mut out, part, times.parse().unwrap_or(0))?;
        put_times(&mut out, plain, 1)?;
    }
    Ok(out)
}

fn text_of(alloc: Global, text: &str) -> Result<Text, AllocError> {
    let bytes = expanded(alloc, text)?;
    Ok(text_made(bytes.as_slice()))
}

fn said(alloc: Global, said: &str) -> Result<ScreenCommand, AllocError> {
    let (row, rest) = said.split_once('|').unwrap_or((said, ""));
    let (column, text) = rest.split_once('|').unwrap_or((rest, ""));
    Ok(ScreenCommand::Say {
        row: row.parse().unwrap_or(0),
        column: column.parse().unwrap_or(0),
        text: text_of(alloc, text)?,
    })
}

fn command_of(alloc: Global, command: &str) -> Result<ScreenCommand, AllocError> {
    let (word, rest) = command.split_once('|').unwrap_or((command, ""));
    if word == "line" {
        return Ok(ScreenCommand::NewLine);
    }
    if word == "clear" {
        return Ok(ScreenCommand::Clear);
    }
    if word == "print" {
        return Ok(ScreenCommand::Print(text_of(alloc, rest)?));
    }
    if word == "sayon" {
        return Ok(ScreenCommand::SayOn(text_of(alloc, rest)?));
    }
    said(alloc, rest)
}

/// What is sent in all, by the list of commands.
fn sent(alloc: Global, commands: &str) -> Result<Vec<u8>, AllocError> {
    let mut list = Vec::new(alloc);
    for command in commands.split(';') {
        list.push(command_of(alloc, command)?)?;
    }
    run(alloc, list.as_slice())
}

fn is_right(alloc: Global, row: &str) -> Result<bool, AllocError> {
    let (commands, wanted) = row.split_once('=').unwrap_or((row, ""));
    let bytes = sent(alloc, commands)?;
    let rows = expanded(alloc, wanted)?;
    Ok(bytes.as_slice() == rows.as_slice())
}

/// The first file that sends something else.
fn first_wrong<'a>(alloc: Global, files: &'a str) -> Result<Option<&'a str>, AllocError> {
    for row in files.lines() {
        if !is_right(alloc, row)? {
            return Ok(Some(row));
        }
    }
    Ok(None)
}

#[test]
fn sends_rows(rt: HostRuntime) -> Result<(), Fail> {
    assert_eq!(rt; first_wrong(rt.alloc(), SCREENS)?, None);
    Ok(())
}

// The command once more where memory was refused.
fn insist(screen: &mut Screen, command: &ScreenCommand) -> Result<(), AllocError> {
    match obey(screen, command) {
        Ok(()) => Ok(()),
        Err(_) => obey(screen, command),
    }
}

fn finish_at_last(screen: &Screen, alloc: Global) -> Result<Vec<u8>, AllocError> {
    match screen.finish(alloc) {
        Ok(bytes) => Ok(bytes),
        Err(_) => screen.finish(alloc),
    }
}

fn screen_at_last(alloc: Global) -> Result<Screen, AllocError> {
    match Screen::new(alloc) {
        Ok(screen) => Ok(screen),
        Err(_) => Screen::new(alloc),
    }
}

/// `? STR(I,2)` for I from 1 to 26.
const COUNTED: &str =
    " 1| 2| 3| 4| 5| 6| 7| 8| 9|10|11|12|13|14|15|16|17|18|19|20|21|22|23|24|25|26";

fn count_and_clear(alloc: Global) -> Result<Vec<u8>, AllocError> {
    let mut screen = screen_at_last(alloc)?;
    for number in COUNTED.split('|') {
        insist(&mut screen, &ScreenCommand::NewLine)?;
        insist(
            &mut screen,
            &ScreenCommand::Print(text_made(number.as_bytes())),
        )?;
    }
    insist(&mut screen, &ScreenCommand::Clear)?;
    insist(&mut screen, &ScreenCommand::NewLine)?;
    insist(&mut screen, &ScreenCommand::Print(text_made(b"Z")))?;
    finish_at_last(&screen, alloc)
}

// Then `CLEAR`, `? "Z"`: also where one request for memory is refused on the way.
#[test]
fn counts_clears_and_goes_on(rt: HostRuntime) -> Result<(), Fail> {
    let bytes = count_and_clear(rt.alloc())?;
    assert!(rt;
        bytes.as_slice()
            == b" 1\n 2\n 3\n 4\n 5\n 6\n 7\n 8\n 9\n10\n11\n12\n13\n14\n\
                15\n16\n17\n18\n19\n20\n21\n22\n23\n24\n25\n26\nZ\n"
                .as_slice()
    );
    Ok(())
}
