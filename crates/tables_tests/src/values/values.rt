// Values as the screen shows them, what lines of the operator leave of them, and days of their parts.

use crate::values::spelled::value_of;
use calendar::{Day, DayParts};
use fixed_num::Num;
use xvalue::{Kind, Lent, Settings, Value};

/// A value a row: its kind, how it is spelled, the line that is typed over it, if there is one, and how the screen
/// shows what is there then. Behind `-` stand a text and the text of the number that it is read as.
const VALUES: &str = "\
N|0.33|      0.33
N|12345678.90|12345678.90
N|?|**********
T|AB |AB 
D|3/1/89|03/01/89
D|1/2/0007|01/02/07
D||  /  /  
L|T|.T.
L|F|.F.
T|AB   |hello world|hello
T|ABCDE|x|x    
T|ABCDE||ABCDE
T|ABCDE| |     
T||x|
N|5|12x|         5
N|5||         5
N|5|  |         0
N|5| -1.50 |     -1.50
D|02/29/88|13/01/88|02/29/88
D|02/29/88||02/29/88
D|02/29/88|  /  /  |02/29/88
D|02/29/88| 3/1/89 |03/01/89
D||x|  /  /  
L|F|y|.T.
L|F|True|.T.
L|T|no|.F.
L|T|F|.F.
L|T| n|.T.
L|T|.F.|.T.
L|T||.T.
-|-.5|-0.5
-||0
-|   |0
-|  +7. |7
-|007|7
-|-0|0
-|-|**********
-|.|**********
-|-.|**********
-|- 1|**********
-|1 2|**********
-|1.2.3|**********
-|12x|**********
-|0.1234567890123456|0.123456789012346
-|0.12345678901234549|0.123456789012345
-|9999.9999999999999995|**********
-|12345.000000000000000|**********
-|10000000000000000000|**********
-|0009999999999999999999|9999999999999999999
";

fn kind_of(letter: &str) -> Kind {
    if letter == "N" {
        return Kind::Number;
    }
    if letter == "T" {
        return Kind::Text;
    }
    if letter == "D" {
        return Kind::Date;
    }
    Kind::Logical
}

/// Whether a value is shown so, or a line and what it leaves of the value stand there.
fn is_shown(old: &Value, wanted: &str) -> bool {
    match wanted.split_once('|') {
        Some((line, left)) => {
            Lent::of(old)
                .answered(line.as_bytes())
                .shown(Settings::off())
                .as_slice()
                == left.as_bytes()
        }
        None => old.shown(Settings::off()).as_slice() == wanted.as_bytes(),
    }
}

fn is_right(row: &str) -> bool {
    let (letter, rest) = row.split_once('|').unwrap_or(("", row));
    let (spelled, wanted) = rest.split_once('|').unwrap_or((rest, ""));
    if letter == "-" {
        return Num::parse(spelled.as_bytes()).text().as_slice() == wanted.as_bytes();
    }
    is_shown(&value_of(kind_of(letter), spelled), wanted)
}

fn first_wrong<'a>(rows: &'a str) -> Option<&'a str> {
    for row in rows.lines() {
        if !is_right(row) {
            return Some(row);
        }
    }
    None
}

#[test]
fn shows_values(rt: HostRuntime) {
    assert_eq!(rt; first_wrong(VALUES), None);
    let blank = Value::blank(Kind::Number).shown(Settings::off());
    assert!(rt; blank.as_slice() == b"         0".as_slice());
}

fn day_of(year: u16, month: u8, day: u8) -> Option<Day> {
    Day::from_parts(DayParts { year, month, day })
}

#[test]
fn makes_days_of_parts(rt: HostRuntime) {
    assert!(rt; day_of(1988, 2, 29) == Some(Day::read(b"02/29/88")));
    assert!(rt; day_of(1900, 2, 29).is_none());
    assert!(rt; Day::default() == Day::read(b""));
}
