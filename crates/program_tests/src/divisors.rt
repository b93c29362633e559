// Quotients and remainders by a number that is known beforehand.
#![tactic(auto)]

use fixed_num::Num;
use known_divisors::{quotient, reciprocal, remainder, whole_quotient};

/// What is asked of a number and a divisor, or of a divisor alone, `=`, and the answer.
const DIVISIONS: &str = "\
quotient 100 16=6.25
quotient 1 16=0.06
quotient 2 3=0.67
quotient 1 3=0.33
quotient 7.50 3=2.50
quotient 0.05 2=0.03
quotient 3 1.5=2.00
quotient 1 0.25=4.00
quotient 1.005 2=0.503
quotient -7 2=-3.50
quotient 7 -2=-3.50
quotient 7 1=7.00
quotient 7 0=*
quotient * 2=*
quotient 9999999999999999 16=624999999999999.94
quotient 9999999999999999999 7=*
whole 100 16=6
whole 0 16=0
whole 1994 1000=1
whole 1999 1000=2
whole 198 200=0
whole 199 200=1
whole 7.5 2=3
whole 7 0.5=14
whole -7 2=-3
whole 7 -2=-3
whole 7 0=*
whole * 2=*
whole 9999999999999999 16=624999999999999
whole 99999999999999999 1=99999999999999999
whole 100000000000000000 1=*
whole 100000000000000000 2=50000000000000000
whole 999999999999999999 2=*
whole 9999999999999999999 7=*
remainder 100 16=4
remainder 2 3=2
remainder 9 3=0
remainder 7.5 2.5=0.0
remainder 7.5 2=1.5
remainder -7 3=2
remainder 7 -3=-2
remainder 7 1=0
remainder 7 0=*
remainder 9999999999999999999 7=2
remainder 9999999999999999999 10=9
remainder 9999999999999999999 9999999999999999998=1
reciprocal 2=9223372036854775808
reciprocal 3=6148914691236517206
reciprocal 16=1152921504606846976
reciprocal 0.5=3689348814741910324
reciprocal 9999999999999999999=2
reciprocal 1=0
reciprocal 0=0
reciprocal -3=0
reciprocal *=0
";

fn read(text: &str) -> Num {
    Num::parse(text.as_bytes())
}

/// The quotient, the quotient cut, or the remainder, by any number as the reciprocal.
fn divided(word: &str, first: Num, second: Num, by: u64) -> Num {
    match word {
        "quotient" => quotient(first, second, by),
        "whole" => whole_quotient(first, second, by),
        _ => remainder(first, second, by),
    }
}

/// Whether the answer comes of both numbers, by the divisor's reciprocal and by other numbers in its place.
fn is_answered(word: &str, first: Num, second: Num, wanted: Num) -> bool {
    let own = reciprocal(&second);
    for by in [own, 0, 1, own / 2, u64::MAX] {
        if divided(word, first, second, by) != wanted {
            return false;
        }
    }
    true
}

fn is_right(row: &str) -> bool {
    let (asked, wanted) = row.split_once('=').unwrap_or((row, ""));
    let (word, rest) = asked.split_once(' ').unwrap_or((asked, ""));
    if word == "reciprocal" {
        return Ok(reciprocal(&read(rest))) == wanted.parse();
    }
    let (first, second) = rest.split_once(' ').unwrap_or((rest, ""));
    is_answered(word, read(first), read(second), read(wanted))
}

fn first_wrong<'a>(rows: &'a str) -> Option<&'a str> {
    for row in rows.lines() {
        if !is_right(row) {
            return Some(row);
        }
    }
    None
}

#[test]
fn known_divisors_divide_alike(rt: HostRuntime) {
    assert_eq!(rt; first_wrong(DIVISIONS), None);
}
