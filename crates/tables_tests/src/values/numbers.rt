// Numbers: made, printed, compared and added.

use fixed_num::{Num, Parts};
use std::cmp::Ordering;
use xvalue::apply::sum_of_two;

/// What is asked of two words, `=`, and the answer: a number, the text of five places, or how they compare. `parts`
/// makes a number of its magnitude and its decimals, `below` one below zero, and `from` one of a whole number. `called`
/// is the sum that a call of a function gives.
const NUMBERS: &str = "\
print 123.456 2=*****
print -1 2=-1.00
print * 0=*****
below 25 1=-2.5
below 0 1=none
parts 1 16=none
parts 10000000000000000000 0=none
whole -2.9 =-2
whole * =0
from 7 =7
from -7 =-7
from -12 =-12
from 10000000000000000000 =*
compare 1.0 1=equal
compare * 9999999999999999999=greater
sum 1.50 2.25=3.75
sum 1.50 2=none
sum 1.50 -2.25=none
sum 9999999999999999999 1=none
called -1 -2=-3
";

fn read(text: &str) -> Num {
    Num::parse(text.as_bytes())
}

fn made(negative: bool, magnitude: &str, decimals: &str) -> Option<Num> {
    Num::from_parts(Parts {
        negative,
        magnitude: magnitude.parse().unwrap_or(0),
        decimals: decimals.parse().unwrap_or(0),
    })
}

/// The number that two words give; none where they give none.
fn number_of(word: &str, first: &str, second: &str) -> Option<Num> {
    if word == "parts" || word == "below" {
        return made(word == "below", first, second);
    }
    if word == "sum" {
        return read(first).alike_sum(&read(second));
    }
    if word == "called" {
        return sum_of_two(&read(first), &read(second));
    }
    Some(Num::from_whole(first.parse().unwrap_or(0)))
}

fn prints(number: &str, decimals: &str, wanted: &str) -> bool {
    let mut field = [0; 5];
    let decimals: u8 = decimals.parse().unwrap_or(0);
    read(number).print(5, decimals.min(15), &mut field);
    field.as_slice() == wanted.as_bytes()
}

fn compares(first: &str, second: &str, wanted: &str) -> bool {
    match read(first).cmp(&read(second)) {
        Ordering::Less => wanted == "less",
        Ordering::Equal => wanted == "equal",
        Ordering::Greater => wanted == "greater",
    }
}

fn is_right(row: &str) -> bool {
    let (asked, wanted) = row.split_once('=').unwrap_or((row, ""));
    let (word, rest) = asked.split_once(' ').unwrap_or((asked, ""));
    let (first, second) = rest.split_once(' ').unwrap_or((rest, ""));
    if word == "print" {
        return prints(first, second, wanted);
    }
    if word == "compare" {
        return compares(first, second, wanted);
    }
    if word == "whole" {
        return Ok(read(first).whole()) == wanted.parse();
    }
    match number_of(word, first, second) {
        Some(number) => number == read(wanted),
        None => wanted == "none",
    }
}

fn first_wrong<'a>(rows: &'a str) -> Option<&'a str> {
    for row in rows.lines() {
        if !is_right(row) {
            return Some(row);
        }
    }
    None
}

#[test]
fn answers_of_numbers(rt: HostRuntime) {
    assert_eq!(rt; first_wrong(NUMBERS), None);
    assert!(rt; Num::from(7u32) == read("7") && Num::from(-7i64) == read("-7"));
    assert!(rt; Num::default() == read("") && read("1.0") != read("1"));
}

#[test]
fn displays_its_text(rt: HostRuntime) -> Result<(), std::test::Fail> {
    let shown = format!(in rt.alloc(); "{} {:>8}|", read("-.50"), read("1.5"))?;
    assert_eq!(rt; shown.as_str(), "-0.50      1.5|");
    Ok(())
}
