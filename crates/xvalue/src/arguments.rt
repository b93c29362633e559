// The arguments of one call of a function.
#![tactic(auto)]

ghost use Rattle.std.specs.Prelude.{◌≡◌, ◌≤◌, length};
ghost use Rattle.xvalue.specs.Given.{by_kind, given, gathered};

use crate::text::{Text, copy_of};
use crate::texts::count_of;
use crate::value::Value;
use arrayvec::ArrayVec;
use calendar::Day;
use fixed_num::Num;

/// The most arguments of a function.
pub const MOST_ARGUMENTS: usize = 4;

/// The arguments of one call by their kinds, those of one kind in their order. One that a function wants and that isn't
/// there counts as 0, the empty text, the blank date or false.
#[derive(Clone, Copy)]
pub struct Arguments<'a> {
    pub numbers: &'a [Num],
    pub texts: &'a [Text],
    pub dates: &'a [Day],
    pub truths: &'a [bool],
}

/// At most four values by their kinds, those of one kind in their order.
#[derive(Drop)]
pub struct Gathered {
    numbers: ArrayVec<Num, MOST_ARGUMENTS>,
    texts: ArrayVec<Text, MOST_ARGUMENTS>,
    dates: ArrayVec<Day, MOST_ARGUMENTS>,
    truths: ArrayVec<bool, MOST_ARGUMENTS>,
}

impl Gathered {
    /// These values by their kinds.
    pub fn of(values: &[Value]) -> Gathered
        requires { length values.now ≤ 4 }
        ensures { gathered result ≡ by_kind values.now }
    {
        let mut all = Gathered {
            numbers: ArrayVec::new(),
            texts: ArrayVec::new(),
            dates: ArrayVec::new(),
            truths: ArrayVec::new(),
        };
        for value in values {
            match value {
                Value::Number(number) => all.numbers.push(*number),
                Value::Text(text) => all.texts.push(copy_of(text)),
                Value::Date(day) => all.dates.push(*day),
                Value::Logical(truth) => all.truths.push(*truth),
            }
        }
        all
    }

    /// The values as arguments.
    pub fn arguments(&self) -> Arguments<'_>
        ensures { given result ≡ gathered self.now }
    {
        Arguments {
            numbers: self.numbers.as_slice(),
            texts: self.texts.as_slice(),
            dates: self.dates.as_slice(),
            truths: self.truths.as_slice(),
        }
    }
}

impl Arguments<'_> {
    ghost use Rattle.xvalue.specs.Functions.{number_given, text_given, date_given, truth_given, count_at};

    /// The number argument of this place among those of its kind, counted from 0.
    pub fn number(&self, place: usize) -> Num
        ensures { result ≡ number_given place (given self.now) }
    {
        match self.numbers.get(place) {
            Some(number) => *number,
            None => Num::default(),
        }
    }

    /// The text argument of this place among those of its kind, counted from 0.
    pub fn text(&self, place: usize) -> &[u8]
        ensures same { result.now ≡ text_given place (given self.now) }
        ensures short { length result.now ≤ 254 }
    {
        match self.texts.get(place) {
            Some(text) => text.as_slice(),
            None => &[],
        }
    }

    /// The date argument of this place among those of its kind, counted from 0.
    pub fn date(&self, place: usize) -> Day
        ensures { result ≡ date_given place (given self.now) }
    {
        match self.dates.get(place) {
            Some(day) => *day,
            None => Day::blank(),
        }
    }

    /// The logical argument of this place among those of its kind, counted from 0.
    pub fn truth(&self, place: usize) -> bool
        ensures { result ≡ truth_given place (given self.now) }
    {
        match self.truths.get(place) {
            Some(truth) => *truth,
            None => false,
        }
    }

    /// How many bytes the number argument of this place asks for, by its whole part; none where that is below zero.
    pub fn count(&self, place: usize) -> usize
        ensures { result ≡ count_at place (given self.now) }
    {
        count_of(self.number(place))
    }
}
