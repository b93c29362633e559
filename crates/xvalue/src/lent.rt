//! Values that are lent from where they stand.

ghost use Rattle.std.specs.Prelude.{◌≡◌, ◌≤◌, length};
ghost use Rattle.xvalue.specs.declared.value.Value.TheVariants.{Number as IsNumber, Text as IsText};
ghost use Rattle.xvalue.specs.declared.value.Value.TheVariants.{Date as IsDate, Logical as IsLogical};
ghost use Rattle.xvalue.specs.declared.kind.Kind.TheVariants.{Number as OfNumber, Text as OfText, Date as OfDate};
ghost use Rattle.xvalue.specs.declared.kind.Kind.TheVariants.{Logical as OfLogical};
ghost use Rattle.xvalue.specs.Kinds.{kind_of};

use crate::kind::Kind;
use crate::text::text_from;
use crate::value::Value;
use calendar::Day;
use fixed_num::Num;
use std::marker::Model;

/// A value whose text, if it is one, stays where it stands. Its kind says which of its places holds it; the others hold
/// anything.
#[derive(Drop)]
pub struct Lent<'a> {
    kind: Kind,
    number: Num,
    text: &'a [u8],
    day: Day,
    truth: bool,
}

impl<'a> Model for Lent<'a> {
    ghost use Rattle.std.specs.Prelude.{◌≤◌, length};
    ghost use Rattle.xvalue.specs.declared.value.Value.{Value as TheValue};
    ghost use Rattle.xvalue.specs.Lent.{lent_as};

    ghost Value = { TheValue };

    ghost view = { λ l. lent_as l.kind l.number l.text.now l.day l.truth };

    ghost invariant = { λ l. length l.text.now ≤ 254 };
}

impl<'a> Lent<'a> {
    /// A number.
    #[inline(always)]
    pub fn of_number(number: Num) -> Self
        ensures { result ≡ IsNumber number }
    {
        Lent {
            kind: Kind::Number,
            number,
            text: &[],
            day: Day::blank(),
            truth: false,
        }
    }

    /// The text of these bytes.
    #[inline(always)]
    pub fn of_text(text: &'a [u8]) -> Self
        requires { length text.now ≤ 254 }
        ensures { result ≡ IsText (record { items = text.entry.now }) }
    {
        Lent {
            kind: Kind::Text,
            number: Num::default(),
            text,
            day: Day::blank(),
            truth: false,
        }
    }

    /// A date.
    #[inline(always)]
    pub fn of_day(day: Day) -> Self
        ensures { result ≡ IsDate day }
    {
        Lent {
            kind: Kind::Date,
            number: Num::default(),
            text: &[],
            day,
            truth: false,
        }
    }

    /// A truth value.
    #[inline(always)]
    pub fn of_truth(truth: bool) -> Self
        ensures { result ≡ IsLogical truth }
    {
        Lent {
            kind: Kind::Logical,
            number: Num::default(),
            text: &[],
            day: Day::blank(),
            truth,
        }
    }

    /// A value, lent.
    #[inline(always)]
    pub fn of(value: &'a Value) -> Self
        ensures { result ≡ value.entry.now }
    {
        match value {
            Value::Number(number) => Lent::of_number(*number),
            Value::Text(text) => Lent::of_text(text.as_slice()),
            Value::Date(day) => Lent::of_day(*day),
            Value::Logical(truth) => Lent::of_truth(*truth),
        }
    }

    /// The value, its text copied.
    pub fn owned(&self) -> Value
        ensures { result ≡ self.now }
    {
        match self.kind {
            Kind::Number => Value::Number(self.number),
            Kind::Text => Value::Text(text_from(self.text)),
            Kind::Date => Value::Date(self.day),
            Kind::Logical => Value::Logical(self.truth),
        }
    }

    /// The kind of the value.
    #[inline(always)]
    pub fn kind(&self) -> Kind
        ensures { result ≡ kind_of self.now }
    {
        self.kind
    }

    /// The number that the value is.
    #[inline(always)]
    pub fn number(&self) -> Num
        requires { kind_of self.now ≡ OfNumber }
        ensures { self.now ≡ IsNumber result }
    {
        self.number
    }

    /// The bytes of the text that the value is.
    #[inline(always)]
    pub fn text(&self) -> &'a [u8]
        requires { kind_of self.now ≡ OfText }
        ensures same { self.now ≡ IsText (record { items = result.now }) }
        ensures short { length result.now ≤ 254 }
    {
        self.text
    }

    /// The date that the value is.
    #[inline(always)]
    pub fn day(&self) -> Day
        requires { kind_of self.now ≡ OfDate }
        ensures { self.now ≡ IsDate result }
    {
        self.day
    }

    /// The truth value that the value is.
    #[inline(always)]
    pub fn truth(&self) -> bool
        requires { kind_of self.now ≡ OfLogical }
        ensures { self.now ≡ IsLogical result }
    {
        self.truth
    }
}
