// Days of the calendar, and the blank date.
#![tactic(auto)]

ghost use Rattle.std.specs.Prelude.{◌≡◌, Some, None, SomeIff, IfSome};
ghost use Rattle.calendar.specs.Days.{IsDay};

use jiff::civil::Date;
use std::marker::Model;

/// A year, a month and a day of the month, each from 1.
#[derive(Clone, Copy, PartialEq, Eq, Debug)]
pub struct DayParts {
    pub year: u16,
    pub month: u8,
    pub day: u8,
}

/// The blank date, or a day of the years 1 to 9999; seen as its parts, where it has them.
#[derive(Clone, Copy, PartialEq, Eq, Debug)]
pub struct Day {
    parts: Option<DayParts>,
}

impl Model for Day {
    ghost use Rattle.std.specs.Prelude.{Option};
    ghost use Rattle.calendar.specs.declared.day.DayParts.{DayParts as Parts};
    ghost use Rattle.calendar.specs.Days.{HasDay};

    ghost Value = { Option Parts };

    ghost view = { λ d. d.parts };

    ghost invariant = { λ d. HasDay d.parts };

    ghost inverse = { λ p. record { parts = p } };
}

impl Day {
    /// The blank date.
    pub fn blank() -> Day
        ensures { result ≡ None }
    {
        Day { parts: None }
    }

    /// The day of these parts, or `None` where the calendar has no such day in the years 1 to 9999.
    pub fn from_parts(parts: DayParts) -> Option<Day>
        ensures { SomeIff result (IsDay parts) (Some parts) }
    {
        if parts.year < 1 || parts.year > 9999 || parts.month > 12 || parts.day > 31 {
            return None;
        }
        match Date::new(parts.year as i16, parts.month as i8, parts.day as i8) {
            Ok(_) => Some(Day { parts: Some(parts) }),
            Err(_) => None,
        }
    }

    /// The day's parts, or `None` of the blank date.
    pub fn parts(self) -> Option<DayParts>
        ensures same { result ≡ self }
        ensures in_range { IfSome result IsDay }
    {
        self.parts
    }
}

/// The blank date.
impl Default for Day {
    ghost is_default = { λ d. d ≡ None };

    fn default() -> Day {
        Day::blank()
    }
}
