// What a run is asked for.
#![tactic(auto)]

ghost use Rattle.std.specs.Prelude.{◌≡◌, ◌≤◌, min, Some, None, MatchOption, SomeIff};
ghost use Rattle.dbf_file.specs.Values.{stamp_of};
ghost use Rattle.run_commands.specs.Days.{IsDayNamed, NamesNoDay};

use calendar::{Day, DayParts};
use dbf_file::Stamp;
use jiff::civil::Date;
use std::fmt;
use std::marker::Model;

/// The day of a run: one that a table's file can be stamped with, of the years 1900 to 2155. It is seen as that day.
#[derive(Clone, Copy)]
pub struct RunDay {
    day: Day,
}

impl Model for RunDay {
    ghost use Rattle.std.specs.Prelude.{Option};
    ghost use Rattle.calendar.specs.declared.day.DayParts.{DayParts as Parts};
    ghost use Rattle.run_commands.specs.Days.{HasStamp};

    ghost Value = { Option Parts };

    ghost view = { λ d. d.day };

    ghost invariant = { λ d. HasStamp d.day };

    ghost inverse = { λ d. record { day = d } };
}

impl RunDay {
    /// This day, if it is one of the years 1900 to 2155, which have a stamp.
    pub fn of(day: Day) -> Option<RunDay>
        ensures { MatchOption result (stamp_of day ≡ None) (λ d. d ≡ day) }
    {
        match Stamp::of(day) {
            Some(_) => Some(RunDay { day }),
            None => None,
        }
    }

    /// The day that a word of the form YYYY-MM-DD names, if it is one of the years 1900 to 2155.
    pub fn named(word: &str) -> Option<RunDay>
        ensures { MatchOption result (NamesNoDay word.now) (IsDayNamed word.now) }
    {
        let bytes = word.as_bytes();
        if bytes.len() != 10 || bytes[4] != b'-' || bytes[7] != b'-' {
            return None;
        }
        let date = word.parse::<Date>().ok()?;
        if date.year() < 1900 || date.year() > 2155 {
            return None;
        }
        let day = Day::from_parts(DayParts {
            year: date.year() as u16,
            month: date.month() as u8,
            day: date.day() as u8,
        })?;
        RunDay::of(day)
    }

    /// The day.
    pub fn day(self) -> Day
        ensures { result ≡ self }
    {
        self.day
    }

    /// What tables that are saved on this day are stamped with.
    pub fn stamp(self) -> Stamp
        ensures { stamp_of self ≡ Some result }
    {
        Stamp::of(self.day).unwrap()
    }
}

impl fmt::Display for RunDay {
    /// The day as a word of the form YYYY-MM-DD.
    fn fmt<W: fmt::Write>(&self, f: &mut fmt::Formatter<W>) -> fmt::Result {
        match self.day.parts() {
            Some(parts) => write!(f, "{:04}-{:02}-{:02}", parts.year, parts.month, parts.day),
            None => Ok(()),
        }
    }
}

/// The most records that a table may have in a run: 1 to 1,000,000. It is seen as that number.
#[derive(Clone, Copy)]
pub struct RecordLimit {
    records: u32,
}

impl Model for RecordLimit {
    ghost use Rattle.std.specs.Prelude.{ℕ, ◌≤◌};

    ghost Value = { ℕ };

    ghost view = { λ l. l.records };

    ghost invariant = { λ l. (1 ≤ l.records) × (l.records ≤ 1000000) };

    ghost inverse = { λ n. record { records = n } };
}

impl RecordLimit {
    /// This number of records, if it is one of 1 to 1,000,000.
    pub fn of(records: u32) -> Option<RecordLimit>
        ensures { SomeIff result ((1 ≤ records) × (records ≤ 1000000)) records }
    {
        if records < 1 || records > 1_000_000 {
            return None;
        }
        Some(RecordLimit { records })
    }

    /// 1,000,000 records.
    pub fn most() -> RecordLimit
        ensures { result ≡ 1000000 }
    {
        RecordLimit { records: 1_000_000 }
    }

    /// How many records.
    pub fn records(self) -> u32
        ensures same { result ≡ self }
        ensures smaller { min result 1000000 ≡ self }
        ensures some { 1 ≤ result }
        ensures few { result ≤ 1000000 }
    {
        self.records
    }
}

/// What a run is asked for.
#[derive(Clone, Copy)]
pub struct Job<'a> {
    /// The code's file.
    pub name: &'a str,
    /// Whether the checking machine runs it, in place of asking the verifier first. Such a run saves nothing.
    pub checked: bool,
    /// The most that the run may cost.
    pub budget: u64,
    /// The most records that a table may have.
    pub limit: RecordLimit,
    /// The day of the run.
    pub day: RunDay,
    /// What the operator typed.
    pub input: &'a [u8],
}
