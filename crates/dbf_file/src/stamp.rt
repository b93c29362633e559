//! The day of a table's last update.

ghost use Rattle.std.specs.Prelude.{◌≡◌};
ghost use Rattle.dbf_file.specs.Values.{stamp_of};

use calendar::Day;

/// The day of a table's last update, as three bytes of the file.
#[derive(Clone, Copy, Debug, PartialEq, Eq)]
pub struct Stamp {
    /// The year less 1900.
    pub year: u8,
    /// The month, 1 to 12.
    pub month: u8,
    /// The day of the month, 1 to 31.
    pub day: u8,
}

impl Stamp {
    /// The stamp of a day of the years 1900 to 2155; other days and the blank date have none.
    pub fn of(day: Day) -> Option<Stamp>
        ensures { result ≡ stamp_of day }
    {
        let parts = day.parts()?;
        if parts.year < 1900 || parts.year > 2155 {
            return None;
        }
        Some(Stamp {
            year: (parts.year - 1900) as u8,
            month: parts.month,
            day: parts.day,
        })
    }
}
