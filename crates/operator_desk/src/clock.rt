//! The computer's local day.
#![tactic(auto)]

ghost use Rattle.std.specs.Prelude.{IfSome};
ghost use Rattle.run_commands.specs.Days.{HasStamp};

use calendar::{Day, DayParts};
use jiff::Zoned;
use jiff::civil::Date;
use jiff::tz::{SystemTimeZone, TimeZoneDatabase};
use run_commands::RunDay;
use std::alloc::Global;
use std::rt::Runtime;

/// The day now in a zone, which may be one that the zones of the system name.
fn day_in<R: Runtime<A = Global>>(
    rt: &R,
    zone: &SystemTimeZone,
    zones: &TimeZoneDatabase,
) -> Option<Date> {
    let zone = zone.time_zone(zones).ok()?;
    Some(Zoned::now(rt, zone).ok()?.date())
}

/// The day now in the system's zone. The system's zones by name are read only where the zone's own file doesn't serve.
fn date_now<R: Runtime<A = Global>>(rt: &R) -> Option<Date> {
    let zone = SystemTimeZone::read(rt).ok()?;
    match day_in(rt, &zone, &TimeZoneDatabase::new(rt.alloc())) {
        Some(date) => Some(date),
        None => day_in(rt, &zone, &TimeZoneDatabase::from_env(rt).ok()?),
    }
}

/// The computer's day now, in the zone that TZ names or else the system's file: none where it isn't one of the years
/// 1900 to 2155, or the system doesn't tell it.
pub fn local_day<R: Runtime<A = Global>>(rt: &R) -> Option<RunDay>
    ensures { IfSome result HasStamp }
{
    let date = date_now(rt)?;
    if date.year() < 1900 || date.year() > 2155 {
        return None;
    }
    RunDay::of(Day::from_parts(DayParts {
        year: date.year() as u16,
        month: date.month() as u8,
        day: date.day() as u8,
    })?)
}
