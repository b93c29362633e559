//! How far a long run has come, as a person at a terminal is told.

use crate::shown::Audience;
use file_access::Files;
use run_commands::{
    FIRST_PART, Job, Rehearsal, Report, RunRefusal, Watcher, next_part, rehearse_files_watched,
    run_files_watched,
};
use std::alloc::Global;
use std::fmt::{self, Display, Formatter, Write};
use std::fs::File;
use std::rt::Runtime;
use std::time::{Duration, Instant};

/// How long a person is left without word of a run, in seconds.
const SILENCE: u64 = 1;

/// The order with which a terminal clears the row in which the cursor stands.
const ERASED: &str = "\r\x1b[K";

/// Tells a person on standard error once a second how far a run has come, in one row that is written over.
#[derive(Drop)]
pub struct Meter<'a, R> {
    rt: &'a R,
    audience: Audience,
    /// What the part that runs costs at most.
    part: u64,
    /// When that part began.
    begun: Option<Instant>,
    /// When the person was told last; before that, when the run began.
    told: Option<Instant>,
    /// Whether the row stands there.
    is_shown: bool,
}

impl<'a, R: Runtime<A = Global, File = File>> Meter<'a, R> {
    /// Before a run begins.
    pub fn new(rt: &'a R, audience: Audience) -> Meter<'a, R> {
        Meter {
            rt,
            audience,
            part: FIRST_PART,
            begun: None,
            told: None,
            is_shown: false,
        }
    }

    /// Tells how far the run has come, if the person was left without word for long enough.
    fn tell(&mut self, now: Instant, steps: u64, budget: u64) {
        let Some(told) = self.told else {
            self.told = Some(now);
            return;
        };
        if now.duration_since(told) < Duration::from_secs(SILENCE) {
            return;
        }
        let (steps, budget) = (Grouped(steps), Grouped(budget));
        let _ = eprint!(self.rt; "{ERASED}{steps} of {budget} steps");
        self.told = Some(now);
        self.is_shown = true;
    }

    /// Takes the row away behind a run.
    pub fn end(&self) {
        if self.is_shown {
            let _ = eprint!(self.rt; "{ERASED}");
        }
    }
}

impl<R: Runtime<A = Global, File = File>> Watcher for Meter<'_, R> {
    fn is_watching(&self) -> bool {
        self.audience.person
    }

    fn hear(&mut self, steps: u64, budget: u64) -> u64 {
        let Ok(now) = Instant::now(self.rt) else {
            return budget;
        };
        if let Some(begun) = self.begun {
            self.part = next_part(self.part.max(1), now.duration_since(begun));
        }
        self.begun = Some(now);
        self.tell(now, steps, budget);
        self.part
    }
}

/// A number with a comma before each three digits but the first ones.
#[derive(Clone, Copy)]
struct Grouped(u64);

/// The digits of a number by threes, the first ones first.
fn groups_of(number: u64) -> [u64; 7] {
    [
        number / 1_000_000_000_000_000_000,
        number / 1_000_000_000_000_000 % 1000,
        number / 1_000_000_000_000 % 1000,
        number / 1_000_000_000 % 1000,
        number / 1_000_000 % 1000,
        number / 1000 % 1000,
        number % 1000,
    ]
}

/// Writes a number so.
fn put_grouped<W: Write>(f: &mut Formatter<W>, number: u64) -> fmt::Result {
    let mut begun = false;
    for group in groups_of(number) {
        if begun {
            write!(f, ",{group:03}")?;
        } else if group > 0 {
            write!(f, "{group}")?;
            begun = true;
        }
    }
    if begun { Ok(()) } else { f.write_char('0') }
}

impl Display for Grouped {
    fn fmt<W: Write>(&self, f: &mut Formatter<W>) -> fmt::Result {
        put_grouped(f, self.0)
    }
}

/// Runs a code as `run_files` does; a person is told how far it has come.
pub fn run_told<F: Files, R: Runtime<A = Global, File = File>>(
    rt: &R,
    audience: Audience,
    files: &mut F,
    job: &Job<'_>,
) -> Report {
    let mut meter = Meter::new(rt, audience);
    let done = run_files_watched(rt.alloc(), files, job, &mut meter);
    meter.end();
    done
}

/// Rehearses a code as `rehearse_files` does; a person is told how far it has come.
pub fn rehearse_told<F: Files, R: Runtime<A = Global, File = File>>(
    rt: &R,
    audience: Audience,
    files: &mut F,
    job: &Job<'_>,
) -> Result<Rehearsal, RunRefusal> {
    let mut meter = Meter::new(rt, audience);
    let done = rehearse_files_watched(rt.alloc(), files, job, &mut meter);
    meter.end();
    done
}
