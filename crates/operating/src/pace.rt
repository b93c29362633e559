//! How much of a run a part is to be.

ghost use Rattle.operating.specs.Parts.{part_after};
ghost use Rattle.std.specs.Duration.{as_nanos};
ghost use Rattle.std.specs.Prelude.{◌≡◌, ◌≤◌};

use std::time::Duration;

/// What the first part of a run is to cost at most.
pub const FIRST_PART: u64 = 1_000_000;

/// What a part is to cost at most, behind one that was to cost `part` at most and took this long. It is twice as much
/// where that one took less than a quarter of a second, half as much where it took more than a second, and else the
/// same.
pub fn next_part(part: u64, took: Duration) -> u64
    requires { 1 ≤ part }
    ensures some { 1 ≤ result }
    ensures pace { result ≡ part_after part (as_nanos took) }
{
    let nanos = took.as_nanos();
    if nanos < 250_000_000 {
        part.saturating_mul(2)
    } else if nanos > 1_000_000_000 && part > 1 {
        part / 2
    } else {
        part
    }
}
