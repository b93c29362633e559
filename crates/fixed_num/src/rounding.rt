//! Rounding to whole numbers, and division with decimals.

ghost use Rattle.std.specs.Prelude.{◌≡◌, ◌+◌, ◌*◌, ◌/◌, ◌%◌, ◌^◌, ◌<◌, ◌≤◌, pos, neg_ℤ, unsigned_abs, MatchOption};
ghost use Rattle.fixed_num.specs.Number.{magnitude_limit, signed, AreParts};
ghost use Rattle.fixed_num.specs.Arithmetic.{remainder_of};
ghost use Rattle.fixed_num.specs.Rounding.{nearest, rounded_at, rounded_to, cut, whole_part};

use crate::number::{MAGNITUDE_LIMIT, Num, Parts};
use crate::powers::{power_of_ten, shortened};

/// The whole number nearest to `dividend / divisor`, a half upwards.
#[inline(always)]
pub(crate) fn nearest(dividend: u128, divisor: u128) -> u128
    requires positive { 0 < divisor }
    requires room { dividend < 2 ^ 127 }
    ensures { result ≡ nearest dividend divisor }
{
    let quotient = quotient_and_rest(dividend, divisor);
    round_up(quotient.whole, quotient.rest, divisor)
}

/// The whole number nearest to `magnitude / 10^places`, a half upwards.
#[inline]
fn nearest_shorter(magnitude: u64, places: u8) -> u128
    requires { places ≤ 15 }
    ensures { result ≡ nearest magnitude (10 ^ places) }
{
    let whole = shortened(magnitude, places);
    let power = power_of_ten(places);
    let rest = magnitude - whole * power;
    round_up(u128::from(whole), u128::from(rest), u128::from(power))
}

/// A whole quotient, and what is left of the dividend.
#[derive(Clone, Copy)]
struct Quotient {
    whole: u128,
    rest: u128,
}

/// The quotient of two whole numbers. It is found in one word where both fit, which most do.
#[inline(always)]
fn quotient_and_rest(dividend: u128, divisor: u128) -> Quotient
    requires { 0 < divisor }
    ensures whole { result.whole ≡ dividend / divisor }
    ensures rest { result.rest ≡ dividend % divisor }
{
    let most = u128::from(u64::MAX);
    if dividend <= most && divisor <= most {
        let (dividend, divisor) = (dividend as u64, divisor as u64);
        return Quotient {
            whole: u128::from(dividend / divisor),
            rest: u128::from(dividend % divisor),
        };
    }
    Quotient {
        whole: dividend / divisor,
        rest: dividend % divisor,
    }
}

/// The whole number nearest to a quotient with a rest.
#[inline]
fn round_up(quotient: u128, rest: u128, divisor: u128) -> u128
    requires room { quotient < 2 ^ 127 }
    requires rest { rest < divisor }
    ensures { result ≡ nearest (quotient * divisor + rest) divisor }
{
    if rest >= divisor - rest {
        quotient + 1
    } else {
        quotient
    }
}

/// The whole number nearest to `dividend * 10^places / divisor`, or `None` where it has more than 19 digits. It is
/// found in two groups of digits, the second of which is left out where the first is too long.
pub(crate) fn divided(dividend: u64, places: u8, divisor: u64) -> Option<u128>
    requires divisor { 0 < divisor }
    requires places { places ≤ 30 }
    ensures { MatchOption result
        (magnitude_limit ≤ nearest (dividend * 10 ^ places) divisor)
        (λ n. n ≡ nearest (dividend * 10 ^ places) divisor) }
{
    let divisor = u128::from(divisor);
    let first = places.min(18);
    let scaled = u128::from(dividend) * u128::from(power_of_ten(first));
    let group = quotient_and_rest(scaled, divisor);
    if first == places {
        return Some(round_up(group.whole, group.rest, divisor));
    }
    if group.whole >= u128::from(MAGNITUDE_LIMIT) {
        return None;
    }
    let more = u128::from(power_of_ten(places - first));
    let others = quotient_and_rest(group.rest * more, divisor);
    let digits = group.whole * more + others.whole;
    Some(round_up(digits, others.rest, divisor))
}

/// The magnitude of `dividend - divisor * floor(dividend / divisor)`, which has the sign of the divisor, from the signs
/// and magnitudes of both.
pub(crate) fn floored_rest(
    dividend_negative: bool,
    dividend: u128,
    divisor_negative: bool,
    divisor: u128,
) -> u128
    requires { 0 < divisor }
    ensures { signed divisor_negative result
        ≡ remainder_of (signed dividend_negative dividend) (signed divisor_negative divisor) }
{
    let rest = quotient_and_rest(dividend, divisor).rest;
    if dividend_negative != divisor_negative && rest != 0 {
        divisor - rest
    } else {
        rest
    }
}

impl Num {
    /// The number rounded to so many places, a half away from zero: with that many decimals, or where `places` is below
    /// zero as a multiple of a power of ten without decimals. Places outside -18 to 15 count as the nearest of these.
    pub fn round(self, places: i128) -> Num
        ensures { result ≡ rounded_to places self }
    {
        let places = places.max(-18).min(15);
        if places >= 0 {
            self.with_decimals(places as u8)
        } else {
            self.multiple(places.unsigned_abs() as u8)
        }
    }

    /// The number with so many decimals.
    pub(crate) fn with_decimals(self, decimals: u8) -> Num
        requires { decimals ≤ 15 }
        ensures { result ≡ rounded_at (pos decimals) self }
    {
        let Some(parts) = self.parts() else {
            return self;
        };
        if decimals >= parts.decimals {
            let power = power_of_ten(decimals - parts.decimals);
            let longer = u128::from(parts.magnitude) * u128::from(power);
            return Num::from_magnitude(parts.negative, longer, decimals);
        }
        let shorter = nearest_shorter(parts.magnitude, parts.decimals - decimals);
        Num::from_magnitude(parts.negative, shorter, decimals)
    }

    /// The nearest multiple of `10^zeros`.
    fn multiple(self, zeros: u8) -> Num
        requires some { 1 ≤ zeros }
        requires few { zeros ≤ 18 }
        ensures { result ≡ rounded_at (neg_ℤ (pos zeros)) self }
    {
        let Some(parts) = self.parts() else {
            return self;
        };
        let unit = u128::from(power_of_ten(zeros));
        let divisor = u128::from(power_of_ten(parts.decimals)) * unit;
        let count = nearest(u128::from(parts.magnitude), divisor);
        Num::from_magnitude(parts.negative, count * unit, 0)
    }

    /// The number cut toward zero, without decimals.
    #[inline]
    pub fn int(self) -> Num
        ensures { result ≡ cut self }
    {
        match self.parts() {
            Some(parts) => Num::from_word(parts.negative, whole_digits(parts), 0),
            None => self,
        }
    }

    /// The number cut toward zero, as a whole number, and 0 of the asterisk value.
    pub fn whole(self) -> i128
        ensures value { result ≡ whole_part self }
        ensures bound { unsigned_abs result < magnitude_limit }
    {
        let Some(parts) = self.parts() else {
            return 0;
        };
        let magnitude = i128::from(whole_digits(parts));
        if parts.negative {
            -magnitude
        } else {
            magnitude
        }
    }
}

/// The digits before the point as a whole number.
#[inline]
pub(crate) fn whole_digits(parts: Parts) -> u64
    requires { AreParts parts }
    ensures { result ≡ parts.magnitude / 10 ^ parts.decimals }
{
    shortened(parts.magnitude, parts.decimals)
}
