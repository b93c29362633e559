//! Powers of ten, and whole numbers with more decimals or fewer.

ghost use Rattle.std.specs.Prelude.{◌≡◌, ◌*◌, ◌/◌, ◌^◌, ◌<◌, ◌≤◌, unsigned_abs, MatchOption};
ghost use Rattle.fixed_num.specs.Number.{scaled};

/// 10^0 to 10^19.
static POWERS_OF_TEN: [u64; 20] = [
    1,
    10,
    100,
    1_000,
    10_000,
    100_000,
    1_000_000,
    10_000_000,
    100_000_000,
    1_000_000_000,
    10_000_000_000,
    100_000_000_000,
    1_000_000_000_000,
    10_000_000_000_000,
    100_000_000_000_000,
    1_000_000_000_000_000,
    10_000_000_000_000_000,
    100_000_000_000_000_000,
    1_000_000_000_000_000_000,
    10_000_000_000_000_000_000,
];

/// 10^exponent.
#[inline(always)]
pub(crate) fn power_of_ten(exponent: u8) -> u64
    requires { exponent ≤ 19 }
    ensures value { result ≡ 10 ^ exponent }
    ensures positive { 0 < result }
{
    POWERS_OF_TEN[exponent as usize]
}

/// The numerator of a number with so many more decimals.
#[inline]
pub(crate) fn scaled(numerator: i128, places: u8) -> i128
    requires magnitude { unsigned_abs numerator < 10 ^ 19 }
    requires places { places ≤ 15 }
    ensures value { result ≡ scaled numerator places }
    ensures bound { unsigned_abs result < 10 ^ 34 }
{
    numerator * power_of_ten(places) as i128
}

/// The magnitude of a number with so many more decimals, where it fits in a word.
#[inline(always)]
pub(crate) fn lengthened(magnitude: u64, places: u8) -> Option<u64>
    requires { places ≤ 19 }
    ensures { MatchOption result (2 ^ 64 ≤ magnitude * 10 ^ places) (λ longer. longer ≡ magnitude * 10 ^ places) }
{
    magnitude.checked_mul(power_of_ten(places))
}

/// The magnitude without so many last digits. (Each divisor stands by itself, since a division by a number that is
/// known is a multiplication.)
#[inline]
pub(crate) fn shortened(magnitude: u64, places: u8) -> u64
    requires { places ≤ 15 }
    ensures { result ≡ magnitude / 10 ^ places }
{
    match places {
        0 => magnitude,
        1 => magnitude / 10,
        2 => magnitude / 100,
        3 => magnitude / 1_000,
        4 => magnitude / 10_000,
        5 => magnitude / 100_000,
        6 => magnitude / 1_000_000,
        7 => magnitude / 10_000_000,
        8 => magnitude / 100_000_000,
        9 => magnitude / 1_000_000_000,
        10 => magnitude / 10_000_000_000,
        11 => magnitude / 100_000_000_000,
        12 => magnitude / 1_000_000_000_000,
        13 => magnitude / 10_000_000_000_000,
        14 => magnitude / 100_000_000_000_000,
        _ => magnitude / 1_000_000_000_000_000,
    }
}
