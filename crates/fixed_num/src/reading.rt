//! What number a text is read as.

ghost use Rattle.std.specs.Prelude.{◌≡◌, ◌+◌, ◌≤◌, ◌++◌, true, min, length, take, drop, reverse};
ghost use Rattle.fixed_num.specs.Number.{magnitude_limit, signed};
ghost use Rattle.fixed_num.specs.Arithmetic.{fitted};
ghost use Rattle.fixed_num.specs.Reading.{without_blanks, before_point, after_point, are_digits, with_digits, numeral};
ghost use Rattle.fixed_num.specs.Reading.{unsigned_read, parsed, digits_in_front, behind_digits, decimals_in_front};
ghost use Rattle.fixed_num.specs.Reading.{numeral_or_zero, unsigned_prefix, prefix_read};

use crate::number::{MAGNITUDE_LIMIT, MOST_DECIMALS, Num};

impl Num {
    /// The number that a text is read as: after blanks at both ends are taken off, an optional sign and digits with at
    /// most one point and at least one digit. Decimals past the 15th are rounded away. A text without anything but
    /// blanks is 0, any other text the asterisk value.
    pub fn parse(bytes: &[u8]) -> Num
        ensures { result ≡ parsed bytes.now }
    {
        let text = without_last_blanks(without_blanks(bytes));
        match text {
            [] => Num::from_whole(0),
            [b'-', digits @ ..] => unsigned_read(true, digits),
            [b'+', digits @ ..] => unsigned_read(false, digits),
            _ => unsigned_read(false, text),
        }
    }

    /// The number with which a text begins: behind blanks in front, the longest text of an optional sign and digits
    /// with at most one point and at least one digit. Decimals past the 15th are rounded away. Without one it is 0, and
    /// what stands behind it is not looked at.
    pub fn parse_prefix(bytes: &[u8]) -> Num
        ensures { result ≡ prefix_read bytes.now }
    {
        let text = without_blanks(bytes);
        match text {
            [b'-', digits @ ..] => unsigned_prefix(true, digits),
            [b'+', digits @ ..] => unsigned_prefix(false, digits),
            _ => unsigned_prefix(false, text),
        }
    }
}

/// The text without the blanks in front.
pub fn without_blanks(bytes: &[u8]) -> &[u8]
    ensures same { result.now ≡ without_blanks bytes.now }
    ensures shorter { length result.now ≤ length bytes.now }
{
    let mut text = bytes;
    while let [b' ', others @ ..] = text {
        text = others;
    }
    text
}

/// The text without the blanks at its end.
pub fn without_last_blanks(bytes: &[u8]) -> &[u8]
    ensures same { result.now ≡ reverse (without_blanks (reverse bytes.now)) }
    ensures shorter { length result.now ≤ length bytes.now }
{
    let mut text = bytes;
    while let [others @ .., b' '] = text {
        text = others;
    }
    text
}

/// The number of a sign and a text without one.
fn unsigned_read(negative: bool, text: &[u8]) -> Num
    ensures { result ≡ unsigned_read negative text.now }
{
    let point = point_place(text);
    let fraction = (point + 1).min(text.len());
    numeral(negative, &text[..point], &text[fraction..])
}

/// Where the first point stands, or the length of a text without one.
fn point_place(text: &[u8]) -> usize
    ensures bound { result ≤ length text.now }
    ensures before { take result text.now ≡ before_point text.now }
    ensures after { drop (result + 1) text.now ≡ after_point text.now }
{
    for (place, byte) in text.iter().enumerate() {
        if *byte == b'.' {
            return place;
        }
    }
    text.len()
}

/// The number of a sign and the longest numeral without one that a text begins with, 0 without one.
fn unsigned_prefix(negative: bool, text: &[u8]) -> Num
    ensures { result ≡ unsigned_prefix negative text.now }
{
    let (whole, others) = text.split_at(front_count(text));
    numeral_or_zero(negative, whole, decimals_in_front(others))
}

/// The digits behind a point, where a text begins with one.
fn decimals_in_front(text: &[u8]) -> &[u8]
    ensures { result.now ≡ decimals_in_front text.now }
{
    match text {
        [b'.', others @ ..] => &others[..front_count(others)],
        _ => &[],
    }
}

/// How many digits a text begins with.
fn front_count(text: &[u8]) -> usize
    ensures bound { result ≤ length text.now }
    ensures front { take result text.now ≡ digits_in_front text.now }
    ensures others { drop result text.now ≡ behind_digits text.now }
{
    for (place, byte) in text.iter().enumerate() {
        if !byte.is_ascii_digit() {
            return place;
        }
    }
    text.len()
}

/// The number of a sign and digits, 0 without digits.
fn numeral_or_zero(negative: bool, whole: &[u8], fraction: &[u8]) -> Num
    ensures { result ≡ numeral_or_zero negative whole.now fraction.now }
{
    if whole.is_empty() && fraction.is_empty() {
        return Num::from_whole(0);
    }
    numeral(negative, whole, fraction)
}

/// The number of a sign, the digits before the point and those behind it, or the asterisk value where there is no digit
/// or anything else.
fn numeral(negative: bool, whole: &[u8], fraction: &[u8]) -> Num
    ensures { result ≡ numeral negative whole.now fraction.now }
{
    if (whole.is_empty() && fraction.is_empty()) || !are_digits(whole) || !are_digits(fraction) {
        return Num::asterisk();
    }
    digits_read(negative, whole, fraction)
}

/// The number of a sign, the digits before the point and those behind it, of which more than 15 are rounded to 15.
fn digits_read(negative: bool, whole: &[u8], fraction: &[u8]) -> Num
    requires { are_digits fraction.now ≡ true }
    ensures { result ≡ fitted (signed negative (with_digits 0 (whole.now ++ fraction.now))) (length fraction.now) }
{
    let number = with_digits(0, whole);
    let most = MOST_DECIMALS as usize;
    if fraction.len() <= most {
        let magnitude = with_digits(number, fraction);
        return Num::from_magnitude(negative, u128::from(magnitude), fraction.len() as u8);
    }
    let magnitude = u128::from(with_digits(number, &fraction[..most]));
    if fraction[most] >= b'5' {
        return Num::from_magnitude(negative, magnitude + 1, MOST_DECIMALS);
    }
    Num::from_magnitude(negative, magnitude, MOST_DECIMALS)
}

/// Whether a text has digits alone.
pub fn are_digits(text: &[u8]) -> bool
    ensures { result ≡ are_digits text.now }
{
    for byte in text {
        if !byte.is_ascii_digit() {
            return false;
        }
    }
    true
}

/// A whole number with digits written behind it, or 10^19 where it isn't below.
fn with_digits(number: u64, digits: &[u8]) -> u64
    ensures { result ≡ min magnitude_limit (with_digits number digits.now) }
{
    let mut magnitude = number.min(MAGNITUDE_LIMIT);
    for digit in digits {
        let longer = u128::from(magnitude) * 10 + u128::from(digit.saturating_sub(b'0'));
        magnitude = longer.min(u128::from(MAGNITUDE_LIMIT)) as u64;
    }
    magnitude
}
