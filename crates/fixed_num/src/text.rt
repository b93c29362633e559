//! The text of a number, and how it stands in a field.

ghost use Rattle.std.specs.Prelude.{◌≡◌, ◌+◌, ◌-◌, ◌/◌, ◌^◌, ◌<◌, ◌≤◌, ◌⊎◌, [], ◌∷◌, ◌++◌, length, replicate, Some};
ghost use Rattle.std.specs.Prelude.{if◌then◌else◌};
ghost use Rattle.arrayvec.specs.ArrayVec.{array_vec_len};
ghost use Rattle.fixed_num.specs.Number.{AreParts};
ghost use Rattle.fixed_num.specs.Text.{last_digits, whole_digits, decimals_text, text_of, printed_in};

use crate::number::{Num, Parts};
use crate::powers::power_of_ten;
use crate::rounding::whole_digits;
use arrayvec::ArrayVec;
use std::fmt;

impl Num {
    /// The text of the number: `-` where it is below zero, the digits before the point (at least one, no zeros in
    /// front), and where it has decimals a point and all of them. The text of the asterisk value is ten asterisks.
    pub fn text(self) -> ArrayVec<u8, 24>
        ensures { result.items ≡ text_of self }
    {
        let mut text = ArrayVec::new();
        let Some(parts) = self.parts() else {
            push_asterisks(&mut text);
            return text;
        };
        push_sign(&mut text, parts.negative);
        push_whole(&mut text, parts);
        push_decimals(&mut text, parts);
        text
    }

    /// Writes the number, rounded to so many decimals, at the right end of a field of `width` bytes, with blanks in
    /// front. Where it is longer, and for the asterisk value, the field is all asterisks.
    pub fn print(self, width: usize, decimals: u8, field: &mut [u8])
        requires whole_field { length field.old ≡ width }
        requires few_decimals { decimals ≤ 15 }
        ensures { field.new ≡ printed_in width decimals self }
    {
        let rounded = self.with_decimals(decimals);
        let text = rounded.text();
        if rounded.is_asterisk() || text.len() > width {
            field.fill(b'*');
            return;
        }
        let (blanks, digits) = field.split_at_mut(width - text.len());
        blanks.fill(b' ');
        digits.copy_from_slice(text.as_slice());
    }
}

/// A number is displayed as its text.
impl fmt::Display for Num {
    ghost output = { λ n. Some (text_of n) };

    fn fmt<W: fmt::Write>(&self, f: &mut fmt::Formatter<W>) -> fmt::Result {
        let text = self.text();
        match str::from_utf8(text.as_slice()) {
            Ok(text) => f.pad(text),
            Err(_) => unreachable!(),
        }
    }
}

/// Appends ten asterisks.
fn push_asterisks(text: &mut ArrayVec<u8, 24>)
    requires { text.old.items ≡ [] }
    ensures { text.new.items ≡ replicate 10 42 }
{
    for _ in 0..10u8 {
        text.push(b'*');
    }
}

/// Appends `-` where a number is below zero.
fn push_sign(text: &mut ArrayVec<u8, 24>, negative: bool)
    requires { text.old.items ≡ [] }
    ensures items { text.new.items ≡ (if negative then 45 ∷ [] else []) }
    ensures room { array_vec_len text.new ≤ 1 }
{
    if negative {
        text.push(b'-');
    }
}

/// Appends the digits before the point.
fn push_whole(text: &mut ArrayVec<u8, 24>, parts: Parts)
    requires in_range { AreParts parts }
    requires room { array_vec_len text.old ≤ 1 }
    ensures items { text.new.items ≡ text.old.items ++ whole_digits (parts.magnitude / 10 ^ parts.decimals) }
    ensures room { array_vec_len text.new + parts.decimals ≤ 20 }
{
    let whole = whole_digits(parts);
    push_digits(text, whole, digit_count(whole));
}

/// Appends the point and the digits behind it, where there are any.
fn push_decimals(text: &mut ArrayVec<u8, 24>, parts: Parts)
    requires in_range { AreParts parts }
    requires room { array_vec_len text.old + parts.decimals ≤ 20 }
    ensures { text.new.items ≡ text.old.items ++ decimals_text parts.decimals parts.magnitude }
{
    if parts.decimals > 0 {
        text.push(b'.');
        push_digits(text, parts.magnitude, parts.decimals);
    }
}

/// How many digits a whole number has, at least one.
#[inline]
fn digit_count(number: u64) -> u8
    requires { number < 10 ^ 19 }
    ensures some { 1 ≤ result }
    ensures few { result ≤ 19 }
    ensures all { number < 10 ^ result }
    ensures no_more { (result ≡ 1) ⊎ (10 ^ (result - 1) ≤ number) }
{
    let mut count = 1;
    while count < 19 && number >= power_of_ten(count) {
        count += 1;
    }
    count
}

/// Appends the last `count` digits of a whole number, zeros in front.
#[inline]
fn push_digits(text: &mut ArrayVec<u8, 24>, number: u64, count: u8)
    requires room { array_vec_len text.old + count ≤ 24 }
    requires few { count ≤ 19 }
    ensures items { text.new.items ≡ text.old.items ++ last_digits count number }
    ensures len { array_vec_len text.new ≡ array_vec_len text.old + count }
{
    let mut left = count;
    while left > 0 {
        left -= 1;
        let digit = number / power_of_ten(left) % 10;
        text.push(b'0' + digit as u8);
    }
}
