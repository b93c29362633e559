// How texts compare, and what functions make of them. A text is lent as its bytes.
#![tactic(auto)]

ghost use Rattle.std.specs.Prelude.{◌≡◌, ◌+◌, ◌≤◌, ◌++◌, min, length, take, drop, map, replicate};
ghost use Rattle.std.specs.Char.{to_ascii_uppercase, to_ascii_lowercase, is_ascii_alphabetic, is_ascii_uppercase};
ghost use Rattle.std.specs.Char.{is_ascii_lowercase};
ghost use Rattle.fixed_num.specs.Rounding.{whole_part};
ghost use Rattle.fixed_num.specs.Text.{printed_in};
ghost use Rattle.xvalue.specs.Texts.{fitting, equal_texts, first_or_blank, is_text_before};
ghost use Rattle.xvalue.specs.Texts.{joined_moved, count_of, bytes_cut_from, last_part, repeated, stuffed, first_place};
ghost use Rattle.xvalue.specs.Texts.{place_number, first_is, first_byte, byte_text, text_begins_with};

use crate::text::Text;
use fixed_num::laws::print_fills_its_field;
use fixed_num::{Num, without_last_blanks};

/// The most bytes of a text.
const MOST_BYTES: usize = 254;

/// A longest text of blanks.
const BLANKS: &[u8] = &[b' '; MOST_BYTES];

/// Whether two texts are equal: with `exact` on where they are the same but for the blanks at their ends, else where
/// the first begins with the second.
pub fn eq_text(left: &[u8], right: &[u8], exact: bool) -> bool
    ensures { result ≡ equal_texts exact left.now right.now }
{
    if exact {
        without_last_blanks(left) == without_last_blanks(right)
    } else {
        begins_with(left, right)
    }
}

/// Whether the first text is before the second, by bytes, the shorter one going on with blanks.
pub fn less_text(left: &[u8], right: &[u8]) -> bool
    ensures { result ≡ is_text_before left.now right.now }
{
    let mut first = left;
    let mut second = right;
    while !first.is_empty() || !second.is_empty() {
        let byte = first_or_blank(first);
        let other = first_or_blank(second);
        if byte != other {
            return byte < other;
        }
        first = behind(first, 1);
        second = behind(second, 1);
    }
    false
}

/// The first byte, or a blank where there is none.
fn first_or_blank(bytes: &[u8]) -> u8
    ensures { result ≡ first_or_blank bytes.now }
{
    match bytes {
        [first, ..] => *first,
        [] => b' ',
    }
}

/// The first `count` bytes, or all.
pub fn front(bytes: &[u8], count: usize) -> &[u8]
    ensures { result.now ≡ take count bytes.now }
{
    &bytes[..count.min(bytes.len())]
}

/// The bytes behind the first `count`.
pub fn behind(bytes: &[u8], count: usize) -> &[u8]
    ensures { result.now ≡ drop count bytes.now }
{
    &bytes[count.min(bytes.len())..]
}

/// The last `count` bytes, or all.
pub fn last_part(bytes: &[u8], count: usize) -> &[u8]
    ensures { result.now ≡ last_part count bytes.now }
{
    behind(bytes, bytes.len().saturating_sub(count))
}

/// `count` bytes from a place on, or as many as there are. The place counts from 1; none where it is 0.
pub fn part_from(bytes: &[u8], place: usize, count: usize) -> &[u8]
    ensures { result.now ≡ bytes_cut_from place count bytes.now }
{
    match place.checked_sub(1) {
        Some(skipped) => front(behind(bytes, skipped), count),
        None => &[],
    }
}

/// Writes these bytes over a text, cut at 254. This and the next functions leave nothing of what the text was.
pub fn write(bytes: &[u8], text: &mut Text)
    ensures { text.new.items ≡ fitting bytes.now }
{
    text.clear();
    append(text, bytes);
}

/// Writes two texts one behind the other, cut at 254 bytes.
pub fn write_joined(left: &[u8], right: &[u8], text: &mut Text)
    ensures { text.new.items ≡ fitting (left.now ++ right.now) }
{
    write_parts(left, right, &[], text);
}

/// Writes two texts one behind the other, the blanks at the end of the first moved to the end of both, then cut at 254
/// bytes.
pub fn write_joined_moved(left: &[u8], right: &[u8], text: &mut Text)
    ensures { text.new.items ≡ fitting (joined_moved left.now right.now) }
{
    let begin = without_last_blanks(left);
    write_parts(begin, right, behind(left, begin.len()), text);
}

/// Writes three texts one behind the other, cut at 254 bytes.
fn write_parts(first: &[u8], second: &[u8], third: &[u8], text: &mut Text)
    ensures { text.new.items ≡ fitting (first.now ++ second.now ++ third.now) }
{
    text.clear();
    append(text, first);
    append(text, second);
    append(text, third);
}

/// Appends as many of these bytes as a text has room for. It takes no memory.
pub fn append(text: &mut Text, bytes: &[u8])
    ensures { text.new.items ≡ fitting (text.old.items ++ bytes.now) }
{
    match text.try_extend_from_slice(front(bytes, text.remaining_capacity())) {
        Ok(()) => (),
        Err(_) => unreachable!(),
    }
}

/// Writes a text whose `count` bytes from a place on give way to others, cut at 254 bytes. The place counts from 1 and
/// is brought into 1 to one past the end.
pub fn write_stuffed(bytes: &[u8], place: usize, count: usize, others: &[u8], text: &mut Text)
    ensures { text.new.items ≡ fitting (stuffed place count others.now bytes.now) }
{
    let before = front(bytes, place.saturating_sub(1));
    write_parts(
        before,
        others,
        behind(behind(bytes, before.len()), count),
        text,
    );
}

/// Writes a text so many times, cut at 254 bytes.
pub fn write_repeated(bytes: &[u8], count: usize, text: &mut Text)
    ensures { text.new.items ≡ fitting (repeated count bytes.now) }
{
    text.clear();
    for _ in 0..count.min(MOST_BYTES) {
        append(text, bytes);
    }
}

/// Writes so many blanks, at most 254.
pub fn write_blanks(count: usize, text: &mut Text)
    ensures { text.new.items ≡ fitting (replicate count 32) }
{
    write(front(BLANKS, count), text);
}

/// Writes a text with its ASCII letters as capitals, cut at 254 bytes.
pub fn write_upper(bytes: &[u8], text: &mut Text)
    ensures { text.new.items ≡ fitting (map to_ascii_uppercase bytes.now) }
{
    write(bytes, text);
    text.as_mut_slice().make_ascii_uppercase();
}

/// Writes a text with its ASCII letters as small ones, cut at 254 bytes.
pub fn write_lower(bytes: &[u8], text: &mut Text)
    ensures { text.new.items ≡ fitting (map to_ascii_lowercase bytes.now) }
{
    write(bytes, text);
    text.as_mut_slice().make_ascii_lowercase();
}

/// Whether a text begins with another. The first bytes are compared without a call, since they mostly tell.
#[inline(always)]
fn begins_with(bytes: &[u8], part: &[u8]) -> bool
    ensures { result ≡ text_begins_with bytes.now part.now }
{
    if let [first, ..] = bytes {
        if let [wanted, ..] = part {
            if *first != *wanted {
                return false;
            }
        }
    }
    bytes.starts_with(part)
}

/// How many bytes stand before the first place at which a text stands in another, or `None` where it doesn't.
pub fn first_place(part: &[u8], bytes: &[u8]) -> Option<usize>
    ensures value { result ≡ first_place part.now bytes.now }
    ensures bound { place_number result ≤ length bytes.now + 1 }
{
    for place in 0..bytes.len() {
        if begins_with(behind(bytes, place), part) {
            return Some(place);
        }
    }
    if part.is_empty() {
        Some(bytes.len())
    } else {
        None
    }
}

/// The first place at which a text stands in another, counted from 1, and 0 for none.
pub fn place_of(part: &[u8], bytes: &[u8]) -> usize
    ensures value { result ≡ place_number (first_place part.now bytes.now) }
    ensures bound { result ≤ length bytes.now + 1 }
{
    match first_place(part, bytes) {
        Some(before) => before + 1,
        None => 0,
    }
}

/// The first byte, 0 of the empty text.
pub fn first_byte(bytes: &[u8]) -> u8
    ensures { result ≡ first_byte bytes.now }
{
    match bytes {
        [first, ..] => *first,
        [] => 0,
    }
}

/// Whether the first byte is an ASCII letter.
pub fn begins_with_letter(bytes: &[u8]) -> bool
    ensures { result ≡ first_is is_ascii_alphabetic bytes.now }
{
    match bytes {
        [first, ..] => first.is_ascii_alphabetic(),
        [] => false,
    }
}

/// Whether the first byte is an ASCII capital.
pub fn begins_with_capital(bytes: &[u8]) -> bool
    ensures { result ≡ first_is is_ascii_uppercase bytes.now }
{
    match bytes {
        [first, ..] => first.is_ascii_uppercase(),
        [] => false,
    }
}

/// Whether the first byte is a small ASCII letter.
pub fn begins_with_small(bytes: &[u8]) -> bool
    ensures { result ≡ first_is is_ascii_lowercase bytes.now }
{
    match bytes {
        [first, ..] => first.is_ascii_lowercase(),
        [] => false,
    }
}

/// How many bytes a number asks for by its whole part: none where that is below zero.
pub fn count_of(number: Num) -> usize
    ensures { result ≡ count_of (whole_part number) }
{
    number.whole().max(0) as usize
}

/// Writes the byte that is a number's whole part, and nothing where there is no such byte.
pub fn write_byte(number: Num, text: &mut Text)
    ensures { text.new.items ≡ fitting (byte_text (whole_part number)) }
{
    match u8::try_from(number.whole()) {
        Ok(byte) => write(&[byte], text),
        Err(_) => text.clear(),
    }
}

/// Writes a number right in so many places (at most 254) with so many decimals (at most 15); asterisks where it is
/// longer, and of the asterisk value.
pub fn write_printed(number: Num, width: usize, decimals: usize, text: &mut Text)
    ensures { text.new.items ≡ fitting (printed_in (min width 254) (min decimals 15) number) }
{
    print_fills_its_field();
    let width = width.min(MOST_BYTES);
    write_blanks(width, text);
    number.print(width, decimals.min(15) as u8, text.as_mut_slice());
}
