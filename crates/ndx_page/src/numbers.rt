//! Numbers and runs of bytes in a page. The lowest byte of a number comes first.

ghost use Rattle.std.specs.Prelude.{◌≡◌, ◌+◌, ◌^◌, ◌<◌, ◌≤◌, ◌++◌, length, replicate};
ghost use Rattle.arrayvec.specs.ArrayVec.{array_vec_len};
ghost use Rattle.ndx_page.specs.Numbers.{number_at, number_text, padded};

use crate::layout::PAGE_SIZE;
use arrayvec::ArrayVec;
use byteorder::{ByteOrder, LittleEndian};

/// The bytes of a page that are written so far.
pub(crate) type Sheet = ArrayVec<u8, PAGE_SIZE>;

/// The number in the two bytes from `place` on.
#[tactic(auto, unfolding(crate::specs::Numbers::number_at))]
pub(crate) fn two_at(bytes: &[u8], place: usize) -> u16
    requires { place + 2 ≤ length bytes.now }
    ensures { result ≡ number_at 2 place bytes.now }
{
    LittleEndian::read_u16(&bytes[place..])
}

/// The number in the four bytes from `place` on.
#[tactic(auto, unfolding(crate::specs::Numbers::number_at))]
pub(crate) fn four_at(bytes: &[u8], place: usize) -> u32
    requires { place + 4 ≤ length bytes.now }
    ensures { result ≡ number_at 4 place bytes.now }
{
    LittleEndian::read_u32(&bytes[place..])
}

/// Writes these bytes behind what is written.
pub(crate) fn append(sheet: &mut Sheet, part: &[u8])
    requires { array_vec_len sheet.old + length part.now ≤ 512 }
    ensures items { sheet.new.items ≡ sheet.old.items ++ part.now }
    ensures len { array_vec_len sheet.new ≡ array_vec_len sheet.old + length part.now }
{
    match sheet.try_extend_from_slice(part) {
        Ok(()) => (),
        Err(_) => unreachable!(),
    }
}

/// Writes the number in two bytes behind what is written.
#[tactic(auto, unfolding(crate::specs::Numbers::number_text))]
pub(crate) fn append_two(sheet: &mut Sheet, number: u16)
    requires { array_vec_len sheet.old + 2 ≤ 512 }
    ensures items { sheet.new.items ≡ sheet.old.items ++ number_text 2 number }
    ensures len { array_vec_len sheet.new ≡ array_vec_len sheet.old + 2 }
    ensures fits { number < 2 ^ 16 }
{
    let mut bytes = [0; 2];
    LittleEndian::write_u16(&mut bytes, number);
    append(sheet, &bytes);
}

/// Writes the number in four bytes behind what is written.
#[tactic(auto, unfolding(crate::specs::Numbers::number_text))]
pub(crate) fn append_four(sheet: &mut Sheet, number: u32)
    requires { array_vec_len sheet.old + 4 ≤ 512 }
    ensures items { sheet.new.items ≡ sheet.old.items ++ number_text 4 number }
    ensures len { array_vec_len sheet.new ≡ array_vec_len sheet.old + 4 }
    ensures fits { number < 2 ^ 32 }
{
    let mut bytes = [0; 4];
    LittleEndian::write_u32(&mut bytes, number);
    append(sheet, &bytes);
}

/// Writes so many bytes 0.
pub(crate) fn append_zeros(sheet: &mut Sheet, count: usize)
    requires { array_vec_len sheet.old + count ≤ 512 }
    ensures items { sheet.new.items ≡ sheet.old.items ++ replicate count 0 }
    ensures len { array_vec_len sheet.new ≡ array_vec_len sheet.old + count }
{
    for _ in 0..count {
        sheet.push(0);
    }
}

/// The page: what is written, and bytes 0 up to its end.
pub(crate) fn whole_page(mut sheet: Sheet) -> [u8; PAGE_SIZE]
    ensures { result ≡ padded 512 sheet.items }
{
    let rest = sheet.remaining_capacity();
    append_zeros(&mut sheet, rest);
    match sheet.into_inner() {
        Ok(page) => page,
        Err(_) => unreachable!(),
    }
}
