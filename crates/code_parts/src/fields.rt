//! Bytes and numbers at the front of bytes. A number is written with its lowest byte first.

ghost use Rattle.std.specs.Int.{w16, w32, w64};
ghost use Rattle.code_parts.specs.Reading.{Finds, byte_at, number_read_at, text_read_at};

use crate::flaw::Missing;

/// The byte at the front, and the bytes behind it.
pub fn byte_of(bytes: &[u8]) -> Result<(u8, &[u8]), Missing>
    ensures { Finds (λ x. (x.0, x.1.now)) result (byte_at bytes.now) }
{
    match bytes {
        [] => Err(Missing),
        [byte, rest @ ..] => Ok((*byte, rest)),
    }
}

/// The number in two bytes at the front, and the bytes behind it.
pub fn two_of(bytes: &[u8]) -> Result<(u16, &[u8]), Missing>
    ensures { Finds (λ x. (x.0, x.1.now)) result (number_read_at w16 bytes.now) }
{
    if bytes.len() < 2 {
        return Err(Missing);
    }
    let (front, rest) = bytes.split_at(2);
    Ok((u16::from_le_bytes([front[0], front[1]]), rest))
}

/// The number in four bytes at the front, and the bytes behind it.
pub fn four_of(bytes: &[u8]) -> Result<(u32, &[u8]), Missing>
    ensures { Finds (λ x. (x.0, x.1.now)) result (number_read_at w32 bytes.now) }
{
    if bytes.len() < 4 {
        return Err(Missing);
    }
    let (front, rest) = bytes.split_at(4);
    let number = u32::from_le_bytes([front[0], front[1], front[2], front[3]]);
    Ok((number, rest))
}

/// The number in eight bytes at the front, and the bytes behind it.
pub(crate) fn eight_of(bytes: &[u8]) -> Result<(u64, &[u8]), Missing>
    ensures { Finds (λ x. (x.0, x.1.now)) result (number_read_at w64 bytes.now) }
{
    if bytes.len() < 8 {
        return Err(Missing);
    }
    let (front, rest) = bytes.split_at(8);
    let number = u64::from_le_bytes([
        front[0], front[1], front[2], front[3], front[4], front[5], front[6], front[7],
    ]);
    Ok((number, rest))
}

/// A byte that says how many follow, those, and the bytes behind them.
pub fn counted_text(bytes: &[u8]) -> Result<(&[u8], &[u8]), Missing>
    ensures { Finds (λ x. (x.0.now, x.1.now)) result (text_read_at bytes.now) }
{
    let (count, rest) = byte_of(bytes)?;
    let count = usize::from(count);
    if rest.len() < count {
        return Err(Missing);
    }
    let (text, rest) = rest.split_at(count);
    Ok((text, rest))
}
