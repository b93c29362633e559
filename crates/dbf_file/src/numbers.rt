//! Numbers in a file, the lowest byte first.

ghost use Rattle.std.specs.Prelude.{◌≡◌, ◌+◌, ◌^◌, ◌<◌, ◌≤◌, length};
ghost use Rattle.dbf_file.specs.Numbers.{number_at};

use byteorder::{ByteOrder, LittleEndian};

/// The number in the two bytes from `place` on.
#[tactic(auto, unfolding(crate::specs::Numbers::number_at))]
pub(crate) fn two_at(bytes: &[u8], place: usize) -> usize
    requires { place + 2 ≤ length bytes.now }
    ensures value { result ≡ number_at 2 place bytes.now }
    ensures fits { result < 2 ^ 16 }
{
    LittleEndian::read_u16(&bytes[place..]) as usize
}

/// The number in the four bytes from `place` on.
#[tactic(auto, unfolding(crate::specs::Numbers::number_at))]
pub(crate) fn four_at(bytes: &[u8], place: usize) -> usize
    requires { place + 4 ≤ length bytes.now }
    ensures value { result ≡ number_at 4 place bytes.now }
    ensures fits { result < 2 ^ 32 }
{
    LittleEndian::read_u32(&bytes[place..]) as usize
}
