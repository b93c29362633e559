//! Bytes held in place.

ghost use Rattle.std.specs.Prelude.{◌≡◌, ◌≤◌, length};

use arrayvec::ArrayVec;

/// The bytes, held in place.
pub fn held<const N: usize>(bytes: &[u8]) -> ArrayVec<u8, N>
    requires { length bytes.now ≤ N }
    ensures { result.items ≡ bytes.now }
{
    let mut copy = ArrayVec::new();
    copy.try_extend_from_slice(bytes).unwrap();
    copy
}
