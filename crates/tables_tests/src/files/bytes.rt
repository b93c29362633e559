//! Changes of bytes.

/// Puts a byte at a place, where there is one.
pub(crate) fn set(bytes: &mut [u8], place: usize, byte: u8) {
    if let Some(old) = bytes.get_mut(place) {
        *old = byte;
    }
}
