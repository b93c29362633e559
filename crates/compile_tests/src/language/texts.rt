//! Texts that the examples are made of.

use std::alloc::{AllocError, Global};

/// Puts a text so many times, with line ends for `~`.
fn put_times(bytes: &mut Vec<u8>, text: &str, times: usize) -> Result<(), AllocError> {
    for _ in 0..times {
        for byte in text.as_bytes() {
            bytes.push(if *byte == b'~' { b'\n' } else { *byte })?;
        }
    }
    Ok(())
}

/// The bytes of an example. `~` stands for a line's end. A number and a text between two backquotes stand for the text
/// so many times.
pub(crate) fn bytes_of(alloc: Global, example: &str) -> Result<Vec<u8>, AllocError> {
    let mut bytes = Vec::new(alloc);
    for (place, part) in example.split('`').enumerate() {
        if place % 2 == 0 {
            put_times(&mut bytes, part, 1)?;
        } else {
            let (times, text) = part.split_once(' ').unwrap_or(("0", ""));
            put_times(&mut bytes, text, times.parse().unwrap_or(0))?;
        }
    }
    Ok(bytes)
}
