// The lines that an operator typed, one after the other.

use std::alloc::{AllocError, Global};
use std::test::Fail;
use text_lines::TypedLines;

/// Whether these bytes give just these lines, and empty ones from then on.
fn gives(alloc: Global, bytes: &[u8], lines: &[&'static str]) -> Result<bool, AllocError> {
    let mut typed = TypedLines::new(Vec::from_slice(alloc, bytes)?);
    for line in lines {
        if typed.is_empty() || typed.next().as_slice() != line.as_bytes() {
            return Ok(false);
        }
    }
    Ok(typed.is_empty() && typed.next().is_empty() && typed.next().is_empty())
}

// A return is dropped just before a line end; the last line needs no end; what is used up gives empty lines.
#[test]
fn lines_are_cut_at_line_ends(rt: HostRuntime) -> Result<(), Fail> {
    let bytes = b"ANN\r\n\nBOB\rX\nEND\r";
    assert!(rt;
        gives(
            rt.alloc(),
            bytes.as_slice(),
            &["ANN", "", "BOB\rX", "END\r"]
        )?
    );
    assert!(rt; gives(rt.alloc(), b"\r\nA".as_slice(), &["", "A"])?);
    assert!(rt; TypedLines::none(rt.alloc()).next().is_empty());
    Ok(())
}

/// So many times the letter X, and a line end.
fn long_line(alloc: Global, count: usize) -> Result<Vec<u8>, AllocError> {
    let mut bytes = Vec::new(alloc);
    for _ in 0..count {
        bytes.push(b'X')?;
    }
    bytes.push(b'\n')?;
    Ok(bytes)
}

#[test]
fn a_line_has_at_most_254_bytes(rt: HostRuntime) -> Result<(), Fail> {
    let mut short = TypedLines::new(long_line(rt.alloc(), 254)?);
    let mut long = TypedLines::new(long_line(rt.alloc(), 300)?);
    assert!(rt; short.next().len() == 254 && short.next().is_empty());
    assert!(rt; long.next().len() == 254 && long.next().is_empty());
    Ok(())
}
