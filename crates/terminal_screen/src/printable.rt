//! Bytes of rows as a terminal may be sent them.

ghost use Rattle.std.specs.Prelude.{◌≡◌, ◌++◌, OnOk, string_bytes};
ghost use Rattle.std.specs.List.{flat_map};
ghost use Rattle.terminal_screen.specs.Printable.{shown_letter};

use code_pages::{CodePage, letter_of};
use std::alloc::{AllocError, Global};

/// Puts a byte of a row behind what a terminal is sent.
pub(crate) fn put_byte(out: &mut String, page: Option<CodePage>, byte: u8) -> Result<(), AllocError>
    ensures { OnOk result (string_bytes out.new ≡ string_bytes out.old ++ shown_letter page byte) }
{
    let letter = if byte < 32 || byte == 127 {
        ' '
    } else {
        match page {
            Some(page) => letter_of(page, byte),
            None => { if byte < 128 { char::from(byte) } else { '?' } }
        }
    };
    out.push(letter)
}

/// Puts bytes of a row behind what a terminal is sent: no control byte, and each byte from 128 on as its letter in the
/// page, or as a question mark where no page is named.
pub fn put_shown(out: &mut String, page: Option<CodePage>, bytes: &[u8]) -> Result<(), AllocError>
    ensures { OnOk result (string_bytes out.new ≡ string_bytes out.old ++ flat_map (shown_letter page) bytes.now) }
{
    for byte in bytes {
        put_byte(out, page, *byte)?;
    }
    Ok(())
}
