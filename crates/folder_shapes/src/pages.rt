//! The code page that a table's header names.

ghost use Rattle.std.specs.Prelude.{◌≡◌};
ghost use Rattle.folder_shapes.specs.Pages.{page_mark};

use crate::found::FoundTable;

/// The place of the byte that names the page among the header's bytes that are kept, which begin with its byte 12.
const MARK_PLACE: usize = 17;

/// The byte 29 of a table's header, which names a code page; 0 names none.
pub fn mark_of(found: &FoundTable) -> u8
    ensures { result ≡ page_mark found.now }
{
    match found.table.structure().head().get(MARK_PLACE) {
        Some(mark) => *mark,
        None => 0,
    }
}

/// The code page that a byte names, if it is known.
pub fn page_of(mark: u8) -> Option<&'static str> {
    match mark {
        0x01 => Some("437"),
        0x02 => Some("850"),
        0x03 => Some("1252"),
        0x57 => Some("ANSI"),
        0x64 => Some("852"),
        0x65 => Some("866"),
        0x66 => Some("865"),
        0x67 => Some("861"),
        0x6a => Some("737"),
        0x6b => Some("857"),
        0xc8 => Some("1250"),
        0xc9 => Some("1251"),
        0xca => Some("1254"),
        0xcb => Some("1253"),
        _ => None,
    }
}

/// The option that reads the page which a byte names, if one does.
pub fn option_of(mark: u8) -> Option<&'static str> {
    match mark {
        0x01 => Some("--from cp437"),
        0x02 => Some("--from cp850"),
        _ => None,
    }
}
