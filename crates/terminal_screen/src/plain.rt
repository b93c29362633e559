//! Rows for a terminal on which nothing is drawn.

ghost use Rattle.std.specs.Prelude.{◌≡◌, ◌++◌, ◌-◌, ◌≤◌, [], ◌∷◌, drop, false, if◌then◌else◌, length, not, take};
ghost use Rattle.std.specs.Prelude.{IfOk, OnOk, string_bytes};
ghost use Rattle.std.specs.List.{list_any, suffix_len};
ghost use Rattle.std.specs.Option.{option_copied};
ghost use Rattle.terminal_screen.specs.Orders as spec;

use crate::printable::{put_byte, put_shown};
use code_pages::CodePage;
use std::alloc::{AllocError, Global};

/// Puts a byte of rows that were sent out.
fn put_sent_byte(out: &mut String, page: Option<CodePage>, byte: u8) -> Result<(), AllocError>
    ensures { OnOk result (string_bytes out.new ≡ string_bytes out.old ++ spec.sent_letter page byte) }
{
    if byte == b'\n' {
        out.push('\n')
    } else {
        put_byte(out, page, byte)
    }
}

/// Puts the end of a row that lacks it.
fn put_end(out: &mut String, begun: bool) -> Result<(), AllocError>
    ensures { OnOk result (string_bytes out.new ≡ string_bytes out.old ++ (if begun then 10 ∷ [] else [])) }
{
    if begun {
        return out.push('\n');
    }
    Ok(())
}

/// Rows that were sent out, each with LF: for a terminal on which nothing is drawn.
pub fn sent_lines(alloc: Global, sent: &[u8], page: Option<CodePage>) -> Result<String, AllocError>
    ensures { IfOk result (λ text. string_bytes text ≡ spec.lines_shown page false sent.now) }
{
    let mut out = String::new(alloc);
    let mut begun = false;
    for byte in sent {
        put_sent_byte(&mut out, page, *byte)?;
        begun = *byte != b'\n';
    }
    put_end(&mut out, begun)?;
    Ok(out)
}

/// Whether a row isn't blank.
fn has_letter(row: &[u8]) -> bool
    ensures { result ≡ list_any (λ cell. not (spec.is_blank_cell cell)) row.now }
{
    row.iter().any(|cell| *cell != b' ')
}

/// Whether a row is another one than that before; where there was none, whether it isn't blank.
fn has_changed(before: Option<&[u8; 80]>, row: &[u8; 80]) -> bool
    ensures { result ≡ spec.has_changed (option_copied before.entry) row.now }
{
    match before {
        Some(old) => old.as_slice() != row.as_slice(),
        None => has_letter(row.as_slice()),
    }
}

/// How many blanks stand at a row's end.
fn blanks_at_end(row: &[u8]) -> usize
    ensures value { result ≡ suffix_len spec.is_blank_cell row.now }
    ensures within { result ≤ length row.now }
{
    row.iter().rev().take_while(|cell| **cell == b' ').count()
}

/// A row without the blanks at its end.
fn trimmed(row: &[u8]) -> &[u8]
    ensures { result.now ≡ take (length row.now - suffix_len spec.is_blank_cell row.now) row.now }
{
    &row[..row.len() - blanks_at_end(row)]
}

/// Puts a row without the blanks at its end, and LF.
fn put_row(out: &mut String, page: Option<CodePage>, row: &[u8]) -> Result<(), AllocError>
    ensures { OnOk result (string_bytes out.new ≡ string_bytes out.old ++ spec.changed_line page row.now) }
{
    put_shown(&mut *out, page, trimmed(row))?;
    out.push('\n')
}

/// The rows behind the first one.
fn behind_first(rows: &[[u8; 80]]) -> &[[u8; 80]]
    ensures { result.now ≡ drop 1 rows.now }
{
    &rows[1.min(rows.len())..]
}

/// Puts the rows that aren't as the rows before.
fn put_changes(
    out: &mut String,
    page: Option<CodePage>,
    before: &[[u8; 80]],
    rows: &[[u8; 80]],
) -> Result<(), AllocError>
    ensures { OnOk result (string_bytes out.new
        ≡ string_bytes out.old ++ spec.changes_shown page before.now rows.now) }
{
    let [row, others @ ..] = rows else {
        return Ok(());
    };
    if has_changed(before.first(), row) {
        put_row(&mut *out, page, row.as_slice())?;
    }
    put_changes(out, page, behind_first(before), others)
}

/// The rows that changed since others were shown, from the top, each with LF: for a terminal on which nothing is drawn.
pub fn plain_lines(
    alloc: Global,
    before: &[[u8; 80]],
    rows: &[[u8; 80]],
    page: Option<CodePage>,
) -> Result<String, AllocError>
    ensures { IfOk result (λ text. string_bytes text ≡ spec.changes_shown page before.now rows.now) }
{
    let mut out = String::new(alloc);
    put_changes(&mut out, page, before, rows)?;
    Ok(out)
}
