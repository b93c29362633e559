// Rows of the screen, and how they are sent.
#![tactic(auto)]

ghost use Rattle.std.specs.Prelude.{◌≡◌, ◌+◌, ◌-◌, ◌*◌, ◌≤◌, ◌++◌, length, vec_len, vec_capacity, IfOk};
ghost use Rattle.std.specs.List.{suffix_len};
ghost use Rattle.screen_lines.specs.Roll.{blank_screen_row as blank_row_of, blank_rows as blank_rows_of, row_with};
ghost use Rattle.screen_lines.specs.Roll.{shown_byte as shown_byte_of, is_blank, is_blank_row as is_blank_row_of};
ghost use Rattle.screen_lines.specs.Roll.{line_sent};
ghost use Rattle.screen_lines.specs.Roll.{lines_sent};

use std::alloc::{AllocError, Global};

pub const ROWS: usize = 25;

pub const COLUMNS: usize = 80;

/// One row of the screen.
pub type ScreenRow = [u8; COLUMNS];

const BLANK: u8 = b' ';

/// A row that shows nothing.
pub fn blank_row() -> ScreenRow
    ensures { result ≡ blank_row_of }
{
    [BLANK; COLUMNS]
}

/// As many blank rows as the screen has.
pub fn blank_rows(alloc: Global) -> Result<Vec<ScreenRow>, AllocError>
    ensures { IfOk result (λ rows. rows.items ≡ blank_rows_of) }
{
    let mut rows = Vec::with_capacity(alloc, ROWS)?;
    for _ in 0..ROWS {
        rows.push(blank_row())?;
    }
    Ok(rows)
}

/// Makes all rows of the screen blank.
pub fn blank_out(rows: &mut [ScreenRow])
    requires { length rows.old ≡ 25 }
    ensures { rows.new ≡ blank_rows_of }
{
    for row in rows.iter_mut() {
        *row = blank_row();
    }
}

/// What a byte shows as: a control byte as a blank.
pub fn shown_byte(byte: u8) -> u8
    ensures { result ≡ shown_byte_of byte }
{
    if byte < 32 || byte == 127 {
        BLANK
    } else {
        byte
    }
}

/// Shows a text in a row from a column on, and cuts it at column 80.
pub fn show_in_row(row: &mut [u8], column: usize, text: &[u8])
    requires wide { length row.old ≡ 80 }
    requires inside { column ≤ 80 }
    ensures { row.new ≡ row_with column text.now row.old }
{
    let cut = text.len().min(COLUMNS - column);
    for (offset, byte) in text[..cut].iter().enumerate() {
        row[column + offset] = shown_byte(*byte);
    }
}

/// How many bytes of a row come before the blanks at its end.
pub fn used_columns(row: &[u8]) -> usize
    ensures { result ≡ length row.now - suffix_len is_blank row.now }
{
    let mut used = row.len();
    while used > 0 && row[used - 1] == BLANK {
        used -= 1;
    }
    used
}

/// Whether a row shows nothing.
pub fn is_blank_row(row: &[u8]) -> bool
    ensures { result ≡ is_blank_row_of row.now }
{
    row.iter().all(|byte| *byte == BLANK)
}

/// How many rows come before the blank rows at the end.
pub fn used_rows(rows: &[ScreenRow]) -> usize
    ensures { result ≡ length rows.now - suffix_len is_blank_row_of rows.now }
{
    let mut used = rows.len();
    while used > 0 && is_blank_row(&rows[used - 1]) {
        used -= 1;
    }
    used
}

/// Sends a row, for which there is room: it takes no memory.
pub fn send_row(sent: &mut Vec<u8>, row: &[u8])
    requires wide { length row.now ≤ 80 }
    requires room { vec_len sent.old + 81 ≤ vec_capacity sent.old }
    ensures items { sent.new.items ≡ sent.old.items ++ line_sent row.now }
    ensures len { vec_len sent.new ≤ vec_len sent.old + 81 }
    ensures capacity { vec_capacity sent.old ≤ vec_capacity sent.new }
{
    match sent.extend_from_slice(&row[..used_columns(row)]) {
        Ok(()) => {}
        Err(_) => unreachable!(),
    }
    match sent.push(b'\n') {
        Ok(()) => {}
        Err(_) => unreachable!(),
    }
}

/// Sends rows, for which there is room: it takes no memory.
pub fn send_rows(sent: &mut Vec<u8>, rows: &[ScreenRow])
    requires { vec_len sent.old + 81 * length rows.now ≤ vec_capacity sent.old }
    ensures items { sent.new.items ≡ sent.old.items ++ lines_sent rows.now }
    ensures len { vec_len sent.new ≤ vec_len sent.old + 81 * length rows.now }
    ensures capacity { vec_capacity sent.old ≤ vec_capacity sent.new }
{
    for row in rows {
        send_row(sent, row);
    }
}
