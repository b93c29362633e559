//! What a terminal is sent to show rows.

ghost use Rattle.std.specs.Prelude.{◌≡◌, ◌+◌, ◌≤◌, ◌++◌, ◌&&◌, [], true, false};
ghost use Rattle.std.specs.Prelude.{IfOk, OnOk, drop, if◌then◌else◌, length, nat_le, string_bytes};
ghost use Rattle.terminal_screen.specs.Orders as spec;
ghost use Rattle.terminal_screen.specs.Printable.{shown_letter};

use crate::fields::ShownField;
use crate::printable::{put_byte, put_shown};
use code_pages::CodePage;
use std::alloc::{AllocError, Global};

/// The size of a terminal's window.
#[derive(Clone, Copy)]
pub struct Window {
    pub rows: usize,
    pub columns: usize,
}

/// The rows of a screen.
const ROWS: usize = 25;

/// A line of which each terminal makes its window's last one.
const BELOW_ALL: usize = 998;

impl Window {
    /// Whether a screen's rows can be drawn in it: 24 rows of 80 columns at least.
    pub fn fits(self) -> bool
        ensures { result ≡ (nat_le 24 self.rows && nat_le 80 self.columns) }
    {
        self.rows >= ROWS - 1 && self.columns >= 80
    }
}

/// What is to be drawn: rows as they stand, the fields that wait, and where the cursor is to stand.
#[derive(Clone, Copy)]
pub struct Drawing<'a> {
    /// The rows that were sent out since the last drawing, each with LF. They go to the terminal's scrollback.
    pub sent: &'a [u8],
    pub rows: &'a [[u8; 80]],
    pub fields: &'a [ShownField],
    /// Row and column of the cursor.
    pub cursor: (usize, usize),
    pub window: Window,
    /// What bytes from 128 on stand for.
    pub page: Option<CodePage>,
    /// A line below the rows, in the page. It is cut where it is longer than a line of the window.
    pub note: &'a [u8],
}

/// Whether a place of the screen is in a field that waits.
fn is_marked(fields: &[ShownField], row: usize, column: usize) -> bool
    ensures { result ≡ spec.is_waiting fields.now row column }
{
    fields.iter().any(|field| field.has(row, column))
}

/// How many of these cells of a row, which begin at this column, are drawn: those up to the last byte that isn't blank,
/// and up to the end of the last field.
fn used(cells: &[u8], fields: &[ShownField], number: usize, column: usize) -> usize
    requires { column + length cells.now ≤ 80 }
    ensures value { result ≡ spec.drawn_cells fields.now number column cells.now }
    ensures within { result ≤ length cells.now }
{
    let [byte, others @ ..] = cells else {
        return 0;
    };
    let more = used(others, fields, number, column + 1);
    let marked = is_marked(fields, number, column);
    let drawn = more > 0 || *byte != b' ' || marked;
    if drawn { more + 1 } else { 0 }
}

/// Puts what makes letters those of a field, or others, behind one that is or isn't.
fn put_turn(out: &mut String, before: bool, is: bool) -> Result<(), AllocError>
    ensures { OnOk result (string_bytes out.new ≡ string_bytes out.old ++ spec.turn_order before is) }
{
    match (before, is) {
        (false, true) => out.push_str("\x1b[7m"),
        (true, false) => out.push_str("\x1b[0m"),
        (false, false) | (true, true) => Ok(()),
    }
}

/// Puts a cell behind one that is in a field or isn't.
fn put_cell(
    out: &mut String,
    page: Option<CodePage>,
    before: bool,
    is: bool,
    cell: u8,
) -> Result<(), AllocError>
    ensures { OnOk result (string_bytes out.new
        ≡ string_bytes out.old ++ (spec.turn_order before is ++ shown_letter page cell)) }
{
    put_turn(&mut *out, before, is)?;
    put_byte(out, page, cell)
}

/// Puts the cells of a row, with fields in reverse.
fn put_cells(
    out: &mut String,
    page: Option<CodePage>,
    fields: &[ShownField],
    number: usize,
    cells: &[u8],
) -> Result<(), AllocError>
    ensures { OnOk result (string_bytes out.new
        ≡ string_bytes out.old ++ spec.cells_shown page fields.now number false 0 cells.now) }
{
    let mut marked = false;
    for (column, cell) in cells.iter().enumerate() {
        let is = is_marked(fields, number, column);
        put_cell(&mut *out, page, marked, is, *cell)?;
        marked = is;
    }
    put_turn(out, marked, false)
}

/// Puts the cells of a row that are drawn.
#[tactic(auto, unfolding(crate::specs::Orders::row_shown))]
fn put_cells_used(
    out: &mut String,
    drawing: &Drawing<'_>,
    number: usize,
    row: &[u8; 80],
) -> Result<(), AllocError>
    ensures { OnOk result (string_bytes out.new
        ≡ string_bytes out.old ++ spec.row_shown drawing.now.page drawing.now.fields.now number row.now) }
{
    let count = used(row, drawing.fields, number, 0);
    put_cells(out, drawing.page, drawing.fields, number, &row[..count])
}

/// The first row that is drawn, so that a line of the window is left below the cursor's: Enter there moves no row out
/// of the window.
fn first_row(drawing: &Drawing<'_>) -> usize
    ensures below { 2 ≤ drawing.now.window.rows → drawing.now.cursor.0 + 2 ≤ result + drawing.now.window.rows }
    ensures least { drawing.now.cursor.0 + 2 ≤ drawing.now.window.rows → result ≡ 0 }
    ensures drawn { 2 ≤ drawing.now.window.rows → result ≤ drawing.now.cursor.0 }
    ensures value { result ≡ spec.first_drawn drawing.now }
{
    let last = drawing.window.rows.saturating_sub(2);
    drawing.cursor.0.saturating_sub(last)
}

/// The line of the window in which the note stands: below the rows, or over the last one where no line is left below
/// them.
fn note_line(window: Window) -> usize
    ensures { result ≡ spec.note_line window }
{
    window.rows.saturating_sub(1).min(ROWS)
}

/// Puts the order that moves the cursor to a place of the window, counted from 0. Where the window has become smaller,
/// a line below its last one is its last one.
#[tactic(auto, unfolding(crate::specs::Orders::cursor_order))]
fn put_cursor(alloc: Global, out: &mut String, line: usize, column: usize) -> Result<(), AllocError>
    ensures { OnOk result (string_bytes out.new ≡ string_bytes out.old ++ spec.cursor_order line column) }
{
    let (line, column) = (line.saturating_add(1), column.saturating_add(1));
    let order = format!(in alloc; "\x1b[{line};{column}H")?;
    out.push_str(order.as_str())
}

/// Puts the orders that go to a line of the window and clear it. It is cleared before anything is written: a terminal
/// that wraps late is still in the last column behind a full line, and would clear that.
#[tactic(auto, unfolding(crate::specs::Orders::line_order))]
fn put_line(alloc: Global, out: &mut String, line: usize) -> Result<(), AllocError>
    ensures { OnOk result (string_bytes out.new ≡ string_bytes out.old ++ spec.line_order line) }
{
    put_cursor(alloc, &mut *out, line, 0)?;
    out.push_str("\x1b[2K")
}

/// Ends the last line of the window, wherever that is by now: all lines move up.
#[tactic(auto, unfolding(crate::specs::Orders::scroll_order))]
fn put_scroll(alloc: Global, out: &mut String) -> Result<(), AllocError>
    ensures { OnOk result (string_bytes out.new ≡ string_bytes out.old ++ spec.scroll_order) }
{
    put_cursor(alloc, &mut *out, BELOW_ALL, 0)?;
    out.push('\n')
}

/// Puts a byte of rows that were sent out. Where it begins a row, the row goes to the window's first line.
#[tactic(auto, unfolding(crate::specs::Orders::scrolled_letter))]
fn put_sent_byte(
    alloc: Global,
    out: &mut String,
    page: Option<CodePage>,
    fresh: bool,
    byte: u8,
) -> Result<(), AllocError>
    ensures { OnOk result (string_bytes out.new ≡ string_bytes out.old ++ spec.scrolled_letter page fresh byte) }
{
    if fresh {
        put_line(alloc, &mut *out, 0)?;
    }
    if byte == b'\n' {
        put_scroll(alloc, out)
    } else {
        put_byte(out, page, byte)
    }
}

/// Ends the window's last line where a row that was sent out lacks its end.
fn put_last_scroll(alloc: Global, out: &mut String, fresh: bool) -> Result<(), AllocError>
    ensures { OnOk result (string_bytes out.new
        ≡ string_bytes out.old ++ (if fresh then [] else spec.scroll_order)) }
{
    if fresh {
        return Ok(());
    }
    put_scroll(alloc, out)
}

/// Puts the rows that were sent out: each in the window's first line, from which it leaves the window upwards when the
/// last line of the window is ended.
fn put_sent(
    alloc: Global,
    out: &mut String,
    page: Option<CodePage>,
    sent: &[u8],
) -> Result<(), AllocError>
    ensures { OnOk result (string_bytes out.new ≡ string_bytes out.old ++ spec.rows_scrolled page true sent.now) }
{
    let mut fresh = true;
    for byte in sent {
        put_sent_byte(alloc, &mut *out, page, fresh, *byte)?;
        fresh = *byte == b'\n';
    }
    put_last_scroll(alloc, out, fresh)
}

/// The rows from the first one on that is drawn.
fn from_row<'a>(rows: &'a [[u8; 80]], first: usize) -> &'a [[u8; 80]]
    ensures { result.now ≡ drop first rows.now }
{
    &rows[first.min(rows.len())..]
}

/// Puts a row in its line of the window, if there is such a row.
#[tactic(auto, unfolding(crate::specs::Orders::line_drawn))]
fn put_row(
    alloc: Global,
    out: &mut String,
    drawing: &Drawing<'_>,
    first: usize,
    line: usize,
) -> Result<(), AllocError>
    ensures { OnOk result (string_bytes out.new ≡ string_bytes out.old ++ spec.line_drawn drawing.now first line) }
{
    put_line(alloc, &mut *out, line)?;
    match from_row(drawing.rows, first).get(line) {
        Some(row) => put_cells_used(out, drawing, first + line, row),
        None => Ok(()),
    }
}

/// Puts so many lines from the window's first one on. The last one comes first: where the window has become smaller, so
/// that lines lie on one another, the row that belongs in its last line is what stays.
fn put_rows(
    alloc: Global,
    out: &mut String,
    drawing: &Drawing<'_>,
    first: usize,
    lines: usize,
) -> Result<(), AllocError>
    ensures { OnOk result (string_bytes out.new ≡ string_bytes out.old ++ spec.lines_drawn drawing.now first lines) }
{
    let mut left = lines;
    while left > 0 {
        left -= 1;
        put_row(alloc, &mut *out, drawing, first, left)?;
    }
    Ok(())
}

/// Puts the rows from the first one that is drawn on, and clears what is below.
#[tactic(auto, unfolding(crate::specs::Orders::window_drawn))]
fn put_window(
    alloc: Global,
    out: &mut String,
    drawing: &Drawing<'_>,
    first: usize,
) -> Result<(), AllocError>
    ensures { OnOk result (string_bytes out.new ≡ string_bytes out.old ++ spec.window_drawn drawing.now first) }
{
    let lines = drawing.window.rows.min(ROWS + 1);
    put_cursor(alloc, &mut *out, lines, 0)?;
    out.push_str("\x1b[J")?;
    put_rows(alloc, out, drawing, first, lines)
}

/// Puts the note, if there is one, cut so that it doesn't come to the end of its line.
#[tactic(auto, unfolding(crate::specs::Orders::note_drawn))]
fn put_note(alloc: Global, out: &mut String, drawing: &Drawing<'_>) -> Result<(), AllocError>
    ensures { OnOk result (string_bytes out.new ≡ string_bytes out.old ++ spec.note_drawn drawing.now) }
{
    if drawing.note.is_empty() {
        return Ok(());
    }
    let most = drawing.window.columns.saturating_sub(1);
    put_line(alloc, &mut *out, note_line(drawing.window))?;
    put_shown(
        &mut *out,
        drawing.page,
        &drawing.note[..most.min(drawing.note.len())],
    )
}

/// What a terminal is sent to show the rows as they stand, at the top of its window. Rows that were sent out since the
/// last drawing scroll out of it into the terminal's scrollback, and no others do: the cursor's line isn't the window's
/// last one. The cursor's row is put last, so that it stands under the cursor in a window of any size. Meanwhile no
/// line wraps: in a window that has become narrower, a row's end lies in its own line's last column.
#[tactic(auto, unfolding(crate::specs::Orders::drawing_text))]
pub fn drawn(alloc: Global, drawing: &Drawing<'_>) -> Result<String, AllocError>
    ensures { IfOk result (λ text. string_bytes text ≡ spec.drawing_text drawing.now) }
{
    let mut out = String::new(alloc);
    let first = first_row(drawing);
    let (row, column) = drawing.cursor;
    let line = row.saturating_sub(first);
    out.push_str("\x1b[?7l\x1b[0m\x1b[H")?;
    put_sent(alloc, &mut out, drawing.page, drawing.sent)?;
    put_window(alloc, &mut out, drawing, first)?;
    put_note(alloc, &mut out, drawing)?;
    put_row(alloc, &mut out, drawing, first, line)?;
    put_cursor(alloc, &mut out, line, column.min(79))?;
    out.push_str("\x1b[?7h")?;
    Ok(out)
}

/// What a terminal is sent where nothing more is drawn: the note's line is cleared, and the cursor stands in it.
pub fn left(alloc: Global, window: Window) -> Result<String, AllocError>
    ensures { IfOk result (λ text. string_bytes text ≡ spec.usual_order ++ spec.line_order (spec.note_line window)) }
{
    let mut out = String::new(alloc);
    out.push_str("\x1b[0m")?;
    put_line(alloc, &mut out, note_line(window))?;
    Ok(out)
}
