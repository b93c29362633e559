// What is kept of the screen: the rows that are seen and the bytes that were sent.
#![tactic(auto)]

ghost use Rattle.std.specs.Prelude.{◌≡◌, ◌+◌, ◌<◌, ◌≤◌, length};
ghost use Rattle.screen_lines.specs.Roll.{scrolled, on_next_line as next_line_of, shown_at, byte_printed_from};
ghost use Rattle.screen_lines.specs.Roll.{text_printed, text_said, text_said_on, roll_cleared};

use crate::cursor::Cursor;
use crate::rows::{
    COLUMNS, ROWS, ScreenRow, blank_out, blank_row, send_row, send_rows, show_in_row, used_rows,
};

/// The 25 rows seen, the bytes of the rows sent before them, and the cursor.
#[derive(Drop)]
pub struct Display {
    pub sent: Vec<u8>,
    pub rows: Vec<ScreenRow>,
    pub cursor: Cursor,
}

impl Display {
    ghost use Rattle.screen_lines.specs.Kept.{roll_of, IsKeptDisplay, lines_free, cells_free};

    /// Sends the top row; the others move up, and a blank row begins.
    fn scroll(&mut self)
        requires kept { IsKeptDisplay self.old }
        requires room { 0 < lines_free self.old }
        ensures kept { IsKeptDisplay self.new }
        ensures roll { roll_of self.new ≡ scrolled (roll_of self.old) }
        ensures room { lines_free self.old ≤ lines_free self.new + 1 }
    {
        send_row(&mut self.sent, &self.rows[0]);
        self.rows.rotate_left(1);
        self.rows[ROWS - 1] = blank_row();
    }

    /// Goes to column 0 of the next row.
    #[tactic(auto, unfolding(crate::specs::Roll::on_next_line))]
    pub fn next_line(&mut self)
        requires kept { IsKeptDisplay self.old }
        requires room { 0 < lines_free self.old }
        ensures kept { IsKeptDisplay self.new }
        ensures roll { roll_of self.new ≡ next_line_of (roll_of self.old) }
        ensures room { lines_free self.old ≤ lines_free self.new + 1 }
    {
        match self.cursor {
            Cursor::BeforeFirst => self.cursor = Cursor::At { row: 0, column: 0 },
            Cursor::At { row, .. } if row + 1 < ROWS => {
                self.cursor = Cursor::At {
                    row: row + 1,
                    column: 0,
                }
            }
            Cursor::At { row, .. } => {
                self.scroll();
                self.cursor = Cursor::At { row, column: 0 };
            }
        }
    }

    /// Shows a text from a row and column on, and puts the cursor behind it.
    pub fn show(&mut self, row: usize, column: usize, text: &[u8])
        requires kept { IsKeptDisplay self.old }
        requires row { row < 25 }
        requires column { column < 80 }
        ensures kept { IsKeptDisplay self.new }
        ensures roll { roll_of self.new ≡ shown_at row column text.now (roll_of self.old) }
        ensures room { lines_free self.new ≡ lines_free self.old }
    {
        show_in_row(&mut self.rows[row], column, text);
        let end = COLUMNS.min(column.saturating_add(text.len()));
        self.cursor = Cursor::At { row, column: end };
    }

    /// Prints a byte at the cursor.
    fn print_byte(&mut self, byte: u8)
        requires kept { IsKeptDisplay self.old }
        requires room { 0 < cells_free self.old }
        ensures kept { IsKeptDisplay self.new }
        ensures roll { roll_of self.new ≡ byte_printed_from self.old.cursor byte (roll_of self.old) }
        ensures room { cells_free self.old ≤ cells_free self.new + 1 }
    {
        match self.cursor {
            Cursor::BeforeFirst => {
                self.next_line();
                self.show(0, 0, &[byte]);
            }
            Cursor::At { row, column } if column < COLUMNS => self.show(row, column, &[byte]),
            Cursor::At { row, .. } => {
                self.next_line();
                self.show((row + 1).min(ROWS - 1), 0, &[byte]);
            }
        }
    }

    /// Prints a text at the cursor.
    #[tactic(auto, unfolding(crate::specs::Roll::text_printed))]
    pub fn print(&mut self, text: &[u8])
        requires kept { IsKeptDisplay self.old }
        requires room { length text.now ≤ cells_free self.old }
        ensures kept { IsKeptDisplay self.new }
        ensures roll { roll_of self.new ≡ text_printed text.now (roll_of self.old) }
    {
        for byte in text {
            self.print_byte(*byte);
        }
    }

    /// Shows a text from a row and column that lie on the screen; elsewhere nothing happens.
    #[tactic(auto, unfolding(crate::specs::Roll::text_said))]
    pub fn say(&mut self, row: i128, column: i128, text: &[u8])
        requires { IsKeptDisplay self.old }
        ensures kept { IsKeptDisplay self.new }
        ensures roll { roll_of self.new ≡ text_said row column text.now (roll_of self.old) }
        ensures room { lines_free self.new ≡ lines_free self.old }
    {
        match (usize::try_from(row), usize::try_from(column)) {
            (Ok(row), Ok(column)) if row < ROWS && column < COLUMNS => self.show(row, column, text),
            _ => {}
        }
    }

    /// Shows a text from one column after the cursor on, where that lies on the screen.
    #[tactic(auto, unfolding(crate::specs::Roll::text_said_on))]
    pub fn say_on(&mut self, text: &[u8])
        requires { IsKeptDisplay self.old }
        ensures kept { IsKeptDisplay self.new }
        ensures roll { roll_of self.new ≡ text_said_on text.now (roll_of self.old) }
        ensures room { lines_free self.new ≡ lines_free self.old }
    {
        match self.cursor {
            Cursor::At { row, column } if column + 1 < COLUMNS => self.show(row, column + 1, text),
            _ => {}
        }
    }

    /// Sends the rows up to the last that isn't blank, and begins 25 blank ones.
    pub fn clear(&mut self)
        requires kept { IsKeptDisplay self.old }
        requires room { 25 ≤ lines_free self.old }
        ensures kept { IsKeptDisplay self.new }
        ensures roll { roll_of self.new ≡ roll_cleared (roll_of self.old) }
        ensures room { lines_free self.old ≤ lines_free self.new + 25 }
    {
        let rows = self.rows.as_slice();
        send_rows(&mut self.sent, &rows[..used_rows(rows)]);
        blank_out(&mut self.rows);
        self.cursor = Cursor::BeforeFirst;
    }
}
