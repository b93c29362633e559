// The screen.
#![tactic(auto)]

ghost use Rattle.std.specs.Prelude.{◌≡◌, IsTrue, IfOk, OnOk, OnErr, drop, take};
ghost use Rattle.screen_lines.specs.State.{blank_screen, reserved_screen, new_line as new_line_of, printed, said};
ghost use Rattle.screen_lines.specs.State.{said_on, cleared, sent};
ghost use Rattle.screen_lines.specs.Roll.{lines_sent};

use crate::cursor::Cursor;
use crate::display::Display;
use crate::rows::{ROWS, ScreenRow, blank_rows, send_rows, used_rows};
use std::alloc::{AllocError, Global};
use std::marker::Model;
use xvalue::Text;

// The most bytes that a row takes when it is sent, with its LF.
const LINE_BYTES: usize = 81;

// A print of 254 bytes begins four new lines at most.
const PRINT_BYTES: usize = 4 * LINE_BYTES;

// All rows of the screen, sent.
const CLEAR_BYTES: usize = ROWS * LINE_BYTES;

/// The screen: 25 rows of 80 columns, the cursor, and the bytes of the rows sent.
#[derive(Drop)]
pub struct Screen {
    display: Display,
    reserved: bool,
}

impl Model for Screen {
    ghost use Rattle.std.specs.Prelude.{◌≤◌, IsTrue};
    ghost use Rattle.screen_lines.specs.State.{ScreenState};
    ghost use Rattle.screen_lines.specs.Kept.{roll_of, IsKeptDisplay, lines_free};

    ghost Value = { ScreenState };

    ghost view = { λ s. record { roll = roll_of s.display; reserved = s.reserved } };

    ghost invariant = { λ s. IsKeptDisplay s.display × (IsTrue s.reserved → 4 ≤ lines_free s.display) };
}

impl Screen {
    /// A screen of blank rows, with the cursor before the first row.
    pub fn new(alloc: Global) -> Result<Screen, AllocError>
        ensures { IfOk result (λ screen. screen ≡ blank_screen) }
    {
        let display = Display {
            sent: Vec::new(alloc),
            rows: blank_rows(alloc)?,
            cursor: Cursor::BeforeFirst,
        };
        Ok(Screen {
            display,
            reserved: false,
        })
    }

    /// Takes the memory that one new line or one print may need, wraps and rows that scroll out counted in. Where it
    /// is refused the screen is as it was.
    pub fn reserve(&mut self) -> Result<(), AllocError>
        ensures ok { OnOk result (self.new ≡ reserved_screen self.old) }
        ensures err { OnErr result (self.new ≡ self.old) }
    {
        self.display.sent.reserve(PRINT_BYTES)?;
        self.reserved = true;
        Ok(())
    }

    /// Goes to column 0 of the next row; below the last row the top row is sent and all move up. It takes no memory
    /// and uses up the reservation.
    pub fn new_line(&mut self)
        requires { IsTrue self.old.reserved }
        ensures { self.new ≡ new_line_of self.old }
    {
        self.display.next_line();
        self.reserved = false;
    }

    /// Prints a text at the cursor. It takes no memory and uses up the reservation.
    pub fn print(&mut self, text: &Text)
        requires { IsTrue self.old.reserved }
        ensures { self.new ≡ printed text.now.items self.old }
    {
        self.display.print(text.as_slice());
        self.reserved = false;
    }

    /// Reserves, then begins a new line. Where memory is refused the screen is as it was.
    pub fn try_new_line(&mut self) -> Result<(), AllocError>
        ensures ok { OnOk result (self.new ≡ new_line_of self.old) }
        ensures err { OnErr result (self.new ≡ self.old) }
    {
        self.reserve()?;
        self.new_line();
        Ok(())
    }

    /// Reserves, then prints. Where memory is refused the screen is as it was.
    pub fn try_print(&mut self, text: &Text) -> Result<(), AllocError>
        ensures ok { OnOk result (self.new ≡ printed text.now.items self.old) }
        ensures err { OnErr result (self.new ≡ self.old) }
    {
        self.reserve()?;
        self.print(text);
        Ok(())
    }

    /// Shows a text from a row and column on, cut at column 80, and leaves the cursor behind it. A control byte shows
    /// as a blank. Outside rows 0 to 24 and columns 0 to 79 nothing happens. It takes no memory.
    pub fn say(&mut self, row: i128, column: i128, text: &Text)
        ensures { self.new ≡ said row column text.now.items self.old }
    {
        self.display.say(row, column, text.as_slice());
    }

    /// Shows a text from one column after the cursor on, as `say` does. Where that column is past 79, or the cursor
    /// is before the first row, nothing happens. It takes no memory.
    pub fn say_on(&mut self, text: &Text)
        ensures { self.new ≡ said_on text.now.items self.old }
    {
        self.display.say_on(text.as_slice());
    }

    /// Sends the rows up to the last that isn't blank and begins 25 blank ones, with the cursor before the first.
    /// Where memory is refused the screen is as it was.
    pub fn clear(&mut self) -> Result<(), AllocError>
        ensures ok { OnOk result (self.new ≡ cleared self.old) }
        ensures err { OnErr result (self.new ≡ self.old) }
    {
        self.display.sent.reserve(CLEAR_BYTES + PRINT_BYTES)?;
        self.display.clear();
        Ok(())
    }

    /// The bytes sent in all if the run ends here: those sent so far, then the rows up to the last that isn't blank.
    #[tactic(auto, unfolding(crate::specs::Roll::roll_sent, crate::specs::Roll::roll_cleared))]
    pub fn finish(&self, alloc: Global) -> Result<Vec<u8>, AllocError>
        ensures { IfOk result (λ bytes. bytes.items ≡ sent self.now) }
    {
        let rows = self.display.rows.as_slice();
        let rows = &rows[..used_rows(rows)];
        let mut bytes = Vec::from_slice(alloc, self.display.sent.as_slice())?;
        bytes.reserve(LINE_BYTES * rows.len())?;
        send_rows(&mut bytes, rows);
        Ok(bytes)
    }

    /// The 25 rows that are seen, from the top, of 80 bytes each.
    pub fn rows(&self) -> &[ScreenRow]
        ensures { result.now ≡ drop self.now.roll.base self.now.roll.rows }
    {
        self.display.rows.as_slice()
    }

    /// Where the next byte goes.
    pub fn cursor(&self) -> Cursor
        ensures { result ≡ self.now.roll.cursor }
    {
        self.display.cursor
    }

    /// The bytes of the rows that were sent so far, each without the blanks at its end and with LF. Those that are seen
    /// aren't among them.
    pub fn sent(&self) -> &[u8]
        ensures { result.now ≡ lines_sent (take self.now.roll.base self.now.roll.rows) }
    {
        self.display.sent.as_slice()
    }
}
