// What holds of the screen after every list of commands. The laws are contracts of functions that do nothing.
#![tactic(auto)]

ghost use Rattle.std.specs.Prelude.{◌≡◌, ℕ, List, ◌∷◌, ◌++◌, ◌+◌, ◌≤◌, length};
ghost use Rattle.screen_lines.specs.Roll.{Roll, on_next_line, shown_at, text_printed};
ghost use Rattle.screen_lines.specs.declared.cursor.Cursor.TheVariants.{BeforeFirst, At};
ghost use Rattle.screen_lines.specs.State.{blank_screen};
ghost use Rattle.screen_lines.specs.Commands.{screen_after, bytes_sent};
ghost use Rattle.screen_lines.specs.Shape.{IsWhole, KeepsSent, IsListing};
ghost use Rattle.screen_lines.specs.declared.commands.ScreenCommand.{ScreenCommand};

/// How a text is printed. What fits in the row is shown there as it stands. Behind column 79, and before the first row,
/// what is printed goes to the next line. A text in two parts is one part printed after the other.
pub fn print_fills_rows()
    ensures fits { (text : List ℕ) (roll : Roll) (row column : ℕ) → IsWhole roll → roll.cursor ≡ At row column
        → column + length text ≤ 80 → text_printed text roll ≡ shown_at row column text roll }
    ensures wraps { (byte : ℕ) (text : List ℕ) (roll : Roll) (row : ℕ) → IsWhole roll → roll.cursor ≡ At row 80
        → text_printed (byte ∷ text) roll ≡ text_printed (byte ∷ text) (on_next_line roll) }
    ensures begins { (byte : ℕ) (text : List ℕ) (roll : Roll) → roll.cursor ≡ BeforeFirst
        → text_printed (byte ∷ text) roll ≡ text_printed (byte ∷ text) (on_next_line roll) }
    ensures parts { (first rest : List ℕ) (roll : Roll)
        → text_printed (first ++ rest) roll ≡ text_printed rest (text_printed first roll) }
{}

/// After every list of commands 25 rows of 80 columns are seen, no control byte stands in them, and the cursor is on
/// the screen or before its first row.
pub fn screen_keeps_its_shape()
    ensures { (commands : List ScreenCommand) → IsWhole (screen_after commands blank_screen).roll }
{}

/// Whatever commands follow, the rows sent out stay as they are, and stay sent out.
pub fn screen_keeps_what_it_sent()
    ensures { (first more : List ScreenCommand)
        → KeepsSent (screen_after first blank_screen).roll (screen_after (first ++ more) blank_screen).roll }
{}

/// The bytes at the end of every list of commands are lines of at most 80 bytes, none of them a control byte, without
/// blanks at their end and with LF behind each.
pub fn screen_sends_lines()
    ensures { (commands : List ScreenCommand) → IsListing (bytes_sent commands) }
{}
