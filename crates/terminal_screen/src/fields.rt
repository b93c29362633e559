//! Fields of the screen that wait for answers.

ghost use Rattle.std.specs.Prelude.{◌≡◌};
ghost use Rattle.terminal_screen.specs.Orders.{AreAnswered, IsAnswered, cell_under, lies_in};

/// A field of the screen: where a GET shows its value.
#[derive(Clone, Copy)]
pub struct ShownField {
    /// Its row, from 0.
    pub row: usize,
    /// Its first column, from 0.
    pub column: usize,
    /// How many columns it has.
    pub length: usize,
}

impl ShownField {
    /// Whether a place of the screen lies in it.
    pub fn has(&self, row: usize, column: usize) -> bool
        ensures { result ≡ lies_in self.now row column }
    {
        row == self.row && column >= self.column && column - self.column < self.length
    }
}

/// What a cell shows under an answer in a field of its row.
fn cell_of(field: ShownField, answer: &[u8], column: usize, cell: u8) -> u8
    ensures { result ≡ cell_under field answer.now column cell }
{
    if column < field.column || column - field.column >= field.length {
        return cell;
    }
    match answer.get(column - field.column) {
        Some(byte) => *byte,
        None => b' ',
    }
}

/// A row with an answer over one of its fields.
fn answered(field: ShownField, answer: &[u8], row: &[u8; 80]) -> [u8; 80]
    ensures { IsAnswered field answer.now row.now result }
{
    let mut over = *row;
    for column in 0..80usize {
        over[column] = cell_of(field, answer, column, row[column]);
    }
    over
}

/// Lays an answer over a field of the rows: cut at the field's end, with blanks behind it.
pub fn lay_over(rows: &mut [[u8; 80]], field: ShownField, answer: &[u8])
    ensures { AreAnswered field answer.now rows.old rows.new }
{
    let Some(row) = rows.get(field.row) else {
        return;
    };
    rows[field.row] = answered(field, answer, row);
}
