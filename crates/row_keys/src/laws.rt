//! What follows of the lists of indexes from their definition. The function does nothing: its contract is the law.

ghost use Rattle.std.specs.Prelude.{List};
ghost use Rattle.dbf_file.specs.Rows.{Row};
ghost use Rattle.row_keys.specs.Lists.{IsIndexList};
ghost use Rattle.shape.specs.declared.parts.KeyPart.{KeyPart as ThePart};

use key_lists::laws::{changes_rows, puts_in_order};

/// The list of an index has each row once, in order; a row that is added goes in, and one that changes goes out and in
/// again.
pub fn index_lists()
    ensures { (parts : List ThePart) (rows : List Row) → IsIndexList parts rows }
{
    puts_in_order();
    changes_rows();
}
