//! A table's file listed.

ghost use Rattle.std.specs.Prelude.{IfOk, IfErr};
ghost use Rattle.file_access.specs.Holding.{SameFiles};
ghost use Rattle.file_commands.specs.Refusals.{RefusalIs, TableFault};
ghost use Rattle.file_commands.specs.Reports.{TableListed};
ghost use Rattle.table_csv.specs.Cells.{csv_text};

use crate::writing::csv_of;
use file_access::Files;
use file_commands::{Refusal, read_table};
use std::alloc::Global;

/// The table in a file, of at most a million rows, as comma-separated values: a line of names, and a line for each row.
pub fn list_csv<'a, F: Files>(
    alloc: Global,
    files: &mut F,
    name: &'a str,
) -> Result<Vec<u8>, Refusal<'a>>
    ensures listed { IfOk result (λ text. TableListed csv_text (F.holds files.old name.now) text.items) }
    ensures refused { IfErr result (RefusalIs (TableFault (F.holds files.old name.now)) (F.failed files.old)
        (F.failed files.new) name.now) }
    ensures kept { SameFiles (F.holds files.old) (F.holds files.new) }
{
    let table = read_table(alloc, files, name)?;
    match csv_of(alloc, &table) {
        Ok(text) => Ok(text),
        Err(_) => Err(Refusal::Memory),
    }
}
