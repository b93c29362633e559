// How often the test of rows is asked: no call asks it for more rows than it costs, or, where it is refused, than the
// budget would have paid.

use crate::areas::made::{plain_store, shape_of};
use crate::areas::play::{Shows, answer_of, call_of, play};
use ndx_tree::NdxTree;
use std::alloc::{AllocError, Global};
use std::cell::Cell;
use std::test::Fail;
use work_area::Store;

/// Over twenty records: calls whose cost counts records, and APPEND, behind which a closed index is stale; with the
/// budget of each, what it answers, and how often the test is asked.
const ASKED: &str = "\
use 0|1|spent|0
use 0|2|cost 2|1
reindex|2|cost 2|1
index 0|20|spent|0
index 0|21|spent|20
index 0|22|cost 22|20
index 0|22|cost 22|1
use 0 0|2|cost 2|1
reindex|21|spent|0
reindex|22|cost 22|1
pack|20|spent|0
pack|40|spent|0
pack|42|cost 42|20
use 0|2|cost 2|1
append|1|done|0
use 0 0|21|spent|0
";

fn is_row(store: &mut Store<NdxTree>, alloc: Global, row: &str) -> bool {
    let mut fields = row.split('|');
    let Some(call) = call_of(fields.next().unwrap_or("")) else {
        return false;
    };
    let budget = fields.next().unwrap_or("").parse().unwrap_or(0);
    let answer = answer_of(fields.next().unwrap_or(""));
    let times = fields.next().unwrap_or("").parse().unwrap_or(0u32);
    let count = Cell::new(0);
    play(store, alloc, call, Shows::Counted(&count), budget) == answer && count.get() == times
}

/// The first row that isn't so.
fn first_wrong<'a>(alloc: Global, rows: &'a str) -> Result<Option<&'a str>, AllocError> {
    let shape = shape_of(alloc, 1, 1, "-")?;
    let texts = "A,A,A,A,A,A,A,A,A,A,A,A,A,A,A,A,A,A,A,A,";
    let Some(mut store) = plain_store::<NdxTree>(alloc, &shape, 1, texts, 30)? else {
        return Ok(Some("no store"));
    };
    for row in rows.lines() {
        if !is_row(&mut store, alloc, row) {
            return Ok(Some(row));
        }
    }
    Ok(None)
}

#[test]
fn the_budget_bounds_what_is_asked(rt: HostRuntime) -> Result<(), Fail> {
    assert_eq!(rt; first_wrong(rt.alloc(), ASKED)?, None);
    Ok(())
}
