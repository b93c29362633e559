//! What follows from the definitions of index files. Each function does nothing: its contract is the law, which a
//! caller gets by the call.

ghost use Rattle.ndx_tree.specs.IndexText.{HoldsOneList};

use ndx_page::laws::{heads_are_told, pages_are_told};

/// Bytes that are an index file hold one list alone, whose keys have one form.
pub fn holds_one_list()
    ensures { HoldsOneList }
{
    pages_are_told();
    heads_are_told();
}
