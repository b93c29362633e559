//! Lists of indexes by number.

ghost use Rattle.std.specs.Prelude.{◌≡◌};
ghost use Rattle.prg_code.specs.Parts.{indexes_opened as indexes_opened_by};

use crate::numbering::Numbering;
use arrayvec::ArrayVec;

/// The numbers of the indexes of a list, in their order.
pub type ListedIndexes = ArrayVec<u8, 7>;

/// The most lists that a code may have.
const MOST_LISTS: u16 = 64;

/// Lists of indexes, numbered from 0 at their first use. Instructions count them from 1.
pub type Lists = Numbering<ListedIndexes, MOST_LISTS>;

/// How many indexes the list opens that instructions name by this number; none where there is no such list.
pub fn indexes_opened(lists: &Lists, number: u32) -> usize
    ensures { result ≡ indexes_opened_by lists.now number }
{
    if number < 1 {
        return 0;
    }
    match lists.as_slice().get(number as usize - 1) {
        Some(list) => list.len(),
        None => 0,
    }
}
