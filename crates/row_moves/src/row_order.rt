//! Rows in an order, whatever keeps it.

ghost use Rattle.std.specs.Prelude.{◌≡◌, None, Some, length, option_map};
ghost use Rattle.key_lists.specs.Order.{IsAscending, first};
ghost use Rattle.key_lists.specs.Pairs.{Pair, is_before};
ghost use Rattle.key_lists.specs.SortedList.{SortedList};
ghost use Rattle.row_moves.specs.Orders.{candidates};

use key_lists::{Entry, KeyList};

/// Rows in an order.
pub trait RowOrder {
    /// Where a row stands: what a move needs to go on from it.
    type Place: Drop;

    /// The rows' pairs, in order, and what else callers see of a list of keys.
    ghost list: { Self → SortedList };

    /// The pair that stands at a place.
    ghost pair: { Self.Place → Pair };

    /// How many rows there are. Their order is strict.
    fn row_count(&self) -> usize
        ensures count { result ≡ length (list self.now).pairs }
        ensures ordered { IsAscending is_before (list self.now).pairs };

    /// The record of the row at a place.
    fn number(at: &Self::Place) -> u32
        ensures { result ≡ (pair at.now).1 };

    /// The first row forward from the start, or back from the end.
    fn outermost(&mut self, forward: bool) -> Option<Self::Place>
        ensures found { option_map pair result ≡ first (candidates forward None (list self.old).pairs) }
        ensures same { list self.new ≡ list self.old };

    /// The nearest row in a direction from a place, at which no row need stand.
    fn next(&mut self, forward: bool, at: &Self::Place) -> Option<Self::Place>
        ensures found { option_map pair result ≡ first (candidates forward (Some (pair at.now)) (list self.old).pairs) }
        ensures same { list self.new ≡ list self.old };
}

impl<K: KeyList> RowOrder for K {
    type Place = Entry;

    ghost list = { λ k. record { pairs = K.pairs k; spare = K.spare k; form = K.form k } };

    ghost pair = { λ entry. entry };

    fn row_count(&self) -> usize {
        self.len()
    }

    fn number(at: &Entry) -> u32 {
        at.number()
    }

    fn outermost(&mut self, forward: bool) -> Option<Entry> {
        if forward { self.first() } else { self.last() }
    }

    fn next(&mut self, forward: bool, at: &Entry) -> Option<Entry> {
        if forward {
            self.after(at.key(), at.number())
        } else {
            self.before(at.key(), at.number())
        }
    }
}
