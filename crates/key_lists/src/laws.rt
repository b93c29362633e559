//! What follows from the definitions of lists in order. Each function does nothing: its contract is the law, which a
//! caller gets by the call.

ghost use Rattle.std.specs.Prelude.{List};
ghost use Rattle.key_lists.specs.Order.{IsAscending};
ghost use Rattle.key_lists.specs.Pairs.{Pair, is_before};
ghost use Rattle.key_lists.specs.Laws.{OrdersPairs, FindsNearest, MeetsEach, ChangesOne, PutsInOrder, ChangesRows};
ghost use Rattle.key_lists.specs.Laws.{StandTogether};

/// Pairs are ordered by the first different byte of their keys, a prefix being below, and equal keys by record.
pub fn orders_pairs()
    ensures { OrdersPairs }
{}

/// Each search in a list in order answers the least or greatest pair that it is to find.
pub fn finds_nearest()
    ensures { (pairs : List Pair) → IsAscending is_before pairs → FindsNearest pairs }
{}

/// Steps by `after` and `before` meet each pair once, in order.
pub fn meets_each()
    ensures { (pairs : List Pair) → IsAscending is_before pairs → MeetsEach pairs }
{}

/// A pair that is put in or taken out leaves the others, in order.
pub fn changes_one()
    ensures { (p : Pair) (pairs : List Pair) → IsAscending is_before pairs → ChangesOne p pairs }
{}

/// Pairs put in order are the same pairs, as often each, and one list whatever order they came in; pairs in order stay
/// so.
pub fn puts_in_order()
    ensures { (pairs : List Pair) → PutsInOrder pairs }
{}

/// A pair that is added to a list, removed from it or replaced there changes the list put in order in the same way.
pub fn changes_rows()
    ensures { (front : List Pair) (p : Pair) (back : List Pair) → ChangesRows front p back }
{}

/// In a list in order the pairs whose keys begin alike stand side by side, at the front of what a search for that
/// beginning finds.
pub fn stand_together()
    ensures { (pairs : List Pair) → IsAscending is_before pairs → StandTogether pairs }
{}
