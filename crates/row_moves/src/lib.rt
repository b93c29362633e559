//! Moves over a table's rows in an order: TOP, BOTTOM, SKIP and SEEK.
//!
//! An order is record order (`Records`) or a list of keys (any `KeyList`); both are lists of pairs of a key and a
//! record (`RowOrder`), in record order with no key. Each order has places of its own, from which a move goes on: a
//! number in record order, and the pair itself in a list of keys. A row is shown or hidden by a test that the caller
//! hands in, which is only called at listed records; the contracts hold for each truth function that the test's answers
//! follow. A move answers where it leads, what BOF() and FOUND() are then, and its cost: one, and one for each row met,
//! that is each hidden row passed over and the row come to. `Spent` is answered exactly where the cost is above the
//! budget. Orders stay as they are, and no memory is taken. `specs/Moves.antt` says what each move is, on whole lists.
#![tactic(auto)]

mod key_search;
mod keys;
mod landed;
mod moves;
mod places;
mod records;
mod row_order;

pub use key_search::seek;
pub use landed::{Landed, Spent};
pub use moves::{RowMove, make_move};
pub use records::Records;
pub use row_order::RowOrder;
