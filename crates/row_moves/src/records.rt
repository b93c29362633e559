//! Record order.

ghost use Rattle.std.specs.Prelude.{◌≡◌, [], option_map};
ghost use Rattle.key_lists.specs.Order.{above, below, first};
ghost use Rattle.key_lists.specs.Pairs.{is_before};
ghost use Rattle.row_moves.specs.Orders.{record_order, record_pair};

use crate::RowOrder;

/// The records 1 to a count, in their own order.
#[derive(Debug, Clone, Copy)]
pub struct Records {
    /// How many records there are.
    pub count: u32,
}

impl RowOrder for Records {
    ghost use Rattle.std.specs.Prelude.{[]};
    ghost use Rattle.row_moves.specs.Orders.{record_order};

    type Place = u32;

    ghost list = { λ r. record {
      pairs = record_order r.count;
      spare = 0;
      form = record { key_length = 0; key_text = [] };
    } };

    ghost pair = { λ number. ([], number) };

    fn row_count(&self) -> usize {
        self.count as usize
    }

    fn number(at: &u32) -> u32 {
        *at
    }

    fn outermost(&mut self, forward: bool) -> Option<u32> {
        if forward {
            record_at(self.count.min(1))
        } else {
            record_at(self.count)
        }
    }

    fn next(&mut self, forward: bool, at: &u32) -> Option<u32> {
        if forward {
            record_after(self.count, *at)
        } else {
            record_before(self.count, *at)
        }
    }
}

// The record of this number; 0 is none.
fn record_at(number: u32) -> Option<u32>
    ensures { option_map (λ n. ([], n)) result ≡ record_pair number }
{
    if number == 0 {
        return None;
    }
    Some(number)
}

// The first record after a number.
fn record_after(count: u32, number: u32) -> Option<u32>
    ensures { option_map (λ n. ([], n)) result ≡ first (above is_before ([], number) (record_order count)) }
{
    if number >= count {
        return None;
    }
    Some(number + 1)
}

// The last record before a number.
fn record_before(count: u32, number: u32) -> Option<u32>
    ensures { option_map (λ n. ([], n)) result ≡ first (below is_before ([], number) (record_order count)) }
{
    record_at(number.saturating_sub(1).min(count))
}
