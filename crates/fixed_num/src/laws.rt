//! What follows from the definitions of numbers, for a reader who wants to trust them. Each function does nothing: its
//! contract is the law.

ghost use Rattle.std.specs.Prelude.{◌≡◌, ℕ, ◌-◌, ◌%◌, ◌<◌, ◌≤◌, ℤ, pos, neg_ℤ, Bool, not, length, List};
ghost use Rattle.std.specs.Cmp.{IsTotalOrder};
ghost use Rattle.std.specs.Ordering.{int_cmp};
ghost use Rattle.fixed_num.specs.Number.{Number, finite, scaled, signed, IsInRange};
ghost use Rattle.fixed_num.specs.Rounding.{nearest, rounded, rounded_to, IsNearest};
ghost use Rattle.fixed_num.specs.Arithmetic.{sum_of, product_of, floored_by, remainder_of, IsFloor};
ghost use Rattle.fixed_num.specs.Order.{compared};
ghost use Rattle.fixed_num.specs.Text.{text_of, printed_in};
ghost use Rattle.fixed_num.specs.Reading.{parsed, prefix_read, signed_read, without_blanks};
ghost use Rattle.fixed_num.specs.Prefixes.{is_signed, IsOfLongest};

/// A sum is the same in both orders.
pub fn sums_commute()
    ensures { (x y : Number) → sum_of x y ≡ sum_of y x }
{}

/// A product is the same in both orders.
pub fn products_commute()
    ensures { (x y : Number) → product_of x y ≡ product_of y x }
{}

/// Rounding gives a nearest whole number, the greater of two that are as near.
pub fn rounds_to_the_nearest()
    ensures { (p q : ℕ) → 0 < q → IsNearest p q (nearest p q) }
{}

/// The quotient that a remainder goes by is the greatest whole number that isn't above the exact one.
pub fn floors_are_below()
    ensures { (p : ℤ) (q : ℕ) → 0 < q → IsFloor p q (floored_by p q) }
{}

/// A quotient with a dividend or a divisor below zero is that of the magnitudes, rounded, with its sign set after that.
pub fn rounds_away_from_zero()
    ensures below { (p q : ℕ) → 0 < q → rounded (neg_ℤ (pos p)) (pos q) ≡ neg_ℤ (pos (nearest p q)) }
    ensures by_one_below { (p q : ℕ) → 0 < q → rounded (pos p) (neg_ℤ (pos q)) ≡ neg_ℤ (pos (nearest p q)) }
    ensures both_below { (p q : ℕ) → 0 < q → rounded (neg_ℤ (pos p)) (neg_ℤ (pos q)) ≡ pos (nearest p q) }
{}

/// A remainder has the divisor's sign. It is the rest of the magnitudes where both signs are the same, and what that
/// rest lacks of the divisor where they differ; without a rest it is 0.
pub fn remainders_have_the_divisors_sign()
    ensures alike { (negative : Bool) (p q : ℕ) → 0 < q
        → remainder_of (signed negative p) (signed negative q) ≡ signed negative (p % q) }
    ensures unlike { (negative : Bool) (p q : ℕ) → 0 < q → 0 < p % q
        → remainder_of (signed negative p) (signed (not negative) q) ≡ signed (not negative) (q - p % q) }
    ensures none { (negative : Bool) (p q : ℕ) → 0 < q → p % q ≡ 0
        → remainder_of (signed negative p) (signed (not negative) q) ≡ pos 0 }
{}

/// Rounding twice to one place is rounding once.
pub fn rounds_once()
    ensures { (places : ℤ) (x : Number) → rounded_to places (rounded_to places x) ≡ rounded_to places x }
{}

/// The comparison is a total order.
pub fn order_is_total()
    ensures { IsTotalOrder compared }
{}

/// Numbers compare as the whole numbers that they are with any common number of decimals.
pub fn order_is_by_value()
    ensures { (m n : ℤ) (d e k : ℕ) → d ≤ k → e ≤ k →
        compared (finite m d) (finite n e) ≡ int_cmp (scaled m (k - d)) (scaled n (k - e)) }
{}

/// A number's text is read as that number, with its decimals.
pub fn text_reads_back()
    ensures { (m : ℤ) (d : ℕ) → IsInRange (finite m d) → parsed (text_of (finite m d)) ≡ finite m d }
{}

/// VAL takes the longest beginning that is a number, behind the blanks in front, and gives 0 where there is none.
pub fn prefixes_are_longest()
    ensures { (cs : List ℕ) → IsOfLongest is_signed signed_read (without_blanks cs) (prefix_read cs) }
{}

/// A number that is printed fills its field.
pub fn print_fills_its_field()
    ensures { (width decimals : ℕ) (x : Number) → length (printed_in width decimals x) ≡ width }
{}
