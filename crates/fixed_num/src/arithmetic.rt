//! Sums, products and quotients.

ghost use Rattle.std.specs.Prelude.{◌≡◌, ◌<◌, ◌≤◌, ◌+ℤ◌, true, Some, SomeIff, IfSome};
ghost use Rattle.std.specs.Ordering.{int_cmp};
ghost use Rattle.fixed_num.specs.Number.{AreParts, number_of, number, signed};
ghost use Rattle.fixed_num.specs.Order.{compared, greater_of, lesser_of};
ghost use Rattle.fixed_num.specs.Arithmetic.{AreAlike, sum_of, difference_of, negated, absolute, product_of};
ghost use Rattle.fixed_num.specs.Arithmetic.{quotient_of, modulus_of};

use crate::number::{MOST_DECIMALS, Num, Parts};
use crate::powers::{lengthened, power_of_ten, scaled};
use crate::rounding::{divided, floored_rest, nearest};
use std::cmp::Ordering;

/// The sum of two numbers of as many decimals, whose magnitudes may be out of range.
#[inline(always)]
fn sum_alike(a: Parts, b: Parts) -> Num
    requires few { a.decimals ≤ 15 }
    ensures { result ≡ number (signed a.negative a.magnitude +ℤ signed b.negative b.magnitude) a.decimals }
{
    if a.negative == b.negative {
        let sum = u128::from(a.magnitude) + u128::from(b.magnitude);
        return Num::from_magnitude(a.negative, sum, a.decimals);
    }
    if a.magnitude >= b.magnitude {
        Num::from_word(a.negative, a.magnitude - b.magnitude, a.decimals)
    } else {
        Num::from_word(b.negative, b.magnitude - a.magnitude, a.decimals)
    }
}

/// The sum of any two numbers, with the greater number of decimals. It stands apart, so that a caller can work out a
/// sum of alike numbers without a call. It takes numbers, since registers hand them over, and not their parts.
#[inline(never)]
fn sum_of_any(first: Num, second: Num) -> Num
    ensures { result ≡ sum_of first second }
{
    if let (Some(a), Some(b)) = (first.parts(), second.parts()) {
        let decimals = a.decimals.max(b.decimals);
        if let (Some(left), Some(right)) = (a.longer(decimals), b.longer(decimals)) {
            return sum_alike(left, right);
        }
    }
    sum_in_two_words(first, second)
}

/// The same of numbers that take more than a word with these decimals.
#[inline(never)]
fn sum_in_two_words(first: Num, second: Num) -> Num
    ensures { result ≡ sum_of first second }
{
    let (Some(a), Some(b)) = (first.fraction(), second.fraction()) else {
        return Num::asterisk();
    };
    let decimals = a.decimals.max(b.decimals);
    let left = scaled(a.numerator, decimals - a.decimals);
    let right = scaled(b.numerator, decimals - b.decimals);
    Num::from_fraction(left + right, decimals)
}

/// The product of any two numbers. (Apart, as the sum of any two is.)
#[inline(never)]
fn product_of_any(first: Num, second: Num) -> Num
    ensures { result ≡ product_of first second }
{
    let (Some(a), Some(b)) = (first.parts(), second.parts()) else {
        return Num::asterisk();
    };
    let negative = a.negative != b.negative;
    let magnitude = u128::from(a.magnitude) * u128::from(b.magnitude);
    let decimals = a.decimals + b.decimals;
    if decimals <= MOST_DECIMALS {
        return Num::from_magnitude(negative, magnitude, decimals);
    }
    let unit = u128::from(power_of_ten(decimals - MOST_DECIMALS));
    let kept = nearest(magnitude, unit);
    Num::from_magnitude(negative, kept, MOST_DECIMALS)
}

/// The quotient of two numbers of which neither is below zero, where the dividend with the decimals of the quotient
/// takes one word. Most quotients are such; it takes one division.
#[inline(always)]
fn short_quotient(first: Num, second: Num) -> Option<Num>
    ensures { IfSome result (λ quotient. quotient ≡ quotient_of first second) }
{
    let both = first.above(&second)?;
    let decimals = both.first_decimals.max(both.second_decimals).max(2);
    let places = decimals - both.first_decimals + both.second_decimals;
    if both.second == 0 || places > 19 {
        return None;
    }
    let dividend = lengthened(both.first, places)?;
    let kept = nearest(u128::from(dividend), u128::from(both.second));
    Some(Num::from_magnitude(false, kept, decimals))
}

/// The quotient of any two numbers. (Apart, as the sum of any two is.)
#[inline(never)]
fn quotient_of_any(first: Num, second: Num) -> Num
    ensures { result ≡ quotient_of first second }
{
    let (Some(a), Some(b)) = (first.parts(), second.parts()) else {
        return Num::asterisk();
    };
    if b.magnitude == 0 {
        return Num::asterisk();
    }
    let negative = a.negative != b.negative;
    let decimals = a.decimals.max(b.decimals).max(2);
    let places = decimals - a.decimals + b.decimals;
    match divided(a.magnitude, places, b.magnitude) {
        Some(magnitude) => Num::from_magnitude(negative, magnitude, decimals),
        None => Num::asterisk(),
    }
}

/// The remainder of any two numbers. (Apart, as the sum of any two is.)
#[inline(never)]
fn modulus_of_any(first: Num, second: Num) -> Num
    ensures { result ≡ modulus_of first second }
{
    let (Some(a), Some(b)) = (first.parts(), second.parts()) else {
        return Num::asterisk();
    };
    if b.magnitude == 0 {
        return Num::asterisk();
    }
    modulus_of_parts(a, b)
}

/// The same of numbers other than the asterisk value.
#[inline]
fn modulus_of_parts(a: Parts, b: Parts) -> Num
    requires first { AreParts a }
    requires second { AreParts b }
    requires divisor { 0 < b.magnitude }
    ensures { result ≡ modulus_of (number_of (Some a)) (number_of (Some b)) }
{
    let decimals = a.decimals.max(b.decimals);
    let dividend = u128::from(a.magnitude) * u128::from(power_of_ten(decimals - a.decimals));
    let divisor = u128::from(b.magnitude) * u128::from(power_of_ten(decimals - b.decimals));
    let rest = floored_rest(a.negative, dividend, b.negative, divisor);
    Num::from_magnitude(b.negative, rest, decimals)
}

/// How two numbers of as many decimals compare. It takes no multiplication.
#[inline(always)]
fn compared_alike(a: Parts, b: Parts) -> Ordering
    requires first { a.negative ≡ true → 0 < a.magnitude }
    requires second { b.negative ≡ true → 0 < b.magnitude }
    ensures { result ≡ int_cmp (signed a.negative a.magnitude) (signed b.negative b.magnitude) }
{
    match (a.negative, b.negative) {
        (false, false) => a.magnitude.cmp(&b.magnitude),
        (false, true) => Ordering::Greater,
        (true, false) => Ordering::Less,
        (true, true) => b.magnitude.cmp(&a.magnitude),
    }
}

/// How any two numbers compare. It stands apart for the same reason as the sum of any two numbers.
#[inline(never)]
fn compared_any(first: Num, second: Num) -> Ordering
    ensures { result ≡ compared first second }
{
    if let (Some(a), Some(b)) = (first.parts(), second.parts()) {
        let decimals = a.decimals.max(b.decimals);
        if let (Some(left), Some(right)) = (a.longer(decimals), b.longer(decimals)) {
            return compared_alike(left, right);
        }
    }
    compared_in_two_words(first, second)
}

/// The same of numbers that take more than a word with these decimals, and of the asterisk value.
#[inline(never)]
fn compared_in_two_words(first: Num, second: Num) -> Ordering
    ensures { result ≡ compared first second }
{
    match (first.fraction(), second.fraction()) {
        (Some(a), Some(b)) => {
            scaled(a.numerator, b.decimals).cmp(&scaled(b.numerator, a.decimals))
        }
        (Some(_), None) => Ordering::Less,
        (None, Some(_)) => Ordering::Greater,
        (None, None) => Ordering::Equal,
    }
}

impl Num {
    /// The sum of this number and another of the same sign and as many decimals, if it has at most 19 digits, else
    /// `None`. Most sums are of this kind, and a caller that asks for them first works them out without a call.
    #[inline(always)]
    pub fn alike_sum(&self, other: &Num) -> Option<Num>
        ensures { SomeIff result (AreAlike self.now other.now) (sum_of self.now other.now) }
    {
        if !self.is_alike(other) {
            return None;
        }
        Some(self.plus_alike(other))
    }

    /// The sum, with the greater number of decimals.
    #[inline]
    pub fn add(self, other: Num) -> Num
        ensures { result ≡ sum_of self other }
    {
        if let Some(sum) = self.alike_sum(&other) {
            return sum;
        }
        sum_of_any(self, other)
    }

    /// The difference, with the greater number of decimals.
    #[inline]
    pub fn sub(self, other: Num) -> Num
        ensures { result ≡ difference_of self other }
    {
        if let Some(pair) = self.pair(&other) {
            if pair.first >= pair.second {
                return Num::of_sign(false, pair.first - pair.second, pair.decimals);
            }
        }
        self.add(other.neg())
    }

    /// The number with its sign turned.
    #[inline]
    pub fn neg(self) -> Num
        ensures { result ≡ negated self }
    {
        match self.parts() {
            Some(a) => Num::of_sign(!a.negative, a.magnitude, a.decimals),
            None => self,
        }
    }

    /// The number without its sign.
    pub fn abs(self) -> Num
        ensures { result ≡ absolute self }
    {
        match self.parts() {
            Some(a) => Num::of_sign(false, a.magnitude, a.decimals),
            None => self,
        }
    }

    /// The product, with the decimals of both, rounded to 15 where these are more.
    #[inline(always)]
    pub fn mul(self, other: Num) -> Num
        ensures { result ≡ product_of self other }
    {
        if let Some(product) = self.short_product(&other) {
            return product;
        }
        product_of_any(self, other)
    }

    /// The quotient, rounded to the greatest of both numbers of decimals and 2. A quotient by zero is the asterisk
    /// value.
    #[inline(always)]
    pub fn div(self, other: Num) -> Num
        ensures { result ≡ quotient_of self other }
    {
        if let Some(quotient) = short_quotient(self, other) {
            return quotient;
        }
        quotient_of_any(self, other)
    }

    /// `self - other * floor(self / other)` with the greater number of decimals, which has the sign of `other`. A
    /// remainder by zero is the asterisk value.
    #[inline(always)]
    pub fn modulo(self, other: Num) -> Num
        ensures { result ≡ modulus_of self other }
    {
        if let Some(pair) = self.pair(&other) {
            if pair.second != 0 {
                return Num::of_sign(false, pair.first % pair.second, pair.decimals);
            }
        }
        modulus_of_any(self, other)
    }

    /// How the number compares with another by value. The asterisk value is above every number and equal to itself.
    #[inline(always)]
    pub fn cmp(&self, other: &Num) -> Ordering
        ensures { result ≡ compared self.now other.now }
    {
        match self.pair(other) {
            Some(pair) => pair.first.cmp(&pair.second),
            None => compared_any(*self, *other),
        }
    }

    /// The greater of both by value, the first where they are equal.
    pub fn max(self, other: Num) -> Num
        ensures { result ≡ greater_of self other }
    {
        if self.cmp(&other).is_lt() {
            other
        } else {
            self
        }
    }

    /// The lesser of both by value, the first where they are equal.
    pub fn min(self, other: Num) -> Num
        ensures { result ≡ lesser_of self other }
    {
        if self.cmp(&other).is_gt() {
            other
        } else {
            self
        }
    }
}
