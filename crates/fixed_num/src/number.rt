//! The type of a number, its parts and the conversions.

ghost use Rattle.std.specs.Prelude.{◌≡◌, ◌+◌, ◌<◌, ◌≤◌, pos, ◌↔◌, IsTrue, SomeIff, IfSome, MatchOption, ◌*◌, ◌-◌, ◌^◌};
ghost use Rattle.std.specs.Prelude.{if◌then◌else◌};
ghost use Rattle.fixed_num.specs.Number.{number, number_of, signed, AreParts, IsFraction, finite, asterisk};
ghost use Rattle.fixed_num.specs.Number.{magnitude_limit, IsLonger, IsPair, AreAbove};
ghost use Rattle.fixed_num.specs.Arithmetic.{AreAlike, sum_of, product_of};

use crate::powers::lengthened;
use std::marker::Model;

/// Each magnitude is below this, 10^19.
pub(crate) const MAGNITUDE_LIMIT: u64 = 10_000_000_000_000_000_000;

/// The most decimals that a number has.
pub const MOST_DECIMALS: u8 = 15;

/// What a number other than the asterisk value is made of: `magnitude / 10^decimals`, below zero where `negative`.
#[derive(Clone, Copy, PartialEq, Eq, Debug)]
pub struct Parts {
    /// The digits as a whole number, below 10^19.
    pub magnitude: u64,
    /// How many of the digits stand after the point, at most 15.
    pub decimals: u8,
    /// Whether the number is below zero.
    pub negative: bool,
}

/// The form of a number below zero is this and its decimals.
const BELOW_ZERO: u64 = 16;

/// The form of the asterisk value. All other forms are below.
const ASTERISK: u64 = 32;

/// A number: the asterisk value, or a whole number of at most 19 digits over a power of ten. It stands in two words, in
/// one way alone, so that numbers of the same words are the same.
#[derive(Clone, Copy, Debug)]
pub struct Num {
    /// The digits as a whole number, below 10^19; 0 of the asterisk value.
    magnitude: u64,
    /// The decimals, and 16 more below zero; 32 of the asterisk value.
    form: u64,
}

impl Model for Num {
    ghost use Rattle.fixed_num.specs.Number.{Number, number_of};
    ghost use Rattle.fixed_num.specs.Words.{parts_in_words, AreWords, magnitude_of, form_of, words_back};
    ghost use Rattle.std.proofs.Common.{ap, ◌∙◌};

    ghost Value = { Number };

    ghost view = { λ n. number_of (parts_in_words n.magnitude n.form) };

    ghost invariant = { λ n. AreWords n.magnitude n.form };

    ghost inverse = { λ x. record { magnitude = magnitude_of x; form = form_of x } };

    ghost inverse_ok = { λ n h.
        ap (λ m. record { magnitude = m; form = form_of (number_of (parts_in_words n.magnitude n.form)) })
        (words_back n.magnitude n.form h).0
        ∙ ap (λ f. record { magnitude = n.magnitude; form = f }) (words_back n.magnitude n.form h).1 };
}

/// Two numbers are the same where they have one value and as many decimals.
impl PartialEq for Num {
    ghost use Rattle.std.specs.Cmp.{partial_equiv_from_equiv};
    ghost use Rattle.fixed_num.specs.Words.{is_same_number, is_same_number-laws};

    ghost eq = { is_same_number };

    ghost laws = { partial_equiv_from_equiv is_same_number-laws };

    #[inline(always)]
    fn eq(&self, other: &Num) -> bool {
        self.magnitude == other.magnitude && self.form == other.form
    }
}

impl Eq for Num {
    ghost use Rattle.fixed_num.specs.Words.{is_same_number-laws};

    ghost laws = { is_same_number-laws };
}

impl Num {
    /// The number of the parts, where the magnitude and the decimals are in range and zero has no sign.
    #[inline]
    pub fn from_parts(parts: Parts) -> Option<Num>
        ensures { SomeIff result (AreParts parts) (number_of (Some parts)) }
    {
        if parts.magnitude < MAGNITUDE_LIMIT
            && parts.decimals <= MOST_DECIMALS
            && (!parts.negative || parts.magnitude != 0)
        {
            Some(Num::of(parts))
        } else {
            None
        }
    }

    /// The number of parts that are in range.
    #[inline(always)]
    pub(crate) fn of(parts: Parts) -> Num
        requires { AreParts parts }
        ensures { result ≡ number_of (Some parts) }
    {
        Num {
            magnitude: parts.magnitude,
            form: form(parts.negative, parts.decimals),
        }
    }

    /// The parts, or `None` of the asterisk value.
    #[inline(always)]
    pub fn parts(self) -> Option<Parts>
        ensures same { number_of result ≡ self }
        ensures in_range { IfSome result AreParts }
    {
        if self.form >= ASTERISK {
            return None;
        }
        Some(Parts {
            magnitude: self.magnitude,
            decimals: (self.form % BELOW_ZERO) as u8,
            negative: self.form >= BELOW_ZERO,
        })
    }

    /// The asterisk value.
    #[inline(always)]
    pub fn asterisk() -> Num
        ensures { result ≡ asterisk }
    {
        Num {
            magnitude: 0,
            form: ASTERISK,
        }
    }

    /// Whether the number is the asterisk value.
    #[inline(always)]
    pub fn is_asterisk(self) -> bool
        ensures { IsTrue result ↔ (self ≡ asterisk) }
    {
        self.form >= ASTERISK
    }

    /// The whole number, or the asterisk value where it has more than 19 digits.
    pub fn from_whole(whole: i128) -> Num
        ensures { result ≡ number whole 0 }
    {
        Num::from_fraction(whole, 0)
    }

    /// The number of a sign, a magnitude and decimals, or the asterisk value where the magnitude has more than 19
    /// digits.
    #[inline(always)]
    pub(crate) fn from_word(negative: bool, magnitude: u64, decimals: u8) -> Num
        requires { decimals ≤ 15 }
        ensures { result ≡ number (signed negative magnitude) decimals }
    {
        if magnitude >= MAGNITUDE_LIMIT {
            return Num::asterisk();
        }
        Num::of_sign(negative, magnitude, decimals)
    }

    /// The number of a sign, a magnitude and decimals that are in range. Zero has no sign.
    #[inline(always)]
    pub(crate) fn of_sign(negative: bool, magnitude: u64, decimals: u8) -> Num
        requires short { magnitude < magnitude_limit }
        requires few { decimals ≤ 15 }
        ensures { result ≡ finite (signed negative magnitude) decimals }
    {
        Num {
            magnitude,
            form: form(negative && magnitude != 0, decimals),
        }
    }

    /// Both numbers, where neither is below zero and they have as many decimals.
    #[inline(always)]
    pub(crate) fn pair(&self, other: &Num) -> Option<Pair>
        ensures { IfSome result (IsPair self.now other.now) }
    {
        if self.form != other.form || self.form >= BELOW_ZERO {
            return None;
        }
        Some(Pair {
            first: self.magnitude,
            second: other.magnitude,
            decimals: self.form as u8,
        })
    }

    /// Both numbers with their decimals, where neither is below zero.
    #[inline(always)]
    pub(crate) fn above(&self, other: &Num) -> Option<Above>
        ensures { IfSome result (AreAbove self.now other.now) }
    {
        if self.form >= BELOW_ZERO || other.form >= BELOW_ZERO {
            return None;
        }
        Some(Above {
            first: self.magnitude,
            second: other.magnitude,
            first_decimals: self.form as u8,
            second_decimals: other.form as u8,
        })
    }

    /// The product of two numbers of which neither is below zero, where it has at most 15 decimals and 19 digits. Most
    /// products are such; it takes one multiplication.
    #[inline(always)]
    pub(crate) fn short_product(&self, other: &Num) -> Option<Num>
        ensures { IfSome result (λ product. product ≡ product_of self.now other.now) }
    {
        if self.form >= BELOW_ZERO || other.form >= BELOW_ZERO {
            return None;
        }
        let form = self.form + other.form;
        let magnitude = self.magnitude.checked_mul(other.magnitude)?;
        if form > u64::from(MOST_DECIMALS) || magnitude >= MAGNITUDE_LIMIT {
            return None;
        }
        Some(Num { magnitude, form })
    }

    /// Whether two numbers have one sign and as many decimals, and their magnitudes together at most 19 digits.
    #[inline(always)]
    pub(crate) fn is_alike(&self, other: &Num) -> bool
        ensures { IsTrue result ↔ AreAlike self.now other.now }
    {
        self.form == other.form
            && self.form < ASTERISK
            && self.magnitude < MAGNITUDE_LIMIT - other.magnitude
    }

    /// The sum of two numbers that are alike. Most sums are such; it takes no multiplication.
    #[inline(always)]
    pub(crate) fn plus_alike(&self, other: &Num) -> Num
        requires { AreAlike self.now other.now }
        ensures { result ≡ sum_of self.now other.now }
    {
        Num {
            magnitude: self.magnitude + other.magnitude,
            form: self.form,
        }
    }

    /// The same of a magnitude that may take two words.
    #[inline(always)]
    pub(crate) fn from_magnitude(negative: bool, magnitude: u128, decimals: u8) -> Num
        requires { decimals ≤ 15 }
        ensures { result ≡ number (signed negative magnitude) decimals }
    {
        if magnitude >= u128::from(MAGNITUDE_LIMIT) {
            return Num::asterisk();
        }
        Num::of_sign(negative, magnitude as u64, decimals)
    }

    /// `numerator / 10^decimals`, or the asterisk value where the numerator has more than 19 digits.
    #[inline]
    pub(crate) fn from_fraction(numerator: i128, decimals: u8) -> Num
        requires { decimals ≤ 15 }
        ensures { result ≡ number numerator decimals }
    {
        Num::from_magnitude(numerator < 0, numerator.unsigned_abs(), decimals)
    }

    /// The numerator and the decimals, or `None` of the asterisk value.
    #[inline]
    pub(crate) fn fraction(self) -> Option<Fraction>
        ensures { MatchOption result (self ≡ asterisk) (IsFraction self) }
    {
        Some(self.parts()?.fraction())
    }
}

/// The form of a number other than the asterisk value.
#[inline(always)]
fn form(negative: bool, decimals: u8) -> u64
    ensures { result ≡ (if negative then 16 + decimals else decimals) }
{
    if negative {
        BELOW_ZERO + u64::from(decimals)
    } else {
        u64::from(decimals)
    }
}

impl Parts {
    /// The same number with so many decimals, where its magnitude fits in a word, though it may be out of range.
    #[inline(always)]
    pub(crate) fn longer(self, decimals: u8) -> Option<Parts>
        requires few { decimals ≤ 15 }
        requires more { self.decimals ≤ decimals }
        ensures { MatchOption result (2 ^ 64 ≤ self.magnitude * 10 ^ (decimals - self.decimals))
            (IsLonger self decimals) }
    {
        let magnitude = lengthened(self.magnitude, decimals - self.decimals)?;
        Some(Parts {
            magnitude,
            decimals,
            negative: self.negative,
        })
    }

    /// The numerator and the decimals.
    #[inline]
    pub(crate) fn fraction(self) -> Fraction
        requires { AreParts self }
        ensures { IsFraction (number_of (Some self)) result }
    {
        let magnitude = i128::from(self.magnitude);
        let numerator = if self.negative { -magnitude } else { magnitude };
        Fraction {
            numerator,
            decimals: self.decimals,
        }
    }
}

/// A count, without decimals.
impl From<u32> for Num {
    ghost from_gives = { λ count result. result ≡ finite (pos count) 0 };

    fn from(count: u32) -> Num {
        Num::from_word(false, u64::from(count), 0)
    }
}

/// A difference of counts, without decimals.
impl From<i64> for Num {
    ghost from_gives = { λ whole result. result ≡ finite whole 0 };

    fn from(whole: i64) -> Num {
        Num::from_word(whole < 0, whole.unsigned_abs(), 0)
    }
}

/// A number other than the asterisk value: `numerator / 10^decimals`.
#[derive(Clone, Copy)]
pub(crate) struct Fraction {
    pub(crate) numerator: i128,
    pub(crate) decimals: u8,
}

/// Two numbers of as many decimals, neither of which is below zero.
#[derive(Clone, Copy)]
pub(crate) struct Pair {
    /// The magnitude of the first.
    pub(crate) first: u64,
    /// The magnitude of the second.
    pub(crate) second: u64,
    pub(crate) decimals: u8,
}

/// Two numbers, neither of which is below zero.
#[derive(Clone, Copy)]
pub(crate) struct Above {
    /// The magnitude of the first.
    pub(crate) first: u64,
    /// The magnitude of the second.
    pub(crate) second: u64,
    pub(crate) first_decimals: u8,
    pub(crate) second_decimals: u8,
}

/// Zero, without decimals.
impl Default for Num {
    ghost is_default = { λ n. n ≡ finite (pos 0) 0 };

    fn default() -> Num {
        Num::from_whole(0)
    }
}
