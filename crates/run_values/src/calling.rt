//! What a function gives of values.

ghost use Rattle.std.specs.Prelude.{◌≤◌, [], ◌∷◌, length};
ghost use Rattle.xvalue.specs.declared.fun.Fun.TheVariants.{OfTwo as IsOfTwo, Compares as IsCompares};
ghost use Rattle.xvalue.specs.declared.kind.Kind.TheVariants.{Number as OfNumber, Text as OfText, Date as OfDate};
ghost use Rattle.xvalue.specs.declared.kind.Kind.TheVariants.{Logical as OfLogical};
ghost use Rattle.xvalue.specs.declared.settings.Settings.{Settings as AnySettings};
ghost use Rattle.xvalue.specs.declared.value.Value.TheVariants.{Number as IsNumber, Text as IsText};
ghost use Rattle.xvalue.specs.declared.value.Value.TheVariants.{Date as IsDate, Logical as IsLogical};
ghost use Rattle.run_values.specs.Calling.{IsGiven, HasSignature, LeavesPart, LeavesEnd};

use calendar::Day;
use fixed_num::{Num, without_blanks, without_last_blanks};
use xvalue::apply::{number_of_two, truth_of_two};
use xvalue::{
    Arithmetic, DateFun, Fun, NumberFun, NumberOrder, Settings, TextFun, TruthFun,
    begins_with_capital, begins_with_letter, begins_with_small, count_of, eq_text, first_byte,
    first_place, front, last_part, less_text, part_from, place_of,
};

/// The number that a function gives of two numbers.
pub fn number_of_numbers(fun: Arithmetic, first: Num, second: Num) -> Num
    ensures { (settings : AnySettings)
        → IsGiven (IsOfTwo fun) settings (IsNumber first ∷ IsNumber second ∷ []) (IsNumber result) }
{
    number_of_two(fun, first, second)
}

/// Whether a comparison of two numbers holds.
#[inline(always)]
pub fn truth_of_numbers(order: NumberOrder, first: Num, second: Num) -> bool
    ensures { (settings : AnySettings)
        → IsGiven (IsCompares order) settings (IsNumber first ∷ IsNumber second ∷ []) (IsLogical result) }
{
    truth_of_two(order, &first, &second)
}

/// Whether a comparison of two texts holds, or the first stands in the second.
#[tactic(auto, unfolding(xvalue::specs::Functions::applied))]
pub fn truth_of_texts(fun: Fun, settings: Settings, first: &[u8], second: &[u8]) -> bool
    requires { HasSignature fun (OfText ∷ OfText ∷ []) OfLogical }
    ensures { IsGiven fun settings
        (IsText (record { items = first.now }) ∷ IsText (record { items = second.now }) ∷ []) (IsLogical result) }
{
    match fun {
        Fun::ToTruth(TruthFun::TextEq) => eq_text(first, second, settings.exact),
        Fun::ToTruth(TruthFun::TextLess) => less_text(first, second),
        Fun::ToTruth(TruthFun::TextGreater) => less_text(second, first),
        Fun::ToTruth(TruthFun::In) => first_place(first, second).is_some(),
        _ => unreachable!(),
    }
}

/// Whether a comparison of two dates holds.
#[tactic(auto, unfolding(xvalue::specs::Functions::applied))]
pub fn truth_of_dates(fun: Fun, first: Day, second: Day) -> bool
    requires { HasSignature fun (OfDate ∷ OfDate ∷ []) OfLogical }
    ensures { (settings : AnySettings) → IsGiven fun settings (IsDate first ∷ IsDate second ∷ []) (IsLogical result) }
{
    match fun {
        Fun::ToTruth(TruthFun::DateEq) => first.is(second),
        Fun::ToTruth(TruthFun::DateLess) => first.is_before(second),
        Fun::ToTruth(TruthFun::DateGreater) => second.is_before(first),
        _ => unreachable!(),
    }
}

/// The number that a function gives of two dates.
#[tactic(auto, unfolding(xvalue::specs::Functions::applied))]
pub fn number_of_dates(fun: Fun, first: Day, second: Day) -> Num
    requires { HasSignature fun (OfDate ∷ OfDate ∷ []) OfNumber }
    ensures { (settings : AnySettings) → IsGiven fun settings (IsDate first ∷ IsDate second ∷ []) (IsNumber result) }
{
    match fun {
        Fun::ToNumber(NumberFun::DateDiff) => first.days_since(second),
        _ => unreachable!(),
    }
}

/// The date that a function gives of a date and a number.
#[tactic(auto, unfolding(xvalue::specs::Functions::applied))]
pub fn date_moved(fun: Fun, date: Day, number: Num) -> Day
    requires { HasSignature fun (OfDate ∷ OfNumber ∷ []) OfDate }
    ensures { (settings : AnySettings) → IsGiven fun settings (IsDate date ∷ IsNumber number ∷ []) (IsDate result) }
{
    match fun {
        Fun::ToDate(DateFun::DateAdd) => date.plus(number),
        Fun::ToDate(DateFun::DateSub) => date.minus(number),
        _ => unreachable!(),
    }
}

/// The number that a function gives of a number.
#[tactic(auto, unfolding(xvalue::specs::Functions::applied))]
pub fn number_of_number(fun: Fun, given: Num) -> Num
    requires { HasSignature fun (OfNumber ∷ []) OfNumber }
    ensures { (settings : AnySettings) → IsGiven fun settings (IsNumber given ∷ []) (IsNumber result) }
{
    match fun {
        Fun::ToNumber(NumberFun::Neg) => given.neg(),
        Fun::ToNumber(NumberFun::Abs) => given.abs(),
        Fun::ToNumber(NumberFun::Int) => given.int(),
        _ => unreachable!(),
    }
}

/// The number that a function gives of a date.
#[tactic(auto, unfolding(xvalue::specs::Functions::applied))]
pub fn number_of_date(fun: Fun, date: Day) -> Num
    requires { HasSignature fun (OfDate ∷ []) OfNumber }
    ensures { (settings : AnySettings) → IsGiven fun settings (IsDate date ∷ []) (IsNumber result) }
{
    match fun {
        Fun::ToNumber(NumberFun::Day) => Num::from(u32::from(date.day())),
        Fun::ToNumber(NumberFun::Month) => Num::from(u32::from(date.month())),
        Fun::ToNumber(NumberFun::Year) => Num::from(u32::from(date.year())),
        Fun::ToNumber(NumberFun::Dow) => Num::from(u32::from(date.weekday())),
        _ => unreachable!(),
    }
}

/// CTOD of a text.
#[tactic(auto, unfolding(xvalue::specs::Functions::applied))]
pub fn date_of_text(fun: Fun, text: &[u8]) -> Day
    requires { HasSignature fun (OfText ∷ []) OfDate }
    ensures { (settings : AnySettings)
        → IsGiven fun settings (IsText (record { items = text.now }) ∷ []) (IsDate result) }
{
    match fun {
        Fun::ToDate(DateFun::Ctod) => Day::read(text),
        _ => unreachable!(),
    }
}

/// What TRIM or LTRIM leaves of a text, lent from there.
#[tactic(auto, unfolding(xvalue::specs::Functions::applied))]
pub fn part_of_text(fun: Fun, text: &[u8]) -> &[u8]
    requires fun { LeavesPart fun }
    requires short { length text.now ≤ 254 }
    ensures given { (settings : AnySettings)
        → IsGiven fun settings (IsText (record { items = text.now }) ∷ []) (IsText (record { items = result.now })) }
    ensures short { length result.now ≤ 254 }
{
    match fun {
        Fun::ToText(TextFun::Trim) => without_last_blanks(text),
        Fun::ToText(TextFun::Ltrim) => without_blanks(text),
        _ => unreachable!(),
    }
}

/// What LEFT or RIGHT leaves of a text, lent from there.
#[tactic(auto, unfolding(xvalue::specs::Functions::applied))]
pub fn end_of_text(fun: Fun, text: &[u8], count: Num) -> &[u8]
    requires fun { LeavesEnd fun }
    requires short { length text.now ≤ 254 }
    ensures given { (settings : AnySettings) → IsGiven fun settings
        (IsText (record { items = text.now }) ∷ IsNumber count ∷ []) (IsText (record { items = result.now })) }
    ensures short { length result.now ≤ 254 }
{
    match fun {
        Fun::ToText(TextFun::Left) => front(text, count_of(count)),
        Fun::ToText(TextFun::Right) => last_part(text, count_of(count)),
        _ => unreachable!(),
    }
}

/// What SUBSTR leaves of a text, lent from there.
#[tactic(auto, unfolding(xvalue::specs::Functions::applied))]
pub fn piece_of_text(fun: Fun, text: &[u8], place: Num, count: Num) -> &[u8]
    requires fun { HasSignature fun (OfText ∷ OfNumber ∷ OfNumber ∷ []) OfText }
    requires short { length text.now ≤ 254 }
    ensures given { (settings : AnySettings) → IsGiven fun settings
        (IsText (record { items = text.now }) ∷ IsNumber place ∷ IsNumber count ∷ [])
        (IsText (record { items = result.now })) }
    ensures short { length result.now ≤ 254 }
{
    match fun {
        Fun::ToText(TextFun::Substr) => part_from(text, count_of(place), count_of(count)),
        _ => unreachable!(),
    }
}

/// The number that a function gives of a text.
#[tactic(auto, unfolding(xvalue::specs::Functions::applied))]
pub fn number_of_text(fun: Fun, text: &[u8]) -> Num
    requires fun { HasSignature fun (OfText ∷ []) OfNumber }
    requires short { length text.now ≤ 254 }
    ensures { (settings : AnySettings)
        → IsGiven fun settings (IsText (record { items = text.now }) ∷ []) (IsNumber result) }
{
    match fun {
        Fun::ToNumber(NumberFun::Len) => Num::from(text.len() as u32),
        Fun::ToNumber(NumberFun::Asc) => Num::from(u32::from(first_byte(text))),
        Fun::ToNumber(NumberFun::Val) => Num::parse_prefix(text),
        _ => unreachable!(),
    }
}

/// The number that a function gives of two texts.
#[tactic(auto, unfolding(xvalue::specs::Functions::applied))]
pub fn number_of_texts(fun: Fun, first: &[u8], second: &[u8]) -> Num
    requires fun { HasSignature fun (OfText ∷ OfText ∷ []) OfNumber }
    requires short { length second.now ≤ 254 }
    ensures { (settings : AnySettings) → IsGiven fun settings
        (IsText (record { items = first.now }) ∷ IsText (record { items = second.now }) ∷ []) (IsNumber result) }
{
    match fun {
        Fun::ToNumber(NumberFun::At) => Num::from(place_of(first, second) as u32),
        _ => unreachable!(),
    }
}

/// Whether a text begins as a function asks.
#[tactic(auto, unfolding(xvalue::specs::Functions::applied))]
pub fn truth_of_text(fun: Fun, text: &[u8]) -> bool
    requires { HasSignature fun (OfText ∷ []) OfLogical }
    ensures { (settings : AnySettings)
        → IsGiven fun settings (IsText (record { items = text.now }) ∷ []) (IsLogical result) }
{
    match fun {
        Fun::ToTruth(TruthFun::IsAlpha) => begins_with_letter(text),
        Fun::ToTruth(TruthFun::IsUpper) => begins_with_capital(text),
        Fun::ToTruth(TruthFun::IsLower) => begins_with_small(text),
        _ => unreachable!(),
    }
}
