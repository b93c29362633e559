// The functions on their arguments.
#![tactic(auto)]

ghost use Rattle.std.specs.Prelude.{◌≡◌, ◌+◌, ◌≤◌, if◌then◌else◌, MatchOption};
ghost use Rattle.fixed_num.specs.Arithmetic.{AreAlike};
ghost use Rattle.xvalue.specs.declared.settings.Settings.{Settings as AnySettings};
ghost use Rattle.xvalue.specs.Given.{given, two_numbers};
ghost use Rattle.xvalue.specs.Functions.{applied, truth_given};
ghost use Rattle.xvalue.specs.declared.fun.Arithmetic.TheVariants.{Add};
ghost use Rattle.xvalue.specs.declared.fun.Fun.TheVariants.{OfTwo, Compares, ToNumber, ToText, ToDate, ToTruth};

use crate::arguments::Arguments;
use crate::fun::{Arithmetic, DateFun, Fun, NumberFun, NumberOrder, TextFun, TruthFun};
use crate::settings::Settings;
use crate::shown::write_day;
use crate::text::Text;
use crate::texts;
use crate::value::Value;
use calendar::Day;
use fixed_num::{Num, without_blanks, without_last_blanks};

/// What the function gives of the arguments under the settings. It takes no memory.
pub fn apply(fun: Fun, settings: Settings, arguments: &Arguments<'_>) -> Value
    ensures { result ≡ applied fun settings (given arguments.now) }
{
    match fun {
        Fun::OfTwo(fun) => Value::Number(number_of_two(
            fun,
            arguments.number(0),
            arguments.number(1),
        )),
        Fun::Compares(order) => Value::Logical(truth_of_two(
            order,
            &arguments.number(0),
            &arguments.number(1),
        )),
        Fun::ToNumber(fun) => Value::Number(number_given(fun, arguments)),
        Fun::ToText(fun) => Value::Text(text_made(fun, settings, arguments)),
        Fun::ToDate(fun) => Value::Date(date_given(fun, arguments)),
        Fun::ToTruth(fun) => Value::Logical(truth_given(fun, settings, arguments)),
    }
}

/// The result of a function that gives a number of two numbers. It takes no memory. (Where the function is known, its
/// arm alone is left.)
#[inline(always)]
#[tactic(auto, unfolding(crate::specs::Functions::applied))]
pub fn number_of_two(fun: Arithmetic, first: Num, second: Num) -> Num
    ensures { (settings : AnySettings) → Value.Number result ≡ applied (OfTwo fun) settings (two_numbers first second) }
{
    match fun {
        Arithmetic::Add => first.add(second),
        Arithmetic::Sub => first.sub(second),
        Arithmetic::Mul => first.mul(second),
        Arithmetic::Div => first.div(second),
        Arithmetic::Mod => first.modulo(second),
        Arithmetic::Round => first.round(second.whole()),
        Arithmetic::Max => first.max(second),
        Arithmetic::Min => first.min(second),
    }
}

/// The sum of two numbers that are alike (`Num::alike_sum`), and `None` of others. A caller that asks for it first
/// works out most sums without a call.
#[inline(always)]
#[tactic(auto, unfolding(crate::specs::Functions::applied))]
pub fn sum_of_two(first: &Num, second: &Num) -> Option<Num>
    ensures { MatchOption result (¬ AreAlike first.now second.now) (λ sum. AreAlike first.now second.now
        × ((settings : AnySettings)
        → Value.Number sum ≡ applied (OfTwo Add) settings (two_numbers first.now second.now))) }
{
    first.alike_sum(second)
}

/// The result of a function that compares two numbers.
#[inline(always)]
#[tactic(auto, unfolding(crate::specs::Functions::applied))]
pub fn truth_of_two(order: NumberOrder, first: &Num, second: &Num) -> bool
    ensures { (settings : AnySettings)
        → Value.Logical result ≡ applied (Compares order) settings (two_numbers first.now second.now) }
{
    let found = first.cmp(second);
    match order {
        NumberOrder::NumberEq => found.is_eq(),
        NumberOrder::NumberLess => found.is_lt(),
        NumberOrder::NumberGreater => found.is_gt(),
    }
}

/// The result of any other function that gives a number. It takes no memory.
#[tactic(auto, unfolding(crate::specs::Functions::applied))]
pub fn number_given(fun: NumberFun, arguments: &Arguments<'_>) -> Num
    ensures { (settings : AnySettings) → Value.Number result ≡ applied (ToNumber fun) settings (given arguments.now) }
{
    match fun {
        NumberFun::Neg => arguments.number(0).neg(),
        NumberFun::DateDiff => arguments.date(0).days_since(arguments.date(1)),
        NumberFun::IifNumber => arguments.number(chosen(arguments, 0)),
        NumberFun::Len => Num::from(arguments.text(0).len() as u32),
        NumberFun::At => Num::from(texts::place_of(arguments.text(0), arguments.text(1)) as u32),
        NumberFun::Asc => Num::from(u32::from(texts::first_byte(arguments.text(0)))),
        NumberFun::Val => Num::parse_prefix(arguments.text(0)),
        NumberFun::Abs => arguments.number(0).abs(),
        NumberFun::Int => arguments.number(0).int(),
        NumberFun::Day => Num::from(u32::from(arguments.date(0).day())),
        NumberFun::Month => Num::from(u32::from(arguments.date(0).month())),
        NumberFun::Year => Num::from(u32::from(arguments.date(0).year())),
        NumberFun::Dow => Num::from(u32::from(arguments.date(0).weekday())),
    }
}

/// The result of a function that gives a text, under the settings.
fn text_made(fun: TextFun, settings: Settings, arguments: &Arguments<'_>) -> Text
    ensures { Value.Text result ≡ applied (ToText fun) settings (given arguments.now) }
{
    let mut text = Text::new();
    write_text(fun, settings, arguments, &mut text);
    text
}

/// Writes the result of a function that gives a text, under the settings, over another text. So it is moved nowhere. It
/// takes no memory.
#[tactic(auto, unfolding(crate::specs::Functions::applied))]
pub fn write_text(fun: TextFun, settings: Settings, arguments: &Arguments<'_>, text: &mut Text)
    ensures { Value.Text text.new ≡ applied (ToText fun) settings (given arguments.now) }
{
    let first = arguments.text(0);
    match fun {
        TextFun::Join => texts::write_joined(first, arguments.text(1), text),
        TextFun::JoinMoved => texts::write_joined_moved(first, arguments.text(1), text),
        TextFun::IifText => texts::write(arguments.text(chosen(arguments, 0)), text),
        TextFun::Substr => texts::write(
            texts::part_from(first, arguments.count(0), arguments.count(1)),
            text,
        ),
        TextFun::Left => texts::write(texts::front(first, arguments.count(0)), text),
        TextFun::Right => texts::write(texts::last_part(first, arguments.count(0)), text),
        TextFun::Trim => texts::write(without_last_blanks(first), text),
        TextFun::Ltrim => texts::write(without_blanks(first), text),
        TextFun::Upper => texts::write_upper(first, text),
        TextFun::Lower => texts::write_lower(first, text),
        TextFun::Space => texts::write_blanks(arguments.count(0), text),
        TextFun::Replicate => texts::write_repeated(first, arguments.count(0), text),
        TextFun::Stuff => texts::write_stuffed(
            first,
            arguments.count(0),
            arguments.count(1),
            arguments.text(1),
            text,
        ),
        TextFun::Chr => texts::write_byte(arguments.number(0), text),
        TextFun::Str => texts::write_printed(
            arguments.number(0),
            arguments.count(1),
            arguments.count(2),
            text,
        ),
        TextFun::Dtoc => write_day(arguments.date(0), settings, text),
        TextFun::Cdow => texts::write(arguments.date(0).weekday_name(), text),
        TextFun::Cmonth => texts::write(arguments.date(0).month_name(), text),
    }
}

/// The result of a function that gives a date. It takes no memory.
#[tactic(auto, unfolding(crate::specs::Functions::applied))]
pub fn date_given(fun: DateFun, arguments: &Arguments<'_>) -> Day
    ensures { (settings : AnySettings) → Value.Date result ≡ applied (ToDate fun) settings (given arguments.now) }
{
    match fun {
        DateFun::DateAdd => arguments.date(0).plus(arguments.number(0)),
        DateFun::DateSub => arguments.date(0).minus(arguments.number(0)),
        DateFun::IifDate => arguments.date(chosen(arguments, 0)),
        DateFun::Ctod => Day::read(arguments.text(0)),
    }
}

/// The result of any other function that gives a truth value, under the settings. It takes no memory.
#[tactic(auto, unfolding(crate::specs::Functions::applied))]
pub fn truth_given(fun: TruthFun, settings: Settings, arguments: &Arguments<'_>) -> bool
    ensures { Value.Logical result ≡ applied (ToTruth fun) settings (given arguments.now) }
{
    match fun {
        TruthFun::TextEq => texts::eq_text(arguments.text(0), arguments.text(1), settings.exact),
        TruthFun::TextLess => texts::less_text(arguments.text(0), arguments.text(1)),
        TruthFun::TextGreater => texts::less_text(arguments.text(1), arguments.text(0)),
        TruthFun::DateEq => arguments.date(0).is(arguments.date(1)),
        TruthFun::DateLess => arguments.date(0).is_before(arguments.date(1)),
        TruthFun::DateGreater => arguments.date(1).is_before(arguments.date(0)),
        TruthFun::Not => !arguments.truth(0),
        TruthFun::And => arguments.truth(0) && arguments.truth(1),
        TruthFun::Or => arguments.truth(0) || arguments.truth(1),
        TruthFun::In => texts::first_place(arguments.text(0), arguments.text(1)).is_some(),
        TruthFun::IifLogical => arguments.truth(chosen(arguments, 1)),
        TruthFun::IsAlpha => texts::begins_with_letter(arguments.text(0)),
        TruthFun::IsUpper => texts::begins_with_capital(arguments.text(0)),
        TruthFun::IsLower => texts::begins_with_small(arguments.text(0)),
    }
}

/// The place of the argument that an IIF gives, of those two that begin at a place.
fn chosen(arguments: &Arguments<'_>, first: usize) -> usize
    requires { first ≤ 1 }
    ensures { result ≡ (if truth_given 0 (given arguments.now) then first else first + 1) }
{
    if arguments.truth(0) { first } else { first + 1 }
}
