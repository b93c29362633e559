// The functions, their numbers in code files, and the kinds that they take and give.
#![tactic(auto)]

ghost use Rattle.std.specs.Prelude.{◌≡◌, ◌<◌, ◌≤◌, length, slice_get};
ghost use Rattle.xvalue.specs.Signature.{function_number, takes_of, gives_of, numbered};
ghost use Rattle.xvalue.specs.declared.fun.Fun.TheVariants.{ToNumber, ToText, ToDate, ToTruth};

use crate::kind::Kind;

/// A function that gives a number of two numbers.
#[derive(Clone, Copy, PartialEq, Eq, Debug)]
pub enum Arithmetic {
    /// The sum of two numbers.
    Add = 1,
    /// The difference of two numbers.
    Sub = 2,
    /// The product of two numbers.
    Mul = 3,
    /// The quotient of two numbers.
    Div = 4,
    /// MOD: the remainder that has the divisor's sign.
    Mod = 49,
    /// ROUND: to so many decimals.
    Round = 50,
    /// MAX: the greater number.
    Max = 51,
    /// MIN: the lesser number.
    Min = 52,
}

/// A function that compares two numbers.
#[derive(Clone, Copy, PartialEq, Eq, Debug)]
pub enum NumberOrder {
    /// Whether two numbers are equal by value.
    NumberEq = 6,
    /// Whether the first number is less.
    NumberLess = 7,
    /// Whether the first number is greater.
    NumberGreater = 8,
}

/// Any other function that gives a number.
#[derive(Clone, Copy, PartialEq, Eq, Debug)]
pub enum NumberFun {
    /// The number with its sign turned.
    Neg = 5,
    /// How many days the second date is before the first.
    DateDiff = 23,
    /// IIF of numbers: the second argument where the first is true, else the third.
    IifNumber = 24,
    /// LEN: how many bytes a text has.
    Len = 28,
    /// AT: the first place of a text in another, 0 for none.
    At = 38,
    /// ASC: the first byte as a number.
    Asc = 40,
    /// VAL: the number that a text begins with.
    Val = 42,
    /// ABS: the number without its sign.
    Abs = 47,
    /// INT: the number without its decimals.
    Int = 48,
    /// DAY: the day of the month, 0 for the blank date.
    Day = 55,
    /// MONTH: the month, 0 for the blank date.
    Month = 56,
    /// YEAR: the year, 0 for the blank date.
    Year = 57,
    /// DOW: the day of the week from 1 for Sunday, 0 for the blank date.
    Dow = 58,
}

/// A function that gives a text.
#[derive(Clone, Copy, PartialEq, Eq, Debug)]
pub enum TextFun {
    /// `+` of two texts.
    Join = 18,
    /// `-` of two texts: joined, the blanks at the end of the left one moved to the end.
    JoinMoved = 19,
    /// IIF of texts.
    IifText = 25,
    /// SUBSTR: bytes of a text from a place on, so many of them.
    Substr = 29,
    /// LEFT: the first bytes.
    Left = 30,
    /// RIGHT: the last bytes.
    Right = 31,
    /// TRIM and RTRIM: without the blanks at the end.
    Trim = 32,
    /// LTRIM: without the blanks at the front.
    Ltrim = 33,
    /// UPPER: ASCII letters as capitals.
    Upper = 34,
    /// LOWER: ASCII letters as small ones.
    Lower = 35,
    /// SPACE: so many blanks.
    Space = 36,
    /// REPLICATE: a text so many times.
    Replicate = 37,
    /// STUFF: bytes of a text that give way to another text.
    Stuff = 39,
    /// CHR: the text of one byte.
    Chr = 41,
    /// STR: the text of a number, in a width and with decimals.
    Str = 43,
    /// DTOC: the text of a date.
    Dtoc = 54,
    /// CDOW: the name of the day of the week.
    Cdow = 59,
    /// CMONTH: the name of the month.
    Cmonth = 60,
}

/// A function that gives a date.
#[derive(Clone, Copy, PartialEq, Eq, Debug)]
pub enum DateFun {
    /// A date plus a number of days.
    DateAdd = 21,
    /// A date minus a number of days.
    DateSub = 22,
    /// IIF of dates.
    IifDate = 26,
    /// CTOD: the date that a text spells.
    Ctod = 53,
}

/// Any other function that gives a truth value.
#[derive(Clone, Copy, PartialEq, Eq, Debug)]
pub enum TruthFun {
    /// Whether two texts are equal, which EXACT tells how.
    TextEq = 9,
    /// Whether the first text is before the second.
    TextLess = 10,
    /// Whether the first text is behind the second.
    TextGreater = 11,
    /// Whether two dates are the same.
    DateEq = 12,
    /// Whether the first date is before the second, the blank date before all days.
    DateLess = 13,
    /// Whether the first date is after the second.
    DateGreater = 14,
    /// `.NOT.`
    Not = 15,
    /// `.AND.`
    And = 16,
    /// `.OR.`
    Or = 17,
    /// `$`: whether the first text stands in the second.
    In = 20,
    /// IIF of truth values.
    IifLogical = 27,
    /// ISALPHA: whether a text begins with an ASCII letter.
    IsAlpha = 44,
    /// ISUPPER: whether it begins with a capital.
    IsUpper = 45,
    /// ISLOWER: whether it begins with a small letter.
    IsLower = 46,
}

/// A function over values: those of expressions, and their operators.
#[derive(Clone, Copy, PartialEq, Eq, Debug)]
pub enum Fun {
    /// A number of two numbers.
    OfTwo(Arithmetic),
    /// Whether two numbers stand in an order.
    Compares(NumberOrder),
    /// A number of other arguments.
    ToNumber(NumberFun),
    /// A text.
    ToText(TextFun),
    /// A date.
    ToDate(DateFun),
    /// A truth value of other arguments.
    ToTruth(TruthFun),
}

/// All functions, by their numbers in code files from 1 on.
pub const FUNS: [Fun; 60] = [
    Fun::OfTwo(Arithmetic::Add),
    Fun::OfTwo(Arithmetic::Sub),
    Fun::OfTwo(Arithmetic::Mul),
    Fun::OfTwo(Arithmetic::Div),
    Fun::ToNumber(NumberFun::Neg),
    Fun::Compares(NumberOrder::NumberEq),
    Fun::Compares(NumberOrder::NumberLess),
    Fun::Compares(NumberOrder::NumberGreater),
    Fun::ToTruth(TruthFun::TextEq),
    Fun::ToTruth(TruthFun::TextLess),
    Fun::ToTruth(TruthFun::TextGreater),
    Fun::ToTruth(TruthFun::DateEq),
    Fun::ToTruth(TruthFun::DateLess),
    Fun::ToTruth(TruthFun::DateGreater),
    Fun::ToTruth(TruthFun::Not),
    Fun::ToTruth(TruthFun::And),
    Fun::ToTruth(TruthFun::Or),
    Fun::ToText(TextFun::Join),
    Fun::ToText(TextFun::JoinMoved),
    Fun::ToTruth(TruthFun::In),
    Fun::ToDate(DateFun::DateAdd),
    Fun::ToDate(DateFun::DateSub),
    Fun::ToNumber(NumberFun::DateDiff),
    Fun::ToNumber(NumberFun::IifNumber),
    Fun::ToText(TextFun::IifText),
    Fun::ToDate(DateFun::IifDate),
    Fun::ToTruth(TruthFun::IifLogical),
    Fun::ToNumber(NumberFun::Len),
    Fun::ToText(TextFun::Substr),
    Fun::ToText(TextFun::Left),
    Fun::ToText(TextFun::Right),
    Fun::ToText(TextFun::Trim),
    Fun::ToText(TextFun::Ltrim),
    Fun::ToText(TextFun::Upper),
    Fun::ToText(TextFun::Lower),
    Fun::ToText(TextFun::Space),
    Fun::ToText(TextFun::Replicate),
    Fun::ToNumber(NumberFun::At),
    Fun::ToText(TextFun::Stuff),
    Fun::ToNumber(NumberFun::Asc),
    Fun::ToText(TextFun::Chr),
    Fun::ToNumber(NumberFun::Val),
    Fun::ToText(TextFun::Str),
    Fun::ToTruth(TruthFun::IsAlpha),
    Fun::ToTruth(TruthFun::IsUpper),
    Fun::ToTruth(TruthFun::IsLower),
    Fun::ToNumber(NumberFun::Abs),
    Fun::ToNumber(NumberFun::Int),
    Fun::OfTwo(Arithmetic::Mod),
    Fun::OfTwo(Arithmetic::Round),
    Fun::OfTwo(Arithmetic::Max),
    Fun::OfTwo(Arithmetic::Min),
    Fun::ToDate(DateFun::Ctod),
    Fun::ToText(TextFun::Dtoc),
    Fun::ToNumber(NumberFun::Day),
    Fun::ToNumber(NumberFun::Month),
    Fun::ToNumber(NumberFun::Year),
    Fun::ToNumber(NumberFun::Dow),
    Fun::ToText(TextFun::Cdow),
    Fun::ToText(TextFun::Cmonth),
];

/// The kinds that the function takes, in the order of its arguments, and the kind of its result.
pub fn signature(fun: Fun) -> (&'static [Kind], Kind)
    ensures takes { result.0.now ≡ takes_of fun }
    ensures gives { result.1 ≡ gives_of fun }
{
    (fun.takes(), fun.gives())
}

fn nth(funs: &[Fun], index: usize) -> Option<Fun>
    ensures { result ≡ slice_get funs.now index }
{
    funs.get(index).copied()
}

impl NumberFun {
    fn takes(self) -> &'static [Kind]
        ensures { result.now ≡ takes_of (ToNumber self) }
    {
        match self {
            NumberFun::Neg | NumberFun::Abs | NumberFun::Int => &[Kind::Number],
            NumberFun::Len | NumberFun::Asc | NumberFun::Val => &[Kind::Text],
            NumberFun::At => &[Kind::Text, Kind::Text],
            NumberFun::Day | NumberFun::Month | NumberFun::Year | NumberFun::Dow => &[Kind::Date],
            NumberFun::DateDiff => &[Kind::Date, Kind::Date],
            NumberFun::IifNumber => &[Kind::Logical, Kind::Number, Kind::Number],
        }
    }
}

impl TextFun {
    fn takes(self) -> &'static [Kind]
        ensures { result.now ≡ takes_of (ToText self) }
    {
        use TextFun::*;

        match self {
            Join | JoinMoved => &[Kind::Text, Kind::Text],
            IifText => &[Kind::Logical, Kind::Text, Kind::Text],
            Substr => &[Kind::Text, Kind::Number, Kind::Number],
            Left | Right | Replicate => &[Kind::Text, Kind::Number],
            Trim | Ltrim | Upper | Lower => &[Kind::Text],
            Space | Chr => &[Kind::Number],
            Stuff => &[Kind::Text, Kind::Number, Kind::Number, Kind::Text],
            Str => &[Kind::Number, Kind::Number, Kind::Number],
            Dtoc | Cdow | Cmonth => &[Kind::Date],
        }
    }
}

impl DateFun {
    fn takes(self) -> &'static [Kind]
        ensures { result.now ≡ takes_of (ToDate self) }
    {
        match self {
            DateFun::DateAdd | DateFun::DateSub => &[Kind::Date, Kind::Number],
            DateFun::IifDate => &[Kind::Logical, Kind::Date, Kind::Date],
            DateFun::Ctod => &[Kind::Text],
        }
    }
}

impl TruthFun {
    fn takes(self) -> &'static [Kind]
        ensures { result.now ≡ takes_of (ToTruth self) }
    {
        use TruthFun::*;

        match self {
            TextEq | TextLess | TextGreater | In => &[Kind::Text, Kind::Text],
            DateEq | DateLess | DateGreater => &[Kind::Date, Kind::Date],
            Not => &[Kind::Logical],
            And | Or => &[Kind::Logical, Kind::Logical],
            IifLogical => &[Kind::Logical, Kind::Logical, Kind::Logical],
            IsAlpha | IsUpper | IsLower => &[Kind::Text],
        }
    }
}

impl Fun {
    /// The function's number in code files, from 1.
    pub fn number(self) -> u8
        ensures { result ≡ function_number self }
    {
        match self {
            Fun::OfTwo(fun) => fun as u8,
            Fun::Compares(order) => order as u8,
            Fun::ToNumber(fun) => fun as u8,
            Fun::ToText(fun) => fun as u8,
            Fun::ToDate(fun) => fun as u8,
            Fun::ToTruth(fun) => fun as u8,
        }
    }

    /// The function of this number, if there is one.
    pub fn numbered(number: u8) -> Option<Fun>
        ensures { result ≡ numbered number }
    {
        if number == 0 {
            return None;
        }
        nth(&FUNS, number as usize - 1)
    }

    /// The kinds of the arguments, in their order.
    pub fn takes(self) -> &'static [Kind]
        ensures value { result.now ≡ takes_of self }
        ensures few { length result.now ≤ 4 }
        ensures some { 0 < length result.now }
    {
        match self {
            Fun::OfTwo(_) | Fun::Compares(_) => &[Kind::Number, Kind::Number],
            Fun::ToNumber(fun) => fun.takes(),
            Fun::ToText(fun) => fun.takes(),
            Fun::ToDate(fun) => fun.takes(),
            Fun::ToTruth(fun) => fun.takes(),
        }
    }

    /// The kind of the result.
    pub fn gives(self) -> Kind
        ensures { result ≡ gives_of self }
    {
        match self {
            Fun::OfTwo(_) | Fun::ToNumber(_) => Kind::Number,
            Fun::ToText(_) => Kind::Text,
            Fun::ToDate(_) => Kind::Date,
            Fun::Compares(_) | Fun::ToTruth(_) => Kind::Logical,
        }
    }
}
