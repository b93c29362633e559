//! The functions that expressions call by name.

ghost use Rattle.std.specs.Prelude.{◌≡◌, ℕ, List, Some, true, map};
ghost use Rattle.std.specs.Char.{to_ascii_uppercase};
ghost use Rattle.prg_expr.specs.Functions as functions;
ghost use Rattle.prg_expr.specs.Lexicon.{IsOneOf};

use crate::names::is_word;

/// A function that expressions call by name.
#[derive(Clone, Copy, Debug)]
pub enum Function {
    Iif,
    Len,
    Substr,
    Left,
    Right,
    /// TRIM and RTRIM.
    Trim,
    Ltrim,
    Upper,
    Lower,
    Space,
    Replicate,
    At,
    Stuff,
    Asc,
    Chr,
    Val,
    Str,
    IsAlpha,
    IsUpper,
    IsLower,
    Abs,
    Int,
    Mod,
    Round,
    Max,
    Min,
    Ctod,
    Dtoc,
    Day,
    Month,
    Year,
    Dow,
    Cdow,
    Cmonth,
    Recno,
    Reccount,
    Eof,
    Bof,
    Found,
    Deleted,
    Date,
}

/// Whether the function takes so many arguments.
#[tactic(auto, unfolding(crate::specs::Functions::takes_so_many))]
pub fn takes(function: Function, arguments: usize) -> bool
    ensures { result ≡ functions.takes_so_many function arguments }
{
    fewest(function) <= arguments && arguments <= most(function)
}

/// The fewest arguments that a function takes.
fn fewest(function: Function) -> usize
    ensures { result ≡ functions.fewest function }
{
    match function {
        Function::Recno
        | Function::Reccount
        | Function::Eof
        | Function::Bof
        | Function::Found
        | Function::Deleted
        | Function::Date => 0,
        Function::Substr
        | Function::Left
        | Function::Right
        | Function::Replicate
        | Function::At
        | Function::Mod
        | Function::Round
        | Function::Max
        | Function::Min => 2,
        Function::Iif => 3,
        Function::Stuff => 4,
        _ => 1,
    }
}

/// The most arguments that a function takes.
fn most(function: Function) -> usize
    ensures { result ≡ functions.most function }
{
    match function {
        Function::Substr | Function::Str => 3,
        _ => fewest(function),
    }
}

/// The function of a name, in any letter case, whole or cut to four letters or more.
#[tactic(auto, unfolding(crate::specs::Functions::function_named))]
pub fn function_named(name: &[u8]) -> Option<Function>
    ensures { result ≡ functions.function_named (map to_ascii_uppercase name.now) }
{
    if let Some(function) = text_function(name) {
        return Some(function);
    }
    if let Some(function) = part_function(name) {
        return Some(function);
    }
    if let Some(function) = byte_function(name) {
        return Some(function);
    }
    if let Some(function) = number_function(name) {
        return Some(function);
    }
    if let Some(function) = date_function(name) {
        return Some(function);
    }
    table_function(name)
}

/// The functions of whole texts.
fn text_function(name: &[u8]) -> Option<Function>
    ensures { result ≡ functions.function_of_word functions.of_texts (map to_ascii_uppercase name.now) }
{
    if is_word(name, b"LEN") {
        return Some(Function::Len);
    }
    if is_word(name, b"TRIM") {
        return Some(Function::Trim);
    }
    if is_word(name, b"RTRIM") {
        return Some(Function::Trim);
    }
    if is_word(name, b"LTRIM") {
        return Some(Function::Ltrim);
    }
    if is_word(name, b"UPPER") {
        return Some(Function::Upper);
    }
    if is_word(name, b"LOWER") {
        return Some(Function::Lower);
    }
    if is_word(name, b"SPACE") {
        return Some(Function::Space);
    }
    if is_word(name, b"REPLICATE") {
        return Some(Function::Replicate);
    }
    None
}

/// The functions of parts of texts.
fn part_function(name: &[u8]) -> Option<Function>
    ensures { result ≡ functions.function_of_word functions.of_parts (map to_ascii_uppercase name.now) }
{
    if is_word(name, b"SUBSTR") {
        return Some(Function::Substr);
    }
    if is_word(name, b"LEFT") {
        return Some(Function::Left);
    }
    if is_word(name, b"RIGHT") {
        return Some(Function::Right);
    }
    if is_word(name, b"AT") {
        return Some(Function::At);
    }
    if is_word(name, b"STUFF") {
        return Some(Function::Stuff);
    }
    if is_word(name, b"IIF") {
        return Some(Function::Iif);
    }
    None
}

/// The functions of first bytes, and between texts and numbers.
fn byte_function(name: &[u8]) -> Option<Function>
    ensures { result ≡ functions.function_of_word functions.of_bytes (map to_ascii_uppercase name.now) }
{
    if is_word(name, b"ASC") {
        return Some(Function::Asc);
    }
    if is_word(name, b"CHR") {
        return Some(Function::Chr);
    }
    if is_word(name, b"VAL") {
        return Some(Function::Val);
    }
    if is_word(name, b"STR") {
        return Some(Function::Str);
    }
    if is_word(name, b"ISALPHA") {
        return Some(Function::IsAlpha);
    }
    if is_word(name, b"ISUPPER") {
        return Some(Function::IsUpper);
    }
    if is_word(name, b"ISLOWER") {
        return Some(Function::IsLower);
    }
    None
}

/// The functions of numbers.
fn number_function(name: &[u8]) -> Option<Function>
    ensures { result ≡ functions.function_of_word functions.of_numbers (map to_ascii_uppercase name.now) }
{
    if is_word(name, b"ABS") {
        return Some(Function::Abs);
    }
    if is_word(name, b"INT") {
        return Some(Function::Int);
    }
    if is_word(name, b"MOD") {
        return Some(Function::Mod);
    }
    if is_word(name, b"ROUND") {
        return Some(Function::Round);
    }
    if is_word(name, b"MAX") {
        return Some(Function::Max);
    }
    if is_word(name, b"MIN") {
        return Some(Function::Min);
    }
    None
}

/// The functions of dates.
fn date_function(name: &[u8]) -> Option<Function>
    ensures { result ≡ functions.function_of_word functions.of_dates (map to_ascii_uppercase name.now) }
{
    if is_word(name, b"CTOD") {
        return Some(Function::Ctod);
    }
    if is_word(name, b"DTOC") {
        return Some(Function::Dtoc);
    }
    if is_word(name, b"DAY") {
        return Some(Function::Day);
    }
    if is_word(name, b"MONTH") {
        return Some(Function::Month);
    }
    if is_word(name, b"YEAR") {
        return Some(Function::Year);
    }
    if is_word(name, b"DOW") {
        return Some(Function::Dow);
    }
    if is_word(name, b"CDOW") {
        return Some(Function::Cdow);
    }
    if is_word(name, b"CMONTH") {
        return Some(Function::Cmonth);
    }
    None
}

/// The functions of the selected area, and of the day.
fn table_function(name: &[u8]) -> Option<Function>
    ensures { result ≡ functions.function_of_word functions.of_tables (map to_ascii_uppercase name.now) }
{
    if is_word(name, b"RECNO") {
        return Some(Function::Recno);
    }
    if is_word(name, b"RECCOUNT") {
        return Some(Function::Reccount);
    }
    if is_word(name, b"EOF") {
        return Some(Function::Eof);
    }
    if is_word(name, b"BOF") {
        return Some(Function::Bof);
    }
    if is_word(name, b"FOUND") {
        return Some(Function::Found);
    }
    if is_word(name, b"DELETED") {
        return Some(Function::Deleted);
    }
    if is_word(name, b"DATE") {
        return Some(Function::Date);
    }
    None
}

/// Each function's word names it, whole or cut, so that no word names two.
pub fn one_function()
    ensures { (word : List ℕ) (x : functions.FunctionWord) → IsOneOf x functions.function_words
        → functions.is_cut word x.0 ≡ true
        → functions.function_named word ≡ Some x.1 }
{}
