//! Cutting a line into words.

ghost use Rattle.std.specs.Prelude.{◌≡◌, ◌≤◌, ◌<◌, ◌∷◌, ◌^◌, ◌-◌, ◌==◌, ℕ, List, length, not, IfOk, option_map};
ghost use Rattle.std.specs.Char.{is_ascii_digit};
ghost use Rattle.std.specs.List.{prefix_len};
ghost use Rattle.prg_expr.specs.Word.{word_of};
ghost use Rattle.prg_expr.specs.Lexicon as lexicon;
ghost use Rattle.prg_expr.specs.Scanning as spec;
ghost use Rattle.prg_expr.specs.Scanning.{scan, seen, IsScanned, IsWordsOf};
ghost use Rattle.prg_expr.specs.Lexicon.{Spot, IsLine};

use crate::fault::{ParseFaultKind, least};
use crate::token::{Line, Token};
use crate::tree::{BinaryOperator, MOST_LETTERS, MOST_TEXT};
use std::alloc::{AllocError, Global};

/// The most digits of a number.
const MOST_DIGITS: usize = 19;

/// The most digits of a number behind its point.
const MOST_DECIMALS: usize = 15;

/// One word, its fault if it has one, and the bytes behind it.
#[derive(Clone, Copy)]
pub(crate) struct Scanned<'a> {
    token: Token<'a>,
    fault: Option<ParseFaultKind>,
    rest: &'a [u8],
}

fn is_name(b: u8) -> bool
    ensures { result ≡ lexicon.goes_on_name b }
{
    b.is_ascii_alphanumeric() || b == b'_'
}

fn is_blank(b: u8) -> bool
    ensures { result ≡ lexicon.is_blank_or_tab b }
{
    b == b' ' || b == b'\t'
}

fn is_quote(b: u8) -> bool
    ensures { result ≡ lexicon.is_quote b }
{
    b == b'\'' || b == b'"' || b == b'['
}

/// The mark that ends a text which this mark begins.
fn closing(b: u8) -> u8
    ensures { result ≡ lexicon.closing b }
{
    if b == b'[' { b']' } else { b }
}

fn digits_len(bytes: &[u8]) -> usize
    ensures value { result ≡ prefix_len is_ascii_digit bytes.now }
    ensures within { result ≤ length bytes.now }
{
    bytes.iter().take_while(|b| b.is_ascii_digit()).count()
}

fn name_len(bytes: &[u8]) -> usize
    ensures value { result ≡ prefix_len lexicon.goes_on_name bytes.now }
    ensures within { result ≤ length bytes.now }
{
    bytes.iter().take_while(|b| is_name(**b)).count()
}

fn text_len(close: u8, bytes: &[u8]) -> usize
    ensures value { result ≡ prefix_len (λ c. not (c == close)) bytes.now }
    ensures within { result ≤ length bytes.now }
{
    bytes.iter().take_while(|b| **b != close).count()
}

/// TooLong, where there are more than so many.
fn over(most: usize, count: usize) -> Option<ParseFaultKind>
    ensures { result ≡ lexicon.over most count }
{
    if most < count {
        Some(ParseFaultKind::TooLong)
    } else {
        None
    }
}

/// How many digits stand behind the point that the bytes begin with: none where they begin with no point.
#[tactic(auto, unfolding(crate::specs::Lexicon::decimals))]
fn decimals(bytes: &[u8]) -> usize
    ensures value { result ≡ lexicon.decimals bytes.now }
    ensures within { result ≤ length bytes.now - 1 }
{
    let Some((b, digits)) = bytes.split_first() else {
        return 0;
    };
    if *b == b'.' { digits_len(digits) } else { 0 }
}

/// The fault of a number of so many digits before and behind the point.
fn number_fault(whole: usize, fraction: usize) -> Option<ParseFaultKind>
    requires before { whole < 2 ^ 63 }
    requires behind { fraction < 2 ^ 63 }
    ensures { result ≡ lexicon.number_fault whole fraction }
{
    if MOST_DECIMALS < fraction || MOST_DIGITS < whole + fraction {
        Some(ParseFaultKind::Number)
    } else {
        None
    }
}

/// The number at the front.
#[tactic(auto, unfolding(crate::specs::Scanning::number_scanned))]
fn number_at<'a>(bytes: &'a [u8]) -> Scanned<'a>
    ensures { seen result ≡ spec.number_scanned bytes.now }
{
    let whole = digits_len(bytes);
    let fraction = decimals(&bytes[whole..]);
    let len = if fraction == 0 {
        whole
    } else {
        whole + (1 + fraction)
    };
    let (number, rest) = bytes.split_at(len);
    Scanned {
        token: Token::Number(number),
        fault: number_fault(whole, fraction),
        rest,
    }
}

/// The name at the front.
#[tactic(auto, unfolding(crate::specs::Scanning::name_scanned))]
fn name_at<'a>(bytes: &'a [u8]) -> Scanned<'a>
    ensures { seen result ≡ spec.name_scanned bytes.now }
{
    let len = name_len(bytes);
    let (name, rest) = bytes.split_at(len);
    Scanned {
        token: Token::Name(name),
        fault: over(MOST_LETTERS, len),
        rest,
    }
}

/// The text, if a mark that ends it follows.
fn text_end<'a>(text: &'a [u8], rest: &'a [u8]) -> Scanned<'a>
    ensures { seen result ≡ spec.text_end text.now rest.now }
{
    let Some((_, behind)) = rest.split_first() else {
        return Scanned {
            token: Token::Text(text),
            fault: Some(ParseFaultKind::Text),
            rest,
        };
    };
    Scanned {
        token: Token::Text(text),
        fault: over(MOST_TEXT, text.len()),
        rest: behind,
    }
}

/// The text in front of this mark.
#[tactic(auto, unfolding(crate::specs::Scanning::text_scanned))]
fn text_at<'a>(close: u8, bytes: &'a [u8]) -> Scanned<'a>
    ensures { seen result ≡ spec.text_scanned close bytes.now }
{
    let len = text_len(close, bytes);
    let (text, rest) = bytes.split_at(len);
    text_end(text, rest)
}

/// What is behind these small letters, in capitals or not.
#[tactic(auto, unfolding(crate::specs::Lexicon::after_word))]
fn after_word<'a>(word: &[u8], bytes: &'a [u8]) -> Option<&'a [u8]>
    ensures found { option_map (λ x. x.now) result ≡ lexicon.after_word word.now bytes.now }
{
    let Some((letter, letters)) = word.split_first() else {
        return Some(bytes);
    };
    let Some((b, rest)) = bytes.split_first() else {
        return None;
    };
    if b.to_ascii_lowercase() == *letter {
        after_word(letters, rest)
    } else {
        None
    }
}

/// A word without a fault, and the bytes behind it.
fn clean_at<'a>(token: Token<'a>, rest: &'a [u8]) -> Scanned<'a>
    ensures { seen result ≡ spec.clean_at (word_of token.entry) rest.now }
{
    Scanned {
        token,
        fault: None,
        rest,
    }
}

/// The word between points whose first point stands before these bytes.
fn pointed_at<'a>(bytes: &'a [u8]) -> Scanned<'a>
    ensures { seen result ≡ spec.pick lexicon.pointed bytes.now }
{
    if let Some(rest) = after_word(b"t.", bytes) {
        return clean_at(Token::Logical(true), rest);
    }
    if let Some(rest) = after_word(b"y.", bytes) {
        return clean_at(Token::Logical(true), rest);
    }
    if let Some(rest) = after_word(b"f.", bytes) {
        return clean_at(Token::Logical(false), rest);
    }
    if let Some(rest) = after_word(b"n.", bytes) {
        return clean_at(Token::Logical(false), rest);
    }
    if let Some(rest) = after_word(b"not.", bytes) {
        return clean_at(Token::Not, rest);
    }
    if let Some(rest) = after_word(b"and.", bytes) {
        return clean_at(Token::Operator(BinaryOperator::And), rest);
    }
    if let Some(rest) = after_word(b"or.", bytes) {
        return clean_at(Token::Operator(BinaryOperator::Or), rest);
    }
    clean_at(Token::Point, bytes)
}

/// Whether a digit begins the bytes.
fn digit_first(bytes: &[u8]) -> bool
    ensures { result ≡ lexicon.digit_first bytes.now }
{
    match bytes {
        [] => false,
        [b, ..] => b.is_ascii_digit(),
    }
}

/// The word of two bytes.
fn pair_of<'a>(b: u8, c: u8) -> Option<Token<'a>>
    ensures { option_map word_of result ≡ lexicon.pair_in lexicon.pairs b c }
{
    if b == b'-' && c == b'>' {
        return Some(Token::Arrow);
    }
    if b == b'<' && c == b'>' {
        return Some(Token::Operator(BinaryOperator::NotEqual));
    }
    if b == b'<' && c == b'=' {
        return Some(Token::Operator(BinaryOperator::AtMost));
    }
    if b == b'>' && c == b'=' {
        return Some(Token::Operator(BinaryOperator::AtLeast));
    }
    if b == b'?' && c == b'?' {
        return Some(Token::ShowOn);
    }
    None
}

/// The word of one byte.
fn single_of<'a>(b: u8) -> Option<Token<'a>>
    ensures { option_map word_of result ≡ lexicon.single_in lexicon.singles b }
{
    match b {
        b'(' => Some(Token::Open),
        b')' => Some(Token::Close),
        b'*' => Some(Token::Operator(BinaryOperator::Times)),
        b'+' => Some(Token::Operator(BinaryOperator::Plus)),
        b',' => Some(Token::Comma),
        b'-' => Some(Token::Operator(BinaryOperator::Minus)),
        b'/' => Some(Token::Operator(BinaryOperator::Over)),
        b'<' => Some(Token::Operator(BinaryOperator::Less)),
        b'=' => Some(Token::Operator(BinaryOperator::Equal)),
        b'>' => Some(Token::Operator(BinaryOperator::Greater)),
        b'#' => Some(Token::Operator(BinaryOperator::NotEqual)),
        b'$' => Some(Token::Operator(BinaryOperator::Contains)),
        b'?' => Some(Token::Show),
        b'@' => Some(Token::At),
        _ => None,
    }
}

/// The word of one byte that isn't the first of two which are a word.
#[tactic(auto, unfolding(crate::specs::Scanning::single_at))]
fn single_at<'a>(b: u8, rest: &'a [u8]) -> Scanned<'a>
    ensures { seen result ≡ spec.single_at b rest.now }
{
    if let Some(token) = single_of(b) {
        return Scanned {
            token,
            fault: None,
            rest,
        };
    }
    if b == b'&' {
        return Scanned {
            token: Token::Macro,
            fault: Some(ParseFaultKind::Macro),
            rest,
        };
    }
    Scanned {
        token: Token::Faulty,
        fault: Some(ParseFaultKind::Character),
        rest,
    }
}

/// The word of one byte or two.
#[tactic(auto, unfolding(crate::specs::Scanning::symbol_at))]
fn symbol_at<'a>(b: u8, rest: &'a [u8]) -> Scanned<'a>
    ensures { seen result ≡ spec.symbol_at b rest.now }
{
    let Some((c, behind)) = rest.split_first() else {
        return single_at(b, rest);
    };
    if let Some(token) = pair_of(b, *c) {
        return Scanned {
            token,
            fault: None,
            rest: behind,
        };
    }
    single_at(b, rest)
}

/// The word at the front, whose first byte is `b`.
#[tactic(auto, unfolding(crate::specs::Scanning::word_at))]
fn word_at<'a>(b: u8, rest: &'a [u8], bytes: &'a [u8]) -> Scanned<'a>
    requires { bytes.now ≡ b ∷ rest.now }
    ensures { seen result ≡ spec.word_at b rest.now }
{
    if b.is_ascii_digit() {
        number_at(bytes)
    } else if b.is_ascii_alphabetic() {
        name_at(bytes)
    } else if b == b'.' {
        if digit_first(rest) {
            number_at(bytes)
        } else {
            pointed_at(rest)
        }
    } else if is_quote(b) {
        text_at(closing(b), rest)
    } else {
        symbol_at(b, rest)
    }
}

/// Whether a comment begins with `b`.
fn is_comment(b: u8, rest: &[u8]) -> bool
    ensures { result ≡ lexicon.is_comment b rest.now }
{
    match rest {
        [] => false,
        [c, ..] => b == b'&' && *c == b'&',
    }
}

/// The words of a line, read from left to right.
pub(crate) fn cut<'a>(alloc: Global, line: &'a [u8]) -> Result<Line<'a>, AllocError>
    ensures { IfOk result (IsScanned line.now) }
{
    let mut words = Vec::new(alloc);
    let mut fault = None;
    let mut rest = line;
    while let Some((b, after)) = rest.split_first() {
        if is_blank(*b) {
            rest = after;
        } else if is_comment(*b, after) {
            return Ok(Line { words, fault });
        } else {
            let found = word_at(*b, after, rest);
            words.push(found.token)?;
            fault = least(fault, found.fault);
            rest = found.rest;
        }
    }
    Ok(Line { words, fault })
}

/// The words of a line and the least of their faults. A tab outside texts is a blank, and `&&` outside texts begins
/// a comment, which isn't looked at. Only want of memory is refused.
pub fn words<'a>(alloc: Global, line: &'a [u8]) -> Result<Line<'a>, AllocError>
    // Each word stands for its bytes, in order, with blanks between, and the fault told is the least of theirs.
    ensures words { IfOk result (IsWordsOf line.now) }
    // They are the ones that reading from left to right finds.
    ensures scanned { IfOk result (IsScanned line.now) }
{
    cut(alloc, line)
}

/// The bytes of a line are words in one way only.
pub fn one_line()
    ensures { (line : List ℕ) (a b : List Spot) → IsLine a line → IsLine b line → a ≡ b }
{}

/// The words found by going through a line from left to right are the words that its bytes are, no more than these.
pub fn lines_are_cut()
    ensures cut { (line : List ℕ) → IsLine (scan line) line }
    ensures few { (line : List ℕ) → length (scan line) ≤ length line }
{}
