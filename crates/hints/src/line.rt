//! The sentence that is told of a faulty line.

ghost use Rattle.std.specs.Prelude.{◌≡◌, map, true};
ghost use Rattle.std.specs.Char.{to_ascii_uppercase};
ghost use Rattle.prg_expr.specs.Word.{word_of, words as words_of};
ghost use Rattle.hints.specs.LeftOut as spec;
ghost use Rattle.hints.specs.Sentences.{is_sentence};

use crate::kinds::{of_command, of_kind, of_undeclared_index};
use crate::left_out::{LeftOut, by_first, by_two, by_word, of_answer, of_clause, of_function};
use prg_code::CompileFaultKind;
use prg_expr::{BinaryOperator, ParseFaultKind, Token, is_word, words};
use std::alloc::Global;

/// The first clause or alias among these words that is left out.
#[tactic(auto, unfolding(crate::specs::LeftOut::by_clause))]
fn by_clause(words: &[Token<'_>]) -> Option<LeftOut>
    ensures { result ≡ spec.by_clause (words_of words.now) }
{
    let Some((word, others)) = words.split_first() else {
        return None;
    };
    match word {
        Token::Arrow => Some(LeftOut::OtherAlias),
        Token::Name(name) => match of_clause(*name) {
            Some(found) => Some(found),
            None => by_clause(others),
        },
        _ => by_clause(others),
    }
}

/// What a command that begins with this name asks for, by the word behind it.
#[tactic(auto, unfolding(crate::specs::LeftOut::by_next))]
fn by_next(first: &[u8], rest: &[Token<'_>]) -> Option<LeftOut>
    ensures { result ≡ spec.by_next (map to_ascii_uppercase first.now) (words_of rest.now) }
{
    let Some((second, _)) = rest.split_first() else {
        return None;
    };
    match second {
        Token::Name(second) => by_two(first, *second),
        _ => None,
    }
}

/// What a command is left out with by its first words alone.
#[tactic(auto, unfolding(crate::specs::LeftOut::by_beginning))]
fn by_beginning(words: &[Token<'_>]) -> Option<LeftOut>
    ensures { result ≡ spec.by_beginning (words_of words.now) }
{
    let [Token::Name(first), rest @ ..] = words else {
        return None;
    };
    if let Some(found) = by_next(*first, rest) {
        return Some(found);
    }
    by_word(*first)
}

/// What a command that begins with this word asks for.
#[tactic(auto, unfolding(crate::specs::LeftOut::from_first))]
fn from_first(word: &Token<'_>, rest: &[Token<'_>]) -> Option<LeftOut>
    ensures { result ≡ spec.from_first (word_of word.now) (words_of rest.now) }
{
    match word {
        Token::Name(first) => {
            if let Some(found) = by_next(*first, rest) {
                return Some(found);
            }
            if let Some(found) = by_first(*first) {
                return Some(found);
            }
            by_clause(rest)
        }
        Token::At => match by_clause(rest) {
            Some(found) => Some(found),
            None => Some(LeftOut::AtForms),
        },
        _ => by_clause(rest),
    }
}

/// What a command of these words asks for that is left out.
#[tactic(auto, unfolding(crate::specs::LeftOut::of_command))]
fn in_command(words: &[Token<'_>]) -> Option<LeftOut>
    ensures { result ≡ spec.of_command (words_of words.now) }
{
    let Some((first, rest)) = words.split_first() else {
        return None;
    };
    from_first(first, rest)
}

/// What is left out where a call begins so.
#[tactic(auto, unfolding(crate::specs::LeftOut::in_call))]
fn in_call(name: &[u8], behind: &[Token<'_>]) -> Option<LeftOut>
    ensures { result ≡ spec.in_call (map to_ascii_uppercase name.now) (words_of behind.now) }
{
    if let Some(found) = of_function(name) {
        return Some(found);
    }
    let Some((next, _)) = behind.split_first() else {
        return of_answer(name);
    };
    match next {
        Token::Close => None,
        _ => of_answer(name),
    }
}

/// What is left out where these words begin.
#[tactic(auto, unfolding(crate::specs::LeftOut::at_the_front))]
fn in_front(words: &[Token<'_>]) -> Option<LeftOut>
    ensures { result ≡ spec.at_the_front (words_of words.now) }
{
    match words {
        [Token::Name(name), Token::Open, behind @ ..] => in_call(*name, behind),
        [
            Token::Operator(BinaryOperator::Times),
            Token::Operator(BinaryOperator::Times),
            ..
        ] => { Some(LeftOut::Powers) }
        _ => None,
    }
}

/// The first function or operator among these words that is left out.
#[tactic(auto, unfolding(crate::specs::LeftOut::of_expression))]
fn in_expression(words: &[Token<'_>]) -> Option<LeftOut>
    ensures { result ≡ spec.of_expression (words_of words.now) }
{
    let Some((_, others)) = words.split_first() else {
        return None;
    };
    if let Some(found) = in_front(words) {
        return Some(found);
    }
    in_expression(others)
}

/// What a line asks for that is left out by the two words at its beginning.
#[tactic(auto, unfolding(crate::specs::LeftOut::by_start))]
fn by_start(words: &[Token<'_>]) -> Option<LeftOut>
    ensures { result ≡ spec.by_start (words_of words.now) }
{
    let [Token::Name(first), rest @ ..] = words else {
        return None;
    };
    by_next(*first, rest)
}

/// What a line with a faulty expression asks for that is left out: by a function or an operator, or else by the words
/// at its beginning.
#[tactic(auto, unfolding(crate::specs::LeftOut::of_faulty))]
fn in_faulty(words: &[Token<'_>]) -> Option<LeftOut>
    ensures { result ≡ spec.of_faulty (words_of words.now) }
{
    if let Some(found) = in_expression(words) {
        return Some(found);
    }
    by_start(words)
}

/// What a line with this fault asks for that is left out. Words that memory doesn't hold ask for nothing.
fn asked(alloc: Global, kind: ParseFaultKind, line: &[u8]) -> Option<LeftOut> {
    let Ok(read) = words(alloc, line) else {
        return None;
    };
    match kind {
        ParseFaultKind::Word => in_command(read.words.as_slice()),
        ParseFaultKind::Expression => in_faulty(read.words.as_slice()),
        ParseFaultKind::Character if line.contains(&b'^') => Some(LeftOut::Powers),
        ParseFaultKind::Character if line.trim_ascii_start().starts_with(b"!") => Some(
            LeftOut::Others,
        ),
        ParseFaultKind::Character | ParseFaultKind::Text => by_beginning(read.words.as_slice()),
        _ => None,
    }
}

/// What to do about a line of a command file that has this fault, in one sentence without its point. Where the line
/// asks for something that is left out of the language, the sentence says what to write instead. Else it says what the
/// fault means.
pub fn of_line(alloc: Global, kind: ParseFaultKind, line: &[u8]) -> &'static str
    ensures { is_sentence result.now ≡ true }
{
    match asked(alloc, kind, line) {
        Some(found) => found.instead(),
        None => of_kind(kind),
    }
}

/// Whether a line begins with SELECT.
fn is_selection(alloc: Global, line: &[u8]) -> bool {
    let Ok(read) = words(alloc, line) else {
        return false;
    };
    match read.words.as_slice() {
        [Token::Name(first), ..] => is_word(*first, b"SELECT"),
        _ => false,
    }
}

/// Whether one of these words is INDEX.
fn has_index_word(words: &[Token<'_>]) -> bool {
    match words {
        [Token::Name(word), others @ ..] => is_word(*word, b"INDEX") || has_index_word(others),
        [_, others @ ..] => has_index_word(others),
        [] => false,
    }
}

/// Whether a line is USE with indexes, or INDEX ON.
fn is_of_indexes(alloc: Global, line: &[u8]) -> bool {
    let Ok(read) = words(alloc, line) else {
        return false;
    };
    match read.words.as_slice() {
        [Token::Name(first), others @ ..] => {
            is_word(*first, b"INDEX") || (is_word(*first, b"USE") && has_index_word(others))
        }
        _ => false,
    }
}

/// What to do about a line of a command file whose command can't be compiled, in one sentence without its point.
pub fn of_compiled_line(alloc: Global, kind: CompileFaultKind, line: &[u8]) -> &'static str
    ensures { is_sentence result.now ≡ true }
{
    match kind {
        CompileFaultKind::Name if is_selection(alloc, line) => LeftOut::SelectZero.instead(),
        CompileFaultKind::Name if is_of_indexes(alloc, line) => of_undeclared_index(),
        _ => of_command(kind),
    }
}
