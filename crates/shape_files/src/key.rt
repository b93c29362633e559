//! Keys of declared indexes.

ghost use Rattle.std.specs.Prelude.{◌≡◌, ◌<◌, ◌⊎◌, ◌∷◌, ◌++◌, true, false, List, length, map, slice_get, codes};
ghost use Rattle.std.specs.Prelude.{None, IfErr, IfOk, IfSome, IsTrue, MatchOption};
ghost use Rattle.std.specs.Char.{to_ascii_uppercase};
ghost use Rattle.prg_expr.specs.declared.tree.BinaryOperator.TheVariants.{Plus};
ghost use Rattle.prg_expr.specs.Word.{Close as CloseWord, Name as NameWord, Open as OpenWord, Sign, Word};
ghost use Rattle.prg_expr.specs.Word.{words as words_of};
ghost use Rattle.shape.specs.declared.parts.KeyPart.{KeyPart as AnyPart};
ghost use Rattle.shape.specs.Keys.{name_of as name_of_field};
ghost use Rattle.shape_files.specs.declared.refusal.LineFault.TheVariants as fault;
ghost use Rattle.shape_files.specs.declared.refusal.LineRefusal.TheVariants as line;
ghost use Rattle.shape_files.specs.Keys.{LacksField, LacksKey, LacksPart, NamesField, OpensNothing, SpellsKey};
ghost use Rattle.shape_files.specs.Keys.{SpellsNoKey, key_words, part_words};

use crate::names::{as_byte, is_word};
use crate::refusal::{LineFault, LineRefusal};
use arrayvec::ArrayVec;
use dbf_file::Field;
use prg_expr::{BinaryOperator, MOST_LETTERS, Token, name_of, words};
use shape::{KeyPart, KeyParts, Name};
use std::alloc::Global;

/// The parts of a key, as they are read.
type Parts = ArrayVec<KeyPart, 8>;

/// A name in capitals, if it isn't too long.
fn capitals(word: &[u8]) -> Option<Name>
    ensures { MatchOption result (10 < length word.now) (λ name. name.items ≡ map to_ascii_uppercase word.now) }
{
    if MOST_LETTERS < word.len() {
        return None;
    }
    Some(name_of(word))
}

/// Whether the word is UPPER, in any letter case.
fn is_upper(word: &[u8]) -> bool
    ensures is { IsTrue result → map to_ascii_uppercase word.now ≡ codes "UPPER" }
    ensures only { map to_ascii_uppercase word.now ≡ codes "UPPER" → IsTrue result }
{
    match capitals(word) {
        Some(name) => is_word(&name, b"UPPER"),
        None => false,
    }
}

/// The number of the first field of that name.
#[tactic(auto, using(std::proofs::lemmas::Option::slice_get_read))]
fn field_of(fields: &[Field], name: &[u8]) -> Option<u8>
    ensures found { IfSome result (λ n. name_of_field (slice_get fields.now n) ≡ name.now) }
    ensures none { result ≡ None → LacksField fields.now name.now }
{
    for (n, field) in fields.iter().enumerate() {
        if is_word(&field.name, name) {
            return as_byte(n);
        }
    }
    None
}

/// The part that is the field of that name in any letter case.
fn part_of(fields: &[Field], word: &[u8], upper: bool) -> Option<KeyPart>
    ensures named { IfSome result (λ part. name_of_field (slice_get fields.now part.field)
        ≡ map to_ascii_uppercase word.now) }
    ensures upper { IfSome result (λ part. part.upper ≡ upper) }
    ensures none { result ≡ None → LacksField fields.now (map to_ascii_uppercase word.now) }
{
    let name = capitals(word)?;
    let field = field_of(fields, name.as_slice())?;
    Some(KeyPart { field, upper })
}

/// The part behind UPPER and its parenthesis, and the words behind it.
fn upper_part_at<'t>(
    fields: &[Field],
    tokens: &'t [Token<'t>],
) -> Option<(KeyPart, &'t [Token<'t>])>
    ensures part { IfSome result (λ x. NameWord (codes "UPPER") ∷ OpenWord ∷ words_of tokens.now
        ≡ part_words fields.now x.0 ++ words_of x.1.now) }
    ensures upper { IfSome result (λ x. x.0.upper ≡ true) }
    ensures none { result ≡ None → (part : AnyPart) (rest : List Word) → NamesField fields.now part
        → words_of tokens.now ≡ NameWord (name_of_field (slice_get fields.now part.field)) ∷ CloseWord ∷ rest → ⊥ }
    ensures shorter { IfSome result (λ x. length x.1.now < length tokens.now) }
{
    match tokens {
        [Token::Name(word), Token::Close, rest @ ..] => {
            let part = part_of(fields, word, true)?;
            Some((part, rest))
        }
        _ => None,
    }
}

/// The part in front, and the words behind it.
fn part_at<'t>(fields: &[Field], tokens: &'t [Token<'t>]) -> Option<(KeyPart, &'t [Token<'t>])>
    ensures part { IfSome result (λ x. words_of tokens.now ≡ part_words fields.now x.0 ++ words_of x.1.now) }
    ensures plain { IfSome result (λ x. x.0.upper ≡ false → OpensNothing (words_of x.1.now)) }
    ensures none { result ≡ None → LacksPart fields.now (words_of tokens.now) }
    ensures shorter { IfSome result (λ x. length x.1.now < length tokens.now) }
{
    match tokens {
        [Token::Name(word), Token::Open, rest @ ..] => {
            if !is_upper(word) {
                return None;
            }
            upper_part_at(fields, rest)
        }
        [Token::Name(word), rest @ ..] => {
            let part = part_of(fields, word, false)?;
            Some((part, rest))
        }
        _ => None,
    }
}

fn is_plus(operator: BinaryOperator) -> bool
    ensures is { IsTrue result → operator ≡ Plus }
    ensures only { operator ≡ Plus → IsTrue result }
{
    matches!(operator, BinaryOperator::Plus)
}

/// The words behind a plus sign in front.
fn behind_plus<'t>(tokens: &'t [Token<'t>]) -> Option<&'t [Token<'t>]>
    ensures plus { IfSome result (λ rest. words_of tokens.now ≡ Sign Plus ∷ words_of rest.now) }
    ensures none { result ≡ None → (rest : List Word) → words_of tokens.now ≡ Sign Plus ∷ rest → ⊥ }
    ensures shorter { IfSome result (λ rest. length rest.now < length tokens.now) }
{
    match tokens {
        [Token::Operator(operator), rest @ ..] => {
            if is_plus(*operator) { Some(rest) } else { None }
        }
        _ => None,
    }
}

/// The parts that words spell.
fn parts_of<'t>(fields: &[Field], tokens: &'t [Token<'t>]) -> Option<Parts>
    ensures spelled { IfSome result (λ parts. words_of tokens.now ≡ key_words fields.now parts.items) }
    ensures none { result ≡ None → LacksKey fields.now (words_of tokens.now) }
{
    let (first, mut rest) = part_at(fields, tokens)?;
    let mut parts = Parts::new();
    parts.push(first);
    while let Some(others) = behind_plus(rest) {
        let (part, behind) = part_at(fields, others)?;
        if parts.is_full() {
            return None;
        }
        parts.push(part);
        rest = behind;
    }
    if !rest.is_empty() {
        return None;
    }
    Some(parts)
}

/// The key that a text spells over these fields, whose names are in capitals.
pub fn key_of(alloc: Global, fields: &[Field], text: &[u8]) -> Result<KeyParts, LineRefusal>
    ensures spelled { IfOk result (SpellsKey fields.now text.now) }
    ensures refused { IfErr result (λ why. (why ≡ line.Memory)
        ⊎ ((why ≡ line.Fault fault.Key) × SpellsNoKey fields.now text.now)) }
{
    let line = words(alloc, text)?;
    if line.fault.is_some() {
        return Err(LineRefusal::Fault(LineFault::Key));
    }
    match parts_of(fields, &line.words) {
        Some(parts) => Ok(KeyParts::new(parts.as_slice())),
        None => Err(LineRefusal::Fault(LineFault::Key)),
    }
}
