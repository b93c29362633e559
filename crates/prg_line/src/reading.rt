//! What a line says, and which fault it has.

ghost use Rattle.std.specs.Prelude.{◌≡◌, ℕ, List, length, IfOk, Result, if◌then◌else◌, None};
ghost use Rattle.prg_expr.specs.Reading.{WordsGive};
ghost use Rattle.prg_expr.specs.Word.{words as tokens_of};
ghost use Rattle.prg_line.specs.LineSays.{LineSays};
ghost use Rattle.prg_line.specs.Alone as spec;
ghost use Rattle.prg_line.specs.Saying.{Saying, role_of, saying_of};
ghost use Rattle.prg_line.specs.Verbs.{ignores_rest};
ghost use Rattle.prg_expr.specs.declared.fault.ParseFaultKind.{ParseFaultKind as AnyKind};

use crate::forms::sentence;
use crate::reader::Reader;
use crate::role::Role;
use crate::statement::Sentence;
use crate::verb::{Verb, verb_of};
use prg_expr::{
    FormFault, MOST_WORDS, ParseFaultKind, Token, expressions_are_read, least, length_fault,
    lines_are_cut, one_line, words,
};
use std::alloc::{AllocError, Global};

/// A line that was read by itself.
#[derive(Debug, Drop)]
pub struct ReadLine {
    /// What it is to the blocks around it, also where it has a fault.
    pub role: Role,
    /// The least fault of its words, its form and its length.
    pub fault: Option<ParseFaultKind>,
    /// What it says; nothing where its form has a fault.
    pub sentence: Sentence,
}

/// How many words there are.
#[tactic(auto, using(prg_expr::proofs::Turns::words_length))]
fn count(tokens: &[Token<'_>]) -> usize
    ensures { result ≡ length (tokens_of tokens.now) }
{
    tokens.len()
}

/// Reads what the words of a command say, the first ones apart, in a line of so many words.
#[tactic(auto, unfolding(crate::specs::Alone::form))]
fn read_form(
    alloc: Global,
    verb: Verb,
    rest: &[Token<'_>],
    count: usize,
) -> Result<Sentence, FormFault>
    ensures { WordsGive saying_of result (spec.form count (verb, tokens_of rest.now)) }
{
    if verb.has_expressions() && MOST_WORDS < count {
        return Err(FormFault::Kind(ParseFaultKind::TooLong));
    }
    let mut reader = Reader {
        alloc,
        words: rest,
        behind_expression: false,
    };
    sentence(verb, &mut reader)
}

/// The least fault of the words of a line, where they count.
fn word_fault(verb: Verb, fault: Option<ParseFaultKind>) -> Option<ParseFaultKind>
    ensures { result ≡ (if ignores_rest verb then None else fault) }
{
    if verb.ignores_rest() { None } else { fault }
}

/// What was read of a line's form, and its fault.
fn told(form: Result<Sentence, FormFault>) -> Result<(Sentence, Option<ParseFaultKind>), AllocError>
    ensures { (read : Result Saying AnyKind) → WordsGive saying_of form read
        → IfOk result (λ x. (saying_of x.0 ≡ spec.saying_in read) × (x.1 ≡ spec.saying_fault read)) }
{
    match form {
        Ok(sentence) => Ok((sentence, None)),
        Err(FormFault::Kind(kind)) => Ok((Sentence::Nothing, Some(kind))),
        Err(FormFault::Memory) => Err(AllocError),
    }
}

/// Reads a line of these bytes by itself, without the blocks around it.
///
/// # Errors
///
/// Want of memory.
#[tactic(auto, unfolding(crate::specs::Alone::role_at, crate::specs::Alone::fault_at, crate::specs::Alone::saying_at))]
pub fn read_line(alloc: Global, text: &[u8]) -> Result<ReadLine, AllocError>
    // What the line is to the blocks around it.
    ensures role { IfOk result (λ read. read.role ≡ spec.role_at text.now) }
    // The least fault of its words, its form and its length.
    ensures fault { IfOk result (λ read. read.fault ≡ spec.fault_at text.now) }
    // What it says.
    ensures saying { IfOk result (λ read. saying_of read.sentence ≡ spec.saying_at text.now) }
{
    let line = words(alloc, text)?;
    let found = verb_of(&line.words);
    let word_fault = word_fault(found.verb, line.fault);
    let (sentence, form_fault) = told(read_form(
        alloc,
        found.verb,
        found.rest,
        count(&line.words),
    ))?;
    Ok(ReadLine {
        role: found.verb.role(),
        fault: least(least(word_fault, form_fault), length_fault(text)),
        sentence,
    })
}

/// Reading a line from left to right finds what it says.
pub fn lines_are_read()
    // A line without a fault says what is read, and is to the blocks around it what that is.
    ensures sound { (text : List ℕ) → spec.fault_at text ≡ None → LineSays (spec.saying_at text) text }
    ensures placed { (text : List ℕ) → spec.fault_at text ≡ None → spec.role_at text ≡ role_of (spec.saying_at text) }
    // A line that says something has no fault, and what it says is read.
    ensures complete { (text : List ℕ) (s : Saying) → LineSays s text → (spec.fault_at text ≡ None)
        × (spec.saying_at text ≡ s) }
{
    expressions_are_read();
    lines_are_cut();
    one_line();
}

/// A line says one thing at most.
pub fn one_saying()
    ensures { (text : List ℕ) (a b : Saying) → LineSays a text → LineSays b text → a ≡ b }
{
    lines_are_read();
}
