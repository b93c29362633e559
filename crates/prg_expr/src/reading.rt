//! Reading an expression from a text.

ghost use Rattle.std.specs.Prelude.{◌≡◌, ◌++◌, ℕ, List, IfErr, IfOk, Ok, Result};
ghost use Rattle.prg_expr.specs.declared.fault.ParseFaultKind.{ParseFaultKind as AnyFault};
ghost use Rattle.prg_expr.specs.Tree.{Tree, tree_of};
ghost use Rattle.prg_expr.specs.Spelling.{Answered, Answers, InFront, Spells, fault_told, read, told_of};
ghost use Rattle.prg_expr.specs.Faults.{OnFault, Tells};
ghost use Rattle.prg_expr.specs.Spelling as spec;
ghost use Rattle.prg_expr.specs.Grammar as grammar;
ghost use Rattle.prg_expr.specs.Word.{Word, words};
ghost use Rattle.prg_expr.specs.Reading.{WordsGive, front};

use crate::fault::{
    FormFault, MOST_WORDS, ParseFault, ParseFaultKind, ParseRefusal, least, length_fault,
};
use crate::lexer::cut;
use crate::parser::parse;
use crate::token::Token;
use crate::tree::Expr;
use std::alloc::Global;

/// Reads the form of a text of these words.
fn read_form(alloc: Global, tokens: &[Token<'_>]) -> Result<Expr, FormFault>
    ensures { WordsGive tree_of result (spec.tree_of_words (words tokens.now)) }
{
    if MOST_WORDS < tokens.len() {
        return Err(FormFault::Kind(ParseFaultKind::TooLong));
    }
    parse(alloc, tokens)
}

/// What was read, or the least of its fault and another.
fn told(fault: Option<ParseFaultKind>, form: Result<Expr, FormFault>) -> Result<Expr, FormFault>
    ensures { (read : Result Tree AnyFault) → WordsGive tree_of form read
        → WordsGive tree_of result (told_of fault read) }
{
    match form {
        Ok(tree) => match fault {
            None => Ok(tree),
            Some(fault) => Err(FormFault::Kind(fault)),
        },
        Err(FormFault::Memory) => Err(FormFault::Memory),
        Err(FormFault::Kind(found)) => match least(fault, Some(found)) {
            None => Err(FormFault::Kind(found)),
            Some(fault) => Err(FormFault::Kind(fault)),
        },
    }
}

/// What a text is read as.
#[tactic(auto, unfolding(crate::specs::Spelling::read))]
fn read_all(alloc: Global, text: &[u8]) -> Result<Expr, FormFault>
    ensures { WordsGive tree_of result (read text.now) }
{
    let line = cut(alloc, text)?;
    let fault = least(line.fault, length_fault(text));
    told(fault, read_form(alloc, &line.words))
}

/// What was read of a text, which is one line.
fn answered(form: Result<Expr, FormFault>) -> Result<Expr, ParseRefusal>
    ensures { (read : Result Tree AnyFault) → WordsGive tree_of form read → Answers result read }
{
    match form {
        Ok(tree) => Ok(tree),
        Err(FormFault::Memory) => Err(ParseRefusal::Memory),
        Err(FormFault::Kind(kind)) => Err(ParseRefusal::Fault(ParseFault { line: 1, kind })),
    }
}

/// The expression that a text spells.
///
/// # Errors
///
/// The least of the faults of its words, of its form and of its length, at line 1; the form of more than 4,096 words,
/// which are too long, isn't read. Want of memory.
pub fn expr(alloc: Global, text: &[u8]) -> Result<Expr, ParseRefusal>
    // What is answered is what the text spells.
    ensures spelled { IfOk result (λ e. Spells (tree_of e) text.now) }
    // What the text spells is answered, unless memory runs out.
    ensures only { (e : Tree) → Spells e text.now → Answered e result }
    // A text is refused for another cause than memory only where it spells nothing.
    ensures refused { IfErr result (λ refusal. OnFault refusal ((e : Tree) → Spells e text.now → ⊥)) }
    // The fault is the least one of the text.
    ensures told { IfErr result (Tells (fault_told text.now)) }
{
    answered(read_all(alloc, text))
}

/// A text spells at most one tree.
pub fn one_tree()
    ensures { (text : List ℕ) (a b : Tree) → Spells a text → Spells b text → a ≡ b }
{}

/// Reading words from left to right finds the expressions that words spell.
pub fn expressions_are_read()
    // What is found in front is spelled by the words up to the rest.
    ensures sound { (ws rest : List Word) (e : Tree) → front ws ≡ Ok (e, rest) → InFront e ws rest }
    // An expression behind which no word goes on with it is found.
    ensures complete { (ws rest : List Word) (e : Tree) → grammar.Spells e ws → grammar.Free 7 rest
        → front (ws ++ rest) ≡ Ok (e, rest) }
{}
