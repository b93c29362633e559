//! Reading a tree from words, by recursive descent.

ghost use Rattle.std.specs.Prelude.{◌≡◌, ◌-◌, ◌<◌, ◌≤◌, ◌++◌, length, IfOk, IfSome, List, Ok, map, option_map, suc};
ghost use Rattle.std.specs.Char.{to_ascii_uppercase};
ghost use Rattle.prg_expr.specs.declared.fault.FormFault.TheVariants as form_fault;
ghost use Rattle.prg_expr.specs.Tree.{Tree, tree_of, trees_of};
ghost use Rattle.prg_expr.specs.Word.{Word, word_of, words};
ghost use Rattle.prg_expr.specs.Grammar as grammar;
ghost use Rattle.prg_expr.specs.Reading as spec;
ghost use Rattle.prg_expr.specs.Reading.{WordsGive};
ghost use Rattle.prg_expr.specs.Spelling.{InFront, NoneLonger};

use crate::fault::{FormFault, ParseFaultKind};
use crate::function::{Function, function_named, takes};
use crate::names::name_of;
use crate::token::Token;
use crate::tree::{AliasedName, BinaryOperator, Expr, Literal, Prefix};
use fixed_num::Num;
use std::alloc::Global;

/// How many parentheses may be open at a place.
const MOST_OPEN: u8 = 32;

const SIGNS: u8 = 1;

const COMPARISON: u8 = 4;

const NEGATION: u8 = 5;

const LOOSEST: u8 = 7;

/// The level of an operator, from the tightest.
fn looseness(operator: BinaryOperator) -> u8
    ensures { result ≡ grammar.looseness operator }
{
    match operator {
        BinaryOperator::Times | BinaryOperator::Over => 2,
        BinaryOperator::Plus | BinaryOperator::Minus => 3,
        BinaryOperator::Equal
        | BinaryOperator::NotEqual
        | BinaryOperator::Less
        | BinaryOperator::Greater
        | BinaryOperator::AtMost
        | BinaryOperator::AtLeast
        | BinaryOperator::Contains => COMPARISON,
        BinaryOperator::And => 6,
        BinaryOperator::Or => LOOSEST,
    }
}

/// What a word is before its one operand.
fn prefix_of(token: &Token) -> Option<Prefix>
    ensures { result ≡ grammar.prefix_of (word_of token.now) }
{
    match token {
        Token::Not => Some(Prefix::Not),
        Token::Operator(BinaryOperator::Minus) => Some(Prefix::Negative),
        Token::Operator(BinaryOperator::Plus) => Some(Prefix::Positive),
        _ => None,
    }
}

/// The level of what stands before its one operand.
fn prefix_level(prefix: Prefix) -> u8
    ensures { result ≡ grammar.prefix_level prefix }
{
    match prefix {
        Prefix::Negative | Prefix::Positive => SIGNS,
        Prefix::Not => NEGATION,
    }
}

/// What the word is before an operand of the level.
#[tactic(auto, unfolding(crate::specs::Reading::prefix_at))]
fn prefix_at(level: u8, token: &Token) -> Option<Prefix>
    ensures { result ≡ spec.prefix_at level (word_of token.now) }
{
    let Some(prefix) = prefix_of(token) else {
        return None;
    };
    if prefix_level(prefix) == level {
        Some(prefix)
    } else {
        None
    }
}

/// The refusal of words that don't go on as they have to.
#[tactic(auto, unfolding(crate::specs::Reading::wrong_word))]
fn wrong(tokens: &[Token]) -> FormFault
    ensures { result ≡ form_fault.Kind (spec.wrong_word (words tokens.now)) }
{
    match tokens {
        [Token::Macro, ..] => FormFault::Kind(ParseFaultKind::Macro),
        _ => FormFault::Kind(ParseFaultKind::Expression),
    }
}

/// The operator at the front and the words after it, if it is of the level.
#[tactic(auto, unfolding(crate::specs::Reading::operator_at))]
fn operator_at<'a>(level: u8, tokens: &'a [Token<'a>]) -> Option<(BinaryOperator, &'a [Token<'a>])>
    ensures found { option_map (λ x. (x.0, words x.1.now)) result ≡ spec.operator_at level (words tokens.now) }
    ensures shorter { IfSome result (λ x. length x.1.now < length tokens.now) }
{
    match tokens {
        [Token::Operator(operator), rest @ ..] => {
            if looseness(*operator) == level {
                Some((*operator, rest))
            } else {
                None
            }
        }
        _ => None,
    }
}

/// The expression in parentheses, of which the closing one stands at the front, and the words after that.
#[tactic(auto, using(crate::proofs::Equations::tree_equations), unfolding(crate::specs::Reading::parenthesis_closed))]
fn close<'a>(
    alloc: Global,
    inner: Expr,
    tokens: &'a [Token<'a>],
) -> Result<(Expr, &'a [Token<'a>]), FormFault>
    ensures gives { WordsGive (λ x. (tree_of x.0, words x.1.now)) result
        (spec.parenthesis_closed (tree_of inner) (words tokens.now)) }
    ensures shorter { IfOk result (λ x. length x.1.now < length tokens.now) }
{
    match tokens {
        [Token::Close, rest @ ..] => Ok((Expr::Parentheses(Box::new(alloc, inner)?), rest)),
        _ => Err(wrong(tokens)),
    }
}

/// Whether a comma is at the front, or else a closing parenthesis, and the words after it.
#[tactic(auto, unfolding(crate::specs::Reading::separator))]
fn separator<'a>(tokens: &'a [Token<'a>]) -> Result<(bool, &'a [Token<'a>]), FormFault>
    ensures gives { WordsGive (λ x. (x.0, words x.1.now)) result (spec.separator (words tokens.now)) }
    ensures shorter { IfOk result (λ x. length x.1.now < length tokens.now) }
{
    match tokens {
        [Token::Comma, rest @ ..] => Ok((true, rest)),
        [Token::Close, rest @ ..] => Ok((false, rest)),
        _ => Err(wrong(tokens)),
    }
}

/// The call of a function, if it takes so many arguments.
#[tactic(auto, using(crate::proofs::Equations::call_equations), unfolding(crate::specs::Reading::call_read))]
fn call_of<'a>(
    function: Function,
    arguments: Vec<Expr>,
    rest: &'a [Token<'a>],
) -> Result<(Expr, &'a [Token<'a>]), FormFault>
    ensures gives { WordsGive (λ x. (tree_of x.0, words x.1.now)) result
        (spec.call_read function (trees_of arguments.items) (words rest.now)) }
    ensures same { IfOk result (λ x. x.1.now ≡ rest.now) }
{
    if takes(function, arguments.len()) {
        Ok((Expr::Call(function, arguments), rest))
    } else {
        Err(FormFault::Kind(ParseFaultKind::Expression))
    }
}

/// The name behind an arrow.
#[tactic(auto, using(crate::proofs::Equations::tree_equations), unfolding(crate::specs::Reading::qualified_at))]
fn qualified_at<'a>(
    alloc: Global,
    alias: &[u8],
    tokens: &'a [Token<'a>],
) -> Result<(Expr, &'a [Token<'a>]), FormFault>
    ensures gives { WordsGive (λ x. (tree_of x.0, words x.1.now)) result
        (spec.qualified_at (map to_ascii_uppercase alias.now) (words tokens.now)) }
    ensures shorter { IfOk result (λ x. length x.1.now < length tokens.now) }
{
    match tokens {
        [Token::Name(name), rest @ ..] => {
            let aliased = AliasedName {
                alias: name_of(alias),
                name: name_of(*name),
            };
            Ok((Expr::Qualified(Box::new(alloc, aliased)?), rest))
        }
        _ => Err(wrong(tokens)),
    }
}

/// The expression after the parenthesis at the front, of which `depth` may still be opened.
#[cycle(expression)]
#[tactic(auto, unfolding(crate::specs::Reading::inside))]
fn inside<'a>(
    alloc: Global,
    depth: u8,
    tokens: &'a [Token<'a>],
) -> Result<(Expr, &'a [Token<'a>]), FormFault>
    ensures gives { WordsGive (λ x. (tree_of x.0, words x.1.now)) result (spec.inside depth (words tokens.now)) }
    ensures shorter { IfOk result (λ x. length x.1.now < length tokens.now) }
{
    if depth == 0 {
        return Err(FormFault::Kind(ParseFaultKind::TooDeep));
    }
    reader(alloc, depth - 1, LOOSEST, tokens)
}

/// What begins with a name: a call, a name behind an alias, or the name alone.
#[cycle(expression)]
#[tactic(auto, using(crate::proofs::Equations::tree_equations), unfolding(crate::specs::Reading::named))]
fn named<'a>(
    alloc: Global,
    depth: u8,
    name: &[u8],
    tokens: &'a [Token<'a>],
) -> Result<(Expr, &'a [Token<'a>]), FormFault>
    ensures gives { WordsGive (λ x. (tree_of x.0, words x.1.now)) result
        (spec.named depth (spec.inside depth) (map to_ascii_uppercase name.now) (words tokens.now)) }
    ensures shorter { IfOk result (λ x. length x.1.now ≤ length tokens.now) }
{
    match tokens {
        [Token::Open, rest @ ..] => {
            let Some(function) = function_named(name) else {
                return Err(FormFault::Kind(ParseFaultKind::Expression));
            };
            Ok(called(alloc, depth, function, rest)?)
        }
        [Token::Arrow, rest @ ..] => Ok(qualified_at(alloc, name, rest)?),
        _ => Ok((Expr::Name(name_of(name)), tokens)),
    }
}

/// The call of a function, behind its parenthesis.
#[cycle(expression)]
#[tactic(auto, using(crate::proofs::Equations::tree_equations), unfolding(crate::specs::Reading::called_at))]
fn called<'a>(
    alloc: Global,
    depth: u8,
    function: Function,
    tokens: &'a [Token<'a>],
) -> Result<(Expr, &'a [Token<'a>]), FormFault>
    ensures gives { WordsGive (λ x. (tree_of x.0, words x.1.now)) result
        (spec.called_at depth (spec.inside depth) function (words tokens.now)) }
    ensures shorter { IfOk result (λ x. length x.1.now ≤ length tokens.now) }
{
    if depth == 0 {
        return Err(FormFault::Kind(ParseFaultKind::TooDeep));
    }
    match tokens {
        [Token::Close, rest @ ..] => Ok(call_of(function, Vec::new(alloc), rest)?),
        _ => {
            let (found, rest) = arguments(alloc, depth, tokens)?;
            Ok(call_of(function, found, rest)?)
        }
    }
}

/// Arguments with commas between, and the words behind the parenthesis that ends them.
#[cycle(expression)]
fn arguments<'a>(
    alloc: Global,
    depth: u8,
    tokens: &'a [Token<'a>],
) -> Result<(Vec<Expr>, &'a [Token<'a>]), FormFault>
    ensures gives { WordsGive (λ x. (trees_of x.0.items, words x.1.now)) result
        (spec.arguments (suc (length (words tokens.now))) (spec.inside depth) (words tokens.now)) }
    ensures shorter { IfOk result (λ x. length x.1.now ≤ length tokens.now) }
{
    let mut found = Vec::new(alloc);
    let (first, after) = inside(alloc, depth, tokens)?;
    found.push(first)?;
    let (mut goes_on, mut rest) = separator(after)?;
    while goes_on {
        let (argument, after) = inside(alloc, depth, rest)?;
        found.push(argument)?;
        let (more, others) = separator(after)?;
        goes_on = more;
        rest = others;
    }
    Ok((found, rest))
}

/// A constant, a name, a call, or an expression in parentheses.
#[cycle(expression)]
#[tactic(auto, using(crate::proofs::Equations::tree_equations), unfolding(crate::specs::Reading::operand))]
fn operand<'a>(
    alloc: Global,
    depth: u8,
    tokens: &'a [Token<'a>],
) -> Result<(Expr, &'a [Token<'a>]), FormFault>
    ensures gives { WordsGive (λ x. (tree_of x.0, words x.1.now)) result
        (spec.operand depth (spec.inside depth) (words tokens.now)) }
    ensures shorter { IfOk result (λ x. length x.1.now < length tokens.now) }
{
    match tokens {
        [Token::Logical(b), rest @ ..] => Ok((Expr::Logical(*b), rest)),
        [Token::Number(digits), rest @ ..] => Ok((Expr::Number(Num::parse(*digits)), rest)),
        [Token::Text(s), rest @ ..] => Ok((Expr::Text(Literal::of(alloc, *s)?), rest)),
        [Token::Name(s), rest @ ..] => Ok(named(alloc, depth, *s, rest)?),
        [Token::Open, rest @ ..] => {
            let (inner, rest) = inside(alloc, depth, rest)?;
            Ok(close(alloc, inner, rest)?)
        }
        _ => Err(wrong(tokens)),
    }
}

/// Operands of the next tighter level, with operators of this level between, grouped from the left.
#[cycle(expression)]
#[tactic(auto, using(crate::proofs::Equations::tree_equations), unfolding(crate::specs::Reading::chain))]
fn chain<'a>(
    alloc: Global,
    depth: u8,
    level: u8,
    tokens: &'a [Token<'a>],
) -> Result<(Expr, &'a [Token<'a>]), FormFault>
    requires least { 0 < level }
    requires most { level ≤ 7 }
    ensures gives { WordsGive (λ x. (tree_of x.0, words x.1.now)) result
        (spec.chain (spec.level_at depth (level - 1)) level (words tokens.now)) }
    ensures shorter { IfOk result (λ x. length x.1.now < length tokens.now) }
{
    let (mut left, mut rest) = reader(alloc, depth, level - 1, tokens)?;
    while let Some((operator, after)) = operator_at(level, rest) {
        let (right, others) = reader(alloc, depth, level - 1, after)?;
        left = Expr::Binary(operator, Box::new(alloc, left)?, Box::new(alloc, right)?);
        rest = others;
    }
    Ok((left, rest))
}

/// One sum, or two with a comparison between.
#[cycle(expression)]
#[tactic(auto, using(crate::proofs::Equations::tree_equations), unfolding(crate::specs::Reading::comparison_read))]
fn comparison<'a>(
    alloc: Global,
    depth: u8,
    tokens: &'a [Token<'a>],
) -> Result<(Expr, &'a [Token<'a>]), FormFault>
    ensures gives { WordsGive (λ x. (tree_of x.0, words x.1.now)) result
        (spec.comparison_read (spec.level_at depth 3) (words tokens.now)) }
    ensures shorter { IfOk result (λ x. length x.1.now < length tokens.now) }
{
    let (left, rest) = reader(alloc, depth, COMPARISON - 1, tokens)?;
    let Some((operator, after)) = operator_at(COMPARISON, rest) else {
        return Ok((left, rest));
    };
    let (right, rest) = reader(alloc, depth, COMPARISON - 1, after)?;
    Ok((
        Expr::Binary(operator, Box::new(alloc, left)?, Box::new(alloc, right)?),
        rest,
    ))
}

/// An operand of the next tighter level with any number of signs, or of negations, before it.
#[cycle(expression)]
#[tactic(auto, using(crate::proofs::Equations::tree_equations), unfolding(crate::specs::Reading::prefixes))]
fn prefixes<'a>(
    alloc: Global,
    depth: u8,
    level: u8,
    tokens: &'a [Token<'a>],
) -> Result<(Expr, &'a [Token<'a>]), FormFault>
    requires least { 0 < level }
    requires most { level ≤ 7 }
    ensures gives { WordsGive (λ x. (tree_of x.0, words x.1.now)) result
        (spec.prefixes (spec.level_at depth (level - 1)) level (words tokens.now)) }
    ensures shorter { IfOk result (λ x. length x.1.now < length tokens.now) }
{
    let Some((token, behind)) = tokens.split_first() else {
        return reader(alloc, depth, level - 1, tokens);
    };
    let Some(prefix) = prefix_at(level, token) else {
        return reader(alloc, depth, level - 1, tokens);
    };
    let (inner, rest) = prefixes(alloc, depth, level, behind)?;
    Ok((Expr::Prefixed(prefix, Box::new(alloc, inner)?), rest))
}

/// What stands at a level.
#[cycle(expression)]
#[tactic(auto, unfolding(crate::specs::Reading::reader, crate::specs::Reading::stage))]
fn reader<'a>(
    alloc: Global,
    depth: u8,
    level: u8,
    tokens: &'a [Token<'a>],
) -> Result<(Expr, &'a [Token<'a>]), FormFault>
    requires { level ≤ 7 }
    ensures gives { WordsGive (λ x. (tree_of x.0, words x.1.now)) result
        (spec.level_at depth level (words tokens.now)) }
    ensures shorter { IfOk result (λ x. length x.1.now < length tokens.now) }
{
    match level {
        0 => operand(alloc, depth, tokens),
        SIGNS | NEGATION => prefixes(alloc, depth, level, tokens),
        COMPARISON => comparison(alloc, depth, tokens),
        _ => chain(alloc, depth, level, tokens),
    }
}

/// What the words begin with.
fn loosest<'a>(alloc: Global, tokens: &'a [Token<'a>]) -> Result<(Expr, &'a [Token<'a>]), FormFault>
    ensures gives { WordsGive (λ x. (tree_of x.0, words x.1.now)) result
        (spec.level_at grammar.max_depth 7 (words tokens.now)) }
    ensures shorter { IfOk result (λ x. length x.1.now < length tokens.now) }
{
    reader(alloc, MOST_OPEN, LOOSEST, tokens)
}

/// The expression at the front of the words, as far as it goes, and the words behind it. Refused are words that
/// begin no expression (Expression, and Macro where a `&` stands at the place of the fault), more than 32 parentheses
/// within each other (TooDeep), and want of memory. Which fault it is, the clause `gives` tells. The tree gets as
/// deep as the words are many: hand in no more of them than a line has.
pub fn expression<'a>(
    alloc: Global,
    tokens: &'a [Token<'a>],
) -> Result<(Expr, &'a [Token<'a>]), FormFault>
    // What is answered, a fault too, is what reading from left to right finds.
    ensures gives { WordsGive (λ x. (tree_of x.0, words x.1.now)) result (spec.front (words tokens.now)) }
    // The words before the rest spell the tree.
    ensures stands { IfOk result (λ x. InFront (tree_of x.0) (words tokens.now) (words x.1.now)) }
    // No further words with them spell one.
    ensures longest { IfOk result (λ x. NoneLonger (words tokens.now) (words x.1.now)) }
    // An expression with nothing behind it that could go on with it is answered, unless memory runs out.
    ensures only { (e : Tree) → (ws rest : List Word) → grammar.Spells e ws → grammar.Free 7 rest
        → words tokens.now ≡ ws ++ rest
        → (let x : Tree × List Word = (e, rest) in WordsGive (λ y. (tree_of y.0, words y.1.now)) result (Ok x)) }
    ensures shorter { IfOk result (λ x. length x.1.now < length tokens.now) }
{
    loosest(alloc, tokens)
}

/// The expression that all of the words are.
#[tactic(auto, unfolding(crate::specs::Reading::parse))]
pub(crate) fn parse<'a>(alloc: Global, tokens: &'a [Token<'a>]) -> Result<Expr, FormFault>
    ensures { WordsGive tree_of result (spec.parse (words tokens.now)) }
{
    let (tree, rest) = loosest(alloc, tokens)?;
    match rest {
        [] => Ok(tree),
        _ => Err(wrong(rest)),
    }
}
