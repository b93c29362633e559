//! Reading the words of a command one after another.

ghost use Rattle.std.specs.Prelude.{◌≡◌, ◌<◌, ◌≤◌, ◌-◌, suc, length, map, drop, IfOk, OnOk};
ghost use Rattle.prg_expr.specs.Reading.{WordsGive, front};
ghost use Rattle.prg_expr.specs.Tree.{tree_of};
ghost use Rattle.prg_expr.specs.Word.{words};
ghost use Rattle.prg_line.specs.Act.{letters_of};
ghost use Rattle.prg_line.specs.Forms as spec;
ghost use Rattle.prg_line.specs.Gives.{at_of, ReadsAs, LeavesReader, Ends};
ghost use Rattle.prg_expr.specs.declared.fault.FormFault.TheVariants.{Kind};

use fixed_num::Num;
use prg_expr::{
    BinaryOperator, Expr, FormFault, Name, ParseFaultKind, Token, expression, is_word, name_of,
};
use std::alloc::Global;

/// A word of a command is missing, or another one stands there.
const WORD: FormFault = FormFault::Kind(ParseFaultKind::Word);

/// The longest expression at the front of the words, and how many words are behind it.
fn expression_at(alloc: Global, tokens: &[Token<'_>]) -> Result<(Expr, usize), FormFault>
    ensures gives { WordsGive (λ x. (tree_of x.0, drop (length tokens.now - x.1) (words tokens.now))) result
        (front (words tokens.now)) }
    ensures shorter { IfOk result (λ x. x.1 < length tokens.now) }
{
    match expression(alloc, tokens) {
        Ok((found, rest)) => Ok((found, rest.len())),
        Err(fault) => Err(fault),
    }
}

/// The words of a command that are still to be read.
#[derive(Drop)]
pub struct Reader<'a> {
    /// Where the parts of the command are kept.
    pub alloc: Global,
    /// The words that are left.
    pub words: &'a [Token<'a>],
    /// Whether the word before was the end of an expression.
    pub behind_expression: bool,
}

impl<'a> Reader<'a> {
    /// The fault where something else than a word of the command or the line's end stands.
    #[tactic(auto, unfolding(crate::specs::Forms::unexpected_in))]
    fn unexpected(&self) -> FormFault
        ensures { result ≡ Kind (spec.unexpected (at_of self.now)) }
    {
        match self.words {
            [] | [Token::Name(_), ..] => WORD,
            [Token::Macro, ..] => FormFault::Kind(ParseFaultKind::Macro),
            _ => {
                if self.behind_expression {
                    FormFault::Kind(ParseFaultKind::Expression)
                } else {
                    WORD
                }
            }
        }
    }

    /// The fault where a name or a number must stand, and none does.
    #[tactic(auto, unfolding(crate::specs::Forms::no_constant))]
    fn no_constant(&self) -> FormFault
        ensures { result ≡ Kind (spec.no_constant (words self.now.words.now)) }
    {
        match self.words {
            [Token::Macro, ..] => FormFault::Kind(ParseFaultKind::Macro),
            _ => WORD,
        }
    }

    /// Reads the longest expression at the front.
    #[tactic(auto, unfolding(crate::specs::Forms::expression))]
    pub fn expression(&mut self) -> Result<Expr, FormFault>
        ensures reads { ReadsAs tree_of result self.new (spec.expression (at_of self.old)) }
        ensures shorter { OnOk result (length self.new.words.now < length self.old.words.now) }
    {
        let (found, left) = expression_at(self.alloc, self.words)?;
        self.words = &self.words[self.words.len() - left..];
        self.behind_expression = true;
        Ok(found)
    }

    /// Reads a name.
    #[tactic(auto, unfolding(crate::specs::Forms::name_in))]
    pub fn name(&mut self) -> Result<Name, FormFault>
        ensures reads { ReadsAs letters_of result self.new (spec.name (at_of self.old)) }
        ensures shorter { OnOk result (length self.new.words.now < length self.old.words.now) }
    {
        match self.words {
            [Token::Name(word), rest @ ..] => {
                self.words = rest;
                self.behind_expression = false;
                Ok(name_of(*word))
            }
            _ => Err(self.no_constant()),
        }
    }

    /// Reads a whole number below 2^16 that is written without a sign.
    #[tactic(auto, unfolding(crate::specs::Forms::whole_number_in))]
    pub fn whole_number(&mut self) -> Result<u16, FormFault>
        ensures reads { ReadsAs (λ n. n) result self.new (spec.whole_number (at_of self.old)) }
        ensures shorter { OnOk result (length self.new.words.now < length self.old.words.now) }
    {
        match self.words {
            [Token::Number(digits), rest @ ..] => {
                let number = whole_of(Num::parse(*digits))?;
                self.words = rest;
                self.behind_expression = false;
                Ok(number)
            }
            _ => Err(self.no_constant()),
        }
    }

    /// Whether a number stands in front.
    pub fn is_at_number(&self) -> bool
        ensures { result ≡ spec.is_at_number (at_of self.now) }
    {
        matches!(self.words, [Token::Number(_), ..])
    }

    /// Whether this word stands in front.
    pub fn is_at(&self, whole: &[u8]) -> bool
        ensures { result ≡ spec.is_at whole.now (at_of self.now) }
    {
        match self.words {
            [Token::Name(word), ..] => is_word(*word, whole),
            _ => false,
        }
    }

    /// Whether all words are read.
    pub fn is_at_end(&self) -> bool
        ensures { result ≡ spec.is_at_end (at_of self.now) }
    {
        self.words.is_empty()
    }

    /// Reads this word if it stands in front, and answers whether it did.
    #[tactic(auto, unfolding(crate::specs::Forms::takes_in))]
    pub fn takes(&mut self, whole: &[u8]) -> bool
        ensures taken { spec.takes whole.now (at_of self.old) ≡ (result, at_of self.new) }
        ensures no_longer { length self.new.words.now ≤ length self.old.words.now }
    {
        match self.words {
            [Token::Name(word), rest @ ..] => {
                let is_there = is_word(*word, whole);
                if is_there {
                    self.words = rest;
                    self.behind_expression = false;
                }
                is_there
            }
            _ => false,
        }
    }

    /// Reads this word, which must stand in front.
    #[tactic(auto, unfolding(crate::specs::Forms::clause))]
    pub fn clause(&mut self, whole: &[u8]) -> Result<(), FormFault>
        ensures leads { LeavesReader result self.new (spec.clause whole.now (at_of self.old)) }
        ensures no_longer { length self.new.words.now ≤ length self.old.words.now }
    {
        if self.takes(whole) {
            Ok(())
        } else {
            Err(self.unexpected())
        }
    }

    /// Reads a comma if it stands in front, and answers whether it did.
    #[tactic(auto, unfolding(crate::specs::Forms::comma_in))]
    pub fn comma(&mut self) -> bool
        ensures taken { spec.comma (at_of self.old) ≡ (result, at_of self.new) }
        ensures no_longer { length self.new.words.now ≤ length self.old.words.now }
    {
        match self.words {
            [Token::Comma, rest @ ..] => {
                self.words = rest;
                self.behind_expression = false;
                true
            }
            _ => false,
        }
    }

    /// Reads the comma that must stand between two expressions.
    #[tactic(auto, unfolding(crate::specs::Forms::comma_between))]
    pub fn comma_between(&mut self) -> Result<(), FormFault>
        ensures leads { LeavesReader result self.new (spec.comma_between (at_of self.old)) }
        ensures no_longer { length self.new.words.now ≤ length self.old.words.now }
    {
        if self.comma() {
            Ok(())
        } else if self.is_at_end() {
            Err(FormFault::Kind(ParseFaultKind::Expression))
        } else {
            Err(self.unexpected())
        }
    }

    /// Reads the `=` of an assignment.
    #[tactic(auto, unfolding(crate::specs::Forms::equal_in))]
    pub fn equal(&mut self) -> Result<(), FormFault>
        ensures leads { LeavesReader result self.new (spec.equal (at_of self.old)) }
        ensures no_longer { length self.new.words.now ≤ length self.old.words.now }
    {
        match self.words {
            [Token::Operator(BinaryOperator::Equal), rest @ ..] => {
                self.words = rest;
                Ok(())
            }
            _ => Err(self.unexpected()),
        }
    }

    /// Reads expressions with commas between, at least one.
    #[tactic(auto, unfolding(crate::specs::Forms::several_forms))]
    pub fn expressions(&mut self) -> Result<Vec<Expr>, FormFault>
        ensures { ReadsAs (λ found. map tree_of found.items) result self.new (spec.expressions (at_of self.old)) }
    {
        let first = self.expression()?;
        let mut found = Vec::new(self.alloc);
        found.push(first)?;
        self.more_expressions(found)
    }

    /// Reads further expressions, each behind a comma.
    fn more_expressions(&mut self, found: Vec<Expr>) -> Result<Vec<Expr>, FormFault>
        ensures { ReadsAs (λ all. map tree_of all.items) result self.new
            (spec.more spec.expression (suc (length (words self.old.words.now))) (map tree_of found.items)
            (at_of self.old)) }
    {
        let mut all = found;
        while self.comma() {
            let next = self.expression()?;
            all.push(next)?;
        }
        Ok(all)
    }

    /// Reads names with commas between, at least one.
    #[tactic(auto, unfolding(crate::specs::Forms::several_forms))]
    pub fn names(&mut self) -> Result<Vec<Name>, FormFault>
        ensures { ReadsAs (λ found. map letters_of found.items) result self.new (spec.names (at_of self.old)) }
    {
        let first = self.name()?;
        let mut found = Vec::new(self.alloc);
        found.push(first)?;
        self.more_names(found)
    }

    /// Reads further names, each behind a comma.
    fn more_names(&mut self, found: Vec<Name>) -> Result<Vec<Name>, FormFault>
        ensures { ReadsAs (λ all. map letters_of all.items) result self.new
            (spec.more spec.name (suc (length (words self.old.words.now))) (map letters_of found.items)
            (at_of self.old)) }
    {
        let mut all = found;
        while self.comma() {
            let next = self.name()?;
            all.push(next)?;
        }
        Ok(all)
    }

    /// Nothing may be left.
    pub fn end(&self) -> Result<(), FormFault>
        ensures { Ends result (at_of self.now) }
    {
        if self.is_at_end() {
            Ok(())
        } else {
            Err(self.unexpected())
        }
    }
}

/// The number, if it is whole and below 2^16.
fn whole_of(number: Num) -> Result<u16, FormFault>
    ensures { WordsGive (λ n. n) result (spec.whole_of number) }
{
    let Some(parts) = number.parts() else {
        return Err(WORD);
    };
    if parts.decimals != 0 {
        return Err(WORD);
    }
    match u16::try_from(parts.magnitude) {
        Ok(whole) => Ok(whole),
        Err(_) => Err(WORD),
    }
}
