//! Code that the verifier accepted, and why it may say no.

ghost use Rattle.std.specs.Prelude.{◌≡◌};
ghost use Rattle.code_items.specs.Legal.{IsCode};
ghost use Rattle.code_rules.specs.Rules.{Accepted};

use code_items::Code;
use code_rules::Rule;
use legal_code::LegalCode;
use std::fmt;
use std::marker::Model;

/// A code that has a code file and that the verifier accepted. It is seen as that code.
#[derive(Drop)]
pub struct Verified {
    code: LegalCode,
}

impl Model for Verified {
    ghost use Rattle.code_items.specs.declared.code.Code.{Code as AnyCode};
    ghost use Rattle.code_rules.specs.Rules.{Accepted};

    ghost Value = { AnyCode };

    ghost view = { λ v. v.code };

    ghost invariant = { λ v. Accepted v.code };
}

/// A rule that fails, and the place at which it does, counted from 0.
#[derive(Clone, Copy, PartialEq, Eq, Debug)]
pub struct FailedRule {
    pub rule: Rule,
    pub at: usize,
}

impl fmt::Display for FailedRule {
    fn fmt<W: fmt::Write>(&self, f: &mut fmt::Formatter<W>) -> fmt::Result {
        let rule = self.rule;
        let at = self.at;
        write!(f, "{rule:?} {at}")
    }
}

/// Why there is no answer of yes: a rule fails, or memory ran out before that could be told.
#[derive(Clone, Copy, PartialEq, Eq, Debug)]
pub enum VerifyError {
    Refused(FailedRule),
    NoMemory,
}

impl Verified {
    /// This code, which is accepted.
    pub(crate) fn of(code: LegalCode) -> Verified
        requires { Accepted code }
        ensures { result ≡ code }
    {
        Verified { code }
    }

    /// The accepted code.
    pub fn code(&self) -> &Code
        ensures same { result.now ≡ self.now }
        ensures legal { IsCode result.now }
        ensures accepted { Accepted result.now }
    {
        self.code.code()
    }

    /// The accepted code, as one that has a code file.
    pub fn legal(&self) -> &LegalCode
        ensures { result.now ≡ self.now }
    {
        &self.code
    }
}
