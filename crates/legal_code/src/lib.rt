//! Codes that have a code file.
//!
//! `LegalCode` keeps that fact of its code, so that the calls that take one require nothing of their callers.
#![tactic(auto)]

ghost use Rattle.std.specs.Prelude.{◌≡◌, is_some, IfSome};
ghost use Rattle.code_items.specs.Legal.{IsCode, is_code};

use code_items::Code;
use std::marker::Model;

/// A code that has a code file. It is seen as that code.
#[derive(Drop)]
pub struct LegalCode {
    code: Code,
}

impl Model for LegalCode {
    ghost use Rattle.code_items.specs.Legal.{IsCode};
    ghost use Rattle.code_items.specs.declared.code.Code.{Code as AnyCode};

    ghost Value = { AnyCode };

    ghost view = { λ legal. legal.code };

    ghost invariant = { λ legal. IsCode legal.code };
}

impl LegalCode {
    /// This code, which is known to have a code file.
    pub fn of(code: Code) -> LegalCode
        requires { IsCode code }
        ensures { result ≡ code }
    {
        LegalCode { code }
    }

    /// This code, if it has a code file.
    pub fn tested(code: Code) -> Option<LegalCode>
        ensures found { IfSome result (λ legal. legal ≡ code) }
        ensures told { is_some result ≡ is_code code }
    {
        if !code.is_legal() {
            return None;
        }
        Some(LegalCode::of(code))
    }

    /// The code.
    pub fn code(&self) -> &Code
        ensures same { result.now ≡ self.now }
        ensures legal { IsCode result.now }
    {
        &self.code
    }
}
