//! What follows from a code's being legal. The function does nothing: its contract is the law.

ghost use Rattle.code_items.specs.declared.code.Code.{Code as AnyCode};
ghost use Rattle.code_items.specs.Legal.{IsCode};
ghost use Rattle.code_items.specs.Facts.{Facts};

/// A legal code is small, has a procedure and an instruction, and its maps rise.
pub fn legal_codes()
    ensures { (code : AnyCode) → IsCode code → Facts code }
{}
