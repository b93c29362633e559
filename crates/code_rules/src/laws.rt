//! What acceptance means, place by place. The functions do nothing: their contracts are the laws.

ghost use Rattle.code_items.specs.declared.code.Code.{Code as AnyCode};
ghost use Rattle.code_rules.specs.Kept.{KeepsRules};
ghost use Rattle.code_rules.specs.Rules.{Accepted};

/// Accepted code keeps each rule at each place.
pub fn rules_are_kept()
    ensures { (code : AnyCode) → Accepted code → KeepsRules code }
{}
