//! What accepted codes keep along their flow. The functions do nothing: their contracts are the laws.

ghost use Rattle.std.specs.Prelude.{◌≡◌, true};
ghost use Rattle.code_items.specs.declared.code.Code.{Code as AnyCode};
ghost use Rattle.code_items.specs.declared.state.State.{State as AnyState};
ghost use Rattle.code_items.specs.Legal.{IsCode};
ghost use Rattle.fit_laws.specs.Connects.{Connects};
ghost use Rattle.fit_laws.specs.FilterWalks.{WalksWithNeeds};
ghost use Rattle.code_rules.specs.Rules.{covers, Accepted};

use code_items::laws::legal_codes;
use code_rules::laws::rules_are_kept;

/// Each state covers itself.
pub fn covers_itself()
    ensures { (s : AnyState) → covers s s ≡ true }
{}

/// What covers a state covers all that this one covers.
pub fn covers_goes_on()
    ensures { (a b c : AnyState) → covers a b ≡ true → covers b c ≡ true → covers a c ≡ true }
{}

/// In an accepted code what is known at a place covers all that flows there, in its procedures.
pub fn states_connect()
    ensures { (code : AnyCode) → IsCode code → Accepted code → Connects code }
{
    legal_codes();
    rules_are_kept();
}

/// In an accepted code each filter's block can be walked with whatever slots meet the filter's needs.
pub fn filters_walk()
    ensures { (code : AnyCode) → IsCode code → Accepted code → WalksWithNeeds code }
{
    states_connect();
}
