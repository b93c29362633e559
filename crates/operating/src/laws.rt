//! What a part says of the whole run. The function does nothing: its contract is the law.

ghost use Rattle.code_items.specs.declared.code.Code.{Code as AnyCode};
ghost use Rattle.run_steps.specs.Run.{Ran};
ghost use Rattle.run_steps.specs.World.{World};
ghost use Rattle.run_steps.specs.declared.ending.End.TheVariants.{Spent};
ghost use Rattle.run_steps.specs.declared.ending.Outcome.{Outcome as AnyOutcome};
ghost use Rattle.std.specs.Prelude.{◌≡◌, ◌≤◌, ℕ};

/// A run that ended for another cause than a spent budget ends so within each greater budget.
pub fn greater_budgets_change_no_end()
    ensures { (code : AnyCode) (w v : World) (budget more : ℕ) (outcome : AnyOutcome) → budget ≤ more
        → (outcome.end ≡ Spent → budget ≡ more) → Ran code w budget outcome v → Ran code w more outcome v }
{}
