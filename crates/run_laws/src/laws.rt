//! What the tests of an instruction say, what a step keeps, and how a run begins. The functions do nothing: their
//! contracts are the laws.

ghost use Rattle.std.specs.Prelude.{◌≡◌, ◌≤◌, ◌+◌, ◌-◌, ℕ, true, false, List, Option, Some, None, replicate};
ghost use Rattle.code_items.specs.declared.code.Code.{Code as AnyCode};
ghost use Rattle.code_items.specs.declared.declared.Declared.{Declared as AnyDeclared};
ghost use Rattle.code_items.specs.declared.instr.Instr.{Instr as AnyInstr};
ghost use Rattle.code_items.specs.Instrs.{is_instr};
ghost use Rattle.code_items.specs.Legal.{IsCode};
ghost use Rattle.code_rules.specs.Places.{instr_at};
ghost use Rattle.run_steps.specs.Control.{effect, finishes};
ghost use Rattle.run_steps.specs.Faults.{fault_of, IsClear};
ghost use Rattle.run_steps.specs.Needs.{IsReadyFor};
ghost use Rattle.run_steps.specs.Opening.{opening};
ghost use Rattle.run_steps.specs.Pausing.{Came, with_more};
ghost use Rattle.run_steps.specs.Run.{after, spent, step_of, steps_made, Ran, IsFault, IsNoFault};
ghost use Rattle.run_steps.specs.declared.ending.End.TheVariants.{Spent};
ghost use Rattle.run_steps.specs.declared.ending.Outcome.{Outcome as AnyOutcome};
ghost use Rattle.run_steps.specs.Safe.{IsSafe, IsSafeHere};
ghost use Rattle.run_steps.specs.Shapes.{HasShape, StoreFits};
ghost use Rattle.run_steps.specs.World.{World};
ghost use Rattle.work_area.specs.Areas.{AreApart, IsWithinLimit, StoreState};
ghost use Rattle.work_area.specs.Shapes.{StoreHasShape};
ghost use Rattle.calendar.specs.declared.day.DayParts.{DayParts};

use code_items::laws::legal_codes;
use work_area::laws::{stores_keep_their_shape, tables_keep_their_kind};
use xvalue::laws::{results_have_their_kind, same_kinds_are_equal};

/// An instruction has no fault where each of its tests comes out well, and nowhere else.
pub fn faultless_instructions_are_clear()
    ensures clear { (code : AnyCode) (w : World) (i : AnyInstr) → fault_of code w i ≡ None → IsClear code w i }
    ensures faultless { (code : AnyCode) (w : World) (i : AnyInstr) → IsClear code w i → fault_of code w i ≡ None }
{}

/// In a world of a code's shape an instruction of the code whose tests come out well has all that it needs.
pub fn clear_instructions_are_ready()
    ensures { (code : AnyCode) (w : World) (i : AnyInstr) → IsCode code → HasShape code w
        → is_instr code.declared.version i ≡ true → IsClear code w i → IsReadyFor code w i }
{
    legal_codes();
    same_kinds_are_equal();
    results_have_their_kind();
}

/// So in a world of a code's shape the next instruction can be carried out if it has no fault.
pub fn faultless_worlds_go_on()
    ensures { (code : AnyCode) (w : World) → IsCode code → HasShape code w
        → fault_of code w (instr_at code w.place) ≡ None → IsSafeHere code w }
{
    legal_codes();
    faultless_instructions_are_clear();
    clear_instructions_are_ready();
}

/// A step that goes on keeps the code's shape where no two work areas hold one table, and leaves no two that do.
pub fn steps_keep_the_shape()
    ensures { (code : AnyCode) (w : World) (i : AnyInstr) → IsCode code → HasShape code w → AreApart w.env.store.areas
        → is_instr code.declared.version i ≡ true → IsClear code w i → finishes w i ≡ false
        → HasShape code (effect code w i) × AreApart (effect code w i).env.store.areas }
{
    legal_codes();
    same_kinds_are_equal();
    results_have_their_kind();
    tables_keep_their_kind();
}

/// So a run from a world of a code's shape, where no two work areas hold one table, stays among such worlds.
pub fn runs_keep_the_shape()
    ensures { (code : AnyCode) (w : World) → IsCode code → HasShape code w → AreApart w.env.store.areas
        → (n : ℕ) (v : World) → after code w n ≡ Some v → HasShape code v × AreApart v.env.store.areas }
{
    legal_codes();
    faultless_instructions_are_clear();
    steps_keep_the_shape();
}

/// No step gives a table more records than it may have. Where this is the limit of records, and no table has more, so it
/// is after each step of a run: APPEND to a full table isn't one.
pub fn runs_keep_the_limit()
    ensures { (code : AnyCode) (w : World) (limit : ℕ) → IsWithinLimit limit w.env.store → (n : ℕ) (v : World)
        → after code w n ≡ Some v → IsWithinLimit limit v.env.store }
{}

/// The world from which a run begins has the code's shape where the store fits what is declared, and no two work areas
/// hold one table there.
pub fn openings_have_the_shape()
    ensures { (code : AnyCode) (store : StoreState) (lines : List (List ℕ)) (today : Option DayParts) → IsCode code
        → StoreFits code.declared store
        → HasShape code (opening code store lines today) × AreApart (opening code store lines today).env.store.areas }
{
    legal_codes();
    tables_keep_their_kind();
}

/// A store with the tables and indexes of a code's shape, as one that was made for it has, fits what is declared while
/// all its work areas are closed.
pub fn new_stores_fit()
    ensures { (d : AnyDeclared) (store : StoreState) → StoreHasShape d.shape store → store.areas ≡ replicate 10 None
        → StoreFits d store }
{
    stores_keep_their_shape();
}

/// Each step costs something, so a run takes no more steps than they cost.
pub fn runs_cost_their_steps()
    ensures { (code : AnyCode) (w : World) (n : ℕ) (v : World) → after code w n ≡ Some v → n ≤ spent code w n }
{}

/// A run makes no more steps than its budget, the closing one counted.
pub fn runs_make_few_steps()
    ensures { (code : AnyCode) (w : World) (budget : ℕ) (outcome : AnyOutcome) (v : World)
        → (ran : Ran code w budget outcome v) → steps_made ran.count outcome.end ≤ budget }
{}

/// A run in parts is one run. Where the first part ended for want of budget, and the second one went on from the world
/// that it left, both are one run. Its budget is what the first part used and what the second one was given. Its steps
/// are those of both, and its end and its world are those of the second part.
pub fn parts_make_the_whole()
    ensures { (code : AnyCode) (w v u : World) (budget more : ℕ) (first second : AnyOutcome)
        → Ran code w budget first v → first.end ≡ Spent → Ran code v more second u
        → Ran code w (first.steps + more) (record { end = second.end; steps = first.steps + second.steps }) u }
{}

/// A run that ended for want of budget, where steps cost the whole budget, ended in the world to which they lead.
pub fn spent_budgets_lead_to_one_world()
    ensures { (code : AnyCode) (w u v : World) (n : ℕ) (outcome : AnyOutcome) → after code w n ≡ Some u
        → Ran code w (spent code w n) outcome v → outcome.end ≡ Spent → v ≡ u }
{}

/// Further lines change no step that finds the line that it takes. Where steps lead to a world, and none of them took a
/// line when none was left, the same steps over more lines lead to the same world at the same cost. The further lines
/// stand behind those that are left, in both worlds.
pub fn lines_behind_change_no_step()
    ensures { (code : AnyCode) (a b : World) (steps : ℕ) (more : List (List ℕ)) → Came code a steps b
        → Came code (with_more more a) steps (with_more more b) }
{}

/// Pieces of a run make one. Steps to a world and steps from there are together steps to where the second ones lead.
/// Steps to a world and a run from there are together a run to the same end, of the whole budget.
pub fn pieces_make_the_whole()
    ensures joined { (code : AnyCode) (a b c : World) (first second : ℕ) → Came code a first b → Came code b second c
        → Came code a (first + second) c }
    ensures ended { (code : AnyCode) (a b c : World) (budget steps : ℕ) (outcome : AnyOutcome) → Came code a steps b
        → steps ≤ budget → Ran code b (budget - steps) outcome c
        → Ran code a budget (record { end = outcome.end; steps = steps + outcome.steps }) c }
{}

/// From a world from which a run comes to no fault, none of its steps has one, and no run ends at one.
pub fn safe_runs_meet_no_fault()
    ensures steps { (code : AnyCode) (w : World) → IsSafe code w → (n : ℕ) (v : World) → after code w n ≡ Some v
        → IsNoFault (step_of code v) }
    ensures end { (code : AnyCode) (w : World) (budget : ℕ) (outcome : AnyOutcome) (v : World) → IsSafe code w
        → Ran code w budget outcome v → ¬ IsFault outcome.end }
{}
