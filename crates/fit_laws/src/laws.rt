//! What acceptance says of a run. The functions do nothing: their contracts are the laws.

ghost use Rattle.std.specs.Prelude.{◌≡◌, ◌≤◌, ℕ, false, List, Option, Some, length};
ghost use Rattle.code_items.specs.declared.code.Code.{Code as AnyCode};
ghost use Rattle.code_items.specs.Legal.{IsCode};
ghost use Rattle.fit_laws.specs.Connects.{Connects};
ghost use Rattle.fit_laws.specs.FilterWalks.{WalksWithNeeds};
ghost use Rattle.code_rules.specs.Kept.{Kept};
ghost use Rattle.code_rules.specs.Places.{instr_at};
ghost use Rattle.code_rules.specs.Rules.{here_at, Accepted};
ghost use Rattle.fit_laws.specs.Fits.{Fits, IsFitting, HasRoomToCall, LevelsFall, ReturnsWithin, procedure_at};
ghost use Rattle.run_steps.specs.Control.{effect, finishes};
ghost use Rattle.run_steps.specs.Faults.{IsClear};
ghost use Rattle.run_steps.specs.Opening.{opening};
ghost use Rattle.run_steps.specs.Run.{after};
ghost use Rattle.run_steps.specs.Safe.{IsSafe, IsSafeHere};
ghost use Rattle.run_steps.specs.Shapes.{StoreFits};
ghost use Rattle.run_steps.specs.World.{World as AnyWorld};
ghost use Rattle.work_area.specs.Areas.{StoreState};
ghost use Rattle.calendar.specs.declared.day.DayParts.{DayParts};

use crate::flows::{covers_goes_on, filters_walk, states_connect};
use code_items::laws::legal_codes;
use code_rules::laws::rules_are_kept;
use run_laws::laws::{
    faultless_instructions_are_clear, faultless_worlds_go_on, openings_have_the_shape,
    steps_keep_the_shape,
};
use xvalue::laws::{answers_keep_the_kind, results_have_their_kind};

/// An instruction that keeps the rules has no fault in a world that fits what is known at its place, where calls have
/// room.
pub fn kept_rules_leave_no_fault()
    ensures { (code : AnyCode) (w : AnyWorld) → Connects code → WalksWithNeeds code → Kept code (here_at code w.place)
        → IsFitting code w
        → HasRoomToCall w (instr_at code w.place) → ReturnsWithin code w → IsClear code w (instr_at code w.place) }
{}

/// In a world that fits there is room for a call, and the place behind the last call stands in a procedure.
pub fn calls_have_room()
    ensures { (code : AnyCode) → IsCode code → Accepted code → (w : AnyWorld) → IsFitting code w
        → HasRoomToCall w (instr_at code w.place) × ReturnsWithin code w }
{
    states_connect();
}

/// An instruction of an accepted code has no fault in a world that fits what is known at its place.
pub fn accepted_code_is_clear()
    ensures { (code : AnyCode) → IsCode code → Accepted code → (w : AnyWorld) → IsFitting code w
        → IsClear code w (instr_at code w.place) }
{
    legal_codes();
    rules_are_kept();
    states_connect();
    filters_walk();
    calls_have_room();
    kept_rules_leave_no_fault();
}

/// Where a step leads, what is known there is true of the world after it.
pub fn steps_keep_fitting()
    ensures { (code : AnyCode) → IsCode code → Accepted code → (w : AnyWorld) → IsFitting code w
        → finishes w (instr_at code w.place) ≡ false → Fits code (effect code w (instr_at code w.place)) }
{
    legal_codes();
    rules_are_kept();
    states_connect();
    covers_goes_on();
    results_have_their_kind();
    answers_keep_the_kind();
    accepted_code_is_clear();
}

/// A step of an accepted code leads from a world that fits to one that fits.
pub fn fitting_goes_on()
    ensures { (code : AnyCode) → IsCode code → Accepted code → (w : AnyWorld) → IsFitting code w
        → finishes w (instr_at code w.place) ≡ false → IsFitting code (effect code w (instr_at code w.place)) }
{
    legal_codes();
    states_connect();
    accepted_code_is_clear();
    steps_keep_the_shape();
    steps_keep_fitting();
}

/// The world from which a run of an accepted code begins fits, where the store fits what the code declares.
pub fn openings_fit()
    ensures { (code : AnyCode) (store : StoreState) (lines : List (List ℕ)) (today : Option DayParts) → IsCode code
        → Accepted code → StoreFits code.declared store → IsFitting code (opening code store lines today) }
{
    states_connect();
    covers_goes_on();
    openings_have_the_shape();
}

/// In a world that fits the next instruction of an accepted code has no fault, and all is there that it needs.
pub fn fitting_worlds_are_safe_here()
    ensures { (code : AnyCode) → IsCode code → Accepted code → (w : AnyWorld) → IsFitting code w → IsSafeHere code w }
{
    accepted_code_is_clear();
    faultless_instructions_are_clear();
    faultless_worlds_go_on();
}

/// From a world that fits, a run of an accepted code comes to worlds that fit.
pub fn runs_keep_fitting()
    ensures { (code : AnyCode) → IsCode code → Accepted code → (w : AnyWorld) → IsFitting code w
        → (n : ℕ) (v : AnyWorld) → after code w n ≡ Some v → IsFitting code v }
{
    fitting_goes_on();
    fitting_worlds_are_safe_here();
}

/// In each world that a run of an accepted code comes to from one that fits, levels fall from call to call.
pub fn levels_fall()
    ensures { (code : AnyCode) → IsCode code → Accepted code → (w : AnyWorld) → IsFitting code w
        → (n : ℕ) (v : AnyWorld) → after code w n ≡ Some v → LevelsFall code (procedure_at code v.place) v.returns }
{
    states_connect();
    runs_keep_fitting();
}

/// A run of an accepted code from a world that fits meets no fault, wherever it comes to.
pub fn fitting_worlds_are_safe()
    ensures { (code : AnyCode) → IsCode code → Accepted code → (w : AnyWorld) → IsFitting code w → IsSafe code w }
{
    runs_keep_fitting();
    fitting_worlds_are_safe_here();
}

/// A run of an accepted code meets no fault, wherever it comes to, where the store fits what the code declares.
pub fn accepted_codes_are_safe()
    ensures { (code : AnyCode) (store : StoreState) (lines : List (List ℕ)) (today : Option DayParts) → IsCode code
        → Accepted code → StoreFits code.declared store → IsSafe code (opening code store lines today) }
{
    openings_fit();
    fitting_worlds_are_safe();
}

/// A world that fits has a stack within the code's bound, and at most 20 calls that haven't returned.
pub fn fitting_worlds_keep_the_bounds()
    ensures stack { (code : AnyCode) (w : AnyWorld) → IsFitting code w
        → length w.values.stack ≤ code.declared.stack_bound }
    ensures returns { (code : AnyCode) (w : AnyWorld) → IsFitting code w → length w.returns ≤ 20 }
{}
