//! Whether what flows into a place is covered there.

ghost use Rattle.std.specs.Prelude.{◌≡◌};
ghost use Rattle.std.specs.Option.{option_copied};
ghost use Rattle.code_items.specs.Legal.{IsCode};
ghost use Rattle.code_rules.specs.Places.{map_at as map_at_of};
ghost use Rattle.code_rules.specs.Rules.{leads_on as leads_on_of, some_next, entered as entered_of};
ghost use Rattle.code_rules.specs.Wants.{gives as gives_of, unknown as unknown_of};
ghost use Rattle.xverify.specs.Parts.{part_fails, some_part_fails};
ghost use Rattle.xverify.specs.Told.{place_told, IsPlace};

use crate::here::Here;
use code_items::{Code, Instr, State};
use code_rules::Signature;
use code_rules::blocks::map_at;
use code_rules::kinds::gives;
use code_rules::operands::calls_none;
use code_rules::signature::{called, target};

/// A part of what is known at a place.
#[derive(Clone, Copy)]
pub enum KnownPart {
    Slots,
    Desk,
    Stack,
}

/// Whether what is known at a place doesn't cover this part of a state that leads there. On the state's stack lie
/// `unknown` more values, whose kinds aren't known. Where nothing is known of the place, no part fails.
fn fails(part: KnownPart, unknown: usize, known: Option<&State>, state: &State) -> bool
    ensures { result ≡ part_fails part unknown (option_copied known.entry) state.now }
{
    let Some(map) = known else {
        return false;
    };
    match part {
        KnownPart::Slots => !state.slots.is_covered_by(&map.slots),
        KnownPart::Desk => !state.desk.is_covered_by(&map.desk),
        KnownPart::Stack => !state.stack.is_covered_by(&map.stack, unknown),
    }
}

fn fails_at(part: KnownPart, unknown: usize, code: &Code, place: usize, state: &State) -> bool
    requires { IsCode code.now }
    ensures { result ≡ part_fails part unknown (map_at_of code.now place) state.now }
{
    fails(part, unknown, map_at(code, place), state)
}

fn leads_on(code: &Code, instr: Instr) -> bool
    ensures { result ≡ leads_on_of code.now instr }
{
    Signature::of(instr).falls && !calls_none(code, instr)
}

/// The entry state of the procedure that it calls.
fn entered(code: &Code, instr: Instr) -> Option<&State>
    ensures { option_copied result ≡ entered_of code.now instr }
{
    match called(instr) {
        Some(number) => match code.procedures.as_slice().get(usize::from(number)) {
            Some(procedure) => Some(&procedure.entry),
            None => None,
        },
        None => None,
    }
}

/// How many values of unknown kinds it puts on the stack.
pub fn unknown(h: &Here) -> usize
    ensures { result ≡ unknown_of (gives_of h.now.code.now.declared h.now.before.now.desk h.now.instr) }
{
    match gives(&h.code.declared, &h.before.desk, h.instr) {
        Some(None) => 1,
        _ => 0,
    }
}

fn next_fails(part: KnownPart, h: &Here) -> bool
    requires { IsPlace h.now }
    ensures { let unknown = unknown_of (gives_of h.now.code.now.declared h.now.before.now.desk h.now.instr) in
        result ≡ some_next h.now.code.now (λ t. part_fails part unknown (map_at_of h.now.code.now t) h.now.after.now)
        (place_told h.now) }
{
    let unknown = unknown(h);
    if let Some(place) = target(h.instr)
        && fails_at(part, unknown, h.code, place as usize, h.after)
    {
        return true;
    }
    leads_on(h.code, h.instr) && fails_at(part, unknown, h.code, h.place + 1, h.after)
}

/// Whether this part isn't covered where the block begins, in the procedure that is called, or at a next place.
pub fn some_fails(part: KnownPart, h: &Here) -> bool
    requires { IsPlace h.now }
    ensures { result ≡ some_part_fails part h.now.code.now (place_told h.now) }
{
    (h.block.first == h.place && fails_at(part, 0, h.code, h.place, h.start))
        || fails(part, 0, entered(h.code, h.instr), h.before)
        || next_fails(part, h)
}
