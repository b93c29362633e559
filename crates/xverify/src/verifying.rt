//! The verifier's way through a code.

ghost use Rattle.std.specs.Prelude.{◌≡◌, ◌+◌, ◌<◌, length, IfOk, IfErr};
ghost use Rattle.code_items.specs.Legal.{IsCode};
ghost use Rattle.code_rules.specs.Places.{block_at as block_at_of, map_at as map_at_of, or_state};
ghost use Rattle.code_rules.specs.Places.{state_entered as begun_at};
ghost use Rattle.code_rules.specs.Places.{incoming_at};
ghost use Rattle.code_rules.specs.Rules.{refusal_at, Accepted};
ghost use Rattle.xverify.specs.Verdict.{Refuses};

use crate::here::Here;
use crate::rules::refusal;
use crate::verified::{FailedRule, Verified, VerifyError};
use code_items::laws::legal_codes;
use code_items::{Code, State};
use code_rules::Rule;
use code_rules::blocks::{block_at, map_at, start_of};
use code_rules::flow::flow;
use legal_code::LegalCode;
use std::alloc::{AllocError, Global};

/// What the verifier finds at one place: the first rule that fails there, and what flows into the next place.
#[derive(Drop)]
struct Finding {
    rule: Option<Rule>,
    after: State,
}

/// What is known before a place, given what the place before leaves or what is known where a block begins there.
fn before<'a>(code: &'a Code, place: usize, incoming: &'a State) -> &'a State
    requires { IsCode code.now }
    ensures { result.now ≡ or_state (map_at_of code.now place) incoming.now }
{
    match map_at(code, place) {
        Some(state) => state,
        None => incoming,
    }
}

/// What is known before a place of a legal code but for its map, given what the place before leaves.
pub fn begun(alloc: Global, code: &Code, place: usize, left: State) -> Result<State, AllocError>
    requires { IsCode code.now }
    ensures { IfOk result (λ state. state ≡ begun_at code.now (block_at_of code.now place) place left) }
{
    let block = block_at(code, place);
    if block.first == place {
        return start_of(alloc, code, block.number);
    }
    Ok(left)
}

fn look(alloc: Global, code: &Code, place: usize, incoming: State) -> Result<Finding, AllocError>
    requires legal { IsCode code.now }
    requires within { place < length code.now.instructions }
    requires incoming { incoming ≡ incoming_at code.now place }
    ensures rule { IfOk result (λ finding. finding.rule ≡ refusal_at code.now place) }
    ensures after { IfOk result (λ finding. finding.after ≡ incoming_at code.now (place + 1)) }
{
    legal_codes();
    let state = before(code, place, &incoming);
    let instr = *code.instructions.get(place);
    let mut after = state.copied(alloc)?;
    flow(alloc, code, instr, &mut after)?;
    let rule = refusal(&Here {
        code,
        place,
        block: block_at(code, place),
        instr,
        before: state,
        after: &after,
        start: &incoming,
    });
    let after = begun(alloc, code, place + 1, after)?;
    Ok(Finding { rule, after })
}

/// Says nothing against a code in which no rule fails.
fn test_rules(alloc: Global, code: &Code) -> Result<(), VerifyError>
    requires { IsCode code.now }
    ensures yes { IfOk result (λ _. Accepted code.now) }
    ensures no { IfErr result (Refuses code.now) }
{
    let first = block_at(code, 0);
    let Ok(mut incoming) = start_of(alloc, code, first.number) else {
        return Err(VerifyError::NoMemory);
    };
    for place in 0..code.instructions.len() {
        let Ok(finding) = look(alloc, code, place, incoming) else {
            return Err(VerifyError::NoMemory);
        };
        if let Some(rule) = finding.rule {
            return Err(VerifyError::Refused(FailedRule { rule, at: place }));
        }
        incoming = finding.after;
    }
    Ok(())
}

/// Says yes exactly where no rule fails at any place. A refusal names the least place at which a rule fails, and the
/// least rule that fails there; places are counted from 0. Want of memory may be told before a refusal.
pub fn verify(alloc: Global, code: LegalCode) -> Result<Verified, VerifyError>
    ensures yes { IfOk result (λ verified. verified ≡ code) }
    ensures accepted { IfOk result (λ _. Accepted code) }
    ensures no { IfErr result (Refuses code) }
{
    match test_rules(alloc, code.code()) {
        Ok(()) => Ok(Verified::of(code)),
        Err(error) => Err(error),
    }
}
