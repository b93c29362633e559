// The tests: cases, each in one respect or several.
#![tactic(auto)]

use super::all_faults::{ALL_FAULTS, lists_faults};
use super::budgets::machines_agree;
use super::cases::runs_well;
use super::codes::code_is_well;
use super::command_files::CASES;
use super::failing::tells_of_device;
use super::hand_codes::{FAULTS, THREE_ROWS, VALUES};
use super::listings::{LISTS, lists_well};
use super::operated::talks_well;
use super::parts::{RunCase, are_known};
use super::resumed::runs_in_parts;
use super::several_files::{DECLARED, SEVERAL};
use super::sorted::runs_over_sorted_keys;
use super::talks::TALKS;
use std::alloc::Global;
use std::test::Fail;

/// In which respect a case is looked at.
#[derive(Clone, Copy, Debug)]
enum Respect {
    Code,
    List,
    Talk,
    Run,
    Device,
    Faults,
    Sorted,
    Parts,
    Budgets,
}

/// Whether a case comes to what it says.
fn is_well(alloc: Global, case: RunCase<'_>, respect: Respect) -> bool {
    match respect {
        Respect::Code => code_is_well(alloc, case),
        Respect::List => lists_well(alloc, case),
        Respect::Talk => talks_well(alloc, case),
        Respect::Run => runs_well(alloc, case),
        Respect::Device => tells_of_device(alloc, case),
        Respect::Faults => lists_faults(alloc, case),
        Respect::Sorted => runs_over_sorted_keys(alloc, case),
        Respect::Parts => runs_in_parts(alloc, case),
        Respect::Budgets => machines_agree(alloc, case),
    }
}

/// The first case that has an unknown word, or doesn't come to what it says.
fn first_wrong<'a>(alloc: Global, text: &'a str, respect: Respect) -> Option<&'a str> {
    let (common, cases) = text.split_once('#').unwrap_or(("", text));
    for own in cases.split('#') {
        if !are_known(own) || !is_well(alloc, RunCase { own, common }, respect) {
            return Some(own);
        }
    }
    None
}

#[test]
fn cases_come_to_what_they_say(rt: HostRuntime) {
    for (text, respect) in [
        (FAULTS, Respect::Code),
        (VALUES, Respect::Code),
        (THREE_ROWS, Respect::Code),
        (LISTS, Respect::List),
        (TALKS, Respect::Talk),
        (CASES, Respect::Run),
        (SEVERAL, Respect::Run),
        (SEVERAL, Respect::Device),
        (DECLARED, Respect::Run),
        (ALL_FAULTS, Respect::Faults),
        (CASES, Respect::Device),
        (CASES, Respect::Sorted),
    ] {
        let wrong = first_wrong(rt.alloc(), text, respect);
        assert_eq!(rt; wrong, None, "{respect:?}");
    }
}

#[test]
fn runs_go_on_from_each_place(rt: HostRuntime) {
    assert_eq!(rt; first_wrong(rt.alloc(), CASES, Respect::Parts), None);
}

#[test]
fn machines_agree_at_each_budget(rt: HostRuntime) {
    for text in [CASES, SEVERAL] {
        assert_eq!(rt; first_wrong(rt.alloc(), text, Respect::Budgets), None);
    }
}
