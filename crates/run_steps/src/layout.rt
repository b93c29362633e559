//! Where a code's blocks stand: the place at which a procedure begins, and the instructions of a filter.

ghost use Rattle.std.specs.Prelude.{◌≡◌, ◌≤◌, length, take, drop, map};
ghost use Rattle.code_items.specs.Legal.{IsCode, places_in_all};
ghost use Rattle.run_steps.specs.Control.{entry_place as entry_place_of};
ghost use Rattle.run_steps.specs.Filters.{filter_block};

use code_items::code::places_of_blocks;
use code_items::laws::legal_codes;
use code_items::{Code, Filter, Instr, Proc};

/// The first procedures, as many as there are.
fn first_procedures(procedures: &[Proc], count: usize) -> &[Proc]
    ensures value { result.now ≡ take count procedures.now }
    ensures few { length result.now ≤ length procedures.now }
{
    &procedures[..count.min(procedures.len())]
}

/// Where the block of a procedure, counted from 0, begins.
pub fn entry_place(code: &Code, number: u16) -> usize
    requires { IsCode code.now }
    ensures { result ≡ entry_place_of code.now number }
{
    legal_codes();
    places_of_blocks(first_procedures(code.procedures.as_slice(), usize::from(number)))
}

/// How many instructions the blocks of some filters have.
fn places_of_filters(filters: &[Filter]) -> usize
    requires { length filters.now ≤ 64 }
    ensures value { result ≡ places_in_all (map (λ f. f.length) filters.now) }
    ensures few { result ≤ 4194304 }
{
    let mut places = 0;
    let mut rest = filters;
    while let Some((filter, others)) = rest.split_first() {
        places += usize::from(filter.length);
        rest = others;
    }
    places
}

/// The first filters, as many as there are.
fn first_filters(filters: &[Filter], count: usize) -> &[Filter]
    ensures value { result.now ≡ take count filters.now }
    ensures few { length result.now ≤ length filters.now }
{
    &filters[..count.min(filters.len())]
}

/// The instructions of a filter, counted from 1; none where there is no such filter.
#[tactic(auto, unfolding(code_items::specs::Legal::is_code))]
pub fn block_of(code: &Code, number: u16) -> &[Instr]
    requires { IsCode code.now }
    ensures { result.now ≡ filter_block code.now number }
{
    legal_codes();
    let Some(filter) = code.declared.filter(number) else {
        return &[];
    };
    let earlier = first_filters(code.declared.filters.as_slice(), usize::from(number) - 1);
    let begin = places_of_blocks(code.procedures.as_slice()) + places_of_filters(earlier);
    front(
        behind(code.instructions.as_slice(), begin),
        usize::from(filter.length),
    )
}

/// Instructions from the front, as many as there are.
fn front(instrs: &[Instr], count: usize) -> &[Instr]
    ensures { result.now ≡ take count instrs.now }
{
    &instrs[..count.min(instrs.len())]
}

/// The instructions behind so many.
fn behind(instrs: &[Instr], count: usize) -> &[Instr]
    ensures { result.now ≡ drop count instrs.now }
{
    &instrs[count.min(instrs.len())..]
}
