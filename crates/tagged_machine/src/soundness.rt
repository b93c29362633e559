//! Whether a filter can be asked of every row: its needs are met, no instruction of its block has a fault, and a truth
//! value is left alone.

ghost use Rattle.std.specs.Prelude.{◌≡◌, ◌≤◌, ◌++◌, length, drop, map};
ghost use Rattle.std.specs.List.{list_any};
ghost use Rattle.code_items.specs.Legal.{IsCode};
ghost use Rattle.code_rules.specs.Rules.{lacks as lacks_of, height_after};
ghost use Rattle.code_rules.specs.Signature.{signature};
ghost use Rattle.code_rules.specs.Wants.{gives as gives_of, known};
ghost use Rattle.run_steps.specs.Faults.{moves_badly as moves_badly_of, bad_filter as bad_filter_of};
ghost use Rattle.run_steps.specs.Filters.{block_fails, block_sound, block_start, is_sound as is_sound_of};
ghost use Rattle.run_steps.specs.World.{kind_held};
ghost use Rattle.tagged_machine.specs.Seen.{state_seen};

use crate::kinds::is_truth;
use crate::operands::{filters_other, loads_free, loads_other};
use crate::scratch::BlockScratch;
use code_items::declared::Need;
use code_items::laws::legal_codes;
use code_items::{Code, Desk, Instr, kinds_clash};
use code_rules::Signature;
use code_rules::filters::{filters, is_rows};
use code_rules::heights::{is_over, is_under};
use code_rules::kinds::{gives, wants};
use code_rules::operands::undeclared;
use code_rules::slots::lacks as lacks_kind;
use run_steps::layout::block_of;
use run_values::{Pile, Tagged};
use xvalue::Kind;

fn lacks(values: &Tagged, need: Need) -> bool
    ensures { result ≡ lacks_of (map kind_held values.now.slots) need }
{
    lacks_kind(need.kind, values.kind_at(usize::from(need.slot)))
}

fn lacks_some(values: &Tagged, needs: &[Need]) -> bool
    ensures { result ≡ list_any (lacks_of (map kind_held values.now.slots)) needs.now }
{
    needs.iter().any(|need| lacks(values, *need))
}

/// Whether a filter's block can't have the instruction there, or it has a fault.
fn fails(code: &Code, desk: &Desk, values: &Tagged, kinds: &Pile<Kind>, instr: Instr) -> bool
    ensures { result ≡ block_fails code.now
        (record { desk = desk.now; slots = map kind_held values.now.slots; stack = kinds.now }) instr }
{
    !filters(instr)
        || kinds_clash(kinds.values(), wants(&code.declared, desk, instr))
        || loads_other(values, instr)
        || loads_free(values, instr)
        || is_under(kinds.len(), instr)
        || is_over(&code.declared, kinds.len(), instr)
        || undeclared(code, desk, instr)
}

/// Puts the kind that the instruction leaves in the place of those that it takes.
fn leave(code: &Code, desk: &Desk, kinds: &mut Pile<Kind>, instr: Instr)
    requires there { (signature instr).taken ≤ length kinds.old }
    requires room { height_after (length kinds.old) instr ≤ 64 }
    ensures { kinds.new ≡ known (gives_of code.now.declared desk.now instr) ++ drop (signature instr).taken kinds.old }
{
    let given = gives(&code.declared, desk, instr);
    kinds.drop_top(Signature::of(instr).taken);
    match given {
        Some(Some(kind)) => kinds.push(kind),
        _ => {}
    }
}

/// Whether no instruction of the block has a fault, and a truth value is left alone.
fn is_block_sound(
    code: &Code,
    desk: &Desk,
    values: &Tagged,
    kinds: &mut Pile<Kind>,
    block: &[Instr],
) -> bool
    requires { IsCode code.now }
    ensures { result ≡ block_sound code.now
        (record { desk = desk.now; slots = map kind_held values.now.slots; stack = kinds.old }) block.now }
{
    legal_codes();
    let mut rest = block;
    while let Some((instr, others)) = rest.split_first() {
        if fails(code, desk, values, kinds, *instr) {
            return false;
        }
        leave(code, desk, kinds, *instr);
        rest = others;
    }
    is_truth(kinds)
}

/// The same for a block of a filter of this table, counted from 0, where nothing is on the stack.
fn can_run(
    code: &Code,
    values: &Tagged,
    scratch: &mut BlockScratch,
    table: u16,
    block: &[Instr],
) -> bool
    requires { IsCode code.now }
    ensures { result ≡ block_sound code.now (block_start table (map kind_held values.now.slots)) block.now }
{
    scratch.areas.show_table(table);
    let count = scratch.kinds.len();
    scratch.kinds.drop_top(count);
    is_block_sound(
        code,
        scratch.areas.desk(),
        values,
        &mut scratch.kinds,
        block,
    )
}

/// Whether the filter, counted from 1, can be asked; 0 is none.
fn is_sound(code: &Code, values: &Tagged, scratch: &mut BlockScratch, number: u16) -> bool
    requires { IsCode code.now }
    ensures { result ≡ is_sound_of code.now (map kind_held values.now.slots) number }
{
    if number == 0 {
        return true;
    }
    match code.declared.filter(number) {
        Some(filter) => {
            !lacks_some(values, filter.needs.as_slice())
                && can_run(
                    code,
                    values,
                    scratch,
                    u16::from(filter.table),
                    block_of(code, number),
                )
        }
        None => false,
    }
}

/// Whether it may move the pointer, and the filter can't be asked.
fn moves_badly(
    code: &Code,
    desk: &Desk,
    values: &Tagged,
    scratch: &mut BlockScratch,
    instr: Instr,
) -> bool
    requires { IsCode code.now }
    ensures { result ≡ moves_badly_of code.now (state_seen desk.now values.now) instr }
{
    if !Signature::of(instr).moves {
        return false;
    }
    match desk.selected_area() {
        Some(area) => !is_sound(code, values, scratch, area.filter),
        None => false,
    }
}

/// Whether a field of a row is read outside of a filter, a filter is of another table, or it can't be asked where it
/// has to be.
pub fn bad_filter(
    code: &Code,
    desk: &Desk,
    values: &Tagged,
    scratch: &mut BlockScratch,
    instr: Instr,
) -> bool
    requires { IsCode code.now }
    ensures { result ≡ bad_filter_of code.now (state_seen desk.now values.now) instr }
{
    is_rows(instr)
        || filters_other(&code.declared, desk, instr)
        || moves_badly(code, desk, values, scratch, instr)
}
