//! Rules on the work areas.

ghost use Rattle.std.specs.Prelude.{◌≡◌};
ghost use Rattle.code_rules.specs.Rules.{closed_fails as closed_fails_of, area_is_other as area_is_other_of};
ghost use Rattle.code_rules.specs.Rules.{names_other as names_other_of, table_fails as table_fails_of};
ghost use Rattle.xverify.specs.Told.{place_told, IsPlace};

use crate::covering::{KnownPart, some_fails};
use crate::here::Here;
use code_items::{AreaInstr, Declared, Desk, Instr};
use code_rules::desks::{has_table, is_closed, is_other_filter, is_other_list, record_is_other};

/// Whether the work area that has to be open isn't known to be.
pub fn closed_fails(h: &Here) -> bool
    ensures { result ≡ closed_fails_of (place_told h.now) }
{
    is_closed(&h.before.desk, h.instr)
}

fn area_is_other(declared: &Declared, desk: &Desk, instr: AreaInstr) -> bool
    ensures { result ≡ area_is_other_of declared.now desk.now instr }
{
    match instr {
        AreaInstr::Open { table, list } => {
            has_table(declared, table) && is_other_list(declared, table, list)
        }
        AreaInstr::Filter(number) => match desk.selected_area() {
            Some(area) => is_other_filter(declared, area.table, number),
            None => false,
        },
        _ => false,
    }
}

fn names_other(declared: &Declared, desk: &Desk, instr: Instr) -> bool
    ensures { result ≡ names_other_of declared.now desk.now instr }
{
    match instr {
        Instr::Areas(instr) => area_is_other(declared, desk, instr),
        Instr::Records(instr) => record_is_other(declared, desk, instr),
        _ => false,
    }
}

/// Whether a list or filter is of another table, or work areas aren't covered.
pub fn table_fails(h: &Here) -> bool
    requires { IsPlace h.now }
    ensures { result ≡ table_fails_of h.now.code.now (place_told h.now) }
{
    names_other(&h.code.declared, &h.before.desk, h.instr) || some_fails(KnownPart::Desk, h)
}
