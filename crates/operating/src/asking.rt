//! In which field the value of the line that is asked for is stored.

ghost use Rattle.operating.specs.Asking as spec;
ghost use Rattle.std.specs.Prelude.{◌≡◌, option_copied};

use crate::operator::FieldSize;
use code_items::Code;
use code_items::instr::{Instr, RecordInstr};
use dbf_file::Field;
use key_lists::KeyList;
use work_area::Store;

/// The field of this work area that an instruction puts on the stack.
fn lent_field(instr: Instr, area: u8) -> Option<u16>
    ensures { result ≡ spec.lent_field area instr }
{
    match instr {
        Instr::Records(RecordInstr::Field { area: of, field }) if of == area => Some(field),
        _ => None,
    }
}

/// The field of the selected work area into which an instruction takes a value.
fn replaced_field(instr: Instr) -> Option<u16>
    ensures { result ≡ spec.replaced_field instr }
{
    match instr {
        Instr::Records(RecordInstr::Replace(field)) => Some(field),
        _ => None,
    }
}

/// The field of this work area that stands on the stack before the instruction at a place, and takes what it leaves.
fn field_around(instrs: &[Instr], place: usize, area: u8) -> Option<u16>
    ensures { result ≡ spec.field_around instrs.now place area }
{
    let before = instrs.get(place.checked_sub(1)?)?;
    let behind = instrs.get(place.checked_add(1)?)?;
    let lent = lent_field(*before, area)?;
    let replaced = replaced_field(*behind)?;
    if lent == replaced { Some(lent) } else { None }
}

/// A field that a code declares.
fn declared_field(code: &Code, table: u16, field: u16) -> Option<&Field>
    ensures { option_copied result ≡ spec.declared_field code.now table field }
{
    let tables = code.declared.shape.tables.as_slice();
    let fields = tables.get(usize::from(table))?.fields.as_slice();
    fields.get(usize::from(field))
}

/// The field of the selected work area's table for which the instruction at a place takes a line, if it does: the
/// instruction before puts its value on the stack, and the one after stores the new one in it.
pub(crate) fn field_wanted<K: KeyList>(
    code: &Code,
    store: &Store<K>,
    place: usize,
) -> Option<FieldSize>
    ensures { result ≡ spec.field_wanted code.now store.now place }
{
    let area = store.selected();
    let used = store.use_of(area)?;
    let field = field_around(code.instructions.as_slice(), place, area)?;
    let found = declared_field(code, used.table, field)?;
    Some(FieldSize {
        width: found.width,
        decimals: found.decimals,
    })
}
