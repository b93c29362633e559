//! Whether fields are those that a table declares.

ghost use Rattle.std.specs.Prelude.{◌≡◌, ◌↔◌, IsTrue, length};
ghost use Rattle.table_files.specs.Loading.{AreNamed, AreDeclared};

use dbf_file::Field;
use work_area::handed::are_alike;

/// Whether fields have the names of others in their order, without regard to case.
fn are_named(fields: &[Field], others: &[Field]) -> bool
    requires { length fields.now ≡ length others.now }
    ensures { IsTrue result ↔ AreNamed fields.now others.now }
{
    for i in 0..fields.len() {
        if !fields[i]
            .name
            .as_slice()
            .eq_ignore_ascii_case(others[i].name.as_slice())
        {
            return false;
        }
    }
    true
}

/// Whether fields are the declared ones in their order: of the same names, without regard to case, letters, widths and
/// decimals. Only numbers have decimals.
pub(crate) fn are_declared(fields: &[Field], declared: &[Field]) -> bool
    ensures { IsTrue result ↔ AreDeclared fields.now declared.now }
{
    if !are_alike(fields, declared) {
        return false;
    }
    are_named(fields, declared)
}
