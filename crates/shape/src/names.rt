//! Names of tables, indexes and fields.

ghost use Rattle.std.specs.Prelude.{◌≡◌};
ghost use Rattle.std.specs.List.{list_all};
ghost use Rattle.shape.specs.Names.{is_capital_byte, begins_with_capital, is_capital_name as is_capital_name_of};
ghost use Rattle.shape.specs.Names.{is_area_letter as is_area_letter_of, is_file_name as is_file_name_of};

use arrayvec::ArrayVec;

/// A name: up to ten capitals, digits and underscores, a letter first.
pub type Name = ArrayVec<u8, 10>;

fn begins_with_capital(name: &[u8]) -> bool
    ensures { result ≡ begins_with_capital name.now }
{
    match name {
        [first, ..] => first.is_ascii_uppercase(),
        [] => false,
    }
}

fn are_capital_bytes(name: &[u8]) -> bool
    ensures { result ≡ list_all is_capital_byte name.now }
{
    name.iter().all(|byte| byte.is_ascii_uppercase() || byte.is_ascii_digit() || *byte == b'_')
}

/// Whether these are capitals, digits and underscores, a letter first.
pub(crate) fn is_capital_name(name: &[u8]) -> bool
    ensures { result ≡ is_capital_name_of name.now }
{
    begins_with_capital(name) && are_capital_bytes(name)
}

/// Whether this is the letter of a work area, or that of variables: A to J, or M.
fn is_area_letter(name: &[u8]) -> bool
    ensures { result ≡ is_area_letter_of name.now }
{
    match name {
        [letter] => (65 <= *letter && *letter <= 74) || *letter == 77,
        _ => false,
    }
}

/// Whether a table or an index can have this name: at most eight capitals, digits and underscores, a letter first, and
/// not the letter of a work area or of variables alone.
#[tactic(auto, unfolding(crate::specs::Names::is_file_name))]
pub fn is_file_name(name: &[u8]) -> bool
    ensures { result ≡ is_file_name_of name.now }
{
    name.len() <= 8 && is_capital_name(name) && !is_area_letter(name)
}

/// The same name once more.
pub fn copy_of_name(name: &Name) -> Name
    ensures { result ≡ name.now }
{
    let mut copy = ArrayVec::new();
    copy.try_extend_from_slice(name.as_slice()).unwrap();
    copy
}
