//! Names of files.

ghost use Rattle.std.specs.Prelude.{◌≡◌, ◌<◌, map, length, MatchOption};
ghost use Rattle.std.specs.Char.{to_ascii_uppercase};
ghost use Rattle.folder_shapes.specs.Names as spec;

use prg_expr::{MOST_LETTERS, name_of};
use shape::Name;

/// What a file is by the ending of its name, in any letter case.
#[derive(Clone, Copy, PartialEq, Eq, Debug)]
pub enum Sort {
    Table,
    Index,
    Program,
    Other,
}

/// The ending of a name: its last four bytes.
fn ending(name: &[u8]) -> &[u8]
    ensures { result.now ≡ spec.name_ending name.now }
{
    &name[name.len().saturating_sub(4)..]
}

/// What stands before the ending.
pub fn stem(name: &[u8]) -> &[u8]
    ensures { result.now ≡ spec.stem name.now }
{
    &name[..name.len().saturating_sub(4)]
}

/// What a file is by its name.
#[tactic(auto, unfolding(crate::specs::Names::sort_of))]
pub fn sort_of(name: &[u8]) -> Sort
    ensures { result ≡ spec.sort_of name.now }
{
    if ending(name).eq_ignore_ascii_case(b".DBF") {
        return Sort::Table;
    }
    if ending(name).eq_ignore_ascii_case(b".NDX") {
        return Sort::Index;
    }
    if ending(name).eq_ignore_ascii_case(b".PRG") {
        return Sort::Program;
    }
    Sort::Other
}

/// Whether a name has a small letter.
pub fn has_small(name: &[u8]) -> bool
    ensures { result ≡ spec.has_small name.now }
{
    name.iter().any(|byte| byte.is_ascii_lowercase())
}

/// A name in capitals, if it has at most ten letters.
pub fn capitals(name: &[u8]) -> Option<Name>
    ensures { MatchOption result (10 < length name.now) (λ capitals. capitals.items
        ≡ map to_ascii_uppercase name.now) }
{
    if MOST_LETTERS < name.len() {
        return None;
    }
    Some(name_of(name))
}
