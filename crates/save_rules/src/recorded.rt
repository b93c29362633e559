//! Which files the record of a save may name.

ghost use Rattle.std.specs.Prelude.{◌≡◌, ◌≢◌, ◌++◌, ◌↔◌, List, ℕ, IsTrue, IfNone, IfSome};
ghost use Rattle.save_rules.specs.Recorded as spec;

use shape::is_file_name;

/// The most files that a record names: 32 tables, 64 indexes and one `.done`.
pub const MOST_RECORDED: usize = 97;

/// What a file that a record names is, by its name.
#[derive(Clone, Copy)]
pub enum Recorded<'a> {
    /// A table: NAME.DBF with a NAME that can be declared.
    Table,
    /// An index: NAME.NDX with a NAME that can be declared.
    Index,
    /// JOURNAL.done, which records the end of the session that this journal keeps.
    Done { journal: &'a [u8] },
    /// Anything else.
    Other,
}

/// The bytes of a name before an ending, if the name has that ending.
fn before_ending<'a>(name: &'a [u8], ending: &[u8]) -> Option<&'a [u8]>
    ensures found { IfSome result (λ front. name.now ≡ front.now ++ ending.now) }
    ensures none { IfNone result ((front : List ℕ) → name.now ≢ front ++ ending.now) }
{
    let (front, rest) = name.split_at(name.len().saturating_sub(ending.len()));
    if rest == ending { Some(front) } else { None }
}

/// Whether a name is a declarable one followed by an ending.
fn is_declared(name: &[u8], ending: &[u8]) -> bool
    ensures { IsTrue result ↔ spec.IsDeclaredFile ending.now name.now }
{
    match before_ending(name, ending) {
        Some(declared) => is_file_name(declared),
        None => false,
    }
}

/// What a file of this name is, if a record names it. Case matters, because a run saves tables and indexes under names
/// in capitals.
pub fn recorded_as(name: &[u8]) -> Recorded<'_>
    ensures { spec.IsRecordedAs name.now result }
{
    if is_declared(name, b".DBF") {
        return Recorded::Table;
    }
    if is_declared(name, b".NDX") {
        return Recorded::Index;
    }
    match before_ending(name, b".done") {
        Some(journal) if !journal.is_empty() => Recorded::Done { journal },
        _ => Recorded::Other,
    }
}

/// Whether a name is one of others.
fn is_named_among(name: &[u8], others: &[&[u8]]) -> bool
    ensures { result ≡ spec.is_named_among name.now others.now }
{
    others.iter().any(|other| *other == name)
}

/// Whether no two of these names are equal.
fn are_different(names: &[&[u8]]) -> bool
    ensures { IsTrue result ↔ spec.AllDiffer names.now }
{
    for (place, name) in names.iter().enumerate() {
        if is_named_among(name, &names[..place]) {
            return false;
        }
    }
    true
}

/// Whether one record may name all these files: at most `MOST_RECORDED`, and no two names are equal. There are two
/// names for each file, its own and that of its new file.
pub fn may_be_recorded(names: &[&[u8]]) -> bool
    ensures { IsTrue result ↔ spec.MayBeRecorded names.now }
{
    names.len() <= 2 * MOST_RECORDED && are_different(names)
}
