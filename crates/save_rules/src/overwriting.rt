// Which files a code file must not overwrite.
#![tactic(auto)]

ghost use Rattle.std.specs.Prelude.{◌≡◌, ◌-◌, length, take, drop, position};
ghost use Rattle.std.specs.Str.{bytes_eq, str_eq_ignore_ascii_case};
ghost use Rattle.save_rules.specs.Overwriting as spec;

/// What a code file would overwrite.
#[derive(Clone, Copy)]
pub enum Overwritten {
    /// The declaration file.
    Declarations,
    /// The command file of this number, counted from 0.
    Source { file: usize },
    /// What tells of a save that was cut off.
    Save,
    /// A journal, or what tells of its conversation's beginning or end.
    Talk,
    /// A table, by its ending.
    Table,
    /// An index, by its ending.
    Index,
    /// Another command file, by its ending.
    Commands,
}

/// The last bytes of a name, so many, or all of a shorter one.
fn last_of(name: &[u8], count: usize) -> &[u8]
    ensures { result.now ≡ drop (length name.now - count) name.now }
{
    &name[name.len().saturating_sub(count)..]
}

/// Whether a name is another one in any case of letters.
fn is_alike(name: &[u8], other: &[u8]) -> bool
    ensures { result ≡ str_eq_ignore_ascii_case name.now other.now }
{
    name.eq_ignore_ascii_case(other)
}

/// Whether a name ends with these bytes, in any case of letters.
fn ends_in(name: &str, ending: &str) -> bool
    ensures { result ≡ spec.ends_in name.now ending.now }
{
    is_alike(last_of(name.as_bytes(), ending.len()), ending.as_bytes())
}

/// Whether a file of this name tells of a conversation's beginning or end.
fn tells_of_talk(name: &str) -> bool
    ensures { result ≡ spec.tells_of_talk name.now }
{
    ends_in(name, ".begun") || ends_in(name, ".done")
}

/// What a file of this name is by its ending.
#[tactic(auto, unfolding(crate::specs::Overwriting::by_ending))]
fn by_ending(name: &str) -> Option<Overwritten>
    ensures { result ≡ spec.by_ending name.now }
{
    if ends_in(name, ".DBF") {
        return Some(Overwritten::Table);
    }
    if ends_in(name, ".NDX") {
        return Some(Overwritten::Index);
    }
    if ends_in(name, ".PRG") {
        return Some(Overwritten::Commands);
    }
    None
}

/// Whether a name begins with another one.
fn begins_with(name: &[u8], front: &[u8]) -> bool
    ensures { result ≡ bytes_eq (take (length front.now) name.now) front.now }
{
    &name[..front.len().min(name.len())] == front
}

/// What a file of this name is. The files that tell of a save have names that begin with `paper`. A conversation has
/// been `recorded` beside a file of this name, or hasn't.
#[tactic(auto, unfolding(crate::specs::Overwriting::by_name))]
fn by_name(name: &str, paper: &str, recorded: bool) -> Option<Overwritten>
    ensures { result ≡ spec.by_name name.now paper.now recorded }
{
    if begins_with(name.as_bytes(), paper.as_bytes()) {
        return Some(Overwritten::Save);
    }
    if recorded || tells_of_talk(name) {
        return Some(Overwritten::Talk);
    }
    by_ending(name)
}

/// Whether two names are one.
fn is_named(name: &[u8], other: &[u8]) -> bool
    ensures { result ≡ bytes_eq name.now other.now }
{
    name == other
}

/// The first of these names that is that of the file to which a code is written.
fn first_written(out: &[u8], names: &[&str]) -> Option<usize>
    ensures { result ≡ position (λ name. bytes_eq name.now out.now) names.now }
{
    names.iter().position(|name| is_named(name.as_bytes(), out))
}

/// What a code file of this name would overwrite, if anything: the declaration file, a command file, or a file that its
/// name tells of. The files that tell of a save have names that begin with `paper`; where a conversation has been
/// `recorded` beside a file of this name, that file is its journal.
#[tactic(auto, unfolding(crate::specs::Overwriting::overwritten_by))]
pub fn overwritten_by(
    out: &str,
    decl: &str,
    sources: &[&str],
    paper: &str,
    recorded: bool,
) -> Option<Overwritten>
    ensures { result ≡ spec.overwritten_by out.now decl.now
        (position (λ name. bytes_eq name.now out.now) sources.now) paper.now recorded }
{
    if is_named(decl.as_bytes(), out.as_bytes()) {
        return Some(Overwritten::Declarations);
    }
    match first_written(out.as_bytes(), sources) {
        Some(file) => Some(Overwritten::Source { file }),
        None => by_name(out, paper, recorded),
    }
}
