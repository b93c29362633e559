//! Options that are given again when a session is resumed: they must have the values with which it was begun.
#![tactic(auto)]

ghost use Rattle.std.specs.Prelude.{◌≡◌, not, position};
ghost use Rattle.operator_desk.specs.Talked.{is_as_begun, value_begun};

use journal_papers::JournalPaper;

/// An option of the command line, and its value as the text of a beginning writes it.
#[derive(Drop)]
pub struct RepeatedOption {
    /// The option, with its hyphens.
    pub name: &'static str,
    pub value: String,
}

/// The value with which a session was begun, by the text of its beginning. An option that the text leaves out, as a
/// rehearsal's does those of saving, is a no.
pub fn value_begun<'p>(paper: &'p JournalPaper, name: &str) -> &'p str
    ensures { result.now ≡ value_begun paper.now name.now }
{
    match paper.get(name) {
        Some(word) => word,
        None => "no",
    }
}

/// Whether the session was begun with this value of the option.
fn is_as_begun(paper: &JournalPaper, option: &RepeatedOption) -> bool
    ensures { result ≡ is_as_begun paper.now option.now }
{
    value_begun(paper, option.name) == option.value.as_str()
}

/// The number of the first option that has another value than the session was begun with, if one has.
pub fn first_different(paper: &JournalPaper, options: &[RepeatedOption]) -> Option<usize>
    ensures { result ≡ position (λ option. not (is_as_begun paper.now option)) options.now }
{
    options
        .iter()
        .position(|option| !is_as_begun(paper, option))
}
