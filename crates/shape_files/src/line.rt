//! The lines of a declaration file.

ghost use Rattle.std.specs.Prelude.{◌≡◌, ◌≤◌, length};
ghost use Rattle.std.specs.List.{prefix_len};
ghost use Rattle.std.specs.Str.{bytes_eq};
ghost use Rattle.prg_expr.specs.Lexicon.{is_blank_or_tab};
ghost use Rattle.shape_files.specs.Lines as spec;

/// What a line says.
#[derive(Clone, Copy, Debug)]
pub enum DeclarationLine<'a> {
    /// Nothing: it is empty, or begins with a star.
    Nothing,
    /// `TABLE name`
    Table(&'a [u8]),
    /// `INDEX name ON table KEY key`
    Index {
        name: &'a [u8],
        table: &'a [u8],
        key: &'a [u8],
    },
    /// None of these.
    Other,
}

fn is_blank(byte: u8) -> bool
    ensures { result ≡ is_blank_or_tab byte }
{
    byte == b' ' || byte == b'\t'
}

/// How many blanks stand in front.
fn blanks(text: &[u8]) -> usize
    ensures value { result ≡ prefix_len is_blank_or_tab text.now }
    ensures within { result ≤ length text.now }
{
    text.iter().take_while(|byte| is_blank(**byte)).count()
}

/// How long the word in front is.
fn word_length(text: &[u8]) -> usize
    ensures value { result ≡ spec.word_length text.now }
    ensures within { result ≤ length text.now }
{
    text.iter().take_while(|byte| !is_blank(**byte)).count()
}

#[tactic(auto, unfolding(crate::specs::Lines::behind_blanks))]
fn behind_blanks(text: &[u8]) -> &[u8]
    ensures { result.now ≡ spec.behind_blanks text.now }
{
    text.split_at(blanks(text)).1
}

#[tactic(auto, unfolding(crate::specs::Lines::first_word))]
fn first_word(text: &[u8]) -> &[u8]
    ensures { result.now ≡ spec.first_word text.now }
{
    text.split_at(word_length(text)).0
}

/// What stands behind the first word and the blanks behind it.
#[tactic(auto, unfolding(crate::specs::Lines::behind_word))]
fn behind_word(text: &[u8]) -> &[u8]
    ensures { result.now ≡ spec.behind_word text.now }
{
    behind_blanks(text.split_at(word_length(text)).1)
}

fn is_nothing(text: &[u8]) -> bool
    ensures { result ≡ spec.is_nothing text.now }
{
    match text {
        [] => true,
        [_, ..] => false,
    }
}

fn is_skipped(text: &[u8]) -> bool
    ensures { result ≡ spec.is_skipped text.now }
{
    match text {
        [] => true,
        [first, ..] => *first == b'*',
    }
}

/// Whether the word in front is this one.
fn begins_with(text: &[u8], word: &[u8]) -> bool
    ensures { result ≡ bytes_eq (spec.first_word text.now) word.now }
{
    first_word(text) == word
}

#[tactic(auto, unfolding(crate::specs::Lines::table_said))]
fn table_said(rest: &[u8]) -> DeclarationLine<'_>
    ensures { spec.said_of result ≡ spec.table_said rest.now }
{
    if !is_nothing(rest) && is_nothing(behind_word(rest)) {
        return DeclarationLine::Table(first_word(rest));
    }
    DeclarationLine::Other
}

/// The name behind ON, and all behind it.
#[tactic(auto, unfolding(crate::specs::Lines::of_table))]
fn of_table(rest: &[u8]) -> &[u8]
    ensures { result.now ≡ spec.of_table rest.now }
{
    behind_word(behind_word(rest))
}

#[tactic(auto, unfolding(crate::specs::Lines::key_in))]
fn key_in(rest: &[u8]) -> &[u8]
    ensures { result.now ≡ spec.key_in rest.now }
{
    behind_word(behind_word(of_table(rest)))
}

fn is_on(rest: &[u8]) -> bool
    ensures { result ≡ spec.is_on rest.now }
{
    begins_with(behind_word(rest), b"ON")
}

fn is_key_word(rest: &[u8]) -> bool
    ensures { result ≡ spec.is_key_word rest.now }
{
    begins_with(behind_word(of_table(rest)), b"KEY")
}

#[tactic(auto, unfolding(crate::specs::Lines::index_said))]
fn index_said(rest: &[u8]) -> DeclarationLine<'_>
    ensures { spec.said_of result ≡ spec.index_said rest.now }
{
    if is_on(rest) && is_key_word(rest) && !is_nothing(key_in(rest)) {
        return DeclarationLine::Index {
            name: first_word(rest),
            table: first_word(of_table(rest)),
            key: key_in(rest),
        };
    }
    DeclarationLine::Other
}

/// What a line says.
#[tactic(auto, unfolding(crate::specs::Lines::said_in_line))]
pub fn line_of(text: &[u8]) -> DeclarationLine<'_>
    ensures { spec.said_of result ≡ spec.said_in_line text.now }
{
    let text = behind_blanks(text);
    if is_skipped(text) {
        return DeclarationLine::Nothing;
    }
    if begins_with(text, b"TABLE") {
        return table_said(behind_word(text));
    }
    if begins_with(text, b"INDEX") {
        return index_said(behind_word(text));
    }
    DeclarationLine::Other
}
