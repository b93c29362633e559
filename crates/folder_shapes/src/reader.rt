//! What a line of a command file says of tables and their indexes.

ghost use Rattle.std.specs.Prelude.{◌≡◌, ◌++◌, [], ◌<◌, IfOk, OnOk, Some, None, length, map, option_map};
ghost use Rattle.std.specs.Char.{to_ascii_uppercase};
ghost use Rattle.prg_expr.specs.Word.{word_of, words as words_of};
ghost use Rattle.prg_line.specs.Alone.{role_at};
ghost use Rattle.folder_shapes.specs.Programs as spec;

use prg_expr::{BinaryOperator, MOST_BYTES, ParseFaultKind, Token, is_word, name_of, words};
use prg_line::{Role, read_line};
use shape::Name;
use std::alloc::{AllocError, Global};

/// The most blocks that are open in one another.
const MOST_BLOCKS: usize = 32;

/// The most indexes that one command opens.
const MOST_OPENED: usize = 7;

/// The table that the last line on work areas chose.
#[derive(Drop)]
pub struct InUse {
    /// The table.
    pub table: Name,
    /// How many blocks began after that line and aren't ended.
    pub blocks: usize,
}

/// What a line says of tables and their indexes.
#[derive(Drop)]
pub enum Said {
    /// Nothing of indexes.
    Nothing,
    /// It makes this index, with a key that is spelled so.
    Makes(Name, Vec<u8>),
    /// It opens these.
    Opens(Vec<Name>),
}

/// Whether words with this fault are looked at.
fn is_readable(fault: Option<ParseFaultKind>) -> bool
    ensures { result ≡ spec.is_readable fault }
{
    match fault {
        None | Some(ParseFaultKind::Macro) => true,
        Some(_) => false,
    }
}

/// The table in use after a line of this role.
pub fn after_role(used: Option<InUse>, role: Role) -> Option<InUse>
    ensures { option_map spec.in_use result ≡ spec.after_role role (option_map spec.in_use used) }
{
    let InUse { table, blocks } = used?;
    match role {
        Role::Nothing | Role::Plain | Role::Leap => Some(InUse { table, blocks }),
        Role::Procedure => None,
        Role::If | Role::DoCase | Role::DoWhile | Role::Scan => {
            if MOST_BLOCKS <= blocks {
                return None;
            }
            Some(InUse {
                table,
                blocks: blocks + 1,
            })
        }
        Role::Else | Role::Case | Role::Otherwise => {
            if blocks == 0 {
                return None;
            }
            Some(InUse { table, blocks })
        }
        Role::EndIf | Role::EndCase | Role::EndDo | Role::EndScan => {
            if blocks == 0 {
                return None;
            }
            Some(InUse {
                table,
                blocks: blocks - 1,
            })
        }
    }
}

/// The table of that name, in use from this line on.
fn chosen_table(name: &[u8]) -> Option<InUse>
    ensures { option_map spec.in_use result ≡ spec.chosen_table (map to_ascii_uppercase name.now) }
{
    Some(InUse {
        table: name_of(name),
        blocks: 0,
    })
}

/// The table that SELECT with this word chooses; a letter is that of a work area.
fn selected(name: &[u8]) -> Option<InUse>
    ensures { option_map spec.in_use result ≡ spec.selected (map to_ascii_uppercase name.now) }
{
    if name.len() < 2 {
        return None;
    }
    chosen_table(name)
}

/// The table in use after a line that begins with this word and the words after it.
#[tactic(auto, unfolding(crate::specs::Programs::used_by_first))]
fn used_by_first(used: Option<InUse>, first: &[u8], rest: &[Token<'_>]) -> Option<InUse>
    ensures { option_map spec.in_use result
        ≡ spec.used_by_first (map to_ascii_uppercase first.now) (words_of rest.now) (option_map spec.in_use used) }
{
    if is_word(first, b"USE") {
        return match rest {
            [Token::Name(table), ..] => chosen_table(*table),
            _ => None,
        };
    }
    if is_word(first, b"SELECT") {
        return match rest {
            [Token::Name(area), ..] => selected(*area),
            _ => None,
        };
    }
    if is_word(first, b"CLOSE") {
        return None;
    }
    used
}

/// The table in use after a line of these words.
#[tactic(auto, unfolding(crate::specs::Programs::by_words))]
fn by_words(used: Option<InUse>, words: &[Token<'_>]) -> Option<InUse>
    ensures { option_map spec.in_use result ≡ spec.by_words (words_of words.now) (option_map spec.in_use used) }
{
    match words {
        [Token::Name(first), rest @ ..] => used_by_first(used, *first, rest),
        _ => used,
    }
}

/// The index after TO, if the words begin with both.
#[tactic(auto, unfolding(crate::specs::Programs::at_to))]
fn at_to(words: &[Token<'_>]) -> Option<Name>
    ensures { option_map (λ index. index.items) result ≡ spec.at_to (words_of words.now) }
{
    match words {
        [Token::Name(to), Token::Name(index), ..] => {
            if is_word(*to, b"TO") {
                return Some(name_of(*index));
            }
            None
        }
        _ => None,
    }
}

fn is_name_word(word: &Token<'_>) -> bool
    ensures { result ≡ spec.is_name_word (word_of word.now) }
{
    matches!(word, Token::Name(_))
}

/// The byte that represents a word other than a name.
fn mark(word: &Token<'_>) -> u8
    ensures { result ≡ spec.mark (word_of word.now) }
{
    match word {
        Token::Open => b'(',
        Token::Close => b')',
        Token::Comma => b',',
        Token::Operator(BinaryOperator::Plus) => b'+',
        _ => b'#',
    }
}

/// Spells a word of a key, after a name or after another word.
fn put_word(key: &mut Vec<u8>, after_name: bool, word: &Token<'_>) -> Result<(), AllocError>
    ensures { OnOk result (key.new.items ≡ key.old.items ++ spec.spelled_word after_name (word_of word.now)) }
{
    match word {
        Token::Name(name) => {
            if after_name {
                key.push(b' ')?;
            }
            key.extend_from_slice(name_of(*name).as_slice())?;
            Ok(())
        }
        _ => {
            key.push(mark(word))?;
            Ok(())
        }
    }
}

/// Spells the words of a key up to TO and an index, and returns that index.
#[tactic(auto, unfolding(crate::specs::Programs::made_index, crate::specs::Programs::spelled))]
fn put_key(
    key: &mut Vec<u8>,
    after_name: bool,
    words: &[Token<'_>],
) -> Result<Option<Name>, AllocError>
    ensures index { IfOk result (λ index. option_map (λ name. name.items) index
        ≡ spec.made_index (words_of words.now)) }
    ensures spelled { OnOk result (key.new.items
        ≡ key.old.items ++ spec.spelled after_name (words_of words.now)) }
{
    let Some((word, others)) = words.split_first() else {
        return Ok(None);
    };
    if let Some(index) = at_to(words) {
        return Ok(Some(index));
    }
    put_word(key, after_name, word)?;
    put_key(key, is_name_word(word), others)
}

/// What INDEX with these words after it says.
#[tactic(auto, unfolding(crate::specs::Programs::made_by))]
fn made_by(alloc: Global, words: &[Token<'_>]) -> Result<Said, AllocError>
    ensures { IfOk result (λ said. spec.says_of said ≡ spec.made_by (words_of words.now)) }
{
    let [Token::Name(on), key @ ..] = words else {
        return Ok(Said::Nothing);
    };
    if !is_word(*on, b"ON") {
        return Ok(Said::Nothing);
    }
    let mut spelled = Vec::new(alloc);
    match put_key(&mut spelled, false, key)? {
        Some(index) => Ok(Said::Makes(index, spelled)),
        None => Ok(Said::Nothing),
    }
}

/// Puts the names at the front of these words, with commas between them, after others.
#[tactic(auto, unfolding(crate::specs::Programs::names_at))]
fn put_names(names: &mut Vec<Name>, words: &[Token<'_>]) -> Result<(), AllocError>
    ensures { OnOk result (map (λ name. name.items) names.new.items
        ≡ map (λ name. name.items) names.old.items ++ spec.names_at (words_of words.now)) }
{
    match words {
        [Token::Name(name), Token::Comma, others @ ..] => {
            names.push(name_of(*name))?;
            put_names(names, others)
        }
        [Token::Name(name), ..] => {
            names.push(name_of(*name))?;
            Ok(())
        }
        _ => Ok(()),
    }
}

/// The names at the front of these words, no more than one command opens.
#[tactic(auto, using(crate::proofs::AnyLemmas::take_of_map))]
fn opened_at(alloc: Global, words: &[Token<'_>]) -> Result<Said, AllocError>
    ensures { IfOk result (λ said. spec.says_of said ≡ spec.Opens (spec.opened_at (words_of words.now))) }
{
    let mut names = Vec::new(alloc);
    put_names(&mut names, words)?;
    names.truncate(MOST_OPENED);
    Ok(Said::Opens(names))
}

/// What USE and a table with these words after them say of indexes.
#[tactic(auto, unfolding(crate::specs::Programs::used_by))]
fn used_by(alloc: Global, words: &[Token<'_>]) -> Result<Said, AllocError>
    ensures { IfOk result (λ said. spec.says_of said ≡ spec.used_by (words_of words.now)) }
{
    let Some((word, others)) = words.split_first() else {
        return Ok(Said::Nothing);
    };
    match word {
        Token::Name(name) if is_word(*name, b"INDEX") => opened_at(alloc, others),
        _ => used_by(alloc, others),
    }
}

/// What SET with these words after it says of indexes.
#[tactic(auto, unfolding(crate::specs::Programs::set_by))]
fn set_by(alloc: Global, words: &[Token<'_>]) -> Result<Said, AllocError>
    ensures { IfOk result (λ said. spec.says_of said ≡ spec.set_by (words_of words.now)) }
{
    match words {
        [Token::Name(index), Token::Name(to), names @ ..] => {
            if is_word(*index, b"INDEX") && is_word(*to, b"TO") {
                return opened_at(alloc, names);
            }
            Ok(Said::Nothing)
        }
        _ => Ok(Said::Nothing),
    }
}

/// What a line says of indexes that begins with this word and these after it.
#[tactic(auto, unfolding(crate::specs::Programs::said_by_first))]
fn said_by_first(alloc: Global, first: &[u8], rest: &[Token<'_>]) -> Result<Said, AllocError>
    ensures { IfOk result (λ said. spec.says_of said
        ≡ spec.said_by_first (map to_ascii_uppercase first.now) (words_of rest.now)) }
{
    if is_word(first, b"INDEX") {
        return made_by(alloc, rest);
    }
    if is_word(first, b"SET") {
        return set_by(alloc, rest);
    }
    if is_word(first, b"USE") {
        return match rest {
            [_, others @ ..] => used_by(alloc, others),
            [] => Ok(Said::Nothing),
        };
    }
    Ok(Said::Nothing)
}

/// What a line of these words says of indexes.
#[tactic(auto, unfolding(crate::specs::Programs::said_in))]
fn said_in(alloc: Global, words: &[Token<'_>]) -> Result<Said, AllocError>
    ensures { IfOk result (λ said. spec.says_of said ≡ spec.said_in (words_of words.now)) }
{
    match words {
        [Token::Name(first), rest @ ..] => said_by_first(alloc, *first, rest),
        _ => Ok(Said::Nothing),
    }
}

/// What a joined line says of indexes, and the table that is in use from it on.
#[tactic(auto, unfolding(crate::specs::Programs::line_words))]
pub fn read(
    alloc: Global,
    used: Option<InUse>,
    text: &[u8],
) -> Result<(Option<InUse>, Said), AllocError>
    ensures used { IfOk result (λ x. option_map spec.in_use x.0
        ≡ spec.used_after text.now (option_map spec.in_use used)) }
    ensures said { IfOk result (λ x. spec.says_of x.1 ≡ spec.said_by_line text.now) }
{
    if MOST_BYTES < text.len() {
        return Ok((None, Said::Nothing));
    }
    let line = words(alloc, text)?;
    if !is_readable(line.fault) {
        return Ok((None, Said::Nothing));
    }
    let role = read_line(alloc, text)?.role;
    let used = by_words(after_role(used, role), line.words.as_slice());
    let said = said_in(alloc, line.words.as_slice())?;
    Ok((used, said))
}
