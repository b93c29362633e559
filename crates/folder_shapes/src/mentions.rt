//! The indexes that the lines of a command file name.

ghost use Rattle.std.specs.Prelude.{◌≡◌, ◌<◌, IfOk, OnOk, None, Some, length, map, option_map};
ghost use Rattle.std.specs.List.{list_any};
ghost use Rattle.folder_shapes.specs.Programs as spec;

use crate::joining::{ProgramLine, before_end, join_line};
use crate::mention::{Mention, WrittenKey};
use crate::reader::{InUse, Said, read};
use shape::{Name, copy_of_name};
use std::alloc::{AllocError, Global};

/// The most indexes of command files that are listed.
pub const MOST_MENTIONS: usize = 256;

/// Whether both are the same text, or neither is one.
fn is_same_text(a: &Option<Name>, b: &Option<Name>) -> bool
    ensures { result ≡ spec.same_text (option_map (λ t. t.items) a.now) (option_map (λ t. t.items) b.now) }
{
    match (a, b) {
        (None, None) => true,
        (Some(a), Some(b)) => a.as_slice() == b.as_slice(),
        _ => false,
    }
}

/// Whether a spelling may be that of several keys.
fn is_vague(spelled: &[u8]) -> bool
    ensures { result ≡ spec.is_vague spelled.now }
{
    spelled.iter().any(|byte| *byte == b'#')
}

/// Whether both spellings are of one key.
fn is_same_spelling(a: &WrittenKey, b: &WrittenKey) -> bool
    ensures { result ≡ spec.same_spelling (spec.key_written a.now) (spec.key_written b.now) }
{
    a.spelled.as_slice() == b.spelled.as_slice()
        && (!is_vague(a.spelled.as_slice())
            || a.command
                .as_slice()
                .eq_ignore_ascii_case(b.command.as_slice()))
}

/// Whether both are the same key, or neither is one.
fn is_same_key(a: &Option<WrittenKey>, b: &Option<WrittenKey>) -> bool
    ensures { result ≡ spec.same_key (option_map spec.key_written a.now) (option_map spec.key_written b.now) }
{
    match (a, b) {
        (None, None) => true,
        (Some(a), Some(b)) => is_same_spelling(a, b),
        _ => false,
    }
}

/// Whether both name the same index with the same key, of the same table.
fn is_same(a: &Mention, b: &Mention) -> bool
    ensures { result ≡ spec.same_named (spec.named_in a.now) (spec.named_in b.now) }
{
    a.index.as_slice() == b.index.as_slice()
        && is_same_text(&a.table, &b.table)
        && is_same_key(&a.key, &b.key)
}

/// Whether the same is among them.
fn is_among(mentions: &[Mention], mention: &Mention) -> bool
    ensures { result
        ≡ list_any (λ other. spec.same_named (spec.named_in mention.now) (spec.named_in other)) mentions.now }
{
    mentions.iter().any(|other| is_same(mention, other))
}

/// Whether one isn't added: they are as many as are listed, or the same is among them.
#[tactic(auto, using(crate::proofs::AnyLemmas::any_of_map, crate::proofs::AnyLemmas::length_of_map))]
fn is_left_out(mentions: &[Mention], mention: &Mention) -> bool
    ensures { result ≡ spec.is_left_out (spec.named_in mention.now) (map spec.named_in mentions.now) }
{
    MOST_MENTIONS <= mentions.len() || is_among(mentions, mention)
}

/// Adds one, unless it is left out.
fn add(mentions: &mut Vec<Mention>, mention: Mention) -> Result<(), AllocError>
    ensures { OnOk result (map spec.named_in mentions.new.items
        ≡ spec.with_named (spec.named_in mention) (map spec.named_in mentions.old.items)) }
{
    if is_left_out(mentions.as_slice(), &mention) {
        return Ok(());
    }
    mentions.push(mention)?;
    Ok(())
}

/// The name of the table in use.
fn table_of(used: &Option<InUse>) -> Option<Name>
    ensures { option_map (λ t. t.items) result ≡ spec.table_in (option_map spec.in_use used.now) }
{
    match used {
        Some(used) => Some(copy_of_name(&used.table)),
        None => None,
    }
}

/// Adds the indexes that a line opens.
fn add_opened(
    mentions: &mut Vec<Mention>,
    file: usize,
    line: usize,
    used: &Option<InUse>,
    names: &[Name],
) -> Result<(), AllocError>
    ensures { OnOk result (map spec.named_in mentions.new.items
        ≡ spec.with_all_named (spec.opened_names file line (spec.table_in (option_map spec.in_use used.now))
        (map (λ name. name.items) names.now)) (map spec.named_in mentions.old.items)) }
{
    let Some((index, others)) = names.split_first() else {
        return Ok(());
    };
    let mention = Mention {
        file,
        line,
        table: table_of(used),
        index: copy_of_name(index),
        key: None,
    };
    add(mentions, mention)?;
    add_opened(mentions, file, line, used, others)
}

/// Adds the index that a line makes.
fn add_made(
    alloc: Global,
    mentions: &mut Vec<Mention>,
    file: usize,
    line: &ProgramLine,
    used: &Option<InUse>,
    index: Name,
    spelled: Vec<u8>,
) -> Result<(), AllocError>
    ensures { OnOk result (map spec.named_in mentions.new.items
        ≡ spec.with_all_named (spec.named_by file (spec.as_joined line.now)
        (spec.table_in (option_map spec.in_use used.now)) (spec.Makes index.items spelled.items))
        (map spec.named_in mentions.old.items)) }
{
    let command = Vec::from_slice(alloc, line.text.as_slice())?;
    let mention = Mention {
        file,
        line: line.first,
        table: table_of(used),
        index,
        key: Some(WrittenKey { spelled, command }),
    };
    add(mentions, mention)
}

/// Adds the indexes that a line names which says this.
fn add_said(
    alloc: Global,
    mentions: &mut Vec<Mention>,
    file: usize,
    line: &ProgramLine,
    used: &Option<InUse>,
    said: Said,
) -> Result<(), AllocError>
    ensures { OnOk result (map spec.named_in mentions.new.items
        ≡ spec.with_all_named (spec.named_by file (spec.as_joined line.now)
        (spec.table_in (option_map spec.in_use used.now)) (spec.says_of said))
        (map spec.named_in mentions.old.items)) }
{
    match said {
        Said::Nothing => Ok(()),
        Said::Makes(index, spelled) => add_made(alloc, mentions, file, line, used, index, spelled),
        Said::Opens(names) => add_opened(mentions, file, line.first, used, names.as_slice()),
    }
}

/// Adds the indexes that a line names, and returns the table in use after it.
fn take_line(
    alloc: Global,
    mentions: &mut Vec<Mention>,
    file: usize,
    used: Option<InUse>,
    line: &ProgramLine,
) -> Result<Option<InUse>, AllocError>
    ensures used { IfOk result (λ after. option_map spec.in_use after
        ≡ spec.used_after line.now.text.items (option_map spec.in_use used)) }
    ensures named { OnOk result (map spec.named_in mentions.new.items
        ≡ spec.with_all_named (spec.named_by_line file (spec.as_joined line.now) (option_map spec.in_use used))
        (map spec.named_in mentions.old.items)) }
{
    let (used, said) = read(alloc, used, line.text.as_slice())?;
    add_said(alloc, mentions, file, line, &used, said)?;
    Ok(used)
}

/// Adds the indexes that the lines of the command file of that number name.
pub fn take_lines(
    alloc: Global,
    mentions: &mut Vec<Mention>,
    file: usize,
    bytes: &[u8],
) -> Result<(), AllocError>
    ensures { OnOk result (map spec.named_in mentions.new.items
        ≡ spec.with_all_named (spec.names_of_file file bytes.now) (map spec.named_in mentions.old.items)) }
{
    let mut rest = before_end(bytes);
    let mut used = None;
    let mut line = 1;
    while !rest.is_empty() {
        let found = join_line(alloc, line, rest)?;
        used = take_line(alloc, mentions, file, used, &found.joined)?;
        line = found.line;
        rest = found.rest;
    }
    Ok(())
}
