//! Declarations that are proposed for the indexes that command files name.

ghost use Rattle.std.specs.Prelude.{◌≡◌, map, IfOk};
ghost use Rattle.std.specs.List.{list_any};
ghost use Rattle.folder_shapes.specs.Programs.{named_in};
ghost use Rattle.folder_shapes.specs.Proposals as spec;
ghost use Rattle.folder_shapes.specs.States.{taken_state};

use crate::declared::FolderDeclared;
use crate::found::FoundTable;
use crate::keys::has_key;
use crate::line::FolderLine;
use crate::mention::{Mention, Proposal};
use crate::mentions::MOST_MENTIONS;
use dbf_file::Table;
use shape::{IndexShape, TableShape, is_file_name};
use std::alloc::{AllocError, Global};

/// Whether an index of that name is declared.
fn is_declared(indexes: &[IndexShape], name: &[u8]) -> bool
    ensures { result ≡ spec.is_declared name.now indexes.now }
{
    indexes.iter().any(|index| index.name.as_slice() == name)
}

/// Whether a command makes the index of that name.
fn makes(mention: &Mention, name: &[u8]) -> bool
    ensures { result ≡ spec.makes_index name.now (named_in mention.now) }
{
    mention.key.is_some() && mention.index.as_slice() == name
}

/// Whether a command file makes the index of that name.
fn is_made(mentions: &[Mention], name: &[u8]) -> bool
    ensures { result ≡ list_any (λ m. spec.makes_index name.now (named_in m)) mentions.now }
{
    mentions.iter().any(|mention| makes(mention, name))
}

/// What is proposed for an index that a command opens; nothing if another command makes it.
#[tactic(auto, using(crate::proofs::AnyLemmas::any_of_map))]
fn opened(mentions: &[Mention], index: &[u8]) -> Option<Proposal>
    ensures { result ≡ spec.proposal_if_opened index.now (map named_in mentions.now) }
{
    if is_made(mentions, index) {
        return None;
    }
    Some(Proposal::NoKey)
}

/// The number of the table of that name.
fn declared_number(tables: &[TableShape], name: &[u8]) -> Option<usize>
    ensures { result ≡ spec.declared_number tables.now name.now }
{
    tables
        .iter()
        .position(|table| table.name.as_slice() == name)
}

/// Whether a table's rows can have a key that is spelled so.
fn table_has_key(alloc: Global, table: &Table, spelled: &[u8]) -> Result<bool, AllocError>
    ensures { IfOk result (λ answer. answer ≡ spec.table_has_key table.now spelled.now) }
{
    has_key(alloc, table.structure().fields(), spelled)
}

/// What is proposed for an index of a table with this content.
fn proposal_by_table(
    alloc: Global,
    found: &FoundTable,
    index: &[u8],
    spelled: &[u8],
) -> Result<Proposal, AllocError>
    ensures { IfOk result (λ proposal. proposal ≡ spec.proposal_by_table index.now spelled.now found.now) }
{
    if !table_has_key(alloc, &found.table, spelled)? {
        return Ok(Proposal::OtherKey);
    }
    if !is_file_name(index) {
        return Ok(Proposal::OtherName);
    }
    Ok(Proposal::Declare)
}

/// What is proposed for an index with a key that is spelled so, by the name of its table.
fn proposal_by_name(
    alloc: Global,
    declared: &FolderDeclared,
    index: &[u8],
    spelled: &[u8],
    table: &[u8],
) -> Result<Proposal, AllocError>
    ensures { IfOk result (λ proposal. proposal
        ≡ spec.proposal_by_name (taken_state declared.now) index.now spelled.now table.now) }
{
    let Some(t) = declared_number(declared.tables.as_slice(), table) else {
        return Ok(Proposal::OtherTable);
    };
    match declared.found.get(t) {
        Some(found) => proposal_by_table(alloc, found, index, spelled),
        None => Ok(Proposal::OtherTable),
    }
}

/// What is proposed for an index that command files name; nothing if it is declared, or if it is made elsewhere.
fn proposal(
    alloc: Global,
    declared: &FolderDeclared,
    mention: &Mention,
) -> Result<Option<Proposal>, AllocError>
    ensures { IfOk result (λ proposal. proposal
        ≡ spec.proposal_of (taken_state declared.now) (named_in mention.now)) }
{
    let index = mention.index.as_slice();
    if is_declared(declared.indexes.as_slice(), index) {
        return Ok(None);
    }
    let Some(key) = &mention.key else {
        return Ok(opened(declared.mentions.as_slice(), index));
    };
    let Some(table) = &mention.table else {
        return Ok(Some(Proposal::NoTable));
    };
    let proposed = proposal_by_name(
        alloc,
        declared,
        index,
        key.spelled.as_slice(),
        table.as_slice(),
    )?;
    Ok(Some(proposed))
}

/// The lines that propose declarations for the indexes that command files name.
pub fn proposed_lines(
    alloc: Global,
    declared: &FolderDeclared,
) -> Result<Vec<FolderLine>, AllocError>
    ensures { IfOk result (λ lines. lines.items ≡ spec.proposed_lines (taken_state declared.now)) }
{
    let mut lines = Vec::new(alloc);
    for (n, mention) in declared.mentions.iter().enumerate() {
        if let Some(proposed) = proposal(alloc, declared, mention)? {
            lines.push(FolderLine::Proposed(n, proposed))?;
        }
    }
    if declared.mentions.len() == MOST_MENTIONS {
        lines.push(FolderLine::More)?;
    }
    Ok(lines)
}
