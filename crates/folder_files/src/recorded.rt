//! Which files of the folder the record of a save may name: only those that a save can have replaced. Anybody who may
//! write in the folder can forge a record.
#![tactic(auto)]

use crate::disk::is_free;
use crate::targets::behind_links;
use file_access::read_within;
use save_papers::SavePaper;
use save_rules::{Recorded, may_be_recorded, recorded_as};
use std::alloc::{Alloc, AllocError, Global};
use std::rt::Files as Disk;
use std::{fs, str};

/// The most bytes of all names of a folder: 64 MiB.
const NAMES: usize = 67_108_864;

/// The most links of a folder that are followed.
const LINKS: usize = 1_000;

/// The name of the file to which a link of a table's or an index's name leads; none if it is no such link.
fn target_of_link<R: Disk + Alloc<A = Global>>(rt: &R, link: &[u8]) -> Option<String> {
    let (Recorded::Table | Recorded::Index) = recorded_as(link) else {
        return None;
    };
    let link = str::from_utf8(link).ok()?;
    match fs::symlink_metadata(rt, link) {
        Ok(data) if data.is_symlink() => behind_links(rt, link),
        _ => None,
    }
}

/// The names of the files to which the folder's links of tables' and indexes' names lead, of the first `LINKS` of them.
fn linked_names<R: Disk + Alloc<A = Global>>(rt: &R) -> Result<Vec<String>, AllocError> {
    let mut found = Vec::new(rt.alloc());
    let Ok(mut names) = rt.open_dir(".") else {
        return Ok(found);
    };
    let Ok(names) = read_within(rt.alloc(), &mut names, NAMES) else {
        return Ok(found);
    };
    for link in names.as_slice().split(|byte| *byte == 0) {
        if found.len() >= LINKS {
            break;
        }
        if let Some(target) = target_of_link(rt, link) {
            found.push(target)?;
        }
    }
    Ok(found)
}

/// Whether a session with this journal was begun in the folder.
fn was_begun<R: Disk + Alloc<A = Global>>(rt: &R, journal: &[u8]) -> Result<bool, AllocError> {
    let Ok(journal) = str::from_utf8(journal) else {
        return Ok(false);
    };
    let begun = format!(in rt.alloc(); "{journal}.begun")?;
    Ok(!is_free(rt, begun.as_str()))
}

/// Whether a save can have replaced a file of this name: a table or an index, the file to which a link of such a name
/// leads, or what tells of the end of a session.
fn may_be_saved<R: Disk + Alloc<A = Global>>(
    rt: &R,
    name: &[u8],
    linked: &[String],
) -> Result<bool, AllocError> {
    match recorded_as(name) {
        Recorded::Table | Recorded::Index => Ok(true),
        Recorded::Done { journal } => was_begun(rt, journal),
        Recorded::Other => Ok(linked.iter().any(|target| target.as_bytes() == name)),
    }
}

/// Whether a record names a file that is only known by a link.
fn names_another(paper: &SavePaper) -> bool {
    paper.entries.iter().any(|entry| matches!(recorded_as(entry.name.as_slice()), Recorded::Other))
}

/// All names that a record says, those of the files and those of their new files.
fn names_of(alloc: Global, paper: &SavePaper) -> Result<Vec<&[u8]>, AllocError> {
    let mut names = Vec::new(alloc);
    for entry in &paper.entries {
        names.push(entry.name.as_slice())?;
        names.push(entry.beside.as_slice())?;
    }
    Ok(names)
}

/// Whether a save can have written this record: it names at most as many files as one run may declare, each once, and
/// only files that a save can have replaced.
pub(crate) fn may_be_written<R: Disk + Alloc<A = Global>>(
    rt: &R,
    paper: &SavePaper,
) -> Result<bool, AllocError> {
    let names = names_of(rt.alloc(), paper)?;
    if !may_be_recorded(names.as_slice()) {
        return Ok(false);
    }
    let linked = if names_another(paper) {
        linked_names(rt)?
    } else {
        Vec::new(rt.alloc())
    };
    for entry in &paper.entries {
        if !may_be_saved(rt, entry.name.as_slice(), linked.as_slice())? {
            return Ok(false);
        }
    }
    Ok(true)
}
