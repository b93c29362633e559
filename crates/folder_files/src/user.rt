//! Who runs the program.
#![tactic(auto)]

use save_rules::User;
use std::alloc::{Alloc, AllocError, Global};
use std::fs;
use std::rt::Files as Disk;

/// Where Linux tells of the program that asks.
const STATUS: &str = "/proc/self/status";

/// The bit of the right to give files to others.
const CHOWN: u64 = 1;

/// The bit of the right to read, write and search whatever modes say.
const DAC_OVERRIDE: u64 = 2;

/// The bit of the right to do with each file what its owner may.
const FOWNER: u64 = 8;

/// Who runs the program, as the system tells it. Where it doesn't, files are taken to be given away, and the save shows
/// whether they can be.
#[derive(Drop)]
pub(crate) struct Who {
    id: u32,
    group: u32,
    groups: Vec<u32>,
    gives_away: bool,
    acts_for_owners: bool,
    overrides_modes: bool,
}

/// The effective one of a line's four numbers.
fn effective(words: &str) -> Option<u32> {
    words.split_whitespace().nth(1)?.parse::<u32>().ok()
}

/// All numbers of a line.
fn numbers(alloc: Global, words: &str) -> Result<Vec<u32>, AllocError> {
    let mut found = Vec::new(alloc);
    for word in words.split_whitespace() {
        if let Ok(number) = word.parse::<u32>() {
            found.push(number)?;
        }
    }
    Ok(found)
}

/// The words of the line that begins so.
fn line<'a>(text: &'a str, front: &str) -> Option<&'a str> {
    for line in text.lines() {
        if let Some(words) = line.strip_prefix(front) {
            return Some(words);
        }
    }
    None
}

/// Who the system's text tells of.
fn told(alloc: Global, text: &str) -> Result<Option<Who>, AllocError> {
    let (Some(ids), Some(own), Some(groups), Some(rights)) = (
        line(text, "Uid:"),
        line(text, "Gid:"),
        line(text, "Groups:"),
        line(text, "CapEff:"),
    ) else {
        return Ok(None);
    };
    let (Some(id), Some(group), Ok(rights)) = (
        effective(ids),
        effective(own),
        u64::from_str_radix(rights.trim(), 16),
    ) else {
        return Ok(None);
    };
    Ok(Some(Who {
        id,
        group,
        groups: numbers(alloc, groups)?,
        gives_away: rights & CHOWN != 0,
        acts_for_owners: rights & FOWNER != 0,
        overrides_modes: rights & DAC_OVERRIDE != 0,
    }))
}

/// Who the system's text tells of, if there is one.
fn asked<R: Disk + Alloc<A = Global>>(rt: &R) -> Option<Who> {
    let text = fs::read_to_string(rt, STATUS).ok()?;
    match told(rt.alloc(), text.as_str()) {
        Ok(who) => who,
        Err(_) => None,
    }
}

impl Who {
    /// Who runs the program.
    pub(crate) fn now<R: Disk + Alloc<A = Global>>(rt: &R) -> Who {
        match asked(rt) {
            Some(who) => who,
            None => Who {
                id: 0,
                group: 0,
                groups: Vec::new(rt.alloc()),
                gives_away: true,
                acts_for_owners: true,
                overrides_modes: true,
            },
        }
    }

    /// The same, as the rules of a save see it.
    pub(crate) fn user(&self) -> User<'_> {
        User {
            id: self.id,
            group: self.group,
            groups: self.groups.as_slice(),
            gives_away: self.gives_away,
            acts_for_owners: self.acts_for_owners,
            overrides_modes: self.overrides_modes,
        }
    }
}
