//! A line of a declaration file.

use crate::declared::FolderDeclared;
use crate::line::FolderLine;
use crate::mention::{Mention, Proposal};
use crate::note::Note;
use crate::pages::{option_of, page_of};
use std::fmt::{self, Display, Formatter, Write};

/// A line of the declaration file of a folder whose files have these names.
#[derive(Clone, Copy)]
pub struct LineTold<'d, 'n> {
    pub declared: &'d FolderDeclared,
    pub names: &'n [&'n [u8]],
    pub line: FolderLine,
}

/// Bytes of a name, of which those that aren't printed are question marks.
#[derive(Clone, Copy)]
struct Shown<'a>(&'a [u8]);

impl Display for Shown<'_> {
    fn fmt<W: Write>(&self, f: &mut Formatter<W>) -> fmt::Result {
        for byte in self.0 {
            f.write_char(match byte {
                b' '..=b'~' => char::from(*byte),
                _ => '?',
            })?;
        }
        Ok(())
    }
}

/// The same in capitals.
#[derive(Clone, Copy)]
struct Capitals<'a>(&'a [u8]);

impl Display for Capitals<'_> {
    fn fmt<W: Write>(&self, f: &mut Formatter<W>) -> fmt::Result {
        for byte in self.0 {
            f.write_char(match byte {
                b' '..=b'~' => char::from(byte.to_ascii_uppercase()),
                _ => '?',
            })?;
        }
        Ok(())
    }
}

/// The byte with which tables with memo files begin.
const MEMO: u8 = 131;

fn put_table<W: Write>(f: &mut Formatter<W>, declared: &FolderDeclared, t: usize) -> fmt::Result {
    match declared.tables.get(t) {
        Some(table) => {
            let name = Shown(table.name.as_slice());
            write!(f, "TABLE {name}")
        }
        None => Ok(()),
    }
}

fn put_index<W: Write>(f: &mut Formatter<W>, declared: &FolderDeclared, i: usize) -> fmt::Result {
    let Some(index) = declared.indexes.get(i) else {
        return Ok(());
    };
    let Some(table) = declared.tables.get(usize::from(index.table)) else {
        return Ok(());
    };
    let text = index.key.text(table.fields.as_slice());
    let name = Shown(index.name.as_slice());
    let of = Shown(table.name.as_slice());
    let key = Shown(text.as_slice());
    write!(f, "INDEX {name} ON {of} KEY {key}")
}

/// Whether a name is another one in capitals.
fn is_in_capitals(name: &[u8], other: &[u8]) -> bool {
    name.eq_ignore_ascii_case(other) && !name.iter().any(|byte| byte.is_ascii_lowercase())
}

/// What is noted of a file of a folder of these names.
fn put_note<W: Write>(
    f: &mut Formatter<W>,
    names: &[&[u8]],
    name: &[u8],
    note: Note,
) -> fmt::Result {
    let shown = Shown(name);
    write!(f, "* {shown}: {note}")?;
    match note {
        Note::SmallLetters => {
            let capitals = Capitals(name);
            if names.iter().any(|other| is_in_capitals(other, name)) {
                write!(f, ", and {capitals} stands too; give it another name")
            } else {
                write!(f, ", rename it to {capitals}")
            }
        }
        Note::Version(MEMO) => f.write_str(" (memo)"),
        _ => Ok(()),
    }
}

/// A command as it is written, without the blanks around it; a tab is a blank.
#[derive(Clone, Copy)]
struct Command<'a>(&'a [u8]);

impl Display for Command<'_> {
    fn fmt<W: Write>(&self, f: &mut Formatter<W>) -> fmt::Result {
        for byte in self.0.trim_ascii() {
            f.write_char(match byte {
                b' '..=b'~' => char::from(*byte),
                b'\t' => ' ',
                _ => '?',
            })?;
        }
        Ok(())
    }
}

/// The code page that the header of a table names.
fn put_page<W: Write>(
    f: &mut Formatter<W>,
    declared: &FolderDeclared,
    t: usize,
    mark: u8,
) -> fmt::Result {
    let Some(table) = declared.tables.get(t) else {
        return Ok(());
    };
    let name = Shown(table.name.as_slice());
    match page_of(mark) {
        Some(page) => write!(f, "* {name}.DBF: code page {page} (byte 29 is {mark:02X})")?,
        None => write!(f, "* {name}.DBF: unknown code page (byte 29 is {mark:02X})")?,
    }
    match option_of(mark) {
        Some(option) => write!(f, "; {option} reads it"),
        None => Ok(()),
    }
}

/// The index that a command file names and its table, if that is known.
fn put_named<W: Write>(f: &mut Formatter<W>, mention: &Mention) -> fmt::Result {
    let index = Shown(mention.index.as_slice());
    match &mention.table {
        Some(table) => {
            let table = Shown(table.as_slice());
            write!(f, "INDEX {index} ON {table} KEY ")
        }
        None => write!(f, "INDEX {index} ON ? KEY "),
    }
}

/// The key of an index, or a question mark if no command file gives it one.
fn put_key<W: Write>(f: &mut Formatter<W>, mention: &Mention) -> fmt::Result {
    match &mention.key {
        Some(key) => {
            let spelled = Shown(key.spelled.as_slice());
            write!(f, "{spelled}")
        }
        None => f.write_str("?"),
    }
}

/// A command that makes an index.
fn put_command<W: Write>(f: &mut Formatter<W>, mention: &Mention) -> fmt::Result {
    match &mention.key {
        Some(key) => {
            let command = Command(key.command.as_slice());
            write!(f, "{command}")
        }
        None => Ok(()),
    }
}

/// What is proposed for an index that the file of that name names.
fn put_proposal<W: Write>(
    f: &mut Formatter<W>,
    name: &[u8],
    mention: &Mention,
    proposal: Proposal,
) -> fmt::Result {
    let shown = Shown(name);
    write!(f, "* {shown} line {}: ", mention.line)?;
    match proposal {
        Proposal::Declare => {
            put_named(f, mention)?;
            put_key(f, mention)
        }
        Proposal::NoKey => {
            put_named(f, mention)?;
            f.write_str("?: no INDEX ON here has its key")
        }
        Proposal::NoTable => {
            put_command(f, mention)?;
            f.write_str(": the lines before it don't show which table is in use")
        }
        Proposal::OtherTable => {
            put_command(f, mention)?;
            f.write_str(": its table isn't declared here")
        }
        Proposal::OtherKey => {
            put_command(f, mention)?;
            f.write_str(": a key is text fields of the table, plain or in UPPER(), joined by +")
        }
        Proposal::OtherName => {
            put_command(f, mention)?;
            f.write_str(": no name of up to eight capitals, digits and underscores, a letter first")
        }
    }
}

impl LineTold<'_, '_> {
    /// What is proposed for the mention of that number.
    fn put_proposed<W: Write>(
        &self,
        f: &mut Formatter<W>,
        number: usize,
        proposal: Proposal,
    ) -> fmt::Result {
        let Some(mention) = self.declared.mentions.get(number) else {
            return Ok(());
        };
        match self.names.get(mention.file) {
            Some(name) => put_proposal(f, name, mention, proposal),
            None => Ok(()),
        }
    }
}

impl Display for LineTold<'_, '_> {
    fn fmt<W: Write>(&self, f: &mut Formatter<W>) -> fmt::Result {
        match self.line {
            FolderLine::Table(t) => put_table(f, self.declared, t),
            FolderLine::Page(t, mark) => put_page(f, self.declared, t, mark),
            FolderLine::Index(i) => put_index(f, self.declared, i),
            FolderLine::Noted(file, note) => match self.names.get(file) {
                Some(name) => put_note(f, self.names, name, note),
                None => Ok(()),
            },
            FolderLine::Proposed(number, proposal) => self.put_proposed(f, number, proposal),
            FolderLine::More => f.write_str(
                "* of the indexes that command files name, the first 256 are listed",
            ),
        }
    }
}
