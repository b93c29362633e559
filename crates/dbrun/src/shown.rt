//! What a person at a terminal is shown beside what the program says.

use crate::escaped::Escaped;
use compile_commands::{CompileFilesRefusal, CompileWords, SourceFault};
use file_access::Files;
use folder_files::{Doing, FileSum, Harm, Hindrance, Listener, Sum, Unreplaced, sum_of};
use hints::{of_command, of_compiled_line, of_declaration, of_line, of_table_line};
use run_commands::How;
use save_rules::Overwritten;
use shape_files::{DeclFault, LineFault, ShapeRefusal};
use std::alloc::{Alloc, AllocError, Global};
use std::cell::RefCell;
use std::fmt::{self, Display, Formatter, Write};
use std::io::Eprint;

/// Which of the program's streams are terminals, so that a person is shown more.
#[derive(Clone, Copy)]
pub struct Audience {
    /// Standard error: a file or another program gets not a byte more than what is documented.
    pub person: bool,
    /// Standard output: a terminal is sent no byte that it would obey.
    pub rows: bool,
    /// Standard input: a person types.
    pub typing: bool,
}

/// The least bytes of a file whose reading or writing a person is told of: 8 MiB.
const LONG: u64 = 8_388_608;

/// Tells a person on standard error of long files while they are read and written.
#[derive(Clone, Copy)]
pub struct Progress<'a, R> {
    pub rt: &'a R,
    pub audience: Audience,
    /// Where the sums of the files of a run are noted, if they are.
    pub sums: Option<&'a RefCell<Vec<FileSum>>>,
}

/// What stands for the sum of a file that is too long to be read: no file is known to have it.
const SUM_OF_LONG: Sum = [0; 32];

impl<R: Eprint + Alloc<A = Global>> Progress<'_, R> {
    /// Notes the sum of a file of a run, where sums are noted.
    fn note_sum(&self, name: &str, sum: Option<Sum>) -> Result<(), AllocError> {
        let Some(sums) = self.sums else {
            return Ok(());
        };
        let name = String::from_str(self.rt.alloc(), name)?;
        let Ok(mut sums) = sums.try_borrow_mut() else {
            return Err(AllocError);
        };
        sums.push(FileSum { name, sum })?;
        Ok(())
    }
}

impl<R: Eprint + Alloc<A = Global>> Listener for Progress<'_, R> {
    fn hear(&self, doing: Doing, name: &str, size: u64) {
        if self.audience.person && size >= LONG {
            let doing = match doing {
                Doing::Reading => "reading",
                Doing::Writing => "writing",
            };
            let what = &name;
            let at_terminal = true;
            let _ = eprintln!(self.rt; "{doing} {}", Escaped { what, at_terminal });
        }
    }

    fn found(&self, name: &str, bytes: Option<&[u8]>) -> Result<(), AllocError> {
        if self.sums.is_none() {
            return Ok(());
        }
        self.note_sum(name, bytes.map(|bytes| sum_of(bytes)))
    }

    fn found_long(&self, name: &str) -> Result<(), AllocError> {
        self.note_sum(name, Some(SUM_OF_LONG))
    }
}

/// A line of a file, counted from 1.
#[derive(Clone, Copy)]
pub struct FaultyLine<'a> {
    pub file: &'a str,
    pub line: usize,
}

/// The line that a fault of a command file names, from 1; 0 where it names none.
pub fn line_of(fault: SourceFault) -> usize {
    match fault {
        SourceFault::Parse { line, .. } | SourceFault::Compile { line, .. } => line,
        SourceFault::Absent | SourceFault::TooLong => 0,
    }
}

/// The line that a fault of a declaration file names, from 1; 0 where it names none.
pub fn declared_line(fault: DeclFault) -> usize {
    match fault {
        DeclFault::Line { line, .. } => line,
        DeclFault::Absent | DeclFault::TooLong => 0,
    }
}

/// What to do about a file that isn't there.
const ABSENT: &str = "there is no file of this name here";

/// What to do about a file that is too long.
const LONGER: &str = "the file is longer than 64 MiB";

/// What to do about a file that the device doesn't give.
const UNREAD: &str = "the file can't be read; it may be a folder, or closed to you";

/// Where a refusal found a line faulty, if it names one.
pub fn faulty_line<'a>(
    refusal: &CompileFilesRefusal,
    words: CompileWords<'a>,
) -> Option<FaultyLine<'a>> {
    match refusal {
        CompileFilesRefusal::Declarations(ShapeRefusal::Refused(DeclFault::Line { line, .. })) =>
            Some(FaultyLine {
                file: words.decl,
                line: *line,
            }),
        CompileFilesRefusal::Source { file, fault } => {
            let line = line_of(*fault);
            let file = words.names.get(*file)?;
            Some(FaultyLine { file, line })
        }
        _ => None,
    }
}

/// What to do about a refusal of this line, in one sentence without its point.
pub fn hint_of<F: Files>(
    alloc: Global,
    files: &mut F,
    refusal: &CompileFilesRefusal,
    line: PrintableLine<'_>,
) -> Option<&'static str> {
    match refusal {
        CompileFilesRefusal::Source { fault, .. } => match fault {
            SourceFault::Parse { kind, .. } => Some(of_line(alloc, *kind, line.bytes)),
            SourceFault::Compile { kind, .. } => Some(of_compiled_line(alloc, *kind, line.bytes)),
            SourceFault::Absent | SourceFault::TooLong => None,
        },
        CompileFilesRefusal::Declarations(ShapeRefusal::Refused(DeclFault::Line { fault, .. })) => {
            match fault {
                LineFault::Table => Some(of_table_line(alloc, files, line.bytes)),
                _ => Some(of_declaration(*fault)),
            }
        }
        _ => None,
    }
}

/// What to do about a refusal that names no line, in one sentence without its point.
pub fn of_file(refusal: &CompileFilesRefusal) -> Option<&'static str> {
    match refusal {
        CompileFilesRefusal::Declarations(ShapeRefusal::Refused(DeclFault::Absent)) => Some(ABSENT),
        CompileFilesRefusal::Declarations(ShapeRefusal::Refused(DeclFault::TooLong)) => Some(
            LONGER,
        ),
        CompileFilesRefusal::Source { fault, .. } => match fault {
            SourceFault::Absent => Some(ABSENT),
            SourceFault::TooLong => Some(LONGER),
            SourceFault::Compile { line: 0, kind } => Some(of_command(*kind)),
            SourceFault::Parse { .. } | SourceFault::Compile { .. } => None,
        },
        CompileFilesRefusal::Declarations(ShapeRefusal::Disk | ShapeRefusal::TableDisk(_))
        | CompileFilesRefusal::SourceDisk { .. } => Some(UNREAD),
        _ => None,
    }
}

/// The name of the file that isn't there, if that is why nothing was compiled.
pub fn absent_file<'a>(refusal: &CompileFilesRefusal, words: CompileWords<'a>) -> Option<&'a str> {
    match refusal {
        CompileFilesRefusal::Declarations(ShapeRefusal::Refused(DeclFault::Absent)) => Some(
            words.decl,
        ),
        CompileFilesRefusal::Source {
            file,
            fault: SourceFault::Absent,
        } => words.names.get(*file).copied(),
        _ => None,
    }
}

/// What to do about a run that ended so, in one sentence without its point.
pub fn of_end(how: &How, saved: bool) -> Option<&'static str> {
    match (how, saved) {
        (How::Spent, true) => Some(
            "the tables are saved as they were then; --budget N allows more, --only-finished saves none",
        ),
        (How::Spent, false) => Some("no file was changed; --budget N allows more"),
        (How::Full(_), true) => Some(
            "the tables are saved as they were then; --limit N allows more, up to 1000000, --only-finished saves none",
        ),
        (How::Full(_), false) => Some(
            "no file was changed; --limit N allows more records, up to 1000000",
        ),
        _ => None,
    }
}

/// The most bytes of a line that are shown.
const WIDTH: usize = 76;

/// A line as it is shown: its first 76 bytes, of which those that aren't printed are question marks, so that no file
/// can send a terminal what it obeys.
#[derive(Clone, Copy)]
pub struct PrintableLine<'a> {
    bytes: &'a [u8],
}

impl<'a> PrintableLine<'a> {
    /// All its bytes.
    pub fn bytes(self) -> &'a [u8] {
        self.bytes
    }
}

/// The line of that number, if there is one. A line ends before a line feed, and before a carriage return there.
pub fn line_at(bytes: &[u8], line: usize) -> Option<PrintableLine<'_>> {
    let bytes = bytes
        .split(|byte| *byte == b'\n')
        .nth(line.checked_sub(1)?)?;
    Some(without_return(bytes))
}

/// The line without the carriage return at its end.
fn without_return(bytes: &[u8]) -> PrintableLine<'_> {
    PrintableLine {
        bytes: bytes.strip_suffix(b"\r").unwrap_or(bytes),
    }
}

/// All lines of a file.
pub fn lines_of<'a>(alloc: Global, bytes: &'a [u8]) -> Result<Vec<PrintableLine<'a>>, AllocError> {
    let mut lines = Vec::new(alloc);
    for bytes in bytes.split(|byte| *byte == b'\n') {
        lines.push(without_return(bytes))?;
    }
    Ok(lines)
}

/// The line of that number, counted from 1, if there is one.
pub fn line_among<'a>(lines: &[PrintableLine<'a>], line: usize) -> Option<PrintableLine<'a>> {
    lines.get(line.checked_sub(1)?).copied()
}

impl Display for PrintableLine<'_> {
    fn fmt<W: Write>(&self, f: &mut Formatter<W>) -> fmt::Result {
        for byte in self.bytes.iter().take(WIDTH) {
            let shown = match byte {
                b'\t' => ' ',
                b' '..=b'~' => char::from(*byte),
                _ => '?',
            };
            f.write_char(shown)?;
        }
        if self.bytes.len() > WIDTH {
            f.write_str(" ..")?;
        }
        Ok(())
    }
}

/// Why a table or an index isn't read whose new bytes couldn't be saved.
pub fn why_hindered(hindrance: Hindrance) -> &'static str {
    match hindrance {
        Hindrance::Taken => "another run has the folder",
        Hindrance::LockFile =>
            "a run holds this folder, or was ended in it; when none is left, dbrun forget removes the file",
        Hindrance::NoLocks => "this file system knows no locks; --no-lock saves without one",
        Hindrance::Closed => "the folder can't be read",
        Hindrance::NoRoom => "no file can be made in this folder",
        Hindrance::Draft => "another program's file dbrun.save.new stands here; move it away",
        Hindrance::Harm(Harm::NoFile) => "a folder, a device or a pipe stands under this name",
        Hindrance::Harm(Harm::NotWritable) => "nobody may write this file",
        Hindrance::Harm(Harm::Links) =>
            "the file has further names, which would keep what it holds now",
        Hindrance::Harm(Harm::Mounted) =>
            "the file is mounted here, so no other can take its place",
        Hindrance::Harm(Harm::Guarded) =>
            "in this folder only its owner or the file's may replace the file",
        Hindrance::Frozen => "the system lets nobody write this file",
        Hindrance::Harm(Harm::Owner) => "the file is another user's; --new-owner makes it yours",
        Hindrance::Harm(Harm::Group) =>
            "the file is of a group that isn't yours; --new-owner makes it yours",
        Hindrance::LeavesFolder => "the file is a link that leaves the folder",
        Hindrance::Twice => "the file is that of another declared name",
        Hindrance::Disk => "what stands under this name can't be seen",
    }
}

/// A name that a note of another program's may hold, as it is told: a question mark for what a terminal obeys.
#[derive(Clone, Copy)]
pub struct NameTold<'a>(pub &'a str);

impl Display for NameTold<'_> {
    fn fmt<W: Write>(&self, f: &mut Formatter<W>) -> fmt::Result {
        for letter in self.0.chars() {
            f.write_char(if letter.is_control() { '?' } else { letter })?;
        }
        Ok(())
    }
}

/// The same of a name in the record of a save, as a terminal is sent it if it goes to one.
#[derive(Clone, Copy)]
pub struct RecordedName<'a> {
    pub name: &'a str,
    pub audience: Audience,
}

impl Display for RecordedName<'_> {
    fn fmt<W: Write>(&self, f: &mut Formatter<W>) -> fmt::Result {
        if !self.audience.person {
            return write!(f, "{}", NameTold(self.name));
        }
        let what = &self.name;
        let at_terminal = true;
        write!(f, "{}", Escaped { what, at_terminal })
    }
}

/// Why a code file isn't written, as it is told.
#[derive(Clone, Copy)]
pub struct UnwrittenTold(pub Unreplaced);

impl Display for UnwrittenTold {
    fn fmt<W: Write>(&self, f: &mut Formatter<W>) -> fmt::Result {
        let why = match self.0 {
            Unreplaced::Hindered(Hindrance::Harm(Harm::Owner | Harm::Group)) => {
                "the file is of another user or group, to whom the new one can't be given"
            }
            Unreplaced::Hindered(hindrance) => why_hindered(hindrance),
            Unreplaced::Unwritten => "no new file can be written beside it",
            Unreplaced::Unsynced => {
                return f.write_str(
                    "the new file stands, and the device may lose it; compile again",
                );
            }
        };
        write!(f, "{why}; no file was changed")
    }
}

/// What a code file would overwrite, as it is told.
#[derive(Clone, Copy)]
pub struct OutTold<'a> {
    pub what: Overwritten,
    pub words: CompileWords<'a>,
}

impl Display for OutTold<'_> {
    fn fmt<W: Write>(&self, f: &mut Formatter<W>) -> fmt::Result {
        let (sort, name) = match self.what {
            Overwritten::Declarations => ("declaration file", self.words.decl),
            Overwritten::Source { file } => match self.words.names.get(file) {
                Some(name) => ("command file", *name),
                None => ("command file", self.words.out),
            },
            Overwritten::Save => ("file of a save", self.words.out),
            Overwritten::Talk => ("file of a conversation", self.words.out),
            Overwritten::Table => ("table", self.words.out),
            Overwritten::Index => ("index", self.words.out),
            Overwritten::Commands => ("command file", self.words.out),
        };
        write!(
            f,
            "OUT would overwrite the {sort} {name}; the order is DECL OUT MAIN.."
        )
    }
}

/// A byte as a terminal is sent it: a line's end and what is printed, and a question mark for all else.
fn printed(byte: u8) -> u8 {
    match byte {
        b'\n' | b' '..=b'~' => byte,
        _ => b'?',
    }
}

/// A byte of a text in a code page, as a terminal is sent its letter: a question mark for what is no letter.
fn lettered(byte: u8) -> u8 {
    if byte < 128 { printed(byte) } else { byte }
}

/// Bytes of a code page of which no letter is one that a terminal obeys.
pub fn letters_alone(alloc: Global, bytes: &[u8]) -> Result<Vec<u8>, AllocError> {
    let mut shown = Vec::with_capacity(alloc, bytes.len())?;
    for byte in bytes {
        shown.push(lettered(*byte))?;
    }
    Ok(shown)
}

/// Bytes as a terminal is sent them, so that no file can send it what it obeys.
pub fn printable(alloc: Global, bytes: &[u8]) -> Result<Vec<u8>, AllocError> {
    let mut shown = Vec::with_capacity(alloc, bytes.len())?;
    for byte in bytes {
        shown.push(printed(*byte))?;
    }
    Ok(shown)
}
