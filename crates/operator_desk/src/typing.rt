//! Lines as a person or another program types them.
#![tactic(auto)]

ghost use Rattle.operator_desk.specs.Held.{line_length};
ghost use Rattle.operator_desk.specs.Typings.{HoldsNoEnd};
ghost use Rattle.std.specs.Prelude.{◌≡◌, IfOk, length};

use crate::held_lines::line_length as bytes_of_line;
use std::alloc::Global;
use std::io::{self, BufRead, ErrorKind};

/// What came of a line.
#[derive(Drop)]
pub enum Typed {
    /// A line, without its LF.
    Line(Vec<u8>),
    /// Nothing: the input ended.
    End,
    /// A line that is too long.
    Long,
}

/// What is read at once.
#[derive(Drop)]
struct Part {
    /// How many bytes were used.
    used: usize,
    /// Whether the line ended in them.
    ended: bool,
}

/// Takes what stands ready of a line.
fn take_part<B: BufRead>(reader: &mut B, line: &mut Vec<u8>) -> io::Result<Part>
    ensures { line_length line.old.items ≡ length line.old.items
        → line_length line.new.items ≡ length line.new.items }
{
    let ready = reader.fill_buf()?;
    let length = bytes_of_line(ready);
    let (part, _) = ready.split_at(length);
    line.extend_from_slice(part)?;
    let ended = length < ready.len();
    let used = if ended { length + 1 } else { length };
    reader.consume(used);
    Ok(Part { used, ended })
}

/// The next line of at most so many bytes; the last one needs no line end. A line that is answered holds no LF.
pub fn next_line<B: BufRead>(alloc: Global, reader: &mut B, most: usize) -> io::Result<Typed>
    ensures { IfOk result HoldsNoEnd }
{
    let mut line = Vec::new(alloc);
    for _ in 0..most.saturating_mul(2).saturating_add(2) {
        let part = match take_part(reader, &mut line) {
            Ok(part) => part,
            Err(error) if error.kind() == ErrorKind::Interrupted => continue,
            Err(error) => return Err(error),
        };
        if part.ended {
            return Ok(Typed::Line(line));
        }
        if part.used == 0 {
            if line.is_empty() {
                return Ok(Typed::End);
            }
            return Ok(Typed::Line(line));
        }
        if line.len() > most {
            return Ok(Typed::Long);
        }
    }
    Err(io::Error::from(ErrorKind::Other))
}
