//! The lines of a command file, joined as the language joins them.

ghost use Rattle.std.specs.Prelude.{◌≡◌, ◌+◌, ◌<◌, ◌≤◌, ◌^◌, ◌==◌, ◌∷◌, not, length, reverse, option_map, IfOk};
ghost use Rattle.std.specs.List.{prefix_len};
ghost use Rattle.folder_shapes.specs.Programs.{as_joined};
ghost use Rattle.prg_parser.specs.Lines as spec;
ghost use Rattle.text_lines.specs.Lines.{lines};

use std::alloc::{AllocError, Global};
use text_lines::first_line;

/// The byte that ends a command file.
const END_OF_FILE: u8 = 0x1a;

/// A line of a command file with those that continue it.
#[derive(Drop)]
pub struct ProgramLine {
    /// The number of its first line in the file, from 1.
    pub first: usize,
    /// Its bytes without line ends and without the `;` that continue it.
    pub text: Vec<u8>,
}

/// How many bytes come before the one that ends the file.
fn text_length(bytes: &[u8]) -> usize
    ensures value { result ≡ prefix_len (λ b. not (b == 26)) bytes.now }
    ensures within { result ≤ length bytes.now }
{
    bytes
        .iter()
        .take_while(|byte| **byte != END_OF_FILE)
        .count()
}

/// The bytes before the one that ends the file.
pub fn before_end(bytes: &[u8]) -> &[u8]
    ensures { result.now ≡ spec.before_end bytes.now }
{
    &bytes[..text_length(bytes)]
}

/// The line without the blanks and tabs at its end.
#[tactic(auto, unfolding(prg_parser::specs::Lines::without_indent))]
fn without_last_blanks(line: &[u8]) -> &[u8]
    ensures { reverse result.now ≡ spec.without_indent (reverse line.now) }
{
    let mut text = line;
    while let [others @ .., b' ' | b'\t'] = text {
        text = others;
    }
    text
}

/// The bytes before the `;` that continues the line, if one does.
#[tactic(auto, unfolding(prg_parser::specs::Lines::continued))]
fn continued(line: &[u8]) -> Option<&[u8]>
    ensures { option_map (λ text. text.now) result ≡ spec.continued line.now }
{
    match without_last_blanks(line) {
        [text @ .., b';'] => Some(text),
        _ => None,
    }
}

/// A joined line, the number of the line after it, and the bytes after it.
#[derive(Drop)]
pub struct FirstLine<'a> {
    pub joined: ProgramLine,
    pub line: usize,
    pub rest: &'a [u8],
}

/// The first line, whose number is `first`, joined with those that continue it.
pub fn join_line<'a>(
    alloc: Global,
    first: usize,
    bytes: &'a [u8],
) -> Result<FirstLine<'a>, AllocError>
    requires some { 0 < length bytes.now }
    requires room { first + length bytes.now ≤ 2 ^ 63 }
    ensures joined { IfOk result (λ found. spec.joined first (lines bytes.now) ≡ as_joined found.joined
        ∷ spec.joined found.line (lines found.rest.now)) }
    ensures shorter { IfOk result (λ found. length found.rest.now < length bytes.now) }
    ensures numbered { IfOk result (λ found. found.line + length found.rest.now ≤ first + length bytes.now) }
{
    let mut text = Vec::new(alloc);
    let mut line = first;
    let mut rest = bytes;
    while !rest.is_empty() {
        let (found, others) = first_line(rest);
        line += 1;
        rest = others;
        let Some(front) = continued(found) else {
            text.extend_from_slice(found)?;
            return Ok(FirstLine {
                joined: ProgramLine { first, text },
                line,
                rest,
            });
        };
        text.extend_from_slice(front)?;
    }
    Ok(FirstLine {
        joined: ProgramLine { first, text },
        line,
        rest,
    })
}
