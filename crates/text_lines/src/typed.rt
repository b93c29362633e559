//! The lines that an operator typed, one after the other.

ghost use Rattle.std.specs.Prelude.{◌≡◌, ◌≤◌, [], length, take};
ghost use Rattle.text_lines.specs.Lines.{is_out, short_lines, next_line, lines_behind};

use crate::lines::first_line;
use std::alloc::Global;
use std::marker::Model;
use xvalue::Text;

/// The lines that are left, seen as their list. A line has at most 254 bytes: what is behind them is cut off.
#[derive(Drop)]
pub struct TypedLines {
    bytes: Vec<u8>,
    used: usize,
}

impl Model for TypedLines {
    ghost use Rattle.std.specs.Prelude.{List, ℕ, ◌≤◌, length, drop};
    ghost use Rattle.text_lines.specs.Lines.{short_lines};

    ghost Value = { List (List ℕ) };

    ghost view = { λ l. short_lines (drop l.used l.bytes.items) };

    ghost invariant = { λ l. l.used ≤ length l.bytes.items };
}

/// So many bytes from the front, or all.
fn front(bytes: &[u8], count: usize) -> &[u8]
    ensures value { result.now ≡ take count bytes.now }
    ensures few { length result.now ≤ count }
{
    &bytes[..count.min(bytes.len())]
}

/// The first 254 bytes of a line.
fn cut(line: &[u8]) -> Text
    ensures { result.items ≡ take 254 line.now }
{
    let mut text = Text::new();
    text.try_extend_from_slice(front(line, 254)).unwrap();
    text
}

impl TypedLines {
    /// All lines of a text. The last one needs no line end.
    pub fn new(bytes: Vec<u8>) -> TypedLines
        ensures { result ≡ short_lines bytes.items }
    {
        TypedLines { bytes, used: 0 }
    }

    /// No lines.
    #[tactic(auto, unfolding(crate::specs::Lines::lines))]
    pub fn none(alloc: Global) -> TypedLines
        ensures { result ≡ [] }
    {
        TypedLines::new(Vec::new(alloc))
    }

    /// Whether no line is left.
    pub fn is_empty(&self) -> bool
        ensures { result ≡ is_out self.now }
    {
        let (_, rest) = self.bytes.as_slice().split_at(self.used);
        match rest {
            [] => true,
            [_, ..] => false,
        }
    }

    /// The next line; where none is left, an empty one. It takes no memory.
    #[tactic(auto, unfolding(crate::specs::Lines::lines))]
    pub fn next(&mut self) -> Text
        ensures line { result.items ≡ next_line self.old }
        ensures rest { self.new ≡ lines_behind self.old }
    {
        let (_, rest) = self.bytes.as_slice().split_at(self.used);
        if rest.is_empty() {
            return Text::new();
        }
        let (line, behind) = first_line(rest);
        let text = cut(line);
        self.used = self.bytes.len() - behind.len();
        text
    }
}
