//! Lines of a text that is there already.
#![tactic(auto)]

ghost use Rattle.operator_desk.specs.Held.{behind_line, first_line, left_of, left_of_own};
ghost use Rattle.operator_desk.specs.Held.{line_length as line_length_of};
ghost use Rattle.std.specs.Prelude.{◌≡◌, ◌≤◌, ◌↔◌, [], true, IfOk, IfSome, IsNone, MatchOption, OnErr, length};

use std::alloc::{AllocError, Global};

/// The lines of a text, one after another. The last one needs no line end.
#[derive(Clone, Copy)]
pub struct HeldLines<'a> {
    left: &'a [u8],
}

/// How many bytes come before the first line end.
pub(crate) fn line_length(text: &[u8]) -> usize
    ensures value { result ≡ line_length_of text.now }
    ensures within { result ≤ length text.now }
{
    text.iter().take_while(|byte| **byte != b'\n').count()
}

impl<'a> HeldLines<'a> {
    /// Whether none is left.
    pub fn is_empty(&self) -> bool
        ensures { (result ≡ true) ↔ (left_of self.now ≡ []) }
    {
        self.left.is_empty()
    }

    /// All lines of this text.
    pub fn of(text: &'a [u8]) -> HeldLines<'a>
        ensures { left_of result ≡ text.now }
    {
        HeldLines { left: text }
    }

    /// The next line, without its end; none where the text has ended.
    pub fn next(&mut self) -> Option<&'a [u8]>
        ensures none { IsNone result ↔ (left_of self.old ≡ []) }
        ensures line { IfSome result (λ line. line.now ≡ first_line (left_of self.old)) }
        ensures rest { left_of self.new ≡ behind_line (left_of self.old) }
    {
        let left = self.left;
        if left.is_empty() {
            return None;
        }
        let (line, rest) = left.split_at(line_length(left));
        self.left = &rest[1.min(rest.len())..];
        Some(line)
    }
}

/// The lines of a text of its own, one after another. The last one needs no line end.
#[derive(Drop)]
pub struct OwnLines {
    text: Vec<u8>,
    /// How many bytes of it were taken.
    used: usize,
}

impl OwnLines {
    /// All lines of this text.
    pub fn of(text: Vec<u8>) -> OwnLines
        ensures { left_of_own result ≡ text.items }
    {
        OwnLines { text, used: 0 }
    }

    /// The next line, without its end; none where the text has ended.
    ///
    /// # Errors
    /// Memory was refused, and the line stays.
    pub fn next(&mut self, alloc: Global) -> Result<Option<Vec<u8>>, AllocError>
        ensures line { IfOk result (λ line. MatchOption line (left_of_own self.old ≡ [])
            (λ line. line.items ≡ first_line (left_of_own self.old))) }
        ensures rest { IfOk result (λ _. left_of_own self.new ≡ behind_line (left_of_own self.old)) }
        ensures err { OnErr result (self.new ≡ self.old) }
    {
        let left = &self.text[self.used.min(self.text.len())..];
        let Some(line) = HeldLines::of(left).next() else {
            return Ok(None);
        };
        let line = Vec::from_slice(alloc, line)?;
        self.used = self.used.saturating_add(line.len()).saturating_add(1);
        Ok(Some(line))
    }
}
