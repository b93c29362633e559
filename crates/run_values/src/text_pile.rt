//! A stack of texts with room for as many as any code's stack holds.

ghost use Rattle.std.specs.Prelude.{◌≡◌, ◌+◌, ◌<◌, ◌≤◌, [], ◌∷◌, length, IfOk, reverse, take, drop, slice_get};
ghost use Rattle.std.specs.Prelude.{slice_set, Some, ℕ};
ghost use Rattle.arrayvec.specs.ArrayVec.{ArrayVec as Held};
ghost use Rattle.run_values.specs.TextPile.{texts_joined, text_part, top_joined, top_cut};

use crate::pile::STACK_LIMIT;
use std::alloc::{AllocError, Global};
use std::marker::Model;
use xvalue::{Text, append, write_over};

/// A stack with room for 64 texts, seen as their list, the top first. The room is of texts that are there all the time,
/// so that a text that is put on it is copied no further than it goes.
#[derive(Drop)]
pub struct TextPile {
    texts: Vec<Text>,
    count: usize,
}

impl Model for TextPile {
    ghost use Rattle.std.specs.Prelude.{List, ℕ, reverse, take, length, ◌≡◌, ◌≤◌};
    ghost use Rattle.arrayvec.specs.ArrayVec.{ArrayVec as Held};

    ghost Value = { List (Held ℕ) };

    ghost view = { λ s. reverse (take s.count s.texts.items) };

    ghost invariant = { λ s. (length s.texts.items ≡ 64) × (s.count ≤ 64) };
}

impl TextPile {
    /// No texts, and room for 64.
    pub fn new(alloc: Global) -> Result<TextPile, AllocError>
        ensures { IfOk result (λ pile. pile ≡ []) }
    {
        let mut texts = Vec::with_capacity(alloc, STACK_LIMIT)?;
        for _ in 0..STACK_LIMIT {
            texts.push(Text::new())?;
        }
        Ok(TextPile { texts, count: 0 })
    }

    /// The texts, the top last.
    fn held(&self) -> &[Text]
        ensures { reverse result.now ≡ self.now }
    {
        self.texts.as_slice().split_at(self.count).0
    }

    /// So many texts from the top, which are there, the top last.
    #[tactic(auto, using(crate::proofs::PileLists::top_held))]
    pub fn top_values(&self, count: usize) -> &[Text]
        requires { count ≤ length self.now }
        ensures { result.now ≡ reverse (take count self.now) }
    {
        let (_, top) = self.held().split_at(self.count - count);
        top
    }

    /// The top text, which is there.
    pub fn top(&self) -> &Text
        requires { 0 < length self.now }
        ensures { slice_get self.now 0 ≡ Some result.now }
    {
        match self.held().last() {
            Some(text) => text,
            None => unreachable!(),
        }
    }

    /// Takes so many texts off the top, which are there.
    #[tactic(auto, using(crate::proofs::PileLists::below_held))]
    pub fn drop_top(&mut self, count: usize)
        requires { count ≤ length self.old }
        ensures { self.new ≡ drop count self.old }
    {
        self.count -= count;
    }

    /// Puts the same text once more on top. It takes no memory.
    #[tactic(auto, using(crate::proofs::PileLists::one_held))]
    pub fn push(&mut self, text: &Text)
        requires { length self.old < 64 }
        ensures { self.new ≡ text.now ∷ self.old }
    {
        copy_into(text, &mut self.texts[self.count]);
        self.count += 1;
    }

    /// Puts the text of these bytes on top. It takes no memory.
    #[tactic(auto, using(crate::proofs::PileLists::one_held))]
    pub fn push_bytes(&mut self, bytes: &[u8])
        requires room { length self.old < 64 }
        requires short { length bytes.now ≤ 254 }
        ensures { self.new ≡ (record { items = bytes.now }) ∷ self.old }
    {
        write_over(bytes, &mut self.texts[self.count]);
        self.count += 1;
    }

    /// Puts the two texts on top one behind the other, cut at 254 bytes, in their place. The lower one is copied
    /// nowhere.
    pub fn join(&mut self)
        requires { 2 ≤ length self.old }
        ensures { self.new ≡ top_joined self.old }
    {
        append_next(self.texts.as_mut_slice(), self.count - 2);
        self.count -= 1;
    }

    /// Leaves of the text on top, which is there, so many bytes behind those that are skipped, or as many as there are.
    pub fn cut(&mut self, skipped: usize, count: usize)
        requires { 0 < length self.old }
        ensures { self.new ≡ top_cut skipped count self.old }
    {
        let top = self.count - 1;
        cut(&mut self.texts[top], skipped, count);
    }
}

/// Appends the text behind a place to the one there, cut at 254 bytes.
fn append_next(texts: &mut [Text], place: usize)
    requires { place + 1 < length texts.old }
    ensures same_length { length texts.new ≡ length texts.old }
    ensures appended { (first second : Held ℕ) → slice_get texts.old place ≡ Some first
        → slice_get texts.old (place + 1) ≡ Some second
        → texts.new ≡ slice_set texts.old place (texts_joined first second) }
{
    let (front, behind) = texts.split_at_mut(place + 1);
    append(&mut front[place], behind[0].as_slice());
}

/// Leaves of a text so many bytes behind those that are skipped, or as many as there are.
fn cut(text: &mut Text, skipped: usize, count: usize)
    ensures { text.new ≡ text_part skipped count text.old }
{
    let start = skipped.min(text.len());
    let kept = count.min(text.len() - start);
    text.as_mut_slice().copy_within(start..start + kept, 0);
    text.truncate(kept);
}

/// Makes a text the same as another one.
pub(crate) fn copy_into(text: &Text, copy: &mut Text)
    ensures { copy.new ≡ text.now }
{
    write_over(text.as_slice(), copy);
}
