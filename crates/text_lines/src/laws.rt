//! What holds of lines of texts that are put behind one another. The functions do nothing: their contracts are the
//! laws.

ghost use Rattle.std.specs.Prelude.{◌≡◌, ◌++◌, ◌∷◌, [], ℕ, List, true};
ghost use Rattle.text_lines.specs.Lines.{is_ended, short_lines};

/// The lines of a further text follow behind a text whose last line has its end: none is lost, cut or joined. Two texts
/// that end so make one that does, and a line with its end is such a text.
pub fn texts_join_at_line_ends()
    ensures lines { (a b : List ℕ) → is_ended a ≡ true → short_lines (a ++ b) ≡ short_lines a ++ short_lines b }
    ensures ended { (a b : List ℕ) → is_ended a ≡ true → is_ended b ≡ true → is_ended (a ++ b) ≡ true }
    ensures line { (line : List ℕ) → is_ended (line ++ 10 ∷ []) ≡ true }
{}
