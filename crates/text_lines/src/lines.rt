//! Lines of texts.

ghost use Rattle.std.specs.Prelude.{◌≡◌, ◌<◌, ◌≤◌, ◌==◌, ◌∷◌, not, ◌-◌, drop, length};
ghost use Rattle.std.specs.List.{prefix_len};
ghost use Rattle.text_lines.specs.Lines as spec;

/// The line without a return at its end.
#[tactic(auto, unfolding(crate::specs::Lines::without_return))]
pub fn without_return(line: &[u8]) -> &[u8]
    ensures { result.now ≡ spec.without_return line.now }
{
    match line {
        [text @ .., b'\r'] => text,
        _ => line,
    }
}

/// How many bytes come before the first line end.
fn line_length(bytes: &[u8]) -> usize
    ensures value { result ≡ prefix_len (λ b. not (b == 10)) bytes.now }
    ensures within { result ≤ length bytes.now }
{
    bytes.iter().take_while(|byte| **byte != b'\n').count()
}

/// The first line, and the bytes behind its end. A return just before the line end is no part of the line.
pub fn first_line(bytes: &[u8]) -> (&[u8], &[u8])
    requires { 0 < length bytes.now }
    ensures first { spec.lines bytes.now ≡ result.0.now ∷ spec.lines result.1.now }
    ensures shorter { length result.1.now < length bytes.now }
    ensures behind { result.1.now ≡ drop (length bytes.now - length result.1.now) bytes.now }
{
    let (text, rest) = bytes.split_at(line_length(bytes));
    match rest {
        [] => (text, rest),
        [_, behind @ ..] => (without_return(text), behind),
    }
}

/// Whether a text is nothing, or its last line has its end.
pub fn is_ended(bytes: &[u8]) -> bool
    ensures { result ≡ spec.is_ended bytes.now }
{
    match bytes {
        [] => true,
        [.., last] => *last == b'\n',
    }
}
