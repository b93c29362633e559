// Texts.
#![tactic(auto)]

ghost use Rattle.std.specs.Prelude.{◌≡◌, ◌≤◌, length};

use arrayvec::ArrayVec;

/// A text: at most 254 bytes, of any values, held in place.
pub type Text = ArrayVec<u8, 254>;

/// The same text once more. It takes no memory.
pub fn copy_of(text: &Text) -> Text
    ensures { result ≡ text.now }
{
    text_from(text.as_slice())
}

/// The text of these bytes.
pub fn text_from(bytes: &[u8]) -> Text
    requires { length bytes.now ≤ 254 }
    ensures { result.items ≡ bytes.now }
{
    let mut text = Text::new();
    write_over(bytes, &mut text);
    text
}

/// Writes these bytes over a text, which has no others then. It takes no memory.
pub fn write_over(bytes: &[u8], text: &mut Text)
    requires { length bytes.now ≤ 254 }
    ensures { text.new ≡ record { items = bytes.now } }
{
    text.clear();
    match text.try_extend_from_slice(bytes) {
        Ok(()) => {}
        Err(_) => unreachable!(),
    }
}
