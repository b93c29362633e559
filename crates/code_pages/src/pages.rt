//! Code pages.

ghost use Rattle.std.specs.Prelude.{◌≡◌, ◌≢◌, ◌<◌, ℕ, None, IfErr, IfOk, IfSome, string_bytes};
ghost use Rattle.std.specs.List.{flat_map};
ghost use Rattle.std.specs.Str.{chars};
ghost use Rattle.code_pages.specs.Letters.{LacksFirst};
ghost use Rattle.code_pages.specs.Pages.{page_letters, page_letter, utf8_of};

use std::alloc::{AllocError, Global};

/// What the bytes of texts stand for. Those below 128 are ASCII in each page.
#[derive(Clone, Copy, Debug, PartialEq, Eq)]
pub enum CodePage {
    /// That of the first machines, 437.
    Cp437,
    /// That of western Europe, 850.
    Cp850,
}

/// The letters of the bytes from 128 on in page 437.
const UPPER_437: [char; 128] = [
    'Ç', 'ü', 'é', 'â', 'ä', 'à', 'å', 'ç', 'ê', 'ë', 'è', 'ï', 'î', 'ì', 'Ä', 'Å', 'É', 'æ', 'Æ',
    'ô', 'ö', 'ò', 'û', 'ù', 'ÿ', 'Ö', 'Ü', '¢', '£', '¥', '₧', 'ƒ', 'á', 'í', 'ó', 'ú', 'ñ', 'Ñ',
    'ª', 'º', '¿', '⌐', '¬', '½', '¼', '¡', '«', '»', '░', '▒', '▓', '│', '┤', '╡', '╢', '╖', '╕',
    '╣', '║', '╗', '╝', '╜', '╛', '┐', '└', '┴', '┬', '├', '─', '┼', '╞', '╟', '╚', '╔', '╩', '╦',
    '╠', '═', '╬', '╧', '╨', '╤', '╥', '╙', '╘', '╒', '╓', '╫', '╪', '┘', '┌', '█', '▄', '▌', '▐',
    '▀', 'α', 'ß', 'Γ', 'π', 'Σ', 'σ', 'µ', 'τ', 'Φ', 'Θ', 'Ω', 'δ', '∞', 'φ', 'ε', '∩', '≡', '±',
    '≥', '≤', '⌠', '⌡', '÷', '≈', '°', '∙', '·', '√', 'ⁿ', '²', '■', '\u{a0}',
];

/// The same in page 850.
const UPPER_850: [char; 128] = [
    'Ç', 'ü', 'é', 'â', 'ä', 'à', 'å', 'ç', 'ê', 'ë', 'è', 'ï', 'î', 'ì', 'Ä', 'Å', 'É', 'æ', 'Æ',
    'ô', 'ö', 'ò', 'û', 'ù', 'ÿ', 'Ö', 'Ü', 'ø', '£', 'Ø', '×', 'ƒ', 'á', 'í', 'ó', 'ú', 'ñ', 'Ñ',
    'ª', 'º', '¿', '®', '¬', '½', '¼', '¡', '«', '»', '░', '▒', '▓', '│', '┤', 'Á', 'Â', 'À', '©',
    '╣', '║', '╗', '╝', '¢', '¥', '┐', '└', '┴', '┬', '├', '─', '┼', 'ã', 'Ã', '╚', '╔', '╩', '╦',
    '╠', '═', '╬', '¤', 'ð', 'Ð', 'Ê', 'Ë', 'È', 'ı', 'Í', 'Î', 'Ï', '┘', '┌', '█', '▄', '¦', 'Ì',
    '▀', 'Ó', 'ß', 'Ô', 'Ò', 'õ', 'Õ', 'µ', 'þ', 'Þ', 'Ú', 'Û', 'Ù', 'ý', 'Ý', '¯', '´', '\u{ad}',
    '±', '‗', '¾', '¶', '§', '÷', '¸', '°', '¨', '·', '¹', '³', '²', '■', '\u{a0}',
];

/// The letter of a byte.
pub fn letter_of(page: CodePage, byte: u8) -> char
    ensures { result ≡ page_letter page byte }
{
    if byte < 128 {
        return char::from(byte);
    }
    let place = usize::from(byte) - 128;
    match page {
        CodePage::Cp437 => UPPER_437[place],
        CodePage::Cp850 => UPPER_850[place],
    }
}

/// The byte that stands for a letter, if one does.
pub fn byte_of(page: CodePage, letter: char) -> Option<u8>
    ensures found { IfSome result (λ byte. page_letter page byte ≡ letter) }
    ensures only { result ≡ None → (byte : ℕ) → byte < 256 → page_letter page byte ≢ letter }
{
    for number in 0..256u16 {
        let byte = number as u8;
        if letter_of(page, byte) == letter {
            return Some(byte);
        }
    }
    None
}

/// Why a text isn't put into a page.
#[derive(Clone, Copy, PartialEq, Eq, Debug)]
pub enum LetterFault {
    /// The page lacks this letter.
    Lacks(char),
    /// Memory was refused.
    Memory,
}

/// A text in a page, a byte for each letter.
///
/// # Errors
/// The first letter that the page lacks; `Memory` where memory was refused.
pub fn in_page(alloc: Global, page: CodePage, text: &str) -> Result<Vec<u8>, LetterFault>
    ensures letters { IfOk result (λ bytes. page_letters page bytes.items ≡ chars text.now) }
    ensures lacks { IfErr result (LacksFirst page (chars text.now)) }
{
    let mut bytes = Vec::new(alloc);
    for letter in text.chars() {
        let Some(byte) = byte_of(page, letter) else {
            return Err(LetterFault::Lacks(letter));
        };
        if bytes.push(byte).is_err() {
            return Err(LetterFault::Memory);
        }
    }
    Ok(bytes)
}

/// A text in UTF-8, each byte as the page's letter.
pub fn in_utf8(alloc: Global, page: CodePage, text: &[u8]) -> Result<String, AllocError>
    ensures { IfOk result (λ shown. string_bytes shown ≡ flat_map (utf8_of page) text.now) }
{
    let mut shown = String::new(alloc);
    for byte in text {
        shown.push(letter_of(page, *byte))?;
    }
    Ok(shown)
}
