//! Code pages: the letters that the bytes of old texts stand for, in UTF-8.
#![tactic(auto)]

mod pages;

pub use pages::{CodePage, LetterFault, byte_of, in_page, in_utf8, letter_of};
