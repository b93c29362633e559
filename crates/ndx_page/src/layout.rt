//! The sizes of a page and of its entries.

ghost use Rattle.std.specs.Prelude.{◌≡◌, ◌≤◌};
ghost use Rattle.ndx_page.specs.Layout.{entry_size, most_entries as most_of};

/// The bytes of a page.
pub const PAGE_SIZE: usize = 512;

/// The bytes of the longest key.
pub const MAX_KEY: usize = 100;

/// The entries of the fullest page, one of short keys.
pub(crate) const MAX_ENTRIES: usize = 42;

/// The bytes of an entry: two numbers of four bytes, and the key up to the next multiple of four.
pub(crate) fn entry_len(key_length: usize) -> usize
    requires { key_length ≤ 100 }
    ensures { result ≡ entry_size key_length }
{
    8 + (key_length + 3) / 4 * 4
}

/// The most entries of a page whose keys have `key_length` bytes: as many as fit into 504 bytes.
#[tactic(auto, unfolding(crate::specs::Layout::most_entries))]
pub fn most_entries(key_length: usize) -> usize
    requires { key_length ≤ 100 }
    ensures { result ≡ most_of key_length }
{
    504 / entry_len(key_length)
}
