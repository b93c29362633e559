//! What writes itself, and many of one thing.

ghost use Rattle.std.specs.Prelude.{◌≡◌, ◌++◌, ℕ, List, OnOk, All};
ghost use Rattle.std.specs.List.{flat_map};
ghost use Rattle.code_parts.specs.Texts.{two};

use std::alloc::AllocError;

/// What has a text in a code file.
pub trait Writes {
    ghost text: { Self → List ℕ };

    /// Its counts fit their bytes.
    ghost fits: { Self → Type 0 };

    /// Puts its text behind the bytes. The only error is that memory was refused.
    fn put(&self, out: &mut Vec<u8>) -> Result<(), AllocError>
        requires { fits self.now }
        ensures { OnOk result (out.new.items ≡ out.old.items ++ text self.now) };
}

/// Puts the texts of all behind the bytes.
pub fn put_all<T: Writes>(out: &mut Vec<u8>, things: &[T]) -> Result<(), AllocError>
    requires { All T.fits things.now }
    ensures { OnOk result (out.new.items ≡ out.old.items ++ flat_map T.text things.now) }
{
    for thing in things {
        thing.put(out)?;
    }
    Ok(())
}

/// Puts a number of two bytes behind the bytes.
pub fn put_two(out: &mut Vec<u8>, number: u16) -> Result<(), AllocError>
    ensures { OnOk result (out.new.items ≡ out.old.items ++ two number) }
{
    out.extend_from_slice(&number.to_le_bytes())
}
