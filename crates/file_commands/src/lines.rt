//! Numbers in the lines of listings.

ghost use Rattle.std.specs.Prelude.{◌≡◌, ◌++◌, OnOk};
ghost use Rattle.std.specs.Fmt.{decimal};
ghost use Rattle.file_commands.specs.Lines.{in_seven_places};

use std::alloc::{AllocError, Global};

/// A number in decimal.
pub fn put_decimal(alloc: Global, out: &mut Vec<u8>, number: usize) -> Result<(), AllocError>
    ensures { OnOk result (out.new.items ≡ out.old.items ++ decimal number) }
{
    let digits = number.to_string(alloc)?;
    out.extend_from_slice(digits.as_bytes())
}

/// A number in seven places at least, with blanks in front.
pub fn put_right(alloc: Global, out: &mut Vec<u8>, number: usize) -> Result<(), AllocError>
    ensures { OnOk result (out.new.items ≡ out.old.items ++ in_seven_places number) }
{
    let digits = number.to_string(alloc)?;
    let missing = 7usize.saturating_sub(digits.len());
    out.extend_from_slice(&[b' '; 7][..missing])?;
    out.extend_from_slice(digits.as_bytes())?;
    Ok(())
}
