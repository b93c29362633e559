//! The listing of an index file.

ghost use Rattle.std.specs.Prelude.{◌≡◌, ◌++◌, IfOk, IfErr, OnOk};
ghost use Rattle.std.specs.List.{flat_map};
ghost use Rattle.file_commands.specs.Lines.{key_line, pair_line, index_lines};
ghost use Rattle.file_access.specs.Holding.{SameFiles};
ghost use Rattle.file_commands.specs.Refusals.{RefusalIs, IndexFault};
ghost use Rattle.file_commands.specs.Reports.{IndexListed};

use crate::lines::{put_decimal, put_right};
use crate::reading::read_bytes;
use crate::refusal::{Fault, Refusal};
use file_access::Files;
use key_lists::laws::meets_each;
use key_lists::{Entry, KeyList};
use ndx_tree::{NdxTree, TreeFault};
use std::alloc::{AllocError, Global};

#[tactic(auto, unfolding(crate::specs::Lines::key_line))]
fn put_key(alloc: Global, out: &mut Vec<u8>, tree: &NdxTree) -> Result<(), AllocError>
    ensures { OnOk result (out.new.items ≡ out.old.items ++ key_line tree.now.form) }
{
    out.extend_from_slice(tree.key_text())?;
    out.push(b' ')?;
    put_decimal(alloc, out, tree.key_length())?;
    out.push(b'\n')?;
    Ok(())
}

#[tactic(auto, unfolding(crate::specs::Lines::pair_line))]
fn put_pair(alloc: Global, out: &mut Vec<u8>, pair: &Entry) -> Result<(), AllocError>
    ensures { OnOk result (out.new.items ≡ out.old.items ++ pair_line pair.now) }
{
    put_right(alloc, out, pair.number() as usize)?;
    out.push(b' ')?;
    out.extend_from_slice(pair.key())?;
    out.push(b'\n')?;
    Ok(())
}

/// A line for each pair, in order.
fn put_pairs(alloc: Global, out: &mut Vec<u8>, tree: &mut NdxTree) -> Result<(), AllocError>
    ensures pairs { OnOk result (out.new.items ≡ out.old.items ++ flat_map pair_line tree.old.pairs) }
{
    meets_each();
    let _ = tree.len();
    let mut next = tree.first();
    while let Some(pair) = next {
        put_pair(alloc, out, &pair)?;
        next = tree.after(pair.key(), pair.number());
    }
    Ok(())
}

fn lines_of(alloc: Global, tree: &mut NdxTree) -> Result<Vec<u8>, AllocError>
    ensures { IfOk result (λ lines. lines.items ≡ index_lines tree.old.form tree.old.pairs) }
{
    let mut out = Vec::new(alloc);
    put_key(alloc, &mut out, tree)?;
    put_pairs(alloc, &mut out, tree)?;
    Ok(out)
}

/// The listing of the index in a file: its key and the key's length, and for each pair in order its record, right in
/// seven places, and its key.
pub fn list_index<'a, F: Files>(
    alloc: Global,
    files: &mut F,
    name: &'a str,
) -> Result<Vec<u8>, Refusal<'a>>
    ensures listed { IfOk result (λ lines. IndexListed (F.holds files.old name.now) lines.items) }
    ensures refused { IfErr result (RefusalIs (IndexFault (F.holds files.old name.now)) (F.failed files.old)
        (F.failed files.new) name.now) }
    ensures kept { SameFiles (F.holds files.old) (F.holds files.new) }
{
    let bytes = read_bytes(alloc, files, name)?;
    let mut tree = match NdxTree::read(alloc, bytes.as_slice()) {
        Ok(tree) => tree,
        Err(TreeFault::Memory) => return Err(Refusal::Memory),
        Err(fault) => {
            return Err(Refusal::Refused {
                name,
                fault: Fault::OfIndex(fault),
            });
        }
    };
    match lines_of(alloc, &mut tree) {
        Ok(lines) => Ok(lines),
        Err(_) => Err(Refusal::Memory),
    }
}
