// Readers read to their end.
#![tactic(auto)]

ghost use Rattle.std.specs.Prelude.{◌≡◌, ◌≢◌, ◌<◌, ◌≤◌, length, IfOk, IfErr, IfSome, IsErrOf};

use crate::files::ReadFault;
use std::alloc::Global;
use std::io::{ErrorKind, Read};

/// The bytes that one read asks for at the most.
const CHUNK: usize = 65_536;

/// All bytes that a reader gives, if they are at most `limit`, in at most so many reads, the one that finds the end
/// among them. No more than one byte above the limit is asked for. An interrupted read is tried again, and counts.
///
/// # Errors
/// `TooLong` where the reader gives more than `limit` bytes, `Device` where a read fails or the turns are used up,
/// `Memory` where memory was refused.
pub fn read_in_turns<R: Read>(
    alloc: Global,
    reader: &mut R,
    limit: usize,
    turns: usize,
) -> Result<Vec<u8>, ReadFault>
    ensures whole { IfOk result (λ bytes. IfSome (R.remaining reader.old) (λ held. bytes.items ≡ held)) }
    ensures within { IfOk result (λ bytes. length bytes.items ≤ limit) }
    ensures long { IsErrOf result ReadFault.TooLong → IfSome (R.remaining reader.old) (λ held. limit < length held) }
    ensures there { IfErr result (λ fault. fault ≢ ReadFault.Absent) }
{
    let mut bytes = Vec::new(alloc);
    let mut chunk = [0u8; CHUNK];
    for _ in 0..turns {
        let room = (limit - bytes.len()).saturating_add(1).min(CHUNK);
        let count = match reader.read(&mut chunk[..room]) {
            Ok(count) => count,
            Err(error) => match error.kind() {
                ErrorKind::Interrupted => continue,
                _ => return Err(ReadFault::Device),
            },
        };
        if count == 0 {
            return Ok(bytes);
        }
        if limit - bytes.len() < count {
            return Err(ReadFault::TooLong);
        }
        if bytes.extend_from_slice(&chunk[..count]).is_err() {
            return Err(ReadFault::Memory);
        }
    }
    Err(ReadFault::Device)
}

/// The same with two turns more than twice the limit: one for each byte, and as many for interruptions.
pub fn read_within<R: Read>(
    alloc: Global,
    reader: &mut R,
    limit: usize,
) -> Result<Vec<u8>, ReadFault>
    ensures whole { IfOk result (λ bytes. IfSome (R.remaining reader.old) (λ held. bytes.items ≡ held)) }
    ensures within { IfOk result (λ bytes. length bytes.items ≤ limit) }
    ensures long { IsErrOf result ReadFault.TooLong → IfSome (R.remaining reader.old) (λ held. limit < length held) }
    ensures there { IfErr result (λ fault. fault ≢ ReadFault.Absent) }
{
    let turns = limit.saturating_mul(2).saturating_add(2);
    read_in_turns(alloc, reader, limit, turns)
}
