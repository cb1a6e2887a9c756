//! Options are appended to octets.

ghost use Rattle.std.specs.Prelude.{◌≡◌, ◌≤◌, ◌/◌, ◌%◌, [], ◌∷◌, ◌++◌, length, IfOk, is_ok, if◌then◌else◌};
ghost use Rattle.dns_message.specs.Options.{option_octets};
ghost use Rattle.dns_option_list.specs.Writes.{Writes, WroteStated};

use dns_name::{ComposeOptData, OutOfMemory};
use std::alloc::Global;

/// The first four octets of an option: its code and how many octets of data follow.
fn header(code: u16, len: u16) -> [u8; 4]
    ensures { result ≡ code / 256 ∷ code % 256 ∷ len / 256 ∷ len % 256 ∷ [] }
{
    [
        (code / 256) as u8,
        (code % 256) as u8,
        (len / 256) as u8,
        (len % 256) as u8,
    ]
}

/// How many octets there is room for, at least, when an option is appended.
const ROOM: usize = 64;

/// Appends an option. If it is refused because memory ran out, the vector is as before.
pub fn append_value<D: ComposeOptData>(
    alloc: Global,
    octets: &mut Vec<u8>,
    value: &D,
) -> Result<(), OutOfMemory>
    ensures { octets.new.items ≡ (if is_ok result then octets.old.items ++ option_octets (D.code_of value.now) (D.octets value.now)
        else octets.old.items) }
{
    let start = octets.len();
    let len = value.compose_len();
    octets.reserve((4 + len as usize).max(ROOM))?;
    octets.extend_from_slice(&header(value.code().to_int(), len))?;
    if let Err(error) = value.compose_option(alloc, octets) {
        octets.truncate(start);
        return Err(error);
    }
    Ok(())
}

/// Appends an option's code and length and its data. If it is refused because memory ran out, the vector is as before.
pub fn append_option(octets: &mut Vec<u8>, code: u16, added: &[u8]) -> Result<(), OutOfMemory>
    requires { length added.now ≤ 65535 }
    ensures { octets.new.items ≡ (if is_ok result then octets.old.items ++ option_octets code added.now else octets.old.items) }
{
    octets.reserve(4 + added.len())?;
    octets.extend_from_slice(&header(code, added.len() as u16))?;
    octets.extend_from_slice(added)?;
    Ok(())
}

/// Calls a writer once on an empty vector, and gives what it wrote there, as `push_raw_option` does before it looks at the
/// length. If the writer is refused, so is the call.
pub fn written_by<F: FnOnce(&mut Vec<u8>) -> Result<(), OutOfMemory>>(
    alloc: Global,
    write: F,
) -> Result<Vec<u8>, OutOfMemory>
    requires { F.IsAlwaysCallable write }
    ensures { IfOk result (λ v. Writes F.FnOnce write v.items) }
{
    let mut octets = Vec::new(alloc);
    write(&mut octets)?;
    Ok(octets)
}

/// Calls a writer as `written_by` does, and gives what it wrote: as Ok if that is as many octets as are stated, and else as
/// Err. If the writer is refused, so is the call.
pub fn written_as_stated<F: FnOnce(&mut Vec<u8>) -> Result<(), OutOfMemory>>(
    alloc: Global,
    len: u16,
    write: F,
) -> Result<Result<Vec<u8>, Vec<u8>>, OutOfMemory>
    requires { F.IsAlwaysCallable write }
    ensures { IfOk result (λ wrote. WroteStated (Writes F.FnOnce write) len wrote) }
{
    let octets = written_by(alloc, write)?;
    if octets.len() != len as usize {
        return Ok(Err(octets));
    }
    Ok(Ok(octets))
}
