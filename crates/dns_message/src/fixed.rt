//! What stands between the owner and the data of a record.

ghost use Rattle.std.specs.Prelude.{◌≡◌, ◌≤◌, ◌++◌, length, IfOk, OnOk, OnErr};
ghost use Rattle.dns_message.specs.Fixed.{fixed_at, fixed_octets};

use crate::header::number_at;
use crate::write::push_octets;
use dns_name::{Class, OutOfMemory, ParseError, Rtype, Ttl};

/// What stands between the owner and the data of a record (RFC 1035, section 3.2.1).
#[derive(Clone, Copy)]
pub(crate) struct FixedFields {
    pub(crate) rtype: Rtype,
    pub(crate) class: Class,
    pub(crate) ttl: Ttl,
    /// How many octets the data takes.
    pub(crate) size: u16,
}

/// The fields at a place, and the place after them.
#[inline(always)]
pub(crate) fn fixed_in(message: &[u8], at: usize) -> Result<(FixedFields, usize), ParseError>
    requires { at ≤ length message.now }
    ensures value { result ≡ fixed_at message.now at }
    ensures within { IfOk result (λ r. r.1 ≤ length message.now) }
{
    let octets = &message[at..];
    if octets.len() < 10 {
        return Err(ParseError::ShortInput);
    }
    let ttl = 65536 * number_at(octets, 4) as u32 + number_at(octets, 6) as u32;
    let fields = FixedFields {
        rtype: Rtype::from_int(number_at(octets, 0)),
        class: Class::from_int(number_at(octets, 2)),
        ttl: Ttl::from_secs(ttl),
        size: number_at(octets, 8),
    };
    Ok((fields, at + 10))
}

/// The fields as they are written (RFC 1035, section 3.2.1).
fn octets_of(fields: FixedFields) -> [u8; 10]
    ensures { result ≡ fixed_octets fields }
{
    let ttl = fields.ttl.as_secs();
    let high = ttl / 65536;
    let low = ttl % 65536;
    [
        (fields.rtype.to_int() / 256) as u8,
        (fields.rtype.to_int() % 256) as u8,
        (fields.class.to_int() / 256) as u8,
        (fields.class.to_int() % 256) as u8,
        (high / 256) as u8,
        (high % 256) as u8,
        (low / 256) as u8,
        (low % 256) as u8,
        (fields.size / 256) as u8,
        (fields.size % 256) as u8,
    ]
}

/// Appends the fields; nothing if there is no memory.
pub(crate) fn push_fixed(target: &mut Vec<u8>, fields: FixedFields) -> Result<(), OutOfMemory>
    ensures ok { OnOk result (target.new.items ≡ target.old.items ++ fixed_octets fields) }
    ensures err { OnErr result (target.new.items ≡ target.old.items) }
{
    push_octets(target, &octets_of(fields))
}
