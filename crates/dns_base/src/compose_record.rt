//! OPT records by their fields.

ghost use Rattle.std.specs.Prelude.{◌≡◌, ◌≤◌, ◌+◌, ◌++◌, if◌then◌else◌, is_ok, length};
ghost use Rattle.dns_base.specs.Options.{IsOptionList};
ghost use Rattle.dns_base.specs.Wire.{record_octets};
ghost use Rattle.dns_base.specs.OptFields.{opt_head, opt_resource};

use dns_message::ComposeRecord;
use dns_name::{OutOfMemory, Ttl};
use std::alloc::Global;

/// What an OPT record says besides its name and type (RFC 6891, section 6.1.2).
#[derive(Clone, Copy)]
pub(crate) struct OptFields<'a> {
    /// The greatest payload over UDP, in the place of the class.
    pub(crate) size: u16,
    /// The upper response code, the version and the flags.
    pub(crate) ttl: Ttl,
    pub(crate) options: &'a [u8],
}

impl ComposeRecord for OptFields<'_> {
    ghost resource = { λ o. opt_resource o.size o.ttl o.options.now };

    ghost is_lawful = { λ o. IsOptionList o.options.now × (length o.options.now ≤ 65535) };

    fn record_len(&self) -> usize {
        11 + self.options.len()
    }

    fn compose_record(&self, _alloc: Global, target: &mut Vec<u8>) -> Result<(), OutOfMemory> {
        push_opt_octets(target, self.size, self.ttl.as_secs(), self.options)
    }
}

/// Appends the octets of an OPT record.
fn push_opt_octets(
    target: &mut Vec<u8>,
    size: u16,
    ttl: u32,
    options: &[u8],
) -> Result<(), OutOfMemory>
    requires { length options.now ≤ 65535 }
    ensures { target.new.items ≡ (if is_ok result then target.old.items ++ record_octets (opt_resource size ttl options.now)
        else target.old.items) }
{
    target.reserve(11 + options.len())?;
    target.extend_from_slice(&opt_head(size, ttl, options.len() as u16))?;
    target.extend_from_slice(options)?;
    Ok(())
}

/// The octets of an OPT record before its options.
fn opt_head(size: u16, ttl: u32, len: u16) -> [u8; 11]
    ensures { result ≡ opt_head size ttl len }
{
    let high = ttl / 65536;
    let low = ttl % 65536;
    [
        0,
        0,
        41,
        (size / 256) as u8,
        (size % 256) as u8,
        (high / 256) as u8,
        (high % 256) as u8,
        (low / 256) as u8,
        (low % 256) as u8,
        (len / 256) as u8,
        (len % 256) as u8,
    ]
}
