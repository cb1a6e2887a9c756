//! A record whose name and data are borrowed as octets.

ghost use Rattle.std.specs.Prelude.{◌≡◌, ◌≤◌, length};
ghost use Rattle.dns_reply_builder.specs.Replying.{plain_head, plain_record};

use dns_base::{Class, ComposeRecord, NameRef, OutOfMemory, Rtype, Ttl};
use std::alloc::Global;

/// A record whose name and data are borrowed (RFC 1035, section 3.2.1). The data isn't looked into.
#[derive(Drop)]
pub struct PlainRecord<'a> {
    /// The name that owns the record.
    pub owner: NameRef<'a>,
    /// The type.
    pub rtype: Rtype,
    /// The class.
    pub class: Class,
    /// How long the record may be kept.
    pub ttl: Ttl,
    /// The data, names uncompressed, at most 65,535 octets.
    pub rdata: &'a [u8],
}

impl PlainRecord<'_> {
    /// What stands between the owner and the data.
    fn head(&self) -> [u8; 10]
        requires { length self.now.rdata.now ≤ 65535 }
        ensures { result ≡ plain_head (plain_record self.now) }
    {
        let (rtype, class) = (self.rtype.to_int(), self.class.to_int());
        let ttl = self.ttl.as_secs();
        let (high, low) = (ttl / 65536, ttl % 65536);
        let len = self.rdata.len();
        [
            (rtype / 256) as u8,
            (rtype % 256) as u8,
            (class / 256) as u8,
            (class % 256) as u8,
            (high / 256) as u8,
            (high % 256) as u8,
            (low / 256) as u8,
            (low % 256) as u8,
            (len / 256) as u8,
            (len % 256) as u8,
        ]
    }
}

impl ComposeRecord for PlainRecord<'_> {
    ghost resource = { plain_record };

    ghost is_lawful = { λ r. length r.rdata.now ≤ 65535 };

    fn record_len(&self) -> usize {
        self.owner.as_slice().len() + 10 + self.rdata.len()
    }

    /// The memory is taken first.
    fn compose_record(&self, _alloc: Global, target: &mut Vec<u8>) -> Result<(), OutOfMemory> {
        let owner = self.owner.as_slice();
        target.reserve(owner.len() + 10 + self.rdata.len())?;
        target.extend_from_slice(owner)?;
        target.extend_from_slice(&self.head())?;
        target.extend_from_slice(self.rdata)?;
        Ok(())
    }
}
