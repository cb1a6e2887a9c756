//! The kind of a reply, as it is read of its octets.

ghost use Rattle.std.specs.Prelude.{◌≡◌, IfOk};
ghost use Rattle.dns_limited_sock.specs.Kinds.{counted_as, kind_among, kind_of, kind_of_record};

use dns_base::{MessageRef, Rcode, RecordIter, RecordRef, Rtype};
use dns_name::{Name, OutOfMemory};
use dns_rate_limit::Kind;
use std::alloc::Global;

/// The kind of a reply, with a name in memory of its own.
#[derive(Drop)]
pub enum ReplyKind {
    /// It has answers, or says nothing that is limited otherwise.
    Answer,
    /// It refers to the name servers of a zone below.
    Referral,
    /// There is no such name or no such type in the zone with this apex.
    Negative(Name),
    /// It has another response code than NOERROR and NXDOMAIN.
    Error,
}

/// What a record of the authority section says: an SOA record that there is no such data in its zone (RFC 2308, section 2), an NS
/// record that its zone's servers are to be asked (RFC 1034, section 4.3.1).
fn kind_of_record(alloc: Global, entry: &RecordRef<'_>) -> Result<Option<ReplyKind>, OutOfMemory>
    ensures { IfOk result (λ kind. kind ≡ kind_of_record entry.now.resource) }
{
    if entry.rtype() == Rtype::SOA {
        return Ok(Some(ReplyKind::Negative(entry.owner().to_name(alloc)?)));
    }
    if entry.rtype() == Rtype::NS {
        return Ok(Some(ReplyKind::Referral));
    }
    Ok(None)
}

/// What the first SOA or NS record of the authority section says.
fn kind_of_authority(
    alloc: Global,
    records: RecordIter<'_>,
) -> Result<Option<ReplyKind>, OutOfMemory>
    ensures { IfOk result (λ kind. kind ≡ kind_among records.entry) }
{
    let mut left = records;
    'walk: while let Some(Ok(record)) = left.next() {
        if let Some(kind) = kind_of_record(alloc, &record)? {
            return Ok(Some(kind));
        }
    }
    Ok(None)
}

impl ReplyKind {
    /// The kind of a reply.
    pub fn of(alloc: Global, reply: &MessageRef<'_>) -> Result<ReplyKind, OutOfMemory>
        ensures { IfOk result (λ kind. kind ≡ kind_of reply.now) }
    {
        let code = reply.header().rcode;
        if code != Rcode::NOERROR && code != Rcode::NXDOMAIN {
            return Ok(ReplyKind::Error);
        }
        if code == Rcode::NOERROR && reply.header_counts().ancount > 0 {
            return Ok(ReplyKind::Answer);
        }
        let Ok(records) = reply.authority() else {
            return Ok(ReplyKind::Answer);
        };
        match kind_of_authority(alloc, records)? {
            Some(kind) => Ok(kind),
            None => Ok(ReplyKind::Answer),
        }
    }

    /// The kind by which it is counted.
    pub fn as_kind(&self) -> Kind<'_>
        ensures { result ≡ counted_as self.now }
    {
        match self {
            ReplyKind::Answer => Kind::Answer,
            ReplyKind::Referral => Kind::Referral,
            ReplyKind::Negative(zone) => Kind::Negative(zone.for_ref()),
            ReplyKind::Error => Kind::Error,
        }
    }
}
