//! The messages that a secondary and its primary send each other unasked.

ghost use Rattle.std.specs.Prelude.{◌≡◌, [], ◌∷◌, IfOk};
ghost use Rattle.dns_base.specs.Builds.{Builds, unlimited};
ghost use Rattle.dns_base.specs.Built.{empty, zero_header};
ghost use Rattle.dns_secondary.specs.Messages.{zone_notify, zone_query, zone_question};

use dns_base::{AdditionalBuilder, PushError, assemble};
use dns_message::{Header, Question};
use dns_name::{Class, Name, Opcode, OutOfMemory, Rcode, Rtype};
use std::alloc::Global;

/// A question of class IN about a zone.
fn zone_question(alloc: Global, qtype: Rtype, apex: &Name) -> Result<Question, OutOfMemory>
    ensures { IfOk result (λ q. q ≡ zone_question qtype apex.now) }
{
    Ok(Question {
        qname: apex.try_clone(alloc)?,
        qtype,
        qclass: Class::IN,
    })
}

/// A header with an identifier and an opcode, of a message that isn't a response.
fn header_of(id: u16, opcode: Opcode, aa: bool) -> Header
    ensures { result ≡ record zero_header { id = id; opcode = opcode; aa = aa } }
{
    Header {
        id,
        qr: false,
        opcode,
        aa,
        tc: false,
        rd: false,
        ra: false,
        z: false,
        ad: false,
        cd: false,
        rcode: Rcode::NOERROR,
    }
}

/// A message with one question about a zone.
fn asking(
    alloc: Global,
    header: Header,
    qtype: Rtype,
    apex: &Name,
) -> Result<AdditionalBuilder, PushError>
    ensures { Builds (unlimited (record empty { header = header; questions = zone_question qtype apex.now ∷ [] })) result }
{
    let question = zone_question(alloc, qtype, apex)?;
    assemble(alloc, header, &[question], &[], &[], &[])
}

/// The query for the SOA record of a zone (RFC 1034, section 4.3.5).
pub fn soa_query(alloc: Global, id: u16, apex: &Name) -> Result<AdditionalBuilder, PushError>
    ensures { Builds (unlimited (zone_query 6 id apex.now)) result }
{
    asking(alloc, header_of(id, Opcode::QUERY, false), Rtype::SOA, apex)
}

/// The query for a whole zone (RFC 5936, section 2.1).
pub fn transfer_query(alloc: Global, id: u16, apex: &Name) -> Result<AdditionalBuilder, PushError>
    ensures { Builds (unlimited (zone_query 252 id apex.now)) result }
{
    asking(
        alloc,
        header_of(id, Opcode::QUERY, false),
        Rtype::AXFR,
        apex,
    )
}

/// The NOTIFY of a zone (RFC 1996, section 3.7).
pub fn zone_notify(alloc: Global, id: u16, apex: &Name) -> Result<AdditionalBuilder, PushError>
    ensures { Builds (unlimited (zone_notify id apex.now)) result }
{
    asking(alloc, header_of(id, Opcode::NOTIFY, true), Rtype::SOA, apex)
}
