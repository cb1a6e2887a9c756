//! The records of a zone, signed or not.

ghost use Rattle.std.specs.Prelude.{◌≡◌, length, IfOk, IsTrue};
ghost use Rattle.dns_base.specs.Builds.{Builds, unlimited};
ghost use Rattle.dns_route.specs.Routes.{ends_name};
ghost use Rattle.dns_zone.specs.ZoneTurns.{zone_message};
ghost use Rattle.dns_transfer.specs.Transfers.{bunched, sent_records, transfer_records};
ghost use Rattle.dns_hashed_zone.specs.HashedStates.{all_records};
ghost use Rattle.dns_authority.specs.ServedZones.{room_over, sent_by, sent_records_of, served_reply, signing_of, tree_of};

use dns_base::{AdditionalBuilder, Message, PushError, QuestionRef};
use dns_hashed_reply::hashed_reply;
use dns_hashed_zone::HashedZone;
use dns_name_server::name_server_reply;
use dns_service::{OutOfMemory, TransportSpecificContext, limit_over};
use dns_signed_reply::secure_reply;
use dns_signed_zone::SignedZone;
use dns_transfer::Bunches;
use dns_zone_tree::ZoneTree;
use std::alloc::Global;

/// How many octets layers may add to a reply: an OPT record with a cookie, an identifier and padding.
const ADDED: u16 = 300;

/// The records of a zone, as an authority takes them.
#[derive(Drop)]
pub enum ZoneData {
    /// A zone whose NSEC records, if there are any, are records as others.
    Unsigned(ZoneTree),
    /// A zone whose chain of NSEC records is whole.
    Signed(SignedZone),
    /// A zone whose chain of NSEC3 records is whole.
    Hashed(HashedZone),
}

impl ZoneData {
    /// Its apex and the records of its names. NSEC3 records and their RRSIGs are none of them (RFC 5155, section 7.2.8).
    pub fn tree(&self) -> &ZoneTree
        ensures { result.now ≡ tree_of self.now }
    {
        match self {
            ZoneData::Unsigned(tree) => tree,
            ZoneData::Signed(signed) => signed.zone(),
            ZoneData::Hashed(hashed) => hashed.zone(),
        }
    }

    /// How many records it has.
    pub fn record_count(&self) -> usize
        ensures { result ≡ length (sent_records_of self.now) }
    {
        match self {
            ZoneData::Hashed(hashed) => hashed.record_count(),
            _ => self.tree().records().len(),
        }
    }

    /// The bunches of its transfer.
    pub(crate) fn bunches(&self, alloc: Global) -> Result<Bunches, OutOfMemory>
        ensures { IfOk result (λ b. b ≡ bunched (transfer_records (sent_by self.now))) }
    {
        match self {
            ZoneData::Hashed(hashed) => hashed_bunches(alloc, hashed),
            _ => Bunches::of(alloc, self.tree().records()),
        }
    }
}

/// The bunches of a transfer of a zone that is signed with NSEC3.
fn hashed_bunches(alloc: Global, zone: &HashedZone) -> Result<Bunches, OutOfMemory>
    ensures { IfOk result (λ b. b ≡ bunched (sent_records (all_records zone.now))) }
{
    let all = zone.all_records(alloc)?;
    Bunches::of(alloc, all.as_slice())
}

/// How many octets a reply may have with RRSIGs of additional records.
pub(crate) fn room_over(transport: &TransportSpecificContext) -> u16
    ensures { result ≡ room_over transport.now }
{
    match limit_over(transport, transport.hint()) {
        Some(limit) => limit.saturating_sub(ADDED),
        None => 65535,
    }
}

/// Its reply to a question for a name at or below its apex.
pub(crate) fn served_reply(
    zone: &ZoneData,
    alloc: Global,
    query: &Message,
    question: &QuestionRef<'_>,
    room: u16,
) -> Result<AdditionalBuilder, PushError>
    requires { IsTrue (ends_name question.now.qname (tree_of zone.now).apex) }
    ensures { Builds (unlimited (zone_message query.now
        (served_reply (tree_of zone.now) (signing_of zone.now) room query.now question.now))) result }
{
    match zone {
        ZoneData::Unsigned(tree) => name_server_reply(tree, alloc, query, question),
        ZoneData::Signed(signed) => secure_reply(signed, alloc, query, question, room),
        ZoneData::Hashed(hashed) => hashed_reply(hashed, alloc, query, question, room),
    }
}
