//! The reply.

ghost use Rattle.std.specs.Prelude.{◌≡◌, ◌++◌, IfOk, IsTrue, OnOk};
ghost use Rattle.std.specs.List.{flat_map};
ghost use Rattle.dns_base.specs.Builds.{Builds, unlimited};
ghost use Rattle.dns_route.specs.Routes.{ends_name};
ghost use Rattle.dns_zone.specs.ZoneTurns.{zone_message};
ghost use Rattle.dns_name_server.specs.NameServerReplies.{name_server_reply};
ghost use Rattle.dns_signed_reply.specs.SignedReplies.{ds_of, with_rrsigs};
ghost use Rattle.dns_signed_reply.specs.PlainReplies.{said};
ghost use Rattle.dns_hashed_reply.specs.HashedReplies.{failure, group_at, hashed_reply, proved_reply, with_proofs};

use crate::denials::chosen_for;
use dns_base::{AdditionalBuilder, Message, PushError, QuestionRef, Rcode, Record};
use dns_hashed_zone::HashedZone;
use dns_name::OutOfMemory;
use dns_name_server::name_server_reply;
use dns_signed_reply::{PlainReply, asks_do, ds_of, extended, in_room, plain_reply, with_rrsigs};
use std::alloc::Global;

/// Adds copies of records.
fn add_records(alloc: Global, records: &[Record], into: &mut Vec<Record>) -> Result<(), OutOfMemory>
    ensures { OnOk result (into.new.items ≡ into.old.items ++ records.now) }
{
    'each: for resource in records {
        let copy = resource.try_clone(alloc)?;
        into.push(copy)?;
    }
    Ok(())
}

/// Adds copies of the NSEC3 record of a place and of its RRSIGs.
fn add_group(
    zone: &HashedZone,
    alloc: Global,
    place: usize,
    into: &mut Vec<Record>,
) -> Result<(), OutOfMemory>
    ensures { OnOk result (into.new.items ≡ into.old.items ++ group_at zone.now place) }
{
    match zone.group(place) {
        Some(group) => add_records(alloc, group, into),
        None => Ok(()),
    }
}

/// The NSEC3 records of places with their RRSIGs.
fn hashed_records(
    zone: &HashedZone,
    alloc: Global,
    places: &[usize],
) -> Result<Vec<Record>, OutOfMemory>
    ensures { IfOk result (λ v. v.items ≡ flat_map (group_at zone.now) places.now) }
{
    let mut records = Vec::new(alloc);
    'each: for place in places {
        add_group(zone, alloc, *place, &mut records)?;
    }
    Ok(records)
}

/// The authority section with its DS records, RRSIGs and NSEC3 records.
fn proved_authority(
    zone: &HashedZone,
    alloc: Global,
    authority: Vec<Record>,
    places: &[usize],
) -> Result<Vec<Record>, OutOfMemory>
    ensures { IfOk result (λ v. v.items ≡ with_rrsigs zone.now.zone (authority.items ++ ds_of zone.now.zone authority.items)
        ++ flat_map (group_at zone.now) places.now) }
{
    let ds = ds_of(zone.zone(), alloc, authority.as_slice())?;
    let referred = extended(authority, ds)?;
    let signed = with_rrsigs(zone.zone(), alloc, referred)?;
    let hashed = hashed_records(zone, alloc, places)?;
    extended(signed, hashed)
}

/// The reply with RRSIGs in each section, and what it says is absent proved.
fn do_reply(
    zone: &HashedZone,
    alloc: Global,
    plain: PlainReply,
    places: &[usize],
) -> Result<PlainReply, OutOfMemory>
    ensures { IfOk result (λ p. said p ≡ proved_reply zone.now places.now (said plain)) }
{
    let PlainReply {
        aa,
        rcode,
        answers,
        authority,
        additional,
    } = plain;
    let tree = zone.zone();
    let answers = with_rrsigs(tree, alloc, answers)?;
    let authority = proved_authority(zone, alloc, authority, places)?;
    let additional = with_rrsigs(tree, alloc, additional)?;
    Ok(PlainReply {
        aa,
        rcode,
        answers,
        authority,
        additional,
    })
}

/// The reply where a hash collides (RFC 5155, section 7.2.9).
fn failed(alloc: Global) -> PlainReply
    ensures { said result ≡ failure }
{
    let answers = Vec::new(alloc);
    let authority = Vec::new(alloc);
    let additional = Vec::new(alloc);
    PlainReply {
        aa: false,
        rcode: Rcode::SERVFAIL,
        answers,
        authority,
        additional,
    }
}

/// The reply with RRSIGs and proofs.
fn with_proofs(
    zone: &HashedZone,
    alloc: Global,
    query: &Message,
    question: &QuestionRef<'_>,
    room: u16,
) -> Result<AdditionalBuilder, PushError>
    requires { IsTrue (ends_name question.now.qname zone.now.zone.apex) }
    ensures { Builds (unlimited (zone_message query.now
        (with_proofs zone.now room query.now question.now (name_server_reply zone.now.zone question.now)))) result }
{
    let _chain = zone.chain();
    let tree = zone.zone();
    let _lawful = tree.records();
    let plain = plain_reply(tree, alloc, question)?;
    let found = chosen_for(zone, alloc, question, plain.answers.as_slice())?;
    if found.collides {
        return in_room(alloc, query, &failed(alloc), 0, room);
    }
    let unsigned = plain.additional.len();
    let signed = do_reply(zone, alloc, plain, found.places.as_slice())?;
    in_room(alloc, query, &signed, unsigned, room)
}

/// The reply, as it is built, of a zone that is signed with NSEC3 (RFC 5155, section 7.2). The question is for a name at or below its
/// apex. The RRSIGs of additional records are left out if the message would take more octets than there is room for.
pub fn hashed_reply(
    zone: &HashedZone,
    alloc: Global,
    query: &Message,
    question: &QuestionRef<'_>,
    room: u16,
) -> Result<AdditionalBuilder, PushError>
    requires { IsTrue (ends_name question.now.qname zone.now.zone.apex) }
    ensures { Builds (unlimited (zone_message query.now (hashed_reply zone.now room query.now question.now))) result }
{
    if asks_do(query) {
        return with_proofs(zone, alloc, query, question, room);
    }
    name_server_reply(zone.zone(), alloc, query, question)
}
