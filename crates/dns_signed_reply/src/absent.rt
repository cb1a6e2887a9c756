//! The reply that a name doesn't exist, and no wildcard stands for it: the records are written from the zone, without copies.

ghost use Rattle.std.specs.Prelude.{◌≡◌, ◌++◌, ◌∷◌, [], ℕ, false, map, IfOk, IsTrue, OnOk};
ghost use Rattle.std.specs.List.{Contains, flat_map};
ghost use Rattle.std.specs.Option.{option_copied};
ghost use Rattle.dns_name.specs.Canonical.{same_name};
ghost use Rattle.dns_base.specs.Builds.{Builds, unlimited};
ghost use Rattle.dns_base.specs.Records.{record_of};
ghost use Rattle.dns_message.specs.declared.question.Question.{Question};
ghost use Rattle.dns_route.specs.Routes.{ends_name};
ghost use Rattle.dns_zone.specs.ZoneReply.{authoritative, exists};
ghost use Rattle.dns_zone.specs.ZoneTurns.{zone_message};
ghost use Rattle.dns_zone_tree.specs.Wildcards.{wildcard};
ghost use Rattle.dns_denial.specs.Denials.{IsAnswered};
ghost use Rattle.dns_name_server.specs.NameServerReplies.{name_server_reply};
ghost use Rattle.dns_signed_reply.specs.DirectReplies.{AreOwners, IsAbsent, IsReached, absent_authority, head_rrsigs, negatives, owner_nsecs, owner_rrsigs};
ghost use Rattle.dns_signed_reply.specs.PlainReplies.{said};
ghost use Rattle.dns_signed_reply.specs.SignedReplies.{as_room, do_reply, nearest};

use crate::placed::write_kind_rrsigs;
use crate::plain::{PlainReply, authoritative};
use crate::records::DS;
use crate::reply::{add_written, built};
use crate::rrsigs::add_signatures;
use dns_base::{AdditionalBuilder, Message, NameRef, PushError, Rcode, WireRecords};
use dns_denial::Nsec;
use dns_name::OutOfMemory;
use dns_signed_zone::SignedZone;
use dns_zone_tree::{Kinds, Walk, ZoneTree};
use std::alloc::Global;

/// The type of NSEC records.
const NSEC: u16 = 47;

/// The places of the records of the owners of two NSECs that deny a name and its wildcard. What the first owner has isn't the
/// second's as well.
#[derive(Drop)]
struct Owners<'a> {
    name: Option<&'a Kinds>,
    wildcard: Option<&'a Kinds>,
}

/// Adds the NSEC records of an owner, if there is one, given the places of its records.
fn write_nsecs(
    zone: &ZoneTree,
    alloc: Global,
    owner: Option<&Kinds>,
    into: &mut WireRecords,
) -> Result<(), OutOfMemory>
    ensures { OnOk result (into.new ≡ into.old ++ map record_of (owner_nsecs zone.now (option_copied owner.entry))) }
{
    match owner {
        Some(kinds) => zone.write_kind(alloc, kinds, NSEC, into),
        None => Ok(()),
    }
}

/// Adds the RRSIGs of the NSEC records of an owner, if there is one.
fn write_rrsigs(
    zone: &ZoneTree,
    alloc: Global,
    owner: Option<&Kinds>,
    into: &mut WireRecords,
) -> Result<(), OutOfMemory>
    ensures { OnOk result (into.new ≡ into.old ++ map record_of (owner_rrsigs zone.now (option_copied owner.entry))) }
{
    match owner {
        Some(kinds) => write_kind_rrsigs(zone, alloc, kinds, NSEC, into),
        None => Ok(()),
    }
}

/// Adds the RRSIGs of the SOA record of a negative answer.
fn write_soa_rrsigs(
    zone: &ZoneTree,
    alloc: Global,
    into: &mut WireRecords,
) -> Result<(), OutOfMemory>
    ensures { OnOk result (into.new ≡ into.old
        ++ map record_of (head_rrsigs zone.now (negatives zone.now))) }
{
    let mut found = Vec::new(alloc);
    let _lawful = zone.records();
    add_signatures(zone, alloc, zone.negative(), &mut found)?;
    add_written(alloc, found.as_slice(), into)
}

/// The places of the records of a name in the zone, if the zone has authority over it and it exists.
fn reached<'a>(
    zone: &'a ZoneTree,
    alloc: Global,
    name: &NameRef<'_>,
) -> Result<Option<&'a Kinds>, OutOfMemory>
    requires { IsTrue (ends_name name.now zone.now.apex) }
    ensures { IfOk result (λ o. IsReached zone.now name.now (option_copied o)) }
{
    let found = zone.walk(alloc, name, DS)?;
    match found {
        Walk::Node(kinds) => Ok(Some(kinds)),
        Walk::Missing(_) => Ok(None),
        Walk::Cut(_) => Ok(None),
        Walk::Dname(_) => Ok(None),
    }
}

/// The places of the records of the owner of an NSEC, if the zone has authority over it and it exists.
fn owner_of<'a>(
    zone: &'a ZoneTree,
    alloc: Global,
    nsec: &Nsec,
) -> Result<Option<&'a Kinds>, OutOfMemory>
    requires { IsTrue (ends_name nsec.now.owner zone.now.apex) }
    ensures { IfOk result (λ o. IsReached zone.now nsec.now.owner (option_copied o)) }
{
    reached(zone, alloc, &nsec.owner().for_ref())
}

/// Whether two NSECs have the same owner.
fn are_same(one: &Nsec, other: &Nsec) -> bool
    ensures { result ≡ same_name one.now.owner other.now.owner }
{
    *one.owner() == *other.owner()
}

/// The places of the records of the owners of two NSECs.
fn owners_of<'a>(
    zone: &'a SignedZone,
    alloc: Global,
    first: &Nsec,
    second: &Nsec,
) -> Result<Owners<'a>, OutOfMemory>
    requires first { Contains zone.now.nsecs first.now }
    requires second { Contains zone.now.nsecs second.now }
    ensures { IfOk result (λ o. AreOwners zone.now.zone (first.now ∷ second.now ∷ []) (option_copied o.name) (option_copied o.wildcard)) }
{
    let chain = zone.chain();
    let _sorted = chain.nsecs();
    let name = owner_of(zone.zone(), alloc, first)?;
    if are_same(first, second) {
        return Ok(Owners {
            name,
            wildcard: None,
        });
    }
    let wildcard = owner_of(zone.zone(), alloc, second)?;
    Ok(Owners { name, wildcard })
}

/// The places of the records of the owners of the NSECs that deny a name and its wildcard.
fn denying<'a>(
    zone: &'a SignedZone,
    alloc: Global,
    name: &NameRef<'_>,
) -> Result<Owners<'a>, OutOfMemory>
    requires inside { IsTrue (ends_name name.now zone.now.zone.apex) }
    requires answered { IsAnswered zone.now.zone name.now }
    requires missing { exists zone.now.zone name.now ≡ false }
    ensures { IfOk result (λ o. AreOwners zone.now.zone (flat_map (nearest zone.now.nsecs) (name.now ∷ wildcard zone.now.zone name.now ∷ []))
        (option_copied o.name) (option_copied o.wildcard)) }
{
    let chain = zone.chain();
    let _sorted = chain.nsecs();
    let found = chain.wildcard_denial(alloc, name)?;
    match found {
        Some(denial) => owners_of(zone, alloc, denial.name, denial.wildcard),
        None => unreachable!(),
    }
}

/// The SOA record and the NSEC records of two owners, and their RRSIGs after them.
fn proofs_of(
    zone: &ZoneTree,
    alloc: Global,
    owners: &Owners<'_>,
) -> Result<WireRecords, OutOfMemory>
    ensures { IfOk result (λ w. w ≡ map record_of (absent_authority zone.now (option_copied owners.now.name)
        (option_copied owners.now.wildcard))) }
{
    let mut all = WireRecords::new(alloc);
    all.push(alloc, zone.negative())?;
    write_nsecs(zone, alloc, owners.name, &mut all)?;
    write_nsecs(zone, alloc, owners.wildcard, &mut all)?;
    write_soa_rrsigs(zone, alloc, &mut all)?;
    write_rrsigs(zone, alloc, owners.name, &mut all)?;
    write_rrsigs(zone, alloc, owners.wildcard, &mut all)?;
    Ok(all)
}

/// That a name doesn't exist.
fn name_error(alloc: Global) -> PlainReply
    ensures { said result ≡ record (authoritative []) { rcode = 3 } }
{
    let none = Vec::new(alloc);
    let mut reply = authoritative(alloc, none);
    reply.rcode = Rcode::NXDOMAIN;
    reply
}

/// The reply with RRSIGs to a question for a name that doesn't exist, and for which no wildcard stands.
pub(crate) fn absent_reply(
    zone: &SignedZone,
    alloc: Global,
    query: &Message,
    name: &NameRef<'_>,
    rtype: u16,
) -> Result<AdditionalBuilder, PushError>
    requires inside { IsTrue (ends_name name.now zone.now.zone.apex) }
    requires absent { IsAbsent zone.now.zone rtype name.now }
    ensures { (q : Question) (room : ℕ) → q.qtype ≡ rtype → q.qname ≡ name.now
        → Builds (unlimited (zone_message query.now (as_room room query.now (name_server_reply zone.now.zone q).additional
        (do_reply zone.now q (name_server_reply zone.now.zone q))))) result }
{
    let _whole = zone.chain();
    let tree = zone.zone();
    let _soa = tree.negative();
    let owners = denying(zone, alloc, name)?;
    let authority = proofs_of(tree, alloc, &owners)?;
    let none = WireRecords::new(alloc);
    let reply = name_error(alloc);
    built(alloc, query, &reply, &none, &authority, &none)
}
