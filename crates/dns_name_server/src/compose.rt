//! Replies as they are built.

ghost use Rattle.std.specs.Prelude.{◌≡◌, ◌∷◌, [], ℕ, List, true, map, if◌then◌else◌};
ghost use Rattle.dns_base.specs.declared.draft.Section.TheVariants.{Answer};
ghost use Rattle.dns_base.specs.Builds.{Becomes, Builds, KeepsLimit, unlimited, with_records};
ghost use Rattle.dns_base.specs.Records.{record_of};
ghost use Rattle.dns_zone.specs.Owned.{AreLawful, ZoneState};
ghost use Rattle.dns_zone.specs.Places.{at_places};
ghost use Rattle.dns_zone.specs.ZoneReply.{authoritative, denied, referral};
ghost use Rattle.dns_zone_tree.specs.Kinds.{kind_places, places_of};
ghost use Rattle.dns_zone_tree.specs.Referrals.{IsReferral};
ghost use Rattle.dns_name_server.specs.Steps.{behind, end_reply, wire_message, wired};

use crate::step::End;
use dns_base::{AdditionalBuilder, AnswerBuilder, Message, PushError, Rcode, Record, WireRecords};
use dns_zone::begin_reply;
use dns_zone_tree::{Kinds, Referral, TypedPlace, ZoneTree};
use std::alloc::Global;

/// A reply to a query that has these records.
fn built(
    alloc: Global,
    query: &Message,
    code: (Rcode, bool),
    answers: &WireRecords,
    authority: &WireRecords,
    additional: &WireRecords,
) -> Result<AdditionalBuilder, PushError>
    ensures { Builds (unlimited (wire_message query.now
        (record { aa = code.1; rcode = code.0; answers = answers.now; authority = authority.now; additional = additional.now }))) result }
{
    let mut reply = begin_reply(alloc, query, code.0, code.1)?;
    reply.push_records(answers)?;
    let mut behind = reply.authority();
    behind.push_records(authority)?;
    let mut last = behind.additional();
    last.push_records(additional)?;
    Ok(last)
}

/// The answers that are given, and nothing more.
fn alone(
    alloc: Global,
    query: &Message,
    rcode: Rcode,
    given: &WireRecords,
) -> Result<AdditionalBuilder, PushError>
    ensures { Builds (unlimited (wire_message query.now
        (record { aa = true; rcode = rcode; answers = given.now; authority = []; additional = [] }))) result }
{
    let none = WireRecords::new(alloc);
    built(alloc, query, (rcode, true), given, &none, &none)
}

/// The answers that are given, and a referral.
fn referred_by(
    alloc: Global,
    query: &Message,
    given: &WireRecords,
    kept: &Referral,
) -> Result<AdditionalBuilder, PushError>
    ensures { (z : ZoneState) (servers : List ℕ) → IsReferral z servers kept.now → Builds (unlimited (wire_message query.now
        (behind given.now (wired (referral z (at_places z.records servers)))))) result }
{
    let aa = !given.is_empty();
    built(
        alloc,
        query,
        (Rcode::NOERROR, aa),
        given,
        &kept.authority,
        &kept.additional,
    )
}

/// The answers that are given, and a referral to the name servers of a cut.
fn referred(
    zone: &ZoneTree,
    alloc: Global,
    query: &Message,
    given: &WireRecords,
    cut: &Kinds,
) -> Result<AdditionalBuilder, PushError>
    ensures { Builds (unlimited (wire_message query.now
        (behind given.now (wired (referral zone.now (at_places zone.now.records (kind_places 2 cut.now))))))) result }
{
    match zone.referral(cut) {
        Some(kept) => referred_by(alloc, query, given, kept),
        None => {
            let made = zone.make_referral(alloc, cut)?;
            referred_by(alloc, query, given, &made)
        }
    }
}

/// The response code of a negative answer.
fn negative_code(there: bool) -> Rcode
    ensures { result ≡ (if there then 0 else 3) }
{
    if there {
        return Rcode::NOERROR;
    }
    Rcode::NXDOMAIN
}

/// The answers that are given, and that there are no such records, of a name that exists or not.
fn denied(
    zone: &ZoneTree,
    alloc: Global,
    query: &Message,
    given: &WireRecords,
    there: bool,
) -> Result<AdditionalBuilder, PushError>
    ensures { Builds (unlimited (wire_message query.now (behind given.now (wired (denied zone.now (if there then 0 else 3)))))) result }
{
    let none = WireRecords::new(alloc);
    let code = (negative_code(there), true);
    built(alloc, query, code, given, zone.denial(), &none)
}

/// Adds the record at a place to the answers of a reply, if it is of a type.
fn answer_kind(
    alloc: Global,
    records: &[Record],
    kind: &TypedPlace,
    rtype: u16,
    reply: &mut AnswerBuilder,
) -> Result<(), PushError>
    requires lawful { AreLawful records.now }
    requires short { KeepsLimit reply.old }
    ensures { Becomes reply.new (with_records Answer reply.old
        (map record_of (at_places records.now (places_of rtype (kind.now ∷ []))))) result }
{
    match kind.record(records, rtype) {
        Some(record) => reply.push(alloc, record),
        None => Ok(()),
    }
}

/// Adds the records of a type at places to the answers of a reply, one after another.
fn answer_kinds(
    alloc: Global,
    records: &[Record],
    kinds: &[TypedPlace],
    rtype: u16,
    reply: &mut AnswerBuilder,
) -> Result<(), PushError>
    requires lawful { AreLawful records.now }
    requires short { KeepsLimit reply.old }
    ensures { Becomes reply.new (with_records Answer reply.old
        (map record_of (at_places records.now (places_of rtype kinds.now)))) result }
{
    'each: for kind in kinds {
        answer_kind(alloc, records, kind, rtype, reply)?;
    }
    Ok(())
}

/// The answers that are given, and the records of a type of a name.
fn found(
    zone: &ZoneTree,
    alloc: Global,
    query: &Message,
    given: &WireRecords,
    kinds: &Kinds,
    rtype: u16,
) -> Result<AdditionalBuilder, PushError>
    ensures { Builds (unlimited (wire_message query.now
        (behind given.now (wired (authoritative (at_places zone.now.records (kind_places rtype kinds.now))))))) result }
{
    let mut reply = begin_reply(alloc, query, Rcode::NOERROR, true)?;
    reply.push_records(given)?;
    answer_kinds(alloc, zone.records(), kinds.as_slice(), rtype, &mut reply)?;
    Ok(reply.additional())
}

/// The reply that has the aliases that are given, and their end.
pub(crate) fn composed(
    zone: &ZoneTree,
    alloc: Global,
    query: &Message,
    given: WireRecords,
    end: &End<'_>,
) -> Result<AdditionalBuilder, PushError>
    ensures { Builds (unlimited (wire_message query.now (behind given (wired (end_reply zone.now end.now))))) result }
{
    match end {
        End::Own(kinds, rtype) => found(zone, alloc, query, &given, kinds, *rtype),
        End::Nothing => alone(alloc, query, Rcode::NOERROR, &given),
        End::Delegation(cut) => referred(zone, alloc, query, &given, cut),
        End::Denied(there) => denied(zone, alloc, query, &given, *there),
        End::TooLong => alone(alloc, query, Rcode::YXDOMAIN, &given),
    }
}
