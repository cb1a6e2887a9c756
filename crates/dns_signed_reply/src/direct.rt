//! The reply that gives records of a name at once: they are written from the zone, without copies.

ghost use Rattle.std.specs.Prelude.{◌≡◌, ℕ, IsTrue};
ghost use Rattle.dns_base.specs.Builds.{Builds, unlimited};
ghost use Rattle.dns_message.specs.declared.question.Question.{Question};
ghost use Rattle.dns_route.specs.Routes.{ends_name};
ghost use Rattle.dns_zone.specs.ZoneTurns.{zone_message};
ghost use Rattle.dns_zone_tree.specs.Walks.{ReachesNode};
ghost use Rattle.dns_name_server.specs.NameServerReplies.{name_server_reply};
ghost use Rattle.dns_signed_reply.specs.DirectReplies.{IsDirect, is_plain_type};
ghost use Rattle.dns_signed_reply.specs.SignedReplies.{as_room, do_reply};

use crate::placed::write_kind_rrsigs;
use crate::plain::authoritative;
use crate::reply::built;
use dns_base::{AdditionalBuilder, Message, PushError, WireRecords};
use dns_signed_zone::SignedZone;
use dns_zone_tree::{ANY, Kinds};
use std::alloc::Global;

/// The type of an alias.
const CNAME: u16 = 5;

/// The type of RRSIG records.
const RRSIG: u16 = 46;

/// Whether a type is none of an alias, of RRSIGs or of any records.
fn is_plain_type(rtype: u16) -> bool
    ensures { result ≡ is_plain_type rtype }
{
    !(rtype == CNAME || (rtype == RRSIG || rtype == ANY))
}

/// Whether a name has records of a type, which are given at once: it is no alias, and their RRSIGs aren't asked for with them.
pub(crate) fn is_direct(kinds: &Kinds, rtype: u16) -> bool
    ensures { IsTrue result → IsDirect rtype kinds.now }
{
    if is_plain_type(rtype) {
        if kinds.has(CNAME) {
            return false;
        }
        return kinds.has(rtype);
    }
    false
}

/// The reply with RRSIGs to a question for a type of a name, given the places of the name's records.
pub(crate) fn direct_reply(
    zone: &SignedZone,
    alloc: Global,
    query: &Message,
    kinds: &Kinds,
    rtype: u16,
) -> Result<AdditionalBuilder, PushError>
    requires { IsDirect rtype kinds.now }
    ensures { (q : Question) (room : ℕ) → q.qtype ≡ rtype → IsTrue (ends_name q.qname zone.now.zone.apex)
        → ReachesNode zone.now.zone rtype q.qname kinds.now
        → Builds (unlimited (zone_message query.now (as_room room query.now (name_server_reply zone.now.zone q).additional
        (do_reply zone.now q (name_server_reply zone.now.zone q))))) result }
{
    let _whole = zone.chain();
    let tree = zone.zone();
    let mut answers = WireRecords::new(alloc);
    tree.write_kind(alloc, kinds, rtype, &mut answers)?;
    write_kind_rrsigs(tree, alloc, kinds, rtype, &mut answers)?;
    let none = WireRecords::new(alloc);
    let reply = authoritative(alloc, Vec::new(alloc));
    built(alloc, query, &reply, &answers, &none, &none)
}
