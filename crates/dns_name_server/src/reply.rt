//! Chains of aliases, and the reply.

ghost use Rattle.std.specs.Prelude.{◌≡◌, [], IfOk, IsTrue};
ghost use Rattle.std.specs.List.{list_any};
ghost use Rattle.dns_base.specs.Builds.{Builds, unlimited};
ghost use Rattle.dns_name.specs.Canonical.{same_name};
ghost use Rattle.dns_route.specs.Routes.{ends_name};
ghost use Rattle.dns_zone.specs.ZoneTurns.{zone_message};
ghost use Rattle.dns_name_server.specs.NameServerReplies.{is_answered, name_server_reply, reply_from};
ghost use Rattle.dns_name_server.specs.Steps.{behind, end_reply, wired};

use crate::compose::composed;
use crate::names::spelt;
use crate::step::{End, Step, step_of};
use dns_base::{AdditionalBuilder, Message, Name, NameRef, PushError, QuestionRef, WireRecords};
use dns_name::OutOfMemory;
use dns_route::matches_are_suffixes;
use dns_zone_tree::ZoneTree;
use std::alloc::Global;

/// How many names of a chain are asked for at most.
const MOST_NAMES: usize = 128;

/// Whether a name is one of some.
fn is_among(name: &Name, names: &[Name]) -> bool
    ensures { result ≡ list_any (same_name name.now) names.now }
{
    'each: for other in names {
        if *name == *other {
            return true;
        }
    }
    false
}

/// Whether a zone is asked on for a name.
fn is_answered(zone: &ZoneTree, seen: &[Name], name: &Name) -> bool
    ensures { result ≡ is_answered zone.now seen.now name.now }
{
    matches_are_suffixes();
    name.ends_with(&zone.apex().for_ref()) && !is_among(name, seen)
}

/// Gives the aliases after names that were asked for, and says what they end with.
fn chain_behind<'a>(
    zone: &'a ZoneTree,
    alloc: Global,
    question: &QuestionRef<'_>,
    names: Vec<Name>,
    next: Name,
    given: &mut WireRecords,
) -> Result<End<'a>, OutOfMemory>
    requires { behind given.old (wired (reply_from zone.now question.now.qtype 127 names.items next))
        ≡ wired (name_server_reply zone.now question.now) }
    ensures { IfOk result (λ e. behind given.new (wired (end_reply zone.now e)) ≡ wired (name_server_reply zone.now question.now)) }
{
    let rtype = question.qtype().to_int();
    let mut seen = names;
    let mut name = next;
    let mut left = MOST_NAMES - 1;
    'names: loop {
        if left == 0 {
            return Ok(End::Nothing);
        }
        if !is_answered(zone, seen.as_slice(), &name) {
            return Ok(End::Nothing);
        }
        left -= 1;
        let found = step_of(zone, alloc, rtype, &name.for_ref(), given)?;
        match found {
            Step::End(end) => return Ok(end),
            Step::On(next) => {
                seen.push(name)?;
                name = next;
            }
        }
    }
}

/// Gives the aliases from the name of a question on, and says what they end with.
fn chain_from<'a>(
    zone: &'a ZoneTree,
    alloc: Global,
    question: &QuestionRef<'_>,
    name: &NameRef<'_>,
    given: &mut WireRecords,
) -> Result<End<'a>, OutOfMemory>
    requires name { name.now ≡ question.now.qname }
    requires within { IsTrue (ends_name question.now.qname zone.now.apex) }
    requires none { given.old ≡ [] }
    ensures { IfOk result (λ e. behind given.new (wired (end_reply zone.now e)) ≡ wired (name_server_reply zone.now question.now)) }
{
    let found = step_of(zone, alloc, question.qtype().to_int(), name, given)?;
    match found {
        Step::End(end) => Ok(end),
        Step::On(next) => {
            let mut names = Vec::new(alloc);
            names.push(name.to_owned(alloc)?)?;
            chain_behind(zone, alloc, question, names, next, given)
        }
    }
}

/// Gives the aliases that a question leads to, and says what they end with.
fn chain<'a>(
    zone: &'a ZoneTree,
    alloc: Global,
    question: &QuestionRef<'_>,
    given: &mut WireRecords,
) -> Result<End<'a>, OutOfMemory>
    requires within { IsTrue (ends_name question.now.qname zone.now.apex) }
    requires none { given.old ≡ [] }
    ensures { IfOk result (λ e. behind given.new (wired (end_reply zone.now e)) ≡ wired (name_server_reply zone.now question.now)) }
{
    let octets = spelt(question.qname().labels());
    match NameRef::from_slice(octets.as_slice()) {
        Ok(name) => chain_from(zone, alloc, question, &name, given),
        Err(_) => unreachable!(),
    }
}

/// The reply of a name server to a question for a name at or below the apex of a zone, as it is built (RFC 1034, section
/// 4.3.2): with wildcards (RFC 4592), DNAME (RFC 6672), DS at a cut from the parent's side (RFC 4035, section 3.1.4.1), and
/// the negative answers of RFC 2308 after aliases too (RFC 6604).
pub fn name_server_reply(
    zone: &ZoneTree,
    alloc: Global,
    query: &Message,
    question: &QuestionRef<'_>,
) -> Result<AdditionalBuilder, PushError>
    requires { IsTrue (ends_name question.now.qname zone.now.apex) }
    ensures { Builds (unlimited (zone_message query.now (name_server_reply zone.now question.now))) result }
{
    let mut given = WireRecords::new(alloc);
    let end = chain(zone, alloc, question, &mut given)?;
    composed(zone, alloc, query, given, &end)
}
